// The calls of a list: the test whether numbers are a list, and the call at a place of it.
ghost use Rattle.std.specs.Prelude.{◌≡◌, ◌+◌, ◌≤◌, length};
ghost use Rattle.lists.specs.Encoding.{is_call_number, are_calls, kind_in_call, call_of, call_size, answer_size};
ghost use Rattle.lists.specs.Runs.{IsCalled, IsCalledAt};

use crate::answers::{
    Said, put_answer, said_by_correction, said_by_post, said_by_reanalysis, said_by_renewal,
};
use chart::Chart;

// How many numbers a call has.
pub const CALL_SIZE: usize = 5;

// What a call gave: the chart that it gave back, and its answer.
#[derive(Clone, Copy)]
pub struct Called {
    pub chart: Chart,
    pub said: Said,
}

// Whether the numbers are a list. Each call has five numbers, and the call's number comes first.
pub fn are_calls(numbers: &[i64]) -> bool
    ensures { result ≡ are_calls numbers.now }
{
    let mut calls = numbers.chunks_exact(CALL_SIZE);
    calls.remainder().is_empty() && calls.all(|call| is_call_number(call[0]))
}

#[tactic(auto, unfolding(crate::specs::Encoding::is_call_number))]
fn is_call_number(number: i64) -> bool
    ensures { result ≡ is_call_number number }
{
    (1..=4).contains(&number)
}

// Makes the call at a place of the list, and puts its answer into the buffer.
pub fn call_at(chart: Chart, calls: &[i64], at: usize, answers: &mut [i64], place: usize) -> Chart
    requires { (at + call_size ≤ length calls.now) × (place + answer_size ≤ length answers.old) }
    ensures { IsCalledAt chart calls.now at answers.old place answers.new result }
{
    let number = calls[at];
    let kind = kind_in_call(calls[at + 1]);
    let r = call(
        chart,
        number,
        kind,
        calls[at + 2],
        calls[at + 3],
        calls[at + 4],
    );
    put_answer(answers, place, r.said);
    r.chart
}

// A number in 0..65535 is itself the kind. Any other number is not a chart's kind. It becomes 0, which is not one either.
#[tactic(auto, using(crate::proofs::Decoding::kind_is))]
fn kind_in_call(number: i64) -> u16
    ensures { result ≡ kind_in_call number }
{
    u16::try_from(number).unwrap_or(0)
}

// One call on a chart.
fn call(chart: Chart, number: i64, kind: u16, a: i64, b: i64, c: i64) -> Called
    ensures { IsCalled chart (call_of number kind a b c) result }
{
    match number {
        1 => {
            let r = chart.post(kind, a, b, c);
            Called {
                chart: r.chart,
                said: said_by_post(r.answer),
            }
        }
        2 => {
            let r = chart.reanalyse(kind, a, b, c);
            Called {
                chart: r.chart,
                said: said_by_reanalysis(r.answer),
            }
        }
        3 => {
            let r = chart.correct();
            Called {
                chart: r.chart,
                said: said_by_correction(r.answer),
            }
        }
        // 4, the only other number of a call.
        _ => {
            let r = chart.renew();
            Called {
                chart: r.chart,
                said: said_by_renewal(r.answer),
            }
        }
    }
}
