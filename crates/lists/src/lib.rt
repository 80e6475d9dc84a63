// Whole lists of calls: document 01, "Lists". A chart is built from words or read from bytes. Each call takes the chart that the call
// before it gave back. Lines are asked of the chart after the last call.
//
// A list is numbers, five to a call. The first is the call's number: 1 post, 2 reanalysis, 3 correction, 4 renewal. A kind and three
// numbers follow. A correction and a renewal ignore these. An answer is three numbers. The first is the call's number, and the other two
// are word and verdict (1), word and 1 for passed or 0 for failed (2), 0 and 0 (3), rounds and number removed (4). A refusal is 0, its
// number and 0.
//
// A list is refused in three cases, in this order: the numbers are not a list; the buffer has no room for all answers; building or reading
// refuses the start. Then nothing is run: the buffer does not change, and the chart is the chart of zeros, which has no lines.
#![tactic(auto)]

mod answers;
mod calls;

ghost use Rattle.std.specs.Prelude.{◌≡◌, true};
ghost use Rattle.rules.specs.Lists.{words_start};
ghost use Rattle.store.specs.HeldChart.{IsHeld};
ghost use Rattle.lists.specs.declared.ListRefusal.TheVariants.{Start};
ghost use Rattle.lists.specs.Encoding.{are_calls, answers_fit};
ghost use Rattle.lists.specs.Runs.{RunsFromWords, RunsFromBytes, RunsFrom, TriesFrom, RunsCalls};

use answers::ANSWER_SIZE;
use calls::{CALL_SIZE, are_calls, call_at};
use chart::sound::SoundChart;
use chart::{Chart, zero_chart};
use lines::{Lines, lines_of};
use refusals::Refusal;
use store::held::held_in;

// Why a list is refused.
#[derive(Clone, Copy, Debug, PartialEq, Eq)]
pub enum ListRefusal {
    // The numbers are not a list of calls.
    NotCalls,
    // The buffer has no room for the answers.
    NoRoom,
    // Building or reading refused.
    Start(Refusal),
}

impl From<Refusal> for ListRefusal {
    ghost from_gives = { λ refusal e. e ≡ Start refusal };

    fn from(refusal: Refusal) -> ListRefusal {
        ListRefusal::Start(refusal)
    }
}

#[derive(Clone, Copy)]
pub struct Run {
    pub chart: Chart,
    // If the list was run, its answers stand in the buffer.
    pub answer: Result<(), ListRefusal>,
    // The lines of that chart.
    pub lines: Result<Lines, Refusal>,
}

// Builds a chart from words, and runs a list of calls from it.
pub fn run_from_words(kind: u16, words: &[i16], calls: &[i64], answers: &mut [i64]) -> Run
    ensures { RunsFromWords kind words.now calls.now answers.old answers.new result }
{
    run_from(held_of(kind, words), calls, answers)
}

// Reads a chart from bytes, and runs a list of calls from it.
pub fn run_from_bytes(bytes: &[u8], calls: &[i64], answers: &mut [i64]) -> Run
    ensures { RunsFromBytes bytes.now calls.now answers.old answers.new result }
{
    run_from(held_in(bytes), calls, answers)
}

// The chart that is built of these words.
#[tactic(auto, using(crate::proofs::Starting::held_built, crate::proofs::Starting::held_not_built, chart::proofs::StaysSound::built_is_sound))]
fn held_of(kind: u16, words: &[i16]) -> Result<SoundChart, Refusal>
    ensures { IsHeld (words_start kind words.now) result }
{
    let b = Chart::build(kind, words);
    b.answer?;
    Ok(SoundChart { chart: b.chart })
}

// Runs the list, unless it is refused. A refused list gives the chart of zeros.
fn run_from(start: Result<SoundChart, Refusal>, calls: &[i64], answers: &mut [i64]) -> Run
    ensures { RunsFrom start calls.now answers.old answers.new result }
{
    let (chart, answer) = match try_run(start, calls, answers) {
        Ok(after) => (after, Ok(())),
        Err(refusal) => (zero_chart(), Err(refusal)),
    };
    Run {
        chart,
        answer,
        lines: lines_of(chart),
    }
}

// The chart after the calls, unless the list is refused. A refused list does not change the buffer.
#[tactic(auto, using(crate::proofs::Outcomes::tests))]
fn try_run(
    start: Result<SoundChart, Refusal>,
    calls: &[i64],
    answers: &mut [i64],
) -> Result<Chart, ListRefusal>
    ensures { TriesFrom start calls.now answers.old answers.new result }
{
    if !are_calls(calls) {
        return Err(ListRefusal::NotCalls);
    }
    let short = answers.len() / ANSWER_SIZE < calls.len() / CALL_SIZE;
    if short {
        return Err(ListRefusal::NoRoom);
    }
    let held = start?;
    Ok(run_calls(held.chart, calls, answers))
}

// Makes the calls one after the other, each on the chart that the one before gave back.
fn run_calls(start: Chart, calls: &[i64], answers: &mut [i64]) -> Chart
    requires { (are_calls calls.now ≡ true) × (answers_fit calls.now answers.old ≡ true) }
    ensures { RunsCalls start calls.now answers.old answers.new result }
{
    let mut chart = start;
    // By places: a proof does not know what `chunks_exact_mut` leaves in the buffer.
    for i in 0..calls.len() / CALL_SIZE {
        chart = call_at(chart, calls, i * CALL_SIZE, answers, i * ANSWER_SIZE);
    }
    chart
}
