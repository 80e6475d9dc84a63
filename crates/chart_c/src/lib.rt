// The C interface: every call of document 01, with numbers and lent buffers. The chart is always in its stored form, in a buffer that the
// caller lends. `include/control_chart.h` explains each function, so a change here needs a change there.
//
// Each function answers 0 or the number of a refusal. A refusal leaves everything that was lent as it was. A function reads the chart from
// its bytes (13, 14), makes the call (its own numbers, in the paper's order), and writes the chart after it (15). A slice is passed as a
// pointer and a length, a `&mut` number as a pointer.
#![tactic(auto)]

mod calls;
mod forms;
mod plotting;
mod strings;

ghost use Rattle.std.specs.Prelude.{◌≡◌};
ghost use Rattle.rules.specs.Word.{word_alone};
ghost use Rattle.rules.specs.Building.{building};
ghost use Rattle.rules.specs.Machine as machine;
ghost use Rattle.refusals.specs.Refusal as refusal;
ghost use Rattle.texts.specs.Texts.{refusal_meaning, verdict_meaning, version};
ghost use Rattle.chart_c.specs.Lent.{answered_number};
ghost use Rattle.chart_c.specs.Answers.{Judges, Reanalyses, Counts};
ghost use Rattle.chart_c.specs.Calls.{FormsWord, built_outcome, called, Leaves};
ghost use Rattle.chart_c.specs.Plotting.{drawn, Draws, compared, Compares, Checks};
ghost use Rattle.chart_c.specs.Texts.{PutsText};

use calls::{build, correct, form_word, post, reanalyse, renew};
use plotting::{compare, draw};
use refusals::Refusal;
use store::read;
use strings::{TEXT_MOST, put_string};
use texts::{put_refusal_meaning, put_verdict_meaning, put_version};

// A kind is passed as a number of 32 bits. So a number that does not fit in sixteen bits is not cut to a valid kind on its way here.
#[unsafe(no_mangle)]
pub extern "C" fn control_chart_word(kind: u32, a: i64, b: i64, c: i64, word: &mut i16) -> u16
    ensures { FormsWord (word_alone kind a b c) word.old word.new result }
{
    number_in(form_word(kind, a, b, c, word))
}

#[unsafe(no_mangle)]
pub extern "C" fn control_chart_build(
    kind: u32,
    words: &[i16],
    chart: &mut [u8],
    size: &mut usize,
    rounds: &mut usize,
    removed: &mut usize,
) -> u16
    ensures { Leaves (built_outcome chart.old (building kind words.now))
        chart.old chart.new size.old size.new
        (λ p. Counts p rounds.old rounds.new removed.old removed.new result) }
{
    number_in(build(kind, words, chart, size, rounds, removed))
}

#[unsafe(no_mangle)]
pub extern "C" fn control_chart_post(
    chart: &mut [u8],
    size: &mut usize,
    kind: u32,
    a: i64,
    b: i64,
    c: i64,
    word: &mut i16,
    verdict: &mut u16,
) -> u16
    ensures { Leaves (called chart.old size.old (machine.post kind a b c))
        chart.old chart.new size.old size.new
        (λ p. Judges p word.old word.new verdict.old verdict.new result) }
{
    number_in(post(chart, size, kind, a, b, c, word, verdict))
}

#[unsafe(no_mangle)]
pub extern "C" fn control_chart_reanalyse(
    chart: &mut [u8],
    size: &mut usize,
    kind: u32,
    a: i64,
    b: i64,
    c: i64,
    word: &mut i16,
    passed: &mut u8,
) -> u16
    ensures { Leaves (called chart.old size.old (machine.reanalysis kind a b c))
        chart.old chart.new size.old size.new
        (λ p. Reanalyses p word.old word.new passed.old passed.new result) }
{
    number_in(reanalyse(chart, size, kind, a, b, c, word, passed))
}

#[unsafe(no_mangle)]
pub extern "C" fn control_chart_correct(chart: &mut [u8], size: &mut usize) -> u16
    ensures { Leaves (called chart.old size.old machine.correction)
        chart.old chart.new size.old size.new
        (λ p. result ≡ answered_number p) }
{
    number_in(correct(chart, size))
}

#[unsafe(no_mangle)]
pub extern "C" fn control_chart_renew(
    chart: &mut [u8],
    size: &mut usize,
    rounds: &mut usize,
    removed: &mut usize,
) -> u16
    ensures { Leaves (called chart.old size.old machine.renewal)
        chart.old chart.new size.old size.new
        (λ p. Counts p rounds.old rounds.new removed.old removed.new result) }
{
    number_in(renew(chart, size, rounds, removed))
}

#[unsafe(no_mangle)]
pub extern "C" fn control_chart_lines(chart: &[u8], lines: &mut [f64], count: &mut usize) -> u16
    ensures { Draws (drawn chart.now lines.old)
        lines.old lines.new count.old count.new result }
{
    number_in(draw(chart, lines, count))
}

// A word is passed as a number of 32 bits too. A number that does not fit in sixteen bits is refused with 7.
#[unsafe(no_mangle)]
pub extern "C" fn control_chart_against_lines(chart: &[u8], word: i32, beyond: &mut [u8]) -> u16
    ensures { Compares (compared chart.now word beyond.old) beyond.old beyond.new result }
{
    number_in(compare(chart, word, beyond))
}

#[unsafe(no_mangle)]
pub extern "C" fn control_chart_check(chart: &[u8]) -> u16
    ensures { Checks chart.now result }
{
    let back = read(chart);
    number_in(back.answer)
}

// What a number means, as text. The number has 32 bits, as a kind has, so that a larger number is not cut to that of a refusal.
#[unsafe(no_mangle)]
pub extern "C" fn control_chart_refusal_text(number: u32, text: &mut [u8]) -> u16
    ensures { PutsText (refusal_meaning number) text.old text.new result }
{
    let mut meaning = [0u8; TEXT_MOST];
    let length = put_refusal_meaning(&mut meaning, number);
    number_in(put_string(&meaning[..length], text))
}

#[unsafe(no_mangle)]
pub extern "C" fn control_chart_verdict_text(verdict: u32, text: &mut [u8]) -> u16
    ensures { PutsText (verdict_meaning verdict) text.old text.new result }
{
    let mut meaning = [0u8; TEXT_MOST];
    let length = put_verdict_meaning(&mut meaning, verdict);
    number_in(put_string(&meaning[..length], text))
}

#[unsafe(no_mangle)]
pub extern "C" fn control_chart_version(text: &mut [u8]) -> u16
    ensures { PutsText version text.old text.new result }
{
    let mut number = [0u8; TEXT_MOST];
    let length = put_version(&mut number);
    number_in(put_string(&number[..length], text))
}

// The number that C gets: 0, or that of the refusal.
#[tactic(auto, unfolding(refusals::specs::Refusal::answered_number))]
fn number_in<A: Copy>(answer: Result<A, Refusal>) -> u16
    ensures { result ≡ refusal.answered_number answer }
{
    match answer {
        Ok(_) => 0,
        Err(refusal) => refusal.number(),
    }
}
