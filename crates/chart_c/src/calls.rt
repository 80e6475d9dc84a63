// A word formed alone, building, and the calls on the chart in a lent buffer. The chart is read from its bytes (13, 14), the call is made
// on it (its own numbers), the chart after it is written back (15), and what the call answers goes into the lent places. Building takes
// the last two steps. A refusal leaves everything that was lent as it was.
ghost use Rattle.std.specs.Prelude.{◌≡◌};
ghost use Rattle.rules.specs.Word.{word_alone};
ghost use Rattle.rules.specs.Building.{building};
ghost use Rattle.rules.specs.Machine as machine;
ghost use Rattle.refusals.specs.Refusal.{result_says, answered_number};
ghost use Rattle.chart.specs.Chart.{state_of};
ghost use Rattle.chart_c.specs.Lent as lent;
ghost use Rattle.chart_c.specs.Answers.{Judges, Reanalyses, Counts};
ghost use Rattle.chart_c.specs.Forms.{kept_in, KeepsChart};
ghost use Rattle.chart_c.specs.Calls.{FormsWord, built_outcome, called, Leaves};

use crate::forms::{held_at_front, kind_passed};
use chart::Chart;
use chart::sound::SoundChart;
use refusals::Refusal;
use store::write_sound;

// Puts the word of the readings into the lent place.
pub fn form_word(kind: u32, a: i64, b: i64, c: i64, place: &mut i16) -> Result<(), Refusal>
    ensures { FormsWord (word_alone kind a b c) place.old place.new (answered_number result) }
{
    let formed = words::word(kind_passed(kind), a, b, c)?;
    *place = formed;
    Ok(())
}

pub fn build(
    kind: u32,
    words: &[i16],
    chart: &mut [u8],
    size: &mut usize,
    rounds: &mut usize,
    removed: &mut usize,
) -> Result<(), Refusal>
    ensures { Leaves (built_outcome chart.old (building kind words.now))
        chart.old chart.new size.old size.new
        (λ p. Counts p rounds.old rounds.new removed.old removed.new (answered_number result)) }
{
    let built = Chart::build(kind_passed(kind), words);
    let made = built.answer?;
    let counts = keep(SoundChart { chart: built.chart }, Ok(made), chart, size)?;
    *rounds = counts.rounds;
    *removed = counts.removed;
    Ok(())
}

pub fn post(
    chart: &mut [u8],
    size: &mut usize,
    kind: u32,
    a: i64,
    b: i64,
    c: i64,
    word: &mut i16,
    verdict: &mut u16,
) -> Result<(), Refusal>
    ensures { Leaves (called chart.old size.old (machine.post kind a b c))
        chart.old chart.new size.old size.new
        (λ p. Judges p word.old word.new verdict.old verdict.new (answered_number result)) }
{
    let mut held = held_at_front(chart, *size)?;
    let answer = held.post(kind_passed(kind), a, b, c);
    let judged = keep(held, answer, chart, size)?;
    *word = judged.word;
    *verdict = judged.verdict.number();
    Ok(())
}

// 1 for passed, 0 for failed.
pub fn reanalyse(
    chart: &mut [u8],
    size: &mut usize,
    kind: u32,
    a: i64,
    b: i64,
    c: i64,
    word: &mut i16,
    passed: &mut u8,
) -> Result<(), Refusal>
    ensures { Leaves (called chart.old size.old (machine.reanalysis kind a b c))
        chart.old chart.new size.old size.new
        (λ p. Reanalyses p word.old word.new passed.old passed.new (answered_number result)) }
{
    let mut held = held_at_front(chart, *size)?;
    let answer = held.reanalyse(kind_passed(kind), a, b, c);
    let retested = keep(held, answer, chart, size)?;
    *word = retested.word;
    *passed = u8::from(retested.passed);
    Ok(())
}

pub fn correct(chart: &mut [u8], size: &mut usize) -> Result<(), Refusal>
    ensures { Leaves (called chart.old size.old machine.correction)
        chart.old chart.new size.old size.new
        (λ p. answered_number result ≡ lent.answered_number p) }
{
    let mut held = held_at_front(chart, *size)?;
    let answer = held.correct();
    keep(held, answer, chart, size)
}

pub fn renew(
    chart: &mut [u8],
    size: &mut usize,
    rounds: &mut usize,
    removed: &mut usize,
) -> Result<(), Refusal>
    ensures { Leaves (called chart.old size.old machine.renewal)
        chart.old chart.new size.old size.new
        (λ p. Counts p rounds.old rounds.new removed.old removed.new (answered_number result)) }
{
    let mut held = held_at_front(chart, *size)?;
    let answer = held.renew();
    let counts = keep(held, answer, chart, size)?;
    *rounds = counts.rounds;
    *removed = counts.removed;
    Ok(())
}

// Keeps the chart after a call that was not refused: its form goes to the front of the buffer, and the form's length into `size`. If there
// is no room, the call is refused with 15.
fn keep<A: Copy>(
    after: SoundChart,
    answer: Result<A, Refusal>,
    chart: &mut [u8],
    size: &mut usize,
) -> Result<A, Refusal>
    ensures { KeepsChart (kept_in chart.old (state_of after.chart) (result_says answer))
        chart.old chart.new size.old size.new result }
{
    let answered = answer?;
    let n = write_sound(after, chart)?;
    *size = n;
    Ok(answered)
}
