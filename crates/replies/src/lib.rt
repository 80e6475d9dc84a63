// What the calls answer, as text at the front of a buffer. Each function answers the place after its text. A refusal may be any number.
#![tactic(auto)]

ghost use Rattle.std.specs.Prelude.{◌≡◌, ◌++◌, take};
ghost use Rattle.refusals.specs.Refusal.{result_says_by};
ghost use Rattle.chart.specs.Chart.{state_of, build_says_by};
ghost use Rattle.chart.specs.Calls.{post_says_by, reanalysis_says_by, correction_says_by, renewal_says_by};
ghost use Rattle.lines.specs.Lines.{lines_say, lines_answer_says_by};
ghost use Rattle.store.specs.Store.{read_says_by};
ghost use Rattle.printing.specs.Output.{Puts};
ghost use Rattle.replies.specs.Faults.{fault_text};
ghost use Rattle.replies.specs.Texts.{named_text, refusal_text, word_text, outcome_text, rounds_text, formed_text, building_text, answer_text};
ghost use Rattle.replies.specs.Texts.{chart_line_text, lines_text, bytes_text, reading_text, list_text, state_text, five_lines_text};
ghost use Rattle.rules.specs.Outcome.{given};

use chart::{Chart, Counts, Retested, WordJudged};
use lines::{Lines, TwoSidedLines, parts_in};
use printing::hex::put_hex;
use printing::numbers::{put_decimal, put_parts, put_signed, put_words};
use printing::put_text;
use refusals::Numbered;

pub fn put_formed<R: Numbered>(out: &mut [u8], formed: Result<i16, R>) -> usize
    ensures { Puts out.old 0 (formed_text (result_says_by R.number_of formed)) out.new result }
{
    match formed {
        Ok(w) => put_word(out, w),
        Err(refusal) => put_refusal(out, refusal.number()),
    }
}

// The text does not show the chart that building gave: it is the same for every chart.
pub fn put_build<R: Numbered>(out: &mut [u8], answer: Result<Counts, R>) -> usize
    ensures { (built : Chart) → Puts out.old 0 (building_text (build_says_by R.number_of built answer)) out.new result }
{
    match answer {
        Ok(counts) => put_rounds(out, b"built ", counts),
        Err(refusal) => put_refusal(out, refusal.number()),
    }
}

// The verdict may be any number.
pub fn put_post<J: WordJudged, R: Numbered>(out: &mut [u8], answer: Result<J, R>) -> usize
    ensures { Puts out.old 0 (answer_text (post_says_by J.word_of J.verdict_of R.number_of answer)) out.new result }
{
    match answer {
        Ok(judged) => {
            let at = put_word(out, judged.word_judged());
            put_named(out, at, b" verdict ", u64::from(judged.verdict_number()))
        }
        Err(refusal) => put_refusal(out, refusal.number()),
    }
}

pub fn put_reanalysis<R: Numbered>(out: &mut [u8], answer: Result<Retested, R>) -> usize
    ensures { Puts out.old 0 (answer_text (reanalysis_says_by R.number_of answer)) out.new result }
{
    match answer {
        Ok(retested) => put_retested(out, retested),
        Err(refusal) => put_refusal(out, refusal.number()),
    }
}

pub fn put_correction<R: Numbered>(out: &mut [u8], answer: Result<(), R>) -> usize
    ensures { Puts out.old 0 (answer_text (correction_says_by R.number_of answer)) out.new result }
{
    match answer {
        Ok(()) => put_text(out, 0, b"corrected"),
        Err(refusal) => put_refusal(out, refusal.number()),
    }
}

pub fn put_renewal<R: Numbered>(out: &mut [u8], answer: Result<Counts, R>) -> usize
    ensures { Puts out.old 0 (answer_text (renewal_says_by R.number_of answer)) out.new result }
{
    match answer {
        Ok(counts) => put_rounds(out, b"renewed ", counts),
        Err(refusal) => put_refusal(out, refusal.number()),
    }
}

pub fn put_lines<R: Numbered>(out: &mut [u8], answer: Result<Lines, R>) -> usize
    ensures { Puts out.old 0 (lines_text (lines_answer_says_by R.number_of answer)) out.new result }
{
    match answer {
        Ok(l) => put_each_line(out, l),
        Err(refusal) => put_refusal(out, refusal.number()),
    }
}

// What reading a stored form answers. The text is the same for every chart that was taken.
pub fn put_form_read<R: Numbered>(out: &mut [u8], answer: Result<(), R>) -> usize
    ensures { (taken : Chart) → Puts out.old 0 (reading_text (read_says_by R.number_of taken answer)) out.new result }
{
    match answer {
        Ok(()) => put_text(out, 0, b"read"),
        Err(refusal) => put_refusal(out, refusal.number()),
    }
}

// The bytes of a stored form.
pub fn put_form(out: &mut [u8], bytes: &[u8]) -> usize
    ensures { Puts out.old 0 (bytes_text bytes.now) out.new result }
{
    let behind_count = put_named(out, 0, b"bytes ", bytes.len() as u64);
    let at_digits = put_text(out, behind_count, b" ");
    put_hex(out, at_digits, bytes)
}

// The kind, the status, the open verdict, the base and the series.
pub fn put_chart(out: &mut [u8], chart: Chart) -> usize
    ensures { Puts out.old 0 (state_text (state_of chart)) out.new result }
{
    let behind_kind = put_named(out, 0, b"chart kind ", chart.kind as u64);
    let behind_status = put_named(out, behind_kind, b" status ", chart.status as u64);
    let behind_verdict = put_named(out, behind_status, b" verdict ", chart.open_verdict as u64);
    let behind_base = put_list(
        out,
        behind_verdict,
        b" base ",
        first_words(&chart.base, chart.base_len),
    );
    put_list(
        out,
        behind_base,
        b" series ",
        first_words(&chart.series, chart.series_len),
    )
}

// The first n words, or all if there are fewer.
fn first_words(words: &[i16], n: usize) -> &[i16]
    ensures { result.now ≡ take n words.now }
{
    &words[..n.min(words.len())]
}

// By number: CLAIMS promises a text for every number.
pub fn put_refusal(out: &mut [u8], n: u16) -> usize
    ensures { Puts out.old 0 (refusal_text n) out.new result }
{
    put_named(out, 0, b"refused ", n as u64)
}

// What can be wrong with a line.
#[derive(Clone, Copy, Debug, PartialEq, Eq)]
pub enum Fault {
    UnknownCommand,
    MissingNumber,
    ExtraNumber,
    NotANumber,
    NumberTooLarge,
    NotAHexDigit,
    OddHexDigits,
    LineTooLong,
}

impl Fault {
    // What is wrong with the line, and what to do.
    fn text(self) -> &'static [u8]
        ensures { result.now ≡ fault_text self }
    {
        match self {
            Fault::UnknownCommand => {
                b"error: unknown command; control_chart help lists the commands"
            }
            Fault::MissingNumber => {
                b"error: missing number; control_chart help shows what each command takes"
            }
            Fault::ExtraNumber => {
                b"error: extra number; control_chart help shows what each command takes"
            }
            Fault::NotANumber => {
                b"error: not a number; numbers are whole and in decimal, as 10250 or -313"
            }
            Fault::NumberTooLarge => b"error: number too large; a reading is at most 1000000000",
            Fault::NotAHexDigit => b"error: not a hex digit; hex digits are 0 to 9 and a to f",
            Fault::OddHexDigits => b"error: odd number of hex digits; a byte has two",
            Fault::LineTooLong => b"error: line too long; a line has at most 8191 bytes",
        }
    }
}

// The text of a fault in a line.
pub fn put_fault(out: &mut [u8], fault: Fault) -> usize
    ensures { Puts out.old 0 (fault_text fault) out.new result }
{
    put_text(out, 0, fault.text())
}

// ---- parts of texts

fn put_word(out: &mut [u8], w: i16) -> usize
    ensures { Puts out.old 0 (word_text w) out.new result }
{
    let at = put_text(out, 0, b"word ");
    put_signed(out, at, w as i64)
}

// A reanalysed word, and whether it passed.
fn put_retested(out: &mut [u8], retested: Retested) -> usize
    ensures { Puts out.old 0 (word_text retested.word ++ outcome_text retested.passed) out.new result }
{
    let at = put_word(out, retested.word);
    let outcome = if retested.passed {
        b" passed"
    } else {
        b" failed"
    };
    put_text(out, at, outcome)
}

// What was done, the number of rounds and the number of words removed.
fn put_rounds(out: &mut [u8], done: &[u8], counts: Counts) -> usize
    ensures { Puts out.old 0 (done.now ++ rounds_text counts.rounds counts.removed) out.new result }
{
    let at = put_text(out, 0, done);
    let behind_rounds = put_named(out, at, b"rounds ", counts.rounds as u64);
    put_named(out, behind_rounds, b" removed ", counts.removed as u64)
}

fn put_each_line(out: &mut [u8], lines: Lines) -> usize
    ensures { Puts out.old 0 (lines_text (given (lines_say lines))) out.new result }
{
    let at = put_text(out, 0, b"lines");
    match lines {
        Lines::Duplicate {
            mean,
            upper_warning,
            upper_control,
        } => {
            let behind_mean = put_chart_line(out, at, mean);
            let behind_warning = put_chart_line(out, behind_mean, upper_warning);
            put_chart_line(out, behind_warning, upper_control)
        }
        Lines::TwoSided(l) => put_five_lines(out, at, l),
    }
}

fn put_five_lines(out: &mut [u8], at: usize, l: TwoSidedLines) -> usize
    ensures { Puts out.old at (five_lines_text l) out.new result }
{
    let behind_mean = put_chart_line(out, at, l.mean);
    let behind_lower = put_chart_line(out, behind_mean, l.lower_warning);
    let behind_warning = put_chart_line(out, behind_lower, l.upper_warning);
    let behind_control = put_chart_line(out, behind_warning, l.lower_control);
    put_chart_line(out, behind_control, l.upper_control)
}

// A line of the chart, after a space.
fn put_chart_line(out: &mut [u8], at: usize, line: f64) -> usize
    ensures { Puts out.old at (chart_line_text line) out.new result }
{
    let next = put_text(out, at, b" ");
    put_parts(out, next, parts_in(line))
}

// A name, and a number after it.
fn put_named(out: &mut [u8], at: usize, name: &[u8], n: u64) -> usize
    ensures { Puts out.old at (named_text name.now n) out.new result }
{
    let next = put_text(out, at, name);
    put_decimal(out, next, n)
}

// A name, how many words there are, and the words.
fn put_list(out: &mut [u8], at: usize, name: &[u8], words: &[i16]) -> usize
    ensures { Puts out.old at (list_text name.now words.now) out.new result }
{
    let behind_count = put_named(out, at, name, words.len() as u64);
    put_words(out, behind_count, words)
}
