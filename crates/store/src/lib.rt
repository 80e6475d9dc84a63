// The stored form of a chart: document 01, "Stored form". It has three records. Every number is little-endian in two bytes, and words are
// in two's complement. The code names the byte order in each conversion, so the byte order of the machine plays no part.
//
// Writing refuses, in this order: a chart that is not sound, with 14; a buffer shorter than the stored form, with 15. A refused write does
// not change the buffer. Reading refuses, in this order: bytes that are not the three records, with 13; a chart that is not sound, with 14.
// It decides 13 before it tests any content. A refused read gives the chart of zeros.
#![tactic(auto)]

pub mod held;
mod numbers;
mod reader;
mod records;

ghost use Rattle.std.specs.Prelude.{◌≡◌, ◌≤◌, length, Some};
ghost use Rattle.rules.specs.Outcome.{refused};
ghost use Rattle.refusals.specs.Refusal.{refusal_number};
ghost use Rattle.rules.specs.Sizes.{base_most, series_most};
ghost use Rattle.rules.specs.StoredForm.{stored_form};
ghost use Rattle.rules.specs.ReadForm.{reading};
ghost use Rattle.chart.specs.Chart.{state_of};
ghost use Rattle.rules.specs.Buffer.{Placed};
ghost use Rattle.store.specs.Records.{layout_of, LiesWithin, filled_from};
ghost use Rattle.store.specs.Store.{Writes, IsRead, Returns, form_size};

use chart::sound::SoundChart;
use chart::soundness::is_sound;
use chart::{Called, Chart, zero_chart};
use numbers::word_of;
use reader::{BEFORE_NUMBERS, Cursor};
use records::{Place, find_record, nth_number, put_record};
use refusals::Refusal;

// The places of the three records of a stored form.
#[derive(Clone, Copy)]
struct Layout {
    head: Place,
    base: Place,
    series: Place,
}

// The record kinds.
const HEAD_KIND: u16 = 1;

const BASE_KIND: u16 = 2;

const SERIES_KIND: u16 = 3;

// How many numbers the first record has: chart kind, status, open verdict.
const HEAD_COUNT: usize = 3;

// The number of bytes of the longest stored form: three records with as many words as they may have. A buffer of that many bytes has room
// for every chart.
pub const FORM_MOST: usize = 3 * BEFORE_NUMBERS
    + 2 * (HEAD_COUNT + Chart::BASE_MOST + Chart::SERIES_MOST);

// Writes the stored form to the front of the buffer. The bytes after it do not change.
pub fn write(chart: Chart, out: &mut [u8]) -> Result<usize, Refusal>
    ensures { Writes chart out.old out.new result }
{
    let sound = chart.checked()?;
    write_sound(sound, out)
}

// The same for a chart that is known to be sound: one that was just read, or one that a call on a sound chart left.
pub fn write_sound(sound: SoundChart, out: &mut [u8]) -> Result<usize, Refusal>
    ensures { Writes sound.chart out.old out.new result }
{
    if out.len() < form_size(sound.chart.base_len, sound.chart.series_len) {
        return Err(Refusal::NoRoom);
    }
    Ok(put_form(sound, out))
}

// Reads the chart that has these bytes as its stored form.
pub fn read(bytes: &[u8]) -> Called<()>
    ensures { IsRead (reading bytes.now) result }
{
    let Some(layout) = lay_out(bytes) else {
        return declined_read(Refusal::NoStoredForm);
    };
    read_form(bytes, layout)
}

// Writes a chart and reads the written bytes back. This gives the same chart. If writing refuses, the answer is that refusal, with the
// chart of zeros.
pub fn write_and_read(chart: Chart, out: &mut [u8]) -> Called<()>
    ensures { Returns chart out.old out.new result }
{
    let written = write(chart, out);
    match written {
        Ok(size) => read(&out[..size]),
        Err(refusal) => declined_read(refusal),
    }
}

// ---- writing

// The number of bytes of a stored form with n base words and m series words.
fn form_size(n: usize, m: usize) -> usize
    requires { (n ≤ base_most) × (m ≤ series_most) }
    ensures { result ≡ form_size n m }
{
    3 * BEFORE_NUMBERS + 2 * (HEAD_COUNT + n + m)
}

// Puts the stored form of a sound chart at the front of a buffer that has room for it. Answers its number of bytes. The numbers of the
// first record are passed as the words that they stand for, so that one function writes all three records.
#[tactic(auto, using(crate::proofs::Writing::sound_counts))]
fn put_form(sound: SoundChart, out: &mut [u8]) -> usize
    requires { form_size sound.chart.base_len sound.chart.series_len ≤ length out.old }
    ensures { Placed out.old 0 (stored_form (state_of sound.chart)) out.new result }
{
    let chart = sound.chart;
    let head = [
        word_of(chart.kind),
        word_of(chart.status),
        word_of(chart.open_verdict),
    ];
    let base = chart.base;
    let n = chart.base_len;
    let series = chart.series;
    let m = chart.series_len;
    let after_head = put_record(out, 0, HEAD_KIND, &head);
    let after_base = put_record(out, after_head, BASE_KIND, &base[..n]);
    put_record(out, after_base, SERIES_KIND, &series[..m])
}

// ---- reading

// Finds the three records, one after the other, with nothing after them.
fn lay_out(bytes: &[u8]) -> Option<Layout>
    ensures { result ≡ layout_of bytes.now }
{
    let head = find_record(bytes, Cursor { at: 0 }, HEAD_KIND, HEAD_COUNT, HEAD_COUNT)?;
    let base = find_record(
        bytes,
        Cursor { at: head.end },
        BASE_KIND,
        Chart::BASE_LEAST,
        Chart::BASE_MOST,
    )?;
    let series = find_record(
        bytes,
        Cursor { at: base.end },
        SERIES_KIND,
        0,
        Chart::SERIES_MOST,
    )?;
    if series.end < bytes.len() {
        return None;
    }
    Some(Layout { head, base, series })
}

// The chart that the three records hold. The soundness test runs on the two arrays into which the words were read. The chart is then made
// once, inside the answer. A test of a chart value would copy the arrays once for the test, and once more into the answer.
#[tactic(auto, using(crate::proofs::Reading::base_few, crate::proofs::Reading::series_few))]
fn read_form(bytes: &[u8], layout: Layout) -> Called<()>
    requires { layout_of bytes.now ≡ Some layout }
    ensures { IsRead (reading bytes.now) result }
{
    let Layout { head, base, series } = layout;
    let kind = nth_number(bytes, head, 0);
    let status = nth_number(bytes, head, 1);
    let open_verdict = nth_number(bytes, head, 2);
    let n = base.count;
    let mut base_words = [0i16; Chart::BASE_MOST];
    fill(&mut base_words, bytes, base);
    let m = series.count;
    let mut series_words = [0i16; Chart::SERIES_MOST];
    fill(&mut series_words, bytes, series);
    if !is_sound(
        kind,
        &base_words[..n],
        &series_words[..m],
        status,
        open_verdict,
    ) {
        return declined_read(Refusal::NotSound);
    }
    Called {
        chart: Chart {
            kind,
            base: base_words,
            base_len: n,
            series: series_words,
            series_len: m,
            status,
            open_verdict,
        },
        answer: Ok(()),
    }
}

// Puts the words of a record into the first places of an array.
fn fill(words: &mut [i16], bytes: &[u8], place: Place)
    requires { (place.count ≤ length words.old) × LiesWithin bytes.now place }
    ensures { words.new ≡ filled_from bytes.now place words.old }
{
    for (i, word) in words[..place.count].iter_mut().enumerate() {
        *word = word_of(nth_number(bytes, place, i));
    }
}

// What a refused read answers.
fn declined_read(refusal: Refusal) -> Called<()>
    ensures { IsRead (refused (refusal_number refusal)) result }
{
    Called {
        chart: zero_chart(),
        answer: Err(refusal),
    }
}
