// A word formed from a reading: document 01, "From readings to words".
//
// `word` forms a word alone. It refuses, in this order: 1 a kind that is not 1..3, 5 a reading outside 0..1,000,000,000, 6 a divisor of 0,
// 7 a word out of range. Every reading goes through `from_reading`, which refuses with 5, 6 and 7. `word_for` forms the word of a reading
// for a chart. `is_kind`, `in_range` and `all_in_range` test a kind and the range of its words, for building and soundness.
//
// `&` and `|` join tests and evaluate both sides. No test can overflow, and the result is the definition's own expression.
#![tactic(auto)]

ghost use Rattle.std.specs.Prelude.{◌≡◌, true, ◌+◌, ◌-◌, ◌^◌, ◌≤◌, ◌<◌};
ghost use Rattle.rules.specs.Kind.{is_kind, in_range};
ghost use Rattle.rules.specs.Building.{all_in_range};
ghost use Rattle.rules.specs.Machine.{word_for};
ghost use Rattle.rules.specs.Word.{is_reading, are_readings, nearest_natural, from_reading, word_alone};
ghost use Rattle.rules.specs.Word as rules;
ghost use Rattle.refusals.specs.Refusal.{result_says};
ghost use Rattle.words.specs.Formed.{signed, ReadingIs, IsQuotient};

use extremes::extremes_of;
use refusals::Refusal;

// The range of words; for kind 1 it starts at 0.
const WORD_LEAST: i64 = -20000;

const WORD_MOST: i64 = 20000;

const READING_MOST: i64 = 1000000000;

// A quotient before rounding, with the sign and the magnitude of its numerator.
#[derive(Clone, Copy)]
struct Quotient {
    negative: bool,
    numerator: u64,
    divisor: u64,
}

pub fn word(kind: u16, a: i64, b: i64, c: i64) -> Result<i16, Refusal>
    ensures { result_says result ≡ word_alone kind a b c }
{
    if !is_kind(kind) {
        return Err(Refusal::NoKind);
    }
    from_reading(kind, a, b, c)
}

// 1 duplicate, 2 check, 3 spike
#[tactic(auto, unfolding(rules::specs::Kind::is_kind))]
pub fn is_kind(kind: u16) -> bool
    ensures { result ≡ is_kind kind }
{
    (1..=3).contains(&kind)
}

// The word of a reading for a chart. A reading of another kind than the chart is refused with 4. Then 5, 6 and 7 apply.
pub fn word_for(chart_kind: u16, kind: u16, a: i64, b: i64, c: i64) -> Result<i16, Refusal>
    ensures { result_says result ≡ word_for chart_kind kind a b c }
{
    if kind != chart_kind {
        return Err(Refusal::AnotherKind);
    }
    from_reading(kind, a, b, c)
}

// The paper's kinds are 1..3. Any other kind is treated as kind 3.
pub fn from_reading(kind: u16, a: i64, b: i64, c: i64) -> Result<i16, Refusal>
    ensures { result_says result ≡ from_reading kind a b c }
{
    if !are_readings(kind, a, b, c) {
        return Err(Refusal::NoReading);
    }
    let q = quotient_of(kind, a, b, c);
    if q.divisor == 0 {
        return Err(Refusal::Divisor);
    }
    let w = nearest(q);
    if !in_range(kind, w) {
        return Err(Refusal::NoWord);
    }
    Ok(w as i16)
}

// The range is that of the kind's words: 0..20000 for kind 1, −20000..20000 for the others.
#[tactic(auto, using(crate::proofs::Readings::least_words), unfolding(rules::specs::Kind::in_range))]
pub fn in_range(kind: u16, w: i64) -> bool
    ensures { result ≡ in_range kind w }
{
    if kind == 1 {
        return (0..=WORD_MOST).contains(&w);
    }
    (WORD_LEAST..=WORD_MOST).contains(&w)
}

// Every word is in the range of the kind exactly if the least and the greatest are.
pub fn all_in_range(kind: u16, words: &[i16]) -> bool
    ensures { result ≡ all_in_range kind words.now }
{
    if words.is_empty() {
        return true;
    }
    let e = extremes_of(words);
    word_in_range(kind, e.least) & word_in_range(kind, e.greatest)
}

// `in_range` for a word as charts hold it.
fn word_in_range(kind: u16, w: i16) -> bool
    ensures { result ≡ in_range kind w }
{
    in_range(kind, i64::from(w))
}

// Kinds 1 and 2 ignore the third number, whatever it is.
fn are_readings(kind: u16, a: i64, b: i64, c: i64) -> bool
    ensures { result ≡ are_readings kind a b c }
{
    is_reading(a) & (is_reading(b) & ((kind == 1) | (kind == 2) | is_reading(c)))
}

#[tactic(auto, unfolding(rules::specs::Word::is_reading))]
fn is_reading(x: i64) -> bool
    ensures { result ≡ is_reading x }
{
    (0..=READING_MOST).contains(&x)
}

fn quotient_of(kind: u16, a: i64, b: i64, c: i64) -> Quotient
    requires { are_readings kind a b c ≡ true }
    ensures { IsQuotient kind a b c result }
{
    let x = reading(a);
    let y = reading(b);
    match kind {
        1 => Quotient {
            negative: false,
            numerator: 20000 * x.abs_diff(y),
            divisor: x + y,
        },
        2 => Quotient {
            negative: false,
            numerator: 10000 * x,
            divisor: y,
        },
        _ => Quotient {
            negative: x < y,
            numerator: 10000 * x.abs_diff(y),
            divisor: reading(c),
        },
    }
}

// A reading is not negative.
#[tactic(auto, using(crate::proofs::Readings::reading_natural))]
fn reading(x: i64) -> u64
    requires { is_reading x ≡ true }
    ensures { ReadingIs x result }
{
    x.unsigned_abs()
}

// The nearest whole number, halves to the even one.
fn nearest(q: Quotient) -> i64
    requires { (0 < q.divisor) × (q.numerator < 2 ^ 63) }
    ensures { result ≡ rules.nearest (signed q.negative q.numerator) q.divisor }
{
    let w = nearest_natural(q.numerator, q.divisor) as i64;
    if q.negative { -w } else { w }
}

// The whole quotient if the remainder is less than half of the divisor, one more if it is more than half, the even one of the two if it is
// exactly half. What is left is compared with what is lacking to the next multiple, since twice the remainder may not fit.
#[tactic(auto, using(crate::proofs::Halves::half_even, crate::proofs::Halves::half_odd, crate::proofs::Halves::half_small))]
fn nearest_natural(numerator: u64, divisor: u64) -> u64
    requires { 0 < divisor }
    ensures { (result ≡ nearest_natural numerator divisor) × (result ≤ numerator) }
{
    let whole = numerator / divisor;
    let left = numerator % divisor;
    let lacking = divisor - left;
    if left < lacking {
        return whole;
    }
    if lacking < left {
        return whole + 1;
    }
    if whole % 2 == 0 { whole } else { whole + 1 }
}
