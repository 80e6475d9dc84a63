// Sums of words, and the comparison of a word with a limit: document 01, "Base, limits, rejection".
//
// A limit is the mean plus or minus a multiple m of S. `limits_of` gives what a word is judged by: a chart kind, with n, T and Q of some
// words. `beyond` compares a word with the limits at any m, by squares of whole numbers. `beyond_control` and `beyond_warning` do this at
// the paper's 3 and 2. `near_mean` and `side_of_mean` compare a word with the mean. `without_word` takes a word away from sums: document
// 02, Q-5.
//
// That sums are bounded is an invariant of `Limits` and not of `Sums`: `without_word` may be given a word that is not one of the words
// summed, and V may then be negative.
#![tactic(auto)]

mod bounded;

ghost use Rattle.std.specs.Prelude.{◌≡◌, [], ◌∷◌, ◌≤◌, ◌<◌, length, pos, nat_abs};
ghost use Rattle.rules.specs.Sizes.{base_most};
ghost use Rattle.rules.specs.Kind.{has_lower};
ghost use Rattle.rules.specs.Limits as rules;
ghost use Rattle.rules.specs.Carried.{less_words};
ghost use Rattle.limits.specs.Bounded.{Bounded};
ghost use Rattle.limits.specs.Sums.{sums_say, limits_say, AreSums, AreLimits, CanAdd, Removable, Comparable, AreSquares};
ghost use Rattle.limits.specs.Sums.{IsBeyond, IsBeyondWarning, IsSide};

pub use bounded::Limits;

// Control limits are the mean ± 3S, warning limits the mean ± 2S.
pub const CONTROL: u8 = 3;

pub const WARNING: u8 = 2;

// Lines are whole numbers of 256ths.
pub const LINE_PARTS: usize = 256;

// The number n of words, their sum T, and the sum Q of their squares. They give V = n·Q − T².
#[derive(Clone, Copy)]
pub struct Sums {
    pub n: u64,
    pub t: i64,
    pub q: u64,
}

// Whether a word is beyond the upper limit, and whether it is beyond the lower one.
#[derive(Clone, Copy)]
pub struct BeyondLimits {
    pub upper: bool,
    pub lower: bool,
}

// Whether a word, or each word of a run, is strictly above the mean, and whether it is strictly below it.
#[derive(Clone, Copy)]
pub struct Side {
    pub above: bool,
    pub below: bool,
}

// The two sides of the comparison of a deviation with a limit.
#[derive(Clone, Copy)]
struct Squares {
    deviation: u64,
    limit: u64,
}

#[tactic(auto, using(crate::proofs::Summing::of_none, crate::proofs::Summing::can_add))]
pub fn sums_of(words: &[i16]) -> Sums
    requires { length words.now ≤ base_most }
    ensures { AreSums words.now result }
{
    let mut s = Sums { n: 0, t: 0, q: 0 };
    for w in words {
        s = with_word(s, *w);
    }
    s
}

// The limits that at most 32 words give for a chart kind.
#[tactic(auto, unfolding(rules::specs::Limits::limits_of))]
pub fn limits_of(kind: u16, words: &[i16]) -> Limits
    requires { length words.now ≤ base_most }
    ensures { AreLimits kind words.now result }
{
    let sums = sums_of(words);
    Limits { kind, sums }
}

#[tactic(auto, unfolding(rules::specs::Limits::beyond_control, rules::specs::Limits::beyond))]
pub fn beyond_control(l: Limits, w: i16) -> bool
    ensures { result ≡ rules.beyond_control (limits_say l) w }
{
    let b = beyond(CONTROL, l, w);
    b.upper | b.lower
}

// Whether a word is beyond the upper warning limit, and whether it is beyond the lower one.
#[tactic(auto, unfolding(rules::specs::Limits::beyond_upper_warning, rules::specs::Limits::beyond_lower_warning))]
pub fn beyond_warning(l: Limits, w: i16) -> BeyondLimits
    ensures { IsBeyondWarning (limits_say l) w result }
{
    beyond(WARNING, l, w)
}

// |w − mean| < S
#[tactic(auto, unfolding(rules::specs::Limits::near_mean))]
pub fn near_mean(l: Limits, w: i16) -> bool
    ensures { result ≡ rules.near_mean (sums_say l.sums) w }
{
    let s = l.sums;
    let d = scaled_deviation(s, w);
    within(1, s, d)
}

#[tactic(auto, unfolding(rules::specs::Limits::above_mean, rules::specs::Limits::below_mean))]
pub fn side_of_mean(l: Limits, w: i16) -> Side
    ensures { IsSide (sums_say l.sums) w result }
{
    let s = l.sums;
    let d = scaled_deviation(s, w);
    Side {
        above: 0 < d,
        below: d < 0,
    }
}

// Compares a word with the limits at the multiple m. Kind 1 has no lower limit.
pub fn beyond(m: u8, l: Limits, w: i16) -> BeyondLimits
    ensures { IsBeyond m (limits_say l) w result }
{
    let s = l.sums;
    let d = scaled_deviation(s, w);
    let far = exceeds(m as u16, s, d);
    BeyondLimits {
        upper: (0 < d) & far,
        lower: has_lower(l.kind) & ((d < 0) & far),
    }
}

#[tactic(auto, unfolding(rules::specs::Kind::has_lower))]
pub fn has_lower(kind: u16) -> bool
    ensures { result ≡ has_lower kind }
{
    (kind == 2) | (kind == 3)
}

// Whether a deviation of d / n, up or down, is more than m·S.
#[tactic(auto, unfolding(rules::specs::Limits::exceeds))]
fn exceeds(m: u16, s: Sums, d: i64) -> bool
    requires { Comparable m s d }
    ensures { result ≡ rules.exceeds m (sums_say s) d }
{
    let x = squares_of(m, s, d);
    x.limit < x.deviation
}

// Whether a deviation of d / n, up or down, is less than m·S.
#[tactic(auto, unfolding(rules::specs::Limits::within))]
fn within(m: u16, s: Sums, d: i64) -> bool
    requires { Comparable m s d }
    ensures { result ≡ rules.within m (sums_say s) d }
{
    let x = squares_of(m, s, d);
    x.deviation < x.limit
}

// d²·(n − 1) and m²·n·V, which are compared in place of d / n and m·S.
#[tactic(auto, using(crate::proofs::Comparison::nv_fits))]
fn squares_of(m: u16, s: Sums, d: i64) -> Squares
    requires { Comparable m s d }
    ensures { AreSquares m (sums_say s) d result }
{
    let multiple = u64::from(m);
    let a = magnitude(d);
    // Without words n − 1 counts as 0, and both sides are 0.
    let deviation = a * a * s.n.saturating_sub(1);
    let limit = multiple * multiple * (s.n * v_of(s));
    Squares { deviation, limit }
}

// V = n·Q − T²
#[tactic(auto, using(crate::proofs::Spread::v_is))]
pub fn v_of(s: Sums) -> u64
    requires { Bounded s }
    ensures { pos result ≡ rules.v_of (sums_say s) }
{
    let a = magnitude(s.t);
    s.n * s.q - a * a
}

// n·w − T, which is n times the deviation of w from the mean.
fn scaled_deviation(s: Sums, w: i16) -> i64
    requires { Bounded s }
    ensures { result ≡ rules.scaled_deviation (sums_say s) w }
{
    (s.n as i64) * i64::from(w) - s.t
}

// The sums after one more word.
fn with_word(s: Sums, w: i16) -> Sums
    requires { CanAdd s }
    ensures { sums_say result ≡ rules.with_word (sums_say s) w }
{
    Sums {
        n: s.n + 1,
        t: s.t + i64::from(w),
        q: s.q + square(w),
    }
}

// The sums less one word.
#[tactic(auto, unfolding(rules::specs::Limits::sum_by))]
pub fn without_word(s: Sums, w: i16) -> Sums
    requires { Removable (w ∷ []) s }
    ensures { sums_say result ≡ less_words (sums_say s) (w ∷ []) }
{
    let n = s.n - 1;
    let t = s.t - i64::from(w);
    let q = s.q - square(w);
    Sums { n, t, q }
}

fn square(w: i16) -> u64
    ensures { result ≡ rules.square_of w }
{
    let a = magnitude(i64::from(w));
    a * a
}

// The absolute value.
pub fn magnitude(z: i64) -> u64
    ensures { result ≡ nat_abs z }
{
    z.unsigned_abs()
}
