// Rejection: document 01, "Base, limits, rejection", and document 02, Q-5.
//
// A round marks the words beyond the control limits, moves the others together, and takes the marked words away from the sums that it was
// given. Words stand at the front of 32 places, with 0 in the rest.
ghost use Rattle.std.specs.Prelude.{◌≡◌, false, map, ◌≤◌, take};
ghost use Rattle.rules.specs.Sizes.{base_most};
ghost use Rattle.rules.specs.Limits.{beyond_control};
ghost use Rattle.rules.specs.Rejection.{rejection};
ghost use Rattle.rules.specs.Carried.{less_words};
ghost use Rattle.limits.specs.Sums.{sums_say, limits_say};
ghost use Rattle.chart.specs.Pad.{pad};
ghost use Rattle.chart.specs.Rejection.{without_marked, marked, HoldsWords, IsRejection, given_says, CanRemove};
ghost use Rattle.chart.specs.Rejection.{WithOwnSums, CanTake, HandsOn};

use crate::Chart;
use limits::{Limits, Sums, beyond_control, sums_of, without_word};

// The first n of 32 places hold words.
#[derive(Clone, Copy)]
pub struct Standing {
    pub words: [i16; Chart::BASE_MOST],
    pub n: usize,
}

// The words left, the rounds, and the number of words that the rounds removed.
#[derive(Clone, Copy)]
pub struct RejectionAnswer {
    pub left: Standing,
    pub rounds: usize,
    pub removed: usize,
}

// What a round hands on to the next one: the words that it leaves, and the sums that it was given less the words that it removes.
#[derive(Clone, Copy)]
pub struct HandedOn {
    pub left: Standing,
    pub sums: Sums,
}

// The sums of the words are made once. The first round is given them.
pub fn reject(kind: u16, words: [i16; Chart::BASE_MOST], n: usize) -> RejectionAnswer
    requires { n ≤ base_most }
    ensures { IsRejection (rejection kind (take n words)) result }
{
    let sums = sums_of(&words[..n]);
    reject_given(kind, words, n, sums)
}

// Rejection calls itself on the words left, until a round removes nothing. Each call is given n, T and Q of the words.
fn reject_given(kind: u16, words: [i16; Chart::BASE_MOST], n: usize, sums: Sums) -> RejectionAnswer
    requires { WithOwnSums n words sums }
    ensures { IsRejection (rejection kind (take n words)) result }
{
    let next = round(kind, words, n, sums);
    let left = next.left;
    let m = left.n;
    if m == n {
        return RejectionAnswer {
            left,
            rounds: 1,
            removed: 0,
        };
    }
    let rest = left.words;
    let r = reject_given(kind, rest, m, next.sums);
    let base = r.left;
    RejectionAnswer {
        left: base,
        rounds: r.rounds + 1,
        removed: r.removed + (n - m),
    }
}

// A round marks words by the sums that it is given, and hands on these sums less the marked words. The sums need not be those of the words.
pub fn round(kind: u16, words: [i16; Chart::BASE_MOST], n: usize, sums: Sums) -> HandedOn
    requires { (n ≤ base_most) × CanRemove kind (take n words) sums }
    ensures { HandsOn kind (given_says (take n words) sums) result }
{
    let marks = marks_beyond(Limits { kind, sums }, words, n);
    HandedOn {
        left: without_marked(words, n, marks),
        sums: less_marked(sums, words, n, marks),
    }
}

// Which of the first n words are beyond the control limits.
fn marks_beyond(l: Limits, words: [i16; Chart::BASE_MOST], n: usize) -> [bool; Chart::BASE_MOST]
    requires { n ≤ base_most }
    ensures { result ≡ pad false base_most (map (beyond_control (limits_say l)) (take n words)) }
{
    let mut marks = [false; Chart::BASE_MOST];
    for (i, &w) in words[..n].iter().enumerate() {
        marks[i] = beyond_control(l, w);
    }
    marks
}

// The first n words without those that are marked, in their old order.
fn without_marked(
    words: [i16; Chart::BASE_MOST],
    n: usize,
    marks: [bool; Chart::BASE_MOST],
) -> Standing
    requires { n ≤ base_most }
    ensures { HoldsWords (without_marked (take n marks) (take n words)) result }
{
    let mut left = [0i16; Chart::BASE_MOST];
    let mut kept = 0;
    for (i, &w) in words[..n].iter().enumerate() {
        if !marks[i] {
            left[kept] = w;
            kept += 1;
        }
    }
    Standing {
        words: left,
        n: kept,
    }
}

// The sums less the marked words.
fn less_marked(
    sums: Sums,
    words: [i16; Chart::BASE_MOST],
    n: usize,
    marks: [bool; Chart::BASE_MOST],
) -> Sums
    requires { CanTake n marks words sums }
    ensures { sums_say result ≡ less_words (sums_say sums) (marked (take n marks) (take n words)) }
{
    let mut less = sums;
    for (i, &w) in words[..n].iter().enumerate() {
        if marks[i] {
            less = without_word(less, w);
        }
    }
    less
}
