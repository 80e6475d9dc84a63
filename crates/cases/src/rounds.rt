// The sums that each round of rejection is given: document 02, Q-5. The rounds are run one after the other. Each is given what the one
// before it hands on, and the first one the sums of its words.
ghost use Rattle.std.specs.Prelude.{◌≤◌, take};
ghost use Rattle.rules.specs.Sizes.{base_most};
ghost use Rattle.limits.specs.Sums.{AreSums};

use crate::say;
use chart::Chart;
use chart::rejection::round;
use limits::Sums;

pub fn sums_given(a: Chart) {
    say::heading();
    one_a_round(1, [1, 12, 144, 1728, 20000]);
    // The same words below 0. Each word that is removed makes T rise.
    one_a_round(3, [-1, -12, -144, -1728, -20000]);
    // Two words in one round, on both sides and on one.
    let mut words = [100; Chart::BASE_MOST];
    words[31] = 20000;
    words[30] = -20000;
    rounds_of(2, words, 32);
    words[30] = 20000;
    rounds_of(2, words, 32);
    let base = a.base;
    rounds_of(2, base, a.base_len);
}

// 0 ten times, and five words. Each of the first five rounds removes the word that is farthest from 0.
fn one_a_round(kind: u16, five: [i16; 5]) {
    let mut words = [0; Chart::BASE_MOST];
    words[10..15].copy_from_slice(&five);
    rounds_of(kind, words, 15);
}

// The rounds of the first n words, at most 32.
fn rounds_of(kind: u16, words: [i16; Chart::BASE_MOST], n: usize) {
    say::label();
    if n <= Chart::BASE_MOST {
        let sums = limits::sums_of(&words[..n]);
        each_round(kind, words, n, sums);
    }
    say::end_of_line();
}

// Says the sums that a round is given, and calls itself on what the round hands on, until a round removes nothing.
fn each_round(kind: u16, words: [i16; Chart::BASE_MOST], n: usize, sums: Sums)
    requires { (n ≤ base_most) × AreSums (take n words) sums }
{
    say_sums(sums);
    let next = round(kind, words, n, sums);
    let left = next.left;
    let m = left.n;
    if m < n {
        say::text(b", ");
        let rest = left.words;
        each_round(kind, rest, m, next.sums);
    }
}

// n, T and Q.
fn say_sums(sums: Sums) {
    say::named(b"(", sums.n);
    say::text(b"; ");
    say::signed(sums.t);
    say::named(b", ", sums.q);
    say::text(b")");
}
