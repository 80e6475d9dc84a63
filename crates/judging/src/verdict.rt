// The verdict on the last word of a series: document 01, "Post", and document 02, Q-1.
//
// Judging uses the limits and the words alone. Each of the four tests is a function, and `verdict` runs them in the papers' order.
ghost use Rattle.std.specs.Prelude.{◌≡◌};
ghost use Rattle.rules.specs.Kind.{judges_side};
ghost use Rattle.rules.specs.Verdict as rules;
ghost use Rattle.limits.specs.Sums.{limits_say};
ghost use Rattle.judging.specs.Verdicts.{verdict_number};
ghost use Rattle.judging.specs.Runs.{AreOrders, AreSides, IsTrend, IsRunSide};

use crate::verdicts::Verdict;
use limits::{Limits, Side, beyond_control, beyond_warning, side_of_mean};

// The number of words in a run: the turning point and six words after it.
const RUN: usize = 7;

// Whether words rise strictly, and whether they fall strictly.
#[derive(Clone, Copy)]
pub struct Trend {
    pub rising: bool,
    pub falling: bool,
}

// The verdict on the series' last word: the first that applies, in the order 1, 2, 4, 3.
#[tactic(auto, unfolding(rules::specs::Verdict::verdict, rules::specs::Verdict::first_verdict, crate::specs::Verdicts::verdict_number))]
pub fn verdict(l: Limits, series: &[i16]) -> Verdict
    ensures { verdict_number result ≡ rules.verdict (limits_say l) series.now }
{
    if control_test(l, series) {
        return Verdict::BeyondControl;
    }
    if warning_test(l, series) {
        return Verdict::BeyondWarning;
    }
    if side_test(l, series) {
        return Verdict::OneSide;
    }
    if trend_test(series) {
        return Verdict::Trend;
    }
    Verdict::Fits
}

// The status that a verdict sets. It takes the verdict's number, as a chart holds it: CLAIMS promises an answer for every number.
#[tactic(auto, unfolding(rules::specs::Verdict::status_for))]
pub fn status_for(verdict: u16) -> u16
    ensures { result ≡ rules.status_for verdict }
{
    if verdict == 0 {
        return 0;
    }
    if verdict == 4 {
        return 2;
    }
    1
}

#[tactic(auto, unfolding(rules::specs::Verdict::control_test, rules::specs::LastWords::last_word))]
fn control_test(l: Limits, series: &[i16]) -> bool
    ensures { result ≡ rules.control_test (limits_say l) series.now }
{
    let [.., last] = series else {
        return false;
    };
    beyond_control(l, *last)
}

#[tactic(auto, unfolding(rules::specs::Verdict::warning_test))]
fn warning_test(l: Limits, series: &[i16]) -> bool
    ensures { result ≡ rules.warning_test (limits_say l) series.now }
{
    let [.., before, last] = series else {
        return false;
    };
    let before = beyond_warning(l, *before);
    let last = beyond_warning(l, *last);
    (before.upper & last.upper) | (before.lower & last.lower)
}

#[tactic(auto, unfolding(rules::specs::Verdict::trend_test))]
fn trend_test(series: &[i16]) -> bool
    ensures { result ≡ rules.trend_test series.now }
{
    let t = trend_of(series);
    t.rising | t.falling
}

#[tactic(auto, unfolding(rules::specs::Verdict::side_test))]
fn side_test(l: Limits, series: &[i16]) -> bool
    ensures { result ≡ rules.side_test (limits_say l) series.now }
{
    let s = run_side(l, series);
    judges_side(l.kind) & (s.above | s.below)
}

// Verdict 4 is for kinds 2 and 3 only. `limits::has_lower` names the same kinds, but by another rule.
#[tactic(auto, unfolding(rules::specs::Kind::judges_side))]
fn judges_side(kind: u16) -> bool
    ensures { result ≡ judges_side kind }
{
    (kind == 2) | (kind == 3)
}

// Whether the last seven words rise or fall strictly. With fewer than seven, neither.
pub fn trend_of(series: &[i16]) -> Trend
    ensures { IsTrend series.now result }
{
    let Some(run) = series.last_chunk::<RUN>() else {
        return Trend {
            rising: false,
            falling: false,
        };
    };
    orders_of(run)
}

pub fn run_side(l: Limits, series: &[i16]) -> Side
    ensures { IsRunSide (limits_say l) series.now result }
{
    let Some(run) = series.last_chunk::<RUN>() else {
        return Side {
            above: false,
            below: false,
        };
    };
    sides_of(l, run)
}

// Whether each word is below the next, and whether each word is above the next.
fn orders_of(words: &[i16]) -> Trend
    ensures { AreOrders words.now result }
{
    Trend {
        rising: words.is_sorted_by(|w, next| w < next),
        falling: words.is_sorted_by(|w, next| next < w),
    }
}

#[tactic(auto, using(crate::proofs::Judging::test_turn, crate::proofs::Judging::test_end))]
fn sides_of(l: Limits, words: &[i16]) -> Side
    ensures { AreSides (limits_say l) words.now result }
{
    let mut above = true;
    let mut below = true;
    for w in words {
        let s = side_of_mean(l, *w);
        above &= s.above;
        below &= s.below;
    }
    Side { above, below }
}
