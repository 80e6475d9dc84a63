// Two conditions of soundness: the words lie within the control limits, and status and open verdict fit. Document 01, "Stored form".
ghost use Rattle.std.specs.Prelude.{◌≡◌, ◌-◌, eqb};
ghost use Rattle.rules.specs.Choice.{choose};
ghost use Rattle.rules.specs.AllOf.{none_of};
ghost use Rattle.rules.specs.Limits.{beyond_control};
ghost use Rattle.rules.specs.Soundness.{limits_hold, open_fits, status_fits};
ghost use Rattle.limits.specs.Sums.{limits_say};

use crate::verdict::verdict;
use extremes::extremes_of;
use limits::{Limits, beyond_control};

// No base word is beyond a control limit, and no series word, save the last while status is not 0.
#[tactic(auto, using(crate::proofs::Held::held_words, crate::proofs::Held::held_few), unfolding(rules::specs::Soundness::limits_hold))]
pub fn limits_hold(l: Limits, base: &[i16], series: &[i16], status: u16) -> bool
    ensures { result ≡ limits_hold (limits_say l) base.now series.now status }
{
    let k = held_count(series.len(), status);
    none_beyond_control(l, base) && none_beyond_control(l, &series[..k])
}

// How many of the m words of the series must not be beyond a control limit.
fn held_count(m: usize, status: u16) -> usize
    ensures { result ≡ choose (eqb status 0) m (m - 1) }
{
    if status == 0 { m } else { m.saturating_sub(1) }
}

// A word between two words within the limits is within them too. So the least and the greatest word decide.
fn none_beyond_control(l: Limits, words: &[i16]) -> bool
    ensures { result ≡ none_of (beyond_control (limits_say l)) words.now }
{
    if words.is_empty() {
        return true;
    }
    let e = extremes_of(words);
    !beyond_control(l, e.least) & !beyond_control(l, e.greatest)
}

// Status 0 goes with verdict 0. Status 1 or 2 goes with the open verdict 1..4 that the last word of the series has.
#[tactic(auto, unfolding(rules::specs::Soundness::status_fits))]
pub fn status_fits(l: Limits, series: &[i16], status: u16, open_verdict: u16) -> bool
    ensures { result ≡ status_fits (limits_say l) series.now status open_verdict }
{
    if status == 0 {
        return open_verdict == 0;
    }
    open_fits(l, series, status, open_verdict)
}

#[tactic(auto, unfolding(rules::specs::Soundness::open_fits))]
fn open_fits(l: Limits, series: &[i16], status: u16, open_verdict: u16) -> bool
    ensures { result ≡ open_fits (limits_say l) series.now status open_verdict }
{
    let is_status = (1..=2).contains(&status);
    let is_verdict = (1..=4).contains(&open_verdict);
    let same = open_verdict == verdict(l, series).number();
    is_status && !series.is_empty() && is_verdict && same
}
