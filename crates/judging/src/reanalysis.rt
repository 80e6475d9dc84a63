// Whether a reanalysis passes, by the open verdict: document 01, "Reanalysis".
ghost use Rattle.std.specs.Prelude.{◌≡◌};
ghost use Rattle.rules.specs.Reanalysis as rules;
ghost use Rattle.limits.specs.Sums.{limits_say};

use crate::verdict::{run_side, trend_of};
use limits::{Limits, beyond_control, beyond_warning, near_mean, side_of_mean};

// The series is the one before the reanalysis. Its last word is the one that the reanalysis would replace.
#[tactic(auto, unfolding(rules::specs::Reanalysis::passes))]
pub fn passes(l: Limits, open_verdict: u16, series: &[i16], w: i16) -> bool
    ensures { result ≡ rules.passes (limits_say l) open_verdict series.now w }
{
    !beyond_control(l, w) && passes_verdict(l, open_verdict, series, w)
}

// What the open verdict asks besides the control limits.
#[tactic(auto, unfolding(rules::specs::Reanalysis::passes_verdict))]
fn passes_verdict(l: Limits, open_verdict: u16, series: &[i16], w: i16) -> bool
    ensures { result ≡ rules.passes_verdict (limits_say l) open_verdict series.now w }
{
    match open_verdict {
        2 => passes_warning(l, w),
        3 => passes_trend(l, series, w),
        4 => passes_side(l, series, w),
        _ => true,
    }
}

fn passes_warning(l: Limits, w: i16) -> bool
    ensures { result ≡ rules.passes_warning (limits_say l) w }
{
    let b = beyond_warning(l, w);
    !(b.upper | b.lower)
}

#[tactic(auto, unfolding(rules::specs::Reanalysis::passes_trend))]
fn passes_trend(l: Limits, series: &[i16], w: i16) -> bool
    ensures { result ≡ rules.passes_trend (limits_say l) series.now w }
{
    near_mean(l, w) || turns_back(series, w)
}

#[tactic(auto, unfolding(rules::specs::Reanalysis::passes_side))]
fn passes_side(l: Limits, series: &[i16], w: i16) -> bool
    ensures { result ≡ rules.passes_side (limits_say l) series.now w }
{
    near_mean(l, w) || !on_runs_side(l, series, w)
}

// In a rising run the word is below the one before the last, in a falling run above it.
#[tactic(auto, unfolding(rules::specs::Reanalysis::turns_back, rules::specs::LastWords::one_before_last))]
fn turns_back(series: &[i16], w: i16) -> bool
    ensures { result ≡ rules.turns_back series.now w }
{
    // Fewer than two words have no word before the last, and are no run.
    let [.., before, _] = series else {
        return false;
    };
    let t = trend_of(series);
    (t.rising & (w < *before)) | (t.falling & (*before < w))
}

#[tactic(auto, unfolding(rules::specs::Reanalysis::on_runs_side))]
fn on_runs_side(l: Limits, series: &[i16], w: i16) -> bool
    ensures { result ≡ rules.on_runs_side (limits_say l) series.now w }
{
    let run = run_side(l, series);
    let side = side_of_mean(l, w);
    (run.above & side.above) | (run.below & side.below)
}
