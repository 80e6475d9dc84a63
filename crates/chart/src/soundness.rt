// Whether a chart is sound: document 01, "Stored form". A program can hand in any value of the type. So the code tests that the lengths lie
// within the arrays before it takes the words of base and series.
ghost use Rattle.std.specs.Prelude.{◌≡◌, ◌≤◌, length};
ghost use Rattle.rules.specs.Sizes.{base_most, series_most};
ghost use Rattle.rules.specs.Soundness.{are_counts, words_sound, sound};
ghost use Rattle.rules.specs.State.{state};
ghost use Rattle.chart.specs.Chart.{state_of};
ghost use Rattle.chart.specs.Soundness.{unused_hold_zero, places_sound, sound_chart};

use crate::Chart;
use judging::soundness::{limits_hold, status_fits};
use limits::limits_of;
use words::all_in_range;

impl Chart {
    pub fn sound(self) -> bool
        ensures { result ≡ sound_chart self }
    {
        if !places_sound(self) {
            return false;
        }
        state_sound(self)
    }
}

// The lengths lie within the arrays, and unused places hold 0.
fn places_sound(c: Chart) -> bool
    ensures { result ≡ places_sound c }
{
    let n = c.base_len;
    let m = c.series_len;
    let zero = zero_from(&c.base, n) & zero_from(&c.series, m);
    (n <= Chart::BASE_MOST) & ((m <= Chart::SERIES_MOST) & zero)
}

// The places from n on hold 0.
fn zero_from(places: &[i16], n: usize) -> bool
    ensures { result ≡ unused_hold_zero n places.now }
{
    n >= places.len() || places[n..].iter().all(|w| *w == 0)
}

// The state that the chart stands for is sound.
fn state_sound(c: Chart) -> bool
    requires { (c.base_len ≤ base_most) × (c.series_len ≤ series_most) }
    ensures { result ≡ sound (state_of c) }
{
    let n = c.base_len;
    let m = c.series_len;
    let base = c.base;
    let series = c.series;
    is_sound(c.kind, &base[..n], &series[..m], c.status, c.open_verdict)
}

// The state with these parts is sound. Reading tests this before the words stand in a chart, so that it does not copy a chart.
pub fn is_sound(kind: u16, base: &[i16], series: &[i16], status: u16, open_verdict: u16) -> bool
    requires { length base.now ≤ base_most }
    ensures { result ≡ sound (state kind base.now series.now status open_verdict) }
{
    let l = limits_of(kind, base);
    let limits = limits_hold(l, base, series, status)
        & status_fits(l, series, status, open_verdict);
    words_sound(kind, base, series) & limits
}

// The kind is 1..3, and the numbers of words and the words are in range.
fn words_sound(kind: u16, base: &[i16], series: &[i16]) -> bool
    ensures { result ≡ words_sound kind base.now series.now }
{
    let counts = are_counts(base.len(), series.len());
    let ranges = all_in_range(kind, base) & all_in_range(kind, series);
    words::is_kind(kind) & (counts & ranges)
}

fn are_counts(base: usize, series: usize) -> bool
    ensures { result ≡ are_counts base series }
{
    (Chart::BASE_LEAST..=Chart::BASE_MOST).contains(&base) & (series <= Chart::SERIES_MOST)
}
