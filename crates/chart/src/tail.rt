// Document 02, Q-4: the tail of base and series that a renewal uses.
ghost use Rattle.std.specs.Prelude.{◌≡◌, ◌++◌, pos};
ghost use Rattle.rules.specs.Sizes.{base_most};
ghost use Rattle.rules.specs.LastWords.{last_words};
ghost use Rattle.chart.specs.Pad.{pad};
ghost use Rattle.chart.specs.Rejection.{IsRejection};
ghost use Rattle.chart.specs.Tail.{none_stands, tail_rejection, HasTail};

use crate::Chart;
use crate::rejection::{RejectionAnswer, Standing, reject};

// Tries the last 15 words of base and series, then the last 16, up to 32 or all there are. The answer is that of the first tail of which at
// least 15 words stand. If no tail will do, no word stands.
pub fn reject_tail(kind: u16, base: &[i16], series: &[i16]) -> RejectionAnswer
    ensures { IsRejection (tail_rejection kind (base.now ++ series.now)) result }
{
    let all = base.len() + series.len();
    for k in Chart::BASE_WANTED..=all.min(Chart::BASE_MOST) {
        let r = reject(kind, last_of_both(base, series, k), k);
        let left = r.left;
        if Chart::BASE_WANTED <= left.n {
            return r;
        }
    }
    no_tail()
}

// The answer if no tail will do.
fn no_tail() -> RejectionAnswer
    ensures { IsRejection none_stands result }
{
    let left = Standing {
        words: [0; Chart::BASE_MOST],
        n: 0,
    };
    RejectionAnswer {
        left,
        rounds: 0,
        removed: 0,
    }
}

// The last k words of the two slices, one after the other, at the front of an array for a base.
fn last_of_both(base: &[i16], series: &[i16], k: usize) -> [i16; Chart::BASE_MOST]
    requires { HasTail base.now series.now k }
    ensures { result ≡ pad (pos 0) base_most (last_words k (base.now ++ series.now)) }
{
    let from_series = k.min(series.len());
    let from_base = k - from_series;
    let mut words = [0i16; Chart::BASE_MOST];
    words[..from_base].copy_from_slice(&base[base.len() - from_base..]);
    words[from_base..k].copy_from_slice(&series[series.len() - from_series..]);
    words
}
