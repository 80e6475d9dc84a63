// Building a chart: document 01, "Base, limits, rejection", and document 02, Q-4.
//
// Building refuses, in this order: 1 a kind that is not 1..3, 2 a number of words that is not 15..32, 3 a word out of range, 16 fewer
// than 15 words stand after rejection. A refused build gives the chart of zeros.
ghost use Rattle.std.specs.Prelude.{◌≡◌, ◌≤◌, length, pos};
ghost use Rattle.rules.specs.Sizes.{base_most};
ghost use Rattle.rules.specs.Building.{is_build_count, build_refusal};
ghost use Rattle.chart.specs.Pad.{pad};
ghost use Rattle.refusals.specs.Refusal.{answered_number};
ghost use Rattle.chart.specs.Chart.{zero_chart, Builds};

use crate::rejection::reject;
use crate::{Called, Chart, Counts, fresh_chart, zero_chart};
use refusals::Refusal;

impl Chart {
    pub fn build(kind: u16, words: &[i16]) -> Called<Counts>
        ensures { Builds kind words.now result }
    {
        let mut chart = zero_chart();
        let answer = chart.try_build(kind, words);
        Called { chart, answer }
    }

    // Makes the chart of zeros a fresh one of the words that rejection leaves. A refusal leaves it as it was.
    fn try_build(&mut self, kind: u16, words: &[i16]) -> Result<Counts, Refusal>
        requires { self.old ≡ zero_chart }
        ensures { Builds kind words.now (record { chart = self.new; answer = result }) }
    {
        may_build(kind, words)?;
        let r = reject(kind, padded(words), words.len());
        let left = r.left;
        if left.n < Chart::BASE_WANTED {
            return Err(Refusal::TooFewStand);
        }
        *self = fresh_chart(kind, left.words, left.n);
        Ok(Counts {
            rounds: r.rounds,
            removed: r.removed,
        })
    }
}

// The refusals that kind and words decide before rejection.
fn may_build(kind: u16, words: &[i16]) -> Result<(), Refusal>
    ensures { answered_number result ≡ build_refusal kind words.now }
{
    if !words::is_kind(kind) {
        return Err(Refusal::NoKind);
    }
    if !is_build_count(words) {
        return Err(Refusal::WordCount);
    }
    if !words::all_in_range(kind, words) {
        return Err(Refusal::BaseWord);
    }
    Ok(())
}

fn is_build_count(words: &[i16]) -> bool
    ensures { result ≡ is_build_count words.now }
{
    let n = words.len();
    (Chart::BASE_WANTED <= n) & (n <= Chart::BASE_MOST)
}

// The words at the front of an array for a base, with 0 in the unused places.
fn padded(words: &[i16]) -> [i16; Chart::BASE_MOST]
    requires { length words.now ≤ base_most }
    ensures { result ≡ pad (pos 0) base_most words.now }
{
    let mut base = [0i16; Chart::BASE_MOST];
    base[..words.len()].copy_from_slice(words);
    base
}
