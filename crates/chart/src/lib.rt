// The chart of document 01: the type, and the calls that take a chart and hand it back. `building` makes one. `sound` has the calls on a
// chart that is known to be sound.
//
// Every call first refuses, with 14, a chart that is not sound, whatever its lengths are. Then it refuses, in this order: post 8 (status
// not 0), 9 (366 words in the series), 4 (a reading of another kind), 5, 6, 7; reanalyse 10 (status not 1), 4, 5, 6, 7; correct 11 (status
// not 2); renew 8, 12 (base and series below 15), 16 (no tail will do). A refused call gives back the very chart that it got.
#![tactic(auto)]

mod building;
pub mod rejection;
pub mod sound;
pub mod soundness;
mod tail;

ghost use Rattle.std.specs.Prelude.{◌≡◌, ℕ, ℤ};
ghost use Rattle.rules.specs.State.{add_word, replace_last};
ghost use Rattle.rules.specs.Machine as machine;
ghost use Rattle.judging.specs.Verdicts.{verdict_number};
ghost use Rattle.chart.specs.Chart.{state_of, chart_of, with_status, zero_chart, fresh_chart};
ghost use Rattle.chart.specs.Soundness.{HasRoom, HasLast};
ghost use Rattle.chart.specs.Checked.{chart_says, checked_chart};
ghost use Rattle.chart.specs.Calls.{Gives, post_says, reanalysis_says, correction_says, renewal_says};

use judging::verdicts::Verdict;
use refusals::Refusal;
use sound::SoundChart;

// The kind, the status and the open verdict are numbers as in the stored form. A chart that is handed in may hold any number, and a number
// that the paper does not name is refused with 14.
#[derive(Clone, Copy)]
pub struct Chart {
    pub kind: u16,
    pub base: [i16; Chart::BASE_MOST],
    pub base_len: usize,
    pub series: [i16; Chart::SERIES_MOST],
    pub series_len: usize,
    pub status: u16,
    pub open_verdict: u16,
}

// What a call gives: the chart after it, and its answer or its refusal. A refused call gives back the chart that it got.
#[derive(Clone, Copy)]
pub struct Called<A> {
    pub chart: Chart,
    pub answer: Result<A, Refusal>,
}

// Rounds of rejection, and the number of words that they removed: the answer of building and of renewal.
#[derive(Clone, Copy)]
pub struct Counts {
    pub rounds: usize,
    pub removed: usize,
}

// The answer of a post.
#[derive(Clone, Copy)]
pub struct Judged {
    pub word: i16,
    pub verdict: Verdict,
}

// A word that was judged, and its verdict's number: the answer of a post, or two numbers. The number need not be one of a verdict.
pub trait WordJudged: Copy {
    ghost word_of: { Self → ℤ };

    ghost verdict_of: { Self → ℕ };

    fn word_judged(self) -> i16
        ensures { result ≡ word_of self };

    fn verdict_number(self) -> u16
        ensures { result ≡ verdict_of self };
}

impl WordJudged for Judged {
    ghost word_of = { λ judged. judged.word };

    ghost verdict_of = { λ judged. verdict_number judged.verdict };

    fn word_judged(self) -> i16 {
        self.word
    }

    fn verdict_number(self) -> u16 {
        self.verdict.number()
    }
}

impl WordJudged for (i16, u16) {
    ghost word_of = { λ judged. judged.0 };

    ghost verdict_of = { λ judged. judged.1 };

    fn word_judged(self) -> i16 {
        self.0
    }

    fn verdict_number(self) -> u16 {
        self.1
    }
}

// The answer of a reanalysis: its word, and whether it passed.
#[derive(Clone, Copy)]
pub struct Retested {
    pub word: i16,
    pub passed: bool,
}

impl Chart {
    // The words that a base is built from: at least 15, at most 32. At least 15 have to stand. The base of a chart that was read has at
    // least 10.
    pub const BASE_WANTED: usize = 15;

    pub const BASE_MOST: usize = 32;

    pub const BASE_LEAST: usize = 10;

    // The most words that a series holds.
    pub const SERIES_MOST: usize = 366;

    // Lines are whole numbers of 256ths.
    pub const LINE_PARTS: usize = limits::LINE_PARTS;

    pub fn post(mut self, kind: u16, a: i64, b: i64, c: i64) -> Called<Judged>
        ensures { Gives self (machine.post kind a b c) result.chart (post_says result.answer) }
    {
        let Ok(mut sound) = self.checked() else {
            return Called {
                chart: self,
                answer: Err(Refusal::NotSound),
            };
        };
        let answer = sound.post(kind, a, b, c);
        Called {
            chart: sound.chart,
            answer,
        }
    }

    pub fn reanalyse(mut self, kind: u16, a: i64, b: i64, c: i64) -> Called<Retested>
        ensures { Gives self (machine.reanalysis kind a b c) result.chart (reanalysis_says result.answer) }
    {
        let Ok(mut sound) = self.checked() else {
            return Called {
                chart: self,
                answer: Err(Refusal::NotSound),
            };
        };
        let answer = sound.reanalyse(kind, a, b, c);
        Called {
            chart: sound.chart,
            answer,
        }
    }

    pub fn correct(mut self) -> Called<()>
        ensures { Gives self machine.correction result.chart (correction_says result.answer) }
    {
        let Ok(mut sound) = self.checked() else {
            return Called {
                chart: self,
                answer: Err(Refusal::NotSound),
            };
        };
        let answer = sound.correct();
        Called {
            chart: sound.chart,
            answer,
        }
    }

    pub fn renew(mut self) -> Called<Counts>
        ensures { Gives self machine.renewal result.chart (renewal_says result.answer) }
    {
        let Ok(mut sound) = self.checked() else {
            return Called {
                chart: self,
                answer: Err(Refusal::NotSound),
            };
        };
        let answer = sound.renew();
        Called {
            chart: sound.chart,
            answer,
        }
    }

    // The same chart as one that is known to be sound. Refuses, with 14, a chart that is not.
    pub fn checked(self) -> Result<SoundChart, Refusal>
        ensures { chart_says result ≡ checked_chart self }
    {
        if !self.sound() {
            return Err(Refusal::NotSound);
        }
        Ok(SoundChart { chart: self })
    }

    // ---- what a call changes

    fn add_word(&mut self, w: i16)
        requires { HasRoom self.old }
        ensures { self.new ≡ chart_of (add_word (state_of self.old) w) }
    {
        let m = self.series_len;
        self.series[m] = w;
        self.series_len = m + 1;
    }

    fn replace_last(&mut self, w: i16)
        requires { HasLast self.old }
        ensures { self.new ≡ chart_of (replace_last (state_of self.old) w) }
    {
        let last = self.series_len - 1;
        self.series[last] = w;
    }

    fn set_status(&mut self, status: u16, open_verdict: u16)
        ensures { self.new ≡ with_status self.old status open_verdict }
    {
        self.status = status;
        self.open_verdict = open_verdict;
    }
}

// A chart with an empty series and status 0.
fn fresh_chart(kind: u16, base: [i16; Chart::BASE_MOST], n: usize) -> Chart
    ensures { result ≡ fresh_chart kind base n }
{
    Chart {
        kind,
        base,
        base_len: n,
        series: [0; Chart::SERIES_MOST],
        series_len: 0,
        status: 0,
        open_verdict: 0,
    }
}

// The chart that goes with a refused build or read.
pub fn zero_chart() -> Chart
    ensures { result ≡ zero_chart }
{
    fresh_chart(0, [0; Chart::BASE_MOST], 0)
}
