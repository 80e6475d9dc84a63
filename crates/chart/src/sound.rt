// A chart that is known to be sound, for example one just read, and the calls on it. A refused call leaves the chart as it was.
ghost use Rattle.std.specs.Prelude.{◌≡◌, true, ◌++◌};
ghost use Rattle.rules.specs.State.{limits_for, add_word};
ghost use Rattle.rules.specs.Verdict as verdicts;
ghost use Rattle.rules.specs.Reanalysis as reanalyses;
ghost use Rattle.rules.specs.Machine as machine;
ghost use Rattle.refusals.specs.Refusal.{answered_number};
ghost use Rattle.judging.specs.Verdicts.{verdict_number};
ghost use Rattle.chart.specs.Chart.{state_of, LimitsFor};
ghost use Rattle.chart.specs.Rejection.{IsRejection};
ghost use Rattle.chart.specs.Tail.{tail_rejection};
ghost use Rattle.chart.specs.Soundness.{sound_chart, HasRoom};
ghost use Rattle.chart.specs.Calls.{Gives, post_says, reanalysis_says, correction_says, renewal_says};

use crate::rejection::RejectionAnswer;
use crate::tail::reject_tail;
use crate::{Chart, Counts, Judged, Retested, fresh_chart};
use judging::reanalysis::passes;
use judging::verdict::{status_for, verdict};
use judging::verdicts::Verdict;
use limits::{Limits, limits_of};
use refusals::Refusal;
use words::word_for;

#[derive(Clone, Copy)]
pub struct SoundChart {
    pub chart: Chart,
    pub ghost sound: { sound_chart chart ≡ true },
}

impl SoundChart {
    // Judges the reading's word, adds it to the series, and answers word and verdict.
    pub fn post(&mut self, kind: u16, a: i64, b: i64, c: i64) -> Result<Judged, Refusal>
        ensures { Gives self.old.chart (machine.post kind a b c) self.new.chart (post_says result) }
    {
        self.may_post()?;
        let w = word_for(self.chart.kind, kind, a, b, c)?;
        let verdict = self.verdict_on(w);
        self.chart.add_word(w);
        let number = verdict.number();
        self.chart.set_status(status_for(number), number);
        Ok(Judged { word: w, verdict })
    }

    // A word that passes replaces the last of the series, and the chart is free again. If the word fails, the series does not change, and a
    // correction is due.
    pub fn reanalyse(&mut self, kind: u16, a: i64, b: i64, c: i64) -> Result<Retested, Refusal>
        ensures { Gives self.old.chart (machine.reanalysis kind a b c) self.new.chart (reanalysis_says result) }
    {
        self.may_reanalyse()?;
        let w = word_for(self.chart.kind, kind, a, b, c)?;
        let passed = self.passes_for_last(w);
        if passed {
            self.chart.replace_last(w);
            self.chart.set_status(0, 0);
        } else {
            self.chart.status = 2;
        }
        Ok(Retested { word: w, passed })
    }

    // After a correction a reanalysis is due again.
    pub fn correct(&mut self) -> Result<(), Refusal>
        ensures { Gives self.old.chart machine.correction self.new.chart (correction_says result) }
    {
        if self.chart.status != 2 {
            return Err(Refusal::NoCorrectionDue);
        }
        self.chart.status = 1;
        Ok(())
    }

    // Rejection from the shortest tail of base and series that will do gives the new base.
    pub fn renew(&mut self) -> Result<Counts, Refusal>
        ensures { Gives self.old.chart machine.renewal self.new.chart (renewal_says result) }
    {
        self.may_renew()?;
        let r = self.renewal_rejection();
        let left = r.left;
        if left.n < Chart::BASE_WANTED {
            return Err(Refusal::TooFewStand);
        }
        self.chart = fresh_chart(self.chart.kind, left.words, left.n);
        Ok(Counts {
            rounds: r.rounds,
            removed: r.removed,
        })
    }

    // ---- refusals that come first, before the call's reading and before rejection

    fn may_post(&self) -> Result<(), Refusal>
        ensures { answered_number result ≡ machine.post_refusal (state_of self.now.chart) }
    {
        if self.chart.status != 0 {
            return Err(Refusal::NotFree);
        }
        let room = self.chart.series_len < Chart::SERIES_MOST;
        if !room {
            return Err(Refusal::SeriesFull);
        }
        Ok(())
    }

    fn may_reanalyse(&self) -> Result<(), Refusal>
        ensures { answered_number result ≡ machine.reanalysis_refusal (state_of self.now.chart) }
    {
        if self.chart.status != 1 {
            return Err(Refusal::NoReanalysisDue);
        }
        Ok(())
    }

    fn may_renew(&self) -> Result<(), Refusal>
        ensures { answered_number result ≡ machine.renewal_refusal (state_of self.now.chart) }
    {
        if self.chart.status != 0 {
            return Err(Refusal::NotFree);
        }
        let enough = Chart::BASE_WANTED <= self.chart.base_len + self.chart.series_len;
        if !enough {
            return Err(Refusal::TooFewWords);
        }
        Ok(())
    }

    // ---- the words

    pub fn base_words(&self) -> &[i16]
        ensures { result.now ≡ (state_of self.now.chart).base }
    {
        &self.chart.base[..self.chart.base_len]
    }

    pub fn series_words(&self) -> &[i16]
        ensures { result.now ≡ (state_of self.now.chart).series }
    {
        &self.chart.series[..self.chart.series_len]
    }

    // ---- judging

    // The verdict that posting w would give.
    fn verdict_on(&self, w: i16) -> Verdict
        requires { HasRoom self.now.chart }
        ensures { verdict_number result ≡ verdicts.verdict (limits_for (state_of self.now.chart)) (add_word (state_of self.now.chart) w).series }
    {
        let l = self.limits();
        let mut series = self.chart.series;
        let m = self.chart.series_len;
        series[m] = w;
        let after = m + 1;
        verdict(l, &series[..after])
    }

    // Whether w passes in place of the last word of the series.
    fn passes_for_last(&self, w: i16) -> bool
        ensures { result ≡ reanalyses.passes (limits_for (state_of self.now.chart))
            self.now.chart.open_verdict (state_of self.now.chart).series w }
    {
        passes(
            self.limits(),
            self.chart.open_verdict,
            self.series_words(),
            w,
        )
    }

    // The limits that the base gives.
    pub fn limits(&self) -> Limits
        ensures { LimitsFor (state_of self.now.chart) result }
    {
        limits_of(self.chart.kind, self.base_words())
    }

    // What rejection leaves of the shortest tail of base and series that will do.
    fn renewal_rejection(&self) -> RejectionAnswer
        ensures { IsRejection
            (tail_rejection self.now.chart.kind ((state_of self.now.chart).base ++ (state_of self.now.chart).series)) result }
    {
        reject_tail(self.chart.kind, self.base_words(), self.series_words())
    }
}
