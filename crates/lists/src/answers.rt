// Answers as numbers, three to each. A refusal may be any number.
ghost use Rattle.std.specs.Prelude.{◌≡◌, ◌+◌, ◌≤◌, length};
ghost use Rattle.rules.specs.Buffer.{overwritten};
ghost use Rattle.rules.specs.Machine.{refused};
ghost use Rattle.chart.specs.Calls.{post_says_by, reanalysis_says_by, correction_says_by, renewal_says_by};
ghost use Rattle.lists.specs.Encoding.{answer_size, numbers_of};
ghost use Rattle.lists.specs.Runs.{said_numbers, Counted};

use chart::{Counts, Retested, WordJudged};
use refusals::Numbered;

// How many numbers an answer has.
pub const ANSWER_SIZE: usize = 3;

#[derive(Clone, Copy)]
pub struct Said {
    // The number of the call, or 0 for a refusal.
    pub number: i64,
    pub first: i64,
    pub second: i64,
}

// The verdict may be any number.
#[tactic(auto, unfolding(crate::specs::Encoding::numbers_of, crate::specs::Runs::said_numbers))]
pub fn said_by_post<J: WordJudged, R: Numbered>(answer: Result<J, R>) -> Said
    ensures { said_numbers result ≡ numbers_of (post_says_by J.word_of J.verdict_of R.number_of answer) }
{
    match answer {
        Ok(judged) => Said {
            number: 1,
            first: i64::from(judged.word_judged()),
            second: i64::from(judged.verdict_number()),
        },
        Err(refusal) => refused(refusal.number()),
    }
}

#[tactic(auto, unfolding(crate::specs::Encoding::numbers_of, crate::specs::Runs::said_numbers))]
pub fn said_by_reanalysis<R: Numbered>(answer: Result<Retested, R>) -> Said
    ensures { said_numbers result ≡ numbers_of (reanalysis_says_by R.number_of answer) }
{
    match answer {
        Ok(retested) => Said {
            number: 2,
            first: i64::from(retested.word),
            second: i64::from(retested.passed),
        },
        Err(refusal) => refused(refusal.number()),
    }
}

#[tactic(auto, unfolding(crate::specs::Encoding::numbers_of, crate::specs::Runs::said_numbers))]
pub fn said_by_correction<R: Numbered>(answer: Result<(), R>) -> Said
    ensures { said_numbers result ≡ numbers_of (correction_says_by R.number_of answer) }
{
    match answer {
        Ok(()) => Said {
            number: 3,
            first: 0,
            second: 0,
        },
        Err(refusal) => refused(refusal.number()),
    }
}

// The counts of a renewal are small, so they keep their value as signed numbers.
#[tactic(auto, unfolding(crate::specs::Encoding::numbers_of, crate::specs::Runs::said_numbers))]
pub fn said_by_renewal<R: Numbered>(answer: Result<Counts, R>) -> Said
    requires { Counted (renewal_says_by R.number_of answer) }
    ensures { said_numbers result ≡ numbers_of (renewal_says_by R.number_of answer) }
{
    match answer {
        Ok(counts) => Said {
            number: 4,
            first: counts.rounds as i64,
            second: counts.removed as i64,
        },
        Err(refusal) => refused(refusal.number()),
    }
}

// Puts the three numbers into the buffer from a place on.
#[tactic(auto, using(crate::proofs::Numbers::put_three))]
pub fn put_answer(answers: &mut [i64], place: usize, said: Said)
    requires { place + answer_size ≤ length answers.old }
    ensures { answers.new ≡ overwritten answers.old place (said_numbers said) }
{
    answers[place..place + ANSWER_SIZE].copy_from_slice(&[said.number, said.first, said.second]);
}

#[tactic(auto, unfolding(crate::specs::Encoding::numbers_of, crate::specs::Runs::said_numbers))]
fn refused(n: u16) -> Said
    ensures { said_numbers result ≡ numbers_of (refused n) }
{
    Said {
        number: 0,
        first: i64::from(n),
        second: 0,
    }
}
