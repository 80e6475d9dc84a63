// The verdicts, with their numbers in document 01, "Post".
ghost use Rattle.std.specs.Prelude.{◌≡◌};
ghost use Rattle.judging.specs.Verdicts.{verdict_number};

#[derive(Clone, Copy, Debug, PartialEq, Eq)]
pub enum Verdict {
    // None of the others applies.
    Fits = 0,
    // The word is beyond a control limit.
    BeyondControl = 1,
    // The word and the one before it are beyond the warning limit on the same side.
    BeyondWarning = 2,
    // The last seven words rise, or fall.
    Trend = 3,
    // The last seven words are on one side of the mean.
    OneSide = 4,
}

impl Verdict {
    #[tactic(auto, unfolding(crate::specs::Verdicts::verdict_number))]
    pub fn number(self) -> u16
        ensures { result ≡ verdict_number self }
    {
        self as u16
    }
}
