// What is refused: the numbers of document 01, "Numbers for what is declined", and 16 of document 02, Q-4. Each refusal is a case of one
// enum, and what a call gives is a `Result` with it.
#![tactic(auto)]

ghost use Rattle.std.specs.Prelude.{◌≡◌, ℕ};
ghost use Rattle.refusals.specs.Refusal.{refusal_number};

// The table's rows, in its order.
#[derive(Clone, Copy, Debug, PartialEq, Eq)]
pub enum Refusal {
    // The kind is not 1, 2 or 3.
    NoKind = 1,
    // There are not 15 to 32 words.
    WordCount = 2,
    // A word given for the base is out of range.
    BaseWord = 3,
    // The reading is of another kind than the chart.
    AnotherKind = 4,
    // A reading is not in 0..1,000,000,000.
    NoReading = 5,
    // The divisor is 0.
    Divisor = 6,
    // The word is out of range.
    NoWord = 7,
    // A reanalysis or a correction is due.
    NotFree = 8,
    // The series is full: it has 366 words.
    SeriesFull = 9,
    // No reanalysis is due.
    NoReanalysisDue = 10,
    // No correction is due.
    NoCorrectionDue = 11,
    // Base and series together have fewer than 15 words.
    TooFewWords = 12,
    // The bytes are not a stored form.
    NoStoredForm = 13,
    // There is no chart, or it is not sound.
    NotSound = 14,
    // The buffer is too short.
    NoRoom = 15,
    // Fewer than 15 words stand after rejection.
    TooFewStand = 16,
}

impl Refusal {
    #[tactic(auto, unfolding(crate::specs::Refusal::refusal_number))]
    pub fn number(self) -> u16
        ensures { result ≡ refusal_number self }
    {
        self as u16
    }
}

// What has a refusal's number: a refusal of the table, or a number, which need not stand in the table.
pub trait Numbered: Copy {
    ghost number_of: { Self → ℕ };

    fn number(self) -> u16
        ensures { result ≡ number_of self };
}

impl Numbered for Refusal {
    ghost number_of = { refusal_number };

    fn number(self) -> u16 {
        Refusal::number(self)
    }
}

impl Numbered for u16 {
    ghost number_of = { λ n. n };

    fn number(self) -> u16 {
        self
    }
}
