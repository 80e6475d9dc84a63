// Limits over bounded sums.
ghost use Rattle.limits.specs.Bounded.{Bounded, Bounded-prop};

use crate::Sums;

// What a word is judged by: a chart kind, and the sums of the words that the limits are worked out from. The sums are within the bounds of
// the sums of at most 32 words.
#[derive(Clone, Copy)]
pub struct Limits {
    pub kind: u16,
    pub sums: Sums,
    pub ghost bounded: { Bounded sums } by { Bounded-prop sums },
}
