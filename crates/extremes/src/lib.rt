// The least and the greatest of some words.
//
// They decide a test that every word between two passing words passes too, such as the range of a kind or the control limits: all words
// pass exactly if these two pass. So many words need only two tests, and a loop that only compares.
#![tactic(auto)]

ghost use Rattle.extremes.specs.Extremes as specs;

#[derive(Clone, Copy)]
pub struct Extremes {
    pub least: i16,
    pub greatest: i16,
}

// Without words both are 0. No word ends the loop early, so the compiler can let it take many words at a time.
pub fn extremes_of(words: &[i16]) -> Extremes
    ensures { specs.AreExtremes words.now result }
{
    let [first, rest @ ..] = words else {
        return Extremes {
            least: 0,
            greatest: 0,
        };
    };
    let mut e = Extremes {
        least: *first,
        greatest: *first,
    };
    for w in rest {
        e = with_word(e, *w);
    }
    e
}

// The extremes after one more word.
fn with_word(e: Extremes, w: i16) -> Extremes
    ensures { specs.AreWithWord e w result }
{
    Extremes {
        least: e.least.min(w),
        greatest: e.greatest.max(w),
    }
}
