// Numbers in two bytes, the lower first, and words in two's complement.
ghost use Rattle.std.specs.Prelude.{◌≡◌, [], ◌∷◌, map, ◌+◌, ◌*◌, ◌≤◌, length, drop};
ghost use Rattle.rules.specs.Bytes.{bytes_of, number_in, number_of, word_of};
ghost use Rattle.rules.specs.Buffer.{Placed};

// The number that stands for a word.
#[tactic(auto, using(crate::proofs::TwoBytes::bits_are))]
pub fn number_of(w: i16) -> u16
    ensures { result ≡ number_of w }
{
    w.cast_unsigned()
}

// The word that a number stands for.
#[tactic(auto, using(crate::proofs::TwoBytes::word_is))]
pub fn word_of(n: u16) -> i16
    ensures { result ≡ word_of n }
{
    n.cast_signed()
}

// The number that begins at a byte.
#[tactic(auto, unfolding(rules::specs::Bytes::number_in))]
pub fn number_at(bytes: &[u8], at: usize) -> u16
    requires { at + 2 ≤ length bytes.now }
    ensures { result ≡ number_in (drop at bytes.now) }
{
    u16::from_le_bytes([bytes[at], bytes[at + 1]])
}

// Puts a number into the buffer from a byte on. Answers the byte after it.
pub fn put_number(out: &mut [u8], at: usize, n: u16) -> usize
    requires { at + 2 ≤ length out.old }
    ensures { Placed out.old at (bytes_of (n ∷ [])) out.new result }
{
    out[at..at + 2].copy_from_slice(&n.to_le_bytes());
    at + 2
}

// Puts words into the buffer, one after the other, from a byte on. Answers the byte after them.
pub fn put_word_numbers(out: &mut [u8], at: usize, words: &[i16]) -> usize
    requires { at + 2 * length words.now ≤ length out.old }
    ensures { Placed out.old at (bytes_of (map number_of words.now)) out.new result }
{
    let mut next = at;
    for &w in words {
        next = put_number(out, next, number_of(w));
    }
    next
}
