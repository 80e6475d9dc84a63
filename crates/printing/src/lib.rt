// Text put into a lent buffer: bytes, numbers in decimal, 256ths with eight decimals, bytes as hex digits,
// the texts of a table.
//
// Each function puts its text into the buffer from a place on. It answers the place after the text, where the next text goes. A byte for
// which there is no room is left out, and does not move the place.
#![tactic(auto)]

pub mod hex;
pub mod numbers;
pub mod tables;

ghost use Rattle.std.specs.Prelude.{[], ◌∷◌};
ghost use Rattle.printing.specs.Output.{Puts};

pub fn put_byte(out: &mut [u8], at: usize, b: u8) -> usize
    ensures { Puts out.old at (b ∷ []) out.new result }
{
    if at < out.len() {
        out[at] = b;
        return at + 1;
    }
    at
}

pub fn put_text(out: &mut [u8], at: usize, text: &[u8]) -> usize
    ensures { Puts out.old at text.now out.new result }
{
    let mut next = at;
    for b in text {
        next = put_byte(out, next, *b);
    }
    next
}
