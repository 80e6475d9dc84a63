// Bytes as hex digits in lower case, two to a byte, the higher first.
ghost use Rattle.std.specs.Prelude.{◌≡◌, [], ◌∷◌, ◌<◌};
ghost use Rattle.printing.specs.Output.{Puts};
ghost use Rattle.printing.specs.Hex.{hex_digit, hex_of};

use crate::put_byte;

// Two digits to a byte, in lower case.
pub fn put_hex(out: &mut [u8], at: usize, bytes: &[u8]) -> usize
    ensures { Puts out.old at (hex_of bytes.now) out.new result }
{
    let mut next = at;
    for b in bytes {
        next = put_hex_byte(out, next, *b);
    }
    next
}

fn put_hex_byte(out: &mut [u8], at: usize, b: u8) -> usize
    ensures { Puts out.old at (hex_of (b ∷ [])) out.new result }
{
    let next = put_byte(out, at, hex_digit(b / 16));
    put_byte(out, next, hex_digit(b % 16))
}

#[tactic(auto, unfolding(crate::specs::Hex::hex_digit))]
fn hex_digit(d: u8) -> u8
    requires { d < 16 }
    ensures { result ≡ hex_digit d }
{
    if d < 10 { b'0' + d } else { b'a' + (d - 10) }
}
