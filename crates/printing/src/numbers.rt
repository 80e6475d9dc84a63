// Numbers as text: in decimal, and 256ths exactly, with eight decimals.
ghost use Rattle.std.specs.Prelude.{[], ◌∷◌, ◌<◌};
ghost use Rattle.printing.specs.Output.{Puts};
ghost use Rattle.printing.specs.Decimal.{space_code, digit, decimal, signed_decimal, spaced_words};
ghost use Rattle.printing.specs.Decimal.{sign_text, last_digits, parts_decimal};

use crate::put_byte;
use limits::LINE_PARTS;

// 1/256 is 0.00390625.
const DECIMALS_OF_PART: u64 = 390625;

// Puts all digits but the last, and then the last.
pub fn put_decimal(out: &mut [u8], at: usize, n: u64) -> usize
    ensures { Puts out.old at (decimal n) out.new result }
{
    if n < 10 {
        return put_digit(out, at, n);
    }
    let next = put_decimal(out, at, n / 10);
    put_digit(out, next, n % 10)
}

pub fn put_signed(out: &mut [u8], at: usize, z: i64) -> usize
    ensures { Puts out.old at (signed_decimal z) out.new result }
{
    let next = put_sign(out, at, z);
    put_decimal(out, next, z.unsigned_abs())
}

// Each word after a space.
pub fn put_words(out: &mut [u8], at: usize, words: &[i16]) -> usize
    ensures { Puts out.old at (spaced_words words.now) out.new result }
{
    let mut next = at;
    for w in words {
        next = put_word(out, next, *w);
    }
    next
}

// k / 256, exactly: the sign, the whole part, then the rest as eight decimals.
pub fn put_parts(out: &mut [u8], at: usize, k: i64) -> usize
    ensures { Puts out.old at (parts_decimal k) out.new result }
{
    let after_sign = put_sign(out, at, k);
    let n = k.unsigned_abs();
    let after_whole = put_decimal(out, after_sign, n / (LINE_PARTS as u64));
    let after_point = put_byte(out, after_whole, b'.');
    put_last_digits(
        out,
        after_point,
        8,
        n % (LINE_PARTS as u64) * DECIMALS_OF_PART,
    )
}

// A minus sign, if z is below 0.
#[tactic(auto, using(crate::proofs::Signs::held_below))]
fn put_sign(out: &mut [u8], at: usize, z: i64) -> usize
    ensures { Puts out.old at (sign_text z) out.new result }
{
    if z < 0 {
        return put_byte(out, at, b'-');
    }
    at
}

fn put_digit(out: &mut [u8], at: usize, d: u64) -> usize
    requires { d < 10 }
    ensures { Puts out.old at (digit d ∷ []) out.new result }
{
    put_byte(out, at, b'0' + (d as u8))
}

fn put_word(out: &mut [u8], at: usize, w: i16) -> usize
    ensures { Puts out.old at (space_code ∷ signed_decimal w) out.new result }
{
    let next = put_byte(out, at, b' ');
    put_signed(out, next, w as i64)
}

// The last `count` digits of n, with zeros in front if it has fewer.
fn put_last_digits(out: &mut [u8], at: usize, count: usize, n: u64) -> usize
    ensures { Puts out.old at (last_digits count n) out.new result }
{
    if count == 0 {
        return at;
    }
    let next = put_last_digits(out, at, count - 1, n / 10);
    put_digit(out, next, n % 10)
}
