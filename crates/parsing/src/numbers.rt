// Numbers in decimal: an optional minus sign, and one digit or more. What a number stands for as a kind, as a word and as a reading.
ghost use Rattle.std.specs.Prelude.{◌≡◌, true, ◌+◌, ◌*◌, ◌-◌, ◌≤◌, min};
ghost use Rattle.parsing.specs.Number.{is_digit, are_digits, value_of, value_most, signed_value, digits_number, number_in_field};
ghost use Rattle.parsing.specs.Number.{number_says, number_within, kind_in_field, word_in_field, reading_in_field};

// 2^63 + 1, the least number that fits signed 64 bits with neither sign.
const VALUE_MOST: u64 = 9223372036854775809;

// Why a field holds no number of signed 64 bits.
#[derive(Clone, Copy, Debug, PartialEq, Eq)]
pub enum NumberFault {
    NoNumber,
    // A number that does not fit signed 64 bits.
    Beyond,
}

pub fn number_in_field(text: &[u8]) -> Result<i64, NumberFault>
    ensures { number_says result ≡ number_in_field text.now }
{
    match text {
        [] => Err(NumberFault::NoNumber),
        [b'-', digits @ ..] => digits_number(true, digits),
        _ => digits_number(false, text),
    }
}

pub fn kind_in_field(n: Result<i64, NumberFault>) -> u16
    ensures { result ≡ kind_in_field (number_says n) }
{
    match n {
        Ok(z) => u16::try_from(z).unwrap_or(0),
        Err(_) => 0,
    }
}

pub fn word_in_field(n: Result<i64, NumberFault>) -> i16
    ensures { result ≡ word_in_field (number_says n) }
{
    match n {
        Ok(z) => i16::try_from(z).unwrap_or(i16::MAX),
        Err(_) => i16::MAX,
    }
}

pub fn reading_in_field(n: Result<i64, NumberFault>) -> i64
    ensures { result ≡ reading_in_field (number_says n) }
{
    n.unwrap_or(0)
}

// The number that digits denote, with the sign that stood before them.
fn digits_number(negative: bool, digits: &[u8]) -> Result<i64, NumberFault>
    ensures { number_says result ≡ digits_number negative digits.now }
{
    if !are_digits(digits) {
        return Err(NumberFault::NoNumber);
    }
    signed_number(negative, value_of(digits))
}

#[tactic(auto, unfolding(crate::specs::Number::are_digits))]
fn are_digits(text: &[u8]) -> bool
    ensures { result ≡ are_digits text.now }
{
    !text.is_empty() && text.iter().all(|b| is_digit(*b))
}

#[tactic(auto, unfolding(crate::specs::Number::is_digit))]
pub fn is_digit(b: u8) -> bool
    ensures { result ≡ is_digit b }
{
    b.is_ascii_digit()
}

// The number that digits denote, but at most 2^63 + 1. Larger numbers do not fit signed 64 bits either, so this one stands for them all.
#[tactic(auto, using(crate::proofs::Values::value_none, crate::proofs::Values::value_more))]
fn value_of(digits: &[u8]) -> u64
    requires { are_digits digits.now ≡ true }
    ensures { result ≡ min (value_of digits.now) value_most }
{
    let mut n: u64 = 0;
    for d in digits {
        n = with_digit(n, *d);
    }
    n
}

// n with one more digit after it, but at most 2^63 + 1.
#[tactic(auto, using(crate::proofs::Tests::digit_range))]
fn with_digit(n: u64, d: u8) -> u64
    requires { (is_digit d ≡ true) × (n ≤ value_most) }
    ensures { result ≡ min (n * 10 + (d - 48)) value_most }
{
    n.saturating_mul(10)
        .saturating_add((d - b'0') as u64)
        .min(VALUE_MOST)
}

// n with a sign.
fn signed_number(negative: bool, n: u64) -> Result<i64, NumberFault>
    ensures { number_says result ≡ signed_value negative n }
{
    if negative {
        return 0i64.checked_sub_unsigned(n).ok_or(NumberFault::Beyond);
    }
    i64::try_from(n).ok().ok_or(NumberFault::Beyond)
}
