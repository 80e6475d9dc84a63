// The lines that sums of words give, as whole numbers k of 256ths. Let d be the greatest whole number for which d / n is at most 256·m·S.
// Then an upper limit is the greatest k with n·k ≤ 256·T + d, and a lower limit the least k with n·k ≥ 256·T − d. d is a square root.
// `deviation_parts` works it out once for both.
ghost use Rattle.std.specs.Prelude.{◌≡◌, ◌*◌, ◌^◌, ◌<◌, ◌≤◌, pos, ◌*ℤ◌, unsigned_abs};
ghost use Rattle.rules.specs.Sizes.{line_parts};
ghost use Rattle.rules.specs.Limits.{control_multiple};
ghost use Rattle.rules.specs.SquareRoot.{square_root};
ghost use Rattle.rules.specs.Lines as rules;
ghost use Rattle.limits.specs.Bounded.{Bounded};
ghost use Rattle.limits.specs.Sums.{sums_say};
ghost use Rattle.lines.specs.Lines.{upper_line_by, lower_line_by, HasLines, IsParts};

use chart::Chart;
use limits::{Sums, v_of};

// 256 times the mean, rounded down.
pub fn mean_parts(s: Sums) -> i64
    requires { HasLines s }
    ensures { IsParts (rules.mean_line (sums_say s)) result }
{
    quotient_down(sum_parts(s), s.n)
}

// 256 times the mean plus d / n, rounded down.
pub fn upper_parts(d: u32, s: Sums) -> i64
    requires { HasLines s }
    ensures { IsParts (upper_line_by d (sums_say s)) result }
{
    quotient_down(sum_parts(s) + (d as i64), s.n)
}

// 256 times the mean minus d / n, rounded up.
pub fn lower_parts(d: u32, s: Sums) -> i64
    requires { HasLines s }
    ensures { IsParts (lower_line_by d (sums_say s)) result }
{
    quotient_up(sum_parts(s) - (d as i64), s.n)
}

// The greatest whole number d for which d / n is at most 256·m·S. S itself is never rounded.
pub fn deviation_parts(m: u8, s: Sums) -> u32
    requires { (m ≤ control_multiple) × HasLines s }
    ensures { result ≡ rules.greatest_deviation (line_parts * m) (sums_say s) }
{
    let n = s.n;
    let multiple = (Chart::LINE_PARTS as u64) * (m as u64);
    let v = v_of(s);
    square_root(multiple * multiple * (n * v) / (n - 1))
}

// 256·T
fn sum_parts(s: Sums) -> i64
    requires { Bounded s }
    ensures { result ≡ pos line_parts *ℤ s.t }
{
    (Chart::LINE_PARTS as i64) * s.t
}

// The greatest whole number whose square is at most q, by Newton's method. The first guess comes from the number of binary digits of q. It
// is a power of two that is not below the root. A guess is above the root if q / guess is below the guess. The next guess is then the mean
// of the two, which is less and not below the root. The code never squares a guess, because the square can be too large for 64 bits.
// Not by `isqrt`: it halves an interval 32 times, which takes twice as long or more.
fn square_root(q: u64) -> u32
    ensures { result ≡ square_root q }
{
    // For any other q the root is not 0, so no guess is 0 and the division is safe.
    if q == 0 {
        return 0;
    }
    let mut guess = 1u64 << ((65 - u64::leading_zeros(q)) / 2);
    while q / guess < guess {
        guess = (guess + q / guess) / 2;
    }
    guess as u32
}

// z / n rounded up. It is minus (−z / n rounded down).
fn quotient_up(z: i64, n: u64) -> i64
    requires { (unsigned_abs z < 2 ^ 63) × (1 ≤ n) }
    ensures { result ≡ rules.quotient_up z n }
{
    -quotient_down(-z, n)
}

// z / n rounded down. For a negative z, `!z` is |z| − 1, and `!` of (|z| − 1) / n is z / n rounded down. Not by `div_euclid`: n may be 2^63
// or more, which no i64 holds.
fn quotient_down(z: i64, n: u64) -> i64
    requires { 1 ≤ n }
    ensures { result ≡ rules.quotient_down z n }
{
    if z < 0 {
        let y = !z;
        let down = (y as u64) / n;
        return !(down as i64);
    }
    let down = (z as u64) / n;
    down as i64
}
