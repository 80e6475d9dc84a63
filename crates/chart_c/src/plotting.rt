// Lines, and a word against them, into lent buffers.
ghost use Rattle.std.specs.Prelude.{◌≡◌};
ghost use Rattle.refusals.specs.Refusal.{answered_number};
ghost use Rattle.lines.specs.Lines.{lines_say, beyond_says};
ghost use Rattle.chart_c.specs.Plotting.{doubles_of, doubles_into, drawn, Draws, beyond_into, compared, Compares};

use lines::{BeyondEach, Lines, against_lines_sound, lines_of_sound};
use refusals::Refusal;
use store::held::held_in;

// One byte for each limit: whether a word is beyond it.
const BEYOND_SIZE: usize = 4;

// Puts the doubles of a chart's lines at the front of the buffer, and their number into `count`. A refusal leaves both as they were.
pub fn draw(chart: &[u8], buffer: &mut [f64], count: &mut usize) -> Result<(), Refusal>
    ensures { Draws (drawn chart.now buffer.old)
        buffer.old buffer.new count.old count.new (answered_number result) }
{
    let held = held_in(chart)?;
    put_line_doubles(lines_of_sound(held), buffer, count)
}

#[tactic(auto, unfolding(crate::specs::Plotting::doubles_of, lines::specs::Lines::lines_say))]
fn put_line_doubles(lines: Lines, buffer: &mut [f64], count: &mut usize) -> Result<(), Refusal>
    ensures { Draws (doubles_into buffer.old (doubles_of (lines_say lines)))
        buffer.old buffer.new count.old count.new (answered_number result) }
{
    match lines {
        Lines::Duplicate {
            mean,
            upper_warning,
            upper_control,
        } => {
            let three = [mean, upper_warning, upper_control];
            put_doubles(&three, buffer, count)
        }
        Lines::TwoSided(l) => {
            let five = [
                l.mean,
                l.lower_warning,
                l.upper_warning,
                l.lower_control,
                l.upper_control,
            ];
            put_doubles(&five, buffer, count)
        }
    }
}

fn put_doubles(doubles: &[f64], buffer: &mut [f64], count: &mut usize) -> Result<(), Refusal>
    ensures { Draws (doubles_into buffer.old doubles.now)
        buffer.old buffer.new count.old count.new (answered_number result) }
{
    let n = doubles.len();
    if buffer.len() < n {
        return Err(Refusal::NoRoom);
    }
    buffer[..n].copy_from_slice(doubles);
    *count = n;
    Ok(())
}

// Puts four bytes at the front of the buffer: 1 for each limit of a chart that the word is beyond, 0 for each other one. A refusal leaves
// the buffer as it was. A number that does not fit in sixteen bits is no word.
pub fn compare(chart: &[u8], number: i32, buffer: &mut [u8]) -> Result<(), Refusal>
    ensures { Compares (compared chart.now number buffer.old) buffer.old buffer.new (answered_number result) }
{
    let held = held_in(chart)?;
    let Ok(word) = i16::try_from(number) else {
        return Err(Refusal::NoWord);
    };
    put_beyond(against_lines_sound(held, word), buffer)
}

fn put_beyond(b: BeyondEach, buffer: &mut [u8]) -> Result<(), Refusal>
    ensures { Compares (beyond_into buffer.old (beyond_says b)) buffer.old buffer.new (answered_number result) }
{
    if buffer.len() < BEYOND_SIZE {
        return Err(Refusal::NoRoom);
    }
    let flags = [
        u8::from(b.lower_warning),
        u8::from(b.upper_warning),
        u8::from(b.lower_control),
        u8::from(b.upper_control),
    ];
    buffer[..BEYOND_SIZE].copy_from_slice(&flags);
    Ok(())
}
