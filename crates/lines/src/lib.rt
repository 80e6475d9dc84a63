// Lines for the plotter: document 01, "Lines for the plotter". The limits of a chart and its mean are doubles, each a whole number k of
// 256ths. An upper limit is rounded down, a lower limit up, the mean down. `parts` works out k in whole numbers. Then k is divided by 256,
// which is exact in doubles.
//
// `lines_of` and `against_lines` refuse a chart that is not sound, with 14.
//
// There are two ways to compare a word with a chart's lines. They are proved to give the same answer. `against_lines` works out the doubles
// and compares the word with them, as a plotter does. So its proof shows that the lines judge as the limits do. `against_lines_sound`
// compares the word with the exact limits. It needs no square root and no double, and serves a caller that needs only the answer.
#![tactic(auto)]

mod parts;

ghost use Rattle.std.specs.Prelude.{◌≡◌, ◌^◌, ◌≤◌, unsigned_abs};
ghost use Rattle.rules.specs.Double.{double_of};
ghost use Rattle.rules.specs.State.{limits_for};
ghost use Rattle.rules.specs.ChartLines.{lines_of, beyond_each};
ghost use Rattle.limits.specs.Sums.{limits_say};
ghost use Rattle.chart.specs.Chart.{state_of};
ghost use Rattle.lines.specs.Lines.{beyond_says, float_above, float_below, float_beyond, parts_held};
ghost use Rattle.lines.specs.Lines.{HasLines, lines_say, lines_answer_says, against_says, answer_to_lines, answer_to_against};

use chart::Chart;
use chart::sound::SoundChart;
use limits::{CONTROL, Limits, WARNING, beyond, has_lower};
use parts::{deviation_parts, lower_parts, mean_parts, upper_parts};
use refusals::Refusal;

#[derive(Clone, Copy)]
pub struct TwoSidedLines {
    pub mean: f64,
    pub lower_warning: f64,
    pub upper_warning: f64,
    pub lower_control: f64,
    pub upper_control: f64,
}

#[derive(Clone, Copy)]
pub enum Lines {
    // Kind 1. Its lower line, always 0.0, is not carried.
    Duplicate {
        mean: f64,
        upper_warning: f64,
        upper_control: f64,
    },
    TwoSided(TwoSidedLines),
}

// Whether a word is beyond each limit. Kind 1 has no lower limits, so no word is beyond them.
#[derive(Clone, Copy)]
pub struct BeyondEach {
    pub lower_warning: bool,
    pub upper_warning: bool,
    pub lower_control: bool,
    pub upper_control: bool,
}

// The lines of a chart.
pub fn lines_of(chart: Chart) -> Result<Lines, Refusal>
    ensures { lines_answer_says result ≡ answer_to_lines chart }
{
    let sound = chart.checked()?;
    Ok(lines_of_sound(sound))
}

// Whether a word is beyond each line of a chart, by the doubles. The exact limits give the same answer.
pub fn against_lines(chart: Chart, word: i16) -> Result<BeyondEach, Refusal>
    ensures { against_says result ≡ answer_to_against chart word }
{
    let lines = lines_of(chart)?;
    Ok(beyond_lines(lines, word))
}

// ---- the same for a chart that is known to be sound, such as one that was just read

pub fn lines_of_sound(sound: SoundChart) -> Lines
    ensures { lines_say result ≡ lines_of (limits_for (state_of sound.chart)) }
{
    lines_by(sound.limits())
}

// Compares with the exact limits, and works out no line.
pub fn against_lines_sound(sound: SoundChart, word: i16) -> BeyondEach
    ensures { beyond_says result ≡ beyond_each (limits_for (state_of sound.chart)) word }
{
    let l = sound.limits();
    let warning = beyond(WARNING, l, word);
    let control = beyond(CONTROL, l, word);
    BeyondEach {
        lower_warning: warning.lower,
        upper_warning: warning.upper,
        lower_control: control.lower,
        upper_control: control.upper,
    }
}

// ---- a word against doubles

// Whether a word is beyond each of these lines. Their doubles may be any.
pub fn beyond_lines(lines: Lines, word: i16) -> BeyondEach
    ensures { beyond_says result ≡ float_beyond (lines_say lines) word }
{
    match lines {
        Lines::Duplicate {
            mean,
            upper_warning,
            upper_control,
        } => BeyondEach {
            lower_warning: false,
            upper_warning: above_line(upper_warning, word),
            lower_control: false,
            upper_control: above_line(upper_control, word),
        },
        Lines::TwoSided(l) => BeyondEach {
            lower_warning: below_line(l.lower_warning, word),
            upper_warning: above_line(l.upper_warning, word),
            lower_control: below_line(l.lower_control, word),
            upper_control: above_line(l.upper_control, word),
        },
    }
}

// The whole number k of 256ths that a line's double denotes. If k is 2^63 or more in size, the answer is 0. No chart's line has such a k.
pub fn parts_in(line: f64) -> i64
    ensures { result ≡ parts_held line }
{
    let parts = line * (Chart::LINE_PARTS as f64);
    if parts > -9223372036854775808.0 {
        if parts < 9223372036854775808.0 {
            return std::num::truncating_f64_to_i64(parts);
        }
    }
    0
}

// A word on a line is not beyond it.
fn above_line(line: f64, word: i16) -> bool
    ensures { result ≡ float_above line word }
{
    line < (word as f64)
}

fn below_line(line: f64, word: i16) -> bool
    ensures { result ≡ float_below line word }
{
    (word as f64) < line
}

// ---- the lines that limits give

fn lines_by(l: Limits) -> Lines
    requires { HasLines l.sums }
    ensures { lines_say result ≡ lines_of (limits_say l) }
{
    let s = l.sums;
    let mean = line_of(mean_parts(s));
    let warning = deviation_parts(WARNING, s);
    let control = deviation_parts(CONTROL, s);
    let upper_warning = line_of(upper_parts(warning, s));
    let upper_control = line_of(upper_parts(control, s));
    if has_lower(l.kind) {
        let lower_warning = line_of(lower_parts(warning, s));
        let lower_control = line_of(lower_parts(control, s));
        return Lines::TwoSided(TwoSidedLines {
            mean,
            lower_warning,
            upper_warning,
            lower_control,
            upper_control,
        });
    }
    Lines::Duplicate {
        mean,
        upper_warning,
        upper_control,
    }
}

// k / 256: a double holds k, 256 and their quotient exactly.
fn line_of(k: i64) -> f64
    requires { unsigned_abs k ≤ 2 ^ 34 }
    ensures { result ≡ double_of k }
{
    let parts = Chart::LINE_PARTS as f64;
    (k as f64) / parts
}
