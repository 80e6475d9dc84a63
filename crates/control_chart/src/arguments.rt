// The arguments, and those of a command as a line.
ghost use Rattle.std.specs.Prelude.{[], ◌∷◌, ◌≤◌, length, eqb};
ghost use Rattle.io.specs.Counts.{IsPrefixLen};
ghost use Rattle.rules.specs.Choice.{choose};
ghost use Rattle.printing.specs.Output.{Puts};
ghost use Rattle.printing.specs.Decimal.{space_code};

use crate::input::LINE_ROOM;
use crate::say::put_within;
use printing::put_byte;
use std::env::FillError;
use std::rt::Env;

// How many arguments there are, with the program's name.
pub fn argument_count(rt: HostRuntime) -> usize {
    for count in 0..usize::MAX {
        if !is_argument(rt, count) {
            return count;
        }
    }
    usize::MAX
}

fn is_argument(rt: HostRuntime, i: usize) -> bool {
    let mut none = [0u8; 0];
    !matches!(rt.arg(i, &mut none), Err(FillError::NotPresent))
}

// Puts the arguments from `first` on into a line, with a blank between two. Answers the line's length.
pub fn join_arguments(rt: HostRuntime, first: usize, count: usize, line: &mut [u8]) -> usize
    ensures { IsPrefixLen result line.new }
{
    let mut at = 0;
    for i in first..count {
        at = put_argument(rt, i, line, at);
    }
    at
}

// An argument that is longer than a line gives a line as long as the buffer, which is too long.
fn put_argument(rt: HostRuntime, i: usize, line: &mut [u8], at: usize) -> usize
    requires { at ≤ length line.old }
    ensures { result ≤ length line.new }
{
    let mut argument = [0u8; LINE_ROOM];
    match rt.arg(i, &mut argument) {
        Ok(n) => {
            let next = put_blank(line, at);
            put_within(line, next, &argument[..n])
        }
        Err(_) => line.len(),
    }
}

// Puts a blank between two arguments, and none in front of the first.
fn put_blank(line: &mut [u8], at: usize) -> usize
    requires { at ≤ length line.old }
    ensures upper_bound { result ≤ length line.new }
    ensures puts { Puts line.old at (choose (eqb at 0) [] (space_code ∷ [])) line.new result }
{
    if at == 0 {
        return 0;
    }
    put_byte(line, at, b' ')
}
