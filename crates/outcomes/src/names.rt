// What the name in a line says before its command is done: whether there is a command, and whether it may change the chart.
ghost use Rattle.std.specs.Prelude.{◌≡◌};
ghost use Rattle.outcomes.specs.Naming.{has_command, name_of, may_change, is_name};

use commands::names::{Name, name_in};
use parsing::fields::split_field;

// Whether the command may change the chart.
pub fn may_change(line: &[u8]) -> bool
    ensures { result ≡ may_change line.now }
{
    let name = name_of(line);
    match name {
        Name::Changes(_) => true,
        Name::Asks(_) => false,
        Name::Other => false,
    }
}

// Whether the word is a command's name.
pub fn is_name(word: &[u8]) -> bool
    ensures { result ≡ is_name word.now }
{
    let name = name_in(word);
    match name {
        Name::Other => false,
        _ => true,
    }
}

// Whether the line has a command: it has a field, and the first one does not begin with '#'.
pub fn has_command(line: &[u8]) -> bool
    ensures { result ≡ has_command line.now }
{
    let (first, _) = split_field(line);
    !first.is_empty() && first[0] != b'#'
}

// The name in the first field.
fn name_of(line: &[u8]) -> Name
    ensures { result ≡ name_of line.now }
{
    let (first, _) = split_field(line);
    name_in(first)
}
