// The names of the commands.
ghost use Rattle.std.specs.Prelude.{◌≡◌};
ghost use Rattle.commands.specs.Command.{name_in};

// The commands that may change the chart.
#[derive(Clone, Copy, Debug, PartialEq, Eq)]
pub enum Change {
    Build,
    Post,
    Reanalyse,
    Correct,
    Renew,
    Read,
}

// The commands that do not change the chart.
#[derive(Clone, Copy, Debug, PartialEq, Eq)]
pub enum Inquiry {
    Word,
    Lines,
    Write,
    Show,
}

#[derive(Clone, Copy, Debug, PartialEq, Eq)]
pub enum Name {
    Changes(Change),
    Asks(Inquiry),
    // No command's name.
    Other,
}

// The text of each command, and its name.
const NAMES: [(&[u8], Name); 10] = [
    (b"word", Name::Asks(Inquiry::Word)),
    (b"build", Name::Changes(Change::Build)),
    (b"post", Name::Changes(Change::Post)),
    (b"reanalyse", Name::Changes(Change::Reanalyse)),
    (b"correct", Name::Changes(Change::Correct)),
    (b"renew", Name::Changes(Change::Renew)),
    (b"lines", Name::Asks(Inquiry::Lines)),
    (b"write", Name::Asks(Inquiry::Write)),
    (b"read", Name::Changes(Change::Read)),
    (b"show", Name::Asks(Inquiry::Show)),
];

pub fn name_in(text: &[u8]) -> Name
    ensures { result ≡ name_in text.now }
{
    for &(word, name) in &NAMES {
        if text == word {
            return name;
        }
    }
    Name::Other
}
