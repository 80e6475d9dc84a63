// The fields of a line, and the numbers in them.
ghost use Rattle.std.specs.Prelude.{◌≤◌, length};
ghost use Rattle.rules.specs.Buffer.{Placed};
ghost use Rattle.parsing.specs.Fields.{fields_of};
ghost use Rattle.commands.specs.Command.{words_in};
ghost use Rattle.commands.specs.Answers.{AreReadings};

use parsing::fields::split_field;
use parsing::numbers::{kind_in_field, number_in_field, reading_in_field, word_in_field};

// A kind and three readings.
#[derive(Clone, Copy)]
pub struct Readings {
    pub kind: u16,
    pub a: i64,
    pub b: i64,
    pub c: i64,
}

pub fn readings_in(fields: &[u8]) -> Readings
    ensures { AreReadings (fields_of fields.now) result }
{
    let (kind, rest) = split_field(fields);
    let (a, rest) = split_field(rest);
    let (b, rest) = split_field(rest);
    let (c, _) = split_field(rest);
    Readings {
        kind: kind_in_field(number_in_field(kind)),
        a: reading_in_field(number_in_field(a)),
        b: reading_in_field(number_in_field(b)),
        c: reading_in_field(number_in_field(c)),
    }
}

// Puts the numbers of the fields, as words, at the front of a buffer. Answers how many they are.
// Takes the fields one by one. An empty one is the end, so there is no list to go through.
pub fn put_words(fields: &[u8], words: &mut [i16]) -> usize
    requires { length fields.now ≤ length words.old }
    ensures { Placed words.old 0 (words_in (fields_of fields.now)) words.new result }
{
    let mut count: usize = 0;
    let (mut field, mut rest) = split_field(fields);
    while !field.is_empty() {
        words[count] = word_in_field(number_in_field(field));
        count += 1;
        (field, rest) = split_field(rest);
    }
    count
}
