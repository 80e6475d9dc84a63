// The first fault in the fields of a line, from left to right.
ghost use Rattle.std.specs.Prelude.{◌≡◌};
ghost use Rattle.parsing.specs.Fields.{fields_of};
ghost use Rattle.commands.specs.Command.{field_fault, number_fault, reading_fault, end_fault, readings_fault, words_fault, build_fault};
ghost use Rattle.commands.specs.Command.{hex_fault, read_fault, change_fault, inquiry_fault, fault_for};
ghost use Rattle.commands.specs.Answers.{fault_in};

use crate::names::{Change, Inquiry, Name};
use parsing::fields::split_field;
use parsing::hex::are_hex;
use parsing::numbers::{NumberFault, number_in_field};
use replies::Fault;

// The fault of the fields after a name.
pub fn fault_for(name: Name, fields: &[u8]) -> Result<(), Fault>
    ensures { result ≡ fault_for name (fields_of fields.now) }
{
    match name {
        Name::Changes(change) => change_fault(change, fields),
        Name::Asks(inquiry) => inquiry_fault(inquiry, fields),
        Name::Other => Err(Fault::UnknownCommand),
    }
}

fn change_fault(change: Change, fields: &[u8]) -> Result<(), Fault>
    ensures { result ≡ change_fault change (fields_of fields.now) }
{
    match change {
        Change::Build => build_fault(fields),
        Change::Post => readings_fault(fields),
        Change::Reanalyse => readings_fault(fields),
        Change::Correct => end_fault(fields),
        Change::Renew => end_fault(fields),
        Change::Read => read_fault(fields),
    }
}

fn inquiry_fault(inquiry: Inquiry, fields: &[u8]) -> Result<(), Fault>
    ensures { result ≡ inquiry_fault inquiry (fields_of fields.now) }
{
    match inquiry {
        Inquiry::Word => readings_fault(fields),
        Inquiry::Lines => end_fault(fields),
        Inquiry::Write => end_fault(fields),
        Inquiry::Show => end_fault(fields),
    }
}

// The command takes a kind and three readings, and nothing more.
fn readings_fault(fields: &[u8]) -> Result<(), Fault>
    ensures { result ≡ readings_fault (fields_of fields.now) }
{
    let (kind, rest) = split_field(fields);
    number_fault(kind)?;
    let (a, rest) = split_field(rest);
    reading_fault(a)?;
    let (b, rest) = split_field(rest);
    reading_fault(b)?;
    let (c, rest) = split_field(rest);
    reading_fault(c)?;
    end_fault(rest)
}

// The command takes a kind and words.
fn build_fault(fields: &[u8]) -> Result<(), Fault>
    ensures { result ≡ build_fault (fields_of fields.now) }
{
    let (kind, rest) = split_field(fields);
    number_fault(kind)?;
    words_fault(rest)
}

// Takes the fields one by one. An empty one is the end, so there is no list to go through.
fn words_fault(fields: &[u8]) -> Result<(), Fault>
    ensures { result ≡ words_fault (fields_of fields.now) }
{
    let (mut field, mut rest) = split_field(fields);
    while !field.is_empty() {
        number_fault(field)?;
        (field, rest) = split_field(rest);
    }
    Ok(())
}

// The command takes at most one field, of hex digits.
fn read_fault(fields: &[u8]) -> Result<(), Fault>
    ensures { result ≡ read_fault (fields_of fields.now) }
{
    let (digits, rest) = split_field(fields);
    hex_fault(digits)?;
    end_fault(rest)
}

fn hex_fault(text: &[u8]) -> Result<(), Fault>
    ensures { result ≡ hex_fault text.now }
{
    if !are_hex(text) {
        return Err(Fault::NotAHexDigit);
    }
    if text.len() % 2 != 0 {
        return Err(Fault::OddHexDigits);
    }
    Ok(())
}

// The command takes no more fields.
fn end_fault(fields: &[u8]) -> Result<(), Fault>
    ensures { result ≡ end_fault (fields_of fields.now) }
{
    let (field, _) = split_field(fields);
    if !field.is_empty() {
        return Err(Fault::ExtraNumber);
    }
    Ok(())
}

// As a kind or a word, any number is without fault.
fn number_fault(field: &[u8]) -> Result<(), Fault>
    ensures { result ≡ fault_in number_fault field.now }
{
    field_fault(field, Ok(()))
}

// A reading that does not fit a signed 64-bit number is a fault.
fn reading_fault(field: &[u8]) -> Result<(), Fault>
    ensures { result ≡ fault_in reading_fault field.now }
{
    field_fault(field, Err(Fault::NumberTooLarge))
}

// The fault of a number that the command takes, which is missing if the field is empty. `beyond` is found if it does not fit a signed
// 64-bit number.
fn field_fault(field: &[u8], beyond: Result<(), Fault>) -> Result<(), Fault>
    ensures { result ≡ fault_in (field_fault beyond) field.now }
{
    if field.is_empty() {
        return Err(Fault::MissingNumber);
    }
    match number_in_field(field) {
        Ok(_) => Ok(()),
        Err(fault) => match fault {
            NumberFault::NoNumber => Err(Fault::NotANumber),
            NumberFault::Beyond => beyond,
        },
    }
}
