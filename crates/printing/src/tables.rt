// Texts in a table: one after the other, each with a line feed after it. They are counted from 0.
ghost use Rattle.std.specs.Prelude.{◌≡◌, ◌-◌, ◌<◌, eqb, drop};
ghost use Rattle.rules.specs.Choice.{choose};
ghost use Rattle.printing.specs.Output.{Puts};
ghost use Rattle.printing.specs.Table.{line_feed, first_text, after_texts, text_of};

use crate::{put_byte, put_text};

// The text with the number at the front of the buffer, or `other` if the table has no such text.
pub fn put_text_of(out: &mut [u8], table: &[u8], number: usize, other: &[u8]) -> usize
    ensures { Puts out.old 0 (text_of table.now number other.now) out.new result }
{
    let start = text_start(table, number);
    if start < table.len() {
        return put_first_text(out, table, start);
    }
    put_text(out, 0, other)
}

// The place where the text with the number starts.
fn text_start(table: &[u8], number: usize) -> usize
    ensures { drop result table.now ≡ after_texts table.now number }
{
    let mut left = number;
    for (i, b) in table.iter().enumerate() {
        if left == 0 {
            return i;
        }
        left = texts_left(left, *b);
    }
    table.len()
}

// How many texts are left after a byte.
fn texts_left(left: usize, b: u8) -> usize
    requires { 0 < left }
    ensures { result ≡ choose (eqb b line_feed) (left - 1) left }
{
    if b == b'\n' { left - 1 } else { left }
}

// The text that starts at a place.
fn put_first_text(out: &mut [u8], table: &[u8], start: usize) -> usize
    ensures { Puts out.old 0 (first_text (drop start table.now)) out.new result }
{
    let mut next: usize = 0;
    for i in start..table.len() {
        if table[i] == b'\n' {
            return next;
        }
        next = put_byte(out, next, table[i]);
    }
    next
}
