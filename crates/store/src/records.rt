// Records: a length (the bytes after the length itself), a record kind, and numbers.
ghost use Rattle.std.specs.Prelude.{◌≡◌, map, ◌+◌, ◌≤◌, ◌<◌, length, get_or};
ghost use Rattle.rules.specs.Sizes.{series_most};
ghost use Rattle.rules.specs.Bytes.{number_of};
ghost use Rattle.rules.specs.StoredForm.{record_of};
ghost use Rattle.rules.specs.Buffer.{Placed};
ghost use Rattle.store.specs.Records.{record_at, numbers_at, LiesWithin};
ghost use Rattle.store.specs.Store.{record_size};

use crate::numbers::{number_at, put_number, put_word_numbers};
use crate::reader::{BEFORE_NUMBERS, Cursor, Record, see_record_at};

// The place of a record in the bytes: the byte at which its first number begins, how many numbers it has, and the byte after the record.
#[derive(Clone, Copy)]
pub struct Place {
    pub first: usize,
    pub count: usize,
    pub end: usize,
}

// Puts a record of words into the buffer from a byte on. Answers the byte after it.
#[tactic(auto, unfolding(rules::specs::Bytes::bytes_of))]
pub fn put_record(out: &mut [u8], at: usize, record_kind: u16, words: &[i16]) -> usize
    requires { (length words.now ≤ series_most) × (at + record_size (length words.now) ≤ length out.old) }
    ensures { Placed out.old at (record_of record_kind (map number_of words.now)) out.new result }
{
    let length = 2 + 2 * words.len();
    let at_kind = put_number(out, at, length as u16);
    let at_words = put_number(out, at_kind, record_kind);
    put_word_numbers(out, at_words, words)
}

// The record at the cursor, if it has this record kind and from `least` to `most` numbers.
#[tactic(auto, using(crate::proofs::RecordsIn::record_within))]
pub fn find_record(
    bytes: &[u8],
    cursor: Cursor,
    record_kind: u16,
    least: usize,
    most: usize,
) -> Option<Place>
    ensures { result ≡ record_at record_kind least most cursor.at bytes.now }
{
    let Record { kind, count } = see_record_at(bytes, cursor)?;
    if kind != record_kind {
        return None;
    }
    if count < least || most < count {
        return None;
    }
    let first = cursor.at + BEFORE_NUMBERS;
    Some(Place {
        first,
        count,
        end: first + 2 * count,
    })
}

// Number i of the record at a place.
#[tactic(auto, using(crate::proofs::RecordsIn::number_of_place))]
pub fn nth_number(bytes: &[u8], place: Place, i: usize) -> u16
    requires { (i < place.count) × LiesWithin bytes.now place }
    ensures { result ≡ get_or (numbers_at bytes.now place) i 0 }
{
    number_at(bytes, place.first + 2 * i)
}
