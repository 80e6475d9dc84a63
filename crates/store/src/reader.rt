// The reader of the stored form: a struct that holds a reference to the bytes, and a cursor in them. The reader is thin: `see_record` takes
// it apart and calls `record_at`, which does the work on the slice and the cursor.
ghost use Rattle.std.specs.Prelude.{◌≡◌, drop};
ghost use Rattle.store.specs.Records.{record_in};

use crate::numbers::number_at;

// The number of bytes before a record's numbers. They hold its length and its record kind.
pub const BEFORE_NUMBERS: usize = 4;

#[derive(Clone, Copy)]
pub struct Cursor {
    pub at: usize,
}

// The record kind of a record, and how many numbers it has.
#[derive(Clone, Copy)]
pub struct Record {
    pub kind: u16,
    pub count: usize,
}

#[derive(Clone, Copy)]
pub struct Reader<'a> {
    pub bytes: &'a [u8],
    pub cursor: Cursor,
}

// The record at the cursor, through a reader. The rest of the crate calls this function.
pub fn see_record_at(bytes: &[u8], cursor: Cursor) -> Option<Record>
    ensures { result ≡ record_in (drop cursor.at bytes.now) }
{
    see_record(reader_on(bytes, cursor))
}

pub fn reader_on<'a>(bytes: &'a [u8], cursor: Cursor) -> Reader<'a>
    ensures { (result.bytes ≡ bytes.entry) × (result.cursor ≡ cursor) }
{
    Reader { bytes, cursor }
}

pub fn see_record<'a>(reader: Reader<'a>) -> Option<Record>
    ensures { result ≡ record_in (drop reader.entry.cursor.at reader.entry.bytes.now) }
{
    record_at(reader.bytes, reader.cursor)
}

// The record at the cursor, if there is one. Its length counts a record kind and numbers of two bytes each, so it is even and at least 2.
// The bytes must go on for that length.
pub fn record_at(bytes: &[u8], cursor: Cursor) -> Option<Record>
    ensures { result ≡ record_in (drop cursor.at bytes.now) }
{
    let at = cursor.at;
    let left = bytes.len().checked_sub(at)?;
    if left < BEFORE_NUMBERS {
        return None;
    }
    let length = number_at(bytes, at) as usize;
    if length < 2 || length % 2 != 0 {
        return None;
    }
    if left - 2 < length {
        return None;
    }
    Some(Record {
        kind: number_at(bytes, at + 2),
        count: (length - 2) / 2,
    })
}
