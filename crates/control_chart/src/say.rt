// Text to standard output, and errors to standard error.
ghost use Rattle.std.specs.Prelude.{◌≡◌, ◌≤◌, length, IfOk};
ghost use Rattle.io.specs.Counts.{IsPrefixLen};

use printing::put_text;
use std::io::{Cursor, Error, ErrorKind, Result, Write};

// The exit status of an error.
pub const ERROR: u8 = 3;

// Room for an error: the longest name, and what is wrong, which may contain the lock's name too.
const ERROR_ROOM: usize = 16384;

// More writes than any text needs.
const WRITES: u64 = 1 << 63;

// Room for the system's words.
const REASON_ROOM: usize = 256;

pub fn say(rt: HostRuntime, text: &[u8]) -> Result<()> {
    let mut out = rt.stdout();
    write_text(rt, &mut out, text)
}

// Says a part of a longer text. Only the text's last part tells whether it could be written.
pub fn say_part(rt: HostRuntime, text: &[u8]) {
    let _ = say(rt, text);
}

// Says the text at the front of a buffer. `texts` and `printing` answer its size, which is never more than the buffer's.
pub fn say_front(rt: HostRuntime, out: &[u8], size: usize) {
    if size <= out.len() {
        say_part(rt, &out[..size]);
    }
}

// Writes all of a text, or answers why it could not. It waits if the system cannot take a byte at the moment. No contract says that a write
// ever takes a byte, so the loop counts its writes.
pub fn write_text<W: Write>(rt: HostRuntime, to: &mut W, text: &[u8]) -> Result<()> {
    let mut left = text;
    for _ in 0..WRITES {
        if left.is_empty() {
            return Ok(());
        }
        let count = write_some(rt, to, left)?;
        left = &left[count..];
    }
    Err(Error::from(ErrorKind::TimedOut))
}

// How many bytes a write took. 0 means to write again.
fn write_some<W: Write>(rt: HostRuntime, to: &mut W, text: &[u8]) -> Result<usize>
    ensures { IfOk result (λ count. count ≤ length text.now) }
{
    match to.write(text) {
        Ok(0) => Err(Error::from(ErrorKind::WriteZero)),
        Ok(count) => Ok(count),
        Err(error) => {
            if passes(rt, error) {
                return Ok(0);
            }
            Err(error)
        }
    }
}

// Whether to write again: the system takes no byte at the moment (then this pauses), or a signal came.
fn passes(rt: HostRuntime, error: Error) -> bool {
    if error.kind() == ErrorKind::WouldBlock {
        system::pause(rt);
        return true;
    }
    error.kind() == ErrorKind::Interrupted
}

// Says an error: the name of the file, what is wrong, and what to do. Answers the exit status.
pub fn error(rt: HostRuntime, name: &[u8], what: &[u8]) -> u8
    ensures { result ≡ 3 }
{
    let mut text = [0u8; ERROR_ROOM];
    let n = put_error(&mut text, name, what, b"\n");
    tell(rt, &text[..n]);
    ERROR
}

// Says the error of a command's name in the place of FILE.
pub fn file_first(rt: HostRuntime, word: &[u8]) -> u8
    ensures { result ≡ 3 }
{
    error(
        rt,
        word,
        b"it is a command, and FILE comes first, as in: control_chart lead.chart show",
    )
}

// Says an error of a system call. The system's reason follows, in its own words.
pub fn failure(rt: HostRuntime, name: &[u8], what: &[u8], reason: Error) -> u8
    ensures { result ≡ 3 }
{
    let mut text = [0u8; ERROR_ROOM];
    let behind_what = put_error(&mut text, name, what, b": ");
    let behind_reason = put_reason(&mut text, behind_what, reason);
    let n = put_within(&mut text, behind_reason, b"\n");
    tell(rt, &text[..n]);
    ERROR
}

// If standard error takes no text, there is nowhere to say so.
fn tell(rt: HostRuntime, text: &[u8]) {
    let mut errors = rt.stderr();
    let _ = write_text(rt, &mut errors, text);
}

// `error: NAME: WHAT`, and what follows it.
fn put_error(text: &mut [u8], name: &[u8], what: &[u8], end: &[u8]) -> usize
    ensures { IsPrefixLen result text.new }
{
    let at_name = put_within(text, 0, b"error: ");
    let behind_name = put_within(text, at_name, name);
    let at_what = put_within(text, behind_name, b": ");
    let behind_what = put_within(text, at_what, what);
    put_within(text, behind_what, end)
}

// The system's words for an error. `std` shows its number behind them, as in `No such file or directory (os error 2)`.
fn put_reason(text: &mut [u8], at: usize, reason: Error) -> usize
    requires { at ≤ length text.old }
    ensures { IsPrefixLen result text.new }
{
    let mut shown = Cursor::new([0u8; REASON_ROOM]);
    let _ = write!(shown, "{reason}");
    let words = shown.into_inner();
    let n = words_len(&words);
    put_within(text, at, &words[..n])
}

// How many bytes there are before ` (os error`; if there is none, before the first 0.
fn words_len(shown: &[u8]) -> usize
    ensures { IsPrefixLen result shown.now }
{
    for n in 0..shown.len() {
        if ends_words(&shown[n..]) {
            return n;
        }
    }
    shown.len()
}

fn ends_words(rest: &[u8]) -> bool {
    rest.starts_with(b" (os error ") || rest.starts_with(b"\0")
}

// Puts a text from a place within the buffer on. The place after it lies within the buffer too, so the bytes before it can be lent.
pub fn put_within(out: &mut [u8], at: usize, text: &[u8]) -> usize
    requires { at ≤ length out.old }
    ensures { IsPrefixLen result out.new }
{
    put_text(out, at, text)
}
