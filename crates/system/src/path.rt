// A path as the system reads it: bytes up to a 0.
ghost use Rattle.std.specs.Prelude.{◌≤◌, length, IfOk, IsErr};
ghost use Rattle.system.specs.Path.{Ended};

use std::{io, str};

// The most bytes of a path, with the 0 that ends it.
pub const PATH_MAX: usize = 4096;

const LAST: usize = PATH_MAX - 1;

// The system's numbers of errors: a path is too long, and a byte sequence is not text.
const NAME_TOO_LONG: i32 = 36;

const NOT_TEXT: i32 = 84;

// The path's first 4,095 bytes, or all of them if it is shorter, and then zeros.
pub fn ended(path: &[u8]) -> [u8; PATH_MAX]
    ensures { Ended result }
{
    let mut ended = [0u8; PATH_MAX];
    let n = path.len().min(LAST);
    ended[..n].copy_from_slice(&path[..n]);
    ended[LAST] = 0;
    ended
}

// .. of a path that is whole. One of 4,096 bytes or more is an error: cut short it would name another file.
pub fn ended_whole(path: &[u8]) -> io::Result<[u8; PATH_MAX]>
    ensures ended { IfOk result Ended }
    ensures whole { 4096 ≤ length path.now → IsErr result }
{
    if path.len() >= PATH_MAX {
        return Err(io::Error::from_raw_os_error(NAME_TOO_LONG));
    }
    Ok(ended(path))
}

// The bytes up to the first 0, as text. `std` takes no other path.
pub fn text_before_0(ended: &[u8; PATH_MAX]) -> io::Result<&str>
    requires { Ended ended.now }
{
    let n = size_before_0(ended);
    as_text(&ended[..n])
}

// How many bytes there are before the first 0.
fn size_before_0(ended: &[u8; PATH_MAX]) -> usize
    requires { Ended ended.now }
    ensures { result ≤ 4095 }
{
    ended.iter().position(|byte| *byte == 0).unwrap_or(LAST)
}

// A path that is not UTF-8 is an error.
pub fn as_text(path: &[u8]) -> io::Result<&str> {
    str::from_utf8(path).map_err(|_| io::Error::from_raw_os_error(NOT_TEXT))
}
