// The bytes of a file.
ghost use Rattle.std.specs.Prelude.{◌≡◌, length, IfOk, IfSome, OnErr};
ghost use Rattle.io.specs.Counts.{IsPrefixLen};

use std::fs::File;
use std::io::{ErrorKind, Read, Result};
use system::Permissions;

// What reading a file gave: how many bytes were read, and its permissions. A file that is longer than the buffer is read only until the
// buffer is full. These bytes are longer than any stored form, so they are none either.
#[derive(Drop)]
pub struct FileRead {
    pub len: usize,
    pub permissions: Permissions,
}

// None if there is no file, which is no failure.
pub fn read_file(rt: HostRuntime, path: &[u8], held: &mut [u8]) -> Result<Option<FileRead>>
    ensures read { IfOk result (λ read. IfSome read (λ r. IsPrefixLen r.len held.new)) }
    ensures failed { OnErr result (length held.new ≡ length held.old) }
{
    match system::open_read(rt, path) {
        Ok(file) => Ok(Some(read_open(file, held)?)),
        Err(error) if error.kind() == ErrorKind::NotFound => Ok(None),
        Err(error) => Err(error),
    }
}

fn read_open(file: File, held: &mut [u8]) -> Result<FileRead>
    ensures read { IfOk result (λ r. IsPrefixLen r.len held.new) }
    ensures failed { OnErr result (length held.new ≡ length held.old) }
{
    let permissions = system::permissions_of(&file)?;
    let len = read_all(file, held)?;
    Ok(FileRead { len, permissions })
}

// Reads to the end, or until the buffer is full. A read may bring less than there is, so the place moves by the length of each.
fn read_all(mut file: File, bytes: &mut [u8]) -> Result<usize>
    ensures read { IfOk result (λ len. IsPrefixLen len bytes.new) }
    ensures failed { OnErr result (length bytes.new ≡ length bytes.old) }
{
    let mut len: usize = 0;
    while len < bytes.len() {
        let n = file.read(&mut bytes[len..])?;
        if n == 0 {
            break;
        }
        len += n;
    }
    Ok(len)
}
