// Calls of the system: on an open file, on a path, and a pause. They are calls of `std`, by the path's bytes and with one meaning each.
//
// The system reads a path up to its first 0. A path of 4,096 bytes or more is not passed on: cut short it would name another file. `std`
// takes only a path that is UTF-8. Any other path is an error, with the system's number 84 (EILSEQ).
#![tactic(auto)]

mod path;

ghost use Rattle.std.specs.Prelude.{◌≡◌, ◌≤◌, false, length, IsErr};

use path::{as_text, ended, ended_whole, text_before_0};
use std::fs::{File, Metadata, OpenOptions};
use std::os::fd::{AsFd, IntoRawFd};
use std::os::unix::fs::MetadataExt;
use std::time::Duration;
use std::{fs, io, thread};

// What `access` asks: whether there is a file, and whether this user may run, write or read it.
pub const F_OK: i32 = 0;

pub const X_OK: i32 = 1;

pub const W_OK: i32 = 2;

pub const R_OK: i32 = 4;

// How long a pause is, in nanoseconds.
const PAUSE: u64 = 5000000;

// The permissions are the low twelve bits of a mode. The other bits say what kind of file it is.
const PERMISSIONS: u32 = 0o10000;

// The bits of a mode by which its owner, its group or others may run a file.
const RUN: u32 = 0o111;

// The system's numbers of errors.
const NOT_PERMITTED: i32 = 13;

const INVALID: i32 = 22;

// The permissions, owner and group of a file.
#[derive(Clone, Copy)]
pub struct Permissions {
    pub mode: u32,
    pub owner: u32,
    pub group: u32,
}

// Of an open file.
pub fn permissions_of(file: &File) -> io::Result<Permissions> {
    let status = file.metadata()?;
    Ok(Permissions {
        mode: status.mode() % PERMISSIONS,
        owner: status.uid(),
        group: status.gid(),
    })
}

// Whether the open file still has a name; another process may have removed it. If the system does not say it, the answer is true.
pub fn has_name(file: &File) -> bool {
    match file.metadata() {
        Ok(status) => 0 < status.nlink(),
        Err(_) => true,
    }
}

// A pause of 5 ms.
pub fn pause(rt: HostRuntime) {
    thread::sleep(&rt, Duration::from_nanos(PAUSE));
}

// Whether this user may do with a file what `mode` asks. If not, the error is the reason.
pub fn access(rt: HostRuntime, path: &[u8], mode: i32) -> io::Result<()>
    ensures { 4096 ≤ length path.now → IsErr result }
{
    let status = status(rt, path)?;
    let path = ended(path);
    permits(rt, text_before_0(&path)?, &status, mode)
}

// Whether the path leads to a file, of any kind.
pub fn exists(rt: HostRuntime, path: &[u8]) -> bool
    ensures { 4096 ≤ length path.now → result ≡ false }
{
    access(rt, path, F_OK).is_ok()
}

// Whether this user may write a file. If not, the error is the reason.
pub fn may_write(rt: HostRuntime, path: &[u8]) -> io::Result<()>
    ensures { 4096 ≤ length path.now → IsErr result }
{
    access(rt, path, W_OK)
}

// Tries to open a regular file. Any other is not opened, because opening a pipe waits, and it counts as permitted.
fn permits(rt: HostRuntime, name: &str, status: &Metadata, mode: i32) -> io::Result<()> {
    if mode & !(R_OK | W_OK | X_OK) != 0 {
        return Err(io::Error::from_raw_os_error(INVALID));
    }
    if !status.is_file() {
        return Ok(());
    }
    if mode & R_OK != 0 {
        File::open(&rt, name)?;
    }
    if mode & W_OK != 0 {
        OpenOptions::new().write(true).open(&rt, name)?;
    }
    if mode & X_OK != 0 && status.mode() & RUN == 0 {
        return Err(io::Error::from_raw_os_error(NOT_PERMITTED));
    }
    Ok(())
}

// Whether the path leads to a link.
pub fn is_link(rt: HostRuntime, path: &[u8]) -> bool
    ensures { 4096 ≤ length path.now → result ≡ false }
{
    link_status(rt, path).is_ok_and(|status| status.is_symlink())
}

// What the system says of the file that the path leads to.
fn status(rt: HostRuntime, path: &[u8]) -> io::Result<Metadata>
    ensures { 4096 ≤ length path.now → IsErr result }
{
    let path = ended_whole(path)?;
    fs::metadata(&rt, text_before_0(&path)?)
}

// .. and of a link itself.
fn link_status(rt: HostRuntime, path: &[u8]) -> io::Result<Metadata>
    ensures { 4096 ≤ length path.now → IsErr result }
{
    let path = ended_whole(path)?;
    fs::symlink_metadata(&rt, text_before_0(&path)?)
}

// Opens a file, or a folder, for reading.
pub fn open_read(rt: HostRuntime, path: &[u8]) -> io::Result<File> {
    File::open(&rt, as_text(path)?)
}

// Makes a file that is not there yet, and opens it for writing. The umask narrows its mode.
pub fn create(rt: HostRuntime, path: &[u8]) -> io::Result<File> {
    OpenOptions::new()
        .write(true)
        .create_new(true)
        .open(&rt, as_text(path)?)
}

pub fn rename(rt: HostRuntime, from: &[u8], to: &[u8]) -> io::Result<()> {
    fs::rename(&rt, as_text(from)?, as_text(to)?)
}

pub fn remove(rt: HostRuntime, path: &[u8]) -> io::Result<()> {
    fs::remove_file(&rt, as_text(path)?)
}

// Whether a stream is open.
pub fn is_open(stream: &impl AsFd) -> bool {
    match stream.as_fd().try_clone_to_owned() {
        Ok(copy) => {
            copy.into_raw_fd();
            true
        }
        Err(_) => false,
    }
}

// Leaves a file open to the end of the process.
pub fn keep_open(file: File) {
    file.into_raw_fd();
}
