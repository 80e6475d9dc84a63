// The lock of FILE is the file `FILE.lock`. Only one process can make it. That process then reads FILE. It writes the new form into the
// lock and renames the lock over FILE, or it removes the lock. No other process of this program removes it.
ghost use Rattle.io.specs.Counts.{IsPrefixLen};

use crate::say::{error, failure, put_within};
use std::fs::File;
use std::io::{Error, ErrorKind};

// Room for what is said about a lock: the longest name, and what to do.
const LOCKED_ROOM: usize = 8192;

// How many times making the lock is tried. A pause of 5 ms follows each try, so it takes two seconds.
const TRIES: u32 = 400;

// The lock's name is FILE's name and `.lock`.
pub fn put_lock_name(path: &[u8], name: &mut [u8]) -> usize
    ensures { IsPrefixLen result name.new }
{
    let behind_path = put_within(name, 0, path);
    put_within(name, behind_path, b".lock")
}

// Makes the lock, and answers the file, open for writing to it. If it cannot make the lock, it says why.
pub fn take_lock(rt: HostRuntime, path: &[u8], lock: &[u8]) -> Option<File> {
    for _ in 0..TRIES {
        match system::create(rt, lock) {
            Ok(file) => return Some(file),
            Err(reason) if reason.kind() != ErrorKind::AlreadyExists => {
                return no_lock(rt, path, reason);
            }
            Err(_) => system::pause(rt),
        }
    }
    say_locked(rt, path, lock);
    None
}

fn no_lock(rt: HostRuntime, path: &[u8], reason: Error) -> Option<File> {
    failure(
        rt,
        path,
        b"its lock cannot be made, and nothing was done",
        reason,
    );
    None
}

fn say_locked(rt: HostRuntime, path: &[u8], lock: &[u8]) {
    let mut text = [0u8; LOCKED_ROOM];
    let n = put_locked(lock, &mut text);
    error(rt, path, &text[..n]);
}

fn put_locked(lock: &[u8], text: &mut [u8]) -> usize
    ensures { IsPrefixLen result text.new }
{
    let at_name = put_within(
        text,
        0,
        b"another command is at work on it, and nothing was done; if none is, not even a suspended one, one was killed: remove ",
    );
    let behind_name = put_within(text, at_name, lock);
    put_within(text, behind_name, b" and repeat the command")
}

// Removes the lock that this process made. The file stays as it is. If somebody removed the lock already, nothing is removed: the name may
// by now be that of another process's lock.
pub fn release(rt: HostRuntime, lock: &[u8], file: &File) {
    if system::has_name(file) {
        let _ = system::remove(rt, lock);
    }
}
