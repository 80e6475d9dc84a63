// One command on the chart that a file holds. `outcomes::on_file` decides what the command comes to; here only bytes are moved. If the
// command may change the chart, the order is this: the lock is made, the file is read, the command is done, the lock is filled and renamed
// over the file, and then the answer is said.
ghost use Rattle.std.specs.Prelude.{◌+◌, option_copied};
ghost use Rattle.store.specs.Store.{form_most};
ghost use Rattle.outcomes.specs.OnFile.{held_in, start_of, ending};
ghost use Rattle.control_chart.specs.Status.{StatusBy, StatusAfter, StatusOfEnding};

use crate::arguments::join_arguments;
use crate::input::LINE_ROOM;
use crate::lock::{put_lock_name, release, take_lock};
use crate::read::read_file;
use crate::replace::{replace_file, sync_folder};
use crate::say::{ERROR, error, failure, file_first, say};
use commands::ANSWER_MOST;
use outcomes::names::{is_name, may_change};
use outcomes::status::exit_status;
use outcomes::{Outcome, on_file};
use std::fs::File;
use std::io::{ErrorKind, Result};
use store::FORM_MOST;
use system::Permissions;

// One byte more than the longest stored form. So a longer file is not taken for a stored form.
const FILE_ROOM: usize = FORM_MOST + 1;

// Room for a path.
const PATH_ROOM: usize = 4096;

// Does the command that begins with the argument `first`. Answers the exit status.
pub fn command_on_file(rt: HostRuntime, path: &[u8], first: usize, count: usize) -> u8 {
    let mut line = [0u8; LINE_ROOM];
    let len = join_arguments(rt, first, count, &mut line);
    if is_command_alone(rt, path) {
        return file_first(rt, path);
    }
    if may_change(&line[..len]) {
        return change_file(rt, path, &line[..len]);
    }
    look_at_file(rt, path, &line[..len])
}

// Whether the path is a command's name, and there is no file of that name.
fn is_command_alone(rt: HostRuntime, path: &[u8]) -> bool {
    is_name(path) && !system::exists(rt, path)
}

// ---- a command that only reads

fn look_at_file(rt: HostRuntime, path: &[u8], line: &[u8]) -> u8 {
    let mut held = [0u8; FILE_ROOM];
    match read_file(rt, path, &mut held) {
        Ok(Some(read)) => say_look(rt, path, Some(&held[..read.len]), line),
        Ok(None) => say_look(rt, path, None, line),
        Err(reason) => failure(rt, path, b"it cannot be read", reason),
    }
}

fn say_look(rt: HostRuntime, path: &[u8], held: Option<&[u8]>, line: &[u8]) -> u8
    ensures { StatusOfEnding (ending (start_of (held_in (option_copied held.entry)) line.now) line.now (form_most + 1)) result }
{
    let mut form = [0u8; FILE_ROOM];
    let mut out = [0u8; ANSWER_MOST];
    let r = on_file(held, line, &mut form, &mut out);
    say_outcome(rt, path, r.outcome, &out[..r.size])
}

// Says what a command comes to whose file stays as it is. The last two arms are never reached. A command that may not change the chart
// never changes the file (`only_read` in `outcomes/proofs/Files`), and the buffer has room for every form (`room_enough`).
fn say_outcome(rt: HostRuntime, path: &[u8], outcome: Outcome, text: &[u8]) -> u8
    ensures { StatusAfter outcome text.now result }
{
    match outcome {
        Outcome::Answered => answer(
            rt,
            path,
            text,
            b"it is as it was, and the answer cannot be written",
        ),
        Outcome::Fault => error(rt, path, text),
        Outcome::Changed => error(
            rt,
            path,
            b"it would be changed without a lock; nothing was done",
        ),
        Outcome::NoRoom => error(
            rt,
            path,
            b"the chart is too long for a stored form; nothing was done",
        ),
    }
}

// Says an answer. If it cannot be written, says what has become of the file and the command.
fn answer(rt: HostRuntime, path: &[u8], text: &[u8], otherwise: &[u8]) -> u8
    ensures { StatusBy text.now result }
{
    match say(rt, text) {
        Ok(()) => exit_status(text),
        Err(reason) => failure(rt, path, otherwise, reason),
    }
}

// ---- a command that may change the chart

fn change_file(rt: HostRuntime, path: &[u8], line: &[u8]) -> u8 {
    if system::is_link(rt, path) {
        return error(
            rt,
            path,
            b"it is a link, which is not replaced; give the name of the file that it leads to",
        );
    }
    if let Err(reason) = may_be_written(rt, path) {
        return failure(rt, path, b"it may not be written, and is as it was", reason);
    }
    let mut name = [0u8; PATH_ROOM];
    let n = put_lock_name(path, &mut name);
    match take_lock(rt, path, &name[..n]) {
        Some(file) => {
            let status = change_locked(rt, path, &name[..n], &file, line);
            system::keep_open(file);
            status
        }
        None => ERROR,
    }
}

// Whether this user may write the file, or there is no file.
fn may_be_written(rt: HostRuntime, path: &[u8]) -> Result<()> {
    match system::may_write(rt, path) {
        Err(reason) if reason.kind() != ErrorKind::NotFound => Err(reason),
        _ => Ok(()),
    }
}

// This process has the lock.
fn change_locked(rt: HostRuntime, path: &[u8], lock: &[u8], file: &File, line: &[u8]) -> u8 {
    let mut held = [0u8; FILE_ROOM];
    match read_file(rt, path, &mut held) {
        Ok(Some(read)) => change_held(
            rt,
            path,
            lock,
            file,
            Some(read.permissions),
            Some(&held[..read.len]),
            line,
        ),
        Ok(None) => change_held(rt, path, lock, file, None, None, line),
        Err(reason) => {
            failure(
                rt,
                path,
                b"it cannot be read, and the command was not done",
                reason,
            );
            release(rt, lock, file);
            ERROR
        }
    }
}

fn change_held(
    rt: HostRuntime,
    path: &[u8],
    lock: &[u8],
    file: &File,
    permissions: Option<Permissions>,
    held: Option<&[u8]>,
    line: &[u8],
) -> u8
    ensures { StatusOfEnding (ending (start_of (held_in (option_copied held.entry)) line.now) line.now (form_most + 1)) result }
{
    let mut form = [0u8; FILE_ROOM];
    let mut out = [0u8; ANSWER_MOST];
    let r = on_file(held, line, &mut form, &mut out);
    match r.outcome {
        Outcome::Changed => keep(
            rt,
            path,
            lock,
            file,
            permissions,
            &form[..r.form],
            &out[..r.size],
        ),
        outcome => {
            release(rt, lock, file);
            say_outcome(rt, path, outcome, &out[..r.size])
        }
    }
}

// Puts the new form into the file, then says the answer.
fn keep(
    rt: HostRuntime,
    path: &[u8],
    lock: &[u8],
    file: &File,
    permissions: Option<Permissions>,
    form: &[u8],
    reply: &[u8],
) -> u8
    ensures { StatusBy reply.now result }
{
    if !replace_file(rt, path, lock, file, permissions, form) {
        return ERROR;
    }
    let synced = is_folder_synced(rt, path);
    let status = answer(
        rt,
        path,
        reply,
        b"the command was done, but its answer cannot be written",
    );
    if synced { status } else { ERROR }
}

// Syncs the file's folder. If that fails, says why.
fn is_folder_synced(rt: HostRuntime, path: &[u8]) -> bool {
    match sync_folder(rt, path) {
        Ok(()) => true,
        Err(reason) => {
            failure(
                rt,
                path,
                b"it is replaced, but its folder cannot be synced: after a loss of power it may be the old one",
                reason,
            );
            false
        }
    }
}
