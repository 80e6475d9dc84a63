// Replaces a file. At every moment the file has all of the old bytes or all of the new ones: the new bytes go into the file's lock, which
// is synced and then renamed over the file.
ghost use Rattle.io.specs.Counts.{IsPrefixLen};
ghost use Rattle.control_chart.specs.Folder.{IsFolder};

use crate::lock::release;
use crate::say::{error, failure, write_text};
use std::fs;
use std::fs::File;
use std::io::{ErrorKind, Result};
use std::os::unix::fs::{PermissionsExt, fchown};
use system::Permissions;

// Answers whether the file was replaced. If not, the reason is said, the lock is gone, and the file is as it was. The lock stays open, to
// test whether it is still there: if somebody removed it, its name may by now be that of another process's lock.
pub fn replace_file(
    rt: HostRuntime,
    path: &[u8],
    lock: &[u8],
    file: &File,
    permissions: Option<Permissions>,
    form: &[u8],
) -> bool {
    if let Err(reason) = fill_lock(rt, file, permissions, form) {
        failure(
            rt,
            path,
            b"it cannot be written and is as it was, and the command was not done",
            reason,
        );
        release(rt, lock, file);
        return false;
    }
    if !system::has_name(file) {
        error(
            rt,
            path,
            b"its lock was removed by somebody else; it is as it was, and the command was not done",
        );
        return false;
    }
    if let Err(reason) = system::rename(rt, lock, path) {
        failure(
            rt,
            path,
            b"it cannot be replaced and is as it was, and the command was not done",
            reason,
        );
        release(rt, lock, file);
        return false;
    }
    true
}

// Gives the lock the old file's permissions, writes the new bytes and syncs them.
fn fill_lock(
    rt: HostRuntime,
    file: &File,
    permissions: Option<Permissions>,
    form: &[u8],
) -> Result<()> {
    if let Some(old) = permissions {
        give_permissions(file, old)?;
    }
    let mut to = file;
    write_text(rt, &mut to, form)?;
    file.sync_all()
}

// Gives the lock the mode of the old file. It also gives the old owner and group, as far as this user may.
fn give_permissions(file: &File, permissions: Permissions) -> Result<()> {
    if fchown(file, Some(permissions.owner), Some(permissions.group)).is_err() {
        let _ = fchown(file, None, Some(permissions.group));
    }
    file.set_permissions(fs::Permissions::from_mode(permissions.mode))
}

// Syncs the file's folder, so that the file is still the new one after a loss of power. EINVAL is no failure: the file system does not sync
// folders.
pub fn sync_folder(rt: HostRuntime, path: &[u8]) -> Result<()> {
    let n = folder_len(path);
    if n == 0 {
        return sync_named(rt, b".");
    }
    sync_named(rt, &path[..n])
}

fn sync_named(rt: HostRuntime, name: &[u8]) -> Result<()> {
    let folder = system::open_read(rt, name)?;
    let synced = folder.sync_all();
    system::keep_open(folder);
    match synced {
        Err(reason) if reason.kind() != ErrorKind::InvalidInput => Err(reason),
        _ => Ok(()),
    }
}

// How many bytes there are up to the last '/', which counts too; 0 if there is no '/'.
fn folder_len(path: &[u8]) -> usize
    ensures folder { IsFolder path.now result }
    ensures prefix_len { IsPrefixLen result path.now }
{
    path.iter()
        .rposition(|byte| *byte == b'/')
        .map_or(0, |last| last + 1)
}
