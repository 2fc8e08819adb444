//! New packages, which get their names once they are whole.
use crate::device::{Fresh, is_closed, locked};
use crate::names::Names;
use file_device::sync_folder;
use std::fs::{self, File};
use std::io;
use std::rt::Files;

/// Gives a new package its name, where nothing has it, and takes away the log that was made beside it. It is on the disk with its folder then.
/// `AlreadyExists` where a file has the name.
pub fn give_name<R: Files<File = File>>(rt: &R, part: &Names, names: &Names) -> io::Result<()> {
    if !part.is_log_named() {
        remove_there(rt, part.log())?;
    }
    if fs::symlink_metadata(rt, names.package()).is_ok() {
        return Err(io::ErrorKind::AlreadyExists.into());
    }
    fs::rename(rt, part.package(), names.package())?;
    sync_folder(rt, names.package())
}

/// Removes what was made of a package that isn't whole: its log, where that wasn't there before, and its own file. A log that was there is
/// closed. Both stay where another program has them.
pub fn remove_part<R: Files<File = File>>(rt: &R, part: &Names, fresh: Fresh) {
    let _ = remove_locked(rt, part, fresh);
}

fn remove_locked<R: Files<File = File>>(rt: &R, part: &Names, fresh: Fresh) -> io::Result<()> {
    let _home = locked(rt, part.package())?;
    if fresh.log {
        remove_there(rt, part.log())?;
    } else {
        close_log(rt, part.log())?;
    }
    fs::remove_file(rt, part.package())
}

// Closes a log, if it is open: the commit that it holds is of a package that goes.
fn close_log<R: Files<File = File>>(rt: &R, path: &str) -> io::Result<()> {
    let log = locked(rt, path)?;
    if is_closed(&log)? {
        return Ok(());
    }
    log.set_len(0)
}

// Removes a file, where it is there.
fn remove_there<R: Files<File = File>>(rt: &R, path: &str) -> io::Result<()> {
    match fs::remove_file(rt, path) {
        Err(error) if error.kind() != io::ErrorKind::NotFound => Err(error),
        _ => Ok(()),
    }
}
