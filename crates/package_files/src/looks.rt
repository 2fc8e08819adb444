//! A look at a file, by which nothing is changed.
use crate::troubles::Trouble;
use file_device::FileDevice;
use std::fs::{self, File, TryLockError};
use std::io;
use std::path::Path;
use std::rt::Files;

/// What is wrong with what stands at a path, where it is no regular file that this program may read.
pub fn trouble_at<R: Files<File = File>>(rt: &R, path: &str) -> Option<Trouble> {
    match fs::metadata(rt, path) {
        Ok(metadata) if metadata.is_dir() => Some(Trouble::Folder),
        Ok(metadata) if !metadata.is_file() => Some(Trouble::NotRegular),
        Ok(_) if is_in_use(rt, path) => Some(Trouble::InUse),
        Ok(_) => None,
        Err(error) if error.kind() == io::ErrorKind::NotFound => Some(missing_at(rt, path)),
        Err(_) => Some(Trouble::Hidden),
    }
}

/// The same for a file that is to be written: one that another program reads is in use, too.
pub fn writers_trouble_at<R: Files<File = File>>(rt: &R, path: &str) -> Option<Trouble> {
    match trouble_at(rt, path) {
        None if is_read(rt, path) => Some(Trouble::InUse),
        trouble => trouble,
    }
}

/// What is wrong with a file that the system doesn't open, read or write, by the kind of its error.
pub fn trouble_of_kind(kind: io::ErrorKind) -> Trouble {
    match kind {
        io::ErrorKind::NotFound => Trouble::Missing,
        io::ErrorKind::WouldBlock => Trouble::InUse,
        io::ErrorKind::Unsupported => Trouble::NotRegular,
        io::ErrorKind::StorageFull | io::ErrorKind::QuotaExceeded => Trouble::NoSpace,
        _ => Trouble::Unwritable,
    }
}

/// Whether the folder of a path is there.
pub fn has_folder<R: Files<File = File>>(rt: &R, path: &str) -> bool {
    match fs::metadata(rt, folder_of(path)) {
        Ok(metadata) => metadata.is_dir(),
        Err(_) => false,
    }
}

/// The folder in which the file of a path stands.
pub(crate) fn folder_of(path: &str) -> &str {
    match Path::new(path).parent() {
        Some(folder) if !folder.as_str().is_empty() => folder.as_str(),
        _ => ".",
    }
}

// Whether nothing stands at a path, or a link that leads nowhere.
fn missing_at<R: Files<File = File>>(rt: &R, path: &str) -> Trouble {
    match fs::symlink_metadata(rt, path) {
        Ok(_) => Trouble::Dangling,
        Err(_) => Trouble::Missing,
    }
}

// Whether another program writes a file.
fn is_in_use<R: Files<File = File>>(rt: &R, path: &str) -> bool {
    FileDevice::in_use(rt, path, path).is_some()
}

// Whether another program has a file, to read it or to write it.
fn is_read<R: Files<File = File>>(rt: &R, path: &str) -> bool {
    match File::open(rt, path) {
        Ok(file) => matches!(file.try_lock(), Err(TryLockError::WouldBlock)),
        Err(_) => false,
    }
}
