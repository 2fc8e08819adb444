//! An open file.
ghost use Rattle.std.specs.Prelude.{◌≡◌, ◌≤◌, true, is_err, length, IfOk};

use std::fs::{self, File, OpenOptions};
use std::io;
use std::os::unix::fs::{FileExt, MetadataExt};
use std::path::Path;
use std::rt::Files;

/// An open file, locked against other programs until it is dropped; or one that isn't there, which has no bytes and can't be written.
#[derive(Drop)]
pub struct DiskFile {
    file: Option<File>,
    // A sync has failed, so what the system still shows may be missing on the disk.
    is_lost: bool,
}

// The furthest place that the system takes.
const FURTHEST: u64 = (1 << 63) - 1;

impl DiskFile {
    /// Opens a regular file, or makes it, and locks it. It is on the disk with its folder then: also where an earlier program made it,
    /// and was stopped before that lasted.
    pub fn open<R: Files<File = File>>(rt: &R, path: &str, is_made: bool) -> io::Result<DiskFile> {
        let mut options = OpenOptions::new();
        let _ = options.read(true).write(true);
        let file = match check_regular(rt, path) {
            Ok(()) => options.open(rt, path)?,
            Err(error) if is_made && error.kind() == io::ErrorKind::NotFound => {
                options.create_new(true).open(rt, path)?
            }
            Err(error) => return Err(error),
        };
        file.try_lock()?;
        check_named(rt, &file, path)?;
        file.sync_all()?;
        sync_folder(rt, path)?;
        Ok(DiskFile {
            file: Some(file),
            is_lost: false,
        })
    }

    /// A file that isn't there.
    pub fn missing() -> DiskFile {
        DiskFile {
            file: None,
            is_lost: false,
        }
    }

    /// Opens a regular file that is only read. Others may read it too.
    pub fn open_to_read<R: Files<File = File>>(rt: &R, path: &str) -> io::Result<DiskFile> {
        check_regular(rt, path)?;
        let file = File::open(rt, path)?;
        file.try_lock_shared()?;
        Ok(DiskFile {
            file: Some(file),
            is_lost: false,
        })
    }

    /// Opens a regular file, or makes it, and empties it.
    pub fn open_empty<R: Files<File = File>>(rt: &R, path: &str) -> io::Result<DiskFile> {
        let opened = DiskFile::open(rt, path, true)?;
        opened.there()?.set_len(0)?;
        Ok(opened)
    }

    // The file, where it is there.
    fn there(&self) -> io::Result<&File> {
        match &self.file {
            Some(file) => Ok(file),
            None => Err(io::ErrorKind::NotFound.into()),
        }
    }

    /// Whether a sync has failed.
    pub fn is_lost(&self) -> bool
        ensures { result ≡ self.now.is_lost }
    {
        self.is_lost
    }

    /// The number of bytes, where what is shown can be trusted.
    pub fn len(&self) -> io::Result<u64>
        ensures refused_only_if { self.now.is_lost ≡ true → is_err result ≡ true }
    {
        if self.is_lost {
            return Err(io::ErrorKind::Other.into());
        }
        match &self.file {
            Some(file) => Ok(file.metadata()?.len()),
            None => Ok(0),
        }
    }

    /// Reads the smaller of the buffer and what there is from this place on.
    pub fn read_at(&self, at: u64, buffer: &mut [u8]) -> io::Result<usize>
        ensures within { IfOk result (λ count. count ≤ length buffer.old) }
        ensures refused_only_if { self.now.is_lost ≡ true → is_err result ≡ true }
    {
        let left = self.len()?.saturating_sub(at);
        let count = if left < buffer.len() as u64 {
            left as usize
        } else {
            buffer.len()
        };
        if count > 0 {
            self.there()?.read_exact_at(&mut buffer[..count], at)?;
        }
        Ok(count)
    }

    /// Writes all of it.
    pub fn write_at(&self, at: u64, bytes: &[u8]) -> io::Result<()>
        ensures refused_only_if { self.now.is_lost ≡ true → is_err result ≡ true }
    {
        if self.is_lost || at > FURTHEST || bytes.len() as u64 > FURTHEST - at {
            return Err(io::ErrorKind::InvalidInput.into());
        }
        self.there()?.write_all_at(bytes, at)
    }

    /// Makes what was written last. After a failure no later call pretends that it did.
    pub fn sync(&mut self) -> io::Result<()>
        ensures lost { self.new.is_lost ≡ is_err result }
        ensures refused_only_if { self.old.is_lost ≡ true → is_err result ≡ true }
    {
        if self.is_lost {
            return Err(io::ErrorKind::Other.into());
        }
        let synced = match &self.file {
            Some(file) => file.sync_all(),
            None => Err(io::ErrorKind::NotFound.into()),
        };
        self.is_lost = synced.is_err();
        synced
    }
}

/// Refuses what is no regular file: a folder, a pipe, a device node. It isn't opened for that, since opening a pipe may wait.
pub fn check_regular<R: Files<File = File>>(rt: &R, path: &str) -> io::Result<()> {
    if fs::metadata(rt, path)?.is_file() {
        Ok(())
    } else {
        Err(io::ErrorKind::Unsupported.into())
    }
}

// Refuses a file that its path no longer leads to: another program removed it, or put another in its place, before it was locked.
fn check_named<R: Files<File = File>>(rt: &R, file: &File, path: &str) -> io::Result<()> {
    let (here, there) = (file.metadata()?, fs::metadata(rt, path)?);
    if here.dev() == there.dev() && here.ino() == there.ino() {
        Ok(())
    } else {
        Err(io::ErrorKind::WouldBlock.into())
    }
}

/// Syncs the folder in which the file of this path stands.
pub fn sync_folder<R: Files<File = File>>(rt: &R, path: &str) -> io::Result<()> {
    let folder = match Path::new(path).parent() {
        Some(folder) if !folder.as_str().is_empty() => folder.as_str(),
        _ => ".",
    };
    File::open(rt, folder)?.sync_all()
}
