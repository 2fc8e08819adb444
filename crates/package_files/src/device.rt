//! The two files of a package that is written. The log is made by the first write to it, so that what only reads makes none.
ghost use Rattle.std.specs.Prelude.{◌≡◌, ⊤, [], false, IfOk};

use crate::failures::Failure;
use crate::looks::trouble_of_kind;
use crate::names::Names;
use file_device::{DiskFile, RawDevice, RawFile};
use std::cell::Cell;
use std::fs::{self, File, OpenOptions, Permissions};
use std::io;
use std::os::unix::fs::{FileExt, MetadataExt, PermissionsExt};
use std::rt::Files;

/// A file of a package, by four calls: nothing is proved of what they do to it. One that isn't there has no bytes; the first write makes
/// it, with its mode, and it is on the disk with its folder then.
#[derive(Drop)]
pub struct PackageFile<'a, R> {
    rt: &'a R,
    path: &'a str,
    mode: u32,
    file: DiskFile,
    is_made: bool,
    faults: &'a Faults,
    tick: u64,
}

/// The kind of the last error that a file of a package had.
#[derive(Drop)]
pub struct Faults {
    last: Cell<Option<io::ErrorKind>>,
}

impl Faults {
    /// None so far.
    pub fn new() -> Faults {
        Faults {
            last: Cell::new(None),
        }
    }

    /// The kind of the last one.
    pub fn last(&self) -> Option<io::ErrorKind> {
        self.last.get()
    }

    // Notes an error.
    fn note<T>(&self, done: io::Result<T>) -> io::Result<T>
        ensures { result ≡ done }
    {
        if let Err(error) = &done {
            self.last.set(Some(error.kind()));
        }
        done
    }
}

/// The two files of a package, locked as long as the device lives, so that no second program writes what this one does.
pub type PackageDevice<'a, R> = RawDevice<PackageFile<'a, R>>;

impl<'a, R: Files<File = File>> RawFile for PackageFile<'a, R> {
    ghost shown = { λ _. [] };

    // No clause says which bytes reach a disk, or come from one.
    ghost honest = { λ _. false };

    ghost left_at = { λ _ _ _. ⊤ };

    ghost changed = { λ f. f.tick };

    ghost failed = { λ _. false };

    fn len(&self) -> io::Result<u64> {
        self.faults.note(self.file.len())
    }

    fn read_at(&self, at: u64, buffer: &mut [u8]) -> io::Result<usize> {
        self.faults.note(self.file.read_at(at, buffer))
    }

    fn write_at(&mut self, at: u64, bytes: &[u8], tick: u64) -> io::Result<()> {
        self.tick = tick;
        if !self.is_made {
            let made = make_file(self.rt, self.path, self.mode);
            self.file = self.faults.note(made)?;
            self.is_made = true;
        }
        self.faults.note(self.file.write_at(at, bytes))
    }

    fn sync(&mut self, tick: u64) -> io::Result<()> {
        self.tick = tick;
        if !self.is_made {
            return Ok(());
        }
        let synced = self.file.sync();
        self.faults.note(synced)
    }

    ghost stays = { λ _ _ _ _ _ _ _. tt };

    ghost shows = { λ _ _. tt };
}

// Makes a file with a mode, on the disk with its folder.
fn make_file<R: Files<File = File>>(rt: &R, path: &str, mode: u32) -> io::Result<DiskFile> {
    let file = DiskFile::open(rt, path, true)?;
    fs::set_permissions(rt, path, Permissions::from_mode(mode))?;
    Ok(file)
}

// The bits of a mode that say who may read and write.
const MODE: u32 = 0o666;

// The mode of a package that is there, for its log.
fn mode_of<R: Files<File = File>>(rt: &R, path: &str) -> u32 {
    match fs::metadata(rt, path) {
        Ok(metadata) => metadata.mode() & MODE,
        Err(_) => 0o600,
    }
}

/// The files of a package that is there. A log that is missing is made when a commit needs it.
pub fn open_files<'a, R: Files<File = File>>(
    rt: &'a R,
    names: &'a Names,
    faults: &'a Faults,
) -> Result<PackageDevice<'a, R>, Failure> {
    files_of(rt, names, faults, false)
}

/// The files of a new package, whose own is made where it is missing. A log that is missing is made when a commit needs it.
pub fn create_files<'a, R: Files<File = File>>(
    rt: &'a R,
    names: &'a Names,
    faults: &'a Faults,
) -> Result<PackageDevice<'a, R>, Failure> {
    files_of(rt, names, faults, true)
}

fn files_of<'a, R: Files<File = File>>(
    rt: &'a R,
    names: &'a Names,
    faults: &'a Faults,
    is_made: bool,
) -> Result<PackageDevice<'a, R>, Failure> {
    let home = match DiskFile::open(rt, names.package(), is_made) {
        Ok(file) => file,
        Err(error) => return Err(Failure::Package(trouble_of_kind(error.kind()))),
    };
    let mode = mode_of(rt, names.package());
    let home = PackageFile {
        rt,
        path: names.package(),
        mode,
        file: home,
        is_made: true,
        faults,
        tick: 0,
    };
    let log = log_file(rt, names, faults, mode)?;
    Ok(RawDevice::new(home, log))
}

// The log of a package, which may be missing.
fn log_file<'a, R: Files<File = File>>(
    rt: &'a R,
    names: &'a Names,
    faults: &'a Faults,
    mode: u32,
) -> Result<PackageFile<'a, R>, Failure>
    ensures { IfOk result (λ file. file.tick ≡ 0) }
{
    let (file, is_made) = match DiskFile::open(rt, names.log(), false) {
        Ok(file) => (file, true),
        Err(error) if error.kind() == io::ErrorKind::NotFound => (DiskFile::missing(), false),
        Err(error) => return Err(Failure::Log(trouble_of_kind(error.kind()))),
    };
    Ok(PackageFile {
        rt,
        path: names.log(),
        mode,
        file,
        is_made,
        faults,
        tick: 0,
    })
}

/// Which files of a new package weren't there before.
#[derive(Clone, Copy, Debug)]
pub struct Fresh {
    /// Its own.
    pub package: bool,
    /// Its log.
    pub log: bool,
}

/// Removes the files of a package that was refused, where they weren't there before. Both stay where the package has bytes, where its log is
/// open, and where another program has them: so nothing goes that a recovery would finish.
pub fn remove_fresh<R: Files<File = File>>(rt: &R, names: &Names, fresh: Fresh) {
    let _ = remove_locked(rt, names, fresh);
}

fn remove_locked<R: Files<File = File>>(rt: &R, names: &Names, fresh: Fresh) -> io::Result<()> {
    let home = locked(rt, names.package())?;
    if home.metadata()?.len() > 0 {
        return Ok(());
    }
    if fresh.log && is_closed_at(rt, names.log())? {
        fs::remove_file(rt, names.log())?;
    }
    if fresh.package && !fs::exists(rt, names.log())? {
        fs::remove_file(rt, names.package())?;
    }
    Ok(())
}

/// Cuts the closed log of a package to its first byte. Whatever a crash leaves of the cut, a recovery gives the package
/// (`beginnings_of_closed_logs_are_closed`). A log that isn't closed, isn't there, or that another program has, is left as it is.
pub fn cut_log<R: Files<File = File>>(rt: &R, names: &Names) {
    let _ = cut_locked(rt, names);
}

fn cut_locked<R: Files<File = File>>(rt: &R, names: &Names) -> io::Result<()> {
    let _home = locked(rt, names.package())?;
    let log = locked(rt, names.log())?;
    if is_closed(&log)? && log.metadata()?.len() > 1 {
        log.set_len(1)?;
    }
    Ok(())
}

// A file that no other program has.
pub(crate) fn locked<R: Files<File = File>>(rt: &R, path: &str) -> io::Result<File> {
    let mut options = OpenOptions::new();
    let file = options.read(true).write(true).open(rt, path)?;
    file.try_lock()?;
    Ok(file)
}

// Whether there is no log at a path, or a closed one.
fn is_closed_at<R: Files<File = File>>(rt: &R, path: &str) -> io::Result<bool> {
    match locked(rt, path) {
        Ok(log) => is_closed(&log),
        Err(error) if error.kind() == io::ErrorKind::NotFound => Ok(true),
        Err(error) => Err(error),
    }
}

// Whether a log is closed: it has at most one byte, or its first isn't 01.
pub(crate) fn is_closed(log: &File) -> io::Result<bool> {
    let mut gate = [0u8; 2];
    Ok(log.read_at(&mut gate, 0)? < 2 || gate[0] != 1)
}
