//! The device of two files on disk, and how it is opened.
ghost use Rattle.std.specs.Prelude.{◌≡◌, ⊤, [], false, IfOk, IfErr};
ghost use Rattle.staged.specs.declared.device.Which.{Which};
ghost use Rattle.file_device.specs.FileDevice.{IsDeviceOpenError};
ghost use Rattle.file_device.specs.Pair.{raw_failures, raw_writes};

use crate::file::{DiskFile, check_regular};
use crate::pair::RawDevice;
use crate::raw::RawFile;
use cfb_medium::Error;
use staged::Which;
use std::fs::{File, TryLockError};
use std::io;
use std::rt::Files;

/// A file of the system, by four calls: nothing is proved of what they do to it.
#[derive(Drop)]
pub struct SystemFile {
    file: DiskFile,
    tick: u64,
}

impl RawFile for SystemFile {
    ghost shown = { λ _. [] };

    // No clause says which bytes reach a disk, or come from one.
    ghost honest = { λ _. false };

    ghost left_at = { λ _ _ _. ⊤ };

    ghost changed = { λ f. f.tick };

    ghost failed = { λ _. false };

    fn len(&self) -> io::Result<u64> {
        self.file.len()
    }

    fn read_at(&self, at: u64, buffer: &mut [u8]) -> io::Result<usize> {
        self.file.read_at(at, buffer)
    }

    fn write_at(&mut self, at: u64, bytes: &[u8], tick: u64) -> io::Result<()> {
        self.tick = tick;
        self.file.write_at(at, bytes)
    }

    fn sync(&mut self, tick: u64) -> io::Result<()> {
        self.tick = tick;
        self.file.sync()
    }

    ghost stays = { λ _ _ _ _ _ _ _. tt };

    ghost shows = { λ _ _. tt };
}

/// Two files on disk. Both are locked, so that no second program uses the package as long as the device lives.
pub type FileDevice = RawDevice<SystemFile>;

impl RawDevice<SystemFile> {
    /// The files of these paths; a log that is missing is made. Both are on the disk with their folders then. `NotFound` where the home file or a
    /// folder is missing, else `Device`: also where a file is no regular one or may not be written, and where another program has it.
    pub fn open<R: Files<File = File>>(rt: &R, home: &str, log: &str) -> Result<FileDevice, Error>
        ensures failures { IfOk result (λ device. raw_failures device ≡ 0) }
        ensures writes { IfOk result (λ device. (which : Which) → raw_writes device which ≡ 0) }
        ensures errors { IfErr result IsDeviceOpenError }
    {
        open_both(rt, home, log, false)
    }

    /// The files of these paths; each that is missing is made. Both are on the disk with their folders then. `NotFound` where a folder is missing,
    /// else `Device`, as for `open`.
    pub fn create<R: Files<File = File>>(rt: &R, home: &str, log: &str) -> Result<FileDevice, Error>
        ensures failures { IfOk result (λ device. raw_failures device ≡ 0) }
        ensures writes { IfOk result (λ device. (which : Which) → raw_writes device which ≡ 0) }
        ensures errors { IfErr result IsDeviceOpenError }
    {
        open_both(rt, home, log, true)
    }

    /// The files of these paths, to be read: nothing is written, made or synced, and other programs may read them too. A log without a path,
    /// or one that is missing, has no bytes. The home file is locked first, as by a writer, so that no log appears meanwhile. `NotFound`
    /// where the home file is missing, else `Device`: also where a file is no regular one, and where another program writes it.
    pub fn open_to_read<R: Files<File = File>>(
        rt: &R,
        home: &str,
        log: Option<&str>,
    ) -> Result<FileDevice, Error>
        ensures failures { IfOk result (λ device. raw_failures device ≡ 0) }
        ensures writes { IfOk result (λ device. (which : Which) → raw_writes device which ≡ 0) }
        ensures errors { IfErr result IsDeviceOpenError }
    {
        let home = read_file(rt, home)?;
        let log = match log {
            Some(path) => read_log(rt, path)?,
            None => missing_file(),
        };
        Ok(RawDevice::new(home, log))
    }

    /// Which of two files another program has, if it has one: a reason why `open` and `create` answer `Device`.
    pub fn in_use<R: Files<File = File>>(rt: &R, home: &str, log: &str) -> Option<Which> {
        if is_in_use(rt, home) {
            Some(Which::Home)
        } else if is_in_use(rt, log) {
            Some(Which::Log)
        } else {
            None
        }
    }
}

// Opens both files.
fn open_both<R: Files<File = File>>(
    rt: &R,
    home: &str,
    log: &str,
    is_home_made: bool,
) -> Result<FileDevice, Error>
    ensures failures { IfOk result (λ device. raw_failures device ≡ 0) }
    ensures writes { IfOk result (λ device. (which : Which) → raw_writes device which ≡ 0) }
    ensures errors { IfErr result IsDeviceOpenError }
{
    let home = opened_file(rt, home, is_home_made)?;
    let log = opened_file(rt, log, true)?;
    Ok(RawDevice::new(home, log))
}

// Opens a file, with the error that a device has.
fn opened_file<R: Files<File = File>>(
    rt: &R,
    path: &str,
    is_made: bool,
) -> Result<SystemFile, Error>
    ensures fresh { IfOk result (λ opened. opened.tick ≡ 0) }
    ensures errors { IfErr result IsDeviceOpenError }
{
    file_of(DiskFile::open(rt, path, is_made))
}

// Opens a file to be read.
fn read_file<R: Files<File = File>>(rt: &R, path: &str) -> Result<SystemFile, Error>
    ensures fresh { IfOk result (λ opened. opened.tick ≡ 0) }
    ensures errors { IfErr result IsDeviceOpenError }
{
    file_of(DiskFile::open_to_read(rt, path))
}

// Opens a log to be read, which may be missing.
fn read_log<R: Files<File = File>>(rt: &R, path: &str) -> Result<SystemFile, Error>
    ensures fresh { IfOk result (λ opened. opened.tick ≡ 0) }
    ensures errors { IfErr result IsDeviceOpenError }
{
    match read_file(rt, path) {
        Err(Error::NotFound) => Ok(missing_file()),
        opened => opened,
    }
}

// A file that isn't there.
fn missing_file() -> SystemFile
    ensures { result.tick ≡ 0 }
{
    SystemFile {
        file: DiskFile::missing(),
        tick: 0,
    }
}

// A file that was opened, or the error that a device has.
fn file_of(opened: io::Result<DiskFile>) -> Result<SystemFile, Error>
    ensures fresh { IfOk result (λ opened. opened.tick ≡ 0) }
    ensures errors { IfErr result IsDeviceOpenError }
{
    match opened {
        Ok(file) => Ok(SystemFile { file, tick: 0 }),
        Err(error) if error.kind() == io::ErrorKind::NotFound => Err(Error::NotFound),
        Err(_) => Err(Error::Device),
    }
}

// Whether a file is there that another program has locked to write it. The look takes a shared lock, so that two looks at once don't
// find each other.
fn is_in_use<R: Files<File = File>>(rt: &R, path: &str) -> bool {
    if check_regular(rt, path).is_err() {
        return false;
    }
    match File::open(rt, path) {
        Ok(file) => matches!(file.try_lock_shared(), Err(TryLockError::WouldBlock)),
        Err(_) => false,
    }
}
