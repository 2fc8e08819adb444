//! A medium over one file on disk.
ghost use Rattle.std.specs.Prelude.{◌≡◌, ◌≤◌, ⊤, ℕ, [], ◌+◌, ◌^◌, true, false, is_err, length, IfOk, IfErr, Ok, Err, IsErrOf, refl};
ghost use Rattle.std.proofs.Common.{arith, inl};
ghost use Rattle.cfb_medium.specs.Calls.{Reaches, IsFaultOrInvalidInputIf};
ghost use Rattle.file_device.specs.FileDevice.{IsDeviceOpenError};
ghost use Rattle.file_device.specs.FileMedium.{medium_failures, IsJustifiedByFile, MoreFailures, StaysLost, is_lost};

use crate::file::DiskFile;
use cfb_medium::{Error, Medium, ReadMedium};
use staged::Counts;
use std::fs::File;
use std::io;
use std::rt::Files;

/// One file on disk, which is written in place: a crash may leave anything of it. It is locked as long as the medium lives, so that no
/// second program writes what this one reads. Once a sync has failed each call is `Device`, since what is shown may be missing on the
/// disk.
///
/// What is proved of it are its count of failures and the causes of its errors; nothing is claimed of its bytes.
#[derive(Drop)]
pub struct FileMedium {
    file: DiskFile,
    counts: Counts,
}

// The end of the furthest write.
const END: u64 = (1 << 63) - 1;

impl FileMedium {
    /// The file of this path, to be read. `NotFound` where file or folder is missing, else `Device`: also where it is no regular file, and
    /// where another program writes it.
    pub fn open<R: Files<File = File>>(rt: &R, path: &str) -> Result<FileMedium, Error>
        ensures failures { IfOk result (λ medium. medium_failures medium ≡ 0) }
        ensures errors { IfErr result IsDeviceOpenError }
    {
        medium_of(DiskFile::open_to_read(rt, path))
    }

    /// The file of this path, to be read and written. `NotFound` where file or folder is missing, else `Device`: also where it is no
    /// regular file, may not be written, or another program has it.
    pub fn open_rw<R: Files<File = File>>(rt: &R, path: &str) -> Result<FileMedium, Error>
        ensures failures { IfOk result (λ medium. medium_failures medium ≡ 0) }
        ensures errors { IfErr result IsDeviceOpenError }
    {
        medium_of(DiskFile::open(rt, path, false))
    }

    /// The file of this path, made where it is missing and emptied where it is there. `NotFound` where the folder is missing, else
    /// `Device`, as for `open_rw`.
    pub fn create<R: Files<File = File>>(rt: &R, path: &str) -> Result<FileMedium, Error>
        ensures failures { IfOk result (λ medium. medium_failures medium ≡ 0) }
        ensures errors { IfErr result IsDeviceOpenError }
    {
        medium_of(DiskFile::open_empty(rt, path))
    }
}

// The medium of a file that was opened, with the error that a medium has.
fn medium_of(opened: io::Result<DiskFile>) -> Result<FileMedium, Error>
    ensures failures { IfOk result (λ medium. medium_failures medium ≡ 0) }
    ensures errors { IfErr result IsDeviceOpenError }
{
    match opened {
        Ok(file) => Ok(FileMedium {
            file,
            counts: Counts::new(),
        }),
        Err(error) if error.kind() == io::ErrorKind::NotFound => Err(Error::NotFound),
        Err(_) => Err(Error::Device),
    }
}

impl ReadMedium for FileMedium {
    ghost bytes = { λ _. [] };

    // No clause says which bytes reach a disk, or come from one.
    ghost honest = { λ _. false };

    ghost failures = { λ m. medium_failures m };

    ghost failed = { λ _. false };

    ghost continues = { λ a b. medium_failures a ≤ medium_failures b };

    ghost moment = { λ _. 0 };

    ghost crash_may_leave = { λ _ _. ⊤ };

    ghost crash_left_since = { λ _ _ _. ⊤ };

    fn len(&mut self) -> Result<u64, Error>
        ensures continues { Reaches (λ a b. MoreFailures a b) self.old self.new }
        ensures cause { IfErr result (IsJustifiedByFile self.old self.new) }
        ensures errors { IfErr result (λ error. error ≡ Error.Device) }
        ensures lost { StaysLost (IsErrOf result Error.Device) self.old self.new }
    {
        match self.file.len() {
            Ok(len) => Ok(len),
            Err(_) => Err(self.counts.fault()),
        }
    }

    fn read_at(&mut self, at: u64, buffer: &mut [u8]) -> Result<usize, Error>
        ensures within { IfOk result (λ count. count ≤ length buffer.old) }
        ensures continues { Reaches (λ a b. MoreFailures a b) self.old self.new }
        ensures cause { IfErr result (IsJustifiedByFile self.old self.new) }
        ensures errors { IfErr result (λ error. error ≡ Error.Device) }
        ensures lost { StaysLost (IsErrOf result Error.Device) self.old self.new }
    {
        match self.file.read_at(at, buffer) {
            Ok(count) => Ok(count),
            Err(_) => Err(self.counts.fault()),
        }
    }

    ghost continues_refl = { λ _. Prim.omega arith };

    ghost continues_keeps = { λ a b more. record { as_honest = refl; as_failed = refl; counted = more } };

    ghost counts_now = { λ _ _ _ _ _. tt };

    ghost only_now = { λ _ _ _. tt };

    ghost continues_leaves = { λ _ _ _. record { later = Prim.omega arith; each = λ _ _. tt; before = λ _ _ _ _. inl tt } };
}

impl Medium for FileMedium {
    ghost survives = { false };

    ghost has_published = { λ _ _. ⊤ };

    /// After a failed sync it is `Device`. An empty write changes nothing, wherever it is.
    fn write_at(&mut self, at: u64, bytes: &[u8]) -> Result<(), Error>
        ensures continues { Reaches (λ a b. MoreFailures a b) self.old self.new }
        ensures cause { IfErr result (IsJustifiedByFile self.old self.new) }
        ensures errors { IfErr result (IsFaultOrInvalidInputIf (2 ^ 63 ≤ at + length bytes.now)) }
        ensures empty { bytes.now ≡ [] → is_lost self.old ≡ false → result ≡ Ok tt }
        ensures lost { StaysLost (IsErrOf result Error.Device) self.old self.new }
    {
        if self.file.is_lost() {
            return Err(self.counts.fault());
        }
        if bytes.is_empty() {
            return Ok(());
        }
        if at > END || bytes.len() as u64 > END - at {
            return Err(Error::InvalidInput);
        }
        match self.file.write_at(at, bytes) {
            Ok(()) => Ok(()),
            Err(_) => Err(self.counts.fault()),
        }
    }

    /// Syncs the file. After a failure each later call is `Device`, since what is shown may be missing on the disk.
    fn flush(&mut self) -> Result<(), Error>
        ensures continues { Reaches (λ a b. MoreFailures a b) self.old self.new }
        ensures cause { IfErr result (IsJustifiedByFile self.old self.new) }
        ensures errors { IfErr result (λ error. error ≡ Error.Device) }
        ensures lost { StaysLost (IsErrOf result Error.Device) self.old self.new }
        ensures noted { is_lost self.new ≡ is_err result }
    {
        match self.file.sync() {
            Ok(()) => Ok(()),
            Err(_) => Err(self.counts.fault()),
        }
    }

    /// The same as `flush`.
    fn commit(&mut self) -> Result<(), Error>
        ensures continues { Reaches (λ a b. MoreFailures a b) self.old self.new }
        ensures cause { IfErr result (IsJustifiedByFile self.old self.new) }
        ensures errors { IfErr result (λ error. error ≡ Error.Device) }
        ensures lost { StaysLost (IsErrOf result Error.Device) self.old self.new }
        ensures noted { is_lost self.new ≡ is_err result }
    {
        match self.file.sync() {
            Ok(()) => Ok(()),
            Err(_) => Err(self.counts.fault()),
        }
    }

    /// `InvalidInput`, and changes nothing: what is written stands in the file. After a failed sync it is `Device`.
    fn roll_back(&mut self) -> Result<(), Error>
        ensures continues { Reaches (λ a b. MoreFailures a b) self.old self.new }
        ensures cause { IfErr result (IsJustifiedByFile self.old self.new) }
        ensures refused_only_if { is_lost self.old ≡ false → result ≡ Err Error.InvalidInput }
        ensures lost { StaysLost (IsErrOf result Error.Device) self.old self.new }
    {
        if self.file.is_lost() {
            return Err(self.counts.fault());
        }
        Err(Error::InvalidInput)
    }

    fn has_failed(&self) -> bool {
        false
    }

    ghost continues_published = { λ _ _ _ _ _ _. tt };

    ghost published_left = { λ _ _ _ survives. Prim.absurd (Prim.cc survives) };

    ghost something_left = { λ _ survives. Prim.absurd (Prim.cc survives) };
}
