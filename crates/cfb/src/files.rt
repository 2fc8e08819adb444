//! Files on disk, by their paths.
ghost use Rattle.cfb.specs.OptionViews.{case_table_asked, most_asked, IsReadAsAsked};
ghost use Rattle.cfb.specs.Paths.{ComparesAsAscii, IsMadeOnDisk, IsOpenedOnDisk, IsFileOpenError};
ghost use Rattle.cfb.specs.Views.{file_case_table, mini_of, most_ahead_of, validation_of};
ghost use Rattle.cfb_opening.specs.Opened.{OpensAt};
ghost use Rattle.cfb_sectors.specs.declared.validation.Validation.TheVariants.{Permissive};
ghost use Rattle.std.specs.Prelude.{IfErr, IfOk, ◌≡◌};

use crate::{CompoundFile, OpenOptions};
use cfb_medium::Error;
use file_device::FileMedium;
use std::alloc::Global;
use std::fs::File;
use std::rt::Files;

impl OpenOptions {
    /// Opens the file at a path of the disk, to be read: a call that changes it is `Device`. `NotFound` where file or folder is
    /// missing, `Device` where it is no regular file or another program writes it, `InvalidData` where such a reader can't open its
    /// bytes; the other error is `Memory`. The file is locked as long as it is open.
    pub fn open<R: Files<File = File>>(
        self,
        rt: &R,
        alloc: Global,
        path: &str,
    ) -> Result<CompoundFile<FileMedium>, Error>
        ensures asked { IfOk result (IsReadAsAsked self) }
        ensures opened { IfOk result IsOpenedOnDisk }
        ensures errors { IfErr result IsFileOpenError }
    {
        match FileMedium::open(rt, path) {
            Ok(medium) => self.open_medium(alloc, medium),
            Err(error) => Err(error),
        }
    }

    /// Opens the file at a path of the disk, to be read and changed. It is changed in its place: a crash may leave anything of it.
    /// Errors are those of `open`, and `Device` also where it may not be written, or another program has it.
    pub fn open_rw<R: Files<File = File>>(
        self,
        rt: &R,
        alloc: Global,
        path: &str,
    ) -> Result<CompoundFile<FileMedium>, Error>
        ensures asked { IfOk result (IsReadAsAsked self) }
        ensures opened { IfOk result IsOpenedOnDisk }
        ensures errors { IfErr result IsFileOpenError }
    {
        match FileMedium::open_rw(rt, path) {
            Ok(medium) => self.open_medium(alloc, medium),
            Err(error) => Err(error),
        }
    }

    /// Makes a new file of version 4 at a path of the disk, of 12288 bytes; a file that is there is emptied first. `NotFound` where
    /// the folder is missing, `Device` where no regular file can be made or written there, or another program has it; also
    /// `InvalidData` where the disk doesn't give back what was written. The other error is `Memory`.
    pub fn create<R: Files<File = File>>(
        self,
        rt: &R,
        alloc: Global,
        path: &str,
    ) -> Result<CompoundFile<FileMedium>, Error>
        ensures made { IfOk result (IsMadeOnDisk (case_table_asked self)) }
        ensures most { IfOk result (λ it. most_ahead_of it ≡ most_asked self) }
        ensures errors { IfErr result IsFileOpenError }
    {
        let medium = match FileMedium::create(rt, path) {
            Ok(medium) => medium,
            Err(error) => return Err(error),
        };
        match self.create_with(alloc, medium) {
            Ok(file) => Ok(file),
            Err((_, error)) => Err(error),
        }
    }

    // Opens the file in a medium that is let go where that is refused.
    fn open_medium(
        self,
        alloc: Global,
        medium: FileMedium,
    ) -> Result<CompoundFile<FileMedium>, Error>
        ensures asked { IfOk result (IsReadAsAsked self) }
        ensures opens { IfOk result (λ it. OpensAt medium (mini_of it)) }
        ensures errors { IfErr result IsFileOpenError }
    {
        match self.open_with(alloc, medium) {
            Ok(file) => Ok(file),
            Err((_, error)) => Err(error),
        }
    }
}

/// Opens the file at a path of the disk, to be read, as `OpenOptions::new` asks: as a lenient reader, under the case table of
/// ASCII. Errors are those of `OpenOptions::open`.
pub fn open<R: Files<File = File>>(
    rt: &R,
    alloc: Global,
    path: &str,
) -> Result<CompoundFile<FileMedium>, Error>
    ensures letters { IfOk result (λ it. ComparesAsAscii (file_case_table it)) }
    ensures lenient { IfOk result (λ it. validation_of it ≡ Permissive) }
    ensures most { IfOk result (λ it. most_ahead_of it ≡ 65536) }
    ensures opened { IfOk result IsOpenedOnDisk }
    ensures errors { IfErr result IsFileOpenError }
{
    match OpenOptions::new(alloc) {
        Ok(options) => options.open(rt, alloc, path),
        Err(error) => Err(error),
    }
}

/// Opens the file at a path of the disk, to be read and changed, as `OpenOptions::new` asks. Errors are those of
/// `OpenOptions::open_rw`.
pub fn open_rw<R: Files<File = File>>(
    rt: &R,
    alloc: Global,
    path: &str,
) -> Result<CompoundFile<FileMedium>, Error>
    ensures letters { IfOk result (λ it. ComparesAsAscii (file_case_table it)) }
    ensures lenient { IfOk result (λ it. validation_of it ≡ Permissive) }
    ensures most { IfOk result (λ it. most_ahead_of it ≡ 65536) }
    ensures opened { IfOk result IsOpenedOnDisk }
    ensures errors { IfErr result IsFileOpenError }
{
    match OpenOptions::new(alloc) {
        Ok(options) => options.open_rw(rt, alloc, path),
        Err(error) => Err(error),
    }
}

/// Makes a new file of version 4 at a path of the disk, under the case table of ASCII. Errors are those of
/// `OpenOptions::create`.
pub fn create<R: Files<File = File>>(
    rt: &R,
    alloc: Global,
    path: &str,
) -> Result<CompoundFile<FileMedium>, Error>
    ensures letters { IfOk result (λ it. ComparesAsAscii (file_case_table it)) }
    ensures made { IfOk result (λ it. IsMadeOnDisk (file_case_table it) it) }
    ensures most { IfOk result (λ it. most_ahead_of it ≡ 65536) }
    ensures errors { IfErr result IsFileOpenError }
{
    match OpenOptions::new(alloc) {
        Ok(options) => options.create(rt, alloc, path),
        Err(error) => Err(error),
    }
}
