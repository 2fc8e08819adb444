//! Packages by the paths of their files.
ghost use Rattle.std.specs.Prelude.{◌≡◌, ◌⊎◌, IfErr, IfOk};
ghost use Rattle.cfb.specs.Paths.{IsOpenedOnDisk};
ghost use Rattle.cfb.specs.Views.{file_case_table, mini_of};
ghost use Rattle.cfb_opening.specs.Opened.{OpensAt};
ghost use Rattle.cfb_tree.specs.CaseTableViews.{case_table_of};
ghost use Rattle.file_device.specs.FileDevice.{IsDeviceOpenError};
ghost use Rattle.msi.specs.Changing.{IsChangeError};
ghost use Rattle.msi.specs.Creating.{IsPackageMadeOnDisk};
ghost use Rattle.msi.specs.Opened.{file_in};
ghost use Rattle.msi_stored.specs.Reading.{IsOpeningError};

use crate::package::Package;
use cfb::{CaseMapper, FileMedium};
use cfb_medium::Error;
use msi_spec::PackageType;
use std::alloc::Global;
use std::fs::File;
use std::rt::Files;

/// Opens the package at a path of the disk, to be read. `NotFound` where no file is there, `Device` where it can't be opened or
/// another program changes it; the other errors are those of `Package::open`.
pub fn open<R: Files<File = File>>(
    rt: &R,
    alloc: Global,
    path: &str,
    letters: CaseMapper,
) -> Result<Package<FileMedium>, Error>
    ensures opened { IfOk result (λ it. IsOpenedOnDisk (file_in it)) }
    ensures letters { IfOk result (λ it. file_case_table (file_in it) ≡ case_table_of letters) }
    ensures errors { IfErr result (λ e. IsDeviceOpenError e ⊎ IsOpeningError e) }
{
    match FileMedium::open(rt, path) {
        Ok(read_only) => package_in_medium(alloc, read_only, letters),
        Err(error) => Err(error),
    }
}

/// Opens the package at a path of the disk, to be read and changed. It is changed in its place: a crash may leave anything of it. Errors
/// are those of `open`, and `Device` also where it may not be written, or another program has it.
pub fn open_rw<R: Files<File = File>>(
    rt: &R,
    alloc: Global,
    path: &str,
    letters: CaseMapper,
) -> Result<Package<FileMedium>, Error>
    ensures opened { IfOk result (λ it. IsOpenedOnDisk (file_in it)) }
    ensures letters { IfOk result (λ it. file_case_table (file_in it) ≡ case_table_of letters) }
    ensures errors { IfErr result (λ e. IsDeviceOpenError e ⊎ IsOpeningError e) }
{
    match FileMedium::open_rw(rt, path) {
        Ok(medium) => package_in_medium(alloc, medium, letters),
        Err(error) => Err(error),
    }
}

/// Makes a new package at a path of the disk; a file that is there is emptied first. `NotFound` where the folder is missing, `Device`
/// where no regular file can be made or written there, or another program has it; the other errors are those of `Package::create`.
pub fn create<R: Files<File = File>>(
    rt: &R,
    alloc: Global,
    kind: PackageType,
    path: &str,
    letters: CaseMapper,
) -> Result<Package<FileMedium>, Error>
    ensures made { IfOk result (IsPackageMadeOnDisk (case_table_of letters) kind) }
    ensures errors { IfErr result (λ e. IsDeviceOpenError e ⊎ IsChangeError e) }
{
    let medium = match FileMedium::create(rt, path) {
        Ok(medium) => medium,
        Err(error) => return Err(error),
    };
    match Package::create(alloc, kind, medium, letters) {
        Ok(package) => Ok(package),
        Err((_, error)) => Err(error),
    }
}

// The package in a medium that is let go where it is refused.
fn package_in_medium(
    alloc: Global,
    medium: FileMedium,
    letters: CaseMapper,
) -> Result<Package<FileMedium>, Error>
    ensures opens { IfOk result (λ it. OpensAt medium (mini_of (file_in it))) }
    ensures letters { IfOk result (λ it. file_case_table (file_in it) ≡ case_table_of letters) }
    ensures errors { IfErr result IsOpeningError }
{
    match Package::open(alloc, medium, letters) {
        Ok(package) => Ok(package),
        Err((_, error)) => Err(error),
    }
}
