//! A package of any maker as files of a folder.
ghost use Rattle.std.specs.Prelude.{◌≤◌};

use crate::folder::{Target, Written, trouble_of_folder};
use cfb_medium::Error;
use msi::Package;
use package_files::{Names, Shown, Trouble, check_shown, tell_error, tell_failure, tell_trouble};
use package_reading::{Pages, Reread, Stored, Told, package_by, stored_at, tell_why_refused};
use std::alloc::{AllocError, Global};
use std::fs::{self, File};
use std::io::{self, Write};
use std::rt::Files;

/// Writes the tables of a package, as a recovery would leave it, to a new folder, each as a text, and its streams, each as a file. They are
/// written to a folder with `.part` behind its name, which gets the name at the end: so the folder is whole, or isn't there. The status is
/// 0 where all was written; 1 where all was, and something isn't read back from it as it was; else 3. What isn't read back and what went
/// wrong is told. Where a part of the package can't be read the others stay in the folder with `.part`, which is told, too.
pub fn export_package<'a, R: Files<File = File> + AllocGlobal, E: Write>(
    rt: &'a R,
    names: &'a Names,
    pages: Pages,
    folder: &'a str,
    err: &'a mut E,
) -> u8
    ensures { result ≤ 3 }
{
    if let Err(failure) = check_shown(rt, names, err) {
        tell_failure(names, failure, err);
        return 3;
    }
    let (mut package, reread, stored) = match read_package(rt, names, pages, err) {
        Ok(read) => read,
        Err(error) => {
            tell_why_refused(rt, names, error, err);
            return 3;
        }
    };
    write_package(rt, &mut package, &stored, names.named(), folder, err)
}

// The number of UTF-8.
const UTF8: u32 = 65001;

// A package, how its texts were read, and what its file has beside it. Texts that were put in UTF-8 are exported under that page.
fn read_package<R: Files<File = File> + AllocGlobal, E: Write>(
    rt: &R,
    names: &Names,
    pages: Pages,
    err: &mut E,
) -> Result<(Package<Shown>, Reread, Stored), Error> {
    let (package, reread) = package_by(rt, names, pages, Told::both(), err)?;
    let stored = stored_at(rt, names)?;
    let page = if reread.texts.is_rewritten {
        UTF8
    } else {
        stored.page
    };
    Ok((package, reread, Stored { page, ..stored }))
}

// The status of an export, and what went wrong is told.
fn write_package<'a, R: Files<File = File> + AllocGlobal, E: Write>(
    rt: &'a R,
    package: &mut Package<Shown>,
    stored: &Stored,
    path: &'a str,
    folder: &'a str,
    err: &'a mut E,
) -> u8
    ensures { result ≤ 3 }
{
    let folder = folder.trim_end_matches('/');
    let part = match new_part(rt, folder, err) {
        Ok(part) => part,
        Err(error) => return status_of(path, error, err),
    };
    let mut target = Target::new(rt, rt.alloc(), path, &part, err);
    match target.write_all(package, stored) {
        Ok(()) => end_export(rt, target.written, &part, folder, target.err),
        Err(error) => {
            let _ = fs::remove_dir_all(rt, part.as_str());
            status_of(path, error, target.err)
        }
    }
}

// The status of an error that was told where a file or a folder was in the way.
fn status_of<E: Write>(path: &str, error: Error, err: &mut E) -> u8
    ensures { result ≤ 3 }
{
    if !matches!(error, Error::AlreadyExists | Error::Device) {
        tell_error(path, error, err);
    }
    3
}

// Gives the folder its name, where it is whole.
fn end_export<R: Files<File = File>, E: Write>(
    rt: &R,
    written: Written,
    part: &str,
    folder: &str,
    err: &mut E,
) -> u8
    ensures { result ≤ 3 }
{
    if written == Written::Partly {
        let _ = writeln!(err, "msidb: {part}: it has what could be read");
        return 3;
    }
    if fs::symlink_metadata(rt, folder).is_ok() {
        tell_trouble(folder, Trouble::Present, err);
        return 3;
    }
    match fs::rename(rt, part, folder) {
        Ok(()) if written == Written::Whole => 0,
        Ok(()) => 1,
        Err(_) => {
            tell_trouble(folder, Trouble::Unmakable, err);
            3
        }
    }
}

// How many folders of exports that were cut short may lie beside a new one.
const MOST_PARTS: u32 = 100;

// Makes the folder that is written, beside the one that it becomes: one of a name that isn't taken by an export that was cut short.
fn new_part<R: Files<File = File> + AllocGlobal, E: Write>(
    rt: &R,
    folder: &str,
    err: &mut E,
) -> Result<String, Error> {
    if fs::symlink_metadata(rt, folder).is_ok() {
        tell_trouble(folder, Trouble::Present, err);
        return Err(Error::AlreadyExists);
    }
    for number in 1..MOST_PARTS {
        let part = part_name(rt.alloc(), folder, number)?;
        match fs::create_dir(rt, part.as_str()) {
            Ok(()) => return Ok(part),
            Err(error) if error.kind() == io::ErrorKind::AlreadyExists => {
                let _ = writeln!(
                    err,
                    "msidb: {part}: it is left of an export that was cut short, and may be removed"
                );
            }
            Err(error) => {
                tell_trouble(folder, trouble_of_folder(error.kind()), err);
                return Err(Error::Device);
            }
        }
    }
    tell_trouble(folder, Trouble::Unmakable, err);
    Err(Error::Device)
}

fn part_name(alloc: Global, folder: &str, number: u32) -> Result<String, AllocError> {
    if number == 1 {
        format!(in alloc; "{folder}.part")
    } else {
        format!(in alloc; "{folder}.part{number}")
    }
}
