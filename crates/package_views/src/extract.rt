//! One stream of a package as a file.
ghost use Rattle.std.specs.Prelude.{◌≤◌, IfOk};

use crate::near::tell_no_stream;
use cfb_medium::Error;
use msi::{Package, ReadStream};
use msi_export::CopyError;
use msi_texts::is_valid;
use package_files::{
    Names, Shown, Trouble, check_shown, tell_failure, tell_part, tell_trouble, tell_unwritten,
    trouble_of_kind,
};
use package_reading::{open_stream, package_as_named, tell_why_refused, write_stream_to};
use std::alloc::Global;
use std::fs::{self, File};
use std::io::{self, Write};
use std::rt::Files;

/// Writes the bytes of a stream of a package, as a recovery would leave it, to a new file, or for `-` to the answers. The file is written
/// with `.part` behind its name, and gets its name at the end: so it is whole, or isn't there. The status is 0 where it was written, 1 where
/// there is no such stream, 3 where the file is no package, where there is a file already, and where one can't be written; each is told.
pub fn extract_stream<'a, R: Files<File = File> + AllocGlobal, O: Write, E: Write>(
    rt: &R,
    names: &'a Names,
    stream: &str,
    path: &str,
    out: &'a mut O,
    err: &'a mut E,
) -> u8
    ensures { result ≤ 3 }
{
    if let Err(failure) = check_shown(rt, names, err) {
        tell_failure(names, failure, err);
        return 3;
    }
    let mut package = match package_as_named(rt, names) {
        Ok(package) => package,
        Err(error) => {
            tell_why_refused(rt, names, error, err);
            return 3;
        }
    };
    match extract_from(rt, &mut package, stream, path, out, err) {
        Ok(status) => status,
        Err(error) => tell_unread(names.named(), &package, stream, error, err),
    }
}

// Writes the bytes of a stream to a new file or to the answers, and gives the status; or why they can't be read.
fn extract_from<R: Files<File = File> + AllocGlobal, O: Write, E: Write>(
    rt: &R,
    package: &mut Package<Shown>,
    stream: &str,
    path: &str,
    out: &mut O,
    err: &mut E,
) -> Result<u8, Error>
    ensures { IfOk result (λ status. status ≤ 3) }
{
    let mut opened = match open_stream(package, stream) {
        Ok(opened) => opened,
        Err(error) => return Err(error),
    };
    if path == "-" {
        return print_stream(&mut opened, out, err);
    }
    keep_stream(rt, path, &mut opened, err)
}

/// Whether a stream can have this name.
pub fn is_stream_name(name: &str) -> bool {
    let has_mark = name
        .as_bytes()
        .iter()
        .any(|byte| matches!(byte, b'/' | b'\\' | b':' | b'!'));
    // (those of summaries and signatures begin with 05)
    is_valid(name, false) && !has_mark && !name.as_bytes().starts_with(&[5])
}

// Tells why a stream wasn't read, and gives the status.
fn tell_unread<E: Write>(
    path: &str,
    package: &Package<Shown>,
    stream: &str,
    error: Error,
    err: &mut E,
) -> u8
    ensures { result ≤ 3 }
{
    if matches!(error, Error::NotFound | Error::InvalidInput) {
        tell_no_stream(path, package, stream, err);
        return 1;
    }
    tell_part(path, "stream", stream, error, err);
    3
}

// Writes the bytes of a stream to the answers, and gives the status; or why they can't be read. Where nobody reads them, that is no fault.
fn print_stream<O: Write, E: Write>(
    stream: &mut ReadStream<'_, Shown>,
    out: &mut O,
    err: &mut E,
) -> Result<u8, Error>
    ensures { IfOk result (λ status. status ≤ 3) }
{
    match write_stream_to(stream, out) {
        Ok(()) => Ok(0),
        Err(CopyError::Write(io::ErrorKind::BrokenPipe)) => Ok(0),
        Err(CopyError::Write(kind)) => {
            tell_unwritten(kind, err);
            Ok(3)
        }
        Err(CopyError::Read(error)) => Err(error),
    }
}

// Writes the bytes of a stream to a new file, and gives the status; or why they can't be read.
fn keep_stream<R: Files<File = File> + AllocGlobal, E: Write>(
    rt: &R,
    path: &str,
    stream: &mut ReadStream<'_, Shown>,
    err: &mut E,
) -> Result<u8, Error>
    ensures { IfOk result (λ status. status ≤ 3) }
{
    let part = part_name(rt.alloc(), path)?;
    if fs::symlink_metadata(rt, path).is_ok() {
        tell_trouble(path, Trouble::Present, err);
        return Ok(3);
    }
    if fs::symlink_metadata(rt, part.as_str()).is_ok() {
        tell_left(&part, err);
        return Ok(3);
    }
    match write_file(rt, path, &part, stream) {
        Ok(()) => Ok(0),
        Err(CopyError::Write(kind)) => {
            let _ = fs::remove_file(rt, part.as_str());
            tell_trouble(path, trouble_of_new(kind), err);
            Ok(3)
        }
        Err(CopyError::Read(error)) => {
            let _ = fs::remove_file(rt, part.as_str());
            Err(error)
        }
    }
}

// Tells of a file under which the new one is to be written first.
fn tell_left<E: Write>(part: &str, err: &mut E) {
    let _ = writeln!(
        err,
        "msidb: {part}: it is there already; if it is left of an extract that was cut short, remove it"
    );
}

fn part_name(alloc: Global, path: &str) -> Result<String, Error> {
    Ok(format!(in alloc; "{path}.part")?)
}

fn write_file<R: Files<File = File>>(
    rt: &R,
    path: &str,
    part: &str,
    stream: &mut ReadStream<'_, Shown>,
) -> Result<(), CopyError> {
    write_stream_file(rt, part, stream)?;
    match fs::rename(rt, part, path) {
        Ok(()) => Ok(()),
        Err(error) => Err(CopyError::Write(error.kind())),
    }
}

// Writes the bytes of a stream to a file, which is made, or emptied before.
pub(crate) fn write_stream_file<R: Files<File = File>>(
    rt: &R,
    path: &str,
    stream: &mut ReadStream<'_, Shown>,
) -> Result<(), CopyError> {
    match File::create(rt, path) {
        Ok(mut file) => write_stream_to(stream, &mut file),
        Err(error) => Err(CopyError::Write(error.kind())),
    }
}

// Why a new file can't be made.
fn trouble_of_new(kind: io::ErrorKind) -> Trouble {
    match kind {
        io::ErrorKind::NotFound | io::ErrorKind::NotADirectory => Trouble::NoFolder,
        io::ErrorKind::PermissionDenied => Trouble::Unmakable,
        kind => trouble_of_kind(kind).of_new(),
    }
}
