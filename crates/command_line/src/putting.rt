//! A file whose bytes are put into a stream of a package.
ghost use Rattle.std.specs.Prelude.{◌≤◌};

use crate::commands::{tell_signature, why_no_session};
use crate::failures::failure_of;
use crate::files;
use crate::sessions::put_on_device;
use crate::texts::{INPUT, name_of};
use cfb::{FileMedium, MemoryMedium};
use cfb_medium::{Error, ReadMedium};
use package_checks::{tell_twice, tell_unsound};
use package_files::{
    Failure, Faults, Names, Trouble, cut_log, tell, tell_failure, tell_trouble, trouble_at,
    trouble_of_kind,
};
use package_reading::{is_sound_at, package_at, table_columns};
use package_views::is_stream_name;
use std::fs::{self, File};
use std::io::{self, Write};
use std::rt::Files;

// Where the bytes come from: a file, which is read in pieces, or what came through a pipe.
#[derive(Drop)]
enum Source {
    File(FileMedium),
    Memory(MemoryMedium),
}

// How a put ended.
#[derive(Clone, Copy, Debug)]
enum Ending {
    Done,
    // A rule refused it.
    Refused(Error),
    // The source wasn't read.
    Unread,
}

/// Puts the bytes of a file into a stream, and commits; or nothing is changed. The status is 0 where it was done, 1 where a rule refused it, 3
/// for a fault, a file that can't be read, or files that were refused; what went wrong is told.
pub(crate) fn put_stream<R: Files<File = File> + AllocGlobal, E: Write>(
    rt: &R,
    names: &Names,
    stream: &str,
    path: &str,
    err: &mut E,
) -> u8
    ensures { result ≤ 3 }
{
    let ended = match source_at(rt, path, err) {
        Some(Source::File(mut file)) => put_source(rt, names, stream, &mut file),
        Some(Source::Memory(mut bytes)) => put_source(rt, names, stream, &mut bytes),
        None => return 3,
    };
    match ended {
        Ok(Ending::Done) => {
            tell_table_of_name(rt, names, stream, err);
            tell_signature(rt, names, err);
            tell_twice(rt, names, err);
            0
        }
        Ok(Ending::Refused(error)) => {
            tell_refused(rt, names, stream, error, err);
            1
        }
        Ok(Ending::Unread) => {
            tell_trouble(name_of(path), Trouble::Unreadable, err);
            3
        }
        Err(failure) => {
            tell_failure(names, failure, err);
            3
        }
    }
}

// What is put, or why it can't be read is told.
fn source_at<R: Files<File = File> + AllocGlobal, E: Write>(
    rt: &R,
    path: &str,
    err: &mut E,
) -> Option<Source> {
    if path == "-" && trouble_at(rt, INPUT).is_some() {
        return input_bytes(rt, err);
    }
    let from = if path == "-" { INPUT } else { path };
    if let Some(trouble) = trouble_at(rt, from) {
        tell_trouble(path, trouble, err);
        return None;
    }
    match open_source(rt, from) {
        Ok(file) => Some(Source::File(file)),
        Err(Error::NotFound) => {
            tell_trouble(name_of(path), Trouble::Missing, err);
            None
        }
        Err(_) => {
            tell_trouble(name_of(path), Trouble::Unwritable, err);
            None
        }
    }
}

// A function of its own, since what is told of the call costs time wherever it is seen.
fn open_source<R: Files<File = File>>(rt: &R, path: &str) -> Result<FileMedium, Error> {
    FileMedium::open(rt, path)
}

// The bytes of the standard input, which has no places to read from, or why it can't be read is told.
fn input_bytes<R: Files<File = File> + AllocGlobal, E: Write>(
    rt: &R,
    err: &mut E,
) -> Option<Source> {
    match fs::read(rt, INPUT) {
        Ok(bytes) => Some(Source::Memory(MemoryMedium::from_bytes(rt.alloc(), bytes))),
        Err(error) if error.kind() == io::ErrorKind::OutOfMemory => {
            tell("out of memory", err);
            None
        }
        Err(error) => {
            tell_trouble(name_of("-"), trouble_of_kind(error.kind()), err);
            None
        }
    }
}

// Puts the bytes of a source into a stream, and commits.
fn put_source<R: Files<File = File> + AllocGlobal, S: ReadMedium>(
    rt: &R,
    names: &Names,
    stream: &str,
    source: &mut S,
) -> Result<Ending, Failure> {
    files::look_to_commit(rt, names)?;
    let faults = Faults::new();
    let device = files::open(rt, names, &faults)?;
    let put = put_on_device(rt.alloc(), device, stream, source);
    cut_log(rt, names);
    match put {
        Ok(()) => Ok(Ending::Done),
        // (the device has noted no fault of its own)
        Err(Error::Device) if faults.last().is_none() => Ok(Ending::Unread),
        Err(error) => why_unput(rt, names, &faults, error),
    }
}

// Why a put was refused: a fault, a rule, or a package that wasn't opened.
fn why_unput<R: Files<File = File> + AllocGlobal>(
    rt: &R,
    names: &Names,
    faults: &Faults,
    error: Error,
) -> Result<Ending, Failure> {
    match error {
        Error::Memory | Error::Device | Error::Failed | Error::Full => {
            Err(files::why_fault(rt, names, faults, failure_of(error)))
        }
        Error::InvalidInput | Error::AlreadyExists => Ok(Ending::Refused(error)),
        _ => match is_sound_at(rt, names) {
            Ok(_) => Ok(Ending::Refused(error)),
            Err(_) => Err(why_no_session(rt, names, error)),
        },
    }
}

// Tells of a stream that a table has its name, where one has: it isn't that table.
fn tell_table_of_name<R: Files<File = File> + AllocGlobal, E: Write>(
    rt: &R,
    names: &Names,
    stream: &str,
    err: &mut E,
) {
    let is_table = match package_at(rt, names) {
        Ok(package) => table_columns(&package, stream).is_some(),
        Err(_) => false,
    };
    if is_table {
        let named = names.named();
        let _ = writeln!(
            err,
            "msidb: {named}: the stream {stream} has the name of a table, which is left as it was; `msidb import` gives a table rows"
        );
    }
}

// Tells which rule refused a stream.
fn tell_refused<R: Files<File = File> + AllocGlobal, E: Write>(
    rt: &R,
    names: &Names,
    stream: &str,
    error: Error,
    err: &mut E,
) {
    let named = names.named();
    if error == Error::InvalidData {
        if matches!(is_sound_at(rt, names), Ok(false)) {
            tell_unsound(rt, names, err);
        }
        return;
    }
    tell_refused_stream(named, stream, error, err);
}

fn tell_refused_stream<E: Write>(named: &str, name: &str, error: Error, err: &mut E) {
    let _ = match error {
        Error::AlreadyExists => writeln!(err, "msidb: {named}: a storage has the name {name}"),
        _ if is_stream_name(name) => writeln!(
            err,
            "msidb: {named}: the file has too many bytes for a stream of this package"
        ),
        _ => writeln!(
            err,
            "msidb: {named}: no stream can have the name \"{name}\"; it has 1 to 62 letters, digits, _ and ., or up to 31 others, and no /, \\, : or !"
        ),
    };
}
