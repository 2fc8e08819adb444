//! Which file is taken for a log, and what it holds.
use crate::failures::Failure;
use crate::looks::trouble_at;
use crate::names::{Names, is_same_file};
use crate::troubles::Trouble;
use cfb_medium::{Error, ReadMedium};
use file_device::FileMedium;
use staged::is_log;
use std::fs::File;
use std::rt::Files;

/// What was found where the log of a package is.
#[derive(Clone, Copy, Debug, PartialEq, Eq)]
pub enum Found {
    /// No file.
    Missing,
    /// A log that holds nothing to be done.
    Closed,
    /// A file that begins as a closed log, and has none of a log's magics: what a crash left of a first commit, or any file.
    Doubtful,
    /// A log with a commit to finish.
    Open,
}

// The magics of both forms of a log ("When the power fails").
const FIRST_MAGIC: &[u8; 8] = b"MSISTG01";

const MAGIC: &[u8; 8] = b"MSISTG02";

/// What is found as the log of a package. A file that is none is refused, and so is the package itself. Nothing is written.
pub fn look_at_log<R: Files<File = File>>(rt: &R, names: &Names) -> Result<Found, Failure> {
    if names.package() == names.log() || is_same_file(rt, names.package(), names.log()) {
        return Err(Failure::Log(Trouble::Itself));
    }
    look_at(rt, names.log())
}

// What is found at a path.
fn look_at<R: Files<File = File>>(rt: &R, path: &str) -> Result<Found, Failure> {
    match trouble_at(rt, path) {
        None => {}
        Some(Trouble::Missing) => return Ok(Found::Missing),
        Some(trouble) => return Err(Failure::Log(trouble)),
    }
    match look_into(rt, path) {
        Ok(Some(found)) => Ok(found),
        Ok(None) => Err(Failure::Log(Trouble::NoLog)),
        Err(_) => Err(Failure::Log(Trouble::Unreadable)),
    }
}

/// Whether an open log stands at a path.
pub(crate) fn is_open_log<R: Files<File = File>>(rt: &R, path: &str) -> bool {
    matches!(look_at(rt, path), Ok(Found::Open))
}

// Looks into the file that is named as a log. None where it is no log.
fn look_into<R: Files<File = File>>(rt: &R, log: &str) -> Result<Option<Found>, Error> {
    let mut file = FileMedium::open(rt, log)?;
    if !may_be_log(&mut file)? {
        return Ok(None);
    }
    Ok(Some(found_in(&mut file)?))
}

// A function of its own, since what is told of the call costs time wherever it is seen.
fn may_be_log(file: &mut FileMedium) -> Result<bool, Error> {
    is_log(file)
}

// What a log holds: a commit where it has two bytes or more, and the first is 01.
fn found_in(file: &mut FileMedium) -> Result<Found, Error> {
    let mut gate = [0u8; 2];
    if file.read_at(0, &mut gate)? < 2 {
        return Ok(Found::Closed);
    }
    if gate[0] == 1 {
        return Ok(Found::Open);
    }
    let mut magic = [0u8; 8];
    let _ = file.read_at(1, &mut magic)?;
    Ok(if magic == *FIRST_MAGIC || magic == *MAGIC {
        Found::Closed
    } else {
        Found::Doubtful
    })
}
