//! Why a word wasn't carried out, and how it is told.
use crate::names::Names;
use crate::output::tell_unwritten;
use crate::troubles::{Trouble, tell, tell_trouble};
use std::io::{self, Write};

/// Why a word wasn't carried out.
#[derive(Clone, Copy)]
pub enum Failure {
    /// The package's file is in the way.
    Package(Trouble),
    /// Its log is.
    Log(Trouble),
    /// An open log lies beside the name that was given, and the package has another one.
    OtherLog,
    /// Answers can't be written.
    Output(io::ErrorKind),
    /// There is no room.
    Memory,
}

/// Tells of a failure, with the name of the file and what to do.
pub fn tell_failure<E: Write>(names: &Names, failure: Failure, err: &mut E) {
    tell_failure_of(names.named(), Some(names.told_log()), failure, err);
}

/// Tells of a failure of files of which the names aren't known yet: by the paths that were given.
pub fn tell_failure_of<E: Write>(package: &str, log: Option<&str>, failure: Failure, err: &mut E) {
    match failure {
        Failure::Package(trouble) => tell_trouble(package, trouble, err),
        Failure::Log(trouble) => tell_trouble(log.unwrap_or(package), trouble, err),
        Failure::OtherLog => {
            let _ = writeln!(
                err,
                "msidb: {package}.log: it holds a commit that was cut short, and {package} is a link; `msidb recover --log {package}.log PACKAGE` with the path of the file itself finishes it, if it is of this package; else move it away"
            );
        }
        Failure::Output(kind) => tell_unwritten(kind, err),
        Failure::Memory => tell("out of memory", err),
    }
}
