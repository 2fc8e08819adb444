//! Answers of a word that only reads, a line each.
ghost use Rattle.std.specs.Prelude.{◌≤◌};

use crate::troubles::{tell, tell_error};
use cfb_medium::Error;
use std::io::{self, Write};

/// Where answers are written, and why the first of them couldn't be.
#[derive(Drop)]
pub struct Output<'a, O> {
    out: &'a mut O,
    broken: Option<io::ErrorKind>,
}

impl<'a, O: Write> Output<'a, O> {
    /// Answers go there.
    pub fn new(out: &'a mut O) -> Self {
        Output { out, broken: None }
    }

    /// Writes a line. `Device` where it can't be written.
    pub fn line(&mut self, text: &str) -> Result<(), Error> {
        match writeln!(self.out, "{text}") {
            Ok(()) => Ok(()),
            Err(error) => {
                self.broken = Some(error.kind());
                Err(Error::Device)
            }
        }
    }

    /// Why a line couldn't be written, if one couldn't.
    pub fn broken(&self) -> Option<io::ErrorKind> {
        self.broken
    }
}

/// The status of a word that only reads, which has met an error: where nobody reads its answers any more, the one that it had so far, and
/// nothing is told; else 3, and what went wrong is told.
pub fn status_of_error<E: Write>(
    path: &str,
    error: Error,
    broken: Option<io::ErrorKind>,
    so_far: u8,
    err: &mut E,
) -> u8
    requires { so_far ≤ 3 }
    ensures { result ≤ 3 }
{
    match broken {
        Some(io::ErrorKind::BrokenPipe) => so_far,
        Some(kind) => {
            tell_unwritten(kind, err);
            3
        }
        None => {
            tell_error(path, error, err);
            3
        }
    }
}

/// Tells that answers can't be written.
pub fn tell_unwritten<E: Write>(kind: io::ErrorKind, err: &mut E) {
    match kind {
        io::ErrorKind::StorageFull | io::ErrorKind::QuotaExceeded => {
            tell("the answers can't be written: no space is left", err);
        }
        _ => tell("the answers can't be written", err),
    }
}
