//! Answers about a package, a line each, with its file in front where several are looked at.
use cfb_medium::Error;
use package_files::Output;
use std::alloc::Global;
use std::io::{self, Write};

/// Where answers are written, and the file that stands in front of each.
#[derive(Drop)]
pub(crate) struct Answers<'a, O> {
    pub(crate) alloc: Global,
    pub(crate) file: Option<&'a str>,
    pub(crate) out: Output<'a, O>,
}

impl<'a, O: Write> Answers<'a, O> {
    /// Answers go there, with nothing in front.
    pub(crate) fn new(alloc: Global, out: &'a mut O) -> Self {
        Answers {
            alloc,
            file: None,
            out: Output::new(out),
        }
    }

    /// Writes a line. `Device` where it can't be written.
    pub(crate) fn line(&mut self, text: &str) -> Result<(), Error> {
        match self.file {
            Some(file) => self.out.line(&format!(in self.alloc; "{file}: {text}")?),
            None => self.out.line(text),
        }
    }

    /// Why a line couldn't be written, if one couldn't.
    pub(crate) fn broken(&self) -> Option<io::ErrorKind> {
        self.out.broken()
    }
}
