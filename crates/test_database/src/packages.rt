//! The package that rows are about.
use crate::calls::{
    Stored, commit, copy_of, create, flush, has_stream, is_sound, left_of, medium_of, open,
    roll_back, told_stream,
};
use crate::pieces::write_pieces;
use crate::runs::{answers_alike, run_commands, spare_sectors};
use crate::said::written;
use cfb::CaseMapper;
use cfb_medium::Error;
use std::alloc::Global;
use std::fs;
use test_support::{Row, Subject, Survivor, yes_or_no};

/// A package of a file beside the rows, or a new one.
#[derive(Drop)]
pub struct Packages<'a> {
    rt: &'a HostRuntime,
    package: Option<Stored>,
}

impl<'a> Packages<'a> {
    /// Without a package.
    pub fn new(rt: &'a HostRuntime) -> Packages<'a> {
        Packages { rt, package: None }
    }

    // Opens a file beside the rows, under the letters of a row.
    fn open_file(&mut self, alloc: Global, row: &Row) -> Result<String, Error> {
        let bytes = match fs::read(self.rt, row.text(1)) {
            Ok(bytes) => bytes,
            Err(_) => return Err(Error::NotFound),
        };
        let letters = letters_of(alloc, row)?;
        self.take(alloc, open(alloc, medium_of(alloc, &bytes)?, letters))
    }

    // Goes on with what a crash leaves, opened again.
    fn open_again(&mut self, alloc: Global) -> Result<String, Error> {
        match self.package.take() {
            Some(package) => self.open(alloc, left_of(package)?),
            None => Err(Error::NotFound),
        }
    }

    // Goes on with a copy.
    fn copy(&mut self, alloc: Global) -> Result<String, Error> {
        let copy = match &mut self.package {
            Some(package) => copy_of(alloc, package)?,
            None => return Err(Error::NotFound),
        };
        self.open(alloc, copy)
    }

    fn open(&mut self, alloc: Global, medium: Survivor) -> Result<String, Error> {
        self.take(alloc, open(alloc, medium, CaseMapper::ascii(alloc)?))
    }

    // Goes on with a package, and tells whether it is sound.
    fn take(&mut self, alloc: Global, made: Result<Stored, Error>) -> Result<String, Error> {
        let package = made?;
        let is_sound = is_sound(&package);
        self.package = Some(package);
        yes_or_no(alloc, is_sound)
    }
}

// The case table of the pair that stands behind a row's path, or that of a to z.
fn letters_of(alloc: Global, row: &Row) -> Result<CaseMapper, Error> {
    let pair = (row.text(2).chars().next(), row.text(3).chars().next());
    match pair {
        (Some(small), Some(capital)) => Ok(CaseMapper::new(alloc, &[(small, capital)])?),
        _ => Ok(CaseMapper::ascii(alloc)?),
    }
}

impl Subject for Packages<'_> {
    fn answer(&mut self, alloc: Global, row: &Row) -> Result<String, Error> {
        match row.call() {
            "open" => self.open_file(alloc, row),
            "new" => self.take(alloc, create(alloc)),
            "again" => self.open_again(alloc),
            "copy" => self.copy(alloc),
            "alike" => answers_alike(alloc, row),
            "written" => written(alloc, row),
            _ => match &mut self.package {
                Some(package) => answer_of(alloc, package, row),
                None => Err(Error::NotFound),
            },
        }
    }
}

// What a package answers to a row.
fn answer_of(alloc: Global, package: &mut Stored, row: &Row) -> Result<String, Error> {
    match row.call() {
        "there" => return yes_or_no(alloc, has_stream(package, row.text(1))),
        "read" => return told_stream(alloc, package, row.text(1)),
        "run" => return run_commands(alloc, package, row),
        "spare" => {
            let copy = copy_of(alloc, package)?;
            return Ok(format!(in alloc; "{}", spare_sectors(alloc, copy)?)?);
        }
        "pieces" => write_pieces(alloc, package, row)?,
        "flush" => flush(package)?,
        "commit" => commit(package)?,
        "back" => roll_back(package)?,
        _ => return Err(Error::InvalidInput),
    }
    Ok(String::from_str(alloc, "done")?)
}
