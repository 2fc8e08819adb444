//! The names of a package's tables and streams.
use crate::commands::{Ending, print_line};
use crate::failures::failure_of;
use cfb_medium::Error;
use installer::Answer;
use msi::Package;
use package_files::{Failure, Names, Shown, check_shown};
use package_reading::{package_as_named, streams_of, tables_of, trouble_of};
use std::alloc::Global;
use std::fs::File;
use std::io::Write;
use std::rt::Files;

/// Prints the names of the tables, and those of the streams that hold no tables, of a package as a recovery would leave it. It is only
/// read.
pub(crate) fn list<R: Files<File = File> + AllocGlobal, O: Write, E: Write>(
    rt: &R,
    names: &Names,
    out: &mut O,
    err: &mut E,
) -> Result<Ending, Failure> {
    check_shown(rt, names, err)?;
    match package_as_named(rt, names) {
        Ok(package) => print_names(rt.alloc(), &package, out),
        Err(Error::Memory) => Err(Failure::Memory),
        Err(error) => Err(Failure::Package(trouble_of(rt, names, error))),
    }
}

// Prints both lists, a line each.
fn print_names<O: Write>(
    alloc: Global,
    package: &Package<Shown>,
    out: &mut O,
) -> Result<Ending, Failure> {
    let tables = names_of_tables(alloc, package);
    print_list(alloc, tables, out)?;
    let streams = names_of_streams(alloc, package);
    print_list(alloc, streams, out)?;
    Ok(Ending::Done)
}

fn print_list<O: Write>(
    alloc: Global,
    names: Result<Vec<String>, Error>,
    out: &mut O,
) -> Result<(), Failure> {
    match names {
        Ok(names) => print_line(alloc, out, &Answer::Names(names)),
        Err(error) => Err(failure_of(error)),
    }
}

fn names_of_tables(alloc: Global, package: &Package<Shown>) -> Result<Vec<String>, Error> {
    let mut names = Vec::new(alloc);
    for name in tables_of(package)? {
        names.push(name)?;
    }
    Ok(names)
}

fn names_of_streams(alloc: Global, package: &Package<Shown>) -> Result<Vec<String>, Error> {
    let mut names = Vec::new(alloc);
    for name in streams_of(package)? {
        names.push(name)?;
    }
    Ok(names)
}
