//! Why commands of a run are refused by rule, as it is told.
use crate::unfit::KnownPages;
use cfb_medium::Error;
use command_reasons::{KnownTables, Spoken, reason_of};
use installer::Command;
use msi::Package;
use package_files::{Names, Shown};
use package_reading::{package_at, tables_of};
use std::alloc::Global;
use std::fs::File;
use std::io::Write;
use std::rt::Files;

/// What is known of a package before a run: nothing where it can't be read.
#[derive(Drop)]
pub(crate) struct Before {
    /// Its tables.
    pub tables: Option<KnownTables>,
    /// Its code pages.
    pub pages: Option<KnownPages>,
}

impl Before {
    /// Nothing.
    pub(crate) fn nothing() -> Before {
        Before {
            tables: None,
            pages: None,
        }
    }
}

/// What is known of a package before a run, with its tables or without.
pub(crate) fn known_before<R: Files<File = File> + AllocGlobal>(
    rt: &R,
    names: &Names,
    with_tables: bool,
) -> Before {
    match package_at(rt, names) {
        Ok(package) => known_of(rt.alloc(), &package, with_tables),
        Err(_) => Before::nothing(),
    }
}

fn known_of(alloc: Global, package: &Package<Shown>, with_tables: bool) -> Before {
    Before {
        tables: if with_tables {
            tables_in(alloc, package)
        } else {
            None
        },
        pages: Some(KnownPages::of(package)),
    }
}

/// The tables of a package; none where they can't be read.
pub(crate) fn known_tables<R: Files<File = File> + AllocGlobal>(
    rt: &R,
    names: &Names,
) -> Option<KnownTables> {
    match package_at(rt, names) {
        Ok(package) => tables_in(rt.alloc(), &package),
        Err(_) => None,
    }
}

fn tables_in(alloc: Global, package: &Package<Shown>) -> Option<KnownTables> {
    let mut known = KnownTables::new(alloc);
    match add_tables(package, &mut known) {
        Ok(()) => Some(known),
        Err(_) => None,
    }
}

fn add_tables(package: &Package<Shown>, known: &mut KnownTables) -> Result<(), Error> {
    for name in tables_of(package)? {
        add_table(package, known, name.as_str())?;
    }
    Ok(())
}

// A function of its own, since what is told of the call costs time wherever it is seen.
fn add_table(package: &Package<Shown>, known: &mut KnownTables, name: &str) -> Result<(), Error> {
    match package.get_table(name) {
        Some(table) => known.add(name, table.columns()),
        None => Ok(()),
    }
}

/// Tells why a rule refused a command of this number, where that is known.
pub(crate) fn tell_reason<E: Write>(
    alloc: Global,
    path: &str,
    number: usize,
    known: &KnownTables,
    command: &Command,
    error: Error,
    err: &mut E,
) {
    if let Ok(Some(reason)) = reason_of(alloc, known, command, error) {
        let spoken = Spoken { command };
        let _ = writeln!(err, "msidb: {path}: command {number} ({spoken}): {reason}");
    }
}
