//! Packages that are built of a folder.
use cfb::MemoryMedium;
use cfb_medium::Error;
use msi::Package;
use msi_building::{Said, built_package};
use msi_values::Value;
use package_files::{Names, Shown, tell, tell_error};
use package_imports::read_folder;
use package_reading::{columns_of, has_stream, package_at, rows_of};
use std::alloc::Global;
use std::fs::File;
use std::io::Write;
use std::rt::Files;

/// A sound package in memory that says what a folder does. Where there is none that is told, and the status is given: 1, 2 where a file is wrong,
/// 3 for a fault.
pub(crate) fn built_of<R: Files<File = File> + AllocGlobal + Clone + Drop, E: Write>(
    rt: &R,
    folder: &str,
    err: &mut E,
) -> Result<Package<MemoryMedium>, u8> {
    let said = read_folder(rt, folder, err)?;
    match built(rt.alloc(), &said) {
        Ok(package) => Ok(package),
        Err(Error::Memory) => {
            tell("out of memory", err);
            Err(3)
        }
        Err(error) if is_rule(error) => {
            let _ = writeln!(
                err,
                "msidb: {folder}: no sound package says what its files do ({error})"
            );
            Err(1)
        }
        Err(error) => {
            tell_error(folder, error, err);
            Err(3)
        }
    }
}

// Whether a rule refuses what is to be said.
fn is_rule(error: Error) -> bool {
    matches!(
        error,
        Error::InvalidData | Error::InvalidInput | Error::AlreadyExists | Error::Full
    )
}

fn built(alloc: Global, said: &Said) -> Result<Package<MemoryMedium>, Error> {
    built_package(alloc, said)
}

/// Tells of the first row of `Media` whose cabinet isn't among the streams, where there is one.
pub(crate) fn tell_missing_cabinets<R: Files<File = File> + AllocGlobal, E: Write>(
    rt: &R,
    names: &Names,
    err: &mut E,
) {
    let Ok(mut package) = package_at(rt, names) else {
        return;
    };
    if let Ok(Some(cabinet)) = missing_cabinet(rt.alloc(), &mut package) {
        let named = names.named();
        let _ = writeln!(
            err,
            "msidb: {named}: it has no stream {cabinet}, a cabinet that the table Media names; `msidb validate {named}` tells what is missing"
        );
    }
}

// The first cabinet that a row of `Media` names and that isn't there.
fn missing_cabinet(alloc: Global, package: &mut Package<Shown>) -> Result<Option<String>, Error> {
    let Some(place) = place_of_cabinets(package) else {
        return Ok(None);
    };
    for row in rows_of(alloc, package, MEDIA)? {
        if let Some(name) = cabinet_in(row.value(place)) {
            if !has_stream(package, name) {
                return Ok(Some(String::from_str(alloc, name)?));
            }
        }
    }
    Ok(None)
}

// The table of the media, and of the cabinets on them.
const MEDIA: &str = "Media";

fn place_of_cabinets(package: &Package<Shown>) -> Option<usize> {
    columns_of(package, MEDIA)
        .iter()
        .position(|column| column.name() == "Cabinet")
}

// The name of the stream in which a cabinet lies, where it lies in the package.
fn cabinet_in(value: Option<&Value>) -> Option<&str> {
    match value {
        Some(Value::Str(text)) => text.as_str().strip_prefix('#'),
        _ => None,
    }
}
