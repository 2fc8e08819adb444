//! Files of exported tables, read whole before a package is opened.
use crate::paths::{joined, parts_of_path, paths_at, tell_unread};
use idt_imports::{
    Imported, Refusal, Wants, check_limits, check_summary, read_file, text_of, wants_of,
};
use package_files::{tell, trouble_at};
use std::alloc::{AllocError, Global};
use std::collections::BTreeSet;
use std::fs::{self, File};
use std::io::Write;
use std::rt::Files;

/// A stream and its bytes.
#[derive(Drop)]
pub(crate) struct Bytes {
    pub(crate) stream: String,
    // None where the row names no file.
    pub(crate) content: Option<Vec<u8>>,
    // The path of that file.
    pub(crate) place: Option<String>,
}

/// A file: what it says, and the bytes that its rows name.
#[derive(Drop)]
pub struct Source {
    pub(crate) path: String,
    pub(crate) said: Imported,
    pub(crate) bytes: Vec<Bytes>,
}

/// What files are read for.
#[derive(Clone, Copy, Debug, PartialEq, Eq)]
enum Purpose {
    /// For commands: what no insert takes is refused.
    Import,
    /// For a package that holds just what they say.
    Build,
}

// The folder of streams that dumps of msitools have.
const STREAMS: &str = "_Streams";

// The line of the first row.
const FIRST_ROW: usize = 4;

/// What the files at these paths say, or of a folder each file of an exported table there. The first fault of one is told, with the file, its
/// line and its column, and the status is given: 2, or 3 for want of memory.
pub fn read_sources<R: Files<File = File> + AllocGlobal + Clone + Drop, E: Write>(
    rt: &R,
    paths: &[&str],
    err: &mut E,
) -> Result<Vec<Source>, u8> {
    let mut sources = Vec::new(rt.alloc());
    for path in paths {
        add_sources(rt, path, Purpose::Import, &mut sources, err)?;
    }
    each_once(rt.alloc(), sources, err)
}

/// The same of a folder of which a package is built.
pub(crate) fn read_sources_of<R: Files<File = File> + AllocGlobal + Clone + Drop, E: Write>(
    rt: &R,
    folder: &str,
    err: &mut E,
) -> Result<Vec<Source>, u8> {
    let mut sources = Vec::new(rt.alloc());
    add_sources(rt, folder, Purpose::Build, &mut sources, err)?;
    each_once(rt.alloc(), sources, err)
}

// Adds what the file at a path says, or each file of an exported table in the folder there.
fn add_sources<R: Files<File = File> + AllocGlobal + Clone + Drop, E: Write>(
    rt: &R,
    path: &str,
    purpose: Purpose,
    sources: &mut Vec<Source>,
    err: &mut E,
) -> Result<(), u8> {
    for path in paths_at(rt, path, err)? {
        let source = read_source(rt, path, purpose, err)?;
        if sources.push(source).is_err() {
            return Err(no_memory(err));
        }
    }
    Ok(())
}

// Refuses a file that says what another has said.
fn each_once<E: Write>(
    alloc: Global,
    sources: Vec<Source>,
    err: &mut E,
) -> Result<Vec<Source>, u8> {
    match second_of(alloc, &sources) {
        Ok(None) => Ok(sources),
        Ok(Some(source)) => {
            let path = &source.path;
            let what = what_of(source);
            let _ = writeln!(err, "msidb: {path}: another file says {what}, too");
            Err(2)
        }
        Err(_) => Err(no_memory(err)),
    }
}

// The first file that says of a table what another has said.
fn second_of(alloc: Global, sources: &[Source]) -> Result<Option<&Source>, AllocError> {
    let mut seen = BTreeSet::new(alloc);
    for source in sources {
        if !seen.insert(String::from_str(alloc, what_of(source))?)? {
            return Ok(Some(source));
        }
    }
    Ok(None)
}

// What a file is of.
fn what_of(source: &Source) -> &str {
    match &source.said {
        Imported::Table(table) => table.name.as_str(),
        Imported::Summary(_) => "_SummaryInformation",
        Imported::Page(_) => "_ForceCodepage",
    }
}

pub(crate) fn no_memory<E: Write>(err: &mut E) -> u8 {
    tell("out of memory", err);
    3
}

fn read_source<R: Files<File = File> + AllocGlobal, E: Write>(
    rt: &R,
    path: String,
    purpose: Purpose,
    err: &mut E,
) -> Result<Source, u8> {
    let content = match fs::read(rt, path.as_str()) {
        Ok(content) => content,
        Err(error) => return Err(tell_unread(&path, error.kind(), err)),
    };
    let said = match said_in(rt.alloc(), &content, purpose) {
        Ok(said) => said,
        Err(Refusal::Memory) => return Err(no_memory(err)),
        Err(Refusal::At(fault)) => {
            let _ = writeln!(err, "msidb: {path}: {fault}");
            return Err(2);
        }
    };
    let bytes = read_bytes(rt, &path, &said, err)?;
    Ok(Source { path, said, bytes })
}

// A function of its own, since what is told of the calls costs time wherever it is seen.
fn said_in(alloc: Global, content: &[u8], purpose: Purpose) -> Result<Imported, Refusal> {
    let text = text_of(alloc, content)?;
    let said = read_file(alloc, &text)?;
    if purpose == Purpose::Import {
        check(alloc, &said)?;
    }
    Ok(said)
}

// Refuses what commands can't make of a package.
fn check(alloc: Global, said: &Imported) -> Result<(), Refusal> {
    match said {
        Imported::Table(table) => check_limits(table),
        Imported::Summary(summary) => check_summary(alloc, summary),
        Imported::Page(_) => Ok(()),
    }
}

// The bytes that the rows of a table name.
fn read_bytes<R: Files<File = File> + AllocGlobal, E: Write>(
    rt: &R,
    path: &str,
    said: &Imported,
    err: &mut E,
) -> Result<Vec<Bytes>, u8> {
    let mut all = Vec::new(rt.alloc());
    let Imported::Table(table) = said else {
        return Ok(all);
    };
    let Ok(wants) = wants_of(rt.alloc(), table) else {
        return Err(no_memory(err));
    };
    for (at, want) in wants.into_iter().enumerate() {
        let bytes = bytes_of(rt, path, at.saturating_add(FIRST_ROW), want, err)?;
        if all.push(bytes).is_err() {
            return Err(no_memory(err));
        }
    }
    Ok(all)
}

// The bytes that the row of a line wants.
fn bytes_of<R: Files<File = File> + AllocGlobal, E: Write>(
    rt: &R,
    path: &str,
    line: usize,
    want: Wants,
    err: &mut E,
) -> Result<Bytes, u8> {
    let Wants {
        stream,
        file,
        column,
    } = want;
    let Some(file) = file else {
        return Ok(Bytes {
            stream,
            content: None,
            place: None,
        });
    };
    let (folder, stem) = parts_of_path(path);
    let found = match place_of(rt, folder, stem, &file) {
        Ok(found) => found,
        Err(_) => return Err(no_memory(err)),
    };
    let Some(place) = found else {
        let _ = writeln!(
            err,
            "msidb: {path}: line {line}, column {column}: {file} is neither in the folder {stem} nor in {STREAMS}"
        );
        return Err(2);
    };
    match fs::read(rt, place.as_str()) {
        Ok(content) => Ok(Bytes {
            stream,
            content: Some(content),
            place: Some(place),
        }),
        Err(error) => Err(tell_unread(&place, error.kind(), err)),
    }
}

// Where the file of a row's bytes lies: in the folder of the table, or in that of the streams.
fn place_of<R: Files<File = File> + AllocGlobal>(
    rt: &R,
    folder: &str,
    stem: &str,
    file: &str,
) -> Result<Option<String>, AllocError> {
    let own = joined(rt.alloc(), folder, stem)?;
    let own = joined(rt.alloc(), &own, file)?;
    if trouble_at(rt, &own).is_none() {
        return Ok(Some(own));
    }
    let dump = joined(rt.alloc(), folder, STREAMS)?;
    let dump = joined(rt.alloc(), &dump, file)?;
    if trouble_at(rt, &dump).is_none() {
        return Ok(Some(dump));
    }
    Ok(None)
}
