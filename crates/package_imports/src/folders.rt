//! An exported folder, as the package that it says.
use crate::paths::{joined, tell_unread};
use crate::sources::{Bytes, Source, no_memory, read_sources_of};
use idt_imports::{
    IdtTable, Imported, Refusal, check_page, check_summary_page, stored_columns, stored_rows,
};
use msi_building::{Said, SaidStream, SaidTable};
use msi_export::safe_name;
use msi_props::PropertyValue;
use msi_texts::CodePage;
use std::alloc::{AllocError, AllocFailed, Global};
use std::collections::{BTreeMap, BTreeSet};
use std::fs::{self, File};
use std::io::{self, Write};
use std::rt::Files;

// The folder of streams that no cell names.
const STREAMS: &str = "_Streams";

/// The package that the files of a folder say. The first fault of one is told, with the file, its line and its column, and the status is given:
/// 2, or 3 for want of memory.
pub fn read_folder<R: Files<File = File> + AllocGlobal + Clone + Drop, E: Write>(
    rt: &R,
    folder: &str,
    err: &mut E,
) -> Result<Said, u8> {
    if fs::metadata(rt, folder).is_ok() && !is_folder(rt, folder) {
        let _ = writeln!(err, "msidb: {folder}: it is no folder");
        return Err(2);
    }
    let sources = read_sources_of(rt, folder, err)?;
    let mut reading = Reading::new(rt.alloc());
    for source in sources {
        if let Err(why) = reading.add(source) {
            return Err(tell_why(why, err));
        }
    }
    add_streams(rt, folder, &mut reading, err)?;
    said_by(rt.alloc(), reading, err)
}

// Why a file isn't taken.
#[derive(Drop)]
enum Why {
    Memory,
    // With its path, and the name of a stream.
    SameStream(String, String),
    // With its path.
    Wrong(String, Refusal),
}

impl From<AllocError> for Why {
    fn from(_: AllocError) -> Why {
        Why::Memory
    }
}

impl<T: Drop> From<AllocFailed<T>> for Why {
    fn from(_: AllocFailed<T>) -> Why {
        Why::Memory
    }
}

fn tell_why<E: Write>(why: Why, err: &mut E) -> u8 {
    match why {
        Why::Memory => no_memory(err),
        Why::Wrong(path, refusal) => tell_refusal(&path, refusal, err),
        Why::SameStream(path, stream) => {
            let _ = writeln!(
                err,
                "msidb: {path}: another file of the folder has other bytes for the stream {stream}"
            );
            2
        }
    }
}

// What was read so far.
#[derive(Drop)]
struct Reading {
    alloc: Global,
    page: Option<CodePage>,
    properties: Vec<(u32, PropertyValue)>,
    // Each table with the path of its file.
    tables: Vec<(String, IdtTable)>,
    streams: Vec<SaidStream>,
    // The places of streams among these, by their names.
    places: BTreeMap<String, usize>,
    // The paths of files whose bytes a row has.
    taken: BTreeSet<String>,
}

impl Reading {
    fn new(alloc: Global) -> Reading {
        Reading {
            alloc,
            page: None,
            properties: Vec::new(alloc),
            tables: Vec::new(alloc),
            streams: Vec::new(alloc),
            places: BTreeMap::new(alloc),
            taken: BTreeSet::new(alloc),
        }
    }

    // Adds what a file says.
    fn add(&mut self, source: Source) -> Result<(), Why> {
        let Source { path, said, bytes } = source;
        match said {
            Imported::Page(page) => self.page = Some(page),
            Imported::Summary(summary) => {
                if let Err(refusal) = check_summary_page(&summary) {
                    return Err(Why::Wrong(path, refusal));
                }
                self.properties = summary.properties;
            }
            Imported::Table(table) => {
                for it in bytes {
                    self.add_bytes(&path, it)?;
                }
                self.tables.push((path, table))?;
            }
        }
        Ok(())
    }

    // Adds the bytes of a row.
    fn add_bytes(&mut self, path: &str, it: Bytes) -> Result<(), Why> {
        let Bytes {
            stream,
            place,
            content,
        } = it;
        let Some(bytes) = content else {
            return Ok(());
        };
        if let Some(place) = place {
            self.taken.insert(place)?;
        }
        self.add_stream(path, stream, bytes)
    }

    // Adds a stream, where none has its name but one of the same bytes.
    fn add_stream(&mut self, path: &str, name: String, bytes: Vec<u8>) -> Result<(), Why> {
        if let Some(place) = self.places.get(&name) {
            return match self.streams.get(*place) {
                Some(stream) if stream.bytes == bytes => Ok(()),
                _ => Err(Why::SameStream(String::from_str(self.alloc, path)?, name)),
            };
        }
        self.places.insert(name.clone()?, self.streams.len())?;
        self.streams.push(SaidStream { name, bytes })?;
        Ok(())
    }
}

// Adds the files of the folder of streams that no row names; those of a summary and of a signature, which dumps of msitools have, are passed
// over.
fn add_streams<R: Files<File = File> + AllocGlobal + Clone + Drop, E: Write>(
    rt: &R,
    folder: &str,
    reading: &mut Reading,
    err: &mut E,
) -> Result<(), u8> {
    let Ok(streams) = joined(rt.alloc(), folder, STREAMS) else {
        return Err(no_memory(err));
    };
    if !is_folder(rt, &streams) {
        return Ok(());
    }
    let names = match names_in(rt, &streams) {
        Ok(names) => names,
        Err(error) => return Err(tell_unread(&streams, error.kind(), err)),
    };
    for name in &names {
        add_file(rt, &streams, name, reading, err)?;
    }
    Ok(())
}

fn is_folder<R: Files<File = File>>(rt: &R, path: &str) -> bool {
    match fs::metadata(rt, path) {
        Ok(metadata) => metadata.is_dir(),
        Err(_) => false,
    }
}

fn names_in<R: Files<File = File> + AllocGlobal + Clone + Drop>(
    rt: &R,
    folder: &str,
) -> io::Result<BTreeSet<String>> {
    let alloc = rt.alloc();
    let mut names = BTreeSet::new(alloc);
    for entry in fs::read_dir(rt, folder)? {
        let entry = entry?;
        let name = entry.file_name();
        if !name.starts_with('\u{5}') {
            names.insert(String::from_str(alloc, name)?)?;
        }
    }
    Ok(names)
}

fn add_file<R: Files<File = File> + AllocGlobal, E: Write>(
    rt: &R,
    folder: &str,
    file: &str,
    reading: &mut Reading,
    err: &mut E,
) -> Result<(), u8> {
    let Ok(path) = joined(rt.alloc(), folder, file) else {
        return Err(no_memory(err));
    };
    if reading.taken.contains(path.as_str()) {
        return Ok(());
    }
    let bytes = match fs::read(rt, path.as_str()) {
        Ok(bytes) => bytes,
        Err(error) => return Err(tell_unread(&path, error.kind(), err)),
    };
    let added = match name_of_file(rt.alloc(), file) {
        Ok(name) => reading.add_stream(&path, name, bytes),
        Err(_) => Err(Why::Memory),
    };
    match added {
        Ok(()) => Ok(()),
        Err(why) => Err(tell_why(why, err)),
    }
}

// The name whose safe one a file has; else the file's.
fn name_of_file(alloc: Global, file: &str) -> Result<String, AllocError> {
    let mut bytes = Vec::new(alloc);
    let mut left = file.as_bytes();
    while let [first, rest @ ..] = left {
        left = match (first, rest) {
            (b'%', [high, low, behind @ ..]) => {
                bytes.push(sixteen(*high).wrapping_mul(16).wrapping_add(sixteen(*low)))?;
                behind
            }
            _ => {
                bytes.push(*first)?;
                rest
            }
        };
    }
    let name = match String::from_utf8(bytes) {
        Ok(name) => name,
        Err(_) => return String::from_str(alloc, file),
    };
    match safe_name(alloc, &name) {
        Ok(safe) if *safe.as_str() == *file => Ok(name),
        _ => String::from_str(alloc, file),
    }
}

// The value of a digit of 16.
fn sixteen(digit: u8) -> u8 {
    match digit {
        b'0'..=b'9' => digit.saturating_sub(b'0'),
        b'A'..=b'F' => digit.saturating_sub(b'A').saturating_add(10),
        _ => 0,
    }
}

// The package that was read. Where its code page lacks a text, that is told.
fn said_by<E: Write>(alloc: Global, reading: Reading, err: &mut E) -> Result<Said, u8> {
    let page = match reading.page {
        Some(page) => page,
        None => CodePage::Utf8,
    };
    for (path, table) in &reading.tables {
        if let Err(refusal) = check_page(table, page) {
            return Err(tell_refusal(path, refusal, err));
        }
    }
    match said_under(alloc, page, reading) {
        Ok(said) => Ok(said),
        Err(_) => Err(no_memory(err)),
    }
}

fn tell_refusal<E: Write>(path: &str, refusal: Refusal, err: &mut E) -> u8 {
    match refusal {
        Refusal::Memory => no_memory(err),
        Refusal::At(fault) => {
            let _ = writeln!(err, "msidb: {path}: {fault}");
            2
        }
    }
}

fn said_under(
    alloc: Global,
    codepage: CodePage,
    reading: Reading,
) -> Result<Said, cfb_medium::Error> {
    let mut tables = Vec::new(alloc);
    for (_, table) in &reading.tables {
        tables.push(SaidTable {
            name: table.name.clone()?,
            columns: stored_columns(alloc, table)?,
            rows: stored_rows(alloc, table)?,
        })?;
    }
    Ok(Said {
        codepage,
        tables,
        properties: reading.properties,
        streams: reading.streams,
    })
}
