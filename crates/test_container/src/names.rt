//! Names, paths and directory entries.
use cfb_medium::{Error, Timestamp, Version};
use cfb_sectors::Validation;
use cfb_tree::{
    CaseMapper, DirEntry, ObjType, compare_names, name_chain_from_path, name_key,
    path_from_name_chain, validate_name,
};
use serde_json::Value;
use std::alloc::Global;
use test_support::{Row, Subject, bytes_at, copy_of, hex_of};

/// Answers calls on names under one table of letters, and on one directory entry.
#[derive(Drop)]
pub struct Names {
    letters: CaseMapper,
    entry: DirEntry,
}

impl Names {
    /// Under the letters of ASCII.
    pub fn new(alloc: Global) -> Result<Names, Error> {
        Ok(Names {
            letters: CaseMapper::ascii(alloc)?,
            entry: DirEntry::unallocated(),
        })
    }
}

impl Subject for Names {
    fn answer(&mut self, alloc: Global, row: &Row) -> Result<String, Error> {
        match row.call() {
            "letters" => {
                self.letters = letters_of(alloc, row)?;
                copy_of(alloc, "done")
            }
            "key" => Ok(format!(in alloc; "{:?}", name_key(alloc, &self.letters, row.text(1))?)?),
            "compare" => {
                let order = compare_names(&self.letters, row.text(1), row.text(2));
                Ok(format!(in alloc; "{order:?}")?)
            }
            "new name" => {
                validate_name(row.text(1))?;
                copy_of(alloc, "done")
            }
            "chain" | "path" => of_path(alloc, row),
            "name" => Ok(format!(in alloc; "{:?}", self.entry.name(alloc)?)?),
            "write" => entry_bytes(alloc, &self.entry),
            _ => {
                self.entry = entry_of(alloc, row)?;
                entry_told(alloc, &self.entry)
            }
        }
    }
}

/// The texts of a cell.
pub fn texts_at<'a>(alloc: Global, row: &'a Row, place: usize) -> Result<Vec<&'a str>, Error> {
    let mut texts = Vec::new(alloc);
    for cell in row.list(place) {
        texts.push(cell.as_str().unwrap_or(""))?;
    }
    Ok(texts)
}

// A table of letters: pairs of a letter and what takes its place; the letters of ASCII, where there are none.
fn letters_of(alloc: Global, row: &Row) -> Result<CaseMapper, Error> {
    if row.list(1).is_empty() {
        return CaseMapper::ascii(alloc);
    }
    let mut pairs = Vec::new(alloc);
    for cell in row.list(1) {
        pairs.push((letter(cell, 0)?, letter(cell, 1)?))?;
    }
    CaseMapper::new(alloc, &pairs)
}

fn letter(cell: &Value, place: usize) -> Result<char, Error> {
    let text = cell.get(place).and_then(Value::as_str).unwrap_or("");
    text.chars().next().ok_or(Error::NotFound)
}

fn of_path(alloc: Global, row: &Row) -> Result<String, Error> {
    if row.call() == "chain" {
        return Ok(format!(in alloc; "{:?}", name_chain_from_path(alloc, row.text(1))?)?);
    }
    path_from_name_chain(alloc, &texts_at(alloc, row, 1)?)
}

// A new entry, or one that is read.
fn entry_of(alloc: Global, row: &Row) -> Result<DirEntry, Error> {
    match row.call() {
        "root" => Ok(DirEntry::empty_root_entry()),
        "unused" => Ok(DirEntry::unallocated()),
        "stream" => {
            let mut entry = new_entry(row.text(1), ObjType::Stream)?;
            entry.left_sibling = u32::try_from(row.number(2)).unwrap_or(0);
            entry.stream_len = u64::try_from(row.number(3)).unwrap_or(0);
            Ok(entry)
        }
        "storage" => new_entry(row.text(1), ObjType::Storage),
        "read 3" => entry_read(alloc, row, Version::V3),
        "read 4" => entry_read(alloc, row, Version::V4),
        _ => Err(Error::NotFound),
    }
}

fn new_entry(name: &str, obj_type: ObjType) -> Result<DirEntry, Error> {
    validate_name(name)?;
    Ok(DirEntry::new(name, obj_type, Timestamp::from_unix(0, 0)))
}

// The entry that bytes begin with: with none behind it, and where it is refused, with none taken.
fn entry_read(alloc: Global, row: &Row, version: Version) -> Result<DirEntry, Error> {
    let bytes = bytes_at(alloc, row, 1)?;
    let mut reader = bytes.as_slice();
    match DirEntry::read_from(&mut reader, version) {
        Ok(entry) if reader.is_empty() => Ok(entry),
        Err(error) if reader.len() == bytes.len() => Err(error),
        _ => Err(Error::Failed),
    }
}

fn entry_bytes(alloc: Global, entry: &DirEntry) -> Result<String, Error> {
    let mut bytes = Vec::new(alloc);
    entry.write_to(&mut bytes)?;
    hex_of(alloc, &bytes)
}

// What an entry tells, and where a strict and a lenient reader take it: below the root, and as the root.
fn entry_told(alloc: Global, entry: &DirEntry) -> Result<String, Error> {
    let (kind, color) = (entry.obj_type(), entry.color());
    let (left, len, start) = (entry.left_sibling, entry.stream_len, entry.start_sector);
    let (made, changed) = (entry.creation_time.to_unix(), entry.modified_time.to_unix());
    let (strict, lenient) = (Validation::Strict, Validation::Permissive);
    let below = (entry.is_taken_below(strict), entry.is_taken_below(lenient));
    let root = (
        entry.is_taken_as_root(strict),
        entry.is_taken_as_root(lenient),
    );
    let front = format!(in alloc; "{kind:?} {color:?}, left {left}, {len} bytes at {start}, ")?;
    let behind = format!(in alloc;
        "made {made:?}, changed {changed:?}, below {below:?}, root {root:?}"
    )?;
    Ok(format!(in alloc; "{front}{behind}")?)
}
