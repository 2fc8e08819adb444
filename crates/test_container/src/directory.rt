//! Directories of files in memory.
use crate::chains::{open_sectors, version_at};
use crate::names::texts_at;
use cfb_directory::{Directory, EntryChange};
use cfb_medium::{Error, MemoryMedium, Timestamp};
use cfb_sectors::{NewSector, SectorInit, Validation};
use cfb_tree::{CaseMapper, ObjType};
use std::alloc::Global;
use test_support::{Row, Subject, copy_of, part_of, yes_or_no};
use uuid::Uuid;

/// Answers calls on the directory of a file in memory, under the letters of ASCII.
#[derive(Drop)]
pub struct Directories {
    letters: CaseMapper,
    directory: Option<Directory<MemoryMedium>>,
}

impl Directories {
    /// Without a file.
    pub fn new(alloc: Global) -> Result<Directories, Error> {
        Ok(Directories {
            letters: CaseMapper::ascii(alloc)?,
            directory: None,
        })
    }
}

impl Subject for Directories {
    fn answer(&mut self, alloc: Global, row: &Row) -> Result<String, Error> {
        if row.call() == "strict" || row.call() == "lenient" {
            self.directory = Some(directory_of(alloc, &self.letters, row)?);
        }
        match &mut self.directory {
            Some(directory) => of_directory(alloc, &self.letters, directory, row),
            None => Err(Error::NotFound),
        }
    }
}

/// The directory of a file, which begins in its sector 1, as a reader of the row's name takes it.
pub fn directory_of(
    alloc: Global,
    letters: &CaseMapper,
    row: &Row,
) -> Result<Directory<MemoryMedium>, Error> {
    let validation = validation_of(row.call());
    Directory::new(alloc, open_sectors(alloc, row)?, letters, validation, 1).map_err(
        |refused| refused.1,
    )
}

/// How a reader of this name reads.
pub fn validation_of(name: &str) -> Validation {
    if name == "strict" {
        Validation::Strict
    } else {
        Validation::Permissive
    }
}

fn of_directory(
    alloc: Global,
    letters: &CaseMapper,
    directory: &mut Directory<MemoryMedium>,
    row: &Row,
) -> Result<String, Error> {
    match row.call() {
        "find" | "has" | "bytes" => find_entry(alloc, letters, directory, row),
        "insert" => {
            let id = insert_entry(letters, directory, row)?;
            Ok(format!(in alloc; "{id}")?)
        }
        "begin" => {
            let start = directory
                .allocator_mut()
                .begin_chain(NewSector::Init(SectorInit::Zero))?;
            Ok(format!(in alloc; "{start}")?)
        }
        "strict" | "lenient" | "tell" => {
            directory_told(alloc, directory, version_at(row, 1) == directory.version())
        }
        _ => {
            change_entry(letters, directory, row)?;
            copy_of(alloc, "done")
        }
    }
}

fn find_entry(
    alloc: Global,
    letters: &CaseMapper,
    directory: &Directory<MemoryMedium>,
    row: &Row,
) -> Result<String, Error> {
    match row.call() {
        "find" => {
            let names = texts_at(alloc, row, 1)?;
            let found = directory.stream_id_for_name_chain(letters, &names);
            Ok(format!(in alloc; "{found:?}")?)
        }
        "has" => yes_or_no(alloc, directory.has_dir_entry(id_at(row))),
        _ => part_of(alloc, directory.inner().bytes(), row),
    }
}

fn insert_entry(
    letters: &CaseMapper,
    directory: &mut Directory<MemoryMedium>,
    row: &Row,
) -> Result<u32, Error> {
    let kind = kind_of(row.text(3));
    directory.insert_dir_entry(letters, id_at(row), row.text(2), kind, Timestamp::zero())
}

fn change_entry(
    letters: &CaseMapper,
    directory: &mut Directory<MemoryMedium>,
    row: &Row,
) -> Result<(), Error> {
    match row.call() {
        "remove" => directory.remove_dir_entry(letters, id_at(row), row.text(2)),
        "change" => entry_changed(directory, row),
        "commit" => {
            directory.flush()?;
            directory.commit()
        }
        _ => Err(Error::NotFound),
    }
}

fn id_at(row: &Row) -> u32 {
    u32::try_from(row.number(1)).unwrap_or(0)
}

fn kind_of(name: &str) -> ObjType {
    match name {
        "storage" => ObjType::Storage,
        _ => ObjType::Stream,
    }
}

fn directory_told(
    alloc: Global,
    directory: &Directory<MemoryMedium>,
    is_version: bool,
) -> Result<String, Error> {
    let root = directory.root_dir_entry();
    let (child, len) = (root.child, root.stream_len);
    let (each, failed) = (directory.sector_len(), directory.has_failed());
    let orderly = directory.allocator().is_orderly();
    let front = format!(in alloc; "child {child:x}, mini stream of {len}, sectors of {each}")?;
    Ok(format!(in alloc; "{front}, version {is_version}, failed {failed}, orderly {orderly}")?)
}

// Changes an entry that is there; the root, where the number is negative.
fn entry_changed(directory: &mut Directory<MemoryMedium>, row: &Row) -> Result<(), Error> {
    let change = change_of(row);
    if row.number(1) < 0 {
        return directory.with_root_dir_entry_mut(change);
    }
    let id = id_at(row);
    if !directory.has_dir_entry(id) {
        return Err(Error::NotFound);
    }
    directory.with_dir_entry_mut(id, change)
}

fn change_of(row: &Row) -> EntryChange {
    let number = row.number(3);
    match row.text(2) {
        "state" => EntryChange::StateBits(u32::try_from(number).unwrap_or(0)),
        "class" => EntryChange::ClassId(Uuid::parse_str(row.text(3)).unwrap_or(Uuid::nil())),
        "created" => EntryChange::Created(Timestamp::zero()),
        "modified" => EntryChange::Modified(Timestamp::zero()),
        _ => EntryChange::Place {
            start_sector: u32::try_from(number).unwrap_or(0),
            stream_len: u64::try_from(row.number(4)).unwrap_or(0),
        },
    }
}
