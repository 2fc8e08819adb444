//! Trees of siblings.
use crate::names::texts_at;
use cfb_medium::{Error, Timestamp};
use cfb_siblings::{Link, Place, find_entry, find_place, plan_removal, relink};
use cfb_tree::{CaseMapper, Color, DirEntry, ObjType, validate_name};
use serde_json::Value;
use std::alloc::Global;
use test_support::{Row, Subject, copy_of};

/// Answers calls on the entries of a tree, under the letters of ASCII.
#[derive(Drop)]
pub struct Siblings {
    letters: CaseMapper,
    entries: Vec<DirEntry>,
}

impl Siblings {
    /// Without entries.
    pub fn new(alloc: Global) -> Result<Siblings, Error> {
        Ok(Siblings {
            letters: CaseMapper::ascii(alloc)?,
            entries: Vec::new(alloc),
        })
    }
}

impl Subject for Siblings {
    fn answer(&mut self, alloc: Global, row: &Row) -> Result<String, Error> {
        match row.call() {
            "entries" => {
                self.entries = entries_of(alloc, row)?;
                copy_of(alloc, "done")
            }
            "place" => {
                let parent = id_of(row.number(1));
                let place = find_place(&self.letters, &self.entries, parent, row.text(2));
                Ok(format!(in alloc; "{place:?}")?)
            }
            "find" => {
                let names = texts_at(alloc, row, 1)?;
                let found = find_entry(&self.letters, &self.entries, &names);
                Ok(format!(in alloc; "{found:?}")?)
            }
            "insert" => {
                insert(&self.letters, &mut self.entries, row.text(1))?;
                children(alloc, &self.entries)
            }
            "remove" => {
                remove(&self.letters, &mut self.entries, row.text(1))?;
                children(alloc, &self.entries)
            }
            "links" => links_at(alloc, &self.entries, id_of(row.number(1))),
            "relink" => relink_storage(alloc, row),
            _ => Err(Error::NotFound),
        }
    }
}

// A number of an entry; without one, the number of none.
fn id_of(number: i64) -> u32 {
    u32::try_from(number).unwrap_or(0xFFFF_FFFF)
}

// A root with its child, and entries behind it: the name and the kind of each, its siblings and its child.
fn entries_of(alloc: Global, row: &Row) -> Result<Vec<DirEntry>, Error> {
    let mut entries = Vec::new(alloc);
    if row.cell(1).is_none() {
        return Ok(entries);
    }
    let mut root = DirEntry::empty_root_entry();
    root.child = id_of(row.number(1));
    entries.push(root)?;
    for cell in row.list(2) {
        entries.push(entry_of(cell)?)?;
    }
    Ok(entries)
}

fn entry_of(cell: &Value) -> Result<DirEntry, Error> {
    let kind = match cell.get(1).and_then(Value::as_str) {
        Some("storage") => ObjType::Storage,
        _ => ObjType::Stream,
    };
    let mut entry = lone_entry(cell.get(0).and_then(Value::as_str).unwrap_or(""), kind)?;
    let link = |place: usize| id_of(cell.get(place).and_then(Value::as_i64).unwrap_or(-1));
    entry.left_sibling = link(2);
    entry.right_sibling = link(3);
    entry.child = link(4);
    Ok(entry)
}

fn lone_entry(name: &str, kind: ObjType) -> Result<DirEntry, Error> {
    validate_name(name)?;
    Ok(DirEntry::new(name, kind, Timestamp::zero()))
}

fn set(entries: &mut [DirEntry], link: Link, target: u32) -> Result<(), Error> {
    let Some(entry) = entries.get_mut(link.holder() as usize) else {
        return Err(Error::InvalidData);
    };
    relink(entry, link, target);
    Ok(())
}

// Puts a stream among the root's children.
fn insert(letters: &CaseMapper, entries: &mut Vec<DirEntry>, name: &str) -> Result<(), Error> {
    let Some(Place::Free { link }) = find_place(letters, entries, 0, name) else {
        return Err(Error::AlreadyExists);
    };
    let Ok(id) = u32::try_from(entries.len()) else {
        return Err(Error::Full);
    };
    entries.push(lone_entry(name, ObjType::Stream)?)?;
    set(entries, link, id)
}

// Takes one of the root's children away.
fn remove(letters: &CaseMapper, entries: &mut Vec<DirEntry>, name: &str) -> Result<(), Error> {
    let Some(Place::Taken { link, id }) = find_place(letters, entries, 0, name) else {
        return Err(Error::NotFound);
    };
    let Some(removal) = plan_removal(entries, link, id) else {
        return Err(Error::InvalidData);
    };
    if let Some(joined) = removal.joined {
        set(entries, joined.link, joined.target)?;
    }
    set(entries, removal.replaced.link, removal.replaced.target)?;
    let Some(entry) = entries.get_mut(id as usize) else {
        return Err(Error::InvalidData);
    };
    *entry = DirEntry::unallocated();
    Ok(())
}

// The names of the root's children, in their order.
fn children(alloc: Global, entries: &[DirEntry]) -> Result<String, Error> {
    let mut names = copy_of(alloc, "children:")?;
    let mut waiting = Vec::new(alloc);
    let mut at = entries.first().map_or(0xFFFF_FFFF, |root| root.child);
    for _step in 0..64 {
        if let Some(entry) = entries.get(at as usize) {
            waiting.push(at)?;
            at = entry.left_sibling;
        } else if let Some(entry) = waiting.pop().and_then(|id| entries.get(id as usize)) {
            names.push(' ')?;
            names.push_str(entry.name(alloc)?.as_str())?;
            at = entry.right_sibling;
        }
    }
    Ok(names)
}

// The siblings and the child of an entry.
fn links_at(alloc: Global, entries: &[DirEntry], id: u32) -> Result<String, Error> {
    match entries.get(id as usize) {
        Some(entry) => links_text(alloc, entry),
        None => Err(Error::NotFound),
    }
}

fn links_text(alloc: Global, entry: &DirEntry) -> Result<String, Error> {
    let (left, right, child) = (entry.left_sibling, entry.right_sibling, entry.child);
    Ok(format!(in alloc; "left {left:x}, right {right:x}, child {child:x}")?)
}

// A red storage on its own after one of its links was set.
fn relink_storage(alloc: Global, row: &Row) -> Result<String, Error> {
    let holder = id_of(row.number(2));
    let link = match row.text(1) {
        "child" => Link::Child(holder),
        "left" => Link::Left(holder),
        _ => Link::Right(holder),
    };
    let mut entry = lone_entry("a", ObjType::Storage)?;
    entry.set_color(Color::Red);
    let before = entry.color();
    relink(&mut entry, link, id_of(row.number(3)));
    let after = entry.color();
    let links = links_text(alloc, &entry)?;
    Ok(format!(in alloc; "of {}: {before:?} {after:?}, {links}", link.holder())?)
}
