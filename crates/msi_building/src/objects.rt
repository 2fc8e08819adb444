//! The objects of a compound file, as they are compared where pool and tables are written anew.
use cfb::{CompoundFile, Entry};
use cfb_medium::{Error, MemoryMedium};
use hex::encode;
use msi_texts::decode;
use sha2::{Digest, Sha256};
use std::alloc::Global;

/// An object of a compound file.
#[derive(Drop)]
pub(crate) struct Object {
    entry: Entry,
    // The SHA-256 of its bytes, where it is a stream and no table's.
    digest: Option<String>,
}

/// The objects of a compound file, each storage before what it holds.
pub(crate) fn objects_of(
    alloc: Global,
    file: &mut CompoundFile<MemoryMedium>,
) -> Result<Vec<Object>, Error> {
    let mut objects = Vec::new(alloc);
    for entry in entries_of(alloc, file)? {
        let digest = digest_of(alloc, file, &entry)?;
        objects.push(Object { entry, digest })?;
    }
    Ok(objects)
}

fn entries_of(alloc: Global, file: &CompoundFile<MemoryMedium>) -> Result<Vec<Entry>, Error> {
    let mut entries = Vec::new(alloc);
    for entry in file.walk()? {
        entries.push(entry)?;
    }
    Ok(entries)
}

fn digest_of(
    alloc: Global,
    file: &mut CompoundFile<MemoryMedium>,
    entry: &Entry,
) -> Result<Option<String>, Error> {
    if !entry.is_stream() || is_of_table(alloc, entry)? {
        return Ok(None);
    }
    let bytes = bytes_at(file, entry.path())?;
    Ok(Some(encode(alloc, &Sha256::digest(&bytes))?))
}

// A function of its own, since what is told of the call costs time wherever it is seen.
fn bytes_at(file: &mut CompoundFile<MemoryMedium>, path: &str) -> Result<Vec<u8>, Error> {
    file.read_stream(path)
}

// Whether an entry is a table's stream, or the pool's: it lies under the root, and its name is marked so.
fn is_of_table(alloc: Global, entry: &Entry) -> Result<bool, Error> {
    let (_name, is_table) = decode(alloc, entry.name())?;
    let is_under_root = entry.path().len() == entry.name().len().saturating_add(1);
    Ok(is_table && is_under_root)
}

/// Whether two compound files have the same objects, with the same facts of each and, but for streams of tables, the same bytes.
pub(crate) fn are_same_objects(some: &[Object], others: &[Object]) -> bool {
    some.len() == others.len()
        && some
            .iter()
            .zip(others.iter())
            .all(|(one, other)| is_same(one, other))
}

fn is_same(one: &Object, other: &Object) -> bool {
    is_same_entry(&one.entry, &other.entry) && one.digest == other.digest
}

// Whether two entries are alike in all but the bytes of a stream.
fn is_same_entry(one: &Entry, other: &Entry) -> bool {
    one.path() == other.path()
        && one.is_stream() == other.is_stream()
        && one.clsid() == other.clsid()
        && one.state_bits() == other.state_bits()
        && one.created() == other.created()
        && one.modified() == other.modified()
}
