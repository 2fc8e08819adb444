//! What a compound file holds, as a text.
use cfb::{CompoundFile, Entry};
use cfb_medium::{Error, ReadMedium};
use std::alloc::Global;
use test_support::runs;

/// Each object of the file, a storage before what it holds.
pub fn tree_of<F: ReadMedium>(alloc: Global, file: &CompoundFile<F>) -> Result<String, Error> {
    let mut text = String::new(alloc);
    for entry in file.walk()? {
        text.push_str(object_told(alloc, &entry)?.as_str())?;
    }
    Ok(text)
}

/// How many objects the file has, and how long the longest of their paths is.
pub fn count_of<F: ReadMedium>(alloc: Global, file: &CompoundFile<F>) -> Result<String, Error> {
    let objects = file.walk()?;
    let count = objects.len();
    let mut longest = 0;
    for entry in objects {
        longest = longest.max(entry.path().len());
    }
    Ok(format!(in alloc; "{count} objects, the longest path has {longest} bytes")?)
}

// An object: its path, a stream's length, a storage's times and class identifier, and state bits.
fn object_told(alloc: Global, entry: &Entry) -> Result<String, Error> {
    let (path, bits, len) = (entry.path(), entry.state_bits(), entry.len());
    if entry.is_stream() {
        return Ok(format!(in alloc; "{path} {len} {bits}, ")?);
    }
    let (made, changed) = (entry.created().to_unix().0, entry.modified().to_unix().0);
    let clsid = entry.clsid();
    Ok(format!(in alloc; "{path} {made} {changed} {clsid} {bits}, ")?)
}

/// The bytes of the stream at a path, as runs.
pub fn bytes_of<F: ReadMedium>(
    alloc: Global,
    file: &mut CompoundFile<F>,
    path: &str,
) -> Result<String, Error> {
    let mut bytes = Vec::new(alloc);
    let mut stream = file.open_read_stream(path)?;
    stream.read_to_end(&mut bytes)?;
    runs(alloc, &bytes)
}
