//! The tree of any compound file, a line of JSON for each object.
use crate::json::text_of_json;
use cfb::{Entries, Entry};
use cfb_medium::Error;
use msi_texts::decode;
use package_files::{Names, Output};
use package_reading::{class_of, entries_at};
use serde_json::{Value as Json, json};
use std::alloc::Global;
use std::fs::File;
use std::io::Write;
use std::rt::Files;

/// The objects of a compound file, each storage before what it holds, siblings in their order.
pub(crate) fn tree_at<R: Files<File = File> + AllocGlobal>(
    rt: &R,
    names: &Names,
) -> Result<Entries, Error> {
    entries_at(rt, names)
}

/// Writes a line for each object. `Device` where it can't be written.
pub(crate) fn write_tree<O: Write>(
    alloc: Global,
    entries: Entries,
    out: &mut Output<'_, O>,
) -> Result<(), Error> {
    for entry in entries {
        let line = text_of_json(alloc, &entry_value(alloc, &entry)?)?;
        out.line(&line)?;
    }
    Ok(())
}

// What is said of an object: of a stream its length, its name as packages decode it and whether that is a table's, of a storage its
// class.
fn entry_value(alloc: Global, entry: &Entry) -> Result<Json, Error> {
    let path = text_value(alloc, entry.path())?;
    if entry.is_stream() {
        let length = Json::from(entry.len());
        let (name, is_table) = decode(alloc, entry.name())?;
        let name = Json::String(name);
        return Ok(
            json!(in alloc; {"kind": "stream", "length": length, "name": name, "path": path, "table": is_table})?,
        );
    }
    let class = Json::String(class_of(alloc, entry)?);
    let kind = if entry.is_root() { "root" } else { "storage" };
    Ok(json!(in alloc; {"clsid": class, "kind": kind, "path": path})?)
}

fn text_value(alloc: Global, text: &str) -> Result<Json, Error> {
    Ok(Json::String(String::from_str(alloc, text)?))
}
