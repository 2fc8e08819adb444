//! Paths of the files that are read.
use package_files::{Trouble, tell, tell_trouble, trouble_of_kind};
use std::alloc::{AllocError, Global};
use std::collections::BTreeSet;
use std::fs::{self, File};
use std::io::{self, Write};
use std::rt::Files;

// The end of the names of files that are read.
const ENDING: &str = ".idt";

/// The path itself, or of a folder those of its files of exported tables, in the order of their names. Where it can't be read that is told, and
/// the status is given.
pub(crate) fn paths_at<R: Files<File = File> + AllocGlobal + Clone + Drop, E: Write>(
    rt: &R,
    path: &str,
    err: &mut E,
) -> Result<Vec<String>, u8> {
    let found = match fs::metadata(rt, path) {
        Ok(metadata) if metadata.is_dir() => listed(rt, path),
        Ok(_) => alone(rt.alloc(), path),
        Err(error) => Err(error),
    };
    match found {
        Ok(paths) if paths.is_empty() => {
            let _ = writeln!(
                err,
                "msidb: {path}: no file of an exported table (.idt) is there"
            );
            Err(2)
        }
        Ok(paths) => Ok(paths),
        Err(error) => Err(tell_unread(path, error.kind(), err)),
    }
}

fn alone(alloc: Global, path: &str) -> io::Result<Vec<String>> {
    let mut paths = Vec::new(alloc);
    paths.push(String::from_str(alloc, path)?)?;
    Ok(paths)
}

fn listed<R: Files<File = File> + AllocGlobal + Clone + Drop>(
    rt: &R,
    folder: &str,
) -> io::Result<Vec<String>> {
    let alloc = rt.alloc();
    let mut names = BTreeSet::new(alloc);
    for entry in fs::read_dir(rt, folder)? {
        let entry = entry?;
        let name = entry.file_name();
        if name.ends_with(ENDING) {
            names.insert(String::from_str(alloc, name)?)?;
        }
    }
    let mut paths = Vec::new(alloc);
    for name in &names {
        paths.push(joined(alloc, folder, name)?)?;
    }
    Ok(paths)
}

/// A path in a folder.
pub(crate) fn joined(alloc: Global, folder: &str, name: &str) -> Result<String, AllocError> {
    let folder = folder.trim_end_matches('/');
    format!(in alloc; "{folder}/{name}")
}

/// The folder in which a file lies, and the file's name without its ending.
pub(crate) fn parts_of_path(path: &str) -> (&str, &str) {
    let (folder, name) = match path.rsplit_once('/') {
        Some((folder, name)) => (folder, name),
        None => (".", path),
    };
    match name.strip_suffix(ENDING) {
        Some(stem) => (folder, stem),
        None => (folder, name),
    }
}

/// Tells why a file wasn't read, and gives the status.
pub(crate) fn tell_unread<E: Write>(path: &str, kind: io::ErrorKind, err: &mut E) -> u8 {
    if kind == io::ErrorKind::OutOfMemory {
        tell("out of memory", err);
        return 3;
    }
    match trouble_of_kind(kind) {
        Trouble::Missing => tell_trouble(path, Trouble::Missing, err),
        trouble => tell_trouble(path, trouble, err),
    }
    2
}
