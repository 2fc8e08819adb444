//! Names of a package that are spelled nearly as one that isn't there, and how that is told.
use command_places::are_near;
use msi::Package;
use package_files::Shown;
use package_reading::{streams_of, tables_of};
use std::io::Write;

// Tells that a package has no table of a name.
pub(crate) fn tell_no_table<E: Write>(
    path: &str,
    package: &Package<Shown>,
    name: &str,
    err: &mut E,
) {
    let near = table_near(package, name);
    tell_none(path, "table", name, near.as_deref(), err);
}

// Tells that it has no stream of a name.
pub(crate) fn tell_no_stream<E: Write>(
    path: &str,
    package: &Package<Shown>,
    name: &str,
    err: &mut E,
) {
    let near = stream_near(package, name);
    tell_none(path, "stream", name, near.as_deref(), err);
}

fn tell_none<E: Write>(path: &str, kind: &str, name: &str, near: Option<&str>, err: &mut E) {
    let _ = match near {
        Some(near) => writeln!(
            err,
            "msidb: {path}: no {kind} {name} (case counts); there is {near}"
        ),
        None => writeln!(
            err,
            "msidb: {path}: no {kind} {name} (case counts); `msidb list` tells the names"
        ),
    };
}

// A table whose name is spelled nearly so.
fn table_near(package: &Package<Shown>, name: &str) -> Option<String> {
    for other in tables_of(package).ok()? {
        if are_near(&other, name) {
            return Some(other);
        }
    }
    None
}

// A stream whose name is spelled nearly so.
fn stream_near(package: &Package<Shown>, name: &str) -> Option<String> {
    for other in streams_of(package).ok()? {
        if are_near(&other, name) {
            return Some(other);
        }
    }
    None
}
