//! What is told of a package that isn't sound, and is to be changed.
use crate::check::{is_of_texts, tell_pages_to_try};
use crate::packages::defects_at;
use package_files::Names;
use std::fs::File;
use std::io::Write;
use std::rt::Files;

/// Tells of a package that isn't sound that it isn't changed, and which word may make one of it that can be: where its texts are in the way, with
/// the code pages by which they seem to be written.
pub fn tell_unsound<R: Files<File = File> + AllocGlobal, E: Write>(
    rt: &R,
    names: &Names,
    err: &mut E,
) {
    let named = names.named();
    match defects_at(rt, names, None) {
        Ok(found) if is_of_texts(&found) => {
            let _ = writeln!(
                err,
                "msidb: {named}: the package isn't sound, so it isn't changed; `msidb check {named}` tells why"
            );
            tell_pages_to_try(rt, names, &found, err);
        }
        _ => {
            let _ = writeln!(
                err,
                "msidb: {named}: the package isn't sound, so it isn't changed; `msidb check {named}` tells why, `msidb adopt NEW {named}` may make a copy that can be changed, `msidb adopt --in-place {named}` may put it right where it lies"
            );
        }
    }
}
