//! Names of fields of the summary that are none, and how that is told.
use command_places::{Names, are_near};
use msi_export::property_name;
use std::io::Write;

/// Tells that no summary has a field of a name, and what it is called, which one is near, or what fields there are.
pub fn tell_no_field<E: Write>(path: &str, name: &str, err: &mut E) {
    let _ = write!(err, "msidb: {path}: no summary has a field {name}; ");
    let _ = match (called(name), near(name)) {
        (Some(field), _) => writeln!(err, "it is called {field} here"),
        (None, Some(field)) => writeln!(err, "perhaps {field} is meant"),
        (None, None) => {
            tell_fields(err);
            Ok(())
        }
    };
}

// What the field is called that `show` prints under this name.
fn called(name: &str) -> Option<&'static str> {
    for &(number, field) in FIELDS {
        match property_name(number) {
            Some(other) if other.eq_ignore_ascii_case(name) => return Some(field),
            _ => {}
        }
    }
    None
}

// The numbers of the properties, and the fields that stand in them.
const FIELDS: &[(u32, &str)] = &[
    (1, "codepage"),
    (2, "title"),
    (3, "subject"),
    (4, "author"),
    (5, "keywords"),
    (6, "comments"),
    (7, "arch and languages"),
    (8, "last_saved_by"),
    (9, "uuid"),
    (11, "last_printed"),
    (12, "creation_time"),
    (13, "last_saved_time"),
    (14, "page_count"),
    (15, "word_count"),
    (16, "character_count"),
    (18, "creating_application"),
    (19, "doc_security"),
];

fn near(name: &str) -> Option<&'static str> {
    for &field in Names::Fields.all() {
        if are_near(field, name) {
            return Some(field);
        }
    }
    None
}

fn tell_fields<E: Write>(err: &mut E) {
    let _ = write!(err, "there are");
    let mut mark = "";
    for field in Names::Fields.all() {
        let _ = write!(err, "{mark} {field}");
        mark = ",";
    }
    let _ = writeln!(err, "");
}
