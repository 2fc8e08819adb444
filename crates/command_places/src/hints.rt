//! Which keys a command has, where one of its own is unknown or missing.
use crate::names::write_names;
use crate::near::{are_near, near_among};
use serde_json::Value as Json;
use std::fmt;

/// What helps with a key that is unknown or missing.
#[derive(Clone, Copy, Drop)]
pub enum Hint<'a> {
    /// This key is meant, perhaps.
    Near(&'static str),
    /// These are the keys.
    All(&'static [&'static str]),
    /// This key stands there, and is spelled nearly so.
    There(&'a str),
}

impl<'a> fmt::Display for Hint<'a> {
    fn fmt<W: fmt::Write>(&self, f: &mut fmt::Formatter<W>) -> fmt::Result {
        match self {
            Hint::Near(key) => write!(f, "perhaps \"{key}\" is meant"),
            Hint::All(keys) => write_all(keys, f),
            Hint::There(key) => write!(f, "there is {key:?}"),
        }
    }
}

fn write_all<W: fmt::Write>(
    keys: &'static [&'static str],
    f: &mut fmt::Formatter<W>,
) -> fmt::Result {
    f.write_str("it takes ")?;
    write_names(keys, f)?;
    f.write_str(if keys.len() == 1 { " alone" } else { "" })
}

/// What helps where a command has a key that its op doesn't know. None where the op is no op.
pub fn hint_of_unknown(command: &Json, key: &str) -> Option<Hint<'static>> {
    let keys = keys_of(command.get("op")?.as_str()?)?;
    match near_among(keys, key) {
        Some(near) => Some(Hint::Near(near)),
        None => Some(Hint::All(keys)),
    }
}

/// What helps where a command lacks a key. None where none of its keys is spelled nearly so.
pub fn hint_of_missing<'a>(command: &'a Json, key: &str) -> Option<Hint<'a>> {
    for (other, _) in command.as_object()? {
        if are_near(other.as_str(), key) {
            return Some(Hint::There(other.as_str()));
        }
    }
    None
}

// The keys of an op.
fn keys_of(op: &str) -> Option<&'static [&'static str]> {
    Some(match op {
        "create_table" => &["op", "table", "columns"],
        "drop_table" | "columns" => &["op", "table"],
        "insert" => &["op", "table", "rows"],
        "update" => &["op", "table", "set", "where"],
        "delete" => &["op", "table", "where"],
        "select" => &["op", "from", "columns", "where"],
        "read_stream" | "remove_stream" => &["op", "name"],
        "write_stream" => &["op", "name", "hex"],
        "set_summary" => &["op", "field", "value"],
        "set_codepage" => &["op", "id"],
        "tables"
        | "streams"
        | "has_signature"
        | "remove_signature"
        | "summary"
        | "codepage"
        | "flush"
        | "commit"
        | "roll_back" => &["op"],
        _ => return None,
    })
}
