//! What is wrong with a command file, for the person who wrote it.
use crate::SummaryEdit;
use crate::columns::columns_of;
use crate::expressions::condition_of;
use crate::reading::{bytes_of, command_of, set_of};
use crate::summary::{edit_of, page_of};
use cfb_medium::Error;
use json_parts::{borrowed_texts, list_of, rows_of};
use serde_json::{Value as Json, json};
use std::alloc::Global;

/// What is wrong with a command file. Commands are counted from 1.
#[derive(Debug, Drop, thiserror::Error)]
pub enum Refusal {
    /// The file's text is no JSON array.
    #[error("the file is no list of commands")]
    NoList,
    /// A command is no JSON object.
    #[error("command {0} is no object")]
    NoObject(usize),
    /// A command lacks a key.
    #[error("command {0} has no `{1}`")]
    MissingKey(usize, &'static str),
    /// A command has a key that its op doesn't know.
    #[error("command {0} has a `{1}`, which its op doesn't know")]
    UnknownKey(usize, String),
    /// A command has a key with a wrong value.
    #[error("command {0} has a wrong `{1}`")]
    WrongValue(usize, &'static str),
}

// The keys of an op besides `op`: those that it needs, and those that it may have.
#[derive(Clone, Copy)]
struct Keys {
    needed: &'static [&'static str],
    optional: &'static [&'static str],
}

/// What is wrong with a file that `read_commands` refuses as `InvalidInput`: the first command that is refused, and the first of its keys
/// that is at fault. None where no command is refused, and where the text is no JSON. `Memory` where there is no room.
pub fn refusal_in(alloc: Global, text: &str) -> Result<Option<Refusal>, Error> {
    let Ok(json) = Json::from_str(alloc, text) else {
        return Ok(None);
    };
    let Ok(list) = list_of(&json) else {
        return Ok(Some(Refusal::NoList));
    };
    for (at, item) in list.iter().enumerate() {
        match command_of(alloc, item) {
            Ok(_) => {}
            Err(Error::Memory) => return Err(Error::Memory),
            Err(_) => return Ok(Some(refusal_of(alloc, at + 1, item)?)),
        }
    }
    Ok(None)
}

// What is wrong with a command.
fn refusal_of(alloc: Global, number: usize, json: &Json) -> Result<Refusal, Error> {
    let Some(members) = json.as_object() else {
        return Ok(Refusal::NoObject(number));
    };
    let Some(op) = json.get("op") else {
        return Ok(Refusal::MissingKey(number, "op"));
    };
    let Some(keys) = op.as_str().and_then(keys_of) else {
        return Ok(Refusal::WrongValue(number, "op"));
    };
    for (key, _) in members {
        if !keys.has(key.as_str()) {
            return Ok(Refusal::UnknownKey(number, String::from_str(alloc, key.as_str())?));
        }
    }
    Ok(keys.refusal_of_values(alloc, number, json))
}

impl Keys {
    // Whether a command may have the key.
    fn has(&self, key: &str) -> bool {
        key == "op"
            || self.needed.iter().any(|one| *one == key)
            || self.optional.iter().any(|one| *one == key)
    }

    // The first key that lacks or has a wrong value, where no key is unknown; the last one that is needed, if none is wrong by itself.
    fn refusal_of_values(&self, alloc: Global, number: usize, json: &Json) -> Refusal {
        let mut last = "op";
        for &key in self.needed {
            match json.get(key) {
                None => return Refusal::MissingKey(number, key),
                Some(value) if !is_taken(alloc, key, value, json) => {
                    return Refusal::WrongValue(number, key);
                }
                Some(_) => last = key,
            }
        }
        for &key in self.optional {
            match json.get(key) {
                Some(value) if !is_taken(alloc, key, value, json) => {
                    return Refusal::WrongValue(number, key);
                }
                _ => {}
            }
        }
        Refusal::WrongValue(number, last)
    }
}

// The keys of an op.
fn keys_of(op: &str) -> Option<Keys> {
    let (needed, optional): (&'static [&'static str], &'static [&'static str]) = match op {
        "create_table" => (&["table", "columns"], &[]),
        "drop_table" | "columns" => (&["table"], &[]),
        "insert" => (&["table", "rows"], &[]),
        "update" => (&["table", "set"], &["where"]),
        "delete" => (&["table"], &["where"]),
        "select" => (&["from"], &["columns", "where"]),
        "read_stream" | "remove_stream" => (&["name"], &[]),
        "write_stream" => (&["name", "hex"], &[]),
        "set_summary" => (&["field", "value"], &[]),
        "set_codepage" => (&["id"], &[]),
        "tables"
        | "streams"
        | "has_signature"
        | "remove_signature"
        | "summary"
        | "codepage"
        | "flush"
        | "commit"
        | "roll_back" => (&[], &[]),
        _ => return None,
    };
    Some(Keys { needed, optional })
}

// Whether the value may stand at a key of the command.
fn is_taken(alloc: Global, key: &str, value: &Json, json: &Json) -> bool {
    match key {
        "table" | "name" => value.as_str().is_some(),
        "field" => is_field(alloc, value),
        "rows" => rows_of(alloc, value).is_ok(),
        "set" => are_sets(alloc, value),
        "where" => condition_of(alloc, json).is_ok(),
        "hex" => value
            .as_str()
            .is_some_and(|text| bytes_of(alloc, text).is_ok()),
        "id" => page_of(value).is_ok(),
        "columns" => match json.get("from") {
            Some(_) => borrowed_texts(alloc, value).is_ok(),
            None => columns_of(alloc, value).is_ok(),
        },
        _ => true,
    }
}

// Whether it is a list of columns and values.
fn are_sets(alloc: Global, value: &Json) -> bool {
    match list_of(value) {
        Ok(list) => list.iter().all(|item| set_of(alloc, item).is_ok()),
        Err(_) => false,
    }
}

// Whether it is the name of a field of the summary: each but the code page's takes null.
fn is_field(alloc: Global, value: &Json) -> bool {
    match value.as_str() {
        Some(name) => name == "codepage" || clearing_edit(alloc, name).is_ok(),
        None => false,
    }
}

// The change that clears a field.
fn clearing_edit(alloc: Global, name: &str) -> Result<SummaryEdit, Error> {
    let field = Json::String(String::from_str(alloc, name)?);
    let edit = json!(in alloc; {"field": field, "value": null})?;
    edit_of(alloc, &edit)
}
