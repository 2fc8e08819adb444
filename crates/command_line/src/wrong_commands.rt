//! Which place of a command file is wrong, and what is wanted there.
use command_file::Refusal;
use command_places::{fault_at, hint_of_missing, hint_of_unknown};
use serde_json::Value as Json;
use std::alloc::Global;
use std::io::Write;

/// What a command file is.
pub(crate) const LIST: &str =
    "a command file is a list of objects with \"op\", as [{\"op\":\"tables\"},{\"op\":\"commit\"}]; docs/COMMANDS.md has each";

/// Tells what is wrong with a command file whose text was refused so.
pub(crate) fn tell_refusal<E: Write>(
    alloc: Global,
    path: &str,
    text: &str,
    refusal: &Refusal,
    err: &mut E,
) {
    match Json::from_str(alloc, text) {
        Ok(json) => tell_in(path, &json, refusal, err),
        Err(_) => tell_plain(path, refusal, err),
    }
}

// Tells it, with what stands in the file.
fn tell_in<E: Write>(path: &str, json: &Json, refusal: &Refusal, err: &mut E) {
    match refusal {
        Refusal::NoList | Refusal::NoObject(_) => {
            let _ = writeln!(err, "msidb: {path}: {refusal}; {LIST}");
        }
        Refusal::MissingKey(number, key) => match command_of(json, *number) {
            Some(command) => tell_missing(path, command, refusal, key, err),
            None => tell_plain(path, refusal, err),
        },
        Refusal::UnknownKey(number, key) => match command_of(json, *number) {
            Some(command) => tell_unknown(path, command, refusal, key.as_str(), err),
            None => tell_plain(path, refusal, err),
        },
        Refusal::WrongValue(number, key) => match command_of(json, *number) {
            Some(command) => tell_wrong(path, command, *number, key, refusal, err),
            None => tell_plain(path, refusal, err),
        },
    }
}

// The command of a number, counted from 1.
fn command_of(json: &Json, number: usize) -> Option<&Json> {
    json.as_array()?.get(number.checked_sub(1)?)
}

fn tell_plain<E: Write>(path: &str, refusal: &Refusal, err: &mut E) {
    let _ = writeln!(err, "msidb: {path}: {refusal}");
}

// Tells of a key that is missing, and of one that is spelled nearly so.
fn tell_missing<E: Write>(path: &str, command: &Json, refusal: &Refusal, key: &str, err: &mut E) {
    match hint_of_missing(command, key) {
        Some(hint) => {
            let _ = writeln!(err, "msidb: {path}: {refusal}; {hint}");
        }
        None => tell_plain(path, refusal, err),
    }
}

// Tells of a key that isn't known, and of those that are.
fn tell_unknown<E: Write>(path: &str, command: &Json, refusal: &Refusal, key: &str, err: &mut E) {
    match hint_of_unknown(command, key) {
        Some(hint) => {
            let _ = writeln!(err, "msidb: {path}: {refusal}; {hint}");
        }
        None => tell_plain(path, refusal, err),
    }
}

// Tells of a wrong value where it stands, and of what is wanted there.
fn tell_wrong<E: Write>(
    path: &str,
    command: &Json,
    number: usize,
    key: &str,
    refusal: &Refusal,
    err: &mut E,
) {
    match fault_at(command, key) {
        Some(fault) => {
            let _ = writeln!(err, "msidb: {path}: command {number}: {fault}");
        }
        None => tell_plain(path, refusal, err),
    }
}
