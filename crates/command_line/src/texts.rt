//! The text of a command file.
use crate::empties::tell_empty_texts;
use crate::wrong_commands::{LIST, tell_refusal};
use cfb::MAGIC_NUMBER;
use cfb_medium::Error;
use command_file::{Command, Refusal, read_commands, refusal_in};
use package_files::{Trouble, tell, tell_trouble, trouble_at};
use serde_json::Value as Json;
use std::alloc::Global;
use std::fs::{self, File};
use std::io::{self, Write};
use std::rt::Files;

/// What a path of a file that is read is called where it is `-`, which stands for the standard input.
pub(crate) fn name_of(path: &str) -> &str {
    if path == "-" { "standard input" } else { path }
}

/// Where the system has the standard input as a file.
pub(crate) const INPUT: &str = "/dev/stdin";

/// The commands of a file, or why it was refused, which is told. `Memory` where there is no room, else `InvalidData`: where the file
/// isn't there or can't be read, is no JSON text, or holds other than commands. Empty texts, which other programs take for null, are told
/// unless nothing is to be noted.
pub(crate) fn commands_in<R: Files<File = File> + AllocGlobal, E: Write>(
    rt: &R,
    path: &str,
    is_quiet: bool,
    err: &mut E,
) -> Result<Vec<Command>, Error> {
    let text = text_in(rt, path, err)?;
    let path = name_of(path);
    match commands_of(rt.alloc(), &text) {
        Ok(commands) => {
            if !is_quiet {
                tell_empty_texts(rt.alloc(), path, &text, err);
            }
            Ok(commands)
        }
        Err(error) => {
            tell_why_refused(rt.alloc(), path, &text, error, err);
            Err(error)
        }
    }
}

// The text of a file. A pipe isn't opened, since that may wait, nor a device node, which may have no end.
fn text_in<R: Files<File = File> + AllocGlobal, E: Write>(
    rt: &R,
    path: &str,
    err: &mut E,
) -> Result<String, Error> {
    if path == "-" {
        return read_text(rt, INPUT, name_of(path), err);
    }
    if let Some(trouble) = trouble_at(rt, path) {
        tell_trouble(path, trouble, err);
        return Err(Error::InvalidData);
    }
    read_text(rt, path, path, err)
}

fn read_text<R: Files<File = File> + AllocGlobal, E: Write>(
    rt: &R,
    path: &str,
    named: &str,
    err: &mut E,
) -> Result<String, Error> {
    match fs::read_to_string(rt, path) {
        Ok(text) => Ok(text),
        Err(error) => {
            if error.kind() == io::ErrorKind::InvalidData && is_compound_file(rt, path) {
                tell_swapped(named, err);
                return Err(Error::InvalidData);
            }
            Err(tell_unread(named, error.kind(), err))
        }
    }
}

// Whether a file begins as a package does.
fn is_compound_file<R: Files<File = File> + AllocGlobal>(rt: &R, path: &str) -> bool {
    match fs::read(rt, path) {
        Ok(bytes) => bytes.starts_with(MAGIC_NUMBER.as_slice()),
        Err(_) => false,
    }
}

// Tells of a package that stands where a command file is wanted.
fn tell_swapped<E: Write>(path: &str, err: &mut E) {
    let _ = writeln!(
        err,
        "msidb: {path}: a compound file, and no command file; the package stands first: `msidb run PACKAGE COMMANDS`"
    );
}

// Tells why a file couldn't be read as a text.
fn tell_unread<E: Write>(path: &str, kind: io::ErrorKind, err: &mut E) -> Error {
    match kind {
        io::ErrorKind::OutOfMemory => {
            tell("out of memory", err);
            Error::Memory
        }
        io::ErrorKind::InvalidData => {
            tell_trouble(path, Trouble::NoText, err);
            Error::InvalidData
        }
        _ => {
            tell_trouble(path, Trouble::Unreadable, err);
            Error::InvalidData
        }
    }
}

// Functions of their own, since what is told of these calls costs time wherever it is seen.
pub(crate) fn commands_of(alloc: Global, text: &str) -> Result<Vec<Command>, Error> {
    read_commands(alloc, text)
}

fn refusal_of(alloc: Global, text: &str) -> Result<Option<Refusal>, Error> {
    refusal_in(alloc, text)
}

fn json_error(alloc: Global, text: &str) -> Option<serde_json::Error> {
    Json::from_str(alloc, text).err()
}

// Tells why a text holds no commands: the line and column where it is no JSON, else the command that is wrong, and what is wanted there.
fn tell_why_refused<E: Write>(alloc: Global, path: &str, text: &str, error: Error, err: &mut E) {
    if error == Error::Memory {
        return tell("out of memory", err);
    }
    if let Some(error) = json_error(alloc, text) {
        let (line, column) = (error.line(), error.column());
        let _ = writeln!(
            err,
            "msidb: {path}: no JSON at line {line}, column {column}; {LIST}"
        );
        return;
    }
    match refusal_of(alloc, text) {
        Ok(Some(refusal)) => tell_refusal(alloc, path, text, &refusal, err),
        _ => tell_trouble(path, Trouble::NoCommands, err),
    }
}
