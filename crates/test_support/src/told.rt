//! What is told of a value, as a text, and the value of a cell.
use crate::row::Row;
use cfb_medium::Error;
use json_parts::value_of;
use msi_values::Value;
use std::alloc::Global;
use std::fmt::{Debug, Display};

/// A value as it is printed.
pub fn shown<T: Display>(alloc: Global, value: &T) -> Result<String, Error> {
    Ok(format!(in alloc; "{value}")?)
}

/// A value as it is printed, behind a word.
pub fn named<T: Display>(alloc: Global, word: &str, value: &T) -> Result<String, Error> {
    Ok(format!(in alloc; "{word} {value}")?)
}

/// A value with its parts.
pub fn with_parts<T: Debug>(alloc: Global, value: &T) -> Result<String, Error> {
    Ok(format!(in alloc; "{value:?}")?)
}

/// The value of a cell.
pub fn value_at(alloc: Global, row: &Row, place: usize) -> Result<Value, Error> {
    match row.cell(place) {
        Some(cell) => value_of(alloc, cell),
        None => Ok(Value::Null),
    }
}
