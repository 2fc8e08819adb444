//! A row of data: a list in JSON, of the name of a call and what it is given.
use cfb_medium::Error;
use serde_json::Value;
use std::alloc::Global;

/// A call, and what it is given. What isn't there counts as nothing: an empty text, 0, false, an empty list.
#[derive(Drop)]
pub struct Row {
    cells: Value,
}

impl Row {
    /// The row of a line: `InvalidData` where it isn't JSON.
    pub fn read(alloc: Global, line: &str) -> Result<Row, Error> {
        match Value::from_str(alloc, line) {
            Ok(cells) => Ok(Row { cells }),
            Err(_) => Err(Error::InvalidData),
        }
    }

    /// The row of a cell that is a list.
    pub fn of(alloc: Global, cell: &Value) -> Result<Row, Error> {
        Row::read(alloc, cell.to_string(alloc)?.as_str())
    }

    /// The name of the call.
    pub fn call(&self) -> &str {
        self.text(0)
    }

    /// The row's own text.
    pub fn json(&self, alloc: Global) -> Result<String, Error> {
        Ok(self.cells.to_string(alloc)?)
    }

    /// A cell.
    pub fn cell(&self, place: usize) -> Option<&Value> {
        self.cells.get(place)
    }

    /// A text.
    pub fn text(&self, place: usize) -> &str {
        self.cell(place).and_then(Value::as_str).unwrap_or("")
    }

    /// A number.
    pub fn number(&self, place: usize) -> i64 {
        self.cell(place).and_then(Value::as_i64).unwrap_or(0)
    }

    /// Whether a cell is true.
    pub fn flag(&self, place: usize) -> bool {
        self.cell(place).and_then(Value::as_bool).unwrap_or(false)
    }

    /// A list.
    pub fn list(&self, place: usize) -> &[Value] {
        match self.cell(place).and_then(Value::as_array) {
            Some(list) => list.as_slice(),
            None => &[],
        }
    }
}

/// Whether something is so, as a text.
pub fn yes_or_no(alloc: Global, is_so: bool) -> Result<String, Error> {
    Ok(String::from_str(alloc, if is_so { "true" } else { "false" })?)
}

/// A copy of a text.
pub fn copy_of(alloc: Global, text: &str) -> Result<String, Error> {
    Ok(String::from_str(alloc, text)?)
}
