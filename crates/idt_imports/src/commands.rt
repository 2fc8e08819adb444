//! Commands that give a package the rows of a file.
use crate::columns::IdtColumn;
use crate::rows::{IdtRow, file_of_row, stream_of_row};
use crate::tables::IdtTable;
use cfb_medium::Error;
use command_file::Command;
use idt_rows::Cell;
use idt_tables::Letter;
use msi_changes::{Delete, Insert};
use msi_columns::Column;
use msi_values::Value;
use std::alloc::{AllocError, Global};

/// The bytes that a row wants: their stream, and the file that has them, where the row names one.
#[derive(Drop)]
pub struct Wants {
    /// The name of the stream.
    pub stream: String,
    /// The name of the file.
    pub file: Option<String>,
    /// The cell that names it, from 1 on.
    pub column: usize,
}

/// Makes a table of these columns.
pub fn create_table(alloc: Global, table: &IdtTable) -> Result<Command, Error> {
    let columns = stored_columns(alloc, table)?;
    let name = String::from_str(alloc, &table.name)?;
    Ok(Command::CreateTable(name, columns))
}

/// The columns of a table, as packages have them.
pub fn stored_columns(alloc: Global, table: &IdtTable) -> Result<Vec<Column>, Error> {
    let mut columns = Vec::new(alloc);
    for column in &table.columns {
        columns.push(column_of(alloc, column)?)?;
    }
    Ok(columns)
}

fn column_of(alloc: Global, column: &IdtColumn) -> Result<Column, Error> {
    let mut builder = Column::build(alloc, &column.name)?;
    if column.coltype.nullable {
        builder = builder.nullable();
    }
    if column.is_key {
        builder = builder.primary_key();
    }
    let width = column.coltype.width;
    Ok(match column.coltype.letter {
        Letter::Number if width == 2 => builder.int16(),
        Letter::Number => builder.int32(),
        Letter::Text => builder.string(width as usize),
        Letter::Localized => builder.localizable().string(width as usize),
        Letter::Bytes => builder.binary(),
    })
}

/// Takes all rows of a table away.
pub fn delete_rows(alloc: Global, table: &str) -> Result<Command, Error> {
    Ok(Command::Delete(Delete::from(alloc, table)?))
}

/// Adds the rows of a file.
pub fn insert_rows(alloc: Global, table: &IdtTable) -> Result<Command, Error> {
    let rows = stored_rows(alloc, table)?;
    let insert = Insert::into(alloc, &table.name)?;
    Ok(Command::Insert(insert.rows(rows)?))
}

/// The rows of a table, as packages have them.
pub fn stored_rows(alloc: Global, table: &IdtTable) -> Result<Vec<Vec<Value>>, AllocError> {
    let mut rows = Vec::new(alloc);
    for row in &table.rows {
        rows.push(values_of(alloc, &table.columns, row)?)?;
    }
    Ok(rows)
}

fn values_of(alloc: Global, columns: &[IdtColumn], row: &IdtRow) -> Result<Vec<Value>, AllocError> {
    let mut values = Vec::new(alloc);
    for (at, cell) in row.iter().enumerate() {
        let is_bytes = match columns.get(at) {
            Some(column) => column.coltype.letter == Letter::Bytes,
            None => false,
        };
        values.push(value_of(alloc, cell, is_bytes)?)?;
    }
    Ok(values)
}

// The value of a cell. An empty one of bytes is bytes without a stream.
fn value_of(alloc: Global, cell: &Cell, is_bytes: bool) -> Result<Value, AllocError> {
    Ok(match cell {
        Cell::Number(number) => Value::Int(*number),
        Cell::Text(text) => Value::Str(String::from_str(alloc, text)?),
        Cell::File(_) => Value::Binary,
        Cell::Null if is_bytes => Value::Binary,
        Cell::Null => Value::Null,
    })
}

/// The bytes that the rows of a table want, one for each row; none of a table without a column of bytes.
pub fn wants_of(alloc: Global, table: &IdtTable) -> Result<Vec<Wants>, AllocError> {
    let mut wants = Vec::new(alloc);
    if !has_bytes(&table.columns) {
        return Ok(wants);
    }
    for row in &table.rows {
        wants.push(want_of(alloc, table, row)?)?;
    }
    Ok(wants)
}

fn has_bytes(columns: &[IdtColumn]) -> bool {
    columns
        .iter()
        .any(|column| column.coltype.letter == Letter::Bytes)
}

fn want_of(alloc: Global, table: &IdtTable, row: &IdtRow) -> Result<Wants, AllocError> {
    let stream = stream_of_row(alloc, &table.name, &table.columns, row)?;
    let (file, column) = match file_of_row(row) {
        Some((column, name)) => (Some(String::from_str(alloc, name)?), column),
        None => (None, 1),
    };
    Ok(Wants {
        stream,
        file,
        column,
    })
}
