//! The rows of a table in aligned columns, for a person who reads them on a terminal.
use crate::json::{text_of_json, value_of_cell};
use cfb_medium::Error;
use msi::Package;
use msi_columns::{Column, ColumnType};
use msi_tables::{Row, Rows};
use msi_values::Value;
use package_files::Shown;
use package_reading::columns_of;
use std::alloc::{AllocError, Global};
use text_columns::{Cell, Side, escaped, table_lines};

// The most characters of a text in a column whose length is bounded. A longer text stands out of its column.
const WIDEST: usize = 255;

/// The lines of a table with these rows: the names of its columns, dashes, the rows. The one error is `Memory`.
pub(crate) fn grid_lines(
    alloc: Global,
    package: &Package<Shown>,
    name: &str,
    rows: Rows,
) -> Result<Vec<String>, Error> {
    let heading = heading_cells(alloc, columns_of(package, name))?;
    let rows = cells_of_rows(alloc, rows)?;
    Ok(lines_of_cells(alloc, &heading, &rows)?)
}

// A function of its own, since what is told of the call costs time wherever it is seen.
fn lines_of_cells(
    alloc: Global,
    heading: &[Cell],
    rows: &[Vec<Cell>],
) -> Result<Vec<String>, AllocError> {
    table_lines(alloc, heading, rows, WIDEST)
}

// The names of columns, those of numbers at the right.
fn heading_cells(alloc: Global, columns: &[Column]) -> Result<Vec<Cell>, AllocError> {
    let mut cells = Vec::new(alloc);
    for column in columns {
        let text = escaped(alloc, column.name())?;
        cells.push(Cell {
            text,
            side: side_of(column.coltype()),
        })?;
    }
    Ok(cells)
}

fn side_of(kind: ColumnType) -> Side {
    match kind {
        ColumnType::Int16 | ColumnType::Int32 => Side::Right,
        ColumnType::Str(_) | ColumnType::Binary => Side::Left,
    }
}

fn cells_of_rows(alloc: Global, rows: Rows) -> Result<Vec<Vec<Cell>>, AllocError> {
    let mut all = Vec::new(alloc);
    for row in rows {
        all.push(row_cells(alloc, &row)?)?;
    }
    Ok(all)
}

fn row_cells(alloc: Global, row: &Row) -> Result<Vec<Cell>, AllocError> {
    let mut cells = Vec::new(alloc);
    for place in 0..row.len() {
        if let Some(value) = row.value(place) {
            cells.push(cell_of(alloc, value)?)?;
        }
    }
    Ok(cells)
}

// A value as a person reads it: null as nothing, a text as one line.
fn cell_of(alloc: Global, value: &Value) -> Result<Cell, AllocError> {
    let (text, side) = match value {
        Value::Null => (String::new(alloc), Side::Left),
        Value::Int(number) => (format!(in alloc; "{number}")?, Side::Right),
        Value::Str(text) => (escaped(alloc, text)?, Side::Left),
        Value::Binary => (json_text(alloc, value)?, Side::Left),
    };
    Ok(Cell { text, side })
}

fn json_text(alloc: Global, value: &Value) -> Result<String, AllocError> {
    text_of_json(alloc, &value_of_cell(alloc, value)?)
}
