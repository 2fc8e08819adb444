//! Tables of texts in columns, and texts as one line.
use cfb_medium::Error;
use serde_json::Value as Json;
use std::alloc::Global;
use test_support::{Row, Subject, copy_of};
use text_columns::{Cell, Side, escaped, table_lines};

/// Answers calls of `text_columns`. A cell is a text, which stands at the left, or a list of one, which stands at the right.
#[derive(Drop)]
pub struct Columns;

impl Subject for Columns {
    fn answer(&mut self, alloc: Global, row: &Row) -> Result<String, Error> {
        match row.call() {
            "table" => table(alloc, row),
            "one line" => Ok(escaped(alloc, row.text(1))?),
            _ => Err(Error::NotFound),
        }
    }
}

// The lines of a table, of which a limit, the heading and the rows are given.
fn table(alloc: Global, row: &Row) -> Result<String, Error> {
    let limit = usize::try_from(row.number(1)).unwrap_or(0);
    let heading = cells_of(alloc, row.list(2))?;
    let rows = rows_of(alloc, row.list(3))?;
    lines_told(alloc, &lines_of(alloc, &heading, &rows, limit)?)
}

// A function of its own, since what is told of the call costs time wherever it is seen.
fn lines_of(
    alloc: Global,
    heading: &[Cell],
    rows: &[Vec<Cell>],
    limit: usize,
) -> Result<Vec<String>, Error> {
    Ok(table_lines(alloc, heading, rows, limit)?)
}

fn rows_of(alloc: Global, rows: &[Json]) -> Result<Vec<Vec<Cell>>, Error> {
    let mut all = Vec::new(alloc);
    for cells in rows {
        all.push(cells_of(alloc, list_in(cells))?)?;
    }
    Ok(all)
}

fn cells_of(alloc: Global, cells: &[Json]) -> Result<Vec<Cell>, Error> {
    let mut all = Vec::new(alloc);
    for cell in cells {
        all.push(cell_of(alloc, cell)?)?;
    }
    Ok(all)
}

fn cell_of(alloc: Global, cell: &Json) -> Result<Cell, Error> {
    let (text, side) = match list_in(cell) {
        [number] => (number.as_str().unwrap_or(""), Side::Right),
        _ => (cell.as_str().unwrap_or(""), Side::Left),
    };
    let text = copy_of(alloc, text)?;
    Ok(Cell { text, side })
}

fn list_in(cell: &Json) -> &[Json] {
    match cell.as_array() {
        Some(list) => list.as_slice(),
        None => &[],
    }
}

// Lines, with a bar at the end of each.
fn lines_told(alloc: Global, lines: &[String]) -> Result<String, Error> {
    let mut text = String::new(alloc);
    for line in lines {
        text.push_str(line)?;
        text.push('|')?;
    }
    Ok(text)
}
