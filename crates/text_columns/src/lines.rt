//! The lines of a table.
ghost use Rattle.std.specs.Prelude.{◌≡◌, ◌<◌, ◌++◌, map, replicate, slice_index_or, string_bytes, IfOk, OnOk};
ghost use Rattle.text_columns.specs.Columns.{dash_line, dashes, in_column, in_columns, line, table_lines};

use crate::cell::{Cell, Side};
use crate::widths::column_widths;
use std::alloc::{AllocError, Global};

/// A table as lines: the heading, under each of its columns dashes, and the rows. Each column is as wide as its widest cell, but at most
/// as the limit; a cell that is wider stands as it is. Two blanks part the columns, and a line has no blank at its end. Widths are
/// numbers of characters. It takes as many steps as cells have characters, and the limit for each cell. The one error is want of memory.
pub fn table_lines(
    alloc: Global,
    heading: &[Cell],
    rows: &[Vec<Cell>],
    limit: usize,
) -> Result<Vec<String>, AllocError>
    ensures { IfOk result (λ lines. map string_bytes lines.items
        ≡ table_lines limit heading.now (map (λ row. row.items) rows.now)) }
{
    let widths = column_widths(alloc, heading, rows, limit)?;
    let mut lines = Vec::new(alloc);
    lines.push(line_of(alloc, &widths, heading)?)?;
    lines.push(dashes_under(alloc, &widths)?)?;
    for row in rows {
        lines.push(line_of(alloc, &widths, row)?)?;
    }
    Ok(lines)
}

// A row as a line.
fn line_of(alloc: Global, widths: &[usize], row: &[Cell]) -> Result<String, AllocError>
    ensures { IfOk result (λ text. string_bytes text ≡ line widths.now row.now) }
{
    let cells = in_columns(alloc, widths, row)?;
    String::from_str(alloc, cells.trim_end())
}

// The line of dashes.
fn dashes_under(alloc: Global, widths: &[usize]) -> Result<String, AllocError>
    ensures { IfOk result (λ text. string_bytes text ≡ dash_line widths.now) }
{
    let under = dashes(alloc, widths)?;
    String::from_str(alloc, under.trim_end())
}

// The cells of a row, each filled up to the width of its column, with two blanks behind.
fn in_columns(alloc: Global, widths: &[usize], row: &[Cell]) -> Result<String, AllocError>
    ensures { IfOk result (λ text. string_bytes text ≡ in_columns widths.now 0 row.now) }
{
    let mut text = String::new(alloc);
    for (place, cell) in row.iter().enumerate() {
        push_cell(&mut text, width_at(widths, place), cell)?;
    }
    Ok(text)
}

// The width of the column at a place.
fn width_at(widths: &[usize], place: usize) -> usize
    ensures { result ≡ slice_index_or widths.now place 0 }
{
    widths.get(place).copied().unwrap_or(0)
}

// Adds a cell, filled up to a width, and two blanks.
fn push_cell(text: &mut String, width: usize, cell: &Cell) -> Result<(), AllocError>
    ensures { OnOk result (string_bytes text.new ≡ string_bytes text.old
        ++ in_column width cell.now) }
{
    let missing = width.saturating_sub(cell.width());
    match cell.side {
        Side::Left => {
            text.push_str(&cell.text)?;
            push_times(text, ' ', missing)?;
        }
        Side::Right => {
            push_times(text, ' ', missing)?;
            text.push_str(&cell.text)?;
        }
    }
    text.push_str("  ")
}

// As many dashes as each column is wide, with two blanks behind.
fn dashes(alloc: Global, widths: &[usize]) -> Result<String, AllocError>
    ensures { IfOk result (λ text. string_bytes text ≡ dashes widths.now) }
{
    let mut text = String::new(alloc);
    for width in widths {
        push_times(&mut text, '-', *width)?;
        text.push_str("  ")?;
    }
    Ok(text)
}

// Adds an ASCII character so many times.
fn push_times(text: &mut String, ch: char, count: usize) -> Result<(), AllocError>
    requires { ch < 128 }
    ensures { OnOk result (string_bytes text.new ≡ string_bytes text.old ++ replicate count ch) }
{
    for _done in 0..count {
        text.push(ch)?;
    }
    Ok(())
}
