//! Rows of a file.
ghost use Rattle.std.specs.Prelude.{◌≡◌, map, IfOk, IsErr, Some};
ghost use Rattle.idt_rows.specs.Rows.{datum_of, row_in};
ghost use Rattle.idt_tables.specs.Tables.{kind_of, rows_in};

use crate::columns::IdtColumn;
use crate::faults::{Refusal, Wanted, wrong};
use crate::tables::IdtTable;
use idt_rows::{Cell, Kind, read_row, shown_text};
use idt_tables::{ColumnType, Letter, parts_of};
use msi_texts::CodePage;
use std::alloc::{AllocError, Global};
use std::collections::BTreeSet;

/// A row: a cell for each column.
pub type IdtRow = Vec<Cell>;

// The line of the first row, from 0 on.
pub(crate) const FIRST_ROW: usize = 3;

/// The rows that lines say behind the heading.
pub(crate) fn read_rows(
    alloc: Global,
    columns: &[IdtColumn],
    lines: &[&str],
) -> Result<Vec<IdtRow>, Refusal>
    ensures { IfOk result (λ rows.
        rows_in (map (λ c. kind_of c.coltype.letter) columns.now) (map (λ l. l.now) lines.now)
        ≡ Some (map (λ row. map datum_of row.items) rows.items)) }
{
    let kinds = kinds_of(alloc, columns)?;
    let mut keys = BTreeSet::new(alloc);
    let mut rows = Vec::new(alloc);
    for (at, text) in lines.iter().enumerate() {
        let line = at.saturating_add(FIRST_ROW);
        let row = row_of(alloc, columns, &kinds, line, text)?;
        if !keys.insert(key_of(alloc, columns, &row)?)? {
            return wrong(line, 0, Wanted::OtherKey);
        }
        rows.push(row)?;
    }
    Ok(rows)
}

fn kinds_of(alloc: Global, columns: &[IdtColumn]) -> Result<Vec<Kind>, AllocError>
    ensures { IfOk result (λ kinds. kinds.items ≡ map (λ c. kind_of c.coltype.letter) columns.now) }
{
    columns.iter().map(|column| column.kind()).collect(alloc)
}

fn row_of(
    alloc: Global,
    columns: &[IdtColumn],
    kinds: &[Kind],
    line: usize,
    text: &str,
) -> Result<IdtRow, Refusal>
    ensures { IfOk result (λ row. row_in kinds.now text.now ≡ Some (map datum_of row.items)) }
{
    match read_row(alloc, kinds, text)? {
        Some(row) => {
            check_row(columns, line, &row)?;
            Ok(row)
        }
        None => wrong_line(alloc, columns, line, text),
    }
}

// What is wrong with a line that is no row.
fn wrong_line(
    alloc: Global,
    columns: &[IdtColumn],
    line: usize,
    text: &str,
) -> Result<IdtRow, Refusal>
    ensures { IsErr result }
{
    let parts = parts_of(alloc, text)?;
    if parts.len() != columns.len() {
        let first = parts.len().min(columns.len());
        return wrong(line, first, Wanted::Cells(parts.len(), columns.len()));
    }
    for (at, column) in columns.iter().enumerate() {
        if column.coltype.letter == Letter::Number && !is_number(parts.get(at)) {
            return wrong(line, at, number_of(column));
        }
    }
    wrong(line, 0, Wanted::Cells(parts.len(), columns.len()))
}

fn is_number(part: Option<&&str>) -> bool {
    match part {
        Some(text) => text.is_empty() || text.parse::<i32>().is_ok(),
        None => false,
    }
}

// Which numbers a column takes.
fn number_of(column: &IdtColumn) -> Wanted {
    if column.coltype.width == 2 {
        Wanted::Short
    } else {
        Wanted::Long
    }
}

// Refuses the first cell that its column can't hold.
fn check_row(columns: &[IdtColumn], line: usize, row: &[Cell]) -> Result<(), Refusal> {
    for (at, column) in columns.iter().enumerate() {
        let wanted = match row.get(at) {
            Some(cell) => wanted_for(column, cell),
            None => None,
        };
        if let Some(wanted) = wanted {
            return wrong(line, at, wanted);
        }
    }
    Ok(())
}

// What is wanted in place of a cell that its column can't hold.
fn wanted_for(column: &IdtColumn, cell: &Cell) -> Option<Wanted> {
    let width = column.coltype.width;
    match cell {
        Cell::Null if column.is_key && !column.coltype.nullable => Some(Wanted::Value),
        Cell::Number(number) if !fits(*number, width) => Some(number_of(column)),
        Cell::File(name) if !is_file_name(name) => Some(Wanted::FileName),
        _ => None,
    }
}

/// Refuses the first cell that breaks what its column's type says: null where it takes none, or a text that is too long. Packages hold such
/// cells, and no insert makes them.
pub fn check_limits(table: &IdtTable) -> Result<(), Refusal> {
    for (line, row) in table.rows.iter().enumerate() {
        if let Some((at, wanted)) = limit_in(&table.columns, row) {
            return wrong(line.saturating_add(FIRST_ROW), at, wanted);
        }
    }
    Ok(())
}

// The first cell of a row that breaks the type of its column, and what is wanted there.
fn limit_in(columns: &[IdtColumn], row: &[Cell]) -> Option<(usize, Wanted)> {
    for (at, cell) in row.iter().enumerate() {
        let limit = match columns.get(at) {
            Some(column) => limit_on(column, cell),
            None => None,
        };
        if let Some(wanted) = limit {
            return Some((at, wanted));
        }
    }
    None
}

/// Refuses the first text that a code page lacks.
pub fn check_page(table: &IdtTable, page: CodePage) -> Result<(), Refusal> {
    for (line, row) in table.rows.iter().enumerate() {
        if let Some(at) = off_page(row, page) {
            return wrong(line.saturating_add(FIRST_ROW), at, Wanted::OnPage(page));
        }
    }
    Ok(())
}

// The first cell of a row with a text that a code page lacks.
fn off_page(row: &[Cell], page: CodePage) -> Option<usize> {
    for (at, cell) in row.iter().enumerate() {
        if !is_on_page(cell, page) {
            return Some(at);
        }
    }
    None
}

fn is_on_page(cell: &Cell, page: CodePage) -> bool {
    match cell {
        Cell::Text(text) => page.fits(text),
        _ => true,
    }
}

// What is wanted in place of a cell that breaks the type of its column.
fn limit_on(column: &IdtColumn, cell: &Cell) -> Option<Wanted> {
    let ColumnType {
        letter,
        nullable,
        width,
    } = column.coltype;
    match cell {
        Cell::Null if letter != Letter::Bytes && !nullable => Some(Wanted::Value),
        Cell::Text(text) if is_too_long(text, width) => Some(Wanted::Length(width)),
        _ => None,
    }
}

// Whether a column of so many bytes takes a number. The least one stands for null.
fn fits(number: i32, width: u32) -> bool {
    if width == 2 {
        -32767 <= number && number <= 32767
    } else {
        i32::MIN < number
    }
}

fn is_too_long(text: &str, width: u32) -> bool {
    width != 0 && text.chars().count() > width as usize
}

// Whether a file of this name lies in the folder itself.
fn is_file_name(name: &str) -> bool {
    !name.starts_with('.') && !name.contains('/') && !name.contains('\\') && !name.contains('\0')
}

// The keys of a row, with a tab behind each.
fn key_of(alloc: Global, columns: &[IdtColumn], row: &[Cell]) -> Result<String, AllocError> {
    let mut key = String::new(alloc);
    for (at, column) in columns.iter().enumerate() {
        if column.is_key {
            push_shown_key(alloc, &mut key, row.get(at))?;
            key.push('\t')?;
        }
    }
    Ok(key)
}

fn push_key(alloc: Global, key: &mut String, cell: Option<&Cell>) -> Result<(), AllocError> {
    match cell {
        Some(Cell::Number(number)) => key.push_str(&format!(in alloc; "{number}")?),
        Some(Cell::Text(text)) => key.push_str(text),
        _ => Ok(()),
    }
}

// The same as the file has it, so that no tab stands in it.
fn push_shown_key(alloc: Global, key: &mut String, cell: Option<&Cell>) -> Result<(), AllocError> {
    match cell {
        Some(Cell::Text(text)) => key.push_str(&shown_text(alloc, text)?),
        _ => push_key(alloc, key, cell),
    }
}

/// The name of the stream in which a row's bytes lie: that of its table and its keys, a dot between each two.
pub(crate) fn stream_of_row(
    alloc: Global,
    table: &str,
    columns: &[IdtColumn],
    row: &[Cell],
) -> Result<String, AllocError> {
    let mut name = String::from_str(alloc, table)?;
    for (at, column) in columns.iter().enumerate() {
        if column.is_key {
            name.push('.')?;
            push_key(alloc, &mut name, row.get(at))?;
        }
    }
    Ok(name)
}

/// The name of the file with a row's bytes, where it names one, and which cell does, from 1 on.
pub(crate) fn file_of_row(row: &[Cell]) -> Option<(usize, &str)> {
    for (at, cell) in row.iter().enumerate() {
        if let Cell::File(name) = cell {
            return Some((at.saturating_add(1), name.as_str()));
        }
    }
    None
}
