//! Rows of exported tables.
ghost use Rattle.std.specs.Prelude.{◌≡◌, ◌++◌, ◌∷◌, IfErr, IfOk, OnOk, map, string_bytes};
ghost use Rattle.std.specs.Option.{option_copied};
ghost use Rattle.cfb_medium.specs.declared.error.Error.TheVariants.{Memory};
ghost use Rattle.idt_rows.specs.Rows.{datum_of as cell_datum};
ghost use Rattle.msi_values.specs.Datum.{datum_of};
ghost use Rattle.msi_export.specs.Cells as exported;

use cfb_medium::Error;
use idt_rows::{Cell, row_line};
use msi_tables::Row;
use msi_values::Value;
use std::alloc::{AllocError, Global};

/// The values of a row, with tabs between them, as exports have them. Bytes stand as the name of the file that has them, or as nothing where
/// there is none. The one error is `Memory`.
pub fn row_text(alloc: Global, row: &Row, file: Option<&str>) -> Result<String, Error>
    ensures ok { IfOk result (λ line. string_bytes line
        ≡ exported.row_line (option_copied file.entry) row.now) }
    ensures errors { IfErr result (λ e. e ≡ Memory) }
{
    let cells = cells_of(alloc, row, file)?;
    Ok(row_line(alloc, &cells)?)
}

// The cells of a row.
fn cells_of(alloc: Global, row: &Row, file: Option<&str>) -> Result<Vec<Cell>, AllocError>
    ensures { IfOk result (λ cells. map cell_datum cells.items
        ≡ map (exported.cell_of (option_copied file.entry)) row.now.values) }
{
    let mut cells = Vec::new(alloc);
    for at in 0..row.len() {
        cells.push(cell_of(alloc, &row[at], file)?)?;
    }
    Ok(cells)
}

// A value as a cell.
fn cell_of(alloc: Global, value: &Value, file: Option<&str>) -> Result<Cell, AllocError>
    ensures { IfOk result (λ cell. cell_datum cell
        ≡ exported.cell_of (option_copied file.entry) (datum_of value.now)) }
{
    Ok(match (value, file) {
        (Value::Int(number), _) => Cell::Number(*number),
        (Value::Str(text), _) => Cell::Text(String::from_str(alloc, text)?),
        (Value::Binary, Some(name)) => Cell::File(String::from_str(alloc, name)?),
        (Value::Null, _) | (Value::Binary, None) => Cell::Null,
    })
}

/// Whether a value of a row is bytes, which lie in a stream.
pub fn has_bytes(row: &Row) -> bool {
    for place in 0..row.len() {
        if matches!(row.value(place), Some(Value::Binary)) {
            return true;
        }
    }
    false
}

/// The name of the stream in which a row's bytes lie: that of its table and its keys, a dot between each two. Numbers stand in decimal
/// digits. The one error is `Memory`.
pub fn stream_of_row(alloc: Global, table: &str, row: &Row) -> Result<String, Error>
    ensures ok { IfOk result (λ name. string_bytes name
        ≡ exported.stream_of table.now row.now) }
    ensures errors { IfErr result (λ e. e ≡ Memory) }
{
    let mut name = String::from_str(alloc, table)?;
    for at in 0..row.len() {
        push_if_key(alloc, &mut name, is_key(row, at), &row[at])?;
    }
    Ok(name)
}

// Whether the value at a place belongs to the key.
pub(crate) fn is_key(row: &Row, place: usize) -> bool
    ensures { result ≡ exported.is_key_at row.now.columns place }
{
    match row.columns().get(place) {
        Some(column) => column.is_primary_key(),
        None => false,
    }
}

// Adds a key behind a dot.
fn push_if_key(
    alloc: Global,
    name: &mut String,
    is_key: bool,
    value: &Value,
) -> Result<(), AllocError>
    ensures { OnOk result (string_bytes name.new
        ≡ string_bytes name.old ++ exported.key_part is_key (datum_of value.now)) }
{
    if !is_key {
        return Ok(());
    }
    name.push('.')?;
    match value {
        Value::Int(number) => name.push_str(&format!(in alloc; "{number}")?),
        Value::Str(text) => name.push_str(text),
        Value::Null | Value::Binary => Ok(()),
    }
}
