//! Why a column doesn't take a value.
ghost use Rattle.command_reasons.specs.Faults.{IsCellFault, is_of_kind};
ghost use Rattle.command_reasons.specs.declared.cells.CellFault.TheVariants as fault;
ghost use Rattle.msi_columns.specs.Column.{is_listed, is_valid, is_within, meets_category};
ghost use Rattle.msi_columns.specs.Held.{column_of};
ghost use Rattle.msi_values.specs.Datum.{datum_of, null, number, text};
ghost use Rattle.std.specs.List.{list_any};
ghost use Rattle.std.specs.Prelude.{◌≡◌, MatchOption, bytes_eq, false, string_bytes, true};

use msi_columns::{Column, ColumnType};
use msi_texts::Category;
use msi_values::Value;

/// Why a column doesn't take a value.
#[derive(Clone, Copy, Debug)]
pub enum CellFault {
    /// The value is null, which the column doesn't take.
    Null,
    /// The value is of another kind than the column's: numbers, texts or bytes.
    Kind,
    /// The number is below the first of these, or above the second.
    Range(i32, i32),
    /// The number is too large for the column's type, or too small.
    Size,
    /// The text isn't of this category.
    Category(Category),
    /// The text is none of those that the column takes.
    Choice,
    /// The text has more characters than this.
    Length(usize),
}

/// Why a column doesn't take a value; `None` where it takes it.
pub fn cell_fault(column: &Column, value: &Value) -> Option<CellFault>
    ensures { MatchOption result (is_valid (column_of column.now) (datum_of value.now) ≡ true)
        (IsCellFault (column_of column.now) (datum_of value.now)) }
{
    if column.is_valid_value(value) {
        return None;
    }
    match value {
        Value::Null => Some(CellFault::Null),
        Value::Int(number) => Some(number_fault(column, *number)),
        Value::Str(text) => Some(text_fault(column, text.as_str())),
        Value::Binary => Some(CellFault::Kind),
    }
}

// Why a column doesn't take a number.
fn number_fault(column: &Column, given: i32) -> CellFault
    requires { is_valid (column_of column.now) (number given) ≡ false }
    ensures { IsCellFault (column_of column.now) (number given) result }
{
    match column.coltype() {
        ColumnType::Str(_) | ColumnType::Binary => CellFault::Kind,
        ColumnType::Int16 | ColumnType::Int32 => match column.value_range() {
            Some((low, high)) if given < low || high < given => CellFault::Range(low, high),
            _ => CellFault::Size,
        },
    }
}

// Why a column doesn't take a text.
fn text_fault(column: &Column, words: &str) -> CellFault
    requires { is_valid (column_of column.now) (text words.now) ≡ false }
    ensures { IsCellFault (column_of column.now) (text words.now) result }
{
    match column.coltype() {
        ColumnType::Int16 | ColumnType::Int32 | ColumnType::Binary => CellFault::Kind,
        ColumnType::Str(length) => match column.category() {
            Some(category) if !category.validate(words) => CellFault::Category(category),
            _ if !is_choice(column, words) => CellFault::Choice,
            _ => CellFault::Length(length),
        },
    }
}

// Whether a text is one of those that a column takes, where it doesn't take all.
fn is_choice(column: &Column, text: &str) -> bool
    ensures { result ≡ is_listed (column_of column.now).choices text.now }
{
    match column.enum_values() {
        Some(texts) => is_among(texts, text),
        None => true,
    }
}

// Whether a text is among others.
fn is_among(texts: &[String], text: &str) -> bool
    ensures { result ≡ list_any (λ x. bytes_eq (string_bytes x) text.now) texts.now }
{
    texts.iter().any(|other| other.as_str() == text)
}
