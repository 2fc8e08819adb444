//! Columns of exported tables beside those of a package.
use crate::columns::IdtColumn;
use idt_tables::{ColumnType, Letter};
use msi_columns::{Column, ColumnType as Stored};

/// Whether a table has just these columns, in their order.
pub fn has_columns(columns: &[IdtColumn], stored: &[Column]) -> bool {
    if columns.len() != stored.len() {
        return false;
    }
    for (at, column) in columns.iter().enumerate() {
        let is_so = match stored.get(at) {
            Some(other) => is_alike(column, other),
            None => false,
        };
        if !is_so {
            return false;
        }
    }
    true
}

fn is_alike(column: &IdtColumn, stored: &Column) -> bool {
    column.name.as_str() == stored.name()
        && column.is_key == stored.is_primary_key()
        && column.coltype.nullable == stored.is_nullable()
        && is_of_type(column.coltype, stored)
}

fn is_of_type(coltype: ColumnType, stored: &Column) -> bool {
    let width = coltype.width as usize;
    match (coltype.letter, stored.coltype()) {
        (Letter::Number, Stored::Int16) => width == 2,
        (Letter::Number, Stored::Int32) => width == 4,
        (Letter::Text, Stored::Str(most)) => width == most && !stored.is_localizable(),
        (Letter::Localized, Stored::Str(most)) => width == most && stored.is_localizable(),
        (Letter::Bytes, Stored::Binary) => true,
        _ => false,
    }
}
