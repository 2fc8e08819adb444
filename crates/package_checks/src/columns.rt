//! Columns, in words.
use cfb_medium::Error;
use msi_columns::{Column, ColumnType};
use std::alloc::Global;

/// The name of the column at a position, counted from 1, among those that are wanted; behind them among those that are there.
pub(crate) fn name_at<'a>(wanted: &'a [Column], columns: &'a [Column], position: usize) -> &'a str {
    match at(wanted, position) {
        Some(column) => column.name(),
        None => match at(columns, position) {
            Some(column) => column.name(),
            None => "",
        },
    }
}

/// The type of the column at a position, counted from 1, and whether it belongs to the key.
pub(crate) fn shape_at(
    alloc: Global,
    columns: &[Column],
    position: usize,
) -> Result<String, Error> {
    match at(columns, position) {
        Some(column) => shape_of(alloc, column),
        None => Ok(String::from_str(alloc, "nothing")?),
    }
}

fn at(columns: &[Column], position: usize) -> Option<&Column> {
    columns.get(position.checked_sub(1)?)
}

fn shape_of(alloc: Global, column: &Column) -> Result<String, Error> {
    let key = if column.is_primary_key() {
        " in the key"
    } else {
        ""
    };
    Ok(match column.coltype() {
        ColumnType::Int16 => format!(in alloc; "a number of two bytes{key}")?,
        ColumnType::Int32 => format!(in alloc; "a number of four bytes{key}")?,
        ColumnType::Str(0) => format!(in alloc; "a text{key}")?,
        ColumnType::Str(len) => format!(in alloc; "a text of {len}{key}")?,
        ColumnType::Binary => format!(in alloc; "a stream{key}")?,
    })
}
