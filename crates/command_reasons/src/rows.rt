//! Why rows aren't taken.
ghost use Rattle.command_reasons.specs.Faults.{IsRowFault, IsWrongFrom};
ghost use Rattle.msi_columns.specs.Column.{are_valid};
ghost use Rattle.msi_columns.specs.Held.{columns_of};
ghost use Rattle.msi_values.specs.Datum.{data_of};
ghost use Rattle.std.specs.Prelude.{◌≡◌, MatchOption, length, not, position, true};

use crate::cells::{CellFault, cell_fault};
use msi_columns::Column;
use msi_values::Value;

/// Why a row isn't taken.
#[derive(Clone, Copy, Debug)]
pub enum RowFault {
    /// It has so many values, and the table so many columns.
    Length(usize, usize),
    /// The column at this place, counted from 0, doesn't take its value.
    Cell(usize, CellFault),
}

/// Why a row isn't taken by these columns: that it has another number of values, or else the first column that doesn't take its own.
/// `None` where it is taken.
pub fn row_fault(columns: &[Column], values: &[Value]) -> Option<RowFault>
    ensures { MatchOption result (are_valid (columns_of columns.now) (data_of values.now) ≡ true)
        (IsRowFault (columns_of columns.now) (data_of values.now)) }
{
    if columns.len() != values.len() {
        return Some(RowFault::Length(values.len(), columns.len()));
    }
    match cells_fault(columns, values) {
        Some((at, fault)) => Some(RowFault::Cell(at, fault)),
        None => None,
    }
}

// The first of these columns that doesn't take its value, and why.
fn cells_fault(columns: &[Column], values: &[Value]) -> Option<(usize, CellFault)>
    requires { length columns.now ≡ length values.now }
    ensures { MatchOption result (are_valid (columns_of columns.now) (data_of values.now) ≡ true)
        (λ it. IsWrongFrom (columns_of columns.now) (data_of values.now) it.0 it.1) }
{
    match columns {
        [] => None,
        [column, columns @ ..] => match values {
            [] => None,
            [value, values @ ..] => match cell_fault(column, value) {
                Some(fault) => Some((0, fault)),
                None => match cells_fault(columns, values) {
                    Some((at, fault)) => Some((at + 1, fault)),
                    None => None,
                },
            },
        },
    }
}

/// The place of the first of these rows that isn't taken, counted from 0. `None` where all are.
pub fn wrong_row(columns: &[Column], rows: &[Vec<Value>]) -> Option<usize>
    ensures { result
        ≡ position (λ row. not (are_valid (columns_of columns.now) (data_of row.items))) rows.now }
{
    rows.iter().position(|row| is_wrong(columns, row))
}

// Whether a row isn't taken.
fn is_wrong(columns: &[Column], values: &[Value]) -> bool
    ensures { result ≡ not (are_valid (columns_of columns.now) (data_of values.now)) }
{
    row_fault(columns, values).is_some()
}
