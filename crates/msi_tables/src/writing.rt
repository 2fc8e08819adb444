//! Writing the rows of a table's stream, in the order in which they are stored.

ghost use Rattle.std.specs.Prelude.{◌≡◌, ◌++◌, ◌<◌, ℕ, List, length, map, drop, Some, None, OnOk};
ghost use Rattle.std.specs.List.Sorted.{IsSortedBy, IsStableBy, IsPermutation};
ghost use Rattle.msi_tables.specs.Rows.{row_cmp, row_less, skips_of, is_skipped, kinds_of, first_cells, column_bytes, rows_bytes, HaveCells, AllLonger, AppendsBytes, IsWritten};
ghost use Rattle.msi_columns.specs.Held.{column_of, columns_of};
ghost use Rattle.msi_tables.specs.Held.{rows_held};

use cfb_medium::Error;
use msi_columns::{Column, ColumnType};
use msi_pool::ValueRef;
use msi_texts::Category;
use std::alloc::AllocError;
use std::cmp::Ordering;

// Appends the rows in their stored order, column after column; after an error nothing is appended.
pub(crate) fn write_rows(
    columns: &[Column],
    long: bool,
    out: &mut Vec<u8>,
    rows: Vec<Vec<ValueRef>>,
) -> Result<(), Error>
    requires { HaveCells (length columns.now) (rows_held rows.items) }
    ensures { IsWritten long (columns_of columns.now) (rows_held rows.items) out.old.items
        out.new.items result }
{
    let mut rows = rows;
    sort_rows(&mut rows, columns)?;
    let start = out.len();
    match append_rows(columns, long, out, &rows) {
        Ok(()) => Ok(()),
        Err(error) => {
            out.truncate(start);
            Err(error)
        }
    }
}

// Brings rows into the stored order.
fn sort_rows(rows: &mut Vec<Vec<ValueRef>>, columns: &[Column]) -> Result<(), AllocError>
    ensures sorted { OnOk result (IsSortedBy (row_less (skips_of (columns_of columns.now)))
        rows.new.items) }
    ensures stable { IsStableBy (row_less (skips_of (columns_of columns.now))) rows.old.items
        rows.new.items }
    ensures permutation { IsPermutation rows.old.items rows.new.items }
{
    rows.sort_by(|a, b| compare_rows(columns, a.as_slice(), b.as_slice()))
}

// The order of two rows: by column from the left, without those of the category Binary.
fn compare_rows(columns: &[Column], a: &[ValueRef], b: &[ValueRef]) -> Ordering
    ensures { result ≡ row_cmp (columns_of columns.now) a.now b.now }
{
    let Some((column, columns)) = columns.split_first() else {
        return Ordering::Equal;
    };
    match (a.split_first(), b.split_first()) {
        (None, None) => Ordering::Equal,
        (None, Some(_)) => Ordering::Less,
        (Some(_), None) => Ordering::Greater,
        (Some((x, xs)), Some((y, ys))) => {
            if is_skipped(column) {
                return compare_rows(columns, xs, ys);
            }
            match x.cmp(y) {
                Ordering::Equal => compare_rows(columns, xs, ys),
                order => order,
            }
        }
    }
}

// Whether the order of rows passes over a column.
fn is_skipped(column: &Column) -> bool
    ensures { result ≡ is_skipped (column_of column.now).category }
{
    column.category() == Some(Category::Binary)
}

// Appends the rows as they stand, column after column. InvalidInput where a value can't stand in its column; then, and
// after Memory, more may have been appended.
fn append_rows(
    columns: &[Column],
    long: bool,
    out: &mut Vec<u8>,
    rows: &[Vec<ValueRef>],
) -> Result<(), Error>
    requires { HaveCells (length columns.now) (rows_held rows.now) }
    ensures bytes { AppendsBytes (rows_bytes long (kinds_of (columns_of columns.now))
        (rows_held rows.now)) out.old.items out.new.items result }
    ensures kept { (more : List ℕ) × (out.new.items ≡ out.old.items ++ more) }
{
    for index in 0..columns.len() {
        if let Err(error) = append_column(columns[index].coltype(), long, out, rows, index) {
            return Err(error);
        }
    }
    Ok(())
}

// Appends the cell at a place of each row.
fn append_column(
    coltype: ColumnType,
    long: bool,
    out: &mut Vec<u8>,
    rows: &[Vec<ValueRef>],
    index: usize,
) -> Result<(), Error>
    requires { AllLonger index (rows_held rows.now) }
    ensures bytes { AppendsBytes (column_bytes long coltype
        (first_cells (map (drop index) (rows_held rows.now)))) out.old.items out.new.items result }
    ensures kept { (more : List ℕ) × (out.new.items ≡ out.old.items ++ more) }
{
    for row in rows {
        if let Err(error) = coltype.write_value(out, row[index], long) {
            return Err(error);
        }
    }
    Ok(())
}
