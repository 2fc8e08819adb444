//! Reading the rows of a table's stream.

ghost use Rattle.std.specs.Prelude.{◌≡◌, ◌*◌, ◌+◌, ◌<◌, ◌≤◌, ◌^◌, ℕ, List, length, map, IfOk, SomeIff};
ghost use Rattle.msi_tables.specs.Rows.{row_at, row_width, row_count, kinds_of, numbers_from, IsRead};
ghost use Rattle.msi_columns.specs.Held.{columns_of};
ghost use Rattle.msi_tables.specs.Held.{rows_held};

use cfb_medium::Error;
use msi_columns::{Column, ColumnType};
use msi_pool::ValueRef;
use std::alloc::{AllocError, Global};

// The greatest number of rows in a table.
const MAX_ROWS: usize = 65536;

// The rows that the bytes hold, column after column. InvalidData where there are too many.
pub(crate) fn read_rows(
    alloc: Global,
    columns: &[Column],
    long: bool,
    bytes: &[u8],
) -> Result<Vec<Vec<ValueRef>>, Error>
    ensures { IsRead long (kinds_of (columns_of columns.now)) bytes.now result }
{
    let kinds = kinds_of(alloc, columns)?;
    let count = row_count(&kinds, long, bytes.len());
    if count > MAX_ROWS {
        return Err(Error::InvalidData);
    }
    Ok(read_counted(alloc, &kinds, long, count, bytes)?)
}

// The types of columns.
fn kinds_of(alloc: Global, columns: &[Column]) -> Result<Vec<ColumnType>, AllocError>
    ensures { IfOk result (λ kinds. kinds.items ≡ kinds_of (columns_of columns.now)) }
{
    let mut kinds = Vec::new(alloc);
    for column in columns {
        kinds.push(column.coltype())?;
    }
    Ok(kinds)
}

// The bytes of a row; none where they are more than a number holds.
fn row_width(kinds: &[ColumnType], long: bool) -> Option<usize>
    ensures { SomeIff result (row_width long kinds.now < 2 ^ 64) (row_width long kinds.now) }
{
    let mut width: usize = 0;
    for kind in kinds {
        width = width.checked_add(kind.width(long) as usize)?;
    }
    Some(width)
}

// How many whole rows so many bytes hold.
fn row_count(kinds: &[ColumnType], long: bool, len: usize) -> usize
    ensures count { (bytes : List ℕ) → length bytes ≡ len
        → result ≡ row_count long kinds.now bytes }
    ensures fits { result * row_width long kinds.now ≤ len }
{
    match row_width(kinds, long) {
        None => 0,
        Some(0) => 0,
        Some(width) => len / width,
    }
}

// So many rows.
fn read_counted(
    alloc: Global,
    kinds: &[ColumnType],
    long: bool,
    count: usize,
    bytes: &[u8],
) -> Result<Vec<Vec<ValueRef>>, AllocError>
    requires bytes { count * row_width long kinds.now ≤ length bytes.now }
    requires bound { count ≤ 65536 }
    ensures { IfOk result (λ rows. rows_held rows.items
        ≡ map (row_at long count bytes.now 0 kinds.now) (numbers_from 0 count)) }
{
    let mut rows = Vec::new(alloc);
    for r in 0..count {
        rows.push(read_row(alloc, kinds, long, count, bytes, r)?)?;
    }
    Ok(rows)
}

// Row `r` of `n` rows that the bytes hold.
fn read_row(
    alloc: Global,
    kinds: &[ColumnType],
    long: bool,
    n: usize,
    bytes: &[u8],
    r: usize,
) -> Result<Vec<ValueRef>, AllocError>
    requires row { r < n }
    requires bytes { n * row_width long kinds.now ≤ length bytes.now }
    requires bound { n ≤ 65536 }
    ensures { IfOk result (λ row. row.items ≡ row_at long n bytes.now 0 kinds.now r) }
{
    let mut row = Vec::new(alloc);
    let mut before = 0;
    for kind in kinds {
        let width = kind.width(long) as usize;
        let start = n * before + r * width;
        row.push(kind.cell_of(&bytes[start..start + width], long))?;
        before += width;
    }
    Ok(row)
}
