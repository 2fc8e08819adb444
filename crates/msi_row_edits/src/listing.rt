//! Rows of an insert, listed by their keys.
ghost use Rattle.cfb_medium.specs.declared.error.Error.TheVariants.{Memory};
ghost use Rattle.std.specs.List.{zip};
ghost use Rattle.std.specs.List.Sorted.{IsSortedBy, IsStableBy};
ghost use Rattle.std.specs.Prelude.{◌≡◌, ◌++◌, ◌≤◌, drop, map, IfErr, IfOk, OnOk};
ghost use Rattle.msi_columns.specs.Held.{columns_of};
ghost use Rattle.msi_row_edits.specs.Valued.{kept_less, rows_said, StayWritable};
ghost use Rattle.msi_tables.specs.Held.{rows_held};
ghost use Rattle.msi_pool.specs.Pool.{Pool};
ghost use Rattle.msi_tables.specs.Rows.{IsArranged};
ghost use Rattle.msi_tables.specs.Table.{key_cmp, key_values, row_data, row_key_cmp};
ghost use Rattle.msi_values.specs.Borrowed.{borrowed_data};
ghost use Rattle.msi_values.specs.Datum.{data_of};

use cfb_medium::Error;
use msi_pool::{StringPool, ValueRef};
use msi_tables::Column;
use msi_values::{BorrowedValue, Value};
use std::alloc::{AllocError, Global};
use std::cmp::Ordering;

// The values of a stored row.
fn values_of<'a>(
    alloc: Global,
    pool: &'a StringPool,
    row: &[ValueRef],
) -> Result<Vec<BorrowedValue<'a>>, Error>
    ensures ok { IfOk result (λ values. borrowed_data values.items
        ≡ row_data pool.now.pool row.now) }
    ensures errors { IfErr result (λ e. e ≡ Memory) }
{
    let mut values = Vec::new(alloc);
    for cell in row {
        values.push(cell.as_borrowed(pool))?;
    }
    Ok(values)
}

// The values of a new row.
fn borrowed_row<'a>(alloc: Global, row: &'a [Value]) -> Result<Vec<BorrowedValue<'a>>, Error>
    ensures ok { IfOk result (λ values. borrowed_data values.items ≡ data_of row.now) }
    ensures errors { IfErr result (λ e. e ≡ Memory) }
{
    let mut values = Vec::new(alloc);
    for value in row {
        values.push(value.as_borrowed())?;
    }
    Ok(values)
}

// The values of stored rows.
pub(crate) fn stored_values<'a>(
    alloc: Global,
    pool: &'a StringPool,
    rows: &[Vec<ValueRef>],
) -> Result<Vec<Vec<BorrowedValue<'a>>>, Error>
    ensures ok { IfOk result (λ values. rows_said values.items
        ≡ map (row_data pool.now.pool) (rows_held rows.now)) }
    ensures errors { IfErr result (λ e. e ≡ Memory) }
{
    let mut values = Vec::new(alloc);
    for row in rows {
        values.push(values_of(alloc, pool, row)?)?;
    }
    Ok(values)
}

// The same with those of new rows behind them.
pub(crate) fn with_new_values<'a>(
    alloc: Global,
    stored: Vec<Vec<BorrowedValue<'a>>>,
    new_rows: &'a [Vec<Value>],
) -> Result<Vec<Vec<BorrowedValue<'a>>>, Error>
    ensures ok { IfOk result (λ values. rows_said values.items
        ≡ rows_said stored.entry.items ++ map (λ row. data_of row.items) new_rows.now) }
    ensures errors { IfErr result (λ e. e ≡ Memory) }
{
    let mut values = stored;
    for row in new_rows {
        values.push(borrowed_row(alloc, row)?)?;
    }
    Ok(values)
}

// Rows beside their values.
fn pairs_of<'a>(
    alloc: Global,
    values: Vec<Vec<BorrowedValue<'a>>>,
    rows: Vec<Vec<ValueRef>>,
) -> Result<Vec<(Vec<BorrowedValue<'a>>, Vec<ValueRef>)>, AllocError>
    ensures ok { IfOk result (λ pairs. pairs.items ≡ zip values.entry.items rows.items) }
{
    values.into_iter().zip(rows).collect(alloc)
}

// The rows alone.
fn rows_alone<'a>(
    alloc: Global,
    pairs: Vec<(Vec<BorrowedValue<'a>>, Vec<ValueRef>)>,
) -> Result<Vec<Vec<ValueRef>>, AllocError>
    ensures ok { IfOk result (λ rows. rows.items ≡ map (λ pair. pair.1) pairs.entry.items) }
{
    pairs.into_iter().map(|pair| pair.1).collect(alloc)
}

// The rows, whose values are given, in the order of their keys. The one error is `Memory`.
pub(crate) fn rows_in_order<'a>(
    alloc: Global,
    columns: &[Column],
    values: Vec<Vec<BorrowedValue<'a>>>,
    rows: Vec<Vec<ValueRef>>,
) -> Result<Vec<Vec<ValueRef>>, Error>
    ensures ok { IfOk result (λ listed. (pool : Pool) → rows_said values.entry.items
        ≡ map (row_data pool) (rows_held rows.items)
        → IsArranged (row_key_cmp pool (columns_of columns.now)) (rows_held rows.items)
        (rows_held listed.items)) }
    ensures writable { IfOk result (λ listed. StayWritable (rows_held rows.items)
        (rows_held listed.items)) }
    ensures errors { IfErr result (λ e. e ≡ Memory) }
{
    let mut pairs = pairs_of(alloc, values, rows)?;
    sort_by_keys(&mut pairs, columns)?;
    Ok(rows_alone(alloc, pairs)?)
}

// Brings rows into the order of their keys.
fn sort_by_keys<'a>(
    pairs: &mut Vec<(Vec<BorrowedValue<'a>>, Vec<ValueRef>)>,
    columns: &[Column],
) -> Result<(), AllocError>
    ensures sorted { OnOk result (IsSortedBy (kept_less (columns_of columns.now))
        pairs.new.items) }
    ensures stable { IsStableBy (kept_less (columns_of columns.now)) pairs.old.items
        pairs.new.items }
{
    pairs.sort_by(|a, b| compare_keys(columns, a.0.as_slice(), b.0.as_slice()))
}

// The order of the keys of two rows of values.
fn compare_keys(columns: &[Column], a: &[BorrowedValue<'_>], b: &[BorrowedValue<'_>]) -> Ordering
    ensures { result ≡ key_cmp (key_values (columns_of columns.now) (borrowed_data a.now))
        (key_values (columns_of columns.now) (borrowed_data b.now)) }
{
    let Some((column, columns)) = columns.split_first() else {
        return Ordering::Equal;
    };
    if !column.is_primary_key() {
        return compare_keys(columns, behind_first(a), behind_first(b));
    }
    match (a.split_first(), b.split_first()) {
        (None, None) => Ordering::Equal,
        (None, Some(_)) => Ordering::Less,
        (Some(_), None) => Ordering::Greater,
        (Some((x, xs)), Some((y, ys))) => match x.compare(*y) {
            Ordering::Equal => compare_keys(columns, xs, ys),
            order => order,
        },
    }
}

// The values behind the first.
fn behind_first<'a, 'b>(values: &'b [BorrowedValue<'a>]) -> &'b [BorrowedValue<'a>]
    ensures { result.now ≡ drop 1 values.now }
{
    match values {
        [] => values,
        [_, rest @ ..] => rest,
    }
}
