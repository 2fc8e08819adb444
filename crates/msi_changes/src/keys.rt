//! Keys of rows, whose values stand where they are kept.
ghost use Rattle.cfb_medium.specs.declared.error.Error.TheVariants.{Memory};
ghost use Rattle.std.specs.Prelude.{◌≡◌, ◌⊎◌, ◌++◌, [], false, true, map, OnOk, IfErr, IfOk, MatchOption, Err, Ok};
ghost use Rattle.msi_values.specs.Borrowed.{borrowed_data};
ghost use Rattle.msi_values.specs.Datum.{data_of};
ghost use Rattle.msi_changes.specs.Changes.{new_keys};
ghost use Rattle.msi_changes.specs.Keys.{HaveSameKeys, keys_said};
ghost use Rattle.msi_columns.specs.Held.{columns_of};
ghost use Rattle.msi_tables.specs.Held.{rows_held};
ghost use Rattle.msi_tables.specs.Table.{are_distinct, key_values, row_data};

use cfb_medium::Error;
use msi_pool::{StringPool, ValueRef};
use msi_tables::Column;
use msi_values::{BorrowedValue, Value};
use std::alloc::Global;
use std::collections::BTreeSet;

// The values of the key columns. The one error is `Memory`.
pub(crate) fn key_of<'a>(
    alloc: Global,
    columns: &[Column],
    values: &[BorrowedValue<'a>],
) -> Result<Vec<BorrowedValue<'a>>, Error>
    ensures ok { IfOk result (λ key. borrowed_data key.items
        ≡ key_values (columns_of columns.now) (borrowed_data values.now)) }
    ensures errors { IfErr result (λ e. e ≡ Memory) }
{
    let mut key = Vec::new(alloc);
    add_key_of(columns, values, &mut key)?;
    Ok(key)
}

// Adds the values of the key columns. The one error is `Memory`.
fn add_key_of<'a>(
    columns: &[Column],
    values: &[BorrowedValue<'a>],
    key: &mut Vec<BorrowedValue<'a>>,
) -> Result<(), Error>
    ensures ok { OnOk result (borrowed_data key.new.items
        ≡ borrowed_data key.old.items ++ key_values (columns_of columns.now)
        (borrowed_data values.now)) }
    ensures errors { IfErr result (λ e. e ≡ Memory) }
{
    match columns {
        [] => Ok(()),
        [column, columns @ ..] => match values {
            [] => Ok(()),
            [value, values @ ..] => {
                if column.is_primary_key() {
                    key.push(*value)?;
                }
                add_key_of(columns, values, key)
            }
        },
    }
}

// The values of a row. The one error is `Memory`.
pub(crate) fn values_of<'a>(
    alloc: Global,
    pool: &'a StringPool,
    row: &[ValueRef],
) -> Result<Vec<BorrowedValue<'a>>, Error>
    ensures ok { IfOk result (λ values. borrowed_data values.items
        ≡ row_data pool.now.pool row.now) }
    ensures errors { IfErr result (λ e. e ≡ Memory) }
{
    let mut values = Vec::new(alloc);
    for cell in row {
        values.push(cell.as_borrowed(pool))?;
    }
    Ok(values)
}

// The values of a row of values. The one error is `Memory`.
fn borrowed_row<'a>(alloc: Global, row: &'a [Value]) -> Result<Vec<BorrowedValue<'a>>, Error>
    ensures ok { IfOk result (λ values. borrowed_data values.items ≡ data_of row.now) }
    ensures errors { IfErr result (λ e. e ≡ Memory) }
{
    let mut values = Vec::new(alloc);
    for value in row {
        values.push(value.as_borrowed())?;
    }
    Ok(values)
}

// The keys of rows. The one error is `Memory`.
pub(crate) fn keys_of<'a>(
    alloc: Global,
    pool: &'a StringPool,
    columns: &[Column],
    rows: &[Vec<ValueRef>],
) -> Result<Vec<Vec<BorrowedValue<'a>>>, Error>
    ensures ok { IfOk result (λ keys. keys_said keys.items
        ≡ map (λ row. key_values (columns_of columns.now) (row_data pool.now.pool row))
        (rows_held rows.now)) }
    ensures errors { IfErr result (λ e. e ≡ Memory) }
{
    let mut keys = Vec::new(alloc);
    for row in rows {
        let values = values_of(alloc, pool, row)?;
        keys.push(key_of(alloc, columns, &values)?)?;
    }
    Ok(keys)
}

// The keys of rows of values. The one error is `Memory`.
pub(crate) fn keys_of_values<'a>(
    alloc: Global,
    columns: &[Column],
    rows: &'a [Vec<Value>],
) -> Result<Vec<Vec<BorrowedValue<'a>>>, Error>
    ensures ok { IfOk result (λ keys. keys_said keys.items
        ≡ map (key_values (columns_of columns.now)) (map (λ row. data_of row.items) rows.now)) }
    ensures errors { IfErr result (λ e. e ≡ Memory) }
{
    let mut keys = Vec::new(alloc);
    for row in rows {
        let values = borrowed_row(alloc, row)?;
        keys.push(key_of(alloc, columns, &values)?)?;
    }
    Ok(keys)
}

// The keys in their order, where none stands twice. The one error is `Memory`.
pub(crate) fn key_set<'a>(
    alloc: Global,
    keys: Vec<Vec<BorrowedValue<'a>>>,
) -> Result<Option<BTreeSet<Vec<BorrowedValue<'a>>>>, Error>
    ensures ok { IfOk result (λ found. MatchOption found
        (are_distinct (keys_said keys.entry.items) ≡ false)
        (λ set. (are_distinct (keys_said keys.entry.items) ≡ true)
        × HaveSameKeys (keys_said keys.entry.items) (keys_said set.keys))) }
    ensures errors { IfErr result (λ e. e ≡ Memory) }
{
    let mut set = BTreeSet::new(alloc);
    for key in keys {
        if !set.insert(key)? {
            return Ok(None);
        }
    }
    Ok(Some(set))
}

// Whether each new key in turn is neither stored (else `AlreadyExists`) nor an earlier new one (else `InvalidInput`).
pub(crate) fn check_new_keys<'a>(
    alloc: Global,
    stored: &BTreeSet<Vec<BorrowedValue<'a>>>,
    new: Vec<Vec<BorrowedValue<'a>>>,
) -> Result<(), Error>
    ensures ok { OnOk result (new_keys (keys_said stored.now.keys) [] (keys_said new.entry.items)
        ≡ Ok tt) }
    ensures errors { IfErr result (λ e. (e ≡ Memory)
        ⊎ (new_keys (keys_said stored.now.keys) [] (keys_said new.entry.items) ≡ Err e)) }
{
    let mut earlier = BTreeSet::new(alloc);
    for key in new {
        if stored.contains(&key) {
            return Err(Error::AlreadyExists);
        }
        if !earlier.insert(key)? {
            return Err(Error::InvalidInput);
        }
    }
    Ok(())
}
