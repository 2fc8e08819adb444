//! New values for the columns of a row, as an update sets them.
ghost use Rattle.msi_values.specs.Borrowed.{borrowed_data};
ghost use Rattle.msi_changes.specs.Changes.{cell_set, cells_set, is_valid_set, option_first, values_set};
ghost use Rattle.msi_changes.specs.Said.{set_of, sets_of};
ghost use Rattle.msi_columns.specs.Column.{column_place};
ghost use Rattle.msi_tables.specs.Held.{heading_of};
ghost use Rattle.msi_texts.specs.Results.{ReturnsOrOutOfMemory};
ghost use Rattle.std.specs.List.{list_all, list_any};
ghost use Rattle.std.specs.Prelude.{◌≡◌, false, slice_set, string_bytes};

use crate::counting::{count_value, take_back_cell};
use cfb_medium::Error;
use msi_pool::{Draft, ValueRef};
use msi_tables::Table;
use msi_values::{BorrowedValue, Value};
use std::alloc::Global;

// Whether the table has the column, and it takes the value.
#[tactic(auto, using(crate::proofs::Updating::valid_found, crate::proofs::Updating::valid_missed))]
fn is_set(table: &Table, set: &(String, Value)) -> bool
    ensures { result ≡ is_valid_set (heading_of table.now).columns (set_of set.now) }
{
    match table.get_column(&set.0) {
        Some(column) => column.is_valid_value(&set.1),
        None => false,
    }
}

// Whether the table has all these columns, and each takes its value.
pub(crate) fn are_sets(table: &Table, sets: &[(String, Value)]) -> bool
    ensures { result
        ≡ list_all (λ set. is_valid_set (heading_of table.now).columns (set_of set)) sets.now }
{
    sets.iter().all(|set| is_set(table, set))
}

// Whether the column belongs to the key.
#[tactic(auto, using(crate::proofs::Updating::key_found, crate::proofs::Updating::key_missed))]
fn is_of_key(table: &Table, set: &(String, Value)) -> bool
    ensures { result
        ≡ list_any (λ column. column.key) (option_first
        (column_place (heading_of table.now).columns (string_bytes set.now.0))
        (heading_of table.now).columns) }
{
    match table.get_column(&set.0) {
        Some(column) => column.is_primary_key(),
        None => false,
    }
}

// Whether a column of the key is among those that are set.
pub(crate) fn sets_key(table: &Table, sets: &[(String, Value)]) -> bool
    ensures { result
        ≡ list_any (λ set. list_any (λ column. column.key)
        (option_first (column_place (heading_of table.now).columns (string_bytes set.0))
        (heading_of table.now).columns)) sets.now }
{
    sets.iter().any(|set| is_of_key(table, set))
}

// Puts an item in its place, if it is there.
#[tactic(auto, using(crate::proofs::Updating::set_past))]
fn put<T: Drop>(items: &mut Vec<T>, place: usize, item: T)
    ensures { items.new.items ≡ slice_set items.old.items place item }
{
    if place < items.len() {
        items[place] = item;
    }
}

// Sets values of a row.
#[tactic(auto, using(crate::proofs::Updating::set_said))]
pub(crate) fn set_values<'a>(
    table: &Table,
    values: &mut Vec<BorrowedValue<'a>>,
    sets: &'a [(String, Value)],
)
    ensures { borrowed_data values.new.items
        ≡ values_set (heading_of table.now).columns (borrowed_data values.old.items)
        (sets_of sets.now) }
{
    for (name, value) in sets {
        let place = table.index_for_column_name(name).unwrap_or(0);
        put(values, place, value.as_borrowed());
    }
}

// Sets a cell of a row: the use of the old text is taken back, and the new one is counted. `InvalidData` where the old one
// has no use, `InvalidInput` where the pool is full.
fn set_cell(
    alloc: Global,
    table: &Table,
    pool: &mut Draft<'_>,
    row: &mut Vec<ValueRef>,
    set: &(String, Value),
) -> Result<(), Error>
    ensures sets { ReturnsOrOutOfMemory (λ _. (row.new.items, pool.new.state.pool)) result
        (cell_set (heading_of table.now).columns pool.old.state.pool
        row.old.items (set_of set.now)) }
    ensures marked { pool.new.state.modified ≡ false → pool.new.state ≡ pool.old.state }
    ensures under { pool.new.under ≡ pool.old.under }
{
    let place = table.index_for_column_name(&set.0).unwrap_or(0);
    let old = row.get(place).copied().unwrap_or(ValueRef::Null);
    match take_back_cell(pool, old) {
        Err(error) => return Err(error),
        Ok(()) => {}
    }
    let new = match count_value(alloc, pool, &set.1) {
        Err(error) => return Err(error),
        Ok(new) => new,
    };
    put(row, place, new);
    Ok(())
}

// Sets cells of a row, each in turn.
pub(crate) fn set_cells(
    alloc: Global,
    table: &Table,
    pool: &mut Draft<'_>,
    row: &mut Vec<ValueRef>,
    sets: &[(String, Value)],
) -> Result<(), Error>
    ensures sets { ReturnsOrOutOfMemory (λ _. (row.new.items, pool.new.state.pool)) result
        (cells_set (heading_of table.now).columns pool.old.state.pool
        row.old.items (sets_of sets.now)) }
    ensures marked { pool.new.state.modified ≡ false → pool.new.state ≡ pool.old.state }
    ensures under { pool.new.under ≡ pool.old.under }
{
    for set in sets {
        set_cell(alloc, table, pool, row, set)?;
    }
    Ok(())
}
