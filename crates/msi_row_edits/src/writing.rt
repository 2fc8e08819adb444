//! The rows that a query leaves a table, as bytes of its stream.
ghost use Rattle.cfb_medium.specs.declared.error.Error.TheVariants.{Memory};
ghost use Rattle.std.specs.List.{list_all};
ghost use Rattle.std.specs.Prelude.{◌≡◌, length, true, IfOk, MatchResult};
ghost use Rattle.std.specs.Rc.{rc_value};
ghost use Rattle.msi_changes.specs.Prepared.{AreChangesFor};
ghost use Rattle.msi_changes.specs.Said.{delete_condition, insert_rows, update_condition, update_sets};
ghost use Rattle.msi_row_edits.specs.Asked.{asked, deleting, inserting, updating, IsUnwritten, IsWrittenAs, ReturnsRows};
ghost use Rattle.msi_tables.specs.Held.{heading_of, rows_held};
ghost use Rattle.msi_tables.specs.Rows.{has_place, AreRowsWritable, HaveCells};

use crate::allowing::{is_system, may_update};
use crate::listing::{rows_in_order, stored_values, with_new_values};
use crate::query::RowsQuery;
use cfb_medium::Error;
use msi_changes::{Delete, Insert, StoredRows, Update};
use msi_pool::{PoolChanges, StringPool, ValueRef};
use msi_tables::Table;
use std::alloc::Global;
use std::rc::Rc;

/// What a query makes of a table with these rows: the bytes of the rows that it leaves, and what the pool has to take over. It is
/// refused as the query's `prepare` says, and as `InvalidInput` where it may not change one of the three tables that describe others.
/// The other error is `Memory`.
pub(crate) fn edited_rows(
    alloc: Global,
    table: &Rc<Table>,
    rows: Vec<Vec<ValueRef>>,
    pool: &StringPool,
    query: &RowsQuery<'_>,
) -> Result<(Vec<u8>, PoolChanges), Error>
    requires wide { pool.now.pool.long ≡ (heading_of (rc_value table.now)).long }
    requires writable { AreRowsWritable pool.now.pool.long (heading_of (rc_value table.now)).columns
        (rows_held rows.items) }
    ensures answer { ReturnsRows (asked query.now) (heading_of (rc_value table.now)) pool.now
        (rows_held rows.items) (λ e. e ≡ Memory) result }
    ensures changes { IfOk result (λ r. AreChangesFor pool.now r.1) }
{
    match query {
        RowsQuery::Insert(insert) => inserted_rows(alloc, table, rows, pool, insert),
        RowsQuery::Update(update) => updated_rows(alloc, table, rows, pool, update),
        RowsQuery::Delete(delete) => deleted_rows(alloc, table, rows, pool, delete),
    }
}

// The same of an insert.
fn inserted_rows(
    alloc: Global,
    table: &Table,
    rows: Vec<Vec<ValueRef>>,
    pool: &StringPool,
    insert: &Insert,
) -> Result<(Vec<u8>, PoolChanges), Error>
    requires wide { pool.now.pool.long ≡ (heading_of table.now).long }
    requires writable { AreRowsWritable pool.now.pool.long (heading_of table.now).columns
        (rows_held rows.items) }
    ensures answer { ReturnsRows (inserting (insert_rows insert.now))
        (heading_of table.now) pool.now
        (rows_held rows.items) (λ e. e ≡ Memory) result }
    ensures changes { IfOk result (λ r. AreChangesFor pool.now r.1) }
{
    let values = stored_values(alloc, pool, &rows)?;
    let stored = StoredRows::new(alloc, table, rows, pool)?;
    let (new_rows, changes) = match insert.prepare(alloc, &stored) {
        Err(error) => return Err(error),
        Ok(prepared) => prepared,
    };
    if is_system(table.name()) {
        return Err(Error::InvalidInput);
    }
    let values = with_new_values(alloc, values, insert.new_rows())?;
    let all = stored.with(new_rows)?;
    have_places(&all);
    let rows = rows_in_order(alloc, table.columns(), values, all)?;
    match bytes_of_table(alloc, table, rows) {
        Err(error) => Err(error),
        Ok(bytes) => Ok((bytes, changes)),
    }
}

// The same of a delete.
fn deleted_rows(
    alloc: Global,
    table: &Rc<Table>,
    rows: Vec<Vec<ValueRef>>,
    pool: &StringPool,
    delete: &Delete,
) -> Result<(Vec<u8>, PoolChanges), Error>
    requires wide { pool.now.pool.long ≡ (heading_of (rc_value table.now)).long }
    requires writable { AreRowsWritable pool.now.pool.long (heading_of (rc_value table.now)).columns
        (rows_held rows.items) }
    ensures answer { ReturnsRows (deleting (delete_condition delete.now))
        (heading_of (rc_value table.now)) pool.now (rows_held rows.items) (λ e. e ≡ Memory) result }
    ensures changes { IfOk result (λ r. AreChangesFor pool.now r.1) }
{
    if is_system(table.name()) {
        return Err(Error::InvalidInput);
    }
    let (rows, changes) = match delete.prepare(alloc, table, rows, pool) {
        Err(error) => return Err(error),
        Ok(prepared) => prepared,
    };
    have_places(&rows);
    match bytes_of_table(alloc, table, rows) {
        Err(error) => Err(error),
        Ok(bytes) => Ok((bytes, changes)),
    }
}

// The same of an update.
fn updated_rows(
    alloc: Global,
    table: &Rc<Table>,
    rows: Vec<Vec<ValueRef>>,
    pool: &StringPool,
    update: &Update,
) -> Result<(Vec<u8>, PoolChanges), Error>
    requires wide { pool.now.pool.long ≡ (heading_of (rc_value table.now)).long }
    requires writable { AreRowsWritable pool.now.pool.long (heading_of (rc_value table.now)).columns
        (rows_held rows.items) }
    ensures answer { ReturnsRows (updating (update_sets update.now) (update_condition update.now))
        (heading_of (rc_value table.now)) pool.now (rows_held rows.items) (λ e. e ≡ Memory) result }
    ensures changes { IfOk result (λ r. AreChangesFor pool.now r.1) }
{
    if !may_update(alloc, table, pool, update)? {
        return Err(Error::InvalidInput);
    }
    let (rows, changes) = match update.prepare(alloc, table, rows, pool) {
        Err(error) => return Err(error),
        Ok(prepared) => prepared,
    };
    have_places(&rows);
    match bytes_of_table(alloc, table, rows) {
        Err(error) => Err(error),
        Ok(bytes) => Ok((bytes, changes)),
    }
}

// The bytes of rows.
pub(crate) fn bytes_of_table(
    alloc: Global,
    table: &Table,
    rows: Vec<Vec<ValueRef>>,
) -> Result<Vec<u8>, Error>
    requires { HaveCells (length (heading_of table.now).columns) (rows_held rows.items) }
    ensures { MatchResult result (λ bytes. IsWrittenAs (heading_of table.now).long
        (heading_of table.now).columns (rows_held rows.items) bytes.items)
        (IsUnwritten (heading_of table.now).long (heading_of table.now).columns
        (rows_held rows.items)) }
{
    let mut bytes = Vec::new(alloc);
    match table.write_rows(&mut bytes, rows) {
        Err(error) => Err(error),
        Ok(()) => Ok(bytes),
    }
}

/// Each text of rows in memory has a place that three bytes hold.
pub(crate) fn have_places(rows: &[Vec<ValueRef>])
    ensures { list_all (λ row. list_all has_place row.items) rows.now ≡ true }
{
    for row in rows {
        has_places(row);
    }
}

// So has each of a row.
fn has_places(row: &[ValueRef])
    ensures { list_all has_place row.now ≡ true }
{
    for cell in row {
        has_its_place(*cell);
    }
}

// And that of a cell.
fn has_its_place(cell: ValueRef)
    ensures { has_place cell ≡ true }
{
    if let ValueRef::Str(place) = cell {
        let _number = place.number();
    }
}
