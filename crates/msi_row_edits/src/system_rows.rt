//! Streams of tables: the bytes of rows listed by their keys, and bytes that are put.
ghost use Rattle.std.specs.Prelude.{◌≡◌, ◌++◌, false, length, map, All, IfErr, IfOk, IsErrOf, IsTrue, OnOk};
ghost use Rattle.std.specs.List.{list_all};
ghost use Rattle.cfb.specs.Views.{mini_of};
ghost use Rattle.cfb_fat.specs.Tables.{has_failed_here, IsJustifiedBySectors};
ghost use Rattle.cfb_medium.specs.declared.error.Error.TheVariants.{Full, Memory};
ghost use Rattle.cfb_mini.specs.Views.{allocator_of};
ghost use Rattle.cfb_chain_io.specs.ChainEffects.{KeepsFileInvariants};
ghost use Rattle.msi_row_edits.specs.Edited.{IsEditError, PutsTable};
ghost use Rattle.msi_row_edits.specs.Asked.{IsWrittenByKeys};
ghost use Rattle.msi_spec.specs.Package.{stream_name};
ghost use Rattle.msi_stored.specs.Room.{IsFullForName};
ghost use Rattle.msi_tables.specs.Held.{heading_of, rows_held};
ghost use Rattle.msi_pool.specs.Pool.{Pool};
ghost use Rattle.msi_tables.specs.Rows.{has_place, AreRowsWritable};
ghost use Rattle.msi_tables.specs.Table.{row_data};
ghost use Rattle.msi_values.specs.Datum.{data_of};

use crate::listing::{rows_in_order, stored_values, with_new_values};
use crate::writing::{bytes_of_table, have_places};
use cfb::CompoundFile;
use cfb_medium::{Error, Medium};
use msi_pool::{StringPool, ValueRef};
use msi_tables::Table;
use msi_texts::encode;
use msi_values::Value;
use std::alloc::Global;

/// The bytes of a table's stream that holds these rows, listed by their keys and then in the stored order. The one error is `Memory`.
pub fn bytes_by_keys(
    alloc: Global,
    table: &Table,
    pool: &StringPool,
    rows: Vec<Vec<ValueRef>>,
) -> Result<Vec<u8>, Error>
    requires { AreRowsWritable (heading_of table.now).long (heading_of table.now).columns
        (rows_held rows.items) }
    ensures ok { IfOk result (λ bytes. IsWrittenByKeys pool.now.pool (heading_of table.now).long
        (heading_of table.now).columns (rows_held rows.items) bytes.items) }
    ensures errors { IfErr result (λ e. e ≡ Memory) }
{
    let values = stored_values(alloc, pool, &rows)?;
    let rows = rows_in_order(alloc, table.columns(), values, rows)?;
    match bytes_of_table(alloc, table, rows) {
        Err(error) => Err(error),
        Ok(bytes) => Ok(bytes),
    }
}

/// The bytes of a table's stream that holds these rows and cells of new ones behind them, listed by their keys and then in the stored
/// order, in each pool in which the old rows are read as in this one and the new ones as these values. Each text of theirs has a place
/// that three bytes hold. The one error is `Memory`.
pub fn bytes_with_new_rows(
    alloc: Global,
    table: &Table,
    pool: &StringPool,
    rows: Vec<Vec<ValueRef>>,
    cells: Vec<Vec<ValueRef>>,
    new_rows: &[Vec<Value>],
) -> Result<Vec<u8>, Error>
    requires { AreRowsWritable (heading_of table.now).long (heading_of table.now).columns
        (rows_held rows.items ++ rows_held cells.items) }
    ensures ok { IfOk result (λ bytes. (next : Pool)
        → map (row_data next) (rows_held rows.items ++ rows_held cells.items)
        ≡ map (row_data pool.now.pool) (rows_held rows.items)
        ++ map (λ row. data_of row.items) new_rows.now
        → IsWrittenByKeys next (heading_of table.now).long (heading_of table.now).columns
        (rows_held rows.items ++ rows_held cells.items) bytes.items) }
    ensures places { IfOk result (λ bytes. All (λ row. IsTrue (list_all has_place row))
        (rows_held rows.items ++ rows_held cells.items)) }
    ensures errors { IfErr result (λ e. e ≡ Memory) }
{
    let old_values = stored_values(alloc, pool, &rows)?;
    let values = with_new_values(alloc, old_values, new_rows)?;
    let mut joined = rows;
    let mut behind = cells;
    joined.append(&mut behind)?;
    have_places(&joined);
    let listed = rows_in_order(alloc, table.columns(), values, joined)?;
    match bytes_of_table(alloc, table, listed) {
        Err(error) => Err(error),
        Ok(bytes) => Ok(bytes),
    }
}

/// Puts the bytes as the stream of the table of a name. `Full` where a stream of the file can't have so many, or numbers of entries or
/// sectors are missing. The other errors are those of `put_stream`.
pub fn put_table_bytes<F: Medium>(
    alloc: Global,
    file: &mut CompoundFile<F>,
    name: &str,
    bytes: &[u8],
) -> Result<(), Error>
    ensures puts { PutsTable name.now bytes.now result file.old file.new }
    ensures full_only_if { IsErrOf result Full
        → has_failed_here (allocator_of (mini_of file.new)) ≡ false
        → IsFullForName file.old (stream_name name.now) (length bytes.now) }
    ensures not_failed { OnOk result (has_failed_here (allocator_of (mini_of file.new)) ≡ false) }
    ensures cause { IfErr result (IsJustifiedBySectors (allocator_of (mini_of file.old))
        (allocator_of (mini_of file.new))) }
    ensures errors { IfErr result IsEditError }
    ensures invariants { KeepsFileInvariants (allocator_of (mini_of file.old))
        (allocator_of (mini_of file.new)) }
{
    let path = match encode(alloc, name, true) {
        Err(error) => return Err(error),
        Ok(path) => path,
    };
    if bytes.len() as u64 > file.version().stream_len_mask() {
        return Err(Error::Full);
    }
    file.put_stream(path.as_str(), bytes)
}
