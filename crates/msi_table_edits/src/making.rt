//! Tables that are made.
ghost use Rattle.std.specs.Prelude.{IfErr};
ghost use Rattle.cfb.specs.Views.{file_case_table, mini_of};
ghost use Rattle.cfb_fat.specs.Tables.{IsJustifiedBySectors};
ghost use Rattle.cfb_mini.specs.Views.{allocator_of};
ghost use Rattle.cfb_chain_io.specs.ChainEffects.{KeepsFileInvariants};
ghost use Rattle.msi_columns.specs.Held.{columns_of};
ghost use Rattle.msi_row_edits.specs.Edited.{EditFullOnlyWithoutRoom, IsEditError};
ghost use Rattle.msi_table_edits.specs.Making.{ChangesTableSet};
ghost use Rattle.msi_spec.specs.Calls.{Creates};
ghost use Rattle.msi_store.specs.Stores.{file_in};

use crate::describing::{NewTable, prepared_table};
use crate::putting::put_three;
use cfb_medium::{Error, Medium};
use msi_pool::StringPool;
use msi_row_edits::check_changeable;
use msi_store::Store;
use msi_tables::Column;
use std::alloc::Global;
use std::mem::replace;

/// Makes a table of this name with these columns in the package that a file stores. `Failed` after an earlier fault, `InvalidData` where
/// the file isn't sound; then `InvalidInput` for a name or columns that no table can have, `AlreadyExists` where a table has the name,
/// `NotFound` where the package has no table _Validation, `InvalidInput` where the rows that describe it can't be kept, `AlreadyExists`
/// where _Validation describes one of its columns already or a storage stands at its name, `InvalidInput` where one of the three
/// tables that describe others would have more than 65536 rows or the pool is full. The other errors are faults, `Full` among them where
/// the container has no room. After an error pool and tables are as they were, and nothing is changed, or the file has failed: so it has
/// where one of the three was written, and another wasn't.
pub fn create_table<F: Medium>(
    alloc: Global,
    store: &mut Store<F>,
    pool: &mut StringPool,
    name: &str,
    columns: Vec<Column>,
) -> Result<(), Error>
    ensures makes { ChangesTableSet
        (λ P Q answer. Creates (file_case_table (file_in store.old)) P name.now
        (columns_of columns.items) Q answer) result store.old store.new pool.old pool.new }
    ensures full_only_if { EditFullOnlyWithoutRoom
        (λ P Q answer. Creates (file_case_table (file_in store.old)) P name.now
        (columns_of columns.items) Q answer) result store.old store.new pool.old }
    ensures invariants { KeepsFileInvariants (allocator_of (mini_of (file_in store.old)))
        (allocator_of (mini_of (file_in store.new))) }
    ensures cause { IfErr result (IsJustifiedBySectors (allocator_of (mini_of (file_in store.old)))
        (allocator_of (mini_of (file_in store.new)))) }
    ensures errors { IfErr result IsEditError }
{
    // (an empty pool takes no memory)
    let empty = StringPool::new(alloc, pool.codepage());
    let (back, result) = create_with(alloc, store, replace(pool, empty), name, columns);
    *pool = back;
    result
}

// The same with a pool that is given. It comes back, with the uses of the texts as they are then, or as it was.
fn create_with<F: Medium>(
    alloc: Global,
    store: &mut Store<F>,
    pool: StringPool,
    name: &str,
    columns: Vec<Column>,
) -> (StringPool, Result<(), Error>)
    ensures makes { ChangesTableSet
        (λ P Q answer. Creates (file_case_table (file_in store.old)) P name.now
        (columns_of columns.items) Q answer) result.1 store.old store.new pool result.0 }
    ensures full_only_if { EditFullOnlyWithoutRoom
        (λ P Q answer. Creates (file_case_table (file_in store.old)) P name.now
        (columns_of columns.items) Q answer) result.1 store.old store.new pool }
    ensures invariants { KeepsFileInvariants (allocator_of (mini_of (file_in store.old)))
        (allocator_of (mini_of (file_in store.new))) }
    ensures cause { IfErr result.1
        (IsJustifiedBySectors (allocator_of (mini_of (file_in store.old)))
        (allocator_of (mini_of (file_in store.new)))) }
    ensures errors { IfErr result.1 IsEditError }
{
    match check_changeable(&store.file) {
        Err(error) => return (pool, Err(error)),
        Ok(()) => {}
    }
    let it = match prepared_table(alloc, &mut store.file, &store.tables, &pool, name, columns) {
        Err(error) => return (pool, Err(error)),
        Ok(it) => it,
    };
    let NewTable {
        tables,
        changes,
        columns_bytes,
        tables_bytes,
        validation_bytes,
    } = it;
    let ready = match pool.make_room(changes) {
        Err((pool, error)) => return (pool, Err(error)),
        Ok(ready) => ready,
    };
    match put_three(
        alloc,
        &mut store.file,
        &columns_bytes,
        &tables_bytes,
        &validation_bytes,
    ) {
        Err(error) => return (ready.give_up(), Err(error)),
        Ok(()) => {}
    }
    store.tables = tables;
    (ready.adopt(), Ok(()))
}
