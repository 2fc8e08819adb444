//! Packages that get an empty _Validation.
ghost use Rattle.std.specs.Prelude.{IfErr};
ghost use Rattle.cfb.specs.Views.{file_case_table, mini_of};
ghost use Rattle.cfb_fat.specs.Tables.{IsJustifiedBySectors};
ghost use Rattle.cfb_mini.specs.Views.{allocator_of};
ghost use Rattle.cfb_chain_io.specs.ChainEffects.{KeepsFileInvariants};
ghost use Rattle.msi_row_edits.specs.Edited.{EditFullOnlyWithoutRoom, IsEditError};
ghost use Rattle.msi_table_edits.specs.Making.{ChangesTableSet};
ghost use Rattle.msi_table_edits.specs.Validating.{Validates};
ghost use Rattle.msi_store.specs.Stores.{file_in};

use crate::listing::{NewListing, prepared_validation};
use crate::putting::put_two;
use cfb_medium::{Error, Medium};
use msi_pool::StringPool;
use msi_row_edits::check_changeable;
use msi_store::Store;
use std::alloc::Global;
use std::mem::replace;

/// Gives the package that a file stores an empty table _Validation, which the tables that are there list: ten rows more in _Columns, one
/// in _Tables, and no stream of its own. No row speaks of its columns, so they say nothing of ranges, categories and choices. `Failed`
/// after an earlier fault, `InvalidData` where the file isn't sound; then `AlreadyExists` where the package has a table _Validation, or a
/// storage stands at its encoded name, `InvalidInput` where _Columns or _Tables would have more than 65536 rows or the pool is full. The
/// other errors are faults, `Full` among them where the container has no room. After an error pool and tables are as they were, and
/// nothing is changed, or the file has failed: so it has where one of the two was written, and the other wasn't.
pub fn add_validation<F: Medium>(
    alloc: Global,
    store: &mut Store<F>,
    pool: &mut StringPool,
) -> Result<(), Error>
    ensures makes { ChangesTableSet
        (λ P Q answer. Validates (file_case_table (file_in store.old)) P Q answer)
        result store.old store.new pool.old pool.new }
    ensures full_only_if { EditFullOnlyWithoutRoom
        (λ P Q answer. Validates (file_case_table (file_in store.old)) P Q answer)
        result store.old store.new pool.old }
    ensures invariants { KeepsFileInvariants (allocator_of (mini_of (file_in store.old)))
        (allocator_of (mini_of (file_in store.new))) }
    ensures cause { IfErr result (IsJustifiedBySectors (allocator_of (mini_of (file_in store.old)))
        (allocator_of (mini_of (file_in store.new)))) }
    ensures errors { IfErr result IsEditError }
{
    // (an empty pool takes no memory)
    let empty = StringPool::new(alloc, pool.codepage());
    let (back, result) = add_with(alloc, store, replace(pool, empty));
    *pool = back;
    result
}

// The same with a pool that is given. It comes back, with the uses of the texts as they are then, or as it was.
fn add_with<F: Medium>(
    alloc: Global,
    store: &mut Store<F>,
    pool: StringPool,
) -> (StringPool, Result<(), Error>)
    ensures makes { ChangesTableSet
        (λ P Q answer. Validates (file_case_table (file_in store.old)) P Q answer)
        result.1 store.old store.new pool result.0 }
    ensures full_only_if { EditFullOnlyWithoutRoom
        (λ P Q answer. Validates (file_case_table (file_in store.old)) P Q answer)
        result.1 store.old store.new pool }
    ensures invariants { KeepsFileInvariants (allocator_of (mini_of (file_in store.old)))
        (allocator_of (mini_of (file_in store.new))) }
    ensures cause { IfErr result.1
        (IsJustifiedBySectors (allocator_of (mini_of (file_in store.old)))
        (allocator_of (mini_of (file_in store.new)))) }
    ensures errors { IfErr result.1 IsEditError }
{
    match check_changeable(&store.file) {
        Err(error) => return (pool, Err(error)),
        Ok(()) => {}
    }
    let it = match prepared_validation(alloc, &mut store.file, &store.tables, &pool) {
        Err(error) => return (pool, Err(error)),
        Ok(it) => it,
    };
    let NewListing {
        tables,
        changes,
        columns_bytes,
        tables_bytes,
    } = it;
    let ready = match pool.make_room(changes) {
        Err((pool, error)) => return (pool, Err(error)),
        Ok(ready) => ready,
    };
    match put_two(alloc, &mut store.file, &columns_bytes, &tables_bytes) {
        Err(error) => return (ready.give_up(), Err(error)),
        Ok(()) => {}
    }
    store.tables = tables;
    (ready.adopt(), Ok(()))
}
