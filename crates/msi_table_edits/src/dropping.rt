//! Tables of a package that are dropped.
ghost use Rattle.std.specs.Prelude.{◌≡◌, bytes_eq, filter, not, IfErr};
ghost use Rattle.cfb.specs.Views.{mini_of};
ghost use Rattle.cfb_fat.specs.Tables.{IsJustifiedBySectors};
ghost use Rattle.cfb_mini.specs.Views.{allocator_of};
ghost use Rattle.cfb_chain_io.specs.ChainEffects.{KeepsFileInvariants};
ghost use Rattle.msi_row_edits.specs.Edited.{EditFullOnlyWithoutRoom, IsEditError};
ghost use Rattle.msi_table_edits.specs.Drops.{DropsTable};
ghost use Rattle.msi_spec.specs.Calls.{Drops};
ghost use Rattle.msi_schema.specs.Headings.{headings_in};
ghost use Rattle.msi_store.specs.Stores.{file_in};

use crate::remaining::prepared_drop;
use crate::replacing::replace_streams;
use cfb_medium::{Error, Medium};
use msi_pool::StringPool;
use msi_store::Store;
use msi_streams::check_changeable;
use msi_tables::Table;
use std::alloc::Global;
use std::mem::replace;
use std::rc::Rc;

/// Drops a table of the package that a file stores: the rows of _Columns, _Tables and _Validation that speak of it, its own stream, and
/// the uses of all these texts in the pool. `Failed` after an earlier fault, `InvalidData` where the file isn't sound; then
/// `InvalidInput` for one of the three tables that describe others and for a name that no table can have, `NotFound` where no table
/// has the name or _Validation is none. The other errors are faults, `Full` among them where the container has no room. After an
/// error pool and tables are as they were, and nothing is changed, or the file has failed.
pub fn drop_table<F: Medium>(
    alloc: Global,
    store: &mut Store<F>,
    pool: &mut StringPool,
    name: &str,
) -> Result<(), Error>
    ensures drops { DropsTable name.now result store.old store.new pool.old pool.new }
    ensures full_only_if { EditFullOnlyWithoutRoom
        (λ P Q answer. Drops P name.now Q answer) result store.old store.new
        pool.old }
    ensures invariants { KeepsFileInvariants (allocator_of (mini_of (file_in store.old)))
        (allocator_of (mini_of (file_in store.new))) }
    ensures cause { IfErr result (IsJustifiedBySectors (allocator_of (mini_of (file_in store.old)))
        (allocator_of (mini_of (file_in store.new)))) }
    ensures errors { IfErr result IsEditError }
{
    // (an empty pool takes no memory)
    let empty = StringPool::new(alloc, pool.codepage());
    let (back, result) = drop_with(alloc, store, replace(pool, empty), name);
    *pool = back;
    result
}

// The same with a pool by value, which comes back.
fn drop_with<F: Medium>(
    alloc: Global,
    store: &mut Store<F>,
    pool: StringPool,
    name: &str,
) -> (StringPool, Result<(), Error>)
    ensures drops { DropsTable name.now result.1 store.old store.new pool result.0 }
    ensures full_only_if { EditFullOnlyWithoutRoom
        (λ P Q answer. Drops P name.now Q answer) result.1
        store.old store.new pool }
    ensures invariants { KeepsFileInvariants (allocator_of (mini_of (file_in store.old)))
        (allocator_of (mini_of (file_in store.new))) }
    ensures cause { IfErr result.1
        (IsJustifiedBySectors (allocator_of (mini_of (file_in store.old)))
        (allocator_of (mini_of (file_in store.new)))) }
    ensures errors { IfErr result.1 IsEditError }
{
    match check_changeable(&store.file) {
        Err(error) => return (pool, Err(error)),
        Ok(()) => {}
    }
    let (bytes, changes) = match prepared_drop(alloc, &mut store.file, &store.tables, &pool, name) {
        Err(error) => return (pool, Err(error)),
        Ok(remains) => remains,
    };
    let ready = match pool.make_room(changes) {
        Err((pool, error)) => return (pool, Err(error)),
        Ok(ready) => ready,
    };
    match replace_streams(alloc, &mut store.file, name, &bytes) {
        Err(error) => (ready.give_up(), Err(error)),
        Ok(()) => {
            take_out(&mut store.tables, name);
            (ready.adopt(), Ok(()))
        }
    }
}

// Takes the tables of a name out of those in memory.
fn take_out(tables: &mut Vec<Rc<Table>>, name: &str)
    ensures { headings_in tables.new.items ≡ filter (λ h. not (bytes_eq h.name name.now))
        (headings_in tables.old.items) }
{
    tables.retain(|table| table.name() != name);
}
