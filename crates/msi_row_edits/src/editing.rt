//! Queries that change tables of a package.
ghost use Rattle.std.specs.Prelude.{◌≡◌, ◌⊎◌, false, true, length, IfErr, IfOk, IsErrOf, List, OnOk, Some, find, bytes_eq, option_map};
ghost use Rattle.std.specs.Rc.{rc_value};
ghost use Rattle.cfb.specs.Streams.{FileHoldsTree};
ghost use Rattle.cfb.specs.Views.{file_case_table, mini_of, sound_of, OnlyReadsFile};
ghost use Rattle.cfb_fat.specs.Tables.{has_failed_here, IsJustifiedBySectors};
ghost use Rattle.cfb_medium.specs.Calls.{IsFaultOrInvalidInputIf};
ghost use Rattle.cfb_medium.specs.declared.error.Error.TheVariants.{Failed, Full, InvalidData};
ghost use Rattle.cfb_mini.specs.Views.{allocator_of};
ghost use Rattle.cfb_chain_io.specs.ChainEffects.{KeepsFileInvariants};
ghost use Rattle.cfb_tree.specs.Tree.{Tree};
ghost use Rattle.msi_changes.specs.Prepared.{AreChangesFor};
ghost use Rattle.msi_changes.specs.Said.{delete_condition, delete_name, insert_name, insert_rows, update_condition, update_name, update_sets};
ghost use Rattle.msi_row_edits.specs.Asked.{asked, rule_of, ReturnsRows};
ghost use Rattle.msi_row_edits.specs.Edited.{EditsPackageRows, EditsTable, EditFullOnlyWithoutRoom, FillsTable, IsEditError, IsEditErrorButFull, PutsTable};
ghost use Rattle.msi_spec.specs.Calls.{Deletes, Inserts, Updates};
ghost use Rattle.msi_spec.specs.Package.{stream_name};
ghost use Rattle.msi_store.specs.Stores.{file_in};
ghost use Rattle.msi_stored.specs.Room.{IsFullForName};
ghost use Rattle.msi_stored.specs.StoredPackages.{rows_in};
ghost use Rattle.msi_tables.specs.Held.{heading_of};
ghost use Rattle.msi_tables.specs.Rows.{Row};

use crate::query::RowsQuery;
use crate::system_rows::put_table_bytes;
use crate::writing::edited_rows;
use cfb::CompoundFile;
use cfb_medium::{Error, Medium, ReadMedium};
use msi_changes::{Delete, Insert, Update};
use msi_pool::{PoolChanges, StringPool};
use msi_store::{Store, rows_of_table};
use msi_tables::Table;
use std::alloc::Global;
use std::mem::replace;
use std::rc::Rc;

// What a query makes of a table, whose rows are read: the bytes of those that it leaves, and what the pool has to take over. The file
// is only read. `InvalidData` where the table has too many rows, or its references aren't as wide as the pool's.
fn prepared_edit<F: ReadMedium>(
    alloc: Global,
    file: &mut CompoundFile<F>,
    table: &Rc<Table>,
    pool: &StringPool,
    query: &RowsQuery<'_>,
) -> Result<(Vec<u8>, PoolChanges), Error>
    ensures answer { (tree : Tree) → FileHoldsTree file.old tree
        → pool.now.pool.long ≡ (heading_of (rc_value table.now)).long → (rows : List Row)
        → rows_in (file_case_table file.old) tree (heading_of (rc_value table.now)) ≡ Some rows
        → ReturnsRows (asked query.now) (heading_of (rc_value table.now)) pool.now rows
        (IsFaultOrInvalidInputIf ⊥) result }
    ensures changes { IfOk result (λ r. AreChangesFor pool.now r.1) }
    ensures only_reads { OnlyReadsFile file.old file.new }
    ensures cause { IfErr result (IsJustifiedBySectors (allocator_of (mini_of file.old))
        (allocator_of (mini_of file.new))) }
    ensures errors { IfErr result IsEditErrorButFull }
{
    let rows = match rows_of_table(alloc, file, table) {
        Err(error) => return Err(error),
        Ok(rows) => rows,
    };
    if table.long_string_refs() != pool.long_string_refs() {
        return Err(Error::InvalidData);
    }
    edited_rows(alloc, table, rows, pool, query)
}

// Puts the bytes as the table's stream.
fn put_bytes<F: Medium>(
    alloc: Global,
    file: &mut CompoundFile<F>,
    table: &Table,
    bytes: &[u8],
) -> Result<(), Error>
    ensures puts { PutsTable (heading_of table.now).name bytes.now result file.old file.new }
    ensures full_only_if { IsErrOf result Full
        → has_failed_here (allocator_of (mini_of file.new)) ≡ false
        → IsFullForName file.old (stream_name (heading_of table.now).name) (length bytes.now) }
    ensures cause { IfErr result (IsJustifiedBySectors (allocator_of (mini_of file.old))
        (allocator_of (mini_of file.new))) }
    ensures errors { IfErr result IsEditError }
    ensures invariants { KeepsFileInvariants (allocator_of (mini_of file.old))
        (allocator_of (mini_of file.new)) }
{
    put_table_bytes(alloc, file, table.name(), bytes)
}

// Changes a table of the package. The pool comes back, with the uses of the texts as they are then, or as it was.
fn edit_table<F: Medium>(
    alloc: Global,
    file: &mut CompoundFile<F>,
    table: &Rc<Table>,
    pool: StringPool,
    query: &RowsQuery<'_>,
) -> (StringPool, Result<(), Error>)
    ensures edits { EditsTable (rule_of (asked query.now) (heading_of (rc_value table.now)).name)
        (heading_of (rc_value table.now)) result.1 file.old file.new pool result.0 }
    ensures full_only_if { FillsTable
        (rule_of (asked query.now) (heading_of (rc_value table.now)).name)
        (heading_of (rc_value table.now)) result.1 file.old file.new pool }
    ensures invariants { KeepsFileInvariants (allocator_of (mini_of file.old))
        (allocator_of (mini_of file.new)) }
    ensures cause { IfErr result.1 (IsJustifiedBySectors (allocator_of (mini_of file.old))
        (allocator_of (mini_of file.new))) }
    ensures errors { IfErr result.1 IsEditError }
{
    let (bytes, changes) = match prepared_edit(alloc, file, table, &pool, query) {
        Err(error) => return (pool, Err(error)),
        Ok(it) => it,
    };
    let ready = match pool.make_room(changes) {
        Err((pool, error)) => return (pool, Err(error)),
        Ok(ready) => ready,
    };
    match put_bytes(alloc, file, table, &bytes) {
        Err(error) => (ready.give_up(), Err(error)),
        Ok(()) => (ready.adopt(), Ok(())),
    }
}

// The first table of a name, as it is shared.
fn shared_table<'a>(tables: &'a [Rc<Table>], name: &str) -> Option<&'a Rc<Table>>
    ensures { option_map (λ t. t.now) result
        ≡ find (λ t. bytes_eq (heading_of (rc_value t)).name name.now) tables.now }
{
    tables.iter().find(|table| table.name() == name)
}

// Changes the table of a name, as the query asks. The pool comes back.
fn edit_with<F: Medium>(
    alloc: Global,
    store: &mut Store<F>,
    pool: StringPool,
    name: &str,
    query: &RowsQuery<'_>,
) -> (StringPool, Result<(), Error>)
    ensures edits { EditsPackageRows
        (rule_of (asked query.now) name.now) result.1 store.old store.new pool
        result.0 }
    ensures full_only_if { EditFullOnlyWithoutRoom
        (rule_of (asked query.now) name.now) result.1 store.old store.new pool }
    ensures invariants { KeepsFileInvariants (allocator_of (mini_of (file_in store.old)))
        (allocator_of (mini_of (file_in store.new))) }
    ensures cause { IfErr result.1
        (IsJustifiedBySectors (allocator_of (mini_of (file_in store.old)))
        (allocator_of (mini_of (file_in store.new)))) }
    ensures errors { IfErr result.1 IsEditError }
{
    match check_changeable(&store.file) {
        Err(error) => return (pool, Err(error)),
        Ok(()) => {}
    }
    match shared_table(&store.tables, name) {
        Some(table) => edit_table(alloc, &mut store.file, table, pool, query),
        None => (pool, Err(Error::NotFound)),
    }
}

// The same with a pool that is lent.
fn edit<F: Medium>(
    alloc: Global,
    store: &mut Store<F>,
    pool: &mut StringPool,
    name: &str,
    query: &RowsQuery<'_>,
) -> Result<(), Error>
    ensures edits { EditsPackageRows
        (rule_of (asked query.now) name.now) result store.old store.new pool.old
        pool.new }
    ensures full_only_if { EditFullOnlyWithoutRoom
        (rule_of (asked query.now) name.now) result store.old store.new pool.old }
    ensures invariants { KeepsFileInvariants (allocator_of (mini_of (file_in store.old)))
        (allocator_of (mini_of (file_in store.new))) }
    ensures cause { IfErr result (IsJustifiedBySectors (allocator_of (mini_of (file_in store.old)))
        (allocator_of (mini_of (file_in store.new)))) }
    ensures errors { IfErr result IsEditError }
{
    // (an empty pool takes no memory)
    let empty = StringPool::new(alloc, pool.codepage());
    let (back, result) = edit_with(alloc, store, replace(pool, empty), name, query);
    *pool = back;
    result
}

/// Inserts rows into a table of the package that a file stores, and counts their texts in its pool. `Failed` after an earlier fault,
/// `InvalidData` where the file isn't sound; then `NotFound` where no table has the name, and what `Insert::prepare` refuses.
/// `InvalidInput` for one of the three tables that describe others. The other errors are faults, `Full` among them where the
/// container has no room for the table with its new rows. The rows are written in one call of the container, so after an error the pool is as it was, and nothing is
/// changed, or the file has failed.
pub fn insert_rows<F: Medium>(
    alloc: Global,
    store: &mut Store<F>,
    pool: &mut StringPool,
    insert: &Insert,
) -> Result<(), Error>
    ensures edits { EditsPackageRows
        (λ P Q answer. Inserts P (insert_name insert.now) (insert_rows insert.now)
        Q answer) result store.old store.new pool.old pool.new }
    ensures full_only_if { EditFullOnlyWithoutRoom
        (λ P Q answer. Inserts P (insert_name insert.now) (insert_rows insert.now)
        Q answer) result store.old store.new pool.old }
    ensures invariants { KeepsFileInvariants (allocator_of (mini_of (file_in store.old)))
        (allocator_of (mini_of (file_in store.new))) }
    ensures cause { IfErr result (IsJustifiedBySectors (allocator_of (mini_of (file_in store.old)))
        (allocator_of (mini_of (file_in store.new)))) }
    ensures errors { IfErr result IsEditError }
{
    let name = insert.table_name();
    edit(alloc, store, pool, name, &RowsQuery::Insert(insert))
}

/// Gives cells of a table of the package new values, and counts their texts in its pool in place of the old. `Failed` and `InvalidData`
/// as for inserts; then `NotFound` where no table has the name, and what `Update::prepare` refuses. `InvalidInput` for the three tables
/// that describe others, before keys are compared, but where the tenth column of `_Validation` alone is set. The other errors and what
/// they leave are those of inserts.
pub fn update_rows<F: Medium>(
    alloc: Global,
    store: &mut Store<F>,
    pool: &mut StringPool,
    update: &Update,
) -> Result<(), Error>
    ensures edits { EditsPackageRows
        (λ P Q answer. Updates P (update_name update.now) (update_sets update.now)
        (update_condition update.now) Q answer) result store.old store.new pool.old pool.new }
    ensures full_only_if { EditFullOnlyWithoutRoom
        (λ P Q answer. Updates P (update_name update.now) (update_sets update.now)
        (update_condition update.now) Q answer) result store.old store.new pool.old }
    ensures invariants { KeepsFileInvariants (allocator_of (mini_of (file_in store.old)))
        (allocator_of (mini_of (file_in store.new))) }
    ensures cause { IfErr result (IsJustifiedBySectors (allocator_of (mini_of (file_in store.old)))
        (allocator_of (mini_of (file_in store.new)))) }
    ensures errors { IfErr result IsEditError }
{
    let name = update.table_name();
    edit(alloc, store, pool, name, &RowsQuery::Update(update))
}

/// Deletes rows of a table of the package, and takes the uses of their texts back from its pool. `Failed` and `InvalidData` as for
/// inserts; then `NotFound` where no table has the name, `InvalidInput` for one of the three tables that describe others, and what
/// `Delete::prepare` refuses. The other errors and what they leave are those of inserts.
pub fn delete_rows<F: Medium>(
    alloc: Global,
    store: &mut Store<F>,
    pool: &mut StringPool,
    delete: &Delete,
) -> Result<(), Error>
    ensures edits { EditsPackageRows
        (λ P Q answer. Deletes P (delete_name delete.now) (delete_condition delete.now)
        Q answer) result store.old store.new pool.old pool.new }
    ensures full_only_if { EditFullOnlyWithoutRoom
        (λ P Q answer. Deletes P (delete_name delete.now) (delete_condition delete.now)
        Q answer) result store.old store.new pool.old }
    ensures invariants { KeepsFileInvariants (allocator_of (mini_of (file_in store.old)))
        (allocator_of (mini_of (file_in store.new))) }
    ensures cause { IfErr result (IsJustifiedBySectors (allocator_of (mini_of (file_in store.old)))
        (allocator_of (mini_of (file_in store.new)))) }
    ensures errors { IfErr result IsEditError }
{
    let name = delete.table_name();
    edit(alloc, store, pool, name, &RowsQuery::Delete(delete))
}

/// Refuses to change a file: `Failed` after an earlier fault; then `InvalidData` where the file isn't sound.
pub fn check_changeable<F: ReadMedium>(file: &CompoundFile<F>) -> Result<(), Error>
    ensures open { OnOk result ((has_failed_here (allocator_of (mini_of file.now)) ≡ false)
        × (sound_of file.now ≡ true)) }
    ensures refused_only_if { IfErr result (λ e. ((e ≡ Failed)
        × (has_failed_here (allocator_of (mini_of file.now)) ≡ true)) ⊎ ((e ≡ InvalidData)
        × (has_failed_here (allocator_of (mini_of file.now)) ≡ false)
        × (sound_of file.now ≡ false))) }
{
    if has_failed(file) {
        return Err(Error::Failed);
    }
    if !file.is_sound() {
        return Err(Error::InvalidData);
    }
    Ok(())
}

// Whether a fault has left it in a state in which every call is refused: its root is shown only where that isn't so.
fn has_failed<F: ReadMedium>(file: &CompoundFile<F>) -> bool
    ensures { result ≡ has_failed_here (allocator_of (mini_of file.now)) }
{
    match file.root_entry() {
        Err(error) => return is_failed(error),
        Ok(_) => {}
    }
    false
}

// Whether the error is `Failed`.
fn is_failed(error: Error) -> bool
    ensures answer { result ≡ true → error ≡ Failed }
    ensures is { error ≡ Failed → result ≡ true }
{
    match error {
        Error::Failed => true,
        Error::Memory
        | Error::Device
        | Error::InvalidData
        | Error::InvalidInput
        | Error::NotFound
        | Error::AlreadyExists
        | Error::UnexpectedEof
        | Error::Full => false,
    }
}
