//! What a new table comes to, before anything is written.
ghost use Rattle.std.specs.Prelude.{◌≡◌, ◌&&◌, ◌+◌, ◌≤◌, ◌⊎◌, false, is_some, length, map, nat_le, nat_lt, true, IfErr, IfOk, MatchResult, None, OnOk, Some};
ghost use Rattle.std.specs.List.{list_all};
ghost use Rattle.std.specs.Rc.{rc_value};
ghost use Rattle.cfb.specs.FollowedRules.{FileMeansTree};
ghost use Rattle.cfb.specs.Views.{file_case_table, mini_of, OnlyReadsFile};
ghost use Rattle.cfb_fat.specs.Tables.{IsJustifiedBySectors};
ghost use Rattle.cfb_tree_edits.specs.LiveTreeRules.{IsFaultOrFull};
ghost use Rattle.cfb_medium.specs.declared.error.Error.TheVariants.{InvalidInput, Memory, NotFound};
ghost use Rattle.cfb_mini.specs.Views.{allocator_of};
ghost use Rattle.cfb_tree.specs.Names.{CaseTable};
ghost use Rattle.cfb_tree.specs.Tree.{Tree};
ghost use Rattle.msi_changes.specs.Prepared.{pool_after, AreChangesFor};
ghost use Rattle.msi_columns.specs.Column.{length_kept};
ghost use Rattle.msi_columns.specs.Held.{column_of, columns_of};
ghost use Rattle.msi_row_edits.specs.Edited.{IsEditErrorButFull};
ghost use Rattle.msi_table_edits.specs.Describing.{rows_of_values, AreDescribed, AreNewRows, AreSystem, AreWide, Describes, Passes, TellsNew};
ghost use Rattle.msi_table_edits.specs.Testing.{can_be_kept, three_counted};
ghost use Rattle.msi_spec.specs.Package.{at_name, stream_name, PackageContent};
ghost use Rattle.msi_spec.specs.Sound.{is_free_table_name};
ghost use Rattle.msi_parts.specs.Parts.{heading};
ghost use Rattle.msi_schema.specs.Headings.{headings_in};
ghost use Rattle.msi_stored.specs.Changing.{StoresSoundPackage};
ghost use Rattle.msi_tables.specs.Held.{heading_of, rows_held};
ghost use Rattle.msi_tables.specs.Rows.{max_rows};
ghost use Rattle.msi_tables.specs.Schema.{validation_name};
ghost use Rattle.msi_tables.specs.Table.{is_valid_table_name, table_named, Table as TableNamed};
ghost use Rattle.msi_texts.specs.Results.{ReturnsOrOutOfMemory};

use crate::placing::{named_table, with_table};
use crate::testing::{are_described, are_rows, can_be_kept, may_have_columns};
use cfb::CompoundFile;
use cfb_medium::{Error, ReadMedium};
use msi_changes::count_rows;
use msi_new_package::{columns_rows, validation_rows};
use msi_pool::{PoolChanges, StringPool, ValueRef};
use msi_row_edits::bytes_with_new_rows;
use msi_store::rows_of_table;
use msi_tables::{Column, Table};
use msi_texts::encode;
use msi_values::Value;
use std::alloc::Global;
use std::rc::Rc;

// A table has so many rows at most.
const MAX_ROWS: usize = 65536;

// The rows of a table, and rows of values.
type Rows = Vec<Vec<ValueRef>>;

type ValueRows = Vec<Vec<Value>>;

/// The tables in memory with the new one, what the pool has to take over, and the bytes of the streams of _Columns, _Tables and
/// _Validation.
#[derive(Drop)]
pub(crate) struct NewTable {
    pub(crate) tables: Vec<Rc<Table>>,
    pub(crate) changes: PoolChanges,
    pub(crate) columns_bytes: Vec<u8>,
    pub(crate) tables_bytes: Vec<u8>,
    pub(crate) validation_bytes: Vec<u8>,
}

/// The three tables that describe others, with their rows.
#[derive(Drop)]
pub(crate) struct SystemTables {
    pub(crate) columns: Rc<Table>,
    pub(crate) tables: Rc<Table>,
    pub(crate) validation: Rc<Table>,
    pub(crate) columns_rows: Rows,
    pub(crate) tables_rows: Rows,
    pub(crate) validation_rows: Rows,
}

/// The values of the rows that describe a new table.
#[derive(Drop)]
pub(crate) struct NewRows {
    pub(crate) columns: ValueRows,
    pub(crate) tables: ValueRows,
    pub(crate) validation: ValueRows,
}

/// What a new table comes to, or its refusal: `InvalidInput` for a name or columns that no table can have; `AlreadyExists` where a table
/// has the name; `NotFound` without _Validation; `InvalidInput` where the rows that describe it can't be kept; `AlreadyExists` where
/// _Validation describes one of its columns already, or a storage stands at the name; `InvalidInput` for too many rows, or where the
/// pool is full. The file is only read.
pub(crate) fn prepared_table<F: ReadMedium>(
    alloc: Global,
    file: &mut CompoundFile<F>,
    tables: &[Rc<Table>],
    pool: &StringPool,
    name: &str,
    columns: Vec<Column>,
) -> Result<NewTable, Error>
    ensures answer { (tree : Tree) (P : PackageContent) → FileMeansTree file.old tree
        → StoresSoundPackage (file_case_table file.old) tree P → pool.now.pool ≡ P.pool
        → headings_in tables.now ≡ map (heading P.pool.long) P.tables
        → TellsNew (file_case_table file.old) P name.now
        (columns_of columns.items) pool.now result }
    ensures changes { IfOk result (λ it. AreChangesFor pool.now it.changes) }
    ensures only_reads { OnlyReadsFile file.old file.new }
    ensures cause { IfErr result (IsJustifiedBySectors (allocator_of (mini_of file.old))
        (allocator_of (mini_of file.new))) }
    ensures errors { IfErr result IsEditErrorButFull }
{
    if !may_have_columns(name, &columns) {
        return Err(Error::InvalidInput);
    }
    match named_table(tables, name) {
        Some(_) => return Err(Error::AlreadyExists),
        None => {}
    }
    let system = match system_tables(alloc, file, tables) {
        Err(error) => return Err(error),
        Ok(system) => system,
    };
    if !can_be_kept(name, &columns) {
        return Err(Error::InvalidInput);
    }
    let new_rows = match new_rows(alloc, name, &columns) {
        Err(error) => return Err(error),
        Ok(new_rows) => new_rows,
    };
    match check_rows(alloc, file, &system, &new_rows, pool, name, &columns) {
        Err(error) => return Err(error),
        Ok(()) => {}
    }
    described_table(alloc, tables, pool, name, columns, system, new_rows)
}

// The three tables that describe others, with their rows. `NotFound` where _Validation isn't there, `InvalidData` where another isn't, or
// has too many rows.
fn system_tables<F: ReadMedium>(
    alloc: Global,
    file: &mut CompoundFile<F>,
    tables: &[Rc<Table>],
) -> Result<SystemTables, Error>
    ensures answer { (tree : Tree) (P : PackageContent) → FileMeansTree file.old tree
        → StoresSoundPackage (file_case_table file.old) tree P
        → headings_in tables.now ≡ map (heading P.pool.long) P.tables
        → MatchResult result (AreSystem P) (λ e. IsFaultOrFull e
        ⊎ ((e ≡ NotFound) × (table_named P.tables validation_name ≡ None))) }
    ensures wide { IfOk result AreWide }
    ensures only_reads { OnlyReadsFile file.old file.new }
    ensures cause { IfErr result (IsJustifiedBySectors (allocator_of (mini_of file.old))
        (allocator_of (mini_of file.new))) }
    ensures errors { IfErr result IsEditErrorButFull }
{
    let validation = match named_table(tables, "_Validation") {
        None => return Err(Error::NotFound),
        Some(table) => table.clone()?,
    };
    let columns = match named_table(tables, "_Columns") {
        None => return Err(Error::InvalidData),
        Some(table) => table.clone()?,
    };
    let tables = match named_table(tables, "_Tables") {
        None => return Err(Error::InvalidData),
        Some(table) => table.clone()?,
    };
    let columns_rows = match rows_of_table(alloc, file, &columns) {
        Err(error) => return Err(error),
        Ok(rows) => rows,
    };
    let tables_rows = match rows_of_table(alloc, file, &tables) {
        Err(error) => return Err(error),
        Ok(rows) => rows,
    };
    let validation_rows = match rows_of_table(alloc, file, &validation) {
        Err(error) => return Err(error),
        Ok(rows) => rows,
    };
    Ok(SystemTables {
        columns,
        tables,
        validation,
        columns_rows,
        tables_rows,
        validation_rows,
    })
}

// The values of the rows that describe a table with these columns. The one error is `Memory`.
fn new_rows(alloc: Global, name: &str, columns: &[Column]) -> Result<NewRows, Error>
    requires few { length columns.now ≤ 32 }
    requires kept { list_all (λ c. length_kept (column_of c).kind) columns.now ≡ true }
    ensures ok { IfOk result (AreNewRows name.now (columns_of columns.now)) }
    ensures errors { IfErr result (λ e. e ≡ Memory) }
{
    let described = columns_rows(alloc, name, columns)?;
    let limits = validation_rows(alloc, name, columns)?;
    let named = vec![in alloc; Value::Str(String::from_str(alloc, name)?)]?;
    Ok(NewRows {
        columns: described,
        tables: vec![in alloc; named]?,
        validation: limits,
    })
}

// Whether the new rows may stand behind those that are there: `InvalidInput` where a column doesn't take its value; `AlreadyExists` where
// _Validation describes one of the columns already, or a storage stands at the encoded name; `InvalidInput` for too many rows;
// `InvalidData` where the references of a table aren't as wide as the pool's.
fn check_rows<F: ReadMedium>(
    alloc: Global,
    file: &CompoundFile<F>,
    system: &SystemTables,
    new_rows: &NewRows,
    pool: &StringPool,
    name: &str,
    columns: &[Column],
) -> Result<(), Error>
    requires few { length columns.now ≤ 32 }
    ensures answer { (tree : Tree) (P : PackageContent) (w : TableNamed)
        → FileMeansTree file.now tree
        → StoresSoundPackage (file_case_table file.now) tree P → pool.now.pool ≡ P.pool
        → AreSystem P system.now
        → table_named P.tables validation_name ≡ Some w → table_named P.tables name.now ≡ None
        → AreNewRows name.now (columns_of columns.now) new_rows.now
        → is_valid_table_name name.now ≡ true
        → can_be_kept name.now (columns_of columns.now) ≡ true
        → Passes (file_case_table file.now) P name.now (columns_of columns.now) w result }
    ensures described { OnOk result (AreDescribed pool.now.pool.long system.now new_rows.now) }
    ensures cause { IfErr result (IsJustifiedBySectors (allocator_of (mini_of file.now))
        (allocator_of (mini_of file.now))) }
    ensures errors { IfErr result IsEditErrorButFull }
{
    if !are_rows(system.columns.columns(), &new_rows.columns) {
        return Err(Error::InvalidInput);
    }
    if !are_rows(system.tables.columns(), &new_rows.tables) {
        return Err(Error::InvalidInput);
    }
    if !are_rows(system.validation.columns(), &new_rows.validation) {
        return Err(Error::InvalidInput);
    }
    if are_described(pool, &system.validation_rows, name, columns) {
        return Err(Error::AlreadyExists);
    }
    let taken = match is_storage(alloc, file, name) {
        Err(error) => return Err(error),
        Ok(taken) => taken,
    };
    if taken {
        return Err(Error::AlreadyExists);
    }
    if !has_room(system, columns.len()) {
        return Err(Error::InvalidInput);
    }
    if !are_wide(system, pool.long_string_refs()) {
        return Err(Error::InvalidData);
    }
    Ok(())
}

/// Whether a storage stands at the encoded name of a table.
pub(crate) fn is_storage<F: ReadMedium>(
    alloc: Global,
    file: &CompoundFile<F>,
    name: &str,
) -> Result<bool, Error>
    ensures answer { (tree : Tree) (P : PackageContent) → FileMeansTree file.now tree
        → StoresSoundPackage (file_case_table file.now) tree P → is_free_table_name name.now ≡ true
        → table_named P.tables name.now ≡ None → IfOk result (λ is. is
        ≡ is_some (at_name (file_case_table file.now) P.storages (stream_name name.now))) }
    ensures errors { IfErr result (λ e. e ≡ Memory) }
{
    let path = match encode(alloc, name, true) {
        Err(error) => return Err(error),
        Ok(path) => path,
    };
    Ok(file.is_storage(path.as_str()))
}

// Whether each of the three tables has room for the new rows.
fn has_room(system: &SystemTables, columns: usize) -> bool
    requires { columns ≤ 32 }
    ensures { result ≡ (nat_le (length system.now.columns_rows.items + columns) max_rows
        && nat_lt (length system.now.tables_rows.items) max_rows
        && nat_le (length system.now.validation_rows.items + columns) max_rows) }
{
    system.columns_rows.len() + columns <= MAX_ROWS
        && system.tables_rows.len() < MAX_ROWS
        && system.validation_rows.len() + columns <= MAX_ROWS
}

// Whether the references in all three are so wide.
fn are_wide(system: &SystemTables, long: bool) -> bool
    ensures so { result ≡ true → ((heading_of (rc_value system.now.columns)).long ≡ long)
        × ((heading_of (rc_value system.now.tables)).long ≡ long)
        × ((heading_of (rc_value system.now.validation)).long ≡ long) }
    ensures other { result ≡ false → ((heading_of (rc_value system.now.columns)).long ≡ long)
        → ((heading_of (rc_value system.now.tables)).long ≡ long)
        → ((heading_of (rc_value system.now.validation)).long ≡ long → ⊥) }
{
    system.columns.long_string_refs() == long
        && system.tables.long_string_refs() == long
        && system.validation.long_string_refs() == long
}

// The cells of the new rows, and what the pool has to take over. `InvalidInput` where the pool is full.
fn counted_rows(
    alloc: Global,
    pool: &StringPool,
    new_rows: &NewRows,
) -> Result<(Rows, Rows, Rows, PoolChanges), Error>
    ensures counts { ReturnsOrOutOfMemory (λ r. (
      (rows_held r.0.items, rows_held r.1.items, rows_held r.2.items),
      pool_after pool.now r.3,
    )) result (three_counted pool.now.pool
        (rows_of_values new_rows.now.columns.items) (rows_of_values new_rows.now.tables.items)
        (rows_of_values new_rows.now.validation.items)) }
    ensures changes { IfOk result (λ r. AreChangesFor pool.now r.3) }
{
    let mut draft = pool.draft();
    let columns = match count_rows(alloc, &mut draft, &new_rows.columns) {
        Err(error) => return Err(error),
        Ok(rows) => rows,
    };
    let tables = match count_rows(alloc, &mut draft, &new_rows.tables) {
        Err(error) => return Err(error),
        Ok(rows) => rows,
    };
    let validation = match count_rows(alloc, &mut draft, &new_rows.validation) {
        Err(error) => return Err(error),
        Ok(rows) => rows,
    };
    Ok((columns, tables, validation, draft.into_changes()))
}

// The new table among the others, and the bytes of the three tables with the new rows behind theirs. `InvalidInput` where the pool is full.
fn described_table(
    alloc: Global,
    tables: &[Rc<Table>],
    pool: &StringPool,
    name: &str,
    columns: Vec<Column>,
    system: SystemTables,
    new_rows: NewRows,
) -> Result<NewTable, Error>
    requires wide { AreWide system }
    requires described { AreDescribed pool.now.pool.long system new_rows }
    ensures answer { (letters : CaseTable) (tree : Tree) (P : PackageContent)
        → StoresSoundPackage letters tree P
        → pool.now.pool ≡ P.pool → AreSystem P system
        → headings_in tables.now ≡ map (heading P.pool.long) P.tables
        → AreNewRows name.now (columns_of columns.items) new_rows
        → Describes letters P name.now (columns_of columns.items) pool.now result }
    ensures changes { IfOk result (λ it. AreChangesFor pool.now it.changes) }
    ensures own { IfErr result (λ e. (e ≡ Memory) ⊎ (e ≡ InvalidInput)) }
{
    let SystemTables {
        columns: columns_table,
        tables: tables_table,
        validation: validation_table,
        columns_rows,
        tables_rows,
        validation_rows,
    } = system;
    let (described, named, limits, changes) = match counted_rows(alloc, pool, &new_rows) {
        Err(error) => return Err(error),
        Ok(counted) => counted,
    };
    let values = &new_rows.columns;
    let columns_bytes = bytes_with_new_rows(
        alloc,
        &columns_table,
        pool,
        columns_rows,
        described,
        values,
    )?;
    let values = &new_rows.tables;
    let tables_bytes = bytes_with_new_rows(alloc, &tables_table, pool, tables_rows, named, values)?;
    let values = &new_rows.validation;
    let validation_bytes = bytes_with_new_rows(
        alloc,
        &validation_table,
        pool,
        validation_rows,
        limits,
        values,
    )?;
    let table = Table::new(alloc, name, columns, pool.long_string_refs())?;
    let tables = with_table(alloc, tables, table)?;
    Ok(NewTable {
        tables,
        changes,
        columns_bytes,
        tables_bytes,
        validation_bytes,
    })
}
