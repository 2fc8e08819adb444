//! What is left of the three tables that describe others where a table is dropped, before anything is written.
ghost use Rattle.std.specs.List.{list_all};
ghost use Rattle.std.specs.Prelude.{◌≡◌, ◌≤◌, false, flat_map, length, map, true, IfErr, IfOk, List, MatchResult, Some};
ghost use Rattle.std.specs.Rc.{rc_value};
ghost use Rattle.cfb.specs.FollowedRules.{FileMeansTree};
ghost use Rattle.cfb.specs.Views.{file_case_table, mini_of, OnlyReadsFile};
ghost use Rattle.cfb_fat.specs.Tables.{IsJustifiedBySectors};
ghost use Rattle.cfb_medium.specs.declared.error.Error.TheVariants.{Memory};
ghost use Rattle.cfb_mini.specs.Views.{allocator_of};
ghost use Rattle.cfb_tree.specs.Tree.{Tree};
ghost use Rattle.msi_changes.specs.Applied.{left_of};
ghost use Rattle.msi_changes.specs.Changes.{all_taken_back};
ghost use Rattle.msi_changes.specs.Prepared.{AreChangesFor};
ghost use Rattle.msi_row_edits.specs.Asked.{IsUnwritten, IsWrittenAs};
ghost use Rattle.msi_row_edits.specs.Edited.{IsEditErrorButFull};
ghost use Rattle.msi_table_edits.specs.Remains.{AreDropTablesFound, MemoryLacksDropped, AreMissing, CanLay, IsLaid, LeavesBytes, RefcountsReleased, TellsBytes, TellsRemains};
ghost use Rattle.msi_spec.specs.Calls.{is_system, speaks_of};
ghost use Rattle.msi_spec.specs.Package.{PackageContent};
ghost use Rattle.msi_schema.specs.Headings.{headings_in};
ghost use Rattle.msi_stored.specs.Changing.{StoresSoundPackage};
ghost use Rattle.msi_stored.specs.StoredPackages.{rows_in};
ghost use Rattle.msi_tables.specs.Held.{heading_of, rows_held};
ghost use Rattle.msi_tables.specs.Rows.{has_place, HaveCells, Row};
ghost use Rattle.msi_tables.specs.Schema.{columns_columns, columns_name, tables_columns, tables_name};
ghost use Rattle.msi_texts.specs.Results.{ReturnsOrOutOfMemory};

use cfb::CompoundFile;
use cfb_medium::{Error, ReadMedium};
use msi_changes::take_back;
use msi_parts::table_named;
use msi_pool::{Draft, PoolChanges, StringPool, ValueRef};
use msi_schema::{columns_columns, tables_columns};
use msi_store::rows_of_table;
use msi_tables::Table;
use msi_values::BorrowedValue;
use std::alloc::Global;
use std::rc::Rc;

/// The bytes of the streams of _Columns, _Tables and _Validation.
#[derive(Drop)]
pub(crate) struct SystemBytes {
    pub(crate) columns: Vec<u8>,
    pub(crate) tables: Vec<u8>,
    pub(crate) validation: Vec<u8>,
}

/// What is left where the table of a name is dropped: the bytes of the rows that don't speak of it, and what the pool has to take over,
/// where the uses of the table's own rows and of those that do are taken back. `InvalidInput` for one of the three tables that describe
/// others and for a name that no table can have, `NotFound` where no table has it or _Validation is none. The file is only read.
pub(crate) fn prepared_drop<F: ReadMedium>(
    alloc: Global,
    file: &mut CompoundFile<F>,
    tables: &[Rc<Table>],
    pool: &StringPool,
    name: &str,
) -> Result<(SystemBytes, PoolChanges), Error>
    ensures answer { (tree : Tree) (P : PackageContent) → FileMeansTree file.old tree
        → StoresSoundPackage (file_case_table file.old) tree P
        → MemoryLacksDropped (headings_in tables.now) pool.now.pool P
        → TellsRemains P name.now pool.now result }
    ensures changes { IfOk result (λ r. AreChangesFor pool.now r.1) }
    ensures only_reads { OnlyReadsFile file.old file.new }
    ensures cause { IfErr result (IsJustifiedBySectors (allocator_of (mini_of file.old))
        (allocator_of (mini_of file.new))) }
    ensures errors { IfErr result IsEditErrorButFull }
{
    let (own, validation) = match tables_to_drop(tables, name) {
        Err(error) => return Err(error),
        Ok(found) => found,
    };
    let (columns, listed) = match fixed_tables(alloc, pool.long_string_refs()) {
        Err(error) => return Err(error),
        Ok(fixed) => fixed,
    };
    remaining_bytes(alloc, file, own, validation, &columns, &listed, pool, name)
}

// The bytes of the rows of three tables that don't speak of one of the name, and what the pool has to take over, where the uses of the
// table's own rows and of the others are taken back.
fn remaining_bytes<F: ReadMedium>(
    alloc: Global,
    file: &mut CompoundFile<F>,
    own: &Table,
    validation: &Table,
    columns: &Table,
    listed: &Table,
    pool: &StringPool,
    name: &str,
) -> Result<(SystemBytes, PoolChanges), Error>
    ensures answer { (tree : Tree) → FileMeansTree file.old tree → (rows v c t : List Row)
        → rows_in (file_case_table file.old) tree (heading_of own.now) ≡ Some rows
        → rows_in (file_case_table file.old) tree (heading_of validation.now) ≡ Some v
        → rows_in (file_case_table file.old) tree (heading_of columns.now) ≡ Some c
        → rows_in (file_case_table file.old) tree (heading_of listed.now) ≡ Some t
        → TellsBytes pool.now name.now (heading_of validation.now) (heading_of columns.now)
        (heading_of listed.now) rows v c t result }
    ensures changes { IfOk result (λ r. AreChangesFor pool.now r.1) }
    ensures only_reads { OnlyReadsFile file.old file.new }
    ensures cause { IfErr result (IsJustifiedBySectors (allocator_of (mini_of file.old))
        (allocator_of (mini_of file.new))) }
    ensures errors { IfErr result IsEditErrorButFull }
{
    let mut counted = pool.draft();
    match take_rows_of(alloc, file, own, &mut counted) {
        Err(error) => return Err(error),
        Ok(()) => {}
    }
    let validation = match left_bytes(alloc, file, validation, pool, name, &mut counted) {
        Err(error) => return Err(error),
        Ok(bytes) => bytes,
    };
    let columns = match left_bytes(alloc, file, columns, pool, name, &mut counted) {
        Err(error) => return Err(error),
        Ok(bytes) => bytes,
    };
    let tables = match left_bytes(alloc, file, listed, pool, name, &mut counted) {
        Err(error) => return Err(error),
        Ok(bytes) => bytes,
    };
    let bytes = SystemBytes {
        columns,
        tables,
        validation,
    };
    Ok((bytes, counted.into_changes()))
}

// The table of a name that may be dropped, and _Validation.
fn tables_to_drop<'a>(tables: &'a [Rc<Table>], name: &str) -> Result<(&'a Table, &'a Table), Error>
    ensures { MatchResult result (λ r. AreDropTablesFound (headings_in tables.now) name.now
        (heading_of r.0.now) (heading_of r.1.now))
        (AreMissing (headings_in tables.now) name.now) }
{
    if is_system(name) {
        return Err(Error::InvalidInput);
    }
    if !Table::is_valid_name(name) {
        return Err(Error::InvalidInput);
    }
    let own = match table_named(tables, name) {
        None => return Err(Error::NotFound),
        Some(table) => table,
    };
    match table_named(tables, "_Validation") {
        None => Err(Error::NotFound),
        Some(validation) => Ok((own, validation)),
    }
}

// Whether the table of this name describes others.
fn is_system(name: &str) -> bool
    ensures { result ≡ is_system name.now }
{
    name == "_Tables" || name == "_Columns" || name == "_Validation"
}

// _Columns and _Tables, whose columns are fixed. The one error is `Memory`.
fn fixed_tables(alloc: Global, long_string_refs: bool) -> Result<(Rc<Table>, Rc<Table>), Error>
    ensures columns { IfOk result (λ r. heading_of (rc_value r.0)
        ≡ record {
          name = columns_name;
          columns = columns_columns;
          long = long_string_refs;
        }) }
    ensures tables { IfOk result (λ r. heading_of (rc_value r.1)
        ≡ record {
          name = tables_name;
          columns = tables_columns;
          long = long_string_refs;
        }) }
    ensures errors { IfErr result (λ e. e ≡ Memory) }
{
    let columns = Table::new(alloc, "_Columns", columns_columns(alloc)?, long_string_refs)?;
    let tables = Table::new(alloc, "_Tables", tables_columns(alloc)?, long_string_refs)?;
    Ok((columns, tables))
}

// Takes the uses of all rows of a table back, which are read.
fn take_rows_of<F: ReadMedium>(
    alloc: Global,
    file: &mut CompoundFile<F>,
    table: &Table,
    draft: &mut Draft<'_>,
) -> Result<(), Error>
    ensures answer { (tree : Tree) → FileMeansTree file.old tree → (rows : List Row)
        → rows_in (file_case_table file.old) tree (heading_of table.now) ≡ Some rows
        → RefcountsReleased rows draft.old.state.pool draft.new.state.pool result }
    ensures marked { draft.new.state.modified ≡ false → draft.new.state ≡ draft.old.state }
    ensures under { draft.new.under ≡ draft.old.under }
    ensures only_reads { OnlyReadsFile file.old file.new }
    ensures cause { IfErr result (IsJustifiedBySectors (allocator_of (mini_of file.old))
        (allocator_of (mini_of file.new))) }
    ensures errors { IfErr result IsEditErrorButFull }
{
    let rows = match rows_of_table(alloc, file, table) {
        Err(error) => return Err(error),
        Ok(rows) => rows,
    };
    take_rows(draft, &rows)
}

// Takes the uses of all cells of rows back, row by row. `InvalidData` where a place has no use.
fn take_rows(draft: &mut Draft<'_>, rows: &[Vec<ValueRef>]) -> Result<(), Error>
    ensures takes { ReturnsOrOutOfMemory (λ _. draft.new.state.pool) result
        (all_taken_back draft.old.state.pool
        (flat_map (λ row. row) (rows_held rows.now))) }
    ensures marked { draft.new.state.modified ≡ false → draft.new.state ≡ draft.old.state }
    ensures under { draft.new.under ≡ draft.old.under }
{
    for row in rows {
        match take_back(draft, row) {
            Err(error) => return Err(error),
            Ok(()) => {}
        }
    }
    Ok(())
}

// The bytes of the rows of a table, which are read, without those that speak of one of the name; the uses of these are taken back.
fn left_bytes<F: ReadMedium>(
    alloc: Global,
    file: &mut CompoundFile<F>,
    table: &Table,
    pool: &StringPool,
    name: &str,
    draft: &mut Draft<'_>,
) -> Result<Vec<u8>, Error>
    ensures answer { (tree : Tree) → FileMeansTree file.old tree → (rows : List Row)
        → rows_in (file_case_table file.old) tree (heading_of table.now) ≡ Some rows
        → LeavesBytes pool.now.pool name.now (heading_of table.now) rows draft.old.state.pool
        draft.new.state.pool result }
    ensures marked { draft.new.state.modified ≡ false → draft.new.state ≡ draft.old.state }
    ensures under { draft.new.under ≡ draft.old.under }
    ensures only_reads { OnlyReadsFile file.old file.new }
    ensures cause { IfErr result (IsJustifiedBySectors (allocator_of (mini_of file.old))
        (allocator_of (mini_of file.new))) }
    ensures errors { IfErr result IsEditErrorButFull }
{
    let rows = match rows_of_table(alloc, file, table) {
        Err(error) => return Err(error),
        Ok(rows) => rows,
    };
    let rows = match left_rows(alloc, pool, name, rows, draft) {
        Err(error) => return Err(error),
        Ok(rows) => rows,
    };
    laid_bytes(alloc, table, rows)
}

// The rows that don't speak of a table of this name; the uses of the others are taken back. `InvalidData` where a place has no use.
#[tactic(auto, using(crate::proofs::TakenRows::kept, crate::proofs::TakenRows::done, crate::proofs::TakenRows::at_first))]
fn left_rows(
    alloc: Global,
    pool: &StringPool,
    name: &str,
    rows: Vec<Vec<ValueRef>>,
    draft: &mut Draft<'_>,
) -> Result<Vec<Vec<ValueRef>>, Error>
    ensures left { ReturnsOrOutOfMemory
        (λ left. (rows_held left.items, draft.new.state.pool)) result
        (left_of (speaks_of pool.now.pool name.now) draft.old.state.pool (rows_held rows.items)) }
    ensures marked { draft.new.state.modified ≡ false → draft.new.state ≡ draft.old.state }
    ensures under { draft.new.under ≡ draft.old.under }
{
    let mut left = Vec::new(alloc);
    for row in rows {
        if speaks_of(pool, name, &row) {
            match take_back(draft, &row) {
                Err(error) => return Err(error),
                Ok(()) => {}
            }
        } else {
            left.push(row)?;
        }
    }
    Ok(left)
}

// Whether a row speaks of a table of this name: its first value is the name.
fn speaks_of(pool: &StringPool, name: &str, row: &[ValueRef]) -> bool
    ensures { result ≡ speaks_of pool.now.pool name.now row.now }
{
    match row {
        [] => false,
        [cell, ..] => match cell.as_borrowed(pool) {
            BorrowedValue::Str(text) => text == name,
            BorrowedValue::Null | BorrowedValue::Int(_) | BorrowedValue::Binary => false,
        },
    }
}

// The bytes of rows that the table can store. The one error is `Memory`.
fn laid_bytes(alloc: Global, table: &Table, rows: Vec<Vec<ValueRef>>) -> Result<Vec<u8>, Error>
    requires { CanLay (heading_of table.now).long (heading_of table.now).columns
        (rows_held rows.items) }
    ensures { MatchResult result (λ bytes. IsLaid (heading_of table.now).long
        (heading_of table.now).columns (rows_held rows.items) bytes.items) (λ e. e ≡ Memory) }
{
    have_places(&rows);
    match bytes_of_rows(alloc, table, rows) {
        Err(error) => Err(error),
        Ok(bytes) => Ok(bytes),
    }
}

// The bytes of rows.
fn bytes_of_rows(alloc: Global, table: &Table, rows: Vec<Vec<ValueRef>>) -> Result<Vec<u8>, Error>
    requires { HaveCells (length (heading_of table.now).columns) (rows_held rows.items) }
    ensures { MatchResult result (λ bytes. IsWrittenAs (heading_of table.now).long
        (heading_of table.now).columns (rows_held rows.items) bytes.items)
        (IsUnwritten (heading_of table.now).long (heading_of table.now).columns
        (rows_held rows.items)) }
{
    let mut bytes = Vec::new(alloc);
    match table.write_rows(&mut bytes, rows) {
        Err(error) => Err(error),
        Ok(()) => Ok(bytes),
    }
}

// Each text of rows in memory has a place that three bytes hold.
fn have_places(rows: &[Vec<ValueRef>])
    ensures { list_all (λ row. list_all has_place row.items) rows.now ≡ true }
{
    for row in rows {
        has_places(row);
    }
}

// So has each of a row.
fn has_places(row: &[ValueRef])
    ensures { list_all has_place row.now ≡ true }
{
    for cell in row {
        has_its_place(*cell);
    }
}

// And that of a cell.
fn has_its_place(cell: ValueRef)
    ensures { has_place cell ≡ true }
{
    if let ValueRef::Str(place) = cell {
        let _number = place.number();
    }
}
