//! What an empty _Validation comes to, before anything is written.
ghost use Rattle.std.specs.Prelude.{◌≡◌, ◌&&◌, ◌+◌, ◌⊎◌, false, length, map, nat_le, nat_lt, true, IfErr, IfOk, MatchResult, OnOk};
ghost use Rattle.std.specs.Rc.{rc_value};
ghost use Rattle.cfb.specs.FollowedRules.{FileMeansTree};
ghost use Rattle.cfb.specs.Views.{file_case_table, mini_of, OnlyReadsFile};
ghost use Rattle.cfb_fat.specs.Tables.{IsJustifiedBySectors};
ghost use Rattle.cfb_tree_edits.specs.LiveTreeRules.{IsFaultOrFull};
ghost use Rattle.cfb_medium.specs.declared.error.Error.TheVariants.{InvalidData, InvalidInput, Memory};
ghost use Rattle.cfb_mini.specs.Views.{allocator_of};
ghost use Rattle.cfb_tree.specs.Names.{CaseTable};
ghost use Rattle.cfb_tree.specs.Tree.{Tree};
ghost use Rattle.msi_changes.specs.Prepared.{pool_after, AreChangesFor};
ghost use Rattle.msi_columns.specs.Held.{columns_of};
ghost use Rattle.msi_row_edits.specs.Edited.{IsEditErrorButFull};
ghost use Rattle.msi_table_edits.specs.Describing.{rows_of_values};
ghost use Rattle.msi_table_edits.specs.Listing.{answer, counting, fits_listing, two_counted, AreListing, AreListingRows, AreWideTwo, TakeRows, TellsListed};
ghost use Rattle.msi_table_edits.specs.Validating.{listed_columns};
ghost use Rattle.msi_spec.specs.Package.{PackageContent};
ghost use Rattle.msi_parts.specs.Parts.{heading};
ghost use Rattle.msi_schema.specs.Headings.{headings_in};
ghost use Rattle.msi_stored.specs.Changing.{StoresSoundPackage};
ghost use Rattle.msi_tables.specs.Held.{heading_of, rows_held};
ghost use Rattle.msi_tables.specs.Rows.{max_rows};
ghost use Rattle.msi_texts.specs.Results.{ReturnsOrOutOfMemory};

use crate::describing::is_storage;
use crate::placing::{named_table, with_table};
use crate::testing::are_rows;
use cfb::CompoundFile;
use cfb_medium::{Error, ReadMedium};
use msi_changes::count_rows;
use msi_new_package::columns_rows;
use msi_pool::{PoolChanges, StringPool, ValueRef};
use msi_row_edits::bytes_with_new_rows;
use msi_store::rows_of_table;
use msi_tables::{Column, Table};
use msi_values::Value;
use std::alloc::Global;
use std::rc::Rc;

// A table has so many rows at most.
const MAX_ROWS: usize = 65536;

// The rows of a table, and rows of values.
type Rows = Vec<Vec<ValueRef>>;

type ValueRows = Vec<Vec<Value>>;

/// The tables in memory with an empty _Validation, what the pool has to take over, and the bytes of the streams of _Columns and _Tables.
#[derive(Drop)]
pub(crate) struct NewListing {
    pub(crate) tables: Vec<Rc<Table>>,
    pub(crate) changes: PoolChanges,
    pub(crate) columns_bytes: Vec<u8>,
    pub(crate) tables_bytes: Vec<u8>,
}

/// _Columns and _Tables, with their rows.
#[derive(Drop)]
pub(crate) struct ListingTables {
    pub(crate) columns: Rc<Table>,
    pub(crate) tables: Rc<Table>,
    pub(crate) columns_rows: Rows,
    pub(crate) tables_rows: Rows,
}

/// The values of the rows that list _Validation there.
#[derive(Drop)]
pub(crate) struct ListingRows {
    pub(crate) columns: ValueRows,
    pub(crate) tables: ValueRows,
}

/// What an empty _Validation comes to, or its refusal: `AlreadyExists` where there is one, or a storage stands at its name;
/// `InvalidInput` for too many rows, or where the pool is full. The file is only read.
pub(crate) fn prepared_validation<F: ReadMedium>(
    alloc: Global,
    file: &mut CompoundFile<F>,
    tables: &[Rc<Table>],
    pool: &StringPool,
) -> Result<NewListing, Error>
    ensures answer { (tree : Tree) (P : PackageContent) → FileMeansTree file.old tree
        → StoresSoundPackage (file_case_table file.old) tree P → pool.now.pool ≡ P.pool
        → headings_in tables.now ≡ map (heading P.pool.long) P.tables
        → TellsListed (file_case_table file.old) P pool.now result }
    ensures changes { IfOk result (λ it. AreChangesFor pool.now it.changes) }
    ensures only_reads { OnlyReadsFile file.old file.new }
    ensures cause { IfErr result (IsJustifiedBySectors (allocator_of (mini_of file.old))
        (allocator_of (mini_of file.new))) }
    ensures errors { IfErr result IsEditErrorButFull }
{
    match named_table(tables, "_Validation") {
        Some(_) => return Err(Error::AlreadyExists),
        None => {}
    }
    let taken = match is_storage(alloc, file, "_Validation") {
        Err(error) => return Err(error),
        Ok(taken) => taken,
    };
    if taken {
        return Err(Error::AlreadyExists);
    }
    let listing = match listing_tables(alloc, file, tables) {
        Err(error) => return Err(error),
        Ok(listing) => listing,
    };
    let columns = match listed_columns(alloc) {
        Err(error) => return Err(error),
        Ok(columns) => columns,
    };
    let new_rows = match listing_rows(alloc, &columns) {
        Err(error) => return Err(error),
        Ok(new_rows) => new_rows,
    };
    match check_listing(&listing, &new_rows, pool) {
        Err(error) => return Err(error),
        Ok(()) => {}
    }
    listed_table(alloc, tables, pool, columns, listing, new_rows)
}

// _Columns and _Tables, with their rows. `InvalidData` where one isn't there, or has too many rows.
fn listing_tables<F: ReadMedium>(
    alloc: Global,
    file: &mut CompoundFile<F>,
    tables: &[Rc<Table>],
) -> Result<ListingTables, Error>
    ensures answer { (tree : Tree) (P : PackageContent) → FileMeansTree file.old tree
        → StoresSoundPackage (file_case_table file.old) tree P
        → headings_in tables.now ≡ map (heading P.pool.long) P.tables
        → MatchResult result (AreListing P) IsFaultOrFull }
    ensures wide { IfOk result AreWideTwo }
    ensures only_reads { OnlyReadsFile file.old file.new }
    ensures cause { IfErr result (IsJustifiedBySectors (allocator_of (mini_of file.old))
        (allocator_of (mini_of file.new))) }
    ensures errors { IfErr result IsEditErrorButFull }
{
    let columns = match named_table(tables, "_Columns") {
        None => return Err(Error::InvalidData),
        Some(table) => table.clone()?,
    };
    let tables = match named_table(tables, "_Tables") {
        None => return Err(Error::InvalidData),
        Some(table) => table.clone()?,
    };
    let columns_rows = match rows_of_table(alloc, file, &columns) {
        Err(error) => return Err(error),
        Ok(rows) => rows,
    };
    let tables_rows = match rows_of_table(alloc, file, &tables) {
        Err(error) => return Err(error),
        Ok(rows) => rows,
    };
    Ok(ListingTables {
        columns,
        tables,
        columns_rows,
        tables_rows,
    })
}

// The ten columns of a _Validation in which no row speaks of itself. The one error is `Memory`.
fn listed_columns(alloc: Global) -> Result<Vec<Column>, Error>
    ensures ok { IfOk result (λ columns. columns_of columns.items ≡ listed_columns) }
    ensures errors { IfErr result (λ e. e ≡ Memory) }
{
    let table = Column::build(alloc, "Table")?.primary_key().string(32);
    let column = Column::build(alloc, "Column")?.primary_key().string(32);
    let answer = Column::build(alloc, "Nullable")?.string(4);
    let low = Column::build(alloc, "MinValue")?.nullable().int32();
    let high = Column::build(alloc, "MaxValue")?.nullable().int32();
    let key_table = Column::build(alloc, "KeyTable")?.nullable().string(255);
    let key_column = Column::build(alloc, "KeyColumn")?.nullable().int16();
    let category = Column::build(alloc, "Category")?.nullable().string(32);
    let set = Column::build(alloc, "Set")?.nullable().string(255);
    let description = Column::build(alloc, "Description")?.nullable().string(255);
    let columns = vec![in alloc;
        table,
        column,
        answer,
        low,
        high,
        key_table,
        key_column,
        category,
        set,
        description,
    ]?;
    Ok(columns)
}

// The values of the rows that list them. The one error is `Memory`.
fn listing_rows(alloc: Global, columns: &[Column]) -> Result<ListingRows, Error>
    requires { columns_of columns.now ≡ listed_columns }
    ensures ok { IfOk result AreListingRows }
    ensures errors { IfErr result (λ e. e ≡ Memory) }
{
    let listed = columns_rows(alloc, "_Validation", columns)?;
    let named = vec![in alloc; Value::Str(String::from_str(alloc, "_Validation")?)]?;
    Ok(ListingRows {
        columns: listed,
        tables: vec![in alloc; named]?,
    })
}

// Whether the new rows may stand behind those that are there: `InvalidInput` for too many rows; `InvalidData` where a column doesn't take
// its value, or the references of a table aren't as wide as the pool's.
fn check_listing(
    listing: &ListingTables,
    new_rows: &ListingRows,
    pool: &StringPool,
) -> Result<(), Error>
    ensures answer { (P : PackageContent) → pool.now.pool ≡ P.pool → AreListing P listing.now
        → AreListingRows new_rows.now → MatchResult result (λ _. fits_listing P ≡ true)
        (λ e. (e ≡ InvalidInput) × (fits_listing P ≡ false)) }
    ensures taken { OnOk result (TakeRows pool.now.pool.long listing.now new_rows.now) }
    ensures errors { IfErr result (λ e. (e ≡ InvalidInput) ⊎ (e ≡ InvalidData)) }
{
    if !has_room(listing) {
        return Err(Error::InvalidInput);
    }
    if !are_rows(listing.columns.columns(), &new_rows.columns) {
        return Err(Error::InvalidData);
    }
    if !are_rows(listing.tables.columns(), &new_rows.tables) {
        return Err(Error::InvalidData);
    }
    if !are_wide(listing, pool.long_string_refs()) {
        return Err(Error::InvalidData);
    }
    Ok(())
}

// Whether both tables have room for the new rows.
fn has_room(listing: &ListingTables) -> bool
    ensures { result ≡ (nat_le (length listing.now.columns_rows.items + 10) max_rows
        && nat_lt (length listing.now.tables_rows.items) max_rows) }
{
    listing.columns_rows.len() + 10 <= MAX_ROWS && listing.tables_rows.len() < MAX_ROWS
}

// Whether the references in both are so wide.
fn are_wide(listing: &ListingTables, long: bool) -> bool
    ensures so { result ≡ true → ((heading_of (rc_value listing.now.columns)).long ≡ long)
        × ((heading_of (rc_value listing.now.tables)).long ≡ long) }
    ensures other { result ≡ false → ((heading_of (rc_value listing.now.columns)).long ≡ long)
        → ((heading_of (rc_value listing.now.tables)).long ≡ long → ⊥) }
{
    listing.columns.long_string_refs() == long && listing.tables.long_string_refs() == long
}

// The cells of the new rows, and what the pool has to take over. `InvalidInput` where the pool is full.
fn counted_listing(
    alloc: Global,
    pool: &StringPool,
    new_rows: &ListingRows,
) -> Result<(Rows, Rows, PoolChanges), Error>
    ensures counts { ReturnsOrOutOfMemory
        (λ r. ((rows_held r.0.items, rows_held r.1.items), pool_after pool.now r.2))
        result (two_counted pool.now.pool (rows_of_values new_rows.now.columns.items)
        (rows_of_values new_rows.now.tables.items)) }
    ensures changes { IfOk result (λ r. AreChangesFor pool.now r.2) }
{
    let mut draft = pool.draft();
    let columns = match count_rows(alloc, &mut draft, &new_rows.columns) {
        Err(error) => return Err(error),
        Ok(rows) => rows,
    };
    let tables = match count_rows(alloc, &mut draft, &new_rows.tables) {
        Err(error) => return Err(error),
        Ok(rows) => rows,
    };
    Ok((columns, tables, draft.into_changes()))
}

// The new table among the others, and the bytes of the two tables with the new rows behind theirs. `InvalidInput` where the pool is full.
fn listed_table(
    alloc: Global,
    tables: &[Rc<Table>],
    pool: &StringPool,
    columns: Vec<Column>,
    listing: ListingTables,
    new_rows: ListingRows,
) -> Result<NewListing, Error>
    requires columns { columns_of columns.items ≡ listed_columns }
    requires wide { AreWideTwo listing }
    requires taken { TakeRows pool.now.pool.long listing new_rows }
    ensures answer { (letters : CaseTable) (tree : Tree) (P : PackageContent)
        → StoresSoundPackage letters tree P
        → pool.now.pool ≡ P.pool → AreListing P listing
        → headings_in tables.now ≡ map (heading P.pool.long) P.tables → AreListingRows new_rows
        → answer letters P ≡ counting letters P → TellsListed letters P pool.now result }
    ensures changes { IfOk result (λ it. AreChangesFor pool.now it.changes) }
    ensures own { IfErr result (λ e. (e ≡ Memory) ⊎ (e ≡ InvalidInput)) }
{
    let ListingTables {
        columns: columns_table,
        tables: tables_table,
        columns_rows,
        tables_rows,
    } = listing;
    let (listed, named, changes) = match counted_listing(alloc, pool, &new_rows) {
        Err(error) => return Err(error),
        Ok(counted) => counted,
    };
    let values = &new_rows.columns;
    let columns_bytes = bytes_with_new_rows(
        alloc,
        &columns_table,
        pool,
        columns_rows,
        listed,
        values,
    )?;
    let values = &new_rows.tables;
    let tables_bytes = bytes_with_new_rows(alloc, &tables_table, pool, tables_rows, named, values)?;
    let table = Table::new(alloc, "_Validation", columns, pool.long_string_refs())?;
    let tables = with_table(alloc, tables, table)?;
    Ok(NewListing {
        tables,
        changes,
        columns_bytes,
        tables_bytes,
    })
}
