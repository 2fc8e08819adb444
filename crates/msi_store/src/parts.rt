//! The parts of a package, read from its file.
ghost use Rattle.std.specs.Prelude.{◌≡◌, ◌⊎◌, ◌<◌, ℕ, false, true, slice_index, Err, IfErr, IfOk, Ok};
ghost use Rattle.cfb.specs.Views.{file_case_table, mini_of, OnlyReadsFile};
ghost use Rattle.cfb_fat.specs.Tables.{IsJustifiedBySectors};
ghost use Rattle.cfb_medium.specs.declared.error.Error.TheVariants.{Memory};
ghost use Rattle.cfb_mini.specs.Views.{allocator_of};
ghost use Rattle.cfb_tree.specs.Tree.{Tree};
ghost use Rattle.msi_spec.specs.Opening.{kind_of as kind_named, keeps_encoded_names, opened};
ghost use Rattle.msi_parts.specs.Held.{ArePartsOfTree};
ghost use Rattle.msi_parts.specs.Parts.{builder_in, built_in, schema_in, summary_in, HasSchema, IsBegun, IsBuilt, IsSummary};
ghost use Rattle.msi_pool.specs.PoolReading.{begun, pool_of, texts_give_back};
ghost use Rattle.msi_schema.specs.Headings.{headings_in};
ghost use Rattle.msi_stored.specs.Reading.{IsOpeningError};
ghost use Rattle.msi_stored.specs.Shown.{bytes_in, FindsPart, StoreShowsTree};
ghost use Rattle.msi_texts.specs.Results.{ReturnsOrOutOfMemory};

use crate::bytes::{stream_bytes, table_bytes};
use crate::system::rows_by_columns;
use cfb::CompoundFile;
use cfb_medium::{Error, ReadMedium};
use msi_parts::{PackageParts, kind_of};
use msi_pool::{StringPool, StringPoolBuilder};
use msi_schema::{columns_columns, schema_tables, tables_columns, validation_columns};
use msi_spec::PackageType;
use msi_summary::SummaryInfo;
use msi_tables::Table;
use msi_texts::SUMMARY_INFO_STREAM_NAME;
use std::alloc::Global;
use std::rc::Rc;

/// Reads what opening finds in a package's file, one part after the other: its kind, by the root's identifier (`InvalidData` for an
/// unknown one); the summary and the pool (`NotFound` where a stream of theirs is missing, `InvalidData` or `UnexpectedEof` where it
/// can't be read); and the tables that the system tables describe (`InvalidData` where they describe none, or have too many rows).
/// `InvalidData` too where the chain of a stream breaks that lies on the way; those of other streams may break. Other errors are
/// faults. The file is only read, and whether its case table may be used is not asked.
pub fn read_parts<F: ReadMedium>(
    alloc: Global,
    file: &mut CompoundFile<F>,
) -> Result<PackageParts, Error>
    ensures shown { (tree : Tree) → StoreShowsTree file.old tree
        → keeps_encoded_names (file_case_table file.old) ≡ true
        → FindsPart (file_case_table file.old) (bytes_in file.old)
        (ArePartsOfTree (file_case_table file.old) tree)
        (opened (file_case_table file.old) tree) result }
    ensures only_reads { OnlyReadsFile file.old file.new }
    ensures cause { IfErr result (IsJustifiedBySectors (allocator_of (mini_of file.old))
        (allocator_of (mini_of file.new))) }
    ensures errors { IfErr result IsOpeningError }
{
    let kind = kind_in(file)?;
    let summary = summary_of(alloc, file)?;
    let builder = builder_of(alloc, file)?;
    let (pool, gives_back) = built_of(alloc, file, builder)?;
    let tables = schema_of(alloc, file, &pool)?;
    Ok(PackageParts {
        kind,
        summary,
        pool,
        gives_back,
        tables,
    })
}

// What the package is for.
fn kind_in<F: ReadMedium>(file: &CompoundFile<F>) -> Result<PackageType, Error>
    ensures shown { (tree : Tree) → StoreShowsTree file.now tree
        → FindsPart (file_case_table file.now)
        (bytes_in file.now) (λ kind. kind_named tree.root.clsid ≡ Ok kind)
        (kind_named tree.root.clsid) result }
    ensures cause { IfErr result (IsJustifiedBySectors (allocator_of (mini_of file.now))
        (allocator_of (mini_of file.now))) }
    ensures errors { IfErr result IsOpeningError }
{
    match file.root_entry() {
        Ok(root) => kind_of(root.clsid()),
        Err(error) => Err(error),
    }
}

// The summary, from its stream.
fn summary_of<F: ReadMedium>(
    alloc: Global,
    file: &mut CompoundFile<F>,
) -> Result<SummaryInfo, Error>
    ensures shown { (tree : Tree) → StoreShowsTree file.old tree
        → FindsPart (file_case_table file.old)
        (bytes_in file.old) (IsSummary (file_case_table file.old) tree)
        (summary_in (file_case_table file.old) tree) result }
    ensures only_reads { OnlyReadsFile file.old file.new }
    ensures cause { IfErr result (IsJustifiedBySectors (allocator_of (mini_of file.old))
        (allocator_of (mini_of file.new))) }
    ensures errors { IfErr result IsOpeningError }
{
    match stream_bytes(file, SUMMARY_INFO_STREAM_NAME) {
        Ok(Some(bytes)) => SummaryInfo::read(alloc, &bytes),
        Ok(None) => Err(Error::NotFound),
        Err(error) => Err(error),
    }
}

// What the first of the pool's two streams tells.
fn builder_of<F: ReadMedium>(
    alloc: Global,
    file: &mut CompoundFile<F>,
) -> Result<StringPoolBuilder, Error>
    ensures shown { (tree : Tree) → StoreShowsTree file.old tree
        → FindsPart (file_case_table file.old)
        (bytes_in file.old) (IsBegun (file_case_table file.old) tree)
        (builder_in (file_case_table file.old) tree) result }
    ensures only_reads { OnlyReadsFile file.old file.new }
    ensures cause { IfErr result (IsJustifiedBySectors (allocator_of (mini_of file.old))
        (allocator_of (mini_of file.new))) }
    ensures errors { IfErr result IsOpeningError }
{
    match table_bytes(alloc, file, "_StringPool") {
        Ok(Some(bytes)) => builder_from(alloc, &bytes),
        Ok(None) => Err(Error::NotFound),
        Err(error) => Err(error),
    }
}

// The same of its bytes.
fn builder_from(alloc: Global, bytes: &[u8]) -> Result<StringPoolBuilder, Error>
    ensures read { ReturnsOrOutOfMemory (λ builder. builder) result (begun bytes.now) }
    ensures small { (i : ℕ) → slice_index bytes.now i < 256 }
{
    let mut reader = bytes;
    StringPoolBuilder::read_from_pool(alloc, &mut reader)
}

// The pool that the second builds, and whether its texts give back their bytes.
fn built_of<F: ReadMedium>(
    alloc: Global,
    file: &mut CompoundFile<F>,
    builder: StringPoolBuilder,
) -> Result<(StringPool, bool), Error>
    ensures shown { (tree : Tree) → StoreShowsTree file.old tree
        → FindsPart (file_case_table file.old)
        (bytes_in file.old)
        (λ found. IsBuilt (file_case_table file.old) tree builder found.0.pool found.1
        × (found.0.modified ≡ false)) (built_in (file_case_table file.old) tree builder) result }
    ensures only_reads { OnlyReadsFile file.old file.new }
    ensures cause { IfErr result (IsJustifiedBySectors (allocator_of (mini_of file.old))
        (allocator_of (mini_of file.new))) }
    ensures errors { IfErr result IsOpeningError }
{
    match table_bytes(alloc, file, "_StringData") {
        Ok(Some(bytes)) => built_from(alloc, builder, &bytes),
        Ok(None) => Err(Error::NotFound),
        Err(error) => Err(error),
    }
}

// The same of its bytes.
fn built_from(
    alloc: Global,
    builder: StringPoolBuilder,
    bytes: &[u8],
) -> Result<(StringPool, bool), Error>
    ensures built { IfOk result (λ found. (pool_of builder bytes.now ≡ Ok found.0.pool)
        × (texts_give_back builder bytes.now ≡ Ok found.1) × (found.0.modified ≡ false)) }
    ensures errors { IfErr result (λ e. (e ≡ Memory) ⊎ (pool_of builder bytes.now ≡ Err e)) }
{
    let gives_back = builder.gives_back(alloc, bytes)?;
    let mut reader = bytes;
    let pool = builder.build_from_data(alloc, &mut reader)?;
    Ok((pool, gives_back))
}

// The tables that the rows of the system tables describe.
fn schema_of<F: ReadMedium>(
    alloc: Global,
    file: &mut CompoundFile<F>,
    pool: &StringPool,
) -> Result<Vec<Rc<Table>>, Error>
    ensures shown { (tree : Tree) → StoreShowsTree file.old tree
        → FindsPart (file_case_table file.old)
        (bytes_in file.old) (λ tables. HasSchema (file_case_table file.old) tree pool.now.pool
        (headings_in tables.items))
        (schema_in (file_case_table file.old) tree pool.now.pool) result }
    ensures only_reads { OnlyReadsFile file.old file.new }
    ensures cause { IfErr result (IsJustifiedBySectors (allocator_of (mini_of file.old))
        (allocator_of (mini_of file.new))) }
    ensures errors { IfErr result IsOpeningError }
{
    let long = pool.long_string_refs();
    let tables = rows_by_columns(alloc, file, "_Tables", tables_columns(alloc)?, long)?;
    let columns = rows_by_columns(alloc, file, "_Columns", columns_columns(alloc)?, long)?;
    let columns_of_validation = validation_columns(alloc)?;
    let validation = rows_by_columns(alloc, file, "_Validation", columns_of_validation, long)?;
    schema_tables(alloc, pool, &tables, &columns, &validation)
}
