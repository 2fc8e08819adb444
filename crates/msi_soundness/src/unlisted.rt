//! Whether the rows of _Tables leave out the tables that need no listing.
ghost use Rattle.std.specs.Prelude.{◌↔◌, IfErr, IfOk, IsTrue, Some};
ghost use Rattle.cfb.specs.Streams.{FileHoldsTree};
ghost use Rattle.cfb.specs.Views.{file_case_table, mini_of, OnlyReadsFile};
ghost use Rattle.cfb_fat.specs.Tables.{IsJustifiedBySectors};
ghost use Rattle.cfb_medium.specs.Calls.{IsFaultOrInvalidInputIf};
ghost use Rattle.cfb_mini.specs.Views.{allocator_of};
ghost use Rattle.cfb_tree.specs.Tree.{Tree};
ghost use Rattle.msi_soundness.specs.Counting.{IsUnlistedAt};
ghost use Rattle.msi_parts.specs.Judged.{heading_named};
ghost use Rattle.msi_schema.specs.Headings.{headings_in};
ghost use Rattle.msi_tables.specs.Held.{heading_of};
ghost use Rattle.msi_tables.specs.Schema.{tables_name};

use crate::faults::no_unless_fault;
use cfb::CompoundFile;
use cfb_medium::{Error, ReadMedium};
use msi_parts::{lists_system_table, table_named};
use msi_pool::StringPool;
use msi_store::rows_of_table;
use msi_tables::Table;
use std::alloc::Global;
use std::rc::Rc;

// Whether no row of _Tables, where the tables have one of this name, names that table or _Columns.
pub(crate) fn is_unlisted<F: ReadMedium>(
    alloc: Global,
    file: &mut CompoundFile<F>,
    pool: &StringPool,
    tables: &[Rc<Table>],
) -> Result<bool, Error>
    ensures answer { (tree : Tree) → FileHoldsTree file.old tree → IfOk result (λ is. IsTrue is
        ↔ IsUnlistedAt (file_case_table file.old) tree pool.now.pool
        (heading_named (headings_in tables.now) tables_name)) }
    ensures only_reads { OnlyReadsFile file.old file.new }
    ensures cause { IfErr result (IsJustifiedBySectors (allocator_of (mini_of file.old))
        (allocator_of (mini_of file.new))) }
    ensures errors { IfErr result (IsFaultOrInvalidInputIf ⊥) }
{
    match table_named(tables, "_Tables") {
        Some(table) => lists_no_system_table(alloc, file, pool, table),
        None => Ok(true),
    }
}

// The same of the rows of a table, which is _Tables.
fn lists_no_system_table<F: ReadMedium>(
    alloc: Global,
    file: &mut CompoundFile<F>,
    pool: &StringPool,
    table: &Table,
) -> Result<bool, Error>
    ensures answer { (tree : Tree) → FileHoldsTree file.old tree → IfOk result (λ is. IsTrue is
        ↔ IsUnlistedAt (file_case_table file.old) tree pool.now.pool
        (Some (heading_of table.now))) }
    ensures only_reads { OnlyReadsFile file.old file.new }
    ensures cause { IfErr result (IsJustifiedBySectors (allocator_of (mini_of file.old))
        (allocator_of (mini_of file.new))) }
    ensures errors { IfErr result (IsFaultOrInvalidInputIf ⊥) }
{
    match rows_of_table(alloc, file, table) {
        Ok(rows) => Ok(!lists_system_table(&rows, pool)),
        Err(error) => no_unless_fault(error),
    }
}
