//! The rows of tables, read from the file.
ghost use Rattle.std.specs.Prelude.{◌≡◌, ◌⊎◌, ◌≤◌, length, IfErr, IfOk, MatchResult, None, Some};
ghost use Rattle.cfb.specs.Streams.{FileHoldsTree};
ghost use Rattle.cfb.specs.Views.{file_case_table, mini_of, OnlyReadsFile};
ghost use Rattle.cfb_fat.specs.Tables.{IsJustifiedBySectors};
ghost use Rattle.cfb_medium.specs.Calls.{IsFaultOrInvalidInputIf};
ghost use Rattle.cfb_medium.specs.declared.error.Error.TheVariants.{InvalidData};
ghost use Rattle.cfb_mini.specs.Views.{allocator_of};
ghost use Rattle.cfb_tree.specs.Tree.{Tree};
ghost use Rattle.msi_spec.specs.Package.{stream_name};
ghost use Rattle.msi_stored.specs.Shown.{bytes_in, StoreShowsTree, IsLostAt};
ghost use Rattle.msi_stored.specs.StoredPackages.{rows_in};
ghost use Rattle.msi_tables.specs.Held.{heading_of, rows_held};
ghost use Rattle.msi_tables.specs.Rows.{AreRowsWritable};

use crate::bytes::table_bytes;
use cfb::CompoundFile;
use cfb_medium::{Error, ReadMedium};
use msi_pool::ValueRef;
use msi_tables::Table;
use std::alloc::Global;

/// The rows of a table, from its stream; none where it has no stream. `InvalidData` where it has too many, or its stream's chain
/// breaks; the other errors are faults. The file is only read.
pub fn rows_of_table<F: ReadMedium>(
    alloc: Global,
    file: &mut CompoundFile<F>,
    table: &Table,
) -> Result<Vec<Vec<ValueRef>>, Error>
    ensures answer { (tree : Tree) → FileHoldsTree file.old tree → MatchResult result (λ rows.
        rows_in (file_case_table file.old) tree (heading_of table.now) ≡ Some
        (rows_held rows.items))
        (λ e. IsFaultOrInvalidInputIf ⊥ e ⊎ ((e ≡ InvalidData)
        × (rows_in (file_case_table file.old) tree (heading_of table.now) ≡ None))) }
    ensures shown { (tree : Tree) → StoreShowsTree file.old tree → MatchResult result (λ rows.
        rows_in (file_case_table file.old) tree (heading_of table.now) ≡ Some
        (rows_held rows.items))
        (λ e. IsLostAt (file_case_table file.old) (bytes_in file.old)
        (stream_name (heading_of table.now).name) e ⊎ ((e ≡ InvalidData)
        × (rows_in (file_case_table file.old) tree (heading_of table.now) ≡ None))) }
    ensures few { IfOk result (λ rows. length rows.items ≤ 65536) }
    ensures shape { IfOk result (λ rows. AreRowsWritable (heading_of table.now).long
        (heading_of table.now).columns (rows_held rows.items)) }
    ensures only_reads { OnlyReadsFile file.old file.new }
    ensures cause { IfErr result (IsJustifiedBySectors (allocator_of (mini_of file.old))
        (allocator_of (mini_of file.new))) }
    ensures errors { IfErr result (λ e. IsFaultOrInvalidInputIf ⊥ e ⊎ (e ≡ InvalidData)) }
{
    match table_bytes(alloc, file, table.name()) {
        Ok(Some(bytes)) => table.read_rows(alloc, &bytes),
        Ok(None) => table.read_rows(alloc, &[]),
        Err(error) => Err(error),
    }
}
