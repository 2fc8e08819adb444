//! The rows of the system tables, which are read by fixed columns.
ghost use Rattle.std.specs.Prelude.{◌≡◌, ◌≤◌, length, Contains, IfErr, IfOk, Ok};
ghost use Rattle.cfb.specs.Views.{file_case_table, mini_of, OnlyReadsFile};
ghost use Rattle.cfb_fat.specs.Tables.{IsJustifiedBySectors};
ghost use Rattle.cfb_mini.specs.Views.{allocator_of};
ghost use Rattle.cfb_tree.specs.Tree.{Tree};
ghost use Rattle.msi_columns.specs.Held.{columns_of};
ghost use Rattle.msi_spec.specs.Opening.{rows_by};
ghost use Rattle.msi_spec.specs.Package.{objects, stream_name};
ghost use Rattle.msi_pool.specs.Pool.{Pool};
ghost use Rattle.msi_stored.specs.Reading.{IsOpeningError};
ghost use Rattle.msi_stored.specs.Shown.{bytes_in, opening_names, FindsPart, StoreShowsTree};
ghost use Rattle.msi_tables.specs.Held.{rows_held};

use crate::rows::rows_of_table;
use cfb::CompoundFile;
use cfb_medium::{Error, ReadMedium};
use msi_columns::Column;
use msi_pool::ValueRef;
use msi_tables::Table;
use std::alloc::Global;

/// The rows of the table of a name, read by these columns. Errors are those of `rows_of_table`. The file is only read.
pub fn rows_by_columns<F: ReadMedium>(
    alloc: Global,
    file: &mut CompoundFile<F>,
    name: &str,
    columns: Vec<Column>,
    long_string_refs: bool,
) -> Result<Vec<Vec<ValueRef>>, Error>
    ensures shown { (tree : Tree) → StoreShowsTree file.old tree → (pool : Pool) → pool.long
        ≡ long_string_refs → Contains opening_names (stream_name name.now)
        → FindsPart (file_case_table file.old) (bytes_in file.old) (λ rows. rows_by
        (file_case_table file.old) (objects tree.content) pool name.now (columns_of columns.items)
        ≡ Ok (rows_held rows.items)) (rows_by (file_case_table file.old) (objects tree.content)
        pool name.now (columns_of columns.items)) result }
    ensures few { IfOk result (λ rows. length rows.items ≤ 65536) }
    ensures only_reads { OnlyReadsFile file.old file.new }
    ensures cause { IfErr result (IsJustifiedBySectors (allocator_of (mini_of file.old))
        (allocator_of (mini_of file.new))) }
    ensures errors { IfErr result IsOpeningError }
{
    let name = String::from_str(alloc, name)?;
    let table = Table::from_parts(name, columns, long_string_refs);
    rows_of_table(alloc, file, &table)
}
