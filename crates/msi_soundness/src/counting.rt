//! Whether a pool counts the uses that the cells of all tables make, counted down one table after the other.
ghost use Rattle.std.specs.Prelude.{◌↔◌, IfErr, IfOk, IsTrue};
ghost use Rattle.cfb.specs.Streams.{FileHoldsTree};
ghost use Rattle.cfb.specs.Views.{file_case_table, mini_of, OnlyReadsFile};
ghost use Rattle.cfb_fat.specs.Tables.{IsJustifiedBySectors};
ghost use Rattle.cfb_medium.specs.Calls.{IsFaultOrInvalidInputIf};
ghost use Rattle.cfb_mini.specs.Views.{allocator_of};
ghost use Rattle.cfb_tree.specs.Tree.{Tree};
ghost use Rattle.msi_soundness.specs.Counting.{AreCountedAt, RefcountsTaken};
ghost use Rattle.msi_schema.specs.Headings.{headings_in};
ghost use Rattle.msi_tables.specs.Held.{heading_of};

use crate::faults::no_unless_fault;
use cfb::CompoundFile;
use cfb_medium::{Error, ReadMedium};
use msi_pool::StringPool;
use msi_spec::{are_used_up, take_rows};
use msi_store::rows_of_table;
use msi_tables::Table;
use std::alloc::Global;
use std::rc::Rc;

// Whether the rows of all tables can be read, and the pool counts just the uses that their cells make. The rows of one table are
// in memory at a time.
pub(crate) fn are_uses_counted<F: ReadMedium>(
    alloc: Global,
    file: &mut CompoundFile<F>,
    pool: &StringPool,
    tables: &[Rc<Table>],
) -> Result<bool, Error>
    ensures answer { (tree : Tree) → FileHoldsTree file.old tree → IfOk result (λ are. IsTrue are
        ↔ AreCountedAt (file_case_table file.old) tree pool.now.pool (headings_in tables.now)) }
    ensures only_reads { OnlyReadsFile file.old file.new }
    ensures cause { IfErr result (IsJustifiedBySectors (allocator_of (mini_of file.old))
        (allocator_of (mini_of file.new))) }
    ensures errors { IfErr result (IsFaultOrInvalidInputIf ⊥) }
{
    let mut left = pool.counts(alloc)?;
    for table in tables {
        match take_uses(alloc, file, table, &mut left) {
            Ok(true) => {}
            Ok(false) => return Ok(false),
            Err(error) => return Err(error),
        }
    }
    Ok(are_used_up(&left))
}

// Takes the uses that the cells of a table make from those that are left. `false` where a place has too few left, or the rows
// can't be read.
fn take_uses<F: ReadMedium>(
    alloc: Global,
    file: &mut CompoundFile<F>,
    table: &Table,
    left: &mut [u16],
) -> Result<bool, Error>
    ensures answer { (tree : Tree) → FileHoldsTree file.old tree → IfOk result
        (RefcountsTaken (file_case_table file.old) tree (heading_of table.now) left.old left.new) }
    ensures only_reads { OnlyReadsFile file.old file.new }
    ensures cause { IfErr result (IsJustifiedBySectors (allocator_of (mini_of file.old))
        (allocator_of (mini_of file.new))) }
    ensures errors { IfErr result (IsFaultOrInvalidInputIf ⊥) }
{
    match rows_of_table(alloc, file, table) {
        Ok(rows) => Ok(take_rows(left, &rows)),
        Err(error) => no_unless_fault(error),
    }
}
