//! How many cells use each text.
ghost use Rattle.std.specs.Prelude.{◌≡◌, ◌⊎◌, ◌-◌, false, true, IfErr, IfOk, MatchResult, length, map};
ghost use Rattle.cfb.specs.Streams.{FileHoldsTree};
ghost use Rattle.cfb.specs.Views.{file_case_table, mini_of, OnlyReadsFile};
ghost use Rattle.cfb_fat.specs.Tables.{IsJustifiedBySectors};
ghost use Rattle.cfb_medium.specs.Calls.{IsFaultOrInvalidInputIf};
ghost use Rattle.cfb_medium.specs.declared.error.Error.TheVariants.{InvalidData, Memory};
ghost use Rattle.cfb_mini.specs.Views.{allocator_of};
ghost use Rattle.cfb_tree.specs.Tree.{Tree};
ghost use Rattle.msi_adopting.specs.Counted.{full_counts, AreUsesAt, CanBeCounted};
ghost use Rattle.msi_soundness.specs.Counting.{RefcountsTaken};
ghost use Rattle.msi_schema.specs.Headings.{headings_in};
ghost use Rattle.msi_tables.specs.Held.{heading_of};

use cfb::CompoundFile;
use cfb_medium::{Error, ReadMedium};
use msi_pool::StringPool;
use msi_spec::take_rows;
use msi_store::rows_of_table;
use msi_tables::Table;
use std::alloc::Global;
use std::rc::Rc;

// The greatest count that a pool can say.
const GREATEST_COUNT: u16 = 65535;

/// The number of cells of all tables that name each place of the pool. `InvalidData` where the rows of a table can't be read, where a
/// cell names no place of the pool, or more than 65535 cells name one. The rows of one table are in memory at a time.
pub fn uses_of_places<F: ReadMedium>(
    alloc: Global,
    file: &mut CompoundFile<F>,
    pool: &StringPool,
    tables: &[Rc<Table>],
) -> Result<Vec<u16>, Error>
    ensures answer { (tree : Tree) → FileHoldsTree file.old tree → MatchResult result
        (λ uses. AreUsesAt (file_case_table file.old) tree (headings_in tables.now)
        (length pool.now.pool.places) uses.items) (λ e. IsFaultOrInvalidInputIf ⊥ e
        ⊎ ((e ≡ InvalidData)
        × (CanBeCounted (file_case_table file.old) tree (headings_in tables.now)
        (length pool.now.pool.places) → ⊥))) }
    ensures size { IfOk result (λ uses. length uses.items ≡ length pool.now.pool.places) }
    ensures only_reads { OnlyReadsFile file.old file.new }
    ensures cause { IfErr result (IsJustifiedBySectors (allocator_of (mini_of file.old))
        (allocator_of (mini_of file.new))) }
    ensures errors { IfErr result (λ e. IsFaultOrInvalidInputIf ⊥ e ⊎ (e ≡ InvalidData)) }
{
    let mut left = full_counts(alloc, pool.num_strings())?;
    for table in tables {
        match take_uses(alloc, file, table, &mut left) {
            Ok(true) => {}
            Ok(false) => return Err(Error::InvalidData),
            Err(error) => return Err(error),
        }
    }
    uses_taken(alloc, &left)
}

// The greatest count, so many times. The one error is `Memory`.
fn full_counts(alloc: Global, count: u32) -> Result<Vec<u16>, Error>
    ensures full { IfOk result (λ left. left.items ≡ full_counts count) }
    ensures errors { IfErr result (λ e. e ≡ Memory) }
{
    Ok(Vec::from_elem(alloc, GREATEST_COUNT, count as usize)?)
}

// Takes the uses that the cells of a table make from those that are left. `false` where a place has too few left. `InvalidData` where
// the rows can't be read.
fn take_uses<F: ReadMedium>(
    alloc: Global,
    file: &mut CompoundFile<F>,
    table: &Table,
    left: &mut [u16],
) -> Result<bool, Error>
    ensures answer { (tree : Tree) → FileHoldsTree file.old tree → MatchResult result
        (RefcountsTaken (file_case_table file.old) tree (heading_of table.now) left.old left.new)
        (λ e. IsFaultOrInvalidInputIf ⊥ e
        ⊎ ((e ≡ InvalidData) × RefcountsTaken (file_case_table file.old) tree
        (heading_of table.now) left.old left.new false)) }
    ensures only_reads { OnlyReadsFile file.old file.new }
    ensures cause { IfErr result (IsJustifiedBySectors (allocator_of (mini_of file.old))
        (allocator_of (mini_of file.new))) }
    ensures errors { IfErr result (λ e. IsFaultOrInvalidInputIf ⊥ e ⊎ (e ≡ InvalidData)) }
{
    match rows_of_table(alloc, file, table) {
        Ok(rows) => Ok(take_rows(left, &rows)),
        Err(error) => Err(error),
    }
}

// What was taken from the greatest count at each place. The one error is `Memory`.
fn uses_taken(alloc: Global, left: &[u16]) -> Result<Vec<u16>, Error>
    ensures taken { IfOk result (λ uses. uses.items ≡ map (λ n. 65535 - n) left.now) }
    ensures errors { IfErr result (λ e. e ≡ Memory) }
{
    let mut uses = Vec::new(alloc);
    for count in left {
        uses.push(GREATEST_COUNT - *count)?;
    }
    Ok(uses)
}
