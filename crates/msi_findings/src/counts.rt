//! Texts that aren't counted right.
ghost use Rattle.std.specs.Prelude.{◌≡◌, ◌⊎◌, ◌++◌, ◌<◌, ◌^◌, length, map, IfErr, IfOk, MatchResult, OnOk};
ghost use Rattle.cfb.specs.Streams.{FileHoldsTree};
ghost use Rattle.cfb.specs.Views.{file_case_table, mini_of, OnlyReadsFile};
ghost use Rattle.cfb_fat.specs.Tables.{IsJustifiedBySectors};
ghost use Rattle.cfb_medium.specs.Calls.{IsFaultOrInvalidInputIf};
ghost use Rattle.cfb_medium.specs.declared.error.Error.TheVariants.{InvalidData, Memory};
ghost use Rattle.cfb_mini.specs.Views.{allocator_of};
ghost use Rattle.cfb_tree.specs.Tree.{Tree};
ghost use Rattle.msi_adopting.specs.Counted.{CanBeCounted};
ghost use Rattle.msi_findings.specs.Findings.{miscounted, miscounts};
ghost use Rattle.msi_soundness.specs.Counting.{table_at};
ghost use Rattle.msi_spec.specs.Sound.{refcounts_of};
ghost use Rattle.msi_pool.specs.Pool.{pool_entry_at};
ghost use Rattle.msi_recounted.specs.Counts.{listed_uses};
ghost use Rattle.msi_schema.specs.Headings.{headings_in};

use crate::miscount::Miscount;
use cfb::CompoundFile;
use cfb_medium::{Error, ReadMedium};
use msi_adopting::uses_of_places;
use msi_pool::{StringPool, StringRef};
use msi_tables::Table;
use std::alloc::{AllocError, Global};
use std::rc::Rc;

/// The places of the pool that are used by another number of cells than it counts, with both numbers, in order. A reference can name
/// each place of the pool. `InvalidData` where the
/// cells can't be counted: the rows of a table can't be read, a cell names no place of the pool, or more than 65535 cells name one. The
/// other errors are faults. The rows of one table are in memory at a time, and the file is only read.
pub fn miscounts<F: ReadMedium>(
    alloc: Global,
    file: &mut CompoundFile<F>,
    pool: &StringPool,
    tables: &[Rc<Table>],
) -> Result<Vec<Miscount>, Error>
    requires { length pool.now.pool.places < 2 ^ 24 }
    ensures answer { (tree : Tree) → FileHoldsTree file.old tree → MatchResult result
        (λ found. found.items ≡ miscounts
        (refcounts_of (map (table_at (file_case_table file.old) tree)
        (headings_in tables.now))) pool.now.pool.places) (λ e. IsFaultOrInvalidInputIf ⊥ e
        ⊎ ((e ≡ InvalidData)
        × (CanBeCounted (file_case_table file.old) tree (headings_in tables.now)
        (length pool.now.pool.places) → ⊥))) }
    ensures only_reads { OnlyReadsFile file.old file.new }
    ensures cause { IfErr result (IsJustifiedBySectors (allocator_of (mini_of file.old))
        (allocator_of (mini_of file.new))) }
    ensures errors { IfErr result (λ e. IsFaultOrInvalidInputIf ⊥ e ⊎ (e ≡ InvalidData)) }
{
    match uses_of_places(alloc, file, pool, tables) {
        Ok(uses) => differing(alloc, pool, &uses),
        Err(error) => Err(error),
    }
}

// The places whose count isn't the number that is listed. The one error is `Memory`.
fn differing(alloc: Global, pool: &StringPool, uses: &[u16]) -> Result<Vec<Miscount>, Error>
    requires size { length uses.now ≡ length pool.now.pool.places }
    requires few { length uses.now < 2 ^ 24 }
    ensures found { IfOk result (λ found. found.items
        ≡ miscounts (listed_uses uses.now) pool.now.pool.places) }
    ensures errors { IfErr result (λ e. e ≡ Memory) }
{
    let mut found = Vec::new(alloc);
    for (index, used) in uses.iter().enumerate() {
        note(&mut found, pool, index as u32 + 1, *used)?;
    }
    Ok(found)
}

// Adds a place where its count isn't this number.
fn note(
    found: &mut Vec<Miscount>,
    pool: &StringPool,
    place: u32,
    used: u16,
) -> Result<(), AllocError>
    requires { (0 < place) × (place < 2 ^ 24) }
    ensures { OnOk result (found.new.items ≡ found.old.items ++ miscounted (λ n. used) place
        (pool_entry_at pool.now.pool.places place)) }
{
    let counted = pool.refcount(StringRef::new(place));
    if counted == used {
        return Ok(());
    }
    found.push(Miscount {
        place,
        counted,
        used,
    })?;
    Ok(())
}
