//! Sectors and mini sectors that serve two uses or more ([MS-CFB] 2).
ghost use Rattle.cfb_directory.specs.Views.{entries_held};
ghost use Rattle.cfb_fat.specs.Tables.{fat_of, has_failed_here, sectors_of};
ghost use Rattle.cfb_findings.specs.Counted.{CountsMatchUses};
ghost use Rattle.cfb_findings.specs.Findings.{is_long, is_short, shared, starts_where, ChainsFrom, HasTree};
ghost use Rattle.cfb_findings.specs.Views.{counts_of};
ghost use Rattle.cfb_medium.specs.declared.error.Error.TheVariants.{Failed, Memory};
ghost use Rattle.cfb_mini.specs.Views.{allocator_of, directory_of, mini_fat_of};
ghost use Rattle.cfb_sectors.specs.Held.{count_of};
ghost use Rattle.cfb_sectors.specs.Sectors.{greatest_regular};
ghost use Rattle.cfb_soundness.specs.Uses.{IsOutOfMemoryOrFailed};
ghost use Rattle.cfb_soundness.specs.Views.{table_sectors};
ghost use Rattle.std.specs.Prelude.{false, length, min, slice_get, true, IfErr, IfOk, IsErrOf, List, ℕ, ◌++◌, ◌+◌, ◌≡◌};

use crate::counts::Counts;
use crate::starts::{long_starts, short_starts};
use cfb_fat::Allocator;
use cfb_medium::{Error, ReadMedium};
use cfb_mini::MiniAllocator;
use cfb_sectors::{HasSectors, MAX_REGULAR_SECTOR};
use std::alloc::Global;

// The FAT's entry for a sector.
fn next_of<F: ReadMedium>(allocator: &Allocator<F>, sector_id: u32) -> Option<u32>
    requires { has_failed_here allocator.now ≡ false }
    ensures { result ≡ slice_get (fat_of allocator.now) sector_id }
{
    match allocator.next(sector_id) {
        Ok(next) => Some(next),
        Err(_) => None,
    }
}

// The FAT's entries.
#[tactic(auto, using(crate::proofs::Listed::take_found, crate::proofs::Listed::take_whole))]
pub(crate) fn fat_entries<F: ReadMedium>(
    alloc: Global,
    allocator: &Allocator<F>,
) -> Result<Vec<u32>, Error>
    requires { has_failed_here allocator.now ≡ false }
    ensures entries { IfOk result (λ entries. entries.items ≡ fat_of allocator.now) }
    ensures errors { IfErr result (λ e. e ≡ Memory) }
{
    let mut entries = Vec::new(alloc);
    for sector_id in 0..allocator.num_sectors() {
        let Some(next) = next_of(allocator, sector_id) else {
            return Ok(entries);
        };
        entries.push(next)?;
    }
    Ok(entries)
}

// Counts the sectors of FAT, DIFAT, directory, mini FAT and mini stream.
fn count_tables<F: ReadMedium>(file: &MiniAllocator<F>, counts: &mut Counts)
    ensures counted { (before : List ℕ) → CountsMatchUses before (counts_of counts.old)
        → CountsMatchUses (table_sectors file.now ++ before) (counts_of counts.new) }
    ensures size { length (counts_of counts.new) ≡ length (counts_of counts.old) }
{
    let allocator = file.directory().allocator();
    counts.count_all(file.mini_stream_sectors());
    counts.count_all(file.mini_fat_sectors());
    counts.count_all(file.directory().sectors());
    counts.count_all(allocator.difat_sectors());
    counts.count_all(allocator.fat_sectors());
}

/// The sectors that serve two uses or more, rising. A use is each sector of the FAT, the DIFAT, the directory, the mini FAT and
/// the mini stream, and each sector of the chain of a stream of at least 4096 bytes that has one. Of a directory without a tree
/// nothing is said. `Failed` where a fault before has left the file in a state in which every call is refused; the one other error
/// is `Memory` ([MS-CFB] 2).
pub fn shared_sectors<F: ReadMedium>(
    alloc: Global,
    file: &MiniAllocator<F>,
) -> Result<Vec<u32>, Error>
    ensures found { (ids : List ℕ) → HasTree (entries_held (directory_of file.now)) ids
        → IfOk result (λ found. (streams : List ℕ)
        × ChainsFrom (fat_of (allocator_of file.now))
        (starts_where is_long (entries_held (directory_of file.now)) ids) streams
        × (found.items ≡ shared (count_of (sectors_of (allocator_of file.now)))
        (table_sectors file.now ++ streams))) }
    ensures when_failed { has_failed_here (allocator_of file.now) ≡ true → IsErrOf result Failed }
    ensures errors { IfErr result
        (IsOutOfMemoryOrFailed (has_failed_here (allocator_of file.now))) }
{
    let allocator = file.directory().allocator();
    if allocator.is_failed() {
        return Err(Error::Failed);
    }
    let count = allocator.num_sectors();
    let links = fat_entries(alloc, allocator)?;
    let starts = long_starts(alloc, file.directory())?;
    let mut counts = Counts::of_chains(alloc, count as usize, &links, &starts)?;
    count_tables(file, &mut counts);
    counts.shared(alloc, count)
}

/// The mini sectors that serve two uses or more, rising: that stand twice or more in the chains of the streams of fewer than 4096
/// bytes that have one in the mini FAT. Of a directory without a tree nothing is said. `Failed` where a fault before has left the
/// file in a state in which every call is refused; the one other error is `Memory` ([MS-CFB] 2.4).
pub fn shared_mini_sectors<F: ReadMedium>(
    alloc: Global,
    file: &MiniAllocator<F>,
) -> Result<Vec<u32>, Error>
    ensures found { (ids : List ℕ) → HasTree (entries_held (directory_of file.now)) ids
        → IfOk result (λ found. (streams : List ℕ)
        × ChainsFrom (mini_fat_of file.now)
        (starts_where is_short (entries_held (directory_of file.now)) ids) streams
        × (found.items ≡ shared (min (length (mini_fat_of file.now)) (greatest_regular + 1))
        streams)) }
    ensures when_failed { has_failed_here (allocator_of file.now) ≡ true → IsErrOf result Failed }
    ensures errors { IfErr result
        (IsOutOfMemoryOrFailed (has_failed_here (allocator_of file.now))) }
{
    if file.directory().allocator().is_failed() {
        return Err(Error::Failed);
    }
    let links = file.mini_fat();
    let starts = short_starts(alloc, file.directory())?;
    let counts = Counts::of_chains(alloc, links.len(), links, &starts)?;
    let count = links.len().min(MAX_REGULAR_SECTOR as usize + 1);
    counts.shared(alloc, count as u32)
}
