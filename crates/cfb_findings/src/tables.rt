//! Sectors that the FAT lacks, and tables that it doesn't have in use ([MS-CFB] 2.3).
ghost use Rattle.cfb_fat.specs.Tables.{difat_sectors_of, fat_of, fat_sectors_of, has_failed_here, sectors_of};
ghost use Rattle.cfb_findings.specs.Findings.{is_unmarked, unmarked};
ghost use Rattle.cfb_medium.specs.declared.error.Error.TheVariants.{Failed, Memory};
ghost use Rattle.cfb_mini.specs.Views.{allocator_of};
ghost use Rattle.cfb_sectors.specs.Held.{count_of};
ghost use Rattle.cfb_soundness.specs.Uses.{IsOutOfMemoryOrFailed};
ghost use Rattle.std.specs.Prelude.{[], true, false, length, IfErr, IfOk, IsErrOf, IsTrue, MatchOption, OnOk, ◌++◌, ◌∷◌, ◌<◌, ◌≡◌, ◌≤◌, ◌↔◌};

use cfb_fat::Allocator;
use cfb_medium::{Error, ReadMedium};
use cfb_mini::MiniAllocator;
use cfb_sectors::{FREE_SECTOR, HasSectors};
use std::alloc::{AllocError, Global};

/// From which of the file's sectors on the FAT has no entry; `None` where it has one for each. `Failed` where a fault before has
/// left the file in a state in which every call is refused; there is no other error ([MS-CFB] 2.3).
pub fn uncovered_sectors<F: ReadMedium>(file: &MiniAllocator<F>) -> Result<Option<u32>, Error>
    ensures first { IfOk result (λ first. MatchOption first
        (count_of (sectors_of (allocator_of file.now)) ≤ length (fat_of (allocator_of file.now)))
        (λ n. (n ≡ length (fat_of (allocator_of file.now)))
        × (n < count_of (sectors_of (allocator_of file.now))))) }
    ensures when_failed { has_failed_here (allocator_of file.now) ≡ true → IsErrOf result Failed }
    ensures errors { IfErr result (λ e. (e ≡ Failed)
        × (has_failed_here (allocator_of file.now) ≡ true)) }
{
    let allocator = file.directory().allocator();
    if allocator.is_failed() {
        return Err(Error::Failed);
    }
    Ok(first_uncovered(allocator))
}

// From which sector on the FAT has no entry.
fn first_uncovered<F: ReadMedium>(allocator: &Allocator<F>) -> Option<u32>
    requires { has_failed_here allocator.now ≡ false }
    ensures { MatchOption result
        (count_of (sectors_of allocator.now) ≤ length (fat_of allocator.now))
        (λ n. (n ≡ length (fat_of allocator.now)) × (n < count_of (sectors_of allocator.now))) }
{
    for sector_id in 0..allocator.num_sectors() {
        if !has_entry(allocator, sector_id) {
            return Some(sector_id);
        }
    }
    None
}

// Whether the FAT has an entry for a sector.
fn has_entry<F: ReadMedium>(allocator: &Allocator<F>, sector_id: u32) -> bool
    requires { has_failed_here allocator.now ≡ false }
    ensures { IsTrue result ↔ (sector_id < length (fat_of allocator.now)) }
{
    allocator.next(sector_id).is_ok()
}

/// The sectors of FAT and DIFAT that the FAT doesn't have in use: it has no entry for them, or says "free". Those of the FAT come
/// first, each list in its order. `Failed` where a fault before has left the file in a state in which every call is refused; the
/// one other error is `Memory` ([MS-CFB] 2.3).
pub fn unmarked_tables<F: ReadMedium>(
    alloc: Global,
    file: &MiniAllocator<F>,
) -> Result<Vec<u32>, Error>
    ensures found { IfOk result (λ found. found.items ≡ unmarked (fat_of (allocator_of file.now))
        (fat_sectors_of (allocator_of file.now) ++ difat_sectors_of (allocator_of file.now))) }
    ensures when_failed { has_failed_here (allocator_of file.now) ≡ true → IsErrOf result Failed }
    ensures errors { IfErr result
        (IsOutOfMemoryOrFailed (has_failed_here (allocator_of file.now))) }
{
    let allocator = file.directory().allocator();
    if allocator.is_failed() {
        return Err(Error::Failed);
    }
    let mut found = Vec::new(alloc);
    note_unmarked(&mut found, allocator, allocator.fat_sectors())?;
    note_unmarked(&mut found, allocator, allocator.difat_sectors())?;
    Ok(found)
}

// Adds those of these sectors that aren't in use.
fn note_unmarked<F: ReadMedium>(
    found: &mut Vec<u32>,
    allocator: &Allocator<F>,
    sector_ids: &[u32],
) -> Result<(), Error>
    requires { has_failed_here allocator.now ≡ false }
    ensures found { OnOk result (found.new.items
        ≡ found.old.items ++ unmarked (fat_of allocator.now) sector_ids.now) }
    ensures errors { IfErr result (λ e. e ≡ Memory) }
{
    for sector_id in sector_ids {
        note(found, allocator, *sector_id)?;
    }
    Ok(())
}

// Adds a sector that isn't in use.
fn note<F: ReadMedium>(
    found: &mut Vec<u32>,
    allocator: &Allocator<F>,
    sector_id: u32,
) -> Result<(), AllocError>
    requires { has_failed_here allocator.now ≡ false }
    ensures { OnOk result (found.new.items
        ≡ found.old.items ++ unmarked (fat_of allocator.now) (sector_id ∷ [])) }
{
    if !is_free(allocator, sector_id) {
        return Ok(());
    }
    found.push(sector_id)?;
    Ok(())
}

// Whether the FAT has no entry for a sector, or says "free".
fn is_free<F: ReadMedium>(allocator: &Allocator<F>, sector_id: u32) -> bool
    requires { has_failed_here allocator.now ≡ false }
    ensures { result ≡ is_unmarked (fat_of allocator.now) sector_id }
{
    match allocator.next(sector_id) {
        Ok(next) => next == FREE_SECTOR,
        Err(_) => true,
    }
}
