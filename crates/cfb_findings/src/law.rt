//! A file has no findings just where it is sound ([MS-CFB] 2).
ghost use Rattle.cfb_directory.specs.Views.{entries_held};
ghost use Rattle.cfb_fat.specs.Tables.{bytes_of, difat_sectors_of, fat_of, fat_sectors_of, has_failed_here, sectors_of};
ghost use Rattle.cfb_findings.specs.Broken.{AreBroken};
ghost use Rattle.cfb_findings.specs.Findings.{is_long, is_short, starts_where, unmarked, HasTree};
ghost use Rattle.cfb_findings.specs.Nothing.{HasNoFindings, TellsNone, TellsUnshared};
ghost use Rattle.cfb_findings.specs.Seen.{tables_seen};
ghost use Rattle.cfb_spec.specs.Means.{Layout, BytesMeanTreeBy};
ghost use Rattle.cfb_spec.specs.Sound.{IsSoundContainer};
ghost use Rattle.cfb_medium.specs.declared.error.Error.TheVariants.{Failed, Memory};
ghost use Rattle.cfb_mini.specs.Views.{allocator_of, directory_of, mini_fat_of};
ghost use Rattle.cfb_sectors.specs.Held.{count_of};
ghost use Rattle.cfb_sectors.specs.Sectors.{greatest_regular};
ghost use Rattle.cfb_soundness.specs.Uses.{IsOutOfMemoryOrFailed};
ghost use Rattle.cfb_soundness.specs.Views.{table_sectors, LiesSo};
ghost use Rattle.cfb_tree.specs.Entries.{HasSize};
ghost use Rattle.cfb_tree.specs.Names.{CaseTable};
ghost use Rattle.cfb_tree.specs.Tree.{Tree};
ghost use Rattle.std.specs.Prelude.{[], length, min, true, IfErr, IfOk, IsErrOf, IsTrue, List, ℕ, ◌++◌, ◌+◌, ◌≡◌, ◌≤◌, ◌↔◌};

use crate::sharing::{shared_mini_sectors, shared_sectors};
use crate::streams::broken_streams;
use crate::tables::{uncovered_sectors, unmarked_tables};
use cfb_medium::{Error, ReadMedium};
use cfb_mini::MiniAllocator;
use std::alloc::Global;

// Whether nothing is listed.
fn is_none(found: &[u32]) -> bool
    ensures { IsTrue result ↔ (found.now ≡ []) }
{
    found.is_empty()
}

// Whether the FAT has an entry for each sector.
fn is_covered<F: ReadMedium>(file: &MiniAllocator<F>) -> Result<bool, Error>
    ensures covered { IfOk result (λ ok. IsTrue ok ↔ (count_of (sectors_of (allocator_of file.now))
        ≤ length (fat_of (allocator_of file.now)))) }
    ensures when_failed { has_failed_here (allocator_of file.now) ≡ true → IsErrOf result Failed }
    ensures errors { IfErr result
        (IsOutOfMemoryOrFailed (has_failed_here (allocator_of file.now))) }
{
    match uncovered_sectors(file) {
        Ok(Some(_)) => Ok(false),
        Ok(None) => Ok(true),
        Err(error) => Err(error),
    }
}

// Whether the tables' own sectors are in use.
fn are_marked<F: ReadMedium>(alloc: Global, file: &MiniAllocator<F>) -> Result<bool, Error>
    ensures marked { IfOk result (λ ok. IsTrue ok ↔ (unmarked (fat_of (allocator_of file.now))
        (fat_sectors_of (allocator_of file.now) ++ difat_sectors_of (allocator_of file.now))
        ≡ [])) }
    ensures errors { IfErr result
        (IsOutOfMemoryOrFailed (has_failed_here (allocator_of file.now))) }
{
    let found = unmarked_tables(alloc, file)?;
    Ok(is_none(&found))
}

// Whether each stream's bytes are there.
fn are_whole<F: ReadMedium>(
    alloc: Global,
    file: &MiniAllocator<F>,
    file_len: u64,
) -> Result<bool, Error>
    ensures whole { (ids : List ℕ) → HasTree (entries_held (directory_of file.now)) ids
        → IfOk result (λ ok. TellsNone (AreBroken (tables_seen file.now file_len) ids) ok) }
    ensures errors { IfErr result
        (IsOutOfMemoryOrFailed (has_failed_here (allocator_of file.now))) }
{
    let found = broken_streams(alloc, file, file_len)?;
    Ok(is_none(&found))
}

// Whether no sector serves two uses.
fn are_apart<F: ReadMedium>(alloc: Global, file: &MiniAllocator<F>) -> Result<bool, Error>
    ensures apart { (ids : List ℕ) → HasTree (entries_held (directory_of file.now)) ids
        → IfOk result (TellsUnshared (fat_of (allocator_of file.now))
        (starts_where is_long (entries_held (directory_of file.now)) ids)
        (count_of (sectors_of (allocator_of file.now))) (table_sectors file.now)) }
    ensures errors { IfErr result
        (IsOutOfMemoryOrFailed (has_failed_here (allocator_of file.now))) }
{
    let found = shared_sectors(alloc, file)?;
    Ok(is_none(&found))
}

// Whether no mini sector does.
fn are_minis_apart<F: ReadMedium>(alloc: Global, file: &MiniAllocator<F>) -> Result<bool, Error>
    ensures apart { (ids : List ℕ) → HasTree (entries_held (directory_of file.now)) ids
        → IfOk result (TellsUnshared (mini_fat_of file.now)
        (starts_where is_short (entries_held (directory_of file.now)) ids)
        (min (length (mini_fat_of file.now)) (greatest_regular + 1)) []) }
    ensures errors { IfErr result
        (IsOutOfMemoryOrFailed (has_failed_here (allocator_of file.now))) }
{
    let found = shared_mini_sectors(alloc, file)?;
    Ok(is_none(&found))
}

/// Whether there are no findings: the FAT covers the file, and each list is empty. A file whose bytes mean a tree of sizes has none
/// just where it is sound. `file_len` is the number of the medium's bytes. `Failed` where a fault before has left the file in a
/// state in which every call is refused; the one other error is `Memory` ([MS-CFB] 2).
pub fn is_without_findings<F: ReadMedium>(
    alloc: Global,
    file: &MiniAllocator<F>,
    file_len: u64,
) -> Result<bool, Error>
    ensures none { (ids : List ℕ) → HasTree (entries_held (directory_of file.now)) ids
        → IfOk result (λ none. IsTrue none ↔ HasNoFindings file.now file_len ids) }
    ensures sound { IfOk result (λ none. (letters : CaseTable) (l : Layout) (tree : Tree)
        → LiesSo file.now l → file_len ≡ length (bytes_of (allocator_of file.now))
        → BytesMeanTreeBy l HasSize letters (bytes_of (allocator_of file.now)) tree
        → IsTrue none ↔ IsSoundContainer letters (bytes_of (allocator_of file.now))) }
    ensures when_failed { has_failed_here (allocator_of file.now) ≡ true → IsErrOf result Failed }
    ensures errors { IfErr result
        (IsOutOfMemoryOrFailed (has_failed_here (allocator_of file.now))) }
{
    let covered = is_covered(file)?;
    if !covered {
        return Ok(false);
    }
    let marked = are_marked(alloc, file)?;
    if !marked {
        return Ok(false);
    }
    let whole = are_whole(alloc, file, file_len)?;
    if !whole {
        return Ok(false);
    }
    let apart = are_apart(alloc, file)?;
    if !apart {
        return Ok(false);
    }
    let minis_apart = are_minis_apart(alloc, file)?;
    if !minis_apart {
        return Ok(false);
    }
    Ok(true)
}
