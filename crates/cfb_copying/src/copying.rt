//! Files that are copied whole.
ghost use Rattle.cfb_copying.specs.Chains.{IsCopyError};
ghost use Rattle.cfb_copying.specs.Copied.{HasRootName, HoldsCopy};
ghost use Rattle.cfb_copying.specs.Steps.{HasCopy, IsOriginal};
ghost use Rattle.cfb_directory.specs.Entries.{entries_in};
ghost use Rattle.cfb_directory.specs.Views.{entries_held};
ghost use Rattle.cfb_fat.specs.Tables.{has_failed_here, version_of, OnlyReadsAllocator, IsJustifiedBySectors};
ghost use Rattle.cfb_tree_edits.specs.Live.{LiveFileMeansTree};
ghost use Rattle.cfb_spec.specs.Means.{IsStrictlyOpenable};
ghost use Rattle.cfb_medium.specs.Calls.{IsFaultOrInvalidInputIf};
ghost use Rattle.cfb_medium.specs.Versions.{stream_len_mask};
ghost use Rattle.cfb_medium.specs.declared.error.Error.TheVariants.{Failed};
ghost use Rattle.cfb_mini.specs.Views.{allocator_of, directory_of, mini_fat_ids, OnlyReadsMini};
ghost use Rattle.cfb_ownership.specs.LiveFile.{LiveFile};
ghost use Rattle.cfb_ownership.specs.Owners.{first_of, mini_fat_owner, Owners};
ghost use Rattle.cfb_tree.specs.Names.{CaseTable};
ghost use Rattle.cfb_tree.specs.Tree.{Tree};
ghost use Rattle.std.specs.Prelude.{true, IfErr, IfOk, IsErrOf, ◌≡◌, ◌≤◌};

use crate::beginning::begin_file;
use crate::entries::end_copy;
use crate::repairing::{repair, root_len};
use crate::streams::{copy_minis, copy_streams};
use cfb_fat::Allocator;
use cfb_medium::{Error, ReadMedium};
use cfb_mini::MiniAllocator;
use cfb_sectors::{END_OF_CHAIN, HasSectors};
use cfb_soundness::tree_entries;
use cfb_tree::DirEntry;
use std::alloc::{AllocError, Global};

// The bytes of a copy of a file that has these entries, of which these numbers are the tree's. The entries are told where the
// copy's chains begin, are made black, and the root gets this size.
fn copy_file<F: ReadMedium>(
    alloc: Global,
    source: &mut Allocator<F>,
    mini_fat_at: u32,
    root_len: u64,
    ids: &[u32],
    entries: &mut [DirEntry],
) -> Result<Vec<u8>, Error>
    ensures copied { IfOk result (λ bytes. (s : LiveFile) (who : Owners)
        → IsOriginal source.old s who ids.now → s.entries ≡ entries_in entries.old
        → mini_fat_at ≡ first_of (who.sectors mini_fat_owner)
        → root_len ≤ stream_len_mask s.version → HasCopy s who ids.now root_len bytes.items) }
    ensures refused_only_if { IfErr result (λ e. (s : LiveFile) (who : Owners)
        → IsOriginal source.old s who ids.now → s.entries ≡ entries_in entries.old
        → mini_fat_at ≡ first_of (who.sectors mini_fat_owner)
        → root_len ≤ stream_len_mask s.version → IsFaultOrInvalidInputIf ⊥ e) }
    ensures only_reads { OnlyReadsAllocator source.old source.new }
    ensures cause { IfErr result (IsJustifiedBySectors source.old source.new) }
    ensures errors { IfErr result IsCopyError }
{
    let mut target = match begin_file(alloc, source.version()) {
        Ok(target) => target,
        Err(error) => return Err(error),
    };
    let mini_fat = match copy_minis(alloc, source, mini_fat_at, entries, &mut target) {
        Ok(links) => links,
        Err(error) => return Err(error),
    };
    if let Err(error) = copy_streams(alloc, source, ids, entries, &mut target) {
        return Err(error);
    }
    repair(entries, root_len);
    if let Err(error) = end_copy(alloc, &mut target, entries, &mini_fat) {
        return Err(error);
    }
    Ok(target.into_inner().into_bytes())
}

// The mini FAT's first sector; "end of chain" where it has none.
fn mini_fat_start<F: ReadMedium>(mini: &MiniAllocator<F>) -> u32
    ensures { result ≡ first_of (mini_fat_ids mini.now) }
{
    match mini.mini_fat_sectors().first() {
        Some(sector_id) => *sector_id,
        None => END_OF_CHAIN,
    }
}

// So for a file whose layers above lend it.
fn copy_lent<F: ReadMedium>(
    alloc: Global,
    mini: &mut MiniAllocator<F>,
    mini_fat_at: u32,
    root_len: u64,
    ids: &[u32],
    entries: &mut [DirEntry],
) -> Result<Vec<u8>, Error>
    ensures copied { IfOk result (λ bytes. (s : LiveFile) (who : Owners)
        → IsOriginal (allocator_of mini.old) s who ids.now → s.entries ≡ entries_in entries.old
        → mini_fat_at ≡ first_of (who.sectors mini_fat_owner)
        → root_len ≤ stream_len_mask s.version → HasCopy s who ids.now root_len bytes.items) }
    ensures refused_only_if { IfErr result (λ e. (s : LiveFile) (who : Owners)
        → IsOriginal (allocator_of mini.old) s who ids.now → s.entries ≡ entries_in entries.old
        → mini_fat_at ≡ first_of (who.sectors mini_fat_owner)
        → root_len ≤ stream_len_mask s.version → IsFaultOrInvalidInputIf ⊥ e) }
    ensures only_reads { OnlyReadsMini mini.old mini.new }
    ensures cause { IfErr result
        (IsJustifiedBySectors (allocator_of mini.old) (allocator_of mini.new)) }
    ensures errors { IfErr result IsCopyError }
{
    copy_file(
        alloc,
        mini.allocator_mut(),
        mini_fat_at,
        root_len,
        ids,
        entries,
    )
}

// The entries again.
fn entries_again(alloc: Global, entries: &[DirEntry]) -> Result<Vec<DirEntry>, AllocError>
    ensures { IfOk result (λ again. again.items ≡ entries.now) }
{
    entries.iter().copied().collect(alloc)
}

/// The bytes of a copy of a live file: a file of the same version that means the same tree, and has no sector that serves no use.
/// Root and entries of the tree are black in the copy, and the root's size is that of the mini stream's whole sectors, or the most
/// that a size of the version can be; so a strict reader takes it where the root has its name. Each chain of the file is copied
/// whole, so that it needs as much memory as the copy has bytes, besides a list of the entries. The file is only read. `Failed`
/// after an earlier fault, before all else; `InvalidData` and `Full` only where the file means no tree: a copy has no more sectors
/// than the file, so that numbers don't run out. The other errors are `Memory` and `Device` ([MS-CFB] 2).
pub fn copy_of<F: ReadMedium>(alloc: Global, mini: &mut MiniAllocator<F>) -> Result<Vec<u8>, Error>
    ensures copied { IfOk result (λ bytes. (letters : CaseTable) (tree : Tree)
        → LiveFileMeansTree letters mini.old tree
        → HoldsCopy (version_of (allocator_of mini.old)) letters bytes.items tree) }
    ensures strict { IfOk result (λ bytes. (letters : CaseTable) (tree : Tree)
        → LiveFileMeansTree letters mini.old tree
        → HasRootName (entries_held (directory_of mini.old))
        → IsStrictlyOpenable letters bytes.items) }
    ensures refused_only_if { IfErr result (λ e. (letters : CaseTable) (tree : Tree)
        → LiveFileMeansTree letters mini.old tree → IsFaultOrInvalidInputIf ⊥ e) }
    ensures when_failed { has_failed_here (allocator_of mini.old) ≡ true → IsErrOf result Failed }
    ensures only_reads { OnlyReadsMini mini.old mini.new }
    ensures cause { IfErr result
        (IsJustifiedBySectors (allocator_of mini.old) (allocator_of mini.new)) }
    ensures errors { IfErr result IsCopyError }
{
    if mini.directory().allocator().is_failed() {
        return Err(Error::Failed);
    }
    let ids = tree_entries(alloc, mini.directory())?;
    let mut entries = entries_again(alloc, mini.directory().dir_entries())?;
    let mini_fat_at = mini_fat_start(mini);
    let root_len = root_len(mini);
    match copy_lent(alloc, mini, mini_fat_at, root_len, &ids, &mut entries) {
        Ok(bytes) => Ok(bytes),
        Err(error) => Err(error),
    }
}
