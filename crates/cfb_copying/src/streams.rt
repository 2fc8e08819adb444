//! Chains of a file that are copied one after the other: mini FAT, mini stream, and the long streams ([MS-CFB] 2.3, 2.4).
ghost use Rattle.cfb_chains.specs.LinkViews.{ids_of};
ghost use Rattle.cfb_copying.specs.Making.{with_list, IsFileInProgress};
ghost use Rattle.cfb_copying.specs.Steps.{CanPut, HasCopied, IsNewFileBegun, IsNext, IsOriginal, CopiesOneStep};
ghost use Rattle.cfb_directory.specs.Entries.{entries_in};
ghost use Rattle.cfb_fat.specs.Growing.{IsLean};
ghost use Rattle.cfb_fat.specs.Tables.{bytes_of, fat_of, has_failed_here, version_of};
ghost use Rattle.cfb_medium.specs.Calls.{IsFaultOrInvalidInputIf};
ghost use Rattle.cfb_medium.specs.declared.error.Error.TheVariants.{Full};
ghost use Rattle.cfb_chain_io.specs.ChainEffects.{AllocatorRunsOut};
ghost use Rattle.cfb_tree_edits.specs.LiveTreeRules.{IsFaultOrFull};
ghost use Rattle.cfb_ownership.specs.LiveFile.{LiveFile};
ghost use Rattle.cfb_ownership.specs.Owners.{first_of, mini_fat_owner, Owners};
ghost use Rattle.cfb_sectors.specs.Header.{mini_cutoff};
ghost use Rattle.cfb_sectors.specs.Sectors.{joined, Chain};
ghost use Rattle.cfb_tree.specs.Directory.{kind_stream};
ghost use Rattle.cfb_tree.specs.EntryViews.{entry_in};
ghost use Rattle.std.specs.Prelude.{false, length, IfErr, IfOk, IsErrOf, IsTrue, List, OnOk, [], ℕ, ◌+◌, ◌++◌, ◌∷◌, ◌≡◌, ◌≤◌, ◌↔◌};

use crate::chains::copy_chain;
use cfb_chains::Links;
use cfb_fat::Allocator;
use cfb_medium::{Error, Medium, ReadMedium};
use cfb_sectors::{END_OF_CHAIN, MINI_STREAM_CUTOFF};
use cfb_tree::{DirEntry, ObjType};
use std::alloc::Global;

// The first of a chain's sectors; "end of chain" where it has none.
pub(crate) fn start_of(links: &Links) -> u32
    ensures { result ≡ first_of (ids_of links.now) }
{
    match links.sector_ids().first() {
        Some(sector_id) => *sector_id,
        None => END_OF_CHAIN,
    }
}

// Copies the chain from a start to sectors that are in no use.
fn put_chain<F: ReadMedium, T: Medium>(
    alloc: Global,
    source: &mut Allocator<F>,
    start: u32,
    target: &mut Allocator<T>,
) -> Result<Links, Error>
    requires { has_failed_here target.old ≡ false }
    ensures put { IfOk result (λ links. (directory mini_fat key : ℕ) (own bytes : ℕ → List ℕ)
        (ids : List ℕ) → CanPut source.old start target.old directory mini_fat key own bytes ids
        → IsFileInProgress directory mini_fat target.new (with_list key (ids_of links) own)
        (with_list key (joined (version_of source.old) (bytes_of source.old) ids) bytes)) }
    ensures refused_only_if { IfErr result
        (λ e. (directory mini_fat key : ℕ) (own bytes : ℕ → List ℕ)
        (ids : List ℕ) → CanPut source.old start target.old directory mini_fat key own bytes ids
        → IsFaultOrFull e) }
    ensures stopped { IsErrOf result Full → (ids : List ℕ) → Chain (fat_of source.old) start ids
        → AllocatorRunsOut 0 (length ids) target.old }
    ensures lean { OnOk result ((ids : List ℕ) → Chain (fat_of source.old) start ids
        → (others : ℕ) → IsLean target.old others → IsLean target.new (others + length ids)) }
    ensures steps { CopiesOneStep result source.old source.new target.old target.new }
{
    let from = match source.open_chain(start) {
        Ok(links) => links,
        Err(error) => return Err(error),
    };
    let mut to = match Links::new(from.version(), Vec::new(alloc)) {
        Ok(links) => links,
        Err(error) => return Err(error),
    };
    if let Err(error) = copy_chain(source, &from, target, &mut to) {
        return Err(error);
    }
    Ok(to)
}

// Whether the entry is a stream.
fn is_stream(entry: &DirEntry) -> bool
    ensures { IsTrue result ↔ ((entry_in entry.now).kind ≡ kind_stream) }
{
    match entry.obj_type() {
        Some(kind) => kind.as_byte() == ObjType::Stream.as_byte(),
        None => false,
    }
}

// Whether it is one of at least 4096 bytes.
fn is_long(entry: &DirEntry) -> bool
    ensures { IsTrue result ↔ (((entry_in entry.now).kind ≡ kind_stream)
        × (mini_cutoff ≤ (entry_in entry.now).size)) }
{
    is_stream(entry) && u64::from(MINI_STREAM_CUTOFF) <= entry.stream_len
}

// Copies the stream of an entry, where it is a long one, and tells the entry where the copy begins.
fn copy_stream<F: ReadMedium, T: Medium>(
    alloc: Global,
    source: &mut Allocator<F>,
    entries: &mut [DirEntry],
    id: u32,
    target: &mut Allocator<T>,
) -> Result<(), Error>
    requires { has_failed_here target.old ≡ false }
    ensures copied { OnOk result ((s : LiveFile) (who : Owners) (ids done minis : List ℕ)
        → IsOriginal source.old s who ids → IsNext ids done id
        → HasCopied s who done minis (entries_in entries.old) target.old
        → HasCopied s who (done ++ id ∷ []) minis (entries_in entries.new) target.new) }
    ensures refused_only_if { IfErr result
        (λ e. (s : LiveFile) (who : Owners) (ids done minis : List ℕ)
        → IsOriginal source.old s who ids → IsNext ids done id
        → HasCopied s who done minis (entries_in entries.old) target.old
        → IsFaultOrInvalidInputIf ⊥ e) }
    ensures steps { CopiesOneStep result source.old source.new target.old target.new }
{
    if id as usize >= entries.len() {
        return Err(Error::InvalidData);
    }
    let mut entry = entries[id as usize];
    if !is_long(&entry) {
        return Ok(());
    }
    let links = match put_chain(alloc, source, entry.start_sector, target) {
        Ok(links) => links,
        Err(error) => return Err(error),
    };
    entry.start_sector = start_of(&links);
    entries[id as usize] = entry;
    Ok(())
}

// Copies the long streams among these entries.
pub(crate) fn copy_streams<F: ReadMedium, T: Medium>(
    alloc: Global,
    source: &mut Allocator<F>,
    ids: &[u32],
    entries: &mut [DirEntry],
    target: &mut Allocator<T>,
) -> Result<(), Error>
    requires { has_failed_here target.old ≡ false }
    ensures copied { OnOk result ((s : LiveFile) (who : Owners) (minis : List ℕ)
        → IsOriginal source.old s who ids.now
        → HasCopied s who [] minis (entries_in entries.old) target.old
        → HasCopied s who ids.now minis (entries_in entries.new) target.new) }
    ensures refused_only_if { IfErr result (λ e. (s : LiveFile) (who : Owners) (minis : List ℕ)
        → IsOriginal source.old s who ids.now
        → HasCopied s who [] minis (entries_in entries.old) target.old
        → IsFaultOrInvalidInputIf ⊥ e) }
    ensures steps { CopiesOneStep result source.old source.new target.old target.new }
{
    'copy: for id in ids {
        if let Err(error) = copy_stream(alloc, source, entries, *id, target) {
            return Err(error);
        }
    }
    Ok(())
}

// Copies mini FAT and mini stream to a new file, and tells the root where the copy of the mini stream begins.
pub(crate) fn copy_minis<F: ReadMedium, T: Medium>(
    alloc: Global,
    source: &mut Allocator<F>,
    mini_fat_at: u32,
    entries: &mut [DirEntry],
    target: &mut Allocator<T>,
) -> Result<Links, Error>
    requires { has_failed_here target.old ≡ false }
    ensures copied { IfOk result (λ links. (s : LiveFile) (who : Owners) (ids : List ℕ)
        → IsOriginal source.old s who ids → s.entries ≡ entries_in entries.old
        → mini_fat_at ≡ first_of (who.sectors mini_fat_owner) → IsNewFileBegun s.version target.old
        → HasCopied s who [] (ids_of links) (entries_in entries.new) target.new) }
    ensures refused_only_if { IfErr result (λ e. (s : LiveFile) (who : Owners) (ids : List ℕ)
        → IsOriginal source.old s who ids → s.entries ≡ entries_in entries.old
        → mini_fat_at ≡ first_of (who.sectors mini_fat_owner) → IsNewFileBegun s.version target.old
        → IsFaultOrInvalidInputIf ⊥ e) }
    ensures steps { CopiesOneStep result source.old source.new target.old target.new }
{
    if entries.is_empty() {
        return Err(Error::InvalidData);
    }
    let mini_fat = match put_chain(alloc, source, mini_fat_at, target) {
        Ok(links) => links,
        Err(error) => return Err(error),
    };
    let mut root = entries[0];
    let mini_stream = match put_chain(alloc, source, root.start_sector, target) {
        Ok(links) => links,
        Err(error) => return Err(error),
    };
    root.start_sector = start_of(&mini_stream);
    entries[0] = root;
    Ok(mini_fat)
}
