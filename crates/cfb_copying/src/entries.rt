//! The directory of a copy, and what its header says ([MS-CFB] 2.2, 2.6).
ghost use Rattle.cfb_chains.specs.LinkViews.{ids_of};
ghost use Rattle.cfb_copying.specs.Chains.{IsCopyError};
ghost use Rattle.cfb_copying.specs.Copied.{Repairs};
ghost use Rattle.cfb_copying.specs.Making.{IsFileInProgress};
ghost use Rattle.cfb_copying.specs.Steps.{sectors_among, CanHold, FillSectors, HasCopied, HasCopy, HasEntries};
ghost use Rattle.cfb_directory.specs.Entries.{entries_in, SizesFit};
ghost use Rattle.cfb_fat.specs.Tables.{bytes_of, has_failed_here, is_honest, version_of, IsJustifiedBySectors, HasEnds, HeaderCountsTables};
ghost use Rattle.cfb_tree_edits.specs.LiveTreeRules.{IsFaultOrFull};
ghost use Rattle.cfb_spec.specs.Means.{directory_count};
ghost use Rattle.cfb_medium.specs.Calls.{IsFaultOrInvalidInputIf};
ghost use Rattle.cfb_medium.specs.Versions.{stream_len_mask};
ghost use Rattle.cfb_medium.specs.declared.error.Error.TheVariants.{Full, InvalidData, Memory};
ghost use Rattle.cfb_chain_io.specs.ChainEffects.{KeepsFileInvariants, AllocatorRunsOut};
ghost use Rattle.cfb_ownership.specs.LiveFile.{LiveFile};
ghost use Rattle.cfb_ownership.specs.Owners.{directory_owner, first_of, Owners};
ghost use Rattle.cfb_sectors.specs.Header.{directory_sector_count, mini_fat_sector_count};
ghost use Rattle.cfb_tree.specs.Directory.{entries_of, Entry};
ghost use Rattle.std.specs.Prelude.{false, length, IfErr, IfOk, IsErrOf, IsTrue, List, OnOk, [], ℕ, ◌*◌, ◌+◌, ◌∷◌, ◌≡◌, ◌≤◌, ◌⊎◌};

use crate::streams::start_of;
use cfb_chain_io::{overwrite_chain, set_chain_len, write_word};
use cfb_chains::Links;
use cfb_fat::{Allocator, HeaderWord};
use cfb_medium::{Error, Medium, Version};
use cfb_sectors::SectorInit;
use cfb_tree::DirEntry;
use std::alloc::Global;

// The sector of a new file with which its directory begins.
const DIRECTORY_AT: u32 = 1;

// The bytes of a directory of these entries. `InvalidData` where one's size doesn't fit into its bytes.
fn directory_bytes(alloc: Global, version: Version, entries: &[DirEntry]) -> Result<Vec<u8>, Error>
    ensures held { IfOk result (λ bytes. entries_of version bytes.items ≡ entries_in entries.now) }
    ensures size { IfOk result (λ bytes. length bytes.items ≡ length entries.now * 128) }
    ensures refused_only_if { IfErr result (λ e. SizesFit version (entries_in entries.now)
        → e ≡ Memory) }
    ensures errors { IfErr result (λ e. (e ≡ Memory) ⊎ (e ≡ InvalidData)) }
{
    let mut bytes = Vec::new(alloc);
    'write: for entry in entries {
        if entry.stream_len > version.stream_len_mask() {
            return Err(Error::InvalidData);
        }
        entry.fits(version);
        entry.write_to(&mut bytes)?;
    }
    Ok(bytes)
}

// Writes the directory of a file in the making, of which it has one sector.
fn put_directory<T: Medium>(
    alloc: Global,
    target: &mut Allocator<T>,
    entries: &[DirEntry],
) -> Result<Links, Error>
    requires { has_failed_here target.old ≡ false }
    ensures put { IfOk result (λ links. (mini_fat : ℕ) (own bytes : ℕ → List ℕ)
        → IsFileInProgress 1 mini_fat target.old own bytes → own directory_owner ≡ 1 ∷ []
        → FillSectors (version_of target.old) (entries_in entries.now)
        → HasEntries (version_of target.old) mini_fat own bytes (entries_in entries.now)
        (ids_of links) target.new) }
    ensures refused_only_if { IfErr result (λ e. (mini_fat : ℕ) (own bytes : ℕ → List ℕ)
        → IsFileInProgress 1 mini_fat target.old own bytes → own directory_owner ≡ 1 ∷ []
        → FillSectors (version_of target.old) (entries_in entries.now) → IsFaultOrFull e) }
    ensures stopped { IsErrOf result Full → (mini_fat : ℕ) (own bytes : ℕ → List ℕ)
        → IsFileInProgress 1 mini_fat target.old own bytes → own directory_owner ≡ 1 ∷ []
        → (fills : FillSectors (version_of target.old) (entries_in entries.now))
        → AllocatorRunsOut 1 fills.count target.old }
    ensures invariants { KeepsFileInvariants target.old target.new }
    ensures not_failed { OnOk result (has_failed_here target.new ≡ false) }
    ensures cause { IfErr result (IsJustifiedBySectors target.old target.new) }
    ensures errors { IfErr result IsCopyError }
{
    let bytes = match directory_bytes(alloc, target.version(), entries) {
        Ok(bytes) => bytes,
        Err(error) => return Err(error),
    };
    let mut links = match target.open_chain(DIRECTORY_AT) {
        Ok(links) => links,
        Err(error) => return Err(error),
    };
    if let Err(error) = set_chain_len(target, &mut links, bytes.len() as u64, SectorInit::Zero) {
        return Err(error);
    }
    if let Err(error) = overwrite_chain(target, &links, 0, &bytes) {
        return Err(error);
    }
    Ok(links)
}

// How many sectors a chain has.
fn count_of(links: &Links) -> u32
    ensures { result ≡ length (ids_of links.now) }
{
    links.sector_ids().len() as u32
}

// What the header tells of how many sectors a directory has: nothing in version 3.
fn count_told(version: Version, links: &Links) -> u32
    ensures { result ≡ directory_count version (length (ids_of links.now)) }
{
    match version {
        Version::V3 => 0,
        Version::V4 => count_of(links),
    }
}

// Tells the header how many sectors the directory has.
fn tell_directory<T: Medium>(target: &mut Allocator<T>, links: &Links) -> Result<(), Error>
    requires { has_failed_here target.old ≡ false }
    ensures answer { OnOk result ((directory mini_fat : ℕ) (own bytes : ℕ → List ℕ)
        → IsFileInProgress directory mini_fat target.old own bytes
        → IsFileInProgress directory mini_fat target.new own bytes) }
    ensures counted { OnOk result (IsTrue (is_honest target.old)
        → directory_sector_count (bytes_of target.new)
        ≡ directory_count (version_of target.old) (length (ids_of links.now))) }
    ensures invariants { KeepsFileInvariants target.old target.new }
    ensures not_failed { OnOk result (has_failed_here target.new ≡ false) }
    ensures cause { IfErr result (IsJustifiedBySectors target.old target.new) }
    ensures errors { IfErr result (IsFaultOrInvalidInputIf ⊥) }
{
    let count = count_told(target.version(), links);
    if let Err(error) = write_word(target, HeaderWord::DirectorySectors, count) {
        return Err(error);
    }
    Ok(())
}

// Tells the header where the mini FAT begins, and how many sectors it has.
fn tell_mini_fat<T: Medium>(target: &mut Allocator<T>, links: &Links) -> Result<(), Error>
    requires { has_failed_here target.old ≡ false }
    ensures answer { OnOk result ((directory mini_fat : ℕ) (own bytes : ℕ → List ℕ)
        → IsFileInProgress directory mini_fat target.old own bytes
        → IsFileInProgress directory (first_of (ids_of links.now)) target.new own bytes) }
    ensures counted { OnOk result (IsTrue (is_honest target.old)
        → (mini_fat_sector_count (bytes_of target.new) ≡ length (ids_of links.now))
        × (directory_sector_count (bytes_of target.new)
        ≡ directory_sector_count (bytes_of target.old))) }
    ensures invariants { KeepsFileInvariants target.old target.new }
    ensures not_failed { OnOk result (has_failed_here target.new ≡ false) }
    ensures cause { IfErr result (IsJustifiedBySectors target.old target.new) }
    ensures errors { IfErr result (IsFaultOrInvalidInputIf ⊥) }
{
    if let Err(error) = write_word(target, HeaderWord::MiniFatSectors, count_of(links)) {
        return Err(error);
    }
    if let Err(error) = write_word(target, HeaderWord::FirstMiniFatSector, start_of(links)) {
        return Err(error);
    }
    Ok(())
}

// Ends a copy: its directory with these entries, which were repaired, and the header's numbers.
pub(crate) fn end_copy<T: Medium>(
    alloc: Global,
    target: &mut Allocator<T>,
    entries: &[DirEntry],
    mini_fat: &Links,
) -> Result<(), Error>
    requires { has_failed_here target.old ≡ false }
    ensures ended { OnOk result ((s : LiveFile) (who : Owners) (ids : List ℕ)
        (later : List Entry) (size : ℕ) → FillSectors s.version s.entries
        → HasCopied s who ids (ids_of mini_fat.now) later target.old
        → Repairs size later (entries_in entries.now) → size ≤ stream_len_mask s.version
        → HeaderCountsTables target.old → HasEnds target.old
        → HasCopy s who ids size (bytes_of target.new)) }
    ensures refused_only_if { IfErr result (λ e. (s : LiveFile) (who : Owners) (ids : List ℕ)
        (later : List Entry) (size : ℕ) → (fills : FillSectors s.version s.entries)
        → CanHold s.version (fills.count + length (sectors_among who ids))
        → HasCopied s who ids (ids_of mini_fat.now) later target.old
        → Repairs size later (entries_in entries.now) → size ≤ stream_len_mask s.version
        → IsFaultOrInvalidInputIf ⊥ e) }
    ensures cause { IfErr result (IsJustifiedBySectors target.old target.new) }
    ensures errors { IfErr result IsCopyError }
{
    let directory = match put_directory(alloc, target, entries) {
        Ok(links) => links,
        Err(error) => return Err(error),
    };
    if let Err(error) = tell_directory(target, &directory) {
        return Err(error);
    }
    if let Err(error) = tell_mini_fat(target, mini_fat) {
        return Err(error);
    }
    Ok(())
}
