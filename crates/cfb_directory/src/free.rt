//! Entries in no use, and a directory that takes in more of them ([MS-CFB] 2.6.3).
ghost use Rattle.cfb_chains.specs.ChainCalls.{IsInvalidOrFull};
ghost use Rattle.cfb_chains.specs.Owned.{ChangesAtMost};
ghost use Rattle.cfb_directory.specs.Changes.{HasDirectory, KeepsEntries, LiesBeside};
ghost use Rattle.cfb_directory.specs.Entries.{entries_in, ListsUnusedEntries, HasNoneUnused, IsOneOf};
ghost use Rattle.cfb_directory.specs.Growth.{count_words, longer, GrowsDirectory, HeaderCountsDirectory, LacksEntries, MayGrow};
ghost use Rattle.cfb_fat.specs.Calls.{FatErrorContract};
ghost use Rattle.cfb_fat.specs.Seeing.{seen_of};
ghost use Rattle.cfb_fat.specs.Tables.{bytes_of, has_failed_here, is_honest, orderly_of, version_of};
ghost use Rattle.cfb_medium.specs.declared.error.Error.TheVariants.{Full, InvalidData, Memory};
ghost use Rattle.cfb_chain_io.specs.ChainEffects.{KeepsFileInvariants};
ghost use Rattle.cfb_sectors.specs.Sectors.{sector};
ghost use Rattle.cfb_siblings.specs.Changes.{IsUnused};
ghost use Rattle.cfb_tree.specs.Directory.{greatest_entry};
ghost use Rattle.cfb_tree.specs.Entries.{empty_entry};
ghost use Rattle.std.specs.Prelude.{false, length, replicate, vec_capacity, vec_len, IfErr, IfNone, IfOk, IfSome, IsErrOf, IsTrue, OnErr, OnOk, ℕ, [], ◌+◌, ◌++◌, ◌<◌, ◌≡◌, ◌≤◌, ◌↔◌};

use crate::Directory;
use crate::directory::Entries;
use cfb_chain_io::{set_chain_len, write_word};
use cfb_fat::{Allocator, HeaderWord};
use cfb_medium::{Error, Medium, Version};
use cfb_sectors::{HasSectors, MAX_REGULAR_STREAM_ID, SectorInit};
use cfb_tree::{DirEntry, ObjType};
use std::alloc::Global;

// Whether there is an entry of this number in no use.
fn is_unused(entries: &[DirEntry], id: u32) -> bool
    ensures { IsTrue result ↔ IsUnused (entries_in entries.now) id }
{
    if id > MAX_REGULAR_STREAM_ID {
        return false;
    }
    match entries.get(id as usize) {
        Some(entry) => matches!(entry.obj_type(), Some(ObjType::Unallocated)),
        None => false,
    }
}

/// The numbers of the entries in no use, in falling order.
pub(crate) fn unused_among(alloc: Global, entries: &[DirEntry]) -> Result<Vec<u32>, Error>
    ensures noted { IfOk result (λ found. ListsUnusedEntries found.items (entries_in entries.now)) }
    ensures errors { IfErr result (λ e. e ≡ Memory) }
{
    let mut found = Vec::new(alloc);
    let count = entries.len().min(MAX_REGULAR_STREAM_ID as usize + 1) as u32;
    for id in (0..count).rev() {
        if is_unused(entries, id) {
            found.push(id)?;
        }
    }
    Ok(found)
}

// Appends so many entries in no use. There is memory for them.
fn append_empty(items: &mut Vec<DirEntry>, count: usize)
    requires { vec_len items.old + count ≤ vec_capacity items.old }
    ensures { entries_in items.new.items
        ≡ entries_in items.old.items ++ replicate count empty_entry }
{
    for _ in 0..count {
        items.push_reserved(DirEntry::unallocated());
    }
}

// Appends so many numbers from one on, in falling order. There is memory for them.
fn append_numbers(numbers: &mut Vec<u32>, first: u32, count: u32)
    requires room { vec_len numbers.old + count ≤ vec_capacity numbers.old }
    requires fits { first + count ≤ greatest_entry + 1 }
    ensures kept { (id : ℕ) → IsOneOf numbers.old.items id → IsOneOf numbers.new.items id }
    ensures noted { (id : ℕ) → first ≤ id → id < first + count
        → IsOneOf numbers.new.items id }
{
    for id in (first..first + count).rev() {
        numbers.push_reserved(id);
    }
}

impl Entries {
    // A number of an entry in no use, where one is known. Numbers of entries that have come into use are dropped, each once.
    fn find_unused(&mut self) -> Option<u32>
        ensures same { entries_in self.new.items.items ≡ entries_in self.old.items.items }
        ensures found { IfSome result (IsUnused (entries_in self.new.items.items)) }
        ensures none { IfNone result (HasNoneUnused (entries_in self.new.items.items)) }
    {
        'search: while let Some(&id) = self.unused.last() {
            if is_unused(&self.items, id) {
                return Some(id);
            }
            self.unused.pop();
        }
        None
    }

    // Notes the number of an entry that comes out of use.
    pub(crate) fn note(&mut self, id: u32) -> Result<(), Error>
        ensures same { entries_in self.new.items.items ≡ entries_in self.old.items.items }
        ensures noted { OnOk result (IsOneOf self.new.unused.items id) }
        ensures errors { IfErr result (λ e. e ≡ Memory) }
    {
        self.unused.push(id)?;
        Ok(())
    }

    // Makes room for so many entries more.
    fn reserve(&mut self, count: usize) -> Result<(), Error>
        ensures same { entries_in self.new.items.items ≡ entries_in self.old.items.items }
        ensures items { OnOk result (vec_len self.new.items + count
            ≤ vec_capacity self.new.items) }
        ensures unused { OnOk result (vec_len self.new.unused + count
            ≤ vec_capacity self.new.unused) }
        ensures errors { IfErr result (λ e. e ≡ Memory) }
    {
        self.items.reserve(count)?;
        self.unused.reserve(count)?;
        Ok(())
    }

    // Appends entries in no use. There is memory for them.
    fn append_unused(&mut self, count: u32)
        requires items { vec_len self.old.items + count ≤ vec_capacity self.old.items }
        requires unused { vec_len self.old.unused + count ≤ vec_capacity self.old.unused }
        requires fits { length (entries_in self.old.items.items) + count ≤ greatest_entry + 1 }
        ensures { entries_in self.new.items.items
            ≡ entries_in self.old.items.items ++ replicate count empty_entry }
    {
        append_numbers(&mut self.unused, self.items.len() as u32, count);
        append_empty(&mut self.items, count as usize);
    }
}

// In version 4 the header gets this number of the directory's sectors.
fn write_count<F: Medium>(allocator: &mut Allocator<F>, count: u32) -> Result<(), Error>
    requires { has_failed_here allocator.old ≡ false }
    ensures counted { OnOk result (IsTrue (is_honest allocator.old)
        → HeaderCountsDirectory (version_of allocator.old) (bytes_of allocator.new) count) }
    ensures leaves { OnOk result (IsTrue (is_honest allocator.old)
        → ChangesAtMost (sector (version_of allocator.old))
        (count_words (version_of allocator.old)) []
        (seen_of allocator.old) (seen_of allocator.new)) }
    ensures invariants { KeepsFileInvariants allocator.old allocator.new }
    ensures error_contract { FatErrorContract (λ _. ⊥) result allocator.old allocator.new }
{
    match allocator.version() {
        Version::V3 => Ok(()),
        Version::V4 => write_word(allocator, HeaderWord::DirectorySectors, count),
    }
}

impl<F: Medium> Directory<F> {
    ghost use Rattle.cfb_directory.specs.Views.{allocator_of, entries_held, DirectoryMatchesBytes};

    // Where none is in no use: takes in a sector of such entries, and gives the number of the first of them. `Full` where numbers of entries or of
    // sectors are missing, `InvalidData` where the tables can't be changed or haven't the directory's chain. After an error
    // nothing is changed, or it has failed.
    fn grow(&mut self) -> Result<u32, Error>
        requires { HasNoneUnused (entries_held self.old) }
        ensures first { IfOk result (IsUnused (entries_held self.new)) }
        ensures entries { OnOk result (entries_held self.new
            ≡ longer (version_of (allocator_of self.old)) (entries_held self.old)) }
        ensures fits { OnOk result (length (entries_held self.new) ≤ greatest_entry + 1) }
        ensures grown { OnOk result (HasDirectory self.old → GrowsDirectory self.old self.new) }
        ensures kept { OnErr result (has_failed_here (allocator_of self.new) ≡ false
            → KeepsEntries self.old self.new) }
        ensures memory { DirectoryMatchesBytes self.old → LiesBeside self.old
            → DirectoryMatchesBytes self.new }
        ensures refused_only_if { IsErrOf result InvalidData → HasDirectory self.old
            → IsTrue (orderly_of (allocator_of self.old)) → ⊥ }
        ensures full_only_if { IsErrOf result Full → has_failed_here (allocator_of self.new) ≡ false
            → LacksEntries self.old }
        ensures invariants { KeepsFileInvariants (allocator_of self.old) (allocator_of self.new) }
        ensures error_contract { FatErrorContract IsInvalidOrFull result (allocator_of self.old)
            (allocator_of self.new) }
    {
        if self.allocator.is_failed() {
            return Err(Error::Failed);
        }
        let first = self.entries.items.len();
        let count = self.allocator.version().dir_entries_per_sector();
        if first + count > MAX_REGULAR_STREAM_ID as usize + 1 {
            return Err(Error::Full);
        }
        if let Err(error) = self.entries.reserve(count) {
            return Err(error);
        }
        let sectors = self.links.sector_ids().len() as u64 + 1;
        let len = sectors * self.links.version().sector_len() as u64;
        if let Err(error) = set_chain_len(
            &mut self.allocator,
            &mut self.links,
            len,
            SectorInit::Dir,
        ) {
            return Err(error);
        }
        if let Err(error) = write_count(&mut self.allocator, self.links.sector_ids().len() as u32) {
            self.allocator.fail();
            return Err(error);
        }
        self.entries.append_unused(count as u32);
        Ok(first as u32)
    }

    // The number of an entry in no use; where none is known the directory takes in a sector of them.
    pub(crate) fn free_entry(&mut self) -> Result<u32, Error>
        ensures found { IfOk result (IsUnused (entries_held self.new)) }
        ensures entries { OnOk result (MayGrow (version_of (allocator_of self.old))
            (entries_held self.old) (entries_held self.new)) }
        ensures grown { OnOk result (HasDirectory self.old → GrowsDirectory self.old self.new) }
        ensures kept { OnErr result (has_failed_here (allocator_of self.new) ≡ false
            → KeepsEntries self.old self.new) }
        ensures memory { DirectoryMatchesBytes self.old → LiesBeside self.old
            → DirectoryMatchesBytes self.new }
        ensures refused_only_if { IsErrOf result InvalidData → HasDirectory self.old
            → IsTrue (orderly_of (allocator_of self.old)) → ⊥ }
        ensures full_only_if { IsErrOf result Full → has_failed_here (allocator_of self.new) ≡ false
            → LacksEntries self.old }
        ensures invariants { KeepsFileInvariants (allocator_of self.old) (allocator_of self.new) }
        ensures error_contract { FatErrorContract IsInvalidOrFull result (allocator_of self.old)
            (allocator_of self.new) }
    {
        if self.allocator.is_failed() {
            return Err(Error::Failed);
        }
        match self.entries.find_unused() {
            Some(id) => Ok(id),
            None => self.grow(),
        }
    }
}
