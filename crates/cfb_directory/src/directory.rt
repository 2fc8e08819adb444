//! The directory in memory, over the sectors that hold it.
ghost use Rattle.cfb_directory.specs.Entries.{entries_in, ListsUnusedEntries, IsNoted, SizesFit};
ghost use Rattle.cfb_directory.specs.Taken.{HasAny, IsTakenAs};
ghost use Rattle.cfb_fat.specs.Tables.{bytes_of, fat_of, has_failed as allocator_failed, has_failed_here, is_honest, medium_of, sectors_of, version_of, OnlyReadsAllocator, IsJustifiedBySectors};
ghost use Rattle.cfb_medium.specs.Calls.{Reaches, IsJustifiedSince, IsCutOff, IsFaultOrInvalidInputIf};
ghost use Rattle.cfb_medium.specs.Versions.{sector_len};
ghost use Rattle.cfb_medium.specs.declared.error.Error.TheVariants.{Failed, InvalidData};
ghost use Rattle.cfb_sectors.specs.Sectors.{joined, Chain as IsChain};
ghost use Rattle.cfb_siblings.specs.Places.{path_of, IsEntryAt};
ghost use Rattle.cfb_siblings.specs.Reading.{ReadBy};
ghost use Rattle.cfb_tree.specs.Directory.{entries_of};
ghost use Rattle.cfb_tree.specs.EntryViews.{entry_in};
ghost use Rattle.cfb_tree.specs.CaseTableViews.{case_table_of};
ghost use Rattle.cfb_tree.specs.Objects.{object_at, EntriesHoldTree};
ghost use Rattle.cfb_tree.specs.Tree.{Tree};
ghost use Rattle.cfb_tree.specs.Entries.{HasSize};
ghost use Rattle.cfb_sectors.specs.Held.{CrashLeavesOldOrBytes};
ghost use Rattle.std.specs.Prelude.{Bool, false, length, slice_get, slice_set, true, IfErr, IfOk, IsErrOf, IsTrue, List, MatchOption, None, OnErr, OnOk, Some, ℕ, ◌<◌, ◌||◌, ◌≡◌, ◌≤◌, ◌↔◌, ◌⊎◌};

use crate::reading::read_directory;
use cfb_chains::Links;
use cfb_fat::Allocator;
use cfb_medium::{Error, Medium, ReadMedium, Version};
use cfb_sectors::Validation;
use cfb_siblings::find_entry;
use cfb_tree::{CaseMapper, DirEntry};
use std::alloc::Global;

// The entries by number, of which the first is the root; and numbers of some, among which are those of all in no use.
#[derive(Drop)]
pub(crate) struct Entries {
    pub(crate) items: Vec<DirEntry>,
    pub(crate) unused: Vec<u32>,
    ghost some: { 0 < length items.items },
    ghost noted: { ListsUnusedEntries unused.items (entries_in items.items) },
}

impl Entries {
    // Puts an entry in the place of the one of this number.
    pub(crate) fn set(&mut self, id: usize, entry: DirEntry)
        requires there { id < length self.old.items.items }
        requires noted { IsNoted self.old.unused.items id (entry_in entry) }
        ensures after { entries_in self.new.items.items
            ≡ slice_set (entries_in self.old.items.items) id (entry_in entry) }
        ensures noted { self.new.unused.items ≡ self.old.unused.items }
    {
        self.items[id] = entry;
    }
}

/// The directory of a compound file ([MS-CFB] 2.6): its entries in memory, over the sectors that hold them.
#[derive(Drop)]
pub struct Directory<F: ReadMedium> {
    pub(crate) allocator: Allocator<F>,
    pub(crate) links: Links,
    pub(crate) entries: Entries,
}

impl<F: ReadMedium> Directory<F> {
    ghost use Rattle.cfb_directory.specs.Views.{allocator_of, directory_ids, entries_held, DirectoryMatchesBytes, OnlyReadsDirectory};

    /// Reads the directory from the chain of its first sector. `InvalidData` where there is no such chain, or a reader doesn't
    /// take its entries as a tree: entry 0 is no root, an entry below it is no stream or storage or has no name, one stands
    /// twice, siblings don't rise strictly under the case table; a strict reader also asks for the root's name and for
    /// colours. A refusal gives the medium back.
    pub fn new(
        alloc: Global,
        mut allocator: Allocator<F>,
        letters: &CaseMapper,
        validation: Validation,
        first_sector: u32,
    ) -> Result<Directory<F>, (F, Error)>
        ensures only_reads { IfOk result (λ it. OnlyReadsAllocator allocator (allocator_of it)) }
        ensures chain { IfOk result (λ it. IsChain (fat_of allocator) first_sector
            (directory_ids it)) }
        ensures memory { IfOk result (λ it. DirectoryMatchesBytes it) }
        ensures tree { IfOk result (λ it. (tree : Tree)
            × IsTakenAs validation (case_table_of letters.now) HasSize (entries_held it) tree) }
        ensures sizes { IfOk result (λ it. SizesFit (version_of allocator) (entries_held it)) }
        ensures refused_only_if { IfErr result
            (λ e. e.1 ≡ InvalidData → IsTrue (is_honest allocator)
            → (ids : List ℕ) → IsChain (fat_of allocator) first_sector ids
            → (tree : Tree) → IsTakenAs validation (case_table_of letters.now) HasAny
            (entries_of (version_of allocator) (joined (version_of allocator)
            (bytes_of allocator) ids)) tree → ⊥) }
        ensures errors { IfErr result (λ e. IsFaultOrInvalidInputIf ⊥ e.1 ⊎ (e.1 ≡ InvalidData)) }
        ensures cause { IfErr result (λ e. IsJustifiedSince F.continues F.failures
            (λ m. has_failed_here allocator || F.failed m) (medium_of allocator) e.0 e.1) }
        ensures honest { IfErr result (λ e. F.honest e.0 ≡ F.honest (medium_of allocator)) }
        ensures continues { IfErr result (λ e. Reaches F.continues (medium_of allocator) e.0) }
        ensures bytes { IfErr result (λ e. IsTrue (is_honest allocator)
            → F.bytes e.0 ≡ bytes_of allocator) }
    {
        match read_directory(alloc, &mut allocator, letters, validation, first_sector) {
            Ok((links, entries)) => Ok(Directory {
                allocator,
                links,
                entries,
            }),
            Err(error) => Err((allocator.into_inner(), error)),
        }
    }

    /// The version.
    pub fn version(&self) -> Version
        ensures { result ≡ version_of (allocator_of self.now) }
    {
        self.allocator.version()
    }

    /// A sector's bytes.
    pub fn sector_len(&self) -> usize
        ensures { result ≡ sector_len (version_of (allocator_of self.now)) }
    {
        self.allocator.sector_len()
    }

    /// The medium.
    pub fn inner(&self) -> &F
        ensures { result.now ≡ medium_of (allocator_of self.now) }
    {
        self.allocator.inner()
    }

    /// The layer below, which takes sectors into use and frees them.
    pub fn allocator(&self) -> &Allocator<F>
        ensures { result.now ≡ allocator_of self.now }
    {
        &self.allocator
    }

    /// The sectors that hold the directory, in the order of their chain.
    pub fn sectors(&self) -> &[u32]
        ensures { result.now ≡ directory_ids self.now }
    {
        self.links.sector_ids()
    }

    /// The medium, without the directory.
    pub fn into_inner(self) -> F
        ensures { result ≡ medium_of (allocator_of self) }
    {
        let Directory {
            allocator,
            links: _,
            entries: _,
        } = self;
        allocator.into_inner()
    }

    /// The root's entry.
    pub fn root_dir_entry(&self) -> &DirEntry
        ensures { slice_get (entries_held self.now) 0 ≡ Some (entry_in result.now) }
    {
        &self.entries.items[0]
    }

    /// Whether the directory has an entry of this number.
    pub fn has_dir_entry(&self, id: u32) -> bool
        ensures { IsTrue result ↔ (id < length (entries_held self.now)) }
    {
        (id as usize) < self.entries.items.len()
    }

    /// An entry of the directory, by its number.
    pub fn dir_entry(&self, id: u32) -> &DirEntry
        requires { id < length (entries_held self.now) }
        ensures { slice_get (entries_held self.now) id ≡ Some (entry_in result.now) }
    {
        &self.entries.items[id as usize]
    }
}

impl<F: ReadMedium> Directory<F> {
    ghost use Rattle.cfb_directory.specs.Views.{entries_held};

    /// The number of the entry to which these names lead from the root, whose own is 0; none where the tree has no object
    /// there. It goes down the trees of siblings, and takes no memory ([MS-CFB] 2.6.4).
    pub fn stream_id_for_name_chain(&self, letters: &CaseMapper, names: &[&str]) -> Option<u32>
        ensures found { (reads : ℕ → ℕ → List ℕ → Bool) (tree : Tree)
            → EntriesHoldTree (case_table_of letters.now) (ReadBy reads)
            (entries_held self.now) tree
            → MatchOption result
            (object_at (case_table_of letters.now) tree (path_of names.now) ≡ None)
            (λ id. IsEntryAt (ReadBy reads) (case_table_of letters.now) (entries_held self.now) tree
            (path_of names.now) id) }
    {
        find_entry(letters, &self.entries.items, names)
    }

    /// The entries, by number.
    pub fn dir_entries(&self) -> &[DirEntry]
        ensures { entries_in result.now ≡ entries_held self.now }
    {
        self.entries.items.as_slice()
    }
}

impl<F: Medium> Directory<F> {
    ghost use Rattle.cfb_directory.specs.Views.{allocator_of, DirectoryKeepsMemory, OnlyReadsDirectory};

    /// Whether a fault in a write or a commit has left it, or the medium, in a state in which every call is refused.
    pub fn has_failed(&self) -> bool
        ensures { result ≡ allocator_failed (allocator_of self.now) }
    {
        self.allocator.has_failed()
    }

    /// Passes on what the medium keeps back, and publishes nothing.
    pub fn flush(&mut self) -> Result<(), Error>
        ensures only_reads { OnlyReadsDirectory self.old self.new }
        ensures when_failed { has_failed_here (allocator_of self.old) ≡ true
            → IsErrOf result Failed }
        ensures cause { IfErr result (IsJustifiedBySectors (allocator_of self.old)
            (allocator_of self.new)) }
        ensures errors { IfErr result (IsFaultOrInvalidInputIf ⊥) }
    {
        self.allocator.flush()
    }

    /// Publishes the bytes, by a commit of the medium. After a fault it has failed.
    pub fn commit(&mut self) -> Result<(), Error>
        ensures published { IsTrue (is_honest (allocator_of self.old))
            → OnOk result (F.has_published (medium_of (allocator_of self.new))
            (bytes_of (allocator_of self.old))) }
        ensures crash { IsTrue (is_honest (allocator_of self.old))
            → CrashLeavesOldOrBytes (sectors_of (allocator_of self.old))
            (sectors_of (allocator_of self.new)) }
        ensures memory { DirectoryKeepsMemory self.old self.new }
        ensures bytes { has_failed_here (allocator_of self.new) ≡ false
            → IsTrue (is_honest (allocator_of self.old))
            → bytes_of (allocator_of self.new) ≡ bytes_of (allocator_of self.old) }
        ensures not_failed { OnOk result (has_failed_here (allocator_of self.new) ≡ false) }
        ensures after_error { OnErr result (has_failed_here (allocator_of self.new) ≡ true) }
        ensures when_failed { has_failed_here (allocator_of self.old) ≡ true
            → IsErrOf result Failed × OnlyReadsDirectory self.old self.new }
        ensures cause { IfErr result (IsJustifiedBySectors (allocator_of self.old)
            (allocator_of self.new)) }
        ensures medium { (F.failures (medium_of (allocator_of self.old))
            ≤ F.failures (medium_of (allocator_of self.new)))
            × OnOk result (F.failed (medium_of (allocator_of self.new))
            ≡ F.failed (medium_of (allocator_of self.old))) }
        ensures cut { IfErr result (IsCutOff F.failed F.continues
            (medium_of (allocator_of self.old)) (medium_of (allocator_of self.new))) }
        ensures errors { IfErr result (IsFaultOrInvalidInputIf ⊥) }
    {
        self.allocator.commit()
    }
}
