//! Entries that come and go: children of storages by name ([MS-CFB] 2.6.4).
ghost use Rattle.cfb_chains.specs.ChainCalls.{IsInvalid, IsInvalidOrFull};
ghost use Rattle.cfb_directory.specs.Changes.{HasDirectory, KeepsEntries, LiesBeside, SetsEntry};
ghost use Rattle.cfb_directory.specs.Children.{AddsAt, AddsChild, HasHolders, HasNoStorage, HoldsChild, HoldsStorage, IsNameFree, IsNameTaken, IsInsertEntryError, IsRemoveEntryError, LinksNew, Removes, RemovesAt, RemovesChild};
ghost use Rattle.cfb_directory.specs.Entries.{IsOneOf, SizesFit};
ghost use Rattle.cfb_directory.specs.Growth.{GrowsDirectory, CanGrowDirectory, LacksEntries};
ghost use Rattle.cfb_directory.specs.Turning.{WritesDirEntries};
ghost use Rattle.cfb_directory.specs.Views.{allocator_of, entries_held, numbers_noted, DirectoryMatchesBytes, OnlyReadsDirectory};
ghost use Rattle.cfb_fat.specs.Calls.{FatErrorContract};
ghost use Rattle.cfb_fat.specs.Tables.{has_failed_here, version_of};
ghost use Rattle.cfb_medium.specs.Times.{units_of};
ghost use Rattle.cfb_medium.specs.declared.error.Error.TheVariants.{AlreadyExists, Full, InvalidData, InvalidInput, NotFound};
ghost use Rattle.cfb_chain_io.specs.ChainEffects.{KeepsFileInvariants};
ghost use Rattle.cfb_siblings.specs.Links.{holder, joined_by, linked_to, taken_out};
ghost use Rattle.cfb_siblings.specs.Places.{path_to, HasEntry};
ghost use Rattle.cfb_tree.specs.Directory.{Entry};
ghost use Rattle.cfb_tree.specs.EntryViews.{entry_in, kind_of};
ghost use Rattle.cfb_tree.specs.Entries.{empty_entry, new_entry};
ghost use Rattle.cfb_tree.specs.CaseTableViews.{case_table_of};
ghost use Rattle.cfb_tree.specs.Names.{is_name, CaseTable};
ghost use Rattle.cfb_tree.specs.Paths.{Path};
ghost use Rattle.cfb_tree.specs.Tree.{Tree};
ghost use Rattle.std.specs.Prelude.{chars, false, length, slice_get, slice_set, true, Bool, IfOk, IfSome, IsErrOf, IsTrue, List, OnErr, OnOk, Some, ℕ, ◌<◌, ◌≡◌, ◌⊎◌};

use crate::Directory;
use cfb_medium::{Error, Medium, Timestamp};
use cfb_sectors::HasSectors;
use cfb_siblings::{Link, NewLink, Place, Removal, find_place, plan_removal, relink};
use cfb_tree::{CaseMapper, DirEntry, ObjType, validate_name};

impl<F: Medium> Directory<F> {
    // Makes a link lead to an entry, in the file and in memory; the entry that has the link becomes black. `InvalidData` where
    // there is no such entry, or its place isn't in the file.
    pub(crate) fn write_link(&mut self, link: Link, target: u32) -> Result<(), Error>
        ensures set { OnOk result ((e : Entry)
            × (slice_get (entries_held self.old) (holder link) ≡ Some e)
            × SetsEntry (holder link) (linked_to link target e) self.old self.new) }
        ensures kept { OnErr result (KeepsEntries self.old self.new) }
        ensures memory { DirectoryMatchesBytes self.old → LiesBeside self.old
            → DirectoryMatchesBytes self.new }
        ensures refused_only_if { IsErrOf result InvalidData → HasDirectory self.old
            → HasEntry (entries_held self.old) (holder link)
            → SizesFit (version_of (allocator_of self.old)) (entries_held self.old) → ⊥ }
        ensures noted { numbers_noted self.new ≡ numbers_noted self.old }
        ensures invariants { KeepsFileInvariants (allocator_of self.old) (allocator_of self.new) }
        ensures error_contract { FatErrorContract IsInvalid result (allocator_of self.old)
            (allocator_of self.new) }
    {
        if self.allocator.is_failed() {
            return Err(Error::Failed);
        }
        let id = link.holder();
        let Some(entry) = self.entries.items.get(id as usize) else {
            return Err(Error::InvalidData);
        };
        let mut entry = *entry;
        relink(&mut entry, link, target);
        if entry.stream_len > self.allocator.version().stream_len_mask() {
            return Err(Error::InvalidData);
        }
        self.write_entry(id, entry)
    }

    // Writes an entry at a number in no use, and then the link that leads to it. After an error nothing is changed, or it has
    // failed.
    fn add_child(&mut self, link: Link, entry: DirEntry) -> Result<u32, Error>
        requires { entry.stream_len ≡ 0 }
        ensures added { IfOk result (LinksNew (version_of (allocator_of self.old)) link
            (entry_in entry) (entries_held self.old) (entries_held self.new)) }
        ensures grown { OnOk result (HasDirectory self.old → GrowsDirectory self.old self.new) }
        ensures kept { OnErr result (has_failed_here (allocator_of self.new) ≡ false
            → KeepsEntries self.old self.new) }
        ensures memory { DirectoryMatchesBytes self.old → LiesBeside self.old
            → DirectoryMatchesBytes self.new }
        ensures refused_only_if { IsErrOf result InvalidData → CanGrowDirectory self.old
            → HasEntry (entries_held self.old) (holder link) → ⊥ }
        ensures full_only_if { IsErrOf result Full → has_failed_here (allocator_of self.new) ≡ false
            → LacksEntries self.old }
        ensures invariants { KeepsFileInvariants (allocator_of self.old) (allocator_of self.new) }
        ensures error_contract { FatErrorContract IsInvalidOrFull result (allocator_of self.old)
            (allocator_of self.new) }
    {
        let id = match self.free_entry() {
            Ok(id) => id,
            Err(error) => return Err(error),
        };
        if let Err(error) = self.write_entry(id, entry) {
            self.allocator.fail();
            return Err(error);
        }
        if let Err(error) = self.write_link(link, id) {
            self.allocator.fail();
            return Err(error);
        }
        Ok(id)
    }

    /// Gives the storage `parent` a child of this name and kind, and tells the number of its entry: the entry is written first,
    /// and then the link that leads to it; then it rises among its siblings. A stream is empty; a storage has the moment as both
    /// times. Refused are in this order: a name that a child has (`AlreadyExists`), and one that is invalid (`InvalidInput`).
    /// `Full` where no entry is in no use and numbers of entries or sectors are missing, `InvalidData` where the entries hold no
    /// tree with such a storage, or the file hasn't the directory's sectors beside its tables. After an error nothing is changed,
    /// or it has failed ([MS-CFB] 2.6.4).
    pub fn insert_dir_entry(
        &mut self,
        letters: &CaseMapper,
        parent: u32,
        name: &str,
        obj_type: ObjType,
        moment: Timestamp,
    ) -> Result<u32, Error>
        ensures added { IfOk result (AddsChild (case_table_of letters.now) (entries_held self.old)
            (entries_held self.new) parent (chars name.now)
            (new_entry (chars name.now) (kind_of obj_type) (units_of moment))) }
        ensures entry { IfOk result (AddsAt (entries_held self.old) (entries_held self.new)
            (new_entry (chars name.now) (kind_of obj_type) (units_of moment))) }
        ensures taken { IsErrOf result AlreadyExists
            → IsNameTaken (case_table_of letters.now) (entries_held self.old) parent
            (chars name.now) }
        ensures named { IsErrOf result InvalidInput → (IsTrue (is_name (chars name.now)) → ⊥)
            × IsNameFree (case_table_of letters.now) (entries_held self.old) parent
            (chars name.now) }
        ensures only_reads { IsErrOf result AlreadyExists ⊎ IsErrOf result InvalidInput
            → OnlyReadsDirectory self.old self.new }
        ensures refused_only_if { IsErrOf result InvalidData
            → HasNoStorage (case_table_of letters.now) self.old parent }
        ensures full_only_if { IsErrOf result Full → has_failed_here (allocator_of self.new) ≡ false
            → LacksEntries self.old }
        ensures grown { OnOk result (HasDirectory self.old → GrowsDirectory self.old self.new) }
        ensures kept { OnErr result (has_failed_here (allocator_of self.new) ≡ false
            → KeepsEntries self.old self.new) }
        ensures memory { DirectoryMatchesBytes self.old → LiesBeside self.old
            → DirectoryMatchesBytes self.new }
        ensures invariants { KeepsFileInvariants (allocator_of self.old) (allocator_of self.new) }
        ensures error_contract { FatErrorContract IsInsertEntryError result (allocator_of self.old)
            (allocator_of self.new) }
    {
        if self.allocator.is_failed() {
            return Err(Error::Failed);
        }
        let link = match find_place(letters, &self.entries.items, parent, name) {
            Some(Place::Free { link }) => link,
            Some(Place::Taken { link: _, id: _ }) => return Err(Error::AlreadyExists),
            None => return Err(Error::InvalidData),
        };
        if let Err(error) = validate_name(name) {
            return Err(error);
        }
        let id = match self.add_child(link, DirEntry::new(name, obj_type, moment)) {
            Ok(id) => id,
            Err(error) => return Err(error),
        };
        if let Err(error) = self.rise(letters, parent, name, link, id) {
            return Err(error);
        }
        Ok(id)
    }

    // Sets a link where one is to be set.
    fn write_joined(&mut self, joined: Option<NewLink>) -> Result<(), Error>
        requires { has_failed_here (allocator_of self.old) ≡ false }
        ensures set { OnOk result (entries_held self.new
            ≡ joined_by joined (entries_held self.old)) }
        ensures written { OnOk result (WritesDirEntries self.old self.new) }
        ensures refused_only_if { IsErrOf result InvalidData → CanGrowDirectory self.old
            → IfSome joined (λ it. HasEntry (entries_held self.old) (holder it.link)) → ⊥ }
        ensures noted { numbers_noted self.new ≡ numbers_noted self.old }
        ensures invariants { KeepsFileInvariants (allocator_of self.old) (allocator_of self.new) }
        ensures error_contract { FatErrorContract IsInvalid result (allocator_of self.old)
            (allocator_of self.new) }
    {
        match joined {
            Some(it) => self.write_link(it.link, it.target),
            None => Ok(()),
        }
    }

    // Sets the links that take an entry out of its siblings, and puts one in no use in its place. After an error it has failed.
    fn take_out(&mut self, removal: Removal, id: u32) -> Result<(), Error>
        requires live { has_failed_here (allocator_of self.old) ≡ false }
        requires there { id < length (entries_held self.old) }
        requires noted { IsOneOf (numbers_noted self.old) id }
        ensures taken { OnOk result (entries_held self.new
            ≡ slice_set (taken_out removal (entries_held self.old)) id empty_entry) }
        ensures written { OnOk result (WritesDirEntries self.old self.new) }
        ensures refused_only_if { IsErrOf result InvalidData → CanGrowDirectory self.old
            → HasHolders (entries_held self.old) removal → ⊥ }
        ensures when_failed { OnErr result (has_failed_here (allocator_of self.new) ≡ true) }
        ensures invariants { KeepsFileInvariants (allocator_of self.old) (allocator_of self.new) }
        ensures error_contract { FatErrorContract IsInvalid result (allocator_of self.old)
            (allocator_of self.new) }
    {
        if let Err(error) = self.write_joined(removal.joined) {
            self.allocator.fail();
            return Err(error);
        }
        if let Err(error) = self.write_link(removal.replaced.link, removal.replaced.target) {
            self.allocator.fail();
            return Err(error);
        }
        if let Err(error) = self.write_entry(id, DirEntry::unallocated()) {
            self.allocator.fail();
            return Err(error);
        }
        Ok(())
    }

    /// Takes the entry to which a link leads out of its siblings, with what is in it, as `find_place` tells the two: it sinks among
    /// them until it lacks one, a link leads past it then, and an entry in no use is written in its place. `InvalidData` where the
    /// entries hold no tree with such a child, or the file hasn't the directory's sectors beside its tables. After an error nothing
    /// is changed, or it has failed ([MS-CFB] 2.6.3, 2.6.4).
    pub fn unlink_dir_entry(&mut self, link: Link, id: u32) -> Result<(), Error>
        ensures removed { OnOk result (RemovesChild (entries_held self.old)
            (entries_held self.new) link id) }
        ensures entry { OnOk result (RemovesAt (entries_held self.old) (entries_held self.new)
            id) }
        ensures refused_only_if { IsErrOf result InvalidData
            → (letters : CaseTable) (reads : ℕ → ℕ → List ℕ → Bool) (tree : Tree) (path : Path)
            (parent : ℕ) (name : List ℕ)
            → HoldsChild letters reads (entries_held self.old) tree path parent name link id
            → CanGrowDirectory self.old → ⊥ }
        ensures grown { OnOk result (HasDirectory self.old → GrowsDirectory self.old self.new) }
        ensures kept { OnErr result (has_failed_here (allocator_of self.new) ≡ false
            → KeepsEntries self.old self.new) }
        ensures memory { DirectoryMatchesBytes self.old → LiesBeside self.old
            → DirectoryMatchesBytes self.new }
        ensures invariants { KeepsFileInvariants (allocator_of self.old) (allocator_of self.new) }
        ensures error_contract { FatErrorContract IsInvalid result (allocator_of self.old)
            (allocator_of self.new) }
    {
        if self.allocator.is_failed() {
            return Err(Error::Failed);
        }
        if id as usize >= self.entries.items.len() {
            return Err(Error::InvalidData);
        }
        if let Err(error) = self.entries.note(id) {
            return Err(error);
        }
        let link = match self.sink(link, id) {
            Ok(link) => link,
            Err(error) => return Err(error),
        };
        let Some(removal) = plan_removal(&self.entries.items, link, id) else {
            self.allocator.fail();
            return Err(Error::InvalidData);
        };
        self.take_out(removal, id)
    }

    /// Takes the child of this name out of the storage `parent`, with what is in it, as `unlink_dir_entry` does. `NotFound` where
    /// the storage has no child of the name, `InvalidData` where the entries hold no tree with such a storage, or the file hasn't
    /// the directory's sectors beside its tables. After an error nothing is changed, or it has failed ([MS-CFB] 2.6.3, 2.6.4).
    pub fn remove_dir_entry(
        &mut self,
        letters: &CaseMapper,
        parent: u32,
        name: &str,
    ) -> Result<(), Error>
        ensures removed { OnOk result ((reads : ℕ → ℕ → List ℕ → Bool) (tree : Tree) (path : Path)
            → (h : HoldsStorage (case_table_of letters.now) reads (entries_held self.old) tree
            path parent) → (id : ℕ) × Removes (case_table_of letters.now) reads
            (entries_held self.old) (entries_held self.new) tree h.holds.ids
            (path_to path (chars name.now)) id
            × RemovesAt (entries_held self.old) (entries_held self.new) id) }
        ensures missing { IsErrOf result NotFound
            → IsNameFree (case_table_of letters.now) (entries_held self.old) parent
            (chars name.now) }
        ensures only_reads { IsErrOf result NotFound → OnlyReadsDirectory self.old self.new }
        ensures refused_only_if { IsErrOf result InvalidData
            → HasNoStorage (case_table_of letters.now) self.old parent }
        ensures grown { OnOk result (HasDirectory self.old → GrowsDirectory self.old self.new) }
        ensures kept { OnErr result (has_failed_here (allocator_of self.new) ≡ false
            → KeepsEntries self.old self.new) }
        ensures memory { DirectoryMatchesBytes self.old → LiesBeside self.old
            → DirectoryMatchesBytes self.new }
        ensures invariants { KeepsFileInvariants (allocator_of self.old) (allocator_of self.new) }
        ensures error_contract { FatErrorContract IsRemoveEntryError result (allocator_of self.old)
            (allocator_of self.new) }
    {
        if self.allocator.is_failed() {
            return Err(Error::Failed);
        }
        let (link, id) = match find_place(letters, &self.entries.items, parent, name) {
            Some(Place::Taken { link, id }) => (link, id),
            Some(Place::Free { link: _ }) => return Err(Error::NotFound),
            None => return Err(Error::InvalidData),
        };
        self.unlink_dir_entry(link, id)
    }
}
