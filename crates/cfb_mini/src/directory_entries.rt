//! Entries of the directory, changed, added and taken out over this layer.
ghost use Rattle.cfb_chains.specs.ChainCalls.{IsInvalid};
ghost use Rattle.cfb_directory.specs.Changes.{changed_entry};
ghost use Rattle.cfb_directory.specs.Children.{AddsAt, AddsChild, HoldsChild, IsInsertEntryError, RemovesAt, RemovesChild};
ghost use Rattle.cfb_directory.specs.Growth.{count_words, LacksEntries};
ghost use Rattle.cfb_directory.specs.Views.{entries_held};
ghost use Rattle.cfb_fat.specs.Calls.{FatErrorContract};
ghost use Rattle.cfb_fat.specs.Tables.{has_failed_here, version_of};
ghost use Rattle.cfb_medium.specs.Versions.{stream_len_mask};
ghost use Rattle.cfb_medium.specs.declared.error.Error.TheVariants.{AlreadyExists, Full, InvalidData, InvalidInput};
ghost use Rattle.cfb_medium.specs.Times.{units_of};
ghost use Rattle.cfb_mini.specs.Changing.{ChangesDirectory, HasUniqueOwners, KeepsOwnership};
ghost use Rattle.cfb_mini.specs.Children.{HasRoot, CanEditDirectory, RefusesChild};
ghost use Rattle.cfb_mini.specs.Views.{allocator_of, directory_of};
ghost use Rattle.cfb_chain_io.specs.ChainEffects.{KeepsFileInvariants};
ghost use Rattle.cfb_tree.specs.Directory.{Entry};
ghost use Rattle.cfb_tree.specs.Entries.{new_entry};
ghost use Rattle.cfb_tree.specs.EntryViews.{kind_of};
ghost use Rattle.cfb_tree.specs.CaseTableViews.{case_table_of};
ghost use Rattle.cfb_tree.specs.Names.{CaseTable};
ghost use Rattle.cfb_tree.specs.Paths.{Path};
ghost use Rattle.cfb_tree.specs.Tree.{Tree};
ghost use Rattle.std.specs.Prelude.{chars, false, length, slice_get, slice_set, true, Bool, IfErr, IfOk, IsErrOf, List, OnErr, OnOk, [], Some, ℕ, ◌<◌, ◌≡◌, ◌↔◌, ◌⊎◌};

use crate::MiniAllocator;
use cfb_directory::EntryChange;
use cfb_medium::{Error, Medium, Timestamp};
use cfb_siblings::Link;
use cfb_tree::{CaseMapper, ObjType};

impl<F: Medium> MiniAllocator<F> {
    /// Changes an entry of the directory in its place, as `Directory::with_dir_entry_mut` does. Whoever changes the root's entry
    /// leaves where its stream begins: that is the mini stream, which this layer keeps. `InvalidInput` where the version has no
    /// room for its size, and then nothing is changed. After another error nothing is changed, or it has failed
    /// ([MS-CFB] 2.6.1).
    pub fn with_dir_entry_mut(&mut self, id: u32, change: EntryChange) -> Result<(), Error>
        requires { id < length (entries_held (directory_of self.old)) }
        ensures set { OnOk result ((e : Entry)
            → slice_get (entries_held (directory_of self.old)) id ≡ Some e
            → entries_held (directory_of self.new)
            ≡ slice_set (entries_held (directory_of self.old)) id (changed_entry change e)) }
        ensures changes { OnOk result ((own : ℕ → List ℕ) (e : Entry) → HasUniqueOwners self.old own
            → slice_get (entries_held (directory_of self.old)) id ≡ Some e
            → (id ≡ 0 → (changed_entry change e).start ≡ e.start)
            → ChangesDirectory [] self.old self.new own) }
        ensures refused_only_if { IsErrOf result InvalidData → (own : ℕ → List ℕ)
            → HasUniqueOwners self.old own → ⊥ }
        ensures large { (e : Entry)
            → slice_get (entries_held (directory_of self.old)) id ≡ Some e
            → IsErrOf result InvalidInput ↔ ((has_failed_here (allocator_of self.old) ≡ false)
            × (stream_len_mask (version_of (allocator_of self.old))
            < (changed_entry change e).size)) }
        ensures after_error { OnErr result ((has_failed_here (allocator_of self.new) ≡ true)
            ⊎ KeepsOwnership self.old self.new) }
        ensures unchanged { IsErrOf result InvalidInput → KeepsOwnership self.old self.new }
        ensures invariants { KeepsFileInvariants (allocator_of self.old) (allocator_of self.new) }
        ensures error_contract { FatErrorContract
            (λ e. (e ≡ InvalidData) ⊎ (e ≡ InvalidInput)) result
            (allocator_of self.old) (allocator_of self.new) }
    {
        if let Err(error) = self.directory.with_dir_entry_mut(id, change) {
            return Err(error);
        }
        Ok(())
    }

    /// Gives the storage `parent` a child of this name and kind, as `Directory::insert_dir_entry` does. `AlreadyExists` where a
    /// child has the name, `InvalidInput` where the name is invalid, and then nothing is changed. After another error nothing is
    /// changed, or it has failed ([MS-CFB] 2.6.4).
    pub fn insert_dir_entry(
        &mut self,
        letters: &CaseMapper,
        parent: u32,
        name: &str,
        obj_type: ObjType,
        moment: Timestamp,
    ) -> Result<u32, Error>
        ensures added { IfOk result (AddsChild (case_table_of letters.now)
            (entries_held (directory_of self.old)) (entries_held (directory_of self.new))
            parent (chars name.now)
            (new_entry (chars name.now) (kind_of obj_type) (units_of moment))) }
        ensures entry { IfOk result (AddsAt (entries_held (directory_of self.old))
            (entries_held (directory_of self.new))
            (new_entry (chars name.now) (kind_of obj_type) (units_of moment))) }
        ensures changes { OnOk result ((own : ℕ → List ℕ) → HasUniqueOwners self.old own
            → HasRoot (entries_held (directory_of self.old))
            → ChangesDirectory (count_words (version_of (allocator_of self.old))) self.old
            self.new own) }
        ensures refused_only_if { IfErr result
            (RefusesChild (case_table_of letters.now) self.old parent
            (chars name.now)) }
        ensures full_only_if { IsErrOf result Full → has_failed_here (allocator_of self.new) ≡ false
            → LacksEntries (directory_of self.old) }
        ensures after_error { OnErr result ((has_failed_here (allocator_of self.new) ≡ true)
            ⊎ KeepsOwnership self.old self.new) }
        ensures unchanged { IsErrOf result AlreadyExists ⊎ IsErrOf result InvalidInput
            → KeepsOwnership self.old self.new }
        ensures invariants { KeepsFileInvariants (allocator_of self.old) (allocator_of self.new) }
        ensures error_contract { FatErrorContract IsInsertEntryError result (allocator_of self.old)
            (allocator_of self.new) }
    {
        let id = match self
            .directory
            .insert_dir_entry(letters, parent, name, obj_type, moment)
        {
            Ok(id) => id,
            Err(error) => return Err(error),
        };
        Ok(id)
    }

    /// Takes the entry to which a link leads out of its siblings, with what is in it, as `Directory::unlink_dir_entry` does: the
    /// streams among them keep their sectors. After an error nothing is changed, or it has failed ([MS-CFB] 2.6.3, 2.6.4).
    pub fn unlink_dir_entry(&mut self, link: Link, id: u32) -> Result<(), Error>
        ensures removed { OnOk result (RemovesChild (entries_held (directory_of self.old))
            (entries_held (directory_of self.new)) link id) }
        ensures entry { OnOk result (RemovesAt (entries_held (directory_of self.old))
            (entries_held (directory_of self.new)) id) }
        ensures changes { OnOk result ((own : ℕ → List ℕ) → HasUniqueOwners self.old own
            → HasRoot (entries_held (directory_of self.old)) → (id ≡ 0 → ⊥)
            → ChangesDirectory (count_words (version_of (allocator_of self.old))) self.old
            self.new own) }
        ensures refused_only_if { IsErrOf result InvalidData
            → (letters : CaseTable) (reads : ℕ → ℕ → List ℕ → Bool) (tree : Tree) (path : Path)
            (parent : ℕ) (name : List ℕ) (own : ℕ → List ℕ)
            → HoldsChild letters reads (entries_held (directory_of self.old)) tree path parent name
            link id → HasUniqueOwners self.old own → CanEditDirectory self.old → ⊥ }
        ensures after_error { OnErr result ((has_failed_here (allocator_of self.new) ≡ true)
            ⊎ KeepsOwnership self.old self.new) }
        ensures invariants { KeepsFileInvariants (allocator_of self.old) (allocator_of self.new) }
        ensures error_contract { FatErrorContract IsInvalid result (allocator_of self.old)
            (allocator_of self.new) }
    {
        if let Err(error) = self.directory.unlink_dir_entry(link, id) {
            return Err(error);
        }
        Ok(())
    }
}
