//! Objects of a file that are removed, by their paths.
ghost use Rattle.cfb_entries.specs.Rules.{names_in};
ghost use Rattle.cfb_fat.specs.Calls.{FatErrorContract};
ghost use Rattle.cfb_tree_edits.specs.Removing.{IsRemoveObjectError};
ghost use Rattle.cfb_spec.specs.TreeRules.{remove_storage, remove_storage_all, remove_stream};
ghost use Rattle.cfb_mini.specs.Views.{allocator_of};
ghost use Rattle.cfb_chain_io.specs.ChainEffects.{KeepsFileInvariants};
ghost use Rattle.cfb_tree.specs.Tree.{Tree};
ghost use Rattle.std.specs.Prelude.{OnOk};

use crate::CompoundFile;
use cfb_medium::{Error, Medium};
use cfb_sectors::HasSectors;

impl<F: Medium> CompoundFile<F> {
    ghost use Rattle.cfb.specs.FollowedRules.{FollowsTreeRules, FileMeansTree};
    ghost use Rattle.cfb.specs.Removing.{GivesUpStream};
    ghost use Rattle.cfb.specs.Views.{mini_of};

    /// Removes the stream at a path; its sectors are free then, but for one that the directory may take. `Failed` after an earlier fault,
    /// `InvalidData` where the file isn't sound; then `InvalidInput` where the path leads above the root, `NotFound` where no object is
    /// there, `InvalidInput` where that is a storage. The other errors are `Memory` and `Device`. After an error nothing is changed, or the
    /// file has failed ([MS-CFB] 2.6.3).
    pub fn remove_stream(&mut self, path: &str) -> Result<(), Error>
        ensures tree_rule { FollowsTreeRules (names_in path.now)
            (λ names. remove_stream names) result self.old
            self.new }
        ensures freed { OnOk result ((tree : Tree) → FileMeansTree self.old tree
            → GivesUpStream self.old self.new path.now) }
        ensures invariants { KeepsFileInvariants (allocator_of (mini_of self.old))
            (allocator_of (mini_of self.new)) }
        ensures error_contract { FatErrorContract IsRemoveObjectError result
            (allocator_of (mini_of self.old))
            (allocator_of (mini_of self.new)) }
    {
        if self.mini.directory().allocator().is_failed() {
            return Err(Error::Failed);
        }
        if !self.is_sound {
            return Err(Error::InvalidData);
        }
        self.stream_id = None;
        cfb_tree_edits::remove_stream(self.alloc, &mut self.mini, &self.letters, path)
    }

    /// Removes the storage at a path, which holds nothing. `InvalidInput` where a stream is at the path, or
    /// a storage with content, or the path is the root's. All else is as for `remove_stream` ([MS-CFB] 2.6.2).
    pub fn remove_storage(&mut self, path: &str) -> Result<(), Error>
        ensures tree_rule { FollowsTreeRules (names_in path.now)
            (λ names. remove_storage names) result self.old
            self.new }
        ensures invariants { KeepsFileInvariants (allocator_of (mini_of self.old))
            (allocator_of (mini_of self.new)) }
        ensures error_contract { FatErrorContract IsRemoveObjectError result
            (allocator_of (mini_of self.old))
            (allocator_of (mini_of self.new)) }
    {
        if self.mini.directory().allocator().is_failed() {
            return Err(Error::Failed);
        }
        if !self.is_sound {
            return Err(Error::InvalidData);
        }
        self.stream_id = None;
        cfb_tree_edits::remove_storage(self.alloc, &mut self.mini, &self.letters, path)
    }

    /// Removes the storage at a path with all that it holds; the root is only emptied. No sector of its streams stays in use without an
    /// owner. `InvalidInput` where a stream is at the path. After the first change each error leaves the file failed. All else is as for
    /// `remove_stream`. It keeps the way to the object that was removed last, and goes on from there ([MS-CFB] 2.6.2 to 2.6.4).
    pub fn remove_storage_all(&mut self, path: &str) -> Result<(), Error>
        ensures tree_rule { FollowsTreeRules (names_in path.now)
            (λ names. remove_storage_all names) result self.old
            self.new }
        ensures invariants { KeepsFileInvariants (allocator_of (mini_of self.old))
            (allocator_of (mini_of self.new)) }
        ensures error_contract { FatErrorContract IsRemoveObjectError result
            (allocator_of (mini_of self.old))
            (allocator_of (mini_of self.new)) }
    {
        if self.mini.directory().allocator().is_failed() {
            return Err(Error::Failed);
        }
        if !self.is_sound {
            return Err(Error::InvalidData);
        }
        self.stream_id = None;
        cfb_tree_edits::remove_storage_all(self.alloc, &mut self.mini, &self.letters, path)
    }
}
