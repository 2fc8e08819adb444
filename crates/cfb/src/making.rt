//! New objects of a file, by their paths.
ghost use Rattle.cfb_directory.specs.Growth.{LacksEntries};
ghost use Rattle.cfb_entries.specs.Rules.{names_in};
ghost use Rattle.cfb_fat.specs.Calls.{FatErrorContract};
ghost use Rattle.cfb_fat.specs.Tables.{has_failed_here};
ghost use Rattle.cfb_tree_edits.specs.Making.{making, IsMakeObjectError};
ghost use Rattle.cfb_spec.specs.TreeRules.{create_new_stream, create_storage, create_storage_all};
ghost use Rattle.cfb_medium.specs.Times.{units_of};
ghost use Rattle.cfb_medium.specs.declared.error.Error.TheVariants.{Full};
ghost use Rattle.cfb_mini.specs.Views.{allocator_of, directory_of};
ghost use Rattle.cfb_chain_io.specs.ChainEffects.{KeepsFileInvariants};
ghost use Rattle.std.specs.Prelude.{false, IsErrOf, ◌≡◌};

use crate::CompoundFile;
use cfb_medium::{Error, Medium, Timestamp};
use cfb_sectors::HasSectors;
use cfb_tree_edits::{NewObject, make_object};

impl<F: Medium> CompoundFile<F> {
    ghost use Rattle.cfb.specs.FollowedRules.{FollowsTreeRules};
    ghost use Rattle.cfb.specs.Views.{mini_of};

    // Makes an object at a path where none is.
    fn make(&mut self, path: &str, object: NewObject) -> Result<(), Error>
        ensures tree_rule { FollowsTreeRules (names_in path.now)
            (making object) result self.old self.new }
        ensures full_only_if { IsErrOf result Full
            → has_failed_here (allocator_of (mini_of self.new)) ≡ false
            → LacksEntries (directory_of (mini_of self.old)) }
        ensures invariants { KeepsFileInvariants (allocator_of (mini_of self.old))
            (allocator_of (mini_of self.new)) }
        ensures error_contract { FatErrorContract IsMakeObjectError result
            (allocator_of (mini_of self.old))
            (allocator_of (mini_of self.new)) }
    {
        if self.mini.directory().allocator().is_failed() {
            return Err(Error::Failed);
        }
        if !self.is_sound {
            return Err(Error::InvalidData);
        }
        self.stream_id = None;
        make_object(self.alloc, &mut self.mini, &self.letters, path, object)
    }

    /// Makes a storage at a path, without children, created and modified at the moment. `Failed` after an earlier fault,
    /// `InvalidData` where the file isn't sound; then `InvalidInput` where the path leads above the root, `AlreadyExists` where
    /// an object is there, `NotFound` where none is at its parent's path, `InvalidInput` where that is a stream or the name is
    /// invalid. `Full` where numbers of entries or sectors are missing. The other errors are `Memory` and `Device`. After an
    /// error nothing is changed, or the file has failed ([MS-CFB] 2.6.2).
    pub fn create_storage(&mut self, path: &str, moment: Timestamp) -> Result<(), Error>
        ensures tree_rule { FollowsTreeRules (names_in path.now)
            (λ names. create_storage names (units_of moment))
            result self.old self.new }
        ensures full_only_if { IsErrOf result Full
            → has_failed_here (allocator_of (mini_of self.new)) ≡ false
            → LacksEntries (directory_of (mini_of self.old)) }
        ensures invariants { KeepsFileInvariants (allocator_of (mini_of self.old))
            (allocator_of (mini_of self.new)) }
        ensures error_contract { FatErrorContract IsMakeObjectError result
            (allocator_of (mini_of self.old))
            (allocator_of (mini_of self.new)) }
    {
        self.make(path, NewObject::Storage(moment))
    }

    /// Makes a stream at a path, without bytes. Errors are those of `create_storage` ([MS-CFB] 2.6.3).
    pub fn create_new_stream(&mut self, path: &str) -> Result<(), Error>
        ensures tree_rule { FollowsTreeRules (names_in path.now)
            (λ names. create_new_stream names) result self.old
            self.new }
        ensures full_only_if { IsErrOf result Full
            → has_failed_here (allocator_of (mini_of self.new)) ≡ false
            → LacksEntries (directory_of (mini_of self.old)) }
        ensures invariants { KeepsFileInvariants (allocator_of (mini_of self.old))
            (allocator_of (mini_of self.new)) }
        ensures error_contract { FatErrorContract IsMakeObjectError result
            (allocator_of (mini_of self.old))
            (allocator_of (mini_of self.new)) }
    {
        self.make(path, NewObject::Stream)
    }

    /// Makes a storage at a path, and one at each path above it where none is, created and modified at the moment; storages that
    /// are there stay. `Failed` after an earlier fault, `InvalidData` where the file isn't sound. Then all is tested before the
    /// first is made: `InvalidInput` where the path leads above the root, `AlreadyExists` where a stream is in the way,
    /// `InvalidInput` where the name of a missing one is invalid. `Full` where numbers of entries or sectors are missing. The
    /// other errors are `Memory` and `Device`. After the first change each error leaves the file failed, and before it nothing is
    /// changed, or the file has failed. It goes down the path once ([MS-CFB] 2.6.2).
    pub fn create_storage_all(&mut self, path: &str, moment: Timestamp) -> Result<(), Error>
        ensures tree_rule { FollowsTreeRules (names_in path.now)
            (λ names. create_storage_all names (units_of moment)) result self.old self.new }
        ensures full_only_if { IsErrOf result Full
            → has_failed_here (allocator_of (mini_of self.new)) ≡ false
            → LacksEntries (directory_of (mini_of self.old)) }
        ensures invariants { KeepsFileInvariants (allocator_of (mini_of self.old))
            (allocator_of (mini_of self.new)) }
        ensures error_contract { FatErrorContract IsMakeObjectError result
            (allocator_of (mini_of self.old))
            (allocator_of (mini_of self.new)) }
    {
        if self.mini.directory().allocator().is_failed() {
            return Err(Error::Failed);
        }
        if !self.is_sound() {
            return Err(Error::InvalidData);
        }
        self.stream_id = None;
        cfb_tree_edits::create_storage_all(self.alloc, &mut self.mini, &self.letters, path, moment)
    }
}
