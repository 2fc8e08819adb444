//! Facts of a file's objects, set by their paths.
ghost use Rattle.cfb_entries.specs.Rules.{names_in};
ghost use Rattle.cfb_fat.specs.Calls.{FatErrorContract};
ghost use Rattle.cfb_tree_edits.specs.Facts.{setting, IsSetMetadataError};
ghost use Rattle.cfb_spec.specs.TreeRules.{set_created_time, set_modified_time, set_state_bits, set_storage_clsid, touch};
ghost use Rattle.cfb_medium.specs.Times.{units_of};
ghost use Rattle.cfb_mini.specs.Views.{allocator_of};
ghost use Rattle.cfb_chain_io.specs.ChainEffects.{KeepsFileInvariants};

use crate::CompoundFile;
use cfb_medium::{Error, Medium, Timestamp};
use cfb_sectors::HasSectors;
use cfb_tree_edits::Fact;
use uuid::Uuid;

impl<F: Medium> CompoundFile<F> {
    ghost use Rattle.cfb.specs.FollowedRules.{FollowsTreeRules};
    ghost use Rattle.cfb.specs.Views.{mini_of};

    // Sets a fact of the object at a path.
    fn set_fact(&mut self, path: &str, fact: Fact) -> Result<(), Error>
        ensures tree_rule { FollowsTreeRules (names_in path.now)
            (setting fact) result self.old self.new }
        ensures invariants { KeepsFileInvariants (allocator_of (mini_of self.old))
            (allocator_of (mini_of self.new)) }
        ensures error_contract { FatErrorContract IsSetMetadataError result
            (allocator_of (mini_of self.old))
            (allocator_of (mini_of self.new)) }
    {
        if self.mini.directory().allocator().is_failed() {
            return Err(Error::Failed);
        }
        if !self.is_sound {
            return Err(Error::InvalidData);
        }
        self.stream_id = None;
        cfb_tree_edits::set_fact(self.alloc, &mut self.mini, &self.letters, path, fact)
    }

    /// Sets the state bits of the object at a path. `Failed` after an earlier fault, `InvalidData` where the file isn't sound;
    /// then `InvalidInput` where the path leads above the root, `NotFound` where no object is there. The other errors are
    /// `Memory` and `Device`. After an error nothing is changed, or the file has failed ([MS-CFB] 2.6.1).
    pub fn set_state_bits(&mut self, path: &str, bits: u32) -> Result<(), Error>
        ensures tree_rule { FollowsTreeRules (names_in path.now)
            (λ names. set_state_bits names bits) result
            self.old self.new }
        ensures invariants { KeepsFileInvariants (allocator_of (mini_of self.old))
            (allocator_of (mini_of self.new)) }
        ensures error_contract { FatErrorContract IsSetMetadataError result
            (allocator_of (mini_of self.old))
            (allocator_of (mini_of self.new)) }
    {
        self.set_fact(path, Fact::StateBits(bits))
    }

    /// Sets the class identifier of the storage at a path. `InvalidInput` where a stream is there; all else is as for
    /// `set_state_bits` ([MS-CFB] 2.6.1).
    pub fn set_storage_clsid(&mut self, path: &str, clsid: Uuid) -> Result<(), Error>
        ensures tree_rule { FollowsTreeRules (names_in path.now)
            (λ names. set_storage_clsid names clsid) result
            self.old self.new }
        ensures invariants { KeepsFileInvariants (allocator_of (mini_of self.old))
            (allocator_of (mini_of self.new)) }
        ensures error_contract { FatErrorContract IsSetMetadataError result
            (allocator_of (mini_of self.old))
            (allocator_of (mini_of self.new)) }
    {
        self.set_fact(path, Fact::ClassId(clsid))
    }

    /// Sets when the storage at a path was modified last; of the root and of a stream it changes nothing. Errors are those of
    /// `set_state_bits` ([MS-CFB] 2.6.1).
    pub fn touch(&mut self, path: &str, moment: Timestamp) -> Result<(), Error>
        ensures tree_rule { FollowsTreeRules (names_in path.now)
            (λ names. touch names (units_of moment)) result
            self.old self.new }
        ensures invariants { KeepsFileInvariants (allocator_of (mini_of self.old))
            (allocator_of (mini_of self.new)) }
        ensures error_contract { FatErrorContract IsSetMetadataError result
            (allocator_of (mini_of self.old))
            (allocator_of (mini_of self.new)) }
    {
        self.set_fact(path, Fact::Modified(moment))
    }

    /// Sets when the storage at a path was created; of the root and of a stream it changes nothing. Errors are those of
    /// `set_state_bits` ([MS-CFB] 2.6.1).
    pub fn set_created_time(&mut self, path: &str, moment: Timestamp) -> Result<(), Error>
        ensures tree_rule { FollowsTreeRules (names_in path.now)
            (λ names. set_created_time names (units_of moment))
            result self.old self.new }
        ensures invariants { KeepsFileInvariants (allocator_of (mini_of self.old))
            (allocator_of (mini_of self.new)) }
        ensures error_contract { FatErrorContract IsSetMetadataError result
            (allocator_of (mini_of self.old))
            (allocator_of (mini_of self.new)) }
    {
        self.set_fact(path, Fact::Created(moment))
    }

    /// Sets when the storage at a path was modified last, as `touch` does.
    pub fn set_modified_time(&mut self, path: &str, moment: Timestamp) -> Result<(), Error>
        ensures tree_rule { FollowsTreeRules (names_in path.now)
            (λ names. set_modified_time names (units_of moment))
            result self.old self.new }
        ensures invariants { KeepsFileInvariants (allocator_of (mini_of self.old))
            (allocator_of (mini_of self.new)) }
        ensures error_contract { FatErrorContract IsSetMetadataError result
            (allocator_of (mini_of self.old))
            (allocator_of (mini_of self.new)) }
    {
        self.set_fact(path, Fact::Modified(moment))
    }
}
