//! Streams that are made, or emptied where they are, by their paths.
ghost use Rattle.cfb_directory.specs.Growth.{LacksEntries};
ghost use Rattle.cfb_entries.specs.Rules.{names_in};
ghost use Rattle.cfb_fat.specs.Calls.{FatErrorContract};
ghost use Rattle.cfb_fat.specs.Tables.{has_failed_here};
ghost use Rattle.cfb_tree_edits.specs.Making.{IsMakeObjectError};
ghost use Rattle.cfb_spec.specs.TreeRules.{create_stream};
ghost use Rattle.cfb_medium.specs.declared.error.Error.TheVariants.{Full};
ghost use Rattle.cfb_mini.specs.Views.{allocator_of, directory_of};
ghost use Rattle.cfb_chain_io.specs.ChainEffects.{KeepsFileInvariants};
ghost use Rattle.std.specs.Prelude.{false, IsErrOf, ◌≡◌};

use crate::CompoundFile;
use cfb_medium::{Error, Medium};
use cfb_sectors::HasSectors;
use cfb_stream_writes::create_stream;

impl<F: Medium> CompoundFile<F> {
    ghost use Rattle.cfb.specs.FollowedRules.{FollowsTreeRules};
    ghost use Rattle.cfb.specs.Views.{mini_of};

    /// Makes a stream at a path, without bytes; one that is there is emptied, and keeps its name and state bits. `Failed` after an
    /// earlier fault, `InvalidData` where the file isn't sound; then `InvalidInput` where the path leads above the root,
    /// `AlreadyExists` where a storage is there, `NotFound` where no object is at the parent's path, `InvalidInput` where that is
    /// a stream or the name is invalid. `Full` where numbers of entries or sectors are missing. The other errors are `Memory` and
    /// `Device`. After an error nothing is changed, or the file has failed ([MS-CFB] 2.6.3).
    pub fn create_stream(&mut self, path: &str) -> Result<(), Error>
        ensures tree_rule { FollowsTreeRules (names_in path.now)
            (λ names. create_stream names) result self.old
            self.new }
        ensures full_only_if { IsErrOf result Full
            → has_failed_here (allocator_of (mini_of self.new)) ≡ false
            → LacksEntries (directory_of (mini_of self.old)) }
        ensures invariants { KeepsFileInvariants (allocator_of (mini_of self.old))
            (allocator_of (mini_of self.new)) }
        ensures error_contract { FatErrorContract IsMakeObjectError result
            (allocator_of (mini_of self.old))
            (allocator_of (mini_of self.new)) }
    {
        if self.mini.directory().allocator().is_failed() {
            return Err(Error::Failed);
        }
        if !self.is_sound {
            return Err(Error::InvalidData);
        }
        self.stream_id = None;
        create_stream(self.alloc, &mut self.mini, &self.letters, path)
    }
}
