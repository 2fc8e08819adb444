//! Files that are copied to another medium.
ghost use Rattle.cfb_copying.specs.Chains.{IsCopyError};
ghost use Rattle.cfb_fat.specs.Tables.{has_failed_here, IsJustifiedBySectors};
ghost use Rattle.cfb_tree_edits.specs.LiveTreeRules.{IsFaultOrFull};
ghost use Rattle.cfb_medium.specs.Calls.{Reaches, IsJustifiedSince};
ghost use Rattle.cfb_medium.specs.declared.error.Error.TheVariants.{Failed, Full, InvalidData};
ghost use Rattle.cfb_mini.specs.Views.{allocator_of};
ghost use Rattle.cfb_tree.specs.Tree.{Tree};
ghost use Rattle.std.specs.Prelude.{false, true, IfErr, IsErrOf, IsTrue, OnErr, OnOk, [], ◌≡◌, ◌⊎◌};

use crate::CompoundFile;
use cfb_copying::copy_of;
use cfb_medium::{Error, Medium, ReadMedium};
use cfb_sectors::HasSectors;

impl<F: ReadMedium> CompoundFile<F> {
    ghost use Rattle.cfb.specs.FollowedRules.{CopiesFile, FileMeansTree};
    ghost use Rattle.cfb.specs.Views.{mini_of, sound_of, OnlyReadsFile};

    /// Copies the file to an empty medium: there is then a file of the same version that means the same tree, is sound, and has no
    /// sector that serves no use; what the file holds in sectors and mini sectors of streams is copied whole. Root and entries of the
    /// tree are black in the copy, whatever colours the file has, and the root's size is that of the mini stream's whole sectors, or
    /// the most that a size of the version can be. A strict reader takes the copy where the root has its name. The file is only read.
    /// The copy is made in memory, and takes as much as it has bytes, besides a list of the file's entries; then it is written to
    /// the medium, and nothing is published. `Failed` after an earlier fault of the file, before all else;
    /// `InvalidData` where the file isn't sound. The other errors are `Memory`, `Device`, and `Failed` of a medium that has failed;
    /// `Full` never of a file that means a tree: a copy has no more sectors than the file. After an error the medium is as it was
    /// ([MS-CFB] 2).
    pub fn copy_to<T: Medium>(&mut self, target: &mut T) -> Result<(), Error>
        requires { IsTrue (T.honest target.old) → T.bytes target.old ≡ [] }
        ensures copied { OnOk result (IsTrue (T.honest target.old) → (tree : Tree)
            → FileMeansTree self.old tree → CopiesFile self.old tree (T.bytes target.new)) }
        ensures refused_only_if { IfErr result
            (λ e. (tree : Tree) → FileMeansTree self.old tree → IsFaultOrFull e) }
        ensures numbered { IsErrOf result Full → (tree : Tree) → FileMeansTree self.old tree → ⊥ }
        ensures when_failed { has_failed_here (allocator_of (mini_of self.old)) ≡ true
            → IsErrOf result Failed }
        ensures unsound { has_failed_here (allocator_of (mini_of self.old)) ≡ false
            → sound_of self.old ≡ false → IsErrOf result InvalidData }
        ensures only_reads { OnlyReadsFile self.old self.new }
        ensures unwritten { IsTrue (T.honest target.old)
            → OnErr result (T.bytes target.new ≡ T.bytes target.old) }
        ensures honest { T.honest target.new ≡ T.honest target.old }
        ensures continues { Reaches T.continues target.old target.new }
        ensures cause { IfErr result (λ e. IsJustifiedBySectors (allocator_of (mini_of self.old))
            (allocator_of (mini_of self.new)) e ⊎ IsJustifiedSince T.continues T.failures T.failed
            target.old target.new e) }
        ensures errors { IfErr result IsCopyError }
    {
        if self.mini.directory().allocator().is_failed() {
            return Err(Error::Failed);
        }
        if !self.is_sound {
            return Err(Error::InvalidData);
        }
        self.stream_id = None;
        let bytes = match copy_of(self.alloc, &mut self.mini) {
            Ok(bytes) => bytes,
            Err(error) => return Err(error),
        };
        target.write_at(0, &bytes)
    }
}
