//! Streams of packages that get the bytes of a source, piece by piece.
ghost use Rattle.cfb.specs.Pieces.{IsSourceFault, OnlyReadsSource};
ghost use Rattle.cfb.specs.Views.{mini_of};
ghost use Rattle.cfb_chain_io.specs.ChainEffects.{KeepsFileInvariants};
ghost use Rattle.cfb_fat.specs.Tables.{IsJustifiedBySectors};
ghost use Rattle.cfb_mini.specs.Views.{allocator_of};
ghost use Rattle.msi.specs.Changing.{IsChangeError};
ghost use Rattle.msi.specs.Opened.{file_in};
ghost use Rattle.msi.specs.Pieces.{PutsFrom};
ghost use Rattle.std.specs.Prelude.{◌⊎◌, length, IfErr};

use crate::package::Package;
use cfb_medium::{Error, Medium, ReadMedium};

impl<F: Medium> Package<F> {
    /// Gives a stream of this name all bytes of a source in place of its own, or makes it with them. They are read in pieces, and no memory
    /// is taken for them. Errors are those of `put_stream`, and those of the source; `Device` where that gives fewer bytes than it told.
    /// After an error nothing is changed, or the package has failed: so it has where the source fails once its bytes were asked for.
    pub fn put_stream_from<S: ReadMedium>(
        &mut self,
        name: &str,
        source: &mut S,
    ) -> Result<(), Error>
        ensures puts { PutsFrom S.ReadMedium source.old name.now result self.old self.new }
        ensures only_reads { OnlyReadsSource S.ReadMedium source.old source.new }
        ensures invariants { KeepsFileInvariants (allocator_of (mini_of (file_in self.old)))
            (allocator_of (mini_of (file_in self.new))) }
        ensures cause { IfErr result (λ e.
            IsJustifiedBySectors (allocator_of (mini_of (file_in self.old)))
            (allocator_of (mini_of (file_in self.new))) e
            ⊎ IsSourceFault S.ReadMedium (length (S.bytes source.old)) source.old source.new e) }
        ensures errors { IfErr result IsChangeError }
    {
        if let Err(error) = self.may_change() {
            return Err(error);
        }
        msi_streams::write_stream_from(&mut self.store.file, name, source)
    }
}
