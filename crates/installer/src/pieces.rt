//! A stream that gets the bytes of a source, piece by piece.
ghost use Rattle.cfb.specs.Pieces.{IsSourceFault, OnlyReadsSource};
ghost use Rattle.cfb.specs.Views.{mini_of};
ghost use Rattle.cfb_chain_io.specs.ChainEffects.{KeepsFileInvariants};
ghost use Rattle.cfb_fat.specs.Tables.{IsJustifiedBySectors};
ghost use Rattle.cfb_mini.specs.Views.{allocator_of};
ghost use Rattle.installer.specs.CrashSurvival.{SurvivesCrash};
ghost use Rattle.installer.specs.Pieces.{PutsQuietly, RunsPut};
ghost use Rattle.msi.specs.Changing.{IsChangeError};
ghost use Rattle.msi.specs.Opened.{file_in};
ghost use Rattle.msi.specs.Pieces.{PutsFrom};
ghost use Rattle.std.specs.Prelude.{◌⊎◌, [], length, IfErr, OnOk};

use crate::session::SessionOver;
use cfb_medium::{Error, Medium, ReadMedium};
use staged::{Device, Staged};

impl<F: Medium> SessionOver<F> {
    ghost use Rattle.installer.specs.Sessions.{package_in};

    // The same as `put_stream_from`, over any medium.
    fn put_pieces<S: ReadMedium>(&mut self, name: &str, source: &mut S) -> Result<(), Error>
        ensures done { OnOk result
            (PutsQuietly S.ReadMedium source.old name.now self.old self.new) }
        ensures puts { PutsFrom S.ReadMedium source.old name.now result
            (package_in self.old) (package_in self.new) }
        ensures only_reads { OnlyReadsSource S.ReadMedium source.old source.new }
        ensures invariants { KeepsFileInvariants
            (allocator_of (mini_of (file_in (package_in self.old))))
            (allocator_of (mini_of (file_in (package_in self.new)))) }
        ensures cause { IfErr result (λ e.
            IsJustifiedBySectors (allocator_of (mini_of (file_in (package_in self.old))))
            (allocator_of (mini_of (file_in (package_in self.new)))) e
            ⊎ IsSourceFault S.ReadMedium (length (S.bytes source.old)) source.old source.new e) }
        ensures errors { IfErr result IsChangeError }
    {
        self.package.put_stream_from(name, source)
    }
}

impl<D: Device> SessionOver<Staged<D>> {
    ghost use Rattle.installer.specs.Sessions.{device_below, package_in, session_case_table};

    /// Puts all bytes of a source into the stream of a name, as the command `write_stream` puts bytes. They are read in pieces, and no
    /// memory is taken for them; nothing is published. Errors are those of `Package::put_stream_from`. After one nothing is changed, or
    /// the session has failed.
    pub fn put_stream_from<S: ReadMedium>(
        &mut self,
        name: &str,
        source: &mut S,
    ) -> Result<(), Error>
        ensures done { OnOk result (RunsPut S.ReadMedium source.old name.now self.old self.new) }
        ensures puts { PutsFrom S.ReadMedium source.old name.now result
            (package_in self.old) (package_in self.new) }
        ensures survives { SurvivesCrash (session_case_table self.old) D.Device
            (device_below self.old) (device_below self.new) [] }
        ensures only_reads { OnlyReadsSource S.ReadMedium source.old source.new }
        ensures cause { IfErr result (λ e.
            IsJustifiedBySectors (allocator_of (mini_of (file_in (package_in self.old))))
            (allocator_of (mini_of (file_in (package_in self.new)))) e
            ⊎ IsSourceFault S.ReadMedium (length (S.bytes source.old)) source.old source.new e) }
        ensures errors { IfErr result IsChangeError }
    {
        self.put_pieces(name, source)
    }
}
