//! The summary of a package, lent to be changed.
ghost use Rattle.std.specs.Borrow.{sem, LendsIfOk};
ghost use Rattle.std.specs.Prelude.{◌≡◌, Err, IfOk, MatchResult, Ok};
ghost use Rattle.msi.specs.Changing.{failed_in, permission};
ghost use Rattle.msi.specs.Lending.{with_summary};
ghost use Rattle.msi.specs.Opened.{sound_in, summary_in};
ghost use Rattle.msi.specs.contracts.package.Package.{the_row};
ghost use Rattle.msi_summary.specs.contracts.summary.SummaryInfo as summary;

use crate::package::Package;
use cfb_medium::{Error, Medium};
use msi_summary::SummaryInfo;

impl<F: Medium> Package<F> {
    /// The summary, to be changed; the package has then what was made of it, and a flush writes it. `Failed` after an earlier fault,
    /// `InvalidData` where the package isn't sound, and then nothing is changed.
    pub fn summary_info_mut(&mut self) -> Result<&mut SummaryInfo, Error>
        ensures* lends { sem 𝓛 (LendsIfOk (the_row F.row F.ReadMedium) summary.the_row self.entry
            result (with_summary self.old) self.old) }
        ensures value { IfOk result (λ s. s.now ≡ summary_in self.old) }
        ensures answer { MatchResult result
            (λ s. permission (failed_in self.old) (sound_in self.old) ≡ Ok tt)
            (λ e. permission (failed_in self.old) (sound_in self.old) ≡ Err e) }
    {
        if self.store.file.has_failed() {
            return Err(Error::Failed);
        }
        if !self.is_sound {
            return Err(Error::InvalidData);
        }
        self.is_summary_written = false;
        Ok(&mut self.summary)
    }
}
