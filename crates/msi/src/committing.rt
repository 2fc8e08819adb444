//! Packages that are committed.
ghost use Rattle.std.specs.Prelude.{◌≡◌, ◌≤◌, false, true, IfErr, IsTrue, OnOk};
ghost use Rattle.cfb.specs.Publishing.{medium_in};
ghost use Rattle.cfb.specs.Views.{mini_of};
ghost use Rattle.cfb_fat.specs.Tables.{IsJustifiedBySectors};
ghost use Rattle.cfb_mini.specs.Views.{allocator_of};
ghost use Rattle.msi.specs.Changing.{IsChangeError, SummaryFills};
ghost use Rattle.msi.specs.Committing.{CrashLeavesOldOrHeld, PackageCommits};
ghost use Rattle.msi.specs.Opened.{file_in, pool_in, written_in};
ghost use Rattle.msi_stored.specs.Shown.{bytes_in};

use crate::package::Package;
use cfb_medium::{Error, Medium};

impl<F: Medium> Package<F> {
    /// Flushes the package, and publishes its bytes by a commit of the medium: a crash then leaves these alone, which are opened again as
    /// this package, sound, where each text fits its page (`texts_fit`). Whatever the texts, these bytes are a sound container that holds all
    /// else of the package. Of a package without a change the bytes stay. A crash during
    /// the call, or after an error, leaves what one might have left before it, or these bytes; no other call of a package adds to
    /// what a crash may leave. `Failed` after an earlier fault. Of a package that isn't sound nothing is written or published.
    /// `InvalidInput` where a text or a stream would be too long; the other errors are faults, `Full` among them as `flush` is answered
    /// so. After an error the package holds what it held, or has failed; and nothing is published, unless the medium itself failed in
    /// the midst of its commit, which is `Device`.
    pub fn commit(&mut self) -> Result<(), Error>
        ensures commits { PackageCommits F.has_published result self.old self.new }
        ensures crash { IsTrue (F.honest (medium_in (file_in self.old)))
            → CrashLeavesOldOrHeld self.old self.new }
        ensures still { (pool_in self.old).modified ≡ false → written_in self.old ≡ true
            → IsTrue (F.honest (medium_in (file_in self.old)))
            → OnOk result (bytes_in (file_in self.new) ≡ bytes_in (file_in self.old)) }
        ensures full_only_if { SummaryFills result self.old self.new }
        ensures cause { IfErr result
            (IsJustifiedBySectors (allocator_of (mini_of (file_in self.old)))
            (allocator_of (mini_of (file_in self.new)))) }
        ensures errors { IfErr result IsChangeError }
        ensures honest { F.honest (medium_in (file_in self.new))
            ≡ F.honest (medium_in (file_in self.old)) }
        ensures counted { F.failures (medium_in (file_in self.old))
            ≤ F.failures (medium_in (file_in self.new)) }
    {
        if self.store.file.has_failed() {
            return Err(Error::Failed);
        }
        if !self.is_sound {
            return Ok(());
        }
        if let Err(error) = self.flush() {
            return Err(error);
        }
        self.store.file.commit()
    }
}
