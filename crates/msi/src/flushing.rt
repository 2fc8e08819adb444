//! Packages whose pool and summary are written to their streams.
ghost use Rattle.std.specs.Prelude.{◌≡◌, ◌&&◌, false, not, true, Err, IfErr, IfOk, IsTrue, Ok, OnOk};
ghost use Rattle.cfb.specs.Publishing.{medium_in};
ghost use Rattle.cfb.specs.Views.{mini_of};
ghost use Rattle.cfb_fat.specs.Tables.{IsJustifiedBySectors};
ghost use Rattle.cfb_mini.specs.Views.{allocator_of};
ghost use Rattle.cfb_chain_io.specs.ChainEffects.{KeepsFileInvariants};
ghost use Rattle.msi.specs.Changing.{failed_in, IsChangeError, PackageWrites, SummaryFills};
ghost use Rattle.msi.specs.Copying.{GivesMedium};
ghost use Rattle.msi.specs.Opened.{file_in, pool_in, written_in};
ghost use Rattle.msi.specs.Steps.{SavesMemory};
ghost use Rattle.msi_stored.specs.Shown.{bytes_in};

use crate::package::Package;
use cfb_medium::{Error, Medium};
use msi_streams::write_parts;

impl<F: Medium> Package<F> {
    /// Writes pool and summary to their streams, where memory may have them ahead of these, and passes on what the medium keeps back; it
    /// publishes nothing. `Failed` after an earlier fault. Of a package that isn't sound nothing is touched. `InvalidInput` where a text
    /// or a stream would be too long; the other errors are faults, `Full` among them where numbers of entries or sectors are missing for
    /// the summary, which is written first; where they are missing for the pool behind it, the package fails by that. After an error
    /// nothing is changed, or the package has failed. A text that its page lacks is written with `?` in it. Of a package without a
    /// change the bytes stay.
    pub fn flush(&mut self) -> Result<(), Error>
        ensures writes { PackageWrites result self.old self.new }
        ensures not_failed { OnOk result (failed_in self.new ≡ false) }
        ensures still { (pool_in self.old).modified ≡ false → written_in self.old ≡ true
            → IsTrue (F.honest (medium_in (file_in self.old)))
            → bytes_in (file_in self.new) ≡ bytes_in (file_in self.old) }
        ensures full_only_if { SummaryFills result self.old self.new }
        ensures invariants { KeepsFileInvariants (allocator_of (mini_of (file_in self.old)))
            (allocator_of (mini_of (file_in self.new))) }
        ensures cause { IfErr result
            (IsJustifiedBySectors (allocator_of (mini_of (file_in self.old)))
            (allocator_of (mini_of (file_in self.new)))) }
        ensures errors { IfErr result IsChangeError }
    {
        if self.store.file.has_failed() {
            return Err(Error::Failed);
        }
        if !self.is_sound {
            return Ok(());
        }
        if self.is_written() {
            return self.store.file.flush();
        }
        self.write_memory()
    }

    /// The medium, once the package was flushed. Where that is refused, as `flush` is, the medium comes back as it is then.
    pub fn into_inner(mut self) -> Result<F, (F, Error)>
        ensures ok { IfOk result (GivesMedium (Ok tt) self) }
        ensures after_error { IfErr result (λ e. GivesMedium (Err e.1) self e.0) }
        ensures errors { IfErr result (λ e. IsChangeError e.1) }
    {
        match self.flush() {
            Ok(()) => Ok(self.into_medium()),
            Err(error) => Err((self.into_medium(), error)),
        }
    }

    // Whether pool and summary in memory are those of their streams.
    fn is_written(&self) -> bool
        ensures { result ≡ (not (pool_in self.now).modified && written_in self.now) }
    {
        !self.pool.is_modified() && self.is_summary_written
    }

    // Writes both, also where they are in their streams, and flushes the file.
    pub(crate) fn write_memory(&mut self) -> Result<(), Error>
        ensures saves { SavesMemory result self.old self.new }
        ensures full_only_if { SummaryFills result self.old self.new }
        ensures invariants { KeepsFileInvariants (allocator_of (mini_of (file_in self.old)))
            (allocator_of (mini_of (file_in self.new))) }
        ensures cause { IfErr result
            (IsJustifiedBySectors (allocator_of (mini_of (file_in self.old)))
            (allocator_of (mini_of (file_in self.new)))) }
        ensures errors { IfErr result IsChangeError }
    {
        if let Err(error) = write_parts(
            self.alloc,
            &mut self.store.file,
            &self.pool,
            &self.summary,
        ) {
            return Err(error);
        }
        if let Err(error) = self.store.file.flush() {
            self.store.file.fail();
            return Err(error);
        }
        self.pool.mark_unmodified();
        self.is_summary_written = true;
        Ok(())
    }
}
