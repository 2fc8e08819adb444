//! Packages that go back to what was committed last.
ghost use Rattle.std.specs.Prelude.{◌≡◌, ◌⊎◌, false, true, IfErr, OnErr, OnOk};
ghost use Rattle.cfb.specs.Publishing.{medium_in};
ghost use Rattle.cfb.specs.RollingBack.{HasLostAll};
ghost use Rattle.cfb.specs.Views.{file_case_table};
ghost use Rattle.cfb_medium.specs.Calls.{Reaches, IsJustifiedSince, IsFaultOrInvalidInputIf};
ghost use Rattle.msi.specs.Opened.{file_in, kind_in, pool_in, sound_in, summary_in, tables_in, OnlyReadsPackage};
ghost use Rattle.msi.specs.RollingBack.{PackageRollsBack, IsNoWayBack};
ghost use Rattle.msi.specs.Steps.{IsPackageOfFile, MediumGivenBack};
ghost use Rattle.msi_parts.specs.Held.{headings_in};
ghost use Rattle.msi_stored.specs.Reading.{IsOpeningError};

use crate::opening::judged_parts;
use crate::package::Package;
use cfb_medium::{Error, Medium};
use cfb_sectors::Validation;
use msi_parts::PackageParts;

impl<F: Medium> Package<F> {
    /// Goes back to the package that was committed last, or else to the one that was opened, also after a fault: what was changed since
    /// is gone, and all is read again from the bytes that were published last, under the same case table. `InvalidInput` where the
    /// medium doesn't survive a crash, `Failed` where it has failed, `Memory` and `Device`; then as `open` refuses those bytes, and
    /// `InvalidData` where they hold a sound package and this one isn't sound, or the other way: so it never is where a commit published
    /// them. After an error all is as it was, or the package has failed, and may be taken back again. Nothing is written, and nothing is
    /// published.
    pub fn roll_back(&mut self) -> Result<(), Error>
        ensures back { OnOk result (PackageRollsBack F.has_published self.old self.new) }
        ensures left { OnErr result (OnlyReadsPackage self.old self.new
            ⊎ HasLostAll F.has_published (file_in self.old) (file_in self.new)) }
        ensures refused_only_if { IfErr result (IsNoWayBack F.has_published self.old
            (F.survives ≡ false)) }
        ensures errors { IfErr result (λ e. IsFaultOrInvalidInputIf (F.survives ≡ false) e
            ⊎ IsOpeningError e) }
        ensures letters { file_case_table (file_in self.new) ≡ file_case_table (file_in self.old) }
        ensures sound { sound_in self.new ≡ sound_in self.old }
        ensures honest { F.honest (medium_in (file_in self.new))
            ≡ F.honest (medium_in (file_in self.old)) }
        ensures continues { Reaches F.continues (medium_in (file_in self.old))
            (medium_in (file_in self.new)) }
        ensures cause { IfErr result (IsJustifiedSince F.continues F.failures F.failed
            (medium_in (file_in self.old)) (medium_in (file_in self.new))) }
    {
        let was_sound = self.is_sound;
        if let Err(error) = self.store.file.roll_back_as(Validation::Permissive) {
            return Err(error);
        }
        if let Err(error) = self.read_again() {
            self.store.file.fail();
            return Err(error);
        }
        if self.is_sound != was_sound {
            self.is_sound = was_sound;
            self.store.file.fail();
            return Err(Error::InvalidData);
        }
        Ok(())
    }

    // Takes the package of its file in place of what it has in memory.
    fn read_again(&mut self) -> Result<(), Error>
        ensures ok { OnOk result (IsPackageOfFile (file_in self.old) self.new) }
        ensures after_error { IfErr result
            (MediumGivenBack (file_in self.old) (medium_in (file_in self.new))) }
        ensures letters { file_case_table (file_in self.new) ≡ file_case_table (file_in self.old) }
        ensures sound { IfErr result (λ e. sound_in self.new ≡ sound_in self.old) }
        ensures errors { IfErr result IsOpeningError }
    {
        match judged_parts(self.alloc, &mut self.store.file) {
            Ok((parts, is_sound)) => {
                self.take_parts(parts, is_sound);
                Ok(())
            }
            Err(error) => Err(error),
        }
    }

    // Takes these parts in place of its own.
    fn take_parts(&mut self, parts: PackageParts, is_sound: bool)
        ensures file { file_in self.new ≡ file_in self.old }
        ensures parts { (kind_in self.new ≡ parts.kind) × (summary_in self.new ≡ parts.summary)
            × (pool_in self.new ≡ parts.pool) × (tables_in self.new ≡ headings_in parts) }
        ensures sound { sound_in self.new ≡ is_sound }
    {
        let PackageParts {
            kind,
            summary,
            pool,
            gives_back: _,
            tables,
        } = parts;
        self.store.tables = tables;
        self.kind = kind;
        self.pool = pool;
        self.summary = summary;
        self.is_summary_written = true;
        self.is_sound = is_sound;
    }
}
