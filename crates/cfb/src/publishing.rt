//! Files that are flushed and committed.
ghost use Rattle.cfb_fat.specs.Tables.{has_failed_here, is_honest, sectors_of, IsJustifiedBySectors};
ghost use Rattle.cfb_medium.specs.Calls.{IsCutOff, IsFaultOrInvalidInputIf};
ghost use Rattle.cfb_medium.specs.declared.error.Error.TheVariants.{Failed};
ghost use Rattle.cfb_mini.specs.Views.{allocator_of, MiniKeepsMemory};
ghost use Rattle.cfb_sectors.specs.Held.{CrashLeavesOldOrBytes};
ghost use Rattle.std.specs.Prelude.{false, true, IfErr, IsErrOf, IsOk, IsTrue, OnErr, OnOk, ◌≡◌, ◌≤◌};

use crate::CompoundFile;
use cfb_medium::{Error, Medium};

impl<F: Medium> CompoundFile<F> {
    ghost use Rattle.cfb.specs.Publishing.{medium_in, IsUntouched, Publishes};
    ghost use Rattle.cfb.specs.Views.{file_case_table, mini_of, most_ahead_of, sound_of, validation_of, IsLive, OnlyReadsFile};

    /// Passes on what the medium keeps back, and publishes nothing: the file is as it was, also after an error. `Failed` after an
    /// earlier fault, before all else; the other errors are `Memory` and `Device`. Of a file that isn't sound nothing is passed on.
    pub fn flush(&mut self) -> Result<(), Error>
        ensures only_reads { OnlyReadsFile self.old self.new }
        ensures when_failed { has_failed_here (allocator_of (mini_of self.old)) ≡ true
            → IsErrOf result Failed }
        ensures unsound { IsLive self.old → sound_of self.old ≡ false
            → IsOk result × IsUntouched self.old self.new }
        ensures cause { IfErr result (IsJustifiedBySectors (allocator_of (mini_of self.old))
            (allocator_of (mini_of self.new))) }
        ensures errors { IfErr result (IsFaultOrInvalidInputIf ⊥) }
    {
        if self.is_failed() {
            return Err(Error::Failed);
        }
        if self.is_sound {
            return self.mini.flush();
        }
        Ok(())
    }

    /// Publishes the bytes, by a commit of the medium: after `Ok` a crash leaves these alone, and the file means what it meant. A
    /// crash during the call, or after an error, leaves what one might have left before it, or the bytes. `Failed` after an
    /// earlier fault, before all else, and then nothing is done; the other errors are `Memory` and `Device`, and after them it
    /// has failed. No other call of a file adds to what a crash may leave. A file that isn't sound publishes nothing.
    pub fn commit(&mut self) -> Result<(), Error>
        ensures publishes { OnOk result (sound_of self.old ≡ true
            → Publishes F.has_published self.old self.new) }
        ensures unsound { IsLive self.old → sound_of self.old ≡ false
            → IsOk result × IsUntouched self.old self.new }
        ensures crash { IsTrue (is_honest (allocator_of (mini_of self.old)))
            → CrashLeavesOldOrBytes (sectors_of (allocator_of (mini_of self.old)))
            (sectors_of (allocator_of (mini_of self.new))) }
        ensures memory { MiniKeepsMemory (mini_of self.old) (mini_of self.new) }
        ensures seen { (file_case_table self.new ≡ file_case_table self.old)
            × (sound_of self.new ≡ sound_of self.old)
            × (validation_of self.new ≡ validation_of self.old)
            × (most_ahead_of self.new ≡ most_ahead_of self.old) }
        ensures after_error { OnErr result
            (has_failed_here (allocator_of (mini_of self.new)) ≡ true) }
        ensures when_failed { has_failed_here (allocator_of (mini_of self.old)) ≡ true
            → IsErrOf result Failed × OnlyReadsFile self.old self.new }
        ensures cause { IfErr result (IsJustifiedBySectors (allocator_of (mini_of self.old))
            (allocator_of (mini_of self.new))) }
        ensures medium { (F.failures (medium_in self.old) ≤ F.failures (medium_in self.new))
            × OnOk result (F.failed (medium_in self.new) ≡ F.failed (medium_in self.old)) }
        ensures cut { IfErr result (IsCutOff F.failed F.continues (medium_in self.old)
            (medium_in self.new)) }
        ensures errors { IfErr result (IsFaultOrInvalidInputIf ⊥) }
    {
        if self.is_failed() {
            return Err(Error::Failed);
        }
        if !self.is_sound {
            return Ok(());
        }
        self.stream_id = None;
        self.mini.commit()
    }
}
