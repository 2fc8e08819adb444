//! Packages that are copied to another medium.
ghost use Rattle.std.specs.Prelude.{◌≡◌, ◌⊎◌, [], IfErr, IsTrue, OnErr};
ghost use Rattle.cfb.specs.Views.{mini_of};
ghost use Rattle.cfb_copying.specs.Chains.{IsCopyError};
ghost use Rattle.cfb_fat.specs.Tables.{IsJustifiedBySectors};
ghost use Rattle.cfb_medium.specs.Calls.{Reaches, IsJustifiedSince};
ghost use Rattle.cfb_mini.specs.Views.{allocator_of};
ghost use Rattle.cfb_chain_io.specs.ChainEffects.{KeepsFileInvariants};
ghost use Rattle.msi.specs.Changing.{IsChangeError};
ghost use Rattle.msi.specs.Copying.{PackageCopies};
ghost use Rattle.msi.specs.Opened.{file_in};

use crate::package::Package;
use cfb_medium::{Error, Medium};

impl<F: Medium> Package<F> {
    /// Flushes the package, and copies its file to an empty medium: a sound file of the same version then holds the same package, sound,
    /// where each text fits its page (`texts_fit`), else all of it but its texts; it has no sector that serves no use. Colours and the root's size are set right in
    /// it, as `CompoundFile::copy_to` says. Of neither medium anything is published. `Failed` after an earlier fault, `InvalidData`
    /// where the package isn't sound, and then nothing is touched. `InvalidInput` where a text or a stream would be too long; the other
    /// errors are faults of either medium, `Full` among them. After an error the target is as it was, and the package too, or it has
    /// failed; where it was only the copy that failed, the package is flushed.
    pub fn copy_to<T: Medium>(&mut self, target: &mut T) -> Result<(), Error>
        requires { IsTrue (T.honest target.old) → T.bytes target.old ≡ [] }
        ensures copies { PackageCopies (IsTrue (T.honest target.old)) (T.bytes target.new) result
            self.old self.new }
        ensures invariants { KeepsFileInvariants (allocator_of (mini_of (file_in self.old)))
            (allocator_of (mini_of (file_in self.new))) }
        ensures unwritten { IsTrue (T.honest target.old)
            → OnErr result (T.bytes target.new ≡ T.bytes target.old) }
        ensures honest { T.honest target.new ≡ T.honest target.old }
        ensures continues { Reaches T.continues target.old target.new }
        ensures cause { IfErr result (λ e. IsJustifiedBySectors
            (allocator_of (mini_of (file_in self.old)))
            (allocator_of (mini_of (file_in self.new))) e ⊎ IsJustifiedSince T.continues T.failures
            T.failed target.old target.new e) }
        ensures errors { IfErr result (λ e. IsChangeError e ⊎ IsCopyError e) }
    {
        if self.store.file.has_failed() {
            return Err(Error::Failed);
        }
        if !self.is_sound {
            return Err(Error::InvalidData);
        }
        if let Err(error) = self.flush() {
            return Err(error);
        }
        self.store.file.copy_to(target)
    }
}
