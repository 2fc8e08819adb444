//! Whether a file may be changed.
ghost use Rattle.std.specs.Prelude.{◌≡◌, ◌⊎◌, false, true, IfErr, OnOk};
ghost use Rattle.cfb.specs.Views.{mini_of, sound_of};
ghost use Rattle.cfb_fat.specs.Tables.{has_failed_here};
ghost use Rattle.cfb_medium.specs.declared.error.Error.TheVariants.{Failed, InvalidData};
ghost use Rattle.cfb_mini.specs.Views.{allocator_of};

use cfb::CompoundFile;
use cfb_medium::{Error, ReadMedium};

/// Refuses to change a file: `Failed` after an earlier fault; then `InvalidData` where the file isn't sound.
pub fn check_changeable<F: ReadMedium>(file: &CompoundFile<F>) -> Result<(), Error>
    ensures open { OnOk result ((has_failed_here (allocator_of (mini_of file.now)) ≡ false)
        × (sound_of file.now ≡ true)) }
    ensures refused_only_if { IfErr result (λ e. ((e ≡ Failed)
        × (has_failed_here (allocator_of (mini_of file.now)) ≡ true)) ⊎ ((e ≡ InvalidData)
        × (has_failed_here (allocator_of (mini_of file.now)) ≡ false)
        × (sound_of file.now ≡ false))) }
{
    if has_failed(file) {
        return Err(Error::Failed);
    }
    if !file.is_sound() {
        return Err(Error::InvalidData);
    }
    Ok(())
}

// Whether every call is refused after a fault: the root is shown only of a file that hasn't failed, or memory is missing.
fn has_failed<F: ReadMedium>(file: &CompoundFile<F>) -> bool
    ensures { result ≡ has_failed_here (allocator_of (mini_of file.now)) }
{
    match file.root_entry() {
        Ok(_) => false,
        Err(Error::Failed) => true,
        Err(_) => false,
    }
}
