//! A copy of a package, committed to a device.
ghost use Rattle.cfb.specs.Views.{file_case_table, mini_of};
ghost use Rattle.cfb_fat.specs.Tables.{IsJustifiedBySectors};
ghost use Rattle.cfb_medium.specs.declared.error.Error.TheVariants.{AlreadyExists};
ghost use Rattle.cfb_mini.specs.Views.{allocator_of};
ghost use Rattle.installer.specs.Refusals.{IsFreshFault};
ghost use Rattle.installer.specs.CrashSurvival.{SurvivesCrash};
ghost use Rattle.installer_runs.specs.Copying.{CopiesOn, IsPackageCopied, IsCopyRefusal, IsUncopied, CopySurvivesCrash};
ghost use Rattle.msi.specs.Opened.{file_in, sound_in, PackageHasContent};
ghost use Rattle.msi_spec.specs.Package.{PackageContent};
ghost use Rattle.staged.specs.Log.{recovered};
ghost use Rattle.staged.specs.Staged.{device_of, is_failed, staged_bytes, IsStagedHonest};
ghost use Rattle.std.specs.Prelude.{◌≡◌, ◌⊎◌, ◌≤◌, List, [], Some, false, is_ok, IfErr, IsTrue, OnOk};

use cfb_medium::{Error, Medium, ReadMedium};
use installer::recovered_medium;
use msi::Package;
use staged::{Device, Staged};
use std::alloc::Global;

/// Recovers, commits a copy of a sound package to an empty home file, and gives the device back. After `Ok` the home file has bytes that
/// hold the package, sound, where its texts fit their page, and else all of it but its texts; and the log is closed. Whatever is answered, a crash at any moment leaves what
/// one might have left before, or the copy; and where the home file, once recovered, isn't empty, nothing that a recovery gives is
/// changed. `AlreadyExists` where the home file isn't empty, `InvalidData` for a malformed log. A package that isn't sound is
/// never copied, and then nothing that a recovery gives is changed: `InvalidData`, or an earlier refusal;
/// `InvalidInput` where a part of it is too long to be written; else `Memory`, `Full`, or `Device` and `Failed` by a fault of one of the
/// two devices.
pub fn copy_on<D: Device, F: Medium>(
    alloc: Global,
    source: &mut Package<F>,
    device: D,
) -> (D, Result<(), Error>)
    ensures copied { IsTrue (D.honest device)
        → OnOk result.1 (CopiesOn source.old D.Device device result.0) }
    ensures survives { IsTrue (D.honest device)
        → CopySurvivesCrash source.old D.Device device result.0 }
    ensures kept { IsTrue (D.honest device) → (recovered (D.content device) ≡ Some [] → ⊥)
        → SurvivesCrash (file_case_table (file_in source.old)) D.Device device result.0 [] }
    ensures refused_only_if { IsTrue (D.honest device) → (P : PackageContent)
        → PackageHasContent source.old P
        → IfErr result.1 (IsCopyRefusal source.old source.new D.Device device result.0) }
    ensures unsound { sound_in source.old ≡ false → is_ok result.1 ≡ false }
    ensures left { IsTrue (D.honest device) → sound_in source.old ≡ false
        → SurvivesCrash (file_case_table (file_in source.old)) D.Device device result.0 [] }
{
    match recovered_medium(alloc, device) {
        Ok(medium) => copy_over(source, medium),
        Err((device, error)) => (device, Err(error)),
    }
}

// Commits a copy to an empty medium, and gives its device back.
fn copy_over<D: Device, F: Medium>(
    source: &mut Package<F>,
    medium: Staged<D>,
) -> (D, Result<(), Error>)
    ensures copied { IsStagedHonest medium → OnOk result.1 ((staged_bytes medium ≡ [])
        × IsPackageCopied source.old D.Device result.0) }
    ensures survives { IsStagedHonest medium
        → CopySurvivesCrash source.old D.Device (device_of medium) result.0 }
    ensures kept { IsStagedHonest medium → (staged_bytes medium ≡ [] → ⊥)
        → SurvivesCrash (file_case_table (file_in source.old)) D.Device
        (device_of medium) result.0 [] }
    ensures refused_only_if { IsStagedHonest medium → (P : PackageContent)
        → PackageHasContent source.old P → IfErr result.1
        (λ e. ((e ≡ AlreadyExists) × (staged_bytes medium ≡ [] → ⊥)) ⊎ IsUncopied source.old e) }
    ensures cause { is_failed medium ≡ false
        → IfErr result.1 (λ e. IsJustifiedBySectors (allocator_of (mini_of (file_in source.old)))
        (allocator_of (mini_of (file_in source.new))) e
        ⊎ IsFreshFault D.Device (device_of medium) result.0 e) }
    ensures counted { D.failures (device_of medium) ≤ D.failures result.0 }
    ensures unsound { sound_in source.old ≡ false → is_ok result.1 ≡ false }
    ensures left { IsStagedHonest medium → sound_in source.old ≡ false
        → SurvivesCrash (file_case_table (file_in source.old)) D.Device
        (device_of medium) result.0 [] }
{
    let mut medium = medium;
    match medium.len() {
        Ok(0) => {
            let copied = commit_copy(source, &mut medium);
            (medium.into_device(), copied)
        }
        Ok(_) => (medium.into_device(), Err(Error::AlreadyExists)),
        Err(error) => (medium.into_device(), Err(error)),
    }
}

// Writes a copy to an empty medium, and commits it.
fn commit_copy<D: Device, F: Medium>(
    source: &mut Package<F>,
    medium: &mut Staged<D>,
) -> Result<(), Error>
    requires { IsStagedHonest medium.old → staged_bytes medium.old ≡ [] }
    ensures copied { IsStagedHonest medium.old
        → OnOk result (IsPackageCopied source.old D.Device (device_of medium.new)) }
    ensures survives { IsStagedHonest medium.old
        → CopySurvivesCrash source.old D.Device (device_of medium.old) (device_of medium.new) }
    ensures refused_only_if { (P : PackageContent) → PackageHasContent source.old P
        → IfErr result (IsUncopied source.old) }
    ensures cause { is_failed medium.old ≡ false
        → IfErr result (λ e. IsJustifiedBySectors (allocator_of (mini_of (file_in source.old)))
        (allocator_of (mini_of (file_in source.new))) e
        ⊎ IsFreshFault D.Device (device_of medium.old) (device_of medium.new) e) }
    ensures counted { D.failures (device_of medium.old) ≤ D.failures (device_of medium.new) }
    ensures unsound { sound_in source.old ≡ false → is_ok result ≡ false }
    ensures left { IsStagedHonest medium.old → sound_in source.old ≡ false
        → SurvivesCrash (file_case_table (file_in source.old)) D.Device
        (device_of medium.old) (device_of medium.new) [] }
{
    match source.copy_to(medium) {
        Ok(()) => medium.commit(),
        Err(error) => Err(error),
    }
}
