//! A package in memory, committed to a device and let go.
ghost use Rattle.cfb.specs.Views.{file_case_table};
ghost use Rattle.cfb_medium.specs.Calls.{IsFaultOrInvalidInputIf};
ghost use Rattle.cfb_medium.specs.declared.error.Error.TheVariants.{AlreadyExists, Device as DeviceError, Failed};
ghost use Rattle.cfb_tree.specs.Names.{CaseTable};
ghost use Rattle.installer.specs.CrashSurvival.{SurvivesCrash};
ghost use Rattle.installer.specs.Refusals.{IsFreshFault};
ghost use Rattle.installer_runs.specs.Copying.{CopiesOn, CopySurvivesCrash, IsUncopied};
ghost use Rattle.installer_runs.specs.Moving.{AreBytesRefused, BytesSurviveCrash, IsMoveRefusal};
ghost use Rattle.msi.specs.Changing.{failed_in};
ghost use Rattle.msi.specs.Committing.{BytesKeepPackage};
ghost use Rattle.msi.specs.Opened.{file_in, sound_in, PackageHasContent};
ghost use Rattle.msi_spec.specs.Package.{PackageContent};
ghost use Rattle.staged.specs.Committed.{HasPublished};
ghost use Rattle.staged.specs.Log.{recovered};
ghost use Rattle.staged.specs.Staged.{device_of, is_failed, staged_bytes, IsStagedHonest};
ghost use Rattle.std.specs.Prelude.{◌≡◌, ◌⊎◌, ◌<◌, ◌≤◌, ◌^◌, [], Some, false, is_ok, length, true, IfErr, IfOk, IsTrue, OnOk};

use cfb_medium::{Error, Medium, MemoryMedium, ReadMedium};
use installer::recovered_medium;
use msi::Package;
use staged::{Device, Staged};
use std::alloc::Global;

/// Recovers, commits a sound package of memory to an empty home file, and gives the device back, as `copy_on` does. The package is let go
/// once its copy is made, before the copy's pages are held for the commit: so memory has three times its bytes, and not four. After `Ok`
/// the home file has bytes that hold the package, sound, where its texts fit their page, and else all of it but its texts; and the log is
/// closed. Whatever is answered, a crash at any moment leaves what one might have left before, or the copy; and where the home file, once
/// recovered, isn't empty, nothing that a recovery gives is changed. `AlreadyExists` where the home file isn't empty, `InvalidData` for a
/// malformed log. A package that isn't sound is never copied, and then nothing that a recovery gives is changed: `InvalidData`, or an
/// earlier refusal; `InvalidInput` where a part of it is too long to be written; `Failed` where the package had failed; else `Memory`,
/// `Full`, or `Device` by a fault of the device.
pub fn move_on<D: Device>(
    alloc: Global,
    source: Package<MemoryMedium>,
    device: D,
) -> (D, Result<(), Error>)
    ensures copied { IsTrue (D.honest device)
        → OnOk result.1 (CopiesOn source D.Device device result.0) }
    ensures survives { IsTrue (D.honest device)
        → CopySurvivesCrash source D.Device device result.0 }
    ensures kept { IsTrue (D.honest device) → (recovered (D.content device) ≡ Some [] → ⊥)
        → SurvivesCrash (file_case_table (file_in source)) D.Device device result.0 [] }
    ensures refused_only_if { IsTrue (D.honest device) → (P : PackageContent)
        → PackageHasContent source P
        → IfErr result.1 (IsMoveRefusal source D.Device device result.0) }
    ensures unsound { sound_in source ≡ false → is_ok result.1 ≡ false }
    ensures left { IsTrue (D.honest device) → sound_in source ≡ false
        → SurvivesCrash (file_case_table (file_in source)) D.Device device result.0 [] }
{
    match copied(alloc, source) {
        Ok(copy) => bytes_on(alloc, &copy, device),
        Err(error) => (device, Err(error)),
    }
}

// The bytes of a copy of a package, which is let go.
fn copied(alloc: Global, source: Package<MemoryMedium>) -> Result<Vec<u8>, Error>
    ensures keeps { IfOk result (λ copy. (P : PackageContent) → PackageHasContent source P
        → IsTrue (sound_in source)
        → BytesKeepPackage (file_case_table (file_in source)) copy.items P) }
    ensures refused_only_if { (P : PackageContent) → PackageHasContent source P
        → IfErr result (IsUncopied source) }
    ensures unsound { sound_in source ≡ false → is_ok result ≡ false }
    ensures cause { IfErr result (λ e. (e ≡ DeviceError → ⊥)
        × (e ≡ Failed → failed_in source ≡ true)) }
{
    let mut source = source;
    let mut copy = MemoryMedium::new(alloc);
    match source.copy_to(&mut copy) {
        Ok(()) => Ok(copy.into_bytes()),
        Err(error) => Err(error),
    }
}

// Recovers, commits bytes to an empty home file, and gives the device back.
fn bytes_on<D: Device>(alloc: Global, bytes: &[u8], device: D) -> (D, Result<(), Error>)
    requires { length bytes.now < 2 ^ 63 }
    ensures published { IsTrue (D.honest device)
        → OnOk result.1 ((recovered (D.content device) ≡ Some [])
        × HasPublished D.Device result.0 bytes.now) }
    ensures survives { IsTrue (D.honest device)
        → BytesSurviveCrash D.Device bytes.now device result.0 }
    ensures kept { IsTrue (D.honest device) → (recovered (D.content device) ≡ Some [] → ⊥)
        → (letters : CaseTable) → SurvivesCrash letters D.Device device result.0 [] }
    ensures refused_only_if { IsTrue (D.honest device)
        → IfErr result.1 (AreBytesRefused D.Device device result.0) }
{
    match recovered_medium(alloc, device) {
        Ok(medium) => bytes_over(bytes, medium),
        Err((device, error)) => (device, Err(error)),
    }
}

// Commits bytes to an empty medium, and gives its device back.
fn bytes_over<D: Device>(bytes: &[u8], medium: Staged<D>) -> (D, Result<(), Error>)
    requires { length bytes.now < 2 ^ 63 }
    ensures published { IsStagedHonest medium → OnOk result.1 ((staged_bytes medium ≡ [])
        × HasPublished D.Device result.0 bytes.now) }
    ensures survives { IsStagedHonest medium
        → BytesSurviveCrash D.Device bytes.now (device_of medium) result.0 }
    ensures kept { IsStagedHonest medium → (staged_bytes medium ≡ [] → ⊥)
        → (letters : CaseTable) → SurvivesCrash letters D.Device (device_of medium) result.0 [] }
    ensures refused_only_if { IsStagedHonest medium → IfErr result.1
        (λ e. ((e ≡ AlreadyExists) × (staged_bytes medium ≡ [] → ⊥))
        ⊎ IsFaultOrInvalidInputIf ⊥ e) }
    ensures cause { is_failed medium ≡ false
        → IfErr result.1 (IsFreshFault D.Device (device_of medium) result.0) }
    ensures counted { D.failures (device_of medium) ≤ D.failures result.0 }
{
    let mut medium = medium;
    match medium.len() {
        Ok(0) => {
            let kept = commit_bytes(bytes, &mut medium);
            (medium.into_device(), kept)
        }
        Ok(_) => (medium.into_device(), Err(Error::AlreadyExists)),
        Err(error) => (medium.into_device(), Err(error)),
    }
}

// Writes bytes to an empty medium, and commits them.
fn commit_bytes<D: Device>(bytes: &[u8], medium: &mut Staged<D>) -> Result<(), Error>
    requires few { length bytes.now < 2 ^ 63 }
    requires empty { IsStagedHonest medium.old → staged_bytes medium.old ≡ [] }
    ensures published { IsStagedHonest medium.old
        → OnOk result (HasPublished D.Device (device_of medium.new) bytes.now) }
    ensures survives { IsStagedHonest medium.old → BytesSurviveCrash D.Device bytes.now
        (device_of medium.old) (device_of medium.new) }
    ensures cause { is_failed medium.old ≡ false → IfErr result
        (IsFreshFault D.Device (device_of medium.old) (device_of medium.new)) }
    ensures errors { IfErr result (IsFaultOrInvalidInputIf ⊥) }
    ensures counted { D.failures (device_of medium.old) ≤ D.failures (device_of medium.new) }
{
    match medium.write_at(0, bytes) {
        Ok(()) => medium.commit(),
        Err(error) => Err(error),
    }
}
