//! A package that gets right counts on its device.
ghost use Rattle.cfb_tree.specs.CaseTableViews.{case_table_of};
ghost use Rattle.cfb_tree.specs.Tree.{Tree};
ghost use Rattle.installer.specs.CrashSurvival.{SurvivesCrash};
ghost use Rattle.installer.specs.Refusals.{IsFreshFault};
ghost use Rattle.installer_runs.specs.Adopting.{AdoptionSurvivesCrash, AdoptsFrom, AdoptsOn, CommitsMedium, HoldsUncounted, IsAdoptionRefusal, IsTooLongToAdopt};
ghost use Rattle.msi_adopting.specs.Adopted.{IsUnadopted};
ghost use Rattle.msi_adopting.specs.InPlace.{BytesHoldUncounted};
ghost use Rattle.msi_recounted.specs.Recounted.{CanBeAdopted};
ghost use Rattle.msi_spec.specs.Opening.{keeps_encoded_names};
ghost use Rattle.msi_spec.specs.Package.{PackageContent};
ghost use Rattle.staged.specs.Staged.{device_of, is_failed, staged_bytes, IsStagedHonest};
ghost use Rattle.std.specs.Prelude.{◌≡◌, ◌≤◌, [], false, true, IfErr, IsTrue, OnOk};

use cfb::CaseMapper;
use cfb_medium::{Error, Medium};
use installer::recovered_medium;
use msi_adopting::adopt_in_place;
use staged::{Device, Staged};
use std::alloc::Global;

/// Recovers, gives the package of the home file right counts where it lies, commits it, and gives the device back. Names are compared under
/// the case table. After `Ok` the home file has bytes that hold the package with right counts, sound, and the log is closed. Whatever is
/// answered, a crash at any moment leaves what one might have left before, or that package; and where it can't be adopted, nothing that a
/// recovery gives is changed. `InvalidData` for a malformed log, and for a package that can't be adopted; the other errors are those of
/// `adopt`, and `Device` by a fault of the device.
pub fn adopt_in_place_on<D: Device>(
    alloc: Global,
    device: D,
    letters: CaseMapper,
) -> (D, Result<(), Error>)
    ensures adopted { IsTrue (D.honest device) → (tree : Tree) (P : PackageContent)
        → HoldsUncounted (case_table_of letters) D.Device device tree P
        → OnOk result.1 (AdoptsOn (case_table_of letters) D.Device tree P result.0) }
    ensures survives { IsTrue (D.honest device) → keeps_encoded_names (case_table_of letters) ≡ true
        → AdoptionSurvivesCrash (case_table_of letters) D.Device device result.0 }
    ensures kept { IsTrue (D.honest device) → (tree : Tree) (P : PackageContent)
        → HoldsUncounted (case_table_of letters) D.Device device tree P
        → (CanBeAdopted (case_table_of letters) tree P → ⊥)
        → SurvivesCrash (case_table_of letters) D.Device device result.0 [] }
    ensures refused_only_if { IsTrue (D.honest device) → (tree : Tree) (P : PackageContent)
        → HoldsUncounted (case_table_of letters) D.Device device tree P → IfErr result.1
        (IsAdoptionRefusal (case_table_of letters) D.Device device result.0 tree P) }
{
    match recovered_medium(alloc, device) {
        Ok(medium) => adopt_over(alloc, medium, letters),
        Err((device, error)) => (device, Err(error)),
    }
}

// The same of a medium that was recovered.
fn adopt_over<D: Device>(
    alloc: Global,
    medium: Staged<D>,
    letters: CaseMapper,
) -> (D, Result<(), Error>)
    ensures adopted { IsStagedHonest medium → (tree : Tree) (P : PackageContent)
        → BytesHoldUncounted (case_table_of letters) (staged_bytes medium) tree P
        → OnOk result.1 (AdoptsOn (case_table_of letters) D.Device tree P result.0) }
    ensures survives { IsStagedHonest medium → keeps_encoded_names (case_table_of letters) ≡ true
        → AdoptsFrom (case_table_of letters) D.Device (staged_bytes medium) (device_of medium)
        result.0 }
    ensures refused_only_if { IsStagedHonest medium → (tree : Tree) (P : PackageContent)
        → BytesHoldUncounted (case_table_of letters) (staged_bytes medium) tree P
        → IfErr result.1 (IsUnadopted (case_table_of letters) tree P (IsTooLongToAdopt P)) }
    ensures cause { is_failed medium ≡ false
        → IfErr result.1 (IsFreshFault D.Device (device_of medium) result.0) }
    ensures counted { D.failures (device_of medium) ≤ D.failures result.0 }
{
    match adopt_in_place(alloc, medium, letters) {
        Ok(medium) => commit_adopted(medium),
        Err((medium, error)) => (medium.into_device(), Err(error)),
    }
}

// Commits, and gives the device back.
fn commit_adopted<D: Device>(medium: Staged<D>) -> (D, Result<(), Error>)
    ensures { CommitsMedium medium result.0 result.1 }
{
    let mut medium = medium;
    let committed = medium.commit();
    (medium.into_device(), committed)
}
