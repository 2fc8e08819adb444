//! The digital signature of a package, which is removed.
ghost use Rattle.std.specs.Prelude.{◌≡◌, ◌∷◌, [], chars, false, Ok, Some};
ghost use Rattle.cfb.specs.Views.{file_case_table, mini_of};
ghost use Rattle.cfb_entries.specs.Rules.{names_in};
ghost use Rattle.cfb_fat.specs.Calls.{FatErrorContract};
ghost use Rattle.cfb_tree_edits.specs.Removing.{IsRemoveObjectError};
ghost use Rattle.cfb_mini.specs.Views.{allocator_of};
ghost use Rattle.cfb_chain_io.specs.ChainEffects.{KeepsFileInvariants};
ghost use Rattle.msi_spec.specs.Streams.{unsigned};
ghost use Rattle.msi_stored.specs.Changing.{ChangesStoredPackage};
ghost use Rattle.msi_streams.specs.Writing.{without, AppliesPackageRule};
ghost use Rattle.msi_texts.specs.StreamName.{is_marked};

use crate::checking::check_changeable;
use crate::names::is_same_name;
use cfb::CompoundFile;
use cfb_medium::{Error, Medium};
use msi_texts::{
    DIGITAL_SIGNATURE_STREAM_NAME, MSI_DIGITAL_SIGNATURE_EX_STREAM_NAME, SUMMARY_INFO_STREAM_NAME,
};

// Removes the stream that has this name in the container, where one is there. A case table under which the name is the summary's
// leaves none to remove.
fn remove_named<F: Medium>(file: &mut CompoundFile<F>, name: &str) -> Result<(), Error>
    requires path { names_in name.now ≡ Some (chars name.now ∷ []) }
    requires unmarked { is_marked (chars name.now) ≡ false }
    ensures changes { ChangesStoredPackage
        (AppliesPackageRule (λ P. Ok (without (file_case_table file.old) (chars name.now) P)))
        result file.old file.new }
    ensures invariants { KeepsFileInvariants (allocator_of (mini_of file.old))
        (allocator_of (mini_of file.new)) }
    ensures error_contract { FatErrorContract IsRemoveObjectError result
        (allocator_of (mini_of file.old))
        (allocator_of (mini_of file.new)) }
{
    if let Err(error) = check_changeable(file) {
        return Err(error);
    }
    if is_same_name(file.letters(), SUMMARY_INFO_STREAM_NAME, name) {
        return Ok(());
    }
    if !file.is_stream(name) {
        return Ok(());
    }
    file.remove_stream(name)
}

/// Removes the two streams of the digital signature, those of them that are there. `Failed` after an earlier fault, `InvalidData`
/// where the file isn't sound. The other errors are `Memory` and `Device`. After an error nothing is changed, or the file has failed:
/// so it has where the first of two streams was removed, and the second wasn't.
pub fn remove_digital_signature<F: Medium>(file: &mut CompoundFile<F>) -> Result<(), Error>
    ensures changes { ChangesStoredPackage
        (AppliesPackageRule (λ P. Ok (unsigned (file_case_table file.old) P)))
        result file.old file.new }
    ensures invariants { KeepsFileInvariants (allocator_of (mini_of file.old))
        (allocator_of (mini_of file.new)) }
    ensures error_contract { FatErrorContract IsRemoveObjectError result
        (allocator_of (mini_of file.old))
        (allocator_of (mini_of file.new)) }
{
    if let Err(error) = remove_named(file, DIGITAL_SIGNATURE_STREAM_NAME) {
        return Err(error);
    }
    if let Err(error) = remove_named(file, MSI_DIGITAL_SIGNATURE_EX_STREAM_NAME) {
        file.fail();
        return Err(error);
    }
    Ok(())
}
