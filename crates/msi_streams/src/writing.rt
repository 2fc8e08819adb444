//! A package's streams that are written and removed.
ghost use Rattle.std.specs.Prelude.{◌≡◌, ◌<◌, ◌⊎◌, ℕ, length, Err, List, Ok};
ghost use Rattle.cfb.specs.Putting.{IsPutStreamError};
ghost use Rattle.cfb.specs.Views.{file_case_table, mini_of};
ghost use Rattle.cfb_fat.specs.Calls.{FatErrorContract};
ghost use Rattle.cfb_tree_edits.specs.Removing.{IsRemoveObjectError};
ghost use Rattle.cfb_mini.specs.Views.{allocator_of};
ghost use Rattle.cfb_chain_io.specs.ChainEffects.{KeepsFileInvariants};
ghost use Rattle.cfb_medium.specs.declared.error.Error.{Error};
ghost use Rattle.cfb_medium.specs.declared.error.Error.TheVariants.{InvalidInput};
ghost use Rattle.cfb_tree.specs.Names.{CaseTable};
ghost use Rattle.msi_spec.specs.Package.{PackageContent};
ghost use Rattle.msi_spec.specs.Streams.{stream_removed, stream_written};
ghost use Rattle.msi_stored.specs.Changing.{ChangesStoredPackage};
ghost use Rattle.msi_stored.specs.Room.{FillsBy};
ghost use Rattle.msi_streams.specs.Writing.{most_bytes, written_within, AppliesPackageRule};

use crate::checking::check_changeable;
use crate::names::encoded_stream_name;
use cfb::CompoundFile;
use cfb_medium::{Error, Medium};

/// Gives the package's stream of this name these bytes in place of its own, or makes it with them. `Failed` after an earlier fault,
/// `InvalidData` where the file isn't sound; then `InvalidInput` where no stream can have the name, `AlreadyExists` where a storage
/// has it in the container, `InvalidInput` where a stream of the file's version has fewer bytes at most. `Full` where numbers of
/// entries or sectors are missing. The other errors are `Memory` and `Device`. After an error nothing is changed, or the file has
/// failed.
pub fn write_stream<F: Medium>(
    file: &mut CompoundFile<F>,
    name: &str,
    bytes: &[u8],
) -> Result<(), Error>
    ensures changes { ChangesStoredPackage
        (AppliesPackageRule
        (written_within (file_case_table file.old) (most_bytes file.old) name.now bytes.now))
        result file.old file.new }
    ensures full_only_if { FillsBy
        (AppliesPackageRule
        (written_within (file_case_table file.old) (most_bytes file.old) name.now bytes.now))
        result file.old file.new }
    ensures invariants { KeepsFileInvariants (allocator_of (mini_of file.old))
        (allocator_of (mini_of file.new)) }
    ensures error_contract { FatErrorContract IsPutStreamError result
        (allocator_of (mini_of file.old))
        (allocator_of (mini_of file.new)) }
{
    if let Err(error) = check_changeable(file) {
        return Err(error);
    }
    let path = match encoded_stream_name(file.letters(), name) {
        Ok(path) => path,
        Err(error) => return Err(error),
    };
    if file.is_storage(path.as_str()) {
        return Err(Error::AlreadyExists);
    }
    if bytes.len() as u64 > file.version().stream_len_mask() {
        return Err(Error::InvalidInput);
    }
    file.put_stream(path.as_str(), bytes)
}

/// Removes the package's stream of this name. `Failed` after an earlier fault, `InvalidData` where the file isn't sound; then
/// `InvalidInput` where no stream can have the name, `NotFound` where no stream has it. The other errors are `Memory` and `Device`.
/// After an error nothing is changed, or the file has failed.
pub fn remove_stream<F: Medium>(file: &mut CompoundFile<F>, name: &str) -> Result<(), Error>
    ensures changes { ChangesStoredPackage
        (AppliesPackageRule (λ P. stream_removed (file_case_table file.old) P name.now)) result
        file.old file.new }
    ensures invariants { KeepsFileInvariants (allocator_of (mini_of file.old))
        (allocator_of (mini_of file.new)) }
    ensures error_contract { FatErrorContract IsRemoveObjectError result
        (allocator_of (mini_of file.old))
        (allocator_of (mini_of file.new)) }
{
    if let Err(error) = check_changeable(file) {
        return Err(error);
    }
    let path = match encoded_stream_name(file.letters(), name) {
        Ok(path) => path,
        Err(error) => return Err(error),
    };
    if !file.is_stream(path.as_str()) {
        return Err(Error::NotFound);
    }
    file.remove_stream(path.as_str())
}

/// What is written within a length is written as the definition says; a refusal is the definition's, or there are more bytes.
pub fn streams_are_written_within()
    ensures done { (letters : CaseTable) (most : ℕ) (name bytes : List ℕ) (P Q : PackageContent)
        → written_within letters most name bytes P ≡ Ok Q
        → stream_written letters P name bytes ≡ Ok Q }
    ensures refused_only_if { (letters : CaseTable) (most : ℕ) (name bytes : List ℕ)
        (P : PackageContent) (e : Error)
        → written_within letters most name bytes P ≡ Err e
        → (stream_written letters P name bytes ≡ Err e)
        ⊎ ((e ≡ InvalidInput) × (most < length bytes)) }
{}
