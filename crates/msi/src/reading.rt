//! Streams of a package's file by their names.
ghost use Rattle.std.specs.Prelude.{◌≡◌, ◌⊎◌, ◌<◌, ◌^◌, true, Err, IfErr, IfOk, IsErrOf};
ghost use Rattle.cfb.specs.Putting.{IsOpenStreamError};
ghost use Rattle.cfb.specs.Streams.{FileHoldsTree, IsFileMemoryOrFailed};
ghost use Rattle.cfb.specs.Views.{file_case_table, mini_of, OnlyReadsFile};
ghost use Rattle.cfb_fat.specs.Tables.{IsJustifiedBySectors};
ghost use Rattle.cfb_medium.specs.Calls.{IsFaultOrInvalidInputIf};
ghost use Rattle.cfb_medium.specs.declared.error.Error.TheVariants.{InvalidData, InvalidInput, NotFound};
ghost use Rattle.cfb_mini.specs.Views.{allocator_of};
ghost use Rattle.cfb_tree.specs.Tree.{Tree};
ghost use Rattle.msi.specs.ReadStreams.{FindsBytes};
ghost use Rattle.msi_spec.specs.Opening.{keeps_encoded_names};
ghost use Rattle.msi_spec.specs.Package.{PackageContent};
ghost use Rattle.msi_spec.specs.Split.{TreeStoresRest};
ghost use Rattle.msi_spec.specs.Streams.{has_stream, is_signed, may_name, stream_read};
ghost use Rattle.msi_stored.specs.Reading.{ReturnsOrFault};

use crate::reader::StreamReader;
use cfb::CompoundFile;
use cfb_medium::{Error, ReadMedium};
use msi_store::stream_bytes;
use msi_streams::{encoded_stream_name, is_same_name};
use msi_texts::{DIGITAL_SIGNATURE_STREAM_NAME, SUMMARY_INFO_STREAM_NAME};

/// Whether there is a stream of this name; none where reading refuses the name. It takes no memory.
pub(crate) fn has_stream<F: ReadMedium>(file: &CompoundFile<F>, name: &str) -> bool
    ensures { (tree : Tree) → FileHoldsTree file.now tree → (P : PackageContent)
        → TreeStoresRest (file_case_table file.now) tree P
        → keeps_encoded_names (file_case_table file.now) ≡ true
        → result ≡ has_stream (file_case_table file.now) P name.now }
{
    match encoded_stream_name(file.letters(), name) {
        Ok(path) => file.is_stream(path.as_str()),
        Err(_) => false,
    }
}

/// The stream of this name, at its first byte. `InvalidInput` where no stream can have the name, `NotFound` where no stream is
/// there. The other errors are faults; of a file that holds no tree also `InvalidData`. The file is only read.
pub(crate) fn read_stream<F: ReadMedium>(
    file: &mut CompoundFile<F>,
    name: &str,
) -> Result<StreamReader, Error>
    ensures answer { (tree : Tree) → FileHoldsTree file.old tree → (P : PackageContent)
        → TreeStoresRest (file_case_table file.old) tree P
        → keeps_encoded_names (file_case_table file.old) ≡ true
        → ReturnsOrFault (λ it. it.bytes)
        (stream_read (file_case_table file.old) P name.now) result }
    ensures at_start { IfOk result (λ it. it.position ≡ 0) }
    ensures refused_only_if { may_name (file_case_table file.old) name.now ≡ Err InvalidInput
        → IsErrOf result InvalidInput }
    ensures only_reads { OnlyReadsFile file.old file.new }
    ensures cause { IfErr result (IsJustifiedBySectors (allocator_of (mini_of file.old))
        (allocator_of (mini_of file.new))) }
    ensures errors { IfErr result (λ e. IsFaultOrInvalidInputIf ⊥ e ⊎ (e ≡ InvalidData)
        ⊎ (e ≡ InvalidInput) ⊎ (e ≡ NotFound)) }
{
    let path = match encoded_stream_name(file.letters(), name) {
        Ok(path) => path,
        Err(error) => return Err(error),
    };
    match stream_bytes(file, path.as_str()) {
        Ok(Some(bytes)) => Ok(StreamReader::new(bytes)),
        Ok(None) => Err(Error::NotFound),
        Err(error) => Err(error),
    }
}

/// How many bytes the stream of this name has, whose sectors the file has found then. `InvalidInput` where no stream can have the name,
/// `NotFound` where no stream is there. The other errors are `Memory`, and `Failed` after an earlier fault; of a file that holds no tree
/// also `InvalidData`. The file is only read.
pub(crate) fn find_stream<F: ReadMedium>(
    file: &mut CompoundFile<F>,
    name: &str,
) -> Result<u64, Error>
    ensures answer { (tree : Tree) → FileHoldsTree file.old tree → (P : PackageContent)
        → TreeStoresRest (file_case_table file.old) tree P
        → keeps_encoded_names (file_case_table file.old) ≡ true
        → FindsBytes (λ len. file.new) (λ len. len)
        (stream_read (file_case_table file.old) P name.now) result }
    ensures small { IfOk result (λ len. len < 2 ^ 63) }
    ensures refused_only_if { may_name (file_case_table file.old) name.now ≡ Err InvalidInput
        → IsErrOf result InvalidInput }
    ensures only_reads { OnlyReadsFile file.old file.new }
    ensures cause { IfErr result (λ e. IsFileMemoryOrFailed file.old e ⊎ IsOpenStreamError e) }
{
    let encoded = match encoded_stream_name(file.letters(), name) {
        Ok(encoded) => encoded,
        Err(error) => return Err(error),
    };
    let path = encoded.as_str();
    if !file.is_stream(path) {
        return Err(Error::NotFound);
    }
    match file.find_stream(path) {
        Ok(len) => Ok(len),
        Err(error) => Err(error),
    }
}

/// Whether there is a digital signature. A case table under which its name is the summary's leaves it none. It takes no memory.
pub(crate) fn has_digital_signature<F: ReadMedium>(file: &CompoundFile<F>) -> bool
    ensures { (tree : Tree) → FileHoldsTree file.now tree → (P : PackageContent)
        → TreeStoresRest (file_case_table file.now) tree P
        → keeps_encoded_names (file_case_table file.now) ≡ true
        → result ≡ is_signed (file_case_table file.now) P }
{
    if is_same_name(
        file.letters(),
        SUMMARY_INFO_STREAM_NAME,
        DIGITAL_SIGNATURE_STREAM_NAME,
    ) {
        return false;
    }
    file.is_stream(DIGITAL_SIGNATURE_STREAM_NAME)
}
