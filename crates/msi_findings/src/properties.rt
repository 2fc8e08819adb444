//! Properties of the summary whose texts its page doesn't give back.
ghost use Rattle.std.specs.Prelude.{◌≡◌, ◌↔◌, ◌++◌, [], drop, true, IfErr, IfOk, List, Ok, OnOk, ℕ};
ghost use Rattle.cfb.specs.Streams.{FileHoldsTree};
ghost use Rattle.cfb.specs.Views.{file_case_table, mini_of, OnlyReadsFile};
ghost use Rattle.cfb_fat.specs.Tables.{IsJustifiedBySectors};
ghost use Rattle.cfb_medium.specs.declared.error.Error.TheVariants.{Memory};
ghost use Rattle.cfb_mini.specs.Views.{allocator_of};
ghost use Rattle.cfb_tree.specs.Tree.{Tree};
ghost use Rattle.msi_parts.specs.Held.{ArePartsOfTree};
ghost use Rattle.msi_parts.specs.declared.parts.PackageParts.{PackageParts};
ghost use Rattle.msi_props.specs.Props.{property_round_trips, properties_at, property_at, Property};
ghost use Rattle.msi_stored.specs.Reading.{IsOpeningError, ReturnsOrFault};
ghost use Rattle.msi_texts.specs.Results.{ReturnsOrOutOfMemory};
ghost use Rattle.msi_findings.specs.Unkept.{unkept_numbers, unkept_properties, unkept_value, unkept_values};

use crate::giving::gives_back;
use crate::section::{read_section, section_of, text_at_offset};
use cfb::CompoundFile;
use cfb_medium::{Error, ReadMedium};
use msi_props::PropertySet;
use msi_store::stream_bytes;
use msi_texts::{CodePage, SUMMARY_INFO_STREAM_NAME};
use std::alloc::Global;

/// The numbers of the properties of the summary whose texts the summary's code page doesn't give back, rising: decoded and encoded again
/// they have other bytes. `NotFound` where the summary's stream is missing, `InvalidData` or `UnexpectedEof` where it isn't read as a
/// property set; the other errors are faults. The file is only read.
pub fn unkept_properties<F: ReadMedium>(
    alloc: Global,
    file: &mut CompoundFile<F>,
) -> Result<Vec<u32>, Error>
    ensures answer { (tree : Tree) → FileHoldsTree file.old tree
        → ReturnsOrFault (λ found. found.items)
        (unkept_properties (file_case_table file.old) tree) result }
    ensures none { (tree : Tree) (parts : PackageParts) → FileHoldsTree file.old tree
        → ArePartsOfTree (file_case_table file.old) tree parts
        → IfOk result (λ found. (found.items ≡ []) ↔ (parts.summary.whole ≡ true)) }
    ensures only_reads { OnlyReadsFile file.old file.new }
    ensures cause { IfErr result (IsJustifiedBySectors (allocator_of (mini_of file.old))
        (allocator_of (mini_of file.new))) }
    ensures errors { IfErr result IsOpeningError }
{
    match stream_bytes(file, SUMMARY_INFO_STREAM_NAME) {
        Ok(Some(bytes)) => unkept_values(alloc, &bytes),
        Ok(None) => Err(Error::NotFound),
        Err(error) => Err(error),
    }
}

// The numbers of the values of a set that its page doesn't give back, or why there is no set.
fn unkept_values(alloc: Global, bytes: &[u8]) -> Result<Vec<u32>, Error>
    ensures { ReturnsOrOutOfMemory (λ found. found.items) result (unkept_values bytes.now) }
{
    let set = PropertySet::read(alloc, bytes)?;
    let section = section_of(bytes);
    let pairs = read_section(alloc, section)?;
    unkept_among(alloc, set.codepage(), section, &pairs)
}

// The numbers of those at these offsets of a section, which can be read. The one error is `Memory`.
fn unkept_among(
    alloc: Global,
    codepage: CodePage,
    section: &[u8],
    pairs: &[(u32, u32)],
) -> Result<Vec<u32>, Error>
    ensures ok { (version : ℕ) (values : List (ℕ × Property))
        → properties_at version section.now pairs.now ≡ Ok values
        → IfOk result (λ found. found.items ≡ unkept_numbers codepage values) }
    ensures errors { IfErr result (λ e. e ≡ Memory) }
{
    let mut found = Vec::new(alloc);
    for pair in pairs {
        note(alloc, codepage, section, *pair, &mut found)?;
    }
    Ok(found)
}

// Adds the number of a value at an offset that isn't given back. The one error is `Memory`.
fn note(
    alloc: Global,
    codepage: CodePage,
    section: &[u8],
    pair: (u32, u32),
    found: &mut Vec<u32>,
) -> Result<(), Error>
    ensures ok { (v : Property) → property_at (drop pair.1 section.now) ≡ Ok v
        → OnOk result (found.new.items ≡ found.old.items ++ unkept_value codepage pair.0 v) }
    ensures errors { IfErr result (λ e. e ≡ Memory) }
{
    let (number, offset) = pair;
    if is_kept(alloc, codepage, section, offset)? {
        return Ok(());
    }
    found.push(number)?;
    Ok(())
}

// Whether the value at an offset of a section, which can be read, is given back. The one error is `Memory`.
fn is_kept(alloc: Global, codepage: CodePage, section: &[u8], offset: u32) -> Result<bool, Error>
    ensures ok { (v : Property) → property_at (drop offset section.now) ≡ Ok v
        → IfOk result (λ is. is ≡ property_round_trips codepage v) }
    ensures errors { IfErr result (λ e. e ≡ Memory) }
{
    match text_at_offset(section, offset) {
        Some(text) => gives_back(alloc, codepage, text),
        None => Ok(true),
    }
}
