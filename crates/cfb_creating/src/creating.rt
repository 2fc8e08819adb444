//! The bytes of a new file, and a medium that gets them.
ghost use Rattle.cfb_creating.specs.NewFile.{new_directory, new_fat, new_file, new_header};
ghost use Rattle.cfb_medium.specs.Bytes.{overwritten};
ghost use Rattle.cfb_medium.specs.Calls.{Reaches, IsJustifiedSince, IsFaultOrInvalidInputIf};
ghost use Rattle.cfb_medium.specs.Numbers.{number_bytes};
ghost use Rattle.cfb_medium.specs.declared.error.Error.TheVariants.{Memory};
ghost use Rattle.cfb_sectors.specs.Copies.{copies, unused_entry};
ghost use Rattle.cfb_sectors.specs.HeaderViews.{fields_of};
ghost use Rattle.std.specs.Prelude.{replicate, IfErr, IfOk, IsTrue, OnErr, OnOk, ◌++◌, ◌≡◌};

use cfb_medium::{Error, Medium, Version};
use cfb_sectors::{
    END_OF_CHAIN, FAT_SECTOR, FREE_SECTOR, HEADER_LEN, Header, NUM_DIFAT_ENTRIES_IN_HEADER,
};
use cfb_tree::DirEntry;
use std::alloc::{AllocError, Global};

// The sectors of the FAT and of the directory.
const FAT_AT: u32 = 0;

const DIRECTORY_AT: u32 = 1;

// The bytes of a number of the FAT.
const NUMBER_LEN: usize = 4;

// Its header.
#[tactic(auto, unfolding(crate::specs::NewFile::new_header))]
fn new_header(version: Version) -> Header
    ensures { fields_of result ≡ new_header version }
{
    let mut initial_difat_entries = [FREE_SECTOR; NUM_DIFAT_ENTRIES_IN_HEADER];
    initial_difat_entries[0] = FAT_AT;
    Header {
        version,
        num_dir_sectors: match version {
            Version::V3 => 0,
            Version::V4 => 1,
        },
        num_fat_sectors: 1,
        first_dir_sector: DIRECTORY_AT,
        first_minifat_sector: END_OF_CHAIN,
        num_minifat_sectors: 0,
        first_difat_sector: END_OF_CHAIN,
        num_difat_sectors: 0,
        initial_difat_entries,
    }
}

// Appends zeros.
fn push_zeros(out: &mut Vec<u8>, count: usize) -> Result<(), AllocError>
    ensures { OnOk result (out.new.items ≡ out.old.items ++ replicate count 0) }
{
    for _i in 0..count {
        out.push(0)?;
    }
    Ok(())
}

// Appends a number of the FAT so many times.
fn push_numbers(out: &mut Vec<u8>, number: u32, count: usize) -> Result<(), AllocError>
    ensures { OnOk result (out.new.items ≡ out.old.items ++ number_bytes (replicate count number)) }
{
    for _i in 0..count {
        out.extend_from_slice(&number.to_le_bytes())?;
    }
    Ok(())
}

// Appends the FAT.
#[tactic(auto, unfolding(crate::specs::NewFile::new_fat))]
fn push_fat(out: &mut Vec<u8>, version: Version) -> Result<(), AllocError>
    ensures { OnOk result (out.new.items ≡ out.old.items ++ number_bytes (new_fat version)) }
{
    out.extend_from_slice(&FAT_SECTOR.to_le_bytes())?;
    out.extend_from_slice(&END_OF_CHAIN.to_le_bytes())?;
    push_numbers(out, FREE_SECTOR, version.sector_len() / NUMBER_LEN - 2)
}

// Appends directory entries in no use.
fn push_unused(out: &mut Vec<u8>, count: usize) -> Result<(), Error>
    ensures ok { OnOk result (out.new.items ≡ out.old.items ++ copies count unused_entry) }
    ensures errors { IfErr result (λ e. e ≡ Memory) }
{
    for _i in 0..count {
        DirEntry::unallocated().write_to(out)?;
    }
    Ok(())
}

// Appends the directory.
#[tactic(auto, unfolding(crate::specs::NewFile::new_directory))]
fn push_directory(out: &mut Vec<u8>, version: Version) -> Result<(), Error>
    ensures ok { OnOk result (out.new.items ≡ out.old.items ++ new_directory version) }
    ensures errors { IfErr result (λ e. e ≡ Memory) }
{
    DirEntry::empty_root_entry().write_to(out)?;
    push_unused(out, version.dir_entries_per_sector() - 1)
}

/// The bytes of a new file of this version: its header, its FAT and its directory, a sector each, with a root that holds
/// nothing ([MS-CFB] 2.1 to 2.6). They are 1536 bytes in version 3, and 12288 in version 4. The one error is `Memory`.
#[tactic(auto, unfolding(crate::specs::NewFile::new_file))]
pub fn new_file(alloc: Global, version: Version) -> Result<Vec<u8>, Error>
    ensures bytes { IfOk result (λ it. it.items ≡ new_file version) }
    ensures errors { IfErr result (λ e. e ≡ Memory) }
{
    let mut bytes = Vec::new(alloc);
    new_header(version).write_to(&mut bytes)?;
    push_zeros(&mut bytes, version.sector_len() - HEADER_LEN)?;
    push_fat(&mut bytes, version)?;
    push_directory(&mut bytes, version)?;
    Ok(bytes)
}

/// Writes a new file of this version over what a medium holds; what it holds behind that stays. The errors are `Memory` and
/// `Device`, and `Failed` of a medium that has failed; after one the medium holds what it held. Nothing is published.
pub fn write_new_file<F: Medium>(
    alloc: Global,
    medium: &mut F,
    version: Version,
) -> Result<(), Error>
    ensures written { IsTrue (F.honest medium.old) → OnOk result
        (F.bytes medium.new ≡ overwritten (F.bytes medium.old) 0 (new_file version)) }
    ensures unwritten { IsTrue (F.honest medium.old) → OnErr result
        (F.bytes medium.new ≡ F.bytes medium.old) }
    ensures honest { F.honest medium.new ≡ F.honest medium.old }
    ensures continues { Reaches F.continues medium.old medium.new }
    ensures cause { IfErr result (IsJustifiedSince F.continues F.failures F.failed medium.old
        medium.new) }
    ensures errors { IfErr result (IsFaultOrInvalidInputIf ⊥) }
{
    let bytes = new_file(alloc, version)?;
    medium.write_at(0, &bytes)
}
