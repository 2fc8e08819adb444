//! The header of a compound file.
ghost use Rattle.cfb_medium.specs.declared.error.Error.TheVariants.{InvalidData, Memory, UnexpectedEof};
ghost use Rattle.cfb_medium.specs.declared.version.Version.{Version};
ghost use Rattle.cfb_sectors.specs.Appended.{IsPrefixOf};
ghost use Rattle.cfb_sectors.specs.Header.{header_bytes, FitsHeader, HasFields, IsHeader};
ghost use Rattle.cfb_sectors.specs.Readable.{IsReadable, IsTaken};
ghost use Rattle.std.specs.Prelude.{drop, length, take, IfErr, IfOk, IsOk, IsTrue, List, MatchOption, OnErr, OnOk, ℕ, ◌++◌, ◌<◌, ◌≡◌, ◌≤◌, ◌↔◌, ◌⊎◌};

use crate::Validation;
use crate::consts::{
    BYTE_ORDER_MARK, HEADER_LEN, MAGIC_NUMBER, MINI_SECTOR_SHIFT, MINI_STREAM_CUTOFF,
    MINOR_VERSION, NUM_DIFAT_ENTRIES_IN_HEADER,
};
use crate::numbers::{
    difat_numbers, fit_their_type, push_u16s, push_u32s, push_zeros, u16_at, u32_at,
};
use cfb_medium::{Error, Version};
use std::alloc::{AllocError, Global};

/// What the header of a compound file says beside its constants.
#[derive(Drop)]
pub struct Header {
    pub version: Version,
    /// 0 in version 3.
    pub num_dir_sectors: u32,
    pub num_fat_sectors: u32,
    pub first_dir_sector: u32,
    pub first_minifat_sector: u32,
    pub num_minifat_sectors: u32,
    pub first_difat_sector: u32,
    pub num_difat_sectors: u32,
    pub initial_difat_entries: [u32; NUM_DIFAT_ENTRIES_IN_HEADER],
}

// The version of the header that the bytes begin with, if they begin with one.
fn version_of(bytes: &[u8]) -> Option<Version>
    ensures { MatchOption result ((v : Version) → IsHeader v bytes.now
        → ⊥) (λ v. IsHeader v bytes.now) }
{
    if bytes.len() < HEADER_LEN || !bytes.starts_with(&MAGIC_NUMBER) {
        return None;
    }
    if u16_at(bytes, 28) != BYTE_ORDER_MARK
        || u16_at(bytes, 32) != MINI_SECTOR_SHIFT
        || u32_at(bytes, 56) != MINI_STREAM_CUTOFF
    {
        return None;
    }
    match (u16_at(bytes, 26), u16_at(bytes, 30)) {
        (3, 9) => Some(Version::V3),
        (4, 12) => Some(Version::V4),
        _ => None,
    }
}

// Whether a reader of this kind takes this number of directory sectors.
fn is_taken(validation: Validation, version: Version, num_dir_sectors: u32) -> bool
    ensures { IsTrue result ↔ IsTaken validation version num_dir_sectors }
{
    match (validation, version) {
        (Validation::Strict, Version::V3) => num_dir_sectors == 0,
        _ => true,
    }
}

impl Header {
    ghost use Rattle.cfb_sectors.specs.HeaderViews.{fields_of};

    /// Reads 512 bytes and goes past them: `UnexpectedEof` where there are fewer, and `InvalidData` where they are no
    /// header, or where a strict reader finds a number of directory sectors in version 3. What can't be read is left.
    pub fn read_from(reader: &mut &[u8], validation: Validation) -> Result<Header, Error>
        ensures whole { IsOk result ↔ ((v : Version) × IsReadable validation v reader.old.now) }
        ensures read { IfOk result (λ h. HasFields (fields_of h) reader.old.now) }
        ensures rest { OnOk result (reader.new.now ≡ drop 512 reader.old.now) }
        ensures left { OnErr result (reader.new.now ≡ reader.old.now) }
        ensures errors { IfErr result (λ e. ((e ≡ UnexpectedEof) × (length reader.old.now < 512))
            ⊎ ((e ≡ InvalidData) × (512 ≤ length reader.old.now))) }
    {
        let bytes = *reader;
        if bytes.len() < HEADER_LEN {
            return Err(Error::UnexpectedEof);
        }
        let Some(version) = version_of(bytes) else {
            return Err(Error::InvalidData);
        };
        let num_dir_sectors = u32_at(bytes, 40);
        if !is_taken(validation, version, num_dir_sectors) {
            return Err(Error::InvalidData);
        }
        *reader = &bytes[HEADER_LEN..];
        Ok(Header {
            version,
            num_dir_sectors,
            num_fat_sectors: u32_at(bytes, 44),
            first_dir_sector: u32_at(bytes, 48),
            first_minifat_sector: u32_at(bytes, 60),
            num_minifat_sectors: u32_at(bytes, 64),
            first_difat_sector: u32_at(bytes, 68),
            num_difat_sectors: u32_at(bytes, 72),
            initial_difat_entries: difat_numbers(&bytes[76..HEADER_LEN]),
        })
    }

    /// Appends the 512 bytes. `Memory` where the list can't grow, and then it is as it was.
    pub fn write_to(&self, writer: &mut Vec<u8>) -> Result<(), Error>
        ensures ok { OnOk result (writer.new.items
            ≡ writer.old.items ++ header_bytes (fields_of self.now)) }
        ensures after_error { OnErr result (writer.new.items ≡ writer.old.items) }
        ensures errors { IfErr result (λ e. e ≡ Memory) }
    {
        let len = writer.len();
        if self.append_to(writer).is_err() {
            writer.truncate(len);
            return Err(Error::Memory);
        }
        Ok(())
    }

    // Its numbers fit into its bytes, as their types say.
    fn fits(&self)
        ensures { FitsHeader (fields_of self.now) }
    {
        fit_their_type(&[
            self.num_dir_sectors,
            self.num_fat_sectors,
            self.first_dir_sector,
            self.first_minifat_sector,
            self.num_minifat_sectors,
            self.first_difat_sector,
            self.num_difat_sectors,
        ]);
        fit_their_type(&self.initial_difat_entries);
    }

    // Appends the bytes, or a beginning of them.
    fn append_to(&self, out: &mut Vec<u8>) -> Result<(), AllocError>
        ensures ok { OnOk result (out.new.items ≡ out.old.items
            ++ header_bytes (fields_of self.now)) }
        ensures kept { IsPrefixOf out.old.items out.new.items }
    {
        out.extend_from_slice(&MAGIC_NUMBER)?;
        push_zeros(out, 16)?;
        let form = [
            MINOR_VERSION,
            self.version.number(),
            BYTE_ORDER_MARK,
            self.version.sector_shift(),
            MINI_SECTOR_SHIFT,
        ];
        push_u16s(out, &form)?;
        push_zeros(out, 6)?;
        let transaction = 0;
        let places = [
            self.num_dir_sectors,
            self.num_fat_sectors,
            self.first_dir_sector,
            transaction,
            MINI_STREAM_CUTOFF,
            self.first_minifat_sector,
            self.num_minifat_sectors,
            self.first_difat_sector,
            self.num_difat_sectors,
        ];
        push_u32s(out, &places)?;
        push_u32s(out, &self.initial_difat_entries)
    }
}

ghost use Rattle.cfb_sectors.specs.HeaderViews.{fields_of};

/// A header that is written and read again is as it was, where such a reader takes it; it doesn't take a strange count of
/// directory sectors (`InvalidData`).
pub fn header_again(alloc: Global, header: Header, validation: Validation) -> Result<Header, Error>
    ensures same { IfOk result (λ h. fields_of h ≡ fields_of header) }
    ensures taken { OnOk result (IsTaken validation header.version header.num_dir_sectors) }
    ensures errors { IfErr result (λ e. (e ≡ Memory)
        ⊎ ((e ≡ InvalidData) × (IsTaken validation header.version header.num_dir_sectors → ⊥))) }
{
    header.fits();
    let mut bytes = Vec::new(alloc);
    header.write_to(&mut bytes)?;
    let mut reader = bytes.as_slice();
    Header::read_from(&mut reader, validation)
}
