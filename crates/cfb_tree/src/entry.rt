//! Directory entries.
ghost use Rattle.cfb_medium.specs.Numbers.{number_bytes, u64_at};
ghost use Rattle.cfb_medium.specs.Times.{units_of};
ghost use Rattle.cfb_medium.specs.declared.error.Error.TheVariants.{InvalidData, Memory, UnexpectedEof};
ghost use Rattle.cfb_sectors.specs.Appended.{IsPrefixOf};
ghost use Rattle.cfb_sectors.specs.Copies.{unused_entry};
ghost use Rattle.cfb_tree.specs.Directory.{clsid_of, entry_bytes, entry_of, name_units_of, size_of, FitsEntry, HasName};
ghost use Rattle.cfb_tree.specs.Entries.{empty_entry, empty_root, name_field, new_entry, IsTakenBelow, IsTakenRoot};
ghost use Rattle.cfb_medium.specs.Versions.{stream_len_mask};
ghost use Rattle.cfb_tree.specs.declared.kinds.Color.{Color as Hue};
ghost use Rattle.cfb_tree.specs.declared.kinds.ObjType.{ObjType as Kind};
ghost use Rattle.cfb_tree.specs.Names.{is_name, name_units};
ghost use Rattle.std.specs.Char.Utf16.{utf16_chars};
ghost use Rattle.std.specs.Int.{to_le_bytes, w16, w32, w64};
ghost use Rattle.std.specs.List.{flat_map, AllByRecursion};
ghost use Rattle.std.specs.Prelude.{chars, drop, length, map, string_bytes, take, IfErr, IfOk, IsOk, IsTrue, List, MatchOption, OnErr, OnOk, Some, ℕ, ◌+◌, ◌++◌, ◌<◌, ◌≡◌, ◌≢◌, ◌≤◌, ◌↔◌, ◌∷◌, ◌^◌, ◌⊎◌};

use crate::kinds::{Color, ObjType};
use cfb_medium::{Error, Timestamp, Version};
use cfb_sectors::{
    COLOR_BLACK, COLOR_RED, DIR_ENTRY_LEN, END_OF_CHAIN, NO_STREAM, OBJ_TYPE_ROOT,
    OBJ_TYPE_STORAGE, OBJ_TYPE_STREAM, ROOT_DIR_NAME, Validation, u16_at, u32_at, u64_at,
};
use std::alloc::{AllocError, Global};
use uuid::Uuid;

// The UTF-16 units of a name's field.
const NAME_UNITS: usize = 32;

/// A directory entry ([MS-CFB] 2.6.1). It keeps name, kind and colour as they stand in its bytes, since an entry that is not
/// in the tree may hold anything.
#[derive(Clone, Copy)]
pub struct DirEntry {
    name_units: [u16; NAME_UNITS],
    name_len: u16,
    kind: u8,
    color: u8,
    pub left_sibling: u32,
    pub right_sibling: u32,
    pub child: u32,
    pub clsid: Uuid,
    pub state_bits: u32,
    pub creation_time: Timestamp,
    pub modified_time: Timestamp,
    pub start_sector: u32,
    /// A stream's bytes; the root's are those of the mini stream.
    pub stream_len: u64,
}

// The units of a name's field, and how many are the name's.
fn field_of(name: &str) -> ([u16; NAME_UNITS], usize)
    requires { length (name_units (chars name.now)) ≤ 31 }
    ensures field { result.0 ≡ name_field (chars name.now) }
    ensures len { result.1 ≡ length (name_units (chars name.now)) }
{
    let mut field = [0; NAME_UNITS];
    let mut len = 0;
    for ch in name.chars() {
        let mut buffer = [0; 2];
        let units = ch.encode_utf16(&mut buffer);
        field[len..len + units.len()].copy_from_slice(units);
        len += units.len();
    }
    (field, len)
}

// The units of the name's field of an entry's bytes.
fn name_units_in(bytes: &[u8]) -> [u16; NAME_UNITS]
    requires { length bytes.now ≡ 128 }
    ensures { result ≡ name_units_of bytes.now }
{
    let mut found = [0; NAME_UNITS];
    for i in 0..NAME_UNITS {
        found[i] = u16_at(bytes, 2 * i);
    }
    found
}

// A stream's size; in version 3 the upper half is ignored.
fn size_in(version: Version, bytes: &[u8]) -> u64
    requires { length bytes.now ≡ 128 }
    ensures { result ≡ size_of version bytes.now }
{
    match version {
        Version::V3 => u64::from(u32_at(bytes, 120)),
        Version::V4 => u64_at(bytes, 120),
    }
}

// A class identifier's bytes, of which the first three fields have their lowest byte first.
fn clsid_in(bytes: &[u8]) -> Uuid
    requires { length bytes.now ≡ 16 }
    ensures { result ≡ clsid_of bytes.now }
{
    Uuid::from_bytes_le([
        bytes[0], bytes[1], bytes[2], bytes[3], bytes[4], bytes[5], bytes[6], bytes[7], bytes[8],
        bytes[9], bytes[10], bytes[11], bytes[12], bytes[13], bytes[14], bytes[15],
    ])
}

// The moment in the eight bytes from this place on.
fn time_at(bytes: &[u8], place: usize) -> Timestamp
    requires { place + 8 ≤ length bytes.now }
    ensures { units_of result ≡ u64_at bytes.now place }
{
    let mut reader = &bytes[place..];
    match Timestamp::read_from(&mut reader) {
        Ok(moment) => moment,
        Err(_) => unreachable!(),
    }
}

// Appends numbers of two bytes.
fn push_u16s(out: &mut Vec<u8>, numbers: &[u16]) -> Result<(), AllocError>
    ensures ok { OnOk result (out.new.items
        ≡ out.old.items ++ flat_map (to_le_bytes w16) numbers.now) }
    ensures kept { IsPrefixOf out.old.items out.new.items }
{
    for number in numbers {
        out.extend_from_slice(&number.to_le_bytes())?;
    }
    Ok(())
}

// Appends numbers of four bytes.
fn push_u32s(out: &mut Vec<u8>, numbers: &[u32]) -> Result<(), AllocError>
    ensures ok { OnOk result (out.new.items ≡ out.old.items ++ number_bytes numbers.now) }
    ensures kept { IsPrefixOf out.old.items out.new.items }
{
    for number in numbers {
        out.extend_from_slice(&number.to_le_bytes())?;
    }
    Ok(())
}

// Numbers are below the powers that their types say, which a proof can't know of those that nobody reads.
fn fit_two_bytes(numbers: &[u16])
    ensures { AllByRecursion (λ n. n < 2 ^ 16) numbers.now }
{
    let _numbers = numbers;
}

// The same of fields.
fn fit_fields(name_len: u16, kind: u8, color: u8, state_bits: u32, start: u32)
    ensures { (name_len < 2 ^ 16) × (kind < 2 ^ 8) × (color < 2 ^ 8) × (state_bits < 2 ^ 32)
        × (start < 2 ^ 32) }
{}

// The same of numbers of entries.
fn fit_links(left: u32, right: u32, child: u32)
    ensures { (left < 2 ^ 32) × (right < 2 ^ 32) × (child < 2 ^ 32) }
{}

// The same of a moment.
fn fit_time(moment: Timestamp)
    ensures { units_of moment < 2 ^ 64 }
{
    let _moment = moment;
}

impl DirEntry {
    ghost use Rattle.cfb_tree.specs.EntryViews.{color_of, entry_in, kind_of};

    /// An entry of this name and kind: black, without siblings and child, with no bytes. A storage has the moment as both
    /// times and begins nowhere; any other has no times. It takes no memory.
    pub fn new(name: &str, obj_type: ObjType, moment: Timestamp) -> DirEntry
        requires { IsTrue (is_name (chars name.now)) }
        ensures { entry_in result
            ≡ new_entry (chars name.now) (kind_of obj_type) (units_of moment) }
    {
        let (name_units, len) = field_of(name);
        let is_storage = obj_type == ObjType::Storage;
        let time = if is_storage {
            moment
        } else {
            Timestamp::zero()
        };
        DirEntry {
            name_units,
            name_len: 2 * len as u16 + 2,
            kind: obj_type.as_byte(),
            color: Color::Black.as_byte(),
            left_sibling: NO_STREAM,
            right_sibling: NO_STREAM,
            child: NO_STREAM,
            clsid: Uuid::nil(),
            state_bits: 0,
            creation_time: time,
            modified_time: time,
            start_sector: if is_storage { 0 } else { END_OF_CHAIN },
            stream_len: 0,
        }
    }

    /// An entry that is not in use: zeros, but no siblings and no child.
    pub fn unallocated() -> DirEntry
        ensures value { entry_in result ≡ empty_entry }
        ensures bytes { entry_bytes (entry_in result) ≡ unused_entry }
    {
        let none = NO_STREAM;
        DirEntry {
            name_units: [0; NAME_UNITS],
            name_len: 0,
            kind: ObjType::Unallocated.as_byte(),
            color: Color::Red.as_byte(),
            left_sibling: none,
            right_sibling: none,
            child: none,
            clsid: Uuid::nil(),
            state_bits: 0,
            creation_time: Timestamp::zero(),
            modified_time: Timestamp::zero(),
            start_sector: 0,
            stream_len: 0,
        }
    }

    /// The root entry of an empty tree.
    pub fn empty_root_entry() -> DirEntry
        ensures { entry_in result ≡ empty_root }
    {
        DirEntry::new(ROOT_DIR_NAME, ObjType::Root, Timestamp::zero())
    }

    /// Reads 128 bytes and goes past them; in version 3 the upper half of the size is ignored. Any bytes are an entry, since
    /// one that is not in the tree may hold anything. `UnexpectedEof` where there are fewer, which are left.
    pub fn read_from(reader: &mut &[u8], version: Version) -> Result<DirEntry, Error>
        ensures whole { IsOk result ↔ (128 ≤ length reader.old.now) }
        ensures read { IfOk result (λ e. entry_in e ≡ entry_of version (take 128 reader.old.now)) }
        ensures rest { OnOk result (reader.new.now ≡ drop 128 reader.old.now) }
        ensures left { OnErr result (reader.new.now ≡ reader.old.now) }
        ensures errors { IfErr result (λ e. e ≡ UnexpectedEof) }
    {
        let bytes = *reader;
        if bytes.len() < DIR_ENTRY_LEN {
            return Err(Error::UnexpectedEof);
        }
        *reader = &bytes[DIR_ENTRY_LEN..];
        Ok(DirEntry::from_bytes(version, &bytes[..DIR_ENTRY_LEN]))
    }

    // The entry in 128 bytes.
    #[tactic(auto, unfolding(crate::specs::Directory::entry_of))]
    fn from_bytes(version: Version, bytes: &[u8]) -> DirEntry
        requires { length bytes.now ≡ 128 }
        ensures { entry_in result ≡ entry_of version bytes.now }
    {
        DirEntry {
            name_units: name_units_in(bytes),
            name_len: u16_at(bytes, 64),
            kind: bytes[66],
            color: bytes[67],
            left_sibling: u32_at(bytes, 68),
            right_sibling: u32_at(bytes, 72),
            child: u32_at(bytes, 76),
            clsid: clsid_in(&bytes[80..96]),
            state_bits: u32_at(bytes, 96),
            creation_time: time_at(bytes, 100),
            modified_time: time_at(bytes, 108),
            start_sector: u32_at(bytes, 116),
            stream_len: size_in(version, bytes),
        }
    }

    /// What the entry is, where its byte has a kind.
    pub fn obj_type(&self) -> Option<ObjType>
        ensures { MatchOption result ((k : Kind)
            → (entry_in self.now).kind ≢ kind_of k) (λ k. (entry_in self.now).kind ≡ kind_of k) }
    {
        ObjType::from_byte(self.kind)
    }

    /// Its colour, where its byte has one.
    pub fn color(&self) -> Option<Color>
        ensures { MatchOption result ((k : Hue)
            → (entry_in self.now).color ≢ color_of k)
            (λ k. (entry_in self.now).color ≡ color_of k) }
    {
        Color::from_byte(self.color)
    }

    /// Gives it this colour; all else stays.
    pub fn set_color(&mut self, color: Color)
        ensures { entry_in self.new ≡ record (entry_in self.old) { color = color_of color } }
    {
        self.color = color.as_byte();
    }

    /// Its name. `InvalidData` where it has none: its length in bytes is odd or above 64, or the units are no UTF-16. The one
    /// other error is `Memory`.
    pub fn name(&self, alloc: Global) -> Result<String, Error>
        ensures named { IfOk result (λ name. HasName (entry_in self.now)
            (chars (string_bytes name))) }
        ensures errors { IfErr result (λ e. (e ≡ Memory)
            ⊎ ((e ≡ InvalidData) × ((name : List ℕ) → HasName (entry_in self.now) name → ⊥))) }
    {
        if self.name_len % 2 != 0 {
            return Err(Error::InvalidData);
        }
        if self.name_len > 64 {
            return Err(Error::InvalidData);
        }
        let units = (self.name_len as usize / 2).saturating_sub(1);
        match String::from_utf16(alloc, &self.name_units[..units])? {
            Ok(name) => Ok(name),
            Err(_) => Err(Error::InvalidData),
        }
    }

    // The units of its name, where its length is one that names have.
    pub(crate) fn units(&self) -> Option<&[u16]>
        ensures { MatchOption result ((name : List ℕ) → HasName (entry_in self.now) name → ⊥)
            (λ units. (length units.now ≤ 31) × ((name : List ℕ)
            → HasName (entry_in self.now) name ↔ (utf16_chars units.now ≡ map Some name))) }
    {
        if self.name_len % 2 == 1 {
            return None;
        }
        if 64 < self.name_len {
            return None;
        }
        Some(&self.name_units[..(self.name_len as usize / 2).saturating_sub(1)])
    }

    /// Whether a reader takes it as the root, besides its name: by its kind, and a strict reader by its colour.
    pub fn is_taken_as_root(&self, validation: Validation) -> bool
        ensures { IsTrue result ↔ IsTakenRoot validation (entry_in self.now) }
    {
        match validation {
            Validation::Permissive => self.kind == OBJ_TYPE_ROOT,
            Validation::Strict => self.kind == OBJ_TYPE_ROOT && self.color == COLOR_BLACK,
        }
    }

    /// Whether a reader takes it below the root, besides its name: by its kind, and a strict reader by its colour.
    pub fn is_taken_below(&self, validation: Validation) -> bool
        ensures { IsTrue result ↔ IsTakenBelow validation (entry_in self.now) }
    {
        let has_kind = matches!(self.kind, OBJ_TYPE_STORAGE | OBJ_TYPE_STREAM);
        match validation {
            Validation::Permissive => has_kind,
            Validation::Strict => has_kind && matches!(self.color, COLOR_RED | COLOR_BLACK),
        }
    }

    /// Its numbers fit into its bytes, as their types say, where its size fits the version. It does nothing: a law.
    pub fn fits(&self, version: Version)
        requires { self.now.stream_len ≤ stream_len_mask version }
        ensures { FitsEntry version (entry_in self.now) }
    {
        fit_two_bytes(&self.name_units);
        fit_fields(
            self.name_len,
            self.kind,
            self.color,
            self.state_bits,
            self.start_sector,
        );
        fit_links(self.left_sibling, self.right_sibling, self.child);
        fit_time(self.creation_time);
        fit_time(self.modified_time);
        let _clsid = self.clsid.into_bytes();
    }

    // Appends what stands before the class identifier, or a beginning of it.
    fn append_head(&self, out: &mut Vec<u8>) -> Result<(), AllocError>
        ensures ok { OnOk result (out.new.items
            ≡ out.old.items ++ (flat_map (to_le_bytes w16) self.now.name_units
            ++ (to_le_bytes w16 self.now.name_len
            ++ self.now.kind ∷ self.now.color ∷ to_le_bytes w32 self.now.left_sibling
            ++ to_le_bytes w32 self.now.right_sibling ++ to_le_bytes w32 self.now.child))) }
        ensures kept { IsPrefixOf out.old.items out.new.items }
    {
        push_u16s(out, &self.name_units)?;
        push_u16s(out, &[self.name_len])?;
        out.extend_from_slice(&[self.kind, self.color])?;
        push_u32s(out, &[self.left_sibling, self.right_sibling, self.child])
    }

    // Appends what stands behind the class identifier, or a beginning of it.
    fn append_tail(&self, out: &mut Vec<u8>) -> Result<(), Error>
        ensures ok { OnOk result (out.new.items
            ≡ out.old.items ++ (to_le_bytes w32 self.now.state_bits
            ++ to_le_bytes w64 (units_of self.now.creation_time)
            ++ to_le_bytes w64 (units_of self.now.modified_time)
            ++ to_le_bytes w32 self.now.start_sector ++ to_le_bytes w64 self.now.stream_len)) }
        ensures kept { IsPrefixOf out.old.items out.new.items }
    {
        out.extend_from_slice(&self.state_bits.to_le_bytes())?;
        self.creation_time.write_to(out)?;
        self.modified_time.write_to(out)?;
        out.extend_from_slice(&self.start_sector.to_le_bytes())?;
        out.extend_from_slice(&self.stream_len.to_le_bytes())?;
        Ok(())
    }

    // Appends the bytes, or a beginning of them.
    fn append_to(&self, out: &mut Vec<u8>) -> Result<(), Error>
        ensures ok { OnOk result (out.new.items
            ≡ out.old.items ++ entry_bytes (entry_in self.now)) }
        ensures kept { IsPrefixOf out.old.items out.new.items }
    {
        self.append_head(out)?;
        out.extend_from_slice(&self.clsid.to_bytes_le())?;
        self.append_tail(out)
    }

    /// Appends the 128 bytes. `Memory` where the list can't grow, and then it is as it was.
    pub fn write_to(&self, writer: &mut Vec<u8>) -> Result<(), Error>
        ensures ok { OnOk result (writer.new.items
            ≡ writer.old.items ++ entry_bytes (entry_in self.now)) }
        ensures after_error { OnErr result (writer.new.items ≡ writer.old.items) }
        ensures errors { IfErr result (λ e. e ≡ Memory) }
    {
        let len = writer.len();
        if self.append_to(writer).is_err() {
            writer.truncate(len);
            return Err(Error::Memory);
        }
        Ok(())
    }
}

ghost use Rattle.cfb_tree.specs.EntryViews.{entry_in};

/// An entry that is written and read again is as it was, where its size fits the version. The one error is `Memory`.
pub fn entry_again(alloc: Global, entry: DirEntry, version: Version) -> Result<DirEntry, Error>
    requires { entry.stream_len ≤ stream_len_mask version }
    ensures same { IfOk result (λ e. entry_in e ≡ entry_in entry) }
    ensures errors { IfErr result (λ e. e ≡ Memory) }
{
    entry.fits(version);
    let mut bytes = Vec::new(alloc);
    entry.write_to(&mut bytes)?;
    let mut reader = bytes.as_slice();
    DirEntry::read_from(&mut reader, version)
}
