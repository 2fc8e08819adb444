//! What the bytes of a section hold of its properties, texts as bytes.
ghost use Rattle.std.specs.Prelude.{◌≡◌, ◌⊎◌, ◌<◌, ◌^◌, drop, length, map, IfErr, IfOk, MatchResult, Ok, Err, []};
ghost use Rattle.msi_texts.specs.Reading.{bytes_at};
ghost use Rattle.msi_texts.specs.Results.{ReturnsOrOutOfMemory};
ghost use Rattle.msi_props.specs.Held.{pair_stored, stored_in};
ghost use Rattle.msi_props.specs.Props.{is_i1, pairs_at, properties_at, property_at, section_at, text_at};

use cfb_medium::{Error, Timestamp};
use msi_texts::{read_u16, read_u32};
use std::alloc::Global;
use std::collections::BTreeMap;

// A value as a section holds it.
#[derive(Clone, Copy)]
pub(crate) enum StoredValue<'a> {
    Empty,
    Null,
    I1(i8),
    I2(i16),
    I4(i32),
    Text(&'a [u8]),
    FileTime(Timestamp),
}

// Takes the next bytes, so many. Fewer are left as they are.
pub(crate) fn take_bytes<'a>(reader: &mut &'a [u8], count: usize) -> Result<&'a [u8], Error>
    ensures ok { IfOk result (λ bytes. bytes_at count reader.old.now
        ≡ Ok (bytes.now, reader.new.now)) }
    ensures errors { IfErr result (λ e. bytes_at count reader.old.now ≡ Err e) }
{
    let bytes = *reader;
    if bytes.len() < count {
        return Err(Error::UnexpectedEof);
    }
    *reader = &bytes[count..];
    Ok(&bytes[..count])
}

// The text at the front of the bytes: its length, which counts a null, its bytes and the null.
fn read_text(bytes: &[u8]) -> Result<StoredValue<'_>, Error>
    ensures { MatchResult result (λ v. text_at bytes.now ≡ Ok (stored_in v))
        (λ e. text_at bytes.now ≡ Err e) }
{
    let mut rest = bytes;
    let len = read_u32(&mut rest)? as usize;
    let text = take_bytes(&mut rest, len.saturating_sub(1))?;
    let last = take_bytes(&mut rest, 1)?;
    if last[0] != 0 {
        return Err(Error::InvalidData);
    }
    Ok(StoredValue::Text(text))
}

// The value at the front of the bytes: its kind, and what that asks for.
pub(crate) fn read_stored(bytes: &[u8]) -> Result<StoredValue<'_>, Error>
    ensures { MatchResult result (λ v. property_at bytes.now ≡ Ok (stored_in v))
        (λ e. property_at bytes.now ≡ Err e) }
{
    let mut rest = bytes;
    match read_u32(&mut rest)? {
        0 => Ok(StoredValue::Empty),
        1 => Ok(StoredValue::Null),
        2 => Ok(StoredValue::I2(read_u16(&mut rest)?.cast_signed())),
        3 => Ok(StoredValue::I4(read_u32(&mut rest)?.cast_signed())),
        16 => Ok(StoredValue::I1(take_bytes(&mut rest, 1)?[0].cast_signed())),
        30 => read_text(rest),
        64 => Ok(StoredValue::FileTime(Timestamp::read_from(&mut rest)?)),
        _ => Err(Error::InvalidData),
    }
}

// The bytes from an offset on.
pub(crate) fn behind(bytes: &[u8], offset: u32) -> &[u8]
    ensures { result.now ≡ drop offset bytes.now }
{
    let offset = offset as usize;
    if bytes.len() < offset {
        &[]
    } else {
        &bytes[offset..]
    }
}

// Takes so many pairs of a number and an offset, by rising number. InvalidData where a number stands twice.
fn read_pairs(alloc: Global, count: u32, reader: &mut &[u8]) -> Result<BTreeMap<u32, u32>, Error>
    ensures { ReturnsOrOutOfMemory (λ pairs. pairs.entries) result
        (pairs_at count reader.old.now []) }
{
    let mut pairs = BTreeMap::new(alloc);
    for _ in 0..count {
        let number = read_u32(reader)?;
        let offset = read_u32(reader)?;
        if pairs.contains_key(&number) {
            return Err(Error::InvalidData);
        }
        pairs.insert(number, offset)?;
    }
    Ok(pairs)
}

// The numbers of a section and the offsets of their values, by rising number.
pub(crate) fn read_section(alloc: Global, section: &[u8]) -> Result<Vec<(u32, u32)>, Error>
    ensures { ReturnsOrOutOfMemory (λ pairs. pairs.items) result (section_at section.now) }
{
    let mut rest = section;
    let _size = read_u32(&mut rest)?;
    let count = read_u32(&mut rest)?;
    let pairs = read_pairs(alloc, count, &mut rest)?;
    Ok(pairs.into_iter().collect(alloc)?)
}

// Whether it is a number of one byte.
fn is_i1(value: &StoredValue<'_>) -> bool
    ensures { result ≡ is_i1 (stored_in value.now) }
{
    matches!(value, StoredValue::I1(_))
}

// The value at each offset. InvalidData where a number of one byte stands in a set of version 0.
pub(crate) fn read_values<'a>(
    alloc: Global,
    version: u16,
    section: &'a [u8],
    pairs: &[(u32, u32)],
) -> Result<Vec<(u32, StoredValue<'a>)>, Error>
    ensures { ReturnsOrOutOfMemory (λ values. map pair_stored values.items) result
        (properties_at version section.now pairs.now) }
{
    let mut values = Vec::new(alloc);
    for (number, offset) in pairs {
        let value = read_stored(behind(section, *offset))?;
        if version == 0 && is_i1(&value) {
            return Err(Error::InvalidData);
        }
        values.push((*number, value))?;
    }
    Ok(values)
}
