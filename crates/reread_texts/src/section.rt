//! The section of a property set that can be read: where its values stand.
ghost use Rattle.std.specs.Prelude.{◌≡◌, [], drop, option_map, IfOk, Ok};
ghost use Rattle.msi_props.specs.Props.{head_at, pairs_at, property_at, section_at, text_at, Head, Property};
ghost use Rattle.msi_texts.specs.Results.{ReturnsOrOutOfMemory};
ghost use Rattle.reread_texts.specs.Sets.{front_of, text_in, RiseFrom};
ghost use Rattle.reread_texts.specs.Told.{section_told};

use cfb_medium::Error;
use msi_texts::read_u32;
use std::alloc::Global;
use std::collections::BTreeMap;

// Where the offset of the section stands in the head of a set.
const OFFSET_AT: u32 = 44;

// The kind of a value that is a text.
const TEXT: u32 = 30;

// The section of a set whose head can be read.
pub(crate) fn section_of(bytes: &[u8]) -> &[u8]
    ensures told { result.now ≡ section_told bytes.now }
    ensures read { (head : Head) → head_at bytes.now ≡ Ok head
        → result.now ≡ drop head.offset bytes.now }
{
    let mut rest = behind(bytes, OFFSET_AT);
    match read_u32(&mut rest) {
        Ok(offset) => behind(bytes, offset),
        Err(_) => &[],
    }
}

// The bytes from an offset on.
pub(crate) fn behind(bytes: &[u8], offset: u32) -> &[u8]
    ensures { result.now ≡ drop offset bytes.now }
{
    let offset = offset as usize;
    if bytes.len() < offset {
        &[]
    } else {
        &bytes[offset..]
    }
}

// The numbers of a section and the offsets of their values, by rising number.
pub(crate) fn read_section(alloc: Global, section: &[u8]) -> Result<Vec<(u32, u32)>, Error>
    ensures pairs { ReturnsOrOutOfMemory (λ pairs. pairs.items) result (section_at section.now) }
    ensures rising { IfOk result (λ pairs. RiseFrom 0 pairs.items) }
{
    let mut rest = section;
    let _size = read_u32(&mut rest)?;
    let count = read_u32(&mut rest)?;
    let pairs = read_pairs(alloc, count, &mut rest)?;
    Ok(pairs.into_iter().collect(alloc)?)
}

// Takes so many pairs of a number and an offset, by rising number. `InvalidData` where a number stands twice.
#[tactic(auto, using(crate::proofs::Steps::rises))]
fn read_pairs(alloc: Global, count: u32, reader: &mut &[u8]) -> Result<BTreeMap<u32, u32>, Error>
    ensures pairs { ReturnsOrOutOfMemory (λ pairs. pairs.entries) result
        (pairs_at count reader.old.now []) }
    ensures rising { IfOk result (λ pairs. RiseFrom 0 pairs.entries) }
{
    let mut pairs = BTreeMap::new(alloc);
    for _ in 0..count {
        let number = read_u32(reader)?;
        let offset = read_u32(reader)?;
        if pairs.contains_key(&number) {
            return Err(Error::InvalidData);
        }
        pairs.insert(number, offset)?;
    }
    // (the map's length says that its numbers rise)
    let _len = pairs.len();
    Ok(pairs)
}

// The bytes of the value at an offset of a section, where it can be read and is a text.
pub(crate) fn text_at_offset(section: &[u8], offset: u32) -> Option<&[u8]>
    ensures { (v : Property) → property_at (drop offset section.now) ≡ Ok v
        → option_map (λ t. t.now) result ≡ text_in v }
{
    let mut rest = behind(section, offset);
    match read_u32(&mut rest) {
        Ok(TEXT) => counted_text(rest),
        _ => None,
    }
}

// The bytes of a text behind its length, which counts the null too.
fn counted_text(bytes: &[u8]) -> Option<&[u8]>
    ensures { (v : Property) → text_at bytes.now ≡ Ok v
        → option_map (λ t. t.now) result ≡ text_in v }
{
    let mut rest = bytes;
    match read_u32(&mut rest) {
        Ok(len) => front(rest, (len as usize).saturating_sub(1)),
        Err(_) => None,
    }
}

// So many bytes, where they are there.
fn front(bytes: &[u8], count: usize) -> Option<&[u8]>
    ensures { option_map (λ t. t.now) result ≡ front_of count bytes.now }
{
    if bytes.len() < count {
        None
    } else {
        Some(&bytes[..count])
    }
}
