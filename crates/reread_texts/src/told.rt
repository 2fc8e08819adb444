//! The page that a property set tells, and a set that tells another.
ghost use Rattle.std.specs.Prelude.{◌≡◌, ◌≤◌, ◌==◌, length, option_map, IfErr, IfOk};
ghost use Rattle.std.specs.List.{find};
ghost use Rattle.cfb_medium.specs.declared.error.Error.TheVariants.{Memory};
ghost use Rattle.reread_texts.specs.Told.{is_short_number, page_value, told_in_utf8};

use crate::section::{behind, read_section, section_of};
use cfb_medium::Error;
use msi_texts::{read_u16, read_u32};
use std::alloc::Global;

// The number of the property that tells the page.
const CODEPAGE: u32 = 1;

// The kind of a value that is a number of two bytes.
const I2: u32 = 2;

// The number of UTF-8.
const UTF8: u16 = 65001;

/// The number of the page that property 1 of a set tells; nothing where it isn't there, or can't be read. The one error is `Memory`.
pub fn told_page(alloc: Global, bytes: &[u8]) -> Result<Option<u16>, Error>
    ensures errors { IfErr result (λ e. e ≡ Memory) }
{
    let rest = page_bytes(alloc, bytes)?;
    Ok(number_in(rest))
}

/// The bytes of a set in which property 1, where it tells a page, tells UTF-8. The one error is `Memory`.
pub fn tell_utf8(alloc: Global, bytes: &[u8]) -> Result<Vec<u8>, Error>
    ensures told { IfOk result (λ told. told.items ≡ told_in_utf8 bytes.now) }
    ensures errors { IfErr result (λ e. e ≡ Memory) }
{
    let value = page_bytes(alloc, bytes)?;
    if !is_short_number(value) {
        return Ok(Vec::from_slice(alloc, bytes)?);
    }
    let place = bytes.len() - value.len() + 4;
    let mut told = Vec::from_slice(alloc, &bytes[..place])?;
    told.extend_from_slice(&UTF8.to_le_bytes())?;
    told.extend_from_slice(&bytes[place + 2..])?;
    Ok(told)
}

// The bytes from the value of property 1 on; none where it isn't there. The one error is `Memory`.
fn page_bytes(alloc: Global, bytes: &[u8]) -> Result<&[u8], Error>
    ensures value { IfOk result (λ value. value.now ≡ page_value bytes.now) }
    ensures len { IfOk result (λ value. length value.now ≤ length bytes.now) }
    ensures errors { IfErr result (λ e. e ≡ Memory) }
{
    let section = section_of(bytes);
    let pairs = match read_section(alloc, section) {
        Ok(pairs) => pairs,
        Err(Error::Memory) => return Err(Error::Memory),
        Err(_) => return Ok(&bytes[..0]),
    };
    match page_pair(&pairs) {
        Some((_number, offset)) => Ok(behind(section, *offset)),
        None => Ok(&bytes[..0]),
    }
}

// The first pair of the number of property 1.
fn page_pair(pairs: &[(u32, u32)]) -> Option<&(u32, u32)>
    ensures { option_map (λ pair. pair.now) result ≡ find (λ q. q.0 == 1) pairs.now }
{
    pairs.iter().find(|pair| pair.0 == CODEPAGE)
}

// Whether the bytes begin with a value that is a number of two bytes.
fn is_short_number(bytes: &[u8]) -> bool
    ensures { result ≡ is_short_number bytes.now }
{
    let mut rest = bytes;
    match read_u32(&mut rest) {
        Ok(kind) => kind == I2 && 6 <= bytes.len(),
        Err(_) => false,
    }
}

// The number of two bytes that stands at the front as a value.
fn number_in(bytes: &[u8]) -> Option<u16> {
    let mut rest = bytes;
    match read_u32(&mut rest) {
        Ok(I2) => read_u16(&mut rest).ok(),
        _ => None,
    }
}
