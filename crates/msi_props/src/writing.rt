//! How a property set is written: head, numbers with offsets, values, each filled up to four bytes.
ghost use Rattle.std.specs.Prelude.{◌≡◌, ◌⊎◌, ◌+◌, ◌*◌, ◌++◌, ◌<◌, ◌^◌, length, map, false, IfErr, IfOk, IsTrue, OnErr, OnOk};
ghost use Rattle.std.specs.List.{flat_map, list_any};
ghost use Rattle.msi_texts.specs.Numbers.{le_bytes};
ghost use Rattle.msi_props.specs.Held.{pair_in, property_in};
ghost use Rattle.msi_props.specs.Props.{head_bytes, text, is_i1, is_in_size, offsets_from, padded4, property_bytes, props_bytes};
ghost use Rattle.cfb_medium.specs.declared.error.Error.TheVariants.{InvalidInput, Memory};

use crate::head::BYTE_ORDER_MARK;
use crate::propset::PropertySet;
use crate::value::PropertyValue;
use cfb_medium::Error;
use msi_texts::{CodePage, write_u16, write_u32};
use std::alloc::{AllocError, Global};

// Where the section of a written set begins.
const SECTION_OFFSET: u32 = 48;

// A set of more values takes more than 2^32 bytes.
const MOST_VALUES: usize = 1 << 29;

// Appends the four lowest bytes of a number.
fn write_low(writer: &mut Vec<u8>, number: u64) -> Result<(), AllocError>
    ensures ok { OnOk result (writer.new.items ≡ writer.old.items ++ le_bytes 4 number) }
    ensures after_error { OnErr result (writer.new.items ≡ writer.old.items) }
{
    writer.extend_from_slice(&number.to_le_bytes()[..4])
}

// Fills bytes up with zeros to a multiple of four.
fn pad(bytes: &mut Vec<u8>) -> Result<(), AllocError>
    ensures { OnOk result (bytes.new.items ≡ padded4 bytes.old.items) }
{
    let zeros = [0; 3];
    bytes.extend_from_slice(&zeros[..(4 - bytes.len() % 4) % 4])
}

// A text as it is written: its length with the null, its bytes, and the null.
fn text_bytes(alloc: Global, codepage: CodePage, words: &str) -> Result<Vec<u8>, Error>
    ensures ok { IfOk result (λ bytes. bytes.items ≡ property_bytes codepage (text words.now)) }
    ensures errors { IfErr result (λ e. e ≡ Memory) }
{
    let encoded = codepage.encode(alloc, words)?;
    let mut bytes = Vec::new(alloc);
    write_u32(&mut bytes, 30)?;
    write_low(&mut bytes, encoded.len() as u64 + 1)?;
    bytes.extend_from_slice(&encoded)?;
    bytes.push(0)?;
    pad(&mut bytes)?;
    Ok(bytes)
}

// A value as it is written under a page.
fn value_bytes(alloc: Global, codepage: CodePage, value: &PropertyValue) -> Result<Vec<u8>, Error>
    ensures ok { IfOk result (λ bytes. bytes.items
        ≡ property_bytes codepage (property_in value.now)) }
    ensures errors { IfErr result (λ e. e ≡ Memory) }
{
    let mut bytes = Vec::new(alloc);
    match value {
        PropertyValue::Empty => {
            write_u32(&mut bytes, 0)?;
            Ok(bytes)
        }
        PropertyValue::Null => {
            write_u32(&mut bytes, 1)?;
            Ok(bytes)
        }
        PropertyValue::I1(number) => {
            write_u32(&mut bytes, 16)?;
            bytes.push(number.cast_unsigned())?;
            pad(&mut bytes)?;
            Ok(bytes)
        }
        PropertyValue::I2(number) => {
            write_u32(&mut bytes, 2)?;
            write_u16(&mut bytes, number.cast_unsigned())?;
            pad(&mut bytes)?;
            Ok(bytes)
        }
        PropertyValue::I4(number) => {
            write_u32(&mut bytes, 3)?;
            write_u32(&mut bytes, number.cast_unsigned())?;
            Ok(bytes)
        }
        PropertyValue::LpStr(words) => text_bytes(alloc, codepage, words),
        PropertyValue::FileTime(moment) => {
            write_u32(&mut bytes, 64)?;
            moment.write_to(&mut bytes)?;
            Ok(bytes)
        }
    }
}

// The numbers with the offsets of their values, and the values.
#[derive(Drop)]
struct Written {
    offsets: Vec<u8>,
    bodies: Vec<u8>,
}

// The values as they are written from an offset on.
fn written_values(
    alloc: Global,
    codepage: CodePage,
    start: u64,
    values: &[(u32, PropertyValue)],
) -> Result<Written, Error>
    requires { start < 2 ^ 40 }
    ensures offsets { IfOk result (λ w. w.offsets.items
        ≡ offsets_from codepage start (map pair_in values.now)) }
    ensures bodies { IfOk result (λ w. w.bodies.items
        ≡ flat_map (λ v. property_bytes codepage v.1) (map pair_in values.now)) }
    ensures errors { IfErr result (λ e. e ≡ Memory) }
{
    let mut offsets = Vec::new(alloc);
    let mut bodies = Vec::new(alloc);
    for (number, value) in values {
        write_u32(&mut offsets, *number)?;
        write_low(&mut offsets, start + bodies.len() as u64)?;
        bodies.extend_from_slice(&value_bytes(alloc, codepage, value)?)?;
    }
    Ok(Written { offsets, bodies })
}

// Whether one of the values is a number of one byte.
fn has_i1(values: &[(u32, PropertyValue)]) -> bool
    ensures { result ≡ list_any (λ v. is_i1 v.1) (map pair_in values.now) }
{
    for value in values {
        if matches!(value.1, PropertyValue::I1(_)) {
            return true;
        }
    }
    false
}

// Appends the head of a written set.
fn write_head(bytes: &mut Vec<u8>, set: &PropertySet) -> Result<(), Error>
    ensures ok { OnOk result (bytes.new.items ≡ bytes.old.items ++ head_bytes set.now.props) }
    ensures errors { IfErr result (λ e. e ≡ Memory) }
{
    let version = u16::from(has_i1(set.properties()));
    write_u16(bytes, BYTE_ORDER_MARK)?;
    write_u16(bytes, version)?;
    write_u16(bytes, set.system_version())?;
    write_u16(bytes, set.system().number())?;
    bytes.extend_from_slice(set.class())?;
    write_u32(bytes, 1)?;
    bytes.extend_from_slice(set.format_identifier())?;
    write_u32(bytes, SECTION_OFFSET)?;
    Ok(())
}

// The bytes of a set, as they are written.
pub(crate) fn set_bytes(alloc: Global, set: &PropertySet) -> Result<Vec<u8>, Error>
    ensures ok { IfOk result (λ bytes. bytes.items ≡ props_bytes set.now.props) }
    ensures errors { IfErr result (λ e. (e ≡ Memory)
        ⊎ ((e ≡ InvalidInput) × (is_in_size set.now.props ≡ false))) }
{
    let values = set.properties();
    if MOST_VALUES < values.len() {
        return Err(Error::InvalidInput);
    }
    let start = 8 + 8 * values.len() as u64;
    let written = written_values(alloc, set.codepage(), start, values)?;
    let mut bytes = Vec::new(alloc);
    write_head(&mut bytes, set)?;
    write_low(&mut bytes, start + written.bodies.len() as u64)?;
    write_low(&mut bytes, values.len() as u64)?;
    bytes.extend_from_slice(&written.offsets)?;
    bytes.extend_from_slice(&written.bodies)?;
    Ok(bytes)
}
