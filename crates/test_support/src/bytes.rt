//! Bytes in rows.
use crate::row::{Row, copy_of};
use cfb_medium::Error;
use serde_json::Value;
use std::alloc::Global;

/// The bytes of a cell: a text in hex, or a list of such texts and of pairs, a text in hex and how often it stands there.
pub fn bytes_at(alloc: Global, row: &Row, place: usize) -> Result<Vec<u8>, Error> {
    let mut bytes = Vec::new(alloc);
    match row.cell(place) {
        Some(Value::Array(parts)) => {
            for part in parts {
                push_part(alloc, &mut bytes, part)?;
            }
        }
        _ => push_hex(alloc, &mut bytes, row.text(place), 1)?,
    }
    Ok(bytes)
}

fn push_part(alloc: Global, bytes: &mut Vec<u8>, part: &Value) -> Result<(), Error> {
    let hex = part.get(0).unwrap_or(part).as_str().unwrap_or("");
    let times = part.get(1).and_then(Value::as_u64).unwrap_or(1);
    push_hex(alloc, bytes, hex, times)
}

fn push_hex(alloc: Global, bytes: &mut Vec<u8>, text: &str, times: u64) -> Result<(), Error> {
    let part = hex::decode(alloc, text).map_err(|_| Error::InvalidData)?;
    for _ in 0..times {
        bytes.extend_from_slice(&part)?;
    }
    Ok(())
}

/// Bytes as a text in hex.
pub fn hex_of(alloc: Global, bytes: &[u8]) -> Result<String, Error> {
    Ok(hex::encode(alloc, bytes)?)
}

/// Bytes as runs: each byte in hex, and how often it stands there.
pub fn runs(alloc: Global, bytes: &[u8]) -> Result<String, Error> {
    let mut text = copy_of(alloc, "")?;
    let mut last = 0u8;
    let mut count = 0u64;
    for byte in bytes {
        if *byte != last && 0 < count {
            text.push_str(format!(in alloc; "{last:02x}*{count} ")?.as_str())?;
            count = 0;
        }
        last = *byte;
        count = count.saturating_add(1);
    }
    text.push_str(format!(in alloc; "{last:02x}*{count}")?.as_str())?;
    Ok(text)
}

/// So many bytes from a place on, which a row tells behind its call, and how many bytes there are in all.
pub fn part_of(alloc: Global, bytes: &[u8], row: &Row) -> Result<String, Error> {
    let place = usize::try_from(row.number(1)).unwrap_or(0);
    let count = usize::try_from(row.number(2)).unwrap_or(0);
    let part = bytes
        .get(place..)
        .and_then(|rest| rest.get(..count))
        .unwrap_or(&bytes[..0]);
    Ok(format!(in alloc; "{} bytes, {}", bytes.len(), runs(alloc, part)?)?)
}
