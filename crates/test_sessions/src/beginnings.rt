//! Beginnings of the two files.
use crate::calls::NEVER;
use crate::stops::course;
use cfb_medium::Error;
use installer::Command;
use staged::{MemoryDevice, Recovered, Which, recover};
use std::alloc::Global;
use test_support::copy_of;

/// Opens each beginning of the home file that has a byte, and tells whether each is refused, or isn't sound, or shows what the whole does.
pub fn open_beginnings(
    alloc: Global,
    device: &MemoryDevice,
    look: &[Command],
) -> Result<String, Error> {
    let home = device.bytes(Which::Home);
    let (_, _, whole) = course(alloc, device, NEVER, look)?;
    for len in 1..home.len() {
        let cut = MemoryDevice::new(Vec::from_slice(alloc, &home[..len])?, Vec::new(alloc));
        let (_, _, text) = course(alloc, &cut, NEVER, look)?;
        let is_refused = text.as_str().starts_with('!') || text.as_str() == "not sound";
        if !is_refused && text.as_str() != whole.as_str() {
            return Ok(format!(in alloc; "the first {len} bytes show {text}")?);
        }
    }
    copy_of(alloc, "each refused, not sound, or the same")
}

/// Recovers behind each beginning of an open log, and tells whether one of a byte at most is closed, and each other is refused and leaves both
/// files, or has all pages and gives the home file that the whole gives.
pub fn recover_beginnings(alloc: Global, device: &MemoryDevice) -> Result<String, Error> {
    let (home, log) = (device.bytes(Which::Home), device.bytes(Which::Log));
    let whole = recovered(alloc, home, log)?.0;
    for len in 0..log.len() {
        let (left, answer) = recovered(alloc, home, &log[..len])?;
        let is_left = left.bytes(Which::Home) == home && left.bytes(Which::Log) == &log[..len];
        let is_well = match answer {
            Ok(Recovered::Closed) => len < 2 && is_left,
            Ok(Recovered::Applied(_)) => left.bytes(Which::Home) == whole.bytes(Which::Home),
            Err(error) => len > 1 && error == Error::InvalidData && is_left,
        };
        if !is_well {
            return Ok(format!(in alloc; "the first {len} bytes of the log: {answer:?}")?);
        }
    }
    copy_of(alloc, "each closed, refused, or the same")
}

// What a recovery makes of two files, and its answer.
fn recovered(
    alloc: Global,
    home: &[u8],
    log: &[u8],
) -> Result<(MemoryDevice, Result<Recovered, Error>), Error> {
    let home = Vec::from_slice(alloc, home)?;
    let mut device = MemoryDevice::new(home, Vec::from_slice(alloc, log)?);
    let answer = recover(&mut device);
    Ok((device, answer))
}
