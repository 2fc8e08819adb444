//! Commands on a device that stops, and what is found then.
use crate::calls::{Fails, NEVER, OnDevice, begin, end, told, twin};
use cfb::CaseMapper;
use cfb_medium::Error;
use installer::Command;
use staged::{MemoryDevice, Which, recover};
use std::alloc::Global;
use test_support::{Made, Row, copy_of};

/// A session on these files, some of whose calls fail: on a new package where the home file is empty.
pub fn begin_on(
    alloc: Global,
    device: &MemoryDevice,
    fails: Fails,
) -> Result<OnDevice, (MemoryDevice, Error)> {
    let device = match twin(alloc, device) {
        Ok(device) => device,
        Err(error) => return Err((MemoryDevice::new(Vec::new(alloc), Vec::new(alloc)), error)),
    };
    let is_new = device.bytes(Which::Home).is_empty();
    match CaseMapper::ascii(alloc) {
        Ok(letters) => begin(alloc, device, fails, letters, is_new),
        Err(error) => Err((device, error.into())),
    }
}

/// What commands leave on these files, some of whose calls fail, the calls that were made, and what was answered. Of a package that isn't
/// sound nothing more is told.
pub fn course(
    alloc: Global,
    device: &MemoryDevice,
    fails: Fails,
    commands: &[Command],
) -> Result<(MemoryDevice, Made, String), Error> {
    match begin_on(alloc, device, fails) {
        Ok(session) => {
            let mut session = session;
            let text = told_if_sound(alloc, &mut session, commands);
            let counted = end(session);
            let made = counted.made();
            let device = counted.into_inner();
            Ok((device, made, text?))
        }
        Err((device, error)) => Ok((device, Made::none(), format!(in alloc; "! {error:?}")?)),
    }
}

fn told_if_sound(
    alloc: Global,
    session: &mut OnDevice,
    commands: &[Command],
) -> Result<String, Error> {
    if !session.is_sound() {
        return copy_of(alloc, "not sound");
    }
    told(alloc, session, commands)
}

/// The device on which commands were stopped at the first call at which the calls that changed the files are those of a row's cells, and
/// what was answered; none where there is no such call.
pub fn stopped(
    alloc: Global,
    device: &MemoryDevice,
    commands: &[Command],
    row: &Row,
) -> Result<Option<(MemoryDevice, String)>, Error> {
    let (_, whole, _) = course(alloc, device, NEVER, commands)?;
    let count = match row.number(3) {
        0 => u64::MAX,
        some => some.unsigned_abs(),
    };
    for behind in 0..whole.calls() {
        let (left, made, text) = course(alloc, device, Fails { behind, count }, commands)?;
        if made.are(row.list(2), &whole) {
            return Ok(Some((left, text)));
        }
    }
    Ok(None)
}

/// What is found when so many calls of a device fail behind each number of calls, one answer after the other, and each once.
pub fn each_stop(
    alloc: Global,
    device: &MemoryDevice,
    count: u64,
    commands: &[Command],
    look: &[Command],
) -> Result<String, Error> {
    let (_, whole, _) = course(alloc, device, NEVER, commands)?;
    let mut text = String::new(alloc);
    let mut last = String::new(alloc);
    for behind in 0..whole.calls().saturating_add(1) {
        let (left, _, _) = course(alloc, device, Fails { behind, count }, commands)?;
        let found = found_in(alloc, left, look)?;
        if found.as_str() != last.as_str() {
            text.push_str(if last.is_empty() { "" } else { ", then " })?;
            text.push_str(found.as_str())?;
            last = found;
        }
    }
    Ok(text)
}

// What a look at a package finds once it is recovered.
fn found_in(alloc: Global, device: MemoryDevice, look: &[Command]) -> Result<String, Error> {
    let mut device = device;
    recover(&mut device)?;
    if device.bytes(Which::Home).is_empty() {
        return copy_of(alloc, "an empty home file");
    }
    let (_, _, text) = course(alloc, &device, NEVER, look)?;
    Ok(text)
}
