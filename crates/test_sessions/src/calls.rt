//! Calls of sessions, each in a function of its own: what is told of a call costs time wherever it is seen.
use cfb::CaseMapper;
use cfb_medium::Error;
use installer::{Answer, Command, Session, answer_text, read_commands};
use staged::{FuseDevice, MemoryDevice, Which};
use std::alloc::Global;
use test_support::{CountedDevice, Row};

/// A session on a device in memory that counts calls, behind one that fails some.
pub type OnDevice = Session<FuseDevice<CountedDevice>>;

/// Which calls of a device fail: those behind so many, and how many of them.
#[derive(Clone, Copy)]
pub struct Fails {
    pub behind: u64,
    pub count: u64,
}

/// No call fails.
pub const NEVER: Fails = Fails {
    behind: u64::MAX,
    count: 0,
};

/// A device with these two files, to which no call was made.
pub fn twin(alloc: Global, device: &MemoryDevice) -> Result<MemoryDevice, Error> {
    let home = Vec::from_slice(alloc, device.bytes(Which::Home))?;
    let log = Vec::from_slice(alloc, device.bytes(Which::Log))?;
    Ok(MemoryDevice::new(home, log))
}

/// A session on a device some of whose calls fail: on the package that is there, or on a new one. An error gives the device back.
pub fn begin(
    alloc: Global,
    device: MemoryDevice,
    fails: Fails,
    letters: CaseMapper,
    is_new: bool,
) -> Result<OnDevice, (MemoryDevice, Error)> {
    let counted = CountedDevice::new(device);
    let below = FuseDevice::new(counted, fails.behind, fails.count);
    let begun = if is_new {
        Session::create(alloc, below, letters)
    } else {
        Session::open(alloc, below, letters)
    };
    match begun {
        Ok(session) => Ok(session),
        Err((below, error)) => Err((below.into_inner().into_inner(), error)),
    }
}

/// The device of a session.
pub fn end(session: OnDevice) -> CountedDevice {
    session.into_device().into_inner()
}

/// The commands of a cell.
pub fn commands_at(alloc: Global, row: &Row, place: usize) -> Result<Vec<Command>, Error> {
    match row.cell(place) {
        Some(cell) => read_commands(alloc, cell.to_string(alloc)?.as_str()),
        None => Err(Error::InvalidInput),
    }
}

/// What commands are answered, as a text.
pub fn told(alloc: Global, session: &mut OnDevice, commands: &[Command]) -> Result<String, Error> {
    let answers = session.run(commands)?;
    texts_of(alloc, &answers)
}

fn texts_of(alloc: Global, answers: &[Answer]) -> Result<String, Error> {
    let mut text = String::new(alloc);
    for answer in answers {
        if !text.is_empty() {
            text.push(' ')?;
        }
        text.push_str(answer_text(alloc, answer)?.as_str())?;
    }
    Ok(text)
}
