//! The store on a device in memory: commits that are stopped, what a crash leaves of them, and recoveries.
use cfb_medium::{Error, Medium};
use staged::{FuseDevice, MemoryDevice, Staged, Which, recover};
use std::alloc::Global;
use test_support::{CountedDevice, Row, Subject, bytes_at, copy_of, runs, yes_or_no};

// More calls than are made on any device.
const MANY: u64 = u64::MAX;

// A device that counts calls, behind one that fails them from some call on.
type Stopped = FuseDevice<CountedDevice>;

/// The device that rows are about.
#[derive(Drop)]
pub struct Stores {
    device: MemoryDevice,
}

impl Stores {
    /// Two empty files.
    pub fn new(alloc: Global) -> Stores {
        Stores {
            device: MemoryDevice::new(Vec::new(alloc), Vec::new(alloc)),
        }
    }

    // Commits what a row writes: how many pages that were, and the calls that changed the files.
    fn commit(&mut self, alloc: Global, row: &Row) -> Result<String, Error> {
        let (counted, pages) = committed(alloc, &self.device, MANY, row)?;
        let pages = pages?;
        let made = counted.made().told(alloc)?;
        self.device = counted.into_inner();
        Ok(format!(in alloc; "{pages} changed pages, {made}")?)
    }

    // Whether a second commit behind that of a row makes no call.
    fn commit_twice(&mut self, alloc: Global, row: &Row) -> Result<String, Error> {
        let once = Row::of(alloc, row.cell(1).ok_or(Error::InvalidInput)?)?;
        let twice = Row::of(alloc, row.cell(2).ok_or(Error::InvalidInput)?)?;
        let (first, _) = committed(alloc, &self.device, MANY, &once)?;
        let (second, _) = committed(alloc, &self.device, MANY, &twice)?;
        yes_or_no(alloc, first.made() == second.made())
    }

    // Stops the commit of what a row writes, at the first call at which the calls that changed the files are those that it says.
    fn stop(&mut self, alloc: Global, row: &Row) -> Result<String, Error> {
        let (whole, _) = committed(alloc, &self.device, MANY, row)?;
        let whole = whole.made();
        for passed in 0..whole.calls() {
            let (stopped, pages) = committed(alloc, &self.device, passed, row)?;
            if stopped.made().are(row.list(2), &whole) {
                self.device = stopped.into_inner();
                return match pages {
                    Ok(_) => copy_of(alloc, "done"),
                    Err(error) => Err(error),
                };
            }
        }
        Err(Error::NotFound)
    }

    // Goes on with these two files, if a crash may leave them now.
    fn cut(&mut self, alloc: Global, row: &Row) -> Result<String, Error> {
        let home = file_at(alloc, row, 1, self.device.bytes(Which::Home))?;
        let log = file_at(alloc, row, 2, self.device.bytes(Which::Log))?;
        match self.device.cut(&home, &log)? {
            Some(device) => {
                self.device = device;
                copy_of(alloc, "left")
            }
            None => copy_of(alloc, "never left"),
        }
    }

    // The two files.
    fn files(&self, alloc: Global) -> Result<String, Error> {
        let (home, log) = (
            self.device.bytes(Which::Home),
            self.device.bytes(Which::Log),
        );
        let (home_len, log_len) = (home.len(), log.len());
        let (home, log) = (runs(alloc, home)?, runs(alloc, log)?);
        Ok(format!(in alloc; "home {home_len} bytes, {home}; log {log_len} bytes, {log}")?)
    }

    // Whether recoveries that are stopped at each of their calls, and finished from what a crash leaves then, all give one home file.
    fn stop_recoveries(&self, alloc: Global) -> Result<String, Error> {
        let mut whole = twin(alloc, &self.device)?;
        recover(&mut whole)?;
        for passed in 0..MANY {
            let mut device = FuseDevice::new(twin(alloc, &self.device)?, passed, MANY);
            if recover(&mut device).is_ok() {
                break;
            }
            if !is_recovered_to(alloc, &device.into_inner(), whole.bytes(Which::Home))? {
                return Ok(format!(in alloc; "another home file behind {passed} calls")?);
            }
        }
        copy_of(alloc, "one home file")
    }
}

impl Subject for Stores {
    fn answer(&mut self, alloc: Global, row: &Row) -> Result<String, Error> {
        match row.call() {
            "device" => {
                self.device = MemoryDevice::new(bytes_at(alloc, row, 1)?, bytes_at(alloc, row, 2)?);
                copy_of(alloc, "done")
            }
            "commit" => self.commit(alloc, row),
            "alike" => self.commit_twice(alloc, row),
            "stop" => self.stop(alloc, row),
            "cut" => self.cut(alloc, row),
            "files" => self.files(alloc),
            "recover" => Ok(format!(in alloc; "{:?}", recover(&mut self.device)?)?),
            "stop recoveries" => self.stop_recoveries(alloc),
            _ => Err(Error::NotFound),
        }
    }
}

// The bytes of a cell, or those that are there.
fn file_at(alloc: Global, row: &Row, place: usize, shown: &[u8]) -> Result<Vec<u8>, Error> {
    if row.text(place) == "as it is" {
        return Ok(Vec::from_slice(alloc, shown)?);
    }
    bytes_at(alloc, row, place)
}

// A device of the same two files, to which no call was made.
fn twin(alloc: Global, device: &MemoryDevice) -> Result<MemoryDevice, Error> {
    let home = Vec::from_slice(alloc, device.bytes(Which::Home))?;
    let log = Vec::from_slice(alloc, device.bytes(Which::Log))?;
    Ok(MemoryDevice::new(home, log))
}

// Commits what a row writes on a device of these files that passes so many calls and no more: the device, and how many pages were changed.
fn committed(
    alloc: Global,
    device: &MemoryDevice,
    passed: u64,
    row: &Row,
) -> Result<(CountedDevice, Result<u64, Error>), Error> {
    let below = FuseDevice::new(CountedDevice::new(twin(alloc, device)?), passed, MANY);
    match Staged::new(alloc, below) {
        Ok(medium) => {
            let mut medium = medium;
            let pages = write_and_commit(alloc, &mut medium, row);
            Ok((medium.into_device().into_inner(), pages))
        }
        Err((below, error)) => Ok((below.into_inner(), Err(error))),
    }
}

// Writes bytes at places and commits them, if a row says so twice.
fn write_and_commit(alloc: Global, medium: &mut Staged<Stopped>, row: &Row) -> Result<u64, Error> {
    for cell in row.list(1) {
        let write = Row::of(alloc, cell)?;
        let place = u64::try_from(write.number(0)).unwrap_or(0);
        medium.write_at(place, &bytes_at(alloc, &write, 1)?)?;
    }
    let pages = medium.changed_pages();
    medium.commit()?;
    if row.flag(2) {
        medium.commit()?;
    }
    Ok(pages)
}

// Whether recoveries of what a crash leaves, as it is shown and with other bytes in the home file, give this home file.
fn is_recovered_to(alloc: Global, stopped: &MemoryDevice, wanted: &[u8]) -> Result<bool, Error> {
    let shown = stopped.bytes(Which::Home);
    let mut torn = Vec::new(alloc);
    torn.resize(shown.len(), 255)?;
    for home in [shown, torn.as_slice()] {
        if let Some(left) = stopped.cut(home, stopped.bytes(Which::Log))? {
            let mut left = left;
            recover(&mut left)?;
            if left.bytes(Which::Home) != wanted {
                return Ok(false);
            }
        }
    }
    Ok(true)
}
