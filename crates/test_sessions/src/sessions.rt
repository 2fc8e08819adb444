//! The session that rows are about, and its device.
use crate::beginnings::{open_beginnings, recover_beginnings};
use crate::calls::{NEVER, OnDevice, begin, commands_at, end, told, twin};
use crate::faults::each_fault;
use crate::home::{changed, in_first_form, overlaid, stream_told};
use crate::stops::{each_stop, stopped};
use cfb::CaseMapper;
use cfb_medium::Error;
use staged::{MemoryDevice, Recovered, Which, recover};
use std::alloc::Global;
use test_support::{Row, Subject, bytes_at, copy_of, yes_or_no};

/// A session, and the device as it was when one began or ended.
#[derive(Drop)]
pub struct Sessions {
    device: MemoryDevice,
    session: Option<OnDevice>,
}

impl Sessions {
    /// No session, and two empty files.
    pub fn new(alloc: Global) -> Sessions {
        Sessions {
            device: MemoryDevice::new(Vec::new(alloc), Vec::new(alloc)),
            session: None,
        }
    }

    // Begins a session on a copy of the files, under the pair of letters of a row: whether its package is sound.
    fn begin(&mut self, alloc: Global, row: &Row) -> Result<String, Error> {
        let device = twin(alloc, &self.device)?;
        let letters = match (row.text(1).chars().next(), row.text(2).chars().next()) {
            (Some(small), Some(capital)) => CaseMapper::new(alloc, &[(small, capital)])?,
            _ => CaseMapper::ascii(alloc)?,
        };
        match begin(alloc, device, NEVER, letters, row.call() == "create") {
            Ok(session) => {
                let is_sound = session.is_sound();
                self.session = Some(session);
                yes_or_no(alloc, is_sound)
            }
            Err((device, error)) => {
                self.device = device;
                Err(error)
            }
        }
    }

    // Ends the session, as a crash does behind its calls.
    fn end(&mut self, alloc: Global) -> Result<String, Error> {
        match self.session.take() {
            Some(session) => {
                self.device = end(session).into_inner();
                copy_of(alloc, "done")
            }
            None => Err(Error::NotFound),
        }
    }

    // Goes on with other bytes in a file, if a crash may leave them.
    fn cut(&mut self, alloc: Global, row: &Row) -> Result<String, Error> {
        let (home, log) = (
            self.device.bytes(Which::Home),
            self.device.bytes(Which::Log),
        );
        let left = if row.text(1) == "home" {
            self.device.cut(&overlaid(alloc, home, row)?, log)?
        } else {
            self.device.cut(home, &overlaid(alloc, log, row)?)?
        };
        match left {
            Some(device) => {
                self.device = device;
                copy_of(alloc, "left")
            }
            None => copy_of(alloc, "never left"),
        }
    }

    // Runs commands: in the session, or on the device, which fails.
    fn run(&mut self, alloc: Global, row: &Row) -> Result<String, Error> {
        let commands = commands_at(alloc, row, 1)?;
        if row.call() == "run" {
            return match &mut self.session {
                Some(session) => told(alloc, session, &commands),
                None => Err(Error::NotFound),
            };
        }
        match row.call() {
            "beginnings" => return open_beginnings(alloc, &self.device, &commands),
            "stop" => {
                let Some((device, text)) = stopped(alloc, &self.device, &commands, row)? else {
                    return Err(Error::NotFound);
                };
                self.device = device;
                return Ok(text);
            }
            _ => {}
        }
        let look = commands_at(alloc, row, 2)?;
        match row.call() {
            "each fault" => each_fault(alloc, &self.device, &commands, &look),
            "each refusal" => each_stop(alloc, &self.device, 1, &commands, &look),
            _ => each_stop(alloc, &self.device, u64::MAX, &commands, &look),
        }
    }

    // What is told of the files.
    fn files(&mut self, alloc: Global, row: &Row) -> Result<String, Error> {
        match row.call() {
            "recover" => {
                return match recover(&mut self.device)? {
                    Recovered::Closed => copy_of(alloc, "closed"),
                    Recovered::Applied(_) => copy_of(alloc, "applied"),
                };
            }
            "lengths" => {
                let home = self.device.bytes(Which::Home).len();
                let log = self.device.bytes(Which::Log).len();
                return Ok(format!(in alloc; "home {home} bytes, log {log} bytes")?);
            }
            "read" => return stream_told(alloc, &self.device, row),
            "log beginnings" => return recover_beginnings(alloc, &self.device),
            _ => {}
        }
        self.device = match row.call() {
            "device" => MemoryDevice::new(bytes_at(alloc, row, 1)?, bytes_at(alloc, row, 2)?),
            "first form" => in_first_form(alloc, twin(alloc, &self.device)?)?,
            "storage" | "stream" | "overlay" => changed(alloc, &self.device, row)?,
            _ => return Err(Error::NotFound),
        };
        copy_of(alloc, "done")
    }
}

impl Subject for Sessions {
    fn answer(&mut self, alloc: Global, row: &Row) -> Result<String, Error> {
        match row.call() {
            "create" | "open" => self.begin(alloc, row),
            "end" => self.end(alloc),
            "cut" => self.cut(alloc, row),
            "run" | "stop" | "beginnings" | "each stop" | "each refusal" | "each fault" => {
                self.run(alloc, row)
            }
            _ => self.files(alloc, row),
        }
    }
}
