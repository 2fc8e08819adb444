//! Compound files on disk, by the calls that take a path.
use crate::answers::answer_of;
use cfb::{create, open, open_rw};
use cfb_medium::Error;
use std::alloc::Global;
use test_support::{Row, Subject};

/// The disk that the program's paths lead to.
#[derive(Drop)]
pub struct Disk<'a> {
    rt: &'a HostRuntime,
}

impl<'a> Disk<'a> {
    /// The disk of this host.
    pub fn new(rt: &'a HostRuntime) -> Disk<'a> {
        Disk { rt }
    }
}

impl Subject for Disk<'_> {
    // A row tells how a file is opened, its path, and the call that is made on it.
    fn answer(&mut self, alloc: Global, row: &Row) -> Result<String, Error> {
        let path = row.text(1);
        let mut file = match row.call() {
            "make" => create(self.rt, alloc, path)?,
            "change" => open_rw(self.rt, alloc, path)?,
            _ => open(self.rt, alloc, path)?,
        };
        let call = row.cell(2).ok_or(Error::InvalidInput)?;
        answer_of(alloc, &mut file, &Row::of(alloc, call)?)
    }
}
