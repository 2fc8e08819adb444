//! Files over a medium that fails once, at each of its calls in turn.
use crate::answers::change;
use crate::told::tree_of;
use cfb::CompoundFile;
use cfb_medium::Error;
use cfb_tree::CaseMapper;
use std::alloc::Global;
use test_support::{FailingMedium, Row, copy_of};

/// A compound file in memory.
pub type File = CompoundFile<FailingMedium>;

/// More calls of a medium than are made on any.
pub const MANY: u64 = u64::MAX;

/// The file that a medium holds, opened leniently.
pub fn open_leniently(
    alloc: Global,
    medium: FailingMedium,
) -> Result<File, (FailingMedium, Error)> {
    match CaseMapper::ascii(alloc) {
        Ok(letters) => CompoundFile::open(alloc, medium, letters),
        Err(error) => Err((medium, error)),
    }
}

/// Opens these bytes while each call of the medium fails in turn: the fault is told and the bytes stay, until none is left.
pub fn open_fails(alloc: Global, bytes: &[u8]) -> Result<String, Error> {
    for failing in 0..MANY {
        let medium = FailingMedium::new(alloc, Vec::from_slice(alloc, bytes)?, failing);
        match open_leniently(alloc, medium) {
            Ok(file) => return end_of_call(alloc, file.into_inner().failures()),
            Err((medium, Error::Device)) if medium.failures() == 1 && medium.bytes() == bytes => {}
            Err((_, error)) => return Ok(format!(in alloc; "{error:?} at call {failing}")?),
        }
    }
    copy_of(alloc, "endless")
}

/// Makes a row's call on the file of these bytes while each call of the medium fails in turn: the fault is told, and the file is as
/// it was or has failed, until none is left.
pub fn call_fails(alloc: Global, bytes: &[u8], row: &Row) -> Result<String, Error> {
    let first = file_over_faults(alloc, bytes, MANY)?.into_inner().calls();
    for failing in first..MANY {
        let mut file = file_over_faults(alloc, bytes, failing)?;
        let before = tree_of(alloc, &file)?;
        match change(alloc, &mut file, row) {
            Ok(()) => return end_of_call(alloc, file.into_inner().failures()),
            Err(Error::Device) if file.has_failed() => {}
            Err(Error::Device) if tree_of(alloc, &file)? == before => {}
            Err(error) => return Ok(format!(in alloc; "{error:?} at call {failing}")?),
        }
    }
    copy_of(alloc, "endless")
}

// The file of these bytes, over a medium whose call after so many fails.
fn file_over_faults(alloc: Global, bytes: &[u8], failing: u64) -> Result<File, Error> {
    let medium = FailingMedium::new(alloc, Vec::from_slice(alloc, bytes)?, failing);
    open_leniently(alloc, medium).map_err(|refused| refused.1)
}

// It was done: no call has failed meanwhile.
fn end_of_call(alloc: Global, failures: u64) -> Result<String, Error> {
    if failures > 0 {
        return copy_of(alloc, "done in spite of a fault");
    }
    copy_of(alloc, "each fault told, then done")
}
