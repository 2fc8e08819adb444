//! Packages that are only read: what is shown is what a recovery would make of the two files.
use crate::failures::Failure;
use crate::logs::{Found, look_at_log};
use crate::looks::trouble_at;
use crate::names::Names;
use crate::troubles::Trouble;
use crate::unwritten::UnwrittenDevice;
use cfb_medium::Error;
use file_device::FileDevice;
use staged::Staged;
use staged_view::View;
use std::alloc::Global;
use std::fs::File;
use std::io::Write;
use std::rt::Files;

/// The file of a package as a recovery would leave it, by its two files, which are only read: what is changed of it stays in memory.
pub type Shown = Staged<UnwrittenDevice>;

/// Opens a package to be read. `InvalidData` for a malformed log; else `NotFound`, `Device` or `Memory`.
pub fn shown_at<R: Files<File = File> + AllocGlobal>(
    rt: &R,
    names: &Names,
) -> Result<Shown, Error> {
    let log = match look_at_log(rt, names) {
        Ok(Found::Missing | Found::Doubtful) => None,
        Ok(Found::Closed | Found::Open) => Some(names.log()),
        Err(Failure::Log(Trouble::NoLog | Trouble::Dangling)) if !names.is_log_named() => None,
        Err(_) => return Err(Error::Device),
    };
    let device = FileDevice::open_to_read(rt, names.package(), log)?;
    view_of(rt.alloc(), device)
}

// A function of its own, since what is told of the call costs time wherever it is seen.
fn view_of(alloc: Global, device: FileDevice) -> Result<Shown, Error> {
    match View::new(alloc, device) {
        Ok(view) => unwritten(alloc, view),
        Err((_device, error)) => Err(error),
    }
}

fn unwritten(alloc: Global, view: View<FileDevice>) -> Result<Shown, Error> {
    match Staged::new(alloc, UnwrittenDevice::new(view)) {
        Ok(shown) => Ok(shown),
        Err((_device, error)) => Err(error),
    }
}

/// Refuses a package that can't be read, and one whose log is malformed or can't be read. Where a commit was cut short, that is told: what
/// is shown then is what a recovery will make of it.
pub fn check_shown<R: Files<File = File> + AllocGlobal, E: Write>(
    rt: &R,
    names: &Names,
    err: &mut E,
) -> Result<(), Failure> {
    if let Some(trouble) = trouble_at(rt, names.package()) {
        return Err(Failure::Package(trouble));
    }
    let found = match look_at_log(rt, names) {
        Ok(found) => found,
        Err(Failure::Log(Trouble::NoLog | Trouble::Dangling)) if !names.is_log_named() =>
            Found::Missing,
        Err(failure) => return Err(failure),
    };
    if found == Found::Open {
        check_view(rt, names)?;
        let named = names.named();
        let _ = writeln!(
            err,
            "msidb: {named}: a commit was cut short; shown is what `msidb recover` will make of it"
        );
    }
    Ok(())
}

// Refuses an open log that is malformed for its package.
fn check_view<R: Files<File = File> + AllocGlobal>(rt: &R, names: &Names) -> Result<(), Failure> {
    match shown_at(rt, names) {
        Ok(_view) => Ok(()),
        Err(Error::InvalidData) => Err(Failure::Log(Trouble::UnfitCommit)),
        Err(Error::Memory) => Err(Failure::Memory),
        Err(_) => Err(Failure::Log(Trouble::Unreadable)),
    }
}
