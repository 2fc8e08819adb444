//! The two files of a package that a word writes, and what is refused before it does.
use cfb_medium::Error;
use package_files::{
    Failure, Faults, Found, Names, PackageDevice, Trouble, check_one_name, has_folder, look_at_log,
    open_files, trouble_of_kind, writers_trouble_at,
};
use staged::{Recovered, recover};
use std::fs::File;
use std::rt::Files;

/// What is found as the log of a package that is there and can be written. Nothing is written. A log that is named and may be any file is
/// refused.
pub(crate) fn look_at<R: Files<File = File>>(rt: &R, names: &Names) -> Result<Found, Failure> {
    if let Some(trouble) = writers_trouble_at(rt, names.package()) {
        return Err(Failure::Package(trouble));
    }
    check_one_name(rt, names)?;
    look_at_log(rt, names)
}

/// The same for a word that commits.
pub(crate) fn look_to_commit<R: Files<File = File>>(
    rt: &R,
    names: &Names,
) -> Result<Found, Failure> {
    match look_at(rt, names)? {
        Found::Doubtful if names.is_log_named() => Err(Failure::Log(Trouble::DoubtfulLog)),
        Found::Missing if !has_folder(rt, names.log()) => Err(Failure::Log(Trouble::NoFolder)),
        found => Ok(found),
    }
}

/// The files of a package that is there.
pub(crate) fn open<'a, R: Files<File = File>>(
    rt: &'a R,
    names: &'a Names,
    faults: &'a Faults,
) -> Result<PackageDevice<'a, R>, Failure> {
    open_files(rt, names, faults)
}

/// Why a call on the two files met a fault: no space is left, or the log can't be made.
pub(crate) fn why_fault<R: Files<File = File>>(
    rt: &R,
    names: &Names,
    faults: &Faults,
    failure: Failure,
) -> Failure {
    let kind = match (failure, faults.last()) {
        (Failure::Package(Trouble::Fault), Some(kind)) => kind,
        _ => return failure,
    };
    match look_at_log(rt, names) {
        Ok(Found::Missing) if trouble_of_kind(kind) == Trouble::Unwritable => {
            Failure::Log(Trouble::Unmakable)
        }
        _ if trouble_of_kind(kind) == Trouble::NoSpace => Failure::Package(Trouble::NoSpace),
        _ => failure,
    }
}

/// Finishes the commit of a log, where it holds one.
pub(crate) fn finish<R: Files<File = File>>(rt: &R, names: &Names) -> Result<Recovered, Failure> {
    let faults = Faults::new();
    let mut device = open(rt, names, &faults)?;
    match recover_device(&mut device) {
        Ok(recovered) => Ok(recovered),
        Err(Error::InvalidData) => Err(Failure::Log(Trouble::UnfitCommit)),
        Err(_) => Err(why_fault(rt, names, &faults, Failure::Package(Trouble::Fault))),
    }
}

// A function of its own, since what is told of the call costs time wherever it is seen.
fn recover_device<R: Files<File = File>>(
    device: &mut PackageDevice<'_, R>,
) -> Result<Recovered, Error> {
    recover(device)
}
