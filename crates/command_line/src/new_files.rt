//! The files of a new package. It is made with `.part` behind its name, and gets its name once it is whole.
use crate::files::why_fault;
use package_files::{
    Failure, Faults, Found, Fresh, Names, PackageDevice, Trouble, check_one_name, create_files,
    cut_log, give_name, has_folder, look_at_log, remove_fresh, remove_part, trouble_at,
    trouble_of_kind,
};
use std::fs::{self, File};
use std::io::{self, Write};
use std::rt::Files;

/// Where a new package is made, and which of its files weren't there before.
#[derive(Drop)]
pub(crate) struct NewFiles {
    // None where an empty file has the name already.
    part: Option<Names>,
    fresh: Fresh,
}

impl NewFiles {
    /// Those of a package of this name. What can't become one is refused, and nothing is made. Files that are left of one that was cut off
    /// are told, and stay.
    pub(crate) fn of<R: Files<File = File> + AllocGlobal, E: Write>(
        rt: &R,
        names: &Names,
        err: &mut E,
    ) -> Result<NewFiles, Failure> {
        let fresh = check_new(rt, names)?;
        if !fresh.package {
            return Ok(NewFiles { part: None, fresh });
        }
        for ending in ENDINGS {
            let part = names.of_part(rt, ending)?;
            let failure = match check_new(rt, &part) {
                Ok(fresh) if fresh.package => {
                    return Ok(NewFiles {
                        part: Some(part),
                        fresh,
                    });
                }
                // (an empty one may have a log beside it that makes it whole)
                Ok(_) => Failure::Package(Trouble::Present),
                Err(failure) => failure,
            };
            go_past(&part, failure, err)?;
        }
        Err(Failure::Package(Trouble::Unmakable))
    }

    /// Makes and opens them. Where that fails nothing is left of them.
    pub(crate) fn open<'a, R: Files<File = File>>(
        &'a self,
        rt: &'a R,
        names: &'a Names,
        faults: &'a Faults,
    ) -> Result<PackageDevice<'a, R>, Failure> {
        match create_files(rt, self.names(names), faults) {
            Ok(device) => Ok(device),
            Err(failure) => {
                self.remove(rt, names);
                Err(self.failure_of_new(failure))
            }
        }
    }

    // Why they can't be made.
    fn failure_of_new(&self, failure: Failure) -> Failure {
        match failure {
            Failure::Package(Trouble::Unwritable) if self.fresh.package => {
                Failure::Package(Trouble::Unmakable)
            }
            Failure::Package(trouble) if self.fresh.package => Failure::Package(trouble.of_new()),
            failure => failure,
        }
    }

    // Removes what was made.
    fn remove<R: Files<File = File>>(&self, rt: &R, names: &Names) {
        match &self.part {
            Some(part) => remove_part(rt, part, self.fresh),
            None => remove_fresh(rt, names, self.fresh),
        }
    }

    // The names under which the package is made.
    fn names<'a>(&'a self, names: &'a Names) -> &'a Names {
        match &self.part {
            Some(part) => part,
            None => names,
        }
    }

    /// Gives the package, which was committed, its name. Where that can't be, nothing is left of it.
    pub(crate) fn keep<R: Files<File = File>>(&self, rt: &R, names: &Names) -> Result<(), Failure> {
        cut_log(rt, self.names(names));
        let Some(part) = &self.part else {
            return Ok(());
        };
        match give_name(rt, part, names) {
            Ok(()) => Ok(()),
            Err(error) => {
                self.remove(rt, names);
                Err(Failure::Package(trouble_of_name(error.kind())))
            }
        }
    }

    /// Takes away what was made of a package, and says why its call failed: where nothing is left, nothing is to be recovered.
    pub(crate) fn undo<R: Files<File = File>>(
        &self,
        rt: &R,
        names: &Names,
        faults: &Faults,
        failure: Failure,
    ) -> Failure {
        let failure = why_fault(rt, self.names(names), faults, failure);
        self.remove(rt, names);
        match failure {
            Failure::Package(trouble)
                if trouble_at(rt, names.package()) == Some(Trouble::Missing) => {
                Failure::Package(trouble.of_new())
            }
            failure => failure,
        }
    }
}

// What a package that isn't whole has behind its name: the first that nothing has.
const ENDINGS: [&str; 5] = [".part", ".part2", ".part3", ".part4", ".part5"];

// Tells of a file that is left of a package that was cut off. Another failure is given back.
fn go_past<E: Write>(part: &Names, failure: Failure, err: &mut E) -> Result<(), Failure> {
    let left = match failure {
        Failure::Package(Trouble::Present) => part.named(),
        Failure::Log(_) if !part.is_log_named() => part.told_log(),
        failure => return Err(failure),
    };
    let _ = writeln!(
        err,
        "msidb: {left}: it is left of a create, an adopt or a build that was cut short, and may be removed"
    );
    Ok(())
}

// Why a whole package didn't get its name.
fn trouble_of_name(kind: io::ErrorKind) -> Trouble {
    match kind {
        io::ErrorKind::AlreadyExists => Trouble::Present,
        kind => match trouble_of_kind(kind) {
            Trouble::NoSpace => Trouble::NoSpaceForNew,
            _ => Trouble::Unmakable,
        },
    }
}

// Refuses what can't become a new package and its log: a package that is there, a file that is no log or may be any file, the log of another
// package, a folder that isn't there.
fn check_new<R: Files<File = File>>(rt: &R, names: &Names) -> Result<Fresh, Failure> {
    let package = is_place_free(rt, names.package())?;
    check_one_name(rt, names)?;
    let log = match look_at_log(rt, names)? {
        Found::Missing if !has_folder(rt, names.log()) => {
            return Err(Failure::Log(Trouble::NoFolder));
        }
        Found::Doubtful => return Err(Failure::Log(Trouble::DoubtfulLog)),
        Found::Open if package => return Err(Failure::Log(Trouble::OtherCommit)),
        found => found == Found::Missing,
    };
    if !package && !is_empty(rt, names.package()) {
        return Err(Failure::Package(Trouble::Present));
    }
    Ok(Fresh { package, log })
}

// Whether there is no file where a package is to be made. Refused where none can be made.
fn is_place_free<R: Files<File = File>>(rt: &R, path: &str) -> Result<bool, Failure> {
    match trouble_at(rt, path) {
        None => Ok(false),
        Some(Trouble::Missing) if has_folder(rt, path) => Ok(true),
        Some(Trouble::Missing) => Err(Failure::Package(Trouble::NoFolder)),
        Some(trouble) => Err(Failure::Package(trouble)),
    }
}

// Whether a file has no bytes.
fn is_empty<R: Files<File = File>>(rt: &R, path: &str) -> bool {
    match fs::metadata(rt, path) {
        Ok(metadata) => metadata.len() == 0,
        Err(_) => false,
    }
}
