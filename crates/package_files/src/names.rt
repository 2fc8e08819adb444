//! Where the files of a package lie. Its log goes by the file, and not by the word that leads there.
use crate::failures::Failure;
use crate::logs::is_open_log;
use crate::looks::folder_of;
use crate::troubles::Trouble;
use std::fs::{self, File};
use std::io;
use std::os::unix::fs::MetadataExt;
use std::path::Path;
use std::rt::Files;

/// The files of a package: the path that was given, that of the file to which it leads, and that of its log, also as it is told.
#[derive(Drop)]
pub struct Names {
    named: String,
    package: String,
    log: String,
    told_log: String,
    is_log_named: bool,
}

impl Names {
    /// The path of the package as it was given.
    pub fn named(&self) -> &str {
        &self.named
    }

    /// The path of its file, behind all links.
    pub fn package(&self) -> &str {
        &self.package
    }

    /// The path of its log: beside the file, or the one that was given.
    pub fn log(&self) -> &str {
        &self.log
    }

    /// The path of its log as it is told: the one that was given, or the one beside the name that was given, if that is no link.
    pub fn told_log(&self) -> &str {
        &self.told_log
    }

    /// Whether the words name the log.
    pub fn is_log_named(&self) -> bool {
        self.is_log_named
    }

    /// The files of the package while it isn't whole: its own with this ending behind its name, and the log beside that, or the one that was given.
    pub fn of_part<R: AllocGlobal>(&self, rt: &R, ending: &str) -> Result<Names, Failure> {
        let named = part_of(rt, &self.named, ending)?;
        let package = part_of(rt, &self.package, ending)?;
        let (log, told_log) = if self.is_log_named {
            (owned(rt, &self.log)?, owned(rt, &self.told_log)?)
        } else {
            (beside(rt, &package)?, beside(rt, &named)?)
        };
        Ok(Names {
            named,
            package,
            log,
            told_log,
            is_log_named: self.is_log_named,
        })
    }
}

/// The files of the package at a path: the log is the one of the path that is given, or stands beside the file to which the package's path
/// leads, with `.log` behind its name. Refused is an open log beside a name that leads elsewhere, as earlier versions left it.
pub fn names_of<R: Files<File = File> + AllocGlobal>(
    rt: &R,
    package: &str,
    log: Option<&str>,
) -> Result<Names, Failure> {
    let named = owned(rt, package)?;
    let real = match real_path(rt, package) {
        Ok(path) => path,
        Err(error) => return Err(package_failure(error)),
    };
    let log_path = match log {
        Some(path) => match real_path(rt, path) {
            Ok(path) => path,
            Err(error) => return Err(log_failure(error)),
        },
        None => beside(rt, &real)?,
    };
    let told_log = match log {
        Some(path) => owned(rt, path)?,
        None if is_link(rt, package) => owned(rt, &log_path)?,
        None => beside(rt, package)?,
    };
    let names = Names {
        named,
        package: real,
        log: log_path,
        told_log,
        is_log_named: log.is_some(),
    };
    check_other_log(rt, &names)?;
    Ok(names)
}

// Refuses an open log beside the name that was given, where the package's log is another.
fn check_other_log<R: Files<File = File> + AllocGlobal>(
    rt: &R,
    names: &Names,
) -> Result<(), Failure> {
    if names.is_log_named() {
        return Ok(());
    }
    let other = beside(rt, names.named())?;
    if is_open_log(rt, &other) && !is_same_file(rt, &other, names.log()) {
        return Err(Failure::OtherLog);
    }
    Ok(())
}

/// Refuses a package that has several names, and of which no log is named: each name would have a log of its own beside it.
pub fn check_one_name<R: Files<File = File>>(rt: &R, names: &Names) -> Result<(), Failure> {
    if names.is_log_named() {
        return Ok(());
    }
    match fs::metadata(rt, names.package()) {
        Ok(metadata) if metadata.is_file() && metadata.nlink() > 1 => {
            Err(Failure::Package(Trouble::OtherNames))
        }
        _ => Ok(()),
    }
}

// Why a path leads nowhere.
#[derive(Clone, Copy)]
enum Astray {
    Memory,
    Hidden,
    Dangling,
}

fn package_failure(error: Astray) -> Failure {
    match error {
        Astray::Memory => Failure::Memory,
        Astray::Hidden => Failure::Package(Trouble::Hidden),
        Astray::Dangling => Failure::Package(Trouble::Dangling),
    }
}

fn log_failure(error: Astray) -> Failure {
    match error {
        Astray::Memory => Failure::Memory,
        Astray::Hidden => Failure::Log(Trouble::Hidden),
        Astray::Dangling => Failure::Log(Trouble::Dangling),
    }
}

fn owned<R: AllocGlobal>(rt: &R, text: &str) -> Result<String, Failure> {
    match String::from_str(rt.alloc(), text) {
        Ok(text) => Ok(text),
        Err(_) => Err(Failure::Memory),
    }
}

// The log beside a file.
fn beside<R: AllocGlobal>(rt: &R, path: &str) -> Result<String, Failure> {
    match format!(in rt.alloc(); "{path}.log") {
        Ok(path) => Ok(path),
        Err(_) => Err(Failure::Memory),
    }
}

// The file of a package that isn't whole.
fn part_of<R: AllocGlobal>(rt: &R, path: &str, ending: &str) -> Result<String, Failure> {
    match format!(in rt.alloc(); "{path}{ending}") {
        Ok(path) => Ok(path),
        Err(_) => Err(Failure::Memory),
    }
}

// The path of the file to which this one leads, or of the one that would be made.
fn real_path<R: Files<File = File> + AllocGlobal>(rt: &R, path: &str) -> Result<String, Astray> {
    match fs::canonicalize(rt, path) {
        Ok(real) => Ok(real.into_string()),
        Err(error) if error.kind() == io::ErrorKind::NotFound => path_to_be(rt, path),
        Err(error) if error.kind() == io::ErrorKind::OutOfMemory => Err(Astray::Memory),
        Err(_) => Err(Astray::Hidden),
    }
}

// The path of a file that isn't there: that of its folder, and its name.
fn path_to_be<R: Files<File = File> + AllocGlobal>(rt: &R, path: &str) -> Result<String, Astray> {
    if fs::symlink_metadata(rt, path).is_ok() {
        return Err(Astray::Dangling);
    }
    let name = match Path::new(path).file_name() {
        Some(name) => name,
        None => return as_given(rt, path),
    };
    match fs::canonicalize(rt, folder_of(path)) {
        Ok(folder) => match folder.join(rt.alloc(), name) {
            Ok(real) => Ok(real.into_string()),
            Err(_) => Err(Astray::Memory),
        },
        Err(_) => as_given(rt, path),
    }
}

fn as_given<R: AllocGlobal>(rt: &R, path: &str) -> Result<String, Astray> {
    match String::from_str(rt.alloc(), path) {
        Ok(path) => Ok(path),
        Err(_) => Err(Astray::Memory),
    }
}

// Whether the last name of a path is a link.
fn is_link<R: Files<File = File>>(rt: &R, path: &str) -> bool {
    match fs::symlink_metadata(rt, path) {
        Ok(metadata) => metadata.is_symlink(),
        Err(_) => false,
    }
}

/// Whether two paths lead to one file.
pub(crate) fn is_same_file<R: Files<File = File>>(rt: &R, one: &str, other: &str) -> bool {
    match (fs::metadata(rt, one), fs::metadata(rt, other)) {
        (Ok(one), Ok(other)) => one.dev() == other.dev() && one.ino() == other.ino(),
        _ => false,
    }
}
