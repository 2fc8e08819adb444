//! Calls of a package, each in a function of its own: what is told of a call costs time wherever it is seen.
use cfb::CaseMapper;
use cfb_medium::{Error, Medium};
use msi::{Package, StreamReader};
use msi_spec::PackageType;
use std::alloc::Global;
use test_support::{Survivor, runs};

/// A package of which a crash leaves what was committed.
pub type Stored = Package<Survivor>;

/// A medium of which a crash leaves these bytes.
pub fn medium_of(alloc: Global, bytes: &[u8]) -> Result<Survivor, Error> {
    let mut medium = Survivor::new(alloc)?;
    medium.write_at(0, bytes)?;
    medium.commit()?;
    Ok(medium)
}

pub fn open(alloc: Global, medium: Survivor, letters: CaseMapper) -> Result<Stored, Error> {
    match Package::open(alloc, medium, letters) {
        Ok(package) => Ok(package),
        Err((_, error)) => Err(error),
    }
}

/// A new package that was never committed.
pub fn create(alloc: Global) -> Result<Stored, Error> {
    let medium = Survivor::new(alloc)?;
    let letters = CaseMapper::ascii(alloc)?;
    match Package::create(alloc, PackageType::Installer, medium, letters) {
        Ok(package) => Ok(package),
        Err((_, error)) => Err(error),
    }
}

/// The medium of a package, with what a crash leaves of it.
pub fn left_of(package: Stored) -> Result<Survivor, Error> {
    let mut medium = package.into_medium();
    match medium.roll_back() {
        Ok(()) => Ok(medium),
        Err(error) => Err(error),
    }
}

/// A medium with a copy of a package.
pub fn copy_of(alloc: Global, package: &mut Stored) -> Result<Survivor, Error> {
    let mut target = Survivor::new(alloc)?;
    match package.copy_to(&mut target) {
        Ok(()) => Ok(target),
        Err(error) => Err(error),
    }
}

pub fn is_sound(package: &Stored) -> bool {
    package.is_sound()
}

pub fn has_stream(package: &Stored, name: &str) -> bool {
    package.has_stream(name)
}

/// The bytes of a stream, as runs.
pub fn told_stream(alloc: Global, package: &mut Stored, name: &str) -> Result<String, Error> {
    told_bytes(alloc, package.read_stream(name)?)
}

fn told_bytes(alloc: Global, stream: StreamReader) -> Result<String, Error> {
    runs(alloc, &stream.into_bytes())
}

pub fn flush(package: &mut Stored) -> Result<(), Error> {
    package.flush()
}

pub fn commit(package: &mut Stored) -> Result<(), Error> {
    package.commit()
}

pub fn roll_back(package: &mut Stored) -> Result<(), Error> {
    package.roll_back()
}
