//! Why a file isn't taken as a package.
use crate::packages::{container_at, is_sound_at};
use cfb::{CompoundFile, MAGIC_NUMBER, ReadMedium};
use cfb_medium::Error;
use msi_parts::kind_of;
use msi_texts::SUMMARY_INFO_STREAM_NAME;
use package_files::{Names, Shown, Trouble, shown_at, tell, tell_trouble, trouble_at};
use std::fs::File;
use std::io::Write;
use std::rt::Files;

/// Says what is wrong with a file that was refused as a package.
pub fn tell_why_refused<R: Files<File = File> + AllocGlobal, E: Write>(
    rt: &R,
    names: &Names,
    error: Error,
    err: &mut E,
) {
    if error == Error::Memory {
        tell("out of memory", err);
    } else {
        tell_trouble(names.named(), trouble_of(rt, names, error), err);
    }
}

/// What is wrong with a file that was refused as a package.
pub fn trouble_of<R: Files<File = File> + AllocGlobal>(
    rt: &R,
    names: &Names,
    error: Error,
) -> Trouble {
    match trouble_at(rt, names.package()) {
        Some(trouble) => trouble,
        None if error == Error::Device => Trouble::Unreadable,
        None => why_no_package(rt, names, error),
    }
}

/// What is wrong with a file that a session refused.
pub fn why_refused<R: Files<File = File> + AllocGlobal>(rt: &R, names: &Names) -> Trouble {
    match is_sound_at(rt, names) {
        Ok(_) => Trouble::Fault,
        Err(error) => trouble_of(rt, names, error),
    }
}

// What is wrong with a file that can be read.
fn why_no_package<R: Files<File = File> + AllocGlobal>(
    rt: &R,
    names: &Names,
    error: Error,
) -> Trouble {
    match container_at(rt, names) {
        Ok(file) => why_no_package_in(&file, error),
        Err(Error::InvalidData) => why_no_container(rt, names),
        Err(_) => Trouble::Unreadable,
    }
}

// What a file is that isn't opened as a compound file: whether it begins as one.
fn why_no_container<R: Files<File = File> + AllocGlobal>(rt: &R, names: &Names) -> Trouble {
    let mut start = [0u8; 8];
    match shown_at(rt, names) {
        Ok(mut file) => match file.read_at(0, &mut start) {
            Ok(8) if start == MAGIC_NUMBER => Trouble::DamagedContainer,
            Ok(0) => Trouble::Empty,
            _ => Trouble::NoContainer,
        },
        Err(_) => Trouble::NoContainer,
    }
}

// What a compound file lacks that isn't opened as a package.
fn why_no_package_in(file: &CompoundFile<Shown>, error: Error) -> Trouble {
    if !has_kind(file) {
        return Trouble::OtherRoot;
    }
    if !has_summary(file) {
        return Trouble::NoSummary;
    }
    match error {
        Error::NotFound => Trouble::NoPool,
        Error::UnexpectedEof => Trouble::CutParts,
        _ => Trouble::WrongParts,
    }
}

// Functions of their own, since what is told of these calls costs time wherever it is seen.
fn has_summary(file: &CompoundFile<Shown>) -> bool {
    file.is_stream(SUMMARY_INFO_STREAM_NAME)
}

fn has_kind(file: &CompoundFile<Shown>) -> bool {
    match file.root_entry() {
        Ok(root) => kind_of(root.clsid()).is_ok(),
        Err(_) => false,
    }
}
