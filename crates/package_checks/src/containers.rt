//! Compound files that are looked through: a function for each call, since what is told of a call costs time wherever it is seen.
use cfb::{CaseMapper, MiniAllocator, ReadMedium, Validation};
use cfb_findings::{
    broken_streams, shared_mini_sectors, shared_sectors, uncovered_sectors, unmarked_tables,
};
use cfb_medium::Error;
use cfb_opening::open_file;
use package_files::{Names, Shown, shown_at};
use std::alloc::Global;
use std::fs::File;
use std::rt::Files;

/// A compound file as its tables tell it, and how many bytes it has.
#[derive(Drop)]
pub(crate) struct Container {
    file: MiniAllocator<Shown>,
    len: u64,
}

/// A compound file, to be looked through for the places at which it isn't sound.
pub(crate) fn container_at<R: Files<File = File> + AllocGlobal>(
    rt: &R,
    names: &Names,
) -> Result<Container, Error> {
    let mut medium = shown_at(rt, names)?;
    let len = medium.len()?;
    let file = open_container(rt.alloc(), medium)?;
    Ok(Container { file, len })
}

fn open_container(alloc: Global, medium: Shown) -> Result<MiniAllocator<Shown>, Error> {
    let letters = CaseMapper::ascii(alloc)?;
    match open_file(alloc, medium, &letters, Validation::Permissive) {
        Ok(file) => Ok(file),
        Err((_medium, error)) => Err(error),
    }
}

pub(crate) fn uncovered_in(container: &Container) -> Result<Option<u32>, Error> {
    uncovered_sectors(&container.file)
}

pub(crate) fn unmarked_in(alloc: Global, container: &Container) -> Result<Vec<u32>, Error> {
    unmarked_tables(alloc, &container.file)
}

pub(crate) fn shared_in(alloc: Global, container: &Container) -> Result<Vec<u32>, Error> {
    shared_sectors(alloc, &container.file)
}

pub(crate) fn shared_minis_in(alloc: Global, container: &Container) -> Result<Vec<u32>, Error> {
    shared_mini_sectors(alloc, &container.file)
}

pub(crate) fn broken_in(alloc: Global, container: &Container) -> Result<Vec<u32>, Error> {
    broken_streams(alloc, &container.file, container.len)
}

/// The name of a stream, as the container has it.
pub(crate) fn name_in(alloc: Global, container: &Container, id: u32) -> Result<String, Error> {
    let directory = container.file.directory();
    if directory.has_dir_entry(id) {
        directory.dir_entry(id).name(alloc)
    } else {
        Ok(String::new(alloc))
    }
}
