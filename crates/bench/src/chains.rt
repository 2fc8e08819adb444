//! Sectors taken into a chain of a file in memory.
use crate::print_time;
use anyhow::Result;
use cfb_fat::Allocator;
use cfb_medium::{Error, MemoryMedium, Version};
use cfb_sectors::{NewSector, SectorInit, Sectors};
use std::alloc::Global;
use std::time::Instant;

// The header of a file of version 4 that lists sector 0 as that of the FAT, and that sector without an entry for another.
fn bytes(alloc: Global) -> Result<Vec<u8>, Error> {
    let mut bytes = vec![in alloc; 0u8; 44]?;
    bytes.extend_from_slice(&[1, 0, 0, 0])?;
    bytes.resize(68, 0)?;
    bytes.extend_from_slice(&[0xFE, 0xFF, 0xFF, 0xFF, 0, 0, 0, 0, 0, 0, 0, 0])?;
    bytes.resize(512, 0xFF)?;
    bytes.resize(4096, 0)?;
    bytes.extend_from_slice(&[0xFD, 0xFF, 0xFF, 0xFF])?;
    bytes.resize(8192, 0xFF)?;
    Ok(bytes)
}

fn sectors(alloc: Global) -> Result<Sectors<MemoryMedium>, Error> {
    let bytes = bytes(alloc)?;
    let len = bytes.len() as u64;
    Ok(Sectors::new(Version::V4, len, MemoryMedium::from_bytes(alloc, bytes)))
}

fn allocator(alloc: Global) -> Result<Allocator<MemoryMedium>, Error> {
    let sectors = sectors(alloc)?;
    let fat_sectors = vec![in alloc; 0u32]?;
    match Allocator::new(alloc, sectors, Vec::new(alloc), fat_sectors) {
        Ok(allocator) => Ok(allocator),
        Err((_, error)) => Err(error),
    }
}

// Makes a chain of so many sectors, a call for each: its start.
fn append(allocator: &mut Allocator<MemoryMedium>, count: usize) -> Result<u32, Error> {
    let start = begin_chain(allocator)?;
    let mut last = start;
    for _ in 1..count {
        last = extend_chain(allocator, last)?;
    }
    Ok(start)
}

// A function of its own, since what is told of the call costs time wherever it is seen.
fn extend_chain(allocator: &mut Allocator<MemoryMedium>, last: u32) -> Result<u32, Error> {
    allocator.extend_chain(last, NewSector::Init(SectorInit::Zero))
}

/// Appends sectors to a chain, a call for each, frees the chain, and appends as many to another.
pub fn append_and_free(rt: &HostRuntime, count: usize) -> Result<()> {
    run(rt, &mut allocator(rt.alloc())?, count)
}

fn run(rt: &HostRuntime, allocator: &mut Allocator<MemoryMedium>, count: usize) -> Result<()> {
    let begin = Instant::now(rt)?;
    let start = append(allocator, count)?;
    print_time(rt, "sectors appended", begin)?;
    let begin = Instant::now(rt)?;
    allocator.free_chain(start)?;
    print_time(rt, "sectors freed", begin)?;
    let begin = Instant::now(rt)?;
    append(allocator, count)?;
    print_time(rt, "sectors appended again", begin)
}

/// Makes chains of one sector, frees every second of them, and then frees and takes a sector so often, at places far apart.
pub fn free_every_second(rt: &HostRuntime, count: u32) -> Result<()> {
    fragment(rt, &mut allocator(rt.alloc())?, count)
}

fn fragment(rt: &HostRuntime, allocator: &mut Allocator<MemoryMedium>, count: u32) -> Result<()> {
    let starts = begin_chains(rt.alloc(), allocator, count)?;
    let begin = Instant::now(rt)?;
    free_second(allocator, &starts)?;
    print_time(rt, "sectors freed, every second", begin)?;
    let begin = Instant::now(rt)?;
    renew_chains(allocator, &starts)?;
    print_time(rt, "sectors freed and taken", begin)
}

// Makes so many chains of one sector: their starts.
fn begin_chains(
    alloc: Global,
    allocator: &mut Allocator<MemoryMedium>,
    count: u32,
) -> Result<Vec<u32>, Error> {
    let mut starts = Vec::new(alloc);
    for _ in 0..count {
        starts.push(begin_chain(allocator)?)?;
    }
    Ok(starts)
}

// Frees every second chain, from the first on.
fn free_second(allocator: &mut Allocator<MemoryMedium>, starts: &[u32]) -> Result<(), Error> {
    for (at, start) in starts.iter().enumerate() {
        if at % 2 == 0 {
            free_chain(allocator, *start)?;
        }
    }
    Ok(())
}

// Frees each of the other chains, far apart, and begins another after each.
fn renew_chains(allocator: &mut Allocator<MemoryMedium>, starts: &[u32]) -> Result<(), Error> {
    let count = starts.len() / 2;
    for n in 0..count {
        let place = n.wrapping_mul(7919) % count.max(1);
        if let Some(start) = starts.get(place.saturating_mul(2).saturating_add(1)) {
            free_chain(allocator, *start)?;
            begin_chain(allocator)?;
        }
    }
    Ok(())
}

fn begin_chain(allocator: &mut Allocator<MemoryMedium>) -> Result<u32, Error> {
    allocator.begin_chain(NewSector::Init(SectorInit::Zero))
}

fn free_chain(allocator: &mut Allocator<MemoryMedium>, start: u32) -> Result<(), Error> {
    allocator.free_chain(start)
}
