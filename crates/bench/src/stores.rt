//! Writes to a store, at places far apart and side by side, and their commits.
use crate::print_time;
use anyhow::Result;
use cfb_medium::{Error, Medium, ReadMedium};
use staged::{MemoryDevice, Staged};
use std::alloc::Global;
use std::time::Instant;

// Bytes of the home file for each write.
const ROOM: u64 = 8192;

// A store of a home file in memory that has room for so many writes.
fn store(alloc: Global, count: usize) -> Result<Staged<MemoryDevice>, Error> {
    let home = vec![in alloc; 0u8; count.saturating_mul(ROOM as usize)]?;
    match Staged::new(alloc, MemoryDevice::new(home, Vec::new(alloc))) {
        Ok(store) => Ok(store),
        Err((_, error)) => Err(error),
    }
}

// A function for each call: what is told of a call costs time wherever it is seen.
fn write_at(store: &mut Staged<MemoryDevice>, at: u64, bytes: &[u8]) -> Result<(), Error> {
    store.write_at(at, bytes)
}

fn commit(store: &mut Staged<MemoryDevice>) -> Result<(), Error> {
    store.commit()
}

// Writes 4,096 bytes so often, each time in another room.
fn write_all(store: &mut Staged<MemoryDevice>, count: usize) -> Result<(), Error> {
    let bytes = [7; 4096];
    for index in 0..count as u64 {
        let place = index.saturating_mul(7919) % (count as u64).max(1);
        write_at(store, place.saturating_mul(ROOM), &bytes)?;
    }
    Ok(())
}

/// Writes 4,096 bytes so often at places far apart, in shuffled order; then reads the whole and commits it.
pub fn write_apart(rt: &HostRuntime, count: usize) -> Result<()> {
    let mut store = store(rt.alloc(), count)?;
    run(rt, &mut store, count)
}

fn run(rt: &HostRuntime, store: &mut Staged<MemoryDevice>, count: usize) -> Result<()> {
    let begin = Instant::now(rt)?;
    write_all(store, count)?;
    print_time(rt, "writes", begin)?;
    let mut whole = vec![in rt.alloc(); 0u8; count.saturating_mul(ROOM as usize)]?;
    let begin = Instant::now(rt)?;
    store.read_at(0, &mut whole)?;
    print_time(rt, "bytes read", begin)?;
    let begin = Instant::now(rt)?;
    commit(store)?;
    print_time(rt, "commit of as many writes", begin)
}

/// Writes so many pages of 512 bytes side by side, in one call, and commits them.
pub fn commit_pages(rt: &HostRuntime, count: usize) -> Result<()> {
    let bytes = vec![in rt.alloc(); 7u8; count.saturating_mul(512)]?;
    let mut store = store(rt.alloc(), 0)?;
    let begin = Instant::now(rt)?;
    write_at(&mut store, 0, &bytes)?;
    print_time(rt, "pages written", begin)?;
    let begin = Instant::now(rt)?;
    commit(&mut store)?;
    print_time(rt, "commit of as many pages", begin)
}
