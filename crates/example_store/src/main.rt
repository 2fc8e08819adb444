//! A store of a format of its own over `staged`: one number, as eight bytes with the least first, which each run counts up.
#![tactic(auto)]

mod counting;

use crate::counting::{count_up, open_store};
use anyhow::Result;
use file_device::FileDevice;
use staged::{Device, MemoryDevice};
use std::alloc::Global;
use std::env;

// With two words it counts in files of these paths, else three times in memory.
fn main(rt: HostRuntime) -> Result<()> {
    let mut words = Vec::new(rt.alloc());
    for word in env::args(&rt)?.skip(1) {
        words.push(word)?;
    }
    match words.as_slice() {
        [home, log] => count_in(&rt, FileDevice::create(&rt, home, log)?),
        _ => count_in_memory(&rt),
    }
}

// Counts up once, and prints the number.
fn count_in<D: Device + Drop>(rt: &HostRuntime, device: D) -> Result<()> {
    let mut store = open_store(rt.alloc(), device)?;
    let number = count_up(&mut store)?;
    println!(rt; "{number}")?;
    Ok(())
}

// Counts up three times, each time over the device that the time before left.
fn count_in_memory(rt: &HostRuntime) -> Result<()> {
    let alloc = rt.alloc();
    let mut device = MemoryDevice::new(Vec::new(alloc), Vec::new(alloc));
    for _ in 0..3 {
        let mut store = open_store(alloc, device)?;
        let number = count_up(&mut store)?;
        println!(rt; "{number}")?;
        device = store.into_device();
    }
    Ok(())
}
