//! Answers rows of data on sessions over a device in memory: a row names a call and what it is given; what is printed beneath it is the
//! answer.
#![tactic(auto)]

mod beginnings;
mod calls;
mod faults;
mod home;
mod sessions;
mod stops;

use anyhow::Result;
use sessions::Sessions;
use std::{env, fs};
use test_support::print_rows;

fn main(rt: HostRuntime) -> Result<()> {
    for path in env::args(&rt)?.skip(1) {
        let path = path.as_str();
        let text = fs::read_to_string(&rt, path)?;
        println!(&rt; "== {path}")?;
        print_rows(&rt, text.as_str(), Sessions::new(rt.alloc()))?;
    }
    Ok(())
}
