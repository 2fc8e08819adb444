//! Answers rows of data on compound files: a row names a call and what it is given; what is printed beneath it is the answer.
//! Rows of `disk.rows` are answered on files on disk, all others in memory. Of any other file it prints what it holds as a compound file.
#![tactic(auto)]

mod answers;
mod calls;
mod chains;
mod contents;
mod directory;
mod disk;
mod faults;
mod files;
mod many_names;
mod minis;
mod names;
mod opening;
mod shapes;
mod siblings;
mod stores;
mod streams;
mod told;

use anyhow::Result;
use chains::Chains;
use directory::Directories;
use disk::Disk;
use files::FileInMemory;
use minis::Minis;
use names::Names;
use opening::Openings;
use siblings::Siblings;
use std::{env, fs};
use stores::Stores;
use test_support::print_rows;

fn main(rt: HostRuntime) -> Result<()> {
    for path in env::args(&rt)?.skip(1) {
        if path.as_str().ends_with(".rows") {
            print_file(&rt, path.as_str())?;
        } else {
            contents::print(&rt, path.as_str())?;
        }
    }
    Ok(())
}

// Prints a file of rows with their answers.
fn print_file(rt: &HostRuntime, path: &str) -> Result<()> {
    let text = fs::read_to_string(rt, path)?;
    let alloc = rt.alloc();
    println!(rt; "== {path}")?;
    match path {
        "names.rows" => print_rows(rt, text.as_str(), Names::new(alloc)?),
        "siblings.rows" => print_rows(rt, text.as_str(), Siblings::new(alloc)?),
        "chains.rows" => print_rows(rt, text.as_str(), Chains::new()),
        "directory.rows" => print_rows(rt, text.as_str(), Directories::new(alloc)?),
        "minis.rows" => print_rows(rt, text.as_str(), Minis::new(alloc)?),
        "opening.rows" => print_rows(rt, text.as_str(), Openings::new(alloc)?),
        "stops.rows" => print_rows(rt, text.as_str(), Stores::new(alloc)),
        "disk.rows" => print_rows(rt, text.as_str(), Disk::new(rt)),
        _ => print_rows(rt, text.as_str(), FileInMemory::new()),
    }
}
