//! Answers rows of data: a row names a call and what it is given; what is printed beneath it is what the call answers.
#![tactic(auto)]

mod calls;
mod columns;
mod commands;
mod packages;
mod pieces;
mod pool;
mod runs;
mod said;
mod summary;
mod tables;
mod texts;
mod values;

use anyhow::{Result, bail};
use columns::Columns;
use commands::Commands;
use packages::Packages;
use pool::Pools;
use std::{env, fs};
use summary::Properties;
use tables::Tables;
use test_support::print_rows;
use texts::Texts;
use values::Values;

fn main(rt: HostRuntime) -> Result<()> {
    for path in env::args(&rt)?.skip(1) {
        print_file(&rt, path.as_str())?;
    }
    Ok(())
}

// Prints a file of rows with their answers.
fn print_file(rt: &HostRuntime, path: &str) -> Result<()> {
    let text = fs::read_to_string(rt, path)?;
    println!(rt; "== {path}")?;
    match path {
        "columns.rows" => print_rows(rt, text.as_str(), Columns),
        "commands.rows" => print_rows(rt, text.as_str(), Commands),
        "packages.rows" => print_rows(rt, text.as_str(), Packages::new(rt)),
        "pool.rows" => print_rows(rt, text.as_str(), Pools::new(rt.alloc())),
        "summary.rows" => print_rows(rt, text.as_str(), Properties::new(rt.alloc())?),
        "tables.rows" => print_rows(rt, text.as_str(), Tables),
        "texts.rows" => print_rows(rt, text.as_str(), Texts),
        "values.rows" => print_rows(rt, text.as_str(), Values),
        _ => bail!("{path}: no such rows"),
    }
}
