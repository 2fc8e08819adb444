//! Benchmarks: runs the one that the words name at the size that they give, and prints what it took. Without words it lists them.
#![tactic(auto)]

mod chains;
mod files;
mod fragments;
mod rows;
mod stores;

use anyhow::{Result, bail};
use files::{Order, Part};
use std::env;
use std::time::Instant;

// A line for each benchmark: its word, what its size counts, and what it does.
const LIST: &str = "\
chain SECTORS     appends sectors to one chain, a call each, frees the chain, and appends as many again
holes CHAINS      makes so many chains of one sector, frees every second, and then frees one and takes one, far apart
store WRITES      writes 4,096 bytes to a store so often, at places far apart, and commits
commit PAGES      writes so many pages of 512 bytes side by side to a store, and commits
streams COUNT     makes so many streams of 100 bytes, in shuffled order, reads them from the file opened again, and removes them
streams-up COUNT  the same in rising order
streams-down COUNT  the same in falling order
deep COUNT        makes so many storages, each in the last one, removes them by one call, and makes them again by one
write COUNT       makes so many streams of 100 bytes and as many of 10,000, and reads them from the file that is opened again
large MEGABYTES   so with one stream of so many megabytes, in pieces of 4,096 bytes
places COUNT      reads and writes so many pieces of 4,096 bytes at places far apart of a stream that has 10,000 bytes for each
copy COUNT        copies a file of so many streams of 100 bytes
gaps COUNT        makes so many streams of 4,096 bytes, removes every second, and then each of the others, far apart, to make it again
cut COUNT         makes so many streams of 10,000 bytes, and cuts each to 50
turns COUNT       appends so many pieces of 4,096 bytes to one of two streams in turn, each by an opening
bytes COUNT       appends so many bytes to a stream of as many sectors, each by an opening
rows COUNT        puts so many rows, up to 65,536, into a table in memory, their keys in order, and prepares 1,000 more, a call each
";

fn main(rt: HostRuntime) -> Result<()> {
    let mut words = Vec::new(rt.alloc());
    for word in env::args(&rt)?.skip(1) {
        words.push(word)?;
    }
    run_words(&rt, &words)
}

// Runs the benchmark that the words name.
fn run_words(rt: &HostRuntime, words: &[String]) -> Result<()> {
    match words {
        [] => {
            print!(rt; "{LIST}")?;
            Ok(())
        }
        [name, size] => run(rt, name, size.as_str().parse::<u32>()?),
        _ => bail!("a benchmark and its size are wanted"),
    }
}

// Runs one benchmark.
fn run(rt: &HostRuntime, name: &str, size: u32) -> Result<()> {
    match name {
        "chain" => chains::append_and_free(rt, size as usize),
        "holes" => chains::free_every_second(rt, size),
        "store" => stores::write_apart(rt, size as usize),
        "commit" => stores::commit_pages(rt, size as usize),
        "streams" => run_streams(rt, size, Order::Shuffled),
        "streams-up" => run_streams(rt, size, Order::Rising),
        "streams-down" => run_streams(rt, size, Order::Falling),
        "deep" => {
            let parts = [Part::Nest, Part::RemoveNested, Part::NestAtOnce];
            files::run(rt, size, &parts, &[])
        }
        "write" => {
            let made = [Part::Make(Order::Rising), Part::MakeLong(Order::Behind)];
            files::run(rt, size, &made, &[Part::Read])
        }
        "large" => files::run(rt, size, &[Part::Write], &[Part::Read]),
        "places" => {
            let parts = [Part::MakeRoom, Part::ReadPiece, Part::WritePiece];
            files::run(rt, size, &parts, &[])
        }
        "copy" => files::run(rt, size, &[Part::Make(Order::Rising), Part::Copy], &[]),
        "gaps" => {
            let parts = [Part::MakePiece, Part::RemoveSecond, Part::MakeAgain];
            files::run(rt, size, &parts, &[])
        }
        "cut" => files::run(rt, size, &[Part::MakeLong(Order::Rising), Part::Cut], &[]),
        "turns" => files::run(rt, size, &[Part::TakeTurns], &[]),
        "bytes" => files::run(rt, size, &[Part::MakeSector, Part::AppendByte], &[]),
        "rows" => rows::insert_and_prepare(rt, size),
        _ => bail!("there is no benchmark of this name"),
    }
}

fn run_streams(rt: &HostRuntime, size: u32, order: Order) -> Result<()> {
    files::run(
        rt,
        size,
        &[Part::Make(order)],
        &[Part::Read, Part::Remove(order)],
    )
}

// Prints what a part of a benchmark took that began then.
fn print_time(rt: &HostRuntime, part: &str, begin: Instant) -> Result<()> {
    let time = begin.elapsed(rt)?.as_micros();
    println!(rt; "{part}: {time} microseconds")?;
    Ok(())
}
