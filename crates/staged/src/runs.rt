//! Runs of neighbouring pages, as they are written to a log.
ghost use Rattle.std.specs.Prelude.{◌≡◌, ◌≤◌, ◌<◌, ◌+◌, ◌*◌, ◌^◌, ◌∷◌, ◌++◌, ◌&&◌, ℕ, true, IsTrue, length, take, drop, is_some, nat_lt, IfErr, OnOk};
ghost use Rattle.std.specs.Int.{w32, w64, to_le_bytes};
ghost use Rattle.cfb_medium.specs.Bytes.{overwritten};
ghost use Rattle.staged.specs.Device.{IsDeviceFault, counted_up, times_up};
ghost use Rattle.staged.specs.Held.{listed};
ghost use Rattle.staged.specs.Log.{pages_of_runs, has_runs, run_count};
ghost use Rattle.staged.specs.LogWritten.{run_bytes};
ghost use Rattle.staged.specs.Pages.{HoldsPage, page_at};
ghost use Rattle.staged.specs.Steps.{MakesOnlyWrites, IsBehindLogFlag};
ghost use Rattle.staged.specs.declared.device.Which.{Which};

use crate::layout::{MOST, RUN_HEAD, RUNS};
use crate::pages::Pages;
use crate::{Device, Which};
use cfb_medium::Error;
use std::alloc::AllocError;

/// Room for a run of so many pages.
pub fn make_room(buffer: &mut Vec<u8>, count: usize) -> Result<(), AllocError>
    requires { count ≤ 2 ^ 54 }
    ensures room { OnOk result (12 + 512 * count ≤ length buffer.new.items) }
    ensures no_shorter { length buffer.old.items ≤ length buffer.new.items }
{
    let len = RUN_HEAD + 512 * count;
    if buffer.len() >= len {
        return Ok(());
    }
    buffer.resize(len, 0)
}

/// In how many runs the pages stand.
pub fn count_runs(pages: &Pages) -> u64
    requires small { (number : ℕ) → HoldsPage (listed pages.now) number → number < 2 ^ 55 }
    ensures value { result ≡ run_count (listed pages.now) }
{
    let mut runs = 0;
    let mut count = 0;
    for (number, _bytes) in pages.entries.iter() {
        count += 1;
        if !goes_on(pages, *number, count) {
            runs += 1;
            count = 0;
        }
    }
    runs
}

// Whether a run that has come to a page of this number, and has so many, goes on behind it.
fn goes_on(pages: &Pages, number: u64, count: u32) -> bool
    requires { number < 2 ^ 55 }
    ensures { result
        ≡ (is_some (page_at (listed pages.now) (number + 1)) && nat_lt count 4294967295) }
{
    pages.contains(number + 1) && count < MOST
}

/// The runs of the pages, behind a head. The buffer has room for all pages.
pub fn write_runs<D: Device>(device: &mut D, pages: &Pages, buffer: &mut [u8]) -> Result<(), Error>
    requires numbers { (length (listed pages.now) ≤ 2 ^ 54) × ((number : ℕ)
        → HoldsPage (listed pages.now) number → number < 2 ^ 55) }
    requires room { 0 < length (listed pages.now)
        → 12 + 512 * length (listed pages.now) ≤ length buffer.old }
    requires headed { IsTrue (D.honest device.old) → 25 ≤ length (D.content device.old).log }
    ensures honest { D.honest device.new ≡ D.honest device.old }
    ensures failures { D.failures device.old ≤ D.failures device.new }
    ensures errors { IfErr result (IsDeviceFault D.failures device.old device.new) }
    ensures home { IsTrue (D.honest device.old)
        → OnOk result ((D.content device.new).home ≡ (D.content device.old).home) }
    ensures head { IsTrue (D.honest device.old)
        → OnOk result (take 25 (D.content device.new).log ≡ take 25 (D.content device.old).log) }
    ensures written { IsTrue (D.honest device.old)
        → OnOk result ((has_runs true (run_count (listed pages.now))
        (drop 25 (D.content device.new).log) ≡ true)
        × (pages_of_runs true (run_count (listed pages.now))
        (drop 25 (D.content device.new).log) ≡ listed pages.now)) }
    ensures steps { MakesOnlyWrites D.Device Which.Log IsBehindLogFlag device.old device.new }
    ensures home_writes { OnOk result (D.writes device.new Which.Home
        ≡ D.writes device.old Which.Home) }
    ensures log_writes { OnOk result (D.writes device.new Which.Log
        ≡ times_up (run_count (listed pages.now)) (D.writes device.old Which.Log)) }
{
    let mut place = RUNS;
    let mut count = 0;
    for (number, bytes) in pages.entries.iter() {
        put_page(buffer, count, bytes);
        count += 1;
        if !goes_on(pages, *number, count) {
            write_run(device, place, *number + 1 - count as u64, count, buffer)?;
            place += RUN_HEAD as u64 + 512 * count as u64;
            count = 0;
        }
    }
    Ok(())
}

// A page of a run in the buffer, behind so many others.
fn put_page(buffer: &mut [u8], index: u32, bytes: &Box<[u8; 512]>)
    requires { 12 + 512 * (index + 1) ≤ length buffer.old }
    ensures whole { length bytes.now.value ≡ 512 }
    ensures pasted { buffer.new
        ≡ take (12 + 512 * index) buffer.old ++ bytes.now.value
        ++ drop (12 + 512 * index + 512) buffer.old }
{
    let place = RUN_HEAD + 512 * index as usize;
    buffer[place..place + 512].copy_from_slice(&**bytes);
}

// Writes the pages of the buffer as one run: so many, from this number on.
fn write_run<D: Device>(
    device: &mut D,
    place: u64,
    first: u64,
    count: u32,
    buffer: &mut [u8],
) -> Result<(), Error>
    requires behind { 1 ≤ place }
    requires within { IsTrue (D.honest device.old) → place ≤ length (D.content device.old).log }
    requires room { 12 + 512 * count ≤ length buffer.old }
    ensures honest { D.honest device.new ≡ D.honest device.old }
    ensures failures { D.failures device.old ≤ D.failures device.new }
    ensures errors { IfErr result (IsDeviceFault D.failures device.old device.new) }
    ensures written { IsTrue (D.honest device.old)
        → OnOk result (D.content device.new
        ≡ record (D.content device.old) {
          log = overwritten (D.content device.old).log place
              (run_bytes first count (take (512 * count) (drop 12 buffer.old)));
        }) }
    ensures steps { MakesOnlyWrites D.Device Which.Log IsBehindLogFlag device.old device.new }
    ensures home_writes { D.writes device.new Which.Home ≡ D.writes device.old Which.Home }
    ensures log_writes { D.writes device.new Which.Log
        ≡ counted_up (D.writes device.old Which.Log) }
{
    put_head(buffer, first, count);
    let end = RUN_HEAD + 512 * count as usize;
    device.write_at(Which::Log, place, &buffer[..end])
}

// The number of the first page of a run and how many they are, before its pages in the buffer.
fn put_head(buffer: &mut [u8], first: u64, count: u32)
    requires { 12 ≤ length buffer.old }
    ensures { buffer.new ≡ to_le_bytes w64 first ++ to_le_bytes w32 count ++ drop 12 buffer.old }
{
    buffer[..8].copy_from_slice(&first.to_le_bytes());
    buffer[8..RUN_HEAD].copy_from_slice(&count.to_le_bytes());
}
