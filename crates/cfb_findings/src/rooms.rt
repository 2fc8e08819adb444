//! How many bytes of chains stand in a file ([MS-CFB] 2.1).
ghost use Rattle.cfb_findings.specs.Rooms.{more_room, of_part, AreRooms};
ghost use Rattle.cfb_medium.specs.declared.error.Error.TheVariants.{Memory};
ghost use Rattle.std.specs.List.{range_with_len};
ghost use Rattle.std.specs.Prelude.{length, map, min, slice_index, IfErr, IfOk, ℕ, ◌-◌, ◌<◌, ◌^◌, ◌≡◌, ◌≤◌};

use crate::links::{behind, double_links};
use cfb_medium::Error;
use cfb_sectors::MAX_REGULAR_SECTOR;
use std::alloc::Global;

// What is listed of a part: nothing where its number isn't regular, or none is listed.
pub(crate) fn of_part(rooms: &[u64], part: u32) -> u64
    ensures { result ≡ of_part rooms.now part }
{
    if part > MAX_REGULAR_SECTOR {
        return 0;
    }
    match rooms.get(part as usize) {
        Some(room) => *room,
        None => 0,
    }
}

// How many bytes stand in twice as many parts.
fn more_room(rooms: &[u64], jumps: &[u32], full: u64, part: u32) -> u64
    requires most { (n : ℕ) → of_part rooms.now n ≤ full }
    requires small { full < 2 ^ 60 }
    ensures { result ≡ more_room rooms.now jumps.now full part }
{
    let room = of_part(rooms, part);
    if room != full {
        return room;
    }
    let next = of_part(rooms, behind(jumps, part));
    room + next
}

// How many bytes stand in twice as many parts, from each part on.
fn more_rooms(alloc: Global, rooms: &[u64], jumps: &[u32], full: u64) -> Result<Vec<u64>, Error>
    requires few { length rooms.now < 2 ^ 32 }
    requires most { (n : ℕ) → of_part rooms.now n ≤ full }
    requires small { full < 2 ^ 60 }
    ensures more { IfOk result (λ more. more.items
        ≡ map (more_room rooms.now jumps.now full) (range_with_len 0 (length rooms.now))) }
    ensures errors { IfErr result (λ e. e ≡ Memory) }
{
    let mut more = Vec::new(alloc);
    for part in 0..rooms.len() as u32 {
        more.push(more_room(rooms, jumps, full, part))?;
    }
    Ok(more)
}

// How many bytes of each chain stand in a file, up to the first that doesn't: of each part so many do. It takes as many turns as
// the length of the table has bits.
pub(crate) fn rooms_of(
    alloc: Global,
    links: &[u32],
    avail: &[u64],
    piece: u64,
) -> Result<Vec<u64>, Error>
    requires few { length avail.now < 2 ^ 32 }
    requires all { length links.now ≤ length avail.now }
    requires some { 0 < piece }
    requires small { piece ≤ 4096 }
    requires most { (n : ℕ) → of_part avail.now n ≤ piece }
    ensures rooms { (place : ℕ → ℕ) (file_len : ℕ) → ((n : ℕ) → n < length links.now
        → slice_index avail.now n ≡ min piece (file_len - place n))
        → IfOk result (λ rooms. AreRooms links.now piece place file_len rooms.items) }
    ensures errors { IfErr result (λ e. e ≡ Memory) }
{
    let mut jumps = Vec::from_slice(alloc, links)?;
    let mut rooms = Vec::from_slice(alloc, avail)?;
    let mut full = piece;
    let mut reach: usize = 1;
    while reach < links.len() {
        rooms = more_rooms(alloc, &rooms, &jumps, full)?;
        jumps = double_links(alloc, &jumps)?;
        full *= 2;
        reach *= 2;
    }
    Ok(rooms)
}
