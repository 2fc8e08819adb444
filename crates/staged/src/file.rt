//! A file in memory, with what a crash may leave of it.
ghost use Rattle.std.specs.Prelude.{IsTrue, ◌≡◌, ◌≢◌, ◌≤◌, ◌<◌, ◌+◌, ◌⊎◌, ◌↔◌, All, ℕ, true, length, is_some, OnOk, OnErr, vec_len};
ghost use Rattle.cfb_medium.specs.Bytes.{overwritten, Serves};
ghost use Rattle.staged.specs.Files.{file_of, with_file};
ghost use Rattle.staged.specs.Device.{counted_up};
ghost use Rattle.staged.specs.First.{contents_of, first_of, kept_of, standing_of, writes_of};
ghost use Rattle.staged.specs.Standing.{MayStand, after_call, after_write, standing, synced, wrote};
ghost use Rattle.staged.specs.declared.device.Which.{Which};
ghost use Rattle.staged.specs.declared.device.Which.TheVariants.{Home, Log};

use crate::Which;
use std::alloc::AllocError;

// Where bytes were written, and how many.
#[derive(Clone, Copy)]
pub struct Range {
    pub at: u64,
    pub len: u64,
}

/// A file, with a copy of what it held before its first write, one of what it held before its first write since its last sync,
/// and the ranges written since.
#[derive(Drop)]
pub struct MemoryFile {
    pub contents: Vec<u8>,
    pub first: Option<Vec<u8>>,
    pub kept: Option<Vec<u8>>,
    pub ranges: Vec<Range>,
    pub writes: u64,
}

impl MemoryFile {
    pub fn new(contents: Vec<u8>) -> Self
        ensures contents { result.contents.items ≡ contents.items }
        ensures first { first_of result ≡ contents.items }
        ensures stands { standing_of result ≡ standing contents.items }
        ensures writes { result.writes ≡ 0 }
    {
        let alloc = *contents.allocator();
        MemoryFile {
            contents,
            first: None,
            kept: None,
            ranges: Vec::new(alloc),
            writes: 0,
        }
    }

    // Counts a write.
    fn count(&mut self)
        ensures { self.new ≡ record self.old { writes = counted_up self.old.writes } }
    {
        self.writes = self.writes.saturating_add(1);
    }

    // Copies what it held at first, unless that was done before.
    fn keep_first(&mut self) -> Result<(), AllocError>
        ensures stands { standing_of self.new ≡ standing_of self.old }
        ensures contents { self.new.contents ≡ self.old.contents }
        ensures writes { self.new.writes ≡ self.old.writes }
        ensures first { first_of self.new ≡ first_of self.old }
        ensures copied { OnOk result (is_some self.new.first ≡ true) }
    {
        if self.first.is_none() {
            self.first = Some(Vec::from_slice(*self.contents.allocator(), &self.contents)?);
        }
        Ok(())
    }

    // Copies what its last sync made last, unless that was done since.
    fn keep_synced(&mut self) -> Result<(), AllocError>
        ensures stands { standing_of self.new ≡ standing_of self.old }
        ensures contents { self.new.contents ≡ self.old.contents }
        ensures writes { self.new.writes ≡ self.old.writes }
        ensures first { self.new.first ≡ self.old.first }
        ensures copied { OnOk result (is_some self.new.kept ≡ true) }
    {
        if self.kept.is_none() {
            self.kept = Some(Vec::from_slice(*self.contents.allocator(), &self.contents)?);
        }
        Ok(())
    }

    pub fn read_at(&self, at: u64, buffer: &mut [u8]) -> usize
        ensures within { result ≤ length buffer.old }
        ensures serves { Serves self.now.contents.items at buffer.old buffer.new result }
    {
        let len = self.contents.len();
        if at >= len as u64 {
            return 0;
        }
        let start = at as usize;
        let count = buffer.len().min(len - start);
        buffer[..count].copy_from_slice(&self.contents[start..start + count]);
        count
    }

    fn write_at(&mut self, at: u64, bytes: &[u8]) -> Result<(), AllocError>
        requires { at ≤ vec_len self.old.contents }
        ensures ok { OnOk result (standing_of self.new
            ≡ after_write (standing_of self.old) at bytes.now) }
        ensures after_error { OnErr result (standing_of self.new ≡ standing_of self.old) }
        ensures first { first_of self.new ≡ first_of self.old }
        ensures writes { self.new.writes ≡ self.old.writes }
    {
        self.keep_first()?;
        self.keep_synced()?;
        self.ranges.reserve(1)?;
        overwrite(&mut self.contents, at as usize, bytes)?;
        let len = bytes.len() as u64;
        self.ranges.push(Range { at, len }).unwrap();
        Ok(())
    }

    // Makes what it holds last.
    fn sync(&mut self)
        ensures stands { standing_of self.new ≡ standing self.old.contents.items }
        ensures first { first_of self.new ≡ first_of self.old }
        ensures writes { self.new.writes ≡ self.old.writes }
    {
        self.kept = None;
        self.ranges.clear();
    }

    // What its last sync made last.
    fn kept_bytes(&self) -> &[u8]
        ensures { result.now ≡ kept_of self.now }
    {
        match &self.kept {
            Some(kept) => kept,
            None => &self.contents,
        }
    }

    // Whether no write since its last sync touched this place.
    fn is_apart(&self, place: u64) -> bool
        ensures { IsTrue result ↔ All (λ r. (place < r.0)
            ⊎ (r.0 + r.1 ≤ place)) (standing_of self.now).ranges }
    {
        for range in &self.ranges {
            if place >= range.at && place - range.at < range.len {
                return false;
            }
        }
        true
    }

    /// Whether a crash may leave these bytes of it.
    pub fn may_stand(&self, left: &[u8]) -> bool
        ensures { IsTrue result ↔ MayStand (standing_of self.now) left.now }
    {
        let kept = self.kept_bytes();
        if left.len() < kept.len() {
            return false;
        }
        if left.len() > self.contents.len() {
            return false;
        }
        for (place, byte) in kept.iter().enumerate() {
            if left[place] != *byte {
                if self.is_apart(place as u64) {
                    return false;
                }
            }
        }
        true
    }
}

/// Counts a write to one of two files.
pub fn count(home: &mut MemoryFile, log: &mut MemoryFile, which: Which)
    ensures home { home.new ≡ record home.old { writes = home.new.writes } }
    ensures log { log.new ≡ record log.old { writes = log.new.writes } }
    ensures count { writes_of home.new log.new which
        ≡ counted_up (writes_of home.old log.old which) }
    ensures others { (other : Which) → other ≢ which
        → writes_of home.new log.new other ≡ writes_of home.old log.old other }
{
    match which {
        Which::Home => home.count(),
        Which::Log => log.count(),
    }
}

/// Writes to one of two files.
pub fn write_file(
    home: &mut MemoryFile,
    log: &mut MemoryFile,
    which: Which,
    at: u64,
    bytes: &[u8],
) -> Result<(), AllocError>
    requires { at ≤ length (file_of (contents_of home.old log.old) which) }
    ensures ok { OnOk result (contents_of home.new log.new
        ≡ with_file (contents_of home.old log.old) which
        (overwritten (file_of (contents_of home.old log.old) which) at bytes.now)) }
    ensures after_error { OnErr result
        (contents_of home.new log.new ≡ contents_of home.old log.old) }
    ensures home { OnOk result (standing_of home.new
        ≡ after_call Home (standing_of home.old) (wrote which at bytes.now)) }
    ensures log { OnOk result (standing_of log.new
        ≡ after_call Log (standing_of log.old) (wrote which at bytes.now)) }
    ensures home_stays { OnErr result (standing_of home.new ≡ standing_of home.old) }
    ensures log_stays { OnErr result (standing_of log.new ≡ standing_of log.old) }
    ensures first_home { first_of home.new ≡ first_of home.old }
    ensures first_log { first_of log.new ≡ first_of log.old }
    ensures home_writes { home.new.writes ≡ home.old.writes }
    ensures log_writes { log.new.writes ≡ log.old.writes }
{
    match which {
        Which::Home => home.write_at(at, bytes),
        Which::Log => log.write_at(at, bytes),
    }
}

/// Makes last what one of two files holds.
pub fn sync_file(home: &mut MemoryFile, log: &mut MemoryFile, which: Which)
    ensures files { contents_of home.new log.new ≡ contents_of home.old log.old }
    ensures home { standing_of home.new ≡ after_call Home (standing_of home.old) (synced which) }
    ensures log { standing_of log.new ≡ after_call Log (standing_of log.old) (synced which) }
    ensures first_home { first_of home.new ≡ first_of home.old }
    ensures first_log { first_of log.new ≡ first_of log.old }
    ensures home_writes { home.new.writes ≡ home.old.writes }
    ensures log_writes { log.new.writes ≡ log.old.writes }
{
    match which {
        Which::Home => home.sync(),
        Which::Log => log.sync(),
    }
}

// Writes over bytes, and past their end.
fn overwrite(contents: &mut Vec<u8>, start: usize, bytes: &[u8]) -> Result<(), AllocError>
    requires { start ≤ vec_len contents.old }
    ensures ok { OnOk result (contents.new.items ≡ overwritten contents.old.items start bytes.now) }
    ensures after_error { OnErr result (contents.new.items ≡ contents.old.items) }
{
    if bytes.len() <= contents.len() - start {
        contents[start..start + bytes.len()].copy_from_slice(bytes);
    } else {
        let room = contents.len() - start;
        contents.extend_from_slice(&bytes[room..])?;
        contents[start..start + room].copy_from_slice(&bytes[..room]);
    }
    Ok(())
}
