//! The table, and what is asked of it.
ghost use Rattle.cfb_fat_runs.specs.Props.{are_tiled_prop};
ghost use Rattle.cfb_fat_runs.specs.RunLists.{all_runs};
ghost use Rattle.cfb_fat_runs.specs.Runs.{entry_in, head_of, start_of, tail_of, AreTiled, IsLink};
ghost use Rattle.cfb_fat_runs.specs.declared.runs.Run.{Run as IsRun};
ghost use Rattle.cfb_medium.specs.declared.error.Error.TheVariants.{InvalidData, Memory};
ghost use Rattle.cfb_sectors.specs.Sectors.{end_of_chain, free, greatest_regular, Chain as IsChain};
ghost use Rattle.std.specs.List.{count_by};
ghost use Rattle.std.specs.Prelude.{drop, length, nat_eq, slice_get, false, slice_index, slice_index_or, slice_set, take, vec_len, IsTrue, IfErr, IfOk, IsErrOf, List, OnErr, OnOk, [], ℕ, ◌+◌, ◌++◌, ◌<◌, ◌^◌, ◌∷◌, ◌≡◌, ◌≤◌, ◌⊎◌};

use crate::run_list::RunList;
use crate::runs::{Kind, Run, is_link, kind_of, leading, leads_on};
use cfb_medium::Error;
use cfb_sectors::{END_OF_CHAIN, FREE_SECTOR, MAX_REGULAR_SECTOR};
use std::alloc::{AllocError, Global};

/// A table of sectors: an entry for each sector.
#[derive(Drop)]
pub struct Table {
    pub(crate) runs: RunList,
    pub(crate) len: u32,
    ghost tiled: { AreTiled 0 len (all_runs runs) } by { are_tiled_prop 0 len (all_runs runs) },
    ghost few: { len ≤ greatest_regular + 1 },
}

#[tactic(auto, unfolding(crate::specs::Tables::entries_of, crate::specs::Tables::run_capacity, crate::specs::Tables::run_count))]
impl Table {
    ghost use Rattle.cfb_fat_runs.specs.Tables.{entries_of, run_capacity, run_count, IsEasy};

    // Where the run at a position ends.
    pub(crate) fn end(&self, position: usize) -> u32
        requires { position < length (all_runs self.now.runs) }
        ensures { result ≡ start_of self.now.len (drop (position + 1) (all_runs self.now.runs)) }
    {
        if position + 1 < self.runs.len() {
            return self.runs.get(position + 1).first;
        }
        self.len
    }

    // The position of the run that a sector stands in.
    pub(crate) fn find(&self, index: u32) -> usize
        requires { index < self.now.len }
        ensures inside { result < length (all_runs self.now.runs) }
        ensures from { (d : IsRun) → (slice_index_or (all_runs self.now.runs) result d).first ≤ index }
        ensures to { index < start_of self.now.len (drop (result + 1) (all_runs self.now.runs)) }
    {
        let mut low = 0;
        let mut high = self.runs.len();
        while high - low > 1 {
            let mid = low + (high - low) / 2;
            if self.runs.get(mid).first <= index {
                low = mid;
            } else {
                high = mid;
            }
        }
        low
    }

    /// A sector's entry.
    pub fn entry(&self, index: usize) -> u32
        requires { index < length (entries_of self.now) }
        ensures { result ≡ slice_index (entries_of self.now) index }
    {
        let at = index as u32;
        let position = self.find(at);
        let end = self.end(position);
        match self.runs.get(position).kind {
            Kind::Special(number) => number,
            Kind::Linked(next) => { if at + 1 == end { next } else { at + 1 } }
        }
    }

    // Cuts a run in two in front of a sector. The entries stay.
    pub(crate) fn cut(&mut self, position: usize, at: u32)
        requires inside { position < length (all_runs self.old.runs) }
        requires from { (d : IsRun) → (slice_index_or (all_runs self.old.runs) position d).first < at }
        requires to { at < start_of self.old.len (drop (position + 1) (all_runs self.old.runs)) }
        requires room { run_count self.old < run_capacity self.old }
        ensures len { self.new.len ≡ self.old.len }
        ensures parts { (r : IsRun) → r ≡ slice_index_or (all_runs self.old.runs) position r
            → (all_runs self.new.runs) ≡ take position (all_runs self.old.runs) ++ head_of r at
            ∷ tail_of r at ∷ drop (position + 1) (all_runs self.old.runs) }
        ensures entries { entries_of self.new ≡ entries_of self.old }
        ensures runs { run_count self.new ≡ run_count self.old + 1 }
        ensures capacity { run_capacity self.new ≡ run_capacity self.old }
    {
        let run = self.runs.get(position);
        let front = Run {
            first: run.first,
            kind: leading(run.kind, at),
        };
        self.runs.set(position, front);
        let back = Run {
            first: at,
            kind: run.kind,
        };
        self.runs.insert(position + 1, back);
    }

    // Makes one run of the one at a position and the one behind it, where the first leads on to it. The entries stay.
    pub(crate) fn join(&mut self, position: usize)
        ensures entries { entries_of self.new ≡ entries_of self.old }
        ensures runs { run_count self.new ≤ run_count self.old }
        ensures least { run_count self.old ≤ run_count self.new + 1 }
        ensures capacity { run_capacity self.new ≡ run_capacity self.old }
    {
        if position >= self.runs.len() {
            return;
        }
        if position + 1 >= self.runs.len() {
            return;
        }
        let run = self.runs.get(position);
        let then = self.runs.get(position + 1);
        if leads_on(run.kind, then.first, then.kind) {
            let both = Run {
                first: run.first,
                kind: then.kind,
            };
            self.runs.set(position, both);
            self.runs.remove(position + 1);
        }
    }

    /// Adds an entry behind the others, for which there is memory.
    pub fn push_reserved(&mut self, entry: u32)
        requires few { length (entries_of self.old) ≤ greatest_regular }
        requires room { run_count self.old < run_capacity self.old }
        ensures entries { entries_of self.new ≡ entries_of self.old ++ entry ∷ [] }
        ensures runs { run_count self.new ≤ run_count self.old + 1 }
        ensures capacity { run_capacity self.new ≡ run_capacity self.old }
    {
        let count = self.runs.len();
        self.append(entry);
        if count > 0 {
            self.join(count - 1);
        }
    }

    // Adds a run of one sector behind the others.
    fn append(&mut self, entry: u32)
        requires few { length (entries_of self.old) ≤ greatest_regular }
        requires room { run_count self.old < run_capacity self.old }
        ensures entries { entries_of self.new ≡ entries_of self.old ++ entry ∷ [] }
        ensures runs { run_count self.new ≡ run_count self.old + 1 }
        ensures capacity { run_capacity self.new ≡ run_capacity self.old }
    {
        self.runs.push(Run {
            first: self.len,
            kind: kind_of(entry),
        });
        self.len += 1;
    }

    /// A table without an entry.
    pub fn new(alloc: Global) -> Table
        ensures entries { entries_of result ≡ [] }
        ensures runs { run_count result ≡ 0 }
    {
        Table {
            runs: RunList::new(alloc),
            len: 0,
        }
    }

    /// A table of these entries.
    pub fn from_entries(alloc: Global, entries: &[u32]) -> Result<Table, AllocError>
        requires { length entries.now ≤ greatest_regular + 1 }
        ensures { IfOk result (λ it. entries_of it ≡ entries.now) }
    {
        let mut table = Table::new(alloc);
        for entry in entries {
            table.reserve(1)?;
            table.push_reserved(*entry);
        }
        Ok(table)
    }

    /// How many entries it has.
    pub fn len(&self) -> usize
        ensures value { result ≡ length (entries_of self.now) }
        ensures few { result ≤ greatest_regular + 1 }
    {
        self.len as usize
    }

    /// A sector's entry, where there is one.
    pub fn get(&self, index: usize) -> Option<u32>
        ensures { result ≡ slice_get (entries_of self.now) index }
    {
        if index >= self.len() {
            return None;
        }
        Some(self.entry(index))
    }

    /// Asks for the memory of so many runs more. Nothing is changed.
    pub fn reserve(&mut self, count: usize) -> Result<(), AllocError>
        ensures entries { entries_of self.new ≡ entries_of self.old }
        ensures runs { run_count self.new ≡ run_count self.old }
        ensures room { OnOk result (run_count self.new + count ≤ run_capacity self.new) }
        ensures capacity { run_capacity self.old ≤ run_capacity self.new }
        ensures most { OnOk result (count < 2 ^ 63) }
        ensures enough { run_count self.old + count ≤ run_capacity self.old → OnErr result ⊥ }
    {
        self.runs.reserve(count)
    }

    /// Sets a sector's entry, for which there is memory, or no run more is needed.
    pub fn set(&mut self, index: usize, entry: u32)
        requires inside { index < length (entries_of self.old) }
        requires room { IsEasy (entries_of self.old) index entry
            ⊎ (run_count self.old + 2 ≤ run_capacity self.old) }
        ensures entries { entries_of self.new ≡ slice_set (entries_of self.old) index entry }
        ensures runs { run_count self.new ≤ run_count self.old + 2 }
        ensures easy { IsEasy (entries_of self.old) index entry
            → run_count self.new ≤ run_count self.old }
        ensures capacity { run_capacity self.new ≡ run_capacity self.old }
    {
        let at = index as u32;
        let position = self.find(at);
        if self.is_last_link(position, at, entry) {
            self.relink(position, at, entry);
            return;
        }
        self.replace(position, at, entry);
    }

    // Whether a sector is the last one of its run, which is linked, and its entry is to be a sector too.
    fn is_last_link(&self, position: usize, at: u32, entry: u32) -> bool
        requires inside { position < length (all_runs self.now.runs) }
        requires few { at < self.now.len }
        ensures last { IsTrue result → at + 1
            ≡ start_of self.now.len (drop (position + 1) (all_runs self.now.runs)) }
        ensures linked { IsTrue result → (d : IsRun)
            → IsLink (slice_index_or (all_runs self.now.runs) position d).kind }
        ensures sector { IsTrue result → entry ≤ greatest_regular }
        ensures other { result ≡ false → (d : IsRun) → entry ≤ greatest_regular
            → entry_in (slice_index_or (all_runs self.now.runs) position d).kind
            (start_of self.now.len (drop (position + 1) (all_runs self.now.runs))) at ≡ end_of_chain
            → ⊥ }
    {
        if at + 1 != self.end(position) {
            return false;
        }
        if entry > MAX_REGULAR_SECTOR {
            return false;
        }
        is_link(self.runs.get(position).kind)
    }

    // Links the last entry of a linked run to another sector.
    fn relink(&mut self, position: usize, at: u32, entry: u32)
        requires inside { position < length (all_runs self.old.runs) }
        requires from { (d : IsRun) → (slice_index_or (all_runs self.old.runs) position d).first ≤ at }
        requires last { at + 1 ≡ start_of self.old.len (drop (position + 1) (all_runs self.old.runs)) }
        requires linked { (d : IsRun)
            → IsLink (slice_index_or (all_runs self.old.runs) position d).kind }
        requires sector { entry ≤ greatest_regular }
        ensures entries { entries_of self.new ≡ slice_set (entries_of self.old) at entry }
        ensures runs { run_count self.new ≤ run_count self.old }
        ensures capacity { run_capacity self.new ≡ run_capacity self.old }
    {
        let run = self.runs.get(position);
        let linked = Run {
            first: run.first,
            kind: Kind::Linked(entry),
        };
        self.runs.set(position, linked);
        self.join(position);
    }

    // Sets an entry of the run at a position, which is cut in front of it and behind.
    fn replace(&mut self, position: usize, at: u32, entry: u32)
        requires inside { position < length (all_runs self.old.runs) }
        requires from { (d : IsRun) → (slice_index_or (all_runs self.old.runs) position d).first ≤ at }
        requires to { at < start_of self.old.len (drop (position + 1) (all_runs self.old.runs)) }
        requires room { run_count self.old + 2 ≤ run_capacity self.old }
        ensures entries { entries_of self.new ≡ slice_set (entries_of self.old) at entry }
        ensures runs { run_count self.new ≤ run_count self.old + 2 }
        ensures capacity { run_capacity self.new ≡ run_capacity self.old }
    {
        let start = self.begin(position, at);
        self.stop(start, at);
        self.relabel(start, at, entry);
    }

    // Cuts the run at a position in front of a sector, where this isn't its first one, and gives the position of that which
    // begins at it.
    pub(crate) fn begin(&mut self, position: usize, at: u32) -> usize
        requires inside { position < length (all_runs self.old.runs) }
        requires from { (d : IsRun) → (slice_index_or (all_runs self.old.runs) position d).first ≤ at }
        requires to { at < start_of self.old.len (drop (position + 1) (all_runs self.old.runs)) }
        requires room { run_count self.old < run_capacity self.old }
        ensures inside { result < length (all_runs self.new.runs) }
        ensures first { (d : IsRun) → (slice_index_or (all_runs self.new.runs) result d).first ≡ at }
        ensures to { at < start_of self.new.len (drop (result + 1) (all_runs self.new.runs)) }
        ensures entries { entries_of self.new ≡ entries_of self.old }
        ensures runs { run_count self.new ≤ run_count self.old + 1 }
        ensures capacity { run_capacity self.new ≡ run_capacity self.old }
    {
        if self.runs.get(position).first == at {
            return position;
        }
        self.cut(position, at);
        position + 1
    }

    // Cuts the run at a position behind its first sector, where it has more.
    fn stop(&mut self, position: usize, at: u32)
        requires inside { position < length (all_runs self.old.runs) }
        requires first { (d : IsRun) → (slice_index_or (all_runs self.old.runs) position d).first ≡ at }
        requires to { at < start_of self.old.len (drop (position + 1) (all_runs self.old.runs)) }
        requires room { run_count self.old < run_capacity self.old }
        ensures inside { position < length (all_runs self.new.runs) }
        ensures first { (d : IsRun) → (slice_index_or (all_runs self.new.runs) position d).first ≡ at }
        ensures one { start_of self.new.len (drop (position + 1) (all_runs self.new.runs)) ≡ at + 1 }
        ensures entries { entries_of self.new ≡ entries_of self.old }
        ensures runs { run_count self.new ≤ run_count self.old + 1 }
        ensures capacity { run_capacity self.new ≡ run_capacity self.old }
    {
        if self.end(position) == at + 1 {
            return;
        }
        self.cut(position, at + 1);
    }

    // Gives a run of one sector another entry.
    fn relabel(&mut self, position: usize, at: u32, entry: u32)
        requires inside { position < length (all_runs self.old.runs) }
        requires first { (d : IsRun) → (slice_index_or (all_runs self.old.runs) position d).first ≡ at }
        requires one { start_of self.old.len (drop (position + 1) (all_runs self.old.runs)) ≡ at + 1 }
        ensures entries { entries_of self.new ≡ slice_set (entries_of self.old) at entry }
        ensures runs { run_count self.new ≤ run_count self.old }
        ensures capacity { run_capacity self.new ≡ run_capacity self.old }
    {
        let run = self.runs.get(position);
        let other = Run {
            first: run.first,
            kind: kind_of(entry),
        };
        self.runs.set(position, other);
        self.join(position);
        self.join_before(position);
    }

    // Makes one run of the one at a position and the one in front, where that leads on to it. The entries stay.
    fn join_before(&mut self, position: usize)
        ensures entries { entries_of self.new ≡ entries_of self.old }
        ensures runs { run_count self.new ≤ run_count self.old }
        ensures capacity { run_capacity self.new ≡ run_capacity self.old }
    {
        if position > 0 {
            self.join(position - 1);
        }
    }
}
