//! Sectors that are freed, a stretch of consecutive ones at a time ([MS-CFB] 2.3).
ghost use Rattle.cfb_fat_runs.specs.Freeing.{stretches, FreesFatEntries, FreesFrom};
ghost use Rattle.cfb_fat_runs.specs.RunLists.{all_runs};
ghost use Rattle.cfb_fat_runs.specs.Runs.{start_of};
ghost use Rattle.cfb_fat_runs.specs.declared.runs.Run.{Run as IsRun};
ghost use Rattle.std.specs.Prelude.{drop, length, slice_index, slice_index_or, ℕ, ◌*◌, ◌+◌, ◌<◌, ◌≡◌, ◌≤◌, ◌⊎◌};

use crate::runs::{Kind, Run};
use crate::table::Table;
use cfb_sectors::FREE_SECTOR;

// Where the stretch of consecutive sectors ends that begins at a place of a list.
fn stretch_end(sectors: &[u32], start: usize) -> usize
    requires { start < length sectors.now }
    ensures after { start < result }
    ensures inside { result ≤ length sectors.now }
    ensures consecutive { (k : ℕ) → start ≤ k → k < result
        → slice_index sectors.now k + start ≡ slice_index sectors.now start + k }
    ensures rest { stretches (drop start sectors.now) ≡ 1 + stretches (drop result sectors.now) }
{
    let mut place = start + 1;
    while place < sectors.len() {
        if sectors[place - 1] as usize + 1 != sectors[place] as usize {
            return place;
        }
        place += 1;
    }
    place
}

/// How many stretches of consecutive sectors a list has.
pub fn count_stretches(sectors: &[u32]) -> usize
    ensures value { result ≡ stretches sectors.now }
    ensures few { result ≤ length sectors.now }
{
    let mut count = 0;
    let mut place = 0;
    while place < sectors.len() {
        place = stretch_end(sectors, place);
        count += 1;
    }
    count
}

#[tactic(auto, unfolding(crate::specs::Tables::entries_of, crate::specs::Tables::run_capacity, crate::specs::Tables::run_count))]
impl Table {
    ghost use Rattle.cfb_fat_runs.specs.Tables.{entries_of, run_capacity, run_count};

    // Cuts the run at a position in front of a sector, where it goes on from there.
    fn stop_at(&mut self, position: usize, at: u32, stop: u32)
        requires inside { position < length (all_runs self.old.runs) }
        requires first { (d : IsRun) → (slice_index_or (all_runs self.old.runs) position d).first ≡ at }
        requires some { at < stop }
        requires room { run_count self.old < run_capacity self.old }
        ensures inside { position < length (all_runs self.new.runs) }
        ensures first { (d : IsRun) → (slice_index_or (all_runs self.new.runs) position d).first ≡ at }
        ensures most { start_of self.new.len (drop (position + 1) (all_runs self.new.runs)) ≤ stop }
        ensures cut { start_of self.new.len (drop (position + 1) (all_runs self.new.runs)) < stop
            → run_count self.new ≡ run_count self.old }
        ensures entries { entries_of self.new ≡ entries_of self.old }
        ensures runs { run_count self.new ≤ run_count self.old + 1 }
        ensures capacity { run_capacity self.new ≡ run_capacity self.old }
    {
        if self.end(position) <= stop {
            return;
        }
        self.cut(position, stop);
    }

    // Frees all sectors of the run at a position.
    fn mark(&mut self, position: usize, at: u32)
        requires inside { position < length (all_runs self.old.runs) }
        requires first { (d : IsRun) → (slice_index_or (all_runs self.old.runs) position d).first ≡ at }
        ensures frees { FreesFrom at
            (start_of self.old.len (drop (position + 1) (all_runs self.old.runs)))
            (entries_of self.old) (entries_of self.new) }
        ensures after { at < start_of self.old.len (drop (position + 1) (all_runs self.old.runs)) }
        ensures stop { start_of self.new.len (drop (position + 1) (all_runs self.new.runs))
            ≡ start_of self.old.len (drop (position + 1) (all_runs self.old.runs)) }
        ensures runs { run_count self.new ≡ run_count self.old }
        ensures capacity { run_capacity self.new ≡ run_capacity self.old }
    {
        let run = self.runs.get(position);
        let free = Run {
            first: run.first,
            kind: Kind::Special(FREE_SECTOR),
        };
        self.runs.set(position, free);
    }

    // Frees the run at a position up to a sector, and gives where it ends.
    fn free_run(&mut self, position: usize, at: u32, stop: u32) -> u32
        requires inside { position < length (all_runs self.old.runs) }
        requires first { (d : IsRun) → (slice_index_or (all_runs self.old.runs) position d).first ≡ at }
        requires some { at < stop }
        requires room { run_count self.old < run_capacity self.old }
        ensures frees { FreesFrom at result (entries_of self.old) (entries_of self.new) }
        ensures after { at < result }
        ensures most { result ≤ stop }
        ensures next { start_of self.new.len (drop (position + 1) (all_runs self.new.runs)) ≡ result }
        ensures inside { position < length (all_runs self.new.runs) }
        ensures cut { result < stop → run_count self.new ≡ run_count self.old }
        ensures runs { run_count self.new ≤ run_count self.old + 1 }
        ensures capacity { run_capacity self.new ≡ run_capacity self.old }
    {
        self.stop_at(position, at, stop);
        self.mark(position, at);
        self.end(position)
    }

    // Frees the sectors from one up to another.
    fn free_stretch(&mut self, first: u32, stop: u32)
        requires some { first < stop }
        requires inside { stop ≤ length (entries_of self.old) }
        requires room { run_count self.old + 2 ≤ run_capacity self.old }
        ensures frees { FreesFrom first stop (entries_of self.old) (entries_of self.new) }
        ensures runs { run_count self.new ≤ run_count self.old + 2 }
        ensures capacity { run_capacity self.new ≡ run_capacity self.old }
    {
        let found = self.find(first);
        let mut position = self.begin(found, first);
        let mut at = first;
        while at < stop {
            at = self.free_run(position, at, stop);
            position += 1;
        }
    }

    // Joins runs wherever one leads on to the next, from the sector in front of one up to another one. The entries stay.
    fn join_between(&mut self, low: u32, high: u32)
        ensures entries { entries_of self.new ≡ entries_of self.old }
        ensures runs { run_count self.new ≤ run_count self.old }
        ensures capacity { run_capacity self.new ≡ run_capacity self.old }
    {
        if self.len == 0 {
            return;
        }
        let mut position = self.find(high.min(self.len - 1));
        while position > 0 {
            position -= 1;
            let first = self.runs.get(position).first;
            self.join(position);
            if first < low {
                return;
            }
        }
    }

    /// Frees these sectors, for which there is memory: of a run, and of each stretch of consecutive sectors, all at once.
    pub fn free_all(&mut self, sectors: &[u32])
        requires inside { (k : ℕ) → k < length sectors.now
            → slice_index sectors.now k < length (entries_of self.old) }
        requires room { run_count self.old + 2 * stretches sectors.now ≤ run_capacity self.old }
        ensures frees { FreesFatEntries sectors.now (entries_of self.old) (entries_of self.new) }
        ensures runs { run_count self.new ≤ run_count self.old + 2 * stretches sectors.now }
        ensures capacity { run_capacity self.new ≡ run_capacity self.old }
    {
        let mut place = 0;
        while place < sectors.len() {
            let next = stretch_end(sectors, place);
            let stop = sectors[next - 1] + 1;
            self.free_stretch(sectors[place], stop);
            self.join_between(sectors[place], stop);
            place = next;
        }
    }
}
