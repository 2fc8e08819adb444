//! What is told of a table's runs, joined wherever one leads on to the next ([MS-CFB] 2.3).
ghost use Rattle.cfb_fat_runs.specs.Longest.{begins_run, goes_on, runs_in, IsRunOf};
ghost use Rattle.cfb_fat_runs.specs.RunLists.{all_runs};
ghost use Rattle.cfb_fat_runs.specs.Runs.{start_of};
ghost use Rattle.std.specs.List.{count_by, range_with_len};
ghost use Rattle.std.specs.Prelude.{drop, false, length, not, take, true, MatchOption, IsTrue, ℕ, ◌+◌, ◌-◌, ◌<◌, ◌≡◌, ◌≤◌};

use crate::runs::leads_on;
use crate::table::Table;

#[tactic(auto, unfolding(crate::specs::Tables::entries_of))]
impl Table {
    ghost use Rattle.cfb_fat_runs.specs.Tables.{entries_of};

    // Whether the run at a position is joined with the one in front of it.
    fn is_joined(&self, position: usize) -> bool
        requires { position < length (all_runs self.now.runs) }
        ensures begins { begins_run (entries_of self.now)
            (start_of self.now.len (drop position (all_runs self.now.runs))) ≡ not result }
        ensures front { IsTrue result → 0 < position }
    {
        if position == 0 {
            return false;
        }
        let front = self.runs.get(position - 1);
        let run = self.runs.get(position);
        leads_on(front.kind, run.first, run.kind)
    }

    // How many runs begin at a position: one, or none where it is joined with the one in front.
    fn begun(&self, position: usize) -> usize
        requires { position < length (all_runs self.now.runs) }
        ensures value { count_by (begins_run (entries_of self.now))
            (take (start_of self.now.len (drop position (all_runs self.now.runs)))
            (range_with_len 0 (length (entries_of self.now)))) + result
            ≡ count_by (begins_run (entries_of self.now))
            (take (start_of self.now.len (drop (position + 1) (all_runs self.now.runs)))
            (range_with_len 0 (length (entries_of self.now)))) }
        ensures one { result ≤ 1 }
    {
        if self.is_joined(position) {
            return 0;
        }
        1
    }

    /// How many runs it has, joined wherever one leads on to the next.
    pub fn runs(&self) -> usize
        ensures { result ≡ runs_in (entries_of self.now) }
    {
        let mut count = 0;
        for position in 0..self.runs.len() {
            count += self.begun(position);
        }
        count
    }

    // The first position of the runs that are joined with the one at a position from in front.
    fn first_joined(&self, position: usize) -> usize
        requires { position < length (all_runs self.now.runs) }
        ensures inside { result ≤ position }
        ensures from { start_of self.now.len (drop result (all_runs self.now.runs))
            ≤ start_of self.now.len (drop position (all_runs self.now.runs)) }
        ensures begins { begins_run (entries_of self.now)
            (start_of self.now.len (drop result (all_runs self.now.runs))) ≡ true }
        ensures on { (k : ℕ) → start_of self.now.len (drop result (all_runs self.now.runs)) ≤ k
            → k + 1 < start_of self.now.len (drop (position + 1) (all_runs self.now.runs))
            → goes_on (entries_of self.now) k ≡ true }
    {
        let mut first = position;
        while self.is_joined(first) {
            first -= 1;
        }
        first
    }

    // The last position of the runs that are joined with the one at a position from behind.
    fn last_joined(&self, position: usize) -> usize
        requires { position < length (all_runs self.now.runs) }
        ensures inside { result < length (all_runs self.now.runs) }
        ensures to { start_of self.now.len (drop (position + 1) (all_runs self.now.runs))
            ≤ start_of self.now.len (drop (result + 1) (all_runs self.now.runs)) }
        ensures ends { goes_on (entries_of self.now)
            (start_of self.now.len (drop (result + 1) (all_runs self.now.runs)) - 1) ≡ false }
        ensures on { (k : ℕ) → start_of self.now.len (drop position (all_runs self.now.runs)) ≤ k
            → k + 1 < start_of self.now.len (drop (result + 1) (all_runs self.now.runs))
            → goes_on (entries_of self.now) k ≡ true }
    {
        let mut last = position;
        while last + 1 < self.runs.len() {
            if !self.is_joined(last + 1) {
                return last;
            }
            last += 1;
        }
        last
    }

    /// Of the run that a sector stands in its first sector, how many it has, and the entry of its last one; `None` where the
    /// table has no such sector.
    pub fn run_at(&self, sector: u32) -> Option<(u32, u32, u32)>
        ensures { MatchOption result (length (entries_of self.now) ≤ sector)
            (λ it. IsRunOf (entries_of self.now) sector it.0 it.1 it.2) }
    {
        if sector >= self.len {
            return None;
        }
        let position = self.find(sector);
        let first = self.runs.get(self.first_joined(position)).first;
        let stop = self.end(self.last_joined(position));
        Some((first, stop - first, self.entry((stop - 1) as usize)))
    }
}
