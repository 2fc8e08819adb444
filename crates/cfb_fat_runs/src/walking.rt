//! Walks over runs: chains, and sectors that are free ([MS-CFB] 2.3).
ghost use Rattle.cfb_medium.specs.declared.error.Error.TheVariants.{InvalidData, Memory};
ghost use Rattle.cfb_fat_runs.specs.RunLists.{all_runs};
ghost use Rattle.cfb_fat_runs.specs.Runs.{start_of};
ghost use Rattle.cfb_sectors.specs.Sectors.{free, greatest_regular, Chain as IsChain};
ghost use Rattle.std.specs.List.{count_by, range_with_len};
ghost use Rattle.std.specs.Prelude.{drop, length, nat_eq, slice_index, take, vec_len, IfErr, IfOk, IsErrOf, List, MatchOption, ℕ, ◌+◌, ◌++◌, ◌-◌, ◌<◌, ◌≡◌, ◌≤◌, ◌⊎◌};

use crate::runs::{Kind, is_free};
use crate::table::Table;
use cfb_medium::Error;
use cfb_sectors::{END_OF_CHAIN, MAX_REGULAR_SECTOR};
use std::alloc::{AllocError, Global};

// Adds consecutive sectors behind others.
fn push_range(sectors: &mut Vec<u32>, first: u32, stop: u32) -> Result<(), AllocError>
    requires { first ≤ stop }
    ensures { IfOk result (λ _. sectors.new.items
        ≡ sectors.old.items ++ range_with_len first (stop - first)) }
{
    for sector in first..stop {
        sectors.push(sector)?;
    }
    Ok(())
}

#[tactic(auto, unfolding(crate::specs::Tables::entries_of))]
impl Table {
    ghost use Rattle.cfb_fat_runs.specs.Tables.{entries_of};
    ghost use Rattle.cfb_fat_runs.specs.Walking.{AreLinkedBehind};

    // How many sectors of the run at a position are free.
    fn free_in(&self, position: usize) -> usize
        requires { position < length (all_runs self.now.runs) }
        ensures { count_by (λ entry. nat_eq entry free)
            (take (start_of self.now.len (drop position (all_runs self.now.runs))) (entries_of self.now))
            + result ≡ count_by (λ entry. nat_eq entry free)
            (take (start_of self.now.len (drop (position + 1) (all_runs self.now.runs)))
            (entries_of self.now)) }
    {
        let run = self.runs.get(position);
        if is_free(run.kind) {
            return (self.end(position) - run.first) as usize;
        }
        0
    }

    /// How many entries are "free".
    pub fn count_free(&self) -> usize
        ensures { result ≡ count_by (λ entry. nat_eq entry free) (entries_of self.now) }
    {
        let mut count = 0;
        for position in 0..self.runs.len() {
            count += self.free_in(position);
        }
        count
    }

    /// The first sector from a place on whose entry is "free", where there is one.
    pub fn next_free(&self, from: usize) -> Option<usize>
        ensures { MatchOption result
            ((k : ℕ) → from ≤ k → k < length (entries_of self.now)
            → slice_index (entries_of self.now) k ≡ free → ⊥)
            (λ n. (from ≤ n) × (n < length (entries_of self.now))
            × (slice_index (entries_of self.now) n ≡ free)
            × ((k : ℕ) → from ≤ k → k < n → slice_index (entries_of self.now) k ≡ free → ⊥)) }
    {
        if from >= self.len() {
            return None;
        }
        let found = self.find(from as u32);
        let holder = self.runs.get(found);
        if is_free(holder.kind) {
            return Some(from);
        }
        let mut position = found + 1;
        while position < self.runs.len() {
            let run = self.runs.get(position);
            if is_free(run.kind) {
                return Some(run.first as usize);
            }
            position += 1;
        }
        None
    }

    // Adds the sectors from one up to the end of its run behind others, and gives where the last one's entry leads.
    fn follow(&self, sectors: &mut Vec<u32>, start: u32) -> Result<u32, AllocError>
        requires { start < self.now.len }
        ensures { IfOk result (λ next. AreLinkedBehind (entries_of self.now) start next
            sectors.old.items sectors.new.items) }
    {
        let position = self.find(start);
        let stop = self.end(position);
        match self.runs.get(position).kind {
            Kind::Special(number) => {
                sectors.push(start)?;
                Ok(number)
            }
            Kind::Linked(next) => {
                push_range(sectors, start, stop)?;
                Ok(next)
            }
        }
    }

    /// The sectors of the chain from a start in the table. `InvalidData` where there is none.
    #[tactic(auto)]
    pub fn chain(&self, alloc: Global, start: u32) -> Result<Vec<u32>, Error>
        ensures chain { IfOk result (λ sectors. IsChain (entries_of self.now) start sectors.items) }
        ensures few { IfOk result (λ sectors. vec_len sectors ≤ greatest_regular + 1) }
        ensures none { IsErrOf result InvalidData → (sectors : List ℕ)
            → IsChain (entries_of self.now) start sectors → ⊥ }
        ensures errors { IfErr result (λ e. (e ≡ InvalidData) ⊎ (e ≡ Memory)) }
    {
        let mut sectors = Vec::new(alloc);
        let mut at = start;
        while at != END_OF_CHAIN {
            let count = self.len();
            if at > MAX_REGULAR_SECTOR || at as usize >= count || sectors.len() >= count {
                return Err(Error::InvalidData);
            }
            at = self.follow(&mut sectors, at)?;
        }
        Ok(sectors)
    }
}
