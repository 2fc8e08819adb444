//! Blocks of runs, of which a list of runs is made.
ghost use Rattle.cfb_fat_runs.specs.BlockLen.{most_runs};
ghost use Rattle.std.specs.Prelude.{drop, insert, length, slice_index_or, slice_set, take, IfOk, List, [], ◌+◌, ◌++◌, ◌<◌, ◌∷◌, ◌≡◌, ◌≤◌};
ghost use Rattle.std.specs.VecDeque.{deque_capacity};

use crate::runs::{Kind, Run};
use cfb_sectors::FREE_SECTOR;
use std::alloc::{AllocError, Global};
use std::collections::VecDeque;

/// So many runs a block has at most, but while they are moved on.
pub(crate) const MOST_RUNS: usize = 2048;

/// Runs in their order. One can be put in or taken out at either end in a step.
#[derive(Drop)]
pub(crate) struct Block {
    runs: VecDeque<Run>,
    ghost roomy: { most_runs < deque_capacity runs },
}

// Stands where a run is that no list has.
fn blank() -> Run {
    Run {
        first: 0,
        kind: Kind::Special(FREE_SECTOR),
    }
}

impl Block {
    ghost use Rattle.cfb_fat_runs.specs.Blocks.{runs_in};
    ghost use Rattle.cfb_fat_runs.specs.declared.runs.Run.{Run as IsRun};

    /// A block without a run, with memory for all that it may have.
    pub(crate) fn new(alloc: Global) -> Result<Block, AllocError>
        ensures { IfOk result (λ it. runs_in it ≡ []) }
    {
        let runs = VecDeque::with_capacity(alloc, MOST_RUNS + 1)?;
        Ok(Block { runs })
    }

    /// The run at a place.
    pub(crate) fn get(&self, place: usize) -> Run
        requires { place < length (runs_in self.now) }
        ensures { result ≡ slice_index_or (runs_in self.now) place result }
    {
        self.runs[place]
    }

    /// Puts another run at a place.
    pub(crate) fn set(&mut self, place: usize, run: Run)
        requires { place < length (runs_in self.old) }
        ensures { runs_in self.new ≡ slice_set (runs_in self.old) place run }
    {
        self.runs[place] = run;
    }

    /// Puts a run in at a place.
    pub(crate) fn insert(&mut self, place: usize, run: Run)
        requires inside { place ≤ length (runs_in self.old) }
        requires room { length (runs_in self.old) ≤ most_runs }
        ensures { runs_in self.new ≡ insert (runs_in self.old) place run }
    {
        match self.runs.insert(place, run) {
            Ok(()) => {}
            Err(_) => {}
        }
    }

    /// Takes out the run at a place.
    pub(crate) fn remove(&mut self, place: usize)
        requires { place < length (runs_in self.old) }
        ensures { runs_in self.new
            ≡ take place (runs_in self.old) ++ drop (place + 1) (runs_in self.old) }
    {
        match self.runs.remove(place) {
            Some(_) => {}
            None => {}
        }
    }

    /// Takes out the first run.
    pub(crate) fn take_first(&mut self) -> Run
        requires { 0 < length (runs_in self.old) }
        ensures { runs_in self.old ≡ result ∷ runs_in self.new }
    {
        match self.runs.pop_front() {
            Some(run) => run,
            None => blank(),
        }
    }

    /// Takes out the last run.
    pub(crate) fn take_last(&mut self) -> Run
        requires { 0 < length (runs_in self.old) }
        ensures { runs_in self.old ≡ runs_in self.new ++ result ∷ [] }
    {
        match self.runs.pop_back() {
            Some(run) => run,
            None => blank(),
        }
    }

    /// Puts a run in front of the others.
    pub(crate) fn put_first(&mut self, run: Run)
        requires { length (runs_in self.old) ≤ most_runs }
        ensures { runs_in self.new ≡ run ∷ runs_in self.old }
    {
        self.runs.push_front_reserved(run);
    }

    /// Puts a run behind the others.
    pub(crate) fn put_last(&mut self, run: Run)
        requires { length (runs_in self.old) ≤ most_runs }
        ensures { runs_in self.new ≡ runs_in self.old ++ run ∷ [] }
    {
        self.runs.push_back_reserved(run);
    }
}
