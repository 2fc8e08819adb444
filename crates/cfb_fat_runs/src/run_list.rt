//! A list of runs in blocks, so that a run that is put in or taken out moves few others.
ghost use Rattle.cfb_fat_runs.specs.BlockLen.{most_runs};
ghost use Rattle.cfb_fat_runs.specs.Blocks.{count_in, joined_runs, AreFilled, HasOneLessAt, HasOneMoreAt};
ghost use Rattle.cfb_fat_runs.specs.declared.blocks.Block.{Block as IsBlock};
ghost use Rattle.cfb_fat_runs.specs.declared.runs.Run.{Run as IsRun};
ghost use Rattle.std.specs.Prelude.{drop, insert, length, slice_index_or, slice_set, take, OnErr, OnOk, [], ℕ, ◌*◌, ◌+◌, ◌++◌, ◌-◌, ◌/◌, ◌<◌, ◌^◌, ◌∷◌, ◌≡◌, ◌≤◌};

use crate::blocks::{Block, MOST_RUNS};
use crate::runs::Run;
use std::alloc::{AllocError, Global};

// So many blocks no list has: their runs would have no numbers.
const TOO_MANY_BLOCKS: usize = 1 << 52;

/// Runs in their order, in blocks that are filled from the front.
#[derive(Drop)]
pub(crate) struct RunList {
    alloc: Global,
    blocks: Vec<Block>,
    len: usize,
    ghost filled: { AreFilled len blocks.items },
    ghost inside: { len ≤ length blocks.items * most_runs },
    ghost few: { length blocks.items * most_runs < 2 ^ 63 },
}

// Moves the last run of a block to the front of the one behind it.
fn move_on(blocks: &mut Vec<Block>, at: usize)
    requires inside { at + 1 < length blocks.old.items }
    requires some { (d : IsBlock) → 0 < count_in blocks.old.items at d }
    requires room { (d : IsBlock) → count_in blocks.old.items (at + 1) d ≤ most_runs }
    ensures size { length blocks.new.items ≡ length blocks.old.items }
    ensures runs { joined_runs blocks.new.items ≡ joined_runs blocks.old.items }
    ensures less { (d : IsBlock) → count_in blocks.new.items at d + 1
        ≡ count_in blocks.old.items at d }
    ensures more { (d : IsBlock) → count_in blocks.new.items (at + 1) d
        ≡ count_in blocks.old.items (at + 1) d + 1 }
    ensures others { (k : ℕ) (d : IsBlock) → (k ≡ at → ⊥) → (k ≡ at + 1 → ⊥)
        → count_in blocks.new.items k d ≡ count_in blocks.old.items k d }
{
    let run = blocks[at].take_last();
    blocks[at + 1].put_first(run);
}

// Moves the first run of the block behind one to the end of this one.
fn move_back(blocks: &mut Vec<Block>, at: usize)
    requires inside { at + 1 < length blocks.old.items }
    requires some { (d : IsBlock) → 0 < count_in blocks.old.items (at + 1) d }
    requires room { (d : IsBlock) → count_in blocks.old.items at d ≤ most_runs }
    ensures size { length blocks.new.items ≡ length blocks.old.items }
    ensures runs { joined_runs blocks.new.items ≡ joined_runs blocks.old.items }
    ensures more { (d : IsBlock) → count_in blocks.new.items at d
        ≡ count_in blocks.old.items at d + 1 }
    ensures less { (d : IsBlock) → count_in blocks.new.items (at + 1) d + 1
        ≡ count_in blocks.old.items (at + 1) d }
    ensures others { (k : ℕ) (d : IsBlock) → (k ≡ at → ⊥) → (k ≡ at + 1 → ⊥)
        → count_in blocks.new.items k d ≡ count_in blocks.old.items k d }
{
    let run = blocks[at + 1].take_first();
    blocks[at].put_last(run);
}

// Moves a run on from each block to the one behind it, from one that has a run too many up to the one that has room.
fn spread(blocks: &mut Vec<Block>, len: usize, from: usize)
    requires inside { len < length blocks.old.items * most_runs }
    requires start { from ≤ len / most_runs }
    requires more { HasOneMoreAt len from blocks.old.items }
    ensures size { length blocks.new.items ≡ length blocks.old.items }
    ensures runs { joined_runs blocks.new.items ≡ joined_runs blocks.old.items }
    ensures more { HasOneMoreAt len (len / most_runs) blocks.new.items }
{
    let last = len / MOST_RUNS;
    let mut at = from;
    'spread: while at < last {
        move_on(blocks, at);
        at += 1;
    }
}

// Moves a run back to each block from the one behind it, from one that has a run too few on.
fn gather(blocks: &mut Vec<Block>, len: usize, from: usize)
    requires some { 0 < len }
    requires inside { len ≤ length blocks.old.items * most_runs }
    requires start { from ≤ (len - 1) / most_runs }
    requires less { HasOneLessAt len from blocks.old.items }
    ensures size { length blocks.new.items ≡ length blocks.old.items }
    ensures runs { joined_runs blocks.new.items ≡ joined_runs blocks.old.items }
    ensures less { HasOneLessAt len ((len - 1) / most_runs) blocks.new.items }
{
    let last = (len - 1) / MOST_RUNS;
    let mut at = from;
    'gather: while at < last {
        move_back(blocks, at);
        at += 1;
    }
}

#[tactic(auto, unfolding(crate::specs::RunLists::all_runs, crate::specs::RunLists::room_for_runs))]
impl RunList {
    ghost use Rattle.cfb_fat_runs.specs.RunLists.{room_for_runs, all_runs};

    /// A list without a run.
    pub(crate) fn new(alloc: Global) -> RunList
        ensures { all_runs result ≡ [] }
    {
        RunList {
            alloc,
            blocks: Vec::new(alloc),
            len: 0,
        }
    }

    /// How many runs it has.
    pub(crate) fn len(&self) -> usize
        ensures { result ≡ length (all_runs self.now) }
    {
        self.len
    }

    /// The run at a place.
    pub(crate) fn get(&self, place: usize) -> Run
        requires { place < length (all_runs self.now) }
        ensures { result ≡ slice_index_or (all_runs self.now) place result }
    {
        self.blocks[place / MOST_RUNS].get(place % MOST_RUNS)
    }

    /// Puts another run at a place.
    pub(crate) fn set(&mut self, place: usize, run: Run)
        requires { place < length (all_runs self.old) }
        ensures runs { all_runs self.new ≡ slice_set (all_runs self.old) place run }
        ensures room { room_for_runs self.new ≡ room_for_runs self.old }
    {
        self.blocks[place / MOST_RUNS].set(place % MOST_RUNS, run);
    }

    /// Puts a run in at a place, for which there is memory.
    pub(crate) fn insert(&mut self, place: usize, run: Run)
        requires inside { place ≤ length (all_runs self.old) }
        requires room { length (all_runs self.old) < room_for_runs self.old }
        ensures runs { all_runs self.new ≡ insert (all_runs self.old) place run }
        ensures room { room_for_runs self.new ≡ room_for_runs self.old }
    {
        let at = place / MOST_RUNS;
        self.blocks[at].insert(place % MOST_RUNS, run);
        spread(&mut self.blocks, self.len, at);
        self.len += 1;
    }

    /// Puts a run in behind the others, for which there is memory.
    pub(crate) fn push(&mut self, run: Run)
        requires { length (all_runs self.old) < room_for_runs self.old }
        ensures runs { all_runs self.new ≡ all_runs self.old ++ run ∷ [] }
        ensures room { room_for_runs self.new ≡ room_for_runs self.old }
    {
        let count = self.len();
        self.insert(count, run);
    }

    /// Takes out the run at a place.
    pub(crate) fn remove(&mut self, place: usize)
        requires { place < length (all_runs self.old) }
        ensures runs { all_runs self.new
            ≡ take place (all_runs self.old) ++ drop (place + 1) (all_runs self.old) }
        ensures room { room_for_runs self.new ≡ room_for_runs self.old }
    {
        let at = place / MOST_RUNS;
        self.blocks[at].remove(place % MOST_RUNS);
        gather(&mut self.blocks, self.len, at);
        self.len -= 1;
    }

    /// Asks for the memory of so many runs more.
    pub(crate) fn reserve(&mut self, count: usize) -> Result<(), AllocError>
        ensures runs { all_runs self.new ≡ all_runs self.old }
        ensures ok { OnOk result (length (all_runs self.new) + count ≤ room_for_runs self.new) }
        ensures room { room_for_runs self.old ≤ room_for_runs self.new }
        ensures most { OnOk result (count < 2 ^ 63) }
        ensures enough { length (all_runs self.old) + count ≤ room_for_runs self.old → OnErr result ⊥ }
    {
        if count <= self.blocks.len() * MOST_RUNS - self.len {
            return Ok(());
        }
        let Some(room) = self.len.checked_add(count) else {
            return Err(AllocError);
        };
        let wanted = room.div_ceil(MOST_RUNS);
        if wanted >= TOO_MANY_BLOCKS {
            return Err(AllocError);
        }
        while self.blocks.len() < wanted {
            self.add_block()?;
        }
        Ok(())
    }

    // Asks for the memory of a block more.
    fn add_block(&mut self) -> Result<(), AllocError>
        requires { room_for_runs self.old + most_runs < 2 ^ 63 }
        ensures runs { all_runs self.new ≡ all_runs self.old }
        ensures ok { OnOk result (room_for_runs self.new ≡ room_for_runs self.old + most_runs) }
        ensures after_error { OnErr result (room_for_runs self.new ≡ room_for_runs self.old) }
    {
        let block = Block::new(self.alloc)?;
        self.blocks.push(block)?;
        Ok(())
    }
}
