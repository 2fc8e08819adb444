//! The mini FAT's numbers in memory ([MS-CFB] 2.4).
ghost use Rattle.cfb_medium.specs.declared.error.Error.TheVariants.{InvalidData, Memory};
ghost use Rattle.cfb_mini.specs.LinkViews.{minis_of};
ghost use Rattle.cfb_mini.specs.Minis.{AreInside};
ghost use Rattle.cfb_sectors.specs.Sectors.{free, Chain as IsChain};
ghost use Rattle.std.specs.List.{count_by};
ghost use Rattle.std.specs.Prelude.{length, nat_eq, replicate, slice_index, slice_set, take, IfErr, IfOk, IsErrOf, IsTrue, List, OnErr, OnOk, ℕ, ◌++◌, ◌<◌, ◌≡◌, ◌≤◌, ◌↔◌, ◌⊎◌};

use crate::MiniLinks;
use cfb_chains::chain_in;
use cfb_medium::Error;
use cfb_sectors::{FREE_SECTOR, MINI_SECTOR_LEN};
use std::alloc::Global;

// The mini FAT's numbers.
#[derive(Drop)]
pub(crate) struct MiniNumbers {
    items: Vec<u32>,
    // No mini sector below this number is free.
    first_free: usize,
    ghost packed: { (k : ℕ) → k < first_free → slice_index items.items k ≡ free → ⊥ },
}

// Where to look first for a free mini sector, after this one got an entry.
fn first_free_after(first_free: usize, index: usize, entry: u32) -> usize
    ensures before { result ≤ first_free }
    ensures freed { entry ≡ free → result ≤ index }
{
    if entry == FREE_SECTOR {
        first_free.min(index)
    } else {
        first_free
    }
}

// Whether a mini stream of so many bytes has each of these mini sectors.
pub(crate) fn are_inside(len: u64, mini_sector_ids: &[u32]) -> bool
    ensures { IsTrue result ↔ AreInside len mini_sector_ids.now }
{
    for id in mini_sector_ids {
        if MINI_SECTOR_LEN as u64 * (*id as u64) + MINI_SECTOR_LEN as u64 > len {
            return false;
        }
    }
    true
}

impl MiniNumbers {
    ghost use Rattle.cfb_mini.specs.NumberViews.{numbers_of};

    // These numbers.
    pub(crate) fn new(items: Vec<u32>) -> MiniNumbers
        ensures { numbers_of result ≡ items.items }
    {
        MiniNumbers {
            items,
            first_free: 0,
        }
    }

    // The numbers.
    pub(crate) fn items(&self) -> &[u32]
        ensures { result.now ≡ numbers_of self.now }
    {
        &self.items
    }

    // The first free mini sector; their number where none is free. Those below it aren't looked at again.
    pub(crate) fn find_free(&mut self) -> usize
        ensures most { result ≤ length (numbers_of self.old) }
        ensures free { result < length (numbers_of self.old)
            → slice_index (numbers_of self.old) result ≡ free }
        ensures first { (k : ℕ) → k < result → slice_index (numbers_of self.old) k ≡ free → ⊥ }
        ensures same { numbers_of self.new ≡ numbers_of self.old }
    {
        let mut found = self.first_free.min(self.items.len());
        while found < self.items.len() && self.items[found] != FREE_SECTOR {
            found += 1;
        }
        self.first_free = found;
        found
    }

    // How many mini sectors below this number are free; so many at most are counted.
    pub(crate) fn count_free(&self, end: usize, most: usize) -> usize
        ensures most { result ≤ most }
        ensures all { result < most → result
            ≡ count_by (λ entry. nat_eq entry free) (take end (numbers_of self.now)) }
    {
        let stop = end.min(self.items.len());
        let mut at = self.first_free.min(stop);
        let mut count = 0;
        while at < stop && count < most {
            if self.items[at] == FREE_SECTOR {
                count += 1;
            }
            at += 1;
        }
        count
    }

    // Takes in so many free mini sectors behind the last.
    pub(crate) fn grow(&mut self, count: usize) -> Result<(), Error>
        ensures grown { OnOk result (numbers_of self.new
            ≡ numbers_of self.old ++ replicate count free) }
        ensures kept { OnErr result (numbers_of self.new ≡ numbers_of self.old) }
        ensures errors { IfErr result (λ e. e ≡ Memory) }
    {
        let len = self.items.len();
        let Some(wanted) = len.checked_add(count) else {
            return Err(Error::Memory);
        };
        self.first_free = self.first_free.min(len);
        self.items.resize(wanted, FREE_SECTOR)?;
        Ok(())
    }

    // Keeps so many numbers, those at the front.
    pub(crate) fn truncate(&mut self, len: usize)
        ensures { numbers_of self.new ≡ take len (numbers_of self.old) }
    {
        self.items.truncate(len);
    }

    // Sets a number.
    pub(crate) fn set(&mut self, index: usize, entry: u32)
        requires { index < length (numbers_of self.old) }
        ensures { numbers_of self.new ≡ slice_set (numbers_of self.old) index entry }
    {
        self.first_free = first_free_after(self.first_free, index, entry);
        self.items[index] = entry;
    }

    // The mini chain from a start, in a mini stream of so many bytes. `InvalidData` where there is none.
    pub(crate) fn open(&self, alloc: Global, len: u64, start: u32) -> Result<MiniLinks, Error>
        ensures chain { IfOk result (λ links. IsChain (numbers_of self.now) start
            (minis_of links)) }
        ensures inside { IfOk result (λ links. AreInside len (minis_of links)) }
        ensures none { IsErrOf result InvalidData → (minis : List ℕ)
            → IsChain (numbers_of self.now) start minis → AreInside len minis → ⊥ }
        ensures errors { IfErr result (λ e. (e ≡ InvalidData) ⊎ (e ≡ Memory)) }
    {
        let mini_sector_ids = chain_in(alloc, &self.items, start)?;
        if !are_inside(len, &mini_sector_ids) {
            return Err(Error::InvalidData);
        }
        Ok(MiniLinks::of(mini_sector_ids))
    }
}
