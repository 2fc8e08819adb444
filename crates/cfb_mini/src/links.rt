//! The mini sectors of a chain, in order.
ghost use Rattle.cfb_medium.specs.declared.error.Error.TheVariants.{Full, Memory};
ghost use Rattle.cfb_sectors.specs.Sectors.{end_of_chain, greatest_regular};
ghost use Rattle.std.specs.Prelude.{length, slice_index, slice_index_or, take, vec_len, IfErr, MatchOption, OnOk, [], ◌*◌, ◌+◌, ◌++◌, ◌-◌, ◌<◌, ◌∷◌, ◌≡◌, ◌≤◌, ◌⊎◌};

use cfb_medium::Error;
use cfb_sectors::{END_OF_CHAIN, MAX_REGULAR_SECTOR, MINI_SECTOR_LEN};
use std::alloc::Global;

/// The mini sectors of a chain, in order ([MS-CFB] 2.4). There are no more than there are numbers for them.
#[derive(Drop)]
pub struct MiniLinks {
    mini_sector_ids: Vec<u32>,
    ghost few: { vec_len mini_sector_ids ≤ greatest_regular + 1 },
}

impl MiniLinks {
    ghost use Rattle.cfb_mini.specs.LinkViews.{minis_of, MiniHasRoom};

    /// No mini sectors.
    pub fn new(alloc: Global) -> MiniLinks
        ensures { minis_of result ≡ [] }
    {
        MiniLinks {
            mini_sector_ids: Vec::new(alloc),
        }
    }

    // These mini sectors.
    pub(crate) fn of(mini_sector_ids: Vec<u32>) -> MiniLinks
        requires { vec_len mini_sector_ids ≤ greatest_regular + 1 }
        ensures { minis_of result ≡ mini_sector_ids.items }
    {
        MiniLinks { mini_sector_ids }
    }

    /// The mini sectors.
    pub fn mini_sector_ids(&self) -> &[u32]
        ensures { result.now ≡ minis_of self.now }
    {
        &self.mini_sector_ids
    }

    /// The first mini sector; "end of chain" where there is none.
    pub fn start_sector_id(&self) -> u32
        ensures { result ≡ slice_index_or (minis_of self.now) 0 end_of_chain }
    {
        match self.mini_sector_ids.first() {
            Some(mini_sector_id) => *mini_sector_id,
            None => END_OF_CHAIN,
        }
    }

    /// How many bytes the mini sectors have.
    pub fn len(&self) -> u64
        ensures { result ≡ 64 * length (minis_of self.now) }
    {
        MINI_SECTOR_LEN as u64 * self.mini_sector_ids.len() as u64
    }

    // Takes all mini sectors away.
    pub(crate) fn clear(&mut self)
        ensures { minis_of self.new ≡ [] }
    {
        self.mini_sector_ids.clear();
    }

    // Keeps so many mini sectors, those at the front.
    pub(crate) fn truncate(&mut self, count: usize)
        ensures { minis_of self.new ≡ take count (minis_of self.old) }
    {
        self.mini_sector_ids.truncate(count);
    }

    // The last mini sector.
    pub(crate) fn last(&self) -> Option<u32>
        ensures { MatchOption result (length (minis_of self.now) ≡ 0)
            (λ last. (0 < length (minis_of self.now))
            × (last ≡ slice_index (minis_of self.now) (length (minis_of self.now) - 1))) }
    {
        let count = self.mini_sector_ids.len();
        if count == 0 {
            return None;
        }
        Some(self.mini_sector_ids[count - 1])
    }

    // Makes room for one mini sector more. `Full` where there is no number for it.
    pub(crate) fn reserve_one(&mut self) -> Result<(), Error>
        ensures room { OnOk result (MiniHasRoom self.new) }
        ensures same { minis_of self.new ≡ minis_of self.old }
        ensures errors { IfErr result (λ e. (e ≡ Memory)
            ⊎ ((e ≡ Full) × (greatest_regular < length (minis_of self.old)))) }
    {
        if self.mini_sector_ids.len() > MAX_REGULAR_SECTOR as usize {
            return Err(Error::Full);
        }
        self.mini_sector_ids.reserve(1)?;
        Ok(())
    }

    // Takes in a mini sector behind the last.
    pub(crate) fn push_reserved(&mut self, mini_sector_id: u32)
        requires { MiniHasRoom self.old }
        ensures { minis_of self.new ≡ minis_of self.old ++ mini_sector_id ∷ [] }
    {
        self.mini_sector_ids.push_reserved(mini_sector_id);
    }
}
