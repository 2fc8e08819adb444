//! The tables' sectors as they were read, in rising order, so that a write finds by halving whether it meets one.
ghost use Rattle.cfb_chains.specs.Changes.{IsNotIn};
ghost use Rattle.cfb_fat.specs.Rising.{AreRead, RiseFrom};
ghost use Rattle.std.specs.Prelude.{IfOk, ℕ};

use crate::fat::both;
use std::alloc::{AllocError, Global};

/// The numbers of the tables' sectors as they were read, in rising order. Those of sectors appended since stand behind the
/// others in the tables' own lists, where they rise too: each is above all numbers before it.
#[derive(Drop)]
pub(crate) struct ReadTables {
    pub(crate) ids: Vec<u32>,
    pub(crate) num_difat: usize,
    pub(crate) num_fat: usize,
    ghost rise: { RiseFrom 0 ids.items },
}

impl ReadTables {
    // Those of these tables.
    pub(crate) fn new(
        alloc: Global,
        difat_sectors: &[u32],
        fat_sectors: &[u32],
    ) -> Result<ReadTables, AllocError>
        ensures difat { IfOk result (λ it. AreRead it.ids.items it.num_difat difat_sectors.now) }
        ensures fat { IfOk result (λ it. AreRead it.ids.items it.num_fat fat_sectors.now) }
        ensures alone { IfOk result (λ it. (n : ℕ) → IsNotIn difat_sectors.now n
            → IsNotIn fat_sectors.now n → IsNotIn it.ids.items n) }
    {
        let mut ids = both(alloc, difat_sectors, fat_sectors)?;
        ids.sort_unstable();
        Ok(ReadTables {
            ids,
            num_difat: difat_sectors.len(),
            num_fat: fat_sectors.len(),
        })
    }
}
