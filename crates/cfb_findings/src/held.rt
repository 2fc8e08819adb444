//! Which chains of a table hold a stream's bytes ([MS-CFB] 2.6.3).
ghost use Rattle.cfb_findings.specs.Rooms.{of_part, IsHeld};
ghost use Rattle.cfb_medium.specs.declared.error.Error.TheVariants.{Memory};
ghost use Rattle.std.specs.Prelude.{length, min, slice_index, IfErr, IfOk, IsTrue, List, ℕ, ◌-◌, ◌<◌, ◌^◌, ◌≡◌, ◌≤◌, ◌↔◌};

use crate::links::{ends_of, has_chain};
use crate::rooms::{of_part, rooms_of};
use cfb_medium::Error;
use std::alloc::Global;

// Where the links of a table end, and how many bytes of each chain stand in the file.
#[derive(Drop)]
pub(crate) struct Held {
    pub(crate) ends: Vec<u32>,
    pub(crate) rooms: Vec<u64>,
}

impl Held {
    ghost use Rattle.cfb_findings.specs.Held.{TableHasChains};

    // What is told of a table's chains, where so many bytes of each part stand in the file.
    pub(crate) fn of_table(
        alloc: Global,
        links: &[u32],
        avail: &[u64],
        piece: u64,
    ) -> Result<Held, Error>
        requires few { length avail.now < 2 ^ 32 }
        requires all { length links.now ≤ length avail.now }
        requires some { 0 < piece }
        requires small { piece ≤ 4096 }
        requires most { (n : ℕ) → of_part avail.now n ≤ piece }
        ensures tells { (place : ℕ → ℕ) (file_len : ℕ) → ((n : ℕ) → n < length links.now
            → slice_index avail.now n ≡ min piece (file_len - place n))
            → IfOk result (λ it. TableHasChains links.now piece place file_len it) }
        ensures errors { IfErr result (λ e. e ≡ Memory) }
    {
        let ends = ends_of(alloc, links)?;
        let rooms = rooms_of(alloc, links, avail, piece)?;
        Ok(Held { ends, rooms })
    }

    // Whether a stream of so many bytes that starts there has a chain, and its bytes stand in the file.
    pub(crate) fn holds(&self, start: u32, size: u64) -> bool
        ensures { (links : List ℕ) (piece : ℕ) (place : ℕ → ℕ) (file_len : ℕ)
            → TableHasChains links piece place file_len self.now
            → IsTrue result ↔ IsHeld links piece place file_len start size }
    {
        if !has_chain(&self.ends, start) {
            return false;
        }
        let room = of_part(&self.rooms, start);
        if size > room {
            return false;
        }
        true
    }
}
