//! How often the parts of a file are used.
ghost use Rattle.cfb_findings.specs.Counted.{left_to_count, CountsMatchUses, FollowLinks};
ghost use Rattle.cfb_findings.specs.Findings.{is_shared, shared, ChainOrNone, ChainsFrom};
ghost use Rattle.cfb_findings.specs.Links.{AreEnds};
ghost use Rattle.cfb_medium.specs.declared.error.Error.TheVariants.{Memory};
ghost use Rattle.cfb_sectors.specs.Sectors.{Chain};
ghost use Rattle.std.specs.Prelude.{[], false, length, slice_index, IfErr, IfOk, IsTrue, List, OnOk, if◌then◌else◌, ℕ, ◌∷◌, ◌++◌, ◌<◌, ◌≡◌, ◌≤◌};

use crate::links::{behind, ends_of, has_chain};
use cfb_medium::Error;
use cfb_sectors::MAX_REGULAR_SECTOR;
use std::alloc::Global;

// A count for each part of a table: how many uses it serves, where 2 stands for more.
#[derive(Drop)]
pub(crate) struct Counts {
    pub(crate) items: Vec<u8>,
}

impl Counts {
    ghost use Rattle.cfb_findings.specs.Views.{counts_of};

    // No use of so many parts is counted.
    pub(crate) fn new(alloc: Global, count: usize) -> Result<Counts, Error>
        ensures none { IfOk result (λ it. CountsMatchUses [] (counts_of it)) }
        ensures size { IfOk result (λ it. length (counts_of it) ≡ count) }
        ensures errors { IfErr result (λ e. e ≡ Memory) }
    {
        let items = vec![in alloc; 0; count]?;
        Ok(Counts { items })
    }

    // Counts a use of a part; `false` where there is no count for it, or it stands at 2.
    fn count(&mut self, part: u32) -> bool
        ensures counted { (parts : List ℕ) → CountsMatchUses parts (counts_of self.old)
            → CountsMatchUses (part ∷ parts) (counts_of self.new) }
        ensures size { length (counts_of self.new) ≡ length (counts_of self.old) }
        ensures less { IsTrue result
            → left_to_count (counts_of self.new) < left_to_count (counts_of self.old) }
        ensures full { result ≡ false → part < length (counts_of self.old)
            → 2 ≤ slice_index (counts_of self.old) part }
    {
        let place = part as usize;
        if place >= self.items.len() {
            return false;
        }
        if self.items[place] >= 2 {
            return false;
        }
        self.items[place] += 1;
        true
    }

    // Counts a use of each of these parts.
    pub(crate) fn count_all(&mut self, parts: &[u32])
        ensures counted { (before : List ℕ) → CountsMatchUses before (counts_of self.old)
            → CountsMatchUses (parts.now ++ before) (counts_of self.new) }
        ensures size { length (counts_of self.new) ≡ length (counts_of self.old) }
    {
        for part in parts {
            self.count(*part);
        }
    }

    // Counts the parts of the chain from a start in a table: behind a part that whole chains have twice, they have all twice.
    fn count_chain(&mut self, links: &[u32], start: u32)
        requires { length links.now ≤ length (counts_of self.old) }
        ensures counted { (ids before : List ℕ) → Chain links.now start ids
            → FollowLinks links.now before → CountsMatchUses before (counts_of self.old)
            → CountsMatchUses (ids ++ before) (counts_of self.new) }
        ensures size { length (counts_of self.new) ≡ length (counts_of self.old) }
    {
        let mut at = start;
        while at <= MAX_REGULAR_SECTOR {
            if !self.count(at) {
                return;
            }
            at = behind(links, at);
        }
    }

    // Counts the parts of the chain from a start in a table with these ends, if there is one.
    fn count_start(&mut self, links: &[u32], ends: &[u32], start: u32)
        requires { length links.now ≤ length (counts_of self.old) }
        ensures counted { (before : List ℕ) → AreEnds links.now ends.now
            → FollowLinks links.now before → CountsMatchUses before (counts_of self.old)
            → (own : List ℕ) × ChainOrNone links.now start own
            × CountsMatchUses (own ++ before) (counts_of self.new) }
        ensures size { length (counts_of self.new) ≡ length (counts_of self.old) }
    {
        if !has_chain(ends, start) {
            return;
        }
        self.count_chain(links, start);
    }

    // Counts the parts of the chains from these starts in a table with these ends.
    fn count_starts(&mut self, links: &[u32], ends: &[u32], starts: &[u32])
        requires { length links.now ≤ length (counts_of self.old) }
        ensures counted { AreEnds links.now ends.now → CountsMatchUses [] (counts_of self.old)
            → (all : List ℕ) × ChainsFrom links.now starts.now all
            × CountsMatchUses all (counts_of self.new) }
        ensures size { length (counts_of self.new) ≡ length (counts_of self.old) }
    {
        for start in starts {
            self.count_start(links, ends, *start);
        }
    }

    // Counts the parts of the chains from these starts in a table, and no other use, of so many parts.
    pub(crate) fn of_chains(
        alloc: Global,
        count: usize,
        links: &[u32],
        starts: &[u32],
    ) -> Result<Counts, Error>
        requires { length links.now ≤ count }
        ensures counted { IfOk result (λ it. (all : List ℕ) × ChainsFrom links.now starts.now all
            × CountsMatchUses all (counts_of it)) }
        ensures size { IfOk result (λ it. length (counts_of it) ≡ count) }
        ensures errors { IfErr result (λ e. e ≡ Memory) }
    {
        let ends = ends_of(alloc, links)?;
        let mut counts = Counts::new(alloc, count)?;
        counts.count_starts(links, &ends, starts);
        Ok(counts)
    }

    // Whether a part serves two uses or more.
    fn is_shared(&self, part: u32) -> bool
        requires { part < length (counts_of self.now) }
        ensures { (uses : List ℕ) → CountsMatchUses uses (counts_of self.now)
            → result ≡ is_shared uses part }
    {
        if self.items[part as usize] < 2 {
            return false;
        }
        true
    }

    // Adds a part that serves two uses or more.
    fn note(&self, found: &mut Vec<u32>, part: u32) -> Result<(), Error>
        requires { part < length (counts_of self.now) }
        ensures found { (uses : List ℕ) → CountsMatchUses uses (counts_of self.now)
            → OnOk result (found.new.items
            ≡ found.old.items ++ (if is_shared uses part then part ∷ [] else [])) }
        ensures errors { IfErr result (λ e. e ≡ Memory) }
    {
        if !self.is_shared(part) {
            return Ok(());
        }
        found.push(part)?;
        Ok(())
    }

    // The parts that serve two uses or more, of the first so many.
    pub(crate) fn shared(&self, alloc: Global, count: u32) -> Result<Vec<u32>, Error>
        requires { count ≤ length (counts_of self.now) }
        ensures found { (uses : List ℕ) → CountsMatchUses uses (counts_of self.now)
            → IfOk result (λ found. found.items ≡ shared count uses) }
        ensures errors { IfErr result (λ e. e ≡ Memory) }
    {
        let mut found = Vec::new(alloc);
        for part in 0..count {
            self.note(&mut found, part)?;
        }
        Ok(found)
    }
}
