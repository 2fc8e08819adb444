//! Sectors that are taken into use, for chains that begin or become longer ([MS-CFB] 2.3).
ghost use Rattle.cfb_fat.specs.Calls.{FatErrorContract, WriteErrorContract, TableErrorContract, FillsBehind, HasNoFreeBelow, IsNewSector, IsFull, IsLastResort, IsTheLast, AllocatesAndFills, AllocatesOneSector, MemoryErrorContract};
ghost use Rattle.cfb_chains.specs.ChainCalls.{IsInvalidOrFull};
ghost use Rattle.cfb_chains.specs.Changes.{AreSubsetOf, IsNotIn};
ghost use Rattle.cfb_chains.specs.Grown.{AreSectorsWritable, IsChainInTable};
ghost use Rattle.cfb_chains.specs.LinkViews.{ids_of, links_version};
ghost use Rattle.cfb_chains.specs.Owned.{ChangesAtMost};
ghost use Rattle.cfb_chains.specs.Positions.{sectors_for};
ghost use Rattle.cfb_fat.specs.Changing.{MayWrite, WritesBeside};
ghost use Rattle.cfb_fat.specs.Growing.{GrowsFat, HasMemory, KeepsMemory, LacksSectorNumbers, Spends, AllocatesSectors};
ghost use Rattle.cfb_fat.specs.Keeping.{takes_cause, takes_fails, takes_keep, takes_rest, takes_then};
ghost use Rattle.cfb_fat.specs.Seeing.{seen_of};
ghost use Rattle.cfb_medium.specs.Calls.{IsFaultOrInvalidInputIf};
ghost use Rattle.cfb_medium.specs.Versions.{sector_len};
ghost use Rattle.cfb_medium.specs.declared.error.Error.TheVariants.{Failed, Full, InvalidData, Memory};
ghost use Rattle.cfb_sectors.specs.Copies.{copies};
ghost use Rattle.cfb_sectors.specs.Held.{count_of};
ghost use Rattle.cfb_sectors.specs.Initial.{first_bytes, initial};
ghost use Rattle.cfb_sectors.specs.Sectors.{end_of_chain, free, greatest_regular, joined, sector, sector_start, Chain as IsChain};
ghost use Rattle.std.specs.Prelude.{false, length, slice_get, slice_index, slice_set, true, IfErr, IfOk, IsErrOf, IsTrue, List, MatchOption, OnErr, OnOk, Some, [], ℕ, ◌++◌, ◌+◌, ◌-◌, ◌<◌, ◌↔◌, ◌∷◌, ◌≡◌, ◌≤◌, ◌⊎◌};

use crate::Allocator;
use cfb_chains::{Chain, GrowsChains, Links};
use cfb_medium::{Error, Medium};
use cfb_sectors::{END_OF_CHAIN, FREE_SECTOR, MAX_REGULAR_SECTOR, NewSector, SectorInit};

impl<F: Medium> Allocator<F> {
    ghost use Rattle.cfb_fat.specs.Tables.{bytes_of, capacity_of, difat_sectors_of, fat_of, fat_sectors_of, has_failed_here, is_honest, orderly_of, runs_of, sectors_of, tables_of, version_of, OnlyReadsAllocator, IsJustifiedBySectors};

    /// Readies the chain from a start to take in so many sectors: the memory that the tables may need for them is asked for.
    /// `InvalidData` where the FAT has no such chain or the tables can't be changed, and then `Full` where fewer numbers are
    /// left, or `Memory`. Nothing is changed.
    pub fn prepare_growth(&mut self, start: u32, count: usize) -> Result<(), Error>
        ensures ready { OnOk result (IsTrue (orderly_of self.old)) }
        ensures chain { OnOk result ((ids : List ℕ) × IsChain (fat_of self.old) start ids) }
        ensures memory { OnOk result (HasMemory self.new 0 count) }
        ensures only_reads { OnlyReadsAllocator self.old self.new }
        ensures refused_only_if { IsErrOf result InvalidData → IsTrue (orderly_of self.old)
            → (ids : List ℕ) → IsChain (fat_of self.old) start ids → ⊥ }
        ensures full_only_if { IsErrOf result Full → IsTrue (orderly_of self.old)
            × LacksSectorNumbers self.old count }
        ensures when_failed { has_failed_here self.old ≡ true → IsErrOf result Failed }
        ensures errors { IfErr result (λ e. ((e ≡ Failed) × (has_failed_here self.old ≡ true))
            ⊎ (e ≡ InvalidData) ⊎ (e ≡ Memory) ⊎ (e ≡ Full)) }
    {
        self.check_growth(start, count)?;
        self.reserve_growth(count)?;
        Ok(())
    }

    // Sees whether the chain from a start can take in so many sectors: `InvalidData` where the FAT has no such chain or the
    // tables can't be changed, and then `Full` where fewer numbers are left.
    fn check_growth(&self, start: u32, count: usize) -> Result<(), Error>
        ensures ready { OnOk result (IsTrue (orderly_of self.now)) }
        ensures chain { OnOk result ((ids : List ℕ) × IsChain (fat_of self.now) start ids) }
        ensures refused_only_if { IsErrOf result InvalidData → IsTrue (orderly_of self.now)
            → (ids : List ℕ) → IsChain (fat_of self.now) start ids → ⊥ }
        ensures full_only_if { IsErrOf result Full → IsTrue (orderly_of self.now)
            × LacksSectorNumbers self.now count }
        ensures when_failed { has_failed_here self.now ≡ true → IsErrOf result Failed }
        ensures errors { IfErr result (λ e. ((e ≡ Failed) × (has_failed_here self.now ≡ true))
            ⊎ (e ≡ InvalidData) ⊎ (e ≡ Memory) ⊎ (e ≡ Full)) }
    {
        let _links = self.open_chain(start)?;
        if !self.is_orderly {
            return Err(Error::InvalidData);
        }
        let behind = MAX_REGULAR_SECTOR as usize + 1 - self.fat.len();
        if count > behind && count - behind > self.fat.count_free() {
            return Err(Error::Full);
        }
        Ok(())
    }

    // Whether a sector is in no use: its entry is "free", and it holds no part of the tables.
    fn is_spare(&self, sector_id: u32) -> bool
        requires live { has_failed_here self.now ≡ false }
        requires there { sector_id < length (fat_of self.now) }
        ensures { IsTrue result ↔ ((slice_index (fat_of self.now) sector_id ≡ free)
            × IsNotIn (difat_sectors_of self.now) sector_id
            × IsNotIn (fat_sectors_of self.now) sector_id) }
    {
        if self.fat.entry(sector_id as usize) != FREE_SECTOR {
            return false;
        }
        self.may_write(self.sectors.start(sector_id), self.sector_len())
    }

    // The first sector that is in no use: its entry is "free", and it holds no part of the tables. Those that are known to be
    // in use aren't looked at again.
    fn find_free(&self) -> Option<u32>
        requires { has_failed_here self.now ≡ false }
        ensures { MatchOption result (HasNoFreeBelow self.now (length (fat_of self.now)))
            (λ n. (slice_get (fat_of self.now) n ≡ Some free)
            × IsNotIn (difat_sectors_of self.now) n
            × IsNotIn (fat_sectors_of self.now) n × HasNoFreeBelow self.now n) }
    {
        let mut from = self.first_free;
        while let Some(index) = self.fat.next_free(from) {
            let sector_id = index as u32;
            if self.is_spare(sector_id) {
                return Some(sector_id);
            }
            from = index + 1;
        }
        None
    }

    // Fills the first sector that is in no use. After a fault it has failed.
    fn init_beside(&mut self, sector_id: u32, init: NewSector<'_>) -> Result<(), Error>
        requires live { has_failed_here self.old ≡ false }
        requires there { sector_id < count_of (sectors_of self.old) }
        requires no_difat { IsNotIn (difat_sectors_of self.old) sector_id }
        requires no_fat { IsNotIn (fat_sectors_of self.old) sector_id }
        requires lowest { (k : ℕ) → k < sector_id → slice_index (fat_of self.old) k ≡ free
            → IsNotIn (difat_sectors_of self.old) k → IsNotIn (fat_sectors_of self.old) k → ⊥ }
        ensures writes { WritesBeside (sector_start (version_of self.old) sector_id)
            (first_bytes init.entry (sector_len (version_of self.old))) self.old self.new }
        ensures runs { (runs_of self.new ≡ runs_of self.old)
            × (capacity_of self.new ≡ capacity_of self.old) }
        ensures memory { KeepsMemory self.old self.new }
        ensures not_failed { OnOk result (has_failed_here self.new ≡ false) }
        ensures after_error { OnErr result (has_failed_here self.new ≡ true) }
        ensures cause { IfErr result (IsJustifiedBySectors self.old self.new) }
        ensures errors { IfErr result (IsFaultOrInvalidInputIf ⊥) }
    {
        self.first_free = sector_id as usize;
        self.sectors.init_sector(sector_id, init)
    }

    // Takes the first sector that is in no use into use, as a chain of its own. After a fault it has failed.
    fn take_free(&mut self, sector_id: u32, init: NewSector<'_>) -> Result<(), Error>
        requires live { has_failed_here self.old ≡ false }
        requires orderly { IsTrue (orderly_of self.old) }
        requires there { sector_id < length (fat_of self.old) }
        requires no_difat { IsNotIn (difat_sectors_of self.old) sector_id }
        requires no_fat { IsNotIn (fat_sectors_of self.old) sector_id }
        requires lowest { HasNoFreeBelow self.old sector_id }
        requires room { runs_of self.old + 2 ≤ capacity_of self.old }
        ensures occupies { OnOk result (AllocatesAndFills init.entry self.old self.new sector_id) }
        ensures fat { OnOk result (fat_of self.new
            ≡ slice_set (fat_of self.old) sector_id end_of_chain) }
        ensures none { OnErr result (GrowsFat [] [] self.old self.new) }
        ensures spends { (entries n : ℕ) → HasMemory self.old (entries + 1) n
            → OnOk result (HasMemory self.new entries n) }
        ensures error_contract { WriteErrorContract result (sectors_of self.old)
            (sectors_of self.new) }
    {
        self.init_beside(sector_id, init)?;
        self.set_entry(sector_id, END_OF_CHAIN)?;
        Ok(())
    }

    // Takes a sector into use as a chain of its own: a free one, or where there is none but a table's, one behind all others.
    // `Full` where no number is left, and `Memory`, each with nothing changed; after a fault in a write it has failed.
    fn take(&mut self, init: NewSector<'_>) -> Result<u32, Error>
        requires live { has_failed_here self.old ≡ false }
        requires orderly { IsTrue (orderly_of self.old) }
        ensures takes { IfOk result (AllocatesOneSector init.entry self.old self.new) }
        ensures full_only_if { IsErrOf result Full → IsFull self.old
            × OnlyReadsAllocator self.old self.new }
        ensures none { OnErr result (GrowsFat [] [] self.old self.new) }
        ensures spends { Spends 0 (λ e. e ≡ Full) result self.old self.new }
        ensures tries { MemoryErrorContract IsTheLast result self.old self.new }
    {
        self.reserve_growth(1)?;
        self.take_reserved(init)
    }

    // The same, where there is memory for it.
    fn take_reserved(&mut self, init: NewSector<'_>) -> Result<u32, Error>
        requires live { has_failed_here self.old ≡ false }
        requires orderly { IsTrue (orderly_of self.old) }
        requires memory { HasMemory self.old 0 1 }
        ensures takes { IfOk result (AllocatesOneSector init.entry self.old self.new) }
        ensures full_only_if { IsErrOf result Full → IsFull self.old
            × OnlyReadsAllocator self.old self.new }
        ensures none { OnErr result (GrowsFat [] [] self.old self.new) }
        ensures spends { Spends 0 (λ e. e ≡ Full) result self.old self.new }
        ensures tries { MemoryErrorContract IsTheLast result self.old self.new }
    {
        if let Some(sector_id) = self.find_free() {
            self.take_free(sector_id, init)?;
            return Ok(sector_id);
        }
        self.make_room()?;
        self.append(init)
    }

    /// Takes a sector into use as a chain of its own: a free one, or where there is none but a table's, one behind all others.
    /// `InvalidData` where the tables can't be changed, and then `Full` where no number is left and no sector is spare, or
    /// `Memory`, each with nothing changed. After a fault in a write it has failed.
    pub fn begin_chain(&mut self, init: NewSector<'_>) -> Result<u32, Error>
        ensures chain { IfOk result (λ n. IsChain (fat_of self.new) n (n ∷ [])) }
        ensures takes { IfOk result (λ n. AllocatesSectors (n ∷ []) (n ∷ []) self.old self.new) }
        ensures leaves { IfOk result (λ n. IsTrue (is_honest self.old)
            → ChangesAtMost (sector (version_of self.old)) [] (n ∷ n ∷ []) (seen_of self.old)
            (seen_of self.new)) }
        ensures fresh { IfOk result (IsNewSector init.entry self.old self.new) }
        ensures appended { IfOk result (IsLastResort self.old) }
        ensures refused_only_if { IsErrOf result InvalidData
            → (IsTrue (orderly_of self.old) → ⊥) × OnlyReadsAllocator self.old self.new }
        ensures full_only_if { IsErrOf result Full → IsTrue (orderly_of self.old) × IsFull self.old
            × OnlyReadsAllocator self.old self.new }
        ensures none { OnErr result (AllocatesSectors [] [] self.old self.new) }
        ensures spends { Spends 0 IsInvalidOrFull result self.old self.new }
        ensures error_contract { TableErrorContract IsInvalidOrFull result self.old self.new }
    {
        if self.sectors.is_failed() {
            return Err(Error::Failed);
        }
        if !self.is_orderly {
            return Err(Error::InvalidData);
        }
        self.take(init)
    }

    // The last sector of the chain from a start. Where this is the last itself, it takes no memory.
    fn last_of(&self, start: u32) -> Result<u32, Error>
        ensures chain { IfOk result (λ last. (ids : List ℕ)
            × IsChain (fat_of self.now) start (ids ++ last ∷ [])) }
        ensures not_failed { OnOk result (has_failed_here self.now ≡ false) }
        ensures when_failed { has_failed_here self.now ≡ true → IsErrOf result Failed }
        ensures none { IsErrOf result InvalidData → (ids : List ℕ) (last : ℕ)
            → IsChain (fat_of self.now) start (ids ++ last ∷ []) → ⊥ }
        ensures memory { slice_get (fat_of self.now) start ≡ Some end_of_chain
            → IsErrOf result Memory → ⊥ }
        ensures errors { IfErr result (λ e. ((e ≡ Failed) × (has_failed_here self.now ≡ true))
            ⊎ (e ≡ InvalidData) ⊎ (e ≡ Memory)) }
    {
        if self.next(start)? == END_OF_CHAIN {
            return Ok(start);
        }
        let links = self.open_chain(start)?;
        let count = links.sector_ids().len();
        if count == 0 {
            return Err(Error::InvalidData);
        }
        Ok(links.sector_ids()[count - 1])
    }

    /// Extends the chain from a start by one sector behind its last, and gives its number: a free one, or where there is none
    /// but a table's, one behind all others. `InvalidData` where the FAT has no such chain, it has no sector, or the tables
    /// can't be changed, and then `Full` where no number is left and no sector is spare, or `Memory`, each with nothing
    /// changed. After a fault in a write it has failed ([MS-CFB] 2.3).
    pub fn extend_chain(&mut self, start: u32, init: NewSector<'_>) -> Result<u32, Error>
        ensures extends { IfOk result (λ n. (ids : List ℕ) × (last : ℕ)
            × IsChain (fat_of self.old) start (ids ++ last ∷ [])
            × IsChain (fat_of self.new) start (ids ++ last ∷ n ∷ [])
            × AllocatesSectors (n ∷ []) (last ∷ n ∷ []) self.old self.new) }
        ensures leaves { IfOk result (λ n. (ids : List ℕ) × (last : ℕ)
            × IsChain (fat_of self.old) start (ids ++ last ∷ [])
            × (IsTrue (is_honest self.old)
            → ChangesAtMost (sector (version_of self.old)) [] (n ∷ last ∷ n ∷ []) (seen_of self.old)
            (seen_of self.new))) }
        ensures none { OnErr result (AllocatesSectors [] [] self.old self.new) }
        ensures fresh { IfOk result (IsNewSector init.entry self.old self.new) }
        ensures appended { IfOk result (IsLastResort self.old) }
        ensures refused_only_if { IsErrOf result InvalidData
            → (IsTrue (orderly_of self.old) → (ids : List ℕ) (last : ℕ)
            → IsChain (fat_of self.old) start (ids ++ last ∷ []) → ⊥)
            × OnlyReadsAllocator self.old self.new }
        ensures full_only_if { IsErrOf result Full → IsTrue (orderly_of self.old) × IsFull self.old
            × OnlyReadsAllocator self.old self.new }
        ensures spends { slice_get (fat_of self.old) start ≡ Some end_of_chain
            → Spends 0 IsInvalidOrFull result self.old self.new }
        ensures error_contract { TableErrorContract IsInvalidOrFull result self.old self.new }
    {
        let last = self.last_of(start)?;
        if !self.is_orderly {
            return Err(Error::InvalidData);
        }
        let sector_id = self.take(init)?;
        self.set_entry(last, sector_id)?;
        Ok(sector_id)
    }

    /// Extends the chain from a start by so many sectors behind its last, each as `extend_chain` does. `InvalidData` where the
    /// FAT has no such chain, it has no sector, or the tables can't be changed, with nothing changed, and then `Full` where
    /// fewer numbers are left. After an error nothing is changed, or it has failed ([MS-CFB] 2.3).
    pub fn extend_chain_by(
        &mut self,
        start: u32,
        count: usize,
        init: SectorInit,
    ) -> Result<(), Error>
        ensures extends { OnOk result ((ids : List ℕ) × (more : List ℕ) × (changed : List ℕ)
            × IsChain (fat_of self.old) start ids
            × IsChain (fat_of self.new) start (ids ++ more) × (length more ≡ count)
            × AllocatesSectors more changed self.old self.new × AreSubsetOf (ids ++ more) changed
            × (IsTrue (is_honest self.old) → AreSectorsWritable (MayWrite self.old)
            (version_of self.old) ids
            → joined (version_of self.old) (bytes_of self.new) (ids ++ more)
            ≡ joined (version_of self.old) (bytes_of self.old) ids
            ++ copies count (initial init (sector_len (version_of self.old))))) }
        ensures some { OnErr result ((more : List ℕ) × (changed : List ℕ)
            × AllocatesSectors more changed self.old self.new) }
        ensures refused_only_if { IsErrOf result InvalidData
            → (IsTrue (orderly_of self.old) → (ids : List ℕ) (last : ℕ)
            → IsChain (fat_of self.old) start (ids ++ last ∷ []) → ⊥)
            × OnlyReadsAllocator self.old self.new }
        ensures full_only_if { IsErrOf result Full → IsTrue (orderly_of self.old)
            × (has_failed_here self.new ≡ false → LacksSectorNumbers self.old count
            ⊎ ((ids : List ℕ) × IsChain (fat_of self.old) start ids
            × (greatest_regular < length ids + count))) }
        ensures error_contract { FatErrorContract IsInvalidOrFull result self.old self.new }
    {
        let mut links = self.open_chain(start)?;
        let old = links.sector_ids().len();
        if old == 0 {
            return Err(Error::InvalidData);
        }
        if !self.is_orderly() {
            return Err(Error::InvalidData);
        }
        let Some(all) = old.checked_add(count) else {
            return Err(Error::Full);
        };
        let Some(len) = (all as u64).checked_mul(self.sector_len() as u64) else {
            return Err(Error::Full);
        };
        self.lengthen_chain(&mut links, len, init)
    }

    // Gives the chain of these links so many bytes.
    fn lengthen_chain(&mut self, links: &mut Links, len: u64, init: SectorInit) -> Result<(), Error>
        requires more { length (ids_of links.old) ≤ sectors_for (links_version links.old) len }
        ensures count { OnOk result (length (ids_of links.new)
            ≡ sectors_for (links_version links.old) len) }
        ensures longer { (more : List ℕ) × (changed : List ℕ)
            × (ids_of links.new ≡ ids_of links.old ++ more)
            × AllocatesSectors more changed self.old self.new
            × (IsChainInTable (fat_of self.old) (ids_of links.old)
            → AreSubsetOf (ids_of links.new) changed) }
        ensures linked { OnOk result (IsChainInTable (fat_of self.old) (ids_of links.old)
            → IsChainInTable (fat_of self.new) (ids_of links.new)) }
        ensures filled { OnOk result (FillsBehind init links.old links.new self.old self.new) }
        ensures refused_only_if { IsErrOf result InvalidData → (IsTrue (orderly_of self.old)
            → IsChainInTable (fat_of self.old) (ids_of links.old) → ⊥)
            × OnlyReadsAllocator self.old self.new }
        ensures full_only_if { IsErrOf result Full → IsTrue (orderly_of self.old)
            × (has_failed_here self.new ≡ false
            → LacksSectorNumbers self.old (sectors_for (links_version links.old) len
            - length (ids_of links.old))
            ⊎ (greatest_regular + 1 < sectors_for (links_version links.old) len)) }
        ensures error_contract { FatErrorContract IsInvalidOrFull result self.old self.new }
    {
        let mut chain = Chain::new(self, links, init);
        chain.set_len(len)
    }
}

impl<F: Medium> GrowsChains for Allocator<F> {
    ghost use Rattle.cfb_fat.specs.Tables.{tables_of, version_of};

    ghost version = { version_of };

    ghost tables = { tables_of };

    ghost lacks = { LacksSectorNumbers };

    ghost is_full = { IsFull };

    ghost grows = { AllocatesSectors };

    fn begin_chain(&mut self, init: NewSector<'_>) -> Result<u32, Error> {
        Allocator::begin_chain(self, init)
    }

    fn extend_chain(&mut self, start: u32, init: NewSector<'_>) -> Result<u32, Error> {
        Allocator::extend_chain(self, start, init)
    }

    fn prepare_growth(&mut self, start: u32, count: usize) -> Result<(), Error> {
        Allocator::prepare_growth(self, start, count)
    }

    ghost grows_keep = { takes_keep };

    ghost grows_rest = { takes_rest };

    ghost grows_then = { takes_then };

    ghost grows_fails = { takes_fails };

    ghost grows_cause = { takes_cause };
}
