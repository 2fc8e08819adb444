//! Entries of the FAT that change, and chains that are freed ([MS-CFB] 2.3).
ghost use Rattle.cfb_fat.specs.Calls.{WriteErrorContract, TableErrorContract, HasRun};
ghost use Rattle.cfb_chains.specs.ChainCalls.{IsInvalid};
ghost use Rattle.cfb_chains.specs.Changes.{AreDistinct, HaveEntry};
ghost use Rattle.cfb_chains.specs.Owned.{ChangesAtMost};
ghost use Rattle.cfb_fat.specs.Changing.{fat_here, ChangesFat, WritesFatEntries};
ghost use Rattle.cfb_fat.specs.Growing.{HasMemory, KeepsMemory};
ghost use Rattle.cfb_fat.specs.Keeping.{changes_keep, rests_keep_tables, writes_keep_tables};
ghost use Rattle.cfb_fat.specs.Orderly.{AreBelow};
ghost use Rattle.cfb_medium.specs.Calls.{IsFaultOrInvalidInputIf};
ghost use Rattle.cfb_medium.specs.Versions.{sector_len};
ghost use Rattle.cfb_fat_runs.specs.Freeing.{stretches};
ghost use Rattle.cfb_fat_runs.specs.Tables.{IsEasy};
ghost use Rattle.cfb_sectors.specs.Held.{count_of as sectors_count, has_failed_here as sectors_failed, version_of as sectors_version, IsHonest};
ghost use Rattle.cfb_medium.specs.declared.error.Error.TheVariants.{InvalidData};
ghost use Rattle.cfb_sectors.specs.Sectors.{end_of_chain, free, sector, Chain as IsChain};
ghost use Rattle.std.specs.Prelude.{false, length, slice_index, slice_set, true, IfErr, IsErrOf, IsTrue, List, OnErr, OnOk, [], ℕ, ◌*◌, ◌+◌, ◌/◌, ◌<◌, ◌∷◌, ◌≡◌, ◌≤◌};

use crate::Allocator;
use crate::fat::{ENTRY_LEN, write_number};
use cfb_chains::FreesChains;
use cfb_fat_runs::count_stretches;
use cfb_medium::{Error, Medium};
use cfb_sectors::{END_OF_CHAIN, FREE_SECTOR, Sectors};

// Where to look first for a sector in no use, after this one got an entry.
fn first_free_after(first_free: usize, index: usize, entry: u32) -> usize
    ensures before { result ≤ first_free }
    ensures freed { entry ≡ free → result ≤ index }
{
    if entry == FREE_SECTOR {
        first_free.min(index)
    } else {
        first_free
    }
}

// The lowest of these numbers.
fn lowest_of(first: usize, sector_ids: &[u32]) -> usize
    ensures before { result ≤ first }
    ensures each { (k : ℕ) → k < length sector_ids.now → result ≤ slice_index sector_ids.now k }
{
    let mut lowest = first;
    for sector_id in sector_ids {
        lowest = lowest.min(*sector_id as usize);
    }
    lowest
}

// Writes an entry of the FAT for each of these sectors, in the sectors that hold it. After a fault it has failed.
fn write_entries<F: Medium>(
    sectors: &mut Sectors<F>,
    fat_sectors: &[u32],
    sector_ids: &[u32],
    entry: u32,
) -> Result<(), Error>
    requires live { sectors_failed sectors.old ≡ false }
    requires some { 0 < sectors_count sectors.old }
    requires there { AreBelow (sectors_count sectors.old) fat_sectors.now }
    requires inside { AreBelow (sectors_count sectors.old) sector_ids.now }
    requires places { sectors_count sectors.old
        ≤ length fat_sectors.now * (sector_len (sectors_version sectors.old) / 4) }
    ensures writes { WritesFatEntries sector_ids.now fat_sectors.now sectors.old sectors.new }
    ensures entries { sectors_failed sectors.new ≡ false → IsHonest sectors.old
        → AreDistinct fat_sectors.now
        → HaveEntry entry (fat_here fat_sectors.now sectors.new) sector_ids.now }
    ensures error_contract { WriteErrorContract result sectors.old sectors.new }
{
    let each = sectors.sector_len() / ENTRY_LEN;
    for sector_id in sector_ids {
        let index = *sector_id as usize;
        let holder = fat_sectors[index / each];
        write_number(sectors, holder, index % each, entry)?;
    }
    Ok(())
}

impl<F: Medium> Allocator<F> {
    ghost use Rattle.cfb_fat.specs.Seeing.{seen_of};
    ghost use Rattle.cfb_fat.specs.Tables.{capacity_of, fat_of, has_failed_here, is_honest, orderly_of, runs_of, version_of, OnlyReadsAllocator, IsJustifiedBySectors};

    // Writes an entry of the FAT, and sets it in memory. After a fault it has failed.
    pub(crate) fn set_entry(&mut self, sector_id: u32, entry: u32) -> Result<(), Error>
        requires ready { (has_failed_here self.old ≡ false) × IsTrue (orderly_of self.old) }
        requires there { sector_id < length (fat_of self.old) }
        requires room { HasRun self.old sector_id entry }
        ensures changes { ChangesFat (sector_id ∷ []) self.old self.new }
        ensures entry { has_failed_here self.new ≡ false
            → fat_of self.new ≡ slice_set (fat_of self.old) sector_id entry }
        ensures runs { (runs_of self.new ≤ runs_of self.old + 2)
            × (capacity_of self.new ≡ capacity_of self.old) }
        ensures memory { (entries n : ℕ) → HasMemory self.old (entries + 1) n
            → HasMemory self.new entries n }
        ensures keeps { IsEasy (fat_of self.old) sector_id entry → KeepsMemory self.old self.new }
        ensures not_failed { OnOk result (has_failed_here self.new ≡ false) }
        ensures after_error { OnErr result (has_failed_here self.new ≡ true) }
        ensures cause { IfErr result (IsJustifiedBySectors self.old self.new) }
        ensures errors { IfErr result (IsFaultOrInvalidInputIf ⊥) }
    {
        let index = sector_id as usize;
        let each = self.sectors.sector_len() / ENTRY_LEN;
        let holder = self.fat_sectors[index / each];
        write_number(&mut self.sectors, holder, index % each, entry)?;
        self.first_free = first_free_after(self.first_free, index, entry);
        self.fat.set(index, entry);
        Ok(())
    }

    // Frees these sectors: their entries are written, and in memory each stretch of consecutive ones is set at once. After a
    // fault it has failed.
    fn free_entries(&mut self, sector_ids: &[u32]) -> Result<(), Error>
        requires live { has_failed_here self.old ≡ false }
        requires orderly { IsTrue (orderly_of self.old) }
        requires there { AreBelow (length (fat_of self.old)) sector_ids.now }
        requires room { runs_of self.old + 2 * stretches sector_ids.now ≤ capacity_of self.old }
        ensures changes { ChangesFat sector_ids.now self.old self.new }
        ensures entries { has_failed_here self.new ≡ false
            → HaveEntry free (fat_of self.new) sector_ids.now }
        ensures not_failed { OnOk result (has_failed_here self.new ≡ false) }
        ensures after_error { OnErr result (has_failed_here self.new ≡ true) }
        ensures cause { IfErr result (IsJustifiedBySectors self.old self.new) }
        ensures errors { IfErr result (IsFaultOrInvalidInputIf ⊥) }
    {
        write_entries(
            &mut self.sectors,
            &self.fat_sectors,
            sector_ids,
            FREE_SECTOR,
        )?;
        self.first_free = lowest_of(self.first_free, sector_ids);
        self.fat.free_all(sector_ids);
        Ok(())
    }

    /// Frees the sectors of the chain from a start. `InvalidData` where the FAT has none or the tables can't be changed, and
    /// then nothing is changed. After a fault in a write it has failed.
    pub fn free_chain(&mut self, start: u32) -> Result<(), Error>
        ensures frees { (ids : List ℕ) × OnOk result (IsChain (fat_of self.old) start ids
            × HaveEntry free (fat_of self.new) ids) × ChangesFat ids self.old self.new }
        ensures leaves { OnOk result ((ids : List ℕ) × IsChain (fat_of self.old) start ids
            × (IsTrue (is_honest self.old)
            → ChangesAtMost (sector (version_of self.old)) [] ids (seen_of self.old)
            (seen_of self.new))) }
        ensures refused_only_if { IsErrOf result InvalidData
            → (IsTrue (orderly_of self.old) → (ids : List ℕ) → IsChain (fat_of self.old) start ids
            → ⊥)
            × OnlyReadsAllocator self.old self.new }
        ensures error_contract { TableErrorContract IsInvalid result self.old self.new }
    {
        let links = self.open_chain(start)?;
        if !self.is_orderly {
            return Err(Error::InvalidData);
        }
        let ids = links.sector_ids();
        self.reserve_runs(2 * count_stretches(ids))?;
        self.free_entries(ids)
    }

    /// Ends a chain with this sector, and frees those behind it. `InvalidData` where the FAT has no chain from it or the tables
    /// can't be changed, and then nothing is changed. After a fault in a write it has failed.
    pub fn free_chain_after(&mut self, sector_id: u32) -> Result<(), Error>
        ensures frees { (ids : List ℕ) × OnOk result
            (IsChain (fat_of self.old) sector_id (sector_id ∷ ids)
            × (slice_index (fat_of self.new) sector_id ≡ end_of_chain)
            × HaveEntry free (fat_of self.new) ids)
            × ChangesFat (sector_id ∷ ids) self.old self.new }
        ensures leaves { OnOk result ((ids : List ℕ)
            × IsChain (fat_of self.old) sector_id (sector_id ∷ ids)
            × (IsTrue (is_honest self.old)
            → ChangesAtMost (sector (version_of self.old)) [] (sector_id ∷ ids) (seen_of self.old)
            (seen_of self.new))) }
        ensures refused_only_if { IsErrOf result InvalidData
            → (IsTrue (orderly_of self.old) → (ids : List ℕ)
            → IsChain (fat_of self.old) sector_id (sector_id ∷ ids) → ⊥)
            × OnlyReadsAllocator self.old self.new }
        ensures error_contract { TableErrorContract IsInvalid result self.old self.new }
    {
        let next = self.next(sector_id)?;
        let rest = self.open_chain(next)?;
        if !self.is_orderly {
            return Err(Error::InvalidData);
        }
        let behind = rest.sector_ids();
        self.reserve_runs(2 * count_stretches(behind) + 2)?;
        self.set_entry(sector_id, END_OF_CHAIN)?;
        self.free_entries(behind)
    }
}

impl<F: Medium> FreesChains for Allocator<F> {
    ghost use Rattle.cfb_fat.specs.Tables.{fat_of, orderly_of};

    ghost fat = { fat_of };

    ghost orderly = { orderly_of };

    ghost changes_fat = { ChangesFat };

    fn free_chain(&mut self, start: u32) -> Result<(), Error> {
        Allocator::free_chain(self, start)
    }

    fn free_chain_after(&mut self, sector_id: u32) -> Result<(), Error> {
        Allocator::free_chain_after(self, sector_id)
    }

    ghost changes_keep = { changes_keep };

    ghost writes_keep_tables = { writes_keep_tables };

    ghost rests_keep_tables = { rests_keep_tables };
}
