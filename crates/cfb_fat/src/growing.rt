//! Tables that become longer, and the file with them.
ghost use Rattle.cfb_fat.specs.Calls.{places_of, WriteErrorContract, EndsBehind, HasNoFreeBelow, HasPlace, IsTheLast, AllocatesAndFills, MemoryErrorContract};
ghost use Rattle.cfb_fat.specs.Growing.{GrowsFat, HasMemory, KeepsMemory, MarksBehind, Spends, SpendsOne};
ghost use Rattle.cfb_fat.specs.Orderly.{named_at_most};
ghost use Rattle.cfb_medium.specs.Versions.{sector_len};
ghost use Rattle.cfb_medium.specs.declared.error.Error.TheVariants.{Full};
ghost use Rattle.cfb_sectors.specs.Held.{count_of};
ghost use Rattle.cfb_sectors.specs.Sectors.{free, greatest_regular};
ghost use Rattle.std.specs.Prelude.{false, length, true, IfOk, IsErrOf, IsTrue, OnErr, OnOk, ℕ, [], ◌*◌, ◌++◌, ◌+◌, ◌-◌, ◌/◌, ◌^◌, min, ◌<◌, ◌∷◌, ◌≡◌, ◌≤◌, ◌⊎◌};

use crate::Allocator;
use crate::difat::{add_difat_sector, add_fat_sector, append_sector, can_name};
use crate::fat::{ENTRY_LEN, write_number};
use cfb_medium::{Error, Medium};
use cfb_sectors::{
    DIFAT_SECTOR, END_OF_CHAIN, FAT_SECTOR, FREE_SECTOR, MAX_REGULAR_SECTOR, NewSector,
};
use std::alloc::AllocError;

// The tables' own sectors, one of each, with their marks may make so many runs of the FAT more: two are added, and each is set.
const RUNS_OF_MARKS: usize = 6;

// How many runs more so many sectors may make of the FAT, where there are so many places for entries.
fn runs_for(count: usize, each: usize, num_fat_sectors: usize, len: usize) -> usize
    requires { len < 2 ^ 32 }
    ensures { result ≡ min (2 * count + (6 - (num_fat_sectors * each - len))) (2 ^ 64 - 1) }
{
    let places = num_fat_sectors.saturating_mul(each);
    let marks = RUNS_OF_MARKS.saturating_sub(places.saturating_sub(len));
    count.saturating_mul(2).saturating_add(marks)
}

impl<F: Medium> Allocator<F> {
    ghost use Rattle.cfb_fat.specs.Tables.{capacity_of, difat_sectors_of, fat_of, fat_sectors_of, has_failed_here, orderly_of, runs_of, sectors_of, version_of, OnlyReadsAllocator};

    // Asks for the memory of so many runs of the FAT more. Nothing is changed.
    pub(crate) fn reserve_runs(&mut self, count: usize) -> Result<(), AllocError>
        ensures room { OnOk result (runs_of self.new + count ≤ capacity_of self.new) }
        ensures most { OnOk result (count < 2 ^ 63) }
        ensures keeps { KeepsMemory self.old self.new }
        ensures enough { runs_of self.old + count ≤ capacity_of self.old → OnErr result ⊥ }
        ensures only_reads { OnlyReadsAllocator self.old self.new }
    {
        self.fat.reserve(count)
    }

    // Asks for the memory that the tables may need for so many sectors more. Nothing is changed.
    pub(crate) fn reserve_growth(&mut self, count: usize) -> Result<(), AllocError>
        ensures memory { OnOk result (HasMemory self.new 0 count) }
        ensures keeps { KeepsMemory self.old self.new }
        ensures enough { HasMemory self.old 0 count → OnErr result ⊥ }
        ensures only_reads { OnlyReadsAllocator self.old self.new }
    {
        let each = self.sectors.sector_len() / ENTRY_LEN;
        let runs = runs_for(count, each, self.fat_sectors.len(), self.fat.len());
        self.reserve_runs(runs)?;
        self.fat_sectors.reserve(count)?;
        self.difat_sectors.reserve(count)?;
        Ok(())
    }

    // Makes the FAT longer by a sector that the DIFAT has a place for. Its own entry is "free" still. After a fault it has
    // failed.
    fn grow_fat(&mut self) -> Result<(), Error>
        requires live { has_failed_here self.old ≡ false }
        requires orderly { IsTrue (orderly_of self.old) }
        requires full { length (fat_of self.old) ≡ places_of self.old }
        requires few { count_of (sectors_of self.old) ≤ greatest_regular }
        requires room { length (fat_sectors_of self.old)
            < named_at_most (version_of self.old) (length (difat_sectors_of self.old)) }
        requires memory { HasMemory self.old 0 1 }
        ensures grows { GrowsFat [] [] self.old self.new }
        ensures tables { OnOk result ((fat_of self.new ≡ fat_of self.old ++ free ∷ [])
            × (difat_sectors_of self.new ≡ difat_sectors_of self.old)
            × (fat_sectors_of self.new ≡ fat_sectors_of self.old
            ++ length (fat_of self.old) ∷ [])) }
        ensures spends { SpendsOne 3 result self.old self.new }
        ensures error_contract { WriteErrorContract result (sectors_of self.old)
            (sectors_of self.new) }
    {
        self.is_orderly = false;
        let sector_id = add_fat_sector(
            &mut self.sectors,
            &self.difat_sectors,
            self.fat_sectors.len(),
        )?;
        self.fat_sectors.push_reserved(sector_id);
        self.fat.push_reserved(FREE_SECTOR);
        self.is_orderly = true;
        Ok(())
    }

    // Makes the DIFAT longer by a sector, and the FAT by one that it names. Their own entries are "free" still. After a fault
    // it has failed.
    fn grow_both(&mut self) -> Result<(), Error>
        requires live { has_failed_here self.old ≡ false }
        requires orderly { IsTrue (orderly_of self.old) }
        requires full { length (fat_of self.old) ≡ places_of self.old }
        requires few { count_of (sectors_of self.old) < greatest_regular }
        requires crowded { named_at_most (version_of self.old) (length (difat_sectors_of self.old))
            ≤ length (fat_sectors_of self.old) }
        requires memory { HasMemory self.old 0 1 }
        ensures grows { GrowsFat [] [] self.old self.new }
        ensures tables { OnOk result ((fat_of self.new ≡ fat_of self.old ++ free ∷ free ∷ [])
            × (difat_sectors_of self.new ≡ difat_sectors_of self.old
            ++ length (fat_of self.old) ∷ [])
            × (fat_sectors_of self.new ≡ fat_sectors_of self.old
            ++ (length (fat_of self.old) + 1) ∷ [])) }
        ensures spends { SpendsOne 3 result self.old self.new }
        ensures error_contract { WriteErrorContract result (sectors_of self.old)
            (sectors_of self.new) }
    {
        self.is_orderly = false;
        let difat_sector = add_difat_sector(&mut self.sectors, &self.difat_sectors)?;
        self.difat_sectors.push_reserved(difat_sector);
        let fat_sector = add_fat_sector(
            &mut self.sectors,
            &self.difat_sectors,
            self.fat_sectors.len(),
        )?;
        self.fat_sectors.push_reserved(fat_sector);
        self.fat.push_reserved(FREE_SECTOR);
        self.fat.push_reserved(FREE_SECTOR);
        self.is_orderly = true;
        Ok(())
    }

    // Makes the tables longer, so that the FAT has a place for a sector more, and marks their new sectors. After a fault it has
    // failed.
    fn lengthen(&mut self) -> Result<(), Error>
        requires live { has_failed_here self.old ≡ false }
        requires orderly { IsTrue (orderly_of self.old) }
        requires full { length (fat_of self.old) ≡ places_of self.old }
        requires few { count_of (sectors_of self.old) < greatest_regular }
        requires memory { HasMemory self.old 0 1 }
        ensures grows { GrowsFat [] [] self.old self.new }
        ensures added { OnOk result (MarksBehind [] [] self.old self.new) }
        ensures spends { SpendsOne 1 result self.old self.new }
        ensures place { OnOk result (HasPlace self.new) }
        ensures error_contract { WriteErrorContract result (sectors_of self.old)
            (sectors_of self.new) }
    {
        let count = self.num_sectors();
        if can_name(
            self.version(),
            self.difat_sectors.len(),
            self.fat_sectors.len() + 1,
        ) {
            self.grow_fat()?;
            self.set_entry(count, FAT_SECTOR)?;
            return Ok(());
        }
        self.grow_both()?;
        self.set_entry(count, DIFAT_SECTOR)?;
        self.set_entry(count + 1, FAT_SECTOR)?;
        Ok(())
    }

    // Leaves the FAT with a place, and memory, for one sector more. `Full` where no number is left, and `Memory`, each with
    // nothing changed; after a fault in a write it has failed. A FAT that is full ends long before the numbers do, so there
    // are numbers for its sectors and the DIFAT's.
    pub(crate) fn make_room(&mut self) -> Result<(), Error>
        requires live { has_failed_here self.old ≡ false }
        requires orderly { IsTrue (orderly_of self.old) }
        ensures grows { GrowsFat [] [] self.old self.new }
        ensures place { OnOk result (HasPlace self.new) }
        ensures added { OnOk result (MarksBehind [] [] self.old self.new) }
        ensures spends { Spends 1 IsTheLast result self.old self.new }
        ensures full_only_if { IsErrOf result Full → (greatest_regular < length (fat_of self.old))
            × OnlyReadsAllocator self.old self.new }
        ensures tries { MemoryErrorContract IsTheLast result self.old self.new }
    {
        if self.num_sectors() > MAX_REGULAR_SECTOR {
            return Err(Error::Full);
        }
        self.reserve_growth(1)?;
        let each = self.sectors.sector_len() / ENTRY_LEN;
        if self.fat.len() / each < self.fat_sectors.len() {
            return Ok(());
        }
        self.lengthen()?;
        Ok(())
    }

    // Appends a sector, for which the FAT has a place and memory, as a chain of its own, where none is free. After a fault in
    // a write it has failed.
    pub(crate) fn append(&mut self, init: NewSector<'_>) -> Result<u32, Error>
        requires live { has_failed_here self.old ≡ false }
        requires orderly { IsTrue (orderly_of self.old) }
        requires place { HasPlace self.old }
        requires crowded { HasNoFreeBelow self.old (length (fat_of self.old)) }
        ensures ends { IfOk result (EndsBehind self.old self.new) }
        ensures occupies { IfOk result (AllocatesAndFills init.entry self.old self.new) }
        ensures none { OnErr result (GrowsFat [] [] self.old self.new) }
        ensures spends { (n : ℕ) → HasMemory self.old 1 n
            → OnOk result (HasMemory self.new 0 n) }
        ensures error_contract { WriteErrorContract result (sectors_of self.old)
            (sectors_of self.new) }
    {
        let index = self.fat.len();
        let each = self.sectors.sector_len() / ENTRY_LEN;
        let holder = self.fat_sectors[index / each];
        self.is_orderly = false;
        let sector_id = append_sector(&mut self.sectors, init)?;
        write_number(&mut self.sectors, holder, index % each, END_OF_CHAIN)?;
        self.fat.push_reserved(END_OF_CHAIN);
        self.first_free = index;
        self.is_orderly = true;
        Ok(sector_id)
    }
}
