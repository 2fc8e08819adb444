//! The FAT in memory, over the sectors that hold it.
ghost use Rattle.cfb_medium.specs.Calls.{Reaches, IsJustifiedSince, IsCutOff, IsFaultOrInvalidInputIf};
ghost use Rattle.cfb_medium.specs.Versions.{sector_len};
ghost use Rattle.cfb_medium.specs.declared.error.Error.TheVariants.{Failed, InvalidData, Memory};
ghost use Rattle.cfb_chains.specs.Changes.{IsNotIn};
ghost use Rattle.cfb_fat.specs.Listed.{Lists};
ghost use Rattle.cfb_fat.specs.Orderly.{AreBelow, AreTablesConsistent};
ghost use Rattle.cfb_fat.specs.Rising.{AreRead};
ghost use Rattle.cfb_fat_runs.specs.Longest.{runs_in, IsRunOf};
ghost use Rattle.cfb_fat_runs.specs.Tables.{entries_of};
ghost use Rattle.cfb_sectors.specs.Held.{bytes_of as sectors_bytes, count_of as sectors_count, has_failed_here as sectors_failed, medium_of as sectors_medium, version_of as sectors_version, AreSectorNumbers, IsHonest as AreHonest, IsFailedOrNotThere, CrashLeavesOldOrBytes, OnlyReadsSectors};
ghost use Rattle.cfb_sectors.specs.RollingBack.{MediumRollsBack};
ghost use Rattle.cfb_sectors.specs.Sectors.{fat_in, free, Chain as IsChain};
ghost use Rattle.std.specs.Prelude.{false, length, slice_get, slice_index, take, true, IfErr, IfOk, IsErrOf, IsTrue, List, MatchOption, None, OnErr, OnOk, Some, ℕ, ◌*◌, ◌++◌, ◌/◌, ◌<◌, ◌≡◌, ◌≤◌, ◌↔◌, ◌⊎◌, ◌||◌};

use crate::fat::{both, read_parts};
use crate::reading::ReadTables;
use cfb_chains::Links;
use cfb_fat_runs::Table;
use cfb_medium::{Error, Medium, ReadMedium, Version};
use cfb_sectors::{HasSectors, Sectors};
use std::alloc::Global;

/// The FAT in memory, over the sectors that hold it. What it keeps is true where the medium is honest and no write failed.
#[derive(Drop)]
pub struct Allocator<F: ReadMedium> {
    pub(crate) alloc: Global,
    pub(crate) sectors: Sectors<F>,
    pub(crate) difat_sectors: Vec<u32>,
    pub(crate) fat_sectors: Vec<u32>,
    pub(crate) fat: Table,
    pub(crate) is_orderly: bool,
    // No sector below this number can be taken into use.
    pub(crate) first_free: usize,
    pub(crate) read: ReadTables,
    ghost same: { sectors_failed sectors ≡ false → AreHonest sectors → entries_of fat ≡ take (sectors_count sectors) (fat_in (sectors_version sectors) (sectors_bytes sectors) fat_sectors.items) },
    ghost there: { sectors_failed sectors ≡ false → AreBelow (sectors_count sectors) fat_sectors.items },
    ghost inside: { sectors_failed sectors ≡ false → length (entries_of fat) ≤ sectors_count sectors },
    ghost whole: { length (entries_of fat) ≤ length fat_sectors.items * (sector_len (sectors_version sectors) / 4) },
    ghost orderly: { IsTrue is_orderly → AreTablesConsistent (sectors_version sectors) (sectors_count sectors) (entries_of fat) fat_sectors.items difat_sectors.items },
    ghost packed: { (k : ℕ) → k < first_free → slice_index (entries_of fat) k ≡ free → IsNotIn difat_sectors.items k → IsNotIn fat_sectors.items k → ⊥ },
    ghost read_difat: { AreRead read.ids.items read.num_difat difat_sectors.items },
    ghost read_fat: { AreRead read.ids.items read.num_fat fat_sectors.items },
    ghost read_alone: { (n : ℕ) → IsNotIn difat_sectors.items n → IsNotIn fat_sectors.items n → IsNotIn read.ids.items n },
    ghost listed: { sectors_failed sectors ≡ false → AreHonest sectors → IsTrue is_orderly
        ↔ (AreTablesConsistent (sectors_version sectors) (sectors_count sectors) (entries_of fat) fat_sectors.items difat_sectors.items × ∥ Lists (sectors_version sectors) (sectors_bytes sectors) difat_sectors.items fat_sectors.items ∥₁) },
}

impl<F: ReadMedium> Allocator<F> {
    ghost use Rattle.cfb_fat.specs.Tables.{bytes_of, difat_sectors_of, fat_of, fat_sectors_of, has_failed_here, is_honest, medium_of, orderly_of, sectors_of, version_of, AllFails, OnlyReadsAllocator, IsJustifiedBySectors};
    ghost use Rattle.cfb_chains.specs.LinkViews.{ids_of, links_version};

    /// Reads the FAT from its sectors, which the DIFAT names; entries for sectors past the file's end are left out.
    /// `InvalidData` where one of its sectors isn't there. A refusal gives the medium back.
    pub fn new(
        alloc: Global,
        mut sectors: Sectors<F>,
        difat_sectors: Vec<u32>,
        fat_sectors: Vec<u32>,
    ) -> Result<Allocator<F>, (F, Error)>
        ensures sectors { IfOk result (λ it. OnlyReadsSectors sectors (sectors_of it)) }
        ensures tables { IfOk result (λ it. (difat_sectors_of it ≡ difat_sectors.items)
            × (fat_sectors_of it ≡ fat_sectors.items)) }
        ensures fat { IfOk result (λ it. AreHonest sectors
            → fat_of it ≡ take (sectors_count sectors)
            (fat_in (sectors_version sectors) (sectors_bytes sectors) fat_sectors.items)) }
        ensures there { IfOk result (λ _. AreSectorNumbers sectors fat_sectors.items) }
        ensures missing { IfErr result (λ e. e.1 ≡ InvalidData
            → AreSectorNumbers sectors fat_sectors.items → ⊥) }
        ensures errors { IfErr result (λ e. IsFaultOrInvalidInputIf ⊥ e.1 ⊎ (e.1 ≡ InvalidData)) }
        ensures cause { IfErr result (λ e. IsJustifiedSince F.continues F.failures
            (λ m. sectors_failed sectors || F.failed m) (sectors_medium sectors) e.0 e.1) }
        ensures honest { IfErr result (λ e. F.honest e.0 ≡ F.honest (sectors_medium sectors)) }
        ensures continues { IfErr result (λ e. Reaches F.continues (sectors_medium sectors) e.0) }
        ensures bytes { IfErr result (λ e. AreHonest sectors
            → F.bytes e.0 ≡ sectors_bytes sectors) }
    {
        let Ok(read) = ReadTables::new(alloc, &difat_sectors, &fat_sectors) else {
            return Err((sectors.into_inner(), Error::Memory));
        };
        match read_parts(alloc, &mut sectors, &difat_sectors, &fat_sectors) {
            Ok((fat, is_orderly)) => Ok(Allocator {
                alloc,
                sectors,
                difat_sectors,
                fat_sectors,
                fat,
                is_orderly,
                first_free: 0,
                read,
            }),
            Err(error) => Err((sectors.into_inner(), error)),
        }
    }

    /// An allocator without a FAT, over a medium of which nothing is known: every call is refused.
    pub fn husk(alloc: Global, version: Version, medium: F) -> Allocator<F>
        ensures medium { medium_of result ≡ medium }
        ensures version { version_of result ≡ version }
        ensures when_failed { has_failed_here result ≡ true }
    {
        Allocator {
            alloc,
            sectors: Sectors::husk(version, medium),
            difat_sectors: Vec::new(alloc),
            fat_sectors: Vec::new(alloc),
            fat: Table::new(alloc),
            is_orderly: false,
            first_free: 0,
            read: ReadTables {
                ids: Vec::new(alloc),
                num_difat: 0,
                num_fat: 0,
            },
        }
    }

    /// The version.
    pub fn version(&self) -> Version
        ensures { result ≡ version_of self.now }
    {
        self.sectors.version()
    }

    /// A sector's bytes.
    pub fn sector_len(&self) -> usize
        ensures { result ≡ sector_len (version_of self.now) }
    {
        self.sectors.sector_len()
    }

    /// The medium.
    pub fn inner(&self) -> &F
        ensures { result.now ≡ medium_of self.now }
    {
        self.sectors.inner()
    }

    /// The medium, without the FAT.
    pub fn into_inner(self) -> F
        ensures { result ≡ medium_of self }
    {
        let Allocator {
            alloc: _,
            sectors,
            difat_sectors: _,
            fat_sectors: _,
            fat: _,
            is_orderly: _,
            first_free: _,
            read: _,
        } = self;
        sectors.into_inner()
    }

    /// The sectors behind the header's. Their numbers begin at 0.
    pub fn num_sectors(&self) -> u32
        ensures { result ≡ sectors_count (sectors_of self.now) }
    {
        self.sectors.num_sectors()
    }

    /// The sectors of the DIFAT, in the order of its chain.
    pub fn difat_sectors(&self) -> &[u32]
        ensures { result.now ≡ difat_sectors_of self.now }
    {
        &self.difat_sectors
    }

    /// The sectors of the FAT, in the order of the DIFAT.
    pub fn fat_sectors(&self) -> &[u32]
        ensures { result.now ≡ fat_sectors_of self.now }
    {
        &self.fat_sectors
    }

    /// The sectors of the DIFAT and then those of the FAT.
    pub fn table_sectors(&self) -> Result<Vec<u32>, Error>
        ensures all { IfOk result (λ all. all.items
            ≡ difat_sectors_of self.now ++ fat_sectors_of self.now) }
        ensures when_failed { has_failed_here self.now ≡ true → IsErrOf result Failed }
        ensures errors { IfErr result (λ e. ((e ≡ Failed) × (has_failed_here self.now ≡ true))
            ⊎ (e ≡ Memory)) }
    {
        if self.sectors.is_failed() {
            return Err(Error::Failed);
        }
        Ok(both(self.alloc, &self.difat_sectors, &self.fat_sectors)?)
    }

    /// Leaves it in a state in which every call is refused, as a fault in a write does: for a layer above, where what it
    /// changes by several calls has come half way.
    pub fn fail(&mut self)
        ensures { AllFails self.old self.new }
    {
        self.sectors.fail();
    }

    /// Whether its tables can be changed: no sector holds two parts of them, the FAT has an entry for each sector, and the
    /// DIFAT has these sectors, and no others. The header's numbers of the tables' sectors aren't asked.
    pub fn is_orderly(&self) -> bool
        ensures value { result ≡ orderly_of self.now }
        ensures orderly { IsTrue result → AreTablesConsistent (version_of self.now)
            (sectors_count (sectors_of self.now)) (fat_of self.now) (fat_sectors_of self.now)
            (difat_sectors_of self.now) }
        ensures listed { has_failed_here self.now ≡ false → IsTrue (is_honest self.now)
            → IsTrue result
            ↔ (AreTablesConsistent (version_of self.now) (sectors_count (sectors_of self.now))
            (fat_of self.now) (fat_sectors_of self.now) (difat_sectors_of self.now)
            × ∥ Lists (version_of self.now) (bytes_of self.now) (difat_sectors_of self.now)
            (fat_sectors_of self.now) ∥₁) }
    {
        self.is_orderly
    }

    /// The FAT's entry for a sector. `InvalidData` where it has none.
    pub fn next(&self, sector_id: u32) -> Result<u32, Error>
        ensures entry { IfOk result (λ n. (has_failed_here self.now ≡ false)
            × (slice_get (fat_of self.now) sector_id ≡ Some n)) }
        ensures errors { IfErr result (IsFailedOrNotThere (has_failed_here self.now)
            (sector_id < length (fat_of self.now))) }
    {
        if self.sectors.is_failed() {
            return Err(Error::Failed);
        }
        match self.fat.get(sector_id as usize) {
            Some(next) => Ok(next),
            None => Err(Error::InvalidData),
        }
    }

    /// How many runs the FAT has: longest stretches of sectors of which each is linked to the next one, or all have the same
    /// entry, as "free". Of one that has failed it is what memory has ([MS-CFB] 2.3).
    pub fn runs(&self) -> usize
        ensures { result ≡ runs_in (fat_of self.now) }
    {
        self.fat.runs()
    }

    /// Of the FAT's run that a sector stands in its first sector, how many sectors it has, and the entry of its last one; `None`
    /// where the FAT has no entry for the sector.
    pub fn run_at(&self, sector_id: u32) -> Option<(u32, u32, u32)>
        ensures { MatchOption result (length (fat_of self.now) ≤ sector_id)
            (λ it. IsRunOf (fat_of self.now) sector_id it.0 it.1 it.2) }
    {
        self.fat.run_at(sector_id)
    }

    /// The sectors of the chain from a start in the FAT. `InvalidData` where there is none.
    pub fn open_chain(&self, start: u32) -> Result<Links, Error>
        ensures chain { IfOk result (λ links. IsChain (fat_of self.now) start (ids_of links)) }
        ensures version { IfOk result (λ links. links_version links ≡ version_of self.now) }
        ensures not_failed { OnOk result (has_failed_here self.now ≡ false) }
        ensures when_failed { has_failed_here self.now ≡ true → IsErrOf result Failed }
        ensures none { IsErrOf result InvalidData → (sectors : List ℕ)
            → IsChain (fat_of self.now) start sectors → ⊥ }
        ensures errors { IfErr result (λ e. ((e ≡ Failed) × (has_failed_here self.now ≡ true))
            ⊎ (e ≡ InvalidData) ⊎ (e ≡ Memory)) }
    {
        if self.sectors.is_failed() {
            return Err(Error::Failed);
        }
        let sector_ids = self.fat.chain(self.alloc, start)?;
        Links::new(self.version(), sector_ids)
    }
}

impl<F: Medium> Allocator<F> {
    ghost use Rattle.cfb_fat.specs.Tables.{bytes_of, has_failed, has_failed_here, medium_of, sectors_of, OnlyReadsAllocator, IsJustifiedBySectors, KeepsTables};

    /// Whether a fault in a write or a commit has left it, or the medium, in a state in which every call is refused.
    pub fn has_failed(&self) -> bool
        ensures { result ≡ has_failed self.now }
    {
        self.sectors.has_failed()
    }

    /// Passes on what the medium keeps back, and publishes nothing.
    pub fn flush(&mut self) -> Result<(), Error>
        ensures only_reads { OnlyReadsAllocator self.old self.new }
        ensures when_failed { has_failed_here self.old ≡ true → IsErrOf result Failed }
        ensures cause { IfErr result (IsJustifiedBySectors self.old self.new) }
        ensures errors { IfErr result (IsFaultOrInvalidInputIf ⊥) }
    {
        self.sectors.flush()
    }

    /// Publishes the bytes, by a commit of the medium. After a fault it has failed.
    pub fn commit(&mut self) -> Result<(), Error>
        ensures published { AreHonest (sectors_of self.old)
            → OnOk result (F.has_published (medium_of self.new) (bytes_of self.old)) }
        ensures crash { AreHonest (sectors_of self.old)
            → CrashLeavesOldOrBytes (sectors_of self.old) (sectors_of self.new) }
        ensures bytes { has_failed_here self.new ≡ false → AreHonest (sectors_of self.old)
            → bytes_of self.new ≡ bytes_of self.old }
        ensures was_live { has_failed_here self.new ≡ false → has_failed_here self.old ≡ false }
        ensures honest { F.honest (medium_of self.new) ≡ F.honest (medium_of self.old) }
        ensures tables { KeepsTables self.old self.new }
        ensures not_failed { OnOk result (has_failed_here self.new ≡ false) }
        ensures after_error { OnErr result (has_failed_here self.new ≡ true) }
        ensures when_failed { has_failed_here self.old ≡ true
            → IsErrOf result Failed × OnlyReadsAllocator self.old self.new }
        ensures cause { IfErr result (IsJustifiedBySectors self.old self.new) }
        ensures medium { (F.failures (medium_of self.old) ≤ F.failures (medium_of self.new))
            × OnOk result (F.failed (medium_of self.new) ≡ F.failed (medium_of self.old)) }
        ensures cut { IfErr result (IsCutOff F.failed F.continues (medium_of self.old)
            (medium_of self.new)) }
        ensures errors { IfErr result (IsFaultOrInvalidInputIf ⊥) }
    {
        self.sectors.commit()
    }

    /// The medium, taken back to the bytes that were published last, also where the allocator has failed. A refusal gives the
    /// allocator as it was: `InvalidInput` of a medium that doesn't survive a crash, `Failed` of one that has failed, `Memory`
    /// and `Device`.
    pub fn roll_back(self) -> Result<F, (Allocator<F>, Error)>
        ensures rolled { IfOk result (MediumRollsBack F.honest F.bytes F.continues F.has_published
            (medium_of self)) }
        ensures only_reads { IfErr result (λ e. OnlyReadsAllocator self e.0) }
        ensures cause { IfErr result (λ e. IsJustifiedSince F.continues F.failures F.failed
            (medium_of self) (medium_of e.0) e.1) }
        ensures errors { IfErr result (λ e. IsFaultOrInvalidInputIf (F.survives ≡ false) e.1) }
    {
        let Allocator {
            alloc,
            sectors,
            difat_sectors,
            fat_sectors,
            fat,
            is_orderly,
            first_free,
            read,
        } = self;
        match sectors.roll_back() {
            Ok(medium) => Ok(medium),
            Err((sectors, error)) => {
                let same = Allocator {
                    alloc,
                    sectors,
                    difat_sectors,
                    fat_sectors,
                    fat,
                    is_orderly,
                    first_free,
                    read,
                };
                Err((same, error))
            }
        }
    }
}
