//! Reading, and writing beside the tables.
ghost use Rattle.cfb_chains.specs.Owned.{ChangesAtMost};
ghost use Rattle.cfb_fat.specs.Changing.{MayWrite, WritesBeside};
ghost use Rattle.cfb_fat.specs.Keeping.{fails_cause, fails_keep, may_part, own_cause, rests_cause, rests_keep, writes_cause, writes_keep};
ghost use Rattle.cfb_fat.specs.Orderly.{IsBesideWords};
ghost use Rattle.cfb_fat.specs.OnlyReads.{all_rest_refl, all_rest_then};
ghost use Rattle.cfb_fat.specs.Rising.{IsBesideFrom, RiseFrom};
ghost use Rattle.cfb_medium.specs.Calls.{IsFaultOrInvalidInputIf};
ghost use Rattle.cfb_medium.specs.Versions.{sector_len};
ghost use Rattle.cfb_medium.specs.declared.error.Error.TheVariants.{Failed, InvalidData};
ghost use Rattle.cfb_sectors.specs.Held.{count_of, IsFailedOrNotThere, LiesIn};
ghost use Rattle.cfb_sectors.specs.SectorViews.{part_len, part_position, part_start};
ghost use Rattle.cfb_sectors.specs.Sectors.{filled_part, sector, sector_start};
ghost use Rattle.std.specs.Prelude.{false, length, true, IfErr, IfOk, IsErrOf, IsTrue, OnErr, OnOk, ℕ, [], ◌∷◌, ◌*◌, ◌+◌, ◌<◌, ◌^◌, ◌↔◌, ◌≡◌, ◌≤◌, ◌⊎◌};

use crate::Allocator;
use crate::difat::{FAT_COUNT, FAT_COUNT_END, FIRST_DIFAT_SECTOR, HEADER_END};
use cfb_medium::{Error, Medium, ReadMedium, Version};
use cfb_sectors::{ChangesSectors, HasSectors, Part};

// The first and the last number, of those that 32 bits have, of a sector that a part of the file meets: it has a byte of the sector, or, of
// no bytes, lies within. The first is above the last where there is none.
fn sectors_met(version: Version, place: u64, count: usize) -> (u32, u32)
    requires { place + count < 2 ^ 63 }
    ensures { (s : ℕ) → s < 2 ^ 32 → ((sector_start version s + sector_len version ≤ place)
        ⊎ (place + count ≤ sector_start version s)) ↔ ((s < result.0) ⊎ (result.1 < s)) }
{
    let len = version.sector_len() as u64;
    // (the header stands in front of sector 0)
    let first = (place / len).saturating_sub(1);
    let behind = (place + count as u64 + len - 1) / len;
    if behind < 2 || first > u64::from(u32::MAX) {
        return (1, 0);
    }
    let last = u64::min(behind - 2, u64::from(u32::MAX));
    (first as u32, last as u32)
}

// Whether a part of the file has no byte of these sectors from an index on, where they rise.
fn is_beside(version: Version, sector_ids: &[u32], from: usize, place: u64, count: usize) -> bool
    requires few { place + count < 2 ^ 63 }
    requires rise { RiseFrom from sector_ids.now }
    ensures { IsTrue result ↔ IsBesideFrom from version sector_ids.now place count }
{
    let (first, last) = sectors_met(version, place, count);
    let mut low = from;
    let mut high = sector_ids.len();
    while low < high {
        let mid = low + (high - low) / 2;
        if sector_ids[mid] < first {
            low = mid + 1;
        } else {
            high = mid;
        }
    }
    low >= sector_ids.len() || sector_ids[low] > last
}

// Whether a part of the file has no byte of what the header says of the tables.
fn is_beside_words(place: u64, count: usize) -> bool
    requires { place + count < 2 ^ 63 }
    ensures { IsTrue result ↔ IsBesideWords place count }
{
    let end = place + count as u64;
    end <= FAT_COUNT || (place >= FAT_COUNT_END && end <= FIRST_DIFAT_SECTOR) || place >= HEADER_END
}

impl<F: ReadMedium> Allocator<F> {
    ghost use Rattle.cfb_fat.specs.Tables.{bytes_of, has_failed_here, is_honest, sectors_of, version_of, OnlyReadsAllocator, IsJustifiedBySectors};

    // Reads as the sectors do.
    fn read_filled(&mut self, place: u64, buffer: &mut [u8]) -> Result<(), Error>
        ensures read { OnOk result (IsTrue (is_honest self.old)
            → buffer.new ≡ filled_part (bytes_of self.old) place (length buffer.old)) }
        ensures only_reads { OnlyReadsAllocator self.old self.new }
        ensures when_failed { has_failed_here self.old ≡ true → IsErrOf result Failed }
        ensures cause { IfErr result (IsJustifiedBySectors self.old self.new) }
        ensures errors { IfErr result (IsFaultOrInvalidInputIf ⊥) }
    {
        self.sectors.read_part(place, buffer)
    }

    /// Fills the buffer with the bytes from an offset of a sector on, also those of the sectors behind it; what a short
    /// last sector lacks is zeros. `InvalidData` where so many bytes don't lie in the sectors. Nothing is changed.
    pub fn read_contiguous(
        &mut self,
        sector_id: u32,
        offset: usize,
        buffer: &mut [u8],
    ) -> Result<(), Error>
        ensures read { OnOk result (IsTrue (is_honest self.old)
            → buffer.new ≡ filled_part (bytes_of self.old)
            (sector_start (version_of self.old) sector_id + offset) (length buffer.old)) }
        ensures inside { OnOk result ((has_failed_here self.old ≡ false)
            × LiesIn (sectors_of self.old) sector_id offset (length buffer.old)) }
        ensures when_failed { has_failed_here self.old ≡ true → IsErrOf result Failed }
        ensures refused_only_if { IsErrOf result InvalidData
            ↔ ((has_failed_here self.old ≡ false) × (LiesIn (sectors_of self.old) sector_id offset
            (length buffer.old) → ⊥)) }
        ensures only_reads { OnlyReadsAllocator self.old self.new }
        ensures cause { IfErr result (IsJustifiedBySectors self.old self.new) }
        ensures errors { IfErr result (λ e. IsFaultOrInvalidInputIf ⊥ e ⊎ (e ≡ InvalidData)) }
    {
        self.sectors.read_contiguous(sector_id, offset, buffer)
    }

    /// The header as a part of the file, at this offset. `InvalidData` where the offset is past its end.
    pub fn seek_within_header(&self, offset: usize) -> Result<Part, Error>
        ensures part { IfOk result (λ it. (part_start it ≡ 0) × (part_len it ≡ 512)
            × (part_position it ≡ offset)) }
        ensures there { OnOk result ((has_failed_here self.now ≡ false) × (offset ≤ 512)) }
        ensures errors { IfErr result
            (IsFailedOrNotThere (has_failed_here self.now) (offset ≤ 512)) }
    {
        self.sectors.seek_within_header(offset)
    }

    /// A sector as a part of the file, at its first byte. `InvalidData` where it isn't there.
    pub fn seek_to_sector(&self, sector_id: u32) -> Result<Part, Error>
        ensures part { IfOk result (λ it. (part_start it
            ≡ sector_start (version_of self.now) sector_id)
            × (part_len it ≡ sector_len (version_of self.now)) × (part_position it ≡ 0)) }
        ensures there { OnOk result ((has_failed_here self.now ≡ false)
            × (sector_id < count_of (sectors_of self.now))) }
        ensures errors { IfErr result (IsFailedOrNotThere (has_failed_here self.now)
            (sector_id < count_of (sectors_of self.now))) }
    {
        self.sectors.seek_to_sector(sector_id)
    }

    /// A sector as a part of the file, at this offset. `InvalidData` where it isn't there or the offset is past its end.
    pub fn seek_within_sector(&self, sector_id: u32, offset: usize) -> Result<Part, Error>
        ensures part { IfOk result (λ it. (part_start it
            ≡ sector_start (version_of self.now) sector_id)
            × (part_len it ≡ sector_len (version_of self.now)) × (part_position it ≡ offset)) }
        ensures there { OnOk result ((has_failed_here self.now ≡ false)
            × (sector_id < count_of (sectors_of self.now))
            × (offset ≤ sector_len (version_of self.now))) }
        ensures errors { IfErr result (IsFailedOrNotThere (has_failed_here self.now)
            ((sector_id < count_of (sectors_of self.now))
            × (offset ≤ sector_len (version_of self.now)))) }
    {
        self.sectors.seek_within_sector(sector_id, offset)
    }

    /// A part of a sector as a part of the file: the one with this index among those of so many bytes, at this offset in it.
    /// `InvalidData` where the sector isn't there, the part doesn't lie in it, or the offset is past its end.
    pub fn seek_within_subsector(
        &self,
        sector_id: u32,
        index: u32,
        len: usize,
        offset: usize,
    ) -> Result<Part, Error>
        ensures part { IfOk result (λ it. (part_start it
            ≡ sector_start (version_of self.now) sector_id + index * len) × (part_len it ≡ len)
            × (part_position it ≡ offset)) }
        ensures there { OnOk result ((has_failed_here self.now ≡ false)
            × (sector_id < count_of (sectors_of self.now))
            × (index * len + len ≤ sector_len (version_of self.now)) × (offset ≤ len)) }
        ensures errors { IfErr result (IsFailedOrNotThere (has_failed_here self.now)
            ((sector_id < count_of (sectors_of self.now))
            × (index * len + len ≤ sector_len (version_of self.now)) × (offset ≤ len))) }
    {
        let sector = self.seek_to_sector(sector_id)?;
        let Some(start) = (index as usize).checked_mul(len) else {
            return Err(Error::InvalidData);
        };
        sector.subpart(start, len, offset)
    }

    /// Whether so many bytes from a place of the file on may be written: they end in its sectors, and none is one of the tables.
    pub fn may_write(&self, place: u64, count: usize) -> bool
        ensures { IsTrue result ↔ MayWrite self.now place count }
    {
        if !self.sectors.ends_in(place, count) {
            return false;
        }
        if !is_beside_words(place, count) {
            return false;
        }
        let version = self.sectors.version();
        if !is_beside(version, &self.read.ids, 0, place, count) {
            return false;
        }
        if !is_beside(version, &self.fat_sectors, self.read.num_fat, place, count) {
            return false;
        }
        is_beside(
            version,
            &self.difat_sectors,
            self.read.num_difat,
            place,
            count,
        )
    }
}

impl<F: Medium> Allocator<F> {
    ghost use Rattle.cfb_fat.specs.Seeing.{seen_of};
    ghost use Rattle.cfb_fat.specs.Tables.{has_failed_here, is_honest, sectors_of, version_of, OnlyReadsAllocator, IsJustifiedBySectors};

    /// Writes over the bytes from an offset of a sector on, also those of the sectors behind it. `InvalidData` where so many
    /// bytes don't lie in the sectors, or one of them is of the tables; then nothing is changed. After a fault it has failed.
    pub fn write_contiguous(
        &mut self,
        sector_id: u32,
        offset: usize,
        bytes: &[u8],
    ) -> Result<(), Error>
        ensures writes { OnOk result (WritesBeside
            (sector_start (version_of self.old) sector_id + offset) bytes.now self.old self.new) }
        ensures either { WritesBeside (sector_start (version_of self.old) sector_id + offset)
            bytes.now self.old self.new ⊎ OnlyReadsAllocator self.old self.new }
        ensures leaves { OnOk result (offset + length bytes.now ≤ sector_len (version_of self.old)
            → IsTrue (is_honest self.old) → ChangesAtMost (sector (version_of self.old)) []
            (sector_id ∷ []) (seen_of self.old) (seen_of self.new)) }
        ensures there { OnOk result ((sector_id < count_of (sectors_of self.old))
            × MayWrite self.old (sector_start (version_of self.old) sector_id + offset)
            (length bytes.now)) }
        ensures refused_only_if { IsErrOf result InvalidData
            ↔ ((has_failed_here self.old ≡ false) × ((sector_id < count_of (sectors_of self.old))
            × MayWrite self.old (sector_start (version_of self.old) sector_id + offset)
            (length bytes.now) → ⊥)) }
        ensures only_reads { IsErrOf result InvalidData → OnlyReadsAllocator self.old self.new }
        ensures not_failed { OnOk result ((has_failed_here self.old ≡ false)
            × (has_failed_here self.new ≡ false)) }
        ensures when_failed { has_failed_here self.old ≡ true
            → IsErrOf result Failed × OnlyReadsAllocator self.old self.new }
        ensures cause { IfErr result (IsJustifiedBySectors self.old self.new) }
        ensures errors { IfErr result
            (λ e. (IsFaultOrInvalidInputIf ⊥ e × (has_failed_here self.new ≡ true))
            ⊎ (e ≡ InvalidData)) }
    {
        if self.sectors.is_failed() {
            return Err(Error::Failed);
        }
        if sector_id >= self.num_sectors() {
            return Err(Error::InvalidData);
        }
        let Some(place) = self.sectors.start(sector_id).checked_add(offset as u64) else {
            return Err(Error::InvalidData);
        };
        if !self.may_write(place, bytes.len()) {
            return Err(Error::InvalidData);
        }
        self.write_beside(place, bytes)
    }

    // Writes over a part of the file beside the tables. After a fault it has failed.
    pub(crate) fn write_beside(&mut self, place: u64, bytes: &[u8]) -> Result<(), Error>
        requires { MayWrite self.old place (length bytes.now) }
        ensures writes { WritesBeside place bytes.now self.old self.new }
        ensures not_failed { OnOk result ((has_failed_here self.old ≡ false)
            × (has_failed_here self.new ≡ false)) }
        ensures after_error { OnErr result (has_failed_here self.new ≡ true) }
        ensures when_failed { has_failed_here self.old ≡ true
            → IsErrOf result Failed × OnlyReadsAllocator self.old self.new }
        ensures cause { IfErr result (IsJustifiedBySectors self.old self.new) }
        ensures errors { IfErr result (IsFaultOrInvalidInputIf ⊥) }
    {
        self.sectors.write_part(place, bytes)
    }
}

impl<F: ReadMedium> HasSectors for Allocator<F> {
    ghost use Rattle.cfb_fat.specs.Tables.{bytes_of, has_failed_here, is_honest, OnlyReadsAllocator, IsJustifiedBySectors};

    ghost bytes = { bytes_of };

    ghost honest = { is_honest };

    ghost failed = { has_failed_here };

    ghost rests = { OnlyReadsAllocator };

    ghost has_cause = { IsJustifiedBySectors };

    fn is_failed(&self) -> bool {
        self.sectors.is_failed()
    }

    fn read_part(&mut self, place: u64, buffer: &mut [u8]) -> Result<(), Error> {
        self.read_filled(place, buffer)
    }

    ghost rests_refl = { all_rest_refl };

    ghost rests_then = { all_rest_then };

    ghost rests_keep = { rests_keep };

    ghost rests_cause = { rests_cause };

    ghost own_cause = { own_cause };
}

impl<F: Medium> ChangesSectors for Allocator<F> {
    ghost use Rattle.cfb_fat.specs.Tables.{AllFails};

    ghost may_write = { MayWrite };

    ghost writes = { WritesBeside };

    ghost fails = { AllFails };

    fn fail(&mut self) {
        Allocator::fail(self)
    }

    fn write_part(&mut self, place: u64, bytes: &[u8]) -> Result<(), Error> {
        if self.sectors.is_failed() {
            return Err(Error::Failed);
        }
        if !self.may_write(place, bytes.len()) {
            return Err(Error::InvalidData);
        }
        self.write_beside(place, bytes)?;
        Ok(())
    }

    ghost fails_keep = { fails_keep };

    ghost fails_cause = { fails_cause };

    ghost may_part = { may_part };

    ghost writes_keep = { writes_keep };

    ghost writes_cause = { writes_cause };
}
