//! A medium seen as a header's sector and those behind it.
ghost use Rattle.cfb_medium.specs.Bytes.{overwritten};
ghost use Rattle.cfb_medium.specs.Calls.{Reaches, IsJustifiedSince, IsCutOff, IsFaultOrInvalidInputIf};
ghost use Rattle.cfb_medium.specs.Versions.{sector_len};
ghost use Rattle.cfb_medium.specs.declared.error.Error.TheVariants.{Failed, Full, InvalidData};
ghost use Rattle.cfb_sectors.specs.Initial.{first_bytes};
ghost use Rattle.cfb_sectors.specs.RollingBack.{MediumRollsBack};
ghost use Rattle.cfb_sectors.specs.Sectors.{filled_part, greatest_regular, sector_start, sectors_in};
ghost use Rattle.std.specs.Prelude.{false, length, replicate, true, IfErr, IfOk, IsErrOf, IsTrue, MatchOption, OnErr, OnOk, ◌+◌, ◌<◌, ◌≡◌, ◌≤◌, ◌↔◌, ◌⊎◌, ◌||◌, ◌^◌};

use crate::consts::{HEADER_LEN, MAX_REGULAR_SECTOR};
use crate::{NewSector, Part, SectorInit};
use cfb_medium::{Error, Medium, ReadMedium, Version};

// A sector of version 4 has so many bytes.
const LONGEST: usize = 4096;

/// A medium seen as a header's sector and numbered sectors behind it. What it keeps is true where the medium is honest and
/// no write failed.
#[derive(Drop)]
pub struct Sectors<F: ReadMedium> {
    inner: F,
    version: Version,
    num_sectors: u32,
    failed: bool,
    ghost few: { num_sectors ≤ greatest_regular + 1 },
    ghost counted: { failed ≡ false → IsTrue (F.honest inner) → num_sectors ≡ sectors_in version (length (F.bytes inner)) },
}

impl<F: ReadMedium> Sectors<F> {
    ghost use Rattle.cfb_sectors.specs.Held.{bytes_of, count_of, has_failed_here, medium_of, version_of, EndsIn, Fails, IsJustifiedByMedium, IsHonest, IsFailedOrNotThere, LiesIn, OnlyReadsSectors};
    ghost use Rattle.cfb_sectors.specs.SectorViews.{part_len, part_position, part_start};

    /// The sectors of a medium of so many bytes.
    pub fn new(version: Version, len: u64, inner: F) -> Sectors<F>
        requires { IsTrue (F.honest inner) → len ≡ length (F.bytes inner) }
        ensures medium { medium_of result ≡ inner }
        ensures version { version_of result ≡ version }
        ensures count { count_of result ≡ sectors_in version len }
        ensures not_failed { has_failed_here result ≡ false }
    {
        let whole = len.saturating_sub(1) / version.sector_len() as u64;
        Sectors {
            inner,
            version,
            num_sectors: whole.min(MAX_REGULAR_SECTOR as u64 + 1) as u32,
            failed: false,
        }
    }

    /// No sectors, over a medium of which nothing is known: every call is refused.
    pub fn husk(version: Version, inner: F) -> Sectors<F>
        ensures medium { medium_of result ≡ inner }
        ensures version { version_of result ≡ version }
        ensures count { count_of result ≡ 0 }
        ensures when_failed { has_failed_here result ≡ true }
    {
        Sectors {
            inner,
            version,
            num_sectors: 0,
            failed: true,
        }
    }

    /// The version.
    pub fn version(&self) -> Version
        ensures { result ≡ version_of self.now }
    {
        self.version
    }

    /// A sector's bytes.
    pub fn sector_len(&self) -> usize
        ensures { result ≡ sector_len (version_of self.now) }
    {
        self.version.sector_len()
    }

    /// The sectors behind the header's. Their numbers begin at 0.
    pub fn num_sectors(&self) -> u32
        ensures { result ≡ count_of self.now }
    {
        self.num_sectors
    }

    /// The medium.
    pub fn inner(&self) -> &F
        ensures { result.now ≡ medium_of self.now }
    {
        &self.inner
    }

    /// The medium, without the sectors.
    pub fn into_inner(self) -> F
        ensures { result ≡ medium_of self }
    {
        let Sectors { inner, .. } = self;
        inner
    }

    /// The header as a part of the file, at this offset. `InvalidData` where the offset is past its end.
    pub fn seek_within_header(&self, offset: usize) -> Result<Part, Error>
        ensures part { IfOk result (λ it. (part_start it ≡ 0) × (part_len it ≡ 512)
            × (part_position it ≡ offset)) }
        ensures there { OnOk result ((has_failed_here self.now ≡ false) × (offset ≤ 512)) }
        ensures errors { IfErr result
            (IsFailedOrNotThere (has_failed_here self.now) (offset ≤ 512)) }
    {
        if self.failed {
            return Err(Error::Failed);
        }
        Part::new(0, HEADER_LEN, offset)
    }

    /// A sector as a part of the file, at its first byte. `InvalidData` where it isn't there.
    pub fn seek_to_sector(&self, sector_id: u32) -> Result<Part, Error>
        ensures part { IfOk result (λ it. (part_start it
            ≡ sector_start (version_of self.now) sector_id)
            × (part_len it ≡ sector_len (version_of self.now)) × (part_position it ≡ 0)) }
        ensures there { OnOk result ((has_failed_here self.now ≡ false)
            × (sector_id < count_of self.now)) }
        ensures errors { IfErr result (IsFailedOrNotThere (has_failed_here self.now)
            (sector_id < count_of self.now)) }
    {
        self.seek_within_sector(sector_id, 0)
    }

    /// A sector as a part of the file, at this offset. `InvalidData` where it isn't there or the offset is past its end.
    pub fn seek_within_sector(&self, sector_id: u32, offset: usize) -> Result<Part, Error>
        ensures part { IfOk result (λ it. (part_start it
            ≡ sector_start (version_of self.now) sector_id)
            × (part_len it ≡ sector_len (version_of self.now)) × (part_position it ≡ offset)) }
        ensures there { OnOk result ((has_failed_here self.now ≡ false)
            × (sector_id < count_of self.now) × (offset ≤ sector_len (version_of self.now))) }
        ensures errors { IfErr result (IsFailedOrNotThere (has_failed_here self.now)
            ((sector_id < count_of self.now) × (offset ≤ sector_len (version_of self.now)))) }
    {
        if self.failed {
            return Err(Error::Failed);
        }
        if sector_id >= self.num_sectors {
            return Err(Error::InvalidData);
        }
        Part::new(self.start(sector_id), self.sector_len(), offset)
    }

    /// Whether a fault in a write or a commit here has left it in a state in which every call is refused.
    pub fn is_failed(&self) -> bool
        ensures { result ≡ has_failed_here self.now }
    {
        self.failed
    }

    /// Leaves it in a state in which every call is refused, as a fault in a write does: for a layer above, where what it
    /// changes by several calls has come half way.
    pub fn fail(&mut self)
        ensures { Fails self.old self.new }
    {
        self.failed = true;
    }

    /// Where a sector begins in the file.
    pub fn start(&self, sector_id: u32) -> u64
        ensures { result ≡ sector_start (version_of self.now) sector_id }
    {
        (u64::from(sector_id) + 1) * self.sector_len() as u64
    }

    // Where a part of the sectors begins in the file, if it lies in them.
    fn place(&self, sector_id: u32, offset: usize, count: usize) -> Option<u64>
        ensures { MatchOption result (LiesIn self.now sector_id offset count → ⊥)
            (λ place. LiesIn self.now sector_id offset count
            × (place ≡ sector_start (version_of self.now) sector_id + offset)) }
    {
        if sector_id >= self.num_sectors {
            return None;
        }
        let place = self.start(sector_id).saturating_add(offset as u64);
        if self.ends_in(place, count) {
            Some(place)
        } else {
            None
        }
    }

    /// Whether so many bytes from a place of the file on end in the sectors.
    pub fn ends_in(&self, place: u64, count: usize) -> bool
        ensures { IsTrue result ↔ EndsIn self.now place count }
    {
        let end = self.start(self.num_sectors);
        place <= end && count as u64 <= end - place
    }

    // Fills the buffer with the bytes from a place on, and with zeros where there are no more.
    pub(crate) fn read_filled(&mut self, place: u64, buffer: &mut [u8]) -> Result<(), Error>
        ensures read { OnOk result (IsHonest self.old
            → buffer.new ≡ filled_part (bytes_of self.old) place (length buffer.old)) }
        ensures only_reads { OnlyReadsSectors self.old self.new }
        ensures cause { IfErr result (IsJustifiedByMedium self.old self.new) }
        ensures errors { IfErr result (IsFaultOrInvalidInputIf ⊥) }
    {
        let count = self.inner.read_at(place, buffer)?;
        buffer[count..].fill(0);
        Ok(())
    }

    /// Fills the buffer with the bytes from an offset of a sector on, also those of the sectors behind it; what a short
    /// last sector lacks is zeros. `InvalidData` where so many bytes don't lie in the sectors. Nothing is changed.
    pub fn read_contiguous(
        &mut self,
        sector_id: u32,
        offset: usize,
        buffer: &mut [u8],
    ) -> Result<(), Error>
        ensures read { OnOk result (IsHonest self.old
            → buffer.new ≡ filled_part (bytes_of self.old)
            (sector_start (version_of self.old) sector_id + offset) (length buffer.old)) }
        ensures inside { OnOk result ((has_failed_here self.old ≡ false)
            × LiesIn self.old sector_id offset (length buffer.old)) }
        ensures when_failed { has_failed_here self.old ≡ true → IsErrOf result Failed }
        ensures refused_only_if { IsErrOf result InvalidData
            ↔ ((has_failed_here self.old ≡ false) × (LiesIn self.old sector_id offset
            (length buffer.old) → ⊥)) }
        ensures only_reads { OnlyReadsSectors self.old self.new }
        ensures cause { IfErr result (IsJustifiedByMedium self.old self.new) }
        ensures errors { IfErr result (λ e. IsFaultOrInvalidInputIf ⊥ e ⊎ (e ≡ InvalidData)) }
    {
        if self.failed {
            return Err(Error::Failed);
        }
        let Some(place) = self.place(sector_id, offset, buffer.len()) else {
            return Err(Error::InvalidData);
        };
        self.read_filled(place, buffer)
    }
}

impl<F: Medium> Sectors<F> {
    ghost use Rattle.cfb_sectors.specs.Held.{bytes_of, count_of, has_failed, has_failed_here, medium_of, version_of, Changes, IsJustifiedByMedium, IsHonest, CrashLeavesOldOrBytes, LiesIn, OnlyReadsSectors};

    /// Whether a fault in a write or a commit has left it, or the medium, in a state in which every call is refused.
    pub fn has_failed(&self) -> bool
        ensures { result ≡ has_failed self.now }
    {
        self.failed || self.inner.has_failed()
    }

    // Writes, and leaves it failed.
    fn begin_write(&mut self, place: u64, bytes: &[u8]) -> Result<(), Error>
        requires { place + length bytes.now < 2 ^ 63 }
        ensures written { IsHonest self.old → OnOk result
            (bytes_of self.new ≡ overwritten (bytes_of self.old) place bytes.now) }
        ensures honest { F.honest (medium_of self.new) ≡ F.honest (medium_of self.old) }
        ensures continues { Reaches F.continues (medium_of self.old) (medium_of self.new) }
        ensures version { version_of self.new ≡ version_of self.old }
        ensures count { count_of self.new ≡ count_of self.old }
        ensures when_failed { has_failed_here self.new ≡ true }
        ensures cause { IfErr result (IsJustifiedByMedium self.old self.new) }
        ensures errors { IfErr result (IsFaultOrInvalidInputIf ⊥) }
    {
        self.failed = true;
        self.inner.write_at(place, bytes)
    }

    // Writes over a part of the header's sector or of those behind it.
    pub(crate) fn write_at(&mut self, place: u64, bytes: &[u8]) -> Result<(), Error>
        requires { place + length bytes.now ≤ sector_start (version_of self.old)
            (count_of self.old) }
        ensures changes { Changes (λ b. overwritten b place bytes.now) self.old self.new }
        ensures count { count_of self.new ≡ count_of self.old }
        ensures not_failed { OnOk result (has_failed_here self.new ≡ false) }
        ensures after_error { OnErr result (has_failed_here self.new ≡ true) }
        ensures when_failed { has_failed_here self.old ≡ true
            → IsErrOf result Failed × OnlyReadsSectors self.old self.new }
        ensures cause { IfErr result (IsJustifiedByMedium self.old self.new) }
        ensures errors { IfErr result (IsFaultOrInvalidInputIf ⊥) }
    {
        if self.failed {
            return Err(Error::Failed);
        }
        self.begin_write(place, bytes)?;
        self.failed = false;
        Ok(())
    }

    /// Writes over the bytes from an offset of a sector on, also those of the sectors behind it. `InvalidData` where so many
    /// bytes don't lie in the sectors, and then nothing is changed. After a fault it has failed.
    pub fn write_contiguous(
        &mut self,
        sector_id: u32,
        offset: usize,
        bytes: &[u8],
    ) -> Result<(), Error>
        ensures changes { LiesIn self.old sector_id offset (length bytes.now)
            → Changes (λ b. overwritten b (sector_start (version_of self.old) sector_id
            + offset) bytes.now) self.old self.new }
        ensures only_reads { (LiesIn self.old sector_id offset (length bytes.now) → ⊥)
            → OnlyReadsSectors self.old self.new }
        ensures refused_only_if { IsErrOf result InvalidData
            ↔ ((has_failed_here self.old ≡ false) × (LiesIn self.old sector_id offset
            (length bytes.now) → ⊥)) }
        ensures count { count_of self.new ≡ count_of self.old }
        ensures not_failed { OnOk result (has_failed_here self.new ≡ false) }
        ensures when_failed { has_failed_here self.old ≡ true
            → IsErrOf result Failed × OnlyReadsSectors self.old self.new }
        ensures cause { IfErr result (IsJustifiedByMedium self.old self.new) }
        ensures errors { IfErr result
            (λ e. (IsFaultOrInvalidInputIf ⊥ e × (has_failed_here self.new ≡ true))
            ⊎ (e ≡ InvalidData)) }
    {
        if self.failed {
            return Err(Error::Failed);
        }
        let Some(place) = self.place(sector_id, offset, bytes.len()) else {
            return Err(Error::InvalidData);
        };
        self.write_at(place, bytes)
    }

    /// Appends a sector that holds what it does when it is taken into use, and gives its number. `Full` where no number is left.
    /// After a fault it has failed.
    pub fn append_sector(&mut self, init: NewSector<'_>) -> Result<u32, Error>
        ensures number { IfOk result (λ n. n ≡ count_of self.old) }
        ensures changes { count_of self.old ≤ greatest_regular
            → Changes (λ b. overwritten b (sector_start (version_of self.old) (count_of self.old))
            (first_bytes init.entry (sector_len (version_of self.old)))) self.old self.new }
        ensures count { has_failed_here self.new ≡ false → count_of self.old ≤ greatest_regular
            → count_of self.new ≡ count_of self.old + 1 }
        ensures not_failed { OnOk result (has_failed_here self.new ≡ false) }
        ensures when_failed { has_failed_here self.old ≡ true
            → IsErrOf result Failed × OnlyReadsSectors self.old self.new }
        ensures full_only_if { IsErrOf result Full ↔ ((has_failed_here self.old ≡ false)
            × (greatest_regular < count_of self.old)) }
        ensures only_reads { greatest_regular < count_of self.old
            → OnlyReadsSectors self.old self.new }
        ensures cause { IfErr result (IsJustifiedByMedium self.old self.new) }
        ensures errors { IfErr result
            (λ e. (IsFaultOrInvalidInputIf ⊥ e × (has_failed_here self.new ≡ true))
            ⊎ (e ≡ Full)) }
    {
        if self.failed {
            return Err(Error::Failed);
        }
        let sector_id = self.num_sectors;
        if sector_id > MAX_REGULAR_SECTOR {
            return Err(Error::Full);
        }
        let mut sector = [0; LONGEST];
        let len = self.sector_len();
        init.fill(&mut sector[..len]);
        self.begin_write(self.start(sector_id), &sector[..len])?;
        self.num_sectors = sector_id + 1;
        self.failed = false;
        Ok(sector_id)
    }

    /// Appends a sector of zeros, and gives its number. `Full` where no number is left. After a fault it has failed.
    pub fn reserve_sector(&mut self) -> Result<u32, Error>
        ensures number { IfOk result (λ n. n ≡ count_of self.old) }
        ensures changes { count_of self.old ≤ greatest_regular
            → Changes (λ b. overwritten b (sector_start (version_of self.old) (count_of self.old))
            (replicate (sector_len (version_of self.old)) 0)) self.old self.new }
        ensures count { has_failed_here self.new ≡ false → count_of self.old ≤ greatest_regular
            → count_of self.new ≡ count_of self.old + 1 }
        ensures not_failed { OnOk result (has_failed_here self.new ≡ false) }
        ensures when_failed { has_failed_here self.old ≡ true
            → IsErrOf result Failed × OnlyReadsSectors self.old self.new }
        ensures full_only_if { IsErrOf result Full ↔ ((has_failed_here self.old ≡ false)
            × (greatest_regular < count_of self.old)) }
        ensures only_reads { greatest_regular < count_of self.old
            → OnlyReadsSectors self.old self.new }
        ensures cause { IfErr result (IsJustifiedByMedium self.old self.new) }
        ensures errors { IfErr result
            (λ e. (IsFaultOrInvalidInputIf ⊥ e × (has_failed_here self.new ≡ true))
            ⊎ (e ≡ Full)) }
    {
        self.append_sector(NewSector::Init(SectorInit::Zero))
    }

    /// Fills a sector with what it holds when it is taken into use. `InvalidData` where it isn't there, and then nothing is
    /// changed. After a fault it has failed.
    pub fn init_sector(&mut self, sector_id: u32, init: NewSector<'_>) -> Result<(), Error>
        ensures changes { sector_id < count_of self.old
            → Changes (λ b. overwritten b (sector_start (version_of self.old) sector_id)
            (first_bytes init.entry (sector_len (version_of self.old)))) self.old self.new }
        ensures only_reads { count_of self.old ≤ sector_id → OnlyReadsSectors self.old self.new }
        ensures refused_only_if { IsErrOf result InvalidData
            ↔ ((has_failed_here self.old ≡ false) × (count_of self.old ≤ sector_id)) }
        ensures count { count_of self.new ≡ count_of self.old }
        ensures not_failed { OnOk result (has_failed_here self.new ≡ false) }
        ensures when_failed { has_failed_here self.old ≡ true
            → IsErrOf result Failed × OnlyReadsSectors self.old self.new }
        ensures cause { IfErr result (IsJustifiedByMedium self.old self.new) }
        ensures errors { IfErr result
            (λ e. (IsFaultOrInvalidInputIf ⊥ e × (has_failed_here self.new ≡ true))
            ⊎ (e ≡ InvalidData)) }
    {
        if self.failed {
            return Err(Error::Failed);
        }
        if sector_id >= self.num_sectors {
            return Err(Error::InvalidData);
        }
        let mut sector = [0; LONGEST];
        let len = self.sector_len();
        init.fill(&mut sector[..len]);
        self.write_at(self.start(sector_id), &sector[..len])
    }

    /// Passes on what the medium keeps back, and publishes nothing.
    pub fn flush(&mut self) -> Result<(), Error>
        ensures only_reads { OnlyReadsSectors self.old self.new }
        ensures when_failed { has_failed_here self.old ≡ true → IsErrOf result Failed }
        ensures cause { IfErr result (IsJustifiedByMedium self.old self.new) }
        ensures errors { IfErr result (IsFaultOrInvalidInputIf ⊥) }
    {
        if self.failed {
            return Err(Error::Failed);
        }
        self.inner.flush()
    }

    /// Publishes the bytes, by a commit of the medium. After a fault it has failed.
    pub fn commit(&mut self) -> Result<(), Error>
        ensures published { IsHonest self.old → OnOk result
            (F.has_published (medium_of self.new) (bytes_of self.old)) }
        ensures crash { IsHonest self.old → CrashLeavesOldOrBytes self.old self.new }
        ensures bytes { has_failed_here self.new ≡ false → IsHonest self.old
            → bytes_of self.new ≡ bytes_of self.old }
        ensures was_live { has_failed_here self.new ≡ false → has_failed_here self.old ≡ false }
        ensures honest { F.honest (medium_of self.new) ≡ F.honest (medium_of self.old) }
        ensures stays { (version_of self.new ≡ version_of self.old)
            × (count_of self.new ≡ count_of self.old) }
        ensures not_failed { OnOk result (has_failed_here self.new ≡ false) }
        ensures after_error { OnErr result (has_failed_here self.new ≡ true) }
        ensures when_failed { has_failed_here self.old ≡ true
            → IsErrOf result Failed × OnlyReadsSectors self.old self.new }
        ensures cause { IfErr result (IsJustifiedByMedium self.old self.new) }
        ensures medium { (F.failures (medium_of self.old) ≤ F.failures (medium_of self.new))
            × OnOk result (F.failed (medium_of self.new) ≡ F.failed (medium_of self.old)) }
        ensures cut { IfErr result (IsCutOff F.failed F.continues (medium_of self.old)
            (medium_of self.new)) }
        ensures errors { IfErr result (IsFaultOrInvalidInputIf ⊥) }
    {
        if self.failed {
            return Err(Error::Failed);
        }
        self.failed = true;
        self.inner.commit()?;
        self.failed = false;
        Ok(())
    }

    /// The medium, taken back to the bytes that were published last, also where the sectors have failed. A refusal gives the
    /// sectors as they were: `InvalidInput` of a medium that doesn't survive a crash, `Failed` of one that has failed, `Memory`
    /// and `Device`.
    pub fn roll_back(self) -> Result<F, (Sectors<F>, Error)>
        ensures rolled { IfOk result (MediumRollsBack F.honest F.bytes F.continues F.has_published
            (medium_of self)) }
        ensures only_reads { IfErr result (λ e. OnlyReadsSectors self e.0) }
        ensures cause { IfErr result (λ e. IsJustifiedSince F.continues F.failures F.failed
            (medium_of self) (medium_of e.0) e.1) }
        ensures errors { IfErr result (λ e. IsFaultOrInvalidInputIf (F.survives ≡ false) e.1) }
    {
        let Sectors {
            mut inner,
            version,
            num_sectors,
            failed,
        } = self;
        match inner.roll_back() {
            Ok(()) => Ok(inner),
            Err(error) => {
                let same = Sectors {
                    inner,
                    version,
                    num_sectors,
                    failed,
                };
                Err((same, error))
            }
        }
    }
}
