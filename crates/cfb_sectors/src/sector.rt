//! One sector, or a part of it, read and written from a position on.
ghost use Rattle.cfb_medium.specs.Bytes.{overwritten};
ghost use Rattle.cfb_medium.specs.Calls.{IsFaultOrInvalidInputIf};
ghost use Rattle.cfb_medium.specs.declared.error.Error.{Error};
ghost use Rattle.cfb_medium.specs.declared.error.Error.TheVariants.{Device, Failed, InvalidData};
ghost use Rattle.cfb_sectors.specs.Sectors.{filled_part};
ghost use Rattle.cfb_sectors.specs.Seeking.{Finds, IsNotFound};
ghost use Rattle.std.specs.Prelude.{drop, false, length, min, take, true, Bool, IfErr, IfOk, IsErrOf, IsTrue, List, MatchOption, OnErr, OnOk, ℕ, ◌+◌, ◌++◌, ◌-◌, ◌<◌, ◌≡◌, ◌≤◌, ◌↔◌, ◌⊎◌, ◌^◌};

use cfb_medium::Error;
use std::io::SeekFrom;

// A part of a file ends before this.
const LIMIT: u64 = 1 << 63;

/// A layer that has the sectors, at whatever height.
pub trait HasSectors {
    /// The bytes of the file.
    ghost bytes: { Self → List ℕ };

    /// What is said of bytes stands where this holds.
    ghost honest: { Self → Bool };

    /// A fault in a write has left it in a state in which every call is refused.
    ghost failed: { Self → Bool };

    /// The second state comes from the first by reads alone.
    ghost rests: { Self → Self → Type 0 };

    /// The error has its cause between the two states, or before them.
    ghost has_cause: { Self → Self → Error → Type 0 };

    /// Whether a fault in a write has left it in a state in which every call is refused.
    fn is_failed(&self) -> bool
        ensures { result ≡ failed self.now };

    /// Fills the buffer with the bytes from a place of the file on, and with zeros where there are no more.
    fn read_part(&mut self, place: u64, buffer: &mut [u8]) -> Result<(), Error>
        ensures read { OnOk result (IsTrue (honest self.old)
            → buffer.new ≡ filled_part (bytes self.old) place (length buffer.old)) }
        ensures only_reads { rests self.old self.new }
        ensures when_failed { failed self.old ≡ true → IsErrOf result Failed }
        ensures cause { IfErr result (has_cause self.old self.new) }
        ensures errors { IfErr result (IsFaultOrInvalidInputIf ⊥) };

    ghost rests_refl: { (it : Self) → rests it it };

    ghost rests_then: { (a b c : Self) → rests a b → rests b c → rests a c };

    ghost rests_keep: { (a b : Self) → rests a b → (honest b ≡ honest a) × (failed b ≡ failed a) × (IsTrue (honest a) → bytes b ≡ bytes a) };

    ghost rests_cause: { (a b c : Self) (e : Error) → rests a b → has_cause b c e → has_cause a c e };

    // an error that is no device's has no cause but an earlier fault
    ghost own_cause: { (a b : Self) (e : Error) → (e ≡ Device → ⊥) → (e ≡ Failed → failed a ≡ true) → has_cause a b e };
}

/// Such a layer over a medium that is written too.
pub trait ChangesSectors: HasSectors {
    /// So many bytes from this place of the file on may be written.
    ghost may_write: { Self → ℕ → ℕ → Type 0 };

    /// The second state comes from the first by a write of these bytes at this place.
    ghost writes: { ℕ → List ℕ → Self → Self → Type 0 };

    /// The second state is the first, but every call is refused.
    ghost fails: { Self → Self → Type 0 };

    /// Leaves it in a state in which every call is refused, as a fault in a write does: for a layer above, where what it
    /// changes by several calls has come half way.
    fn fail(&mut self)
        ensures { fails self.old self.new };

    /// Writes over the bytes from a place of the file on. `InvalidData` where they may not be written, and then nothing is
    /// changed. After a fault it has failed.
    fn write_part(&mut self, place: u64, bytes: &[u8]) -> Result<(), Error>
        ensures writes { may_write self.old place (length bytes.now)
            → writes place bytes.now self.old self.new }
        ensures only_reads { (may_write self.old place (length bytes.now) → ⊥)
            → Self.rests self.old self.new }
        ensures either { writes place bytes.now self.old self.new ⊎ Self.rests self.old self.new }
        ensures there { OnOk result (may_write self.old place (length bytes.now)) }
        ensures refused_only_if { IsErrOf result InvalidData
            ↔ ((Self.failed self.old ≡ false) × (may_write self.old place (length bytes.now) → ⊥)) }
        ensures still { (at count : ℕ) → may_write self.old at count → may_write self.new at count }
        ensures not_failed { OnOk result ((Self.failed self.old ≡ false)
            × (Self.failed self.new ≡ false)) }
        ensures when_failed { Self.failed self.old ≡ true
            → IsErrOf result Failed × Self.rests self.old self.new }
        ensures cause { IfErr result (Self.has_cause self.old self.new) }
        ensures errors { IfErr result
            (λ e. (IsFaultOrInvalidInputIf ⊥ e × (Self.failed self.new ≡ true))
            ⊎ (e ≡ InvalidData)) };

    ghost fails_keep: { (a b : Self) → fails a b → (Self.honest b ≡ Self.honest a) × (Self.failed b ≡ true) };

    ghost fails_cause: { (a b c : Self) (e : Error) → Self.has_cause a b e → fails b c → Self.has_cause a c e };

    // what may be written whole may be written in part
    ghost may_part: { (it : Self) (place count part size : ℕ) → may_write it place count → place ≤ part → part + size ≤ place + count → may_write it part size };

    ghost writes_keep: { (place : ℕ) (written : List ℕ) (a b : Self) → writes place written a b
        → (Self.honest b ≡ Self.honest a) × (Self.failed b ≡ false → (Self.failed a ≡ false) × (IsTrue (Self.honest a) → Self.bytes b ≡ overwritten (Self.bytes a) place written)) };

    ghost writes_cause: { (place : ℕ) (written : List ℕ) (a b c : Self) (e : Error) → writes place written a b → Self.failed b ≡ false → Self.has_cause b c e → Self.has_cause a c e };
}

/// A part of a file, and a position in it or at its end.
#[derive(Clone, Copy, Debug)]
pub struct Part {
    start: u64,
    len: usize,
    position: usize,
    ghost inside: { position ≤ len },
    ghost ends: { start + len < 2 ^ 63 },
}

impl Part {
    ghost use Rattle.cfb_sectors.specs.SectorViews.{part_len, part_position, part_start};

    /// The part of so many bytes from this place of the file on, at this position. `InvalidData` where the position is past
    /// its end, or that end isn't before 2^63.
    pub fn new(start: u64, len: usize, position: usize) -> Result<Part, Error>
        ensures part { IfOk result (λ it. (part_start it ≡ start) × (part_len it ≡ len)
            × (part_position it ≡ position)) }
        ensures there { OnOk result ((position ≤ len) × (start + len < 2 ^ 63)) }
        ensures none { IfErr result (λ e. (e ≡ InvalidData)
            × ((position ≤ len) × (start + len < 2 ^ 63) → ⊥)) }
    {
        if position > len || start >= LIMIT || len as u64 >= LIMIT - start {
            return Err(Error::InvalidData);
        }
        Ok(Part {
            start,
            len,
            position,
        })
    }

    /// The part of so many bytes from this place of it on, at this position. `InvalidData` where it doesn't lie in this part
    /// or the position is past its end.
    pub fn subpart(self, start: usize, len: usize, position: usize) -> Result<Part, Error>
        ensures part { IfOk result (λ it. (part_start it ≡ part_start self + start)
            × (part_len it ≡ len) × (part_position it ≡ position)) }
        ensures there { OnOk result ((start + len ≤ part_len self) × (position ≤ len)) }
        ensures none { IfErr result (λ e. (e ≡ InvalidData)
            × ((start + len ≤ part_len self) × (position ≤ len) → ⊥)) }
    {
        if start > self.len || len > self.len - start {
            return Err(Error::InvalidData);
        }
        Part::new(self.start + start as u64, len, position)
    }
}

/// A part of the file, as a sector, that is read and written from a position on.
#[derive(Drop)]
pub struct Sector<'a, H: HasSectors> {
    holder: &'a mut H,
    part: Part,
}

impl<'a, H: HasSectors> Sector<'a, H> {
    ghost use Rattle.cfb_sectors.specs.SectorViews.{holder_of, len_of, part_len, part_position, part_start, position_of, start_of, IsSame};

    /// This part of the file of a layer.
    pub fn new(holder: &'a mut H, part: Part) -> Sector<'a, H>
        ensures same_reference { result.holder.ghost_name ≡ holder.entry.ghost_name }
        ensures holder { holder_of result ≡ holder.old }
        ensures part { (start_of result ≡ part_start part) × (len_of result ≡ part_len part)
            × (position_of result ≡ part_position part) }
    {
        Sector { holder, part }
    }

    /// The bytes of the whole part.
    pub fn len(&self) -> usize
        ensures { result ≡ len_of self.now }
    {
        self.part.len
    }

    /// Reads what the buffer takes and the part has from the position on, and moves the position behind it.
    pub fn read(&mut self, buffer: &mut [u8]) -> Result<usize, Error>
        ensures count { IfOk result (λ n. n ≡ min (length buffer.old)
            (len_of self.old - position_of self.old)) }
        ensures read { IfOk result (λ n. IsTrue (H.honest (holder_of self.old))
            → buffer.new ≡ filled_part (H.bytes (holder_of self.old))
            (start_of self.old + position_of self.old) n ++ drop n buffer.old) }
        ensures moved { IfOk result (λ n. position_of self.new ≡ position_of self.old + n) }
        ensures stays { OnErr result (position_of self.new ≡ position_of self.old) }
        ensures same { IsSame self.old self.new }
        ensures only_reads { H.rests (holder_of self.old) (holder_of self.new) }
        ensures when_failed { H.failed (holder_of self.old) ≡ true → IsErrOf result Failed }
        ensures cause { IfErr result (H.has_cause (holder_of self.old) (holder_of self.new)) }
        ensures errors { IfErr result (IsFaultOrInvalidInputIf ⊥) }
    {
        let count = buffer.len().min(self.part.len - self.part.position);
        let place = self.part.start + self.part.position as u64;
        self.holder.read_part(place, &mut buffer[..count])?;
        self.part.position += count;
        Ok(count)
    }

    /// Moves the position to a place of the part or to its end, and gives it. `InvalidInput` where it is before the part or
    /// behind its end, and `Failed` where the layer has failed; then the position stays.
    pub fn seek(&mut self, from: SeekFrom) -> Result<u64, Error>
        ensures ok { IfOk result (λ n. Finds from (len_of self.old) (position_of self.old) n
            × (position_of self.new ≡ n)) }
        ensures not_failed { OnOk result (H.failed (holder_of self.old) ≡ false) }
        ensures errors { IfErr result (IsNotFound (H.failed (holder_of self.old)) from
            (len_of self.old) (position_of self.old)) }
        ensures when_failed { H.failed (holder_of self.old) ≡ true → IsErrOf result Failed }
        ensures stays { OnErr result (position_of self.new ≡ position_of self.old) }
        ensures same { IsSame self.old self.new }
        ensures holder { holder_of self.new ≡ holder_of self.old }
    {
        if self.holder.is_failed() {
            return Err(Error::Failed);
        }
        let Some(place) = place_found(from, self.part.len as u64, self.part.position as u64) else {
            return Err(Error::InvalidInput);
        };
        self.part.position = place as usize;
        Ok(place)
    }

    /// A part of this part, with so many bytes from this place of it on; the position stays where it is in the file.
    pub fn subsector(self, start: usize, len: usize) -> Sector<'a, H>
        requires { (start ≤ position_of self) × (position_of self ≤ start + len)
            × (start + len ≤ len_of self) }
        ensures same_reference { result.holder.ghost_name ≡ self.entry.holder.ghost_name }
        ensures holder { holder_of result ≡ holder_of self.entry }
        ensures part { (start_of result ≡ start_of self.entry + start) × (len_of result ≡ len)
            × (position_of result + start ≡ position_of self.entry) }
    {
        let Sector { holder, part } = self;
        let part = Part {
            start: part.start + start as u64,
            len,
            position: part.position - start,
        };
        Sector::new(holder, part)
    }
}

/// The place that a seek finds in a part of so many bytes, from this position, if it is one.
pub fn place_found(from: SeekFrom, len: u64, position: u64) -> Option<u64>
    requires { len < 2 ^ 63 }
    ensures { MatchOption result ((n : ℕ) → Finds from len position n
        → ⊥) (λ n. Finds from len position n) }
{
    let (base, by) = match from {
        SeekFrom::Start(place) => (place, 0),
        SeekFrom::End(by) => (len, by),
        SeekFrom::Current(by) => (position, by),
    };
    let distance = by.unsigned_abs();
    let place = if by < 0 {
        base.checked_sub(distance)?
    } else {
        base.checked_add(distance)?
    };
    if place <= len { Some(place) } else { None }
}

impl<'a, H: ChangesSectors> Sector<'a, H> {
    ghost use Rattle.cfb_sectors.specs.SectorViews.{holder_of, place_of, position_of, rest_of, IsSame, CanWriteInSector};

    /// Writes what the part takes from the position on, and moves the position behind it. `InvalidData` where the layer may
    /// not write there, and then nothing is changed.
    pub fn write(&mut self, bytes: &[u8]) -> Result<usize, Error>
        ensures advances { IfOk result (λ n. (n ≡ min (length bytes.now) (rest_of self.old))
            × (position_of self.new ≡ position_of self.old + n)) }
        ensures writes { CanWriteInSector H.may_write bytes.now self.old
            → H.writes (place_of self.old) (take (rest_of self.old) bytes.now)
            (holder_of self.old) (holder_of self.new) }
        ensures only_reads { (CanWriteInSector H.may_write bytes.now self.old → ⊥)
            → H.rests (holder_of self.old) (holder_of self.new) }
        ensures there { OnOk result (CanWriteInSector H.may_write bytes.now self.old) }
        ensures refused_only_if { IsErrOf result InvalidData
            ↔ ((H.failed (holder_of self.old) ≡ false)
            × (CanWriteInSector H.may_write bytes.now self.old → ⊥)) }
        ensures still { (at count : ℕ) → H.may_write (holder_of self.old) at count
            → H.may_write (holder_of self.new) at count }
        ensures stays { OnErr result (position_of self.new ≡ position_of self.old) }
        ensures same { IsSame self.old self.new }
        ensures not_failed { OnOk result ((H.failed (holder_of self.old) ≡ false)
            × (H.failed (holder_of self.new) ≡ false)) }
        ensures when_failed { H.failed (holder_of self.old) ≡ true
            → IsErrOf result Failed × H.rests (holder_of self.old) (holder_of self.new) }
        ensures cause { IfErr result (H.has_cause (holder_of self.old) (holder_of self.new)) }
        ensures errors { IfErr result (λ e. (IsFaultOrInvalidInputIf ⊥ e
            × (H.failed (holder_of self.new) ≡ true)) ⊎ (e ≡ InvalidData)) }
    {
        let count = bytes.len().min(self.part.len - self.part.position);
        let place = self.part.start + self.part.position as u64;
        self.holder.write_part(place, &bytes[..count])?;
        self.part.position += count;
        Ok(count)
    }
}
