//! The bytes of a chain of sectors, written from a position on.
ghost use Rattle.cfb_chains.specs.ChainCalls.{chain_bytes, len_of, new_sector, Advances, ChainErrorContract, OnlyReadsChain, HasNoNumber, ChainHolds, IsInvalid, IsInvalidOrFull, IsInvalidPlace, LacksUsableChain, ChainKeeps, LengthensAndPuts, CanWriteInChain, MayZero, ChainOverwrites, WritesAtPosition, WritesInside, Zeroes};
ghost use Rattle.cfb_chains.specs.Positions.{tail_in};
ghost use Rattle.cfb_medium.specs.Bytes.{overwritten};
ghost use Rattle.cfb_medium.specs.declared.error.Error.TheVariants.{Failed, Full, InvalidData, InvalidInput};
ghost use Rattle.std.specs.Prelude.{false, length, replicate, take, true, IfErr, IfOk, IsErrOf, IsTrue, OnOk, ℕ, ◌+◌, ◌++◌, ◌<◌, ◌≡◌, ◌≤◌, ◌↔◌, ◌⊎◌};

use crate::{Chain, GrowsChains};
use cfb_medium::Error;
use cfb_sectors::{ChangesSectors, NewSector};

// A sector of version 4 has so many bytes.
const LONGEST: usize = 4096;

impl<'a, H: ChangesSectors> Chain<'a, H> {
    ghost use Rattle.cfb_chains.specs.ChainViews.{holder_of, position_of, sectors_of, version_of, IsSameChain};

    // Writes what the sector at the position takes, and moves the position behind it. `InvalidData` where the layer may not
    // write there, and then nothing is changed.
    pub(crate) fn write_inside(&mut self, bytes: &[u8]) -> Result<usize, Error>
        requires { position_of self.old < len_of self.old }
        ensures advances { Advances bytes.now result self.old self.new }
        ensures written { IfOk result (λ n. ChainOverwrites H.ChangesSectors (position_of self.old)
            (take n bytes.now)
            self.old self.new) }
        ensures there { OnOk result (CanWriteInChain H.may_write bytes.now self.old) }
        ensures refused_only_if { IsErrOf result InvalidData
            ↔ ((H.failed (holder_of self.old) ≡ false)
            × (CanWriteInChain H.may_write bytes.now self.old → ⊥)) }
        ensures writes { CanWriteInChain H.may_write bytes.now self.old
            → WritesAtPosition H.writes bytes.now self.old (sectors_of self.old)
            (holder_of self.old)
            (holder_of self.new) }
        ensures only_reads { (CanWriteInChain H.may_write bytes.now self.old → ⊥)
            → H.rests (holder_of self.old) (holder_of self.new) }
        ensures either { WritesAtPosition H.writes bytes.now self.old (sectors_of self.old)
            (holder_of self.old) (holder_of self.new)
            ⊎ H.rests (holder_of self.old) (holder_of self.new) }
        ensures still { (at count : ℕ) → H.may_write (holder_of self.old) at count
            → H.may_write (holder_of self.new) at count }
        ensures same { IsSameChain self.old self.new }
        ensures error_contract { ChainErrorContract H.ChangesSectors IsInvalid result self.old
            self.new }
        ensures errors { IfErr result (λ e. (e ≡ InvalidData)
            ⊎ (H.failed (holder_of self.new) ≡ true)) }
    {
        let (place, left) = self.place(self.position);
        let count = bytes.len().min(left);
        self.holder.write_part(place, &bytes[..count])?;
        self.position += count as u64;
        Ok(count)
    }

    /// Fills the sector in which a length ends with zeros from there on; what lies before stays. `InvalidInput` where the
    /// length is past the chain's end, `InvalidData` where the layer may not write there, and then nothing is changed. After a
    /// fault in the write the layer has failed. The position stays.
    pub fn zero_tail(&mut self, len: u64) -> Result<(), Error>
        ensures zeroed { OnOk result (ChainOverwrites H.ChangesSectors len
            (replicate (tail_in (version_of self.old) len) 0)
            self.old self.new) }
        ensures there { OnOk result (len ≤ len_of self.old) }
        ensures past { IsErrOf result InvalidInput
            ↔ ((H.failed (holder_of self.old) ≡ false) × (len_of self.old < len)) }
        ensures refused_only_if { IsErrOf result InvalidData → MayZero H.may_write len self.old
            → ⊥ }
        ensures only_reads { IfErr result (λ e. IsInvalidPlace e
            → H.rests (holder_of self.old) (holder_of self.new)) }
        ensures either { Zeroes H.writes len self.old (holder_of self.old) (holder_of self.new)
            ⊎ H.rests (holder_of self.old) (holder_of self.new) }
        ensures still { (at count : ℕ) → H.may_write (holder_of self.old) at count
            → H.may_write (holder_of self.new) at count }
        ensures position { position_of self.new ≡ position_of self.old }
        ensures same { IsSameChain self.old self.new }
        ensures error_contract { ChainErrorContract H.ChangesSectors IsInvalidPlace result self.old
            self.new }
        ensures errors { IfErr result (λ e. IsInvalidPlace e
            ⊎ (H.failed (holder_of self.new) ≡ true)) }
    {
        if self.holder.is_failed() {
            return Err(Error::Failed);
        }
        if len > self.len() {
            return Err(Error::InvalidInput);
        }
        if len % self.links.version().sector_len() as u64 == 0 {
            return Ok(());
        }
        let (place, left) = self.place(len);
        let zeros = [0; LONGEST];
        match self.holder.write_part(place, &zeros[..left]) {
            Ok(()) => Ok(()),
            Err(error) => Err(error),
        }
    }
}

impl<'a, H: GrowsChains> Chain<'a, H> {
    ghost use Rattle.cfb_chains.specs.ChainViews.{holder_of, position_of, sectors_of, version_of, IsSameChain, IsSameBut};

    // At the end: takes in a sector, and writes what it takes.
    fn write_behind(&mut self, bytes: &[u8]) -> Result<usize, Error>
        requires { position_of self.old ≡ len_of self.old }
        ensures advances { Advances bytes.now result self.old self.new }
        ensures written { IfOk result (λ n. ChainHolds H.GrowsChains self.old (sectors_of self.new)
            (holder_of self.new)
            (overwritten (chain_bytes H.bytes self.old ++ new_sector self.old)
            (position_of self.old) (take n bytes.now))) }
        ensures grows { LengthensAndPuts H.GrowsChains bytes.now self.old self.new }
        ensures longer { length (sectors_of self.new) ≤ length (sectors_of self.old) + 1 }
        ensures keeps { OnOk result (ChainKeeps H.GrowsChains self.old (sectors_of self.new)
            (holder_of self.new)) }
        ensures same { IsSameBut self.old self.new }
        ensures refused_live { IsErrOf result InvalidData → H.failed (holder_of self.new) ≡ false
            → LacksUsableChain H.FreesChains self.old }
        ensures refused_only_if { IsErrOf result InvalidData
            → H.version (holder_of self.old) ≡ version_of self.old
            → LacksUsableChain H.FreesChains self.old × OnlyReadsChain H.rests self.old self.new }
        ensures full_only_if { IsErrOf result Full → IsTrue (H.orderly (holder_of self.old))
            × HasNoNumber H.is_full self.old × OnlyReadsChain H.rests self.old self.new }
        ensures error_contract { ChainErrorContract H.ChangesSectors IsInvalidOrFull result self.old
            self.new }
    {
        if let Err(error) = self.append_sector(NewSector::Init(self.init)) {
            return Err(error);
        }
        match self.write_inside(bytes) {
            Ok(count) => Ok(count),
            Err(error) => {
                self.holder.fail();
                Err(error)
            }
        }
    }

    /// Writes from the position on what its sector takes, and moves the position behind that. At the chain's end a sector is
    /// taken in first, in the FAT too, and holds what the chain's `init` says but for what is written; where there is nothing
    /// to write nothing is done. `InvalidData` where the layer may not write there, which isn't so of a new sector, or its
    /// tables can't be changed or haven't the chain, and then `Full` where no sector's number is left. After these two nothing
    /// is changed, and after another error neither, or the layer has failed ([MS-CFB] 2.3).
    pub fn write(&mut self, bytes: &[u8]) -> Result<usize, Error>
        ensures advances { Advances bytes.now result self.old self.new }
        ensures inside { position_of self.old < len_of self.old
            → WritesInside H.ChangesSectors bytes.now result self.old self.new }
        ensures appended { IfOk result (λ n. position_of self.old ≡ len_of self.old
            → 0 < length bytes.now
            → ChainHolds H.GrowsChains self.old (sectors_of self.new) (holder_of self.new)
            (overwritten (chain_bytes H.bytes self.old ++ new_sector self.old)
            (position_of self.old) (take n bytes.now))) }
        ensures empty { length bytes.now ≡ 0 → sectors_of self.new ≡ sectors_of self.old }
        ensures grows { LengthensAndPuts H.GrowsChains bytes.now self.old self.new }
        ensures longer { length (sectors_of self.new) ≤ length (sectors_of self.old) + 1 }
        ensures keeps { OnOk result (ChainKeeps H.GrowsChains self.old (sectors_of self.new)
            (holder_of self.new)) }
        ensures same { IsSameBut self.old self.new }
        ensures refused_live { IsErrOf result InvalidData → position_of self.old ≡ len_of self.old
            → H.failed (holder_of self.new) ≡ false → LacksUsableChain H.FreesChains self.old }
        ensures refused_only_if { IsErrOf result InvalidData
            → position_of self.old ≡ len_of self.old
            → H.version (holder_of self.old) ≡ version_of self.old
            → LacksUsableChain H.FreesChains self.old × OnlyReadsChain H.rests self.old self.new }
        ensures full_only_if { IsErrOf result Full → IsTrue (H.orderly (holder_of self.old))
            × HasNoNumber H.is_full self.old × OnlyReadsChain H.rests self.old self.new }
        ensures error_contract { ChainErrorContract H.ChangesSectors IsInvalidOrFull result self.old
            self.new }
    {
        if self.position < self.len() {
            return self.write_inside(bytes);
        }
        if !bytes.is_empty() {
            return self.write_behind(bytes);
        }
        if self.holder.is_failed() {
            return Err(Error::Failed);
        }
        Ok(0)
    }
}
