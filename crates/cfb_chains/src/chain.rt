//! The bytes of a chain of sectors, read from a position on.
ghost use Rattle.cfb_medium.specs.Calls.{IsFaultOrInvalidInputIf};
ghost use Rattle.cfb_medium.specs.Versions.{sector_len};
ghost use Rattle.cfb_medium.specs.declared.error.Error.TheVariants.{Failed};
ghost use Rattle.cfb_chains.specs.Positions.{left_in, place_in};
ghost use Rattle.cfb_chains.specs.LinkViews.{ids_of, links_version};
ghost use Rattle.cfb_sectors.specs.Sectors.{end_of_chain};
ghost use Rattle.cfb_sectors.specs.Seeking.{Finds, IsNotFound};
ghost use Rattle.std.specs.Prelude.{drop, false, length, slice_index, slice_index_or, take, true, IfErr, IfOk, IsErrOf, IsTrue, OnErr, OnOk, ℕ, ◌*◌, ◌+◌, ◌-◌, ◌<◌, ◌≡◌, ◌≤◌};

use crate::Links;
use cfb_medium::{Error, Version};
use cfb_sectors::{END_OF_CHAIN, HasSectors, SectorInit, place_found};
use std::io::SeekFrom;

/// The sectors of a chain, as one list of bytes, at a position.
#[derive(Drop)]
pub struct Chain<'a, H: HasSectors> {
    pub(crate) holder: &'a mut H,
    pub(crate) links: &'a mut Links,
    pub(crate) position: u64,
    pub(crate) init: SectorInit,
    ghost inside: { position ≤ length (ids_of links.now) * sector_len (links_version links.now) },
}

impl<'a, H: HasSectors> Chain<'a, H> {
    ghost use Rattle.cfb_chains.specs.ChainCalls.{chain_bytes, len_of};
    ghost use Rattle.cfb_chains.specs.ChainViews.{holder_of, init_of, position_of, sectors_of, version_of, IsSameChain};

    /// The chain of these sectors, at its first byte. What it takes in later holds at first what `init` says; the links follow
    /// what it takes in and frees.
    pub fn new(holder: &'a mut H, links: &'a mut Links, init: SectorInit) -> Chain<'a, H>
        ensures same_reference { result.holder.ghost_name ≡ holder.entry.ghost_name }
        ensures same_links { result.links.ghost_name ≡ links.entry.ghost_name }
        ensures holder { holder_of result ≡ holder.old }
        ensures chain { (version_of result ≡ links_version links.old)
            × (sectors_of result ≡ ids_of links.old) × (position_of result ≡ 0)
            × (init_of result ≡ init) }
    {
        Chain {
            holder,
            links,
            position: 0,
            init,
        }
    }

    /// Its first sector, or "end of chain" where it has none.
    pub fn start_sector_id(&self) -> u32
        ensures { result ≡ slice_index_or (sectors_of self.now) 0 end_of_chain }
    {
        match self.links.sector_ids().first() {
            Some(sector_id) => *sector_id,
            None => END_OF_CHAIN,
        }
    }

    // Its last sector, or "end of chain" where it has none.
    pub(crate) fn last_sector_id(&self) -> u32
        ensures none { length (sectors_of self.now) ≡ 0 → result ≡ end_of_chain }
        ensures some { 0 < length (sectors_of self.now)
            → result ≡ slice_index (sectors_of self.now) (length (sectors_of self.now) - 1) }
    {
        let count = self.links.sector_ids().len();
        if count == 0 {
            return END_OF_CHAIN;
        }
        self.links.sector_ids()[count - 1]
    }

    /// How many sectors it has.
    pub fn num_sectors(&self) -> usize
        ensures { result ≡ length (sectors_of self.now) }
    {
        self.links.sector_ids().len()
    }

    /// Its sectors, in order.
    pub fn sector_ids(&self) -> &[u32]
        ensures { result.now ≡ sectors_of self.now }
    {
        self.links.sector_ids()
    }

    /// How many bytes its sectors have.
    pub fn len(&self) -> u64
        ensures { result ≡ len_of self.now }
    {
        self.links.sector_ids().len() as u64 * self.links.version().sector_len() as u64
    }

    // The place in the file of the byte at a position, and how many bytes its sector has from there on.
    pub(crate) fn place(&self, position: u64) -> (u64, usize)
        requires { position < len_of self.now }
        ensures place { result.0 ≡ place_in (version_of self.now) (sectors_of self.now) position }
        ensures left { result.1 ≡ left_in (version_of self.now) position }
    {
        let version = self.links.version();
        let len = version.sector_len() as u64;
        let offset = position % len;
        let index = (position / len) as usize;
        let sector_id = self.links.sector_ids()[index];
        (
            (u64::from(sector_id) + 1) * len + offset,
            (len - offset) as usize,
        )
    }

    /// Reads from the position on what the buffer takes of the sector in which it lies, and moves the position behind that.
    /// 0 bytes are read at the end alone, or into an empty buffer.
    pub fn read(&mut self, buffer: &mut [u8]) -> Result<usize, Error>
        ensures read { IfOk result (λ n. IsTrue (H.honest (holder_of self.old))
            → take n buffer.new ≡ take n (drop (position_of self.old)
            (chain_bytes H.bytes self.old))) }
        ensures rest { IfOk result (λ n. drop n buffer.new ≡ drop n buffer.old) }
        ensures count { IfOk result (λ n. (n ≤ length buffer.old)
            × (position_of self.old + n ≤ len_of self.old)) }
        ensures some { IfOk result (λ n. 0 < length buffer.old
            → position_of self.old < len_of self.old → 0 < n) }
        ensures moved { IfOk result (λ n. position_of self.new ≡ position_of self.old + n) }
        ensures stays { OnErr result (position_of self.new ≡ position_of self.old) }
        ensures same { IsSameChain self.old self.new }
        ensures not_failed { OnOk result (H.failed (holder_of self.old) ≡ false) }
        ensures when_failed { H.failed (holder_of self.old) ≡ true → IsErrOf result Failed }
        ensures only_reads { H.rests (holder_of self.old) (holder_of self.new) }
        ensures cause { IfErr result (H.has_cause (holder_of self.old) (holder_of self.new)) }
        ensures errors { IfErr result (IsFaultOrInvalidInputIf ⊥) }
    {
        if self.holder.is_failed() {
            return Err(Error::Failed);
        }
        if self.position == self.len() {
            return Ok(0);
        }
        let (place, left) = self.place(self.position);
        let count = buffer.len().min(left);
        self.holder.read_part(place, &mut buffer[..count])?;
        self.position += count as u64;
        Ok(count)
    }

    /// Moves the position to a place of the chain or to its end, and gives it. `InvalidInput` where it is before the chain or
    /// behind its end, and `Failed` where the layer has failed; then the position stays.
    pub fn seek(&mut self, from: SeekFrom) -> Result<u64, Error>
        ensures ok { IfOk result (λ n. Finds from (len_of self.old) (position_of self.old) n
            × (position_of self.new ≡ n)) }
        ensures not_failed { OnOk result (H.failed (holder_of self.old) ≡ false) }
        ensures errors { IfErr result (IsNotFound (H.failed (holder_of self.old)) from
            (len_of self.old) (position_of self.old)) }
        ensures when_failed { H.failed (holder_of self.old) ≡ true → IsErrOf result Failed }
        ensures stays { OnErr result (position_of self.new ≡ position_of self.old) }
        ensures same { IsSameChain self.old self.new }
        ensures holder { holder_of self.new ≡ holder_of self.old }
    {
        if self.holder.is_failed() {
            return Err(Error::Failed);
        }
        let Some(place) = place_found(from, self.len(), self.position) else {
            return Err(Error::InvalidInput);
        };
        self.position = place;
        Ok(place)
    }
}
