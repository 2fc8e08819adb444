//! The bytes of a chain of mini sectors, read from a position on.
ghost use Rattle.cfb_chains.specs.ChainCalls.{IsInvalidPlace};
ghost use Rattle.cfb_fat.specs.Tables.{has_failed_here, IsJustifiedBySectors};
ghost use Rattle.cfb_medium.specs.Calls.{IsFaultOrInvalidInputIf};
ghost use Rattle.cfb_medium.specs.declared.error.Error.TheVariants.{Failed, InvalidData, InvalidInput};
ghost use Rattle.cfb_mini.specs.Views.{OnlyReadsMini};
ghost use Rattle.cfb_sectors.specs.Sectors.{end_of_chain};
ghost use Rattle.cfb_sectors.specs.Seeking.{Finds, IsNotFound};
ghost use Rattle.std.specs.Prelude.{drop, false, length, min, slice_index_or, take, true, IfErr, IfOk, IsErrOf, OnErr, OnOk, ℕ, ◌+◌, ◌-◌, ◌<◌, ◌≡◌, ◌⊎◌};

use cfb_medium::{Error, ReadMedium};
use cfb_mini::{MiniAllocator, MiniLinks};
use cfb_sectors::{HasSectors, place_found};
use std::alloc::Global;
use std::io::SeekFrom;

/// The mini sectors of a chain, as one list of bytes, at a position ([MS-CFB] 2.4).
#[derive(Drop)]
pub struct MiniChain<'a, F: ReadMedium> {
    pub(crate) alloc: Global,
    pub(crate) mini: &'a mut MiniAllocator<F>,
    pub(crate) links: &'a mut MiniLinks,
    pub(crate) position: u64,
}

impl<'a, F: ReadMedium> MiniChain<'a, F> {
    ghost use Rattle.cfb_mini_chains.specs.MiniChainViews.{allocator_under, content_of, len_of, links_of, mini_of, mini_sectors_of, position_of, IsReadable, IsSameMiniChain};

    /// The chain of these mini sectors, at its first byte. The links follow what it takes in and frees.
    pub fn new(
        alloc: Global,
        mini: &'a mut MiniAllocator<F>,
        links: &'a mut MiniLinks,
    ) -> MiniChain<'a, F>
        ensures same_reference { result.mini.ghost_name ≡ mini.entry.ghost_name }
        ensures same_links { result.links.ghost_name ≡ links.entry.ghost_name }
        ensures chain { (mini_of result ≡ mini.old) × (links_of result ≡ links.old)
            × (position_of result ≡ 0) }
    {
        MiniChain {
            alloc,
            mini,
            links,
            position: 0,
        }
    }

    /// Its first mini sector, or "end of chain" where it has none.
    pub fn start_sector_id(&self) -> u32
        ensures { result ≡ slice_index_or (mini_sectors_of self.now) 0 end_of_chain }
    {
        self.links.start_sector_id()
    }

    /// How many bytes its mini sectors have.
    pub fn len(&self) -> u64
        ensures { result ≡ len_of self.now }
    {
        self.links.len()
    }

    // Whether a fault has left the layer in a state in which every call is refused.
    pub(crate) fn is_failed(&self) -> bool
        ensures { result ≡ has_failed_here (allocator_under self.now) }
    {
        self.mini.directory().allocator().is_failed()
    }

    /// Reads what the buffer takes of the bytes from the position on, and moves the position behind that. 0 bytes are read at the
    /// end alone, or into an empty buffer. `InvalidInput` where the position is behind the end, as only a failure leaves it;
    /// `InvalidData` where the mini stream hasn't one of the mini sectors, or the file not one of its sectors ([MS-CFB] 2.4).
    pub fn read(&mut self, buffer: &mut [u8]) -> Result<usize, Error>
        ensures read { IfOk result (λ n. IsReadable self.old → take n buffer.new
            ≡ take n (drop (position_of self.old) (content_of self.old))) }
        ensures rest { IfOk result (λ n. drop n buffer.new ≡ drop n buffer.old) }
        ensures count { IfOk result (λ n. n
            ≡ min (length buffer.old) (len_of self.old - position_of self.old)) }
        ensures moved { IfOk result (λ n. position_of self.new ≡ position_of self.old + n) }
        ensures stays { OnErr result (position_of self.new ≡ position_of self.old) }
        ensures same { IsSameMiniChain self.old self.new × (links_of self.new ≡ links_of self.old) }
        ensures past { IsErrOf result InvalidInput → len_of self.old < position_of self.old }
        ensures refused_only_if { IsErrOf result InvalidData → IsReadable self.old → ⊥ }
        ensures when_failed { has_failed_here (allocator_under self.old) ≡ true
            → IsErrOf result Failed }
        ensures only_reads { OnlyReadsMini (mini_of self.old) (mini_of self.new) }
        ensures cause { IfErr result (IsJustifiedBySectors (allocator_under self.old)
            (allocator_under self.new)) }
        ensures errors { IfErr result (λ e. IsFaultOrInvalidInputIf ⊥ e ⊎ IsInvalidPlace e) }
    {
        let left = self.links.len().saturating_sub(self.position);
        let count = left.min(buffer.len() as u64) as usize;
        let place = self.position;
        if let Err(error) = self
            .mini
            .read_mini_chain(self.links, place, &mut buffer[..count])
        {
            return Err(error);
        }
        self.position = place + count as u64;
        Ok(count)
    }

    /// Moves the position to a place of the chain or to its end, and gives it. `InvalidInput` where it is before the chain or
    /// behind its end, and `Failed` where the layer has failed; then the position stays.
    pub fn seek(&mut self, from: SeekFrom) -> Result<u64, Error>
        ensures ok { IfOk result (λ n. Finds from (len_of self.old) (position_of self.old) n
            × (position_of self.new ≡ n)) }
        ensures not_failed { OnOk result (has_failed_here (allocator_under self.old) ≡ false) }
        ensures errors { IfErr result (IsNotFound (has_failed_here (allocator_under self.old)) from
            (len_of self.old) (position_of self.old)) }
        ensures stays { OnErr result (position_of self.new ≡ position_of self.old) }
        ensures same { IsSameMiniChain self.old self.new }
        ensures layer { (mini_of self.new ≡ mini_of self.old)
            × (links_of self.new ≡ links_of self.old) }
    {
        if self.is_failed() {
            return Err(Error::Failed);
        }
        let Some(place) = place_found(from, self.links.len(), self.position) else {
            return Err(Error::InvalidInput);
        };
        self.position = place;
        Ok(place)
    }
}
