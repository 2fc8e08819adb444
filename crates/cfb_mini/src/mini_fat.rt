//! The mini FAT in memory, and the sectors that hold it and the mini stream ([MS-CFB] 2.4).
ghost use Rattle.cfb_chains.specs.LinkViews.{ids_of, links_version};
ghost use Rattle.cfb_fat.specs.Tables.{bytes_of, fat_of, is_honest, version_of, OnlyReadsAllocator, IsJustifiedBySectors};
ghost use Rattle.cfb_medium.specs.Calls.{IsFaultOrInvalidInputIf};
ghost use Rattle.cfb_medium.specs.declared.error.Error.TheVariants.{InvalidData};
ghost use Rattle.cfb_mini.specs.NumberViews.{numbers_of};
ghost use Rattle.cfb_chain_io.specs.ChainEffects.{content_of, len_of, HasFatChain};
ghost use Rattle.cfb_sectors.specs.Sectors.{fat_in, Chain as IsChain};
ghost use Rattle.std.specs.Prelude.{length, IfErr, IfOk, IfSome, IsErrOf, IsTrue, List, MatchOption, ℕ, ◌*◌, ◌≡◌, ◌≤◌, ◌⊎◌};

use crate::numbers::MiniNumbers;
use crate::places::stream_len;
use cfb_chain_io::read_chain;
use cfb_chains::Links;
use cfb_fat::Allocator;
use cfb_medium::{Error, ReadMedium};
use cfb_sectors::{MAX_REGULAR_SECTOR, MINI_SECTOR_LEN, numbers_in};
use std::alloc::Global;

// The mini FAT, and where it and the mini stream lie.
#[derive(Drop)]
pub(crate) struct MiniFat {
    // The sectors that hold it.
    pub(crate) links: Links,
    pub(crate) numbers: MiniNumbers,
    // The sectors that hold the mini stream.
    pub(crate) stream: Links,
    ghost whole: { 4 * length (numbers_of numbers) ≤ len_of links },
}

// The bytes of a chain.
fn read_bytes<F: ReadMedium>(
    alloc: Global,
    allocator: &mut Allocator<F>,
    links: &Links,
) -> Result<Vec<u8>, Error>
    ensures read { IfOk result (λ all. HasFatChain allocator.old links.now
        → all.items ≡ content_of allocator.old links.now) }
    ensures size { IfOk result (λ all. length all.items ≡ len_of links.now) }
    ensures refused_only_if { IsErrOf result InvalidData → HasFatChain allocator.old links.now → ⊥ }
    ensures only_reads { OnlyReadsAllocator allocator.old allocator.new }
    ensures cause { IfErr result (IsJustifiedBySectors allocator.old allocator.new) }
    ensures errors { IfErr result (λ e. IsFaultOrInvalidInputIf ⊥ e ⊎ (e ≡ InvalidData)) }
{
    let mut bytes = Vec::new(alloc);
    bytes.resize(links.sector_ids().len() * links.version().sector_len(), 0)?;
    read_chain(allocator, links, 0, &mut bytes)?;
    Ok(bytes)
}

// The numbers that a chain's bytes hold.
fn read_numbers<F: ReadMedium>(
    alloc: Global,
    allocator: &mut Allocator<F>,
    links: &Links,
) -> Result<Vec<u32>, Error>
    ensures read { IfOk result (λ numbers. HasFatChain allocator.old links.now → numbers.items
        ≡ fat_in (version_of allocator.old) (bytes_of allocator.old) (ids_of links.now)) }
    ensures size { IfOk result (λ numbers. 4 * length numbers.items ≤ len_of links.now) }
    ensures refused_only_if { IsErrOf result InvalidData → HasFatChain allocator.old links.now → ⊥ }
    ensures only_reads { OnlyReadsAllocator allocator.old allocator.new }
    ensures cause { IfErr result (IsJustifiedBySectors allocator.old allocator.new) }
    ensures errors { IfErr result (λ e. IsFaultOrInvalidInputIf ⊥ e ⊎ (e ≡ InvalidData)) }
{
    let bytes = read_bytes(alloc, allocator, links)?;
    Ok(numbers_in(alloc, &bytes)?)
}

// The mini FAT from a start in the FAT, and the mini stream from another. `InvalidData` where there is no such chain.
pub(crate) fn read_mini_fat<F: ReadMedium>(
    alloc: Global,
    allocator: &mut Allocator<F>,
    first_sector: u32,
    stream_start: u32,
) -> Result<MiniFat, Error>
    ensures chain { IfOk result (λ it. IsChain (fat_of allocator.old) first_sector
        (ids_of it.links)) }
    ensures stream { IfOk result (λ it. IsChain (fat_of allocator.old) stream_start
        (ids_of it.stream)) }
    ensures versions { IfOk result (λ it. (links_version it.links ≡ version_of allocator.old)
        × (links_version it.stream ≡ version_of allocator.old)) }
    ensures numbers { IfOk result (λ it. IsTrue (is_honest allocator.old)
        → numbers_of it.numbers ≡ fat_in (version_of allocator.old) (bytes_of allocator.old)
        (ids_of it.links)) }
    ensures refused_only_if { IsErrOf result InvalidData → IsTrue (is_honest allocator.old)
        → (ids stream : List ℕ) → IsChain (fat_of allocator.old) first_sector ids
        → IsChain (fat_of allocator.old) stream_start stream → ⊥ }
    ensures only_reads { OnlyReadsAllocator allocator.old allocator.new }
    ensures cause { IfErr result (IsJustifiedBySectors allocator.old allocator.new) }
    ensures errors { IfErr result (λ e. IsFaultOrInvalidInputIf ⊥ e ⊎ (e ≡ InvalidData)) }
{
    let links = allocator.open_chain(first_sector)?;
    let stream = allocator.open_chain(stream_start)?;
    let items = read_numbers(alloc, allocator, &links)?;
    Ok(MiniFat {
        links,
        numbers: MiniNumbers::new(items),
        stream,
    })
}

impl MiniFat {
    ghost use Rattle.cfb_mini.specs.NextSector.{HasNoFreeMiniBelow, IsFreeInside};

    // The first free mini sector, where the mini stream has it.
    pub(crate) fn find_inside(&mut self) -> Option<u32>
        ensures found { MatchOption result ((n : ℕ) → IsFreeInside self.old n → ⊥)
            (λ n. IsFreeInside self.old n) }
        ensures first { IfSome result (λ n. HasNoFreeMiniBelow (numbers_of self.old.numbers) n) }
        ensures lies { (self.new.links ≡ self.old.links) × (self.new.stream ≡ self.old.stream) }
        ensures same { numbers_of self.new.numbers ≡ numbers_of self.old.numbers }
    {
        let found = self.numbers.find_free();
        let end = MINI_SECTOR_LEN as u64 * (found as u64 + 1);
        if found >= self.numbers.items().len() || found > MAX_REGULAR_SECTOR as usize {
            return None;
        }
        if end > stream_len(&self.stream) {
            return None;
        }
        Some(found as u32)
    }
}
