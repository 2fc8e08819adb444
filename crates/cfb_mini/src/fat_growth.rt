//! The mini FAT, made longer ([MS-CFB] 2.4).
ghost use Rattle.cfb_chains.specs.ChainCalls.{IsInvalidOrFull};
ghost use Rattle.cfb_chains.specs.LinkViews.{ids_of, links_version};
ghost use Rattle.cfb_chains.specs.Owned.{ChangesAtMost};
ghost use Rattle.cfb_fat.specs.Calls.{FatErrorContract};
ghost use Rattle.cfb_fat.specs.Seeing.{seen_of};
ghost use Rattle.cfb_fat.specs.Tables.{bytes_of, has_failed_here, is_honest, orderly_of, version_of, IsJustifiedBySectors};
ghost use Rattle.cfb_medium.specs.Calls.{IsFaultOrInvalidInputIf};
ghost use Rattle.cfb_medium.specs.declared.error.Error.TheVariants.{Full, InvalidData};
ghost use Rattle.cfb_mini.specs.FatGrowth.{mini_fat_words, GrowsTable, TellsMiniFat};
ghost use Rattle.cfb_mini.specs.NumberViews.{numbers_of};
ghost use Rattle.cfb_chain_io.specs.ChainEffects.{KeepsFileInvariants, HasDataChain, LacksSectors};
ghost use Rattle.cfb_sectors.specs.Sectors.{end_of_chain, sector};
ghost use Rattle.std.specs.Prelude.{false, length, slice_index_or, true, IfErr, IsErrOf, IsTrue, OnErr, OnOk, [], ◌+◌, ◌≡◌};

use crate::mini_fat::MiniFat;
use cfb_chain_io::{set_chain_len, write_word};
use cfb_chains::Links;
use cfb_fat::{Allocator, HeaderWord};
use cfb_medium::{Error, Medium};
use cfb_sectors::{END_OF_CHAIN, HasSectors, SectorInit};

// The first of a chain's sectors; "end of chain" where it has none.
pub(crate) fn start_of(links: &Links) -> u32
    ensures { result ≡ slice_index_or (ids_of links.now) 0 end_of_chain }
{
    match links.sector_ids().first() {
        Some(sector_id) => *sector_id,
        None => END_OF_CHAIN,
    }
}

// How many sectors a chain has.
fn count_of(links: &Links) -> u32
    ensures { result ≡ length (ids_of links.now) }
{
    links.sector_ids().len() as u32
}

// Tells the header where the mini FAT begins, and how many sectors it has. After an error it has failed ([MS-CFB] 2.2).
fn tell_header<F: Medium>(allocator: &mut Allocator<F>, links: &Links) -> Result<(), Error>
    ensures leaves { OnOk result (IsTrue (is_honest allocator.old)
        → ChangesAtMost (sector (version_of allocator.old)) mini_fat_words []
        (seen_of allocator.old)
        (seen_of allocator.new)) }
    ensures answer { OnOk result (IsTrue (is_honest allocator.old)
        → TellsMiniFat (bytes_of allocator.new) (ids_of links.now)) }
    ensures not_failed { OnOk result (has_failed_here allocator.new ≡ false) }
    ensures when_failed { OnErr result (has_failed_here allocator.new ≡ true) }
    ensures invariants { KeepsFileInvariants allocator.old allocator.new }
    ensures cause { IfErr result (IsJustifiedBySectors allocator.old allocator.new) }
    ensures errors { IfErr result (IsFaultOrInvalidInputIf ⊥) }
{
    let first = start_of(links);
    let count = count_of(links);
    if let Err(error) = write_word(allocator, HeaderWord::FirstMiniFatSector, first) {
        allocator.fail();
        return Err(error);
    }
    if let Err(error) = write_word(allocator, HeaderWord::MiniFatSectors, count) {
        allocator.fail();
        return Err(error);
    }
    Ok(())
}

// Gives the mini FAT a sector more, of free numbers, and tells the header. `InvalidData` where the tables can't be changed or
// haven't its chain, and then `Full` where no number of a sector is left. After an error nothing is changed, or it has failed.
pub(crate) fn grow_table<F: Medium>(
    allocator: &mut Allocator<F>,
    mini_fat: &mut MiniFat,
) -> Result<(), Error>
    ensures grows { OnOk result (HasDataChain allocator.old mini_fat.old.links
        → GrowsTable allocator.old allocator.new mini_fat.old mini_fat.new) }
    ensures kept { OnErr result (has_failed_here allocator.new ≡ false
        → (ids_of mini_fat.new.links ≡ ids_of mini_fat.old.links)
        × (numbers_of mini_fat.new.numbers ≡ numbers_of mini_fat.old.numbers)) }
    ensures version { links_version mini_fat.new.links ≡ links_version mini_fat.old.links }
    ensures stream { mini_fat.new.stream ≡ mini_fat.old.stream }
    ensures refused_only_if { IsErrOf result InvalidData
        → HasDataChain allocator.old mini_fat.old.links
        → IsTrue (orderly_of allocator.old) → ⊥ }
    ensures full_only_if { IsErrOf result Full → has_failed_here allocator.new ≡ false
        → LacksSectors allocator.old mini_fat.old.links
        (length (ids_of mini_fat.old.links) + 1) }
    ensures invariants { KeepsFileInvariants allocator.old allocator.new }
    ensures error_contract { FatErrorContract IsInvalidOrFull result allocator.old allocator.new }
{
    if allocator.is_failed() {
        return Err(Error::Failed);
    }
    let each = mini_fat.links.version().sector_len();
    let wanted = (mini_fat.links.sector_ids().len() + 1) * each;
    let len = mini_fat.numbers.items().len();
    if let Err(error) = mini_fat.numbers.grow(each / 4) {
        return Err(error);
    }
    if let Err(error) = set_chain_len(
        allocator,
        &mut mini_fat.links,
        wanted as u64,
        SectorInit::Fat,
    ) {
        let kept = if allocator.is_failed() { 0 } else { len };
        mini_fat.numbers.truncate(kept);
        return Err(error);
    }
    tell_header(allocator, &mini_fat.links)
}
