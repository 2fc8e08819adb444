//! Short streams that become longer and shorter, and stay short ([MS-CFB] 2.4, 2.6.3).
ghost use Rattle.cfb_chains.specs.ChainCalls.{IsInvalidOrFull};
ghost use Rattle.cfb_chains.specs.Grown.{IsChainInTable};
ghost use Rattle.cfb_fat.specs.Calls.{FatErrorContract};
ghost use Rattle.cfb_fat.specs.Tables.{has_failed_here, orderly_of, version_of};
ghost use Rattle.cfb_tree_edits.specs.Freeing.{HasFileInvariant};
ghost use Rattle.cfb_medium.specs.Versions.{stream_len_mask};
ghost use Rattle.cfb_medium.specs.declared.error.Error.TheVariants.{Full, InvalidData, InvalidInput};
ghost use Rattle.cfb_mini.specs.Changing.{HasUniqueOwners, KeepsOwnership, LacksMiniSectors, AppendsMiniSectors};
ghost use Rattle.cfb_mini.specs.LinkViews.{minis_of};
ghost use Rattle.cfb_mini.specs.Minis.{minis_for};
ghost use Rattle.cfb_mini.specs.Views.{allocator_of, mini_fat_of, MiniMatchesBytes, OnlyReadsMini};
ghost use Rattle.cfb_chain_io.specs.ChainEffects.{KeepsFileInvariants, IsInvalidPlaceOrFull};
ghost use Rattle.cfb_ownership.specs.Owners.{Owners};
ghost use Rattle.cfb_sectors.specs.Header.{mini_cutoff};
ghost use Rattle.cfb_stream_reads.specs.declared.opening.StreamLinks.TheVariants.{Short};
ghost use Rattle.cfb_stream_writes.specs.Moving.{IsNoMiniChain, StretchesShort};
ghost use Rattle.cfb_stream_writes.specs.Streams.{resized, AreAlike, HasNoLinks, LacksRoomFor, RewritesIn};
ghost use Rattle.std.specs.Prelude.{false, length, true, IsErrOf, IsTrue, List, OnErr, OnOk, ℕ, ◌*◌, ◌-◌, ◌<◌, ◌≡◌, ◌≤◌, ◌⊎◌};

use crate::placing::set_place;
use cfb_medium::{Error, Medium};
use cfb_mini::{MiniAllocator, MiniLinks};
use cfb_sectors::{HasSectors, MINI_SECTOR_LEN, MINI_STREAM_CUTOFF};

// Takes mini sectors in behind a mini chain's last one, until it has room for so many bytes, fewer than 4096; one that has it stays.
// After an error nothing is changed, or it has failed.
fn take_room<F: Medium>(
    mini: &mut MiniAllocator<F>,
    links: &mut MiniLinks,
    len: u64,
) -> Result<(), Error>
    requires live { has_failed_here (allocator_of mini.old) ≡ false }
    requires short { len < mini_cutoff }
    ensures lengthened { OnOk result ((own : ℕ → List ℕ) → HasUniqueOwners mini.old own
        → IsChainInTable (mini_fat_of mini.old) (minis_of links.old)
        → AppendsMiniSectors mini.old mini.new (minis_of links.old) (minis_of links.new) own) }
    ensures room { OnOk result (len ≤ 64 * length (minis_of links.new)) }
    ensures kept { OnErr result (has_failed_here (allocator_of mini.new) ≡ false
        → minis_of links.new ≡ minis_of links.old) }
    ensures refused_only_if { IsErrOf result InvalidData → (own : ℕ → List ℕ)
        → HasUniqueOwners mini.old own
        → IsChainInTable (mini_fat_of mini.old) (minis_of links.old)
        → IsTrue (orderly_of (allocator_of mini.old)) → ⊥ }
    ensures full_only_if { IsErrOf result Full → has_failed_here (allocator_of mini.new) ≡ false
        → MiniMatchesBytes mini.old
        → LacksMiniSectors (minis_for len - length (minis_of links.old)) mini.old }
    ensures after_error { OnErr result ((has_failed_here (allocator_of mini.new) ≡ true)
        ⊎ OnlyReadsMini mini.old mini.new) }
    ensures invariants { KeepsFileInvariants (allocator_of mini.old) (allocator_of mini.new) }
    ensures error_contract { FatErrorContract IsInvalidOrFull result (allocator_of mini.old)
        (allocator_of mini.new) }
{
    if len <= links.len() {
        return Ok(());
    }
    mini.lengthen_mini_chain(links, (len as usize).div_ceil(MINI_SECTOR_LEN))
}

// As `stretch_short`, for a stream that becomes longer: it takes in what it needs of mini sectors first, so that nothing is changed
// where nothing is left for them.
fn lengthen_minis<F: Medium>(
    mini: &mut MiniAllocator<F>,
    links: &mut MiniLinks,
    size: u64,
    len: u64,
) -> Result<(), Error>
    requires live { has_failed_here (allocator_of mini.old) ≡ false }
    requires more { size ≤ len }
    requires short { len < mini_cutoff }
    ensures stretched { OnOk result (StretchesShort size len mini.old mini.new links.old
        links.new) }
    ensures refused_only_if { IsErrOf result InvalidData → IsNoMiniChain links.old mini.old }
    ensures kept { OnErr result (has_failed_here (allocator_of mini.new) ≡ false
        → minis_of links.new ≡ minis_of links.old) }
    ensures after_error { OnErr result ((has_failed_here (allocator_of mini.new) ≡ true)
        ⊎ KeepsOwnership mini.old mini.new) }
    ensures full_only_if { IsErrOf result Full → has_failed_here (allocator_of mini.new) ≡ false
        → (who : Owners) → HasFileInvariant mini.old who
        → LacksMiniSectors (minis_for len - length (minis_of links.old)) mini.old }
    ensures invariants { KeepsFileInvariants (allocator_of mini.old) (allocator_of mini.new) }
    ensures error_contract { FatErrorContract IsInvalidOrFull result (allocator_of mini.old)
        (allocator_of mini.new) }
{
    if let Err(error) = take_room(mini, links, len) {
        return Err(error);
    }
    let zeros = [0; MINI_STREAM_CUTOFF as usize];
    if let Err(error) = mini.overwrite_mini_chain(links, size, &zeros[..(len - size) as usize]) {
        mini.fail();
        return Err(error);
    }
    Ok(())
}

// Makes a short stream of so many bytes one of another number, fewer than 4096, in the mini sectors that it has: it keeps its first
// bytes, and has zeros behind them. After an error nothing is changed, or it has failed.
fn stretch_short<F: Medium>(
    mini: &mut MiniAllocator<F>,
    links: &mut MiniLinks,
    size: u64,
    len: u64,
) -> Result<(), Error>
    requires live { has_failed_here (allocator_of mini.old) ≡ false }
    requires short { len < mini_cutoff }
    ensures stretched { OnOk result (StretchesShort size len mini.old mini.new links.old
        links.new) }
    ensures refused_only_if { IsErrOf result InvalidData → IsNoMiniChain links.old mini.old }
    ensures kept { OnErr result (has_failed_here (allocator_of mini.new) ≡ false
        → minis_of links.new ≡ minis_of links.old) }
    ensures after_error { OnErr result ((has_failed_here (allocator_of mini.new) ≡ true)
        ⊎ KeepsOwnership mini.old mini.new) }
    ensures full_only_if { IsErrOf result Full → has_failed_here (allocator_of mini.new) ≡ false
        → (size < len) × ((who : Owners) → HasFileInvariant mini.old who
        → LacksMiniSectors (minis_for len - length (minis_of links.old)) mini.old) }
    ensures invariants { KeepsFileInvariants (allocator_of mini.old) (allocator_of mini.new) }
    ensures error_contract { FatErrorContract IsInvalidOrFull result (allocator_of mini.old)
        (allocator_of mini.new) }
{
    if len <= size {
        return mini.shorten_mini_chain(links, (len as usize).div_ceil(MINI_SECTOR_LEN));
    }
    lengthen_minis(mini, links, size, len)
}

// Makes the short stream that has this entry and these mini sectors so many bytes long, fewer than 4096: it keeps its first bytes,
// and has zeros behind them. `Full` where it becomes longer and further mini sectors can't be had. After an error nothing is
// changed, or the file has failed.
pub(crate) fn resize_short_stream<F: Medium>(
    mini: &mut MiniAllocator<F>,
    id: u32,
    links: &mut MiniLinks,
    len: u64,
) -> Result<(), Error>
    requires { len < mini_cutoff }
    ensures resized { OnOk result (RewritesIn id (resized len) (Short links.old) (Short links.new)
        mini.old mini.new) }
    ensures kept { OnErr result (has_failed_here (allocator_of mini.new) ≡ false
        → AreAlike (Short links.old) (Short links.new)) }
    ensures large { IsErrOf result InvalidInput
        → stream_len_mask (version_of (allocator_of mini.old)) < len }
    ensures refused_only_if { IsErrOf result InvalidData
        → HasNoLinks id (Short links.old) mini.old }
    ensures after_error { OnErr result ((has_failed_here (allocator_of mini.new) ≡ true)
        ⊎ KeepsOwnership mini.old mini.new) }
    ensures full_only_if { IsErrOf result Full → has_failed_here (allocator_of mini.new) ≡ false
        → LacksRoomFor id (Short links.old) len mini.old }
    ensures invariants { KeepsFileInvariants (allocator_of mini.old) (allocator_of mini.new) }
    ensures error_contract { FatErrorContract IsInvalidPlaceOrFull result (allocator_of mini.old)
        (allocator_of mini.new) }
{
    if mini.directory().allocator().is_failed() {
        return Err(Error::Failed);
    }
    if id as usize >= mini.directory().dir_entries().len() {
        return Err(Error::InvalidData);
    }
    let size = mini.directory().dir_entry(id).stream_len;
    if let Err(error) = stretch_short(mini, links, size, len) {
        return Err(error);
    }
    if let Err(error) = set_place(mini, id, links.start_sector_id(), len) {
        return Err(error);
    }
    Ok(())
}
