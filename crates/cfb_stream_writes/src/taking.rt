//! Sectors and mini sectors for a stream that has none of them ([MS-CFB] 2.3, 2.4).
ghost use Rattle.cfb_chains.specs.ChainCalls.{IsInvalidOrFull};
ghost use Rattle.cfb_chains.specs.LinkViews.{ids_of, links_version};
ghost use Rattle.cfb_fat.specs.Calls.{FatErrorContract};
ghost use Rattle.cfb_fat.specs.Tables.{has_failed_here, version_of};
ghost use Rattle.cfb_tree_edits.specs.Freeing.{HasFileInvariant};
ghost use Rattle.cfb_medium.specs.declared.error.Error.TheVariants.{Full, InvalidData};
ghost use Rattle.cfb_mini.specs.Changing.{KeepsOwnership, LacksMiniSectors};
ghost use Rattle.cfb_mini.specs.LinkViews.{minis_of};
ghost use Rattle.cfb_mini.specs.Minis.{minis_for};
ghost use Rattle.cfb_mini.specs.Views.{allocator_of};
ghost use Rattle.cfb_chain_io.specs.ChainEffects.{KeepsFileInvariants};
ghost use Rattle.cfb_ownership.specs.Owners.{stream_owner, Owners};
ghost use Rattle.cfb_sectors.specs.Header.{mini_cutoff};
ghost use Rattle.cfb_stream_writes.specs.Moving.{TakesLong, TakesShort};
ghost use Rattle.cfb_stream_writes.specs.Streams.{resized, LacksSectorsFor};
ghost use Rattle.std.specs.Prelude.{[], false, length, true, IfOk, IsErrOf, OnErr, ℕ, ◌<◌, ◌≡◌, ◌≤◌, ◌⊎◌};

use crate::lengths::take_in;
use cfb_chains::Links;
use cfb_medium::{Error, Medium};
use cfb_mini::{MiniAllocator, MiniLinks};
use cfb_sectors::{HasSectors, MINI_SECTOR_LEN};
use std::alloc::Global;

// Takes sectors for a long stream of so many bytes that owns none: they have these bytes, and zeros behind them. What it owns
// besides stays, and its entry is to tell of them then. `Full` where fewer numbers of sectors are left, `InvalidData` where the
// FAT's tables can't be changed. After an error nothing is changed, or it has failed ([MS-CFB] 2.3).
pub(crate) fn take_long<F: Medium>(
    alloc: Global,
    mini: &mut MiniAllocator<F>,
    bytes: &[u8],
    len: u64,
) -> Result<Links, Error>
    requires { length bytes.now ≤ len }
    ensures taken { IfOk result (λ links. (who : Owners) (id : ℕ) → HasFileInvariant mini.old who
        → who.sectors (stream_owner id) ≡ []
        → TakesLong id (ids_of links) (resized len bytes.now) mini.old mini.new who) }
    ensures version { IfOk result (λ links.
        links_version links ≡ version_of (allocator_of mini.old)) }
    ensures refused_only_if { IsErrOf result InvalidData → (who : Owners) (id : ℕ)
        → HasFileInvariant mini.old who
        → who.sectors (stream_owner id) ≡ [] → ⊥ }
    ensures after_error { OnErr result ((has_failed_here (allocator_of mini.new) ≡ true)
        ⊎ KeepsOwnership mini.old mini.new) }
    ensures full_only_if { IsErrOf result Full → has_failed_here (allocator_of mini.new) ≡ false
        → LacksSectorsFor mini.old 0 len }
    ensures invariants { KeepsFileInvariants (allocator_of mini.old) (allocator_of mini.new) }
    ensures error_contract { FatErrorContract IsInvalidOrFull result (allocator_of mini.old)
        (allocator_of mini.new) }
{
    if mini.directory().allocator().is_failed() {
        return Err(Error::Failed);
    }
    let mut links = match Links::new(mini.version(), Vec::new(alloc)) {
        Ok(links) => links,
        Err(error) => return Err(error),
    };
    match take_in(mini, &mut links, len, bytes) {
        Ok(()) => Ok(links),
        Err(error) => Err(error),
    }
}

// Takes mini sectors for a short stream of these bytes that owns none. What it owns besides stays, and its entry is to tell of them
// then. `Full` where so many can't be had, `InvalidData` where the FAT's tables can't be changed. After an error
// nothing is changed, or it has failed ([MS-CFB] 2.4).
pub(crate) fn take_short<F: Medium>(
    alloc: Global,
    mini: &mut MiniAllocator<F>,
    bytes: &[u8],
) -> Result<MiniLinks, Error>
    requires { length bytes.now < mini_cutoff }
    ensures taken { IfOk result (λ links. (who : Owners) (id : ℕ) → HasFileInvariant mini.old who
        → who.minis (stream_owner id) ≡ []
        → TakesShort id (minis_of links) bytes.now mini.old mini.new who) }
    ensures refused_only_if { IsErrOf result InvalidData → (who : Owners) (id : ℕ)
        → HasFileInvariant mini.old who
        → who.minis (stream_owner id) ≡ [] → ⊥ }
    ensures after_error { OnErr result ((has_failed_here (allocator_of mini.new) ≡ true)
        ⊎ KeepsOwnership mini.old mini.new) }
    ensures full_only_if { IsErrOf result Full → has_failed_here (allocator_of mini.new) ≡ false
        → (who : Owners) → HasFileInvariant mini.old who
        → LacksMiniSectors (minis_for (length bytes.now)) mini.old }
    ensures invariants { KeepsFileInvariants (allocator_of mini.old) (allocator_of mini.new) }
    ensures error_contract { FatErrorContract IsInvalidOrFull result (allocator_of mini.old)
        (allocator_of mini.new) }
{
    let mut links = MiniLinks::new(alloc);
    let count = bytes.len().div_ceil(MINI_SECTOR_LEN);
    if let Err(error) = mini.lengthen_mini_chain(&mut links, count) {
        return Err(error);
    }
    if let Err(error) = mini.overwrite_mini_chain(&links, 0, bytes) {
        mini.fail();
        return Err(error);
    }
    Ok(links)
}
