//! Long streams that are written on to behind their end ([MS-CFB] 2.3).
ghost use Rattle.cfb_chains.specs.LinkViews.{ids_of, links_version};
ghost use Rattle.cfb_chains.specs.Positions.{sectors_for};
ghost use Rattle.cfb_fat.specs.Calls.{FatErrorContract};
ghost use Rattle.cfb_fat.specs.Tables.{has_failed_here, version_of};
ghost use Rattle.cfb_tree_edits.specs.Freeing.{HasFileInvariant};
ghost use Rattle.cfb_medium.specs.Bytes.{overwritten};
ghost use Rattle.cfb_medium.specs.Versions.{stream_len_mask};
ghost use Rattle.cfb_medium.specs.declared.error.Error.TheVariants.{Full, InvalidData, InvalidInput};
ghost use Rattle.cfb_mini.specs.Changing.{KeepsOwnership};
ghost use Rattle.cfb_mini.specs.LinkViews.{minis_of};
ghost use Rattle.cfb_mini.specs.Views.{allocator_of};
ghost use Rattle.cfb_chain_io.specs.ChainEffects.{len_of, KeepsFileInvariants, IsInvalidPlaceOrFull, LacksSectors, WritesIntoNewSectors};
ghost use Rattle.cfb_ownership.specs.Owners.{stream_owner, Owners};
ghost use Rattle.cfb_sectors.specs.declared.initial.SectorInit.TheVariants.{Zero};
ghost use Rattle.cfb_sectors.specs.Header.{mini_cutoff};
ghost use Rattle.cfb_stream_reads.specs.declared.opening.StreamLinks.TheVariants.{Long, Short};
ghost use Rattle.cfb_stream_writes.specs.Moving.{IsNoChain, MovesLong, Outgrows};
ghost use Rattle.cfb_stream_writes.specs.Streams.{resized, AreAlike, CanOutgrow, HasNoLinks, LacksRoomFor, RewritesIn};
ghost use Rattle.std.specs.Prelude.{false, length, max, true, IfOk, IsErrOf, IsTrue, OnErr, OnOk, ℕ, ◌+◌, ◌<◌, ◌≡◌, ◌≤◌, ◌↔◌, ◌⊎◌};

use crate::lengthening::move_to_sectors;
use crate::placing::set_place;
use crate::writing::first_sector;
use cfb_chain_io::write_chain;
use cfb_chains::Links;
use cfb_medium::{Error, Medium};
use cfb_mini::{MiniAllocator, MiniLinks};
use cfb_sectors::{HasSectors, MINI_STREAM_CUTOFF, SectorInit};
use cfb_stream_reads::StreamLinks;
use std::alloc::Global;

// Writes bytes of a long stream from a place in its sectors or at their end on; where they end behind these, it takes in others. After
// an error nothing is changed, or it has failed.
fn write_on<F: Medium>(
    mini: &mut MiniAllocator<F>,
    links: &mut Links,
    at: u64,
    bytes: &[u8],
) -> Result<(), Error>
    ensures written { OnOk result ((who : Owners) (id : ℕ) → HasFileInvariant mini.old who
        → who.sectors (stream_owner id) ≡ ids_of links.old
        → links_version links.old ≡ version_of (allocator_of mini.old)
        → MovesLong id (ids_of links.new) mini.old mini.new who
        × WritesIntoNewSectors Zero at bytes.now (allocator_of mini.old)
        (allocator_of mini.new) links.old
        links.new) }
    ensures refused_only_if { IsErrOf result InvalidData → IsNoChain links.old mini.old }
    ensures past { IsErrOf result InvalidInput → len_of links.old < at }
    ensures size { OnOk result (length (ids_of links.new) ≡ max (length (ids_of links.old))
        (sectors_for (links_version links.old) (at + length bytes.now))) }
    ensures kept { OnErr result (has_failed_here (allocator_of mini.new) ≡ false
        → ids_of links.new ≡ ids_of links.old) }
    ensures version { links_version links.new ≡ links_version links.old }
    ensures after_error { OnErr result ((has_failed_here (allocator_of mini.new) ≡ true)
        ⊎ KeepsOwnership mini.old mini.new) }
    ensures full_only_if { IsErrOf result Full → has_failed_here (allocator_of mini.new) ≡ false
        → LacksSectors (allocator_of mini.old) links.old
        (sectors_for (links_version links.old) (at + length bytes.now)) }
    ensures invariants { KeepsFileInvariants (allocator_of mini.old) (allocator_of mini.new) }
    ensures error_contract { FatErrorContract IsInvalidPlaceOrFull result (allocator_of mini.old)
        (allocator_of mini.new) }
{
    write_chain(mini.allocator_mut(), links, at, bytes, SectorInit::Zero)
}

// Writes bytes of a long stream from a place in it on to its end or behind it, where its chain has no sector that it doesn't need. After
// an error nothing is changed, or it has failed.
pub(crate) fn outgrow<F: Medium>(
    mini: &mut MiniAllocator<F>,
    links: &mut Links,
    size: u64,
    at: u64,
    bytes: &[u8],
) -> Result<(), Error>
    requires from { at ≤ size }
    requires past { size ≤ at + length bytes.now }
    requires tight { length (ids_of links.old) ≤ sectors_for (links_version links.old) size }
    ensures outgrown { OnOk result (Outgrows size at bytes.now mini.old mini.new links.old
        links.new) }
    ensures refused_only_if { IsErrOf result InvalidData → IsNoChain links.old mini.old }
    ensures past { IsErrOf result InvalidInput → len_of links.old < at }
    ensures kept { OnErr result (has_failed_here (allocator_of mini.new) ≡ false
        → ids_of links.new ≡ ids_of links.old) }
    ensures version { links_version links.new ≡ links_version links.old }
    ensures after_error { OnErr result ((has_failed_here (allocator_of mini.new) ≡ true)
        ⊎ KeepsOwnership mini.old mini.new) }
    ensures full_only_if { IsErrOf result Full → has_failed_here (allocator_of mini.new) ≡ false
        → LacksSectors (allocator_of mini.old) links.old
        (sectors_for (links_version links.old) (at + length bytes.now)) }
    ensures invariants { KeepsFileInvariants (allocator_of mini.old) (allocator_of mini.new) }
    ensures error_contract { FatErrorContract IsInvalidPlaceOrFull result (allocator_of mini.old)
        (allocator_of mini.new) }
{
    write_on(mini, links, at, bytes)
}

// Whether a chain has just the sectors that so many bytes need.
fn is_tight(links: &Links, size: u64) -> bool
    ensures { IsTrue result ↔ (length (ids_of links.now)
        ≡ sectors_for (links_version links.now) size) }
{
    let len = links.version().sector_len() as u64;
    size.div_ceil(len) == links.sector_ids().len() as u64
}

/// Whether bytes from a place on, which end there, can be written to the stream of this entry and these sectors by `outgrow_stream`:
/// they begin in it and end at its end or behind it, and its chain has just the sectors that it needs; or it is a short one, and they
/// are all that it has then, 4096 or more.
pub fn can_outgrow<F: Medium>(
    mini: &MiniAllocator<F>,
    id: u32,
    links: &StreamLinks,
    at: u64,
    end: u64,
) -> bool
    ensures { IsTrue result → CanOutgrow id links.now at end mini.now }
{
    match links {
        StreamLinks::Short(_) => at == 0 && end >= u64::from(MINI_STREAM_CUTOFF),
        StreamLinks::Long(links) => {
            if id as usize >= mini.directory().dir_entries().len() {
                return false;
            }
            let size = mini.directory().dir_entry(id).stream_len;
            at <= size && size <= end && is_tight(links, size)
        }
    }
}

// Writes bytes of the long stream that has this entry and these sectors from a place in it on to its end or behind it. After an error
// nothing is changed, or the file has failed.
fn outgrow_long_stream<F: Medium>(
    mini: &mut MiniAllocator<F>,
    id: u32,
    links: &mut Links,
    at: u64,
    bytes: &[u8],
    end: u64,
) -> Result<(), Error>
    requires ends { end ≡ at + length bytes.now }
    requires can { CanOutgrow id (Long links.old) at end mini.old }
    ensures outgrown { OnOk result (RewritesIn id
        (λ content. overwritten (resized end content) at bytes.now) (Long links.old)
        (Long links.new) mini.old mini.new) }
    ensures kept { OnErr result (has_failed_here (allocator_of mini.new) ≡ false
        → AreAlike (Long links.old) (Long links.new)) }
    ensures large { IsErrOf result InvalidInput
        → stream_len_mask (version_of (allocator_of mini.old)) < end }
    ensures refused_only_if { IsErrOf result InvalidData → HasNoLinks id (Long links.old) mini.old }
    ensures after_error { OnErr result ((has_failed_here (allocator_of mini.new) ≡ true)
        ⊎ KeepsOwnership mini.old mini.new) }
    ensures full_only_if { IsErrOf result Full → has_failed_here (allocator_of mini.new) ≡ false
        → LacksRoomFor id (Long links.old) end mini.old }
    ensures invariants { KeepsFileInvariants (allocator_of mini.old) (allocator_of mini.new) }
    ensures error_contract { FatErrorContract IsInvalidPlaceOrFull result (allocator_of mini.old)
        (allocator_of mini.new) }
{
    if mini.directory().allocator().is_failed() {
        return Err(Error::Failed);
    }
    if id as usize >= mini.directory().dir_entries().len() {
        return Err(Error::InvalidData);
    }
    if end > mini.version().stream_len_mask() {
        return Err(Error::InvalidInput);
    }
    let size = mini.directory().dir_entry(id).stream_len;
    if let Err(error) = outgrow(mini, links, size, at, bytes) {
        return Err(error);
    }
    if let Err(error) = set_place(mini, id, first_sector(links), end) {
        return Err(error);
    }
    Ok(())
}

// Gives the short stream that has this entry and these mini sectors these bytes, 4096 or more, in sectors, and frees its mini sectors.
// After an error nothing is changed, or the file has failed.
fn outgrow_short_stream<F: Medium>(
    alloc: Global,
    mini: &mut MiniAllocator<F>,
    id: u32,
    minis: &mut MiniLinks,
    bytes: &[u8],
) -> Result<Links, Error>
    requires long { mini_cutoff ≤ length bytes.now }
    ensures outgrown { IfOk result (λ home. RewritesIn id
        (λ content. overwritten (resized (length bytes.now) content) 0 bytes.now)
        (Short minis.old) (Long home) mini.old mini.new) }
    ensures kept { OnErr result (has_failed_here (allocator_of mini.new) ≡ false
        → minis_of minis.new ≡ minis_of minis.old) }
    ensures large { IsErrOf result InvalidInput
        → stream_len_mask (version_of (allocator_of mini.old)) < length bytes.now }
    ensures refused_only_if { IsErrOf result InvalidData
        → HasNoLinks id (Short minis.old) mini.old }
    ensures after_error { OnErr result ((has_failed_here (allocator_of mini.new) ≡ true)
        ⊎ KeepsOwnership mini.old mini.new) }
    ensures full_only_if { IsErrOf result Full → has_failed_here (allocator_of mini.new) ≡ false
        → LacksRoomFor id (Short minis.old) (length bytes.now) mini.old }
    ensures invariants { KeepsFileInvariants (allocator_of mini.old) (allocator_of mini.new) }
    ensures error_contract { FatErrorContract IsInvalidPlaceOrFull result (allocator_of mini.old)
        (allocator_of mini.new) }
{
    if mini.directory().allocator().is_failed() {
        return Err(Error::Failed);
    }
    if id as usize >= mini.directory().dir_entries().len() {
        return Err(Error::InvalidData);
    }
    move_to_sectors(alloc, mini, id, minis, bytes, bytes.len() as u64)
}

/// Writes bytes of the stream that has this entry and these sectors from a place on, where `can_outgrow` says so: the sectors that it
/// takes in hold them at once. The links are the stream's afterwards. `InvalidInput` where the size doesn't fit into an entry (in
/// version 3 past 2^32 - 1), and then nothing is changed; `InvalidData` where no such stream is there, or the file hasn't its sectors;
/// `Full` where numbers are missing for the further sectors that it needs. The other errors are `Memory`, `Device`, and `Failed` after
/// an earlier fault. After an error nothing is changed, or the file has failed ([MS-CFB] 2.3, 2.6.3).
pub fn outgrow_stream<F: Medium>(
    alloc: Global,
    mini: &mut MiniAllocator<F>,
    id: u32,
    links: &mut StreamLinks,
    at: u64,
    bytes: &[u8],
    end: u64,
) -> Result<(), Error>
    requires ends { end ≡ at + length bytes.now }
    requires can { CanOutgrow id links.old at end mini.old }
    ensures outgrown { OnOk result (RewritesIn id
        (λ content. overwritten (resized end content) at bytes.now) links.old links.new
        mini.old mini.new) }
    ensures kept { OnErr result (has_failed_here (allocator_of mini.new) ≡ false
        → AreAlike links.old links.new) }
    ensures large { IsErrOf result InvalidInput
        → stream_len_mask (version_of (allocator_of mini.old)) < end }
    ensures refused_only_if { IsErrOf result InvalidData → HasNoLinks id links.old mini.old }
    ensures after_error { OnErr result ((has_failed_here (allocator_of mini.new) ≡ true)
        ⊎ KeepsOwnership mini.old mini.new) }
    ensures full_only_if { IsErrOf result Full → has_failed_here (allocator_of mini.new) ≡ false
        → LacksRoomFor id links.old end mini.old }
    ensures invariants { KeepsFileInvariants (allocator_of mini.old) (allocator_of mini.new) }
    ensures error_contract { FatErrorContract IsInvalidPlaceOrFull result (allocator_of mini.old)
        (allocator_of mini.new) }
{
    match links {
        StreamLinks::Long(long) => outgrow_long_stream(mini, id, long, at, bytes, end),
        StreamLinks::Short(minis) => match outgrow_short_stream(alloc, mini, id, minis, bytes) {
            Ok(home) => {
                *links = StreamLinks::Long(home);
                Ok(())
            }
            Err(error) => Err(error),
        },
    }
}
