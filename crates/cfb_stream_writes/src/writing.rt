//! Long streams, written over and made longer or shorter ([MS-CFB] 2.6.3).
ghost use Rattle.cfb_chains.specs.ChainCalls.{IsInvalidPlace};
ghost use Rattle.cfb_chains.specs.LinkViews.{ids_of};
ghost use Rattle.cfb_fat.specs.Calls.{FatErrorContract};
ghost use Rattle.cfb_fat.specs.Tables.{has_failed_here, version_of};
ghost use Rattle.cfb_medium.specs.Bytes.{overwritten};
ghost use Rattle.cfb_medium.specs.Versions.{stream_len_mask};
ghost use Rattle.cfb_medium.specs.declared.error.Error.TheVariants.{Full, InvalidData, InvalidInput};
ghost use Rattle.cfb_mini.specs.Changing.{KeepsOwnership};
ghost use Rattle.cfb_mini.specs.Views.{allocator_of};
ghost use Rattle.cfb_chain_io.specs.ChainEffects.{KeepsFileInvariants, IsInvalidPlaceOrFull};
ghost use Rattle.cfb_ownership.specs.Owners.{first_of};
ghost use Rattle.cfb_sectors.specs.Header.{mini_cutoff};
ghost use Rattle.cfb_stream_reads.specs.declared.opening.StreamLinks.TheVariants.{Long};
ghost use Rattle.cfb_stream_writes.specs.Streams.{resized, AreAlike, HasNoLinks, IsPast, LacksRoomFor, RewritesIn};
ghost use Rattle.std.specs.Prelude.{false, length, true, IsErrOf, IsTrue, OnErr, OnOk, ◌+◌, ◌<◌, ◌≡◌, ◌≤◌, ◌↔◌, ◌⊎◌};

use crate::lengths::stretch_long;
use crate::overwriting::overwrite_long;
use crate::placing::set_place;
use cfb_chains::Links;
use cfb_medium::{Error, Medium};
use cfb_mini::MiniAllocator;
use cfb_sectors::{END_OF_CHAIN, HasSectors};

// Whether so many bytes from a place on lie in a stream of this size.
pub(crate) fn lies_in(size: u64, at: u64, count: usize) -> bool
    ensures { IsTrue result ↔ (at + count ≤ size) }
{
    match at.checked_add(count as u64) {
        Some(end) => end <= size,
        None => false,
    }
}

/// Writes over bytes of the long stream that has this entry and these sectors, from a place on. `InvalidInput` where they don't lie
/// in the stream, and then nothing is changed; `InvalidData` where no such stream is there, or the file hasn't its sectors. The
/// other errors are `Memory`, `Device`, and `Failed` after an earlier fault. After an error nothing is changed, or the file has
/// failed ([MS-CFB] 2.3).
pub fn overwrite_long_stream<F: Medium>(
    mini: &mut MiniAllocator<F>,
    id: u32,
    links: &Links,
    at: u64,
    bytes: &[u8],
) -> Result<(), Error>
    ensures written { OnOk result (RewritesIn id (λ content. overwritten content at bytes.now)
        (Long links.now) (Long links.now) mini.old mini.new) }
    ensures past { IsErrOf result InvalidInput
        → IsPast id (Long links.now) at (length bytes.now) mini.old }
    ensures refused_only_if { IsErrOf result InvalidData → HasNoLinks id (Long links.now) mini.old }
    ensures after_error { OnErr result ((has_failed_here (allocator_of mini.new) ≡ true)
        ⊎ KeepsOwnership mini.old mini.new) }
    ensures invariants { KeepsFileInvariants (allocator_of mini.old) (allocator_of mini.new) }
    ensures error_contract { FatErrorContract IsInvalidPlace result (allocator_of mini.old)
        (allocator_of mini.new) }
{
    if mini.directory().allocator().is_failed() {
        return Err(Error::Failed);
    }
    if id as usize >= mini.directory().dir_entries().len() {
        return Err(Error::InvalidData);
    }
    if !lies_in(mini.directory().dir_entry(id).stream_len, at, bytes.len()) {
        return Err(Error::InvalidInput);
    }
    if let Err(error) = overwrite_long(mini, links, at, bytes) {
        return Err(error);
    }
    Ok(())
}

// The first of a chain's sectors; "end of chain" where there is none.
pub(crate) fn first_sector(links: &Links) -> u32
    ensures { result ≡ first_of (ids_of links.now) }
{
    match links.sector_ids().first() {
        Some(sector_id) => *sector_id,
        None => END_OF_CHAIN,
    }
}

/// Makes the long stream that has this entry and these sectors so many bytes long, which are at least 4096: it keeps its first
/// bytes, and has zeros behind them. `InvalidInput` where the size doesn't fit into an entry (in version 3 past 2^32 - 1), and
/// then nothing is changed; `InvalidData` where no such stream is there, or the file hasn't its sectors; `Full` where numbers are
/// missing for the further sectors that it needs. The other errors are `Memory`, `Device`, and `Failed` after an earlier fault.
/// After an error nothing is changed, or the file has failed ([MS-CFB] 2.3).
pub fn resize_long_stream<F: Medium>(
    mini: &mut MiniAllocator<F>,
    id: u32,
    links: &mut Links,
    len: u64,
) -> Result<(), Error>
    requires { mini_cutoff ≤ len }
    ensures resized { OnOk result (RewritesIn id (resized len) (Long links.old) (Long links.new)
        mini.old mini.new) }
    ensures kept { OnErr result (has_failed_here (allocator_of mini.new) ≡ false
        → AreAlike (Long links.old) (Long links.new)) }
    ensures large { IsErrOf result InvalidInput
        → stream_len_mask (version_of (allocator_of mini.old)) < len }
    ensures refused_only_if { IsErrOf result InvalidData → HasNoLinks id (Long links.old) mini.old }
    ensures after_error { OnErr result ((has_failed_here (allocator_of mini.new) ≡ true)
        ⊎ KeepsOwnership mini.old mini.new) }
    ensures full_only_if { IsErrOf result Full → has_failed_here (allocator_of mini.new) ≡ false
        → LacksRoomFor id (Long links.old) len mini.old }
    ensures invariants { KeepsFileInvariants (allocator_of mini.old) (allocator_of mini.new) }
    ensures error_contract { FatErrorContract IsInvalidPlaceOrFull result (allocator_of mini.old)
        (allocator_of mini.new) }
{
    if mini.directory().allocator().is_failed() {
        return Err(Error::Failed);
    }
    if id as usize >= mini.directory().dir_entries().len() {
        return Err(Error::InvalidData);
    }
    if len > mini.version().stream_len_mask() {
        return Err(Error::InvalidInput);
    }
    let size = mini.directory().dir_entry(id).stream_len;
    if let Err(error) = stretch_long(mini, links, size, len) {
        return Err(error);
    }
    if let Err(error) = set_place(mini, id, first_sector(links), len) {
        return Err(error);
    }
    Ok(())
}
