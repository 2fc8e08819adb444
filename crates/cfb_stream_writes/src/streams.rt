//! Streams of both levels, written over and made longer or shorter ([MS-CFB] 2.4, 2.6.3).
ghost use Rattle.cfb_chains.specs.ChainCalls.{IsInvalidPlace};
ghost use Rattle.cfb_fat.specs.Calls.{FatErrorContract};
ghost use Rattle.cfb_fat.specs.Tables.{has_failed_here, version_of};
ghost use Rattle.cfb_medium.specs.Bytes.{overwritten};
ghost use Rattle.cfb_medium.specs.Versions.{stream_len_mask};
ghost use Rattle.cfb_medium.specs.declared.error.Error.TheVariants.{Full, InvalidData, InvalidInput};
ghost use Rattle.cfb_mini.specs.Changing.{KeepsOwnership};
ghost use Rattle.cfb_mini.specs.Views.{allocator_of};
ghost use Rattle.cfb_chain_io.specs.ChainEffects.{KeepsFileInvariants, IsInvalidPlaceOrFull};
ghost use Rattle.cfb_sectors.specs.Header.{mini_cutoff};
ghost use Rattle.cfb_stream_reads.specs.declared.opening.StreamLinks.TheVariants.{Short};
ghost use Rattle.cfb_stream_writes.specs.Streams.{resized, AreAlike, HasNoLinks, IsPast, IsPastNumbers, LacksRoomFor, RewritesIn};
ghost use Rattle.std.specs.Prelude.{false, length, true, IsErrOf, IsTrue, OnErr, OnOk, ◌<◌, ◌≡◌, ◌⊎◌, ◌↔◌};

use crate::lengthening::lengthen_short;
use crate::moving::shorten_long;
use crate::short_lengths::resize_short_stream;
use crate::writing::{lies_in, overwrite_long_stream, resize_long_stream};
use cfb_medium::{Error, Medium, Version};
use cfb_mini::{MiniAllocator, MiniLinks};
use cfb_sectors::{HasSectors, MAX_REGULAR_SECTOR, MINI_STREAM_CUTOFF};
use cfb_stream_reads::StreamLinks;
use std::alloc::Global;

// Writes over bytes of the short stream that has this entry and these mini sectors, from a place on. After an error nothing is
// changed, or the file has failed.
fn overwrite_short_stream<F: Medium>(
    mini: &mut MiniAllocator<F>,
    id: u32,
    links: &MiniLinks,
    at: u64,
    bytes: &[u8],
) -> Result<(), Error>
    ensures written { OnOk result (RewritesIn id (λ content. overwritten content at bytes.now)
        (Short links.now) (Short links.now) mini.old mini.new) }
    ensures past { IsErrOf result InvalidInput
        → IsPast id (Short links.now) at (length bytes.now) mini.old }
    ensures refused_only_if { IsErrOf result InvalidData
        → HasNoLinks id (Short links.now) mini.old }
    ensures after_error { OnErr result ((has_failed_here (allocator_of mini.new) ≡ true)
        ⊎ KeepsOwnership mini.old mini.new) }
    ensures invariants { KeepsFileInvariants (allocator_of mini.old) (allocator_of mini.new) }
    ensures error_contract { FatErrorContract IsInvalidPlace result (allocator_of mini.old)
        (allocator_of mini.new) }
{
    if mini.directory().allocator().is_failed() {
        return Err(Error::Failed);
    }
    if id as usize >= mini.directory().dir_entries().len() {
        return Err(Error::InvalidData);
    }
    if !lies_in(mini.directory().dir_entry(id).stream_len, at, bytes.len()) {
        return Err(Error::InvalidInput);
    }
    if let Err(error) = mini.overwrite_mini_chain(links, at, bytes) {
        return Err(error);
    }
    Ok(())
}

/// Writes over bytes of the stream that has this entry and these sectors, from a place on. `InvalidInput` where they don't lie in
/// the stream, and then nothing is changed; `InvalidData` where no such stream is there, or the file hasn't its sectors. The other
/// errors are `Memory`, `Device`, and `Failed` after an earlier fault. After an error nothing is changed, or the file has failed
/// ([MS-CFB] 2.3, 2.4).
pub fn overwrite_stream<F: Medium>(
    mini: &mut MiniAllocator<F>,
    id: u32,
    links: &StreamLinks,
    at: u64,
    bytes: &[u8],
) -> Result<(), Error>
    ensures written { OnOk result (RewritesIn id (λ content. overwritten content at bytes.now)
        links.now links.now mini.old mini.new) }
    ensures past { IsErrOf result InvalidInput
        → IsPast id links.now at (length bytes.now) mini.old }
    ensures refused_only_if { IsErrOf result InvalidData → HasNoLinks id links.now mini.old }
    ensures after_error { OnErr result ((has_failed_here (allocator_of mini.new) ≡ true)
        ⊎ KeepsOwnership mini.old mini.new) }
    ensures invariants { KeepsFileInvariants (allocator_of mini.old) (allocator_of mini.new) }
    ensures error_contract { FatErrorContract IsInvalidPlace result (allocator_of mini.old)
        (allocator_of mini.new) }
{
    match links {
        StreamLinks::Short(minis) => overwrite_short_stream(mini, id, minis, at, bytes),
        StreamLinks::Long(links) => overwrite_long_stream(mini, id, links, at, bytes),
    }
}

// Whether no file of the version has numbers for the sectors of so many bytes.
fn is_past_numbers(version: Version, len: u64) -> bool
    ensures { IsTrue result ↔ IsPastNumbers version len }
{
    len.div_ceil(version.sector_len() as u64) > u64::from(MAX_REGULAR_SECTOR) + 1
}

// Makes the stream that has this entry and these sectors so many bytes long, fewer than 4096: it keeps its first bytes, and has zeros
// behind them. After an error nothing is changed, or the file has failed.
fn resize_to_short<F: Medium>(
    alloc: Global,
    mini: &mut MiniAllocator<F>,
    id: u32,
    links: &mut StreamLinks,
    len: u64,
) -> Result<(), Error>
    requires { len < mini_cutoff }
    ensures resized { OnOk result (RewritesIn id (resized len) links.old links.new
        mini.old mini.new) }
    ensures kept { OnErr result (has_failed_here (allocator_of mini.new) ≡ false
        → AreAlike links.old links.new) }
    ensures large { IsErrOf result InvalidInput
        → stream_len_mask (version_of (allocator_of mini.old)) < len }
    ensures refused_only_if { IsErrOf result InvalidData → HasNoLinks id links.old mini.old }
    ensures after_error { OnErr result ((has_failed_here (allocator_of mini.new) ≡ true)
        ⊎ KeepsOwnership mini.old mini.new) }
    ensures full_only_if { IsErrOf result Full → has_failed_here (allocator_of mini.new) ≡ false
        → LacksRoomFor id links.old len mini.old }
    ensures invariants { KeepsFileInvariants (allocator_of mini.old) (allocator_of mini.new) }
    ensures error_contract { FatErrorContract IsInvalidPlaceOrFull result (allocator_of mini.old)
        (allocator_of mini.new) }
{
    match links {
        StreamLinks::Short(minis) => resize_short_stream(mini, id, minis, len),
        StreamLinks::Long(_) => shorten_long(alloc, mini, id, links, len),
    }
}

/// Makes the stream that has this entry and these sectors so many bytes long: it keeps its first bytes, and has zeros behind them.
/// A stream whose size comes to 4096 moves from mini sectors to sectors, and one whose size falls below it to mini sectors, which
/// it takes before it gives up those that it had. The links are the stream's afterwards. `InvalidInput` where the size doesn't fit
/// into an entry (in version 3 past 2^32 - 1), and then nothing is changed; `InvalidData` where no such stream is there, or the
/// file hasn't its sectors; `Full` where numbers are missing for the further sectors that it needs, or for those of a mini sector
/// more, or no room for the mini stream's size: a size for which no file has numbers is refused before anything is changed. The
/// other errors are `Memory`, `Device`, and `Failed` after an earlier fault. After an error nothing is changed, or the file has
/// failed ([MS-CFB] 2.2 to 2.4, 2.6.3).
pub fn resize_stream<F: Medium>(
    alloc: Global,
    mini: &mut MiniAllocator<F>,
    id: u32,
    links: &mut StreamLinks,
    len: u64,
) -> Result<(), Error>
    ensures resized { OnOk result (RewritesIn id (resized len) links.old links.new
        mini.old mini.new) }
    ensures kept { OnErr result (has_failed_here (allocator_of mini.new) ≡ false
        → AreAlike links.old links.new) }
    ensures large { IsErrOf result InvalidInput
        → stream_len_mask (version_of (allocator_of mini.old)) < len }
    ensures refused_only_if { IsErrOf result InvalidData → HasNoLinks id links.old mini.old }
    ensures after_error { OnErr result ((has_failed_here (allocator_of mini.new) ≡ true)
        ⊎ KeepsOwnership mini.old mini.new) }
    ensures full_only_if { IsErrOf result Full → has_failed_here (allocator_of mini.new) ≡ false
        → LacksRoomFor id links.old len mini.old }
    ensures spared { IsPastNumbers (version_of (allocator_of mini.old)) len
        → OnOk result ⊥ × KeepsOwnership mini.old mini.new }
    ensures invariants { KeepsFileInvariants (allocator_of mini.old) (allocator_of mini.new) }
    ensures error_contract { FatErrorContract IsInvalidPlaceOrFull result (allocator_of mini.old)
        (allocator_of mini.new) }
{
    if mini.directory().allocator().is_failed() {
        return Err(Error::Failed);
    }
    if len > mini.version().stream_len_mask() {
        return Err(Error::InvalidInput);
    }
    if is_past_numbers(mini.version(), len) {
        return Err(Error::Full);
    }
    if len < u64::from(MINI_STREAM_CUTOFF) {
        return resize_to_short(alloc, mini, id, links, len);
    }
    match links {
        StreamLinks::Long(long) => resize_long_stream(mini, id, long, len),
        StreamLinks::Short(_) => lengthen_short(alloc, mini, id, links, len),
    }
}
