//! Short streams that come to 4096 bytes or more: they take sectors before they give up their mini sectors ([MS-CFB] 2.4, 2.6.3).
ghost use Rattle.cfb_directory.specs.Views.{entries_held};
ghost use Rattle.cfb_fat.specs.Calls.{FatErrorContract};
ghost use Rattle.cfb_fat.specs.Tables.{has_failed_here, version_of};
ghost use Rattle.cfb_medium.specs.Versions.{stream_len_mask};
ghost use Rattle.cfb_medium.specs.declared.error.Error.TheVariants.{Full, InvalidData, InvalidInput};
ghost use Rattle.cfb_mini.specs.Changing.{KeepsOwnership};
ghost use Rattle.cfb_mini.specs.LinkViews.{minis_of};
ghost use Rattle.cfb_mini.specs.Views.{allocator_of, directory_of};
ghost use Rattle.cfb_chain_io.specs.ChainEffects.{KeepsFileInvariants, IsInvalidPlaceOrFull};
ghost use Rattle.cfb_sectors.specs.Header.{mini_cutoff};
ghost use Rattle.cfb_stream_reads.specs.declared.opening.StreamLinks.TheVariants.{Long, Short};
ghost use Rattle.cfb_stream_writes.specs.Streams.{resized, AreAlike, HasNoLinks, IsShortStream, LacksRoomFor, LacksSectorsFor, RewritesIn};
ghost use Rattle.std.specs.Prelude.{false, length, true, IfOk, IsErrOf, OnErr, OnOk, ◌<◌, ◌≡◌, ◌≤◌, ◌⊎◌};

use crate::moving::read_front;
use crate::placing::set_place;
use crate::taking::take_long;
use crate::writing::first_sector;
use cfb_chains::Links;
use cfb_medium::{Error, Medium};
use cfb_mini::{MiniAllocator, MiniLinks};
use cfb_sectors::{HasSectors, MINI_STREAM_CUTOFF};
use cfb_stream_reads::StreamLinks;
use std::alloc::Global;

// Gives the short stream that has this entry and these mini sectors these bytes, and zeros behind them up to so many, at least 4096:
// it takes sectors, and then its mini sectors are free. So nothing is changed where numbers of sectors or memory are missing. After
// an error nothing is changed, or the file has failed.
pub(crate) fn move_to_sectors<F: Medium>(
    alloc: Global,
    mini: &mut MiniAllocator<F>,
    id: u32,
    minis: &mut MiniLinks,
    bytes: &[u8],
    len: u64,
) -> Result<Links, Error>
    requires there { id < length (entries_held (directory_of mini.old)) }
    requires long { mini_cutoff ≤ len }
    requires fits { length bytes.now ≤ len }
    ensures moved { IfOk result (λ links. RewritesIn id (λ content. resized len bytes.now)
        (Short minis.old) (Long links) mini.old mini.new) }
    ensures kept { OnErr result (has_failed_here (allocator_of mini.new) ≡ false
        → minis_of minis.new ≡ minis_of minis.old) }
    ensures large { IsErrOf result InvalidInput
        → stream_len_mask (version_of (allocator_of mini.old)) < len }
    ensures refused_only_if { IsErrOf result InvalidData
        → HasNoLinks id (Short minis.old) mini.old }
    ensures after_error { OnErr result ((has_failed_here (allocator_of mini.new) ≡ true)
        ⊎ KeepsOwnership mini.old mini.new) }
    ensures full_only_if { IsErrOf result Full → has_failed_here (allocator_of mini.new) ≡ false
        → LacksSectorsFor mini.old 0 len }
    ensures invariants { KeepsFileInvariants (allocator_of mini.old) (allocator_of mini.new) }
    ensures error_contract { FatErrorContract IsInvalidPlaceOrFull result (allocator_of mini.old)
        (allocator_of mini.new) }
{
    let links = match take_long(alloc, mini, bytes, len) {
        Ok(links) => links,
        Err(error) => return Err(error),
    };
    if let Err(error) = mini.free_mini_chain(minis) {
        mini.fail();
        return Err(error);
    }
    if let Err(error) = set_place(mini, id, first_sector(&links), len) {
        return Err(error);
    }
    Ok(links)
}

// Makes the short stream that has this entry and these mini sectors so many bytes long, at least 4096: it has its bytes and zeros
// behind them, in sectors that it takes before its mini sectors are freed. After an error nothing is changed, or the file has
// failed.
pub(crate) fn lengthen_short<F: Medium>(
    alloc: Global,
    mini: &mut MiniAllocator<F>,
    id: u32,
    links: &mut StreamLinks,
    len: u64,
) -> Result<(), Error>
    requires long { mini_cutoff ≤ len }
    requires short { IsShortStream links.old }
    ensures resized { OnOk result (RewritesIn id (resized len) links.old links.new
        mini.old mini.new) }
    ensures kept { OnErr result (has_failed_here (allocator_of mini.new) ≡ false
        → AreAlike links.old links.new) }
    ensures large { IsErrOf result InvalidInput
        → stream_len_mask (version_of (allocator_of mini.old)) < len }
    ensures refused_only_if { IsErrOf result InvalidData → HasNoLinks id links.old mini.old }
    ensures after_error { OnErr result ((has_failed_here (allocator_of mini.new) ≡ true)
        ⊎ KeepsOwnership mini.old mini.new) }
    ensures full_only_if { IsErrOf result Full → has_failed_here (allocator_of mini.new) ≡ false
        → LacksRoomFor id links.old len mini.old }
    ensures invariants { KeepsFileInvariants (allocator_of mini.old) (allocator_of mini.new) }
    ensures error_contract { FatErrorContract IsInvalidPlaceOrFull result (allocator_of mini.old)
        (allocator_of mini.new) }
{
    if mini.directory().allocator().is_failed() {
        return Err(Error::Failed);
    }
    if id as usize >= mini.directory().dir_entries().len() {
        return Err(Error::InvalidData);
    }
    let size = mini.directory().dir_entry(id).stream_len;
    if size >= u64::from(MINI_STREAM_CUTOFF) {
        return Err(Error::InvalidData);
    }
    let bytes = match read_front(alloc, mini, links, size, size) {
        Ok(bytes) => bytes,
        Err(error) => return Err(error),
    };
    let StreamLinks::Short(minis) = links else {
        return Err(Error::InvalidData);
    };
    match move_to_sectors(alloc, mini, id, minis, &bytes, len) {
        Ok(home) => {
            *links = StreamLinks::Long(home);
            Ok(())
        }
        Err(error) => Err(error),
    }
}
