//! Long streams that come below 4096 bytes: they take mini sectors before they give up their sectors ([MS-CFB] 2.4, 2.6.3).
ghost use Rattle.cfb_chains.specs.ChainCalls.{IsInvalidPlace};
ghost use Rattle.cfb_directory.specs.Views.{entries_held};
ghost use Rattle.cfb_fat.specs.Calls.{FatErrorContract};
ghost use Rattle.cfb_fat.specs.Tables.{has_failed_here, version_of, IsJustifiedBySectors};
ghost use Rattle.cfb_tree_edits.specs.Freeing.{HasFileInvariant};
ghost use Rattle.cfb_medium.specs.Calls.{IsFaultOrInvalidInputIf};
ghost use Rattle.cfb_medium.specs.Versions.{stream_len_mask};
ghost use Rattle.cfb_medium.specs.declared.error.Error.TheVariants.{Full, InvalidData, InvalidInput};
ghost use Rattle.cfb_mini.specs.Changing.{KeepsOwnership, LacksMiniSectors};
ghost use Rattle.cfb_mini.specs.Minis.{minis_for};
ghost use Rattle.cfb_mini.specs.Views.{allocator_of, directory_of, OnlyReadsMini};
ghost use Rattle.cfb_chain_io.specs.ChainEffects.{KeepsFileInvariants, IsInvalidPlaceOrFull};
ghost use Rattle.cfb_ownership.specs.Owners.{Owners};
ghost use Rattle.cfb_sectors.specs.Header.{mini_cutoff};
ghost use Rattle.cfb_stream_reads.specs.Content.{SectorsHaveContent};
ghost use Rattle.cfb_stream_reads.specs.declared.opening.StreamLinks.TheVariants.{Long, Short};
ghost use Rattle.cfb_stream_writes.specs.Streams.{resized, AreAlike, HasNoLinks, IsShortStream, LacksRoomFor, RewritesIn};
ghost use Rattle.std.specs.Prelude.{false, length, take, true, IfErr, IfOk, IsErrOf, List, OnErr, OnOk, ℕ, ◌<◌, ◌≡◌, ◌≤◌, ◌⊎◌};

use crate::lengths::resize_chain;
use crate::placing::set_place;
use crate::taking::take_short;
use cfb_chains::Links;
use cfb_medium::{Error, Medium};
use cfb_mini::{MiniAllocator, MiniLinks};
use cfb_sectors::HasSectors;
use cfb_stream_reads::{StreamLinks, read_stream};
use std::alloc::Global;

// The first bytes of a stream. `InvalidData` where it hasn't its sectors. Nothing is changed.
fn read_first<F: Medium>(
    alloc: Global,
    mini: &mut MiniAllocator<F>,
    links: &StreamLinks,
    count: usize,
) -> Result<Vec<u8>, Error>
    ensures read { IfOk result (λ bytes. (size : ℕ) (content : List ℕ)
        → SectorsHaveContent mini.old links.now size content → length content ≡ size → count ≤ size
        → bytes.items ≡ take count content) }
    ensures refused_only_if { IsErrOf result InvalidData → (size : ℕ) (content : List ℕ)
        → SectorsHaveContent mini.old links.now size content → count ≤ size → ⊥ }
    ensures only_reads { OnlyReadsMini mini.old mini.new }
    ensures cause { IfErr result
        (IsJustifiedBySectors (allocator_of mini.old) (allocator_of mini.new)) }
    ensures errors { IfErr result (λ e. IsFaultOrInvalidInputIf ⊥ e ⊎ IsInvalidPlace e) }
    ensures large { IsErrOf result InvalidInput → (size : ℕ) (content : List ℕ)
        → SectorsHaveContent mini.old links.now size content → count ≤ size → ⊥ }
{
    let mut bytes = Vec::new(alloc);
    bytes.resize(count, 0)?;
    read_stream(mini, links, 0, &mut bytes)?;
    Ok(bytes)
}

// So many bytes of a stream of this size: its first, and zeros behind them. `InvalidData` where it hasn't its sectors. Nothing is
// changed.
pub(crate) fn read_front<F: Medium>(
    alloc: Global,
    mini: &mut MiniAllocator<F>,
    links: &StreamLinks,
    size: u64,
    count: u64,
) -> Result<Vec<u8>, Error>
    ensures read { IfOk result (λ bytes. (content : List ℕ)
        → SectorsHaveContent mini.old links.now size content → length content ≡ size
        → bytes.items ≡ resized count content) }
    ensures len { IfOk result (λ bytes. length bytes.items ≡ count) }
    ensures refused_only_if { IsErrOf result InvalidData → (content : List ℕ)
        → SectorsHaveContent mini.old links.now size content → ⊥ }
    ensures only_reads { OnlyReadsMini mini.old mini.new }
    ensures cause { IfErr result
        (IsJustifiedBySectors (allocator_of mini.old) (allocator_of mini.new)) }
    ensures errors { IfErr result (λ e. IsFaultOrInvalidInputIf ⊥ e ⊎ (e ≡ InvalidData)) }
{
    let mut bytes = match read_first(alloc, mini, links, size.min(count) as usize) {
        Ok(bytes) => bytes,
        Err(Error::InvalidInput) => return Err(Error::InvalidData),
        Err(error) => return Err(error),
    };
    bytes.resize(count as usize, 0)?;
    Ok(bytes)
}

// Gives the long stream that has this entry and these sectors these bytes, fewer than 4096, in place of its own: it takes mini
// sectors, and then its sectors are free. So nothing is changed where nothing is left for mini sectors. After an error nothing is
// changed, or the file has failed.
fn move_to_minis<F: Medium>(
    alloc: Global,
    mini: &mut MiniAllocator<F>,
    id: u32,
    links: &mut Links,
    bytes: &[u8],
) -> Result<MiniLinks, Error>
    requires there { id < length (entries_held (directory_of mini.old)) }
    requires short { length bytes.now < mini_cutoff }
    ensures moved { IfOk result (λ home. RewritesIn id (λ content. bytes.now)
        (Long links.old) (Short home) mini.old mini.new) }
    ensures kept { OnErr result (has_failed_here (allocator_of mini.new) ≡ false
        → AreAlike (Long links.old) (Long links.new)) }
    ensures large { IsErrOf result InvalidInput
        → stream_len_mask (version_of (allocator_of mini.old)) < length bytes.now }
    ensures refused_only_if { IsErrOf result InvalidData → HasNoLinks id (Long links.old) mini.old }
    ensures after_error { OnErr result ((has_failed_here (allocator_of mini.new) ≡ true)
        ⊎ KeepsOwnership mini.old mini.new) }
    ensures full_only_if { IsErrOf result Full → has_failed_here (allocator_of mini.new) ≡ false
        → (who : Owners) → HasFileInvariant mini.old who
        → LacksMiniSectors (minis_for (length bytes.now)) mini.old }
    ensures invariants { KeepsFileInvariants (allocator_of mini.old) (allocator_of mini.new) }
    ensures error_contract { FatErrorContract IsInvalidPlaceOrFull result (allocator_of mini.old)
        (allocator_of mini.new) }
{
    let home = match take_short(alloc, mini, bytes) {
        Ok(home) => home,
        Err(error) => return Err(error),
    };
    if let Err(error) = resize_chain(mini, links, 0) {
        mini.fail();
        return Err(error);
    }
    if let Err(error) = set_place(mini, id, home.start_sector_id(), bytes.len() as u64) {
        return Err(error);
    }
    Ok(home)
}

// Makes the long stream that has this entry and these sectors so many bytes long, fewer than 4096: it keeps its first bytes, in mini
// sectors that it takes before its sectors are freed. After an error nothing is changed, or the file has failed.
pub(crate) fn shorten_long<F: Medium>(
    alloc: Global,
    mini: &mut MiniAllocator<F>,
    id: u32,
    links: &mut StreamLinks,
    len: u64,
) -> Result<(), Error>
    requires short { len < mini_cutoff }
    requires long { IsShortStream links.old → ⊥ }
    ensures resized { OnOk result (RewritesIn id (resized len) links.old links.new
        mini.old mini.new) }
    ensures kept { OnErr result (has_failed_here (allocator_of mini.new) ≡ false
        → AreAlike links.old links.new) }
    ensures large { IsErrOf result InvalidInput
        → stream_len_mask (version_of (allocator_of mini.old)) < len }
    ensures refused_only_if { IsErrOf result InvalidData → HasNoLinks id links.old mini.old }
    ensures after_error { OnErr result ((has_failed_here (allocator_of mini.new) ≡ true)
        ⊎ KeepsOwnership mini.old mini.new) }
    ensures full_only_if { IsErrOf result Full → has_failed_here (allocator_of mini.new) ≡ false
        → LacksRoomFor id links.old len mini.old }
    ensures invariants { KeepsFileInvariants (allocator_of mini.old) (allocator_of mini.new) }
    ensures error_contract { FatErrorContract IsInvalidPlaceOrFull result (allocator_of mini.old)
        (allocator_of mini.new) }
{
    if mini.directory().allocator().is_failed() {
        return Err(Error::Failed);
    }
    if id as usize >= mini.directory().dir_entries().len() {
        return Err(Error::InvalidData);
    }
    let size = mini.directory().dir_entry(id).stream_len;
    let bytes = match read_front(alloc, mini, links, size, len) {
        Ok(bytes) => bytes,
        Err(error) => return Err(error),
    };
    let StreamLinks::Long(long) = links else {
        return Err(Error::InvalidData);
    };
    match move_to_minis(alloc, mini, id, long, &bytes) {
        Ok(home) => {
            *links = StreamLinks::Short(home);
            Ok(())
        }
        Err(error) => Err(error),
    }
}
