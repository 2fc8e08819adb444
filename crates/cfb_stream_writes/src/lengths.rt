//! Long streams that become longer and shorter ([MS-CFB] 2.3, 2.6.3).
ghost use Rattle.cfb_chains.specs.ChainCalls.{IsInvalidOrFull, IsInvalidPlace};
ghost use Rattle.cfb_chains.specs.LinkViews.{ids_of, links_version};
ghost use Rattle.cfb_chains.specs.Positions.{sectors_for, tail_in};
ghost use Rattle.cfb_fat.specs.Calls.{FatErrorContract};
ghost use Rattle.cfb_fat.specs.Tables.{has_failed_here, version_of};
ghost use Rattle.cfb_tree_edits.specs.Freeing.{HasFileInvariant};
ghost use Rattle.cfb_medium.specs.declared.error.Error.TheVariants.{Full, InvalidData, InvalidInput};
ghost use Rattle.cfb_mini.specs.Changing.{KeepsOwnership};
ghost use Rattle.cfb_mini.specs.Views.{allocator_of};
ghost use Rattle.cfb_chain_io.specs.ChainEffects.{len_of, KeepsFileInvariants, LacksSectors, Overwrites, Resizes, TakesBytes};
ghost use Rattle.cfb_ownership.specs.Owners.{stream_owner, Owners};
ghost use Rattle.cfb_sectors.specs.declared.initial.SectorInit.TheVariants.{Zero};
ghost use Rattle.cfb_stream_writes.specs.Moving.{IsNoChain, MovesLong, Stretches};
ghost use Rattle.std.specs.Prelude.{false, length, replicate, true, IsErrOf, IsTrue, OnErr, OnOk, ℕ, ◌+◌, ◌<◌, ◌≡◌, ◌≤◌, ◌↔◌, ◌⊎◌};

use crate::overwriting::overwrite_long;
use cfb_chain_io::{lengthen_chain, set_chain_len};
use cfb_chains::Links;
use cfb_medium::{Error, Medium};
use cfb_mini::MiniAllocator;
use cfb_sectors::SectorInit;

// The bytes of a sector, at most.
const LONGEST: usize = 4096;

// Gives a long stream as many sectors as so many bytes need, of zeros where it takes them in. After an error nothing is changed, or
// it has failed.
pub(crate) fn resize_chain<F: Medium>(
    mini: &mut MiniAllocator<F>,
    links: &mut Links,
    len: u64,
) -> Result<(), Error>
    ensures resized { OnOk result ((who : Owners) (id : ℕ) → HasFileInvariant mini.old who
        → who.sectors (stream_owner id) ≡ ids_of links.old
        → links_version links.old ≡ version_of (allocator_of mini.old)
        → MovesLong id (ids_of links.new) mini.old mini.new who
        × Resizes Zero (sectors_for (links_version links.old) len) (allocator_of mini.old)
        (allocator_of mini.new) links.old links.new) }
    ensures refused_only_if { IsErrOf result InvalidData → IsNoChain links.old mini.old }
    ensures size { OnOk result (length (ids_of links.new)
        ≡ sectors_for (links_version links.old) len) }
    ensures kept { OnErr result (has_failed_here (allocator_of mini.new) ≡ false
        → ids_of links.new ≡ ids_of links.old) }
    ensures version { links_version links.new ≡ links_version links.old }
    ensures after_error { OnErr result ((has_failed_here (allocator_of mini.new) ≡ true)
        ⊎ KeepsOwnership mini.old mini.new) }
    ensures full_only_if { IsErrOf result Full → has_failed_here (allocator_of mini.new) ≡ false
        → LacksSectors (allocator_of mini.old) links.old
        (sectors_for (links_version links.old) len) }
    ensures invariants { KeepsFileInvariants (allocator_of mini.old) (allocator_of mini.new) }
    ensures error_contract { FatErrorContract IsInvalidOrFull result (allocator_of mini.old)
        (allocator_of mini.new) }
{
    set_chain_len(mini.allocator_mut(), links, len, SectorInit::Zero)
}

// Gives a long stream as many sectors as so many bytes need, where it has no more; those that it takes in hold these bytes in order, and
// zeros behind them. After an error nothing is changed, or it has failed.
pub(crate) fn take_in<F: Medium>(
    mini: &mut MiniAllocator<F>,
    links: &mut Links,
    len: u64,
    bytes: &[u8],
) -> Result<(), Error>
    requires { length (ids_of links.old) ≤ sectors_for (links_version links.old) len }
    ensures taken { OnOk result ((who : Owners) (id : ℕ) → HasFileInvariant mini.old who
        → who.sectors (stream_owner id) ≡ ids_of links.old
        → links_version links.old ≡ version_of (allocator_of mini.old)
        → MovesLong id (ids_of links.new) mini.old mini.new who
        × TakesBytes bytes.now (allocator_of mini.old) (allocator_of mini.new)
        links.old links.new) }
    ensures refused_only_if { IsErrOf result InvalidData → IsNoChain links.old mini.old }
    ensures size { OnOk result (length (ids_of links.new)
        ≡ sectors_for (links_version links.old) len) }
    ensures kept { OnErr result (has_failed_here (allocator_of mini.new) ≡ false
        → ids_of links.new ≡ ids_of links.old) }
    ensures version { links_version links.new ≡ links_version links.old }
    ensures after_error { OnErr result ((has_failed_here (allocator_of mini.new) ≡ true)
        ⊎ KeepsOwnership mini.old mini.new) }
    ensures full_only_if { IsErrOf result Full → has_failed_here (allocator_of mini.new) ≡ false
        → LacksSectors (allocator_of mini.old) links.old
        (sectors_for (links_version links.old) len) }
    ensures invariants { KeepsFileInvariants (allocator_of mini.old) (allocator_of mini.new) }
    ensures error_contract { FatErrorContract IsInvalidOrFull result (allocator_of mini.old)
        (allocator_of mini.new) }
{
    lengthen_chain(mini.allocator_mut(), links, len, bytes)
}

// Writes zeros behind so many bytes of a long stream, up to the end of the sector in which they end. After an error nothing is
// changed, or it has failed.
fn zero_tail<F: Medium>(mini: &mut MiniAllocator<F>, links: &Links, size: u64) -> Result<(), Error>
    ensures written { OnOk result ((who : Owners) (id : ℕ) → HasFileInvariant mini.old who
        → who.sectors (stream_owner id) ≡ ids_of links.now
        → links_version links.now ≡ version_of (allocator_of mini.old)
        → MovesLong id (ids_of links.now) mini.old mini.new who
        × Overwrites size (replicate (tail_in (links_version links.now) size) 0)
        (allocator_of mini.old) (allocator_of mini.new) links.now) }
    ensures refused_only_if { IsErrOf result InvalidData → IsNoChain links.now mini.old }
    ensures past { IsErrOf result InvalidInput
        → len_of links.now < size + tail_in (links_version links.now) size }
    ensures invariants { KeepsFileInvariants (allocator_of mini.old) (allocator_of mini.new) }
    ensures error_contract { FatErrorContract IsInvalidPlace result (allocator_of mini.old)
        (allocator_of mini.new) }
{
    let len = links.version().sector_len();
    let tail = (len - (size % len as u64) as usize) % len;
    let zeros = [0; LONGEST];
    overwrite_long(mini, links, size, &zeros[..tail])
}

// As `stretch_long`: the chain is cut to the sectors that the old size needs, and zeros are written behind that, before it gets
// another length. So it serves a chain that is longer than its stream, with old bytes in it.
fn cut_and_lengthen<F: Medium>(
    mini: &mut MiniAllocator<F>,
    links: &mut Links,
    size: u64,
    len: u64,
) -> Result<(), Error>
    ensures stretched { OnOk result (Stretches size len mini.old mini.new links.old links.new) }
    ensures refused_only_if { IsErrOf result InvalidData → IsNoChain links.old mini.old }
    ensures kept { OnErr result (has_failed_here (allocator_of mini.new) ≡ false
        → ids_of links.new ≡ ids_of links.old) }
    ensures version { links_version links.new ≡ links_version links.old }
    ensures after_error { OnErr result ((has_failed_here (allocator_of mini.new) ≡ true)
        ⊎ KeepsOwnership mini.old mini.new) }
    ensures full_only_if { IsErrOf result Full → has_failed_here (allocator_of mini.new) ≡ false
        → LacksSectors (allocator_of mini.old) links.old
        (sectors_for (links_version links.old) size) }
    ensures invariants { KeepsFileInvariants (allocator_of mini.old) (allocator_of mini.new) }
    ensures error_contract { FatErrorContract IsInvalidOrFull result (allocator_of mini.old)
        (allocator_of mini.new) }
{
    if let Err(error) = resize_chain(mini, links, size) {
        return Err(error);
    }
    if let Err(error) = zero_tail(mini, links, size) {
        mini.fail();
        return Err(error);
    }
    if let Err(error) = resize_chain(mini, links, len) {
        mini.fail();
        return Err(error);
    }
    Ok(())
}

// As `stretch_long`, for a stream that becomes longer and whose chain has no sector that it doesn't need: this takes in the others
// first, which are zeros, so that nothing is changed where their numbers are missing.
fn lengthen_long<F: Medium>(
    mini: &mut MiniAllocator<F>,
    links: &mut Links,
    size: u64,
    len: u64,
) -> Result<(), Error>
    requires more { size ≤ len }
    requires tight { length (ids_of links.old) ≤ sectors_for (links_version links.old) size }
    ensures stretched { OnOk result (Stretches size len mini.old mini.new links.old links.new) }
    ensures refused_only_if { IsErrOf result InvalidData → IsNoChain links.old mini.old }
    ensures kept { OnErr result (has_failed_here (allocator_of mini.new) ≡ false
        → ids_of links.new ≡ ids_of links.old) }
    ensures version { links_version links.new ≡ links_version links.old }
    ensures after_error { OnErr result ((has_failed_here (allocator_of mini.new) ≡ true)
        ⊎ KeepsOwnership mini.old mini.new) }
    ensures full_only_if { IsErrOf result Full → has_failed_here (allocator_of mini.new) ≡ false
        → LacksSectors (allocator_of mini.old) links.old
        (sectors_for (links_version links.old) len) }
    ensures invariants { KeepsFileInvariants (allocator_of mini.old) (allocator_of mini.new) }
    ensures error_contract { FatErrorContract IsInvalidOrFull result (allocator_of mini.old)
        (allocator_of mini.new) }
{
    if let Err(error) = resize_chain(mini, links, len) {
        return Err(error);
    }
    if let Err(error) = zero_tail(mini, links, size) {
        mini.fail();
        return Err(error);
    }
    Ok(())
}

// Whether a chain has sectors that so many bytes don't need.
fn has_spare(links: &Links, size: u64) -> bool
    ensures { IsTrue result ↔ (sectors_for (links_version links.now) size
        < length (ids_of links.now)) }
{
    let len = links.version().sector_len() as u64;
    size.div_ceil(len) < links.sector_ids().len() as u64
}

// Makes a long stream of so many bytes one of another number: it keeps its first bytes, and has zeros behind them. After an error
// nothing is changed, or it has failed.
pub(crate) fn stretch_long<F: Medium>(
    mini: &mut MiniAllocator<F>,
    links: &mut Links,
    size: u64,
    len: u64,
) -> Result<(), Error>
    ensures stretched { OnOk result (Stretches size len mini.old mini.new links.old links.new) }
    ensures refused_only_if { IsErrOf result InvalidData → IsNoChain links.old mini.old }
    ensures kept { OnErr result (has_failed_here (allocator_of mini.new) ≡ false
        → ids_of links.new ≡ ids_of links.old) }
    ensures version { links_version links.new ≡ links_version links.old }
    ensures after_error { OnErr result ((has_failed_here (allocator_of mini.new) ≡ true)
        ⊎ KeepsOwnership mini.old mini.new) }
    ensures full_only_if { IsErrOf result Full → has_failed_here (allocator_of mini.new) ≡ false
        → LacksSectors (allocator_of mini.old) links.old
        (sectors_for (links_version links.old) len) }
    ensures invariants { KeepsFileInvariants (allocator_of mini.old) (allocator_of mini.new) }
    ensures error_contract { FatErrorContract IsInvalidOrFull result (allocator_of mini.old)
        (allocator_of mini.new) }
{
    if len <= size {
        return resize_chain(mini, links, len);
    }
    if has_spare(links, size) {
        return cut_and_lengthen(mini, links, size, len);
    }
    lengthen_long(mini, links, size, len)
}
