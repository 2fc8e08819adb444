//! The bytes of a chain, written.
ghost use Rattle.cfb_chains.specs.ChainCalls.{IsInvalidPlace};
ghost use Rattle.cfb_chains.specs.LinkViews.{ids_of, links_version};
ghost use Rattle.cfb_chains.specs.Positions.{sectors_for};
ghost use Rattle.cfb_fat.specs.Calls.{FatErrorContract};
ghost use Rattle.cfb_fat.specs.Tables.{has_failed_here, orderly_of, KeepsTables};
ghost use Rattle.cfb_medium.specs.declared.error.Error.TheVariants.{Full, InvalidData, InvalidInput};
ghost use Rattle.cfb_chain_io.specs.ChainEffects.{len_of, KeepsFileInvariants, HasDataChain, IsInvalidPlaceOrFull, LacksSectors, Overwrites, WritesIntoNewSectors};
ghost use Rattle.cfb_sectors.specs.declared.initial.SectorInit.TheVariants.{Zero};
ghost use Rattle.std.specs.Prelude.{false, length, max, true, IfErr, IsErrOf, IsTrue, OnErr, OnOk, ◌+◌, ◌<◌, ◌≡◌, ◌≤◌, ◌↔◌, ◌⊎◌};

use crate::lengths::{lengthen_chain, set_chain_len};
use crate::places::{chain_len, lies_in, spot};
use cfb_chains::Links;
use cfb_fat::Allocator;
use cfb_medium::{Error, Medium};
use cfb_sectors::{HasSectors, SectorInit};

/// Writes over a chain's bytes from a place on. `InvalidInput` where they don't lie in the chain, and then nothing is changed;
/// `InvalidData` where one of its sectors isn't in the file or holds a table. After each error but `InvalidInput` it has failed
/// ([MS-CFB] 2.3).
pub fn overwrite_chain<F: Medium>(
    allocator: &mut Allocator<F>,
    links: &Links,
    at: u64,
    bytes: &[u8],
) -> Result<(), Error>
    ensures written { OnOk result (HasDataChain allocator.old links.now
        → Overwrites at bytes.now allocator.old allocator.new links.now) }
    ensures there { OnOk result (at + length bytes.now ≤ len_of links.now) }
    ensures past { IsErrOf result InvalidInput ↔ ((has_failed_here allocator.old ≡ false)
        × (len_of links.now < at + length bytes.now)) }
    ensures refused_only_if { IsErrOf result InvalidData → HasDataChain allocator.old links.now
        → ⊥ }
    ensures tables { OnOk result (KeepsTables allocator.old allocator.new) }
    ensures invariants { KeepsFileInvariants allocator.old allocator.new }
    ensures faulted { IfErr result (λ e. (e ≡ InvalidInput)
        ⊎ (has_failed_here allocator.new ≡ true)) }
    ensures error_contract { FatErrorContract IsInvalidPlace result allocator.old allocator.new }
{
    if allocator.is_failed() {
        return Err(Error::Failed);
    }
    if !lies_in(links, at, bytes.len()) {
        return Err(Error::InvalidInput);
    }
    let mut done = 0;
    'write: while done < bytes.len() {
        let (sector_id, offset, left) = spot(links, at + done as u64);
        let count = left.min(bytes.len() - done);
        if let Err(error) = allocator.write_contiguous(
            sector_id,
            offset,
            &bytes[done..done + count],
        ) {
            allocator.fail();
            return Err(error);
        }
        done += count;
    }
    Ok(())
}

// Writes bytes that begin in the chain or at its end and end behind it: it takes in the sectors of those behind its end with them, and
// zeros behind them. So none is written twice. After an error nothing is changed, or it has failed.
fn write_behind<F: Medium>(
    allocator: &mut Allocator<F>,
    links: &mut Links,
    at: u64,
    bytes: &[u8],
) -> Result<(), Error>
    requires from { at ≤ len_of links.old }
    requires past { len_of links.old < at + length bytes.now }
    ensures written { OnOk result (HasDataChain allocator.old links.old
        → WritesIntoNewSectors Zero at bytes.now allocator.old allocator.new links.old links.new) }
    ensures size { OnOk result (length (ids_of links.new)
        ≡ sectors_for (links_version links.old) (at + length bytes.now)) }
    ensures refused_only_if { IsErrOf result InvalidData → HasDataChain allocator.old links.old
        → IsTrue (orderly_of allocator.old) → ⊥ }
    ensures orderly { IsErrOf result Full → IsTrue (orderly_of allocator.old) }
    ensures full_only_if { IsErrOf result Full → has_failed_here allocator.new ≡ false
        → LacksSectors allocator.old links.old
        (sectors_for (links_version links.old) (at + length bytes.now)) }
    ensures version { links_version links.new ≡ links_version links.old }
    ensures kept { OnErr result (has_failed_here allocator.new ≡ false
        → ids_of links.new ≡ ids_of links.old) }
    ensures invariants { KeepsFileInvariants allocator.old allocator.new }
    ensures inside { IsErrOf result InvalidInput → ⊥ }
    ensures error_contract { FatErrorContract IsInvalidPlaceOrFull result allocator.old
        allocator.new }
{
    let front = (chain_len(links) - at) as usize;
    let end = at + bytes.len() as u64;
    if let Err(error) = lengthen_chain(allocator, links, end, &bytes[front..]) {
        return Err(error);
    }
    overwrite_chain(allocator, links, at, &bytes[..front])
}

// The same where what it takes in holds at first what `init` says.
fn write_filled<F: Medium>(
    allocator: &mut Allocator<F>,
    links: &mut Links,
    at: u64,
    bytes: &[u8],
    init: SectorInit,
) -> Result<(), Error>
    requires from { at ≤ len_of links.old }
    requires past { len_of links.old < at + length bytes.now }
    ensures written { OnOk result (HasDataChain allocator.old links.old
        → WritesIntoNewSectors init at bytes.now allocator.old allocator.new links.old links.new) }
    ensures size { OnOk result (length (ids_of links.new)
        ≡ sectors_for (links_version links.old) (at + length bytes.now)) }
    ensures refused_only_if { IsErrOf result InvalidData → HasDataChain allocator.old links.old
        → IsTrue (orderly_of allocator.old) → ⊥ }
    ensures orderly { IsErrOf result Full → IsTrue (orderly_of allocator.old) }
    ensures full_only_if { IsErrOf result Full → has_failed_here allocator.new ≡ false
        → LacksSectors allocator.old links.old
        (sectors_for (links_version links.old) (at + length bytes.now)) }
    ensures version { links_version links.new ≡ links_version links.old }
    ensures kept { OnErr result (has_failed_here allocator.new ≡ false
        → ids_of links.new ≡ ids_of links.old) }
    ensures invariants { KeepsFileInvariants allocator.old allocator.new }
    ensures inside { IsErrOf result InvalidInput → ⊥ }
    ensures error_contract { FatErrorContract IsInvalidPlaceOrFull result allocator.old
        allocator.new }
{
    if let Err(error) = set_chain_len(allocator, links, at + bytes.len() as u64, init) {
        return Err(error);
    }
    overwrite_chain(allocator, links, at, bytes)
}

/// Writes over a chain's bytes from a place in it or at its end on; where they end behind it, it takes in sectors first, which
/// hold at first what `init` says. `InvalidInput` where the place is behind the chain's end; `InvalidData` where the tables
/// can't be changed or haven't the chain, or one of its sectors holds a table, and then `Full` where fewer numbers of sectors
/// are left. After an error nothing is changed, or it has failed ([MS-CFB] 2.3).
pub fn write_chain<F: Medium>(
    allocator: &mut Allocator<F>,
    links: &mut Links,
    at: u64,
    bytes: &[u8],
    init: SectorInit,
) -> Result<(), Error>
    ensures written { OnOk result (HasDataChain allocator.old links.old
        → WritesIntoNewSectors init at bytes.now allocator.old allocator.new links.old links.new) }
    ensures size { OnOk result (length (ids_of links.new) ≡ max (length (ids_of links.old))
        (sectors_for (links_version links.old) (at + length bytes.now))) }
    ensures past { IsErrOf result InvalidInput ↔ ((has_failed_here allocator.old ≡ false)
        × (len_of links.old < at)) }
    ensures refused_only_if { IsErrOf result InvalidData → HasDataChain allocator.old links.old
        → IsTrue (orderly_of allocator.old) → ⊥ }
    ensures orderly { IsErrOf result Full → IsTrue (orderly_of allocator.old) }
    ensures full_only_if { IsErrOf result Full → has_failed_here allocator.new ≡ false
        → LacksSectors allocator.old links.old
        (sectors_for (links_version links.old) (at + length bytes.now)) }
    ensures version { links_version links.new ≡ links_version links.old }
    ensures kept { OnErr result (has_failed_here allocator.new ≡ false
        → ids_of links.new ≡ ids_of links.old) }
    ensures invariants { KeepsFileInvariants allocator.old allocator.new }
    ensures error_contract { FatErrorContract IsInvalidPlaceOrFull result allocator.old
        allocator.new }
{
    if allocator.is_failed() {
        return Err(Error::Failed);
    }
    if at > chain_len(links) {
        return Err(Error::InvalidInput);
    }
    if lies_in(links, at, bytes.len()) {
        return overwrite_chain(allocator, links, at, bytes);
    }
    match init {
        SectorInit::Zero => write_behind(allocator, links, at, bytes),
        _ => write_filled(allocator, links, at, bytes, init),
    }
}
