//! Chains that become longer and shorter.
ghost use Rattle.cfb_chains.specs.ChainCalls.{IsInvalid, IsInvalidOrFull};
ghost use Rattle.cfb_chains.specs.LinkViews.{ids_of, links_version};
ghost use Rattle.cfb_chains.specs.Positions.{sectors_for};
ghost use Rattle.cfb_fat.specs.Calls.{FatErrorContract};
ghost use Rattle.cfb_fat.specs.Tables.{has_failed_here, orderly_of, OnlyReadsAllocator};
ghost use Rattle.cfb_medium.specs.declared.error.Error.TheVariants.{Full, InvalidData};
ghost use Rattle.cfb_chain_io.specs.ChainEffects.{KeepsFileInvariants, HasDataChain, LacksSectors, Resizes, AllocatorRunsOut, StaysLean, TakesBytes};
ghost use Rattle.cfb_sectors.specs.declared.initial.SectorInit.TheVariants.{Zero};
ghost use Rattle.std.specs.Prelude.{false, length, IsErrOf, IsTrue, OnErr, OnOk, [], ◌≡◌, ◌≤◌};

use cfb_chains::{Chain, Links};
use cfb_fat::Allocator;
use cfb_medium::{Error, Medium};
use cfb_sectors::SectorInit;

/// Gives a chain as many sectors as so many bytes need. Those at its front stay, with their bytes; it takes in others behind
/// them, which hold what `init` says, or frees those that are too many. `InvalidData` where the tables can't be changed or
/// haven't the chain, with nothing changed, and then `Full` where fewer numbers of sectors are left. After an error nothing is
/// changed, or it has failed ([MS-CFB] 2.3).
pub fn set_chain_len<F: Medium>(
    allocator: &mut Allocator<F>,
    links: &mut Links,
    len: u64,
    init: SectorInit,
) -> Result<(), Error>
    ensures resized { OnOk result (HasDataChain allocator.old links.old
        → Resizes init (sectors_for (links_version links.old) len) allocator.old allocator.new
        links.old links.new) }
    ensures size { OnOk result (length (ids_of links.new)
        ≡ sectors_for (links_version links.old) len) }
    ensures refused_only_if { IsErrOf result InvalidData → HasDataChain allocator.old links.old
        → IsTrue (orderly_of allocator.old) → ⊥ }
    ensures unchanged { IsErrOf result InvalidData → OnlyReadsAllocator allocator.old allocator.new
        × (ids_of links.new ≡ ids_of links.old) }
    ensures orderly { IsErrOf result Full → IsTrue (orderly_of allocator.old) }
    ensures full_only_if { IsErrOf result Full → has_failed_here allocator.new ≡ false
        → LacksSectors allocator.old links.old (sectors_for (links_version links.old) len) }
    ensures stopped { IsErrOf result Full → AllocatorRunsOut (length (ids_of links.old))
        (sectors_for (links_version links.old) len) allocator.old }
    ensures lean { OnOk result (StaysLean (length (ids_of links.old)) (length (ids_of links.new))
        allocator.old allocator.new) }
    ensures version { links_version links.new ≡ links_version links.old }
    ensures kept { OnErr result (has_failed_here allocator.new ≡ false
        → ids_of links.new ≡ ids_of links.old) }
    ensures invariants { KeepsFileInvariants allocator.old allocator.new }
    ensures error_contract { FatErrorContract IsInvalidOrFull result allocator.old allocator.new }
{
    let mut chain = Chain::new(allocator, links, init);
    chain.set_len(len)
}

/// Gives a chain as many sectors as so many bytes need, where it has no more of them. Those that it takes in behind its own hold these
/// bytes in order, and zeros behind them. `InvalidData` where the tables can't be changed or haven't the chain, with nothing changed,
/// and then `Full` where fewer numbers of sectors are left. After an error nothing is changed, or it has failed ([MS-CFB] 2.3).
pub fn lengthen_chain<F: Medium>(
    allocator: &mut Allocator<F>,
    links: &mut Links,
    len: u64,
    bytes: &[u8],
) -> Result<(), Error>
    requires { length (ids_of links.old) ≤ sectors_for (links_version links.old) len }
    ensures extended { OnOk result (HasDataChain allocator.old links.old
        → TakesBytes bytes.now allocator.old allocator.new links.old links.new) }
    ensures size { OnOk result (length (ids_of links.new)
        ≡ sectors_for (links_version links.old) len) }
    ensures refused_only_if { IsErrOf result InvalidData → HasDataChain allocator.old links.old
        → IsTrue (orderly_of allocator.old) → ⊥ }
    ensures orderly { IsErrOf result Full → IsTrue (orderly_of allocator.old) }
    ensures full_only_if { IsErrOf result Full → has_failed_here allocator.new ≡ false
        → LacksSectors allocator.old links.old (sectors_for (links_version links.old) len) }
    ensures version { links_version links.new ≡ links_version links.old }
    ensures kept { OnErr result (has_failed_here allocator.new ≡ false
        → ids_of links.new ≡ ids_of links.old) }
    ensures invariants { KeepsFileInvariants allocator.old allocator.new }
    ensures error_contract { FatErrorContract IsInvalidOrFull result allocator.old allocator.new }
{
    let mut chain = Chain::new(allocator, links, SectorInit::Zero);
    chain.lengthen(len, bytes)
}

/// Frees all sectors of a chain; it has none then. `InvalidData` where the tables can't be changed or haven't the chain. After
/// an error nothing is changed, or it has failed ([MS-CFB] 2.3).
pub fn free_chain<F: Medium>(allocator: &mut Allocator<F>, links: &mut Links) -> Result<(), Error>
    ensures freed { OnOk result (HasDataChain allocator.old links.old
        → Resizes Zero 0 allocator.old allocator.new links.old links.new) }
    ensures emptied { OnOk result (ids_of links.new ≡ []) }
    ensures refused_only_if { IsErrOf result InvalidData → HasDataChain allocator.old links.old
        → IsTrue (orderly_of allocator.old) → ⊥ }
    ensures version { links_version links.new ≡ links_version links.old }
    ensures kept { OnErr result (has_failed_here allocator.new ≡ false
        → ids_of links.new ≡ ids_of links.old) }
    ensures invariants { KeepsFileInvariants allocator.old allocator.new }
    ensures error_contract { FatErrorContract IsInvalid result allocator.old allocator.new }
{
    let mut chain = Chain::new(allocator, links, SectorInit::Zero);
    chain.free()
}
