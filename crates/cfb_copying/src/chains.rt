//! The bytes of a chain, copied to a chain of another file ([MS-CFB] 2.3).
ghost use Rattle.cfb_chains.specs.ChainCalls.{IsInvalidPlace};
ghost use Rattle.cfb_chains.specs.LinkViews.{ids_of, links_version};
ghost use Rattle.cfb_copying.specs.Chains.{CopiesChain, IsJustifiedByEither, IsCopyError};
ghost use Rattle.cfb_fat.specs.Tables.{has_failed_here, orderly_of, OnlyReadsAllocator, KeepsTables};
ghost use Rattle.cfb_medium.specs.Calls.{IsFaultOrInvalidInputIf};
ghost use Rattle.cfb_medium.specs.declared.error.Error.TheVariants.{Full};
ghost use Rattle.cfb_chain_io.specs.ChainEffects.{content_of, len_of, KeepsFileInvariants, HasDataChain, HasFatChain, Overwrites, AllocatorRunsOut, StaysLean};
ghost use Rattle.std.specs.Prelude.{false, length, IfErr, IsErrOf, IsTrue, OnOk, ◌<◌, ◌^◌, ◌≡◌, ◌≤◌, ◌⊎◌};

use cfb_chain_io::{overwrite_chain, read_chain, set_chain_len};
use cfb_chains::Links;
use cfb_fat::Allocator;
use cfb_medium::{Error, Medium, ReadMedium};
use cfb_sectors::{HasSectors, SectorInit};

// So many bytes are copied at once.
const PIECE: usize = 4096;

// How many bytes the sectors of a chain have.
fn chain_len(links: &Links) -> u64
    ensures len { result ≡ len_of links.now }
    ensures small { result < 2 ^ 63 }
{
    links.sector_ids().len() as u64 * links.version().sector_len() as u64
}

// Writes a chain's bytes over those of a chain of another file, which is as long.
fn copy_bytes<F: ReadMedium, T: Medium>(
    source: &mut Allocator<F>,
    from: &Links,
    target: &mut Allocator<T>,
    to: &Links,
) -> Result<(), Error>
    requires { len_of from.now ≡ len_of to.now }
    ensures copied { OnOk result (HasFatChain source.old from.now → HasDataChain target.old to.now
        → Overwrites 0 (content_of source.old from.now) target.old target.new to.now) }
    ensures refused_only_if { IfErr result (λ e. IsInvalidPlace e → HasFatChain source.old from.now
        → HasDataChain target.old to.now → ⊥) }
    ensures tables { OnOk result (KeepsTables target.old target.new) }
    ensures only_reads { OnlyReadsAllocator source.old source.new }
    ensures invariants { KeepsFileInvariants target.old target.new }
    ensures not_failed { OnOk result (has_failed_here target.new ≡ false) }
    ensures cause { IfErr result (IsJustifiedByEither source.old source.new target.old target.new) }
    ensures errors { IfErr result (λ e. IsFaultOrInvalidInputIf ⊥ e ⊎ IsInvalidPlace e) }
{
    if target.is_failed() {
        return Err(Error::Failed);
    }
    let len = chain_len(from);
    let mut piece = [0; PIECE];
    let mut at = 0;
    'copy: while at < len {
        let count = (len - at).min(PIECE as u64) as usize;
        if let Err(error) = read_chain(source, from, at, &mut piece[..count]) {
            return Err(error);
        }
        if let Err(error) = overwrite_chain(target, to, at, &piece[..count]) {
            return Err(error);
        }
        at += count as u64;
    }
    Ok(())
}

/// Makes a chain one that holds what a longer chain of another file does, in as many sectors; those that it takes in were in no
/// use. The other file is only read. `InvalidData` where one of the files hasn't its chain, or the tables of the one that is written can't
/// be changed; `Full` where on the way numbers of sectors run out. The other errors are faults: then the chain holds anything.
pub fn copy_chain<F: ReadMedium, T: Medium>(
    source: &mut Allocator<F>,
    from: &Links,
    target: &mut Allocator<T>,
    to: &mut Links,
) -> Result<(), Error>
    requires shorter { length (ids_of to.old) ≤ length (ids_of from.now) }
    requires version { links_version to.old ≡ links_version from.now }
    ensures copied { OnOk result (HasFatChain source.old from.now → HasDataChain target.old to.old
        → CopiesChain (content_of source.old from.now) target.old target.new to.old
        to.new) }
    ensures refused_only_if { IfErr result (λ e. IsInvalidPlace e → HasFatChain source.old from.now
        → HasDataChain target.old to.old → IsTrue (orderly_of target.old) → ⊥) }
    ensures stopped { IsErrOf result Full → AllocatorRunsOut (length (ids_of to.old))
        (length (ids_of from.now)) target.old }
    ensures lean { OnOk result (StaysLean (length (ids_of to.old)) (length (ids_of from.now))
        target.old target.new) }
    ensures only_reads { OnlyReadsAllocator source.old source.new }
    ensures invariants { KeepsFileInvariants target.old target.new }
    ensures not_failed { OnOk result (has_failed_here target.new ≡ false) }
    ensures cause { IfErr result (IsJustifiedByEither source.old source.new target.old target.new) }
    ensures errors { IfErr result IsCopyError }
{
    if let Err(error) = set_chain_len(target, to, chain_len(from), SectorInit::Zero) {
        return Err(error);
    }
    if let Err(error) = copy_bytes(source, from, target, to) {
        return Err(error);
    }
    Ok(())
}
