//! The bytes of a chain, read.
ghost use Rattle.cfb_chains.specs.ChainCalls.{IsInvalidPlace};
ghost use Rattle.cfb_fat.specs.Tables.{has_failed_here, OnlyReadsAllocator, IsJustifiedBySectors};
ghost use Rattle.cfb_medium.specs.Calls.{IsFaultOrInvalidInputIf};
ghost use Rattle.cfb_medium.specs.declared.error.Error.TheVariants.{Failed, InvalidData, InvalidInput};
ghost use Rattle.cfb_chain_io.specs.ChainEffects.{content_of, len_of, HasFatChain};
ghost use Rattle.std.specs.Prelude.{drop, false, length, take, true, IfErr, IsErrOf, OnOk, ◌+◌, ◌<◌, ◌≡◌, ◌≤◌, ◌↔◌, ◌⊎◌};

use crate::places::{lies_in, spot};
use cfb_chains::Links;
use cfb_fat::Allocator;
use cfb_medium::{Error, ReadMedium};
use cfb_sectors::HasSectors;

/// Fills the buffer with a chain's bytes from a place on. `InvalidInput` where they don't lie in the chain, `InvalidData` where
/// the file hasn't one of its sectors. Nothing is changed ([MS-CFB] 2.3).
pub fn read_chain<F: ReadMedium>(
    allocator: &mut Allocator<F>,
    links: &Links,
    at: u64,
    buffer: &mut [u8],
) -> Result<(), Error>
    ensures read { OnOk result (HasFatChain allocator.old links.now → buffer.new
        ≡ take (length buffer.old) (drop at (content_of allocator.old links.now))) }
    ensures there { OnOk result ((has_failed_here allocator.old ≡ false)
        × (at + length buffer.old ≤ len_of links.now)) }
    ensures past { IsErrOf result InvalidInput ↔ ((has_failed_here allocator.old ≡ false)
        × (len_of links.now < at + length buffer.old)) }
    ensures refused_only_if { IsErrOf result InvalidData → HasFatChain allocator.old links.now → ⊥ }
    ensures when_failed { has_failed_here allocator.old ≡ true → IsErrOf result Failed }
    ensures only_reads { OnlyReadsAllocator allocator.old allocator.new }
    ensures cause { IfErr result (IsJustifiedBySectors allocator.old allocator.new) }
    ensures errors { IfErr result (λ e. IsFaultOrInvalidInputIf ⊥ e ⊎ IsInvalidPlace e) }
{
    if allocator.is_failed() {
        return Err(Error::Failed);
    }
    if !lies_in(links, at, buffer.len()) {
        return Err(Error::InvalidInput);
    }
    let mut done = 0;
    'read: while done < buffer.len() {
        let (sector_id, offset, left) = spot(links, at + done as u64);
        let count = left.min(buffer.len() - done);
        if let Err(error) = allocator.read_contiguous(
            sector_id,
            offset,
            &mut buffer[done..done + count],
        ) {
            return Err(error);
        }
        done += count;
    }
    Ok(())
}
