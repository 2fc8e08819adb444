//! The bytes of a mini chain, read.
ghost use Rattle.cfb_chains.specs.ChainCalls.{IsInvalidPlace};
ghost use Rattle.cfb_fat.specs.Tables.{has_failed_here, OnlyReadsAllocator, IsJustifiedBySectors};
ghost use Rattle.cfb_medium.specs.Calls.{IsFaultOrInvalidInputIf};
ghost use Rattle.cfb_medium.specs.declared.error.Error.TheVariants.{Failed, InvalidData, InvalidInput};
ghost use Rattle.cfb_mini.specs.LinkViews.{minis_of};
ghost use Rattle.cfb_mini.specs.Minis.{mini_joined, AreInside};
ghost use Rattle.cfb_chain_io.specs.ChainEffects.{content_of, len_of, HasFatChain};
ghost use Rattle.std.specs.Prelude.{drop, false, length, take, true, IfErr, IsErrOf, OnOk, ◌*◌, ◌+◌, ◌<◌, ◌≡◌, ◌≤◌, ◌↔◌, ◌⊎◌};

use crate::MiniLinks;
use crate::places::{lies_in, spot, stream_len};
use cfb_chain_io::read_chain;
use cfb_chains::Links;
use cfb_fat::Allocator;
use cfb_medium::{Error, ReadMedium};
use cfb_sectors::HasSectors;

// Fills the buffer with a mini chain's bytes from a place on, in the mini stream of these sectors. `InvalidInput` where they
// don't lie in the mini chain, `InvalidData` where the mini stream hasn't one of its mini sectors, or the file not one of its
// sectors. Nothing is changed.
pub(crate) fn read_minis<F: ReadMedium>(
    allocator: &mut Allocator<F>,
    stream: &Links,
    minis: &MiniLinks,
    at: u64,
    buffer: &mut [u8],
) -> Result<(), Error>
    ensures read { OnOk result (HasFatChain allocator.old stream.now
        → AreInside (len_of stream.now) (minis_of minis.now) → buffer.new
        ≡ take (length buffer.old) (drop at (mini_joined (content_of allocator.old stream.now)
        (minis_of minis.now)))) }
    ensures there { OnOk result ((has_failed_here allocator.old ≡ false)
        × (at + length buffer.old ≤ 64 * length (minis_of minis.now))) }
    ensures past { IsErrOf result InvalidInput ↔ ((has_failed_here allocator.old ≡ false)
        × (64 * length (minis_of minis.now) < at + length buffer.old)) }
    ensures refused_only_if { IsErrOf result InvalidData → HasFatChain allocator.old stream.now
        → AreInside (len_of stream.now) (minis_of minis.now) → ⊥ }
    ensures when_failed { has_failed_here allocator.old ≡ true → IsErrOf result Failed }
    ensures only_reads { OnlyReadsAllocator allocator.old allocator.new }
    ensures cause { IfErr result (IsJustifiedBySectors allocator.old allocator.new) }
    ensures errors { IfErr result (λ e. IsFaultOrInvalidInputIf ⊥ e ⊎ IsInvalidPlace e) }
{
    if allocator.is_failed() {
        return Err(Error::Failed);
    }
    if !lies_in(minis, at, buffer.len()) {
        return Err(Error::InvalidInput);
    }
    let mut done = 0;
    'read: while done < buffer.len() {
        let (place, left) = spot(minis, at + done as u64);
        if place + left as u64 > stream_len(stream) {
            return Err(Error::InvalidData);
        }
        let count = left.min(buffer.len() - done);
        if let Err(error) = read_chain(allocator, stream, place, &mut buffer[done..done + count]) {
            return Err(error);
        }
        done += count;
    }
    Ok(())
}
