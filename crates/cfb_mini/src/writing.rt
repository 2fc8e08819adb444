//! The bytes of a mini chain, written over.
ghost use Rattle.cfb_chains.specs.ChainCalls.{IsInvalidPlace};
ghost use Rattle.cfb_chains.specs.Changes.{AreDistinct};
ghost use Rattle.cfb_fat.specs.Calls.{FatErrorContract};
ghost use Rattle.cfb_fat.specs.Tables.{has_failed_here, OnlyReadsAllocator, IsJustifiedBySectors};
ghost use Rattle.cfb_medium.specs.Calls.{IsFaultOrInvalidInputIf};
ghost use Rattle.cfb_medium.specs.declared.error.Error.TheVariants.{InvalidData, InvalidInput};
ghost use Rattle.cfb_mini.specs.LinkViews.{minis_of};
ghost use Rattle.cfb_mini.specs.Minis.{AreInside};
ghost use Rattle.cfb_mini.specs.Overwriting.{WritesMinis};
ghost use Rattle.cfb_chain_io.specs.ChainEffects.{len_of, KeepsFileInvariants, HasDataChain, Overwrites};
ghost use Rattle.std.specs.Prelude.{false, length, true, IfErr, IsErrOf, OnErr, OnOk, ◌*◌, ◌+◌, ◌<◌, ◌≡◌, ◌≤◌, ◌↔◌, ◌⊎◌, ◌^◌};

use crate::MiniLinks;
use crate::places::{lies_in, spot, stream_len};
use cfb_chain_io::overwrite_chain;
use cfb_chains::Links;
use cfb_fat::Allocator;
use cfb_medium::{Error, Medium};
use cfb_sectors::HasSectors;

// Writes over a part of the mini stream of these sectors. `InvalidData` where so many bytes don't lie in it. After an error it
// has failed.
fn overwrite_part<F: Medium>(
    allocator: &mut Allocator<F>,
    stream: &Links,
    place: u64,
    left: usize,
    bytes: &[u8],
) -> Result<(), Error>
    requires within { length bytes.now ≤ left }
    requires small { place + left ≤ 2 ^ 40 }
    ensures written { OnOk result (HasDataChain allocator.old stream.now
        → Overwrites place bytes.now allocator.old allocator.new stream.now) }
    ensures there { OnOk result (place + left ≤ len_of stream.now) }
    ensures refused_only_if { IsErrOf result InvalidData → HasDataChain allocator.old stream.now
        → place + left ≤ len_of stream.now → ⊥ }
    ensures not_failed { OnOk result (has_failed_here allocator.new ≡ false) }
    ensures when_failed { OnErr result (has_failed_here allocator.new ≡ true) }
    ensures invariants { KeepsFileInvariants allocator.old allocator.new }
    ensures cause { IfErr result (IsJustifiedBySectors allocator.old allocator.new) }
    ensures errors { IfErr result (λ e. IsFaultOrInvalidInputIf ⊥ e ⊎ (e ≡ InvalidData)) }
{
    if place + left as u64 > stream_len(stream) {
        allocator.fail();
        return Err(Error::InvalidData);
    }
    if let Err(error) = overwrite_chain(allocator, stream, place, bytes) {
        return Err(error);
    }
    Ok(())
}

// Writes over a mini chain's bytes from a place on, in the mini stream of these sectors. `InvalidInput` where they don't lie
// in the mini chain, and then nothing is changed; `InvalidData` where the mini stream hasn't one of its mini sectors, or one
// of its sectors isn't in the file or holds a table. After each error but `InvalidInput` it has failed.
pub(crate) fn overwrite_minis<F: Medium>(
    allocator: &mut Allocator<F>,
    stream: &Links,
    minis: &MiniLinks,
    at: u64,
    bytes: &[u8],
) -> Result<(), Error>
    ensures written { OnOk result
        (HasDataChain allocator.old stream.now → AreDistinct (minis_of minis.now)
        → WritesMinis at bytes.now allocator.old allocator.new stream.now (minis_of minis.now)) }
    ensures there { OnOk result (at + length bytes.now ≤ 64 * length (minis_of minis.now)) }
    ensures past { IsErrOf result InvalidInput ↔ ((has_failed_here allocator.old ≡ false)
        × (64 * length (minis_of minis.now) < at + length bytes.now)) }
    ensures refused_only_if { IsErrOf result InvalidData → HasDataChain allocator.old stream.now
        → AreDistinct (minis_of minis.now) → AreInside (len_of stream.now) (minis_of minis.now)
        → ⊥ }
    ensures invariants { KeepsFileInvariants allocator.old allocator.new }
    ensures unchanged { IsErrOf result InvalidInput
        → OnlyReadsAllocator allocator.old allocator.new }
    ensures faulted { IfErr result (λ e. (e ≡ InvalidInput)
        ⊎ (has_failed_here allocator.new ≡ true)) }
    ensures error_contract { FatErrorContract IsInvalidPlace result allocator.old allocator.new }
{
    if allocator.is_failed() {
        return Err(Error::Failed);
    }
    if !lies_in(minis, at, bytes.len()) {
        return Err(Error::InvalidInput);
    }
    let mut done = 0;
    'write: while done < bytes.len() {
        let (place, left) = spot(minis, at + done as u64);
        let count = left.min(bytes.len() - done);
        if let Err(error) = overwrite_part(
            allocator,
            stream,
            place,
            left,
            &bytes[done..done + count],
        ) {
            return Err(error);
        }
        done += count;
    }
    Ok(())
}
