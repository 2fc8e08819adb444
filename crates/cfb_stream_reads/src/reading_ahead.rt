//! Bytes of a stream, read ahead.
ghost use Rattle.cfb_chains.specs.ChainCalls.{IsInvalidPlace};
ghost use Rattle.cfb_fat.specs.Tables.{IsJustifiedBySectors};
ghost use Rattle.cfb_medium.specs.Calls.{IsFaultOrInvalidInputIf};
ghost use Rattle.cfb_mini.specs.Views.{allocator_of, OnlyReadsMini};
ghost use Rattle.cfb_stream_reads.specs.Content.{count_from, most_of, SectorsHaveContent, IsAheadOf};
ghost use Rattle.std.specs.Prelude.{min, IfErr, List, OnOk, ℕ, ◌-◌, ◌<◌, ◌≡◌, ◌≤◌, ◌⊎◌};

use crate::reading::read_stream;
use crate::{ReadAhead, StreamLinks};
use cfb_medium::{Error, ReadMedium};
use cfb_mini::MiniAllocator;

/// Reads ahead from a place of a stream of so many bytes on, where no byte from there on was read ahead yet: all that it has, or
/// so many as are read at once where that is less. `InvalidData` where the file hasn't the bytes; the other errors are faults.
/// After an error nothing is read ahead, and nothing else is changed ([MS-CFB] 2.6.3).
pub fn read_ahead<F: ReadMedium>(
    mini: &mut MiniAllocator<F>,
    links: &StreamLinks,
    ahead: &mut ReadAhead,
    at: u64,
    len: u64,
) -> Result<(), Error>
    requires { at ≤ len }
    ensures some { OnOk result (at < len → 0 < count_from ahead.new at) }
    ensures whole { OnOk result (count_from ahead.old at ≡ 0
        → count_from ahead.new at ≡ min (len - at) (most_of ahead.old)) }
    ensures most { most_of ahead.new ≡ most_of ahead.old }
    ensures content { (content : List ℕ) → SectorsHaveContent mini.old links.now len content
        → IsAheadOf content ahead.old → IsAheadOf content ahead.new }
    ensures kept { (content : List ℕ) → SectorsHaveContent mini.old links.now len content
        → SectorsHaveContent mini.new links.now len content }
    ensures only_reads { OnlyReadsMini mini.old mini.new }
    ensures cause { IfErr result
        (IsJustifiedBySectors (allocator_of mini.old) (allocator_of mini.new)) }
    ensures errors { IfErr result
        (λ e. IsFaultOrInvalidInputIf ⊥ e ⊎ (IsInvalidPlace e × ((content : List ℕ)
        → SectorsHaveContent mini.old links.now len content → ⊥))) }
{
    if at == len {
        return Ok(());
    }
    if !ahead.from(at).is_empty() {
        return Ok(());
    }
    let count = (len - at).min(ahead.most() as u64) as usize;
    match ahead.make_room(at, count) {
        Ok(()) => {}
        Err(error) => return Err(error),
    }
    match read_stream(mini, links, at, &mut ahead.bytes) {
        Ok(()) => Ok(()),
        Err(error) => {
            ahead.clear();
            Err(error)
        }
    }
}
