//! The bytes of a stream, read.
ghost use Rattle.cfb_chains.specs.ChainCalls.{IsInvalidPlace};
ghost use Rattle.cfb_fat.specs.Tables.{has_failed_here, is_honest, IsJustifiedBySectors};
ghost use Rattle.cfb_medium.specs.Calls.{IsFaultOrInvalidInputIf};
ghost use Rattle.cfb_medium.specs.declared.error.Error.TheVariants.{Failed, InvalidData, InvalidInput};
ghost use Rattle.cfb_mini.specs.Views.{allocator_of, OnlyReadsMini};
ghost use Rattle.cfb_chain_io.specs.ChainEffects.{content_of, len_of, HasFatChain};
ghost use Rattle.cfb_stream_reads.specs.Content.{SectorsHaveContent, ReadsPart};
ghost use Rattle.cfb_stream_reads.specs.Streams.{joined_in, len_in, HasSectorsOf};
ghost use Rattle.std.specs.Prelude.{drop, false, length, take, true, IfErr, IsErrOf, IsTrue, List, OnOk, ℕ, ◌+◌, ◌<◌, ◌≡◌, ◌≤◌, ◌↔◌, ◌⊎◌};

use crate::StreamLinks;
use cfb_chain_io::read_chain;
use cfb_chains::Links;
use cfb_medium::{Error, ReadMedium};
use cfb_mini::MiniAllocator;

// Fills the buffer with the bytes of a chain of the file's sectors.
fn read_long<F: ReadMedium>(
    mini: &mut MiniAllocator<F>,
    links: &Links,
    at: u64,
    buffer: &mut [u8],
) -> Result<(), Error>
    ensures read { OnOk result (HasFatChain (allocator_of mini.old) links.now → buffer.new
        ≡ take (length buffer.old) (drop at (content_of (allocator_of mini.old) links.now))) }
    ensures there { OnOk result ((has_failed_here (allocator_of mini.old) ≡ false)
        × (at + length buffer.old ≤ len_of links.now)) }
    ensures past { IsErrOf result InvalidInput
        ↔ ((has_failed_here (allocator_of mini.old) ≡ false)
        × (len_of links.now < at + length buffer.old)) }
    ensures refused_only_if { IsErrOf result InvalidData
        → HasFatChain (allocator_of mini.old) links.now → ⊥ }
    ensures when_failed { has_failed_here (allocator_of mini.old) ≡ true → IsErrOf result Failed }
    ensures only_reads { OnlyReadsMini mini.old mini.new }
    ensures cause { IfErr result
        (IsJustifiedBySectors (allocator_of mini.old) (allocator_of mini.new)) }
    ensures errors { IfErr result (λ e. IsFaultOrInvalidInputIf ⊥ e ⊎ IsInvalidPlace e) }
{
    read_chain(mini.allocator_mut(), links, at, buffer)
}

/// Fills the buffer with bytes of a stream's sectors from a place on. `InvalidInput` where they don't lie in these, `InvalidData`
/// where the file hasn't one of the sectors. Nothing is changed.
pub fn read_stream<F: ReadMedium>(
    mini: &mut MiniAllocator<F>,
    links: &StreamLinks,
    at: u64,
    buffer: &mut [u8],
) -> Result<(), Error>
    ensures read { OnOk result (IsTrue (is_honest (allocator_of mini.old))
        → HasSectorsOf mini.old links.now → buffer.new
        ≡ take (length buffer.old) (drop at (joined_in mini.old links.now))) }
    ensures there { OnOk result ((has_failed_here (allocator_of mini.old) ≡ false)
        × (at + length buffer.old ≤ len_in links.now)) }
    ensures past { IsErrOf result InvalidInput
        ↔ ((has_failed_here (allocator_of mini.old) ≡ false)
        × (len_in links.now < at + length buffer.old)) }
    ensures refused_only_if { IsErrOf result InvalidData
        → IsTrue (is_honest (allocator_of mini.old))
        → HasSectorsOf mini.old links.now → ⊥ }
    ensures content { (len : ℕ) (content : List ℕ)
        → SectorsHaveContent mini.old links.now len content
        → SectorsHaveContent mini.new links.now len content
        × (at + length buffer.old ≤ len → ReadsPart content at buffer.old buffer.new result) }
    ensures when_failed { has_failed_here (allocator_of mini.old) ≡ true → IsErrOf result Failed }
    ensures only_reads { OnlyReadsMini mini.old mini.new }
    ensures cause { IfErr result
        (IsJustifiedBySectors (allocator_of mini.old) (allocator_of mini.new)) }
    ensures errors { IfErr result (λ e. IsFaultOrInvalidInputIf ⊥ e ⊎ IsInvalidPlace e) }
{
    match links {
        StreamLinks::Short(minis) => mini.read_mini_chain(minis, at, buffer),
        StreamLinks::Long(links) => read_long(mini, links, at, buffer),
    }
}
