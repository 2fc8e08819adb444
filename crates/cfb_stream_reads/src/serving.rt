//! Bytes of a stream, read with what was read ahead.
ghost use Rattle.cfb_chains.specs.ChainCalls.{IsInvalidPlace};
ghost use Rattle.cfb_fat.specs.Tables.{IsJustifiedBySectors};
ghost use Rattle.cfb_medium.specs.Calls.{IsFaultOrInvalidInputIf};
ghost use Rattle.cfb_mini.specs.Views.{allocator_of, OnlyReadsMini};
ghost use Rattle.cfb_stream_reads.specs.Content.{most_of, SectorsHaveContent, IsAheadOf, ReadsPart};
ghost use Rattle.std.specs.Prelude.{length, take, IfErr, IfOk, List, ℕ, ◌+◌, ◌<◌, ◌^◌, ◌≡◌, ◌≤◌, ◌⊎◌};

use crate::reading::read_stream;
use crate::reading_ahead::read_ahead;
use crate::{ReadAhead, StreamLinks};
use cfb_medium::{Error, ReadMedium};
use cfb_mini::MiniAllocator;
use std::alloc::Global;

// A read of fewer bytes reads ahead first.
const SMALL: usize = 1024;

// Fills the buffer with bytes of a stream of so many bytes, from a place on: with what was read ahead, where that is enough.
fn read_part<F: ReadMedium>(
    mini: &mut MiniAllocator<F>,
    links: &StreamLinks,
    ahead: &ReadAhead,
    at: u64,
    len: u64,
    buffer: &mut [u8],
) -> Result<(), Error>
    requires { at + length buffer.old ≤ len }
    ensures part { (content : List ℕ) → SectorsHaveContent mini.old links.now len content
        → IsAheadOf content ahead.now → ReadsPart content at buffer.old buffer.new result }
    ensures kept { (content : List ℕ) → SectorsHaveContent mini.old links.now len content
        → SectorsHaveContent mini.new links.now len content }
    ensures only_reads { OnlyReadsMini mini.old mini.new }
    ensures cause { IfErr result
        (IsJustifiedBySectors (allocator_of mini.old) (allocator_of mini.new)) }
    ensures errors { IfErr result (λ e. IsFaultOrInvalidInputIf ⊥ e ⊎ IsInvalidPlace e) }
{
    let held = ahead.within(at, len);
    if held.len() >= buffer.len() {
        buffer.copy_from_slice(&held[..buffer.len()]);
        return Ok(());
    }
    read_stream(mini, links, at, buffer)
}

// So, after some bytes from the place on were read ahead.
fn read_small<F: ReadMedium>(
    mini: &mut MiniAllocator<F>,
    links: &StreamLinks,
    ahead: &mut ReadAhead,
    at: u64,
    len: u64,
    buffer: &mut [u8],
) -> Result<(), Error>
    requires { at + length buffer.old ≤ len }
    ensures part { (content : List ℕ) → SectorsHaveContent mini.old links.now len content
        → IsAheadOf content ahead.old → ReadsPart content at buffer.old buffer.new result }
    ensures kept { (content : List ℕ) → SectorsHaveContent mini.old links.now len content
        → SectorsHaveContent mini.new links.now len content }
    ensures ahead { (content : List ℕ) → SectorsHaveContent mini.old links.now len content
        → IsAheadOf content ahead.old → IsAheadOf content ahead.new }
    ensures most { most_of ahead.new ≡ most_of ahead.old }
    ensures only_reads { OnlyReadsMini mini.old mini.new }
    ensures cause { IfErr result
        (IsJustifiedBySectors (allocator_of mini.old) (allocator_of mini.new)) }
    ensures errors { IfErr result (λ e. IsFaultOrInvalidInputIf ⊥ e ⊎ IsInvalidPlace e) }
{
    match read_ahead(mini, links, ahead, at, len) {
        Ok(()) => {}
        Err(error) => return Err(error),
    }
    match read_part(mini, links, ahead, at, len, buffer) {
        Ok(()) => Ok(()),
        Err(error) => Err(error),
    }
}

/// Fills the buffer with bytes of a stream of so many bytes, from a place on. Fewer than 1024 are served from what was read ahead,
/// after more was where that is not enough. `InvalidData` or `InvalidInput` where the file hasn't the bytes; the other errors are
/// faults. Nothing is changed ([MS-CFB] 2.6.3).
pub fn read_bytes<F: ReadMedium>(
    mini: &mut MiniAllocator<F>,
    links: &StreamLinks,
    ahead: &mut ReadAhead,
    at: u64,
    len: u64,
    buffer: &mut [u8],
) -> Result<(), Error>
    requires { at + length buffer.old ≤ len }
    ensures part { (content : List ℕ) → SectorsHaveContent mini.old links.now len content
        → IsAheadOf content ahead.old → ReadsPart content at buffer.old buffer.new result }
    ensures kept { (content : List ℕ) → SectorsHaveContent mini.old links.now len content
        → SectorsHaveContent mini.new links.now len content }
    ensures ahead { (content : List ℕ) → SectorsHaveContent mini.old links.now len content
        → IsAheadOf content ahead.old → IsAheadOf content ahead.new }
    ensures most { most_of ahead.new ≡ most_of ahead.old }
    ensures only_reads { OnlyReadsMini mini.old mini.new }
    ensures cause { IfErr result
        (IsJustifiedBySectors (allocator_of mini.old) (allocator_of mini.new)) }
    ensures errors { IfErr result (λ e. IsFaultOrInvalidInputIf ⊥ e ⊎ IsInvalidPlace e) }
{
    if buffer.len() < SMALL {
        return read_small(mini, links, ahead, at, len, buffer);
    }
    read_part(mini, links, ahead, at, len, buffer)
}

/// All bytes of a stream of so many bytes. Errors are those of `read_bytes`, and `Memory` ([MS-CFB] 2.6.3).
pub fn read_whole<F: ReadMedium>(
    alloc: Global,
    mini: &mut MiniAllocator<F>,
    links: &StreamLinks,
    ahead: &mut ReadAhead,
    len: u64,
) -> Result<Vec<u8>, Error>
    requires { len < 2 ^ 63 }
    ensures read { IfOk result (λ bytes. (content : List ℕ)
        → SectorsHaveContent mini.old links.now len content → IsAheadOf content ahead.old
        → bytes.items ≡ take len content) }
    ensures size { IfOk result (λ bytes. length bytes.items ≡ len) }
    ensures lost { IfErr result (λ e. (content : List ℕ)
        → SectorsHaveContent mini.old links.now len content → IsAheadOf content ahead.old
        → IsFaultOrInvalidInputIf ⊥ e) }
    ensures kept { (content : List ℕ) → SectorsHaveContent mini.old links.now len content
        → SectorsHaveContent mini.new links.now len content }
    ensures ahead { (content : List ℕ) → SectorsHaveContent mini.old links.now len content
        → IsAheadOf content ahead.old → IsAheadOf content ahead.new }
    ensures most { most_of ahead.new ≡ most_of ahead.old }
    ensures only_reads { OnlyReadsMini mini.old mini.new }
    ensures cause { IfErr result
        (IsJustifiedBySectors (allocator_of mini.old) (allocator_of mini.new)) }
    ensures errors { IfErr result (λ e. IsFaultOrInvalidInputIf ⊥ e ⊎ IsInvalidPlace e) }
{
    let mut bytes = Vec::new(alloc);
    bytes.resize(len as usize, 0)?;
    read_bytes(mini, links, ahead, 0, len, &mut bytes)?;
    Ok(bytes)
}
