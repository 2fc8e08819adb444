//! Reading the head of a log, and the runs behind it.
ghost use Rattle.std.specs.Prelude.{◌≡◌, ◌≤◌, ◌<◌, ◌+◌, ◌*◌, ◌^◌, ℕ, Some, None, true, false, if◌then◌else◌, IsTrue, take, drop, length, nat_eq, IfOk, IfErr, IfSome, IsErrOf};
ghost use Rattle.std.specs.List.{starts_with};
ghost use Rattle.staged.specs.Device.{IsDeviceFault};
ghost use Rattle.staged.specs.Log.{number_of, front, pages_told, pages_for, has_head, first_magic, magic};
ghost use Rattle.staged.specs.Reads.{OnlyReadsDevice};
ghost use Rattle.staged.specs.Recovery.{IsMalformedOrFault};
ghost use Rattle.staged.specs.Walk.{IsWholeHead, IsWithin, FindsRun};

use crate::layout::{FIRST_MAGIC, HEAD, HEAD_LEN, MAGIC, PAGE, RUN_HEAD, RUNS};
use crate::{Device, Which};
use cfb_medium::Error;

/// The head of an open log: whether runs tell how many pages they have, the length of the log, that of the home file, and the number of
/// runs.
#[derive(Clone, Copy, Debug)]
pub struct Head {
    pub counted: bool,
    pub log_len: u64,
    pub len: u64,
    pub count: u64,
}

/// A run: the number of its first page, how many they are, and where their bytes begin.
#[derive(Clone, Copy, Debug)]
pub struct Run {
    pub first: u64,
    pub count: u64,
    pub place: u64,
}

/// Reads the head of a log of this length.
pub fn read_head<D: Device>(device: &mut D, log_len: u64) -> Result<Head, Error>
    requires { IsTrue (D.honest device.old) → log_len ≡ length (D.content device.old).log }
    ensures reads { OnlyReadsDevice D.Device device.old device.new }
    ensures least { IfOk result (λ head. 25 ≤ head.log_len) }
    ensures head { IsTrue (D.honest device.old)
        → IfOk result (IsWholeHead (D.content device.old).log) }
    ensures malformed { IsTrue (D.honest device.old) → IsErrOf result Error.InvalidData
        → has_head (D.content device.old).log ≡ false }
    ensures errors { IfErr result (IsMalformedOrFault D.failures device.old device.new) }
{
    if log_len < RUNS {
        return Err(Error::InvalidData);
    }
    let mut start = [0u8; HEAD_LEN];
    device.read_at(Which::Log, HEAD, &mut start)?;
    let Some(counted) = form_in(&start) else {
        return Err(Error::InvalidData);
    };
    Ok(Head {
        counted,
        log_len,
        len: number_in(&start, 8),
        count: number_in(&start, 16),
    })
}

// Whether it is the second form, if the magic of one stands there.
fn form_in(start: &[u8]) -> Option<bool>
    ensures { result
        ≡ (if starts_with nat_eq start.now magic then Some true
        else if starts_with nat_eq start.now first_magic then Some false else None) }
{
    if start.starts_with(MAGIC.as_slice()) {
        return Some(true);
    }
    if start.starts_with(FIRST_MAGIC.as_slice()) {
        return Some(false);
    }
    None
}

// The number of eight bytes at a place.
fn number_in(bytes: &[u8], place: usize) -> u64
    requires { place + 8 ≤ length bytes.now }
    ensures { result ≡ number_of (take 8 (drop place bytes.now)) }
{
    let mut number = [0u8; 8];
    number.copy_from_slice(&bytes[place..place + 8]);
    u64::from_le_bytes(number)
}

/// The run at a place of a log: none where it has no page, doesn't stand whole in the log, or has a page past the length.
pub fn read_run<D: Device>(device: &mut D, head: &Head, place: u64) -> Result<Option<Run>, Error>
    requires { place ≤ head.now.log_len }
    ensures reads { OnlyReadsDevice D.Device device.old device.new }
    ensures errors { IfErr result (IsDeviceFault D.failures device.old device.new) }
    ensures within { IfOk result (λ run. IfSome run (IsWithin head.now)) }
    ensures behind { IfOk result (λ run. IfSome run (λ r. place ≤ r.place)) }
    ensures found { IsTrue (D.honest device.old)
        → head.now.log_len ≡ length (D.content device.old).log
        → IfOk result (FindsRun head.now (D.content device.old).log place) }
{
    let front = front_len(head.counted);
    if front > head.log_len - place {
        return Ok(None);
    }
    let (first, count) = read_front(device, head.counted, place)?;
    let start = place + front;
    if !is_run(first, count, head.log_len - start, head.len.div_ceil(PAGE)) {
        return Ok(None);
    }
    Ok(Some(Run {
        first,
        count,
        place: start,
    }))
}

// How many bytes stand before the pages of a run.
fn front_len(counted: bool) -> u64
    ensures { result ≡ front counted }
{
    if counted { RUN_HEAD as u64 } else { 8 }
}

// Whether a run has a page, has room, and ends before this number.
fn is_run(first: u64, count: u64, room: u64, end: u64) -> bool
    ensures yes { result ≡ true → (0 < count) × (512 * count ≤ room) × (first + count ≤ end) }
    ensures no { result ≡ false → 0 < count → 512 * count ≤ room → end < first + count }
{
    if count == 0 {
        return false;
    }
    if count > room / PAGE {
        return false;
    }
    if first >= end {
        return false;
    }
    count <= end - first
}

// What stands before the pages of a run: the number of the first, and how many they are.
fn read_front<D: Device>(device: &mut D, counted: bool, place: u64) -> Result<(u64, u64), Error>
    requires { place + front counted < 2 ^ 64 }
    ensures reads { OnlyReadsDevice D.Device device.old device.new }
    ensures errors { IfErr result (IsDeviceFault D.failures device.old device.new) }
    ensures first { IsTrue (D.honest device.old)
        → place + front counted ≤ length (D.content device.old).log
        → IfOk result (λ told. told.0
        ≡ number_of (take 8 (drop place (D.content device.old).log))) }
    ensures count { IsTrue (D.honest device.old)
        → place + front counted ≤ length (D.content device.old).log
        → IfOk result (λ told. told.1
        ≡ pages_told counted (drop place (D.content device.old).log)) }
{
    if counted {
        return read_counted(device, place);
    }
    let mut bytes = [0u8; 8];
    device.read_at(Which::Log, place, &mut bytes)?;
    Ok((u64::from_le_bytes(bytes), 1))
}

// The same where the run tells how many pages it has.
fn read_counted<D: Device>(device: &mut D, place: u64) -> Result<(u64, u64), Error>
    ensures reads { OnlyReadsDevice D.Device device.old device.new }
    ensures errors { IfErr result (IsDeviceFault D.failures device.old device.new) }
    ensures first { IsTrue (D.honest device.old)
        → place + 12 ≤ length (D.content device.old).log
        → IfOk result (λ told. told.0
        ≡ number_of (take 8 (drop place (D.content device.old).log))) }
    ensures count { IsTrue (D.honest device.old)
        → place + 12 ≤ length (D.content device.old).log
        → IfOk result (λ told. told.1
        ≡ number_of (take 4 (drop 8 (drop place (D.content device.old).log)))) }
{
    let mut bytes = [0u8; RUN_HEAD];
    device.read_at(Which::Log, place, &mut bytes)?;
    Ok((number_in(&bytes, 0), count_in(&bytes)))
}

// How many pages a run tells to have.
fn count_in(bytes: &[u8; RUN_HEAD]) -> u64
    ensures { result ≡ number_of (take 4 (drop 8 bytes.now)) }
{
    let mut count = [0u8; 4];
    count.copy_from_slice(&bytes[8..]);
    u32::from_le_bytes(count) as u64
}
