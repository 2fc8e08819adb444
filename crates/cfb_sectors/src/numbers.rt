//! Numbers in bytes, lowest byte first: read one by one or all, and appended.
ghost use Rattle.cfb_medium.specs.Numbers.{number_bytes, numbers, u16_at, u32_at, u64_at};
ghost use Rattle.cfb_sectors.specs.Appended.{IsPrefixOf};
ghost use Rattle.std.specs.Int.{to_le_bytes, w16, w32};
ghost use Rattle.std.specs.List.{flat_map, AllByRecursion};
ghost use Rattle.std.specs.Prelude.{length, replicate, slice_range, IfOk, OnOk, ◌*◌, ◌+◌, ◌++◌, ◌<◌, ◌≡◌, ◌≤◌, ◌^◌};

use crate::consts::NUM_DIFAT_ENTRIES_IN_HEADER;
use std::alloc::{AllocError, Global};

/// The number in the two bytes from this place on.
pub fn u16_at(bytes: &[u8], place: usize) -> u16
    requires { place + 2 ≤ length bytes.now }
    ensures { result ≡ u16_at bytes.now place }
{
    let part = &bytes[place..place + 2];
    u16::from_le_bytes([part[0], part[1]])
}

/// The number in the four bytes from this place on.
pub fn u32_at(bytes: &[u8], place: usize) -> u32
    requires { place + 4 ≤ length bytes.now }
    ensures { result ≡ u32_at bytes.now place }
{
    let part = &bytes[place..place + 4];
    u32::from_le_bytes([part[0], part[1], part[2], part[3]])
}

/// The number in the eight bytes from this place on.
pub fn u64_at(bytes: &[u8], place: usize) -> u64
    requires { place + 8 ≤ length bytes.now }
    ensures { result ≡ u64_at bytes.now place }
{
    let part = &bytes[place..place + 8];
    u64::from_le_bytes([
        part[0], part[1], part[2], part[3], part[4], part[5], part[6], part[7],
    ])
}

/// All numbers of four bytes.
pub fn numbers_in(alloc: Global, bytes: &[u8]) -> Result<Vec<u32>, AllocError>
    ensures { IfOk result (λ found. found.items ≡ numbers bytes.now) }
{
    let mut found = Vec::new(alloc);
    for i in 0..bytes.len() / 4 {
        found.push(u32_at(bytes, 4 * i))?;
    }
    Ok(found)
}

// The numbers of four bytes that as many bytes hold as a header has DIFAT entries.
pub(crate) fn difat_numbers(bytes: &[u8]) -> [u32; NUM_DIFAT_ENTRIES_IN_HEADER]
    requires { length bytes.now ≡ 436 }
    ensures { result ≡ numbers bytes.now }
{
    let mut found = [0; NUM_DIFAT_ENTRIES_IN_HEADER];
    for i in 0..NUM_DIFAT_ENTRIES_IN_HEADER {
        found[i] = u32_at(bytes, 4 * i);
    }
    found
}

// Appends zeros.
pub(crate) fn push_zeros(out: &mut Vec<u8>, count: usize) -> Result<(), AllocError>
    ensures ok { OnOk result (out.new.items ≡ out.old.items ++ replicate count 0) }
    ensures kept { IsPrefixOf out.old.items out.new.items }
{
    for _i in 0..count {
        out.push(0)?;
    }
    Ok(())
}

// Appends numbers of two bytes.
pub(crate) fn push_u16s(out: &mut Vec<u8>, numbers: &[u16]) -> Result<(), AllocError>
    ensures ok { OnOk result (out.new.items ≡ out.old.items
        ++ flat_map (to_le_bytes w16) numbers.now) }
    ensures kept { IsPrefixOf out.old.items out.new.items }
{
    for number in numbers {
        out.extend_from_slice(&number.to_le_bytes())?;
    }
    Ok(())
}

// Appends numbers of four bytes.
pub(crate) fn push_u32s(out: &mut Vec<u8>, numbers: &[u32]) -> Result<(), AllocError>
    ensures ok { OnOk result (out.new.items ≡ out.old.items ++ number_bytes numbers.now) }
    ensures kept { IsPrefixOf out.old.items out.new.items }
{
    for number in numbers {
        out.extend_from_slice(&number.to_le_bytes())?;
    }
    Ok(())
}

// Numbers of four bytes are below 2 ^ 32, which a proof can't know of those that nobody reads.
pub(crate) fn fit_their_type(numbers: &[u32])
    ensures { AllByRecursion (λ n. n < 2 ^ 32) numbers.now }
{
    let _numbers = numbers;
}
