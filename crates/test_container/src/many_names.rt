//! Streams with many names in one storage, made and removed one by one.
use crate::calls;
use cfb::CompoundFile;
use cfb_medium::{Error, Medium, ReadMedium};
use std::alloc::Global;
use test_support::Row;

// Odd, so that no two numbers give one name; its multiples lie far apart.
const STEP: u32 = 2_654_435_761;

/// Makes so many streams in the root, in rising, falling or shuffled order of their names, and removes them in the order in which
/// they were made: the sum of all names that the root lists after each of these steps.
pub fn names_sum<F: Medium>(
    alloc: Global,
    file: &mut CompoundFile<F>,
    row: &Row,
) -> Result<String, Error> {
    let count = u32::try_from(row.number(2)).unwrap_or(0);
    let mut sum = 0;
    for number in 0..count {
        calls::create_new_stream(file, &path_of(alloc, row.text(1), number, count)?)?;
        sum = sum_of_names(file, sum)?;
    }
    for number in 0..count {
        calls::remove_stream(file, &path_of(alloc, row.text(1), number, count)?)?;
        sum = sum_of_names(file, sum)?;
    }
    Ok(format!(in alloc; "{sum}")?)
}

// The path of the stream that is made behind so many others.
fn path_of(alloc: Global, order: &str, number: u32, count: u32) -> Result<String, Error> {
    let place = match order {
        "rising" => number,
        "falling" => count.wrapping_sub(number),
        _ => number.wrapping_mul(STEP),
    };
    Ok(format!(in alloc; "/{place:08x}")?)
}

// The sum with the names that the root lists, a slash behind each: to each byte 257 times the sum so far is added.
fn sum_of_names<F: ReadMedium>(file: &CompoundFile<F>, before: u32) -> Result<u32, Error> {
    let mut sum = before;
    for entry in file.read_root_storage()? {
        for byte in entry.name().as_bytes() {
            sum = sum.wrapping_mul(257).wrapping_add(u32::from(*byte));
        }
        sum = sum.wrapping_mul(257).wrapping_add(47);
    }
    Ok(sum)
}
