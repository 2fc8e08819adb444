//! Streams that leave holes, and grow in pieces.
use crate::files::{Order, PIECE, path_of, write_new, write_piece};
use cfb::{CompoundFile, Stream};
use cfb_medium::{Error, MemoryMedium};
use std::alloc::Global;
use std::io::SeekFrom;

/// The stream to which bytes are appended.
pub(crate) const GROWN: &str = "/grown";

// The two streams to which pieces are appended in turn.
const ONE: &str = "/one";

const OTHER: &str = "/other";

// The bytes that are left of a stream that is cut.
const CUT: u64 = 50;

// The path of every second stream from the first on, or from the second.
fn path_of_second(alloc: Global, n: u32, from: u32) -> Result<String, Error> {
    path_of(alloc, n.wrapping_mul(2).wrapping_add(from), Order::Rising)
}

/// Removes every second of so many streams.
pub(crate) fn remove_second(
    alloc: Global,
    file: &mut CompoundFile<MemoryMedium>,
    count: u32,
) -> Result<(), Error> {
    for n in 0..count / 2 {
        let path = path_of_second(alloc, n, 0)?;
        file.remove_stream(&path)?;
    }
    Ok(())
}

/// Removes each of the others, far from the last, and makes it again.
pub(crate) fn make_again(
    alloc: Global,
    file: &mut CompoundFile<MemoryMedium>,
    count: u32,
) -> Result<(), Error> {
    let half = count / 2;
    for n in 0..half {
        let path = path_of_second(alloc, n.wrapping_mul(7919) % half.max(1), 1)?;
        file.remove_stream(&path)?;
        write_new(alloc, file, &path, PIECE)?;
    }
    Ok(())
}

/// Cuts so many streams to 50 bytes.
pub(crate) fn cut_streams(
    alloc: Global,
    file: &mut CompoundFile<MemoryMedium>,
    count: u32,
) -> Result<(), Error> {
    for n in 0..count {
        let path = path_of(alloc, n, Order::Rising)?;
        cut(file, &path)?;
    }
    Ok(())
}

fn cut(file: &mut CompoundFile<MemoryMedium>, path: &str) -> Result<(), Error> {
    let mut stream = file.open_stream(path)?;
    let done = set_len(&mut stream, CUT);
    let closed = stream.close();
    done?;
    closed
}

// A function of its own, since what is told of the call costs time wherever it is seen.
fn set_len(stream: &mut Stream<'_, MemoryMedium>, len: u64) -> Result<(), Error> {
    stream.set_len(len)
}

/// Appends so many pieces to one of two streams in turn, each by an opening.
pub(crate) fn take_turns(file: &mut CompoundFile<MemoryMedium>, count: u32) -> Result<(), Error> {
    file.create_new_stream(ONE)?;
    file.create_new_stream(OTHER)?;
    append_in_turn(file, count)
}

fn append_in_turn(file: &mut CompoundFile<MemoryMedium>, count: u32) -> Result<(), Error> {
    let piece = [7; PIECE];
    for n in 0..count {
        append(file, if n % 2 == 0 { ONE } else { OTHER }, &piece)?;
    }
    Ok(())
}

/// Appends so many bytes to a stream, each by an opening.
pub(crate) fn append_bytes(file: &mut CompoundFile<MemoryMedium>, count: u32) -> Result<(), Error> {
    for _ in 0..count {
        append(file, GROWN, &[7])?;
    }
    Ok(())
}

fn append(file: &mut CompoundFile<MemoryMedium>, path: &str, bytes: &[u8]) -> Result<(), Error> {
    let mut stream = file.open_stream(path)?;
    let done = write_behind(&mut stream, bytes);
    let closed = stream.close();
    done?;
    closed
}

fn write_behind(stream: &mut Stream<'_, MemoryMedium>, bytes: &[u8]) -> Result<(), Error> {
    stream.seek(SeekFrom::End(0))?;
    write_piece(stream, bytes)
}
