//! Streams of a compound file that are written and read.
use cfb::{CompoundFile, Stream};
use cfb_medium::{Error, Medium, ReadMedium};
use std::alloc::Global;
use std::io::SeekFrom;
use test_support::{Row, bytes_at, runs};

/// Writes bytes into the stream at a path, from a place on or from its end on, or gives it so many bytes.
pub fn change_stream<F: Medium>(
    alloc: Global,
    file: &mut CompoundFile<F>,
    row: &Row,
) -> Result<(), Error> {
    let bytes = bytes_at(alloc, row, 3)?;
    let number = u64::try_from(row.number(2)).unwrap_or(0);
    let mut stream = file.open_stream(row.text(1))?;
    let done = match row.call() {
        "write" => write(&mut stream, number, &bytes),
        "append" => append(&mut stream, number, &bytes),
        _ => stream.set_len(number),
    };
    let closed = stream.close();
    done?;
    closed
}

fn write<F: Medium>(stream: &mut Stream<'_, F>, at: u64, bytes: &[u8]) -> Result<(), Error> {
    stream.seek(SeekFrom::Start(at))?;
    stream.write(bytes)?;
    stream.flush()
}

// Writes bytes in pieces of so many.
fn append<F: Medium>(stream: &mut Stream<'_, F>, count: u64, bytes: &[u8]) -> Result<(), Error> {
    stream.seek(SeekFrom::End(0))?;
    let count = usize::try_from(count).unwrap_or(1);
    for piece in bytes.chunks(count.max(1)) {
        stream.write(piece)?;
    }
    Ok(())
}

/// The bytes of the stream at a path as runs, which are read in pieces of so many.
pub fn pieces_of<F: Medium>(
    alloc: Global,
    file: &mut CompoundFile<F>,
    row: &Row,
) -> Result<String, Error> {
    let count = usize::try_from(row.number(2)).unwrap_or(1).max(1);
    let mut stream = file.open_stream(row.text(1))?;
    let bytes = read_pieces(alloc, &mut stream, count);
    stream.close()?;
    runs(alloc, &bytes?)
}

fn read_pieces<F: ReadMedium>(
    alloc: Global,
    stream: &mut Stream<'_, F>,
    count: usize,
) -> Result<Vec<u8>, Error> {
    let mut bytes = Vec::new(alloc);
    let mut piece = Vec::new(alloc);
    piece.resize(count, 0)?;
    for _ in 0..stream.len() {
        let some = stream.read(&mut piece)?;
        if some == 0 {
            break;
        }
        bytes.extend_from_slice(&piece[..some])?;
    }
    Ok(bytes)
}

/// Each stream with its length and the sum of its bytes.
pub fn sums_of<F: ReadMedium>(alloc: Global, file: &mut CompoundFile<F>) -> Result<String, Error> {
    let mut text = String::new(alloc);
    for entry in file.walk()? {
        if entry.is_stream() {
            let sum = sum_of(&file.read_stream(entry.path())?);
            let (path, len) = (entry.path(), entry.len());
            text.push_str(format!(in alloc; "{path} {len} {sum}, ")?.as_str())?;
        }
    }
    Ok(text)
}

/// The sum of bytes, to each of which 257 times the sum so far is added.
pub fn sum_of(bytes: &[u8]) -> u32 {
    let mut sum = 0u32;
    for byte in bytes {
        sum = sum.wrapping_mul(257).wrapping_add(u32::from(*byte));
    }
    sum
}
