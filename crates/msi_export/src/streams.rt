//! Streams of a package, piece by piece, and by their digests.
ghost use Rattle.std.specs.Prelude.{◌≤◌, length, IfOk};

use cfb_medium::{Error, ReadMedium};
use hex::encode;
use msi::{Package, ReadStream};
use sha2::{Digest, Sha256};
use std::alloc::Global;
use std::io::{self, Write};

// So many bytes are read at once.
const PIECE: usize = 4096;

/// What is told of a stream's bytes.
#[derive(Drop)]
pub struct StreamFacts {
    /// How many there are.
    pub len: u64,
    /// Their SHA-256, in hexadecimal digits.
    pub digest: String,
}

/// Why a stream wasn't copied.
#[derive(Clone, Copy, Debug)]
pub enum CopyError {
    /// It wasn't read.
    Read(Error),
    /// Its bytes weren't written.
    Write(io::ErrorKind),
}

/// What is told of a stream, whose bytes are read piece by piece. Errors are those of `Package::open_stream`, and of its reads.
pub fn facts_of_stream<F: ReadMedium>(
    alloc: Global,
    package: &mut Package<F>,
    name: &str,
) -> Result<StreamFacts, Error> {
    let mut stream = package.open_stream(name)?;
    let len = stream.len();
    let mut hasher = Sha256::new();
    let mut piece = [0u8; PIECE];
    for _ in 0..pieces_of(len) {
        let count = read_piece(&mut stream, &mut piece)?;
        hasher.update(&piece[..count]);
    }
    let digest = encode(alloc, &hasher.finalize())?;
    Ok(StreamFacts { len, digest })
}

/// Writes the bytes of a stream from its position on to an output, piece by piece. After an error a front of them was written.
pub fn copy_stream<F: ReadMedium, W: Write>(
    stream: &mut ReadStream<'_, F>,
    output: &mut W,
) -> Result<(), CopyError> {
    let mut piece = [0u8; PIECE];
    for _ in 0..pieces_of(stream.remaining()) {
        let count = match read_piece(stream, &mut piece) {
            Ok(count) => count,
            Err(error) => return Err(CopyError::Read(error)),
        };
        if let Err(error) = output.write_all(&piece[..count]) {
            return Err(CopyError::Write(error.kind()));
        }
    }
    Ok(())
}

// In how many pieces so many bytes are read.
fn pieces_of(len: u64) -> u64 {
    len.div_ceil(PIECE as u64)
}

// Reads what a buffer takes, and tells how many bytes that is.
fn read_piece<F: ReadMedium>(
    stream: &mut ReadStream<'_, F>,
    piece: &mut [u8],
) -> Result<usize, Error>
    ensures { IfOk result (λ n. n ≤ length piece.new) }
{
    stream.read(piece)
}
