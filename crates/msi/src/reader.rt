//! The bytes of a stream, read from a position on.
ghost use Rattle.std.specs.Prelude.{◌≡◌, ◌+◌, ◌-◌, ◌==◌, drop, length, min, take, IfErr, IfOk, OnErr, Ok, ℕ};
ghost use Rattle.cfb_medium.specs.declared.error.Error.TheVariants.{InvalidInput};
ghost use Rattle.cfb_sectors.specs.Seeking.{Finds};

use cfb_medium::Error;
use cfb_sectors::place_found;
use std::io::SeekFrom;
use std::marker::Model;

/// A stream that is read, from a position on. It has all bytes of the stream.
#[derive(Drop)]
pub struct StreamReader {
    bytes: Vec<u8>,
    position: usize,
}

impl Model for StreamReader {
    ghost use Rattle.msi.specs.Reading.{Reading};

    ghost Value = { Reading };

    ghost use Rattle.msi.specs.ReadingHeld.{is_inside, reading_of};

    ghost view = { reading_of };

    ghost invariant = { is_inside };
}

impl StreamReader {
    /// The stream of these bytes, at its first one.
    pub(crate) fn new(bytes: Vec<u8>) -> StreamReader
        ensures { result ≡ record { bytes = bytes.items; position = 0 } }
    {
        StreamReader { bytes, position: 0 }
    }

    /// All bytes of the stream.
    pub fn into_bytes(self) -> Vec<u8>
        ensures { result.items ≡ self.bytes }
    {
        self.bytes
    }

    /// How many bytes the stream has.
    pub fn len(&self) -> u64
        ensures { result ≡ length self.now.bytes }
    {
        self.bytes.len() as u64
    }

    /// Whether it has no bytes.
    pub fn is_empty(&self) -> bool
        ensures { result ≡ (length self.now.bytes == 0) }
    {
        self.bytes.is_empty()
    }

    /// How many bytes are left from the position on.
    pub fn remaining(&self) -> u64
        ensures { result ≡ length self.now.bytes - self.now.position }
    {
        (self.bytes.len() - self.position) as u64
    }

    /// Reads what the buffer takes of the bytes from the position on, and moves the position behind that. 0 bytes are read at
    /// the end alone, or into an empty buffer. It can't fail.
    pub fn read(&mut self, buffer: &mut [u8]) -> Result<usize, Error>
        ensures count { result
            ≡ Ok (min (length self.old.bytes - self.old.position) (length buffer.old)) }
        ensures read { IfOk result (λ n. take n buffer.new
            ≡ take n (drop self.old.position self.old.bytes)) }
        ensures rest { IfOk result (λ n. drop n buffer.new ≡ drop n buffer.old) }
        ensures moved { IfOk result (λ n. self.new.position ≡ self.old.position + n) }
        ensures bytes { self.new.bytes ≡ self.old.bytes }
    {
        let count = (self.bytes.len() - self.position).min(buffer.len());
        let end = self.position + count;
        buffer[..count].copy_from_slice(&self.bytes[self.position..end]);
        self.position = end;
        Ok(count)
    }

    /// Moves the position to a place of the stream or to its end, and gives it. `InvalidInput` where it is before the stream or
    /// behind its end; then the position stays.
    pub fn seek(&mut self, from: SeekFrom) -> Result<u64, Error>
        ensures ok { IfOk result (λ n. Finds from (length self.old.bytes) self.old.position n
            × (self.new.position ≡ n)) }
        ensures errors { IfErr result (λ e. (e ≡ InvalidInput) × ((n : ℕ)
            → Finds from (length self.old.bytes) self.old.position n → ⊥)) }
        ensures unmoved { OnErr result (self.new.position ≡ self.old.position) }
        ensures bytes { self.new.bytes ≡ self.old.bytes }
    {
        let Some(place) = place_found(from, self.len(), self.position as u64) else {
            return Err(Error::InvalidInput);
        };
        self.position = place as usize;
        Ok(place)
    }
}
