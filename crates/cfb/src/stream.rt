//! A stream's bytes from a position on.
ghost use Rattle.cfb.specs.Views.{mini_of, most_ahead_of};
ghost use Rattle.cfb_fat.specs.Tables.{IsJustifiedBySectors};
ghost use Rattle.cfb_medium.specs.declared.error.Error.TheVariants.{InvalidInput};
ghost use Rattle.cfb_mini.specs.Views.{allocator_of};
ghost use Rattle.cfb_sectors.specs.Seeking.{Finds};
ghost use Rattle.std.specs.Borrow.{sem};
ghost use Rattle.std.specs.Prelude.{drop, length, min, take, IfErr, IfOk, List, OnErr, OnOk, ℕ, ◌+◌, ◌++◌, ◌-◌, ◌<◌, ◌==◌, ◌^◌, ◌≡◌, ◌≤◌, ◌⊎◌, []};
ghost use mir.Syntax.{named};

use crate::CompoundFile;
use cfb_medium::{Error, ReadMedium};
use cfb_sectors::place_found;
use std::io::SeekFrom;

/// A stream that is read, from a position on ([MS-CFB] 2.6.3). It borrows the file.
#[derive(Drop)]
pub struct ReadStream<'a, F: ReadMedium> {
    pub(crate) file: &'a mut CompoundFile<F>,
    pub(crate) len: u64,
    pub(crate) position: u64,
    ghost inside: { position ≤ len },
    ghost small: { len < 2 ^ 63 },
}

impl<'a, F: ReadMedium> ReadStream<'a, F> {
    ghost use Rattle.cfb.specs.Streams.{buffered_of, file_of, len_of, position_of, ReaderFills, StreamHasContent, IsFaultOrLost, KeepsReadStream};
    ghost use Rattle.cfb.specs.contracts.stream.ReadStream.{the_row};
    ghost use Rattle.std.specs.Io.BufRead.{Rests as Leaves};

    // The stream of so many bytes whose sectors the file has found, at its first byte.
    pub(crate) fn new(file: &'a mut CompoundFile<F>, len: u64) -> ReadStream<'a, F>
        requires { len < 2 ^ 63 }
        ensures same_reference { result.file.ghost_name ≡ file.entry.ghost_name }
        ensures stream { (file_of result ≡ file.old) × (len_of result ≡ len)
            × (position_of result ≡ 0) }
    {
        ReadStream {
            file,
            len,
            position: 0,
        }
    }

    /// How many bytes it has.
    pub fn len(&self) -> u64
        ensures { result ≡ len_of self.now }
    {
        self.len
    }

    /// Whether it has no bytes.
    pub fn is_empty(&self) -> bool
        ensures { result ≡ (len_of self.now == 0) }
    {
        self.len == 0
    }

    /// Reads what the buffer takes of the bytes from the position on, and moves the position behind that. 0 bytes are read at
    /// the end alone, or into an empty buffer. `InvalidData` or `InvalidInput` where the file hasn't the bytes; the other errors
    /// are faults. After an error the position stays, and the buffer holds any bytes. A read of less than 1024 bytes is served
    /// from what was read ahead, where that is enough.
    pub fn read(&mut self, buffer: &mut [u8]) -> Result<usize, Error>
        ensures read { (content : List ℕ) → StreamHasContent self.old content → IfOk result (λ n.
            take n buffer.new ≡ take n (drop (position_of self.old) content)) }
        ensures rest { IfOk result (λ n. drop n buffer.new ≡ drop n buffer.old) }
        ensures count { IfOk result (λ n. n
            ≡ min (len_of self.old - position_of self.old) (length buffer.old)) }
        ensures moved { IfOk result (λ n. position_of self.new ≡ position_of self.old + n) }
        ensures unmoved { OnErr result (position_of self.new ≡ position_of self.old) }
        ensures stays { KeepsReadStream self.old self.new }
        ensures cause { IfErr result
            (IsJustifiedBySectors (allocator_of (mini_of (file_of self.old)))
            (allocator_of (mini_of (file_of self.new)))) }
        ensures errors { IfErr result (IsFaultOrLost self.old) }
    {
        let count = (self.len - self.position).min(buffer.len() as u64) as usize;
        self.file
            .read_bytes(self.position, self.len, &mut buffer[..count])?;
        self.position += count as u64;
        Ok(count)
    }

    /// Appends all bytes from the position on, moves the position to the end, and gives how many they were. `InvalidData` or
    /// `InvalidInput` where the file hasn't the bytes; the other errors are faults. After an error position and bytes are as
    /// they were.
    pub fn read_to_end(&mut self, bytes: &mut Vec<u8>) -> Result<usize, Error>
        ensures read { (content : List ℕ) → StreamHasContent self.old content → IfOk result (λ n.
            bytes.new.items ≡ bytes.old.items ++ drop (position_of self.old) content) }
        ensures count { IfOk result (λ n. n ≡ len_of self.old - position_of self.old) }
        ensures moved { IfOk result (λ n. position_of self.new ≡ len_of self.old) }
        ensures unmoved { OnErr result ((position_of self.new ≡ position_of self.old)
            × (bytes.new.items ≡ bytes.old.items)) }
        ensures stays { KeepsReadStream self.old self.new }
        ensures cause { IfErr result
            (IsJustifiedBySectors (allocator_of (mini_of (file_of self.old)))
            (allocator_of (mini_of (file_of self.new)))) }
        ensures errors { IfErr result (IsFaultOrLost self.old) }
    {
        let front = bytes.len();
        let count = (self.len - self.position) as usize;
        let Some(end) = front.checked_add(count) else {
            return Err(Error::Memory);
        };
        bytes.resize(end, 0)?;
        match self.read(&mut bytes[front..]) {
            Ok(count) => Ok(count),
            Err(error) => {
                bytes.truncate(front);
                Err(error)
            }
        }
    }

    /// Reads ahead where no byte from the position on was, so that at least one is but at the end of the stream. `InvalidData` or
    /// `InvalidInput` where the file hasn't the bytes; the other errors are faults. The position stays.
    pub fn fill(&mut self) -> Result<(), Error>
        ensures some { OnOk result (position_of self.old < len_of self.old
            → 0 < buffered_of self.new) }
        ensures unmoved { position_of self.new ≡ position_of self.old }
        ensures stays { KeepsReadStream self.old self.new }
        ensures cause { IfErr result
            (IsJustifiedBySectors (allocator_of (mini_of (file_of self.old)))
            (allocator_of (mini_of (file_of self.new)))) }
        ensures errors { IfErr result (IsFaultOrLost self.old) }
    {
        self.file.read_more(self.position, self.len)
    }

    /// The bytes that were read ahead from the position on: at most so many as the file reads ahead at once.
    pub fn buffer(&self) -> &[u8]
        ensures bytes { (content : List ℕ) → StreamHasContent self.now content → result.now
            ≡ take (length result.now) (drop (position_of self.now) content) }
        ensures count { length result.now ≡ buffered_of self.now }
        ensures most { length result.now ≤ most_ahead_of (file_of self.now) }
    {
        self.file.ahead.within(self.position, self.len)
    }

    /// Reads ahead as `fill` does, and gives the bytes from the position on.
    pub fn fill_buf(&mut self) -> Result<&[u8], Error>
        ensures* leaves { sem 𝓛 (Leaves
            (the_row (record { mir = named 1; lft = [] }) F.row F.ReadMedium) self.entry
            (ReaderFills result self.old)) }
        ensures bytes { (content : List ℕ) → StreamHasContent self.old content
            → IfOk result (λ b. b.now
            ≡ take (length b.now) (drop (position_of self.old) content)) }
        ensures inside { IfOk result (λ b. length b.now ≤ len_of self.old - position_of self.old) }
        ensures most { IfOk result (λ b. length b.now ≤ most_ahead_of (file_of self.old)) }
        ensures some { IfOk result (λ b. length b.now ≡ 0
            → position_of self.old ≡ len_of self.old) }
        ensures errors { IfErr result (IsFaultOrLost self.old) }
    {
        match self.fill() {
            Ok(()) => Ok(self.buffer()),
            Err(error) => Err(error),
        }
    }

    /// Moves the position behind so many bytes, at most those that the stream has left.
    pub fn consume(&mut self, amount: usize)
        requires { position_of self.old + amount ≤ len_of self.old }
        ensures moved { position_of self.new ≡ position_of self.old + amount }
        ensures stays { KeepsReadStream self.old self.new }
    {
        self.position += amount as u64;
    }

    /// Moves the position to a place of the stream or to its end, and gives it. `InvalidInput` where it is before the stream or
    /// behind its end; then the position stays.
    pub fn seek(&mut self, from: SeekFrom) -> Result<u64, Error>
        ensures ok { IfOk result (λ n. Finds from (len_of self.old) (position_of self.old) n
            × (position_of self.new ≡ n)) }
        ensures errors { IfErr result (λ e. (e ≡ InvalidInput) × ((n : ℕ)
            → Finds from (len_of self.old) (position_of self.old) n → ⊥)) }
        ensures unmoved { OnErr result (position_of self.new ≡ position_of self.old) }
        ensures stays { KeepsReadStream self.old self.new }
    {
        let Some(place) = place_found(from, self.len, self.position) else {
            return Err(Error::InvalidInput);
        };
        self.position = place;
        Ok(place)
    }
}
