//! A stream's bytes, read and written from a position on.
ghost use Rattle.cfb.specs.Views.{file_case_table, mini_of, most_ahead_of};
ghost use Rattle.cfb_chains.specs.ChainCalls.{IsInvalidPlace};
ghost use Rattle.cfb_fat.specs.Tables.{has_failed_here, version_of, IsJustifiedBySectors};
ghost use Rattle.cfb_medium.specs.Bytes.{overwritten};
ghost use Rattle.cfb_medium.specs.Calls.{IsFaultOrInvalidInputIf};
ghost use Rattle.cfb_medium.specs.Versions.{stream_len_mask};
ghost use Rattle.cfb_medium.specs.declared.error.Error.TheVariants.{Failed, Full, InvalidData, InvalidInput};
ghost use Rattle.cfb_mini.specs.Views.{allocator_of};
ghost use Rattle.cfb_chain_io.specs.ChainEffects.{KeepsFileInvariants, IsInvalidPlaceOrFull};
ghost use Rattle.cfb_sectors.specs.Seeking.{Finds};
ghost use Rattle.cfb_tree.specs.Paths.{Path};
ghost use Rattle.cfb_tree.specs.Tree.{Tree};
ghost use Rattle.cfb_stream_writes.specs.Streams.{resized, IsPastNumbers};
ghost use Rattle.std.specs.Borrow.{sem};
ghost use Rattle.std.specs.Prelude.{drop, false, length, min, take, true, IfErr, IfOk, IsErrOf, List, OnErr, OnOk, ℕ, ◌+◌, ◌++◌, ◌-◌, ◌<◌, ◌==◌, ◌^◌, ◌≡◌, ◌≤◌, ◌⊎◌, []};
ghost use mir.Syntax.{named};

use crate::CompoundFile;
use cfb_medium::{Error, Medium, ReadMedium};
use cfb_sectors::place_found;
use std::io::SeekFrom;

// So many bytes no stream has: sectors have fewer numbers.
const TOO_MANY: u64 = 1 << 63;

/// A stream that is read and written, from a position on ([MS-CFB] 2.6.3). It borrows the file until it is closed. What is written
/// lies in the file at once, and its entry tells of it.
pub struct Stream<'a, F: ReadMedium> {
    pub(crate) file: &'a mut CompoundFile<F>,
    pub(crate) id: u32,
    pub(crate) len: u64,
    pub(crate) position: u64,
    ghost inside: { position ≤ len },
    ghost small: { len < 2 ^ 63 },
}

impl<'a, F: ReadMedium> Stream<'a, F> {
    ghost use Rattle.cfb.specs.Streams.{FileHasStream, KeepsStream};
    ghost use Rattle.cfb.specs.Writing.{allocator_under, buffered_of, file_under, id_of, place_of, stream_len, StreamFills, IsFaultOrGone, OnlyReadsStream, ClosesToTree};
    ghost use Rattle.cfb.specs.contracts.written_stream.Stream.{the_row};
    ghost use Rattle.std.specs.Io.BufRead.{Rests as Leaves};

    // The stream of an entry, of so many bytes, whose sectors the file has found, at its first byte.
    pub(crate) fn new(file: &'a mut CompoundFile<F>, id: u32, len: u64) -> Stream<'a, F>
        requires { len < 2 ^ 63 }
        ensures same_reference { result.file.ghost_name ≡ file.entry.ghost_name }
        ensures stream { (file_under result ≡ file.old) × (stream_len result ≡ len)
            × (place_of result ≡ 0) × (id_of result ≡ id) }
    {
        Stream {
            file,
            id,
            len,
            position: 0,
        }
    }

    /// How many bytes it has.
    pub fn len(&self) -> u64
        ensures { result ≡ stream_len self.now }
    {
        self.len
    }

    /// Whether it has no bytes.
    pub fn is_empty(&self) -> bool
        ensures { result ≡ (stream_len self.now == 0) }
    {
        self.len == 0
    }

    // So `read` does, in words of the file.
    fn read_some(&mut self, buffer: &mut [u8]) -> Result<usize, Error>
        ensures read { (content : List ℕ)
            → FileHasStream (file_under self.old) (stream_len self.old) content
            → IfOk result (λ n. take n buffer.new ≡ take n (drop (place_of self.old) content)) }
        ensures rest { IfOk result (λ n. drop n buffer.new ≡ drop n buffer.old) }
        ensures count { IfOk result (λ n. n
            ≡ min (stream_len self.old - place_of self.old) (length buffer.old)) }
        ensures moved { IfOk result (λ n. place_of self.new ≡ place_of self.old + n) }
        ensures unmoved { OnErr result (place_of self.new ≡ place_of self.old) }
        ensures same { (self.new.file.ghost_name ≡ self.old.file.ghost_name)
            × (id_of self.new ≡ id_of self.old) × (stream_len self.new ≡ stream_len self.old) }
        ensures stays { KeepsStream (stream_len self.old) (file_under self.old)
            (file_under self.new) }
        ensures cause { IfErr result (IsJustifiedBySectors (allocator_under self.old)
            (allocator_under self.new)) }
        ensures when_failed { has_failed_here (allocator_under self.old) ≡ true
            → IsErrOf result Failed }
        ensures errors { IfErr result (λ e. IsFaultOrInvalidInputIf ⊥ e ⊎ (IsInvalidPlace e
            × ((content : List ℕ)
            → FileHasStream (file_under self.old) (stream_len self.old) content
            → ⊥))) }
    {
        let count = (self.len - self.position).min(buffer.len() as u64) as usize;
        self.file
            .read_bytes(self.position, self.len, &mut buffer[..count])?;
        self.position += count as u64;
        Ok(count)
    }

    /// Reads what the buffer takes of the bytes from the position on, and moves the position behind that. 0 bytes are read at
    /// the end alone, or into an empty buffer. `Failed` after an earlier fault, before all else; each error of a stream that stands
    /// is a fault; after it the position stays, and the buffer holds any bytes.
    pub fn read(&mut self, buffer: &mut [u8]) -> Result<usize, Error>
        ensures read { (path : Path) (tree : Tree) (content : List ℕ)
            → ClosesToTree self.old path tree content → IfOk result (λ n. take n buffer.new
            ≡ take n (drop (place_of self.old) content)) }
        ensures rest { IfOk result (λ n. drop n buffer.new ≡ drop n buffer.old) }
        ensures count { IfOk result (λ n. n ≡ min (stream_len self.old
            - place_of self.old) (length buffer.old)) }
        ensures moved { IfOk result (λ n. place_of self.new
            ≡ place_of self.old + n) }
        ensures unmoved { OnErr result (place_of self.new
            ≡ place_of self.old) }
        ensures only_reads { OnlyReadsStream self.old self.new }
        ensures cause { IfErr result (IsJustifiedBySectors
            (allocator_under self.old)
            (allocator_under self.new)) }
        ensures when_failed { has_failed_here (allocator_under self.old) ≡ true
            → IsErrOf result Failed }
        ensures errors { IfErr result (IsFaultOrGone self.old) }
    {
        self.read_some(buffer)
    }

    /// Appends all bytes from the position on, moves the position to the end, and gives how many they were. `Failed` after an
    /// earlier fault, before all else; each error of a stream that stands is a fault; after it position and bytes are as they were.
    pub fn read_to_end(&mut self, bytes: &mut Vec<u8>) -> Result<usize, Error>
        ensures read { (path : Path) (tree : Tree) (content : List ℕ)
            → ClosesToTree self.old path tree content → IfOk result (λ n. bytes.new.items
            ≡ bytes.old.items ++ drop (place_of self.old) content) }
        ensures count { IfOk result (λ n.
            n ≡ stream_len self.old - place_of self.old) }
        ensures moved { IfOk result (λ n.
            place_of self.new ≡ stream_len self.old) }
        ensures unmoved { OnErr result ((place_of self.new
            ≡ place_of self.old) × (bytes.new.items ≡ bytes.old.items)) }
        ensures only_reads { OnlyReadsStream self.old self.new }
        ensures cause { IfErr result (IsJustifiedBySectors
            (allocator_under self.old)
            (allocator_under self.new)) }
        ensures when_failed { has_failed_here (allocator_under self.old) ≡ true
            → IsErrOf result Failed }
        ensures errors { IfErr result (IsFaultOrGone self.old) }
    {
        if self.file.is_failed() {
            return Err(Error::Failed);
        }
        let front = bytes.len();
        let count = (self.len - self.position) as usize;
        let Some(end) = front.checked_add(count) else {
            return Err(Error::Memory);
        };
        bytes.resize(end, 0)?;
        match self.read(&mut bytes[front..]) {
            Ok(count) => Ok(count),
            Err(error) => {
                bytes.truncate(front);
                Err(error)
            }
        }
    }

    /// Reads ahead where no byte from the position on was, so that at least one is but at the end of the stream. `Failed` after an
    /// earlier fault, before all else; each error of a stream that stands is a fault. The position stays.
    pub fn fill(&mut self) -> Result<(), Error>
        ensures some { OnOk result (place_of self.old < stream_len self.old
            → 0 < buffered_of self.new) }
        ensures unmoved { place_of self.new ≡ place_of self.old }
        ensures only_reads { OnlyReadsStream self.old self.new }
        ensures cause { IfErr result (IsJustifiedBySectors
            (allocator_under self.old)
            (allocator_under self.new)) }
        ensures when_failed { has_failed_here (allocator_under self.old) ≡ true
            → IsErrOf result Failed }
        ensures errors { IfErr result (IsFaultOrGone self.old) }
    {
        self.file.read_more(self.position, self.len)
    }

    /// The bytes that were read ahead from the position on: at most so many as the file reads ahead at once.
    pub fn buffer(&self) -> &[u8]
        ensures bytes { (path : Path) (tree : Tree) (content : List ℕ)
            → ClosesToTree self.now path tree content → result.now
            ≡ take (length result.now) (drop (place_of self.now) content) }
        ensures count { length result.now ≡ buffered_of self.now }
        ensures most { length result.now ≤ most_ahead_of (file_under self.now) }
    {
        self.file.ahead.within(self.position, self.len)
    }

    /// Reads ahead as `fill` does, and gives the bytes from the position on.
    pub fn fill_buf(&mut self) -> Result<&[u8], Error>
        ensures* leaves { sem 𝓛 (Leaves
            (the_row (record { mir = named 1; lft = [] }) F.row F.ReadMedium) self.entry
            (StreamFills result self.old)) }
        ensures bytes { (path : Path) (tree : Tree) (content : List ℕ)
            → ClosesToTree self.old path tree content → IfOk result (λ b. b.now
            ≡ take (length b.now) (drop (place_of self.old) content)) }
        ensures most { IfOk result (λ b. length b.now ≤ most_ahead_of (file_under self.old)) }
        ensures some { IfOk result (λ b. length b.now ≡ 0
            → place_of self.old ≡ stream_len self.old) }
        ensures when_failed { has_failed_here (allocator_under self.old) ≡ true
            → IsErrOf result Failed }
        ensures errors { IfErr result (IsFaultOrGone self.old) }
    {
        match self.fill() {
            Ok(()) => Ok(self.buffer()),
            Err(error) => Err(error),
        }
    }

    /// Moves the position behind so many bytes, at most those that the stream has left.
    pub fn consume(&mut self, amount: usize)
        requires { place_of self.old + amount ≤ stream_len self.old }
        ensures moved { place_of self.new
            ≡ place_of self.old + amount }
        ensures only_reads { OnlyReadsStream self.old self.new }
    {
        self.position += amount as u64;
    }

    /// Moves the position to a place of the stream or to its end, and gives it. `Failed` after an earlier fault, before all else;
    /// `InvalidInput` where it is before the stream or behind its end. After an error the position stays.
    pub fn seek(&mut self, from: SeekFrom) -> Result<u64, Error>
        ensures ok { IfOk result (λ n. Finds from (stream_len self.old)
            (place_of self.old) n × (place_of self.new ≡ n)) }
        ensures errors { IfErr result (λ e. ((e ≡ Failed)
            × (has_failed_here (allocator_under self.old) ≡ true)) ⊎ ((e ≡ InvalidInput)
            × ((n : ℕ) → Finds from (stream_len self.old) (place_of self.old) n → ⊥))) }
        ensures when_failed { has_failed_here (allocator_under self.old) ≡ true
            → IsErrOf result Failed }
        ensures unmoved { OnErr result (place_of self.new
            ≡ place_of self.old) }
        ensures only_reads { OnlyReadsStream self.old self.new }
    {
        if self.file.is_failed() {
            return Err(Error::Failed);
        }
        let Some(place) = place_found(from, self.len, self.position) else {
            return Err(Error::InvalidInput);
        };
        self.position = place;
        Ok(place)
    }
}

impl<'a, F: Medium> Stream<'a, F> {
    ghost use Rattle.cfb.specs.FollowedRules.{FileMeansTree};
    ghost use Rattle.cfb.specs.Writing.{allocator_under, file_under, owners_under, place_of, stream_len, StreamErrorContract, IfStands, IsFullFor, IsStreamLost, StreamKeeps, OnlyReadsStream, RewritesStream, ClosesToTree};

    // Where so many bytes end that are written from the position on.
    fn end_behind(&self, count: usize) -> Result<u64, Error>
        ensures end { IfOk result (λ n. (n ≡ place_of self.now + count)
            × (n < 2 ^ 63) × (n ≤ stream_len_mask (version_of (allocator_under self.now)))) }
        ensures large { IsErrOf result InvalidInput
            → stream_len_mask (version_of (allocator_under self.now))
            < place_of self.now + count }
        ensures many { IsErrOf result Full → 2 ^ 63 ≤ place_of self.now + count }
        ensures errors { IfErr result (λ e. (e ≡ InvalidInput) ⊎ (e ≡ Full)) }
    {
        let end = self.position.saturating_add(count as u64);
        if end > self.file.version().stream_len_mask() {
            return Err(Error::InvalidInput);
        }
        if end >= TOO_MANY {
            return Err(Error::Full);
        }
        Ok(end)
    }

    // Writes over bytes of the stream from the position on, which lie in it.
    fn overwrite(&mut self, bytes: &[u8]) -> Result<usize, Error>
        requires { place_of self.old + length bytes.now ≤ stream_len self.old }
        ensures written { OnOk result (RewritesStream
            (λ content. overwritten content (place_of self.old) bytes.now) self.old self.new) }
        ensures count { IfOk result (λ n. (n ≡ length bytes.now)
            × (place_of self.new ≡ place_of self.old + n)) }
        ensures unmoved { OnErr result (place_of self.new ≡ place_of self.old) }
        ensures large { IsErrOf result InvalidInput → IsStreamLost self.old }
        ensures refused_only_if { IsErrOf result InvalidData → IsStreamLost self.old }
        ensures kept { OnErr result ((has_failed_here (allocator_under self.new) ≡ true)
            ⊎ StreamKeeps self.old self.new) }
        ensures room { IsErrOf result Full → ⊥ }
        ensures error_contract { StreamErrorContract IsInvalidPlaceOrFull result self.old self.new }
    {
        let (id, place) = (self.id, self.position);
        if let Err(error) = self.file.overwrite_bytes(id, place, bytes) {
            return Err(error);
        }
        self.position = place + bytes.len() as u64;
        Ok(bytes.len())
    }

    // Writes bytes from the position on, behind which the stream ends then.
    fn extend(&mut self, bytes: &[u8], end: u64) -> Result<usize, Error>
        requires end { end ≡ place_of self.old + length bytes.now }
        requires small { end < 2 ^ 63 }
        requires behind { stream_len self.old < end }
        ensures written { OnOk result (RewritesStream
            (λ content. overwritten content (place_of self.old) bytes.now) self.old self.new) }
        ensures count { IfOk result (λ n. (n ≡ length bytes.now)
            × (place_of self.new ≡ place_of self.old + n)) }
        ensures unmoved { OnErr result (place_of self.new ≡ place_of self.old) }
        ensures large { IsErrOf result InvalidInput → IfStands self.old
            (stream_len_mask (version_of (allocator_under self.old)) < end) }
        ensures refused_only_if { IsErrOf result InvalidData → IsStreamLost self.old }
        ensures kept { OnErr result ((has_failed_here (allocator_under self.new) ≡ true)
            ⊎ StreamKeeps self.old self.new) }
        ensures full_only_if { IsErrOf result Full
            → has_failed_here (allocator_under self.new) ≡ false
            → IsFullFor self.old end }
        ensures error_contract { StreamErrorContract IsInvalidPlaceOrFull result self.old self.new }
    {
        let (id, place) = (self.id, self.position);
        if let Err(error) = self.file.extend_bytes(id, place, bytes, end) {
            return Err(error);
        }
        self.len = end;
        self.position = end;
        Ok(bytes.len())
    }

    /// Writes all the bytes over those from the position on, and behind the end where the stream becomes longer; the position is
    /// behind them then. They lie in the file at once. `InvalidInput` where the size doesn't fit into an entry (in version 3 past
    /// 2^32 - 1), `Full` where it would have 2^63 bytes or more, or numbers are missing for the further sectors that it needs. The
    /// other errors of a stream that stands are `Memory`, `Device`, and `Failed` after an earlier fault. `InvalidInput` changes
    /// nothing; after another error nothing is changed, or the file has failed ([MS-CFB] 2.6.3).
    pub fn write(&mut self, bytes: &[u8]) -> Result<usize, Error>
        ensures written { OnOk result (RewritesStream
            (λ content. overwritten content (place_of self.old) bytes.now) self.old self.new) }
        ensures count { IfOk result (λ n. (n ≡ length bytes.now)
            × (place_of self.new ≡ place_of self.old + n)) }
        ensures unmoved { OnErr result (place_of self.new ≡ place_of self.old) }
        ensures large { IsErrOf result InvalidInput → IfStands self.old
            (stream_len_mask (version_of (allocator_under self.old))
            < place_of self.old + length bytes.now) }
        ensures unchanged { IsErrOf result InvalidInput → StreamKeeps self.old self.new }
        ensures refused_only_if { IsErrOf result InvalidData → IsStreamLost self.old }
        ensures kept { OnErr result ((has_failed_here (allocator_under self.new) ≡ true)
            ⊎ StreamKeeps self.old self.new) }
        ensures full_only_if { IsErrOf result Full
            → has_failed_here (allocator_under self.new) ≡ false
            → IsFullFor self.old (place_of self.old + length bytes.now) }
        ensures error_contract { StreamErrorContract IsInvalidPlaceOrFull result self.old self.new }
    {
        if self.file.is_failed() {
            return Err(Error::Failed);
        }
        let end = match self.end_behind(bytes.len()) {
            Ok(end) => end,
            Err(error) => return Err(error),
        };
        if end > self.len {
            return self.extend(bytes, end);
        }
        self.overwrite(bytes)
    }

    /// Makes the stream so many bytes long: it keeps its first bytes, and has zeros behind them. A position behind its end moves to
    /// the end. Errors are those of `write`; a size for which no file has numbers of sectors changes nothing ([MS-CFB] 2.2, 2.6.3).
    pub fn set_len(&mut self, len: u64) -> Result<(), Error>
        ensures resized { OnOk result (RewritesStream (resized len) self.old self.new) }
        ensures moved { OnOk result (place_of self.new ≡ min len (place_of self.old)) }
        ensures unmoved { OnErr result (place_of self.new ≡ place_of self.old) }
        ensures large { IsErrOf result InvalidInput
            → stream_len_mask (version_of (allocator_under self.old)) < len }
        ensures unchanged { IsErrOf result InvalidInput → StreamKeeps self.old self.new }
        ensures refused_only_if { IsErrOf result InvalidData → IsStreamLost self.old }
        ensures kept { OnErr result ((has_failed_here (allocator_under self.new) ≡ true)
            ⊎ StreamKeeps self.old self.new) }
        ensures full_only_if { IsErrOf result Full
            → has_failed_here (allocator_under self.new) ≡ false
            → IsFullFor self.old len }
        ensures spared { IsPastNumbers (version_of (allocator_under self.old)) len
            → OnOk result ⊥ × StreamKeeps self.old self.new }
        ensures error_contract { StreamErrorContract IsInvalidPlaceOrFull result self.old self.new }
    {
        if self.file.is_failed() {
            return Err(Error::Failed);
        }
        if len > self.file.version().stream_len_mask() {
            return Err(Error::InvalidInput);
        }
        if len >= TOO_MANY {
            return Err(Error::Full);
        }
        self.resize(len)
    }

    // Makes the stream so many bytes long.
    fn resize(&mut self, len: u64) -> Result<(), Error>
        requires { len < 2 ^ 63 }
        ensures resized { OnOk result (RewritesStream (resized len) self.old self.new) }
        ensures moved { OnOk result (place_of self.new ≡ min len (place_of self.old)) }
        ensures unmoved { OnErr result (place_of self.new ≡ place_of self.old) }
        ensures large { IsErrOf result InvalidInput
            → stream_len_mask (version_of (allocator_under self.old)) < len }
        ensures refused_only_if { IsErrOf result InvalidData → IsStreamLost self.old }
        ensures kept { OnErr result ((has_failed_here (allocator_under self.new) ≡ true)
            ⊎ StreamKeeps self.old self.new) }
        ensures full_only_if { IsErrOf result Full
            → has_failed_here (allocator_under self.new) ≡ false
            → IsFullFor self.old len }
        ensures spared { IsPastNumbers (version_of (allocator_under self.old)) len
            → OnOk result ⊥ × StreamKeeps self.old self.new }
        ensures error_contract { StreamErrorContract IsInvalidPlaceOrFull result self.old self.new }
    {
        let id = self.id;
        if let Err(error) = self.file.resize_bytes(id, len) {
            return Err(error);
        }
        self.position = self.position.min(len);
        self.len = len;
        Ok(())
    }

    /// Passes on what the medium keeps back, and publishes nothing; the stream is as it was, also after an error. `Failed` after an
    /// earlier fault; the other errors are `Memory` and `Device`.
    pub fn flush(&mut self) -> Result<(), Error>
        ensures only_reads { OnlyReadsStream self.old self.new }
        ensures unmoved { place_of self.new ≡ place_of self.old }
        ensures when_failed { has_failed_here (allocator_under self.old) ≡ true
            → IsErrOf result Failed }
        ensures cause { IfErr result (IsJustifiedBySectors (allocator_under self.old)
            (allocator_under self.new)) }
        ensures errors { IfErr result (IsFaultOrInvalidInputIf ⊥) }
    {
        let len = self.len;
        self.file.flush_under(len)
    }

    /// Ends the stream: the file means the tree that it stands for. `Failed` where the file has failed, and no other error.
    pub fn close(self) -> Result<(), Error>
        ensures left { self.exit.0.now ≡ file_under self.entry }
        ensures closed { OnOk result ((path : Path) (tree : Tree) (content : List ℕ)
            → (s : ClosesToTree self.entry path tree content)
            → (m : FileMeansTree self.exit.0.now tree) × (m.live.who ≡ owners_under s)) }
        ensures not_failed { OnOk result (has_failed_here (allocator_under self.entry) ≡ false) }
        ensures when_failed { IfErr result (λ e. (e ≡ Failed)
            × (has_failed_here (allocator_under self.entry) ≡ true)) }
    {
        let Stream {
            file,
            id: _,
            len: _,
            position: _,
        } = self;
        file.check_live()
    }
}
