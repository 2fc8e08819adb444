//! The bytes of a stream, read from the package's file from a position on.
ghost use Rattle.cfb.specs.Putting.{IsOpenStreamError};
ghost use Rattle.cfb.specs.Streams.{FileHasStream, IsFileMemoryOrFailed};
ghost use Rattle.cfb.specs.Views.{file_case_table, mini_of};
ghost use Rattle.cfb_chains.specs.ChainCalls.{IsInvalidPlace};
ghost use Rattle.cfb_fat.specs.Tables.{has_failed_here, IsJustifiedBySectors};
ghost use Rattle.cfb_medium.specs.Calls.{IsFaultOrInvalidInputIf};
ghost use Rattle.cfb_medium.specs.declared.error.Error.TheVariants.{Failed, InvalidInput};
ghost use Rattle.cfb_mini.specs.Views.{allocator_of};
ghost use Rattle.cfb_sectors.specs.Seeking.{Finds};
ghost use Rattle.cfb_stream_reads.specs.Content.{ReadsPart};
ghost use Rattle.msi.specs.Opened.{file_in, PackageHasContent, OnlyReadsPackage};
ghost use Rattle.msi_spec.specs.Package.{PackageContent};
ghost use Rattle.msi_spec.specs.Streams.{may_name, stream_read};
ghost use Rattle.std.specs.Borrow.{sem, RestsIfErr};
ghost use Rattle.std.specs.Prelude.{◌≡◌, ◌⊎◌, ◌+◌, ◌-◌, ◌<◌, ◌==◌, ◌^◌, ◌≤◌, drop, false, length, min, take, true, Err, IfErr, IfOk, IsErrOf, List, OnErr, ℕ};

use crate::package::Package;
use crate::reading;
use cfb_medium::{Error, ReadMedium};
use cfb_sectors::place_found;
use std::io::SeekFrom;

/// A stream of a package that is read, from a position on. It borrows the package, and takes no memory for the stream's bytes.
#[derive(Drop)]
pub struct ReadStream<'a, F: ReadMedium> {
    pub(crate) package: &'a mut Package<F>,
    pub(crate) len: u64,
    pub(crate) position: u64,
    ghost inside: { position ≤ len },
    ghost small: { len < 2 ^ 63 },
}

impl<F: ReadMedium> Package<F> {
    ghost use Rattle.msi.specs.ReadStreams.{len_of, lender_of, package_of, position_of, FindsBytes, KeepsFoundStream};
    ghost use Rattle.msi.specs.contracts.package.Package.{the_row};

    // Finds the stream of this name, and gives how many bytes it has.
    fn find_stream(&mut self, name: &str) -> Result<u64, Error>
        ensures answer { (P : PackageContent) → PackageHasContent self.old P
            → FindsBytes (λ len. file_in self.new) (λ len. len)
            (stream_read (file_case_table (file_in self.old)) P name.now) result }
        ensures small { IfOk result (λ len. len < 2 ^ 63) }
        ensures when_failed { has_failed_here (allocator_of (mini_of (file_in self.old))) ≡ true
            → IsErrOf result Failed }
        ensures refused_only_if { has_failed_here (allocator_of (mini_of (file_in self.old))) ≡ false
            → may_name (file_case_table (file_in self.old)) name.now ≡ Err InvalidInput
            → IsErrOf result InvalidInput }
        ensures only_reads { OnlyReadsPackage self.old self.new }
        ensures cause { IfErr result (λ e. IsFileMemoryOrFailed (file_in self.old) e
            ⊎ IsOpenStreamError e) }
    {
        if self.store.file.is_failed() {
            return Err(Error::Failed);
        }
        reading::find_stream(&mut self.store.file, name)
    }

    // Fills a buffer with bytes of the stream of so many bytes that was found last, from a place on.
    fn read_found(&mut self, at: u64, len: u64, buffer: &mut [u8]) -> Result<(), Error>
        requires { at + length buffer.old ≤ len }
        ensures part { (content : List ℕ) → FileHasStream (file_in self.old) len content
            → ReadsPart content at buffer.old buffer.new result }
        ensures keeps { KeepsFoundStream len self.old self.new }
        ensures cause { IfErr result
            (IsJustifiedBySectors (allocator_of (mini_of (file_in self.old)))
            (allocator_of (mini_of (file_in self.new)))) }
        ensures errors { IfErr result (λ e. IsFaultOrInvalidInputIf ⊥ e ⊎ IsInvalidPlace e) }
    {
        self.store.file.read_bytes(at, len, buffer)
    }

    /// A stream that belongs to no table, to be read from the file piece by piece. Errors are those of `read_stream`, but that no byte is
    /// read yet: `Failed` after a fault in a write or a commit; else `InvalidInput` where no stream can have the name, `NotFound` where
    /// none has. The one other error is `Memory`, where a package is held. The package is only read.
    pub fn open_stream(&mut self, name: &str) -> Result<ReadStream<'_, F>, Error>
        ensures* lends { sem 𝓛 (RestsIfErr (the_row F.row F.ReadMedium) self.entry lender_of
            result (OnlyReadsPackage self.old)) }
        ensures same_reference { IfOk result (λ s. lender_of s ≡ self.entry.ghost_name) }
        ensures only_reads { IfOk result (λ s. OnlyReadsPackage self.old (package_of s)) }
        ensures at_start { IfOk result (λ s. position_of s ≡ 0) }
        ensures answer { (P : PackageContent) → PackageHasContent self.old P
            → FindsBytes (λ s. file_in (package_of s)) len_of
            (stream_read (file_case_table (file_in self.old)) P name.now) result }
        ensures when_failed { has_failed_here (allocator_of (mini_of (file_in self.old))) ≡ true
            → IsErrOf result Failed }
        ensures refused_only_if { has_failed_here (allocator_of (mini_of (file_in self.old))) ≡ false
            → may_name (file_case_table (file_in self.old)) name.now ≡ Err InvalidInput
            → IsErrOf result InvalidInput }
        ensures cause { IfErr result (λ e. IsFileMemoryOrFailed (file_in self.old) e
            ⊎ IsOpenStreamError e) }
    {
        match self.find_stream(name) {
            Ok(len) => Ok(ReadStream::new(self, len)),
            Err(error) => Err(error),
        }
    }
}

impl<'a, F: ReadMedium> ReadStream<'a, F> {
    ghost use Rattle.msi.specs.ReadStreams.{len_of, lender_of, package_of, position_of, IsFaultOrLost, KeepsReadStream, StreamHasContent};

    // The stream of so many bytes that the package's file has found, at its first byte.
    pub(crate) fn new(over: &'a mut Package<F>, len: u64) -> ReadStream<'a, F>
        requires { len < 2 ^ 63 }
        ensures same_reference { lender_of result ≡ over.entry.ghost_name }
        ensures stream { (package_of result ≡ over.old) × (len_of result ≡ len)
            × (position_of result ≡ 0) }
    {
        ReadStream {
            package: over,
            len,
            position: 0,
        }
    }

    /// How many bytes it has.
    pub fn len(&self) -> u64
        ensures { result ≡ len_of self.now }
    {
        self.len
    }

    /// Whether it has no bytes.
    pub fn is_empty(&self) -> bool
        ensures { result ≡ (len_of self.now == 0) }
    {
        self.len == 0
    }

    /// How many bytes are left from the position on.
    pub fn remaining(&self) -> u64
        ensures { result ≡ len_of self.now - position_of self.now }
    {
        self.len - self.position
    }

    /// Reads what the buffer takes of the bytes from the position on, and moves the position behind that. 0 bytes are read at the end alone,
    /// or into an empty buffer. `InvalidData` or `InvalidInput` where the file hasn't the bytes, which those of a package that is held has;
    /// the other errors are faults. After an error the position stays, and the buffer holds any bytes.
    pub fn read(&mut self, buffer: &mut [u8]) -> Result<usize, Error>
        ensures read { (content : List ℕ) → StreamHasContent self.old content → IfOk result (λ n.
            take n buffer.new ≡ take n (drop (position_of self.old) content)) }
        ensures rest { IfOk result (λ n. drop n buffer.new ≡ drop n buffer.old) }
        ensures count { IfOk result (λ n. n
            ≡ min (len_of self.old - position_of self.old) (length buffer.old)) }
        ensures moved { IfOk result (λ n. position_of self.new ≡ position_of self.old + n) }
        ensures unmoved { OnErr result (position_of self.new ≡ position_of self.old) }
        ensures stays { KeepsReadStream self.old self.new }
        ensures cause { IfErr result
            (IsJustifiedBySectors (allocator_of (mini_of (file_in (package_of self.old))))
            (allocator_of (mini_of (file_in (package_of self.new))))) }
        ensures errors { IfErr result (IsFaultOrLost self.old) }
    {
        let (len, position) = (self.len, self.position);
        let count = (len - position).min(buffer.len() as u64) as usize;
        self.package
            .read_found(position, len, &mut buffer[..count])?;
        self.position = position + count as u64;
        Ok(count)
    }

    /// Moves the position to a place of the stream or to its end, and gives it. `InvalidInput` where it is before the stream or behind
    /// its end; then the position stays.
    pub fn seek(&mut self, from: SeekFrom) -> Result<u64, Error>
        ensures ok { IfOk result (λ n. Finds from (len_of self.old) (position_of self.old) n
            × (position_of self.new ≡ n)) }
        ensures errors { IfErr result (λ e. (e ≡ InvalidInput) × ((n : ℕ)
            → Finds from (len_of self.old) (position_of self.old) n → ⊥)) }
        ensures unmoved { OnErr result (position_of self.new ≡ position_of self.old) }
        ensures stays { KeepsReadStream self.old self.new }
    {
        let Some(place) = place_found(from, self.len, self.position) else {
            return Err(Error::InvalidInput);
        };
        self.position = place;
        Ok(place)
    }
}
