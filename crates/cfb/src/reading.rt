//! Streams of a file, opened by their paths and read.
ghost use Rattle.cfb.specs.Putting.{IsOpenStreamError};
ghost use Rattle.cfb.specs.Streams.{bytes_found, file_of, len_of, position_of, StreamHasContent, FileHasStream, FileHoldsTree, IsStreamAt, IsTrueToBytes, IsFileMemoryOrFailed, KeepsStream, ReturnsBytesOrFault, TellsRead, ReturnsStream};
ghost use Rattle.cfb.specs.Views.{ahead_held, file_case_table, mini_of, most_ahead_of, OnlyReadsFile, FileShowsTree};
ghost use Rattle.cfb.specs.contracts.compound_file.CompoundFile.{the_row};
ghost use Rattle.cfb_entries.specs.Rules.{answer_at, names_in};
ghost use Rattle.cfb_chains.specs.ChainCalls.{IsInvalidPlace};
ghost use Rattle.cfb_fat.specs.Tables.{has_failed_here, IsJustifiedBySectors};
ghost use Rattle.cfb_medium.specs.Calls.{IsFaultOrInvalidInputIf};
ghost use Rattle.cfb_spec.specs.TreeRules.{has_bytes, open_read_stream, refused};
ghost use Rattle.cfb_medium.specs.declared.error.Error.TheVariants.{Failed, Memory};
ghost use Rattle.cfb_mini.specs.Views.{allocator_of};
ghost use Rattle.cfb_stream_reads.specs.Content.{count_from, ReadsPart};
ghost use Rattle.cfb_tree.specs.Directory.{Entry};
ghost use Rattle.cfb_tree.specs.Tree.{Tree};
ghost use Rattle.std.specs.Borrow.{sem, RestsIfErr};
ghost use Rattle.std.specs.Prelude.{drop, false, length, min, take, true, IfErr, IfOk, IsErrOf, List, OnOk, ℕ, ◌+◌, ◌-◌, ◌<◌, ◌^◌, ◌≡◌, ◌≤◌, ◌⊎◌};

use crate::{CompoundFile, ReadStream};
use cfb_entries::stream_at;
use cfb_medium::{Error, ReadMedium};
use cfb_stream_reads::{open_stream, read_ahead, read_bytes, read_whole};

impl<F: ReadMedium> CompoundFile<F> {
    // Refuses every call after a fault.
    pub(crate) fn check_live(&self) -> Result<(), Error>
        ensures when_failed { has_failed_here (allocator_of (mini_of self.now)) ≡ true
            → IsErrOf result Failed }
        ensures not_failed { OnOk result
            (has_failed_here (allocator_of (mini_of self.now)) ≡ false) }
        ensures errors { IfErr result (λ e. (e ≡ Failed)
            × (has_failed_here (allocator_of (mini_of self.now)) ≡ true)) }
    {
        if self.is_failed() {
            return Err(Error::Failed);
        }
        Ok(())
    }

    /// Finds the sectors of the stream at a path, from which `read_bytes` reads it then, and gives how many bytes it has. Errors are those of
    /// `open_read_stream`. The file is only read.
    pub fn find_stream(&mut self, path: &str) -> Result<u64, Error>
        ensures only_reads { OnlyReadsFile self.old self.new }
        ensures small { IfOk result (λ len. len < 2 ^ 63) }
        ensures answer { (tree : Tree) → FileShowsTree self.old tree
            → ReturnsStream self.old path.now (λ len. self.new) (λ len. len)
            (answer_at (file_case_table self.old) tree open_read_stream (names_in path.now))
            result }
        ensures bytes { (tree : Tree) → FileHoldsTree self.old tree
            → ReturnsBytesOrFault self.old (λ len. self.new) (λ len. len)
            (answer_at (file_case_table self.old) tree open_read_stream (names_in path.now))
            result }
        ensures found { IfOk result (λ len. IsTrueToBytes self.old
            → FileHasStream self.new len (bytes_found self.new len)) }
        ensures when_failed { has_failed_here (allocator_of (mini_of self.old)) ≡ true
            → IsErrOf result Failed }
        ensures cause { IfErr result (λ e. IsFileMemoryOrFailed self.old e ⊎ IsOpenStreamError e) }
    {
        match self.check_live() {
            Ok(()) => {}
            Err(error) => return Err(error),
        }
        let entry = match stream_at(self.alloc, &self.letters, self.entries(), path) {
            Ok(entry) => entry,
            Err(error) => return Err(error),
        };
        let (start, size) = (entry.start_sector, entry.stream_len);
        let links = match open_stream(&self.mini, start, size) {
            Ok(links) => links,
            Err(error) => return Err(error),
        };
        self.links = links;
        self.stream_id = None;
        self.ahead.clear();
        Ok(size)
    }

    /// The stream at a path, to be read. `InvalidInput` where the path leads above the root, `NotFound` where no object is
    /// there, `InvalidInput` where it is a storage, `InvalidData` where the stream's chain breaks or is too short. The other
    /// errors are `Memory`, and `Failed` after an earlier fault, before all else. The file is only read.
    pub fn open_read_stream(&mut self, path: &str) -> Result<ReadStream<'_, F>, Error>
        ensures* refused_only_if { sem 𝓛 (RestsIfErr (the_row F.row F.ReadMedium) self.entry
            (λ s. s.file.ghost_name) result (OnlyReadsFile self.old)) }
        ensures same_reference { IfOk result (λ s. s.file.ghost_name ≡ self.entry.ghost_name) }
        ensures only_reads { IfOk result (λ s. OnlyReadsFile self.old (file_of s)) }
        ensures at_start { IfOk result (λ s. position_of s ≡ 0) }
        ensures answer { (tree : Tree) → FileShowsTree self.old tree
            → ReturnsStream self.old path.now file_of len_of
            (answer_at (file_case_table self.old) tree open_read_stream (names_in path.now))
            result }
        ensures bytes { (tree : Tree) → FileHoldsTree self.old tree
            → ReturnsBytesOrFault self.old file_of len_of
            (answer_at (file_case_table self.old) tree open_read_stream (names_in path.now))
            result }
        ensures found { IfOk result (λ s. IsTrueToBytes self.old
            → StreamHasContent s (bytes_found (file_of s) (len_of s))) }
        ensures when_failed { has_failed_here (allocator_of (mini_of self.old)) ≡ true
            → IsErrOf result Failed }
        ensures cause { IfErr result (λ e. IsFileMemoryOrFailed self.old e ⊎ IsOpenStreamError e) }
    {
        match self.find_stream(path) {
            Ok(len) => Ok(ReadStream::new(self, len)),
            Err(error) => Err(error),
        }
    }

    /// All bytes of the stream at a path. `Failed` after an earlier fault, before all else; `InvalidInput` where the path leads above
    /// the root, `NotFound` where no object is there, `InvalidInput` where it is a storage, `InvalidData` where the stream's chain
    /// breaks or is too short. The other errors are `Memory` and `Device`. The file is only read ([MS-CFB] 2.6.3).
    pub fn read_stream(&mut self, path: &str) -> Result<Vec<u8>, Error>
        ensures only_reads { OnlyReadsFile self.old self.new }
        ensures answer { (tree : Tree) → FileShowsTree self.old tree
            → TellsRead self.old self.new path.now (λ bytes. bytes.items)
            (answer_at (file_case_table self.old) tree open_read_stream (names_in path.now))
            result }
        ensures bytes { (tree : Tree) → FileHoldsTree self.old tree → IfOk result (λ bytes.
            answer_at (file_case_table self.old) tree open_read_stream (names_in path.now)
            ≡ has_bytes bytes.items) }
        ensures refused_only_if { (tree : Tree) → FileHoldsTree self.old tree
            → IfErr result (λ e. IsFaultOrInvalidInputIf ⊥ e
            ⊎ (answer_at (file_case_table self.old) tree open_read_stream (names_in path.now)
            ≡ refused e)) }
        ensures found { IfOk result (λ bytes. IsTrueToBytes self.old
            → bytes.items ≡ bytes_found self.new (length bytes.items)) }
        ensures when_failed { has_failed_here (allocator_of (mini_of self.old)) ≡ true
            → IsErrOf result Failed }
        ensures cause { IfErr result (λ e. IsJustifiedBySectors (allocator_of (mini_of self.old))
            (allocator_of (mini_of self.new)) e
            × (IsFaultOrInvalidInputIf ⊥ e ⊎ IsOpenStreamError e)) }
    {
        let len = match self.find_stream(path) {
            Ok(len) => len,
            Err(error) => return Err(error),
        };
        let alloc = self.alloc;
        match read_whole(alloc, &mut self.mini, &self.links, &mut self.ahead, len) {
            Ok(bytes) => Ok(bytes),
            Err(error) => Err(error),
        }
    }

    /// Fills the buffer with bytes of the stream of so many bytes whose sectors were found last, from a place on. `InvalidData` or
    /// `InvalidInput` where the file hasn't the bytes; the other errors are faults. A small one is served from what was read ahead. The
    /// file is only read, and reads the same stream then.
    pub fn read_bytes(&mut self, at: u64, len: u64, buffer: &mut [u8]) -> Result<(), Error>
        requires { at + length buffer.old ≤ len }
        ensures part { (content : List ℕ) → FileHasStream self.old len content
            → ReadsPart content at buffer.old buffer.new result }
        ensures keeps { KeepsStream len self.old self.new }
        ensures cause { IfErr result (IsJustifiedBySectors (allocator_of (mini_of self.old))
            (allocator_of (mini_of self.new))) }
        ensures when_failed { has_failed_here (allocator_of (mini_of self.old)) ≡ true
            → IsErrOf result Failed }
        ensures errors { IfErr result (λ e. IsFaultOrInvalidInputIf ⊥ e ⊎ IsInvalidPlace e) }
    {
        if self.is_failed() {
            return Err(Error::Failed);
        }
        read_bytes(
            &mut self.mini,
            &self.links,
            &mut self.ahead,
            at,
            len,
            buffer,
        )
    }

    // Reads ahead from a place of the stream of so many bytes on, where nothing from there on was.
    pub(crate) fn read_more(&mut self, at: u64, len: u64) -> Result<(), Error>
        requires { at ≤ len }
        ensures some { OnOk result (at < len → 0 < count_from (ahead_held self.new) at) }
        ensures keeps { KeepsStream len self.old self.new }
        ensures cause { IfErr result (IsJustifiedBySectors (allocator_of (mini_of self.old))
            (allocator_of (mini_of self.new))) }
        ensures when_failed { has_failed_here (allocator_of (mini_of self.old)) ≡ true
            → IsErrOf result Failed }
        ensures errors { IfErr result (λ e. IsFaultOrInvalidInputIf ⊥ e ⊎ (IsInvalidPlace e
            × ((content : List ℕ) → FileHasStream self.old len content → ⊥))) }
    {
        if self.is_failed() {
            return Err(Error::Failed);
        }
        read_ahead(&mut self.mini, &self.links, &mut self.ahead, at, len)
    }
}
