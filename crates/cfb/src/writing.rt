//! Streams of a file, opened by their paths and written.
ghost use Rattle.cfb.specs.FollowedRules.{FileMeansTree};
ghost use Rattle.cfb.specs.Putting.{IsOpenStreamError};
ghost use Rattle.cfb.specs.Streams.{IsFileMemoryOrFailed, KeepsStream};
ghost use Rattle.cfb.specs.Views.{file_case_table, mini_of, links_held, most_ahead_of, sound_of, stream_known, validation_of, HoldsLinks, OnlyReadsFile};
ghost use Rattle.cfb.specs.Writing.{file_under, place_of, FindsWritten, IsLostAt, StreamIsWritten, KeepsAt, LacksRoomAt, Opens, RewritesAt};
ghost use Rattle.cfb.specs.contracts.compound_file.CompoundFile.{the_row};
ghost use Rattle.cfb_chains.specs.ChainCalls.{IsInvalidPlace};
ghost use Rattle.cfb_entries.specs.Rules.{answer_at, names_in};
ghost use Rattle.cfb_fat.specs.Calls.{FatErrorContract};
ghost use Rattle.cfb_fat.specs.Tables.{has_failed_here, version_of, IsJustifiedBySectors};
ghost use Rattle.cfb_medium.specs.Calls.{IsFaultOrInvalidInputIf};
ghost use Rattle.cfb_spec.specs.TreeRules.{open_stream, refused};
ghost use Rattle.cfb_medium.specs.Bytes.{overwritten};
ghost use Rattle.cfb_medium.specs.Versions.{stream_len_mask};
ghost use Rattle.cfb_medium.specs.declared.error.Error.TheVariants.{Failed, Full, InvalidData, InvalidInput};
ghost use Rattle.cfb_mini.specs.Views.{allocator_of};
ghost use Rattle.cfb_chain_io.specs.ChainEffects.{KeepsFileInvariants, IsInvalidPlaceOrFull};
ghost use Rattle.cfb_tree.specs.Paths.{Path};
ghost use Rattle.cfb_tree.specs.Tree.{Tree};
ghost use Rattle.cfb_stream_writes.specs.Streams.{resized, AreLinksOf, IsPastNumbers};
ghost use Rattle.std.specs.Borrow.{sem, RestsIfErr};
ghost use Rattle.std.specs.Prelude.{false, length, true, IfErr, IfOk, IsErrOf, IsTrue, List, OnErr, OnOk, Some, ℕ, ◌+◌, ◌<◌, ◌^◌, ◌≡◌, ◌⊎◌};

use crate::{CompoundFile, Stream};
use cfb_medium::{Error, Medium, ReadMedium};
use cfb_stream_reads::{StreamLinks, open_stream as find_sectors};
use cfb_stream_writes::{
    can_outgrow, find_stream, outgrow_stream, overwrite_stream, resize_stream,
};

impl<F: ReadMedium> CompoundFile<F> {
    // Whether its links are those of the stream of this entry, which has so many bytes: 4096 or more, where it was the last one that
    // was found, and nothing was changed since but through it.
    fn holds(&self, id: u32, size: u64) -> bool
        ensures links { IsTrue result → HoldsLinks self.now
            → AreLinksOf id (links_held self.now) (mini_of self.now) }
        ensures one { IsTrue result → (other : ℕ) → stream_known self.now ≡ Some other → other ≡ id }
        ensures small { IsTrue result → size < 2 ^ 63 }
    {
        let (StreamLinks::Long(links), Some(stream_id)) = (&self.links, self.stream_id) else {
            return false;
        };
        let room = links.sector_ids().len() as u64 * links.version().sector_len() as u64;
        stream_id == id && size <= room
    }

    // Finds the entry and the sectors of the stream at a path, and gives the entry's number and how many bytes the stream has.
    // Nothing is read ahead of it yet.
    pub(crate) fn find_written(&mut self, path: &str) -> Result<(u32, u64), Error>
        ensures only_reads { OnlyReadsFile self.old self.new }
        ensures small { IfOk result (λ it. it.1 < 2 ^ 63) }
        ensures found { (tree : Tree) → (m : FileMeansTree self.old tree) → IfOk result (λ it.
            FindsWritten self.old self.new (names_in path.now) tree it.0 it.1 m.live.who) }
        ensures refused_only_if { (tree : Tree) → FileMeansTree self.old tree
            → IfErr result (λ e. IsFileMemoryOrFailed self.old e
            ⊎ (answer_at (file_case_table self.old) tree open_stream (names_in path.now)
            ≡ refused e)) }
        ensures when_failed { has_failed_here (allocator_of (mini_of self.old)) ≡ true
            → IsErrOf result Failed }
        ensures unsound { has_failed_here (allocator_of (mini_of self.old)) ≡ false
            → sound_of self.old ≡ false → IsErrOf result InvalidData }
        ensures errors { IfErr result (λ e. IsFileMemoryOrFailed self.old e ⊎ IsOpenStreamError e) }
    {
        match self.check_live() {
            Ok(()) => {}
            Err(error) => return Err(error),
        }
        if !self.is_sound {
            return Err(Error::InvalidData);
        }
        let id = match find_stream(self.alloc, &self.mini, &self.letters, path) {
            Ok(id) => id,
            Err(error) => return Err(error),
        };
        let entry = self.mini.directory().dir_entry(id);
        let (start, size) = (entry.start_sector, entry.stream_len);
        if self.holds(id, size) {
            self.ahead.clear();
            return Ok((id, size));
        }
        let links = match find_sectors(&self.mini, start, size) {
            Ok(links) => links,
            Err(error) => return Err(error),
        };
        self.links = links;
        self.stream_id = Some(id);
        self.ahead.clear();
        Ok((id, size))
    }

    /// The stream at a path, to be read and written. `Failed` after an earlier fault, `InvalidData` where the file isn't sound;
    /// then `InvalidInput` where the path leads above the root, `NotFound` where no object is there, `InvalidInput` where it is a
    /// storage. The one other error is `Memory`. The file is only read ([MS-CFB] 2.6.3).
    pub fn open_stream(&mut self, path: &str) -> Result<Stream<'_, F>, Error>
        ensures* only_reads { sem 𝓛 (RestsIfErr (the_row F.row F.ReadMedium) self.entry
            (λ s. s.file.ghost_name) result (OnlyReadsFile self.old)) }
        ensures same_reference { IfOk result (λ s.
            s.file.ghost_name ≡ self.entry.ghost_name) }
        ensures read { IfOk result (λ s. OnlyReadsFile self.old (file_under s)) }
        ensures at_start { IfOk result (λ s. place_of s ≡ 0) }
        ensures opened { (tree : Tree) → (m : FileMeansTree self.old tree)
            → IfOk result (Opens (names_in path.now) self.old tree m.live.who) }
        ensures refused_only_if { (tree : Tree) → FileMeansTree self.old tree
            → IfErr result (λ e. IsFileMemoryOrFailed self.old e
            ⊎ (answer_at (file_case_table self.old) tree open_stream (names_in path.now)
            ≡ refused e)) }
        ensures when_failed { has_failed_here (allocator_of (mini_of self.old)) ≡ true
            → IsErrOf result Failed }
        ensures unsound { has_failed_here (allocator_of (mini_of self.old)) ≡ false
            → sound_of self.old ≡ false → IsErrOf result InvalidData }
    {
        match self.find_written(path) {
            Ok((id, len)) => Ok(Stream::new(self, id, len)),
            Err(error) => Err(error),
        }
    }
}

impl<F: Medium> CompoundFile<F> {
    // Passes on what the medium keeps back; the stream of so many bytes that was opened stays.
    pub(crate) fn flush_under(&mut self, len: u64) -> Result<(), Error>
        ensures keeps { KeepsStream len self.old self.new }
        ensures when_failed { has_failed_here (allocator_of (mini_of self.old)) ≡ true
            → IsErrOf result Failed }
        ensures cause { IfErr result (IsJustifiedBySectors (allocator_of (mini_of self.old))
            (allocator_of (mini_of self.new))) }
        ensures errors { IfErr result (IsFaultOrInvalidInputIf ⊥) }
    {
        self.mini.flush()
    }

    // Writes over bytes of the stream that was opened, from a place on. `InvalidInput` where they don't lie in it.
    pub(crate) fn overwrite_bytes(&mut self, id: u32, at: u64, bytes: &[u8]) -> Result<(), Error>
        ensures written { OnOk result (RewritesAt id (λ content. overwritten content at bytes.now)
            self.old self.new) }
        ensures past { IsErrOf result InvalidInput → (path : Path) (tree : Tree) (content : List ℕ)
            → StreamIsWritten self.old path tree id content
            → length content < at + length bytes.now }
        ensures refused_only_if { IsErrOf result InvalidData → IsLostAt id self.old }
        ensures kept { OnErr result ((has_failed_here (allocator_of (mini_of self.new)) ≡ true)
            ⊎ KeepsAt id self.old self.new) }
        ensures invariants { KeepsFileInvariants (allocator_of (mini_of self.old))
            (allocator_of (mini_of self.new)) }
        ensures error_contract { FatErrorContract IsInvalidPlace result
            (allocator_of (mini_of self.old))
            (allocator_of (mini_of self.new)) }
        ensures seen { (file_case_table self.new ≡ file_case_table self.old)
            × (sound_of self.new ≡ sound_of self.old)
            × (validation_of self.new ≡ validation_of self.old) }
        ensures most { most_ahead_of self.new ≡ most_ahead_of self.old }
    {
        if let Err(error) = overwrite_stream(&mut self.mini, id, &self.links, at, bytes) {
            return Err(error);
        }
        self.ahead.clear();
        Ok(())
    }

    // Makes the stream that was opened so many bytes long. `InvalidInput` where the size doesn't fit into an entry.
    pub(crate) fn resize_bytes(&mut self, id: u32, len: u64) -> Result<(), Error>
        ensures resized { OnOk result (RewritesAt id (resized len) self.old self.new) }
        ensures large { IsErrOf result InvalidInput
            → stream_len_mask (version_of (allocator_of (mini_of self.old))) < len }
        ensures refused_only_if { IsErrOf result InvalidData → IsLostAt id self.old }
        ensures kept { OnErr result ((has_failed_here (allocator_of (mini_of self.new)) ≡ true)
            ⊎ KeepsAt id self.old self.new) }
        ensures full_only_if { IsErrOf result Full
            → has_failed_here (allocator_of (mini_of self.new)) ≡ false
            → LacksRoomAt id len self.old }
        ensures spared { IsPastNumbers (version_of (allocator_of (mini_of self.old))) len
            → OnOk result ⊥ × KeepsAt id self.old self.new }
        ensures invariants { KeepsFileInvariants (allocator_of (mini_of self.old))
            (allocator_of (mini_of self.new)) }
        ensures error_contract { FatErrorContract IsInvalidPlaceOrFull result
            (allocator_of (mini_of self.old))
            (allocator_of (mini_of self.new)) }
        ensures seen { (file_case_table self.new ≡ file_case_table self.old)
            × (sound_of self.new ≡ sound_of self.old)
            × (validation_of self.new ≡ validation_of self.old) }
        ensures most { most_ahead_of self.new ≡ most_ahead_of self.old }
    {
        if let Err(error) = resize_stream(self.alloc, &mut self.mini, id, &mut self.links, len) {
            return Err(error);
        }
        self.ahead.clear();
        Ok(())
    }

    // Makes the stream that was opened longer, up to the end of bytes that are written from a place on. After an error nothing is
    // changed, or it has failed.
    pub(crate) fn extend_bytes(
        &mut self,
        id: u32,
        at: u64,
        bytes: &[u8],
        end: u64,
    ) -> Result<(), Error>
        requires { end ≡ at + length bytes.now }
        ensures written { OnOk result (RewritesAt id
            (λ content. overwritten (resized end content) at bytes.now) self.old self.new) }
        ensures large { IsErrOf result InvalidInput → (path : Path) (tree : Tree)
            (content : List ℕ) → StreamIsWritten self.old path tree id content
            → stream_len_mask (version_of (allocator_of (mini_of self.old))) < end }
        ensures refused_only_if { IsErrOf result InvalidData → IsLostAt id self.old }
        ensures kept { OnErr result ((has_failed_here (allocator_of (mini_of self.new)) ≡ true)
            ⊎ KeepsAt id self.old self.new) }
        ensures full_only_if { IsErrOf result Full
            → has_failed_here (allocator_of (mini_of self.new)) ≡ false
            → LacksRoomAt id end self.old }
        ensures invariants { KeepsFileInvariants (allocator_of (mini_of self.old))
            (allocator_of (mini_of self.new)) }
        ensures error_contract { FatErrorContract IsInvalidPlaceOrFull result
            (allocator_of (mini_of self.old))
            (allocator_of (mini_of self.new)) }
        ensures seen { (file_case_table self.new ≡ file_case_table self.old)
            × (sound_of self.new ≡ sound_of self.old)
            × (validation_of self.new ≡ validation_of self.old) }
        ensures most { most_ahead_of self.new ≡ most_ahead_of self.old }
    {
        if can_outgrow(&self.mini, id, &self.links, at, end) {
            let (mini, links) = (&mut self.mini, &mut self.links);
            if let Err(error) = outgrow_stream(self.alloc, mini, id, links, at, bytes, end) {
                return Err(error);
            }
            self.ahead.clear();
            return Ok(());
        }
        if let Err(error) = self.resize_bytes(id, end) {
            return Err(error);
        }
        if let Err(error) = self.overwrite_bytes(id, at, bytes) {
            self.mini.fail();
            return Err(error);
        }
        Ok(())
    }
}
