//! Streams that get their bytes from another medium, piece by piece, so that no memory is taken for them.
ghost use Rattle.cfb.specs.Pieces.{FillsFrom, IsSourceFault, OnlyReadsSource, PutsFrom, SourceErrorContract};
ghost use Rattle.cfb.specs.Putting.{putting, rewriting, IsFullAt, IsPutStreamError, IsRefusedRewriting};
ghost use Rattle.cfb.specs.Views.{file_case_table, mini_of, most_ahead_of, sound_of, validation_of};
ghost use Rattle.cfb.specs.Writing.{IsLostAt, KeepsAt, LacksRoomAt, RewritesAt, StreamIsWritten};
ghost use Rattle.cfb_chain_io.specs.ChainEffects.{KeepsFileInvariants, IsInvalidPlaceOrFull};
ghost use Rattle.cfb_chains.specs.ChainCalls.{IsInvalidPlace};
ghost use Rattle.cfb_directory.specs.Growth.{LacksEntries};
ghost use Rattle.cfb_entries.specs.Rules.{names_in};
ghost use Rattle.cfb_fat.specs.Tables.{has_failed_here, version_of, IsJustifiedBySectors};
ghost use Rattle.cfb_medium.specs.Bytes.{overwritten};
ghost use Rattle.cfb_medium.specs.Calls.{IsFaultOrInvalidInputIf};
ghost use Rattle.cfb_medium.specs.Versions.{stream_len_mask};
ghost use Rattle.cfb_medium.specs.declared.error.Error.TheVariants.{Full, InvalidData, InvalidInput};
ghost use Rattle.cfb_mini.specs.Views.{allocator_of, directory_of};
ghost use Rattle.cfb_tree.specs.Paths.{Path};
ghost use Rattle.cfb_tree.specs.Tree.{Tree};
ghost use Rattle.std.specs.Prelude.{drop, false, length, take, true, IfErr, IsErrOf, IsTrue, List, OnErr, OnOk, ℕ, ◌+◌, ◌<◌, ◌≡◌, ◌≤◌, ◌⊎◌};

use crate::CompoundFile;
use cfb_medium::{Error, Medium, ReadMedium};

// So many bytes are read at once.
const PIECE: usize = 4096;

// Fills a buffer with the bytes of a source from a place on. `Device` where it gives fewer; after an error the buffer holds any bytes.
fn read_piece<S: ReadMedium>(source: &mut S, at: u64, piece: &mut [u8]) -> Result<(), Error>
    ensures read { OnOk result (IsTrue (S.honest source.old)
        → piece.new ≡ take (length piece.old) (drop at (S.bytes source.old))) }
    ensures only_reads { OnlyReadsSource S.ReadMedium source.old source.new }
    ensures cause { IfErr result
        (IsSourceFault S.ReadMedium (at + length piece.old) source.old source.new) }
    ensures errors { IfErr result (IsFaultOrInvalidInputIf ⊥) }
{
    match source.read_at(at, piece) {
        Ok(count) => {
            if count < piece.len() {
                return Err(Error::Device);
            }
            Ok(())
        }
        Err(error) => Err(error),
    }
}

impl<F: Medium> CompoundFile<F> {
    // Writes the bytes of a source from a place on, as many as the buffer takes, over those of the stream that was opened. After an error
    // nothing is changed, or it has failed.
    fn write_piece<S: ReadMedium>(
        &mut self,
        id: u32,
        source: &mut S,
        at: u64,
        piece: &mut [u8],
    ) -> Result<(), Error>
        ensures written { OnOk result (RewritesAt id (λ content. overwritten content at piece.new)
            self.old self.new) }
        ensures read { OnOk result (IsTrue (S.honest source.old)
            → piece.new ≡ take (length piece.old) (drop at (S.bytes source.old))) }
        ensures past { IsErrOf result InvalidInput → (path : Path) (tree : Tree) (content : List ℕ)
            → StreamIsWritten self.old path tree id content
            → length content < at + length piece.old }
        ensures refused_only_if { IsErrOf result InvalidData → IsLostAt id self.old }
        ensures only_reads { OnlyReadsSource S.ReadMedium source.old source.new }
        ensures invariants { KeepsFileInvariants (allocator_of (mini_of self.old))
            (allocator_of (mini_of self.new)) }
        ensures not_failed { OnOk result (has_failed_here (allocator_of (mini_of self.new)) ≡ false) }
        ensures cause { IfErr result (λ e. IsJustifiedBySectors (allocator_of (mini_of self.old))
            (allocator_of (mini_of self.new)) e
            ⊎ IsSourceFault S.ReadMedium (at + length piece.old) source.old source.new e) }
        ensures errors { IfErr result (λ e. IsFaultOrInvalidInputIf ⊥ e ⊎ IsInvalidPlace e) }
        ensures seen { (file_case_table self.new ≡ file_case_table self.old)
            × (sound_of self.new ≡ sound_of self.old)
            × (validation_of self.new ≡ validation_of self.old) }
        ensures most { most_ahead_of self.new ≡ most_ahead_of self.old }
    {
        if let Err(error) = read_piece(source, at, piece) {
            return Err(error);
        }
        if let Err(error) = self.overwrite_bytes(id, at, piece) {
            return Err(error);
        }
        Ok(())
    }

    // Gives the stream that was opened so many bytes of a source in place of its own. After an error nothing is changed, or it has
    // failed.
    fn fill_bytes<S: ReadMedium>(&mut self, id: u32, source: &mut S, len: u64) -> Result<(), Error>
        ensures filled { OnOk result
            (FillsFrom S.ReadMedium source.old len len id self.old self.new) }
        ensures large { IsErrOf result InvalidInput → (path : Path) (tree : Tree)
            (content : List ℕ) → StreamIsWritten self.old path tree id content
            → stream_len_mask (version_of (allocator_of (mini_of self.old))) < len }
        ensures refused_only_if { IsErrOf result InvalidData → IsLostAt id self.old }
        ensures kept { OnErr result ((has_failed_here (allocator_of (mini_of self.new)) ≡ true)
            ⊎ KeepsAt id self.old self.new) }
        ensures full_only_if { IsErrOf result Full
            → has_failed_here (allocator_of (mini_of self.new)) ≡ false
            → LacksRoomAt id len self.old }
        ensures only_reads { OnlyReadsSource S.ReadMedium source.old source.new }
        ensures invariants { KeepsFileInvariants (allocator_of (mini_of self.old))
            (allocator_of (mini_of self.new)) }
        ensures error_contract { SourceErrorContract S.ReadMedium IsInvalidPlaceOrFull len result
            (allocator_of (mini_of self.old)) (allocator_of (mini_of self.new))
            source.old source.new }
        ensures seen { (file_case_table self.new ≡ file_case_table self.old)
            × (sound_of self.new ≡ sound_of self.old)
            × (validation_of self.new ≡ validation_of self.old) }
        ensures most { most_ahead_of self.new ≡ most_ahead_of self.old }
    {
        if let Err(error) = self.resize_bytes(id, len) {
            return Err(error);
        }
        let mut piece = [0; PIECE];
        let mut at = 0;
        'fill: while at < len {
            let count = (len - at).min(PIECE as u64) as usize;
            if let Err(error) = self.write_piece(id, source, at, &mut piece[..count]) {
                self.mini.fail();
                return Err(error);
            }
            at += count as u64;
        }
        Ok(())
    }

    /// Gives the stream at a path so many bytes of a source, its first ones, in place of its own; it keeps its name and state bits. They
    /// are read in pieces. So many are at most as many as `Version::stream_len_mask` of the file's version tells. Errors are those of
    /// `rewrite_stream`, and those of the source; `Device` where that gives fewer bytes. After an error nothing is changed, or the file has
    /// failed: so it has where the source fails once its bytes were asked for ([MS-CFB] 2.6.3).
    pub fn rewrite_stream_from<S: ReadMedium>(
        &mut self,
        path: &str,
        source: &mut S,
        len: u64,
    ) -> Result<(), Error>
        requires { len ≤ stream_len_mask (version_of (allocator_of (mini_of self.old))) }
        ensures puts { PutsFrom S.ReadMedium rewriting source.old len (names_in path.now) result
            self.old self.new }
        ensures full_only_if { IsErrOf result Full
            → has_failed_here (allocator_of (mini_of self.new)) ≡ false
            → IsFullAt self.old (names_in path.now) len }
        ensures only_reads { OnlyReadsSource S.ReadMedium source.old source.new }
        ensures invariants { KeepsFileInvariants (allocator_of (mini_of self.old))
            (allocator_of (mini_of self.new)) }
        ensures error_contract { SourceErrorContract S.ReadMedium IsRefusedRewriting len result
            (allocator_of (mini_of self.old)) (allocator_of (mini_of self.new))
            source.old source.new }
        ensures most { most_ahead_of self.new ≡ most_ahead_of self.old }
    {
        let (id, _size) = match self.find_written(path) {
            Ok(it) => it,
            Err(error) => return Err(error),
        };
        if let Err(error) = self.fill_bytes(id, source, len) {
            return Err(error);
        }
        Ok(())
    }

    /// Puts a stream of so many bytes of a source, its first ones, at a path: one that is there keeps its name and state bits, and gets the
    /// bytes in place of its own; where none is, one is made. They are read in pieces. Errors are those of `create_stream`, and those of
    /// the source; what is said of the bytes' number and of what an error leaves stands at `rewrite_stream_from` ([MS-CFB] 2.6.3).
    pub fn put_stream_from<S: ReadMedium>(
        &mut self,
        path: &str,
        source: &mut S,
        len: u64,
    ) -> Result<(), Error>
        requires { len ≤ stream_len_mask (version_of (allocator_of (mini_of self.old))) }
        ensures puts { PutsFrom S.ReadMedium putting source.old len (names_in path.now) result
            self.old self.new }
        ensures full_only_if { IsErrOf result Full
            → has_failed_here (allocator_of (mini_of self.new)) ≡ false
            → LacksEntries (directory_of (mini_of self.old))
            ⊎ IsFullAt self.old (names_in path.now) len }
        ensures only_reads { OnlyReadsSource S.ReadMedium source.old source.new }
        ensures invariants { KeepsFileInvariants (allocator_of (mini_of self.old))
            (allocator_of (mini_of self.new)) }
        ensures error_contract { SourceErrorContract S.ReadMedium IsPutStreamError len result
            (allocator_of (mini_of self.old)) (allocator_of (mini_of self.new))
            source.old source.new }
        ensures most { most_ahead_of self.new ≡ most_ahead_of self.old }
    {
        if self.is_stream(path) {
            if let Err(error) = self.rewrite_stream_from(path, source, len) {
                return Err(error);
            }
            return Ok(());
        }
        if let Err(error) = self.create_new_stream(path) {
            return Err(error);
        }
        if let Err(error) = self.rewrite_stream_from(path, source, len) {
            self.mini.fail();
            return Err(error);
        }
        Ok(())
    }
}
