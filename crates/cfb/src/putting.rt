//! Streams that get their bytes in one call, by their paths.
ghost use Rattle.cfb.specs.Putting.{putting, rewriting, IsFullAt, IsPutStreamError, IsRefusedRewriting, FilePuts};
ghost use Rattle.cfb.specs.Views.{mini_of, most_ahead_of};
ghost use Rattle.cfb_directory.specs.Growth.{LacksEntries};
ghost use Rattle.cfb_entries.specs.Rules.{names_in};
ghost use Rattle.cfb_fat.specs.Calls.{FatErrorContract};
ghost use Rattle.cfb_fat.specs.Tables.{has_failed_here, version_of};
ghost use Rattle.cfb_medium.specs.Versions.{stream_len_mask};
ghost use Rattle.cfb_medium.specs.declared.error.Error.TheVariants.{Full};
ghost use Rattle.cfb_mini.specs.Views.{allocator_of, directory_of};
ghost use Rattle.cfb_chain_io.specs.ChainEffects.{KeepsFileInvariants};
ghost use Rattle.std.specs.Prelude.{false, length, IsErrOf, ◌≡◌, ◌≤◌, ◌⊎◌};

use crate::CompoundFile;
use cfb_medium::{Error, Medium};

impl<F: Medium> CompoundFile<F> {
    /// Gives the stream at a path these bytes in place of its own; it keeps its name and state bits. They have at most as many as
    /// `Version::stream_len_mask` of the file's version tells. `Failed` after an earlier fault, `InvalidData` where the file isn't
    /// sound; then `InvalidInput` where the path leads above the root, `NotFound` where no object is there, `InvalidInput` where it
    /// is a storage. `Full` where numbers of sectors are missing. The other errors are `Memory` and `Device`. After an error nothing
    /// is changed, or the file has failed ([MS-CFB] 2.6.3).
    pub fn rewrite_stream(&mut self, path: &str, bytes: &[u8]) -> Result<(), Error>
        requires { length bytes.now
            ≤ stream_len_mask (version_of (allocator_of (mini_of self.old))) }
        ensures puts { FilePuts (rewriting bytes.now) (names_in path.now) result self.old self.new }
        ensures full_only_if { IsErrOf result Full
            → has_failed_here (allocator_of (mini_of self.new)) ≡ false
            → IsFullAt self.old (names_in path.now) (length bytes.now) }
        ensures invariants { KeepsFileInvariants (allocator_of (mini_of self.old))
            (allocator_of (mini_of self.new)) }
        ensures error_contract { FatErrorContract IsRefusedRewriting result
            (allocator_of (mini_of self.old))
            (allocator_of (mini_of self.new)) }
        ensures most { most_ahead_of self.new ≡ most_ahead_of self.old }
    {
        let (id, len) = match self.find_written(path) {
            Ok(it) => it,
            Err(error) => return Err(error),
        };
        if len == bytes.len() as u64 {
            // (they lie in the sectors that it has)
            if let Err(error) = self.overwrite_bytes(id, 0, bytes) {
                return Err(error);
            }
            return Ok(());
        }
        if let Err(error) = self.extend_bytes(id, 0, bytes, bytes.len() as u64) {
            return Err(error);
        }
        Ok(())
    }

    /// Puts a stream of these bytes at a path: one that is there keeps its name and state bits, and gets the bytes in place of its
    /// own; where none is, one is made. Errors are those of `create_stream`, and what is said of the bytes' number and of what an
    /// error leaves at `rewrite_stream` ([MS-CFB] 2.6.3).
    pub fn put_stream(&mut self, path: &str, bytes: &[u8]) -> Result<(), Error>
        requires { length bytes.now
            ≤ stream_len_mask (version_of (allocator_of (mini_of self.old))) }
        ensures puts { FilePuts (putting bytes.now) (names_in path.now) result self.old self.new }
        ensures full_only_if { IsErrOf result Full
            → has_failed_here (allocator_of (mini_of self.new)) ≡ false
            → LacksEntries (directory_of (mini_of self.old))
            ⊎ IsFullAt self.old (names_in path.now) (length bytes.now) }
        ensures invariants { KeepsFileInvariants (allocator_of (mini_of self.old))
            (allocator_of (mini_of self.new)) }
        ensures error_contract { FatErrorContract IsPutStreamError result
            (allocator_of (mini_of self.old))
            (allocator_of (mini_of self.new)) }
        ensures most { most_ahead_of self.new ≡ most_ahead_of self.old }
    {
        if self.is_stream(path) {
            if let Err(error) = self.rewrite_stream(path, bytes) {
                return Err(error);
            }
            return Ok(());
        }
        if let Err(error) = self.create_new_stream(path) {
            return Err(error);
        }
        if let Err(error) = self.rewrite_stream(path, bytes) {
            self.mini.fail();
            return Err(error);
        }
        Ok(())
    }
}
