//! The root's size, which covers the mini stream ([MS-CFB] 2.6.3).
ghost use Rattle.cfb_chains.specs.ChainCalls.{IsInvalidOrFull};
ghost use Rattle.cfb_fat.specs.Calls.{FatErrorContract};
ghost use Rattle.cfb_fat.specs.Tables.{version_of};
ghost use Rattle.cfb_medium.specs.Versions.{stream_len_mask};
ghost use Rattle.cfb_medium.specs.declared.error.Error.TheVariants.{Full, InvalidData};
ghost use Rattle.cfb_mini.specs.Changing.{CoversStream, HasUniqueOwners, IsCovered};
ghost use Rattle.cfb_mini.specs.Views.{allocator_of, mini_stream_len, OnlyReadsMini};
ghost use Rattle.cfb_chain_io.specs.ChainEffects.{KeepsFileInvariants};
ghost use Rattle.std.specs.Prelude.{false, true, IsErrOf, List, OnOk, ℕ, ◌<◌, ◌≡◌, ◌⊎◌};

use crate::MiniAllocator;
use crate::fat_growth::start_of;
use crate::places::stream_len;
use cfb_directory::EntryChange;
use cfb_medium::{Error, Medium};
use cfb_sectors::HasSectors;

impl<F: Medium> MiniAllocator<F> {
    // Raises the root's size to that of the mini stream's sectors, where it is smaller: some writers give the root the exact
    // length of what the mini stream holds. `Full` where the version has no room for the size. After an error nothing is
    // changed, or it has failed.
    pub(crate) fn cover_mini_stream(&mut self) -> Result<(), Error>
        ensures covers { OnOk result ((own : ℕ → List ℕ) → HasUniqueOwners self.old own
            → OnlyReadsMini self.old self.new ⊎ CoversStream self.old self.new own) }
        ensures covered { OnOk result (IsCovered self.new) }
        ensures refused_only_if { IsErrOf result InvalidData → (own : ℕ → List ℕ)
            → HasUniqueOwners self.old own → ⊥ }
        ensures full_only_if { IsErrOf result Full
            → stream_len_mask (version_of (allocator_of self.old))
            < mini_stream_len self.old }
        ensures invariants { KeepsFileInvariants (allocator_of self.old) (allocator_of self.new) }
        ensures error_contract { FatErrorContract IsInvalidOrFull result (allocator_of self.old)
            (allocator_of self.new) }
    {
        if self.directory.allocator().is_failed() {
            return Err(Error::Failed);
        }
        let len = stream_len(&self.mini_fat.stream);
        if self.directory.root_dir_entry().stream_len >= len {
            return Ok(());
        }
        if len > self.directory.version().stream_len_mask() {
            return Err(Error::Full);
        }
        let change = EntryChange::Place {
            start_sector: start_of(&self.mini_fat.stream),
            stream_len: len,
        };
        if let Err(error) = self.directory.with_root_dir_entry_mut(change) {
            return Err(error);
        }
        Ok(())
    }
}
