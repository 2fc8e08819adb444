//! The mini stream, made longer ([MS-CFB] 2.6.2).
ghost use Rattle.cfb_chains.specs.ChainCalls.{IsInvalidOrFull};
ghost use Rattle.cfb_fat.specs.Calls.{FatErrorContract};
ghost use Rattle.cfb_fat.specs.Tables.{has_failed_here, orderly_of, version_of};
ghost use Rattle.cfb_medium.specs.Versions.{sector_len, stream_len_mask};
ghost use Rattle.cfb_medium.specs.declared.error.Error.TheVariants.{Full, InvalidData};
ghost use Rattle.cfb_mini.specs.Changing.{GrowsMiniStream, HasUniqueOwners};
ghost use Rattle.cfb_mini.specs.FatGrowth.{LacksMore};
ghost use Rattle.cfb_mini.specs.Views.{allocator_of, mini_stream_ids, mini_stream_len, MiniMatchesBytes, OnlyReadsMini};
ghost use Rattle.cfb_chain_io.specs.ChainEffects.{KeepsFileInvariants};
ghost use Rattle.std.specs.Prelude.{false, length, true, IsErrOf, IsTrue, List, OnErr, OnOk, ℕ, ◌+◌, ◌<◌, ◌≡◌, ◌⊎◌};

use crate::MiniAllocator;
use crate::fat_growth::start_of;
use crate::places::stream_len;
use cfb_chain_io::set_chain_len;
use cfb_directory::EntryChange;
use cfb_medium::{Error, Medium};
use cfb_sectors::{HasSectors, SectorInit};

impl<F: Medium> MiniAllocator<F> {
    /// Gives the mini stream a sector more, of zeros, and tells the root's entry where it begins and how many bytes it has.
    /// `Full` where the version has no room for its size (in version 3 past 2^32 - 1 bytes) or no number of a sector is left;
    /// `InvalidData` where the FAT's tables can't be changed or haven't the mini stream's chain, or the directory's. After an
    /// error nothing is changed, or it has failed ([MS-CFB] 2.6.2).
    pub fn grow_mini_stream(&mut self) -> Result<(), Error>
        ensures grown { OnOk result ((own : ℕ → List ℕ) → HasUniqueOwners self.old own
            → GrowsMiniStream self.old self.new own) }
        ensures refused_only_if { IsErrOf result InvalidData → (own : ℕ → List ℕ)
            → HasUniqueOwners self.old own
            → IsTrue (orderly_of (allocator_of self.old)) → ⊥ }
        ensures full_only_if { IsErrOf result Full → has_failed_here (allocator_of self.new) ≡ false
            → MiniMatchesBytes self.old
            → LacksMore (allocator_of self.old) (length (mini_stream_ids self.old))
            ⊎ (stream_len_mask (version_of (allocator_of self.old))
            < mini_stream_len self.old + sector_len (version_of (allocator_of self.old))) }
        ensures after_error { OnErr result ((has_failed_here (allocator_of self.new) ≡ true)
            ⊎ OnlyReadsMini self.old self.new) }
        ensures invariants { KeepsFileInvariants (allocator_of self.old) (allocator_of self.new) }
        ensures error_contract { FatErrorContract IsInvalidOrFull result (allocator_of self.old)
            (allocator_of self.new) }
    {
        if self.directory.allocator().is_failed() {
            return Err(Error::Failed);
        }
        let len = stream_len(&self.mini_fat.stream) + self.directory.sector_len() as u64;
        if len > self.directory.version().stream_len_mask() {
            return Err(Error::Full);
        }
        if let Err(error) = set_chain_len(
            self.directory.allocator_mut(),
            &mut self.mini_fat.stream,
            len,
            SectorInit::Zero,
        ) {
            return Err(error);
        }
        let change = EntryChange::Place {
            start_sector: start_of(&self.mini_fat.stream),
            stream_len: len,
        };
        if let Err(error) = self.directory.with_root_dir_entry_mut(change) {
            self.directory.allocator_mut().fail();
            return Err(error);
        }
        Ok(())
    }
}
