//! Mini chains that are made longer, with what mini FAT and mini stream lack for it ([MS-CFB] 2.4).
ghost use Rattle.cfb_chains.specs.ChainCalls.{IsInvalidOrFull};
ghost use Rattle.cfb_chains.specs.Grown.{IsChainInTable};
ghost use Rattle.cfb_fat.specs.Calls.{FatErrorContract};
ghost use Rattle.cfb_fat.specs.Tables.{has_failed_here, orderly_of, version_of, AllFails, IsJustifiedBySectors};
ghost use Rattle.cfb_medium.specs.Calls.{IsFaultOrInvalidInputIf};
ghost use Rattle.cfb_medium.specs.Versions.{sector_len, stream_len_mask};
ghost use Rattle.cfb_medium.specs.declared.error.Error.TheVariants.{Full, InvalidData};
ghost use Rattle.cfb_mini.specs.Changing.{free_minis, stream_sectors, table_sectors, GrowsMiniFat, GrowsMiniStream, HasUniqueOwners, IsCovered, LacksMiniSectors, LacksOne, LacksTables, AppendsMiniSectors};
ghost use Rattle.cfb_mini.specs.LinkViews.{minis_of};
ghost use Rattle.cfb_mini.specs.Views.{allocator_of, mini_fat_ids, mini_fat_of, mini_stream_ids, MiniMatchesBytes, OnlyReadsMini};
ghost use Rattle.cfb_chain_io.specs.ChainEffects.{KeepsFileInvariants};
ghost use Rattle.cfb_sectors.specs.Sectors.{greatest_regular};
ghost use Rattle.std.specs.Prelude.{false, length, max, true, IfErr, IsErrOf, IsTrue, List, MatchOption, OnErr, OnOk, ℕ, ◌<◌, ◌*◌, ◌+◌, ◌-◌, ◌≡◌, ◌≤◌, ◌⊎◌};

use crate::places::stream_len;
use crate::{MiniAllocator, MiniLinks};
use cfb_medium::{Error, Medium};
use cfb_sectors::{END_OF_CHAIN, HasSectors, MINI_SECTOR_LEN};

impl<F: Medium> MiniAllocator<F> {
    // Gives the mini FAT a sector more where it has no number for a mini sector behind the mini stream, and else the mini
    // stream. After an error nothing is changed, or it has failed.
    fn grow_tables(&mut self) -> Result<(), Error>
        ensures grown { OnOk result ((own : ℕ → List ℕ) → HasUniqueOwners self.old own
            → GrowsMiniFat self.old self.new own ⊎ GrowsMiniStream self.old self.new own) }
        ensures refused_only_if { IsErrOf result InvalidData → (own : ℕ → List ℕ)
            → HasUniqueOwners self.old own
            → IsTrue (orderly_of (allocator_of self.old)) → ⊥ }
        ensures full_only_if { IsErrOf result Full → has_failed_here (allocator_of self.new) ≡ false
            → MiniMatchesBytes self.old → LacksOne self.old }
        ensures after_error { OnErr result ((has_failed_here (allocator_of self.new) ≡ true)
            ⊎ OnlyReadsMini self.old self.new) }
        ensures invariants { KeepsFileInvariants (allocator_of self.old) (allocator_of self.new) }
        ensures error_contract { FatErrorContract IsInvalidOrFull result (allocator_of self.old)
            (allocator_of self.new) }
    {
        let count = self.mini_fat.numbers.items().len() as u64;
        if count <= stream_len(&self.mini_fat.stream) / MINI_SECTOR_LEN as u64 {
            return self.grow_mini_fat();
        }
        self.grow_mini_stream()
    }

    // Takes a mini sector into use behind a mini chain's last one, or where none is free, makes mini FAT or mini stream
    // longer. After an error nothing is changed, or it has failed.
    fn take_or_grow(&mut self, links: &mut MiniLinks) -> Result<(), Error>
        ensures lengthens { OnOk result ((own : ℕ → List ℕ) → HasUniqueOwners self.old own
            → IsChainInTable (mini_fat_of self.old) (minis_of links.old)
            → AppendsMiniSectors self.old self.new (minis_of links.old) (minis_of links.new) own
            × (length (minis_of links.new) ≤ length (minis_of links.old) + 1)) }
        ensures kept { OnErr result (minis_of links.new ≡ minis_of links.old) }
        ensures refused_only_if { IsErrOf result InvalidData → (own : ℕ → List ℕ)
            → HasUniqueOwners self.old own
            → IsChainInTable (mini_fat_of self.old) (minis_of links.old)
            → IsTrue (orderly_of (allocator_of self.old)) → ⊥ }
        ensures full_only_if { IsErrOf result Full → has_failed_here (allocator_of self.new) ≡ false
            → MiniMatchesBytes self.old → LacksOne self.old
            ⊎ (greatest_regular < length (minis_of links.old)) }
        ensures after_error { OnErr result ((has_failed_here (allocator_of self.new) ≡ true)
            ⊎ OnlyReadsMini self.old self.new) }
        ensures invariants { KeepsFileInvariants (allocator_of self.old) (allocator_of self.new) }
        ensures error_contract { FatErrorContract IsInvalidOrFull result (allocator_of self.old)
            (allocator_of self.new) }
    {
        match self.extend_mini_chain(links) {
            Ok(true) => Ok(()),
            Ok(false) => self.grow_tables(),
            Err(error) => Err(error),
        }
    }

    /// Leaves it in a state in which every call is refused, as a fault in a write does: for a layer above, where what it
    /// changes by several calls has come half way.
    pub fn fail(&mut self)
        ensures { AllFails (allocator_of self.old) (allocator_of self.new) }
    {
        self.directory.allocator_mut().fail();
    }

    // Makes a mini chain longer, until it has so many mini sectors. After an error it has failed.
    fn lengthen_on(&mut self, links: &mut MiniLinks, count: usize) -> Result<(), Error>
        requires { has_failed_here (allocator_of self.old) ≡ false }
        ensures lengthened { OnOk result ((own : ℕ → List ℕ) → HasUniqueOwners self.old own
            → IsChainInTable (mini_fat_of self.old) (minis_of links.old)
            → AppendsMiniSectors self.old self.new (minis_of links.old) (minis_of links.new) own
            × (length (minis_of links.new) ≤ max count (length (minis_of links.old)))) }
        ensures enough { OnOk result (count ≤ length (minis_of links.new)) }
        ensures refused_only_if { IsErrOf result InvalidData → (own : ℕ → List ℕ)
            → HasUniqueOwners self.old own
            → IsChainInTable (mini_fat_of self.old) (minis_of links.old)
            → IsTrue (orderly_of (allocator_of self.old)) → ⊥ }
        ensures not_failed { OnOk result (has_failed_here (allocator_of self.new) ≡ false) }
        ensures when_failed { OnErr result (has_failed_here (allocator_of self.new) ≡ true) }
        ensures invariants { KeepsFileInvariants (allocator_of self.old) (allocator_of self.new) }
        ensures cause { IfErr result (IsJustifiedBySectors (allocator_of self.old)
            (allocator_of self.new)) }
        ensures errors { IfErr result (λ e. IsFaultOrInvalidInputIf ⊥ e ⊎ IsInvalidOrFull e) }
    {
        'taking: for _ in 0..u64::MAX {
            if links.mini_sector_ids().len() >= count {
                return Ok(());
            }
            if let Err(error) = self.take_or_grow(links) {
                self.fail();
                return Err(error);
            }
        }
        self.fail();
        Err(Error::Full)
    }

    // How many sectors mini FAT and mini stream take in for so many mini sectors more, of which none is free. `None` where the version has
    // no room for the mini stream's size then.
    fn sectors_wanted(&self, more: u64) -> Option<usize>
        ensures { MatchOption result
            (stream_len_mask (version_of (allocator_of self.now))
            < stream_sectors more self.now * sector_len (version_of (allocator_of self.now)))
            (λ n. n ≡ (stream_sectors more self.now - length (mini_stream_ids self.now))
            + (table_sectors more self.now - length (mini_fat_ids self.now))) }
    {
        let each = self.sector_len() as u64;
        let len = stream_len(&self.mini_fat.stream);
        let size = more.checked_mul(MINI_SECTOR_LEN as u64)?.checked_add(len)?;
        let held = size.div_ceil(each);
        if held.checked_mul(each)? > self.version().stream_len_mask() {
            return None;
        }
        let told = (4 * (len / MINI_SECTOR_LEN as u64 + more)).div_ceil(each);
        let stream = (held as usize).saturating_sub(self.mini_fat.stream.sector_ids().len());
        let table = (told as usize).saturating_sub(self.mini_fat.links.sector_ids().len());
        Some(stream + table)
    }

    // Sees whether so many mini sectors more can be had, and asks for the memory that the FAT's tables may need for them. `Full` where
    // not so many are free, and for the others numbers of sectors are missing, or room for the mini stream's size; `InvalidData` where the
    // FAT's tables can't be changed. Nothing is changed.
    fn prepare_minis(&mut self, count: usize) -> Result<(), Error>
        ensures only_reads { OnlyReadsMini self.old self.new }
        ensures refused_only_if { IsErrOf result InvalidData
            → IsTrue (orderly_of (allocator_of self.old))
            → ⊥ }
        ensures full_only_if { IsErrOf result Full → (free_minis self.old < count)
            × LacksTables (count - free_minis self.old) self.old }
        ensures error_contract { FatErrorContract IsInvalidOrFull result (allocator_of self.old)
            (allocator_of self.new) }
    {
        if self.directory.allocator().is_failed() {
            return Err(Error::Failed);
        }
        let inside = stream_len(&self.mini_fat.stream) / MINI_SECTOR_LEN as u64;
        let free = self.mini_fat.numbers.count_free(inside as usize, count);
        if free == count {
            return Ok(());
        }
        let Some(wanted) = self.sectors_wanted((count - free) as u64) else {
            return Err(Error::Full);
        };
        self.directory
            .allocator_mut()
            .prepare_growth(END_OF_CHAIN, wanted)
    }

    // Makes a mini chain so many mini sectors long, for which there is room. After an error nothing is changed, or it has failed.
    fn lengthen_ready(&mut self, links: &mut MiniLinks, count: usize) -> Result<(), Error>
        ensures lengthened { OnOk result ((own : ℕ → List ℕ) → HasUniqueOwners self.old own
            → IsChainInTable (mini_fat_of self.old) (minis_of links.old)
            → AppendsMiniSectors self.old self.new (minis_of links.old) (minis_of links.new) own
            × (length (minis_of links.new) ≤ max count (length (minis_of links.old)))
            × (length (minis_of links.old) < count → IsCovered self.new)) }
        ensures enough { OnOk result (count ≤ length (minis_of links.new)) }
        ensures kept { OnErr result (has_failed_here (allocator_of self.new) ≡ false
            → minis_of links.new ≡ minis_of links.old) }
        ensures refused_only_if { IsErrOf result InvalidData → (own : ℕ → List ℕ)
            → HasUniqueOwners self.old own
            → IsChainInTable (mini_fat_of self.old) (minis_of links.old)
            → IsTrue (orderly_of (allocator_of self.old)) → ⊥ }
        ensures full_only_if { IsErrOf result Full → has_failed_here (allocator_of self.new) ≡ false
            → MiniMatchesBytes self.old → LacksOne self.old
            ⊎ (greatest_regular < length (minis_of links.old)) }
        ensures after_error { OnErr result ((has_failed_here (allocator_of self.new) ≡ true)
            ⊎ OnlyReadsMini self.old self.new) }
        ensures invariants { KeepsFileInvariants (allocator_of self.old) (allocator_of self.new) }
        ensures error_contract { FatErrorContract IsInvalidOrFull result (allocator_of self.old)
            (allocator_of self.new) }
    {
        if self.directory.allocator().is_failed() {
            return Err(Error::Failed);
        }
        if links.mini_sector_ids().len() >= count {
            return Ok(());
        }
        if let Err(error) = self.take_or_grow(links) {
            return Err(error);
        }
        if let Err(error) = self.cover_mini_stream() {
            self.fail();
            return Err(error);
        }
        self.lengthen_on(links, count)
    }

    /// Makes a mini chain so many mini sectors long: each that it takes in is the first of the mini stream that is free, and
    /// has the bytes that it had; mini FAT and mini stream become longer where they must, and the root's size covers the mini
    /// stream then, whatever size it had. A chain that is so long stays.
    /// `InvalidData` where the FAT's tables can't be changed, or FAT or mini FAT haven't the chains that memory tells of;
    /// `Full` where not so many are free, and for the others numbers of sectors are missing, or room for the mini stream's
    /// size (in version 3 past 2^32 - 1 bytes): this is seen to first. After an error nothing is changed, or it has failed
    /// ([MS-CFB] 2.4, 2.6.2).
    pub fn lengthen_mini_chain(&mut self, links: &mut MiniLinks, count: usize) -> Result<(), Error>
        ensures lengthened { OnOk result ((own : ℕ → List ℕ) → HasUniqueOwners self.old own
            → IsChainInTable (mini_fat_of self.old) (minis_of links.old)
            → AppendsMiniSectors self.old self.new (minis_of links.old) (minis_of links.new) own
            × (length (minis_of links.new) ≤ max count (length (minis_of links.old)))
            × (length (minis_of links.old) < count → IsCovered self.new)) }
        ensures enough { OnOk result (count ≤ length (minis_of links.new)) }
        ensures kept { OnErr result (has_failed_here (allocator_of self.new) ≡ false
            → minis_of links.new ≡ minis_of links.old) }
        ensures refused_only_if { IsErrOf result InvalidData → (own : ℕ → List ℕ)
            → HasUniqueOwners self.old own
            → IsChainInTable (mini_fat_of self.old) (minis_of links.old)
            → IsTrue (orderly_of (allocator_of self.old)) → ⊥ }
        ensures full_only_if { IsErrOf result Full → has_failed_here (allocator_of self.new) ≡ false
            → MiniMatchesBytes self.old
            → LacksMiniSectors (count - length (minis_of links.old)) self.old
            ⊎ (greatest_regular < length (minis_of links.old)) }
        ensures after_error { OnErr result ((has_failed_here (allocator_of self.new) ≡ true)
            ⊎ OnlyReadsMini self.old self.new) }
        ensures invariants { KeepsFileInvariants (allocator_of self.old) (allocator_of self.new) }
        ensures error_contract { FatErrorContract IsInvalidOrFull result (allocator_of self.old)
            (allocator_of self.new) }
    {
        let more = count.saturating_sub(links.mini_sector_ids().len());
        if let Err(error) = self.prepare_minis(more) {
            return Err(error);
        }
        self.lengthen_ready(links, count)
    }
}
