//! Mini chains that are written over and freed, and the calls that are passed down.
ghost use Rattle.cfb_chains.specs.ChainCalls.{IsInvalid, IsInvalidOrFull, IsInvalidPlace};
ghost use Rattle.cfb_chains.specs.Grown.{IsChainInTable};
ghost use Rattle.cfb_fat.specs.Calls.{FatErrorContract};
ghost use Rattle.cfb_fat.specs.Orderly.{AreBelow};
ghost use Rattle.cfb_fat.specs.Tables.{bytes_of, has_failed as allocator_failed, has_failed_here, is_honest, medium_of, orderly_of, sectors_of, IsJustifiedBySectors};
ghost use Rattle.cfb_medium.specs.Calls.{IsCutOff, IsFaultOrInvalidInputIf};
ghost use Rattle.cfb_medium.specs.declared.error.Error.TheVariants.{Failed, Full, InvalidData, InvalidInput};
ghost use Rattle.cfb_mini.specs.Changing.{AppendsFreeMiniSector, FreesMiniSectors, GrowsMiniFat, HasUniqueOwners, MiniOverwrites, Shortens};
ghost use Rattle.cfb_mini.specs.FatGrowth.{LacksMore};
ghost use Rattle.cfb_mini.specs.LinkViews.{minis_of};
ghost use Rattle.cfb_mini.specs.Minis.{IsMiniChain};
ghost use Rattle.cfb_mini.specs.NextSector.{IsFreeMiniSector};
ghost use Rattle.cfb_mini.specs.Views.{allocator_of, mini_fat_ids, mini_fat_of, mini_stream_len, MiniKeepsMemory, OnlyReadsMini};
ghost use Rattle.cfb_chain_io.specs.ChainEffects.{KeepsFileInvariants};
ghost use Rattle.cfb_sectors.specs.Held.{CrashLeavesOldOrBytes};
ghost use Rattle.cfb_sectors.specs.Sectors.{greatest_regular};
ghost use Rattle.std.specs.Prelude.{false, length, true, IfErr, IfOk, IsErrOf, IsTrue, List, OnErr, OnOk, [], ℕ, ◌*◌, ◌+◌, ◌<◌, ◌≡◌, ◌≤◌, ◌↔◌, ◌⊎◌};

use crate::fat_growth::grow_table;
use crate::next_sector::extend_minis;
use crate::number_writes::{cut_minis, free_minis};
use crate::writing::overwrite_minis;
use crate::{MiniAllocator, MiniLinks};
use cfb_medium::{Error, Medium};

impl<F: Medium> MiniAllocator<F> {
    /// Whether a fault in a write or a commit has left it, or the medium, in a state in which every call is refused.
    pub fn has_failed(&self) -> bool
        ensures { result ≡ allocator_failed (allocator_of self.now) }
    {
        self.directory.has_failed()
    }

    /// Passes on what the medium keeps back, and publishes nothing.
    pub fn flush(&mut self) -> Result<(), Error>
        ensures only_reads { OnlyReadsMini self.old self.new }
        ensures when_failed { has_failed_here (allocator_of self.old) ≡ true
            → IsErrOf result Failed }
        ensures cause { IfErr result (IsJustifiedBySectors (allocator_of self.old)
            (allocator_of self.new)) }
        ensures errors { IfErr result (IsFaultOrInvalidInputIf ⊥) }
    {
        self.directory.flush()
    }

    /// Publishes the bytes, by a commit of the medium. After a fault it has failed.
    pub fn commit(&mut self) -> Result<(), Error>
        ensures published { IsTrue (is_honest (allocator_of self.old))
            → OnOk result (F.has_published (medium_of (allocator_of self.new))
            (bytes_of (allocator_of self.old))) }
        ensures crash { IsTrue (is_honest (allocator_of self.old))
            → CrashLeavesOldOrBytes (sectors_of (allocator_of self.old))
            (sectors_of (allocator_of self.new)) }
        ensures memory { MiniKeepsMemory self.old self.new }
        ensures bytes { has_failed_here (allocator_of self.new) ≡ false
            → IsTrue (is_honest (allocator_of self.old))
            → bytes_of (allocator_of self.new) ≡ bytes_of (allocator_of self.old) }
        ensures not_failed { OnOk result (has_failed_here (allocator_of self.new) ≡ false) }
        ensures after_error { OnErr result (has_failed_here (allocator_of self.new) ≡ true) }
        ensures when_failed { has_failed_here (allocator_of self.old) ≡ true
            → IsErrOf result Failed × OnlyReadsMini self.old self.new }
        ensures cause { IfErr result (IsJustifiedBySectors (allocator_of self.old)
            (allocator_of self.new)) }
        ensures medium { (F.failures (medium_of (allocator_of self.old))
            ≤ F.failures (medium_of (allocator_of self.new)))
            × OnOk result (F.failed (medium_of (allocator_of self.new))
            ≡ F.failed (medium_of (allocator_of self.old))) }
        ensures cut { IfErr result (IsCutOff F.failed F.continues
            (medium_of (allocator_of self.old)) (medium_of (allocator_of self.new))) }
        ensures errors { IfErr result (IsFaultOrInvalidInputIf ⊥) }
    {
        self.directory.commit()
    }

    /// Writes over a mini chain's bytes from a place on. `InvalidInput` where they don't lie in the mini chain, and then
    /// nothing is changed; `InvalidData` where the mini stream hasn't one of its mini sectors, or one of its sectors isn't in
    /// the file or holds a table. After each error but `InvalidInput` it has failed ([MS-CFB] 2.4).
    pub fn overwrite_mini_chain(
        &mut self,
        links: &MiniLinks,
        at: u64,
        bytes: &[u8],
    ) -> Result<(), Error>
        ensures written { OnOk result ((own : ℕ → List ℕ) → HasUniqueOwners self.old own
            → IsMiniChain (mini_fat_of self.old) (mini_stream_len self.old) (minis_of links.now)
            → MiniOverwrites at bytes.now self.old self.new links.now own) }
        ensures there { OnOk result (at + length bytes.now ≤ 64 * length (minis_of links.now)) }
        ensures past { IsErrOf result InvalidInput
            ↔ ((has_failed_here (allocator_of self.old) ≡ false)
            × (64 * length (minis_of links.now) < at + length bytes.now)) }
        ensures unchanged { IsErrOf result InvalidInput → OnlyReadsMini self.old self.new }
        ensures refused_only_if { IsErrOf result InvalidData → (own : ℕ → List ℕ)
            → HasUniqueOwners self.old own
            → IsMiniChain (mini_fat_of self.old) (mini_stream_len self.old) (minis_of links.now)
            → ⊥ }
        ensures after_error { OnErr result ((has_failed_here (allocator_of self.new) ≡ true)
            ⊎ OnlyReadsMini self.old self.new) }
        ensures invariants { KeepsFileInvariants (allocator_of self.old) (allocator_of self.new) }
        ensures error_contract { FatErrorContract IsInvalidPlace result (allocator_of self.old)
            (allocator_of self.new) }
    {
        overwrite_minis(
            self.directory.allocator_mut(),
            &self.mini_fat.stream,
            links,
            at,
            bytes,
        )
    }

    /// Takes a mini sector into use behind a mini chain's last one, or as its first: the first of the mini stream that is
    /// free. Its bytes are those that it had. `false` where the mini stream has none that is free, and then nothing is
    /// changed. `InvalidData` where the mini FAT hasn't the chain's last one, and then nothing is changed, or the FAT hasn't
    /// the mini FAT's chain; `Full` where the chain has as many mini sectors as there are numbers. After an error nothing is
    /// changed, or it has failed. The root's size stays: `lengthen_mini_chain` sees to it ([MS-CFB] 2.4).
    pub fn extend_mini_chain(&mut self, links: &mut MiniLinks) -> Result<bool, Error>
        ensures extended { IfOk result (λ took. took ≡ true → (own : ℕ → List ℕ)
            → HasUniqueOwners self.old own
            → IsChainInTable (mini_fat_of self.old) (minis_of links.old)
            → AppendsFreeMiniSector self.old self.new (minis_of links.old)
            (minis_of links.new) own) }
        ensures none { IfOk result (λ took. took ≡ false → OnlyReadsMini self.old self.new
            × (minis_of links.new ≡ minis_of links.old)
            × ((n : ℕ) → IsFreeMiniSector (mini_fat_of self.old) (mini_stream_len self.old) n
            → ⊥)) }
        ensures kept { OnErr result (minis_of links.new ≡ minis_of links.old) }
        ensures refused_only_if { IsErrOf result InvalidData → (own : ℕ → List ℕ)
            → HasUniqueOwners self.old own
            → IsChainInTable (mini_fat_of self.old) (minis_of links.old) → ⊥ }
        ensures full_only_if { IsErrOf result Full
            → greatest_regular < length (minis_of links.old) }
        ensures after_error { OnErr result ((has_failed_here (allocator_of self.new) ≡ true)
            ⊎ OnlyReadsMini self.old self.new) }
        ensures invariants { KeepsFileInvariants (allocator_of self.old) (allocator_of self.new) }
        ensures error_contract { FatErrorContract IsInvalidOrFull result (allocator_of self.old)
            (allocator_of self.new) }
    {
        extend_minis(self.directory.allocator_mut(), &mut self.mini_fat, links)
    }

    /// Gives the mini FAT a sector more, of "free" numbers, and tells the header where it begins and how many sectors it has.
    /// `InvalidData` where the FAT's tables can't be changed or haven't the mini FAT's chain, and then `Full` where no number
    /// of a sector is left. After an error nothing is changed, or it has failed ([MS-CFB] 2.2, 2.4).
    pub fn grow_mini_fat(&mut self) -> Result<(), Error>
        ensures grown { OnOk result ((own : ℕ → List ℕ) → HasUniqueOwners self.old own
            → GrowsMiniFat self.old self.new own) }
        ensures refused_only_if { IsErrOf result InvalidData → (own : ℕ → List ℕ)
            → HasUniqueOwners self.old own
            → IsTrue (orderly_of (allocator_of self.old)) → ⊥ }
        ensures full_only_if { IsErrOf result Full → has_failed_here (allocator_of self.new) ≡ false
            → LacksMore (allocator_of self.old) (length (mini_fat_ids self.old)) }
        ensures after_error { OnErr result ((has_failed_here (allocator_of self.new) ≡ true)
            ⊎ OnlyReadsMini self.old self.new) }
        ensures invariants { KeepsFileInvariants (allocator_of self.old) (allocator_of self.new) }
        ensures error_contract { FatErrorContract IsInvalidOrFull result (allocator_of self.old)
            (allocator_of self.new) }
    {
        grow_table(self.directory.allocator_mut(), &mut self.mini_fat)
    }

    /// Frees the mini sectors of a mini chain; it has none then. `InvalidData` where the mini FAT hasn't one of them, and then
    /// nothing is changed, or where the FAT hasn't the mini FAT's chain. After any other error it has failed ([MS-CFB] 2.4).
    pub fn free_mini_chain(&mut self, links: &mut MiniLinks) -> Result<(), Error>
        ensures freed { OnOk result ((own : ℕ → List ℕ) → HasUniqueOwners self.old own
            → FreesMiniSectors (minis_of links.old) self.old self.new own) }
        ensures emptied { OnOk result (minis_of links.new ≡ []) }
        ensures refused_only_if { IsErrOf result InvalidData → (own : ℕ → List ℕ)
            → HasUniqueOwners self.old own
            → AreBelow (length (mini_fat_of self.old)) (minis_of links.old) → ⊥ }
        ensures kept { OnErr result (minis_of links.new ≡ minis_of links.old) }
        ensures after_error { OnErr result ((has_failed_here (allocator_of self.new) ≡ true)
            ⊎ OnlyReadsMini self.old self.new) }
        ensures invariants { KeepsFileInvariants (allocator_of self.old) (allocator_of self.new) }
        ensures error_contract { FatErrorContract IsInvalid result (allocator_of self.old)
            (allocator_of self.new) }
    {
        free_minis(self.directory.allocator_mut(), &mut self.mini_fat, links)
    }

    /// Leaves a mini chain so many mini sectors, those at its front, and frees the others; one that has no more stays.
    /// `InvalidData` where the mini FAT hasn't one of its mini sectors, and then nothing is changed, or where the FAT hasn't
    /// the mini FAT's chain. After any other error it has failed ([MS-CFB] 2.4).
    pub fn shorten_mini_chain(&mut self, links: &mut MiniLinks, count: usize) -> Result<(), Error>
        ensures shortened { OnOk result ((own : ℕ → List ℕ) → HasUniqueOwners self.old own
            → IsChainInTable (mini_fat_of self.old) (minis_of links.old)
            → Shortens count self.old self.new (minis_of links.old) (minis_of links.new) own) }
        ensures refused_only_if { IsErrOf result InvalidData → (own : ℕ → List ℕ)
            → HasUniqueOwners self.old own
            → AreBelow (length (mini_fat_of self.old)) (minis_of links.old) → ⊥ }
        ensures kept { OnErr result (minis_of links.new ≡ minis_of links.old) }
        ensures after_error { OnErr result ((has_failed_here (allocator_of self.new) ≡ true)
            ⊎ OnlyReadsMini self.old self.new) }
        ensures invariants { KeepsFileInvariants (allocator_of self.old) (allocator_of self.new) }
        ensures error_contract { FatErrorContract IsInvalid result (allocator_of self.old)
            (allocator_of self.new) }
    {
        cut_minis(
            self.directory.allocator_mut(),
            &mut self.mini_fat,
            links,
            count,
        )
    }
}
