//! Chains of mini sectors that become longer and shorter.
ghost use Rattle.cfb_chains.specs.ChainCalls.{IsInvalid, IsInvalidOrFull};
ghost use Rattle.cfb_fat.specs.Calls.{FatErrorContract};
ghost use Rattle.cfb_fat.specs.Tables.{has_failed_here};
ghost use Rattle.cfb_medium.specs.declared.error.Error.TheVariants.{Full, InvalidData};
ghost use Rattle.cfb_mini.specs.Changing.{FreesMiniSectors, LacksMiniSectors, Shortens};
ghost use Rattle.cfb_mini.specs.Minis.{minis_for};
ghost use Rattle.cfb_mini.specs.Views.{MiniMatchesBytes};
ghost use Rattle.cfb_mini_chains.specs.MiniChainCalls.{LacksMiniChainOrOwner, LacksUsableMiniChain, Refuses};
ghost use Rattle.cfb_mini_chains.specs.MiniGrowing.{MiniAppends};
ghost use Rattle.cfb_chain_io.specs.ChainEffects.{KeepsFileInvariants};
ghost use Rattle.cfb_sectors.specs.Sectors.{greatest_regular};
ghost use Rattle.std.specs.Prelude.{false, length, min, replicate, IsErrOf, List, OnOk, [], ℕ, ◌*◌, ◌+◌, ◌-◌, ◌<◌, ◌≡◌, ◌≤◌, ◌⊎◌};

use crate::MiniChain;
use crate::growing::append;
use cfb_medium::{Error, Medium};
use cfb_sectors::{MAX_REGULAR_SECTOR, MINI_SECTOR_LEN};

// More mini sectors have no numbers.
const MOST: u64 = MAX_REGULAR_SECTOR as u64 + 1;

impl<'a, F: Medium> MiniChain<'a, F> {
    ghost use Rattle.cfb_mini_chains.specs.MiniChainViews.{allocator_under, len_of, links_of, mini_of, mini_sectors_of, position_of, HasOwnedMiniChain, IsSameMiniChain};

    /// Frees the mini sectors of the chain; it has none then, and the position is 0. `InvalidData` where the mini FAT hasn't one of
    /// them, and then nothing is changed, or where the FAT hasn't the mini FAT's chain. After an error nothing is changed, or the
    /// layer has failed ([MS-CFB] 2.4).
    pub fn free(&mut self) -> Result<(), Error>
        ensures freed { OnOk result ((own : ℕ → List ℕ) → HasOwnedMiniChain self.old own
            → FreesMiniSectors (mini_sectors_of self.old) (mini_of self.old)
            (mini_of self.new) own) }
        ensures emptied { OnOk result ((mini_sectors_of self.new ≡ [])
            × (position_of self.new ≡ 0)) }
        ensures same { IsSameMiniChain self.old self.new }
        ensures refused_only_if { IsErrOf result InvalidData → LacksMiniChainOrOwner self.old }
        ensures refuses { Refuses result self.old self.new }
        ensures invariants { KeepsFileInvariants (allocator_under self.old)
            (allocator_under self.new) }
        ensures error_contract { FatErrorContract IsInvalid result (allocator_under self.old)
            (allocator_under self.new) }
    {
        if let Err(error) = self.mini.free_mini_chain(self.links) {
            return Err(error);
        }
        self.position = 0;
        Ok(())
    }

    // Keeps so many mini sectors, those at the front, and frees those behind them. A position behind the new end goes there.
    fn shorten_to(&mut self, count: usize) -> Result<(), Error>
        ensures shortened { OnOk result ((own : ℕ → List ℕ) → HasOwnedMiniChain self.old own
            → Shortens count (mini_of self.old) (mini_of self.new) (mini_sectors_of self.old)
            (mini_sectors_of self.new) own × HasOwnedMiniChain self.new own) }
        ensures position { OnOk result (position_of self.new
            ≡ min (position_of self.old) (len_of self.new)) }
        ensures same { IsSameMiniChain self.old self.new }
        ensures refused_only_if { IsErrOf result InvalidData → LacksMiniChainOrOwner self.old }
        ensures refuses { Refuses result self.old self.new }
        ensures invariants { KeepsFileInvariants (allocator_under self.old)
            (allocator_under self.new) }
        ensures error_contract { FatErrorContract IsInvalid result (allocator_under self.old)
            (allocator_under self.new) }
    {
        let place = self.position;
        if let Err(error) = self.mini.shorten_mini_chain(self.links, count) {
            return Err(error);
        }
        self.position = place.min(self.links.len());
        Ok(())
    }

    // Takes mini sectors in until there are so many, of zeros.
    fn lengthen_to(&mut self, count: usize) -> Result<(), Error>
        requires more { length (mini_sectors_of self.old) < count }
        requires few { count ≤ greatest_regular + 1 }
        requires live { has_failed_here (allocator_under self.old) ≡ false }
        ensures appended { OnOk result ((own : ℕ → List ℕ) → HasOwnedMiniChain self.old own
            → MiniAppends (replicate (64 * (count - length (mini_sectors_of self.old))) 0)
            (mini_of self.old) (mini_of self.new) (links_of self.old) (links_of self.new) own) }
        ensures position { OnOk result (position_of self.new
            ≡ min (position_of self.old) (len_of self.new)) }
        ensures same { IsSameMiniChain self.old self.new }
        ensures refused_only_if { IsErrOf result InvalidData → LacksUsableMiniChain self.old }
        ensures full_only_if { IsErrOf result Full
            → has_failed_here (allocator_under self.new) ≡ false
            → MiniMatchesBytes (mini_of self.old)
            → LacksMiniSectors (count - length (mini_sectors_of self.old)) (mini_of self.old)
            ⊎ (greatest_regular < length (mini_sectors_of self.old)) }
        ensures refuses { Refuses result self.old self.new }
        ensures invariants { KeepsFileInvariants (allocator_under self.old)
            (allocator_under self.new) }
        ensures error_contract { FatErrorContract IsInvalidOrFull result (allocator_under self.old)
            (allocator_under self.new) }
    {
        let place = self.position;
        let more = count - self.links.mini_sector_ids().len();
        let zeros = vec![in self.alloc; 0; MINI_SECTOR_LEN * more]?;
        if let Err(error) = append(self.mini, self.links, zeros.as_slice(), count) {
            return Err(error);
        }
        self.position = place.min(self.links.len());
        Ok(())
    }

    /// Gives the chain as many mini sectors as so many bytes need. Those at its front stay, with their bytes; it takes in others
    /// behind them, of zeros, or frees those that are too many. A position behind the new end goes there. `InvalidData` where the
    /// FAT's tables can't be changed, or FAT or mini FAT haven't the chains that memory tells of; `Full` where no number is left, or
    /// no room for the mini stream's size. After an error nothing is changed, or the layer has failed ([MS-CFB] 2.4).
    pub fn set_len(&mut self, len: u64) -> Result<(), Error>
        ensures longer { length (mini_sectors_of self.old) < minis_for len → OnOk result ((own : ℕ
            → List ℕ) → HasOwnedMiniChain self.old own
            → MiniAppends (replicate (64 * (minis_for len - length (mini_sectors_of self.old))) 0)
            (mini_of self.old) (mini_of self.new) (links_of self.old) (links_of self.new) own) }
        ensures shorter { minis_for len ≤ length (mini_sectors_of self.old)
            → OnOk result ((own : ℕ → List ℕ) → HasOwnedMiniChain self.old own
            → Shortens (minis_for len) (mini_of self.old) (mini_of self.new)
            (mini_sectors_of self.old) (mini_sectors_of self.new) own
            × HasOwnedMiniChain self.new own) }
        ensures position { OnOk result (position_of self.new
            ≡ min (position_of self.old) (len_of self.new)) }
        ensures same { IsSameMiniChain self.old self.new }
        ensures refused_only_if { IsErrOf result InvalidData → LacksUsableMiniChain self.old }
        ensures full_only_if { IsErrOf result Full
            → has_failed_here (allocator_under self.new) ≡ false
            → MiniMatchesBytes (mini_of self.old)
            → LacksMiniSectors (minis_for len - length (mini_sectors_of self.old))
            (mini_of self.old)
            ⊎ (greatest_regular + 1 < minis_for len) }
        ensures refuses { Refuses result self.old self.new }
        ensures invariants { KeepsFileInvariants (allocator_under self.old)
            (allocator_under self.new) }
        ensures error_contract { FatErrorContract IsInvalidOrFull result (allocator_under self.old)
            (allocator_under self.new) }
    {
        let count = len.div_ceil(MINI_SECTOR_LEN as u64);
        if count <= self.links.mini_sector_ids().len() as u64 {
            return self.shorten_to(count as usize);
        }
        if self.is_failed() {
            return Err(Error::Failed);
        }
        if count > MOST {
            return Err(Error::Full);
        }
        self.lengthen_to(count as usize)
    }
}
