//! Chains of mini sectors that are written.
ghost use Rattle.cfb_chains.specs.ChainCalls.{IsInvalidOrFull, IsInvalidPlace};
ghost use Rattle.cfb_fat.specs.Calls.{FatErrorContract};
ghost use Rattle.cfb_fat.specs.Tables.{has_failed_here};
ghost use Rattle.cfb_medium.specs.declared.error.Error.TheVariants.{Full, InvalidData, InvalidInput};
ghost use Rattle.cfb_mini.specs.Changing.{LacksMiniSectors, MiniOverwrites};
ghost use Rattle.cfb_mini.specs.Views.{MiniMatchesBytes};
ghost use Rattle.cfb_mini_chains.specs.MiniChainCalls.{mini_tail_in, taken_count, LacksMiniChainOrOwner, LacksUsableMiniChain, Refuses};
ghost use Rattle.cfb_mini_chains.specs.MiniGrowing.{MiniAppends};
ghost use Rattle.cfb_chain_io.specs.ChainEffects.{KeepsFileInvariants, IsInvalidPlaceOrFull};
ghost use Rattle.cfb_sectors.specs.Sectors.{greatest_regular};
ghost use Rattle.std.specs.Prelude.{false, length, replicate, take, IfOk, IsErrOf, List, OnOk, ℕ, ◌+◌, ◌++◌, ◌-◌, ◌<◌, ◌≡◌, ◌≤◌, ◌↔◌, ◌⊎◌};

use crate::MiniChain;
use crate::growing::append;
use cfb_medium::{Error, Medium};
use cfb_sectors::MINI_SECTOR_LEN;

// The bytes of a mini sector, as a length.
const EACH: u64 = MINI_SECTOR_LEN as u64;

impl<'a, F: Medium> MiniChain<'a, F> {
    ghost use Rattle.cfb_mini_chains.specs.MiniChainViews.{allocator_under, len_of, links_of, mini_of, mini_sectors_of, position_of, HasOwnedMiniChain, IsSameMiniChain};

    // Writes these bytes over those from the position on, and moves the position behind them.
    fn write_inside(&mut self, bytes: &[u8]) -> Result<usize, Error>
        ensures written { OnOk result ((own : ℕ → List ℕ) → HasOwnedMiniChain self.old own
            → MiniOverwrites (position_of self.old) bytes.now (mini_of self.old) (mini_of self.new)
            (links_of self.old) own × HasOwnedMiniChain self.new own) }
        ensures there { IfOk result (λ n. (n ≡ length bytes.now)
            × (position_of self.new ≡ position_of self.old + n)
            × (position_of self.old + n ≤ len_of self.old)) }
        ensures same { IsSameMiniChain self.old self.new × (links_of self.new ≡ links_of self.old) }
        ensures past { IsErrOf result InvalidInput
            → len_of self.old < position_of self.old + length bytes.now }
        ensures refused_only_if { IsErrOf result InvalidData → LacksMiniChainOrOwner self.old }
        ensures refuses { Refuses result self.old self.new }
        ensures invariants { KeepsFileInvariants (allocator_under self.old)
            (allocator_under self.new) }
        ensures error_contract { FatErrorContract IsInvalidPlace result (allocator_under self.old)
            (allocator_under self.new) }
    {
        let place = self.position;
        if let Err(error) = self.mini.overwrite_mini_chain(self.links, place, bytes) {
            return Err(error);
        }
        self.position = place + bytes.len() as u64;
        Ok(bytes.len())
    }

    // At the end: takes in a mini sector, of these bytes and zeros behind them.
    fn write_behind(&mut self, bytes: &[u8]) -> Result<usize, Error>
        requires end { position_of self.old ≡ len_of self.old }
        requires fits { length bytes.now ≤ 64 }
        ensures written { OnOk result ((own : ℕ → List ℕ) → HasOwnedMiniChain self.old own
            → MiniAppends (bytes.now ++ replicate (64 - length bytes.now) 0) (mini_of self.old)
            (mini_of self.new) (links_of self.old) (links_of self.new) own) }
        ensures count { IfOk result (λ n. (n ≡ length bytes.now)
            × (position_of self.new ≡ position_of self.old + n)) }
        ensures same { IsSameMiniChain self.old self.new }
        ensures refused_only_if { IsErrOf result InvalidData → LacksUsableMiniChain self.old }
        ensures full_only_if { IsErrOf result Full
            → has_failed_here (allocator_under self.new) ≡ false
            → MiniMatchesBytes (mini_of self.old) → LacksMiniSectors 1 (mini_of self.old)
            ⊎ (greatest_regular < length (mini_sectors_of self.old)) }
        ensures refuses { Refuses result self.old self.new }
        ensures invariants { KeepsFileInvariants (allocator_under self.old)
            (allocator_under self.new) }
        ensures error_contract { FatErrorContract IsInvalidOrFull result (allocator_under self.old)
            (allocator_under self.new) }
    {
        let place = self.position;
        let count = self.links.mini_sector_ids().len() + 1;
        let mut filled = [0; MINI_SECTOR_LEN];
        filled[..bytes.len()].copy_from_slice(bytes);
        if let Err(error) = append(self.mini, self.links, &filled, count) {
            return Err(error);
        }
        self.position = place + bytes.len() as u64;
        Ok(bytes.len())
    }

    /// Writes from the position on what its mini sector takes, and moves the position behind that. At the end a mini sector is
    /// taken in first, which has zeros behind what is written; where there is nothing to write nothing is done. `InvalidInput`
    /// where the position is behind the end, as only a failure leaves it; `InvalidData` where the FAT's tables can't be changed, or
    /// FAT or mini FAT haven't the chains that memory tells of; `Full` where no number is left, or no room for the mini stream's
    /// size. After an error nothing is changed, or the layer has failed ([MS-CFB] 2.4).
    pub fn write(&mut self, bytes: &[u8]) -> Result<usize, Error>
        ensures inside { position_of self.old + taken_count bytes.now self.old ≤ len_of self.old
            → IfOk result (λ n. (own : ℕ → List ℕ) → HasOwnedMiniChain self.old own
            → MiniOverwrites (position_of self.old) (take n bytes.now) (mini_of self.old)
            (mini_of self.new) (links_of self.old) own × HasOwnedMiniChain self.new own) }
        ensures behind { len_of self.old < position_of self.old + taken_count bytes.now self.old
            → IfOk result (λ n. (own : ℕ → List ℕ) → HasOwnedMiniChain self.old own
            → MiniAppends (take n bytes.now ++ replicate (64 - n) 0) (mini_of self.old)
            (mini_of self.new) (links_of self.old) (links_of self.new) own) }
        ensures kept { position_of self.old + taken_count bytes.now self.old ≤ len_of self.old
            → mini_sectors_of self.new ≡ mini_sectors_of self.old }
        ensures took { IfOk result (λ n. (n ≡ taken_count bytes.now self.old)
            × (position_of self.new ≡ position_of self.old + n)) }
        ensures same { IsSameMiniChain self.old self.new }
        ensures past { IsErrOf result InvalidInput → len_of self.old < position_of self.old }
        ensures refused_only_if { IsErrOf result InvalidData → LacksUsableMiniChain self.old }
        ensures full_only_if { IsErrOf result Full
            → has_failed_here (allocator_under self.new) ≡ false
            → MiniMatchesBytes (mini_of self.old) → LacksMiniSectors 1 (mini_of self.old)
            ⊎ (greatest_regular < length (mini_sectors_of self.old)) }
        ensures refuses { Refuses result self.old self.new }
        ensures invariants { KeepsFileInvariants (allocator_under self.old)
            (allocator_under self.new) }
        ensures error_contract { FatErrorContract IsInvalidPlaceOrFull result
            (allocator_under self.old)
            (allocator_under self.new) }
    {
        let left = (EACH - self.position % EACH) as usize;
        let taken = &bytes[..bytes.len().min(left)];
        if taken.is_empty() {
            return self.write_inside(taken);
        }
        if self.position != self.links.len() {
            return self.write_inside(taken);
        }
        self.write_behind(taken)
    }

    /// Fills the mini sector in which a length ends with zeros from there on; what lies before stays. `InvalidInput` where the
    /// length is past the chain's end, and then nothing is changed; `InvalidData` where FAT or mini FAT haven't the chains that
    /// memory tells of. After an error nothing is changed, or the layer has failed. The position stays ([MS-CFB] 2.4).
    pub fn zero_tail(&mut self, len: u64) -> Result<(), Error>
        ensures zeroed { OnOk result ((own : ℕ → List ℕ) → HasOwnedMiniChain self.old own
            → MiniOverwrites len (replicate (mini_tail_in len) 0) (mini_of self.old)
            (mini_of self.new) (links_of self.old) own × HasOwnedMiniChain self.new own) }
        ensures there { OnOk result (len ≤ len_of self.old) }
        ensures past { IsErrOf result InvalidInput
            ↔ ((has_failed_here (allocator_under self.old) ≡ false) × (len_of self.old < len)) }
        ensures refused_only_if { IsErrOf result InvalidData → LacksMiniChainOrOwner self.old }
        ensures same { IsSameMiniChain self.old self.new × (links_of self.new ≡ links_of self.old)
            × (position_of self.new ≡ position_of self.old) }
        ensures refuses { Refuses result self.old self.new }
        ensures invariants { KeepsFileInvariants (allocator_under self.old)
            (allocator_under self.new) }
        ensures error_contract { FatErrorContract IsInvalidPlace result (allocator_under self.old)
            (allocator_under self.new) }
    {
        let tail = ((EACH - len % EACH) % EACH) as usize;
        let zeros = [0; MINI_SECTOR_LEN];
        if let Err(error) = self
            .mini
            .overwrite_mini_chain(self.links, len, &zeros[..tail])
        {
            return Err(error);
        }
        Ok(())
    }
}
