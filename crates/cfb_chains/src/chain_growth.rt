//! Chains that become longer.
ghost use Rattle.cfb_chains.specs.ChainCalls.{chain_bytes, ChainErrorContract, OnlyReadsChain, HasEnd, HasNoEnd, HasNoNumber, ChainHolds, IsInvalidOrFull, LacksUsableChain, ChainKeeps, LacksNumber, AppendsSectors, MayWriteSector, LayerRunsOut};
ghost use Rattle.cfb_chains.specs.Changes.{AreSubsetOf};
ghost use Rattle.cfb_chains.specs.Grown.{IsChainInTable};
ghost use Rattle.cfb_medium.specs.Calls.{IsFaultOrInvalidInputIf};
ghost use Rattle.cfb_medium.specs.declared.error.Error.TheVariants.{Failed, Full, InvalidData};
ghost use Rattle.cfb_medium.specs.Versions.{sector_len};
ghost use Rattle.cfb_sectors.specs.Initial.{filling, first_bytes};
ghost use Rattle.cfb_sectors.specs.Sectors.{greatest_regular, Chain as IsChain};
ghost use Rattle.std.specs.Prelude.{false, length, slice_index, IfErr, IfOk, IsErrOf, IsTrue, List, OnErr, OnOk, ℕ, [], ◌+◌, ◌++◌, ◌-◌, ◌<◌, ◌∷◌, ◌≡◌, ◌≤◌, ◌⊎◌};

use crate::{Chain, GrowsChains};
use cfb_medium::Error;
use cfb_sectors::{END_OF_CHAIN, NewSector};

impl<'a, H: GrowsChains> Chain<'a, H> {
    ghost use Rattle.cfb_chains.specs.ChainViews.{holder_of, links_of, sectors_of, version_of, IsSameButSectors};

    // Takes a sector into use behind the last one, which the FAT then has in the chain.
    fn take_sector(&mut self, init: NewSector<'_>) -> Result<u32, Error>
        ensures grows { IfOk result (λ n. (changed : List ℕ)
            × H.grows (n ∷ []) changed (holder_of self.old) (holder_of self.new)
            × (IsChainInTable (H.fat (holder_of self.old)) (sectors_of self.old)
            → AreSubsetOf (sectors_of self.old ++ n ∷ []) changed)) }
        ensures none { OnErr result (H.grows [] [] (holder_of self.old) (holder_of self.new)) }
        ensures keeps { IfOk result (λ n. ChainKeeps H.GrowsChains self.old
            (sectors_of self.old ++ n ∷ []) (holder_of self.new)) }
        ensures ends { IfOk result (λ n. IsChain (H.fat (holder_of self.new)) n (n ∷ [])) }
        ensures room { IfOk result (λ n. MayWriteSector H.GrowsChains self.old n
            (holder_of self.new)) }
        ensures filled { IfOk result (λ n. ChainHolds H.GrowsChains self.old
            (sectors_of self.old ++ n ∷ []) (holder_of self.new)
            (chain_bytes H.bytes self.old
            ++ first_bytes init.entry (sector_len (version_of self.old)))) }
        ensures same { IsSameButSectors self.old self.new }
        ensures links { links_of self.new ≡ links_of self.old }
        ensures orderly { OnOk result (IsTrue (H.orderly (holder_of self.old))) }
        ensures refused_only_if { IsErrOf result InvalidData
            → HasNoEnd H.FreesChains self.old × OnlyReadsChain H.rests self.old self.new }
        ensures full_only_if { IsErrOf result Full → IsTrue (H.orderly (holder_of self.old))
            × H.is_full (holder_of self.old) × OnlyReadsChain H.rests self.old self.new }
        ensures error_contract { ChainErrorContract H.ChangesSectors IsInvalidOrFull result self.old
            self.new }
    {
        let count = self.links.sector_ids().len();
        if count == 0 {
            let sector_id = self.holder.begin_chain(init)?;
            return Ok(sector_id);
        }
        let last = self.links.sector_ids()[count - 1];
        let sector_id = self.holder.extend_chain(last, init)?;
        Ok(sector_id)
    }

    // Readies the table's chain from the last sector on to take in so many more, and asks for the memory that this may take.
    // `InvalidData` where the table has no such chain or can't be changed, and then `Full` where fewer numbers are left. Nothing
    // is changed.
    fn prepare(&mut self, count: usize) -> Result<(), Error>
        requires live { H.failed (holder_of self.old) ≡ false }
        ensures ready { OnOk result (IsTrue (H.orderly (holder_of self.old))) }
        ensures ends { OnOk result (HasEnd H.fat self.old) }
        ensures only_reads { H.rests (holder_of self.old) (holder_of self.new) }
        ensures same { IsSameButSectors self.old self.new }
        ensures links { links_of self.new ≡ links_of self.old }
        ensures refused_only_if { IsErrOf result InvalidData → HasNoEnd H.FreesChains self.old }
        ensures full_only_if { IsErrOf result Full → IsTrue (H.orderly (holder_of self.old))
            × H.lacks (holder_of self.old) count }
        ensures errors { IfErr result (λ e. H.has_cause (holder_of self.old) (holder_of self.new) e
            × (IsFaultOrInvalidInputIf ⊥ e ⊎ IsInvalidOrFull e)) }
    {
        let last = self.last_sector_id();
        if last == END_OF_CHAIN && self.num_sectors() > 0 {
            return Err(Error::InvalidData);
        }
        if let Err(error) = self.holder.prepare_growth(last, count) {
            return Err(error);
        }
        Ok(())
    }

    // Takes in a sector behind the last one, at the same position, which holds what is said. What is refused leaves the chain as
    // it was.
    pub(crate) fn append_sector(&mut self, init: NewSector<'_>) -> Result<(), Error>
        ensures grows { AppendsSectors H.GrowsChains self.old (sectors_of self.new)
            (holder_of self.new) }
        ensures longer { OnOk result (length (sectors_of self.new)
            ≡ length (sectors_of self.old) + 1) }
        ensures none { OnErr result (sectors_of self.new ≡ sectors_of self.old) }
        ensures keeps { OnOk result (ChainKeeps H.GrowsChains self.old (sectors_of self.new)
            (holder_of self.new)) }
        ensures ends { OnOk result (HasEnd H.fat self.new) }
        ensures room { OnOk result (MayWriteSector H.GrowsChains self.old
            (slice_index (sectors_of self.new) (length (sectors_of self.old)))
            (holder_of self.new)) }
        ensures filled { OnOk result (ChainHolds H.GrowsChains self.old (sectors_of self.new)
            (holder_of self.new) (chain_bytes H.bytes self.old
            ++ first_bytes init.entry (sector_len (version_of self.old)))) }
        ensures same { IsSameButSectors self.old self.new }
        ensures orderly { OnOk result (IsTrue (H.orderly (holder_of self.old))) }
        ensures refused_only_if { IsErrOf result InvalidData
            → HasNoEnd H.FreesChains self.old × OnlyReadsChain H.rests self.old self.new }
        ensures full_only_if { IsErrOf result Full → IsTrue (H.orderly (holder_of self.old))
            × HasNoNumber H.is_full self.old × OnlyReadsChain H.rests self.old self.new }
        ensures error_contract { ChainErrorContract H.ChangesSectors IsInvalidOrFull result self.old
            self.new }
    {
        if self.holder.is_failed() {
            return Err(Error::Failed);
        }
        if self.links.is_full() {
            if let Err(error) = self.prepare(1) {
                return Err(error);
            }
            return Err(Error::Full);
        }
        if let Err(error) = self.links.reserve_one() {
            return Err(error);
        }
        match self.take_sector(init) {
            Ok(sector_id) => {
                self.links.push_reserved(sector_id);
                Ok(())
            }
            Err(error) => Err(error),
        }
    }

    // Takes in sectors until there are so many, which hold what is said, where the table can be changed and has a chain from the last
    // sector on. Those taken in before an error stay.
    pub(crate) fn grow_to(&mut self, count: usize, init: NewSector<'_>) -> Result<(), Error>
        requires ready { (H.failed (holder_of self.old) ≡ false)
            × IsTrue (H.orderly (holder_of self.old)) × HasEnd H.fat self.old }
        requires more { length (sectors_of self.old) ≤ count }
        ensures grows { AppendsSectors H.GrowsChains self.old (sectors_of self.new)
            (holder_of self.new) }
        ensures count { OnOk result (length (sectors_of self.new) ≡ count) }
        ensures few { OnErr result (length (sectors_of self.new) < count) }
        ensures keeps { H.failed (holder_of self.new) ≡ false
            → ChainKeeps H.GrowsChains self.old (sectors_of self.new) (holder_of self.new) }
        ensures filled { H.failed (holder_of self.new) ≡ false
            → ChainHolds H.GrowsChains self.old (sectors_of self.new) (holder_of self.new)
            (chain_bytes H.bytes self.old ++ filling init.entry (length (sectors_of self.new)
            - length (sectors_of self.old)) (sector_len (version_of self.old))) }
        ensures same { IsSameButSectors self.old self.new }
        ensures not_failed { OnOk result (H.failed (holder_of self.new) ≡ false) }
        ensures full_only_if { IsErrOf result Full → (mid : H)
            × (H.is_full mid ⊎ (greatest_regular < length (sectors_of self.new)))
            × H.rests mid (holder_of self.new) }
        ensures stopped { IsErrOf result Full → LayerRunsOut H.GrowsChains count self.old }
        ensures errors { IfErr result (λ e. H.has_cause (holder_of self.old) (holder_of self.new) e
            × (IsFaultOrInvalidInputIf ⊥ e ⊎ (e ≡ Full))) }
    {
        let had = self.num_sectors();
        'grow: while self.num_sectors() < count {
            let done = (self.num_sectors() - had) * self.links.version().sector_len();
            if let Err(error) = self.append_sector(init.behind(done)) {
                return Err(error);
            }
        }
        Ok(())
    }

    // Takes in sectors until there are so many, which hold what is said. What is refused is refused before the first; where it stops
    // half way, the layer is made to fail.
    pub(crate) fn lengthen_to(&mut self, count: usize, init: NewSector<'_>) -> Result<(), Error>
        requires more { length (sectors_of self.old) ≤ count }
        ensures grows { AppendsSectors H.GrowsChains self.old (sectors_of self.new)
            (holder_of self.new) }
        ensures count { OnOk result (length (sectors_of self.new) ≡ count) }
        ensures few { length (sectors_of self.new) ≤ count }
        ensures keeps { OnOk result (ChainKeeps H.GrowsChains self.old (sectors_of self.new)
            (holder_of self.new)) }
        ensures filled { OnOk result (ChainHolds H.GrowsChains self.old (sectors_of self.new)
            (holder_of self.new)
            (chain_bytes H.bytes self.old ++ filling init.entry (length (sectors_of self.new)
            - length (sectors_of self.old)) (sector_len (version_of self.old)))) }
        ensures same { IsSameButSectors self.old self.new }
        ensures refused_only_if { IsErrOf result InvalidData
            → LacksUsableChain H.FreesChains self.old × OnlyReadsChain H.rests self.old self.new }
        ensures full_only_if { IsErrOf result Full → IsTrue (H.orderly (holder_of self.old))
            × (H.failed (holder_of self.new) ≡ false → LacksNumber H.lacks count self.old) }
        ensures stopped { IsErrOf result Full → LayerRunsOut H.GrowsChains count self.old }
        ensures error_contract { ChainErrorContract H.ChangesSectors IsInvalidOrFull result self.old
            self.new }
    {
        if self.holder.is_failed() {
            return Err(Error::Failed);
        }
        let wanted = count - self.num_sectors();
        if wanted == 0 {
            return Ok(());
        }
        if let Err(error) = self.prepare(wanted) {
            return Err(error);
        }
        if let Err(error) = self.links.reserve(wanted) {
            return Err(error);
        }
        match self.grow_to(count, init) {
            Ok(()) => Ok(()),
            Err(error) => {
                self.holder.fail();
                Err(error)
            }
        }
    }
}
