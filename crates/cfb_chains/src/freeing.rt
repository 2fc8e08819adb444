//! Chains that are freed, at whatever height.
ghost use Rattle.cfb_chains.specs.ChainCalls.{start_of, ChainErrorContract, OnlyReadsChain, IsInvalid};
ghost use Rattle.cfb_chains.specs.Changes.{DifferOnlyAt, HaveEntry};
ghost use Rattle.cfb_medium.specs.Calls.{IsFaultOrInvalidInputIf};
ghost use Rattle.cfb_medium.specs.declared.error.Error.TheVariants.{Failed, InvalidData};
ghost use Rattle.cfb_sectors.specs.Sectors.{end_of_chain, filled_part, free, Chain as IsChain};
ghost use Rattle.std.specs.Prelude.{false, slice_index, true, Bool, IfErr, IsErrOf, IsTrue, List, OnErr, OnOk, ℕ, [], ◌∷◌, ◌≡◌, ◌⊎◌};

use crate::Chain;
use cfb_medium::Error;
use cfb_sectors::ChangesSectors;

/// A layer that has chains and frees them.
pub trait FreesChains: ChangesSectors {
    /// The FAT, an entry for each sector.
    ghost fat: { Self → List ℕ };

    /// Its tables can be changed.
    ghost orderly: { Self → Bool };

    /// The second state comes from the first by a change of at most these entries of the FAT.
    ghost changes_fat: { List ℕ → Self → Self → Type 0 };

    /// Frees the sectors of the chain from a start. `InvalidData` where the FAT has none or the tables can't be changed, and
    /// then nothing is changed. After a fault in a write it has failed.
    fn free_chain(&mut self, start: u32) -> Result<(), Error>
        ensures frees { (ids : List ℕ) × OnOk result (IsChain (fat self.old) start ids
            × HaveEntry free (fat self.new) ids) × changes_fat ids self.old self.new }
        ensures not_failed { OnOk result ((Self.failed self.old ≡ false) × IsTrue (orderly self.old)
            × (Self.failed self.new ≡ false)) }
        ensures refused_only_if { IsErrOf result InvalidData
            → (IsTrue (orderly self.old) → (ids : List ℕ) → IsChain (fat self.old) start ids → ⊥)
            × Self.rests self.old self.new }
        ensures when_failed { Self.failed self.old ≡ true
            → IsErrOf result Failed × Self.rests self.old self.new }
        ensures cause { IfErr result (Self.has_cause self.old self.new) }
        ensures errors { IfErr result (λ e. (IsFaultOrInvalidInputIf ⊥ e
            × ((Self.failed self.new ≡ true) ⊎ Self.rests self.old self.new))
            ⊎ (e ≡ InvalidData)) };

    /// Ends a chain with this sector, and frees those behind it. `InvalidData` where the FAT has no chain from it or the tables
    /// can't be changed, and then nothing is changed. After a fault in a write it has failed.
    fn free_chain_after(&mut self, sector_id: u32) -> Result<(), Error>
        ensures frees { (ids : List ℕ) × OnOk result
            (IsChain (fat self.old) sector_id (sector_id ∷ ids)
            × (slice_index (fat self.new) sector_id ≡ end_of_chain)
            × HaveEntry free (fat self.new) ids)
            × changes_fat (sector_id ∷ ids) self.old self.new }
        ensures not_failed { OnOk result ((Self.failed self.old ≡ false) × IsTrue (orderly self.old)
            × (Self.failed self.new ≡ false)) }
        ensures refused_only_if { IsErrOf result InvalidData
            → (IsTrue (orderly self.old) → (ids : List ℕ)
            → IsChain (fat self.old) sector_id (sector_id ∷ ids) → ⊥)
            × Self.rests self.old self.new }
        ensures when_failed { Self.failed self.old ≡ true
            → IsErrOf result Failed × Self.rests self.old self.new }
        ensures cause { IfErr result (Self.has_cause self.old self.new) }
        ensures errors { IfErr result (λ e. (IsFaultOrInvalidInputIf ⊥ e
            × ((Self.failed self.new ≡ true) ⊎ Self.rests self.old self.new))
            ⊎ (e ≡ InvalidData)) };

    // other entries stay, and so do the bytes that may be written
    ghost changes_keep: { (entries : List ℕ) (a b : Self) → changes_fat entries a b → (Self.honest b ≡ Self.honest a)
        × (Self.failed b ≡ false → (Self.failed a ≡ false) × DifferOnlyAt entries (fat a) (fat b)
        × ((place count : ℕ) → Self.may_write a place count → Self.may_write b place count)
        × (IsTrue (Self.honest a) → (place count : ℕ) → Self.may_write a place count → filled_part (Self.bytes b) place count ≡ filled_part (Self.bytes a) place count)) };

    ghost writes_keep_tables: { (place : ℕ) (written : List ℕ) (a b : Self) → Self.writes place written a b → (fat b ≡ fat a) × (orderly b ≡ orderly a) };

    ghost rests_keep_tables: { (a b : Self) → Self.rests a b → (fat b ≡ fat a) × (orderly b ≡ orderly a) × ((place count : ℕ) → Self.may_write a place count → Self.may_write b place count) };
}

impl<'a, H: FreesChains> Chain<'a, H> {
    ghost use Rattle.cfb_chains.specs.ChainViews.{holder_of, position_of, sectors_of, IsSameBut};

    /// Frees the sectors of the chain from its first on, as the FAT has it; it has none then. `InvalidData` where the FAT has
    /// none or the tables can't be changed, and then nothing is changed. After a fault in a write the layer has failed.
    pub fn free(&mut self) -> Result<(), Error>
        ensures frees { (ids : List ℕ) × OnOk result
            (IsChain (H.fat (holder_of self.old)) (start_of self.old) ids
            × HaveEntry free (H.fat (holder_of self.new)) ids)
            × H.changes_fat ids (holder_of self.old) (holder_of self.new) }
        ensures emptied { OnOk result ((sectors_of self.new ≡ []) × (position_of self.new ≡ 0)) }
        ensures kept { OnErr result ((sectors_of self.new ≡ sectors_of self.old)
            × (position_of self.new ≡ position_of self.old)) }
        ensures same { IsSameBut self.old self.new }
        ensures orderly { OnOk result (IsTrue (H.orderly (holder_of self.old))) }
        ensures refused_only_if { IsErrOf result InvalidData
            → (IsTrue (H.orderly (holder_of self.old)) → (ids : List ℕ)
            → IsChain (H.fat (holder_of self.old)) (start_of self.old) ids → ⊥)
            × OnlyReadsChain H.rests self.old self.new }
        ensures error_contract { ChainErrorContract H.ChangesSectors IsInvalid result self.old
            self.new }
    {
        let start = self.start_sector_id();
        self.holder.free_chain(start)?;
        self.position = 0;
        self.links.clear();
        Ok(())
    }
}
