//! Chains that take sectors into use, at whatever height.
ghost use Rattle.cfb_chains.specs.ChainCalls.{IsInvalidOrFull};
ghost use Rattle.cfb_chains.specs.Changes.{HasNoneSpare, IsBeside, IsFreeIn, SameExceptAt};
ghost use Rattle.cfb_medium.specs.Calls.{IsFaultOrInvalidInputIf};
ghost use Rattle.cfb_medium.specs.Versions.{sector_len};
ghost use Rattle.cfb_medium.specs.declared.error.Error.{Error};
ghost use Rattle.cfb_medium.specs.declared.error.Error.TheVariants.{Failed, Full, InvalidData};
ghost use Rattle.cfb_medium.specs.declared.version.Version.{Version};
ghost use Rattle.cfb_sectors.specs.Initial.{first_bytes};
ghost use Rattle.cfb_sectors.specs.Sectors.{filled_part, sector, sector_start, Chain as IsChain};
ghost use Rattle.std.specs.List.{AllByRecursion};
ghost use Rattle.std.specs.Prelude.{false, length, true, IfErr, IfOk, IsErrOf, IsTrue, List, OnErr, OnOk, ℕ, [], ◌++◌, ◌∷◌, ◌≡◌, ◌⊎◌, ◌≤◌};

use crate::FreesChains;
use cfb_medium::Error;
use cfb_sectors::NewSector;

/// A layer that has chains, and takes sectors into use for them.
pub trait GrowsChains: FreesChains {
    /// The file's version.
    ghost version: { Self → Version };

    /// The sectors that hold the tables. None is taken into use, whatever its entry says.
    ghost tables: { Self → List ℕ };

    /// No sector's number is left for one more.
    ghost is_full: { Self → Type 0 };

    /// Fewer numbers of sectors are left than this.
    ghost lacks: { Self → ℕ → Type 0 };

    /// The second state comes from the first by taking these sectors into use, and a change of at most these entries of the
    /// FAT.
    ghost grows: { List ℕ → List ℕ → Self → Self → Type 0 };

    /// Takes a sector into use, as a chain of its own: a free one, and only where there is none one behind all others.
    /// `InvalidData` where the tables can't be changed, and then `Full` where no sector's number is left; nothing is changed
    /// then. After a fault in a write it has failed.
    fn begin_chain(&mut self, init: NewSector<'_>) -> Result<u32, Error>
        ensures begins { IfOk result (λ n. IsChain (Self.fat self.new) n (n ∷ [])
            × grows (n ∷ []) (n ∷ []) self.old self.new) }
        ensures none { OnErr result (grows [] [] self.old self.new) }
        ensures filled { IfOk result (λ n. IsTrue (Self.honest self.old)
            → sector (version self.old) (Self.bytes self.new) n
            ≡ first_bytes init.entry (sector_len (version self.old))) }
        ensures appended { IfOk result (λ n. length (Self.fat self.old) ≤ n
            → HasNoneSpare (Self.fat self.old) (tables self.old)) }
        ensures writable { IfOk result (λ n. Self.may_write self.new
            (sector_start (version self.old) n) (sector_len (version self.old))) }
        ensures not_failed { OnOk result
            ((Self.failed self.old ≡ false) × IsTrue (Self.orderly self.old)
            × (Self.failed self.new ≡ false)) }
        ensures refused_only_if { IsErrOf result InvalidData
            → (IsTrue (Self.orderly self.old) → ⊥) × Self.rests self.old self.new }
        ensures full_only_if { IsErrOf result Full → IsTrue (Self.orderly self.old)
            × is_full self.old
            × Self.rests self.old self.new }
        ensures when_failed { Self.failed self.old ≡ true
            → IsErrOf result Failed × Self.rests self.old self.new }
        ensures cause { IfErr result (Self.has_cause self.old self.new) }
        ensures errors { IfErr result (λ e. (IsFaultOrInvalidInputIf ⊥ e
            × ((Self.failed self.new ≡ true) ⊎ Self.rests self.old self.new))
            ⊎ IsInvalidOrFull e) };

    /// Extends the chain from a start by one sector behind its last. `InvalidData` where the FAT has no such chain, it has no
    /// sector, or the tables can't be changed, and then `Full` where no sector's number is left; nothing is changed then. After
    /// a fault in a write it has failed.
    fn extend_chain(&mut self, start: u32, init: NewSector<'_>) -> Result<u32, Error>
        ensures extends { IfOk result (λ n. (ids : List ℕ) × (last : ℕ)
            × IsChain (Self.fat self.old) start (ids ++ last ∷ [])
            × IsChain (Self.fat self.new) start (ids ++ last ∷ n ∷ [])
            × grows (n ∷ []) (last ∷ n ∷ []) self.old self.new) }
        ensures none { OnErr result (grows [] [] self.old self.new) }
        ensures filled { IfOk result (λ n. IsTrue (Self.honest self.old)
            → sector (version self.old) (Self.bytes self.new) n
            ≡ first_bytes init.entry (sector_len (version self.old))) }
        ensures appended { IfOk result (λ n. length (Self.fat self.old) ≤ n
            → HasNoneSpare (Self.fat self.old) (tables self.old)) }
        ensures writable { IfOk result (λ n. Self.may_write self.new
            (sector_start (version self.old) n) (sector_len (version self.old))) }
        ensures not_failed { OnOk result
            ((Self.failed self.old ≡ false) × IsTrue (Self.orderly self.old)
            × (Self.failed self.new ≡ false)) }
        ensures refused_only_if { IsErrOf result InvalidData
            → (IsTrue (Self.orderly self.old) → (ids : List ℕ) (last : ℕ)
            → IsChain (Self.fat self.old) start (ids ++ last ∷ []) → ⊥)
            × Self.rests self.old self.new }
        ensures full_only_if { IsErrOf result Full → IsTrue (Self.orderly self.old)
            × is_full self.old
            × Self.rests self.old self.new }
        ensures when_failed { Self.failed self.old ≡ true
            → IsErrOf result Failed × Self.rests self.old self.new }
        ensures cause { IfErr result (Self.has_cause self.old self.new) }
        ensures errors { IfErr result (λ e. (IsFaultOrInvalidInputIf ⊥ e
            × ((Self.failed self.new ≡ true) ⊎ Self.rests self.old self.new))
            ⊎ IsInvalidOrFull e) };

    /// Readies the chain from a start to take in so many sectors, and asks for the memory that this may take. `InvalidData`
    /// where the FAT has no such chain or the tables can't be changed, and then `Full` where fewer numbers are left. Nothing is
    /// changed.
    fn prepare_growth(&mut self, start: u32, count: usize) -> Result<(), Error>
        ensures ready { OnOk result (IsTrue (Self.orderly self.old)) }
        ensures chain { OnOk result ((ids : List ℕ) × IsChain (Self.fat self.old) start ids) }
        ensures only_reads { Self.rests self.old self.new }
        ensures refused_only_if { IsErrOf result InvalidData → IsTrue (Self.orderly self.old)
            → (ids : List ℕ) → IsChain (Self.fat self.old) start ids → ⊥ }
        ensures full_only_if { IsErrOf result Full → IsTrue (Self.orderly self.old)
            × lacks self.old count }
        ensures when_failed { Self.failed self.old ≡ true → IsErrOf result Failed }
        ensures cause { IfErr result (Self.has_cause self.old self.new) }
        ensures errors { IfErr result (λ e. IsFaultOrInvalidInputIf ⊥ e ⊎ IsInvalidOrFull e) };

    // what stands in the FAT and may be written stays
    ghost grows_keep: { (taken entries : List ℕ) (a b : Self) → grows taken entries a b → (Self.honest b ≡ Self.honest a) × (version b ≡ version a)
        × (Self.failed b ≡ false → (Self.failed a ≡ false) × AllByRecursion (IsFreeIn (Self.fat a)) taken × SameExceptAt entries (Self.fat a) (Self.fat b)
        × ((place count : ℕ) → Self.may_write a place count → Self.may_write b place count)
        × (IsTrue (Self.honest a) → (place count : ℕ) → Self.may_write a place count → IsBeside (version a) taken place count → filled_part (Self.bytes b) place count ≡ filled_part (Self.bytes a) place count)
        × (Self.orderly b ≡ Self.orderly a)) };

    ghost grows_rest: { (entries : List ℕ) (a b : Self) → Self.rests a b → grows [] entries a b };

    ghost grows_then: { (taken entries more others : List ℕ) (a b c : Self) → grows taken entries a b → grows more others b c → grows (taken ++ more) (entries ++ others) a c };

    // what was done before it was made to fail
    ghost grows_fails: { (taken entries : List ℕ) (a b c : Self) → grows taken entries a b → Self.fails b c → grows taken entries a c };

    ghost grows_cause: { (taken entries : List ℕ) (a b c : Self) (e : Error) → grows taken entries a b → Self.failed b ≡ false → Self.has_cause b c e → Self.has_cause a c e };
}
