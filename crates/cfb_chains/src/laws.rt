//! Laws of changed tables, each of a function that does nothing.
ghost use Rattle.cfb_chains.specs.Behind.{IsMarkedBehind};
ghost use Rattle.cfb_chains.specs.Changes.{AreSubsetOf, AreDisjoint, DifferOnlyAt, HaveEntry, IsBeside, IsFreeIn, SameExceptAt};
ghost use Rattle.cfb_chains.specs.Owned.{ChangesAtMost, ReplacesOwnedChain, OwnDisjointChains, SectorLayer, KeepsOwnedSectors};
ghost use Rattle.cfb_medium.specs.declared.version.Version.{Version};
ghost use Rattle.cfb_sectors.specs.Sectors.{filled_part, free, joined, Chain as IsChain};
ghost use Rattle.std.specs.List.{AllByRecursion};
ghost use Rattle.std.specs.Prelude.{List, ℕ, [], ◌++◌, ◌≡◌};

/// Chains without a changed entry stay, and so do the bytes of sectors beside the FAT's, where all beside those is as it was.
pub fn other_chains_stay()
    ensures chains { (entries old new : List ℕ) → DifferOnlyAt entries old new
        → (start : ℕ) (ids : List ℕ) → AreDisjoint entries ids → IsChain old start ids
        → IsChain new start ids }
    ensures bytes { (v : Version) (fat_sectors old new : List ℕ)
        → ((place count : ℕ) → IsBeside v fat_sectors place count
        → filled_part new place count ≡ filled_part old place count)
        → (ids : List ℕ) → AreDisjoint fat_sectors ids → joined v new ids ≡ joined v old ids }
{}

/// A chain has no free sector: where some were freed, each chain is one that was there before, without them.
pub fn freed_sectors_are_in_no_chain()
    ensures { (entries old new : List ℕ) → DifferOnlyAt entries old new → HaveEntry free new entries
        → (start : ℕ) (ids : List ℕ) → IsChain new start ids
        → AreDisjoint entries ids × IsChain old start ids }
{}

/// A longer table has no new chains but those of what was taken or set: each other one is of the old table.
pub fn untouched_chains_are_old()
    ensures { (difat_sectors fat_sectors taken entries old new : List ℕ)
        → SameExceptAt entries old new
        → IsMarkedBehind difat_sectors fat_sectors taken entries old new
        → (start : ℕ) (ids : List ℕ)
        → AreDisjoint taken ids → AreDisjoint entries ids → IsChain new start ids
        → IsChain old start ids }
{}

/// Where a chain took in sectors that were in no use, chains that shared no sector with it are as they were, and share none
/// with it now.
pub fn longer_chains_stay_apart()
    ensures { (entries old new ids more : List ℕ) → SameExceptAt entries old new
        → AreSubsetOf (ids ++ more) entries → AllByRecursion (IsFreeIn old) more
        → (start : ℕ) (others : List ℕ)
        → IsChain old start others → AreDisjoint ids others
        → IsChain new start others × AreDisjoint (ids ++ more) others }
{}

/// A change that makes one owner's chain another one, of sectors that it had or that were free, leaves each other owner its
/// chain with its bytes, and each sector one owner at most; one that touches no sector leaves all. What a sector holds is
/// given, so that this is said of sectors and of mini sectors.
pub fn other_owners_stay()
    ensures owned { (sector_of : List ℕ → ℕ → List ℕ) (words : List ℕ) (key : ℕ)
        (ids more : List ℕ) (old new : SectorLayer) (own later : ℕ → List ℕ)
        → OwnDisjointChains old.table old.tables own
        → ReplacesOwnedChain sector_of words key ids more old new own later
        → OwnDisjointChains new.table new.tables later }
    ensures stay { (sector_of : List ℕ → ℕ → List ℕ) (words : List ℕ) (key : ℕ) (ids more : List ℕ)
        (old new : SectorLayer) (own later : ℕ → List ℕ)
        → OwnDisjointChains old.table old.tables own
        → ReplacesOwnedChain sector_of words key ids more old new own later
        → (k : ℕ) → (k ≡ key → ⊥) → KeepsOwnedSectors sector_of old new (own k) }
    ensures untouched { (sector_of : List ℕ → ℕ → List ℕ) (words : List ℕ) (old new : SectorLayer)
        (own : ℕ → List ℕ) → OwnDisjointChains old.table old.tables own
        → ChangesAtMost sector_of words [] old new
        → OwnDisjointChains new.table new.tables own
        × ((k : ℕ) → KeepsOwnedSectors sector_of old new (own k)) }
{}
