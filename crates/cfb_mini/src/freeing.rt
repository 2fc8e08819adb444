//! Chains of sectors that come out of use ([MS-CFB] 2.3).
ghost use Rattle.cfb_chains.specs.ChainCalls.{IsInvalid};
ghost use Rattle.cfb_chains.specs.LinkViews.{ids_of, links_version};
ghost use Rattle.cfb_fat.specs.Calls.{FatErrorContract};
ghost use Rattle.cfb_fat.specs.Tables.{has_failed_here, orderly_of, version_of};
ghost use Rattle.cfb_medium.specs.declared.error.Error.TheVariants.{InvalidData};
ghost use Rattle.cfb_mini.specs.Changing.{FreesChain, HasUniqueOwners};
ghost use Rattle.cfb_mini.specs.Views.{allocator_of, OnlyReadsMini};
ghost use Rattle.cfb_chain_io.specs.ChainEffects.{KeepsFileInvariants};
ghost use Rattle.std.specs.Prelude.{true, IsErrOf, IsTrue, List, OnErr, OnOk, [], ℕ, ◌<◌, ◌≡◌, ◌⊎◌};

use crate::MiniAllocator;
use cfb_chain_io::free_chain;
use cfb_chains::Links;
use cfb_medium::{Error, Medium};

impl<F: Medium> MiniAllocator<F> {
    /// Frees all sectors of a chain that another owns than directory, mini FAT and mini stream; it has none then. `InvalidData`
    /// where the tables can't be changed or haven't the chain. After an error nothing is changed, or it has failed
    /// ([MS-CFB] 2.3).
    pub fn free_chain(&mut self, links: &mut Links) -> Result<(), Error>
        ensures freed { OnOk result ((own : ℕ → List ℕ) (key : ℕ) → HasUniqueOwners self.old own
            → 2 < key → own key ≡ ids_of links.old
            → links_version links.old ≡ version_of (allocator_of self.old)
            → FreesChain key self.old self.new own) }
        ensures emptied { OnOk result (ids_of links.new ≡ []) }
        ensures refused_only_if { IsErrOf result InvalidData → (own : ℕ → List ℕ) (key : ℕ)
            → HasUniqueOwners self.old own → own key ≡ ids_of links.old
            → links_version links.old ≡ version_of (allocator_of self.old)
            → IsTrue (orderly_of (allocator_of self.old)) → ⊥ }
        ensures after_error { OnErr result ((has_failed_here (allocator_of self.new) ≡ true)
            ⊎ OnlyReadsMini self.old self.new) }
        ensures invariants { KeepsFileInvariants (allocator_of self.old) (allocator_of self.new) }
        ensures error_contract { FatErrorContract IsInvalid result (allocator_of self.old)
            (allocator_of self.new) }
    {
        free_chain(self.directory.allocator_mut(), links)
    }
}
