//! Trees of siblings are kept shallow: siblings are turned, one under the other ([MS-CFB] 2.6.4).
ghost use Rattle.cfb_chains.specs.ChainCalls.{IsInvalid};
ghost use Rattle.cfb_directory.specs.Changes.{HasDirectory};
ghost use Rattle.cfb_directory.specs.Children.{HoldsChild};
ghost use Rattle.cfb_directory.specs.Entries.{SizesFit};
ghost use Rattle.cfb_directory.specs.Turning.{HasTurning, HoldChild, HoldOn, SetsLinks};
ghost use Rattle.cfb_directory.specs.Views.{allocator_of, entries_held};
ghost use Rattle.cfb_fat.specs.Calls.{FatErrorContract};
ghost use Rattle.cfb_fat.specs.Tables.{has_failed_here, version_of};
ghost use Rattle.cfb_medium.specs.declared.error.Error.TheVariants.{InvalidData};
ghost use Rattle.cfb_chain_io.specs.ChainEffects.{KeepsFileInvariants};
ghost use Rattle.cfb_siblings.specs.Links.{holder, relinked};
ghost use Rattle.cfb_siblings.specs.Places.{HasEntry};
ghost use Rattle.cfb_siblings.specs.Rotations.{rotated};
ghost use Rattle.cfb_tree.specs.CaseTableViews.{case_table_of};
ghost use Rattle.cfb_tree.specs.Names.{CaseTable};
ghost use Rattle.cfb_tree.specs.Paths.{Path};
ghost use Rattle.cfb_tree.specs.Tree.{Tree};
ghost use Rattle.std.specs.Prelude.{false, true, Bool, IfOk, IsErrOf, List, OnErr, OnOk, ℕ, ◌≡◌};

use crate::Directory;
use cfb_medium::{Error, Medium};
use cfb_siblings::{Link, NewLink, Rotation, plan_rise, plan_sink};
use cfb_tree::CaseMapper;

impl<F: Medium> Directory<F> {
    // Sets a link. After an error it has failed.
    fn set_link(&mut self, it: NewLink) -> Result<(), Error>
        ensures set { OnOk result (entries_held self.new
            ≡ relinked it.link it.target (entries_held self.old)) }
        ensures links { OnOk result (SetsLinks self.old self.new) }
        ensures refused_only_if { IsErrOf result InvalidData → HasDirectory self.old
            → HasEntry (entries_held self.old) (holder it.link)
            → SizesFit (version_of (allocator_of self.old)) (entries_held self.old) → ⊥ }
        ensures when_failed { OnErr result (has_failed_here (allocator_of self.new) ≡ true) }
        ensures invariants { KeepsFileInvariants (allocator_of self.old) (allocator_of self.new) }
        ensures error_contract { FatErrorContract IsInvalid result (allocator_of self.old)
            (allocator_of self.new) }
    {
        if let Err(error) = self.write_link(it.link, it.target) {
            self.allocator.fail();
            return Err(error);
        }
        Ok(())
    }

    // Sets the links of a rotation. After an error it has failed.
    fn turn(&mut self, rotation: Rotation) -> Result<(), Error>
        ensures set { OnOk result (entries_held self.new
            ≡ rotated rotation (entries_held self.old)) }
        ensures links { OnOk result (SetsLinks self.old self.new) }
        ensures refused_only_if { IsErrOf result InvalidData → HasDirectory self.old
            → HasTurning (entries_held self.old) rotation
            → SizesFit (version_of (allocator_of self.old)) (entries_held self.old) → ⊥ }
        ensures when_failed { OnErr result (has_failed_here (allocator_of self.new) ≡ true) }
        ensures invariants { KeepsFileInvariants (allocator_of self.old) (allocator_of self.new) }
        ensures error_contract { FatErrorContract IsInvalid result (allocator_of self.old)
            (allocator_of self.new) }
    {
        if let Err(error) = self.set_link(rotation.inner) {
            return Err(error);
        }
        if let Err(error) = self.set_link(rotation.lowered) {
            return Err(error);
        }
        self.set_link(rotation.raised)
    }

    // Raises an entry, the child of this name to which the link leads, as far as it is to stand. After an error it has failed.
    pub(crate) fn rise(
        &mut self,
        letters: &CaseMapper,
        parent: u32,
        name: &str,
        link: Link,
        id: u32,
    ) -> Result<(), Error>
        requires { has_failed_here (allocator_of self.old) ≡ false }
        ensures holds { OnOk result (HoldOn (case_table_of letters.now) (entries_held self.old)
            (entries_held self.new) parent) }
        ensures links { OnOk result (SetsLinks self.old self.new) }
        ensures refused_only_if { IsErrOf result InvalidData → HasDirectory self.old
            → SizesFit (version_of (allocator_of self.old)) (entries_held self.old) → ⊥ }
        ensures when_failed { OnErr result (has_failed_here (allocator_of self.new) ≡ true) }
        ensures invariants { KeepsFileInvariants (allocator_of self.old) (allocator_of self.new) }
        ensures error_contract { FatErrorContract IsInvalid result (allocator_of self.old)
            (allocator_of self.new) }
    {
        let mut link = link;
        let count = self.entries.items.len();
        'rising: for _step in 0..count {
            let Some(rotation) = plan_rise(letters, &self.entries.items, parent, name, link, id)
            else {
                return Ok(());
            };
            if let Err(error) = self.turn(rotation) {
                return Err(error);
            }
            link = rotation.raised.link;
        }
        Ok(())
    }

    // Lowers an entry, to which the link leads, until it lacks a left or a right sibling, and tells the link that leads to it then.
    // After an error it has failed.
    pub(crate) fn sink(&mut self, link: Link, id: u32) -> Result<Link, Error>
        requires { has_failed_here (allocator_of self.old) ≡ false }
        ensures holds { IfOk result (λ now. HoldChild (entries_held self.old)
            (entries_held self.new) link now id) }
        ensures links { OnOk result (SetsLinks self.old self.new) }
        ensures refused_only_if { IsErrOf result InvalidData → (letters : CaseTable)
            (reads : ℕ → ℕ → List ℕ → Bool) (tree : Tree) (path : Path) (parent : ℕ)
            (name : List ℕ)
            → HoldsChild letters reads (entries_held self.old) tree path parent name link id
            → HasDirectory self.old
            → SizesFit (version_of (allocator_of self.old)) (entries_held self.old) → ⊥ }
        ensures when_failed { OnErr result (has_failed_here (allocator_of self.new) ≡ true) }
        ensures invariants { KeepsFileInvariants (allocator_of self.old) (allocator_of self.new) }
        ensures error_contract { FatErrorContract IsInvalid result (allocator_of self.old)
            (allocator_of self.new) }
    {
        let mut link = link;
        let count = self.entries.items.len();
        'sinking: for _step in 0..count {
            let Some(rotation) = plan_sink(&self.entries.items, link, id) else {
                return Ok(link);
            };
            if let Err(error) = self.turn(rotation) {
                return Err(error);
            }
            link = rotation.lowered.link;
        }
        Ok(link)
    }
}
