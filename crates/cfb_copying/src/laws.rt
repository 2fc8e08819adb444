//! Laws, each of a function that does nothing.
ghost use Rattle.cfb_copying.specs.Chains.{CopiesChain};
ghost use Rattle.cfb_copying.specs.Copied.{IsFileCopied, IsTight};
ghost use Rattle.cfb_copying.specs.Making.{with_list, IsFileInProgress};
ghost use Rattle.cfb_chains.specs.LinkViews.{ids_of};
ghost use Rattle.cfb_chains.specs.declared.links.Links.{Links as ChainLinks};
ghost use Rattle.cfb_fat.specs.Tables.{has_failed_here};
ghost use Rattle.cfb_fat.specs.declared.allocator.Allocator.{Allocator as Table};
ghost use Rattle.cfb_chain_io.specs.ChainEffects.{KeepsFileInvariants};
ghost use Rattle.cfb_ownership.specs.Held.{OwnersHoldTree};
ghost use Rattle.cfb_ownership.specs.LiveFile.{LiveFile};
ghost use Rattle.cfb_ownership.specs.Owners.{Owners};
ghost use Rattle.cfb_tree.specs.Names.{CaseTable};
ghost use Rattle.cfb_tree.specs.Tree.{Tree};
ghost use Rattle.std.specs.Prelude.{false, List, ℕ, ◌≡◌};

use cfb_medium::ReadMedium;

/// A file in the making stays one by each chain that is added to it.
pub fn files_are_made_by_chains<F: ReadMedium>()
    ensures { (directory mini_fat : ℕ) (a b : Table F F.ReadMedium)
        (before links : ChainLinks) (own bytes : ℕ → List ℕ) (key : ℕ) (content : List ℕ)
        → IsFileInProgress directory mini_fat a own bytes → own key ≡ ids_of before
        → KeepsFileInvariants a b
        → has_failed_here b ≡ false → CopiesChain content a b before links
        → IsFileInProgress directory mini_fat b (with_list key (ids_of links) own)
        (with_list key content bytes) }
{}

/// A copy of a live file means the tree that the file means, and is sound; every sector of it serves a use.
pub fn copies_mean_the_same_tree()
    ensures held { (s t : LiveFile) (who : Owners) (own : ℕ → List ℕ) (letters : CaseTable)
        (tree : Tree) → (h : OwnersHoldTree s who letters tree) → IsFileCopied s who h.ids t own
        → OwnersHoldTree t (record { sectors = own; minis = who.minis }) letters tree }
    ensures tight { (s t : LiveFile) (who : Owners) (own : ℕ → List ℕ) (letters : CaseTable)
        (tree : Tree) → (h : OwnersHoldTree s who letters tree) → IsFileCopied s who h.ids t own
        → IsTight letters t.bytes tree }
{}
