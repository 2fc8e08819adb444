//! Laws of the definitions, each of a function that does nothing.
ghost use Rattle.cfb_spec.specs.Means.{BytesMeanTree};
ghost use Rattle.cfb_spec.specs.TreeRules.{refused, tree_step, Call};
ghost use Rattle.cfb_medium.specs.declared.error.Error.{Error};
ghost use Rattle.cfb_tree.specs.Names.{CaseTable};
ghost use Rattle.cfb_tree.specs.Tree.{Tree};
ghost use Rattle.std.specs.Prelude.{List, ℕ, ◌≡◌};

/// Under one case table bytes mean at most one tree.
pub fn bytes_mean_one_tree()
    ensures { (letters : CaseTable) (bytes : List ℕ) (s t : Tree) → BytesMeanTree letters bytes s
        → BytesMeanTree letters bytes t → s ≡ t }
{}

/// A call that the rules refuse leaves the tree.
pub fn refused_calls_change_nothing()
    ensures { (letters : CaseTable) (tree : Tree) (call : Call) (error : Error)
        → (tree_step letters tree call).1 ≡ refused error
        → (tree_step letters tree call).0 ≡ tree }
{}
