//! Laws of the definitions, each the contract of a function.
ghost use Rattle.std.specs.Prelude.{◌≡◌, ◌↔◌, true, Bool, IfOk, IfSome, List, ℕ, Option};
ghost use Rattle.cfb_tree.specs.Names.{CaseTable};
ghost use Rattle.cfb_tree.specs.Tree.{Tree};
ghost use Rattle.msi_spec.specs.Opening.{keeps_encoded_names};
ghost use Rattle.msi_spec.specs.Package.{PackageContent, TreePacksPackage};
ghost use Rattle.msi_spec.specs.Sound.{IsSoundPackage};
ghost use Rattle.msi_parts.specs.Judged.{IsJudged};
ghost use Rattle.msi_spec.specs.declared.kind.PackageType.{PackageType};
ghost use Rattle.msi_parts.specs.Parts.{AreParts, MemoryIsPackage};
ghost use Rattle.msi_parts.specs.Whole.{HasFullRows};
ghost use Rattle.msi_pool.specs.Pool.{Pool};
ghost use Rattle.msi_props.specs.Held.{SetState};
ghost use Rattle.msi_query.specs.Query.{selected, Query};
ghost use Rattle.msi_tables.specs.Table.{Heading, Table};

/// What opening finds in a tree is what each package has that the tree packs.
pub fn parts_are_of_their_package()
    ensures { (letters : CaseTable) (tree : Tree) (kind : PackageType) (summary : SetState)
        (pool : Pool) (gives_back : Bool) (headings : List Heading)
        → AreParts letters tree kind summary pool gives_back headings → (P : PackageContent)
        → TreePacksPackage letters tree P → MemoryIsPackage kind summary.props pool headings P }
{}

/// Where each row of each table has a cell for each of its columns, so have the rows that a select answers.
pub fn selected_rows_are_whole()
    ensures { (tables : List ℕ → Option Table) (pool : Pool)
        → ((name : List ℕ) → IfSome (tables name) HasFullRows) → (asked : Query)
        → IfOk (selected tables pool asked) HasFullRows }
{}

/// A tree packs a sound package exactly where its parts are judged so, under a case table that leaves encoded names alone.
pub fn sound_parts_are_judged_so()
    ensures { (letters : CaseTable) (tree : Tree) (kind : PackageType) (summary : SetState)
        (pool : Pool) (gives_back : Bool) (headings : List Heading)
        → AreParts letters tree kind summary pool gives_back headings
        → keeps_encoded_names letters ≡ true
        → IsJudged letters tree summary pool gives_back headings ↔ ((P : PackageContent)
        × (packs : TreePacksPackage letters tree P) × IsSoundPackage letters tree P packs) }
{}
