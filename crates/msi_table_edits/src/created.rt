//! Laws of packages that got one table more, each the contract of a function.
ghost use Rattle.std.specs.Prelude.{ℕ, List};
ghost use Rattle.cfb_tree.specs.Names.{CaseTable};
ghost use Rattle.cfb_tree.specs.Tree.{Tree};
ghost use Rattle.msi_columns.specs.Column.{Column};
ghost use Rattle.msi_table_edits.specs.Created.{with_table, AreReadThree, CanBeStoredThree, ComeBackThree, HasPutThree, IsNewTableAccepted};
ghost use Rattle.msi_table_edits.specs.Validating.{with_validation, AreReadTwo, CanBeStoredTwo, ComeBackTwo, HasPutTwo, IsValidated};
ghost use Rattle.msi_spec.specs.Package.{PackageContent};
ghost use Rattle.msi_pool.specs.Pool.{Pool};
ghost use Rattle.msi_stored.specs.Changing.{KeepsParts, StoresSoundPackage};
ghost use Rattle.msi_tables.specs.Rows.{Row};

/// Where a new table is accepted, the tree in which the streams of _Columns, _Tables and _Validation got the rows that describe it
/// stores the package with that table, and it is sound; the streams of pool and summary stay. The rows come back from their bytes.
pub fn new_tables_are_stored()
    ensures stored { (letters : CaseTable) (old new : Tree) (P : PackageContent)
        → StoresSoundPackage letters old P
        → (name : List ℕ) (columns : List Column) (pool : Pool) (c t v : List Row)
        → IsNewTableAccepted letters P name columns pool c t v → (bc bt bv : List ℕ)
        → HasPutThree letters bc bt bv old new → AreReadThree P bc bt bv c t v
        → StoresSoundPackage letters new (with_table P name columns pool c t v) }
    ensures keeps { (letters : CaseTable) (old new : Tree) (P : PackageContent)
        → StoresSoundPackage letters old P
        → (name : List ℕ) (columns : List Column) (pool : Pool) (c t v : List Row)
        → IsNewTableAccepted letters P name columns pool c t v → (bc bt bv : List ℕ)
        → HasPutThree letters bc bt bv old new → KeepsParts letters old new }
    ensures come_back { (letters : CaseTable) (tree : Tree) (P : PackageContent)
        → StoresSoundPackage letters tree P
        → (name : List ℕ) (columns : List Column) (pool : Pool) (c t v : List Row)
        → (is : IsNewTableAccepted letters P name columns pool c t v) → CanBeStoredThree P is.rows
        → ComeBackThree P c t v }
{}

/// Where an empty _Validation is accepted, the tree in which the streams of _Columns and _Tables got the rows that list it stores the
/// package with that table, and it is sound; the streams of pool and summary stay, and it has none of its own. The rows come back from
/// their bytes.
pub fn new_validations_are_stored()
    ensures stored { (letters : CaseTable) (old new : Tree) (P : PackageContent)
        → StoresSoundPackage letters old P
        → (pool : Pool) (c t : List Row) → IsValidated letters P pool c t → (bc bt : List ℕ)
        → HasPutTwo letters bc bt old new → AreReadTwo P bc bt c t
        → StoresSoundPackage letters new (with_validation P pool c t) }
    ensures keeps { (letters : CaseTable) (old new : Tree) (P : PackageContent)
        → StoresSoundPackage letters old P
        → (pool : Pool) (c t : List Row) → IsValidated letters P pool c t → (bc bt : List ℕ)
        → HasPutTwo letters bc bt old new → KeepsParts letters old new }
    ensures come_back { (letters : CaseTable) (tree : Tree) (P : PackageContent)
        → StoresSoundPackage letters tree P
        → (pool : Pool) (c t : List Row) → (is : IsValidated letters P pool c t)
        → CanBeStoredTwo P is.rows → ComeBackTwo P c t }
{}
