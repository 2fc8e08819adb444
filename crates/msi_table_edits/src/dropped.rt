//! Laws of a package without one of its tables, each the contract of a function.
ghost use Rattle.std.specs.Prelude.{ℕ, List};
ghost use Rattle.cfb_tree.specs.Names.{CaseTable};
ghost use Rattle.cfb_tree.specs.Tree.{Tree};
ghost use Rattle.msi_table_edits.specs.Dropping.{without_table, AreRead, HasDropped, IsDropping};
ghost use Rattle.msi_spec.specs.Package.{PackageContent};
ghost use Rattle.msi_pool.specs.Pool.{Pool};
ghost use Rattle.msi_stored.specs.Changing.{KeepsParts, StoresSoundPackage};
ghost use Rattle.msi_tables.specs.Rows.{Row};
ghost use Rattle.msi_tables.specs.Table.{Table};

/// The tree of a sound package in which the streams of _Columns, _Tables and _Validation got the rows that don't speak of a table that
/// may be dropped, and which has no stream of that table any more, stores the package without the table, and it is sound. Whatever
/// the streams of pool and summary hold they hold still.
pub fn dropped_packages_are_stored()
    ensures stores { (letters : CaseTable) (old new : Tree) (P : PackageContent)
        → StoresSoundPackage letters old P
        → (name : List ℕ) (x : Table × Pool) (c t v : List Row) → IsDropping P name x c t v
        → (cb tb vb : List ℕ) → HasDropped letters name cb tb vb old new
        → AreRead P cb tb vb c t v
        → StoresSoundPackage letters new (without_table P name x.1 c t v) }
    ensures keeps { (letters : CaseTable) (old new : Tree) (P : PackageContent)
        → StoresSoundPackage letters old P
        → (name : List ℕ) (x : Table × Pool) (c t v : List Row) → IsDropping P name x c t v
        → (cb tb vb : List ℕ) → HasDropped letters name cb tb vb old new
        → KeepsParts letters old new }
{}
