//! Laws of the definitions, each the contract of a function.
ghost use Rattle.std.specs.Prelude.{◌≡◌, false, true, ℕ, List, Ok, Some};
ghost use Rattle.cfb_tree.specs.Names.{CaseTable};
ghost use Rattle.cfb_tree.specs.Tree.{Tree};
ghost use Rattle.msi_new_package.specs.New.{new_package, IsLaidDown, PartsComeBack};
ghost use Rattle.msi_spec.specs.RoundTrips.{RowsRoundTrip};
ghost use Rattle.msi_spec.specs.Calls.{bare_package, described, IsNew, Rows3};
ghost use Rattle.msi_spec.specs.Opening.{keeps_encoded_names};
ghost use Rattle.msi_spec.specs.Package.{PackageContent};
ghost use Rattle.msi_spec.specs.declared.kind.PackageType.{PackageType};
ghost use Rattle.msi_pool.specs.Pool.{Pool};
ghost use Rattle.msi_stored.specs.Changing.{StoresSoundPackage};
ghost use Rattle.msi_tables.specs.Rows.{kinds_of, rows_bytes, Row};
ghost use Rattle.msi_tables.specs.Schema.{columns_columns, tables_columns, validation_columns, validation_name};
ghost use Rattle.msi_tables.specs.Table.{IsStoredByKeys};

/// A tree that held nothing and got the rows of a new package, as they are stored, stores it, and it is sound. These rows come back
/// from their bytes.
pub fn new_packages_are_stored()
    ensures stored { (letters : CaseTable) → keeps_encoded_names letters ≡ true
        → (kind : PackageType)
        (x : Rows3 × Pool) → described (bare_package kind) validation_name validation_columns ≡ Ok x
        → (c t v : List Row) → IsStoredByKeys x.1 columns_columns x.0.0 c
        → IsStoredByKeys x.1 tables_columns x.0.1 t
        → IsStoredByKeys x.1 validation_columns x.0.2 v
        → (bc bt bv : List ℕ) → rows_bytes false (kinds_of columns_columns) c ≡ Some bc
        → rows_bytes false (kinds_of tables_columns) t ≡ Some bt
        → rows_bytes false (kinds_of validation_columns) v ≡ Some bv
        → (tree : Tree) → IsLaidDown letters kind bc bt bv tree
        → StoresSoundPackage letters tree (new_package kind x.1 c t v) }
    ensures come_back { (kind : PackageType) (x : Rows3 × Pool)
        → described (bare_package kind) validation_name validation_columns ≡ Ok x
        → (c t v : List Row) → IsStoredByKeys x.1 columns_columns x.0.0 c
        → IsStoredByKeys x.1 tables_columns x.0.1 t
        → IsStoredByKeys x.1 validation_columns x.0.2 v
        → RowsRoundTrip false columns_columns c × RowsRoundTrip false tables_columns t
        × RowsRoundTrip false validation_columns v }
{}

/// Pool and summary of a new package come back from their streams.
pub fn new_parts_come_back()
    ensures { (kind : PackageType) (P : PackageContent) → IsNew kind P → PartsComeBack P }
{}
