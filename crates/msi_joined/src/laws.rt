//! The law of inserts that are joined, the contract of a function.
ghost use Rattle.std.specs.Prelude.{◌≡◌, ◌∷◌, ℕ, List, Ok};
ghost use Rattle.msi_joined.specs.Joined.{joined_rows, InsertsEach};
ghost use Rattle.msi_spec.specs.Calls.{Inserts};
ghost use Rattle.msi_spec.specs.Package.{PackageContent};
ghost use Rattle.msi_spec.specs.Uses.{RefcountsAreExact};
ghost use Rattle.msi_values.specs.Datum.{Datum};

/// Where the insert of all rows is done, on a package whose texts are counted, the inserts one by one are done too, and lead to the
/// same package.
pub fn joined_inserts_are_done_each()
    ensures { (P : PackageContent) → RefcountsAreExact P.pool P.tables → (name : List ℕ)
        (first : List (List Datum)) (more : List (List (List Datum))) (Q : PackageContent)
        → Inserts P name (joined_rows (first ∷ more)) Q (Ok tt)
        → InsertsEach P name (first ∷ more) Q }
{}
