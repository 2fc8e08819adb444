//! Laws of packages with other counts, each the contract of a function.
ghost use Rattle.msi_pool.specs.Pool.{last_place};
ghost use Rattle.std.specs.Prelude.{◌≡◌, ◌<◌, ◌≤◌, ℕ, length, true, List};
ghost use Rattle.cfb_tree.specs.Names.{CaseTable};
ghost use Rattle.cfb_tree.specs.Tree.{Tree};
ghost use Rattle.msi_spec.specs.Package.{rows_named, PackageContent, TreePacksPackage};
ghost use Rattle.msi_spec.specs.Sound.{refcounts_of, IsSoundPackage};
ghost use Rattle.msi_spec.specs.Split.{TreeStoresRest};
ghost use Rattle.msi_spec.specs.Uses.{RefcountsAreExact};
ghost use Rattle.msi_recounted.specs.Recounted.{recounted, CanBeAdopted, CanBeRecounted, GotCounts};

/// A package with right counts has the rows that it had, as values, and a tree that stores it stores it still; its texts are counted,
/// where no cell names place 0 or one past the last. Where its pool can be written so, a tree that got it in place of the old one packs
/// the package; and that is sound just where it can be adopted, given that a reference can name each place.
pub fn recounted_packages_are_sound()
    ensures rows { (P : PackageContent) (name : List ℕ)
        → rows_named (recounted P) name ≡ rows_named P name }
    ensures stored { (letters : CaseTable) (tree : Tree) (P : PackageContent)
        → TreeStoresRest letters tree P
        → TreeStoresRest letters tree (recounted P) }
    ensures counted { (P : PackageContent) → refcounts_of P.tables 0 ≡ 0
        → ((n : ℕ) → length P.pool.places < n → refcounts_of P.tables n ≡ 0)
        → RefcountsAreExact (recounted P).pool P.tables }
    ensures packed { (letters : CaseTable) (old new : Tree) (P : PackageContent)
        → TreePacksPackage letters old P
        → CanBeRecounted letters old P → GotCounts letters old P new
        → TreePacksPackage letters new (recounted P) }
    ensures exact { (letters : CaseTable) (old new : Tree) (P : PackageContent)
        → TreePacksPackage letters old P
        → CanBeRecounted letters old P → GotCounts letters old P new
        → (packs : TreePacksPackage letters new (recounted P))
        → IsSoundPackage letters new (recounted P) packs
        → length P.pool.places ≤ last_place true → CanBeAdopted letters old P }
    ensures sound { (letters : CaseTable) (old new : Tree) (P : PackageContent)
        → TreePacksPackage letters old P
        → CanBeAdopted letters old P → GotCounts letters old P new
        → (packs : TreePacksPackage letters new (recounted P))
        × IsSoundPackage letters new (recounted P) packs }
{}
