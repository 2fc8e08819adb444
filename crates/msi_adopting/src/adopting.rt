//! A copy of a package, with right counts.
ghost use Rattle.std.specs.Prelude.{◌≡◌, ◌⊎◌, ◌<◌, ◌^◌, [], false, length, nat_lt, true, Err, IfErr, IfOk, IsTrue, MatchResult};
ghost use Rattle.std.specs.List.{list_all};
ghost use Rattle.cfb.specs.Streams.{FileHoldsTree};
ghost use Rattle.cfb.specs.Views.{file_case_table, mini_of, sound_of, OnlyReadsFile};
ghost use Rattle.cfb_fat.specs.Tables.{version_of, IsJustifiedBySectors};
ghost use Rattle.cfb_medium.specs.Calls.{IsJustifiedSince};
ghost use Rattle.cfb_medium.specs.declared.error.Error.{Error};
ghost use Rattle.cfb_medium.specs.declared.error.Error.TheVariants.{InvalidData, InvalidInput, Memory};
ghost use Rattle.cfb_mini.specs.Views.{allocator_of};
ghost use Rattle.cfb_tree.specs.CaseTableViews.{case_table_of};
ghost use Rattle.cfb_tree.specs.Tree.{Tree};
ghost use Rattle.msi_adopting.specs.Adopted.{GetsPool, PublishesNothing, HasLongText, IsAdopted, IsAdoptError, IsPackageIn, IsPoolTooLong, IsRefusedAs, IsUnadopted};
ghost use Rattle.msi_spec.specs.Opening.{keeps_encoded_names, opened};
ghost use Rattle.msi_spec.specs.Package.{PackageContent, TreePacksPackage};
ghost use Rattle.msi_parts.specs.Held.{ArePartsOfTree};
ghost use Rattle.msi_pool.specs.Pool.{pool_stream, stored_of};
ghost use Rattle.msi_pool.specs.PoolKept.{AreFreeEmpty};
ghost use Rattle.msi_pool.specs.PoolState.{length_limit};
ghost use Rattle.msi_recounted.specs.Counts.{listed_uses, pool_with};
ghost use Rattle.msi_stored.specs.Reading.{IsOpeningError};
ghost use Rattle.msi_stored.specs.Shown.{bytes_in, StoreShowsTree};

use crate::counting::uses_of_places;
use crate::putting::with_pool;
use cfb::{CaseMapper, CompoundFile};
use cfb_medium::{Error, Medium, ReadMedium};
use msi_parts::{PackageParts, are_free_names};
use msi_recounted::{are_texts_used, recounted_stream};
use msi_store::read_parts;
use std::alloc::Global;

// The greatest number that a reference names.
const LAST_PLACE: u32 = 16777215;

/// Makes a copy of a package in an empty medium, in which each text is counted as often as cells use it: the first stream of its pool
/// says so, and all else is as it was. The copy is then a sound package. Names are compared under the case table, which is that of the
/// package. What opening refuses is refused so. `InvalidData` where the container isn't sound, and where a sound package breaks
/// another rule than that on counts: just where it can't be adopted. That is also where a text is used more often than 65535 times or by
/// no cell, or a cell names none. `InvalidInput` where a text of the pool has 2^32 - 1 bytes or more, or the pool's first stream
/// would be longer than one can be. The other errors are `Memory`, `Device` and `Failed` of package or medium, and `Full` where
/// numbers of sectors are missing. The package is only read, an error gives the medium back, and nothing is published.
pub fn adopt<S: ReadMedium, T: Medium>(
    alloc: Global,
    source: &mut CompoundFile<S>,
    target: T,
    letters: CaseMapper,
) -> Result<T, (T, Error)>
    requires { IsTrue (T.honest target) → T.bytes target ≡ [] }
    ensures adopted { (tree : Tree) (P : PackageContent) → IsTrue (T.honest target)
        → IsPackageIn (case_table_of letters) source.old tree P → IfOk result
        (λ medium. IsAdopted (case_table_of letters) tree P (T.bytes medium)) }
    ensures refused_only_if { (tree : Tree) (P : PackageContent) → IsTrue (T.honest target)
        → IsPackageIn (case_table_of letters) source.old tree P → IfErr result
        (λ e. IsUnadopted (case_table_of letters) tree P (HasLongText P
        ⊎ IsPoolTooLong (version_of (allocator_of (mini_of source.old))) P) e.1) }
    ensures unsound { sound_of source.old ≡ false → IfOk result (λ medium. ⊥) }
    ensures unopened { (tree : Tree) (expected : Error) → StoreShowsTree source.old tree
        → keeps_encoded_names (file_case_table source.old) ≡ true
        → opened (file_case_table source.old) tree ≡ Err expected → MatchResult result (λ medium. ⊥)
        (λ e. IsRefusedAs (file_case_table source.old) (bytes_in source.old) expected e.1) }
    ensures errors { IfErr result (λ e. IsAdoptError e.1) }
    ensures cause { IfErr result (λ e. IsJustifiedBySectors (allocator_of (mini_of source.old))
        (allocator_of (mini_of source.new)) e.1
        ⊎ IsJustifiedSince T.continues T.failures T.failed target e.0 e.1) }
    ensures left { MatchResult result (PublishesNothing T.honest T.continues target)
        (λ e. PublishesNothing T.honest T.continues target e.0) }
    ensures only_reads { OnlyReadsFile source.old source.new }
{
    let mut target = target;
    match recounted_pool(alloc, source) {
        Ok(pool) => match source.copy_to(&mut target) {
            Ok(()) => with_pool(alloc, target, letters, &pool),
            Err(error) => Err((target, error)),
        },
        Err(error) => Err((target, error)),
    }
}

// The first stream of the package's pool, with right counts.
pub(crate) fn recounted_pool<F: ReadMedium>(
    alloc: Global,
    file: &mut CompoundFile<F>,
) -> Result<Vec<u8>, Error>
    ensures answer { (tree : Tree) (P : PackageContent) → FileHoldsTree file.old tree
        → keeps_encoded_names (file_case_table file.old) ≡ true
        → TreePacksPackage (file_case_table file.old) tree P
        → MatchResult result (λ pool. GetsPool (file_case_table file.old) tree P pool.items)
        (IsUnadopted (file_case_table file.old) tree P (HasLongText P)) }
    ensures unopened { (tree : Tree) (expected : Error) → StoreShowsTree file.old tree
        → keeps_encoded_names (file_case_table file.old) ≡ true
        → opened (file_case_table file.old) tree ≡ Err expected → MatchResult result (λ pool. ⊥)
        (IsRefusedAs (file_case_table file.old) (bytes_in file.old) expected) }
    ensures only_reads { OnlyReadsFile file.old file.new }
    ensures cause { IfErr result (IsJustifiedBySectors (allocator_of (mini_of file.old))
        (allocator_of (mini_of file.new))) }
    ensures errors { IfErr result IsOpeningError }
{
    match read_parts(alloc, file) {
        Ok(parts) => recounted_parts(alloc, file, &parts),
        Err(error) => Err(error),
    }
}

// The same of the package of these parts.
fn recounted_parts<F: ReadMedium>(
    alloc: Global,
    file: &mut CompoundFile<F>,
    parts: &PackageParts,
) -> Result<Vec<u8>, Error>
    ensures answer { (tree : Tree) (P : PackageContent) → FileHoldsTree file.old tree
        → keeps_encoded_names (file_case_table file.old) ≡ true
        → TreePacksPackage (file_case_table file.old) tree P
        → ArePartsOfTree (file_case_table file.old) tree parts.now
        → MatchResult result (λ pool. GetsPool (file_case_table file.old) tree P pool.items)
        (IsUnadopted (file_case_table file.old) tree P (HasLongText P)) }
    ensures only_reads { OnlyReadsFile file.old file.new }
    ensures cause { IfErr result (IsJustifiedBySectors (allocator_of (mini_of file.old))
        (allocator_of (mini_of file.new))) }
    ensures errors { IfErr result IsOpeningError }
{
    if !parts.gives_back {
        return Err(Error::InvalidData);
    }
    if !are_free_names(&parts.tables) {
        return Err(Error::InvalidData);
    }
    if LAST_PLACE < parts.pool.num_strings() {
        return Err(Error::InvalidData);
    }
    match uses_of_places(alloc, file, &parts.pool, &parts.tables) {
        Ok(uses) => stream_of_uses(alloc, parts, &uses),
        Err(error) => Err(error),
    }
}

// The same with these uses. `InvalidData` where a text has none, `InvalidInput` where one is too long.
fn stream_of_uses(alloc: Global, parts: &PackageParts, uses: &[u16]) -> Result<Vec<u8>, Error>
    requires size { length uses.now ≡ length parts.now.pool.pool.places }
    requires few { length uses.now < 2 ^ 24 }
    ensures answer { MatchResult result
        (λ pool. AreFreeEmpty (pool_with (listed_uses uses.now) parts.now.pool.pool).places
        × (pool.items ≡ pool_stream (pool_with (listed_uses uses.now) parts.now.pool.pool)))
        (λ e. (e ≡ Memory) ⊎ ((e ≡ InvalidData)
        × (AreFreeEmpty (pool_with (listed_uses uses.now) parts.now.pool.pool).places → ⊥))
        ⊎ ((e ≡ InvalidInput) × (list_all (λ s. nat_lt (length s.0) length_limit)
        (stored_of parts.now.pool.pool) ≡ false))) }
{
    if !are_texts_used(&parts.pool, uses) {
        return Err(Error::InvalidData);
    }
    recounted_stream(alloc, &parts.pool, uses)
}
