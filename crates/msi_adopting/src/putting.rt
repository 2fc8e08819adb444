//! The pool of a copy of a package, put in its place.
ghost use Rattle.std.specs.Prelude.{◌≡◌, ◌⊎◌, ◌<◌, ◌∷◌, [], false, true, length, string_bytes, IfErr, IfOk, IsTrue, MatchResult, OnOk, Some};
ghost use Rattle.cfb.specs.FollowedRules.{FileMeansTree};
ghost use Rattle.cfb.specs.Views.{file_case_table, mini_of};
ghost use Rattle.cfb_copying.specs.Copied.{HoldsCopy};
ghost use Rattle.cfb_entries.specs.Rules.{names_in};
ghost use Rattle.cfb_fat.specs.Tables.{has_failed_here, IsJustifiedBySectors};
ghost use Rattle.cfb_tree_edits.specs.LiveTreeRules.{IsFaultOrFull};
ghost use Rattle.cfb_medium.specs.Calls.{IsJustifiedSince};
ghost use Rattle.cfb_medium.specs.Versions.{stream_len_mask};
ghost use Rattle.cfb_medium.specs.declared.error.Error.TheVariants.{InvalidInput, Memory};
ghost use Rattle.cfb_medium.specs.declared.version.Version.{Version};
ghost use Rattle.cfb_mini.specs.Views.{allocator_of};
ghost use Rattle.cfb_chain_io.specs.ChainEffects.{KeepsFileInvariants};
ghost use Rattle.cfb_tree.specs.CaseTableViews.{case_table_of};
ghost use Rattle.cfb_tree.specs.Tree.{Tree};
ghost use Rattle.msi_adopting.specs.Adopted.{GetsPool, PublishesNothing, IsAdopted, IsAdoptError, IsUnadopted};
ghost use Rattle.msi_adopting.specs.InPlace.{HoldSomePackage};
ghost use Rattle.msi_spec.specs.Opening.{keeps_encoded_names};
ghost use Rattle.msi_spec.specs.Package.{has_slash, stream_name, PackageContent};
ghost use Rattle.msi_recounted.specs.Recounted.{GotCounts};
ghost use Rattle.msi_stored.specs.Shown.{bytes_in};
ghost use Rattle.msi_streams.specs.Writing.{most_bytes};

use crate::judging::holds_sound;
use cfb::{CaseMapper, CompoundFile};
use cfb_medium::{Error, Medium};
use msi_texts::encode;
use std::alloc::Global;

// The medium of a copy, once its pool's first stream has these bytes and it was judged to be a sound package.
pub(crate) fn with_pool<T: Medium>(
    alloc: Global,
    medium: T,
    letters: CaseMapper,
    pool: &[u8],
) -> Result<T, (T, Error)>
    ensures answer { (version : Version) (tree : Tree) (P : PackageContent)
        → IsTrue (T.honest medium)
        → HoldsCopy version (case_table_of letters) (T.bytes medium) tree
        → GetsPool (case_table_of letters) tree P pool.now → MatchResult result
        (λ left. IsAdopted (case_table_of letters) tree P (T.bytes left))
        (λ e. IsUnadopted (case_table_of letters) tree P (stream_len_mask version < length pool.now)
        e.1) }
    ensures left { MatchResult result (PublishesNothing T.honest T.continues medium)
        (λ e. PublishesNothing T.honest T.continues medium e.0) }
    ensures cause { IfErr result
        (λ e. IsJustifiedSince T.continues T.failures T.failed medium e.0 e.1) }
    ensures errors { IfErr result (λ e. IsAdoptError e.1) }
{
    let mut file = match CompoundFile::open(alloc, medium, letters) {
        Ok(file) => file,
        Err(refusal) => return Err(refusal),
    };
    match put_judged(alloc, &mut file, pool) {
        Ok(()) => Ok(file.into_inner()),
        Err(error) => Err((file.into_inner(), error)),
    }
}

// Puts the pool's first stream into a file, which is then judged: `InvalidData` where it holds no sound package.
pub(crate) fn put_judged<F: Medium>(
    alloc: Global,
    file: &mut CompoundFile<F>,
    pool: &[u8],
) -> Result<(), Error>
    ensures answer { (tree : Tree) (P : PackageContent) → FileMeansTree file.old tree
        → GetsPool (file_case_table file.old) tree P pool.now → MatchResult result
        (λ done. IsAdopted (file_case_table file.old) tree P (bytes_in file.new))
        (IsUnadopted (file_case_table file.old) tree P (most_bytes file.old < length pool.now)) }
    ensures sound { OnOk result ((tree : Tree) → FileMeansTree file.old tree
        → keeps_encoded_names (file_case_table file.old) ≡ true
        → HoldSomePackage (file_case_table file.old) (bytes_in file.new)) }
    ensures invariants { KeepsFileInvariants (allocator_of (mini_of file.old))
        (allocator_of (mini_of file.new)) }
    ensures cause { IfErr result (IsJustifiedBySectors (allocator_of (mini_of file.old))
        (allocator_of (mini_of file.new))) }
    ensures errors { IfErr result IsAdoptError }
{
    if let Err(error) = put_pool(alloc, file, pool) {
        return Err(error);
    }
    match holds_sound(alloc, file) {
        Ok(true) => Ok(()),
        Ok(false) => Err(Error::InvalidData),
        Err(error) => Err(error),
    }
}

// Puts the pool's first stream in the place of the one that is there. `InvalidInput` where it is longer than a stream can be.
fn put_pool<F: Medium>(alloc: Global, file: &mut CompoundFile<F>, pool: &[u8]) -> Result<(), Error>
    ensures got { OnOk result ((tree : Tree) (P : PackageContent) → FileMeansTree file.old tree
        → GetsPool (file_case_table file.old) tree P pool.now → (after : Tree)
        × FileMeansTree file.new after × GotCounts (file_case_table file.old) tree P after) }
    ensures means { OnOk result ((tree : Tree) → FileMeansTree file.old tree → (after : Tree)
        × FileMeansTree file.new after) }
    ensures refused_only_if { IfErr result
        (λ e. (tree : Tree) (P : PackageContent) → FileMeansTree file.old tree
        → GetsPool (file_case_table file.old) tree P pool.now → IsFaultOrFull e
        ⊎ ((e ≡ InvalidInput)
        × (most_bytes file.old < length pool.now))) }
    ensures letters { file_case_table file.new ≡ file_case_table file.old }
    ensures not_failed { OnOk result (has_failed_here (allocator_of (mini_of file.new)) ≡ false) }
    ensures invariants { KeepsFileInvariants (allocator_of (mini_of file.old))
        (allocator_of (mini_of file.new)) }
    ensures cause { IfErr result (IsJustifiedBySectors (allocator_of (mini_of file.old))
        (allocator_of (mini_of file.new))) }
    ensures errors { IfErr result IsAdoptError }
{
    let path = match table_path(alloc, "_StringPool") {
        Ok(path) => path,
        Err(error) => return Err(error),
    };
    if file.version().stream_len_mask() < pool.len() as u64 {
        return Err(Error::InvalidInput);
    }
    if let Err(error) = file.rewrite_stream(&path, pool) {
        return Err(error);
    }
    Ok(())
}

// The path of a table's stream. The one error is want of memory.
fn table_path(alloc: Global, name: &str) -> Result<String, Error>
    requires { has_slash name.now ≡ false }
    ensures path { IfOk result (λ text. names_in (string_bytes text)
        ≡ Some (stream_name name.now ∷ [])) }
    ensures errors { IfErr result (λ e. e ≡ Memory) }
{
    encode(alloc, name, true)
}
