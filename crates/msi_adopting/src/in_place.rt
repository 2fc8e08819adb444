//! A package that gets right counts where it lies.
ghost use Rattle.std.specs.Prelude.{◌≡◌, ◌⊎◌, false, true, IfErr, IfOk, IsTrue, MatchResult, OnOk};
ghost use Rattle.cfb.specs.FollowedRules.{FileMeansTree};
ghost use Rattle.cfb.specs.Views.{file_case_table, mini_of, sound_of};
ghost use Rattle.cfb_chain_io.specs.ChainEffects.{KeepsFileInvariants};
ghost use Rattle.cfb_fat.specs.Tables.{version_of, IsJustifiedBySectors};
ghost use Rattle.cfb_medium.specs.Calls.{IsJustifiedSince};
ghost use Rattle.cfb_mini.specs.Views.{allocator_of};
ghost use Rattle.cfb_tree.specs.CaseTableViews.{case_table_of};
ghost use Rattle.cfb_tree.specs.Tree.{Tree};
ghost use Rattle.msi_adopting.specs.Adopted.{HasLongText, IsAdopted, IsAdoptError, IsPoolTooLong, IsUnadopted, PublishesNothing};
ghost use Rattle.msi_adopting.specs.InPlace.{BytesHoldUncounted, HoldSomePackage};
ghost use Rattle.msi_spec.specs.Opening.{keeps_encoded_names};
ghost use Rattle.msi_spec.specs.Package.{PackageContent, TreePacksPackage};
ghost use Rattle.msi_stored.specs.Shown.{bytes_in};

use crate::adopting::recounted_pool;
use crate::putting::put_judged;
use cfb::{CaseMapper, CompoundFile};
use cfb_medium::{Error, Medium};
use std::alloc::Global;

/// Gives a package right counts in the medium where it lies, as `adopt` does in a copy: the first stream of its pool says how often cells use
/// each text, and all else is as it was. What the medium has then is judged, and holds a sound package. Nothing is published, so that a roll
/// back or a medium that is let go leaves the package as it was. Errors are those of `adopt`; each gives the medium back, which may have some
/// of the changes.
pub fn adopt_in_place<T: Medium>(
    alloc: Global,
    medium: T,
    letters: CaseMapper,
) -> Result<T, (T, Error)>
    ensures adopted { (tree : Tree) (P : PackageContent) → IsTrue (T.honest medium)
        → BytesHoldUncounted (case_table_of letters) (T.bytes medium) tree P → IfOk result
        (λ left. IsAdopted (case_table_of letters) tree P (T.bytes left)) }
    ensures refused_only_if { (tree : Tree) (P : PackageContent) → IsTrue (T.honest medium)
        → (held : BytesHoldUncounted (case_table_of letters) (T.bytes medium) tree P)
        → IfErr result (λ e. IsUnadopted (case_table_of letters) tree P (HasLongText P
        ⊎ IsPoolTooLong held.means.0.version P) e.1) }
    ensures sound { IsTrue (T.honest medium) → keeps_encoded_names (case_table_of letters) ≡ true
        → IfOk result (λ left. HoldSomePackage (case_table_of letters) (T.bytes left)) }
    ensures errors { IfErr result (λ e. IsAdoptError e.1) }
    ensures cause { IfErr result
        (λ e. IsJustifiedSince T.continues T.failures T.failed medium e.0 e.1) }
    ensures left { MatchResult result (PublishesNothing T.honest T.continues medium)
        (λ e. PublishesNothing T.honest T.continues medium e.0) }
{
    let mut file = match CompoundFile::open(alloc, medium, letters) {
        Ok(file) => file,
        Err(refusal) => return Err(refusal),
    };
    match adopt_file(alloc, &mut file) {
        Ok(()) => Ok(file.into_inner()),
        Err(error) => Err((file.into_inner(), error)),
    }
}

// The same of a file that was opened.
fn adopt_file<F: Medium>(alloc: Global, file: &mut CompoundFile<F>) -> Result<(), Error>
    ensures answer { (tree : Tree) (P : PackageContent) → FileMeansTree file.old tree
        → keeps_encoded_names (file_case_table file.old) ≡ true
        → TreePacksPackage (file_case_table file.old) tree P → MatchResult result
        (λ done. IsAdopted (file_case_table file.old) tree P (bytes_in file.new))
        (IsUnadopted (file_case_table file.old) tree P (HasLongText P
        ⊎ IsPoolTooLong (version_of (allocator_of (mini_of file.old))) P)) }
    ensures sound { OnOk result ((tree : Tree) → FileMeansTree file.old tree
        → keeps_encoded_names (file_case_table file.old) ≡ true
        → HoldSomePackage (file_case_table file.old) (bytes_in file.new)) }
    ensures unsound { sound_of file.old ≡ false → IfOk result (λ done. ⊥) }
    ensures invariants { KeepsFileInvariants (allocator_of (mini_of file.old))
        (allocator_of (mini_of file.new)) }
    ensures cause { IfErr result (IsJustifiedBySectors (allocator_of (mini_of file.old))
        (allocator_of (mini_of file.new))) }
    ensures errors { IfErr result IsAdoptError }
{
    if !file.is_sound() {
        return Err(Error::InvalidData);
    }
    match recounted_pool(alloc, file) {
        Ok(pool) => put_judged(alloc, file, &pool),
        Err(error) => Err(error),
    }
}
