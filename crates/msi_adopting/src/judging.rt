//! Whether a file holds a sound package.
ghost use Rattle.std.specs.Prelude.{◌≡◌, ◌↔◌, true, IfErr, IfOk, IsTrue, MatchResult};
ghost use Rattle.cfb.specs.Streams.{FileHoldsTree};
ghost use Rattle.cfb.specs.Views.{file_case_table, mini_of, sound_of, OnlyReadsFile};
ghost use Rattle.cfb_fat.specs.Tables.{IsJustifiedBySectors};
ghost use Rattle.cfb_medium.specs.Calls.{IsFaultOrInvalidInputIf};
ghost use Rattle.cfb_mini.specs.Views.{allocator_of};
ghost use Rattle.cfb_tree.specs.Tree.{Tree};
ghost use Rattle.msi_spec.specs.Opening.{keeps_encoded_names};
ghost use Rattle.msi_spec.specs.Package.{PackageContent, TreePacksPackage};
ghost use Rattle.msi_parts.specs.Parts.{IsSoundIn};
ghost use Rattle.msi_stored.specs.Reading.{IsOpeningError};

use cfb::CompoundFile;
use cfb_medium::{Error, ReadMedium};
use msi_soundness::is_sound_package;
use msi_store::read_parts;
use std::alloc::Global;

// Whether the file holds a sound package. Where it holds a package each error is a fault; else the refusals of opening come too.
pub(crate) fn holds_sound<F: ReadMedium>(
    alloc: Global,
    file: &mut CompoundFile<F>,
) -> Result<bool, Error>
    ensures answer { (tree : Tree) (P : PackageContent) → FileHoldsTree file.old tree
        → keeps_encoded_names (file_case_table file.old) ≡ true
        → TreePacksPackage (file_case_table file.old) tree P
        → MatchResult result (λ is. IsTrue is
        ↔ IsSoundIn (file_case_table file.old) tree (sound_of file.old))
        (IsFaultOrInvalidInputIf ⊥) }
    ensures found { (tree : Tree) → FileHoldsTree file.old tree
        → keeps_encoded_names (file_case_table file.old) ≡ true → IfOk result (λ is. IsTrue is
        → IsSoundIn (file_case_table file.old) tree (sound_of file.old)) }
    ensures only_reads { OnlyReadsFile file.old file.new }
    ensures cause { IfErr result (IsJustifiedBySectors (allocator_of (mini_of file.old))
        (allocator_of (mini_of file.new))) }
    ensures errors { IfErr result IsOpeningError }
{
    match read_parts(alloc, file) {
        Ok(parts) => is_sound_package(alloc, file, &parts),
        Err(error) => Err(error),
    }
}
