//! Why a package isn't sound.
ghost use Rattle.std.specs.Prelude.{◌≡◌, ◌⊎◌, ◌↔◌, [], true, Err, IfErr, IfOk, IsTrue};
ghost use Rattle.cfb.specs.Views.{file_case_table, mini_of, OnlyReadsFile};
ghost use Rattle.cfb_fat.specs.Tables.{IsJustifiedBySectors};
ghost use Rattle.cfb_medium.specs.Calls.{IsJustifiedSince, IsFaultOrInvalidInputIf};
ghost use Rattle.cfb_mini.specs.Views.{allocator_of};
ghost use Rattle.cfb_opening.specs.Tables.{OnlyReadsMedium};
ghost use Rattle.cfb_tree.specs.CaseTableViews.{case_table_of};
ghost use Rattle.cfb_tree.specs.Tree.{Tree};
ghost use Rattle.msi.specs.Checked.{HasDefects, IsChecked, IsMediumOf};
ghost use Rattle.msi.specs.Opened.{AreBytesRejected, IsSoundFile};
ghost use Rattle.msi.specs.Steps.{MediumGivenBack};
ghost use Rattle.msi_spec.specs.Opening.{keeps_encoded_names, opened};
ghost use Rattle.msi_stored.specs.Reading.{IsOpeningError};
ghost use Rattle.msi_stored.specs.Shown.{bytes_in, StoreShowsTree, IsLostPart};

use crate::opening::{FIRST_ENCODED, LAST_ENCODED};
use cfb::{CaseMapper, CompoundFile};
use cfb_medium::{Error, ReadMedium};
use msi_soundness::Defect;
use msi_store::read_parts;
use std::alloc::Global;

/// The rules of a sound package that this one breaks, in the order of `Defect`: none exactly where `Package::open` over the medium is a
/// sound package. It opens the package as that does under the case table, and is refused just so: `InvalidInput` where the table has
/// a pair with a character from U+3800 to U+4840; `InvalidData` where the container can't be opened; `NotFound`, `InvalidData` or
/// `UnexpectedEof` of the parts that opening reads. Other errors are faults. The rows of one table are in memory at a time. The medium
/// is only read, and comes back.
pub fn defects<F: ReadMedium>(
    alloc: Global,
    medium: F,
    letters: CaseMapper,
) -> Result<(F, Vec<Defect>), (F, Error)>
    ensures answer { IfOk result (λ found. IsTrue (F.honest medium)
        → HasDefects (case_table_of letters) (F.bytes medium) found.1.items) }
    ensures none { IfOk result (λ found. IsTrue (F.honest medium)
        → (found.1.items ≡ []) ↔ IsSoundFile (case_table_of letters) (F.bytes medium)) }
    ensures given_back { IfOk result (λ found. OnlyReadsMedium F.honest F.bytes F.continues medium
        found.0) }
    ensures refused_only_if { IfErr result
        (λ e. IsTrue (F.honest medium) → IsFaultOrInvalidInputIf ⊥ e.1
        ⊎ AreBytesRejected (case_table_of letters) (F.bytes medium) e.1) }
    ensures errors { IfErr result (λ e. IsOpeningError e.1) }
    ensures cause { IfErr result (λ e. IsJustifiedSince F.continues F.failures F.failed medium
        e.0 e.1) }
    ensures left { IfErr result (λ e. OnlyReadsMedium F.honest F.bytes F.continues medium e.0) }
{
    if letters.touches(FIRST_ENCODED, LAST_ENCODED) {
        return Err((medium, Error::InvalidInput));
    }
    match CompoundFile::open(alloc, medium, letters) {
        Ok(file) => file_defects(alloc, file),
        Err(refusal) => Err(refusal),
    }
}

// Those of the package of a file that was opened.
fn file_defects<F: ReadMedium>(
    alloc: Global,
    mut file: CompoundFile<F>,
) -> Result<(F, Vec<Defect>), (F, Error)>
    ensures ok { IfOk result (λ found. IsMediumOf file found.0 × IsChecked file found.1.items) }
    ensures after_error { IfErr result (λ e. MediumGivenBack file e.0 e.1) }
    ensures errors { IfErr result (λ e. IsOpeningError e.1) }
{
    match part_defects(alloc, &mut file) {
        Ok(found) => Ok((file.into_inner(), found)),
        Err(error) => Err((file.into_inner(), error)),
    }
}

// The same, while the file stays.
fn part_defects<F: ReadMedium>(
    alloc: Global,
    file: &mut CompoundFile<F>,
) -> Result<Vec<Defect>, Error>
    ensures checked { IfOk result (λ found. IsChecked file.old found.items) }
    ensures refused_only_if { IfErr result (λ e. (tree : Tree) → StoreShowsTree file.old tree
        → keeps_encoded_names (file_case_table file.old) ≡ true
        → IsLostPart (file_case_table file.old)
        (bytes_in file.old) e ⊎ (opened (file_case_table file.old) tree ≡ Err e)) }
    ensures only_reads { OnlyReadsFile file.old file.new }
    ensures cause { IfErr result (IsJustifiedBySectors (allocator_of (mini_of file.old))
        (allocator_of (mini_of file.new))) }
    ensures errors { IfErr result IsOpeningError }
{
    match read_parts(alloc, file) {
        Ok(parts) => msi_soundness::defects(alloc, file, &parts),
        Err(error) => Err(error),
    }
}
