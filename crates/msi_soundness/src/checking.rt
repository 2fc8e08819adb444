//! Why a package isn't sound, rule by rule.
ghost use Rattle.std.specs.Prelude.{◌≡◌, ◌↔◌, ◌∷◌, [], false, true, Contains, IfErr, IfOk, List};
ghost use Rattle.cfb.specs.Streams.{FileHoldsTree};
ghost use Rattle.cfb.specs.Views.{file_case_table, mini_of, sound_of, OnlyReadsFile};
ghost use Rattle.cfb_fat.specs.Tables.{IsJustifiedBySectors};
ghost use Rattle.cfb_medium.specs.Calls.{IsFaultOrInvalidInputIf};
ghost use Rattle.cfb_medium.specs.declared.error.Error.TheVariants.{Memory};
ghost use Rattle.cfb_mini.specs.Views.{allocator_of};
ghost use Rattle.cfb_tree.specs.Names.{CaseTable};
ghost use Rattle.cfb_tree.specs.Tree.{Tree};
ghost use Rattle.msi_soundness.specs.Defects.{noted, rules_of_memory, rules_of_texts, AreDefects, ListsDefects, MeetsSoundnessRule};
ghost use Rattle.msi_soundness.specs.declared.defect.Defect.{Defect};
ghost use Rattle.msi_soundness.specs.declared.defect.Defect.TheVariants.{Container, Counts, ListedSystemTables};
ghost use Rattle.msi_spec.specs.Opening.{keeps_encoded_names};
ghost use Rattle.msi_parts.specs.Held.{ArePartsOfTree};
ghost use Rattle.msi_parts.specs.Parts.{IsSoundIn};

use crate::counting::are_uses_counted;
use crate::defect::Defect;
use crate::judging::are_objects_in_place;
use crate::unlisted::is_unlisted;
use cfb::CompoundFile;
use cfb_medium::{Error, ReadMedium};
use msi_parts::{PackageParts, are_free_names, is_validation_usual};
use std::alloc::Global;

/// The rules of a sound package that this one breaks, in the order of `Defect`; none exactly where the package is sound. The parts
/// were read from the file, and each rule is judged whatever the others say. Objects that can't be listed, and rows that can't be
/// read, break the rules that speak of them. `Memory` where a growth was refused, and `Device` or `Failed` of the file. The rows of
/// one table are in memory at a time, and the file is only read.
pub fn defects<F: ReadMedium>(
    alloc: Global,
    file: &mut CompoundFile<F>,
    parts: &PackageParts,
) -> Result<Vec<Defect>, Error>
    ensures answer { (tree : Tree) → FileHoldsTree file.old tree → IfOk result
        (λ found. AreDefects (file_case_table file.old) tree
        (sound_of file.old) parts.now found.items) }
    ensures none { (tree : Tree) → FileHoldsTree file.old tree
        → keeps_encoded_names (file_case_table file.old) ≡ true
        → ArePartsOfTree (file_case_table file.old) tree parts.now
        → IfOk result (λ found. (found.items ≡ [])
        ↔ IsSoundIn (file_case_table file.old) tree (sound_of file.old)) }
    ensures unsound { sound_of file.old ≡ false → IfOk result
        (λ found. Contains found.items Container) }
    ensures only_reads { OnlyReadsFile file.old file.new }
    ensures cause { IfErr result (IsJustifiedBySectors (allocator_of (mini_of file.old))
        (allocator_of (mini_of file.new))) }
    ensures errors { IfErr result (IsFaultOrInvalidInputIf ⊥) }
{
    let found = memory_defects(alloc, file.is_sound(), parts)?;
    match are_objects_in_place(alloc, file, &parts.tables) {
        Ok(kept) => with_rows(alloc, file, parts, noted(found, kept, Defect::Objects)?),
        Err(error) => Err(error),
    }
}

// The defects that were found, and those of the rows.
fn with_rows<F: ReadMedium>(
    alloc: Global,
    file: &mut CompoundFile<F>,
    parts: &PackageParts,
    found: Vec<Defect>,
) -> Result<Vec<Defect>, Error>
    ensures answer { (tree : Tree) → FileHoldsTree file.old tree → (asked : List Defect)
        → ListsDefects
        (MeetsSoundnessRule (file_case_table file.old) tree (sound_of file.old) parts.now) asked
        found.items
        → IfOk result
        (λ all. ListsDefects
        (MeetsSoundnessRule (file_case_table file.old) tree (sound_of file.old) parts.now)
        (Counts ∷ ListedSystemTables ∷ asked) all.items) }
    ensures longer { IfOk result (λ all. (defect : Defect) → Contains found.items defect
        → Contains all.items defect) }
    ensures only_reads { OnlyReadsFile file.old file.new }
    ensures cause { IfErr result (IsJustifiedBySectors (allocator_of (mini_of file.old))
        (allocator_of (mini_of file.new))) }
    ensures errors { IfErr result (IsFaultOrInvalidInputIf ⊥) }
{
    match is_unlisted(alloc, file, &parts.pool, &parts.tables) {
        Ok(kept) => with_counts(
            alloc,
            file,
            parts,
            noted(found, kept, Defect::ListedSystemTables)?,
        ),
        Err(error) => Err(error),
    }
}

// The defects that were found, and that of the pool's counts.
fn with_counts<F: ReadMedium>(
    alloc: Global,
    file: &mut CompoundFile<F>,
    parts: &PackageParts,
    found: Vec<Defect>,
) -> Result<Vec<Defect>, Error>
    ensures answer { (tree : Tree) → FileHoldsTree file.old tree → (asked : List Defect)
        → ListsDefects
        (MeetsSoundnessRule (file_case_table file.old) tree (sound_of file.old) parts.now) asked
        found.items
        → IfOk result
        (λ all. ListsDefects
        (MeetsSoundnessRule (file_case_table file.old) tree (sound_of file.old) parts.now)
        (Counts ∷ asked) all.items) }
    ensures longer { IfOk result (λ all. (defect : Defect) → Contains found.items defect
        → Contains all.items defect) }
    ensures only_reads { OnlyReadsFile file.old file.new }
    ensures cause { IfErr result (IsJustifiedBySectors (allocator_of (mini_of file.old))
        (allocator_of (mini_of file.new))) }
    ensures errors { IfErr result (IsFaultOrInvalidInputIf ⊥) }
{
    match are_uses_counted(alloc, file, &parts.pool, &parts.tables) {
        Ok(kept) => noted(found, kept, Defect::Counts),
        Err(error) => Err(error),
    }
}

// The rules that the container and what memory has break.
fn memory_defects(
    alloc: Global,
    container_is_sound: bool,
    parts: &PackageParts,
) -> Result<Vec<Defect>, Error>
    ensures answer { IfOk result (λ found. (letters : CaseTable) (tree : Tree)
        → ListsDefects
        (MeetsSoundnessRule letters tree container_is_sound parts.now) rules_of_memory
        found.items) }
    ensures unsound { container_is_sound ≡ false → IfOk result
        (λ found. Contains found.items Container) }
    ensures errors { IfErr result (λ e. e ≡ Memory) }
{
    let found = text_defects(alloc, container_is_sound, parts)?;
    let found = noted(found, parts.pool.are_free_empty(), Defect::FreePlaces)?;
    let found = noted(found, are_free_names(&parts.tables), Defect::TableNames)?;
    noted(
        found,
        is_validation_usual(&parts.tables),
        Defect::Validation,
    )
}

// Those of the container, and of the texts of pool and summary.
fn text_defects(
    alloc: Global,
    container_is_sound: bool,
    parts: &PackageParts,
) -> Result<Vec<Defect>, Error>
    ensures answer { IfOk result (λ found. (letters : CaseTable) (tree : Tree)
        → ListsDefects
        (MeetsSoundnessRule letters tree container_is_sound parts.now) rules_of_texts found.items) }
    ensures unsound { container_is_sound ≡ false → IfOk result
        (λ found. Contains found.items Container) }
    ensures errors { IfErr result (λ e. e ≡ Memory) }
{
    let found = noted(Vec::new(alloc), container_is_sound, Defect::Container)?;
    let found = noted(found, parts.gives_back, Defect::PoolTexts)?;
    let found = noted(found, parts.summary.texts_give_back(), Defect::SummaryTexts)?;
    noted(
        found,
        parts.summary.num_sections() == 1,
        Defect::SummarySections,
    )
}

// The defects that were found, and behind them another unless its rule is kept.
fn noted(mut found: Vec<Defect>, is_kept: bool, defect: Defect) -> Result<Vec<Defect>, Error>
    ensures listed { IfOk result (λ all. all.items ≡ noted found.items is_kept defect) }
    ensures errors { IfErr result (λ e. e ≡ Memory) }
{
    if is_kept {
        return Ok(found);
    }
    found.push(defect)?;
    Ok(found)
}
