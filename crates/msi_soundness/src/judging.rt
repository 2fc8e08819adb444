//! Whether a package is sound, part by part.
ghost use Rattle.std.specs.Prelude.{◌≡◌, ◌↔◌, false, true, All, IfErr, IfOk, IsTrue, Ok};
ghost use Rattle.cfb.specs.Streams.{FileHoldsTree};
ghost use Rattle.cfb.specs.Views.{file_case_table, mini_of, sound_of, OnlyReadsFile};
ghost use Rattle.cfb_fat.specs.Tables.{IsJustifiedBySectors};
ghost use Rattle.cfb_medium.specs.Calls.{IsFaultOrInvalidInputIf};
ghost use Rattle.cfb_mini.specs.Views.{allocator_of};
ghost use Rattle.cfb_tree.specs.Tree.{Tree};
ghost use Rattle.msi_spec.specs.Opening.{keeps_encoded_names};
ghost use Rattle.msi_parts.specs.Held.{ArePartsOfTree};
ghost use Rattle.msi_parts.specs.Judged.{is_in_place, AreSoundRows};
ghost use Rattle.msi_parts.specs.Parts.{IsSoundIn};
ghost use Rattle.msi_spec.specs.Package.{objects};
ghost use Rattle.msi_schema.specs.Headings.{headings_in};

use crate::counting::are_uses_counted;
use crate::faults::no_unless_fault;
use crate::unlisted::is_unlisted;
use cfb::CompoundFile;
use cfb_medium::{Error, ReadMedium};
use msi_parts::{PackageParts, are_well};
use msi_pool::StringPool;
use msi_store::are_in_place;
use msi_tables::Table;
use std::alloc::Global;
use std::rc::Rc;

/// Whether the file holds a sound package, whose parts were read from it. It is judged whether the container is sound, then
/// whether the parts in memory are as a sound package has them, then where the objects under the root stand, and last the rows:
/// those of `_Tables` list no system table, and the pool counts just the uses that the cells of all tables make. The first no ends
/// it. The rows of one table are in memory at a time. A table whose rows can't be read is a no; each error is a fault. The file is
/// only read.
pub fn is_sound_package<F: ReadMedium>(
    alloc: Global,
    file: &mut CompoundFile<F>,
    parts: &PackageParts,
) -> Result<bool, Error>
    ensures answer { (tree : Tree) → FileHoldsTree file.old tree
        → keeps_encoded_names (file_case_table file.old) ≡ true
        → ArePartsOfTree (file_case_table file.old) tree parts.now → IfOk result (λ is. IsTrue is
        ↔ IsSoundIn (file_case_table file.old) tree (sound_of file.old)) }
    ensures unsound { sound_of file.old ≡ false → result ≡ Ok false }
    ensures only_reads { OnlyReadsFile file.old file.new }
    ensures cause { IfErr result (IsJustifiedBySectors (allocator_of (mini_of file.old))
        (allocator_of (mini_of file.new))) }
    ensures errors { IfErr result (IsFaultOrInvalidInputIf ⊥) }
{
    if !file.is_sound() {
        return Ok(false);
    }
    if !are_well(parts) {
        return Ok(false);
    }
    match are_objects_in_place(alloc, file, &parts.tables) {
        Ok(true) => are_rows_sound(alloc, file, &parts.pool, &parts.tables),
        Ok(false) => Ok(false),
        Err(error) => Err(error),
    }
}

// Whether the objects under the root stand where they may. Objects that can't be listed are a no.
pub(crate) fn are_objects_in_place<F: ReadMedium>(
    alloc: Global,
    file: &CompoundFile<F>,
    tables: &[Rc<Table>],
) -> Result<bool, Error>
    ensures answer { (tree : Tree) → FileHoldsTree file.now tree → IfOk result (λ are. IsTrue are
        ↔ All (λ o. IsTrue (is_in_place (file_case_table file.now) (headings_in tables.now) o))
        (objects tree.content)) }
    ensures cause { IfErr result (IsJustifiedBySectors (allocator_of (mini_of file.now))
        (allocator_of (mini_of file.now))) }
    ensures errors { IfErr result (IsFaultOrInvalidInputIf ⊥) }
{
    match are_in_place(alloc, file, tables) {
        Ok(are) => Ok(are),
        Err(error) => no_unless_fault(error),
    }
}

// Whether the rows of the tables are as a sound package has them.
fn are_rows_sound<F: ReadMedium>(
    alloc: Global,
    file: &mut CompoundFile<F>,
    pool: &StringPool,
    tables: &[Rc<Table>],
) -> Result<bool, Error>
    ensures answer { (tree : Tree) → FileHoldsTree file.old tree
        → All (λ h. h.long ≡ pool.now.pool.long) (headings_in tables.now) → IfOk result
        (λ are. IsTrue are ↔ AreSoundRows (file_case_table file.old) tree pool.now.pool
        (headings_in tables.now)) }
    ensures only_reads { OnlyReadsFile file.old file.new }
    ensures cause { IfErr result (IsJustifiedBySectors (allocator_of (mini_of file.old))
        (allocator_of (mini_of file.new))) }
    ensures errors { IfErr result (IsFaultOrInvalidInputIf ⊥) }
{
    match is_unlisted(alloc, file, pool, tables) {
        Ok(true) => are_uses_counted(alloc, file, pool, tables),
        Ok(false) => Ok(false),
        Err(error) => Err(error),
    }
}
