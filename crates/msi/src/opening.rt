//! Packages that are opened.
ghost use Rattle.std.specs.Prelude.{◌≡◌, ◌⊎◌, ◌↔◌, false, true, IfErr, IfOk, IsTrue};
ghost use Rattle.cfb.specs.Streams.{FileHoldsTree};
ghost use Rattle.cfb.specs.Views.{file_case_table, mini_of, sound_of, OnlyReadsFile};
ghost use Rattle.cfb_fat.specs.Tables.{IsJustifiedBySectors};
ghost use Rattle.cfb_medium.specs.Calls.{IsJustifiedSince, IsFaultOrInvalidInputIf};
ghost use Rattle.cfb_mini.specs.Views.{allocator_of};
ghost use Rattle.cfb_opening.specs.Opened.{OpensAt};
ghost use Rattle.cfb_opening.specs.Tables.{OnlyReadsMedium};
ghost use Rattle.cfb_tree.specs.CaseTableViews.{case_table_of};
ghost use Rattle.cfb_tree.specs.Tree.{Tree};
ghost use Rattle.msi.specs.Opened.{file_in, kind_in, pool_in, sound_in, summary_in, tables_in, IsOpenedPackage, AreBytesRejected};
ghost use Rattle.msi.specs.Steps.{IsPackageOfFile, MediumGivenBack};
ghost use Rattle.msi_spec.specs.Opening.{keeps_encoded_names, opened};
ghost use Rattle.msi_parts.specs.Held.{headings_in, ArePartsOfTree};
ghost use Rattle.msi_parts.specs.Parts.{IsSoundIn};
ghost use Rattle.msi_stored.specs.Reading.{IsOpeningError};
ghost use Rattle.msi_stored.specs.Shown.{bytes_in, FindsPart, StoreShowsTree};

use crate::package::Package;
use cfb::{CaseMapper, CompoundFile};
use cfb_medium::{Error, ReadMedium};
use msi_parts::PackageParts;
use msi_soundness::is_sound_package;
use msi_store::{Store, read_parts};
use std::alloc::Global;

// The first and the last character of encoded names.
pub(crate) const FIRST_ENCODED: char = '\u{3800}';

pub(crate) const LAST_ENCODED: char = '\u{4840}';

impl<F: ReadMedium> Package<F> {
    /// Opens a package, whose names are compared under the case table. `InvalidInput` where the table has a pair with a character
    /// from U+3800 to U+4840, which encoded names have, and that alone; `InvalidData` alone where the container can't be opened; and then, one part after
    /// the other: `InvalidData` for an unknown class identifier of the root, `NotFound`, `InvalidData` or `UnexpectedEof` of the
    /// summary and of the pool's two streams, `InvalidData` where the system tables describe no tables. The chains of other streams may
    /// break. Other errors are faults. It judges once whether the package is sound, one table's rows in memory at a time. The medium
    /// is only read, and a refusal gives it back.
    pub fn open(alloc: Global, medium: F, letters: CaseMapper) -> Result<Package<F>, (F, Error)>
        ensures opens { IfOk result (λ it. OpensAt medium (mini_of (file_in it))) }
        ensures letters { IfOk result (λ it. file_case_table (file_in it) ≡ case_table_of letters) }
        ensures opened { IfOk result (λ it. IsTrue (F.honest medium)
            → IsOpenedPackage (case_table_of letters) (F.bytes medium) it) }
        ensures refused_only_if { IfErr result
            (λ e. IsTrue (F.honest medium) → IsFaultOrInvalidInputIf ⊥ e.1
            ⊎ AreBytesRejected (case_table_of letters) (F.bytes medium) e.1) }
        ensures errors { IfErr result (λ e. IsOpeningError e.1) }
        ensures cause { IfErr result (λ e. IsJustifiedSince F.continues F.failures F.failed medium
            e.0 e.1) }
        ensures left { IfErr result (λ e. OnlyReadsMedium F.honest F.bytes F.continues medium e.0) }
    {
        if letters.touches(FIRST_ENCODED, LAST_ENCODED) {
            return Err((medium, Error::InvalidInput));
        }
        match CompoundFile::open(alloc, medium, letters) {
            Ok(file) => opened_package(alloc, file),
            Err(refusal) => Err(refusal),
        }
    }
}

// The package of a file that was opened.
fn opened_package<F: ReadMedium>(
    alloc: Global,
    mut file: CompoundFile<F>,
) -> Result<Package<F>, (F, Error)>
    ensures ok { IfOk result (IsPackageOfFile file) }
    ensures after_error { IfErr result (λ e. MediumGivenBack file e.0 e.1) }
    ensures errors { IfErr result (λ e. IsOpeningError e.1) }
{
    match judged_parts(alloc, &mut file) {
        Ok((parts, is_sound)) => Ok(from_parts(alloc, file, parts, is_sound)),
        Err(error) => Err((file.into_inner(), error)),
    }
}

// The parts of the package of a file, and whether it is sound.
pub(crate) fn judged_parts<F: ReadMedium>(
    alloc: Global,
    file: &mut CompoundFile<F>,
) -> Result<(PackageParts, bool), Error>
    ensures shown { (tree : Tree) → StoreShowsTree file.old tree
        → keeps_encoded_names (file_case_table file.old) ≡ true
        → FindsPart (file_case_table file.old) (bytes_in file.old)
        (λ found. ArePartsOfTree (file_case_table file.old) tree found.0)
        (opened (file_case_table file.old) tree)
        result }
    ensures judged { (tree : Tree) → FileHoldsTree file.old tree
        → keeps_encoded_names (file_case_table file.old) ≡ true
        → IfOk result (λ found. IsTrue found.1
        ↔ IsSoundIn (file_case_table file.old) tree (sound_of file.old)) }
    ensures unsound { IfOk result (λ found. sound_of file.old ≡ false → found.1 ≡ false) }
    ensures only_reads { OnlyReadsFile file.old file.new }
    ensures cause { IfErr result (IsJustifiedBySectors (allocator_of (mini_of file.old))
        (allocator_of (mini_of file.new))) }
    ensures errors { IfErr result IsOpeningError }
{
    match read_parts(alloc, file) {
        Ok(parts) => parts_and_soundness(alloc, file, parts),
        Err(error) => Err(error),
    }
}

// The parts, and whether they and their file are a sound package's.
fn parts_and_soundness<F: ReadMedium>(
    alloc: Global,
    file: &mut CompoundFile<F>,
    parts: PackageParts,
) -> Result<(PackageParts, bool), Error>
    ensures parts { IfOk result (λ found. found.0 ≡ parts) }
    ensures judged { (tree : Tree) → FileHoldsTree file.old tree
        → keeps_encoded_names (file_case_table file.old) ≡ true
        → ArePartsOfTree (file_case_table file.old) tree parts
        → IfOk result (λ found. IsTrue found.1
        ↔ IsSoundIn (file_case_table file.old) tree (sound_of file.old)) }
    ensures unsound { IfOk result (λ found. sound_of file.old ≡ false → found.1 ≡ false) }
    ensures only_reads { OnlyReadsFile file.old file.new }
    ensures cause { IfErr result (IsJustifiedBySectors (allocator_of (mini_of file.old))
        (allocator_of (mini_of file.new))) }
    ensures errors { IfErr result (IsFaultOrInvalidInputIf ⊥) }
{
    match is_sound_package(alloc, file, &parts) {
        Ok(is_sound) => Ok((parts, is_sound)),
        Err(error) => Err(error),
    }
}

// The package of these parts.
fn from_parts<F: ReadMedium>(
    alloc: Global,
    file: CompoundFile<F>,
    parts: PackageParts,
    is_sound: bool,
) -> Package<F>
    ensures file { file_in result ≡ file }
    ensures parts { (kind_in result ≡ parts.kind) × (summary_in result ≡ parts.summary)
        × (pool_in result ≡ parts.pool) × (tables_in result ≡ headings_in parts) }
    ensures sound { sound_in result ≡ is_sound }
{
    let PackageParts {
        kind,
        summary,
        pool,
        gives_back: _,
        tables,
    } = parts;
    Package {
        alloc,
        store: Store { file, tables },
        kind,
        pool,
        summary,
        is_summary_written: true,
        is_sound,
    }
}
