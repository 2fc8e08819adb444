//! Opening a compound file.
ghost use Rattle.cfb.specs.Opened.{IsOpenedAs};
ghost use Rattle.cfb.specs.Readers.{letters_by, validation_by, IsReadBy, IsSameReader};
ghost use Rattle.cfb.specs.Views.{file_case_table, mini_of, most_ahead_of, validation_of};
ghost use Rattle.cfb_spec.specs.Means.{IsOpenable, IsStrictlyOpenable};
ghost use Rattle.cfb_medium.specs.Calls.{IsJustifiedSince, IsFaultOrInvalidInputIf};
ghost use Rattle.cfb_medium.specs.declared.error.Error.TheVariants.{InvalidData};
ghost use Rattle.cfb_opening.specs.Opened.{CanOpen, OpensAt};
ghost use Rattle.cfb_opening.specs.Tables.{OnlyReadsMedium};
ghost use Rattle.cfb_sectors.specs.declared.validation.Validation.TheVariants.{Permissive, Strict};
ghost use Rattle.cfb_tree.specs.CaseTableViews.{case_table_of};
ghost use Rattle.std.specs.Prelude.{max, IfErr, IfOk, IsTrue, ◌≡◌, ◌⊎◌};

use crate::CompoundFile;
use cfb_medium::{Error, ReadMedium};
use cfb_mini::MiniLinks;
use cfb_opening::open_file;
use cfb_sectors::Validation;
use cfb_soundness::is_sound;
use cfb_stream_reads::{ReadAhead, StreamLinks};
use cfb_tree::CaseMapper;
use std::alloc::Global;

// So many bytes of a stream are read at once.
pub(crate) const BUFFER: usize = 65536;

impl<F: ReadMedium> CompoundFile<F> {
    /// Opens a compound file, whose names are compared under the case table. `InvalidData` exactly where the bytes mean no
    /// tree, whatever bytes its streams have ([MS-CFB] 2). It takes time and memory by the length of tables and directory, and
    /// judges once whether the file is sound. At most 65536 bytes of a stream are read ahead at once. The other errors are
    /// `Memory` and `Device`, and `Failed` of a medium that has failed. A refusal gives the medium back.
    pub fn open(
        alloc: Global,
        medium: F,
        letters: CaseMapper,
    ) -> Result<CompoundFile<F>, (F, Error)>
        ensures opens { IfOk result (λ it. OpensAt medium (mini_of it)) }
        ensures letters { IfOk result (λ it. file_case_table it ≡ case_table_of letters) }
        ensures most { IfOk result (λ it. most_ahead_of it ≡ 65536) }
        ensures reader { IfOk result (λ it. validation_of it ≡ Permissive) }
        ensures opened { IfOk result (λ it. IsTrue (F.honest medium)
            → IsOpenedAs Permissive (case_table_of letters) (F.bytes medium) it) }
        ensures refused_only_if { IfErr result (λ e. e.1 ≡ InvalidData → IsTrue (F.honest medium)
            → IsOpenable (case_table_of letters) (F.bytes medium) → ⊥) }
        ensures errors { IfErr result (λ e. IsFaultOrInvalidInputIf ⊥ e.1 ⊎ (e.1 ≡ InvalidData)) }
        ensures cause { IfErr result (λ e. IsJustifiedSince F.continues F.failures F.failed medium
            e.0 e.1) }
        ensures left { IfErr result (λ e. OnlyReadsMedium F.honest F.bytes F.continues medium e.0) }
    {
        open_as(alloc, medium, letters, Validation::Permissive, BUFFER)
    }

    /// Opens a compound file as a strict reader, who also asks for the header's counts, the DIFAT's end, whole sectors, the
    /// root's name, and colours ([MS-CFB] 2.2 to 2.6): `InvalidData` exactly where he doesn't take the bytes. All else is as
    /// for `open`.
    pub fn open_strict(
        alloc: Global,
        medium: F,
        letters: CaseMapper,
    ) -> Result<CompoundFile<F>, (F, Error)>
        ensures opens { IfOk result (λ it. OpensAt medium (mini_of it)) }
        ensures letters { IfOk result (λ it. file_case_table it ≡ case_table_of letters) }
        ensures most { IfOk result (λ it. most_ahead_of it ≡ 65536) }
        ensures reader { IfOk result (λ it. validation_of it ≡ Strict) }
        ensures opened { IfOk result (λ it. IsTrue (F.honest medium)
            → IsOpenedAs Strict (case_table_of letters) (F.bytes medium) it) }
        ensures refused_only_if { IfErr result (λ e. e.1 ≡ InvalidData → IsTrue (F.honest medium)
            → IsStrictlyOpenable (case_table_of letters) (F.bytes medium) → ⊥) }
        ensures errors { IfErr result (λ e. IsFaultOrInvalidInputIf ⊥ e.1 ⊎ (e.1 ≡ InvalidData)) }
        ensures cause { IfErr result (λ e. IsJustifiedSince F.continues F.failures F.failed medium
            e.0 e.1) }
        ensures left { IfErr result (λ e. OnlyReadsMedium F.honest F.bytes F.continues medium e.0) }
    {
        open_as(alloc, medium, letters, Validation::Strict, BUFFER)
    }
}

// As which reader a file is opened, under which case table, and how much of a stream is read at once.
#[derive(Drop)]
pub(crate) struct Reader {
    pub(crate) letters: CaseMapper,
    pub(crate) validation: Validation,
    pub(crate) ahead: ReadAhead,
}

// Opens a file as a reader does, and judges it. A refusal gives the medium and the reader back.
pub(crate) fn open_by<F: ReadMedium>(
    alloc: Global,
    mut medium: F,
    reader: Reader,
) -> Result<CompoundFile<F>, (F, Reader, Error)>
    ensures opens { IfOk result (λ it. OpensAt medium (mini_of it)) }
    ensures reader { IfOk result (IsReadBy reader) }
    ensures opened { IfOk result (λ it. IsTrue (F.honest medium)
        → IsOpenedAs (validation_by reader) (letters_by reader) (F.bytes medium) it) }
    ensures refused_only_if { IfErr result (λ e. e.2 ≡ InvalidData → IsTrue (F.honest medium)
        → CanOpen (validation_by reader) (letters_by reader) (F.bytes medium) → ⊥) }
    ensures same { IfErr result (λ e. IsSameReader reader e.1) }
    ensures errors { IfErr result (λ e. IsFaultOrInvalidInputIf ⊥ e.2 ⊎ (e.2 ≡ InvalidData)) }
    ensures cause { IfErr result (λ e. IsJustifiedSince F.continues F.failures F.failed medium
        e.0 e.2) }
    ensures left { IfErr result (λ e. OnlyReadsMedium F.honest F.bytes F.continues medium e.0) }
{
    let len = match medium.len() {
        Ok(len) => len,
        Err(error) => return Err((medium, reader, error)),
    };
    let mini = match open_file(alloc, medium, &reader.letters, reader.validation) {
        Ok(mini) => mini,
        Err((medium, error)) => return Err((medium, reader, error)),
    };
    let is_sound = match is_sound(alloc, &mini, len) {
        Ok(is_sound) => is_sound,
        Err(error) => return Err((mini.into_inner(), reader, error)),
    };
    let Reader {
        letters,
        validation,
        ahead,
    } = reader;
    Ok(CompoundFile {
        alloc,
        mini,
        letters,
        validation,
        is_sound,
        links: StreamLinks::Short(MiniLinks::new(alloc)),
        stream_id: None,
        ahead,
    })
}

// Opens a file in one of the two ways. So many bytes of streams are read at once.
pub(crate) fn open_as<F: ReadMedium>(
    alloc: Global,
    medium: F,
    letters: CaseMapper,
    validation: Validation,
    limit: usize,
) -> Result<CompoundFile<F>, (F, Error)>
    ensures opens { IfOk result (λ it. OpensAt medium (mini_of it)) }
    ensures letters { IfOk result (λ it. file_case_table it ≡ case_table_of letters) }
    ensures validation { IfOk result (λ it. validation_of it ≡ validation) }
    ensures most { IfOk result (λ it. most_ahead_of it ≡ max limit 1024) }
    ensures opened { IfOk result (λ it. IsTrue (F.honest medium)
        → IsOpenedAs validation (case_table_of letters) (F.bytes medium) it) }
    ensures refused_only_if { IfErr result (λ e. e.1 ≡ InvalidData → IsTrue (F.honest medium)
        → CanOpen validation (case_table_of letters) (F.bytes medium) → ⊥) }
    ensures errors { IfErr result (λ e. IsFaultOrInvalidInputIf ⊥ e.1 ⊎ (e.1 ≡ InvalidData)) }
    ensures cause { IfErr result (λ e. IsJustifiedSince F.continues F.failures F.failed medium
        e.0 e.1) }
    ensures left { IfErr result (λ e. OnlyReadsMedium F.honest F.bytes F.continues medium e.0) }
{
    let reader = Reader {
        letters,
        validation,
        ahead: ReadAhead::new(alloc, limit),
    };
    match open_by(alloc, medium, reader) {
        Ok(file) => Ok(file),
        Err((medium, _, error)) => Err((medium, error)),
    }
}
