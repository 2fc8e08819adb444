//! How a file is opened.
ghost use Rattle.cfb.specs.Creating.{IsCreated, IsCreateFileError, LeavesNew};
ghost use Rattle.cfb.specs.Opened.{IsOpenedAs};
ghost use Rattle.cfb.specs.Views.{file_case_table, mini_of, most_ahead_of, validation_of};
ghost use Rattle.cfb_medium.specs.Calls.{IsJustifiedSince, IsFaultOrInvalidInputIf};
ghost use Rattle.cfb_medium.specs.declared.error.Error.TheVariants.{InvalidData, Memory};
ghost use Rattle.cfb_medium.specs.declared.version.Version.TheVariants.{V4};
ghost use Rattle.cfb_opening.specs.Opened.{CanOpen, OpensAt};
ghost use Rattle.cfb_opening.specs.Tables.{OnlyReadsMedium};
ghost use Rattle.cfb_sectors.specs.declared.validation.Validation.TheVariants.{Permissive, Strict};
ghost use Rattle.cfb_tree.specs.CaseTableViews.{case_table_of, ReplaceAlike};
ghost use Rattle.cfb_tree.specs.Names.{ascii_letters};
ghost use Rattle.std.specs.Prelude.{max, IfErr, IfOk, IsTrue, OnOk, ◌≡◌, ◌⊎◌};

use crate::CompoundFile;
use crate::creating::create_as;
use crate::opening::{BUFFER, open_as};
use cfb_medium::{Error, Medium, ReadMedium, Version};
use cfb_sectors::Validation;
use cfb_tree::CaseMapper;
use std::alloc::Global;

/// How a file is opened: as which reader, under which case table, and how many bytes of a stream are read at once.
#[derive(Drop)]
pub struct OpenOptions {
    pub(crate) validation: Validation,
    pub(crate) letters: CaseMapper,
    limit: usize,
}

impl OpenOptions {
    ghost use Rattle.cfb.specs.OptionViews.{case_table_asked, most_asked, validation_asked};

    /// A lenient reader, under the case table of ASCII, who reads 65536 bytes of a stream at once. The one error is `Memory`.
    pub fn new(alloc: Global) -> Result<OpenOptions, Error>
        ensures letters { IfOk result (λ it. ReplaceAlike (case_table_asked it) ascii_letters) }
        ensures lenient { IfOk result (λ it. validation_asked it ≡ Permissive) }
        ensures most { IfOk result (λ it. most_asked it ≡ 65536) }
        ensures errors { IfErr result (λ e. e ≡ Memory) }
    {
        match CaseMapper::ascii(alloc) {
            Ok(letters) => Ok(OpenOptions {
                validation: Validation::Permissive,
                letters,
                limit: BUFFER,
            }),
            Err(error) => Err(error),
        }
    }

    /// Reads at most so many bytes of a stream at once, or 1024 where that is less. It governs nothing else.
    pub fn max_buffer_size(self, limit: usize) -> OpenOptions
        ensures letters { case_table_asked result ≡ case_table_asked self }
        ensures validation { validation_asked result ≡ validation_asked self }
        ensures most { most_asked result ≡ max limit 1024 }
    {
        let OpenOptions {
            validation,
            letters,
            limit: _,
        } = self;
        OpenOptions {
            validation,
            letters,
            limit,
        }
    }

    /// Opens as a strict reader does.
    pub fn strict(self) -> OpenOptions
        ensures letters { case_table_asked result ≡ case_table_asked self }
        ensures validation { validation_asked result ≡ Strict }
        ensures most { most_asked result ≡ most_asked self }
    {
        let OpenOptions {
            validation: _,
            letters,
            limit,
        } = self;
        OpenOptions {
            validation: Validation::Strict,
            letters,
            limit,
        }
    }

    /// Compares names under another case table ([MS-CFB] 2.6.4).
    pub fn case_mapper(self, letters: CaseMapper) -> OpenOptions
        ensures letters { case_table_asked result ≡ case_table_of letters }
        ensures validation { validation_asked result ≡ validation_asked self }
        ensures most { most_asked result ≡ most_asked self }
    {
        let OpenOptions {
            validation,
            letters: _,
            limit,
        } = self;
        OpenOptions {
            validation,
            letters,
            limit,
        }
    }

    /// Opens the file in a medium, as `CompoundFile::open` and `open_strict` do: `InvalidData` exactly where such a reader can't
    /// open the bytes; the other errors are faults. A refusal gives the medium back.
    pub fn open_with<F: ReadMedium>(
        self,
        alloc: Global,
        medium: F,
    ) -> Result<CompoundFile<F>, (F, Error)>
        ensures opens { IfOk result (λ it. OpensAt medium (mini_of it)) }
        ensures letters { IfOk result (λ it. file_case_table it ≡ case_table_asked self) }
        ensures most { IfOk result (λ it. most_ahead_of it ≡ most_asked self) }
        ensures reader { IfOk result (λ it. validation_of it ≡ validation_asked self) }
        ensures opened { IfOk result (λ it. IsTrue (F.honest medium)
            → IsOpenedAs (validation_asked self) (case_table_asked self) (F.bytes medium) it) }
        ensures refused_only_if { IfErr result (λ e. e.1 ≡ InvalidData → IsTrue (F.honest medium)
            → CanOpen (validation_asked self) (case_table_asked self) (F.bytes medium) → ⊥) }
        ensures errors { IfErr result (λ e. IsFaultOrInvalidInputIf ⊥ e.1 ⊎ (e.1 ≡ InvalidData)) }
        ensures cause { IfErr result (λ e. IsJustifiedSince F.continues F.failures F.failed medium
            e.0 e.1) }
        ensures left { IfErr result (λ e. OnlyReadsMedium F.honest F.bytes F.continues medium e.0) }
    {
        let OpenOptions {
            validation,
            letters,
            limit,
        } = self;
        open_as(alloc, medium, letters, validation, limit)
    }

    /// Makes a new file of version 4 in a medium, as `CompoundFile::create` does, under the case table that was asked for. Every
    /// reader takes it, a strict one too.
    pub fn create_with<F: Medium>(
        self,
        alloc: Global,
        medium: F,
    ) -> Result<CompoundFile<F>, (F, Error)>
        ensures created { IfOk result (IsCreated V4 (case_table_asked self) medium) }
        ensures most { IfOk result (λ it. most_ahead_of it ≡ most_asked self) }
        ensures left { IfErr result (λ e. LeavesNew F.honest F.bytes F.continues V4 medium e.0) }
        ensures errors { IfErr result (λ e. IsCreateFileError F.honest medium e.1) }
        ensures cause { IfErr result (λ e. IsJustifiedSince F.continues F.failures F.failed medium
            e.0 e.1) }
    {
        let OpenOptions {
            validation: _,
            letters,
            limit,
        } = self;
        create_as(alloc, medium, Version::V4, letters, limit)
    }
}
