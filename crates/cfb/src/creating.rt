//! New files.
ghost use Rattle.cfb.specs.Creating.{IsCreated, IsCreateFileError, LeavesNew};
ghost use Rattle.cfb.specs.Views.{most_ahead_of};
ghost use Rattle.cfb_medium.specs.Calls.{IsJustifiedSince};
ghost use Rattle.cfb_medium.specs.declared.version.Version.TheVariants.{V4};
ghost use Rattle.cfb_tree.specs.CaseTableViews.{case_table_of};
ghost use Rattle.std.specs.Prelude.{max, IfErr, IfOk, ◌≡◌};

use crate::CompoundFile;
use crate::opening::{BUFFER, open_as};
use cfb_creating::write_new_file;
use cfb_medium::{Error, Medium, Version};
use cfb_sectors::Validation;
use cfb_tree::CaseMapper;
use std::alloc::Global;

impl<F: Medium> CompoundFile<F> {
    /// Makes a new file of version 4 over what a medium holds: a root that holds nothing, in 12288 bytes ([MS-CFB] 2). Where the
    /// medium holds more bytes, those behind stay, and the file may not be sound. The errors are `Memory` and `Device`, and
    /// `Failed` of a medium that has failed; `InvalidData` of one alone that doesn't give back what was written. An error gives
    /// the medium back, which holds what it held, or the new file over that. Nothing is published.
    pub fn create(
        alloc: Global,
        medium: F,
        letters: CaseMapper,
    ) -> Result<CompoundFile<F>, (F, Error)>
        ensures created { IfOk result (IsCreated V4 (case_table_of letters) medium) }
        ensures most { IfOk result (λ it. most_ahead_of it ≡ 65536) }
        ensures left { IfErr result (λ e. LeavesNew F.honest F.bytes F.continues V4 medium e.0) }
        ensures errors { IfErr result (λ e. IsCreateFileError F.honest medium e.1) }
        ensures cause { IfErr result (λ e. IsJustifiedSince F.continues F.failures F.failed medium
            e.0 e.1) }
    {
        create_as(alloc, medium, Version::V4, letters, BUFFER)
    }

    /// Makes a new file of a version as `create` does; one of version 3 has 1536 bytes.
    pub fn create_with_version(
        alloc: Global,
        version: Version,
        medium: F,
        letters: CaseMapper,
    ) -> Result<CompoundFile<F>, (F, Error)>
        ensures created { IfOk result (IsCreated version (case_table_of letters) medium) }
        ensures most { IfOk result (λ it. most_ahead_of it ≡ 65536) }
        ensures left { IfErr result (λ e.
            LeavesNew F.honest F.bytes F.continues version medium e.0) }
        ensures errors { IfErr result (λ e. IsCreateFileError F.honest medium e.1) }
        ensures cause { IfErr result (λ e. IsJustifiedSince F.continues F.failures F.failed medium
            e.0 e.1) }
    {
        create_as(alloc, medium, version, letters, BUFFER)
    }
}

// Makes a new file of a version. So many bytes of streams are read at once.
pub(crate) fn create_as<F: Medium>(
    alloc: Global,
    mut medium: F,
    version: Version,
    letters: CaseMapper,
    limit: usize,
) -> Result<CompoundFile<F>, (F, Error)>
    ensures created { IfOk result (IsCreated version (case_table_of letters) medium) }
    ensures most { IfOk result (λ it. most_ahead_of it ≡ max limit 1024) }
    ensures left { IfErr result (λ e. LeavesNew F.honest F.bytes F.continues version medium e.0) }
    ensures errors { IfErr result (λ e. IsCreateFileError F.honest medium e.1) }
    ensures cause { IfErr result (λ e. IsJustifiedSince F.continues F.failures F.failed medium
        e.0 e.1) }
{
    match write_new_file(alloc, &mut medium, version) {
        Ok(()) => open_as(alloc, medium, letters, Validation::Permissive, limit),
        Err(error) => Err((medium, error)),
    }
}
