//! Packages, and what is told of them.
ghost use Rattle.std.specs.Prelude.{◌≡◌, false, map, option_map, string_bytes, true, Err, IfErr, IfOk, IsErrOf, MatchResult};
ghost use Rattle.std.specs.Option.{is_some};
ghost use Rattle.cfb.specs.Views.{file_case_table, mini_of};
ghost use Rattle.cfb_fat.specs.Tables.{has_failed, has_failed_here, medium_of, IsJustifiedBySectors};
ghost use Rattle.cfb_medium.specs.Calls.{IsFaultOrInvalidInputIf};
ghost use Rattle.cfb_medium.specs.declared.error.Error.TheVariants.{Failed, InvalidInput, Memory};
ghost use Rattle.cfb_mini.specs.Views.{allocator_of};
ghost use Rattle.msi.specs.Lists.{streams_left, tables_left};
ghost use Rattle.msi.specs.Opened.{file_in, kind_in, pool_in, sound_in, summary_in, tables_in, PackageHasContent, OnlyReadsPackage};
ghost use Rattle.msi_spec.specs.Calls.{table_names};
ghost use Rattle.msi_spec.specs.Package.{PackageContent};
ghost use Rattle.msi_spec.specs.Streams.{has_stream, is_signed, may_name, stream_names, stream_read};
ghost use Rattle.msi_parts.specs.Judged.{heading_named};
ghost use Rattle.msi_stored.specs.Reading.{ReturnsOrFault};
ghost use Rattle.msi_tables.specs.Held.{heading_of};

use crate::reader::StreamReader;
use crate::reading;
use crate::streams::Streams;
use crate::tables::Tables;
use cfb_medium::{Error, Medium, ReadMedium};
use msi_parts::table_named;
use msi_pool::StringPool;
use msi_spec::PackageType;
use msi_store::Store;
use msi_summary::SummaryInfo;
use msi_tables::Table;
use msi_texts::CodePage;
use std::alloc::Global;

/// A package: a Windows Installer database in a compound file. Kind, summary, pool of texts and the tables without their rows are in
/// memory; rows and streams are read from the file when they are asked for.
#[derive(Drop)]
pub struct Package<F: ReadMedium> {
    pub(crate) alloc: Global,
    pub(crate) store: Store<F>,
    pub(crate) kind: PackageType,
    pub(crate) pool: StringPool,
    pub(crate) summary: SummaryInfo,
    pub(crate) is_summary_written: bool,
    pub(crate) is_sound: bool,
}

impl<F: ReadMedium> Package<F> {
    /// What the package is for.
    pub fn package_type(&self) -> PackageType
        ensures { result ≡ kind_in self.now }
    {
        self.kind
    }

    /// Its summary.
    pub fn summary_info(&self) -> &SummaryInfo
        ensures { result.now ≡ summary_in self.now }
    {
        &self.summary
    }

    /// The page under which its texts are written.
    pub fn database_codepage(&self) -> CodePage
        ensures { result ≡ (pool_in self.now).pool.page }
    {
        self.pool.codepage()
    }

    /// Whether it is sound, as it was judged when it was opened: its container is, each reference to a text has a use in the pool and
    /// each count is that of the cells that name the text, free places are empty, texts give back their bytes, the summary has one
    /// section, each stream that is named as a table's is one, and names and system tables are as they should be.
    pub fn is_sound(&self) -> bool
        ensures { result ≡ sound_in self.now }
    {
        self.is_sound
    }

    /// The table of a name, without its rows; the system tables are among them. It takes no memory.
    pub fn get_table(&self, name: &str) -> Option<&Table>
        ensures { option_map (λ t. heading_of t.now) result
            ≡ heading_named (tables_in self.now) name.now }
    {
        table_named(&self.store.tables, name)
    }

    /// Whether there is a table of a name. It takes no memory.
    pub fn has_table(&self, name: &str) -> bool
        ensures { result ≡ is_some (heading_named (tables_in self.now) name.now) }
    {
        self.get_table(name).is_some()
    }

    /// The medium, without the package.
    pub fn into_medium(self) -> F
        ensures { result ≡ medium_of (allocator_of (mini_of (file_in self))) }
    {
        let Package {
            alloc: _,
            store,
            kind: _,
            pool: _,
            summary: _,
            is_summary_written: _,
            is_sound: _,
        } = self;
        store.file.into_inner()
    }

    /// The names of all tables, by their bytes; `_Tables` and `_Columns` are among them. `Failed` after a fault in a write or a commit;
    /// else the one error is `Memory`.
    pub fn tables(&self) -> Result<Tables, Error>
        ensures held { (P : PackageContent) → PackageHasContent self.now P → IfOk result (λ it.
            map string_bytes (tables_left it) ≡ table_names P) }
        ensures names { IfOk result (λ it. map string_bytes (tables_left it)
            ≡ map (λ h. h.name) (tables_in self.now)) }
        ensures when_failed { has_failed_here (allocator_of (mini_of (file_in self.now))) ≡ true
            → IsErrOf result Failed }
        ensures errors { has_failed_here (allocator_of (mini_of (file_in self.now))) ≡ false
            → IfErr result (λ e. e ≡ Memory) }
    {
        if self.store.file.is_failed() {
            return Err(Error::Failed);
        }
        Tables::new(self.alloc, &self.store.tables)
    }

    /// The names of the streams that belong to no table and are neither a summary nor a signature, in the container's order. Errors
    /// are faults, where a package is held. The package is only looked at.
    pub fn streams(&self) -> Result<Streams, Error>
        ensures answer { (P : PackageContent) → PackageHasContent self.now P
            → MatchResult result (λ it.
            map string_bytes (streams_left it) ≡ stream_names
            (file_case_table (file_in self.now)) P)
            (IsFaultOrInvalidInputIf ⊥) }
        ensures cause { IfErr result
            (IsJustifiedBySectors (allocator_of (mini_of (file_in self.now)))
            (allocator_of (mini_of (file_in self.now)))) }
    {
        Streams::new(self.alloc, &self.store.file)
    }

    /// Whether there is a stream of this name; none of a name that reading refuses. It takes no memory.
    pub fn has_stream(&self, name: &str) -> bool
        ensures { (P : PackageContent) → PackageHasContent self.now P
            → result ≡ has_stream (file_case_table (file_in self.now)) P name.now }
    {
        reading::has_stream(&self.store.file, name)
    }

    /// A stream that belongs to no table, at its first byte. `Failed` after a fault in a write or a commit; else `InvalidInput` where no
    /// stream can have the name, `NotFound` where none has. Other errors are faults, where a package is held. The package is only read.
    pub fn read_stream(&mut self, name: &str) -> Result<StreamReader, Error>
        ensures answer { (P : PackageContent) → PackageHasContent self.old P
            → ReturnsOrFault (λ it. it.bytes)
            (stream_read (file_case_table (file_in self.old)) P name.now) result }
        ensures when_failed { has_failed_here (allocator_of (mini_of (file_in self.old))) ≡ true
            → IsErrOf result Failed }
        ensures refused_only_if { has_failed_here (allocator_of (mini_of (file_in self.old))) ≡ false
            → may_name (file_case_table (file_in self.old)) name.now ≡ Err InvalidInput
            → IsErrOf result InvalidInput }
        ensures only_reads { OnlyReadsPackage self.old self.new }
        ensures cause { IfErr result
            (IsJustifiedBySectors (allocator_of (mini_of (file_in self.old)))
            (allocator_of (mini_of (file_in self.new)))) }
    {
        if self.store.file.is_failed() {
            return Err(Error::Failed);
        }
        reading::read_stream(&mut self.store.file, name)
    }

    /// Whether there is a digital signature. It takes no memory.
    pub fn has_digital_signature(&self) -> bool
        ensures { (P : PackageContent) → PackageHasContent self.now P
            → result ≡ is_signed (file_case_table (file_in self.now)) P }
    {
        reading::has_digital_signature(&self.store.file)
    }
}

impl<F: Medium> Package<F> {
    /// Whether a fault in a write or a commit has left the file, or its medium, in a state in which every call is refused.
    pub fn has_failed(&self) -> bool
        ensures { result ≡ has_failed (allocator_of (mini_of (file_in self.now))) }
    {
        self.store.file.has_failed()
    }

    /// Whether a fault has left the medium itself in a state in which every call is refused, and `roll_back` with them.
    pub fn has_medium_failed(&self) -> bool
        ensures { result ≡ F.failed (medium_of (allocator_of (mini_of (file_in self.now)))) }
    {
        self.store.file.has_medium_failed()
    }
}
