//! Packages that are changed.
ghost use Rattle.std.specs.Borrow.{sem, RestsIfErr};
ghost use Rattle.std.specs.Prelude.{◌≡◌, [], Err, IfErr, IfOk, Ok};
ghost use Rattle.cfb.specs.Views.{file_case_table, mini_of};
ghost use Rattle.cfb_fat.specs.Tables.{IsJustifiedBySectors};
ghost use Rattle.cfb_mini.specs.Views.{allocator_of};
ghost use Rattle.cfb_chain_io.specs.ChainEffects.{KeepsFileInvariants};
ghost use Rattle.msi.specs.Changing.{failed_in, permission, setting_page, IsChangeError, IsRemovalError, PackageChanges, FullOnlyWithoutRoom};
ghost use Rattle.msi.specs.Opened.{file_in, sound_in};
ghost use Rattle.msi.specs.Writers.{lender_of, BeginsWriting, ReplacesStream};
ghost use Rattle.msi.specs.contracts.package.Package.{the_row};
ghost use Rattle.msi_changes.specs.Said.{insert_name, insert_rows};
ghost use Rattle.msi_spec.specs.Calls.{Inserts};
ghost use Rattle.msi_spec.specs.Streams.{stream_removed, unsigned};
ghost use Rattle.msi_streams.specs.Writing.{most_bytes, written_within, AppliesPackageRule};

use crate::package::Package;
use crate::writer::StreamWriter;
use cfb_medium::{Error, Medium};
use msi_changes::Insert;
use msi_texts::CodePage;

impl<F: Medium> Package<F> {
    // Refuses a change after a fault, and of a package that isn't sound.
    pub(crate) fn may_change(&self) -> Result<(), Error>
        ensures { result ≡ permission (failed_in self.now) (sound_in self.now) }
    {
        if self.store.file.has_failed() {
            return Err(Error::Failed);
        }
        if !self.is_sound {
            return Err(Error::InvalidData);
        }
        Ok(())
    }

    /// Sets the page under which texts are written. `Failed` after an earlier fault, `InvalidData` where the package isn't sound. The
    /// file isn't touched before a flush; a text that the page lacks is then written with `?` in it.
    pub fn set_database_codepage(&mut self, codepage: CodePage) -> Result<(), Error>
        ensures changes { PackageChanges (setting_page codepage) result self.old self.new }
        ensures answer { result ≡ permission (failed_in self.old) (sound_in self.old) }
        ensures file { file_in self.new ≡ file_in self.old }
    {
        if let Err(error) = self.may_change() {
            return Err(error);
        }
        self.pool.set_codepage(codepage);
        Ok(())
    }

    /// Gives a stream of this name these bytes in place of its own, or makes it with them. `Failed` after an earlier fault, `InvalidData`
    /// where the package isn't sound; then `InvalidInput` where no stream can have the name, `AlreadyExists` where a storage has it,
    /// `InvalidInput` where a stream of the file's version has fewer bytes. `Full` where numbers of entries or sectors are missing. The
    /// other errors are faults. After an error nothing is changed, or the package has failed.
    pub fn put_stream(&mut self, name: &str, bytes: &[u8]) -> Result<(), Error>
        ensures changes { PackageChanges
            (AppliesPackageRule (written_within (file_case_table (file_in self.old))
            (most_bytes (file_in self.old)) name.now bytes.now)) result self.old self.new }
        ensures full_only_if { FullOnlyWithoutRoom
            (AppliesPackageRule (written_within (file_case_table (file_in self.old))
            (most_bytes (file_in self.old)) name.now bytes.now)) result self.old self.new }
        ensures invariants { KeepsFileInvariants (allocator_of (mini_of (file_in self.old)))
            (allocator_of (mini_of (file_in self.new))) }
        ensures cause { IfErr result
            (IsJustifiedBySectors (allocator_of (mini_of (file_in self.old)))
            (allocator_of (mini_of (file_in self.new)))) }
        ensures errors { IfErr result IsChangeError }
    {
        if let Err(error) = self.may_change() {
            return Err(error);
        }
        msi_streams::write_stream(&mut self.store.file, name, bytes)
    }

    /// A writer of the stream of this name, at its first byte: the stream is made without bytes, or has none of its own any more. What
    /// is written comes into the package by the writer's `flush` and `close`. It is refused as `put_stream` of no bytes is: `Failed`
    /// after an earlier fault, `InvalidData` where the package isn't sound; then `InvalidInput` where no stream can have the name,
    /// `AlreadyExists` where a storage has it. `Full` where numbers of entries or sectors are missing. The other errors are faults.
    /// After an error nothing is changed, or the package has failed.
    pub fn write_stream<'a>(&'a mut self, name: &'a str) -> Result<StreamWriter<'a, F>, Error>
        ensures* lends { sem 𝓛 (RestsIfErr (the_row F.row F.ReadMedium) self.entry lender_of result
            (λ n. IfErr result (λ e. ReplacesStream name.entry.now [] (Err e) self.old n))) }
        ensures same_reference { IfOk result (λ w. lender_of w ≡ self.entry.ghost_name) }
        ensures begun { IfOk result (BeginsWriting name.entry.now self.old) }
    {
        match self.put_stream(name, &[]) {
            Ok(()) => Ok(StreamWriter::new(self, name)),
            Err(error) => Err(error),
        }
    }

    /// Removes the stream of this name. `Failed` after an earlier fault, `InvalidData` where the package isn't sound; then `InvalidInput`
    /// where no stream can have the name, `NotFound` where none has. The other errors are faults. After an error nothing is changed, or
    /// the package has failed.
    pub fn remove_stream(&mut self, name: &str) -> Result<(), Error>
        ensures changes { PackageChanges
            (AppliesPackageRule (λ P. stream_removed (file_case_table (file_in self.old)) P
            name.now)) result self.old self.new }
        ensures invariants { KeepsFileInvariants (allocator_of (mini_of (file_in self.old)))
            (allocator_of (mini_of (file_in self.new))) }
        ensures cause { IfErr result
            (IsJustifiedBySectors (allocator_of (mini_of (file_in self.old)))
            (allocator_of (mini_of (file_in self.new)))) }
        ensures errors { IfErr result IsRemovalError }
    {
        if let Err(error) = self.may_change() {
            return Err(error);
        }
        msi_streams::remove_stream(&mut self.store.file, name)
    }

    /// Removes the two streams of the digital signature, those of them that are there. `Failed` after an earlier fault, `InvalidData`
    /// where the package isn't sound. The other errors are faults. After an error nothing is changed, or the package has failed.
    pub fn remove_digital_signature(&mut self) -> Result<(), Error>
        ensures changes { PackageChanges
            (AppliesPackageRule (λ P. Ok (unsigned (file_case_table (file_in self.old)) P)))
            result self.old self.new }
        ensures invariants { KeepsFileInvariants (allocator_of (mini_of (file_in self.old)))
            (allocator_of (mini_of (file_in self.new))) }
        ensures cause { IfErr result
            (IsJustifiedBySectors (allocator_of (mini_of (file_in self.old)))
            (allocator_of (mini_of (file_in self.new)))) }
        ensures errors { IfErr result IsRemovalError }
    {
        if let Err(error) = self.may_change() {
            return Err(error);
        }
        msi_streams::remove_digital_signature(&mut self.store.file)
    }

    /// Inserts rows into a table. `Failed` after an earlier fault, `InvalidData` where the package isn't sound; then `NotFound` where no
    /// table has the name, and `InvalidInput` or `AlreadyExists` as the rules of inserts say, the three tables that describe others last.
    /// The other errors are faults, `Full` among them where the file lacks room for the table with its new rows. The rows are written
    /// to the file; their texts are counted in memory, and written by a flush. After an error nothing is changed, or the package has
    /// failed.
    pub fn insert_rows(&mut self, query: &Insert) -> Result<(), Error>
        ensures changes { PackageChanges (λ P Q answer. Inserts P (insert_name query.now)
            (insert_rows query.now) Q answer) result self.old self.new }
        ensures full_only_if { FullOnlyWithoutRoom (λ P Q answer. Inserts P (insert_name query.now)
            (insert_rows query.now) Q answer) result self.old self.new }
        ensures invariants { KeepsFileInvariants (allocator_of (mini_of (file_in self.old)))
            (allocator_of (mini_of (file_in self.new))) }
        ensures cause { IfErr result
            (IsJustifiedBySectors (allocator_of (mini_of (file_in self.old)))
            (allocator_of (mini_of (file_in self.new)))) }
        ensures errors { IfErr result IsChangeError }
    {
        if let Err(error) = self.may_change() {
            return Err(error);
        }
        msi_row_edits::insert_rows(self.alloc, &mut self.store, &mut self.pool, query)
    }
}
