//! Packages that get tables.
ghost use Rattle.std.specs.Prelude.{IfErr};
ghost use Rattle.cfb.specs.Views.{file_case_table, mini_of};
ghost use Rattle.cfb_fat.specs.Tables.{IsJustifiedBySectors};
ghost use Rattle.cfb_mini.specs.Views.{allocator_of};
ghost use Rattle.cfb_chain_io.specs.ChainEffects.{KeepsFileInvariants};
ghost use Rattle.msi_columns.specs.Held.{columns_of};
ghost use Rattle.msi.specs.Changing.{IsChangeError, PackageChanges, FullOnlyWithoutRoom};
ghost use Rattle.msi.specs.Opened.{file_in};
ghost use Rattle.msi_table_edits.specs.Validating.{Validates};
ghost use Rattle.msi_spec.specs.Calls.{Creates};

use crate::package::Package;
use cfb_medium::{Error, Medium};
use msi_tables::Column;

impl<F: Medium> Package<F> {
    /// Makes a table of this name with these columns. `Failed` after an earlier fault, `InvalidData` where the package isn't sound; then
    /// `InvalidInput` for a name or columns that no table can have, `AlreadyExists` where a table has the name, `NotFound` where
    /// `_Validation` is none, `InvalidInput` where the rows that describe it can't be kept, `AlreadyExists` where `_Validation` describes
    /// one of its columns already or a storage stands at its name, `InvalidInput` for more than 65536 rows in one of the three tables that
    /// describe others, or where the pool is full. The other errors are faults, as for inserts. The rows of the three tables are written to
    /// the file; the reference counts of texts go up in memory, and are written by a flush. After an error nothing is changed, or the package
    /// has failed.
    pub fn create_table(&mut self, name: &str, columns: Vec<Column>) -> Result<(), Error>
        ensures changes { PackageChanges
            (λ P Q answer. Creates (file_case_table (file_in self.old)) P
            name.now (columns_of columns.items) Q answer) result self.old self.new }
        ensures full_only_if { FullOnlyWithoutRoom
            (λ P Q answer. Creates (file_case_table (file_in self.old)) P
            name.now (columns_of columns.items) Q answer) result self.old self.new }
        ensures invariants { KeepsFileInvariants (allocator_of (mini_of (file_in self.old)))
            (allocator_of (mini_of (file_in self.new))) }
        ensures cause { IfErr result
            (IsJustifiedBySectors (allocator_of (mini_of (file_in self.old)))
            (allocator_of (mini_of (file_in self.new)))) }
        ensures errors { IfErr result IsChangeError }
    {
        if let Err(error) = self.may_change() {
            return Err(error);
        }
        msi_table_edits::create_table(self.alloc, &mut self.store, &mut self.pool, name, columns)
    }

    /// Gives the package an empty table `_Validation`, which `_Columns` and `_Tables` list: packages of other makers may have none, and
    /// tables can't be made or dropped there. No row speaks of its own columns. `Failed` after an earlier fault, `InvalidData` where the
    /// package isn't sound; then `AlreadyExists` where there is a table `_Validation`, or a storage stands at its name, `InvalidInput` for
    /// more than 65536 rows in `_Columns` or `_Tables`, or where the pool is full. The other errors are faults, as for inserts. The rows of
    /// the two tables are written to the file; the reference counts of texts go up in memory, and are written by a flush. After an error
    /// nothing is changed, or the package has failed.
    pub fn add_validation(&mut self) -> Result<(), Error>
        ensures changes { PackageChanges
            (λ P Q answer. Validates (file_case_table (file_in self.old)) P
            Q answer) result self.old self.new }
        ensures full_only_if { FullOnlyWithoutRoom
            (λ P Q answer. Validates (file_case_table (file_in self.old)) P Q
            answer) result self.old self.new }
        ensures invariants { KeepsFileInvariants (allocator_of (mini_of (file_in self.old)))
            (allocator_of (mini_of (file_in self.new))) }
        ensures cause { IfErr result
            (IsJustifiedBySectors (allocator_of (mini_of (file_in self.old)))
            (allocator_of (mini_of (file_in self.new)))) }
        ensures errors { IfErr result IsChangeError }
    {
        if let Err(error) = self.may_change() {
            return Err(error);
        }
        msi_table_edits::add_validation(self.alloc, &mut self.store, &mut self.pool)
    }
}
