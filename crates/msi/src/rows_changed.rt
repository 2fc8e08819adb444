//! Packages whose rows are updated and deleted.
ghost use Rattle.std.specs.Prelude.{IfErr};
ghost use Rattle.cfb.specs.Views.{mini_of};
ghost use Rattle.cfb_fat.specs.Tables.{IsJustifiedBySectors};
ghost use Rattle.cfb_mini.specs.Views.{allocator_of};
ghost use Rattle.cfb_chain_io.specs.ChainEffects.{KeepsFileInvariants};
ghost use Rattle.msi.specs.Changing.{IsChangeError, PackageChanges, FullOnlyWithoutRoom};
ghost use Rattle.msi.specs.Opened.{file_in};
ghost use Rattle.msi_changes.specs.Said.{delete_condition, delete_name, update_condition, update_name, update_sets};
ghost use Rattle.msi_spec.specs.Calls.{Deletes, Updates};

use crate::package::Package;
use cfb_medium::{Error, Medium};
use msi_changes::{Delete, Update};

impl<F: Medium> Package<F> {
    /// Gives cells of a table new values. `Failed` after an earlier fault, `InvalidData` where the package isn't sound; then `NotFound`
    /// where no table has the name, and `InvalidInput` or `AlreadyExists` as the rules of updates say; of the three tables that describe
    /// others only the descriptions in `_Validation` can be set. The other errors are faults, as for inserts. The rows are written to the
    /// file; their texts are counted in memory, and are written by a flush. After an error nothing is changed, or the package has failed.
    pub fn update_rows(&mut self, query: &Update) -> Result<(), Error>
        ensures changes { PackageChanges (λ P Q answer. Updates P (update_name query.now)
            (update_sets query.now) (update_condition query.now) Q answer)
            result self.old self.new }
        ensures full_only_if { FullOnlyWithoutRoom (λ P Q answer. Updates P (update_name query.now)
            (update_sets query.now) (update_condition query.now) Q answer)
            result self.old self.new }
        ensures invariants { KeepsFileInvariants (allocator_of (mini_of (file_in self.old)))
            (allocator_of (mini_of (file_in self.new))) }
        ensures cause { IfErr result
            (IsJustifiedBySectors (allocator_of (mini_of (file_in self.old)))
            (allocator_of (mini_of (file_in self.new)))) }
        ensures errors { IfErr result IsChangeError }
    {
        if let Err(error) = self.may_change() {
            return Err(error);
        }
        msi_row_edits::update_rows(self.alloc, &mut self.store, &mut self.pool, query)
    }

    /// Deletes rows of a table. `Failed` after an earlier fault, `InvalidData` where the package isn't sound; then `NotFound` where no
    /// table has the name, `InvalidInput` for one of the three tables that describe others, or where the condition names a column that
    /// isn't there. The other errors are faults, as for inserts. The rows are written to the file; the reference counts of their texts go
    /// down in memory, and are written by a flush. After an error nothing is changed, or the package has failed.
    pub fn delete_rows(&mut self, query: &Delete) -> Result<(), Error>
        ensures changes { PackageChanges (λ P Q answer. Deletes P (delete_name query.now)
            (delete_condition query.now) Q answer) result self.old self.new }
        ensures full_only_if { FullOnlyWithoutRoom (λ P Q answer. Deletes P (delete_name query.now)
            (delete_condition query.now) Q answer) result self.old self.new }
        ensures invariants { KeepsFileInvariants (allocator_of (mini_of (file_in self.old)))
            (allocator_of (mini_of (file_in self.new))) }
        ensures cause { IfErr result
            (IsJustifiedBySectors (allocator_of (mini_of (file_in self.old)))
            (allocator_of (mini_of (file_in self.new)))) }
        ensures errors { IfErr result IsChangeError }
    {
        if let Err(error) = self.may_change() {
            return Err(error);
        }
        msi_row_edits::delete_rows(self.alloc, &mut self.store, &mut self.pool, query)
    }
}
