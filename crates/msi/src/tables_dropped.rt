//! Packages of which tables are dropped.
ghost use Rattle.std.specs.Prelude.{IfErr};
ghost use Rattle.cfb.specs.Views.{mini_of};
ghost use Rattle.cfb_fat.specs.Tables.{IsJustifiedBySectors};
ghost use Rattle.cfb_mini.specs.Views.{allocator_of};
ghost use Rattle.cfb_chain_io.specs.ChainEffects.{KeepsFileInvariants};
ghost use Rattle.msi.specs.Changing.{IsChangeError, PackageChanges, FullOnlyWithoutRoom};
ghost use Rattle.msi.specs.Opened.{file_in};
ghost use Rattle.msi_spec.specs.Calls.{Drops};

use crate::package::Package;
use cfb_medium::{Error, Medium};

impl<F: Medium> Package<F> {
    /// Drops a table, with all rows that describe it. `Failed` after an earlier fault, `InvalidData` where the package isn't sound; then
    /// `InvalidInput` for one of the three tables that describe others and for a name that no table can have, `NotFound` where no table has
    /// the name or `_Validation` is none. The other errors are faults, as for inserts. The tables' streams are written to the file; the
    /// reference counts of texts go down in memory, and are written by a flush. After an error nothing is changed, or the package has
    /// failed.
    pub fn drop_table(&mut self, name: &str) -> Result<(), Error>
        ensures changes { PackageChanges (λ P Q answer. Drops P name.now Q answer) result self.old
            self.new }
        ensures full_only_if { FullOnlyWithoutRoom
            (λ P Q answer. Drops P name.now Q answer) result self.old
            self.new }
        ensures invariants { KeepsFileInvariants (allocator_of (mini_of (file_in self.old)))
            (allocator_of (mini_of (file_in self.new))) }
        ensures cause { IfErr result
            (IsJustifiedBySectors (allocator_of (mini_of (file_in self.old)))
            (allocator_of (mini_of (file_in self.new)))) }
        ensures errors { IfErr result IsChangeError }
    {
        if let Err(error) = self.may_change() {
            return Err(error);
        }
        msi_table_edits::drop_table(self.alloc, &mut self.store, &mut self.pool, name)
    }
}
