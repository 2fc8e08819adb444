//! Rows that a query asks of a package.
ghost use Rattle.std.specs.Prelude.{◌≡◌, ◌==◌, ◌⊎◌, ◌↔◌, length, true, IfErr, IsErrOf, IsTrue};
ghost use Rattle.cfb.specs.Streams.{FileHoldsTree};
ghost use Rattle.cfb.specs.Views.{mini_of};
ghost use Rattle.cfb_tree.specs.Tree.{Tree};
ghost use Rattle.cfb_fat.specs.Tables.{has_failed_here, IsJustifiedBySectors};
ghost use Rattle.cfb_medium.specs.declared.error.Error.TheVariants.{Failed};
ghost use Rattle.cfb_mini.specs.Views.{allocator_of};
ghost use Rattle.msi.specs.Opened.{file_in, PackageHasContent, OnlyReadsPackage};
ghost use Rattle.msi.specs.Rows.{rows_shown};
ghost use Rattle.msi.specs.Selected.{AnswersAt, IsQueryError};
ghost use Rattle.msi_spec.specs.Calls.{selected_in};
ghost use Rattle.msi_spec.specs.Package.{PackageContent};
ghost use Rattle.msi_parts.specs.Whole.{Wide};
ghost use Rattle.msi_query.specs.Said.{query_of};
ghost use Rattle.msi_stored.specs.Reading.{ReturnsOrFault};
ghost use Rattle.msi_tables.specs.Held.{heading_of, rows_held};
ghost use Rattle.std.specs.List.{list_all};

use crate::package::Package;
use crate::rows::rows_of_cells;
use cfb_medium::{Error, ReadMedium};
use msi_pool::ValueRef;
use msi_query::Select;
use msi_tables::{Rows, Table};
use std::rc::Rc;

impl<F: ReadMedium> Package<F> {
    /// The rows that a query asks for, all in memory. `Failed` after a fault in a write, before all else; `NotFound` where a table that it
    /// names is missing, `InvalidInput` where a column is, the left side of a join before the right; `InvalidData` where a table that it
    /// names has too many rows or its chain breaks. Other errors are faults. The package is only read, and needn't be sound.
    pub fn select_rows(&mut self, query: &Select) -> Result<Rows, Error>
        ensures answer { (P : PackageContent) → PackageHasContent self.old P
            → ReturnsOrFault rows_shown
            (selected_in P (query_of query.now)) result }
        ensures read { (tree : Tree) → FileHoldsTree (file_in self.old) tree
            → AnswersAt self.old tree query.now result }
        ensures only_reads { OnlyReadsPackage self.old self.new }
        ensures when_failed { has_failed_here (allocator_of (mini_of (file_in self.old))) ≡ true
            → IsErrOf result Failed }
        ensures cause { IfErr result
            (λ e. IsJustifiedBySectors (allocator_of (mini_of (file_in self.old)))
            (allocator_of (mini_of (file_in self.new))) e ⊎ IsQueryError self.old query.now e) }
    {
        match self.store.file.root_entry() {
            Ok(_root) => self.selected_rows(query),
            Err(error) => Err(error),
        }
    }

    // The same of a file that has met no fault in a write.
    fn selected_rows(&mut self, query: &Select) -> Result<Rows, Error>
        ensures answer { (P : PackageContent) → PackageHasContent self.old P
            → ReturnsOrFault rows_shown
            (selected_in P (query_of query.now)) result }
        ensures read { (tree : Tree) → FileHoldsTree (file_in self.old) tree
            → AnswersAt self.old tree query.now result }
        ensures only_reads { OnlyReadsPackage self.old self.new }
        ensures cause { IfErr result
            (λ e. IsJustifiedBySectors (allocator_of (mini_of (file_in self.old)))
            (allocator_of (mini_of (file_in self.new))) e ⊎ IsQueryError self.old query.now e) }
    {
        match query.apply(self.alloc, &mut self.store, &self.pool) {
            Ok((table, rows)) => {
                if !are_wide(&rows, &table) {
                    return Err(Error::InvalidData);
                }
                rows_of_cells(self.alloc, &self.pool, Rc::new(self.alloc, table)?, rows)
            }
            Err(error) => Err(error),
        }
    }
}

// Whether each row has a cell for each column of the table.
fn are_wide(rows: &[Vec<ValueRef>], table: &Table) -> bool
    ensures { IsTrue result
        ↔ Wide (length (heading_of table.now).columns) (rows_held rows.now) }
{
    have_cells(rows, table.columns().len())
}

// Whether each row has so many cells.
fn have_cells(rows: &[Vec<ValueRef>], count: usize) -> bool
    ensures { result ≡ list_all (λ row. length row.items == count) rows.now }
{
    rows.iter().all(|row| row.len() == count)
}
