//! The cells of a package in columns that are asked for, to be found by what they hold, their column and their table.
ghost use Rattle.std.specs.Prelude.{◌≡◌, ◌++◌, ◌∷◌, [], ◌+◌, List, ℕ, IfOk, OnOk};
ghost use Rattle.msi_listing.specs.HeldCell.{cell_of};
ghost use Rattle.package_rules.specs.Firsts.{AreEntries, is_in};
ghost use Rattle.package_rules.specs.Asked.{asks};
ghost use Rattle.package_rules.specs.Foreign.{Entry, entries, entries_of_row, entries_of_table};

use crate::asked::{ColumnAt, is_asked};
use crate::parts::{Part, part_of};
use msi_listing::{Cell, Listing, Row, Table};
use std::alloc::{AllocError, Global};
use std::collections::BTreeSet;

/// A cell, by what it holds, the number of its column from 1, and the name of its table. What differs most comes first.
#[derive(Clone, Copy, Debug, PartialEq, Eq, PartialOrd, Ord)]
pub struct CellKey<'a> {
    /// What it holds.
    pub cell: Part<'a>,
    /// The number of its column.
    pub column: usize,
    /// The name of its table.
    pub table: &'a str,
}

/// The cells of a package in columns that are asked for. The one error is want of memory.
pub fn entries_in<'a>(
    alloc: Global,
    listing: &'a Listing,
    asked: &BTreeSet<ColumnAt<'a>>,
) -> Result<BTreeSet<CellKey<'a>>, AllocError>
    ensures { IfOk result (AreEntries asked.now (entries listing.now)) }
{
    let mut set = BTreeSet::new(alloc);
    let tables = listing.tables();
    for table in tables {
        add_table(&mut set, asked, table)?;
    }
    Ok(set)
}

// Adds the cells of a table.
fn add_table<'a>(
    set: &mut BTreeSet<CellKey<'a>>,
    asked: &BTreeSet<ColumnAt<'a>>,
    table: &'a Table,
) -> Result<(), AllocError>
    ensures { (es : List Entry) → AreEntries asked.now es set.old
        → OnOk result (AreEntries asked.now (es ++ entries_of_table table.now) set.new) }
{
    let name = table.name();
    let rows = table.rows();
    for row in rows {
        add_row(set, asked, name, row)?;
    }
    Ok(())
}

// Adds the cells of a row.
fn add_row<'a>(
    set: &mut BTreeSet<CellKey<'a>>,
    asked: &BTreeSet<ColumnAt<'a>>,
    table: &'a str,
    row: &'a Row,
) -> Result<(), AllocError>
    ensures { (es : List Entry) → AreEntries asked.now es set.old
        → OnOk result (AreEntries asked.now (es ++ entries_of_row table.now row.now) set.new) }
{
    let cells = row.cells();
    for (at, cell) in cells.iter().enumerate() {
        add_cell(set, asked, table, at + 1, cell)?;
    }
    Ok(())
}

// Adds a cell, if its column is asked for.
fn add_cell<'a>(
    set: &mut BTreeSet<CellKey<'a>>,
    asked: &BTreeSet<ColumnAt<'a>>,
    table: &'a str,
    column: usize,
    cell: &'a Cell,
) -> Result<(), AllocError>
    ensures { (es : List Entry) → AreEntries asked.now es set.old → OnOk result (AreEntries asked.now
        (es ++ record { table = table.now; column = column; cell = cell_of cell.now } ∷ []) set.new) }
{
    if !is_asked(asked, table, column) {
        return Ok(());
    }
    let cell = part_of(cell);
    set.insert(CellKey {
        cell,
        column,
        table,
    })?;
    Ok(())
}

/// Whether a cell of this table and column holds this.
pub fn is_in<'a>(set: &BTreeSet<CellKey<'a>>, table: &'a str, column: usize, cell: &'a Cell) -> bool
    ensures { result ≡ is_in set.now table.now column (cell_of cell.now) }
{
    let key = CellKey {
        cell: part_of(cell),
        column,
        table,
    };
    set.contains(&key)
}
