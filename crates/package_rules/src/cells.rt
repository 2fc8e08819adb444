//! The cells of a listing that fail a rule.
ghost use Rattle.std.specs.Prelude.{◌≡◌, ◌++◌, [], if◌then◌else◌, IfOk, OnOk, Bool, List};
ghost use Rattle.msi_listing.specs.Content.{CellContent, ColumnContent, TableContent};
ghost use Rattle.msi_listing.specs.HeldCell.{cell_of};
ghost use Rattle.package_rules.specs.Places.{fails_at, numbered, places_in_column, places_in_table, places_where};

use crate::place::{Place, push_if};
use msi_listing::{Cell, Column, Listing, Row, Table};
use std::alloc::{AllocError, Global};

/// A rule on each cell of some columns.
pub trait CellRule<'a> {
    ghost speaks: { Self → TableContent → ColumnContent → Bool };

    ghost fails: { Self → TableContent → ColumnContent → List CellContent → CellContent → Bool };

    /// Whether it speaks of a column of a table.
    fn speaks(&self, table: &'a Table, column: &'a Column) -> bool
        ensures { result ≡ speaks self.now table.now column.now };

    /// Whether a cell of a row fails it, in such a column. The one error is want of memory.
    fn fails(
        &self,
        table: &'a Table,
        column: &'a Column,
        row: &'a Row,
        cell: &'a Cell,
    ) -> Result<bool, AllocError>
        ensures { IfOk result
            (λ is_so. is_so ≡ fails self.now table.now column.now row.now (cell_of cell.now)) };
}

// A column of a table, with their numbers.
#[derive(Drop)]
struct Spot<'a> {
    table: &'a Table,
    table_at: usize,
    column: &'a Column,
    column_at: usize,
}

/// The places of all cells that fail a rule. The one error is want of memory.
pub fn places_where<'a, R: CellRule<'a>>(
    alloc: Global,
    listing: &'a Listing,
    rule: &R,
) -> Result<Vec<Place>, AllocError>
    ensures { IfOk result (λ found. found.items
        ≡ places_where (R.speaks rule.now) (R.fails rule.now) listing.now) }
{
    let mut found = Vec::new(alloc);
    let tables = listing.tables();
    for (table_at, table) in tables.iter().enumerate() {
        add_table(&mut found, rule, table, table_at)?;
    }
    Ok(found)
}

// Adds those of a table.
fn add_table<'a, R: CellRule<'a>>(
    found: &mut Vec<Place>,
    rule: &R,
    table: &'a Table,
    table_at: usize,
) -> Result<(), AllocError>
    ensures { OnOk result (found.new.items ≡ found.old.items
        ++ places_in_table (R.speaks rule.now) (R.fails rule.now) table_at table.now) }
{
    let columns = table.columns();
    for (column_at, column) in columns.iter().enumerate() {
        let spot = Spot {
            table,
            table_at,
            column,
            column_at,
        };
        add_column(found, rule, &spot)?;
    }
    Ok(())
}

// Adds those of a column, if the rule speaks of it.
fn add_column<'a, R: CellRule<'a>>(
    found: &mut Vec<Place>,
    rule: &R,
    spot: &Spot<'a>,
) -> Result<(), AllocError>
    ensures { OnOk result (found.new.items ≡ found.old.items
        ++ (if R.speaks rule.now spot.now.table.now spot.now.column.now
        then places_in_column (R.fails rule.now spot.now.table.now spot.now.column.now)
        spot.now.table_at spot.now.column_at spot.now.table.now.rows else [])) }
{
    if !rule.speaks(spot.table, spot.column) {
        return Ok(());
    }
    add_cells(found, rule, spot)
}

// Adds those of a column of which the rule speaks.
fn add_cells<'a, R: CellRule<'a>>(
    found: &mut Vec<Place>,
    rule: &R,
    spot: &Spot<'a>,
) -> Result<(), AllocError>
    ensures { OnOk result (found.new.items ≡ found.old.items
        ++ places_in_column (R.fails rule.now spot.now.table.now spot.now.column.now)
        spot.now.table_at spot.now.column_at spot.now.table.now.rows) }
{
    let rows = spot.table.rows();
    for (row_at, row) in rows.iter().enumerate() {
        let has_failed = fails_there(rule, spot, row)?;
        let place = Place {
            table: spot.table_at,
            column: spot.column_at,
            row: row_at,
        };
        push_if(found, has_failed, place)?;
    }
    Ok(())
}

// Whether the cell of a row in this column fails the rule.
fn fails_there<'a, R: CellRule<'a>>(
    rule: &R,
    spot: &Spot<'a>,
    row: &'a Row,
) -> Result<bool, AllocError>
    ensures { IfOk result (λ is_so. is_so
        ≡ fails_at (R.fails rule.now spot.now.table.now spot.now.column.now) spot.now.column_at row.now) }
{
    match row.cells().get(spot.column_at) {
        Some(cell) => rule.fails(spot.table, spot.column, row, cell),
        None => Ok(false),
    }
}
