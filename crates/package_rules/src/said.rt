//! What `_Validation` says of columns.
ghost use Rattle.std.specs.Prelude.{◌≡◌, ◌++◌, ◌∷◌, [], List, ℕ, IfOk, OnOk, codes, bytes_eq, if◌then◌else◌, None, option_map};
ghost use Rattle.std.specs.Option.{option_copied, option_map_or};
ghost use Rattle.msi_listing.specs.HeldCell.{cell_of};
ghost use Rattle.package_rules.specs.Said.{names_in, rows_named, text_in};
ghost use Rattle.msi_listing.specs.Content.{CellContent};
ghost use Rattle.package_rules.specs.Firsts.{AreFirsts, said_at};

use crate::names::ColumnName;
use msi_listing::{Cell, Listing, Row, Table};
use std::alloc::{AllocError, Global};
use std::collections::BTreeMap;

/// The rows of `_Validation` under the columns of which they speak; the first one, where several speak of one. The one error is want of
/// memory.
pub fn said_in<'a>(
    alloc: Global,
    listing: &'a Listing,
) -> Result<BTreeMap<ColumnName<'a>, &'a Row>, AllocError>
    ensures { IfOk result (AreFirsts (rows_named (codes "_Validation") listing.now)) }
{
    let mut said = BTreeMap::new(alloc);
    let tables = listing.tables();
    for table in tables {
        add_table(&mut said, table)?;
    }
    Ok(said)
}

// Adds the rows of a table, if it is `_Validation`.
fn add_table<'a>(
    said: &mut BTreeMap<ColumnName<'a>, &'a Row>,
    table: &'a Table,
) -> Result<(), AllocError>
    ensures { (rows : List (List CellContent)) → AreFirsts rows said.old → OnOk result (AreFirsts
        (rows ++ (if bytes_eq table.now.name (codes "_Validation") then table.now.rows else [])) said.new) }
{
    if table.name() != "_Validation" {
        return Ok(());
    }
    add_rows(said, table.rows())
}

// Adds rows.
fn add_rows<'a>(
    said: &mut BTreeMap<ColumnName<'a>, &'a Row>,
    rows: &'a [Row],
) -> Result<(), AllocError>
    ensures { (before : List (List CellContent)) → AreFirsts before said.old
        → OnOk result (AreFirsts (before ++ rows.now) said.new) }
{
    for row in rows {
        add_row(said, row)?;
    }
    Ok(())
}

// Adds a row, if none before it speaks of its column.
fn add_row<'a>(said: &mut BTreeMap<ColumnName<'a>, &'a Row>, row: &'a Row) -> Result<(), AllocError>
    ensures { (before : List (List CellContent)) → AreFirsts before said.old
        → OnOk result (AreFirsts (before ++ row.now ∷ []) said.new) }
{
    let Some(name) = names_of(row) else {
        return Ok(());
    };
    if said.contains_key(&name) {
        return Ok(());
    }
    said.insert(name, row)?;
    Ok(())
}

// The table and the column that a row names.
fn names_of(row: &Row) -> Option<ColumnName<'_>>
    ensures { option_map (λ n. (n.table.now, n.column.now)) result ≡ names_in row.now }
{
    let cells = row.cells();
    let table = text_of(cells.get(0))?;
    let column = text_of(cells.get(1))?;
    Some(ColumnName { table, column })
}

// The text of a cell, if it is one.
fn text_of(cell: Option<&Cell>) -> Option<&str>
    ensures { option_copied result ≡ option_map_or (λ c. text_in (cell_of c.now)) cell.entry None }
{
    match cell {
        Some(Cell::Text(text)) => Some(text.as_str()),
        _ => None,
    }
}
