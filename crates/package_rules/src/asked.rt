//! The columns of other tables in which cells are looked for.
ghost use Rattle.std.specs.Prelude.{◌≡◌, ◌++◌, ◌∷◌, [], List, ℕ, IfOk, OnOk, map, true, codes, bytes_eq, if◌then◌else◌};
ghost use Rattle.std.specs.List.{list_all};
ghost use Rattle.msi_listing.specs.Content.{CellContent};
ghost use Rattle.package_rules.specs.Asked.{AreAsked, Grows, asks, asks_all};
ghost use Rattle.package_rules.specs.Said.{rows_named};

use crate::foreign::{column_of, parts_of, tables_of};
use msi_listing::{Listing, Row, Table};
use std::alloc::{AllocError, Global};
use std::collections::BTreeSet;

/// A column, by its number from 1, and the name of its table.
#[derive(Clone, Copy, Debug, PartialEq, Eq, PartialOrd, Ord)]
pub struct ColumnAt<'a> {
    /// The number of the column.
    pub column: usize,
    /// The name of the table.
    pub table: &'a str,
}

/// Whether a column is asked for.
pub(crate) fn is_asked<'a>(asked: &BTreeSet<ColumnAt<'a>>, table: &'a str, column: usize) -> bool
    ensures { result ≡ asks asked.now table.now column }
{
    asked.contains(&ColumnAt { column, table })
}

/// The columns that rows of `_Validation` name. The one error is want of memory.
pub(crate) fn asked_in<'a>(
    alloc: Global,
    listing: &'a Listing,
) -> Result<BTreeSet<ColumnAt<'a>>, AllocError>
    ensures { IfOk result (AreAsked (rows_named (codes "_Validation") listing.now)) }
{
    let mut asked = BTreeSet::new(alloc);
    let tables = listing.tables();
    for table in tables {
        add_table(alloc, &mut asked, table)?;
    }
    Ok(asked)
}

// Adds those that the rows of a table name, if it is `_Validation`.
fn add_table<'a>(
    alloc: Global,
    asked: &mut BTreeSet<ColumnAt<'a>>,
    table: &'a Table,
) -> Result<(), AllocError>
    ensures { (rows : List (List CellContent)) → AreAsked rows asked.old → OnOk result (AreAsked
        (rows ++ (if bytes_eq table.now.name (codes "_Validation") then table.now.rows else [])) asked.new) }
{
    if table.name() != "_Validation" {
        return Ok(());
    }
    add_rows(alloc, asked, table.rows())
}

// Adds those that rows name.
fn add_rows<'a>(
    alloc: Global,
    asked: &mut BTreeSet<ColumnAt<'a>>,
    rows: &'a [Row],
) -> Result<(), AllocError>
    ensures { (before : List (List CellContent)) → AreAsked before asked.old
        → OnOk result (AreAsked (before ++ rows.now) asked.new) }
{
    for row in rows {
        add_row(alloc, asked, row)?;
    }
    Ok(())
}

// Adds those that a row names.
fn add_row<'a>(
    alloc: Global,
    asked: &mut BTreeSet<ColumnAt<'a>>,
    row: &'a Row,
) -> Result<(), AllocError>
    ensures grows { OnOk result (Grows asked.old asked.new) }
    ensures has_them { OnOk result (asks_all asked.new row.now ≡ true) }
{
    let Some(tables) = tables_of(row) else {
        return Ok(());
    };
    let parts = parts_of(alloc, tables)?;
    add_parts(asked, &parts, column_of(row))
}

/// Adds a column of each of these tables. The one error is want of memory.
pub fn add_parts<'a>(
    asked: &mut BTreeSet<ColumnAt<'a>>,
    tables: &[&'a str],
    column: usize,
) -> Result<(), AllocError>
    ensures grows { OnOk result (Grows asked.old asked.new) }
    ensures has_them { OnOk result
        (list_all (λ table. asks asked.new table column) (map (λ t. t.now) tables.now) ≡ true) }
{
    for table in tables {
        asked.insert(ColumnAt { column, table })?;
    }
    Ok(())
}
