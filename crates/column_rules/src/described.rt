//! Columns of which `_Validation` says nothing.
ghost use Rattle.std.specs.Prelude.{◌≡◌, ◌++◌, ◌&&◌, ◌==◌, not, is_none, length, IfOk, OnOk, bytes_eq, codes};
ghost use Rattle.std.specs.List.{list_any};
ghost use Rattle.package_rules.specs.Firsts.{said_at};
ghost use Rattle.package_rules.specs.Places.{numbered};
ghost use Rattle.column_rules.specs.Described.{column_if, describes, undescribed_at, undescribed_found};

use msi_listing::{Column, Listing, Row, Table};
use package_rules::{ColumnName, row_of, said_in};
use std::alloc::{AllocError, Global};
use std::collections::BTreeMap;

/// A column of a listing: the numbers of its table and its own, from 0.
#[derive(Clone, Copy, Debug, PartialEq, Eq)]
pub struct ColumnPlace {
    /// The number of the table.
    pub table: usize,
    /// The number of the column.
    pub column: usize,
}

/// The columns of which no row of `_Validation` speaks; its own are passed over. None where it has no rows, or isn't there. The one error is
/// want of memory.
pub fn undescribed_columns(alloc: Global, listing: &Listing) -> Result<Vec<ColumnPlace>, AllocError>
    ensures { IfOk result (λ found. found.items ≡ undescribed_found listing.now) }
{
    let mut found = Vec::new(alloc);
    if !describes(listing.tables()) {
        return Ok(found);
    }
    let said = said_in(alloc, listing)?;
    add_tables(&mut found, &said, listing.tables())?;
    Ok(found)
}

// Whether a table is `_Validation`, and has rows.
fn describes(tables: &[Table]) -> bool
    ensures { result ≡ describes tables.now }
{
    tables.iter().any(|table| has_rows(table))
}

fn has_rows(table: &Table) -> bool
    ensures { result ≡ (bytes_eq table.now.name (codes "_Validation")
        && not (length table.now.rows == 0)) }
{
    table.name() == "_Validation" && !table.rows().is_empty()
}

// Adds those of tables.
fn add_tables<'a>(
    found: &mut Vec<ColumnPlace>,
    said: &BTreeMap<ColumnName<'a>, &'a Row>,
    tables: &'a [Table],
) -> Result<(), AllocError>
    ensures { OnOk result (found.new.items
        ≡ found.old.items ++ numbered (undescribed_at (said_at said.now)) tables.now) }
{
    for (table_at, table) in tables.iter().enumerate() {
        add_table(found, said, table, table_at)?;
    }
    Ok(())
}

// Adds those of a table, if it isn't `_Validation`.
fn add_table<'a>(
    found: &mut Vec<ColumnPlace>,
    said: &BTreeMap<ColumnName<'a>, &'a Row>,
    table: &'a Table,
    table_at: usize,
) -> Result<(), AllocError>
    ensures { OnOk result (found.new.items
        ≡ found.old.items ++ undescribed_at (said_at said.now) table_at table.now) }
{
    if table.name() == "_Validation" {
        return Ok(());
    }
    add_columns(found, said, table, table_at)
}

// Adds those of a table that isn't.
fn add_columns<'a>(
    found: &mut Vec<ColumnPlace>,
    said: &BTreeMap<ColumnName<'a>, &'a Row>,
    table: &'a Table,
    table_at: usize,
) -> Result<(), AllocError>
    ensures { OnOk result (found.new.items ≡ found.old.items
        ++ numbered (λ k c. column_if (is_none (said_at said.now table.now.name c.name)) table_at k) table.now.columns) }
{
    let columns = table.columns();
    for (column_at, column) in columns.iter().enumerate() {
        let is_silent = row_of(said, table, column).is_none();
        let place = ColumnPlace {
            table: table_at,
            column: column_at,
        };
        push_if(found, is_silent, place)?;
    }
    Ok(())
}

// Adds a column, if it is one.
fn push_if(found: &mut Vec<ColumnPlace>, is_one: bool, place: ColumnPlace) -> Result<(), AllocError>
    ensures { OnOk result (found.new.items
        ≡ found.old.items ++ column_if is_one place.table place.column) }
{
    if !is_one {
        return Ok(());
    }
    found.push(place)?;
    Ok(())
}
