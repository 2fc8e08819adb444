//! Keys with nulls, and keys that stand twice.
ghost use Rattle.std.specs.Prelude.{◌≡◌, ◌++◌, ◌&&◌, not, IfOk, OnOk, position};
ghost use Rattle.package_rules.specs.Cells.{is_null};
ghost use Rattle.package_rules.specs.Rules.{key_found};
ghost use Rattle.package_rules.specs.Keys.{repeated_found, repeated_in, repeated_rows};

use crate::cells::{CellRule, places_where};
use crate::parts::key_of;
use crate::place::{Place, push_if};
use msi_listing::{Cell, Column, Listing, Row, Table};
use std::alloc::{AllocError, Global};
use std::collections::BTreeSet;

struct NullKeys;

impl<'a> CellRule<'a> for NullKeys {
    ghost speaks = { λ _ _ c. c.key && not c.nullable };

    ghost fails = { λ _ _ _ _ d. is_null d };

    fn speaks(&self, _table: &'a Table, column: &'a Column) -> bool {
        column.is_key() && !column.is_nullable()
    }

    fn fails(
        &self,
        _table: &'a Table,
        _column: &'a Column,
        _row: &'a Row,
        cell: &'a Cell,
    ) -> Result<bool, AllocError> {
        Ok(matches!(cell, Cell::Null))
    }
}

/// The cells of keys that hold nothing, though their columns take no null; behind them, by the first column of their key, the rows that have the key of a row before them in
/// their table. The one error is want of memory.
pub fn broken_keys(alloc: Global, listing: &Listing) -> Result<Vec<Place>, AllocError>
    ensures { IfOk result (λ found. found.items ≡ key_found listing.now) }
{
    let mut found = places_where(alloc, listing, &NullKeys)?;
    add_repeated(alloc, &mut found, listing)?;
    Ok(found)
}

// Adds the rows whose key stands before them.
fn add_repeated(alloc: Global, found: &mut Vec<Place>, listing: &Listing) -> Result<(), AllocError>
    ensures { OnOk result (found.new.items ≡ found.old.items ++ repeated_found listing.now) }
{
    let tables = listing.tables();
    for (table_at, table) in tables.iter().enumerate() {
        add_repeated_in(alloc, found, table, table_at)?;
    }
    Ok(())
}

// The same of a table, where it has a key.
fn add_repeated_in(
    alloc: Global,
    found: &mut Vec<Place>,
    table: &Table,
    table_at: usize,
) -> Result<(), AllocError>
    ensures { OnOk result (found.new.items
        ≡ found.old.items ++ repeated_in table_at table.now) }
{
    match first_key(table.columns()) {
        Some(column_at) => add_repeated_rows(alloc, found, table, table_at, column_at),
        None => Ok(()),
    }
}

// The number of the first column of the key.
fn first_key(columns: &[Column]) -> Option<usize>
    ensures { result ≡ position (λ c. c.key) columns.now }
{
    columns.iter().position(|column| column.is_key())
}

// The same, by the first column of the key.
fn add_repeated_rows(
    alloc: Global,
    found: &mut Vec<Place>,
    table: &Table,
    table_at: usize,
    column_at: usize,
) -> Result<(), AllocError>
    ensures { OnOk result (found.new.items
        ≡ found.old.items ++ repeated_rows table_at table.now column_at) }
{
    let rows = table.rows();
    let columns = table.columns();
    let mut seen = BTreeSet::new(alloc);
    for (row_at, row) in rows.iter().enumerate() {
        let key = key_of(alloc, columns, row.cells())?;
        let is_new = seen.insert(key)?;
        let place = Place {
            table: table_at,
            column: column_at,
            row: row_at,
        };
        push_if(found, !is_new, place)?;
    }
    Ok(())
}
