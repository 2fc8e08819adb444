//! Cells that are no keys of the tables that `_Validation` names.
ghost use Rattle.std.specs.Prelude.{◌≡◌, not, ◌&&◌, ◌==◌, IfOk, is_some, map, option_map, false, true};
ghost use Rattle.std.specs.List.{list_any, slice_split};
ghost use Rattle.std.specs.Option.{option_copied, option_map_or};
ghost use Rattle.msi_listing.specs.HeldCell.{cell_of};
ghost use Rattle.package_rules.specs.Cells.{cell_at, is_null};
ghost use Rattle.package_rules.specs.Firsts.{is_in, leads_in, said_at};
ghost use Rattle.package_rules.specs.Foreign.{foreign_found};
ghost use Rattle.package_rules.specs.Said.{column_in, column_of, is_free, tables_in, words_in};

use crate::asked::asked_in;
use crate::cells::{CellRule, places_where};
use crate::entries::{CellKey, entries_in, is_in};
use crate::names::ColumnName;
use crate::place::Place;
use crate::said::said_in;
use msi_listing::{Cell, Column, Listing, Row, Table};
use std::alloc::{AllocError, Global};
use std::collections::{BTreeMap, BTreeSet};

#[derive(Drop)]
struct ForeignKeys<'a> {
    alloc: Global,
    said: BTreeMap<ColumnName<'a>, &'a Row>,
    entries: BTreeSet<CellKey<'a>>,
}

impl<'a> CellRule<'a> for ForeignKeys<'a> {
    ghost speaks = { λ s t c. option_map_or (λ v. is_some (tables_in v)) (said_at s.said t.name c.name) false };

    ghost fails = { λ s t c _ d. not (is_null d) && option_map_or (λ v. not (leads_in s.entries v d)) (said_at s.said t.name c.name) false };

    fn speaks(&self, table: &'a Table, column: &'a Column) -> bool {
        match row_of(&self.said, table, column) {
            Some(row) => tables_of(row).is_some(),
            None => false,
        }
    }

    fn fails(
        &self,
        table: &'a Table,
        column: &'a Column,
        _row: &'a Row,
        cell: &'a Cell,
    ) -> Result<bool, AllocError> {
        if matches!(cell, Cell::Null) {
            return Ok(false);
        }
        match row_of(&self.said, table, column) {
            Some(row) => Ok(!leads(self.alloc, &self.entries, row, cell)?),
            None => Ok(false),
        }
    }
}

/// The row of `_Validation` that speaks of a column.
pub fn row_of<'a>(
    said: &BTreeMap<ColumnName<'a>, &'a Row>,
    table: &'a Table,
    column: &'a Column,
) -> Option<&'a Row>
    ensures { option_map (λ r. r.now) result ≡ said_at said.now table.now.name column.now.name }
{
    let name = ColumnName {
        table: table.name(),
        column: column.name(),
    };
    said.get(&name).copied()
}

/// The text of a cell, if it is one that isn't empty.
pub fn words_of(cell: Option<&Cell>) -> Option<&str>
    ensures { option_copied result ≡ option_map_or (λ c. words_in (cell_of c.now)) cell.entry None }
{
    match cell {
        Some(Cell::Text(text)) if !text.is_empty() => Some(text.as_str()),
        _ => None,
    }
}

/// Whether a category in a row of `_Validation` lets other values than keys stand for themselves.
pub fn is_free(category: Option<&str>) -> bool
    ensures { result ≡ is_free (option_copied category.entry) }
{
    match category {
        Some(name) => name != "Identifier" && name != "Text",
        None => false,
    }
}

/// The tables that a row of `_Validation` names, with `;` between them.
pub(crate) fn tables_of(row: &Row) -> Option<&str>
    ensures { option_copied result ≡ tables_in row.now }
{
    let cells = row.cells();
    if words_of(cells.get(8)).is_some() {
        return None;
    }
    if is_free(words_of(cells.get(7))) {
        return None;
    }
    words_of(cells.get(5))
}

/// The number of their column.
pub(crate) fn column_of(row: &Row) -> usize
    ensures { result ≡ column_in row.now }
{
    match row.cells().get(6) {
        Some(Cell::Number(number)) => usize::try_from(*number).unwrap_or(0),
        _ => 1,
    }
}

// Whether a cell stands in one of the tables that a row names, if it names any.
fn leads<'a>(
    alloc: Global,
    entries: &BTreeSet<CellKey<'a>>,
    row: &'a Row,
    cell: &'a Cell,
) -> Result<bool, AllocError>
    ensures { IfOk result (λ is_so. is_so ≡ leads_in entries.now row.now (cell_of cell.now)) }
{
    match tables_of(row) {
        Some(tables) => is_in_one(alloc, entries, tables, column_of(row), cell),
        None => Ok(true),
    }
}

fn is_in_one<'a>(
    alloc: Global,
    entries: &BTreeSet<CellKey<'a>>,
    tables: &'a str,
    column: usize,
    cell: &'a Cell,
) -> Result<bool, AllocError>
    ensures { IfOk result (λ is_so. is_so
        ≡ list_any (λ table. is_in entries.now table column (cell_of cell.now))
        (slice_split (λ b. b == 59) tables.now)) }
{
    let parts = parts_of(alloc, tables)?;
    Ok(is_in_any(entries, &parts, column, cell))
}

/// The parts of a text between semicolons.
pub(crate) fn parts_of(alloc: Global, text: &str) -> Result<Vec<&str>, AllocError>
    ensures { IfOk result (λ parts. map (λ p. p.now) parts.items
        ≡ slice_split (λ b. b == 59) text.now) }
{
    text.split(';').collect(alloc)
}

fn is_in_any<'a>(
    entries: &BTreeSet<CellKey<'a>>,
    tables: &[&'a str],
    column: usize,
    cell: &'a Cell,
) -> bool
    ensures { result ≡ list_any (λ table. is_in entries.now table.now column (cell_of cell.now))
        tables.now }
{
    for table in tables {
        if is_in(entries, table, column, cell) {
            return true;
        }
    }
    false
}

/// The cells that hold something and are no keys of the tables that `_Validation` names for their columns. The one error is want of memory.
pub fn lost_keys(alloc: Global, listing: &Listing) -> Result<Vec<Place>, AllocError>
    ensures { IfOk result (λ found. found.items ≡ foreign_found listing.now) }
{
    let said = said_in(alloc, listing)?;
    let asked = asked_in(alloc, listing)?;
    let entries = entries_in(alloc, listing, &asked)?;
    let rule = ForeignKeys {
        alloc,
        said,
        entries,
    };
    places_where(alloc, listing, &rule)
}
