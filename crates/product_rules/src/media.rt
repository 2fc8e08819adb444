//! Cabinets whose stream isn't there, and files that no medium has.
ghost use Rattle.std.specs.Prelude.{◌≡◌, ◌&&◌, ◌||◌, not, IfOk, ℤ, pos, int_le, bytes_eq, codes, false, true};
ghost use Rattle.std.specs.BTreeSet.{contains_text};
ghost use Rattle.std.specs.List.{list_any};
ghost use Rattle.std.specs.Option.{option_map_or};
ghost use Rattle.msi_listing.specs.HeldCell.{cell_of};
ghost use Rattle.package_rules.specs.Said.{number_in};
ghost use Rattle.package_rules.specs.Cells.{cell_at};
ghost use Rattle.product_rules.specs.Media.{cabinet_found, has_media, is_beyond_media, is_lost_cabinet, is_lost_name, is_media, is_reached, reached_by, reaches, sequence_found};

use crate::texts::packed_name;
use msi_listing::{Cell, Column, Listing, Row, Table};
use package_rules::{CellRule, Place, names_of_streams, places_where};
use std::alloc::{AllocError, Global};
use std::collections::BTreeSet;

#[derive(Drop)]
struct LostCabinets {
    names: BTreeSet<String>,
}

impl<'a> CellRule<'a> for LostCabinets {
    ghost speaks = { λ _ t c. is_media t.name && bytes_eq c.name (codes "Cabinet") };

    ghost fails = { λ s _ _ _ d. is_lost_cabinet (contains_text s.names) d };

    fn speaks(&self, table: &'a Table, column: &'a Column) -> bool {
        is_media(table) && column.name() == "Cabinet"
    }

    fn fails(
        &self,
        _table: &'a Table,
        _column: &'a Column,
        _row: &'a Row,
        cell: &'a Cell,
    ) -> Result<bool, AllocError> {
        match cell {
            Cell::Text(text) => Ok(is_lost(&self.names, text)),
            Cell::Null | Cell::Number(_) | Cell::Bytes => Ok(false),
        }
    }
}

/// Whether it is the table of media.
pub(crate) fn is_media(table: &Table) -> bool
    ensures { result ≡ is_media table.now.name }
{
    table.name() == "Media"
}

// Whether a name is that of a stream that isn't there.
fn is_lost(names: &BTreeSet<String>, cabinet: &str) -> bool
    ensures { result ≡ is_lost_name (contains_text names.now) cabinet.now }
{
    match packed_name(cabinet) {
        Some(name) => !names.contains(name),
        None => false,
    }
}

/// The cabinets of the table `Media` that are streams of the package by their names, and that it doesn't have. The one error is want of
/// memory.
pub fn lost_cabinets(alloc: Global, listing: &Listing) -> Result<Vec<Place>, AllocError>
    ensures { IfOk result (λ found. found.items ≡ cabinet_found listing.now) }
{
    let names = names_of_streams(alloc, listing)?;
    let rule = LostCabinets { names };
    places_where(alloc, listing, &rule)
}

#[derive(Drop)]
struct FilesBeyond {
    has_media: bool,
    last: Option<i32>,
}

impl<'a> CellRule<'a> for FilesBeyond {
    ghost speaks = { λ s t c. s.has_media && bytes_eq t.name (codes "File") && bytes_eq c.name (codes "Sequence") };

    ghost fails = { λ s _ _ _ d. is_beyond_media (reached_by s.last) d };

    fn speaks(&self, table: &'a Table, column: &'a Column) -> bool {
        self.has_media && table.name() == "File" && column.name() == "Sequence"
    }

    fn fails(
        &self,
        _table: &'a Table,
        _column: &'a Column,
        _row: &'a Row,
        cell: &'a Cell,
    ) -> Result<bool, AllocError> {
        match cell {
            Cell::Number(number) => Ok(*number < 1 || !is_reached(self.last, *number)),
            Cell::Null | Cell::Text(_) | Cell::Bytes => Ok(false),
        }
    }
}

fn is_reached(last: Option<i32>, number: i32) -> bool
    ensures { result ≡ reached_by last number }
{
    match last {
        Some(last) => number <= last,
        None => false,
    }
}

// Whether there is a table of media.
fn has_media(tables: &[Table]) -> bool
    ensures { result ≡ has_media tables.now }
{
    tables.iter().any(|table| is_media(table))
}

// The greatest number of a file that a medium has.
fn last_sequence(tables: &[Table]) -> Option<i32>
    ensures { (z : ℤ) → reached_by result z ≡ is_reached tables.now z }
{
    let mut last = None;
    for table in tables {
        last = greater(last, last_of_table(table));
    }
    last
}

// That of a table, if it is the one of media.
fn last_of_table(table: &Table) -> Option<i32>
    ensures { (z : ℤ) → reached_by result z
        ≡ (is_media table.now.name && list_any (reaches z) table.now.rows) }
{
    if !is_media(table) {
        return None;
    }
    last_in(table.rows())
}

fn last_in(rows: &[Row]) -> Option<i32>
    ensures { (z : ℤ) → reached_by result z ≡ list_any (reaches z) rows.now }
{
    let mut last = None;
    for row in rows {
        last = greater(last, last_of(row));
    }
    last
}

// The number of the last file of a medium.
fn last_of(row: &Row) -> Option<i32>
    ensures { result ≡ number_in (cell_at 1 row.now) }
{
    match row.cells().get(1) {
        Some(Cell::Number(number)) => Some(*number),
        _ => None,
    }
}

fn greater(one: Option<i32>, other: Option<i32>) -> Option<i32>
    ensures { (z : ℤ) → reached_by result z ≡ (reached_by one z || reached_by other z) }
{
    match (one, other) {
        (Some(one), Some(other)) if one < other => Some(other),
        (Some(one), _) => Some(one),
        (None, other) => other,
    }
}

/// The numbers of files in the sequence that are below 1, or beyond the last of each medium. None where there is no table `Media`, as in
/// merge modules. The one error is want of memory.
pub fn files_beyond_media(alloc: Global, listing: &Listing) -> Result<Vec<Place>, AllocError>
    ensures { IfOk result (λ found. found.items ≡ sequence_found listing.now) }
{
    let tables = listing.tables();
    let rule = FilesBeyond {
        has_media: has_media(tables),
        last: last_sequence(tables),
    };
    places_where(alloc, listing, &rule)
}
