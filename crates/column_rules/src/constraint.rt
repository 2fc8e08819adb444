//! Values that break what `_Validation` states of their columns.
ghost use Rattle.std.specs.Prelude.{◌≡◌, not, ◌&&◌, ◌||◌, is_some, IfOk, false};
ghost use Rattle.std.specs.Option.{option_map_or};
ghost use Rattle.msi_listing.specs.HeldCell.{cell_of};
ghost use Rattle.package_rules.specs.Firsts.{said_at};
ghost use Rattle.column_rules.specs.Constraints.{asks, breaks, constraint_found};

use crate::stated::{judged_in, leaves_free, names_set, names_tables, sets_bounds};
use crate::values::{is_beyond, is_misspelled, is_unlisted};
use msi_listing::{Cell, Column, Listing, Row, Table};
use package_rules::{CellRule, ColumnName, Place, places_where, row_of, said_in};
use std::alloc::{AllocError, Global};
use std::collections::BTreeMap;

/// What `_Validation` may state of the values of a column, beside the tables whose keys they are.
#[derive(Clone, Copy, Debug, PartialEq, Eq)]
pub enum Constraint {
    /// A list of the values.
    Set,
    /// The least and the greatest value.
    Range,
    /// The format of the texts.
    Category,
}

#[derive(Drop)]
struct Stated<'a> {
    alloc: Global,
    said: BTreeMap<ColumnName<'a>, &'a Row>,
    constraint: Constraint,
}

impl<'a> CellRule<'a> for Stated<'a> {
    ghost speaks = { λ s t c. option_map_or (asks s.constraint) (said_at s.said t.name c.name) false };

    ghost fails = { λ s t c _ d. option_map_or (λ v. breaks s.constraint v d) (said_at s.said t.name c.name) false };

    fn speaks(&self, table: &'a Table, column: &'a Column) -> bool {
        match row_of(&self.said, table, column) {
            Some(row) => asks(self.constraint, row),
            None => false,
        }
    }

    fn fails(
        &self,
        table: &'a Table,
        column: &'a Column,
        _row: &'a Row,
        cell: &'a Cell,
    ) -> Result<bool, AllocError> {
        match row_of(&self.said, table, column) {
            Some(row) => breaks(self.alloc, self.constraint, row, cell),
            None => Ok(false),
        }
    }
}

// Whether a row states this, and nothing else that a value may be instead.
fn asks(constraint: Constraint, row: &Row) -> bool
    ensures { result ≡ asks constraint row.now }
{
    if names_tables(row) {
        return false;
    }
    match constraint {
        Constraint::Set => names_set(row) && !sets_bounds(row) && !leaves_free(row),
        Constraint::Range => sets_bounds(row) && !names_set(row) && !leaves_free(row),
        Constraint::Category => { judged_in(row).is_some() && !names_set(row) && !sets_bounds(row) }
    }
}

// Whether a value breaks it.
fn breaks(alloc: Global, constraint: Constraint, row: &Row, cell: &Cell) -> Result<bool, AllocError>
    ensures { IfOk result (λ is_so. is_so ≡ breaks constraint row.now (cell_of cell.now)) }
{
    match constraint {
        Constraint::Set => is_unlisted(alloc, row, cell),
        Constraint::Range => Ok(is_beyond(row, cell)),
        Constraint::Category => Ok(is_misspelled(row, cell)),
    }
}

/// The values that break what `_Validation` states of their columns. A column is passed over where its row of `_Validation` names tables,
/// or states something else that a value may be instead. The one error is want of memory.
pub fn broken_constraints(
    alloc: Global,
    listing: &Listing,
    constraint: Constraint,
) -> Result<Vec<Place>, AllocError>
    ensures { IfOk result (λ found. found.items ≡ constraint_found constraint listing.now) }
{
    let said = said_in(alloc, listing)?;
    let rule = Stated {
        alloc,
        said,
        constraint,
    };
    places_where(alloc, listing, &rule)
}
