//! Cells of columns that are named for another table, and that lead to no row of it.
ghost use Rattle.std.specs.Prelude.{◌≡◌, not, ◌&&◌, IfOk, is_some, false, true};
ghost use Rattle.std.specs.List.{list_all};
ghost use Rattle.std.specs.Option.{option_copied, option_map_or};
ghost use Rattle.msi_listing.specs.HeldCell.{cell_of};
ghost use Rattle.package_rules.specs.Asked.{asks};
ghost use Rattle.package_rules.specs.Cells.{is_null};
ghost use Rattle.package_rules.specs.Firsts.{is_in, said_at};
ghost use Rattle.package_rules.specs.Refers.{all_targets, refers_found, target_of, target_of_column};
ghost use Rattle.package_rules.specs.Said.{tables_in};

use crate::asked::{ColumnAt, add_parts};
use crate::cells::{CellRule, places_where};
use crate::entries::{CellKey, entries_in, is_in};
use crate::foreign::{row_of, tables_of};
use crate::names::ColumnName;
use crate::place::Place;
use crate::said::said_in;
use msi_listing::{Cell, Column, Listing, Row, Table};
use std::alloc::{AllocError, Global};
use std::collections::{BTreeMap, BTreeSet};

#[derive(Drop)]
struct References<'a> {
    said: BTreeMap<ColumnName<'a>, &'a Row>,
    entries: BTreeSet<CellKey<'a>>,
}

impl<'a> CellRule<'a> for References<'a> {
    ghost speaks = { λ s t c. is_some (target_of t.name c.name) && not (option_map_or (λ v. is_some (tables_in v)) (said_at s.said t.name c.name) false) };

    ghost fails = { λ s t c _ d. not (is_null d) && option_map_or (λ target. not (is_in s.entries target 1 d)) (target_of t.name c.name) false };

    fn speaks(&self, table: &'a Table, column: &'a Column) -> bool {
        target_of(table.name(), column.name()).is_some() && !is_said(&self.said, table, column)
    }

    fn fails(
        &self,
        table: &'a Table,
        column: &'a Column,
        _row: &'a Row,
        cell: &'a Cell,
    ) -> Result<bool, AllocError> {
        if matches!(cell, Cell::Null) {
            return Ok(false);
        }
        match target_of(table.name(), column.name()) {
            Some(target) => Ok(!is_in(&self.entries, target, 1, cell)),
            None => Ok(false),
        }
    }
}

// Whether `_Validation` names tables for a column.
fn is_said<'a>(
    said: &BTreeMap<ColumnName<'a>, &'a Row>,
    table: &'a Table,
    column: &'a Column,
) -> bool
    ensures { result ≡ option_map_or (λ v. is_some (tables_in v))
        (said_at said.now table.now.name column.now.name) false }
{
    match row_of(said, table, column) {
        Some(row) => tables_of(row).is_some(),
        None => false,
    }
}

// The table for which a column is named.
fn target_of(table: &str, column: &str) -> Option<&'static str>
    ensures { option_copied result ≡ target_of table.now column.now }
{
    if table == "Directory" && column == "Directory_Parent" {
        return Some("Directory");
    }
    if table == "Feature" && column == "Feature_Parent" {
        return Some("Feature");
    }
    target_of_column(column)
}

fn target_of_column(column: &str) -> Option<&'static str>
    ensures { option_copied result ≡ target_of_column column.now }
{
    if column == "Component_" {
        return Some("Component");
    }
    if column == "Feature_" {
        return Some("Feature");
    }
    if column == "File_" {
        return Some("File");
    }
    if column == "Directory_" {
        return Some("Directory");
    }
    if column == "Icon_" {
        return Some("Icon");
    }
    if column == "Dialog_" {
        return Some("Dialog");
    }
    None
}

// The first columns of the tables for which columns are named.
fn asked_targets<'a>(alloc: Global) -> Result<BTreeSet<ColumnAt<'a>>, AllocError>
    ensures { IfOk result (λ asked. list_all (λ table. asks asked table 1) all_targets ≡ true) }
{
    let mut asked = BTreeSet::new(alloc);
    let tables = [
        "Component",
        "Feature",
        "File",
        "Directory",
        "Icon",
        "Dialog",
    ];
    add_parts(&mut asked, &tables, 1)?;
    Ok(asked)
}

/// The cells that hold something, in a column that is named for another table, as `Component_` is, and that aren't in the first column of
/// that table. Columns for which `_Validation` names tables are passed over. The one error is want of memory.
pub fn lost_references(alloc: Global, listing: &Listing) -> Result<Vec<Place>, AllocError>
    ensures { IfOk result (λ found. found.items ≡ refers_found listing.now) }
{
    let said = said_in(alloc, listing)?;
    let asked = asked_targets(alloc)?;
    let entries = entries_in(alloc, listing, &asked)?;
    let rule = References { said, entries };
    places_where(alloc, listing, &rule)
}
