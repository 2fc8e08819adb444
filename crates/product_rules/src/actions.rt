//! Actions of sequences that don't exist.
ghost use Rattle.std.specs.Prelude.{◌≡◌, ◌&&◌, ◌||◌, IfOk, bytes_eq, codes};
ghost use Rattle.std.specs.List.{list_any};
ghost use Rattle.msi_listing.specs.HeldCell.{cell_of};
ghost use Rattle.package_rules.specs.Asked.{asks};
ghost use Rattle.package_rules.specs.Firsts.{is_in};
ghost use Rattle.product_rules.specs.Actions.{action_found, asks_actions, is_sequence, is_standard, is_unknown};

use crate::standard::STANDARD_ACTIONS;
use msi_listing::{Cell, Column, Listing, Row, Table};
use package_rules::{
    CellKey, CellRule, ColumnAt, Place, add_parts, entries_in, is_in, places_where, words_of,
};
use std::alloc::{AllocError, Global};
use std::collections::BTreeSet;

#[derive(Drop)]
struct UnknownActions<'a> {
    entries: BTreeSet<CellKey<'a>>,
}

impl<'a> CellRule<'a> for UnknownActions<'a> {
    ghost speaks = { λ _ t c. is_sequence t.name && bytes_eq c.name (codes "Action") };

    ghost fails = { λ s _ _ _ d. is_unknown (is_in s.entries) d };

    fn speaks(&self, table: &'a Table, column: &'a Column) -> bool {
        is_sequence(table.name()) && column.name() == "Action"
    }

    fn fails(
        &self,
        _table: &'a Table,
        _column: &'a Column,
        _row: &'a Row,
        cell: &'a Cell,
    ) -> Result<bool, AllocError> {
        Ok(is_unknown(&self.entries, cell))
    }
}

// Whether a cell names an action, and there is none of this name.
fn is_unknown<'a>(entries: &BTreeSet<CellKey<'a>>, cell: &'a Cell) -> bool
    ensures { result ≡ is_unknown (is_in entries.now) (cell_of cell.now) }
{
    let Some(text) = words_of(Some(cell)) else {
        return false;
    };
    let is_custom = is_in(entries, "CustomAction", 1, cell);
    let is_dialog = is_in(entries, "Dialog", 1, cell);
    !is_standard(text) && !is_custom && !is_dialog
}

// Whether a table is one of the six sequences.
fn is_sequence(table: &str) -> bool
    ensures { result ≡ is_sequence table.now }
{
    table == "AdminExecuteSequence"
        || table == "AdminUISequence"
        || table == "AdvtExecuteSequence"
        || table == "AdvtUISequence"
        || table == "InstallExecuteSequence"
        || table == "InstallUISequence"
}

fn is_standard(action: &str) -> bool
    ensures { result ≡ is_standard action.now }
{
    is_among(&STANDARD_ACTIONS, action)
}

fn is_among(names: &[&str], action: &str) -> bool
    ensures { result ≡ list_any (λ s. bytes_eq s.now action.now) names.now }
{
    names.iter().any(|name| *name == action)
}

// The first columns of the tables whose keys are actions.
fn asked_actions<'a>(alloc: Global) -> Result<BTreeSet<ColumnAt<'a>>, AllocError>
    ensures { IfOk result asks_actions }
{
    let mut asked = BTreeSet::new(alloc);
    let tables = ["CustomAction", "Dialog"];
    add_parts(&mut asked, &tables, 1)?;
    Ok(asked)
}

/// The actions of the six sequences that are no standard actions, no custom actions and no dialogs. The one error is want of memory.
pub fn unknown_actions(alloc: Global, listing: &Listing) -> Result<Vec<Place>, AllocError>
    ensures { IfOk result (λ found. found.items ≡ action_found listing.now) }
{
    let asked = asked_actions(alloc)?;
    let entries = entries_in(alloc, listing, &asked)?;
    let rule = UnknownActions { entries };
    places_where(alloc, listing, &rule)
}
