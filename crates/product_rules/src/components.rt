//! Codes of components that are no GUIDs.
ghost use Rattle.std.specs.Prelude.{◌≡◌, ◌&&◌, IfOk, bytes_eq, codes};
ghost use Rattle.product_rules.specs.Components.{guid_found, is_no_guid};

use crate::texts::is_guid;
use msi_listing::{Cell, Column, Listing, Row, Table};
use package_rules::{CellRule, Place, places_where, words_of};
use std::alloc::{AllocError, Global};

struct ComponentCodes;

impl<'a> CellRule<'a> for ComponentCodes {
    ghost speaks = { λ _ t c. bytes_eq t.name (codes "Component") && bytes_eq c.name (codes "ComponentId") };

    ghost fails = { λ _ _ _ _ d. is_no_guid d };

    fn speaks(&self, table: &'a Table, column: &'a Column) -> bool {
        table.name() == "Component" && column.name() == "ComponentId"
    }

    fn fails(
        &self,
        _table: &'a Table,
        _column: &'a Column,
        _row: &'a Row,
        cell: &'a Cell,
    ) -> Result<bool, AllocError> {
        match words_of(Some(cell)) {
            Some(text) => Ok(!is_guid(text)),
            None => Ok(false),
        }
    }
}

/// The codes of components that are no GUIDs. The one error is want of memory.
pub fn misspelled_component_codes(
    alloc: Global,
    listing: &Listing,
) -> Result<Vec<Place>, AllocError>
    ensures { IfOk result (λ found. found.items ≡ guid_found listing.now) }
{
    places_where(alloc, listing, &ComponentCodes)
}
