//! Nulls in columns that take none.
ghost use Rattle.std.specs.Prelude.{◌≡◌, not, IfOk};
ghost use Rattle.package_rules.specs.Cells.{is_null};
ghost use Rattle.package_rules.specs.Rules.{nullable_found};

use crate::cells::{CellRule, places_where};
use crate::place::Place;
use msi_listing::{Cell, Column, Listing, Row, Table};
use std::alloc::{AllocError, Global};

struct UntakenNulls;

impl<'a> CellRule<'a> for UntakenNulls {
    ghost speaks = { λ _ _ c. not c.nullable };

    ghost fails = { λ _ _ _ _ d. is_null d };

    fn speaks(&self, _table: &'a Table, column: &'a Column) -> bool {
        !column.is_nullable()
    }

    fn fails(
        &self,
        _table: &'a Table,
        _column: &'a Column,
        _row: &'a Row,
        cell: &'a Cell,
    ) -> Result<bool, AllocError> {
        Ok(matches!(cell, Cell::Null))
    }
}

/// The cells that hold nothing, though their columns take no null. The one error is want of memory.
pub fn untaken_nulls(alloc: Global, listing: &Listing) -> Result<Vec<Place>, AllocError>
    ensures { IfOk result (λ found. found.items ≡ nullable_found listing.now) }
{
    places_where(alloc, listing, &UntakenNulls)
}
