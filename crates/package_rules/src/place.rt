//! Where a rule isn't kept.
ghost use Rattle.std.specs.Prelude.{◌≡◌, ◌++◌, OnOk};
ghost use Rattle.package_rules.specs.Places.{place_if};

use std::alloc::AllocError;

/// The place of a cell in a listing: the numbers of its table, its column and its row, from 0.
#[derive(Clone, Copy, Debug, PartialEq, Eq)]
pub struct Place {
    /// The number of the table.
    pub table: usize,
    /// The number of the column.
    pub column: usize,
    /// The number of the row.
    pub row: usize,
}

/// Adds a place, if it is one.
pub fn push_if(found: &mut Vec<Place>, is_one: bool, place: Place) -> Result<(), AllocError>
    ensures { OnOk result (found.new.items
        ≡ found.old.items ++ place_if is_one place.table place.column place.row) }
{
    if !is_one {
        return Ok(());
    }
    found.push(place)?;
    Ok(())
}
