//! Cells where they stand, in an order.
ghost use Rattle.std.specs.Prelude.{◌≡◌, ◌++◌, IfOk, OnOk, map};
ghost use Rattle.msi_listing.specs.HeldCell.{cell_of};
ghost use Rattle.package_rules.specs.Keys.{key_cells};
ghost use Rattle.package_rules.specs.Parts.{said};

use msi_listing::{Cell, Column};
use std::alloc::{AllocError, Global};

/// What a cell holds, whose text stands there.
#[derive(Clone, Copy, Debug, PartialEq, Eq, PartialOrd, Ord)]
pub enum Part<'a> {
    /// Nothing.
    Null,
    /// A number.
    Number(i32),
    /// A text.
    Text(&'a str),
    /// Bytes.
    Bytes,
}

/// What a cell holds.
pub(crate) fn part_of(cell: &Cell) -> Part<'_>
    ensures { said result ≡ cell_of cell.now }
{
    match cell {
        Cell::Null => Part::Null,
        Cell::Number(number) => Part::Number(*number),
        Cell::Text(text) => Part::Text(text.as_str()),
        Cell::Bytes => Part::Bytes,
    }
}

/// The cells of a row's key. The one error is want of memory.
pub(crate) fn key_of<'a>(
    alloc: Global,
    columns: &[Column],
    cells: &'a [Cell],
) -> Result<Vec<Part<'a>>, AllocError>
    ensures { IfOk result (λ key. map said key.items
        ≡ key_cells columns.now (map cell_of cells.now)) }
{
    let mut key = Vec::new(alloc);
    add_key_of(columns, cells, &mut key)?;
    Ok(key)
}

// Adds the cells of a row's key.
fn add_key_of<'a>(
    columns: &[Column],
    cells: &'a [Cell],
    key: &mut Vec<Part<'a>>,
) -> Result<(), AllocError>
    ensures { OnOk result (map said key.new.items
        ≡ map said key.old.items ++ key_cells columns.now (map cell_of cells.now)) }
{
    match columns {
        [] => Ok(()),
        [column, columns @ ..] => match cells {
            [] => Ok(()),
            [cell, cells @ ..] => {
                if column.is_key() {
                    key.push(part_of(cell))?;
                }
                add_key_of(columns, cells, key)
            }
        },
    }
}
