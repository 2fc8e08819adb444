//! Rows of tables.
ghost use Rattle.std.specs.Prelude.{◌≡◌, ◌↔◌, IsTrue, map};
ghost use Rattle.msi_listing.specs.HeldCell.{cell_of};

use crate::alike::are_alike;
use crate::cell::Cell;
use std::marker::Model;

/// A row: a cell for each column.
#[derive(Drop)]
pub struct Row {
    cells: Vec<Cell>,
}

impl Model for Row {
    ghost use Rattle.std.specs.Prelude.{List, map};
    ghost use Rattle.msi_listing.specs.Content.{CellContent};
    ghost use Rattle.msi_listing.specs.HeldCell.{cell_of};

    ghost Value = { List CellContent };

    ghost view = { λ r. map cell_of r.cells.items };
}

impl Row {
    /// A row of these cells.
    pub fn new(cells: Vec<Cell>) -> Row
        ensures { result ≡ map cell_of cells.items }
    {
        Row { cells }
    }

    /// Its cells.
    pub fn cells(&self) -> &[Cell]
        ensures { map cell_of result.now ≡ self.now }
    {
        &self.cells
    }

    /// Whether both say the same.
    pub fn is_same(&self, other: &Row) -> bool
        ensures { IsTrue result ↔ (self.now ≡ other.now) }
    {
        are_alike(self.cells(), other.cells())
    }
}
