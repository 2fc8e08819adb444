//! Cells of tables.
ghost use Rattle.std.specs.Prelude.{◌≡◌, ◌↔◌, IsTrue};
ghost use Rattle.msi_listing.specs.Content.{null};
ghost use Rattle.msi_listing.specs.HeldCell.{cell_of};

/// What a cell of a table holds.
#[derive(Debug, PartialEq, Eq, Drop)]
pub enum Cell {
    /// Nothing.
    Null,
    /// A number.
    Number(i32),
    /// A text.
    Text(String),
    /// Bytes, which stand in a stream.
    Bytes,
}

impl Cell {
    /// Whether it holds nothing.
    pub fn is_null(&self) -> bool
        ensures { IsTrue result ↔ (cell_of self.now ≡ null) }
    {
        matches!(self, Cell::Null)
    }
}
