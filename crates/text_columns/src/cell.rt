//! A cell of a table.
ghost use Rattle.std.specs.Prelude.{◌≡◌};
ghost use Rattle.text_columns.specs.Columns.{width_of};

/// The side of its column at which a text stands.
#[derive(Clone, Copy, Debug, PartialEq, Eq)]
pub enum Side {
    Left,
    Right,
}

/// A cell of a table: its text, which is one line, and its side.
#[derive(Debug, Drop)]
pub struct Cell {
    pub text: String,
    pub side: Side,
}

impl Cell {
    // How many characters it has.
    pub(crate) fn width(&self) -> usize
        ensures { result ≡ width_of self.now }
    {
        self.text.chars().count()
    }
}
