//! Columns of exported tables.
ghost use Rattle.std.specs.Prelude.{◌≡◌};
ghost use Rattle.idt_tables.specs.Tables.{kind_of};

use idt_rows::Kind;
use idt_tables::{ColumnType, Letter};

/// A column of an exported table.
#[derive(Drop)]
pub struct IdtColumn {
    /// Its name.
    pub name: String,
    /// Its type.
    pub coltype: ColumnType,
    /// Whether it belongs to the key.
    pub is_key: bool,
}

impl IdtColumn {
    /// What its cells are.
    pub(crate) fn kind(&self) -> Kind
        ensures { result ≡ kind_of self.now.coltype.letter }
    {
        match self.coltype.letter {
            Letter::Text | Letter::Localized => Kind::Text,
            Letter::Number => Kind::Number,
            Letter::Bytes => Kind::File,
        }
    }
}
