//! Columns of tables.
ghost use Rattle.std.specs.Prelude.{◌≡◌, ◌↔◌, IsTrue, string_bytes};

use std::marker::Model;

/// Which values a column has.
#[derive(Clone, Copy, Debug, PartialEq, Eq)]
pub enum Kind {
    /// Numbers of two bytes.
    Int16,
    /// Numbers of four bytes.
    Int32,
    /// Texts of at most so many characters; 0 sets no bound.
    Str(usize),
    /// Streams of bytes, which stand outside the table.
    Binary,
}

/// What is marked at a column.
#[derive(Clone, Copy, Debug, PartialEq, Eq)]
pub struct Marks {
    /// Its texts may be translated.
    pub localizable: bool,
    /// It takes null.
    pub nullable: bool,
    /// It belongs to the key.
    pub key: bool,
}

/// A column: its name, which values it has, and what is marked at it.
#[derive(Drop)]
pub struct Column {
    name: String,
    kind: Kind,
    marks: Marks,
}

impl Model for Column {
    ghost use Rattle.msi_listing.specs.Content.{ColumnContent};

    ghost Value = { ColumnContent };

    ghost use Rattle.msi_listing.specs.HeldColumn.{column_of};

    ghost view = { column_of };
}

impl Column {
    /// A column of these parts.
    pub fn new(name: String, kind: Kind, marks: Marks) -> Column
        ensures { result
            ≡ record {
              name = string_bytes name;
              kind = kind;
              localizable = marks.localizable;
              nullable = marks.nullable;
              key = marks.key;
            } }
    {
        Column { name, kind, marks }
    }

    /// Its name.
    pub fn name(&self) -> &str
        ensures { result.now ≡ self.now.name }
    {
        &self.name
    }

    /// Which values it has.
    pub fn kind(&self) -> Kind
        ensures { result ≡ self.now.kind }
    {
        self.kind
    }

    /// Whether its texts may be translated.
    pub fn is_localizable(&self) -> bool
        ensures { result ≡ self.now.localizable }
    {
        self.marks.localizable
    }

    /// Whether it takes null.
    pub fn is_nullable(&self) -> bool
        ensures { result ≡ self.now.nullable }
    {
        self.marks.nullable
    }

    /// Whether it belongs to the key.
    pub fn is_key(&self) -> bool
        ensures { result ≡ self.now.key }
    {
        self.marks.key
    }

    /// Whether both say the same.
    pub fn is_same(&self, other: &Column) -> bool
        ensures { IsTrue result ↔ (self.now ≡ other.now) }
    {
        self.name == other.name && self.kind == other.kind && self.marks == other.marks
    }
}
