//! Tables.
ghost use Rattle.std.specs.Prelude.{◌≡◌, ◌↔◌, IsTrue, string_bytes};

use crate::alike::{are_alike, is_same_text};
use crate::column::Column;
use crate::row::Row;
use std::marker::Model;

/// A table: its name, its columns and its rows.
#[derive(Drop)]
pub struct Table {
    name: String,
    columns: Vec<Column>,
    rows: Vec<Row>,
}

impl Model for Table {
    ghost use Rattle.msi_listing.specs.Content.{TableContent};

    ghost Value = { TableContent };

    ghost use Rattle.msi_listing.specs.HeldTable.{table_of};

    ghost view = { table_of };
}

impl Table {
    /// A table of these parts.
    pub fn new(name: String, columns: Vec<Column>, rows: Vec<Row>) -> Table
        ensures { result
            ≡ record { name = string_bytes name; columns = columns.items; rows = rows.items } }
    {
        Table {
            name,
            columns,
            rows,
        }
    }

    /// Its name.
    pub fn name(&self) -> &str
        ensures { result.now ≡ self.now.name }
    {
        &self.name
    }

    /// Its columns.
    pub fn columns(&self) -> &[Column]
        ensures { result.now ≡ self.now.columns }
    {
        &self.columns
    }

    /// Its rows.
    pub fn rows(&self) -> &[Row]
        ensures { result.now ≡ self.now.rows }
    {
        &self.rows
    }

    /// Whether both say the same.
    pub fn is_same(&self, other: &Table) -> bool
        ensures { IsTrue result ↔ (self.now ≡ other.now) }
    {
        if !is_same_text(self.name(), other.name()) {
            return false;
        }
        if !are_alike(self.columns(), other.columns()) {
            return false;
        }
        are_alike(self.rows(), other.rows())
    }
}
