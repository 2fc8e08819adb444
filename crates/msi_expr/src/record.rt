//! Where an expression finds the values of columns, and what it is worth.
ghost use Rattle.msi_expr.specs.Conditions.{filled_up};
ghost use Rattle.msi_expr.specs.Worths.{worth_said};
ghost use Rattle.msi_tables.specs.Held.{heading_of};
ghost use Rattle.msi_tables.specs.Row.{Cells, cell_named, cells_of, named_cells};
ghost use Rattle.msi_tables.specs.Table.{row_data};
ghost use Rattle.msi_texts.specs.Results.{ReturnsOrOutOfMemory};
ghost use Rattle.msi_values.specs.Borrowed.{borrowed_datum};
ghost use Rattle.msi_values.specs.Datum.{null, counts_as_true, datum_of};
ghost use Rattle.std.specs.Prelude.{◌≡◌, length, option_map, slice_index_or, Ok};

use cfb_medium::Error;
use msi_pool::{StringPool, ValueRef};
use msi_tables::{Row, Table};
use msi_values::{BorrowedValue, Value};
use std::alloc::Global;

// What an expression is worth: a value that stands elsewhere, or one that was made.
#[derive(Drop)]
pub(crate) enum Worth<'a> {
    Borrowed(BorrowedValue<'a>),
    Made(Value),
}

impl Worth<'_> {
    // The value where it stands.
    pub(crate) fn as_borrowed(&self) -> BorrowedValue<'_>
        ensures { borrowed_datum result ≡ worth_said self.now }
    {
        match self {
            Worth::Borrowed(value) => *value,
            Worth::Made(value) => value.as_borrowed(),
        }
    }

    // Whether it counts as true.
    pub(crate) fn to_bool(&self) -> bool
        ensures { result ≡ counts_as_true (worth_said self.now) }
    {
        self.as_borrowed().to_bool()
    }

    // A value of its own.
    pub(crate) fn into_value(self, alloc: Global) -> Result<Value, Error>
        ensures { ReturnsOrOutOfMemory datum_of result (Ok (worth_said self.entry)) }
    {
        match self {
            Worth::Borrowed(value) => value.to_value(alloc),
            Worth::Made(value) => Ok(value),
        }
    }
}

// Values under the names of columns.
pub(crate) trait Record {
    ghost cells: { Self → Cells };

    /// The value of the first column of a name.
    fn value(&self, name: &str) -> Option<BorrowedValue<'_>>
        ensures { option_map borrowed_datum result ≡ cell_named name.now (cells self.now) };
}

impl Record for Row {
    ghost cells = { λ row. cells_of row };

    fn value(&self, name: &str) -> Option<BorrowedValue<'_>> {
        match self.get(name) {
            Some(value) => Some(value.as_borrowed()),
            None => None,
        }
    }
}

// A row of cells as its table has it: with nulls behind those that it has.
#[derive(Clone, Copy)]
pub(crate) struct StoredRow<'a> {
    pub(crate) pool: &'a StringPool,
    pub(crate) table: &'a Table,
    pub(crate) cells: &'a [ValueRef],
}

impl Record for StoredRow<'_> {
    ghost cells = { λ row. named_cells (heading_of row.table.now).columns (filled_up (length (heading_of row.table.now).columns) (row_data row.pool.now.pool row.cells.now)) };

    fn value(&self, name: &str) -> Option<BorrowedValue<'_>> {
        match self.table.index_for_column_name(name) {
            Some(place) => Some(value_at(self.pool, self.cells, place)),
            None => None,
        }
    }
}

// The value at a place of a row; past its end null.
pub(crate) fn value_at<'a>(
    pool: &'a StringPool,
    cells: &[ValueRef],
    place: usize,
) -> BorrowedValue<'a>
    ensures { borrowed_datum result ≡ slice_index_or (row_data pool.now.pool cells.now) place null }
{
    cells
        .get(place)
        .copied()
        .unwrap_or(ValueRef::Null)
        .as_borrowed(pool)
}
