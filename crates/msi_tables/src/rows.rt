//! Rows of a table, one after the other.
#![tactic(auto, unfolding(crate::specs::Held::heading_of, crate::specs::RowsLeft::rows_columns, crate::specs::RowsLeft::rows_left))]

ghost use Rattle.std.specs.Prelude.{◌≡◌, length};
ghost use Rattle.std.specs.Iterator.{YieldsFirst, item_count};
ghost use Rattle.std.specs.List.{All};
ghost use Rattle.std.specs.Rc.{rc_value};
ghost use Rattle.msi_columns.specs.Held.{columns_of};
ghost use Rattle.msi_tables.specs.Held.{heading_of};
ghost use Rattle.msi_tables.specs.RowsLeft.{rows_columns, rows_left};

use crate::{Row, Table};
use msi_columns::Column;
use std::iter::ExactSizeIterator;
use std::rc::Rc;
use std::vec::IntoIter;

/// The rows of a table that are still to come.
#[derive(Drop)]
pub struct Rows {
    table: Rc<Table>,
    left: IntoIter<Row>,
}

impl Rows {
    /// Rows of a table, each with a value for each column.
    pub fn new(table: Rc<Table>, rows: Vec<Row>) -> Rows
        requires { All (λ row. length row.values ≡ length (heading_of (rc_value table)).columns)
            rows.items }
        ensures columns { rows_columns result ≡ (heading_of (rc_value table)).columns }
        ensures left { rows_left result ≡ rows.items }
    {
        Rows {
            table,
            left: rows.into_iter(),
        }
    }

    /// The columns of the table.
    pub fn columns(&self) -> &[Column]
        ensures { columns_of result.now ≡ rows_columns self.now }
    {
        self.table.columns()
    }
}

impl Iterator for Rows {
    type Item = Row;

    ghost next_gives = { YieldsFirst rows_left };

    ghost remaining = { item_count rows_left };

    fn next(&mut self) -> Option<Row> {
        self.left.next()
    }
}

impl ExactSizeIterator for Rows {
    fn len(&self) -> usize {
        self.left.len()
    }
}
