//! Rows of a table in memory, with their keys in order.
ghost use Rattle.cfb_medium.specs.declared.error.Error.TheVariants.{Memory};
ghost use Rattle.std.specs.Prelude.{◌≡◌, ◌++◌, false, true, IfErr, IfOk, MatchOption};
ghost use Rattle.msi_changes.specs.Keys.{HaveSameKeys, keys_said};
ghost use Rattle.msi_changes.specs.Stored.{stored_keys};
ghost use Rattle.msi_columns.specs.Held.{columns_of};
ghost use Rattle.msi_tables.specs.Held.{heading_of, rows_held};
ghost use Rattle.msi_tables.specs.Table.{are_distinct};

use crate::keys::{key_set, keys_of};
use cfb_medium::Error;
use msi_pool::{StringPool, ValueRef};
use msi_tables::{Column, Table};
use msi_values::BorrowedValue;
use std::alloc::Global;
use std::collections::BTreeSet;
use std::marker::Model;

/// The rows of a table as they are stored, with their keys in order.
#[derive(Drop)]
pub struct StoredRows<'a> {
    table: &'a Table,
    rows: Vec<Vec<ValueRef>>,
    pool: &'a StringPool,
    // None where a key stands twice.
    keys: Option<BTreeSet<Vec<BorrowedValue<'a>>>>,
}

impl<'a> Model for StoredRows<'a> {
    ghost use Rattle.msi_changes.specs.Applied.{with_rows};
    ghost use Rattle.msi_changes.specs.Stored.{AreOrdered, StoredTable};
    ghost use Rattle.msi_tables.specs.Held.{heading_of, rows_held};
    ghost use Rattle.msi_tables.specs.Table.{keys_of};

    ghost Value = { StoredTable };

    ghost view = { λ s. record { heading = heading_of s.table.now; rows = rows_held s.rows.items; pool = s.pool.now } };

    ghost invariant = { λ s. AreOrdered (keys_of s.pool.now.pool (with_rows (heading_of s.table.now) (rows_held s.rows.items))) s.keys };
}

impl<'a> StoredRows<'a> {
    /// These rows of a table, whose texts are in the pool, with their keys in order; a key may stand twice among them. The one error is
    /// `Memory`.
    pub fn new(
        alloc: Global,
        table: &'a Table,
        rows: Vec<Vec<ValueRef>>,
        pool: &'a StringPool,
    ) -> Result<StoredRows<'a>, Error>
        ensures ok { IfOk result (λ stored. stored
            ≡ record {
              heading = heading_of table.now;
              rows = rows_held rows.items;
              pool = pool.now;
            }) }
        ensures errors { IfErr result (λ e. e ≡ Memory) }
    {
        let listed = keys_of(alloc, pool, table.columns(), &rows)?;
        let keys = key_set(alloc, listed)?;
        Ok(StoredRows {
            table,
            rows,
            pool,
            keys,
        })
    }

    // The columns of the table.
    pub(crate) fn columns(&self) -> &[Column]
        ensures { columns_of result.now ≡ self.now.heading.columns }
    {
        self.table.columns()
    }

    // The rows.
    pub(crate) fn rows(&self) -> &[Vec<ValueRef>]
        ensures { rows_held result.now ≡ self.now.rows }
    {
        &self.rows
    }

    // Their keys, or `None` where one stands twice.
    pub(crate) fn keys(&self) -> Option<&BTreeSet<Vec<BorrowedValue<'a>>>>
        ensures { MatchOption result (are_distinct (stored_keys self.now) ≡ false)
            (λ set. (are_distinct (stored_keys self.now) ≡ true)
            × HaveSameKeys (stored_keys self.now) (keys_said set.now.keys)) }
    {
        self.keys.as_ref()
    }

    // The pool.
    pub(crate) fn pool(&self) -> &StringPool
        ensures { result.now ≡ self.now.pool }
    {
        self.pool
    }

    /// The rows with these behind them. The one error is `Memory`, which spends both.
    pub fn with(self, new_rows: Vec<Vec<ValueRef>>) -> Result<Vec<Vec<ValueRef>>, Error>
        ensures ok { IfOk result (λ all. rows_held all.items
            ≡ self.entry.rows ++ rows_held new_rows.items) }
        ensures errors { IfErr result (λ e. e ≡ Memory) }
    {
        let (mut rows, mut new_rows) = (self.rows, new_rows);
        rows.append(&mut new_rows)?;
        Ok(rows)
    }
}
