//! Inserts.
ghost use Rattle.cfb_medium.specs.declared.error.Error.TheVariants.{Memory};
ghost use Rattle.std.specs.Prelude.{◌≡◌, ◌⊎◌, ◌++◌, [], ◌∷◌, false, true, IfErr, IfOk, OnErr, OnOk, Err, Ok, map};
ghost use Rattle.msi_texts.specs.Results.{ReturnsOrOutOfMemory};
ghost use Rattle.msi_values.specs.Datum.{data_of};
ghost use Rattle.msi_changes.specs.Applied.{with_rows, IsInsertAccepted};
ghost use Rattle.msi_changes.specs.Prepared.{pool_after, AreChangesFor};
ghost use Rattle.msi_changes.specs.Changes.{inserted};
ghost use Rattle.msi_changes.specs.Said.{insert_name, insert_rows};
ghost use Rattle.msi_tables.specs.Held.{heading_of, rows_held};
ghost use Rattle.msi_tables.specs.Rows.{AreRowsWritable};

use crate::counting::count_rows;
use crate::keys::{check_new_keys, keys_of_values};
use crate::printing::fmt_rows;
use crate::stored::StoredRows;
use crate::validity::are_rows;
use cfb_medium::Error;
use msi_pool::{PoolChanges, StringPool, ValueRef};
use msi_tables::Table;
use msi_values::Value;
use std::alloc::Global;
use std::fmt;

// A table has so many rows at most.
const MAX_ROWS: usize = 65536;

/// Adds rows to a table.
#[derive(Drop)]
pub struct Insert {
    table_name: String,
    new_rows: Vec<Vec<Value>>,
}

impl Insert {
    /// An insert of no rows into the table of this name. `Memory` where there is no room for the name.
    pub fn into(alloc: Global, table_name: &str) -> Result<Insert, Error>
        ensures name { ReturnsOrOutOfMemory insert_name result (Ok table_name.now) }
        ensures rows { IfOk result (λ insert. insert_rows insert ≡ []) }
    {
        Ok(Insert {
            table_name: String::from_str(alloc, table_name)?,
            new_rows: Vec::new(alloc),
        })
    }

    /// The same with one more row behind the others. `Memory` spends it.
    pub fn row(self, values: Vec<Value>) -> Result<Insert, Error>
        ensures name { IfOk result (λ insert. insert_name insert ≡ insert_name self) }
        ensures rows { ReturnsOrOutOfMemory insert_rows result
            (Ok (insert_rows self ++ data_of values.items ∷ [])) }
    {
        let Insert {
            table_name,
            mut new_rows,
        } = self;
        new_rows.push(values)?;
        Ok(Insert {
            table_name,
            new_rows,
        })
    }

    /// The same with these rows behind the others. `Memory` spends it.
    pub fn rows(self, rows: Vec<Vec<Value>>) -> Result<Insert, Error>
        ensures name { IfOk result (λ insert. insert_name insert ≡ insert_name self) }
        ensures rows { ReturnsOrOutOfMemory insert_rows result
            (Ok (insert_rows self ++ map (λ row. data_of row.items) rows.items)) }
    {
        let Insert {
            table_name,
            mut new_rows,
        } = self;
        let mut rows = rows;
        new_rows.append(&mut rows)?;
        Ok(Insert {
            table_name,
            new_rows,
        })
    }

    /// The name of the table.
    pub fn table_name(&self) -> &str
        ensures { result.now ≡ insert_name self.now }
    {
        self.table_name.as_str()
    }

    /// The rows, in order.
    pub fn new_rows(&self) -> &[Vec<Value>]
        ensures { map (λ row. data_of row.items) result.now ≡ insert_rows self.now }
    {
        &self.new_rows
    }

    /// The new rows as they are to be stored behind the others, and what a draft of the pool changed in which their texts were counted
    /// row by row. Only their keys are looked up among those stored. In this order: `InvalidInput` for a row that has not a value
    /// for each column, or one that its column doesn't take; `InvalidData` where a key is stored twice; for each new key in turn
    /// `AlreadyExists` where it is stored, `InvalidInput` where an earlier new row has it; `InvalidInput` for more than 65536 rows,
    /// and where the pool is full.
    pub fn prepare<'a>(
        &'a self,
        alloc: Global,
        stored: &StoredRows<'a>,
    ) -> Result<(Vec<Vec<ValueRef>>, PoolChanges), Error>
        ensures inserts { ReturnsOrOutOfMemory
            (λ r. (stored.now.rows ++ rows_held r.0.items, pool_after stored.now.pool r.1)) result
            (inserted true stored.now.pool.pool (with_rows stored.now.heading stored.now.rows)
            (insert_rows self.now)) }
        ensures changes { IfOk result (λ r. AreChangesFor stored.now.pool r.1) }
        ensures shape { AreRowsWritable stored.now.pool.pool.long stored.now.heading.columns
            stored.now.rows
            → IfOk result (λ r. AreRowsWritable stored.now.pool.pool.long
            stored.now.heading.columns (stored.now.rows ++ rows_held r.0.items)) }
    {
        self.prepared_rows(alloc, stored)
    }

    /// The rows of a table with the new ones behind them, and the pool takes the changes over. Refused as by `prepare`. After an
    /// error, `Memory` among them, it is as it was.
    pub fn apply(
        &self,
        alloc: Global,
        table: &Table,
        rows: Vec<Vec<ValueRef>>,
        pool: &mut StringPool,
    ) -> Result<Vec<Vec<ValueRef>>, Error>
        ensures inserts { ReturnsOrOutOfMemory (λ all. (rows_held all.items, pool.new.pool)) result
            (inserted true pool.old.pool (with_rows (heading_of table.now) (rows_held rows.items))
            (insert_rows self.now)) }
        ensures shape { AreRowsWritable pool.old.pool.long (heading_of table.now).columns
            (rows_held rows.items)
            → IfOk result
            (λ after. AreRowsWritable pool.old.pool.long (heading_of table.now).columns
            (rows_held after.items)) }
        ensures marked { pool.new.modified ≡ false → pool.new ≡ pool.old }
        ensures after_error { OnErr result (pool.new ≡ pool.old) }
    {
        let stored = StoredRows::new(alloc, table, rows, pool)?;
        let (new_rows, changes) = match self.prepare(alloc, &stored) {
            Err(error) => return Err(error),
            Ok(prepared) => prepared,
        };
        let rows = stored.with(new_rows)?;
        match pool.adopt(changes) {
            Err(error) => Err(error),
            Ok(()) => Ok(rows),
        }
    }

    // The same without a word on which rows can be written.
    fn prepared_rows<'a>(
        &'a self,
        alloc: Global,
        stored: &StoredRows<'a>,
    ) -> Result<(Vec<Vec<ValueRef>>, PoolChanges), Error>
        ensures inserts { ReturnsOrOutOfMemory
            (λ r. (stored.now.rows ++ rows_held r.0.items, pool_after stored.now.pool r.1)) result
            (inserted true stored.now.pool.pool (with_rows stored.now.heading stored.now.rows)
            (insert_rows self.now)) }
        ensures changes { IfOk result (λ r. AreChangesFor stored.now.pool r.1) }
    {
        match judge(alloc, stored, &self.new_rows) {
            Err(error) => return Err(error),
            Ok(()) => {}
        }
        let mut counted = stored.pool().draft();
        let new_rows = match count_rows(alloc, &mut counted, &self.new_rows) {
            Err(error) => return Err(error),
            Ok(new_rows) => new_rows,
        };
        let changes = counted.into_changes();
        Ok((new_rows, changes))
    }
}

// Whether the table takes the rows behind those that it has, as far as no text is counted.
fn judge<'a>(
    alloc: Global,
    stored: &StoredRows<'a>,
    new_rows: &'a [Vec<Value>],
) -> Result<(), Error>
    ensures accepted { OnOk result (IsInsertAccepted stored.now.pool.pool
        (with_rows stored.now.heading stored.now.rows)
        (map (λ row. data_of row.items) new_rows.now)) }
    ensures refused_only_if { IfErr result (λ e. (e ≡ Memory)
        ⊎ (inserted true stored.now.pool.pool (with_rows stored.now.heading stored.now.rows)
        (map (λ row. data_of row.items) new_rows.now) ≡ Err e)) }
{
    let columns = stored.columns();
    if !are_rows(columns, new_rows) {
        return Err(Error::InvalidInput);
    }
    let keys = match stored.keys() {
        None => return Err(Error::InvalidData),
        Some(keys) => keys,
    };
    let new = keys_of_values(alloc, columns, new_rows)?;
    match check_new_keys(alloc, keys, new) {
        Err(error) => return Err(error),
        Ok(()) => {}
    }
    let rows = stored.rows();
    if rows.len() + new_rows.len() > MAX_ROWS {
        return Err(Error::InvalidInput);
    }
    Ok(())
}

impl fmt::Display for Insert {
    ghost use Rattle.msi_changes.specs.Printed.{insert_text};
    ghost use Rattle.msi_changes.specs.Said.{insert_name, insert_rows};

    ghost output = { λ i. insert_text (insert_name i) (insert_rows i) };

    fn fmt<W: fmt::Write>(&self, f: &mut fmt::Formatter<W>) -> fmt::Result {
        f.write_str("INSERT INTO ")?;
        f.write_str(&self.table_name)?;
        if self.new_rows.is_empty() {
            return Ok(());
        }
        f.write_str(" VALUES ")?;
        fmt_rows(f, &self.new_rows)
    }
}
