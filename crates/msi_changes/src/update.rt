//! Updates.
ghost use Rattle.cfb_medium.specs.declared.error.Error.TheVariants.{Memory};
ghost use Rattle.std.specs.Prelude.{◌≡◌, ◌⊎◌, ◌++◌, [], ◌∷◌, false, true, map, option_map, Err, IfErr, IfOk, IsTrue, None, Ok, OnErr, OnOk};
ghost use Rattle.std.specs.Rc.{rc_value};
ghost use Rattle.msi_texts.specs.Results.{ReturnsOrOutOfMemory};
ghost use Rattle.msi_values.specs.Borrowed.{borrowed_data};
ghost use Rattle.msi_values.specs.Datum.{datum_of};
ghost use Rattle.msi_expr.specs.Formula.{formula_of};
ghost use Rattle.msi_changes.specs.Applied.{judged, with_rows, MaySet};
ghost use Rattle.msi_changes.specs.Changes.{key_after, keys_after, rows_set, updated};
ghost use Rattle.msi_changes.specs.Keys.{keys_said};
ghost use Rattle.msi_changes.specs.Prepared.{pool_after, AreChangesFor};
ghost use Rattle.msi_expr.specs.Conditions.{knows_condition, matches, condition_of, narrowed};
ghost use Rattle.msi_expr.specs.RowTests.{IsReady, IsTestOf, columns_in, condition_in};
ghost use Rattle.msi_changes.specs.Said.{sets_of, update_condition, update_name, update_sets};
ghost use Rattle.msi_tables.specs.Held.{heading_of, rows_held};
ghost use Rattle.msi_tables.specs.Rows.{AreRowsWritable};

use crate::keys::{key_of, key_set, values_of};
use crate::printing::fmt_sets;
use crate::setting::{are_sets, set_cells, set_values, sets_key};
use cfb_medium::Error;
use msi_expr::{Expr, RowTest, fmt_condition, knows_condition, narrowed_condition};
use msi_pool::{Draft, PoolChanges, StringPool, ValueRef};
use msi_tables::Table;
use msi_values::{BorrowedValue, Value};
use std::alloc::Global;
use std::fmt;
use std::rc::Rc;

/// Gives cells of a table new values.
#[derive(Drop)]
pub struct Update {
    table_name: String,
    updates: Vec<(String, Value)>,
    condition: Option<Expr>,
}

impl Update {
    /// An update of no column, in all rows of the table of this name. `Memory` where there is no room for the name.
    pub fn table(alloc: Global, table_name: &str) -> Result<Update, Error>
        ensures name { ReturnsOrOutOfMemory update_name result (Ok table_name.now) }
        ensures sets { IfOk result (λ update. update_sets update ≡ []) }
        ensures condition { IfOk result (λ update. update_condition update ≡ None) }
    {
        Ok(Update {
            table_name: String::from_str(alloc, table_name)?,
            updates: Vec::new(alloc),
            condition: None,
        })
    }

    /// The same with a new value for this column too, behind the others. `Memory` spends it.
    pub fn set(self, alloc: Global, column_name: &str, value: Value) -> Result<Update, Error>
        ensures name { IfOk result (λ update. update_name update ≡ update_name self) }
        ensures sets { ReturnsOrOutOfMemory update_sets result
            (Ok (update_sets self ++ (column_name.now, datum_of value) ∷ [])) }
        ensures condition { IfOk result (λ update. update_condition update
            ≡ update_condition self) }
    {
        let Update {
            table_name,
            mut updates,
            condition,
        } = self;
        updates.push((String::from_str(alloc, column_name)?, value))?;
        Ok(Update {
            table_name,
            updates,
            condition,
        })
    }

    /// The same in the rows alone for which this condition counts as true too. `Memory` spends it.
    pub fn with(self, alloc: Global, condition: Expr) -> Result<Update, Error>
        ensures name { IfOk result (λ update. update_name update ≡ update_name self) }
        ensures sets { IfOk result (λ update. update_sets update ≡ update_sets self) }
        ensures condition { ReturnsOrOutOfMemory update_condition result
            (Ok (narrowed (update_condition self) (formula_of condition))) }
    {
        let condition = narrowed_condition(alloc, self.condition, condition)?;
        Ok(Update {
            table_name: self.table_name,
            updates: self.updates,
            condition,
        })
    }

    /// The name of the table.
    pub fn table_name(&self) -> &str
        ensures { result.now ≡ update_name self.now }
    {
        self.table_name.as_str()
    }

    /// The columns that get new values, with these.
    pub fn sets(&self) -> &[(String, Value)]
        ensures { sets_of result.now ≡ update_sets self.now }
    {
        self.updates.as_slice()
    }

    /// The condition on its rows; none where it is of all rows.
    pub fn condition(&self) -> Option<&Expr>
        ensures { option_map (λ condition. formula_of condition.now) result
            ≡ update_condition self.now }
    {
        self.condition.as_ref()
    }

    /// The rows of a table, with new values in the cells for which the condition counts as true, and what this changes of the
    /// pool: in a draft of it the use of each old text is taken back and the new one is counted, row by row and cell by cell.
    /// In this order: `InvalidInput` for a column that isn't there or doesn't take its value, or where the condition names a
    /// column that isn't there; `AlreadyExists` where a column of the key is set and a key would stand twice; `InvalidData`
    /// for a text that has no use to take back, and `InvalidInput` where the pool is full.
    pub fn prepare(
        &self,
        alloc: Global,
        table: &Rc<Table>,
        rows: Vec<Vec<ValueRef>>,
        pool: &StringPool,
    ) -> Result<(Vec<Vec<ValueRef>>, PoolChanges), Error>
        ensures updates { ReturnsOrOutOfMemory
            (λ r. (rows_held r.0.items, pool_after pool.now r.1)) result
            (updated true pool.now.pool (with_rows (heading_of (rc_value table.now))
            (rows_held rows.items)) (update_sets self.now) (update_condition self.now)) }
        ensures changes { IfOk result (λ r. AreChangesFor pool.now r.1) }
        ensures shape { AreRowsWritable pool.now.pool.long (heading_of (rc_value table.now)).columns
            (rows_held rows.items)
            → IfOk result (λ r. AreRowsWritable pool.now.pool.long
            (heading_of (rc_value table.now)).columns (rows_held r.0.items)) }
    {
        self.prepared_rows(alloc, table, rows, pool)
    }

    /// The same, and the pool takes the changes over. After an error, `Memory` among them, it is as it was.
    pub fn apply(
        &self,
        alloc: Global,
        table: &Rc<Table>,
        rows: Vec<Vec<ValueRef>>,
        pool: &mut StringPool,
    ) -> Result<Vec<Vec<ValueRef>>, Error>
        ensures updates { ReturnsOrOutOfMemory
            (λ after. (rows_held after.items, pool.new.pool)) result
            (updated true pool.old.pool (with_rows (heading_of (rc_value table.now))
            (rows_held rows.items)) (update_sets self.now) (update_condition self.now)) }
        ensures shape { AreRowsWritable pool.old.pool.long (heading_of (rc_value table.now)).columns
            (rows_held rows.items)
            → IfOk result (λ after. AreRowsWritable pool.old.pool.long
            (heading_of (rc_value table.now)).columns (rows_held after.items)) }
        ensures marked { pool.new.modified ≡ false → pool.new ≡ pool.old }
        ensures after_error { OnErr result (pool.new ≡ pool.old) }
    {
        let (rows, changes) = match self.prepare(alloc, table, rows, pool) {
            Err(error) => return Err(error),
            Ok(prepared) => prepared,
        };
        match pool.adopt(changes) {
            Err(error) => Err(error),
            Ok(()) => Ok(rows),
        }
    }

    // The same without a word on which rows can be written.
    fn prepared_rows(
        &self,
        alloc: Global,
        table: &Rc<Table>,
        rows: Vec<Vec<ValueRef>>,
        pool: &StringPool,
    ) -> Result<(Vec<Vec<ValueRef>>, PoolChanges), Error>
        ensures updates { ReturnsOrOutOfMemory
            (λ r. (rows_held r.0.items, pool_after pool.now r.1)) result
            (updated true pool.now.pool (with_rows (heading_of (rc_value table.now))
            (rows_held rows.items)) (update_sets self.now) (update_condition self.now)) }
        ensures changes { IfOk result (λ r. AreChangesFor pool.now r.1) }
    {
        let sets = self.updates.as_slice();
        let condition = &self.condition;
        match judge(alloc, table, &rows, pool, sets, condition) {
            Err(error) => return Err(error),
            Ok(()) => {}
        }
        let mut counted = pool.draft();
        let after = match set_rows(alloc, pool, table, rows, &mut counted, sets, condition) {
            Err(error) => return Err(error),
            Ok(after) => after,
        };
        let changes = counted.into_changes();
        Ok((after, changes))
    }
}

// Whether the cells may be set, as far as no text is counted.
fn judge(
    alloc: Global,
    table: &Rc<Table>,
    rows: &[Vec<ValueRef>],
    pool: &StringPool,
    sets: &[(String, Value)],
    condition: &Option<Expr>,
) -> Result<(), Error>
    ensures accepted { OnOk result (MaySet pool.now.pool
        (with_rows (heading_of (rc_value table.now)) (rows_held rows.now)) (sets_of sets.now)
        (condition_of condition.now)) }
    ensures refused_only_if { IfErr result (λ e. (e ≡ Memory)
        ⊎ (updated true pool.now.pool (with_rows (heading_of (rc_value table.now))
        (rows_held rows.now)) (sets_of sets.now) (condition_of condition.now) ≡ Err e)) }
{
    if !are_sets(table, sets) {
        return Err(Error::InvalidInput);
    }
    if !knows_condition(alloc, table, condition)? {
        return Err(Error::InvalidInput);
    }
    if !sets_key(table, sets) {
        return Ok(());
    }
    let keys = keys_after(alloc, pool, table, rows, sets, condition)?;
    match key_set(alloc, keys)? {
        None => return Err(Error::AlreadyExists),
        Some(_) => {}
    }
    Ok(())
}

// The keys that the rows would have. The one error is `Memory`.
fn keys_after<'a>(
    alloc: Global,
    pool: &'a StringPool,
    table: &Rc<Table>,
    rows: &[Vec<ValueRef>],
    sets: &'a [(String, Value)],
    condition: &Option<Expr>,
) -> Result<Vec<Vec<BorrowedValue<'a>>>, Error>
    requires { IsTrue (knows_condition (heading_of (rc_value table.now)).columns
        (condition_of condition.now)) }
    ensures ok { IfOk result (λ keys. keys_said keys.items
        ≡ keys_after pool.now.pool (with_rows (heading_of (rc_value table.now))
        (rows_held rows.now)) (sets_of sets.now) (condition_of condition.now)) }
    ensures errors { IfErr result (λ e. e ≡ Memory) }
{
    let test = RowTest::new(alloc, table, condition)?;
    let mut keys = Vec::new(alloc);
    for row in rows {
        keys.push(key_after(alloc, pool, table, row, sets, &test)?)?;
    }
    Ok(keys)
}

// The key that a row would have. The one error is `Memory`.
fn key_after<'a>(
    alloc: Global,
    pool: &'a StringPool,
    table: &Rc<Table>,
    row: &[ValueRef],
    sets: &'a [(String, Value)],
    test: &RowTest<'_>,
) -> Result<Vec<BorrowedValue<'a>>, Error>
    requires { IsTestOf (heading_of (rc_value table.now)).columns (condition_in test.now)
        test.now }
    ensures ok { IfOk result (λ key. borrowed_data key.items
        ≡ key_after pool.now.pool (heading_of (rc_value table.now)).columns (sets_of sets.now)
        (condition_in test.now) row.now) }
    ensures errors { IfErr result (λ e. e ≡ Memory) }
{
    let mut values = values_of(alloc, pool, row)?;
    if test.passes(alloc, pool, row)? {
        set_values(table, &mut values, sets);
    }
    key_of(alloc, table.columns(), &values)
}

// The rows with new values in the cells of those for which the condition counts as true.
fn set_rows(
    alloc: Global,
    pool: &StringPool,
    table: &Rc<Table>,
    rows: Vec<Vec<ValueRef>>,
    counted: &mut Draft<'_>,
    sets: &[(String, Value)],
    condition: &Option<Expr>,
) -> Result<Vec<Vec<ValueRef>>, Error>
    requires { IsTrue (knows_condition (heading_of (rc_value table.now)).columns
        (condition_of condition.now)) }
    ensures sets { ReturnsOrOutOfMemory
        (λ after. (rows_held after.items, counted.new.state.pool)) result
        (rows_set (heading_of (rc_value table.now)).columns
        counted.old.state.pool (sets_of sets.now)
        (judged (matches pool.now.pool (heading_of (rc_value table.now)).columns
        (condition_of condition.now)) (rows_held rows.items))) }
    ensures marked { counted.new.state.modified ≡ false → counted.new.state ≡ counted.old.state }
    ensures under { counted.new.under ≡ counted.old.under }
{
    let test = RowTest::new(alloc, table, condition)?;
    rows_set(alloc, pool, table, rows, counted, sets, &test)
}

// The same for the rows that pass a test.
fn rows_set(
    alloc: Global,
    pool: &StringPool,
    table: &Table,
    rows: Vec<Vec<ValueRef>>,
    counted: &mut Draft<'_>,
    sets: &[(String, Value)],
    test: &RowTest<'_>,
) -> Result<Vec<Vec<ValueRef>>, Error>
    requires { IsReady test.now }
    ensures sets { ReturnsOrOutOfMemory
        (λ after. (rows_held after.items, counted.new.state.pool)) result
        (rows_set (heading_of table.now).columns counted.old.state.pool (sets_of sets.now)
        (judged (matches pool.now.pool (columns_in test.now) (condition_in test.now))
        (rows_held rows.items))) }
    ensures marked { counted.new.state.modified ≡ false → counted.new.state ≡ counted.old.state }
    ensures under { counted.new.under ≡ counted.old.under }
{
    let mut after = Vec::new(alloc);
    for row in rows {
        let mut row = row;
        if test.passes(alloc, pool, &row)? {
            set_cells(alloc, table, counted, &mut row, sets)?;
        }
        after.push(row)?;
    }
    Ok(after)
}

impl fmt::Display for Update {
    ghost use Rattle.msi_changes.specs.Printed.{update_text};
    ghost use Rattle.msi_changes.specs.Said.{update_condition, update_name, update_sets};

    ghost output = { λ u. update_text (update_name u) (update_sets u) (update_condition u) };

    fn fmt<W: fmt::Write>(&self, f: &mut fmt::Formatter<W>) -> fmt::Result {
        f.write_str("UPDATE ")?;
        f.write_str(&self.table_name)?;
        f.write_str(" SET ")?;
        fmt_sets(f, &self.updates)?;
        fmt_condition(&self.condition, f)
    }
}
