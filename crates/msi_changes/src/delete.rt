//! Deletes.
ghost use Rattle.std.specs.Prelude.{◌≡◌, false, true, option_map, IfOk, IsTrue, None, Ok, OnErr};
ghost use Rattle.std.specs.Rc.{rc_value};
ghost use Rattle.msi_texts.specs.Results.{ReturnsOrOutOfMemory};
ghost use Rattle.msi_expr.specs.Formula.{formula_of};
ghost use Rattle.msi_changes.specs.Applied.{left_of, with_rows};
ghost use Rattle.msi_changes.specs.Changes.{deleted};
ghost use Rattle.msi_changes.specs.Prepared.{pool_after, AreChangesFor};
ghost use Rattle.msi_expr.specs.Conditions.{knows_condition, matches, condition_of, narrowed};
ghost use Rattle.msi_expr.specs.RowTests.{IsReady, columns_in, condition_in};
ghost use Rattle.msi_changes.specs.Said.{delete_condition, delete_name};
ghost use Rattle.msi_tables.specs.Held.{heading_of, rows_held};
ghost use Rattle.msi_tables.specs.Rows.{AreRowsWritable};

use crate::counting::take_back;
use cfb_medium::Error;
use msi_expr::{Expr, RowTest, fmt_condition, knows_condition, narrowed_condition};
use msi_pool::{Draft, PoolChanges, StringPool, ValueRef};
use msi_tables::Table;
use std::alloc::Global;
use std::fmt;
use std::rc::Rc;

/// Takes rows out of a table.
#[derive(Drop)]
pub struct Delete {
    table_name: String,
    condition: Option<Expr>,
}

impl Delete {
    /// A delete of all rows of the table of this name. `Memory` where there is no room for the name.
    pub fn from(alloc: Global, table_name: &str) -> Result<Delete, Error>
        ensures name { ReturnsOrOutOfMemory delete_name result (Ok table_name.now) }
        ensures condition { IfOk result (λ delete. delete_condition delete ≡ None) }
    {
        Ok(Delete {
            table_name: String::from_str(alloc, table_name)?,
            condition: None,
        })
    }

    /// The same of the rows alone for which this condition counts as true too. `Memory` spends it.
    pub fn with(self, alloc: Global, condition: Expr) -> Result<Delete, Error>
        ensures name { IfOk result (λ delete. delete_name delete ≡ delete_name self) }
        ensures condition { ReturnsOrOutOfMemory delete_condition result
            (Ok (narrowed (delete_condition self) (formula_of condition))) }
    {
        let condition = narrowed_condition(alloc, self.condition, condition)?;
        Ok(Delete {
            table_name: self.table_name,
            condition,
        })
    }

    /// The name of the table.
    pub fn table_name(&self) -> &str
        ensures { result.now ≡ delete_name self.now }
    {
        self.table_name.as_str()
    }

    /// The condition on its rows; none where it is of all rows.
    pub fn condition(&self) -> Option<&Expr>
        ensures { option_map (λ condition. formula_of condition.now) result
            ≡ delete_condition self.now }
    {
        self.condition.as_ref()
    }

    /// The rows of a table for which the condition counts as false, and what this changes of the pool: in a draft of it the
    /// texts of the others are taken back. `InvalidInput` where the condition names a column that isn't there, `InvalidData`
    /// where a text has no use to take back.
    pub fn prepare(
        &self,
        alloc: Global,
        table: &Rc<Table>,
        rows: Vec<Vec<ValueRef>>,
        pool: &StringPool,
    ) -> Result<(Vec<Vec<ValueRef>>, PoolChanges), Error>
        ensures deletes { ReturnsOrOutOfMemory
            (λ r. (rows_held r.0.items, pool_after pool.now r.1)) result
            (deleted true pool.now.pool (with_rows (heading_of (rc_value table.now))
            (rows_held rows.items)) (delete_condition self.now)) }
        ensures changes { IfOk result (λ r. AreChangesFor pool.now r.1) }
        ensures shape { AreRowsWritable pool.now.pool.long (heading_of (rc_value table.now)).columns
            (rows_held rows.items)
            → IfOk result (λ r. AreRowsWritable pool.now.pool.long
            (heading_of (rc_value table.now)).columns (rows_held r.0.items)) }
    {
        self.prepared_rows(alloc, table, rows, pool)
    }

    /// The same, and the pool takes the changes over. After an error, `Memory` among them, it is as it was.
    pub fn apply(
        &self,
        alloc: Global,
        table: &Rc<Table>,
        rows: Vec<Vec<ValueRef>>,
        pool: &mut StringPool,
    ) -> Result<Vec<Vec<ValueRef>>, Error>
        ensures deletes { ReturnsOrOutOfMemory
            (λ left. (rows_held left.items, pool.new.pool)) result
            (deleted true pool.old.pool (with_rows (heading_of (rc_value table.now))
            (rows_held rows.items)) (delete_condition self.now)) }
        ensures shape { AreRowsWritable pool.old.pool.long (heading_of (rc_value table.now)).columns
            (rows_held rows.items)
            → IfOk result (λ after. AreRowsWritable pool.old.pool.long
            (heading_of (rc_value table.now)).columns (rows_held after.items)) }
        ensures marked { pool.new.modified ≡ false → pool.new ≡ pool.old }
        ensures after_error { OnErr result (pool.new ≡ pool.old) }
    {
        let (rows, changes) = match self.prepare(alloc, table, rows, pool) {
            Err(error) => return Err(error),
            Ok(prepared) => prepared,
        };
        match pool.adopt(changes) {
            Err(error) => Err(error),
            Ok(()) => Ok(rows),
        }
    }

    // The same without a word on which rows can be written.
    fn prepared_rows(
        &self,
        alloc: Global,
        table: &Rc<Table>,
        rows: Vec<Vec<ValueRef>>,
        pool: &StringPool,
    ) -> Result<(Vec<Vec<ValueRef>>, PoolChanges), Error>
        ensures deletes { ReturnsOrOutOfMemory
            (λ r. (rows_held r.0.items, pool_after pool.now r.1)) result
            (deleted true pool.now.pool (with_rows (heading_of (rc_value table.now))
            (rows_held rows.items)) (delete_condition self.now)) }
        ensures changes { IfOk result (λ r. AreChangesFor pool.now r.1) }
    {
        if !knows_condition(alloc, table, &self.condition)? {
            return Err(Error::InvalidInput);
        }
        let mut counted = pool.draft();
        let left = match rows_left(alloc, pool, table, &self.condition, rows, &mut counted) {
            Err(error) => return Err(error),
            Ok(left) => left,
        };
        let changes = counted.into_changes();
        Ok((left, changes))
    }
}

// The rows for which the condition counts as false; the texts of the others are taken back. `InvalidData` where one has no
// use to take back.
fn rows_left(
    alloc: Global,
    pool: &StringPool,
    table: &Rc<Table>,
    condition: &Option<Expr>,
    rows: Vec<Vec<ValueRef>>,
    counted: &mut Draft<'_>,
) -> Result<Vec<Vec<ValueRef>>, Error>
    requires { IsTrue (knows_condition (heading_of (rc_value table.now)).columns
        (condition_of condition.now)) }
    ensures left { ReturnsOrOutOfMemory
        (λ left. (rows_held left.items, counted.new.state.pool)) result
        (left_of (matches pool.now.pool (heading_of (rc_value table.now)).columns
        (condition_of condition.now)) counted.old.state.pool (rows_held rows.items)) }
    ensures marked { counted.new.state.modified ≡ false → counted.new.state ≡ counted.old.state }
    ensures under { counted.new.under ≡ counted.old.under }
{
    let test = RowTest::new(alloc, table, condition)?;
    rows_failing(alloc, pool, &test, rows, counted)
}

// The same of the rows that don't pass a test.
#[tactic(auto, using(crate::proofs::Deleting::kept, crate::proofs::Deleting::taken, crate::proofs::Deleting::unused, crate::proofs::Deleting::done, crate::proofs::Deleting::at_first))]
fn rows_failing(
    alloc: Global,
    pool: &StringPool,
    test: &RowTest<'_>,
    rows: Vec<Vec<ValueRef>>,
    counted: &mut Draft<'_>,
) -> Result<Vec<Vec<ValueRef>>, Error>
    requires { IsReady test.now }
    ensures left { ReturnsOrOutOfMemory
        (λ left. (rows_held left.items, counted.new.state.pool)) result
        (left_of (matches pool.now.pool (columns_in test.now) (condition_in test.now))
        counted.old.state.pool (rows_held rows.items)) }
    ensures marked { counted.new.state.modified ≡ false → counted.new.state ≡ counted.old.state }
    ensures under { counted.new.under ≡ counted.old.under }
{
    let mut left = Vec::new(alloc);
    for row in rows {
        if test.passes(alloc, pool, &row)? {
            match take_back(counted, &row) {
                Err(error) => return Err(error),
                Ok(()) => {}
            }
        } else {
            left.push(row)?;
        }
    }
    Ok(left)
}

impl fmt::Display for Delete {
    ghost use Rattle.msi_changes.specs.Printed.{delete_text};
    ghost use Rattle.msi_changes.specs.Said.{delete_condition, delete_name};

    ghost output = { λ d. delete_text (delete_name d) (delete_condition d) };

    fn fmt<W: fmt::Write>(&self, f: &mut fmt::Formatter<W>) -> fmt::Result {
        f.write_str("DELETE FROM ")?;
        f.write_str(&self.table_name)?;
        fmt_condition(&self.condition, f)
    }
}
