//! Conditions judged on rows of cells.
ghost use Rattle.cfb_medium.specs.declared.error.Error.TheVariants.{Memory};
ghost use Rattle.msi_expr.specs.Formula.{formula_of, names_after};
ghost use Rattle.msi_expr.specs.Conditions.{has_named_columns, knows_condition, matches, condition_of};
ghost use Rattle.msi_columns.specs.Column.{has_column};
ghost use Rattle.msi_tables.specs.Held.{heading_of};
ghost use Rattle.std.specs.List.{list_all};
ghost use Rattle.std.specs.Prelude.{◌≡◌, IfErr, IfOk, IsTrue, Some, map};
ghost use Rattle.std.specs.Rc.{rc_value};

use crate::expr::Expr;
use crate::record::StoredRow;
use cfb_medium::Error;
use msi_pool::{StringPool, ValueRef};
use msi_tables::Table;
use std::alloc::Global;
use std::rc::Rc;

/// Whether the table has each column that the condition names. The one error is `Memory`.
pub fn knows_condition(
    alloc: Global,
    table: &Table,
    condition: &Option<Expr>,
) -> Result<bool, Error>
    ensures ok { IfOk result (λ known. known
        ≡ knows_condition (heading_of table.now).columns (condition_of condition.now)) }
    ensures errors { IfErr result (λ e. e ≡ Memory) }
{
    match condition {
        None => Ok(true),
        Some(expr) => knows(alloc, table, expr),
    }
}

/// Whether the table has each column that the expression names. The one error is `Memory`.
pub fn knows(alloc: Global, table: &Table, expr: &Expr) -> Result<bool, Error>
    ensures ok { IfOk result (λ known. known
        ≡ has_named_columns (heading_of table.now).columns (formula_of expr.now)) }
    ensures errors { IfErr result (λ e. e ≡ Memory) }
{
    let names = expr.column_names(alloc)?;
    Ok(has_columns(table, &names))
}

// Whether the table has a column of each of these names.
fn has_columns(table: &Table, names: &[&str]) -> bool
    ensures { result ≡ list_all (λ n. has_column (heading_of table.now).columns n.now) names.now }
{
    names.iter().all(|name| table.has_column(name))
}

/// Whether the expression counts as true on the row. The one error is `Memory`.
pub fn holds(
    alloc: Global,
    pool: &StringPool,
    table: &Rc<Table>,
    expr: &Expr,
    row: &[ValueRef],
) -> Result<bool, Error>
    requires { IsTrue
        (has_named_columns (heading_of (rc_value table.now)).columns (formula_of expr.now)) }
    ensures ok { IfOk result (λ holds. holds
        ≡ matches pool.now.pool (heading_of (rc_value table.now)).columns
        (Some (formula_of expr.now)) row.now) }
    ensures errors { IfErr result (λ e. e ≡ Memory) }
{
    stored_holds(alloc, pool, table, expr, row)
}

// The same of a table that isn't shared.
#[tactic(auto, using(crate::proofs::FilledUp::all_there, crate::proofs::FilledUp::seen_whole))]
fn stored_holds(
    alloc: Global,
    pool: &StringPool,
    table: &Table,
    expr: &Expr,
    cells: &[ValueRef],
) -> Result<bool, Error>
    requires { IsTrue (has_named_columns (heading_of table.now).columns (formula_of expr.now)) }
    ensures ok { IfOk result (λ holds. holds
        ≡ matches pool.now.pool (heading_of table.now).columns (Some (formula_of expr.now))
        cells.now) }
    ensures errors { IfErr result (λ e. e ≡ Memory) }
{
    let row = StoredRow { pool, table, cells };
    let worth = expr.ast.eval(alloc, &row)?;
    Ok(worth.to_bool())
}
