//! Tables joined: each left row with the right rows for which a condition counts as true.
ghost use Rattle.cfb_medium.specs.declared.error.Error.TheVariants.{InvalidInput, Memory};
ghost use Rattle.msi_expr.specs.Formula.{formula_of};
ghost use Rattle.msi_pool.specs.declared.stringref.ValueRef.TheVariants as cell;
ghost use Rattle.msi_query.specs.Answered.{answered};
ghost use Rattle.msi_query.specs.Grouped.{rows_lent};
ghost use Rattle.msi_query.specs.RightSides.{IsRightSide};
ghost use Rattle.msi_query.specs.Query.{inner_joined, left_joined, or_once, pairs_with};
ghost use Rattle.msi_expr.specs.Conditions.{has_named_columns};
ghost use Rattle.msi_columns.specs.Column.{side_column, but_null};
ghost use Rattle.msi_columns.specs.Held.{columns_of};
ghost use Rattle.msi_tables.specs.Held.{heading_of, rows_held};
ghost use Rattle.msi_texts.specs.Results.{ReturnsOrOutOfMemory};
ghost use Rattle.std.specs.List.{flat_map};
ghost use Rattle.std.specs.Prelude.{◌≡◌, ◌⊎◌, ◌++◌, map, replicate, IfErr, IfOk, IsTrue, OnOk};
ghost use Rattle.std.specs.Rc.{rc_value};

use crate::grouping::RightSide;
use cfb_medium::Error;
use msi_expr::{Expr, holds, knows};
use msi_pool::{StringPool, ValueRef};
use msi_tables::{Column, Table};
use std::alloc::Global;
use std::rc::Rc;

// The pairs of rows for which the expression counts as true, left row by left row. `InvalidInput` where it names a column
// that neither side has.
pub(crate) fn inner_joined(
    alloc: Global,
    pool: &StringPool,
    on: &Expr,
    left: (Table, Vec<Vec<ValueRef>>),
    right: (Table, Vec<Vec<ValueRef>>),
) -> Result<(Table, Vec<Vec<ValueRef>>), Error>
    ensures answer { ReturnsOrOutOfMemory answered result
        (inner_joined pool.now.pool (formula_of on.now)
        (answered left) (answered right)) }
    ensures kind { IfErr result (λ e. (e ≡ Memory) ⊎ (e ≡ InvalidInput)) }
    ensures width { IfOk result (λ joined. (heading_of joined.0).long ≡ pool.now.pool.long) }
{
    let mut columns = prefixed_columns(alloc, left.0.name(), left.0.columns())?;
    let mut others = prefixed_columns(alloc, right.0.name(), right.0.columns())?;
    columns.append(&mut others)?;
    let table = Table::from_parts(String::new(alloc), columns, pool.long_string_refs());
    if !knows(alloc, &table, on)? {
        return Err(Error::InvalidInput);
    }
    let shared = Rc::new(alloc, table.clone(alloc)?)?;
    let own = left.0.columns().len();
    let rows = inner_rows(alloc, pool, &shared, on, &left.1, &right.1, own)?;
    Ok((table, rows))
}

// The same, and a left row without a partner once, with nulls; the columns of the right side take null.
pub(crate) fn left_joined(
    alloc: Global,
    pool: &StringPool,
    on: &Expr,
    left: (Table, Vec<Vec<ValueRef>>),
    right: (Table, Vec<Vec<ValueRef>>),
) -> Result<(Table, Vec<Vec<ValueRef>>), Error>
    ensures answer { ReturnsOrOutOfMemory answered result
        (left_joined pool.now.pool (formula_of on.now)
        (answered left) (answered right)) }
    ensures kind { IfErr result (λ e. (e ≡ Memory) ⊎ (e ≡ InvalidInput)) }
    ensures width { IfOk result (λ joined. (heading_of joined.0).long ≡ pool.now.pool.long) }
{
    let width = right.0.columns().len();
    let mut columns = prefixed_columns(alloc, left.0.name(), left.0.columns())?;
    let mut others = prefixed_nullable(alloc, right.0.name(), right.0.columns())?;
    columns.append(&mut others)?;
    let table = Table::from_parts(String::new(alloc), columns, pool.long_string_refs());
    if !knows(alloc, &table, on)? {
        return Err(Error::InvalidInput);
    }
    let shared = Rc::new(alloc, table.clone(alloc)?)?;
    let own = left.0.columns().len();
    let rows = left_rows(alloc, pool, &shared, on, &left.1, &right.1, own, width)?;
    Ok((table, rows))
}

// Copies of columns under a prefix.
fn prefixed_columns(alloc: Global, prefix: &str, columns: &[Column]) -> Result<Vec<Column>, Error>
    ensures ok { IfOk result (λ copies. columns_of copies.items
        ≡ map (side_column prefix.now) (columns_of columns.now)) }
    ensures errors { IfErr result (λ e. e ≡ Memory) }
{
    let mut copies = Vec::new(alloc);
    for column in columns {
        copies.push(column.with_name_prefix(alloc, prefix)?)?;
    }
    Ok(copies)
}

// Copies of columns under a prefix, each of which takes null.
fn prefixed_nullable(alloc: Global, prefix: &str, columns: &[Column]) -> Result<Vec<Column>, Error>
    ensures ok { IfOk result (λ copies. columns_of copies.items
        ≡ map but_null (map (side_column prefix.now) (columns_of columns.now))) }
    ensures errors { IfErr result (λ e. e ≡ Memory) }
{
    let mut copies = Vec::new(alloc);
    for column in columns {
        let copy = column.with_name_prefix(alloc, prefix)?;
        copies.push(copy.but_nullable())?;
    }
    Ok(copies)
}

// The pairs of each left row, where left rows have so many cells.
fn inner_rows(
    alloc: Global,
    pool: &StringPool,
    table: &Rc<Table>,
    on: &Expr,
    left: &[Vec<ValueRef>],
    right: &[Vec<ValueRef>],
    own: usize,
) -> Result<Vec<Vec<ValueRef>>, Error>
    requires { IsTrue
        (has_named_columns (heading_of (rc_value table.now)).columns (formula_of on.now)) }
    ensures ok { IfOk result (λ rows. rows_held rows.items
        ≡ flat_map (pairs_with pool.now.pool (heading_of (rc_value table.now)).columns
        (formula_of on.now) (rows_held right.now)) (rows_held left.now)) }
    ensures errors { IfErr result (λ e. e ≡ Memory) }
{
    let side = RightSide::new(alloc, pool, table, on, own, right)?;
    inner_pairs(alloc, pool, table, on, left, &side)
}

// The same, and a left row without pairs once, with so many nulls.
fn left_rows(
    alloc: Global,
    pool: &StringPool,
    table: &Rc<Table>,
    on: &Expr,
    left: &[Vec<ValueRef>],
    right: &[Vec<ValueRef>],
    own: usize,
    width: usize,
) -> Result<Vec<Vec<ValueRef>>, Error>
    requires { IsTrue
        (has_named_columns (heading_of (rc_value table.now)).columns (formula_of on.now)) }
    ensures ok { IfOk result (λ rows. rows_held rows.items
        ≡ flat_map (λ row. or_once (row ++ replicate width cell.Null)
        (pairs_with pool.now.pool (heading_of (rc_value table.now)).columns (formula_of on.now)
        (rows_held right.now) row)) (rows_held left.now)) }
    ensures errors { IfErr result (λ e. e ≡ Memory) }
{
    let side = RightSide::new(alloc, pool, table, on, own, right)?;
    left_pairs(alloc, pool, table, on, left, &side, width)
}

// The pairs of each left row with those of this side.
fn inner_pairs<'a>(
    alloc: Global,
    pool: &'a StringPool,
    table: &Rc<Table>,
    on: &Expr,
    left: &[Vec<ValueRef>],
    side: &RightSide<'a>,
) -> Result<Vec<Vec<ValueRef>>, Error>
    requires knows { IsTrue
        (has_named_columns (heading_of (rc_value table.now)).columns (formula_of on.now)) }
    requires side { IsRightSide pool.now.pool (heading_of (rc_value table.now)).columns
        (formula_of on.now) side.now }
    ensures ok { IfOk result (λ rows. rows_held rows.items
        ≡ flat_map (pairs_with pool.now.pool (heading_of (rc_value table.now)).columns
        (formula_of on.now) (rows_held side.now.rows.now)) (rows_held left.now)) }
    ensures errors { IfErr result (λ e. e ≡ Memory) }
{
    let mut rows = Vec::new(alloc);
    for row in left {
        let others = side.partners(pool, row);
        add_pairs(alloc, pool, table, on, row, others, &mut rows)?;
    }
    Ok(rows)
}

// The same, and a left row without pairs once, with so many nulls.
fn left_pairs<'a>(
    alloc: Global,
    pool: &'a StringPool,
    table: &Rc<Table>,
    on: &Expr,
    left: &[Vec<ValueRef>],
    side: &RightSide<'a>,
    width: usize,
) -> Result<Vec<Vec<ValueRef>>, Error>
    requires knows { IsTrue
        (has_named_columns (heading_of (rc_value table.now)).columns (formula_of on.now)) }
    requires side { IsRightSide pool.now.pool (heading_of (rc_value table.now)).columns
        (formula_of on.now) side.now }
    ensures ok { IfOk result (λ rows. rows_held rows.items
        ≡ flat_map (λ row. or_once (row ++ replicate width cell.Null)
        (pairs_with pool.now.pool (heading_of (rc_value table.now)).columns (formula_of on.now)
        (rows_held side.now.rows.now) row)) (rows_held left.now)) }
    ensures errors { IfErr result (λ e. e ≡ Memory) }
{
    let mut rows = Vec::new(alloc);
    for row in left {
        let others = side.partners(pool, row);
        add_or_once(alloc, pool, table, on, row, others, width, &mut rows)?;
    }
    Ok(rows)
}

// Appends the pairs of a left row; where there are none, the row with so many nulls.
#[tactic(auto, using(crate::proofs::Pairs::once_alone, crate::proofs::Pairs::once_paired))]
fn add_or_once(
    alloc: Global,
    pool: &StringPool,
    table: &Rc<Table>,
    on: &Expr,
    left: &[ValueRef],
    right: &[&[ValueRef]],
    width: usize,
    rows: &mut Vec<Vec<ValueRef>>,
) -> Result<(), Error>
    requires { IsTrue
        (has_named_columns (heading_of (rc_value table.now)).columns (formula_of on.now)) }
    ensures ok { OnOk result (rows_held rows.new.items
        ≡ rows_held rows.old.items ++ or_once (left.now ++ replicate width cell.Null)
        (pairs_with pool.now.pool (heading_of (rc_value table.now)).columns (formula_of on.now)
        (rows_lent right.now) left.now)) }
    ensures errors { IfErr result (λ e. e ≡ Memory) }
{
    let before = rows.len();
    add_pairs(alloc, pool, table, on, left, right, rows)?;
    if rows.len() == before {
        let nulls = vec![in alloc; ValueRef::Null; width]?;
        rows.push(beside(alloc, left, &nulls)?)?;
    }
    Ok(())
}

// Appends the pairs of a left row.
fn add_pairs(
    alloc: Global,
    pool: &StringPool,
    table: &Rc<Table>,
    on: &Expr,
    left: &[ValueRef],
    right: &[&[ValueRef]],
    rows: &mut Vec<Vec<ValueRef>>,
) -> Result<(), Error>
    requires { IsTrue
        (has_named_columns (heading_of (rc_value table.now)).columns (formula_of on.now)) }
    ensures ok { OnOk result (rows_held rows.new.items
        ≡ rows_held rows.old.items ++ pairs_with pool.now.pool
        (heading_of (rc_value table.now)).columns (formula_of on.now) (rows_lent right.now)
        left.now) }
    ensures errors { IfErr result (λ e. e ≡ Memory) }
{
    for other in right {
        let row = beside(alloc, left, other)?;
        if holds(alloc, pool, table, on, &row)? {
            rows.push(row)?;
        }
    }
    Ok(())
}

// A row of the cells of both.
fn beside(alloc: Global, left: &[ValueRef], right: &[ValueRef]) -> Result<Vec<ValueRef>, Error>
    ensures ok { IfOk result (λ row. row.items ≡ left.now ++ right.now) }
    ensures errors { IfErr result (λ e. e ≡ Memory) }
{
    let mut row = Vec::from_slice(alloc, left)?;
    row.extend_from_slice(right)?;
    Ok(row)
}
