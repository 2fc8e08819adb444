//! Rows of a join's right side, grouped by the value that must be equal to one of the left side.
ghost use Rattle.cfb_medium.specs.declared.error.Error.TheVariants.{Memory};
ghost use Rattle.msi_columns.specs.Column.{Column};
ghost use Rattle.msi_expr.specs.Formula.{Formula, formula_of};
ghost use Rattle.msi_query.specs.Grouped.{AreGrouped, IsEquation, RightRowsAreGrouped, ValueIsTaken, rows_lent, rows_with, value_in};
ghost use Rattle.msi_query.specs.Query.{pairs_with};
ghost use Rattle.msi_tables.specs.Held.{heading_of, rows_held};
ghost use Rattle.msi_values.specs.Borrowed.{borrowed_datum};
ghost use Rattle.std.specs.Prelude.{◌≡◌, IfErr, IfOk, IfSome, List};

use cfb_medium::Error;
use msi_expr::Expr;
use msi_pool::{StringPool, ValueRef};
use msi_tables::Table;
use msi_values::BorrowedValue;
use std::alloc::Global;
use std::collections::BTreeMap;

// Where the two columns stand that a condition compares: in left rows of so many cells, and in right rows. None where it asks
// for more, or for two columns of one side.
fn equation(table: &Table, on: &Expr, width: usize) -> Option<(usize, usize)>
    ensures { IfSome result (λ places. IsEquation (heading_of table.now).columns (formula_of on.now)
        width places.0 places.1) }
{
    let (one, other) = on.equated_columns()?;
    let one = table.index_for_column_name(one)?;
    let other = table.index_for_column_name(other)?;
    if one < width && width <= other {
        return Some((one, other - width));
    }
    if other < width && width <= one {
        return Some((other, one - width));
    }
    None
}

// The value at a place of a row; past its end null.
fn value_at<'a>(pool: &'a StringPool, row: &[ValueRef], place: usize) -> BorrowedValue<'a>
    ensures { borrowed_datum result ≡ value_in pool.now.pool row.now place }
{
    row.get(place)
        .copied()
        .unwrap_or(ValueRef::Null)
        .as_borrowed(pool)
}

// The rows by their values at a place. The one error is `Memory`.
fn rows_by_value<'a>(
    alloc: Global,
    pool: &'a StringPool,
    place: usize,
    rows: &'a [Vec<ValueRef>],
) -> Result<BTreeMap<BorrowedValue<'a>, Vec<&'a [ValueRef]>>, Error>
    ensures ok { IfOk result (AreGrouped pool.now.pool place (rows_held rows.now)) }
    ensures errors { IfErr result (λ e. e ≡ Memory) }
{
    let mut groups = BTreeMap::new(alloc);
    for row in rows {
        let value = value_at(pool, row, place);
        let mut group = take_group(alloc, &mut groups, value);
        group.push(row.as_slice())?;
        let _ = groups.insert(value, group)?;
    }
    Ok(groups)
}

// The rows of a value, which are taken out.
fn take_group<'a>(
    alloc: Global,
    groups: &mut BTreeMap<BorrowedValue<'a>, Vec<&'a [ValueRef]>>,
    value: BorrowedValue<'a>,
) -> Vec<&'a [ValueRef]>
    ensures rows { rows_lent result.items ≡ rows_with groups.old value.entry }
    ensures gone { ValueIsTaken groups.old groups.new value.entry }
{
    match groups.remove(&value) {
        Some(group) => group,
        None => Vec::new(alloc),
    }
}

// The right side of a join: its rows, and these by what the condition asks of them, where it asks whether two columns are
// equal, one of each side. With them stands the place of the value that it compares in left rows, which have so many cells.
#[derive(Drop)]
pub(crate) struct RightSide<'a> {
    rows: &'a [Vec<ValueRef>],
    all: Vec<&'a [ValueRef]>,
    own: usize,
    index: Option<(usize, BTreeMap<BorrowedValue<'a>, Vec<&'a [ValueRef]>>)>,
}

impl<'a> RightSide<'a> {
    ghost use Rattle.msi_query.specs.RightSides.{IsRightSide};

    // The right side of these rows. The one error is `Memory`.
    pub(crate) fn new(
        alloc: Global,
        pool: &'a StringPool,
        table: &Table,
        on: &Expr,
        own: usize,
        rows: &'a [Vec<ValueRef>],
    ) -> Result<RightSide<'a>, Error>
        ensures rows { IfOk result (λ side. side.rows.now ≡ rows.now) }
        ensures side { IfOk result (IsRightSide pool.now.pool (heading_of table.now).columns
            (formula_of on.now)) }
        ensures errors { IfErr result (λ e. e ≡ Memory) }
    {
        let all = lent_rows(alloc, rows)?;
        let index = index_of(alloc, pool, table, on, own, rows)?;
        Ok(RightSide {
            rows,
            all,
            own,
            index,
        })
    }

    // Of the rows those among which the pairs of a left row are.
    pub(crate) fn partners(&self, pool: &'a StringPool, left: &[ValueRef]) -> &[&'a [ValueRef]]
        ensures { (columns : List Column) (on : Formula)
            → IsRightSide pool.now.pool columns on self.now
            → pairs_with pool.now.pool columns on (rows_lent result.now) left.now
            ≡ pairs_with pool.now.pool columns on (rows_held self.now.rows.now) left.now }
    {
        partners(pool, self.own, left, &self.index, &self.all)
    }
}

// The right rows by what the condition asks of them, and the place in left rows of the value that it compares, where it
// asks whether two columns are equal, one of each side. The one error is `Memory`.
fn index_of<'a>(
    alloc: Global,
    pool: &'a StringPool,
    table: &Table,
    on: &Expr,
    width: usize,
    rows: &'a [Vec<ValueRef>],
) -> Result<Option<(usize, BTreeMap<BorrowedValue<'a>, Vec<&'a [ValueRef]>>)>, Error>
    ensures ok { IfOk result (RightRowsAreGrouped pool.now.pool (heading_of table.now).columns
        (formula_of on.now) width (rows_held rows.now)) }
    ensures errors { IfErr result (λ e. e ≡ Memory) }
{
    match equation(table, on, width) {
        Some((left, right)) => {
            let groups = rows_by_value(alloc, pool, right, rows)?;
            Ok(Some((left, groups)))
        }
        None => Ok(None),
    }
}

// Of all right rows those among which the pairs of a left row are.
fn partners<'m, 'a>(
    pool: &'a StringPool,
    width: usize,
    left: &[ValueRef],
    index: &'m Option<(usize, BTreeMap<BorrowedValue<'a>, Vec<&'a [ValueRef]>>)>,
    all: &'m [&'a [ValueRef]],
) -> &'m [&'a [ValueRef]]
    ensures { (columns : List Column) (on : Formula)
        → RightRowsAreGrouped pool.now.pool columns on width (rows_lent all.now) index.now
        → pairs_with pool.now.pool columns on (rows_lent result.now) left.now
        ≡ pairs_with pool.now.pool columns on (rows_lent all.now) left.now }
{
    match index {
        Some((place, groups)) => {
            if left.len() != width {
                return all;
            }
            rows_of_value(groups, all, value_at(pool, left, *place))
        }
        None => all,
    }
}

// The rows of a value, or none of all.
fn rows_of_value<'m, 'a>(
    groups: &'m BTreeMap<BorrowedValue<'a>, Vec<&'a [ValueRef]>>,
    all: &'m [&'a [ValueRef]],
    value: BorrowedValue<'a>,
) -> &'m [&'a [ValueRef]]
    ensures { rows_lent result.now ≡ rows_with groups.now value.entry }
{
    match groups.get(&value) {
        Some(group) => group.as_slice(),
        None => &all[..0],
    }
}

// All rows, where they stand. The one error is `Memory`.
fn lent_rows<'a>(alloc: Global, rows: &'a [Vec<ValueRef>]) -> Result<Vec<&'a [ValueRef]>, Error>
    ensures ok { IfOk result (λ lent. rows_lent lent.items ≡ rows_held rows.now) }
    ensures errors { IfErr result (λ e. e ≡ Memory) }
{
    let mut lent = Vec::new(alloc);
    for row in rows {
        lent.push(row.as_slice())?;
    }
    Ok(lent)
}
