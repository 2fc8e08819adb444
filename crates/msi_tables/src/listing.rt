//! Rows listed by their keys.
ghost use Rattle.cfb_medium.specs.declared.error.Error.TheVariants.{Memory};
ghost use Rattle.std.specs.List.Sorted.{IsSortedBy, IsStableBy};
ghost use Rattle.std.specs.Prelude.{◌≡◌, drop, IfErr, IfOk, OnOk};
ghost use Rattle.msi_columns.specs.Held.{columns_of};
ghost use Rattle.msi_tables.specs.Held.{heading_of, rows_held};
ghost use Rattle.msi_tables.specs.Rows.{IsArranged};
ghost use Rattle.msi_tables.specs.Table.{key_less, row_key_cmp};

use crate::table::Table;
use cfb_medium::Error;
use msi_columns::Column;
use msi_pool::{StringPool, ValueRef};
use std::alloc::AllocError;
use std::cmp::Ordering;

impl Table {
    /// The rows in the order of their keys, by the values of the key's columns from the left; rows of one key keep their
    /// order. The one error is Memory.
    pub fn by_keys(
        &self,
        string_pool: &StringPool,
        rows: Vec<Vec<ValueRef>>,
    ) -> Result<Vec<Vec<ValueRef>>, Error>
        ensures ok { IfOk result (λ listed. IsArranged
            (row_key_cmp string_pool.now.pool (heading_of self.now).columns) (rows_held rows.items)
            (rows_held listed.items)) }
        ensures errors { IfErr result (λ e. e ≡ Memory) }
    {
        let mut rows = rows;
        sort_by_keys(&mut rows, self.columns(), string_pool)?;
        Ok(rows)
    }
}

// Brings rows into the order of their keys.
fn sort_by_keys(
    rows: &mut Vec<Vec<ValueRef>>,
    columns: &[Column],
    string_pool: &StringPool,
) -> Result<(), AllocError>
    ensures sorted { OnOk result (IsSortedBy
        (key_less string_pool.now.pool (columns_of columns.now)) rows.new.items) }
    ensures stable { IsStableBy (key_less string_pool.now.pool (columns_of columns.now))
        rows.old.items rows.new.items }
{
    rows.sort_by(|a, b| compare_keys(columns, string_pool, a.as_slice(), b.as_slice()))
}

// The order of the keys of two rows.
fn compare_keys(
    columns: &[Column],
    string_pool: &StringPool,
    a: &[ValueRef],
    b: &[ValueRef],
) -> Ordering
    ensures { result ≡ row_key_cmp string_pool.now.pool (columns_of columns.now) a.now b.now }
{
    let Some((column, columns)) = columns.split_first() else {
        return Ordering::Equal;
    };
    if !column.is_primary_key() {
        return compare_keys(columns, string_pool, behind_first(a), behind_first(b));
    }
    match (a.split_first(), b.split_first()) {
        (None, None) => Ordering::Equal,
        (None, Some(_)) => Ordering::Less,
        (Some(_), None) => Ordering::Greater,
        (Some((x, xs)), Some((y, ys))) => {
            match x
                .as_borrowed(string_pool)
                .compare(y.as_borrowed(string_pool))
            {
                Ordering::Equal => compare_keys(columns, string_pool, xs, ys),
                order => order,
            }
        }
    }
}

// The cells behind the first.
fn behind_first(row: &[ValueRef]) -> &[ValueRef]
    ensures { result.now ≡ drop 1 row.now }
{
    match row {
        [] => row,
        [_, rest @ ..] => rest,
    }
}
