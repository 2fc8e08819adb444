//! Of rows those that a condition lets through, and of columns those that are asked for.
ghost use Rattle.cfb_medium.specs.declared.error.Error.TheVariants.{InvalidInput, Memory};
ghost use Rattle.msi_pool.specs.Pool.{Pool};
ghost use Rattle.msi_query.specs.Answered.{answered, table_held};
ghost use Rattle.msi_query.specs.Query.{cut, parts_at, projected};
ghost use Rattle.msi_expr.specs.Conditions.{knows_condition, matches, condition_of};
ghost use Rattle.msi_columns.specs.Column.{column_place, has_column};
ghost use Rattle.msi_columns.specs.Held.{columns_of};
ghost use Rattle.msi_tables.specs.Held.{heading_of, rows_held};
ghost use Rattle.msi_texts.specs.Results.{ReturnsOrOutOfMemory};
ghost use Rattle.std.specs.List.{filter_map, list_all};
ghost use Rattle.std.specs.Prelude.{◌≡◌, ◌⊎◌, filter, map, string_bytes, IfErr, IfOk, IsTrue, Ok};

use cfb_medium::Error;
use msi_expr::{Expr, RowTest, knows_condition};
use msi_pool::{StringPool, ValueRef};
use msi_tables::{Column, Table};
use std::alloc::Global;

// The rows that the condition lets through, and of them the columns of these names, in this order; no names stand for
// all. `InvalidInput` where there is no such column, or none that the condition names.
pub(crate) fn cut(
    alloc: Global,
    pool: &StringPool,
    names: &[String],
    condition: &Option<Expr>,
    found: (Table, Vec<Vec<ValueRef>>),
) -> Result<(Table, Vec<Vec<ValueRef>>), Error>
    ensures answer { ReturnsOrOutOfMemory answered result
        (cut pool.now.pool (map string_bytes names.now)
        (condition_of condition.now) (answered found)) }
    ensures kind { IfErr result (λ e. (e ≡ Memory) ⊎ (e ≡ InvalidInput)) }
    ensures width { IfOk result (λ cut. (heading_of cut.0).long ≡ (heading_of found.0).long) }
{
    let (table, rows) = found;
    if !has_each(&table, names) {
        return Err(Error::InvalidInput);
    }
    if !knows_condition(alloc, &table, condition)? {
        return Err(Error::InvalidInput);
    }
    let rows = filtered_rows(alloc, pool, &table, condition, rows)?;
    projected_rows(alloc, names, table, rows)
}

// Whether the table has a column of each of these names.
fn has_each(table: &Table, names: &[String]) -> bool
    ensures { result
        ≡ list_all (λ name. has_column (heading_of table.now).columns (string_bytes name))
        names.now }
{
    names.iter().all(|name| table.has_column(name))
}

// The rows that the condition lets through.
fn filtered_rows(
    alloc: Global,
    pool: &StringPool,
    table: &Table,
    condition: &Option<Expr>,
    rows: Vec<Vec<ValueRef>>,
) -> Result<Vec<Vec<ValueRef>>, Error>
    requires { IsTrue (knows_condition (heading_of table.now).columns
        (condition_of condition.now)) }
    ensures ok { IfOk result (λ kept. rows_held kept.items
        ≡ filter (matches pool.now.pool (heading_of table.now).columns (condition_of condition.now))
        (rows_held rows.items)) }
    ensures errors { IfErr result (λ e. e ≡ Memory) }
{
    match condition {
        None => return Ok(rows),
        Some(_) => {}
    }
    let test = RowTest::new(alloc, table, condition)?;
    let mut kept = Vec::new(alloc);
    for row in rows {
        if test.passes(alloc, pool, &row)? {
            kept.push(row)?;
        }
    }
    Ok(kept)
}

// The columns of these names, and the rows cut to them.
fn projected_rows(
    alloc: Global,
    names: &[String],
    table: Table,
    rows: Vec<Vec<ValueRef>>,
) -> Result<(Table, Vec<Vec<ValueRef>>), Error>
    ensures answer { ReturnsOrOutOfMemory answered result (Ok
        (projected (map string_bytes names.now) (table_held table rows.items))) }
    ensures width { IfOk result (λ cut. (heading_of cut.0).long ≡ (heading_of table).long) }
{
    if names.is_empty() {
        return Ok((table, rows));
    }
    let places = places_of(alloc, &table, names)?;
    let columns = columns_at(alloc, &places, table.columns())?;
    let cut = rows_at(alloc, &places, &rows)?;
    let long = table.long_string_refs();
    Ok((Table::from_parts(String::new(alloc), columns, long), cut))
}

// The places of the columns of these names, of those that are there.
fn places_of(alloc: Global, table: &Table, names: &[String]) -> Result<Vec<usize>, Error>
    ensures ok { IfOk result (λ places. places.items
        ≡ filter_map (column_place (heading_of table.now).columns) (map string_bytes names.now)) }
    ensures errors { IfErr result (λ e. e ≡ Memory) }
{
    let mut places = Vec::new(alloc);
    for name in names {
        if let Some(place) = table.index_for_column_name(name) {
            places.push(place)?;
        }
    }
    Ok(places)
}

// Copies of the columns at these places.
fn columns_at(alloc: Global, places: &[usize], columns: &[Column]) -> Result<Vec<Column>, Error>
    ensures ok { IfOk result (λ cut. columns_of cut.items
        ≡ parts_at places.now (columns_of columns.now)) }
    ensures errors { IfErr result (λ e. e ≡ Memory) }
{
    let mut cut = Vec::new(alloc);
    for place in places {
        if let Some(column) = columns.get(*place) {
            cut.push(column.clone(alloc)?)?;
        }
    }
    Ok(cut)
}

// The rows cut to these places.
fn rows_at(
    alloc: Global,
    places: &[usize],
    rows: &[Vec<ValueRef>],
) -> Result<Vec<Vec<ValueRef>>, Error>
    ensures ok { IfOk result (λ cut. rows_held cut.items
        ≡ map (parts_at places.now) (rows_held rows.now)) }
    ensures errors { IfErr result (λ e. e ≡ Memory) }
{
    let mut cut = Vec::new(alloc);
    for row in rows {
        cut.push(cells_at(alloc, places, row)?)?;
    }
    Ok(cut)
}

// The cells at these places.
fn cells_at(alloc: Global, places: &[usize], row: &[ValueRef]) -> Result<Vec<ValueRef>, Error>
    ensures ok { IfOk result (λ cells. cells.items ≡ parts_at places.now row.now) }
    ensures errors { IfErr result (λ e. e ≡ Memory) }
{
    let mut cells = Vec::new(alloc);
    for place in places {
        if let Some(cell) = row.get(*place) {
            cells.push(*cell)?;
        }
    }
    Ok(cells)
}
