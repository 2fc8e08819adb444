//! Uses of texts: values become cells, and cells are taken back.
ghost use Rattle.std.specs.Prelude.{◌≡◌, false, map};
ghost use Rattle.msi_texts.specs.Results.{ReturnsOrOutOfMemory};
ghost use Rattle.msi_values.specs.Datum.{data_of, datum_of};
ghost use Rattle.msi_changes.specs.Changes.{all_taken_back, counted, row_counted, rows_counted, taken_back};
ghost use Rattle.msi_tables.specs.Held.{rows_held};

use cfb_medium::Error;
use msi_pool::{Draft, ValueRef};
use msi_values::Value;
use std::alloc::Global;

// A value as a cell, with its text counted in the pool. `InvalidInput` where the pool is full.
#[tactic(auto, using(crate::proofs::Uses::counted_so, crate::proofs::Uses::full_so, crate::proofs::Uses::marked))]
pub(crate) fn count_value(
    alloc: Global,
    pool: &mut Draft<'_>,
    value: &Value,
) -> Result<ValueRef, Error>
    ensures counts { ReturnsOrOutOfMemory (λ cell. (cell, pool.new.state.pool)) result
        (counted pool.old.state.pool (datum_of value.now)) }
    ensures marked { pool.new.state.modified ≡ false → pool.new.state ≡ pool.old.state }
    ensures under { pool.new.under ≡ pool.old.under }
{
    let value = value.clone(alloc)?;
    ValueRef::create(value, pool)
}

// The cells of a row of values, whose texts are counted in the pool. `InvalidInput` where the pool is full.
#[tactic(auto, using(crate::proofs::Turns::turned, crate::proofs::Turns::refused, crate::proofs::Turns::ended, crate::proofs::Turns::begun))]
pub(crate) fn count_row(
    alloc: Global,
    pool: &mut Draft<'_>,
    values: &[Value],
) -> Result<Vec<ValueRef>, Error>
    ensures counts { ReturnsOrOutOfMemory (λ cells. (cells.items, pool.new.state.pool)) result
        (row_counted pool.old.state.pool (data_of values.now)) }
    ensures marked { pool.new.state.modified ≡ false → pool.new.state ≡ pool.old.state }
    ensures under { pool.new.under ≡ pool.old.under }
{
    let mut cells = Vec::new(alloc);
    for value in values {
        cells.push(count_value(alloc, pool, value)?)?;
    }
    Ok(cells)
}

/// The cells of rows of values, whose texts are counted in the draft row by row. `InvalidInput` where the pool is full.
#[tactic(auto, using(crate::proofs::Turns::turned, crate::proofs::Turns::refused, crate::proofs::Turns::ended, crate::proofs::Turns::begun))]
pub fn count_rows(
    alloc: Global,
    pool: &mut Draft<'_>,
    rows: &[Vec<Value>],
) -> Result<Vec<Vec<ValueRef>>, Error>
    ensures counts { ReturnsOrOutOfMemory
        (λ cells. (rows_held cells.items, pool.new.state.pool)) result
        (rows_counted pool.old.state.pool (map (λ row. data_of row.items) rows.now)) }
    ensures marked { pool.new.state.modified ≡ false → pool.new.state ≡ pool.old.state }
    ensures under { pool.new.under ≡ pool.old.under }
{
    let mut cells = Vec::new(alloc);
    for row in rows {
        cells.push(count_row(alloc, pool, row)?)?;
    }
    Ok(cells)
}

// Takes the use of a cell's text back. `InvalidData` where its place has no use.
#[tactic(auto, using(crate::proofs::Uses::taken_so, crate::proofs::Uses::unused_so, crate::proofs::Uses::taken_marked))]
pub(crate) fn take_back_cell(pool: &mut Draft<'_>, cell: ValueRef) -> Result<(), Error>
    ensures takes { ReturnsOrOutOfMemory (λ _. pool.new.state.pool) result
        (taken_back pool.old.state.pool cell) }
    ensures marked { pool.new.state.modified ≡ false → pool.new.state ≡ pool.old.state }
    ensures under { pool.new.under ≡ pool.old.under }
{
    cell.remove(pool)
}

/// Takes the uses of all cells of a row back. `InvalidData` where a place has no use.
pub fn take_back(pool: &mut Draft<'_>, row: &[ValueRef]) -> Result<(), Error>
    ensures takes { ReturnsOrOutOfMemory (λ _. pool.new.state.pool) result
        (all_taken_back pool.old.state.pool row.now) }
    ensures marked { pool.new.state.modified ≡ false → pool.new.state ≡ pool.old.state }
    ensures under { pool.new.under ≡ pool.old.under }
{
    for cell in row {
        take_back_cell(pool, *cell)?;
    }
    Ok(())
}
