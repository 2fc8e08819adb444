//! Rows of cells as values, whose texts stand in the pool.
ghost use Rattle.cfb_medium.specs.declared.error.Error.TheVariants.{Memory};
ghost use Rattle.std.specs.Prelude.{◌≡◌, IfErr, IfOk, map};
ghost use Rattle.msi_values.specs.Borrowed.{borrowed_data};
ghost use Rattle.msi_tables.specs.Held.{rows_held};
ghost use Rattle.msi_tables.specs.Table.{row_data};
ghost use Rattle.msi_schema.specs.Index.{rows_said};

use cfb_medium::Error;
use msi_pool::{StringPool, ValueRef};
use msi_values::BorrowedValue;
use std::alloc::Global;

/// The values of rows. The one error is Memory.
pub fn values_of_rows<'a>(
    alloc: Global,
    pool: &'a StringPool,
    rows: &[Vec<ValueRef>],
) -> Result<Vec<Vec<BorrowedValue<'a>>>, Error>
    ensures ok { IfOk result (λ values. rows_said values.items
        ≡ map (row_data pool.now.pool) (rows_held rows.now)) }
    ensures errors { IfErr result (λ e. e ≡ Memory) }
{
    let mut values = Vec::new(alloc);
    for row in rows {
        values.push(values_of_row(alloc, pool, row)?)?;
    }
    Ok(values)
}

// The values of a row. The one error is Memory.
fn values_of_row<'a>(
    alloc: Global,
    pool: &'a StringPool,
    row: &[ValueRef],
) -> Result<Vec<BorrowedValue<'a>>, Error>
    ensures ok { IfOk result (λ values. borrowed_data values.items
        ≡ row_data pool.now.pool row.now) }
    ensures errors { IfErr result (λ e. e ≡ Memory) }
{
    let mut values = Vec::new(alloc);
    for cell in row {
        values.push(cell.as_borrowed(pool))?;
    }
    Ok(values)
}
