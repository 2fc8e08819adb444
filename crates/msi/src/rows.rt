//! Rows of cells as rows of values.
ghost use Rattle.std.specs.Prelude.{◌≡◌, length, map, IfErr, IfOk};
ghost use Rattle.std.specs.Rc.{rc_value};
ghost use Rattle.cfb_medium.specs.declared.error.Error.TheVariants.{Memory};
ghost use Rattle.msi.specs.Rows.{rows_shown, value_row};
ghost use Rattle.msi_parts.specs.Whole.{Wide};
ghost use Rattle.msi_tables.specs.Held.{heading_of, rows_held};
ghost use Rattle.msi_tables.specs.RowsLeft.{rows_columns, rows_left};
ghost use Rattle.msi_tables.specs.Table.{row_data};
ghost use Rattle.msi_values.specs.Datum.{data_of};

use cfb_medium::Error;
use msi_pool::{StringPool, ValueRef};
use msi_tables::{Row, Rows, Table};
use msi_values::Value;
use std::alloc::Global;
use std::rc::Rc;

/// The rows of a table, with the values of their cells. The one error is `Memory`.
pub(crate) fn rows_of_cells(
    alloc: Global,
    pool: &StringPool,
    table: Rc<Table>,
    rows: Vec<Vec<ValueRef>>,
) -> Result<Rows, Error>
    requires { Wide (length (heading_of (rc_value table)).columns) (rows_held rows.items) }
    ensures columns { IfOk result (λ it. rows_columns it ≡ (heading_of (rc_value table)).columns) }
    ensures left { IfOk result (λ it. rows_left it
        ≡ map (value_row (heading_of (rc_value table)).columns pool.now.pool)
        (rows_held rows.items)) }
    ensures shown { IfOk result (λ it. rows_shown it
        ≡ (
          map (λ c. c.name) (heading_of (rc_value table)).columns,
          map (row_data pool.now.pool) (rows_held rows.items),
        )) }
    ensures errors { IfErr result (λ e. e ≡ Memory) }
{
    let mut told = Vec::new(alloc);
    for row in &rows {
        told.push(row_of_cells(alloc, pool, table.clone()?, row)?)?;
    }
    Ok(Rows::new(table, told))
}

// One of them.
fn row_of_cells(
    alloc: Global,
    pool: &StringPool,
    table: Rc<Table>,
    cells: &[ValueRef],
) -> Result<Row, Error>
    requires { length cells.now ≡ length (heading_of (rc_value table)).columns }
    ensures ok { IfOk result (λ row. row
        ≡ value_row (heading_of (rc_value table)).columns pool.now.pool cells.now) }
    ensures errors { IfErr result (λ e. e ≡ Memory) }
{
    let values = values_of(alloc, pool, cells)?;
    Ok(Row::new(table, values))
}

// The values of cells.
fn values_of(alloc: Global, pool: &StringPool, cells: &[ValueRef]) -> Result<Vec<Value>, Error>
    ensures ok { IfOk result (λ values. data_of values.items ≡ row_data pool.now.pool cells.now) }
    ensures errors { IfErr result (λ e. e ≡ Memory) }
{
    let mut values = Vec::new(alloc);
    for cell in cells {
        values.push(cell.to_value(alloc, pool)?)?;
    }
    Ok(values)
}
