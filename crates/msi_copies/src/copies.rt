//! Copies of what a package tells, for answers that are kept.
ghost use Rattle.cfb_medium.specs.declared.error.Error.TheVariants.{Memory};
ghost use Rattle.msi.specs.Lists.{streams_left, tables_left};
ghost use Rattle.msi.specs.Rows.{rows_shown};
ghost use Rattle.msi_columns.specs.Held.{columns_of};
ghost use Rattle.msi_props.specs.Held.{pair_in};
ghost use Rattle.msi_tables.specs.RowsLeft.{rows_left};
ghost use Rattle.msi_values.specs.Datum.{data_of};
ghost use Rattle.std.specs.Prelude.{◌≡◌, map, string_bytes, IfErr, IfOk};

use cfb_medium::Error;
use msi::{Streams, Tables};
use msi_columns::Column;
use msi_props::PropertyValue;
use msi_tables::{Row, Rows};
use msi_values::Value;
use std::alloc::Global;

/// Copies of columns. The one error is `Memory`.
pub fn copies_of(alloc: Global, columns: &[Column]) -> Result<Vec<Column>, Error>
    ensures copies { IfOk result (λ copies. columns_of copies.items ≡ columns_of columns.now) }
    ensures errors { IfErr result (λ e. e ≡ Memory) }
{
    let mut copies = Vec::new(alloc);
    for column in columns {
        copies.push(column.clone(alloc)?)?;
    }
    Ok(copies)
}

/// Copies of the properties of a summary. The one error is `Memory`.
pub fn copies_of_properties(
    alloc: Global,
    properties: &[(u32, PropertyValue)],
) -> Result<Vec<(u32, PropertyValue)>, Error>
    ensures copies { IfOk result (λ copies. map pair_in copies.items ≡ map pair_in properties.now) }
    ensures errors { IfErr result (λ e. e ≡ Memory) }
{
    let mut copies = Vec::new(alloc);
    for property in properties {
        copies.push((property.0, property.1.clone(alloc)?))?;
    }
    Ok(copies)
}

/// The names that are still to come. The one error is `Memory`.
pub fn names_of_tables(alloc: Global, tables: Tables) -> Result<Vec<String>, Error>
    ensures names { IfOk result (λ names. map string_bytes names.items
        ≡ map string_bytes (tables_left tables)) }
    ensures errors { IfErr result (λ e. e ≡ Memory) }
{
    let mut names = Vec::new(alloc);
    for name in tables {
        names.push(name)?;
    }
    Ok(names)
}

/// The same of streams.
pub fn names_of_streams(alloc: Global, streams: Streams) -> Result<Vec<String>, Error>
    ensures names { IfOk result (λ names. map string_bytes names.items
        ≡ map string_bytes (streams_left streams)) }
    ensures errors { IfErr result (λ e. e ≡ Memory) }
{
    let mut names = Vec::new(alloc);
    for name in streams {
        names.push(name)?;
    }
    Ok(names)
}

/// The names of the columns, and the values of the rows. The one error is `Memory`.
pub fn values_of_rows(alloc: Global, rows: Rows) -> Result<(Vec<String>, Vec<Vec<Value>>), Error>
    ensures answer { IfOk result (λ told. (
      map string_bytes told.0.items,
      map (λ row. data_of row.items) told.1.items,
    ) ≡ rows_shown rows) }
    ensures errors { IfErr result (λ e. e ≡ Memory) }
{
    let names = names_of_columns(alloc, rows.columns())?;
    Ok((names, all_values(alloc, rows)?))
}

// The names of columns.
fn names_of_columns(alloc: Global, columns: &[Column]) -> Result<Vec<String>, Error>
    ensures names { IfOk result (λ names. map string_bytes names.items
        ≡ map (λ c. c.name) (columns_of columns.now)) }
    ensures errors { IfErr result (λ e. e ≡ Memory) }
{
    let mut names = Vec::new(alloc);
    for column in columns {
        names.push(String::from_str(alloc, column.name())?)?;
    }
    Ok(names)
}

/// The values of each row. The one error is `Memory`.
pub fn all_values(alloc: Global, rows: Rows) -> Result<Vec<Vec<Value>>, Error>
    ensures values { IfOk result (λ values. map (λ row. data_of row.items) values.items
        ≡ map (λ row. row.values) (rows_left rows)) }
    ensures errors { IfErr result (λ e. e ≡ Memory) }
{
    let mut values = Vec::new(alloc);
    for row in rows {
        values.push(values_of(alloc, &row)?)?;
    }
    Ok(values)
}

// The values of a row.
fn values_of(alloc: Global, row: &Row) -> Result<Vec<Value>, Error>
    ensures values { IfOk result (λ values. data_of values.items ≡ row.now.values) }
    ensures errors { IfErr result (λ e. e ≡ Memory) }
{
    let mut values = Vec::new(alloc);
    for index in 0..row.len() {
        values.push(row[index].clone(alloc)?)?;
    }
    Ok(values)
}
