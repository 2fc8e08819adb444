//! What is said, as values that can be put in order.
ghost use Rattle.msi_building.specs.Saying.{said_streams, said_tables};
ghost use Rattle.msi_tables.specs.Schema.{columns_name, tables_name};
ghost use Rattle.msi_values.specs.Datum.{data_of};
ghost use Rattle.std.specs.Prelude.{◌≡◌, ◌∷◌, map, string_bytes, IfOk};

use crate::said::{SaidStream, SaidTable};
use cfb_medium::Error;
use msi_values::Value;
use std::alloc::{AllocError, Global};

/// The same rows.
pub(crate) fn copies_of_rows(alloc: Global, rows: &[Vec<Value>]) -> Result<Vec<Vec<Value>>, Error>
    ensures { IfOk result (λ copies. map (λ row. data_of row.items) copies.items
        ≡ map (λ row. data_of row.items) rows.now) }
{
    let mut copies = Vec::new(alloc);
    for row in rows {
        copies.push(copies_of(alloc, row)?)?;
    }
    Ok(copies)
}

fn copies_of(alloc: Global, values: &[Value]) -> Result<Vec<Value>, Error>
    ensures { IfOk result (λ copies. data_of copies.items ≡ data_of values.now) }
{
    let mut copies = Vec::new(alloc);
    for value in values {
        copies.push(value.clone(alloc)?)?;
    }
    Ok(copies)
}

/// The names of the tables that are said, and of the two that tell of tables.
pub(crate) fn all_names(alloc: Global, tables: &[SaidTable]) -> Result<Vec<String>, AllocError>
    ensures { IfOk result (λ names. map string_bytes names.items
        ≡ tables_name ∷ columns_name ∷ said_tables tables.now) }
{
    let mut names = Vec::new(alloc);
    names.push(String::from_str(alloc, "_Tables")?)?;
    names.push(String::from_str(alloc, "_Columns")?)?;
    for table in tables {
        names.push(String::from_str(alloc, &table.name)?)?;
    }
    Ok(names)
}

/// The names of the streams that are said.
pub(crate) fn names_said(alloc: Global, streams: &[SaidStream]) -> Result<Vec<String>, AllocError>
    ensures { IfOk result (λ names. map string_bytes names.items ≡ said_streams streams.now) }
{
    let mut names = Vec::new(alloc);
    for stream in streams {
        names.push(String::from_str(alloc, &stream.name)?)?;
    }
    Ok(names)
}
