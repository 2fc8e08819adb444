//! Packages that are built of values, and a writer that writes other values than were said.
use cfb_medium::Error;
use msi_building::{Said, SaidTable, built_package, said_package};
use msi_columns::Column;
use msi_texts::CodePage;
use msi_values::Value;
use serde_json::Value as Json;
use std::alloc::Global;
use test_support::{Row, copy_of};

/// What is answered where a writer wrote the first rows of a table, and the others were said.
pub fn written(alloc: Global, row: &Row) -> Result<String, Error> {
    let made = built_package(alloc, &said_of(alloc, row.list(1))?)?;
    let said = said_of(alloc, row.list(2))?;
    match said_package(alloc, made.into_medium(), &said) {
        Ok(_) => copy_of(alloc, "as it was said"),
        Err(error) => Err(error),
    }
}

// A package of one table with these rows of a number and a text.
fn said_of(alloc: Global, rows: &[Json]) -> Result<Said, Error> {
    let mut tables = Vec::new(alloc);
    tables.push(table_of(alloc, rows)?)?;
    Ok(Said {
        codepage: CodePage::Utf8,
        tables,
        properties: Vec::new(alloc),
        streams: Vec::new(alloc),
    })
}

fn table_of(alloc: Global, rows: &[Json]) -> Result<SaidTable, Error> {
    let mut columns = Vec::new(alloc);
    columns.push(Column::build(alloc, "Number")?.primary_key().int16())?;
    columns.push(Column::build(alloc, "Guest")?.string(72))?;
    let mut said = Vec::new(alloc);
    for row in rows {
        said.push(values_of(alloc, &Row::of(alloc, row)?)?)?;
    }
    Ok(SaidTable {
        name: copy_of(alloc, "Seats")?,
        columns,
        rows: said,
    })
}

fn values_of(alloc: Global, row: &Row) -> Result<Vec<Value>, Error> {
    let mut values = Vec::new(alloc);
    let number = i32::try_from(row.number(0)).unwrap_or(0);
    values.push(Value::Int(number))?;
    values.push(Value::text(alloc, row.text(1))?)?;
    Ok(values)
}
