//! The rows of a table as comma-separated values (RFC 4180).
use crate::json::{text_of_json, value_of_cell};
use cfb_medium::Error;
use csv::Writer;
use msi::Package;
use msi_columns::Column;
use msi_tables::{Row, Rows};
use msi_values::Value;
use package_files::Shown;
use package_reading::columns_of;
use std::alloc::{AllocError, Global};

/// A table as a text: the names of its columns, then its rows, a record each. Null is nothing. The one error is `Memory`.
pub(crate) fn records_of(
    alloc: Global,
    package: &Package<Shown>,
    name: &str,
    rows: Rows,
) -> Result<String, Error> {
    let mut writer = Writer::from_writer(Vec::new(alloc));
    write_record(&mut writer, &heading_of(alloc, columns_of(package, name))?)?;
    for row in rows {
        write_record(&mut writer, &fields_of(alloc, &row)?)?;
    }
    text_of(writer)
}

fn heading_of(alloc: Global, columns: &[Column]) -> Result<Vec<String>, AllocError> {
    let mut fields = Vec::new(alloc);
    for column in columns {
        fields.push(String::from_str(alloc, column.name())?)?;
    }
    Ok(fields)
}

fn fields_of(alloc: Global, row: &Row) -> Result<Vec<String>, AllocError> {
    let mut fields = Vec::new(alloc);
    for place in 0..row.len() {
        if let Some(value) = row.value(place) {
            fields.push(field_of(alloc, value)?)?;
        }
    }
    Ok(fields)
}

fn field_of(alloc: Global, value: &Value) -> Result<String, AllocError> {
    match value {
        Value::Null => Ok(String::new(alloc)),
        Value::Int(number) => format!(in alloc; "{number}"),
        Value::Str(text) => String::from_str(alloc, text),
        Value::Binary => text_of_json(alloc, &value_of_cell(alloc, value)?),
    }
}

// Writes a record. A writer into memory has no error but want of memory.
fn write_record(writer: &mut Writer<Vec<u8>>, fields: &[String]) -> Result<(), Error> {
    for field in fields {
        if writer.write_field(field.as_bytes()).is_err() {
            return Err(Error::Memory);
        }
    }
    match writer.end_record() {
        Ok(()) => Ok(()),
        Err(_) => Err(Error::Memory),
    }
}

// What was written.
fn text_of(writer: Writer<Vec<u8>>) -> Result<String, Error> {
    match writer.into_inner() {
        Ok(bytes) => match String::from_utf8(bytes) {
            Ok(text) => Ok(text),
            Err(_) => Err(Error::InvalidData),
        },
        Err(_) => Err(Error::Memory),
    }
}
