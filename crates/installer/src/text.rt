//! Answers as text.
ghost use Rattle.std.specs.Prelude.{◌≡◌, IfErr, IfOk, map, pos, string_bytes};
ghost use Rattle.serde_json.specs.Data.{unsigned};
ghost use Rattle.serde_json.specs.Data as json;
ghost use Rattle.serde_json.specs.View.{items_of, view};
ghost use Rattle.serde_json.specs.Written.{compact_text};
ghost use Rattle.cfb_medium.specs.Times.{units_of};
ghost use Rattle.msi_columns.specs.Held.{column_of, columns_of};
ghost use Rattle.msi_props.specs.Held.{pair_in, property_in};
ghost use Rattle.msi_values.specs.Datum.{data_of, datum_of};
ghost use Rattle.installer.specs.RepliesOf.{reply_of};
ghost use Rattle.installer.specs.Answers.{cell_data, column_data, hex_text, kind_name, names_data, numbered_data, property_data, reply_data, row_data, rows_data};

use crate::Answer;
use cfb_medium::{Error, Timestamp};
use msi_columns::Column;
use msi_props::PropertyValue;
use msi_values::Value;
use serde_json::{Value as Json, json};
use std::alloc::{AllocError, Global};

/// The text of an answer: compact JSON, with the keys of its objects in rising order.
#[tactic(auto, using(crate::proofs::Floats::reply_has_none))]
pub fn answer_text(alloc: Global, answer: &Answer) -> Result<String, AllocError>
    ensures { IfOk result (λ text. string_bytes text
        ≡ compact_text (reply_data (reply_of answer.now))) }
{
    let value = answer_value(alloc, answer)?;
    value.to_string(alloc)
}

fn answer_value(alloc: Global, answer: &Answer) -> Result<Json, AllocError>
    ensures { IfOk result (λ v. view v ≡ reply_data (reply_of answer.now)) }
{
    match answer {
        Answer::Done => json!(in alloc; "ok"),
        Answer::Names(names) => names_value(alloc, names),
        Answer::Rows(names, rows) => {
            let columns = names_value(alloc, names)?;
            let rows = rows_value(alloc, rows)?;
            json!(in alloc; {"columns": columns, "rows": rows})
        }
        Answer::Columns(columns) => columns_value(alloc, columns),
        Answer::Bytes(bytes) => {
            let hex = Json::String(hex_of(alloc, bytes)?);
            json!(in alloc; {"hex": hex})
        }
        Answer::Yes(yes) => Ok(Json::Bool(*yes)),
        Answer::Summary(properties) => summary_value(alloc, properties),
        Answer::Codepage(page) => {
            let id = Json::from(page.id());
            json!(in alloc; {"codepage": id})
        }
        Answer::Refused(error) => {
            let kind = Json::String(String::from_str(alloc, kind_of(*error))?);
            json!(in alloc; {"refused": kind})
        }
    }
}

// The name of an error's kind.
fn kind_of(error: Error) -> &'static str
    ensures { result.now ≡ kind_name error }
{
    match error {
        Error::InvalidData => "InvalidData",
        Error::InvalidInput => "InvalidInput",
        Error::NotFound => "NotFound",
        Error::AlreadyExists => "AlreadyExists",
        Error::UnexpectedEof => "UnexpectedEof",
        Error::Full => "Full",
        Error::Memory => "Memory",
        Error::Device => "Device",
        Error::Failed => "Failed",
    }
}

fn names_value(alloc: Global, names: &[String]) -> Result<Json, AllocError>
    ensures { IfOk result (λ v. view v ≡ names_data (map string_bytes names.now)) }
{
    let mut list = Vec::new(alloc);
    for name in names {
        list.push(Json::String(String::from_str(alloc, name.as_str())?))?;
    }
    Ok(Json::Array(list))
}

/// A value of a row.
pub fn cell_value(alloc: Global, cell: &Value) -> Result<Json, AllocError>
    ensures { IfOk result (λ v. view v ≡ cell_data (datum_of cell.now)) }
{
    match cell {
        Value::Null => Ok(Json::Null),
        Value::Int(number) => Ok(Json::from(*number)),
        Value::Str(text) => Ok(Json::String(String::from_str(alloc, text.as_str())?)),
        Value::Binary => json!(in alloc; {"binary": true}),
    }
}

fn row_value(alloc: Global, row: &[Value]) -> Result<Json, AllocError>
    ensures { IfOk result (λ v. view v ≡ row_data (data_of row.now)) }
{
    let mut list = Vec::new(alloc);
    for cell in row {
        list.push(cell_value(alloc, cell)?)?;
    }
    Ok(Json::Array(list))
}

fn rows_value(alloc: Global, rows: &[Vec<Value>]) -> Result<Json, AllocError>
    ensures { IfOk result (λ v. view v ≡ rows_data (map (λ row. data_of row.items) rows.now)) }
{
    let mut list = Vec::new(alloc);
    for row in rows {
        list.push(row_value(alloc, row)?)?;
    }
    Ok(Json::Array(list))
}

fn column_value(alloc: Global, column: &Column) -> Result<Json, AllocError>
    ensures { IfOk result (λ v. view v ≡ column_data (column_of column.now)) }
{
    let (key, localizable) = (column.is_primary_key(), column.is_localizable());
    let name = Json::String(String::from_str(alloc, column.name())?);
    let nullable = column.is_nullable();
    let kind = Json::String(format!(in alloc; "{}", column.coltype())?);
    json!(in alloc; {
        "key": key,
        "localizable": localizable,
        "name": name,
        "nullable": nullable,
        "type": kind,
    })
}

/// The columns of a table.
pub fn columns_value(alloc: Global, columns: &[Column]) -> Result<Json, AllocError>
    ensures { IfOk result (λ v. view v
        ≡ json.array (items_of (map column_data (columns_of columns.now)))) }
{
    let mut list = Vec::new(alloc);
    for column in columns {
        list.push(column_value(alloc, column)?)?;
    }
    Ok(Json::Array(list))
}

// Two hexadecimal digits for each byte.
fn hex_of(alloc: Global, bytes: &[u8]) -> Result<String, AllocError>
    ensures { IfOk result (λ text. string_bytes text ≡ hex_text bytes.now) }
{
    hex::encode(alloc, bytes)
}

/// The value of a property of the summary.
pub fn property_value(alloc: Global, property: &PropertyValue) -> Result<Json, AllocError>
    ensures { IfOk result (λ v. view v ≡ property_data (property_in property.now)) }
{
    match property {
        PropertyValue::Empty => Ok(Json::Null),
        PropertyValue::Null => Ok(Json::Null),
        PropertyValue::I1(number) => Ok(Json::from(*number)),
        PropertyValue::I2(number) => Ok(Json::from(*number)),
        PropertyValue::I4(number) => Ok(Json::from(*number)),
        PropertyValue::LpStr(text) => Ok(Json::String(String::from_str(alloc, text.as_str())?)),
        PropertyValue::FileTime(moment) => {
            let units = Json::from(units(alloc, *moment)?);
            json!(in alloc; {"time": units})
        }
    }
}

// The units of 100 ns of a moment, as a file holds them.
fn units(alloc: Global, moment: Timestamp) -> Result<u64, AllocError>
    ensures { IfOk result (λ units. units ≡ units_of moment) }
{
    let mut bytes = Vec::new(alloc);
    if moment.write_to(&mut bytes).is_err() {
        return Err(AllocError);
    }
    Ok(u64::from_le_bytes([
        bytes[0], bytes[1], bytes[2], bytes[3], bytes[4], bytes[5], bytes[6], bytes[7],
    ]))
}

fn numbered_value(alloc: Global, numbered: &(u32, PropertyValue)) -> Result<Json, AllocError>
    ensures { IfOk result (λ v. view v ≡ numbered_data (pair_in numbered.now)) }
{
    let mut pair = Vec::new(alloc);
    pair.push(Json::from(numbered.0))?;
    pair.push(property_value(alloc, &numbered.1)?)?;
    Ok(Json::Array(pair))
}

fn summary_value(alloc: Global, properties: &[(u32, PropertyValue)]) -> Result<Json, AllocError>
    ensures { IfOk result (λ v. view v
        ≡ json.array (items_of (map numbered_data (map pair_in properties.now)))) }
{
    let mut list = Vec::new(alloc);
    for numbered in properties {
        list.push(numbered_value(alloc, numbered)?)?;
    }
    Ok(Json::Array(list))
}
