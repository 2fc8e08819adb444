//! Values, and rows of them.
ghost use Rattle.std.specs.Prelude.{◌≡◌, None, Some, if◌then◌else◌, map, option_map};
ghost use Rattle.serde_json.specs.View.{items_view, view};
ghost use Rattle.msi_values.specs.Datum.{binary, data_of, datum_of};
ghost use Rattle.json_parts.specs.Reads.{ReturnsOrInvalidInput};
ghost use Rattle.json_parts.specs.Values.{all_in, marked, row_in, rows_in, value_in};

use crate::members::{has_only, integer_of, list_of};
use cfb_medium::Error;
use msi_values::Value;
use serde_json::Value as Json;
use std::alloc::Global;

/// A value of a row: null, a number of 32 bits, a text, or `{"binary":true}`. `InvalidInput` for anything else, `Memory` where there
/// is no room for the text.
pub fn value_of(alloc: Global, json: &Json) -> Result<Value, Error>
    ensures { ReturnsOrInvalidInput datum_of result (value_in (view json.now)) }
{
    match json {
        Json::Null => Ok(Value::Null),
        Json::Number(_) => Ok(Value::Int(integer_of(json)?)),
        Json::String(text) => Ok(Value::Str(String::from_str(alloc, text.as_str())?)),
        Json::Object(_) => {
            if has_only(json, &["binary"]) && is_marked(json.get("binary")) {
                Ok(Value::Binary)
            } else {
                Err(Error::InvalidInput)
            }
        }
        _ => Err(Error::InvalidInput),
    }
}

// Whether it is the word true.
fn is_marked(json: Option<&Json>) -> bool
    ensures { marked (option_map (λ one. view one.now) json.entry)
        ≡ (if result then Some binary else None) }
{
    match json {
        Some(Json::Bool(mark)) => *mark,
        _ => false,
    }
}

// A row of values.
fn row_of(alloc: Global, json: &Json) -> Result<Vec<Value>, Error>
    ensures { ReturnsOrInvalidInput (λ row. data_of row.items) result (row_in (view json.now)) }
{
    let list = list_of(json)?;
    values_of(alloc, list)
}

fn values_of(alloc: Global, list: &[Json]) -> Result<Vec<Value>, Error>
    ensures { ReturnsOrInvalidInput (λ row. data_of row.items) result
        (all_in value_in (items_view list.now)) }
{
    let mut row = Vec::new(alloc);
    for item in list {
        row.push(value_of(alloc, item)?)?;
    }
    Ok(row)
}

/// Rows of values: a list of lists. `InvalidInput` for anything else, `Memory` where there is no room.
pub fn rows_of(alloc: Global, json: &Json) -> Result<Vec<Vec<Value>>, Error>
    ensures { ReturnsOrInvalidInput (λ rows. map (λ row. data_of row.items) rows.items) result
        (rows_in (view json.now)) }
{
    let list = list_of(json)?;
    each_row(alloc, list)
}

fn each_row(alloc: Global, list: &[Json]) -> Result<Vec<Vec<Value>>, Error>
    ensures { ReturnsOrInvalidInput (λ rows. map (λ row. data_of row.items) rows.items) result
        (all_in row_in (items_view list.now)) }
{
    let mut rows = Vec::new(alloc);
    for item in list {
        rows.push(row_of(alloc, item)?)?;
    }
    Ok(rows)
}
