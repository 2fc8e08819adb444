//! The rows of the system tables that describe the columns of a table.
ghost use Rattle.std.specs.Prelude.{◌≡◌, ◌≤◌, length, map, true, IfErr, IfOk, IsTrue};
ghost use Rattle.std.specs.List.{list_all};
ghost use Rattle.cfb_medium.specs.declared.error.Error.TheVariants.{Memory};
ghost use Rattle.msi_columns.specs.Column.{length_kept};
ghost use Rattle.msi_columns.specs.Held.{column_of, columns_of};
ghost use Rattle.msi_tables.specs.Schema.{category_of, choices_of, columns_row, columns_rows, high_of, key_column_of, key_table_of, low_of, validation_row, yes_or_no};
ghost use Rattle.msi_values.specs.Datum.{data_of, datum_of, text};

use cfb_medium::Error;
use msi_columns::Column;
use msi_values::Value;
use std::alloc::Global;

/// The rows of _Columns that describe a table with these columns, at most 32. The one error is `Memory`.
pub fn columns_rows(
    alloc: Global,
    table: &str,
    columns: &[Column],
) -> Result<Vec<Vec<Value>>, Error>
    requires few { length columns.now ≤ 32 }
    requires kept { list_all (λ c. length_kept (column_of c).kind) columns.now ≡ true }
    ensures ok { IfOk result (λ rows. map (λ row. data_of row.items) rows.items
        ≡ columns_rows table.now 1 (columns_of columns.now)) }
    ensures errors { IfErr result (λ e. e ≡ Memory) }
{
    let mut rows = Vec::new(alloc);
    let mut number = 0u16;
    for column in columns {
        number += 1;
        rows.push(columns_row(alloc, table, number, column)?)?;
    }
    Ok(rows)
}

// The row for one of them.
fn columns_row(
    alloc: Global,
    table: &str,
    number: u16,
    column: &Column,
) -> Result<Vec<Value>, Error>
    requires { IsTrue (length_kept (column_of column.now).kind) }
    ensures ok { IfOk result (λ row. data_of row.items
        ≡ columns_row table.now number (column_of column.now)) }
    ensures errors { IfErr result (λ e. e ≡ Memory) }
{
    let table = text_value(alloc, table)?;
    let name = text_value(alloc, column.name())?;
    let bits = Value::Int(column.bitfield());
    let values = vec![in alloc; table, Value::from(number), name, bits]?;
    Ok(values)
}

/// The rows of _Validation that describe a table with these columns. The one error is `Memory`.
pub fn validation_rows(
    alloc: Global,
    table: &str,
    columns: &[Column],
) -> Result<Vec<Vec<Value>>, Error>
    ensures ok { IfOk result (λ rows. map (λ row. data_of row.items) rows.items
        ≡ map (validation_row table.now) (columns_of columns.now)) }
    ensures errors { IfErr result (λ e. e ≡ Memory) }
{
    let mut rows = Vec::new(alloc);
    for column in columns {
        rows.push(validation_row(alloc, table, column)?)?;
    }
    Ok(rows)
}

// The row for one of them.
fn validation_row(alloc: Global, table: &str, column: &Column) -> Result<Vec<Value>, Error>
    ensures ok { IfOk result (λ row. data_of row.items
        ≡ validation_row table.now (column_of column.now)) }
    ensures errors { IfErr result (λ e. e ≡ Memory) }
{
    let table = text_value(alloc, table)?;
    let name = text_value(alloc, column.name())?;
    let answer = text_value(alloc, if column.is_nullable() { "Y" } else { "N" })?;
    let (low, high) = range_values(column);
    let (key_table, key_column) = foreign_values(alloc, column)?;
    let category = category_value(alloc, column)?;
    let choices = choices_value(alloc, column)?;
    let values = vec![in alloc;
        table,
        name,
        answer,
        low,
        high,
        key_table,
        key_column,
        category,
        choices,
        Value::Null,
    ]?;
    Ok(values)
}

// A text as a value.
fn text_value(alloc: Global, chars: &str) -> Result<Value, Error>
    ensures ok { IfOk result (λ value. datum_of value ≡ text chars.now) }
    ensures errors { IfErr result (λ e. e ≡ Memory) }
{
    Ok(Value::Str(String::from_str(alloc, chars)?))
}

// The least and the greatest number that a column takes.
fn range_values(column: &Column) -> (Value, Value)
    ensures low { datum_of result.0 ≡ low_of (column_of column.now).range }
    ensures high { datum_of result.1 ≡ high_of (column_of column.now).range }
{
    match column.value_range() {
        Some((low, high)) => (Value::Int(low), Value::Int(high)),
        None => (Value::Null, Value::Null),
    }
}

// The table and the number of the column whose keys its values are.
fn foreign_values(alloc: Global, column: &Column) -> Result<(Value, Value), Error>
    ensures ok { IfOk result (λ values. (datum_of values.0
        ≡ key_table_of (column_of column.now).foreign)
        × (datum_of values.1 ≡ key_column_of (column_of column.now).foreign)) }
    ensures errors { IfErr result (λ e. e ≡ Memory) }
{
    match column.foreign_key() {
        Some((table, number)) => Ok((text_value(alloc, table)?, Value::Int(number))),
        None => Ok((Value::Null, Value::Null)),
    }
}

// The category of its texts.
fn category_value(alloc: Global, column: &Column) -> Result<Value, Error>
    ensures ok { IfOk result (λ value. datum_of value
        ≡ category_of (column_of column.now).category) }
    ensures errors { IfErr result (λ e. e ≡ Memory) }
{
    match column.category() {
        Some(category) => text_value(alloc, category.as_str()),
        None => Ok(Value::Null),
    }
}

// The texts that it takes, joined by `;`.
#[tactic(auto, using(crate::proofs::Joined::choices_said))]
fn choices_value(alloc: Global, column: &Column) -> Result<Value, Error>
    ensures ok { IfOk result (λ value. datum_of value
        ≡ choices_of (column_of column.now).choices) }
    ensures errors { IfErr result (λ e. e ≡ Memory) }
{
    match column.enum_values() {
        Some(texts) => Ok(Value::Str(texts.join(alloc, ";")?)),
        None => Ok(Value::Null),
    }
}
