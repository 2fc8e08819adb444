//! The columns of a table, found by their numbers.
ghost use Rattle.std.specs.Prelude.{◌≡◌, ◌+◌, ◌<◌, ◌≤◌, ◌^◌, ◌∷◌, [], IfErr, IfOk, List, filter, find, option_and_then, pos};
ghost use Rattle.cfb_medium.specs.declared.error.Error.TheVariants.{InvalidData, Memory};
ghost use Rattle.msi_texts.specs.Results.{ReturnsOrOutOfMemory, or_refused};
ghost use Rattle.msi_values.specs.Borrowed.{borrowed_data};
ghost use Rattle.msi_values.specs.Datum.{number, text, Datum};
ghost use Rattle.msi_columns.specs.Held.{column_of, columns_of};
ghost use Rattle.msi_tables.specs.Schema.{begins_with, column_read, columns_read, is_number};
ghost use Rattle.msi_schema.specs.Index.{IsIndex};

use crate::cells::{text_of, value_at};
use crate::column::column_from_rows;
use cfb_medium::Error;
use msi_columns::Column;
use msi_values::BorrowedValue;
use std::alloc::Global;
use std::collections::BTreeMap;

/// The columns of a table from 1 to this number, by the rows of _Columns and _Validation under their first two values.
/// InvalidData where a number has no row, or its rows describe no column.
pub fn columns_of_table<'m, 'a>(
    alloc: Global,
    table: &'a str,
    count: usize,
    columns: &BTreeMap<Vec<BorrowedValue<'a>>, &'m [BorrowedValue<'a>]>,
    validation: &BTreeMap<Vec<BorrowedValue<'a>>, &'m [BorrowedValue<'a>]>,
) -> Result<Vec<Column>, Error>
    requires { count ≤ 65536 }
    ensures { (rows others : List (List Datum)) → IsIndex 2 rows columns.now
        → IsIndex 2 others validation.now → ReturnsOrOutOfMemory (λ cs. columns_of cs.items) result
        (or_refused (columns_read others (filter (begins_with table.now) rows) count 1)
        InvalidData) }
{
    let mut described = Vec::new(alloc);
    for before in 0..count {
        match numbered_column(alloc, table, before as u32 + 1, columns, validation) {
            Err(error) => return Err(error),
            Ok(column) => described.push(column)?,
        }
    }
    Ok(described)
}

// The column of a number.
fn numbered_column<'m, 'a>(
    alloc: Global,
    table: &'a str,
    number: u32,
    columns: &BTreeMap<Vec<BorrowedValue<'a>>, &'m [BorrowedValue<'a>]>,
    validation: &BTreeMap<Vec<BorrowedValue<'a>>, &'m [BorrowedValue<'a>]>,
) -> Result<Column, Error>
    requires { number < 2 ^ 31 }
    ensures { (rows others : List (List Datum)) → IsIndex 2 rows columns.now
        → IsIndex 2 others validation.now → ReturnsOrOutOfMemory column_of result
        (or_refused (option_and_then (column_read others)
        (find (is_number number) (filter (begins_with table.now) rows))) InvalidData) }
{
    let key = pair(
        alloc,
        BorrowedValue::Str(table),
        BorrowedValue::Int(number as i32),
    )?;
    let Some(row) = columns.get(&key) else {
        return Err(Error::InvalidData);
    };
    let Some(name) = text_of(value_at(row, 2)) else {
        return Err(Error::InvalidData);
    };
    let other = pair(alloc, BorrowedValue::Str(table), BorrowedValue::Str(name))?;
    match validation.get(&other) {
        Some(says) => column_from_rows(alloc, row, Some(*says)),
        None => column_from_rows(alloc, row, None),
    }
}

// A key of two values. The one error is Memory.
fn pair<'a>(
    alloc: Global,
    first: BorrowedValue<'a>,
    second: BorrowedValue<'a>,
) -> Result<Vec<BorrowedValue<'a>>, Error>
    ensures ok { IfOk result (λ key. key.items ≡ first.entry ∷ second.entry ∷ []) }
    ensures errors { IfErr result (λ e. e ≡ Memory) }
{
    let mut key = Vec::new(alloc);
    key.push(first)?;
    key.push(second)?;
    Ok(key)
}
