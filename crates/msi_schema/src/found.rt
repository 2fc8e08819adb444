//! The columns of all tables, under their names.
ghost use Rattle.std.specs.Prelude.{◌≡◌, ◌<◌, ◌≤◌, ◌⊎◌, List, IfErr, IfOk, IfSome, ℕ, Some, false, filter, length, true};
ghost use Rattle.std.specs.List.{list_all, list_any};
ghost use Rattle.cfb_medium.specs.declared.error.Error.TheVariants.{InvalidData, Memory};
ghost use Rattle.msi_texts.specs.Results.{ReturnsOrOutOfMemory, or_refused};
ghost use Rattle.msi_values.specs.Datum.{Datum};
ghost use Rattle.msi_columns.specs.Held.{columns_of};
ghost use Rattle.msi_tables.specs.Schema.{begins_with, columns_in, names_described, schema_of};
ghost use Rattle.msi_schema.specs.Index.{IsIndex, rows_said};
ghost use Rattle.msi_schema.specs.Headings.{at_text, is_named, ColumnsAreCounted, AreColumnsOfTables};

use crate::cells::{text_of, value_at};
use crate::fixed::{columns_columns, tables_columns};
use crate::tables::columns_of_table;
use cfb_medium::Error;
use msi_columns::Column;
use msi_values::BorrowedValue;
use std::alloc::Global;
use std::collections::BTreeMap;

// The columns of each table that _Tables names, by how many rows of _Columns it has. InvalidData where a row of _Tables begins
// with no text, or one of its tables isn't described.
pub(crate) fn described_tables<'m, 'a>(
    alloc: Global,
    tables: &[Vec<BorrowedValue<'a>>],
    counts: &BTreeMap<&'a str, usize>,
    columns: &BTreeMap<Vec<BorrowedValue<'a>>, &'m [BorrowedValue<'a>]>,
    validation: &BTreeMap<Vec<BorrowedValue<'a>>, &'m [BorrowedValue<'a>]>,
) -> Result<BTreeMap<&'a str, Vec<Column>>, Error>
    requires { (name : List ℕ) → IfSome (at_text counts.now name) (λ n. n ≤ 65536) }
    ensures ok { (rows others : List (List Datum)) → IsIndex 2 rows columns.now
        → IsIndex 2 others validation.now → ColumnsAreCounted (rows_said tables.now) rows counts.now
        → IfOk result
        (λ found. (list_all (names_described rows others) (rows_said tables.now) ≡ true)
        × AreColumnsOfTables (λ name. list_any (begins_with name) (rows_said tables.now))
        (schema_of rows others) found) }
    ensures errors { (rows others : List (List Datum)) → IsIndex 2 rows columns.now
        → IsIndex 2 others validation.now → ColumnsAreCounted (rows_said tables.now) rows counts.now
        → IfErr result (λ e. (e ≡ Memory) ⊎ ((e ≡ InvalidData)
        × (list_all (names_described rows others) (rows_said tables.now) ≡ false))) }
{
    let mut found = BTreeMap::new(alloc);
    for row in tables {
        let Some(name) = text_of(value_at(row, 0)) else {
            return Err(Error::InvalidData);
        };
        if found.contains_key(&name) {
            continue;
        }
        let described = columns_counted(alloc, name, counts, columns, validation)?;
        found.insert(name, described)?;
    }
    Ok(found)
}

// The columns of a table whose rows of _Columns are counted.
fn columns_counted<'m, 'a>(
    alloc: Global,
    name: &'a str,
    counts: &BTreeMap<&'a str, usize>,
    columns: &BTreeMap<Vec<BorrowedValue<'a>>, &'m [BorrowedValue<'a>]>,
    validation: &BTreeMap<Vec<BorrowedValue<'a>>, &'m [BorrowedValue<'a>]>,
) -> Result<Vec<Column>, Error>
    requires { IfSome (at_text counts.now name.now) (λ n. n ≤ 65536) }
    ensures { (rows others : List (List Datum)) → IsIndex 2 rows columns.now
        → IsIndex 2 others validation.now
        → at_text counts.now name.now ≡ Some (length (filter (begins_with name.now) rows))
        → ReturnsOrOutOfMemory (λ cs. columns_of cs.items) result
        (or_refused (schema_of rows others name.now) InvalidData) }
{
    let Some(count) = counts.get(&name).copied() else {
        return Err(Error::InvalidData);
    };
    if count == 0 {
        return Err(Error::InvalidData);
    }
    columns_of_table(alloc, name, count, columns, validation)
}

// The same with the two tables of fixed columns. The one error is Memory.
pub(crate) fn with_fixed<'a>(
    alloc: Global,
    found: BTreeMap<&'a str, Vec<Column>>,
) -> Result<BTreeMap<&'a str, Vec<Column>>, Error>
    ensures ok { (tables rows others : List (List Datum))
        → AreColumnsOfTables (λ name. list_any (begins_with name) tables)
        (schema_of rows others) found.entry
        → IfOk result (λ all. AreColumnsOfTables (is_named tables) (columns_in rows others) all) }
    ensures errors { IfErr result (λ e. e ≡ Memory) }
{
    let mut all = found;
    all.insert("_Columns", columns_columns(alloc)?)?;
    all.insert("_Tables", tables_columns(alloc)?)?;
    Ok(all)
}
