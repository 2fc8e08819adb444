//! How many rows of _Columns each table has that _Tables names.
ghost use Rattle.std.specs.Prelude.{◌≡◌, ◌≤◌, ◌&&◌, ◌⊎◌, List, [], IfErr, IfOk, IfSome, ℕ, false, length, true};
ghost use Rattle.std.specs.List.{list_all};
ghost use Rattle.cfb_medium.specs.declared.error.Error.TheVariants.{InvalidData, Memory};
ghost use Rattle.msi_tables.specs.Schema.{is_of_listed};
ghost use Rattle.msi_schema.specs.Index.{rows_said};
ghost use Rattle.msi_schema.specs.Headings.{at_text, has_name, ColumnsAreCounted};

use crate::cells::{text_of, value_at};
use cfb_medium::Error;
use msi_values::BorrowedValue;
use std::alloc::Global;
use std::collections::BTreeMap;

// For each name of _Tables, how many rows of _Columns begin with it. InvalidData where a row of _Tables begins with no text, or
// one of _Columns with none of the names.
pub(crate) fn row_counts<'a>(
    alloc: Global,
    tables: &[Vec<BorrowedValue<'a>>],
    columns: &[Vec<BorrowedValue<'a>>],
) -> Result<BTreeMap<&'a str, usize>, Error>
    requires { length columns.now ≤ 65536 }
    ensures ok { IfOk result (λ counts.
        (list_all (is_of_listed (rows_said tables.now)) (rows_said columns.now) ≡ true)
        × ColumnsAreCounted (rows_said tables.now) (rows_said columns.now) counts) }
    ensures few { IfOk result (λ counts.
        (name : List ℕ) → IfSome (at_text counts name) (λ n. n ≤ 65536)) }
    ensures errors { IfErr result (λ e. (e ≡ Memory) ⊎ ((e ≡ InvalidData)
        × ((list_all has_name (rows_said tables.now)
        && list_all (is_of_listed (rows_said tables.now)) (rows_said columns.now)) ≡ false))) }
{
    let mut counts = names_of(alloc, tables)?;
    for row in columns {
        let Some(name) = text_of(value_at(row, 0)) else {
            return Err(Error::InvalidData);
        };
        let Some(count) = counts.get(&name).copied() else {
            return Err(Error::InvalidData);
        };
        counts.insert(name, count + 1)?;
    }
    Ok(counts)
}

// The names of _Tables, each with no row of _Columns yet. InvalidData where a row begins with no text.
fn names_of<'a>(
    alloc: Global,
    tables: &[Vec<BorrowedValue<'a>>],
) -> Result<BTreeMap<&'a str, usize>, Error>
    ensures ok { IfOk result (λ names. ColumnsAreCounted (rows_said tables.now) [] names) }
    ensures errors { IfErr result (λ e. (e ≡ Memory)
        ⊎ ((e ≡ InvalidData) × (list_all has_name (rows_said tables.now) ≡ false))) }
{
    let mut names = BTreeMap::new(alloc);
    for row in tables {
        let Some(name) = text_of(value_at(row, 0)) else {
            return Err(Error::InvalidData);
        };
        names.insert(name, 0)?;
    }
    Ok(names)
}
