//! Rows by the values that stand first in them.
ghost use Rattle.cfb_medium.specs.declared.error.Error.TheVariants.{Memory};
ghost use Rattle.std.specs.Prelude.{◌≡◌, false, true, IfErr, IfOk, MatchOption, map, take};
ghost use Rattle.msi_values.specs.Borrowed.{borrowed_data};
ghost use Rattle.msi_tables.specs.Table.{are_distinct};
ghost use Rattle.msi_schema.specs.Index.{IsIndex, rows_said};

use cfb_medium::Error;
use msi_values::BorrowedValue;
use std::alloc::Global;
use std::collections::BTreeMap;

/// Rows by their first values, of which so many are a key; none where a key stands twice. The one error is Memory.
pub fn rows_by_key<'m, 'a>(
    alloc: Global,
    rows: &'m [Vec<BorrowedValue<'a>>],
    width: usize,
) -> Result<Option<BTreeMap<Vec<BorrowedValue<'a>>, &'m [BorrowedValue<'a>]>>, Error>
    ensures ok { IfOk result (λ found. MatchOption found
        (are_distinct (map (take width) (rows_said rows.now)) ≡ false)
        (λ index. (are_distinct (map (take width) (rows_said rows.now)) ≡ true)
        × IsIndex width (rows_said rows.now) index)) }
    ensures errors { IfErr result (λ e. e ≡ Memory) }
{
    let mut index = BTreeMap::new(alloc);
    for row in rows {
        let key = key_of(alloc, row, width)?;
        match index.insert(key, row.as_slice())? {
            Some(_) => return Ok(None),
            None => {}
        }
    }
    Ok(Some(index))
}

// The first values of a row. The one error is Memory.
fn key_of<'a>(
    alloc: Global,
    row: &[BorrowedValue<'a>],
    width: usize,
) -> Result<Vec<BorrowedValue<'a>>, Error>
    ensures ok { IfOk result (λ key. borrowed_data key.items
        ≡ take width (borrowed_data row.now)) }
    ensures errors { IfErr result (λ e. e ≡ Memory) }
{
    if row.len() <= width {
        let all = copy_of_values(alloc, row)?;
        return Ok(all);
    }
    let front = copy_of_values(alloc, &row[..width])?;
    Ok(front)
}

// These values again. The one error is Memory.
fn copy_of_values<'a>(
    alloc: Global,
    row: &[BorrowedValue<'a>],
) -> Result<Vec<BorrowedValue<'a>>, Error>
    ensures ok { IfOk result (λ values. borrowed_data values.items ≡ borrowed_data row.now) }
    ensures errors { IfErr result (λ e. e ≡ Memory) }
{
    let mut values = Vec::new(alloc);
    for value in row {
        values.push(*value)?;
    }
    Ok(values)
}
