//! Rows by keys that are whole and stand once.
ghost use Rattle.std.specs.Prelude.{◌≡◌, ◌≤◌, ◌⊎◌, All, IfErr, IfOk, false, length, map, take, true};
ghost use Rattle.cfb_medium.specs.declared.error.Error.TheVariants.{InvalidData, Memory};
ghost use Rattle.msi_tables.specs.Schema.{are_keys};
ghost use Rattle.msi_schema.specs.Index.{IsIndex, rows_said};

use crate::filled::are_filled;
use crate::index::rows_by_key;
use cfb_medium::Error;
use msi_values::BorrowedValue;
use std::alloc::Global;
use std::collections::BTreeMap;

// How many values the longest row has.
pub(crate) fn widest(rows: &[Vec<BorrowedValue<'_>>]) -> usize
    ensures { All (λ row. length row.items ≤ result) rows.now }
{
    let mut width = 0;
    for row in rows {
        width = width.max(row.len());
    }
    width
}

// Rows by their first values, of which so many are a key. InvalidData where a key has a null or stands twice.
pub(crate) fn rows_by_keys<'m, 'a>(
    alloc: Global,
    rows: &'m [Vec<BorrowedValue<'a>>],
    width: usize,
) -> Result<BTreeMap<Vec<BorrowedValue<'a>>, &'m [BorrowedValue<'a>]>, Error>
    ensures ok { IfOk result (λ index. (are_keys (map (take width) (rows_said rows.now)) ≡ true)
        × IsIndex width (rows_said rows.now) index) }
    ensures errors { IfErr result (λ e. (e ≡ Memory)
        ⊎ ((e ≡ InvalidData) × (are_keys (map (take width) (rows_said rows.now)) ≡ false))) }
{
    if !are_filled(rows, width) {
        return Err(Error::InvalidData);
    }
    match rows_by_key(alloc, rows, width)? {
        Some(index) => Ok(index),
        None => Err(Error::InvalidData),
    }
}
