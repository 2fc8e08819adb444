//! The order of exported rows.
ghost use Rattle.std.specs.Prelude.{◌≡◌, IfErr, IfOk};
ghost use Rattle.std.specs.List.Sorted.{IsPermutation};
ghost use Rattle.cfb_medium.specs.declared.error.Error.TheVariants.{Memory};
ghost use Rattle.msi_tables.specs.RowsLeft.{rows_left};

use crate::rows::is_key;
use cfb_medium::Error;
use msi_tables::{Row, Rows};
use std::alloc::Global;
use std::cmp::Ordering;

/// The same rows by rising keys: null first, then numbers, then texts by their bytes. So exports of two makers' packages are alike. The one
/// error is `Memory`.
pub fn sorted_rows(alloc: Global, rows: Rows) -> Result<Vec<Row>, Error>
    ensures ok { IfOk result (λ sorted. IsPermutation (rows_left rows) sorted.items) }
    ensures errors { IfErr result (λ e. e ≡ Memory) }
{
    let mut sorted: Vec<Row> = rows.collect(alloc)?;
    sorted.sort_by(|one, other| compare_keys(one, other))?;
    Ok(sorted)
}

// The order of two rows of a table.
pub(crate) fn compare_keys(one: &Row, other: &Row) -> Ordering {
    for place in 0..one.len() {
        if is_key(one, place) && one.value(place) != other.value(place) {
            return one.value(place).cmp(&other.value(place));
        }
    }
    Ordering::Equal
}
