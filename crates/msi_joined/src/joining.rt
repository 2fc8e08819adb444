//! The rows of one insert behind those of another.
ghost use Rattle.std.specs.Prelude.{◌≡◌, ◌++◌, IfErr, IfOk, map};
ghost use Rattle.cfb_medium.specs.declared.error.Error.TheVariants.{Memory};
ghost use Rattle.msi_changes.specs.Said.{insert_name, insert_rows};
ghost use Rattle.msi_values.specs.Datum.{data_of};

use cfb_medium::Error;
use msi_changes::Insert;
use msi_values::Value;
use std::alloc::Global;

/// The insert with copies of the other's rows behind its own. The name of the other's table plays no part. The one error is `Memory`,
/// which spends the insert.
pub fn joined_with(alloc: Global, insert: Insert, other: &Insert) -> Result<Insert, Error>
    ensures name { IfOk result (λ all. insert_name all ≡ insert_name insert) }
    ensures rows { IfOk result (λ all. insert_rows all
        ≡ insert_rows insert ++ insert_rows other.now) }
    ensures errors { IfErr result (λ e. e ≡ Memory) }
{
    let rows = match copies_of(alloc, other.new_rows()) {
        Ok(rows) => rows,
        Err(error) => return Err(error),
    };
    insert.rows(rows)
}

// Copies of rows. The one error is `Memory`.
fn copies_of(alloc: Global, rows: &[Vec<Value>]) -> Result<Vec<Vec<Value>>, Error>
    ensures copies { IfOk result (λ copies. map (λ row. data_of row.items) copies.items
        ≡ map (λ row. data_of row.items) rows.now) }
    ensures errors { IfErr result (λ e. e ≡ Memory) }
{
    let mut copies = Vec::new(alloc);
    for row in rows {
        copies.push(copy_of(alloc, row)?)?;
    }
    Ok(copies)
}

// A copy of one row. The one error is `Memory`.
fn copy_of(alloc: Global, row: &[Value]) -> Result<Vec<Value>, Error>
    ensures copy { IfOk result (λ copy. data_of copy.items ≡ data_of row.now) }
    ensures errors { IfErr result (λ e. e ≡ Memory) }
{
    let mut copy = Vec::new(alloc);
    for value in row {
        copy.push(value.clone(alloc)?)?;
    }
    Ok(copy)
}
