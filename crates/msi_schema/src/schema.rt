//! Reading the schema: the tables that the three system tables tell.
ghost use Rattle.std.specs.Prelude.{◌≡◌, ◌≤◌, ◌⊎◌, IfErr, IfOk, false, length, map, true};
ghost use Rattle.std.specs.List.Sorted.{IsStrictlySortedBy};
ghost use Rattle.std.specs.Ordering.{nat_cmp};
ghost use Rattle.std.specs.Cmp.Lexicographic.{slice_cmp};
ghost use Rattle.cfb_medium.specs.declared.error.Error.TheVariants.{InvalidData, Memory};
ghost use Rattle.msi_columns.specs.Held.{columns_of};
ghost use Rattle.msi_tables.specs.Held.{rows_held};
ghost use Rattle.msi_tables.specs.Schema.{is_schema};
ghost use Rattle.msi_tables.specs.Table.{row_data};
ghost use Rattle.msi_schema.specs.Index.{rows_said};
ghost use Rattle.msi_schema.specs.Headings.{headings_in, AreTold};

use crate::counts::row_counts;
use crate::filled::are_filled;
use crate::found::{described_tables, with_fixed};
use crate::keys::{rows_by_keys, widest};
use crate::values::values_of_rows;
use cfb_medium::Error;
use msi_columns::Column;
use msi_pool::{StringPool, ValueRef};
use msi_tables::Table;
use msi_values::BorrowedValue;
use std::alloc::Global;
use std::collections::BTreeMap;
use std::rc::Rc;

/// The tables that rows of _Tables, _Columns and _Validation tell, by rising names, with the two whose columns are fixed: names,
/// columns, and references as wide as the pool's. InvalidData exactly where the rows describe no tables: a key has a null or
/// stands twice, _Columns has a null or a row of a table that _Tables doesn't name, or a table that _Tables names isn't described.
pub fn schema_tables(
    alloc: Global,
    pool: &StringPool,
    tables: &[Vec<ValueRef>],
    columns: &[Vec<ValueRef>],
    validation: &[Vec<ValueRef>],
) -> Result<Vec<Rc<Table>>, Error>
    requires { length columns.now ≤ 65536 }
    ensures ok { IfOk result (λ found. (is_schema
        (map (row_data pool.now.pool) (rows_held tables.now))
        (map (row_data pool.now.pool) (rows_held columns.now))
        (map (row_data pool.now.pool) (rows_held validation.now)) ≡ true)
        × AreTold (map (row_data pool.now.pool) (rows_held tables.now))
        (map (row_data pool.now.pool) (rows_held columns.now))
        (map (row_data pool.now.pool) (rows_held validation.now))
        pool.now.pool.long (headings_in found.items)) }
    ensures errors { IfErr result (λ e. (e ≡ Memory) ⊎ ((e ≡ InvalidData) × (is_schema
        (map (row_data pool.now.pool) (rows_held tables.now))
        (map (row_data pool.now.pool) (rows_held columns.now))
        (map (row_data pool.now.pool) (rows_held validation.now)) ≡ false))) }
{
    let tables = values_of_rows(alloc, pool, tables)?;
    let columns = values_of_rows(alloc, pool, columns)?;
    let validation = values_of_rows(alloc, pool, validation)?;
    tables_of_values(
        alloc,
        pool.long_string_refs(),
        &tables,
        &columns,
        &validation,
    )
}

// The same of rows as values.
fn tables_of_values<'a>(
    alloc: Global,
    long: bool,
    tables: &[Vec<BorrowedValue<'a>>],
    columns: &[Vec<BorrowedValue<'a>>],
    validation: &[Vec<BorrowedValue<'a>>],
) -> Result<Vec<Rc<Table>>, Error>
    requires { length columns.now ≤ 65536 }
    ensures ok { IfOk result (λ found. (is_schema (rows_said tables.now) (rows_said columns.now)
        (rows_said validation.now) ≡ true) × AreTold (rows_said tables.now)
        (rows_said columns.now) (rows_said validation.now) long (headings_in found.items)) }
    ensures errors { IfErr result (λ e. (e ≡ Memory) ⊎ ((e ≡ InvalidData)
        × (is_schema (rows_said tables.now) (rows_said columns.now) (rows_said validation.now)
        ≡ false))) }
{
    rows_by_keys(alloc, tables, widest(tables))?;
    let by_number = rows_by_keys(alloc, columns, 2)?;
    if !are_filled(columns, widest(columns)) {
        return Err(Error::InvalidData);
    }
    let by_name = rows_by_keys(alloc, validation, 2)?;
    let counts = row_counts(alloc, tables, columns)?;
    let described = described_tables(alloc, tables, &counts, &by_number, &by_name)?;
    let found = with_fixed(alloc, described)?;
    tables_of(alloc, found, long)
}

// Tables of these names and columns, in the names' order. The one error is Memory.
fn tables_of(
    alloc: Global,
    found: BTreeMap<&str, Vec<Column>>,
    long: bool,
) -> Result<Vec<Rc<Table>>, Error>
    ensures ok { IfOk result (λ tables. headings_in tables.items
        ≡ map (λ kept. record { name = kept.0.now; columns = columns_of kept.1.items; long = long })
        found.entry.entries) }
    ensures ordered { IfOk result (λ tables. IsStrictlySortedBy
        (λ x y. slice_cmp nat_cmp x.now y.now) (map (λ kept. kept.0) found.entry.entries)) }
    ensures errors { IfErr result (λ e. e ≡ Memory) }
{
    let mut tables = Vec::with_capacity(alloc, found.len())?;
    let mut left = found;
    while let Some((name, columns)) = left.pop_first() {
        tables.push(Table::new(alloc, name, columns, long)?)?;
    }
    Ok(tables)
}
