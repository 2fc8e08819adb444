//! Columns of _Validation that aren't as they must be.
ghost use Rattle.std.specs.Prelude.{◌≡◌, ◌↔◌, ◌++◌, [], option_map, slice_get, IfErr, IfOk, IfSome, OnOk};
ghost use Rattle.cfb_medium.specs.declared.error.Error.TheVariants.{Memory};
ghost use Rattle.msi_columns.specs.Held.{column_of, columns_of};
ghost use Rattle.msi_parts.specs.Judged.{heading_named, IsUsual};
ghost use Rattle.msi_schema.specs.Headings.{headings_in};
ghost use Rattle.msi_tables.specs.Schema.{validation_name};
ghost use Rattle.msi_findings.specs.Misshapen.{are_alike, is_alike, is_same_type, misshapen, unlike_at, unlike_from};

use cfb_medium::Error;
use msi_columns::{Column, ColumnType};
use msi_parts::table_named;
use msi_schema::validation_columns;
use msi_tables::Table;
use std::alloc::{AllocError, Global};
use std::rc::Rc;

/// The positions, from 1, at which the columns of `_Validation`, where it is among the tables, differ from the ten that it must have, in
/// order: in their type, in whether they belong to the key, or since only one of the two lists has a column there. The one error is
/// `Memory`.
pub fn misshapen_validation(alloc: Global, tables: &[Rc<Table>]) -> Result<Vec<usize>, Error>
    ensures found { IfOk result (λ found. found.items
        ≡ misshapen (heading_named (headings_in tables.now) validation_name)) }
    ensures none { IfOk result (λ found. (found.items ≡ [])
        ↔ IfSome (heading_named (headings_in tables.now) validation_name) IsUsual) }
    ensures errors { IfErr result (λ e. e ≡ Memory) }
{
    let wanted = validation_columns(alloc)?;
    match table_named(tables, "_Validation") {
        Some(table) => unlike_positions(alloc, table.columns(), &wanted),
        None => Ok(Vec::new(alloc)),
    }
}

// The positions, from 1, at which these columns aren't alike, or only one of the lists has one, in order. The one error is `Memory`.
fn unlike_positions(
    alloc: Global,
    columns: &[Column],
    wanted: &[Column],
) -> Result<Vec<usize>, Error>
    ensures found { IfOk result (λ found. found.items
        ≡ unlike_from 1 (columns_of columns.now) (columns_of wanted.now)) }
    ensures errors { IfErr result (λ e. e ≡ Memory) }
{
    let mut found = Vec::new(alloc);
    for index in 0..columns.len().max(wanted.len()) {
        note(
            column_at(columns, index),
            column_at(wanted, index),
            index + 1,
            &mut found,
        )?;
    }
    Ok(found)
}

// The column at an index, where there is one.
fn column_at(columns: &[Column], index: usize) -> Option<&Column>
    ensures { option_map (λ c. column_of c.now) result ≡ slice_get (columns_of columns.now) index }
{
    columns.get(index)
}

// Adds a position where columns aren't alike, or one of them isn't there. The one error is `Memory`.
fn note(
    column: Option<&Column>,
    wanted: Option<&Column>,
    position: usize,
    found: &mut Vec<usize>,
) -> Result<(), AllocError>
    ensures { OnOk result (found.new.items ≡ found.old.items
        ++ unlike_at position (option_map (λ c. column_of c.now) column.entry)
        (option_map (λ c. column_of c.now) wanted.entry)) }
{
    if are_alike(column, wanted) {
        return Ok(());
    }
    found.push(position)?;
    Ok(())
}

// Whether both columns are there and alike, or neither is there.
fn are_alike(column: Option<&Column>, wanted: Option<&Column>) -> bool
    ensures { result ≡ are_alike (option_map (λ c. column_of c.now) column.entry)
        (option_map (λ c. column_of c.now) wanted.entry) }
{
    match (column, wanted) {
        (Some(column), Some(wanted)) => is_alike(column, wanted),
        (None, None) => true,
        (Some(_), None) | (None, Some(_)) => false,
    }
}

// Whether columns have one type, and both belong to the key or neither does.
fn is_alike(column: &Column, wanted: &Column) -> bool
    ensures { result ≡ is_alike (column_of column.now) (column_of wanted.now) }
{
    is_same_type(column.coltype(), wanted.coltype())
        && column.is_primary_key() == wanted.is_primary_key()
}

// Whether two types are one.
fn is_same_type(found: ColumnType, wanted: ColumnType) -> bool
    ensures { result ≡ is_same_type found wanted }
{
    match (found, wanted) {
        (ColumnType::Int16, ColumnType::Int16) => true,
        (ColumnType::Int32, ColumnType::Int32) => true,
        (ColumnType::Str(found), ColumnType::Str(wanted)) => found == wanted,
        (ColumnType::Binary, ColumnType::Binary) => true,
        _ => false,
    }
}
