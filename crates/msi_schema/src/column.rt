//! A column from the rows that describe it.
ghost use Rattle.std.specs.Prelude.{◌≡◌, ◌⊎◌, ◌==◌, ℕ, None, Some, IfErr, IfOk, map, option_and_then, option_map};
ghost use Rattle.cfb_medium.specs.declared.error.Error.TheVariants.{InvalidData, Memory};
ghost use Rattle.msi_texts.specs.Results.{ReturnsOrOutOfMemory, or_refused};
ghost use Rattle.msi_values.specs.Borrowed.{borrowed_data, borrowed_datum};
ghost use Rattle.msi_columns.specs.Column.{with_bits};
ghost use Rattle.msi_columns.specs.Column.{Column as ColumnSaid};
ghost use Rattle.msi_columns.specs.Held.{built, column_of, BuildsColumn};
ghost use Rattle.msi_columns.specs.declared.column.ColumnType.{ColumnType};
ghost use Rattle.std.specs.List.{slice_split};
ghost use Rattle.msi_tables.specs.Schema.{column_of_bits, described};
ghost use Rattle.msi_schema.specs.Columns.{column_by, head_in, with_answer, with_category, with_choices, with_foreign, with_range};

use crate::cells::{number_of, text_of, value_at};
use cfb_medium::Error;
use msi_columns::{Column, ColumnBuilder};
use msi_texts::Category;
use msi_values::BorrowedValue;
use std::alloc::{AllocError, Global};
use std::str::FromStr;

/// A column from the values of its row of _Columns, and of its row of _Validation where it has one. InvalidData where the first
/// hasn't a text, a number, a text and a number, the second a text as its third of ten values, or no type has these bits.
pub fn column_from_rows(
    alloc: Global,
    row: &[BorrowedValue<'_>],
    validation: Option<&[BorrowedValue<'_>]>,
) -> Result<Column, Error>
    ensures { ReturnsOrOutOfMemory column_of result (or_refused
        (column_by (option_map (λ row. borrowed_data row.now) validation.entry)
        (borrowed_data row.now)) InvalidData) }
{
    let Some((name, bits)) = head_of(row) else {
        return Err(Error::InvalidData);
    };
    match validation {
        Some(validation) => {
            let builder = described_column(alloc, validation, name)?;
            builder.with_bitfield(bits)
        }
        None => {
            let builder = Column::build(alloc, name)?;
            builder.with_bitfield(bits)
        }
    }
}

// The name and the bits of a column's type in its row of _Columns.
fn head_of<'a>(row: &[BorrowedValue<'a>]) -> Option<(&'a str, i32)>
    ensures { option_map (λ head. (head.0.now, head.1)) result ≡ head_in (borrowed_data row.now) }
{
    if row.len() != 4 {
        return None;
    }
    let _ = text_of(value_at(row, 0))?;
    let _ = number_of(value_at(row, 1))?;
    let name = text_of(value_at(row, 2))?;
    let bits = number_of(value_at(row, 3))?;
    Some((name, bits))
}

// A column of this name, with what its row of _Validation says.
fn described_column(
    alloc: Global,
    row: &[BorrowedValue<'_>],
    name: &str,
) -> Result<ColumnBuilder, Error>
    ensures ok { IfOk result (λ builder. (kind : ColumnType) (bits : ℕ)
        → option_and_then (described (borrowed_data row.now)) (column_of_bits name.now bits)
        ≡ with_bits bits (built builder kind)) }
    ensures errors { IfErr result (λ e. (e ≡ Memory)
        ⊎ ((e ≡ InvalidData) × ((c : ColumnSaid) → described (borrowed_data row.now) c ≡ None))) }
{
    if row.len() != 10 {
        return Err(Error::InvalidData);
    }
    let Some(answer) = text_of(value_at(row, 2)) else {
        return Err(Error::InvalidData);
    };
    let low = value_at(row, 3);
    let high = value_at(row, 4);
    let table = value_at(row, 5);
    let number = value_at(row, 6);
    let category = value_at(row, 7);
    let choices = value_at(row, 8);
    let named = Column::build(alloc, name)?;
    let answered = with_answer(named, answer);
    let ranged = with_range(answered, low, high);
    let linked = with_foreign(alloc, ranged, table, number)?;
    let sorted = with_category(linked, category);
    let chosen = with_choices(alloc, sorted, choices)?;
    Ok(chosen)
}

// The column takes null where the answer is Y.
fn with_answer(builder: ColumnBuilder, answer: &str) -> ColumnBuilder
    ensures { BuildsColumn result (with_answer answer.now) builder }
{
    if answer == "Y" {
        builder.nullable()
    } else {
        builder
    }
}

// The column has the range that two numbers say.
fn with_range(
    builder: ColumnBuilder,
    low: BorrowedValue<'_>,
    high: BorrowedValue<'_>,
) -> ColumnBuilder
    ensures { BuildsColumn result
        (with_range (borrowed_datum low.entry) (borrowed_datum high.entry)) builder }
{
    match (low, high) {
        (BorrowedValue::Int(low), BorrowedValue::Int(high)) => builder.range(low, high),
        _ => builder,
    }
}

// The column has the foreign key that a text and a number say.
fn with_foreign(
    alloc: Global,
    builder: ColumnBuilder,
    table: BorrowedValue<'_>,
    number: BorrowedValue<'_>,
) -> Result<ColumnBuilder, Error>
    ensures ok { IfOk result (λ builder_after. BuildsColumn builder_after
        (with_foreign (borrowed_datum table.entry) (borrowed_datum number.entry)) builder) }
    ensures errors { IfErr result (λ e. e ≡ Memory) }
{
    match (table, number) {
        (BorrowedValue::Str(table), BorrowedValue::Int(number)) => builder.foreign_key(
            alloc, table, number,
        ),
        _ => Ok(builder),
    }
}

// The column has the category of a name; an unknown name says nothing.
fn with_category(builder: ColumnBuilder, name: BorrowedValue<'_>) -> ColumnBuilder
    ensures { BuildsColumn result (with_category (borrowed_datum name.entry)) builder }
{
    let Some(name) = text_of(name) else {
        return builder;
    };
    match Category::from_str(name) {
        Ok(category) => builder.category(category),
        Err(_) => builder,
    }
}

// The column takes the texts that stand between semicolons.
fn with_choices(
    alloc: Global,
    builder: ColumnBuilder,
    choices: BorrowedValue<'_>,
) -> Result<ColumnBuilder, Error>
    ensures ok { IfOk result (λ builder_after. BuildsColumn builder_after
        (with_choices (borrowed_datum choices.entry)) builder) }
    ensures errors { IfErr result (λ e. e ≡ Memory) }
{
    let Some(choices) = text_of(choices) else {
        return Ok(builder);
    };
    let values = parts_of(alloc, choices)?;
    let chosen = builder.enum_values(alloc, &values)?;
    Ok(chosen)
}

// The texts between semicolons. The one error is Memory.
fn parts_of<'a>(alloc: Global, text: &'a str) -> Result<Vec<&'a str>, AllocError>
    ensures { IfOk result (λ parts. map (λ part. part.now) parts.items
        ≡ slice_split (λ b. b == 59) text.now) }
{
    text.split(';').collect(alloc)
}
