//! Columns, rows and properties of packages, as listings have them.
use cfb_medium::Timestamp;
use msi_columns::ColumnType;
use msi_listing::{Cell, Column, Kind, Marks, Property, Row};
use msi_props::PropertyValue;
use msi_values::Value;
use std::alloc::{AllocError, Global};

/// A column of a package as a listing has it.
pub(crate) fn listed_column(
    alloc: Global,
    column: &msi_columns::Column,
) -> Result<Column, AllocError> {
    let marks = Marks {
        localizable: column.is_localizable(),
        nullable: column.is_nullable(),
        key: column.is_primary_key(),
    };
    let name = String::from_str(alloc, column.name())?;
    Ok(Column::new(name, kind_of(column.coltype()), marks))
}

fn kind_of(kind: ColumnType) -> Kind {
    match kind {
        ColumnType::Int16 => Kind::Int16,
        ColumnType::Int32 => Kind::Int32,
        ColumnType::Str(most) => Kind::Str(most),
        ColumnType::Binary => Kind::Binary,
    }
}

/// A row of a package as a listing has it.
pub(crate) fn listed_row(alloc: Global, row: &msi_tables::Row) -> Result<Row, AllocError> {
    let mut cells = Vec::new(alloc);
    for at in 0..row.len() {
        if let Some(value) = row.value(at) {
            cells.push(listed_cell(alloc, value)?)?;
        }
    }
    Ok(Row::new(cells))
}

fn listed_cell(alloc: Global, value: &Value) -> Result<Cell, AllocError> {
    Ok(match value {
        Value::Null => Cell::Null,
        Value::Int(number) => Cell::Number(*number),
        Value::Str(text) => Cell::Text(String::from_str(alloc, text)?),
        Value::Binary => Cell::Bytes,
    })
}

/// A property of a summary as a listing has it.
pub(crate) fn listed_property(
    alloc: Global,
    value: &PropertyValue,
) -> Result<Property, AllocError> {
    Ok(match value {
        PropertyValue::Empty => Property::Empty,
        PropertyValue::Null => Property::Null,
        PropertyValue::I1(number) => Property::I1(*number),
        PropertyValue::I2(number) => Property::I2(*number),
        PropertyValue::I4(number) => Property::I4(*number),
        PropertyValue::LpStr(text) => Property::Text(String::from_str(alloc, text)?),
        PropertyValue::FileTime(moment) => Property::Time(units_of(*moment)),
    })
}

// The seconds from 1601 to 1970.
const TO_UNIX: i64 = 11_644_473_600;

// The tenths of a microsecond from 1601 on.
fn units_of(moment: Timestamp) -> u64 {
    let (seconds, nanos) = moment.to_unix();
    u64::try_from(seconds.saturating_add(TO_UNIX))
        .unwrap_or(0)
        .saturating_mul(10_000_000)
        .saturating_add(u64::from(nanos / 100))
}
