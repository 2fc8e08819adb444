//! The two tables that tell of the others.
use crate::said::SaidTable;
use cfb_medium::Error;
use msi_columns::{Column, ColumnType};
use msi_values::Value;
use std::alloc::Global;

// The bits of a column's type ([the Windows Installer's] `_Columns`).
const KNOWN: i32 = 0x0100;

const LOCALIZABLE: i32 = 0x0200;

const SHORT: i32 = 0x0400;

const TEXT: i32 = 0x0800;

const NULLABLE: i32 = 0x1000;

const KEY: i32 = 0x2000;

/// The table `_Columns` that describes these tables.
pub(crate) fn columns_table(alloc: Global, tables: &[SaidTable]) -> Result<SaidTable, Error> {
    let mut rows = Vec::new(alloc);
    for table in tables {
        push_columns(alloc, &mut rows, table)?;
    }
    Ok(SaidTable {
        name: String::from_str(alloc, "_Columns")?,
        columns: vec![in alloc;
            Column::build(alloc, "Table")?.primary_key().string(64),
            Column::build(alloc, "Number")?.primary_key().int16(),
            Column::build(alloc, "Name")?.string(64),
            Column::build(alloc, "Type")?.int16(),
        ]?,
        rows,
    })
}

fn push_columns(alloc: Global, rows: &mut Vec<Vec<Value>>, table: &SaidTable) -> Result<(), Error> {
    let mut number = 0i32;
    for column in &table.columns {
        number = number.saturating_add(1);
        rows.push(vec![in alloc;
            Value::text(alloc, &table.name)?,
            Value::Int(number),
            Value::text(alloc, column.name())?,
            Value::Int(bits_of(column)),
        ]?)?;
    }
    Ok(())
}

// The bits of a column's type.
fn bits_of(column: &Column) -> i32 {
    let mut bits = KNOWN | kind_bits(column.coltype());
    if column.is_localizable() {
        bits |= LOCALIZABLE;
    }
    if column.is_nullable() {
        bits |= NULLABLE;
    }
    if column.is_primary_key() {
        bits |= KEY;
    }
    bits
}

fn kind_bits(coltype: ColumnType) -> i32 {
    match coltype {
        ColumnType::Int16 => SHORT | 2,
        ColumnType::Int32 => 4,
        ColumnType::Str(most) => TEXT | SHORT | low_byte(most),
        ColumnType::Binary => TEXT,
    }
}

fn low_byte(most: usize) -> i32 {
    match u8::try_from(most & 0xff) {
        Ok(byte) => i32::from(byte),
        Err(_) => 0,
    }
}

/// The table `_Tables` that names these tables.
pub(crate) fn tables_table(alloc: Global, tables: &[SaidTable]) -> Result<SaidTable, Error> {
    let mut rows = Vec::new(alloc);
    for table in tables {
        rows.push(vec![in alloc; Value::text(alloc, &table.name)?]?)?;
    }
    Ok(SaidTable {
        name: String::from_str(alloc, "_Tables")?,
        columns: vec![in alloc; Column::build(alloc, "Name")?.primary_key().string(64)]?,
        rows,
    })
}
