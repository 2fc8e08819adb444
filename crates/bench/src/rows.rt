//! Rows put into a table in memory.
use crate::print_time;
use anyhow::Result;
use cfb_medium::Error;
use msi_changes::{Insert, StoredRows};
use msi_columns::Column;
use msi_pool::{StringPool, ValueRef};
use msi_tables::Table;
use msi_texts::CodePage;
use msi_values::Value;
use std::alloc::Global;
use std::rc::Rc;
use std::time::Instant;

// So many rows are prepared, a call each.
const PREPARED: u32 = 1000;

// A table of numbers, which are its keys, and texts.
fn numbers(alloc: Global) -> Result<Rc<Table>, Error> {
    let mut columns = Vec::new(alloc);
    columns.push(Column::build(alloc, "Number")?.primary_key().int32())?;
    columns.push(Column::build(alloc, "Text")?.string(72))?;
    Table::new(alloc, "Numbers", columns, false)
}

// A row with this number.
fn row(alloc: Global, number: i32) -> Result<Vec<Value>, Error> {
    let mut row = Vec::new(alloc);
    row.push(Value::Int(number))?;
    row.push(Value::text(alloc, &format!(in alloc; "Text {number}")?)?)?;
    Ok(row)
}

// So many rows with even numbers.
fn even_rows(alloc: Global, count: u32) -> Result<Vec<Vec<Value>>, Error> {
    let mut rows = Vec::new(alloc);
    let mut number = 0i32;
    for _ in 0..count {
        rows.push(row(alloc, number)?)?;
        number = number.wrapping_add(2);
    }
    Ok(rows)
}

// Inserts of one row each, with odd numbers from all over the table.
fn inserts(alloc: Global, count: u32) -> Result<Vec<Insert>, Error> {
    let mut inserts = Vec::new(alloc);
    let step = (count / PREPARED) as i32;
    let mut number = 1i32;
    for _ in 0..PREPARED {
        inserts.push(Insert::into(alloc, "Numbers")?.row(row(alloc, number)?)?)?;
        number = number.wrapping_add(step.wrapping_mul(2));
    }
    Ok(inserts)
}

// Prepares each insert.
fn prepare_each<'a>(
    alloc: Global,
    stored: &StoredRows<'a>,
    inserts: &'a [Insert],
) -> Result<(), Error> {
    for insert in inserts {
        let _ = insert.prepare(alloc, stored)?;
    }
    Ok(())
}

/// Inserts so many rows into a table at once, puts their keys in order, and prepares a thousand more, a call for each.
pub fn insert_and_prepare(rt: &HostRuntime, count: u32) -> Result<()> {
    let alloc = rt.alloc();
    let table = numbers(alloc)?;
    let mut pool = StringPool::new(alloc, CodePage::default());
    let all = Insert::into(alloc, "Numbers")?.rows(even_rows(alloc, count)?)?;
    let begin = Instant::now(rt)?;
    let rows = all.apply(alloc, &table, Vec::new(alloc), &mut pool)?;
    print_time(rt, "rows inserted at once", begin)?;
    let inserts = inserts(alloc, count)?;
    prepare(rt, &table, rows, &pool, &inserts)
}

fn prepare<'a>(
    rt: &HostRuntime,
    table: &'a Table,
    rows: Vec<Vec<ValueRef>>,
    pool: &'a StringPool,
    inserts: &'a [Insert],
) -> Result<()> {
    let begin = Instant::now(rt)?;
    let stored = StoredRows::new(rt.alloc(), table, rows, pool)?;
    print_time(rt, "keys put in order", begin)?;
    let begin = Instant::now(rt)?;
    prepare_each(rt.alloc(), &stored, inserts)?;
    print_time(rt, "rows prepared, a call each", begin)
}
