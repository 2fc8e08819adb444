//! What tables, rows and iterators over rows tell.
ghost use Rattle.std.specs.Prelude.{◌≡◌, IfOk, length};
ghost use Rattle.std.specs.Rc.{rc_value};
ghost use Rattle.msi_tables.specs.Held.{heading_of};
ghost use Rattle.msi_tables.specs.Row.{ValueRow};

use cfb_medium::Error;
use msi_tables::{Column, Row as Record, Rows, Table};
use msi_values::Value;
use std::alloc::Global;
use std::rc::Rc;
use test_support::{Row, Subject, copy_of, named, shown};

/// Answers calls on one table.
#[derive(Drop)]
pub struct Tables;

impl Subject for Tables {
    fn answer(&mut self, alloc: Global, row: &Row) -> Result<String, Error> {
        of_table(alloc, &sizes(alloc)?, row)
    }
}

// A table of binary streams, small numbers, which are the key, and great numbers.
fn sizes(alloc: Global) -> Result<Rc<Table>, Error> {
    Table::new(alloc, "Sizes", columns_of_sizes(alloc)?, false)
}

fn columns_of_sizes(alloc: Global) -> Result<Vec<Column>, Error> {
    let data = Column::build(alloc, "Data")?.binary();
    let size = Column::build(alloc, "Size")?.primary_key().int16();
    let place = Column::build(alloc, "Place")?.int32();
    Ok(vec![in alloc; data, size, place]?)
}

fn of_table(alloc: Global, table: &Rc<Table>, row: &Row) -> Result<String, Error> {
    match row.call() {
        "column" => place_of_column(alloc, table, row.text(1)),
        "row" => row_told(alloc, &row_of(alloc, table, row.number(1))?, row.text(2)),
        "rows" => two_rows_told(alloc, table, row),
        _ => Err(Error::NotFound),
    }
}

// The place of a column, if it has one, and whether it is there.
fn place_of_column(alloc: Global, table: &Table, name: &str) -> Result<String, Error> {
    let is_there = if table.has_column(name) {
        "true"
    } else {
        "false"
    };
    match table.index_for_column_name(name) {
        Some(place) => named(alloc, shown(alloc, &place)?.as_str(), &is_there),
        None => copy_of(alloc, is_there),
    }
}

fn two_rows_told(alloc: Global, table: &Rc<Table>, row: &Row) -> Result<String, Error> {
    let first = row_of(alloc, table, row.number(1))?;
    let second = row_of(alloc, table, row.number(2))?;
    rows_told(alloc, table, first, second)
}

// The row of a stream, this number and 10, of a table of three columns.
fn row_of(alloc: Global, table: &Rc<Table>, number: i64) -> Result<Record, Error>
    ensures { IfOk result (λ row. row.columns ≡ (heading_of (rc_value table.now)).columns) }
{
    if table.columns().len() != 3 {
        return Err(Error::InvalidInput);
    }
    let number = Value::Int(i32::try_from(number).unwrap_or(0));
    let values = vec![in alloc; Value::Binary, number, Value::Int(10)]?;
    Ok(Record::new(table.clone()?, values))
}

// What a row tells.
fn row_told(alloc: Global, row: &Record, name: &str) -> Result<String, Error> {
    let copy = row.clone(alloc)?;
    let one = value_text(alloc, copy.value(1))?;
    let named = value_text(alloc, copy.get(name))?;
    row_line(alloc, &copy, &one, name, &named)
}

fn row_line(
    alloc: Global,
    row: &Record,
    one: &str,
    name: &str,
    named: &str,
) -> Result<String, Error> {
    let (len, is_there) = (row.len(), row.has_column("Size"));
    Ok(format!(in alloc; "{len} values, {one} at 1, Size there {is_there}, {name} {named}")?)
}

fn value_text(alloc: Global, value: Option<&Value>) -> Result<String, Error> {
    match value {
        Some(value) => shown(alloc, value),
        None => copy_of(alloc, "none"),
    }
}

// What an iterator over two rows tells.
fn rows_told(
    alloc: Global,
    table: &Rc<Table>,
    first: Record,
    second: Record,
) -> Result<String, Error>
    requires first { first.columns ≡ (heading_of (rc_value table.now)).columns }
    requires second { second.columns ≡ (heading_of (rc_value table.now)).columns }
{
    let rows = vec![in alloc; first, second]?;
    iterator_told(alloc, Rows::new(table.clone()?, rows))
}

fn iterator_told(alloc: Global, mut rows: Rows) -> Result<String, Error> {
    let (columns, all) = (rows.columns().len(), rows.len());
    match rows.next() {
        Some(first) => {
            let size = value_text(alloc, first.get("Size"))?;
            rows_line(alloc, columns, all, &size, rows.len())
        }
        None => Err(Error::NotFound),
    }
}

fn rows_line(
    alloc: Global,
    columns: usize,
    all: usize,
    size: &str,
    left: usize,
) -> Result<String, Error> {
    Ok(format!(in alloc;
        "{columns} columns, {all} rows, the first of Size {size}, and {left} left"
    )?)
}
