//! Packages that are read: a function for each call, since what is told of a call costs time wherever it is seen.
use crate::cells::{listed_column, listed_property, listed_row};
use cfb_medium::{Error, ReadMedium};
use msi::Package;
use msi_columns::Column as StoredColumn;
use msi_export::sorted_rows;
use msi_listing::{Column, Listing, Property, Row, Table};
use msi_props::PropertyValue;
use msi_query::Select;
use msi_tables::{Row as StoredRow, Rows};
use std::alloc::Global;

/// Why a package has no listing.
#[derive(Debug, Drop)]
pub struct Unlisted {
    /// The table that can't be read, where it is one.
    pub table: Option<String>,
    /// What went wrong.
    pub error: Error,
}

impl From<Error> for Unlisted {
    fn from(error: Error) -> Unlisted {
        Unlisted { table: None, error }
    }
}

/// What a package holds: its tables but the two that list the others, by the bytes of their names, with rows by rising keys; the streams
/// that belong to no table, in the container's order; the properties of its summary. An error tells which table can't be read, where it is
/// one; nothing is written.
pub fn listing_of<F: ReadMedium>(
    alloc: Global,
    package: &mut Package<F>,
) -> Result<Listing, Unlisted> {
    let tables = listed_tables(alloc, package)?;
    let streams = stream_names(alloc, package)?;
    let properties = listed_properties(alloc, package)?;
    let page = page_of(package);
    Ok(Listing::new(page, tables, streams, properties))
}

fn listed_tables<F: ReadMedium>(
    alloc: Global,
    package: &mut Package<F>,
) -> Result<Vec<Table>, Unlisted> {
    let mut tables = Vec::new(alloc);
    let names = table_names(alloc, package)?;
    for name in &names {
        if !lists_others(name) {
            add_table(alloc, package, name, &mut tables)?;
        }
    }
    Ok(tables)
}

// Whether it is one of the two tables that list the others.
fn lists_others(name: &str) -> bool {
    name == "_Tables" || name == "_Columns"
}

fn add_table<F: ReadMedium>(
    alloc: Global,
    package: &mut Package<F>,
    name: &str,
    tables: &mut Vec<Table>,
) -> Result<(), Unlisted> {
    match listed_table(alloc, package, name) {
        Ok(table) => match tables.push(table) {
            Ok(()) => Ok(()),
            Err(_) => Err(Unlisted::from(Error::Memory)),
        },
        Err(error) => Err(Unlisted {
            table: String::from_str(alloc, name).ok(),
            error,
        }),
    }
}

fn listed_table<F: ReadMedium>(
    alloc: Global,
    package: &mut Package<F>,
    name: &str,
) -> Result<Table, Error> {
    let rows = rows_of(alloc, package, name)?;
    let rows = sorted(alloc, rows)?;
    let rows = listed_rows(alloc, &rows)?;
    let columns = listed_columns(alloc, columns_of(package, name))?;
    let name = String::from_str(alloc, name)?;
    Ok(Table::new(name, columns, rows))
}

fn listed_rows(alloc: Global, rows: &[StoredRow]) -> Result<Vec<Row>, Error> {
    let mut listed = Vec::new(alloc);
    for row in rows {
        listed.push(listed_row(alloc, row)?)?;
    }
    Ok(listed)
}

fn listed_columns(alloc: Global, columns: &[StoredColumn]) -> Result<Vec<Column>, Error> {
    let mut listed = Vec::new(alloc);
    for column in columns {
        listed.push(listed_column(alloc, column)?)?;
    }
    Ok(listed)
}

fn sorted(alloc: Global, rows: Rows) -> Result<Vec<StoredRow>, Error> {
    sorted_rows(alloc, rows)
}

fn rows_of<F: ReadMedium>(
    alloc: Global,
    package: &mut Package<F>,
    name: &str,
) -> Result<Rows, Error> {
    let select = Select::table(alloc, name)?;
    package.select_rows(&select)
}

// The columns of a table; none where there is no such table.
fn columns_of<'a, F: ReadMedium>(package: &'a Package<F>, name: &str) -> &'a [StoredColumn] {
    match package.get_table(name) {
        Some(table) => table.columns(),
        None => &[],
    }
}

fn table_names<F: ReadMedium>(alloc: Global, package: &Package<F>) -> Result<Vec<String>, Error> {
    let names = package.tables()?;
    Ok(names.collect(alloc)?)
}

fn stream_names<F: ReadMedium>(alloc: Global, package: &Package<F>) -> Result<Vec<String>, Error> {
    let names = package.streams()?;
    Ok(names.collect(alloc)?)
}

fn page_of<F: ReadMedium>(package: &Package<F>) -> i32 {
    package.database_codepage().id()
}

fn properties_of<F: ReadMedium>(package: &Package<F>) -> &[(u32, PropertyValue)] {
    package.summary_info().properties()
}

fn listed_properties<F: ReadMedium>(
    alloc: Global,
    package: &Package<F>,
) -> Result<Vec<(u32, Property)>, Error> {
    let mut listed = Vec::new(alloc);
    for (number, value) in properties_of(package) {
        listed.push((*number, listed_property(alloc, value)?))?;
    }
    Ok(listed)
}
