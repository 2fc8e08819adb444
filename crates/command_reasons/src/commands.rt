//! Why a command was refused, found from the command and the tables that were there.
use crate::cells::cell_fault;
use crate::known::KnownTables;
use crate::reason::Reason;
use crate::rows::{RowFault, row_fault, wrong_row};
use cfb_medium::Error;
use command_file::Command;
use msi_changes::{Delete, Insert, Update};
use msi_columns::{Column, ColumnType};
use msi_expr::Expr;
use msi_query::Select;
use msi_texts::is_valid;
use msi_values::Value;
use std::alloc::Global;
use std::collections::BTreeMap;

/// Why a rule refused a command with this error, where these tables were there; `None` where it isn't known. `Memory` where there is no room.
pub fn reason_of<'a>(
    alloc: Global,
    known: &'a KnownTables,
    command: &'a Command,
    error: Error,
) -> Result<Option<Reason<'a>>, Error> {
    match command {
        Command::CreateTable(name, columns) => Ok(of_create(known, name, columns, error)),
        Command::DropTable(name) | Command::Columns(name) => Ok(of_name(known, name, error)),
        Command::Insert(insert) => of_insert(alloc, known, insert, error),
        Command::Update(update) => of_update(alloc, known, update, error),
        Command::Delete(delete) => of_delete(alloc, known, delete, error),
        Command::Select(select) => Ok(of_select(known, select, error)),
        Command::ReadStream(name) | Command::RemoveStream(name) | Command::WriteStream(name, _) => {
            Ok(of_stream(name, error))
        }
        Command::RollBack if error == Error::NotFound => Ok(Some(Reason::NoCommit)),
        _ => Ok(None),
    }
}

// The three tables that describe the others.
fn is_system(name: &str) -> bool {
    matches!(name, "_Tables" | "_Columns" | "_Validation")
}

fn no_table<'a>(known: &'a KnownTables, name: &'a str) -> Reason<'a> {
    Reason::NoTable(name, known.name_near(name))
}

// Of a command that names a table alone.
fn of_name<'a>(known: &'a KnownTables, name: &'a str, error: Error) -> Option<Reason<'a>> {
    match error {
        Error::NotFound if known.columns(name).is_none() => Some(no_table(known, name)),
        Error::NotFound if !known.has_validation() => Some(Reason::NoValidation),
        Error::InvalidInput if is_system(name) => Some(Reason::System(name)),
        Error::InvalidInput => Some(Reason::TableName(name)),
        _ => None,
    }
}

// ---- rows

fn of_insert<'a>(
    alloc: Global,
    known: &'a KnownTables,
    insert: &'a Insert,
    error: Error,
) -> Result<Option<Reason<'a>>, Error> {
    let name = insert.table_name();
    let rows = insert.new_rows();
    let Some(columns) = known.columns(name) else {
        return Ok(Some(no_table(known, name)));
    };
    match error {
        Error::AlreadyExists => Ok(Some(Reason::KeyIsThere(columns, rows))),
        Error::InvalidInput => of_rows(alloc, name, columns, rows),
        _ => Ok(None),
    }
}

// Why these rows aren't added to a table, where none of their keys is there.
fn of_rows<'a>(
    alloc: Global,
    name: &'a str,
    columns: &'a [Column],
    rows: &'a [Vec<Value>],
) -> Result<Option<Reason<'a>>, Error> {
    if let Some(row) = wrong_row(columns, rows) {
        return Ok(of_row(columns, rows, row));
    }
    if let Some((one, other)) = twins_in(alloc, columns, rows)? {
        return Ok(Some(Reason::Twins(one, other)));
    }
    Ok(Some(if is_system(name) {
        Reason::System(name)
    } else {
        Reason::TooMuch
    }))
}

// Why this row isn't taken.
fn of_row<'a>(columns: &'a [Column], rows: &'a [Vec<Value>], at: usize) -> Option<Reason<'a>> {
    let row = rows.get(at)?;
    match row_fault(columns, row)? {
        RowFault::Length(values, wanted) => Some(Reason::RowLength(at, values, wanted)),
        RowFault::Cell(place, fault) => {
            let column = columns.get(place)?;
            let value = row.get(place)?;
            Some(Reason::Cell(Some(at), column, value, fault))
        }
    }
}

// The first row that has the key of an earlier one, behind that.
fn twins_in(
    alloc: Global,
    columns: &[Column],
    rows: &[Vec<Value>],
) -> Result<Option<(usize, usize)>, Error> {
    let mut seen = BTreeMap::new(alloc);
    for (at, row) in rows.iter().enumerate() {
        let key = key_of(alloc, columns, row)?;
        match seen.insert(key, at) {
            Ok(Some(earlier)) => return Ok(Some((earlier, at))),
            Ok(None) => {}
            Err(_) => return Err(Error::Memory),
        }
    }
    Ok(None)
}

// The values of a row's key.
fn key_of<'a>(
    alloc: Global,
    columns: &[Column],
    row: &'a [Value],
) -> Result<Vec<&'a Value>, Error> {
    let mut key = Vec::new(alloc);
    for (column, value) in columns.iter().zip(row.iter()) {
        if column.is_primary_key() {
            key.push(value)?;
        }
    }
    Ok(key)
}

fn of_update<'a>(
    alloc: Global,
    known: &'a KnownTables,
    update: &'a Update,
    error: Error,
) -> Result<Option<Reason<'a>>, Error> {
    let name = update.table_name();
    let Some(columns) = known.columns(name) else {
        return Ok(Some(no_table(known, name)));
    };
    match error {
        Error::AlreadyExists => Ok(Some(Reason::KeysMeet)),
        Error::InvalidInput => {
            for (column, value) in update.sets() {
                if let Some(reason) = of_set(name, columns, column.as_str(), value) {
                    return Ok(Some(reason));
                }
            }
            let reason = of_condition(alloc, name, columns, update.condition())?;
            Ok(Some(reason.unwrap_or(Reason::FullPool)))
        }
        _ => Ok(None),
    }
}

// Why a column isn't given a value.
fn of_set<'a>(
    table: &'a str,
    columns: &'a [Column],
    name: &'a str,
    value: &'a Value,
) -> Option<Reason<'a>> {
    match columns.iter().find(|column| column.name() == name) {
        None => Some(Reason::NoColumn(table, name, columns)),
        Some(column) => {
            let fault = cell_fault(column, value)?;
            Some(Reason::Cell(None, column, value, fault))
        }
    }
}

fn of_delete<'a>(
    alloc: Global,
    known: &'a KnownTables,
    delete: &'a Delete,
    error: Error,
) -> Result<Option<Reason<'a>>, Error> {
    let name = delete.table_name();
    let Some(columns) = known.columns(name) else {
        return Ok(Some(no_table(known, name)));
    };
    match error {
        Error::InvalidInput => of_condition(alloc, name, columns, delete.condition()),
        _ => Ok(None),
    }
}

// Why a command with this condition is refused, where all else of it is right.
fn of_condition<'a>(
    alloc: Global,
    table: &'a str,
    columns: &'a [Column],
    condition: Option<&'a Expr>,
) -> Result<Option<Reason<'a>>, Error> {
    if let Some(condition) = condition {
        for name in condition.column_names(alloc)? {
            if !columns.iter().any(|column| column.name() == name) {
                return Ok(Some(Reason::NoColumn(table, name, columns)));
            }
        }
    }
    Ok(if is_system(table) {
        Some(Reason::System(table))
    } else {
        None
    })
}

// Of a select of one table.
fn of_select<'a>(known: &'a KnownTables, select: &'a Select, error: Error) -> Option<Reason<'a>> {
    let name = select.table_name()?;
    match (known.columns(name), error) {
        (None, Error::NotFound) => Some(no_table(known, name)),
        (Some(columns), Error::InvalidInput) => Some(Reason::SomeColumn(name, columns)),
        _ => None,
    }
}

// ---- tables

fn of_create<'a>(
    known: &'a KnownTables,
    name: &'a str,
    columns: &'a [Column],
    error: Error,
) -> Option<Reason<'a>> {
    match error {
        Error::InvalidInput => Some(of_new_columns(name, columns).unwrap_or(Reason::TableRules)),
        Error::AlreadyExists if known.columns(name).is_some() => Some(Reason::TableIsThere(name)),
        Error::AlreadyExists => Some(Reason::PlaceIsTaken(name)),
        Error::NotFound if !known.has_validation() => Some(Reason::NoValidation),
        _ => None,
    }
}

// Why there can be no table of this name with these columns.
fn of_new_columns<'a>(name: &'a str, columns: &'a [Column]) -> Option<Reason<'a>> {
    if !is_valid(name, true) || !Column::is_valid_name(name) {
        return Some(Reason::TableName(name));
    }
    if matches!(name, "_StringPool" | "_StringData") {
        return Some(Reason::PoolName(name));
    }
    if columns.is_empty() || columns.len() > 32 {
        return Some(Reason::ColumnCount(columns.len()));
    }
    if !columns.iter().any(Column::is_primary_key) {
        return Some(Reason::NoKey);
    }
    for (at, column) in columns.iter().enumerate() {
        if let Some(reason) = of_new_column(&columns[..at], column) {
            return Some(reason);
        }
    }
    None
}

// Why there can be no such column behind these.
fn of_new_column<'a>(before: &[Column], column: &'a Column) -> Option<Reason<'a>> {
    let name = column.name();
    if !Column::is_valid_name(name) {
        return Some(Reason::ColumnName(name));
    }
    if before.iter().any(|other| other.name() == name) {
        return Some(Reason::TwinColumns(name));
    }
    match column.coltype() {
        ColumnType::Str(length) if length > 255 => Some(Reason::LongColumn(name)),
        ColumnType::Str(_) if has_semicolon(column) => Some(Reason::Semicolon(name)),
        ColumnType::Binary if column.is_primary_key() || column.is_localizable() => {
            Some(Reason::BytesAsKey(name))
        }
        _ => None,
    }
}

fn has_semicolon(column: &Column) -> bool {
    match column.enum_values() {
        Some(texts) => texts.iter().any(|text| text.as_str().contains(';')),
        None => false,
    }
}

// ---- streams

// Characters that no name of a stream has.
const SEPARATORS: [char; 4] = ['/', '\\', ':', '!'];

fn of_stream(name: &str, error: Error) -> Option<Reason<'_>> {
    match error {
        Error::NotFound => Some(Reason::NoStream(name)),
        Error::InvalidInput => {
            for character in name.chars() {
                if SEPARATORS.contains(&character) {
                    return Some(Reason::StreamCharacter(name, character));
                }
            }
            Some(Reason::StreamName(name))
        }
        _ => None,
    }
}
