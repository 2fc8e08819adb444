//! Reasons, and how they read.
use crate::cells::CellFault;
use msi_columns::{Column, ColumnType};
use msi_texts::Category;
use msi_values::Value;
use std::fmt;

/// Why a command was refused by rule. Rows and values are counted from 0 here, and told from 1.
#[derive(Clone, Copy, Drop)]
pub enum Reason<'a> {
    /// There is no table of this name; one of the other name is there, if it is given.
    NoTable(&'a str, Option<&'a str>),
    /// A table lacks a column of this name.
    NoColumn(&'a str, &'a str, &'a [Column]),
    /// A table lacks a column that the command names.
    SomeColumn(&'a str, &'a [Column]),
    /// A table of this name describes the others, and isn't changed so.
    System(&'a str),
    /// A row has so many values, and the table so many columns.
    RowLength(usize, usize, usize),
    /// In this row this column doesn't take this value.
    Cell(Option<usize>, &'a Column, &'a Value, CellFault),
    /// Two new rows have one key.
    Twins(usize, usize),
    /// A row that is there has the key of one of these new ones, of a table with these columns.
    KeyIsThere(&'a [Column], &'a [Vec<Value>]),
    /// Two rows would have one key.
    KeysMeet,
    /// There would be more than 65,536 rows, or the string pool is full.
    TooMuch,
    /// The string pool is full.
    FullPool,
    /// Another rule of tables is broken.
    TableRules,
    /// A storage stands where the table would, or `_Validation` speaks of its columns already.
    PlaceIsTaken(&'a str),
    /// A table of this name is there.
    TableIsThere(&'a str),
    /// The package has no table `_Validation`, so none is made or dropped.
    NoValidation,
    /// No table can have this name.
    TableName(&'a str),
    /// The name is that of one of the two streams of the string pool.
    PoolName(&'a str),
    /// A table has this many columns, and not from 1 to 32.
    ColumnCount(usize),
    /// No column belongs to the key.
    NoKey,
    /// No column can have this name.
    ColumnName(&'a str),
    /// Two columns have this name.
    TwinColumns(&'a str),
    /// A column of texts has more than 255 characters.
    LongColumn(&'a str),
    /// One of a column's own texts has a semicolon.
    Semicolon(&'a str),
    /// A column of bytes belongs to the key, or is localizable.
    BytesAsKey(&'a str),
    /// There is no stream of this name.
    NoStream(&'a str),
    /// No stream can have this name, for this character.
    StreamCharacter(&'a str, char),
    /// No stream can have this name.
    StreamName(&'a str),
    /// Nothing was committed to which to go back.
    NoCommit,
}

impl<'a> fmt::Display for Reason<'a> {
    fn fmt<W: fmt::Write>(&self, f: &mut fmt::Formatter<W>) -> fmt::Result {
        if let Some(text) = self.sentence() {
            return f.write_str(text);
        }
        match self.named() {
            Some((before, name, behind)) => write_three(before, name, behind, f),
            None => self.write_more(f),
        }
    }
}

impl<'a> Reason<'a> {
    // The words of one that names nothing.
    fn sentence(&self) -> Option<&'static str> {
        Some(match self {
            Reason::KeysMeet => "two rows would have one key",
            Reason::TooMuch =>
                "the table would have more than 65536 rows, or the string pool is full",
            Reason::FullPool => "the string pool is full",
            Reason::TableRules =>
                "a column breaks a rule of tables, or there would be too many rows of columns",
            Reason::NoKey => "no column belongs to the key; write \"key\":true at one",
            Reason::NoValidation => "the package has no table _Validation",
            Reason::NoCommit => "there is no commit yet to go back to",
            _ => return None,
        })
    }

    // The words of one that names one thing, before the name and behind it.
    fn named(&self) -> Option<(&'static str, &'a str, &'static str)> {
        Some(match self {
            Reason::System(name) => (
                "",
                name,
                " describes the other tables, so no command changes it like this",
            ),
            Reason::TableIsThere(name) => ("a table ", name, " is there already"),
            Reason::PlaceIsTaken(name) => (
                "a storage stands where the table ",
                name,
                " would, or _Validation speaks of its columns",
            ),
            Reason::TableName(name) => (
                "no table can have the name ",
                name,
                ": it is no identifier, or too long",
            ),
            Reason::PoolName(name) => (
                "no table can have the name ",
                name,
                ": it is the string pool's",
            ),
            Reason::ColumnName(name) => (
                "no column can have the name ",
                name,
                ", which is no identifier",
            ),
            Reason::TwinColumns(name) => ("two columns have the name ", name, ""),
            Reason::LongColumn(name) => (
                "column ",
                name,
                ": texts have at most 255 characters; 0 is for any length",
            ),
            Reason::Semicolon(name) => ("column ", name, ": one of its own texts has a \";\""),
            Reason::BytesAsKey(name) => (
                "column ",
                name,
                ": bytes belong to no key, and aren't localizable",
            ),
            _ => return None,
        })
    }

    // Writes one that tells more.
    fn write_more<W: fmt::Write>(&self, f: &mut fmt::Formatter<W>) -> fmt::Result {
        match self {
            Reason::NoTable(name, near) => write_no_table(name, *near, f),
            Reason::NoColumn(table, column, columns) => write_no_column(table, column, columns, f),
            Reason::SomeColumn(table, columns) => write_some_column(table, columns, f),
            Reason::RowLength(row, values, columns) => write_row_length(*row, *values, *columns, f),
            Reason::Cell(row, column, value, fault) => write_cell(*row, column, value, *fault, f),
            Reason::Twins(one, other) => write_twins(number(*one), number(*other), f),
            Reason::KeyIsThere(columns, rows) => write_keys(columns, rows, f),
            Reason::ColumnCount(count) => write_column_count(*count, f),
            Reason::NoStream(name) => write!(f, "no stream {name:?}"),
            Reason::StreamCharacter(name, character) => write_character(name, *character, f),
            Reason::StreamName(name) => write_stream_name(name, f),
            _ => Ok(()),
        }
    }
}

fn write_three<W: fmt::Write>(
    before: &str,
    name: &str,
    behind: &str,
    f: &mut fmt::Formatter<W>,
) -> fmt::Result {
    f.write_str(before)?;
    f.write_str(name)?;
    f.write_str(behind)
}

fn write_no_column<W: fmt::Write>(
    table: &str,
    column: &str,
    columns: &[Column],
    f: &mut fmt::Formatter<W>,
) -> fmt::Result {
    write!(f, "{table} has no column {column}; its columns are ")?;
    write_names(columns, f)
}

fn write_some_column<W: fmt::Write>(
    table: &str,
    columns: &[Column],
    f: &mut fmt::Formatter<W>,
) -> fmt::Result {
    write!(
        f,
        "a column that it names isn't there; the columns of {table} are "
    )?;
    write_names(columns, f)
}

fn write_twins<W: fmt::Write>(one: usize, other: usize, f: &mut fmt::Formatter<W>) -> fmt::Result {
    write!(f, "rows {one} and {other} have one key")
}

fn write_keys<W: fmt::Write>(
    columns: &[Column],
    rows: &[Vec<Value>],
    f: &mut fmt::Formatter<W>,
) -> fmt::Result {
    if rows.len() == 1 {
        f.write_str("a row with its key")?;
    } else {
        f.write_str("a row with the key of one of its ")?;
        write!(f, "{} rows", rows.len())?;
    }
    for (at, row) in rows.iter().enumerate() {
        if at == MOST_KEYS {
            f.write_str("; ..")?;
            break;
        }
        f.write_str(if at == 0 { " (" } else { "; " })?;
        write_key(columns, row, f)?;
    }
    f.write_str(") is there already")
}

// How many keys are told at most.
const MOST_KEYS: usize = 10;

// Writes the values of a row's key.
fn write_key<W: fmt::Write>(
    columns: &[Column],
    row: &[Value],
    f: &mut fmt::Formatter<W>,
) -> fmt::Result {
    let mut is_first = true;
    for (column, value) in columns.iter().zip(row.iter()) {
        if column.is_primary_key() {
            if !is_first {
                f.write_str(", ")?;
            }
            write_value(value, f)?;
            is_first = false;
        }
    }
    Ok(())
}

fn write_column_count<W: fmt::Write>(count: usize, f: &mut fmt::Formatter<W>) -> fmt::Result {
    write!(
        f,
        "the number of its columns is {count}, and not from 1 to 32"
    )
}

fn write_character<W: fmt::Write>(
    name: &str,
    character: char,
    f: &mut fmt::Formatter<W>,
) -> fmt::Result {
    write!(
        f,
        "no stream can have the name {name:?}, for its \"{character}\""
    )
}

fn write_stream_name<W: fmt::Write>(name: &str, f: &mut fmt::Formatter<W>) -> fmt::Result {
    write!(f, "no stream can have the name {name:?}: ")?;
    f.write_str("it is empty, too long, or has a meaning of its own")
}

// A place that is counted from 0, as it is told.
fn number(at: usize) -> usize {
    at.saturating_add(1)
}

fn write_no_table<W: fmt::Write>(
    name: &str,
    near: Option<&str>,
    f: &mut fmt::Formatter<W>,
) -> fmt::Result {
    match near {
        Some(near) => write!(f, "no table {name}; there is {near}"),
        None => write!(f, "no table {name}"),
    }
}

fn write_row_length<W: fmt::Write>(
    row: usize,
    values: usize,
    columns: usize,
    f: &mut fmt::Formatter<W>,
) -> fmt::Result {
    let row = number(row);
    write!(
        f,
        "row {row}: the number of its values is {values}, and of columns {columns}"
    )
}

// How many names are told at most.
const MOST: usize = 32;

fn write_names<W: fmt::Write>(columns: &[Column], f: &mut fmt::Formatter<W>) -> fmt::Result {
    for (at, column) in columns.iter().enumerate() {
        if at == MOST {
            return f.write_str(", ..");
        }
        if at > 0 {
            f.write_str(", ")?;
        }
        f.write_str(column.name())?;
    }
    Ok(())
}

fn write_cell<W: fmt::Write>(
    row: Option<usize>,
    column: &Column,
    value: &Value,
    fault: CellFault,
    f: &mut fmt::Formatter<W>,
) -> fmt::Result {
    if let Some(row) = row {
        write!(f, "row {}, ", number(row))?;
    }
    write!(f, "column {}: ", column.name())?;
    write_value(value, f)?;
    write_fault(column, fault, f)
}

// Of a text so many characters are told at most.
const MOST_CHARACTERS: usize = 40;

// What a value is.
fn write_value<W: fmt::Write>(value: &Value, f: &mut fmt::Formatter<W>) -> fmt::Result {
    match value {
        Value::Null => f.write_str("null"),
        Value::Int(number) => write!(f, "{number}"),
        Value::Str(text) => write_text(text.as_str(), f),
        Value::Binary => f.write_str("bytes"),
    }
}

fn write_text<W: fmt::Write>(text: &str, f: &mut fmt::Formatter<W>) -> fmt::Result {
    let count = text.chars().count();
    if count <= MOST_CHARACTERS {
        return write!(f, "{text:?}");
    }
    write!(f, "a text of {count} characters")
}

// What a column takes, where it doesn't take a value.
fn write_fault<W: fmt::Write>(
    column: &Column,
    fault: CellFault,
    f: &mut fmt::Formatter<W>,
) -> fmt::Result {
    match fault {
        CellFault::Null if column.coltype() == ColumnType::Binary => {
            f.write_str(", and it takes bytes; write {\"binary\":true}")
        }
        CellFault::Null => f.write_str(", and it takes none"),
        CellFault::Kind => write_kind(column.coltype(), f),
        CellFault::Range(low, high) => write!(f, ", and it takes {low} to {high}"),
        CellFault::Size => write_size(column.coltype(), f),
        CellFault::Category(category) => write_category(category, f),
        CellFault::Choice => write_choices(column, f),
        CellFault::Length(length) => write!(f, ", and it takes {length} characters"),
    }
}

fn write_kind<W: fmt::Write>(kind: ColumnType, f: &mut fmt::Formatter<W>) -> fmt::Result {
    f.write_str(match kind {
        ColumnType::Int16 | ColumnType::Int32 => ", and it takes numbers",
        ColumnType::Str(_) => ", and it takes texts",
        ColumnType::Binary => ", and it takes bytes; write {\"binary\":true}",
    })
}

fn write_size<W: fmt::Write>(kind: ColumnType, f: &mut fmt::Formatter<W>) -> fmt::Result {
    f.write_str(match kind {
        ColumnType::Int16 => ", and it takes -32767 to 32767",
        _ => ", and it takes -2147483647 to 2147483647",
    })
}

fn write_category<W: fmt::Write>(category: Category, f: &mut fmt::Formatter<W>) -> fmt::Result {
    write!(f, ", and its category is {}", category.as_str())
}

fn write_choices<W: fmt::Write>(column: &Column, f: &mut fmt::Formatter<W>) -> fmt::Result {
    f.write_str(", and it takes ")?;
    let Some(texts) = column.enum_values() else {
        return Ok(());
    };
    for (at, text) in texts.iter().enumerate() {
        if at == MOST {
            return f.write_str(", ..");
        }
        if at > 0 {
            f.write_str(", ")?;
        }
        write!(f, "{:?}", text.as_str())?;
    }
    Ok(())
}
