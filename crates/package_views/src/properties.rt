//! One property of a package, or one field of its summary, as a text.
ghost use Rattle.std.specs.Prelude.{◌≤◌};

use crate::fields::tell_no_field;
use crate::json::{text_of_json, value_of_property};
use cfb_medium::Error;
use msi::Package;
use msi_columns::{Column, ColumnType};
use msi_export::moment_text;
use msi_props::PropertyValue;
use msi_tables::Row;
use msi_values::Value;
use package_files::{Names, Output, Shown, check_shown, status_of_error, tell_failure, tell_part};
use package_reading::{
    Pages, SummaryPage, Told, columns_of, package_at, package_by, page_in_summary, properties_of,
    rows_of, table_named, tell_why_refused,
};
use serde_json::Value as Json;
use std::alloc::{AllocError, Global};
use std::fs::File;
use std::io::Write;
use std::rt::Files;

/// The table whose rows are properties.
const TABLE: &str = "Property";

// What was found under a name.
#[derive(Drop)]
enum Sought {
    // Its value.
    Value(String),
    // Nothing.
    Nothing,
    // The package has no table of properties.
    NoTable,
    // The summary knows no such field.
    NoField,
}

/// Prints the value of a property, or of a field of the summary, of a package as a recovery would leave it. It is only read. The status is
/// 0 where there is one, 1 where there is none, which is told; 3 where the file is no package or can't be read, which is told, too, and where
/// nothing can be written.
pub fn get_property<'a, R: Files<File = File> + AllocGlobal, O: Write, E: Write>(
    rt: &R,
    names: &'a Names,
    name: &str,
    is_field: bool,
    pages: Pages,
    out: &'a mut O,
    err: &'a mut E,
) -> u8
    ensures { result ≤ 3 }
{
    if let Err(failure) = check_shown(rt, names, err) {
        tell_failure(names, failure, err);
        return 3;
    }
    let told = Told {
        texts: !is_field,
        summary: is_field,
    };
    let (mut package, reread) = match package_by(rt, names, pages, told, err) {
        Ok(read) => read,
        Err(error) => {
            tell_why_refused(rt, names, error, err);
            return 3;
        }
    };
    let page = page_in_summary(&reread.summary);
    match sought_in(rt.alloc(), &mut package, page, name, is_field) {
        Ok(Sought::Value(text)) => print_value(names.named(), &text, out, err),
        Ok(sought) => {
            tell_nothing(names.named(), name, is_field, &sought, err);
            1
        }
        Err(error) => {
            let (kind, part) = if is_field {
                ("the summary's", name)
            } else {
                ("table", TABLE)
            };
            tell_part(names.named(), kind, part, error, err);
            3
        }
    }
}

// What is found under a name in a package, of the page of whose summary this is told.
fn sought_in(
    alloc: Global,
    package: &mut Package<Shown>,
    page: SummaryPage,
    name: &str,
    is_field: bool,
) -> Result<Sought, Error> {
    if is_field {
        field_in(alloc, package, page, name)
    } else {
        property_in(alloc, package, name)
    }
}

/// Whether a package as a recovery would leave it can be read and has no property of a name, or its summary no such field, which is told. It is
/// only read.
pub fn lacks_property<R: Files<File = File> + AllocGlobal, E: Write>(
    rt: &R,
    names: &Names,
    name: &str,
    is_field: bool,
    err: &mut E,
) -> bool {
    match sought_at(rt, names, name, is_field) {
        Ok(Sought::Value(_)) | Err(_) => false,
        Ok(sought) => {
            tell_nothing(names.named(), name, is_field, &sought, err);
            true
        }
    }
}

fn sought_at<R: Files<File = File> + AllocGlobal>(
    rt: &R,
    names: &Names,
    name: &str,
    is_field: bool,
) -> Result<Sought, Error> {
    let mut package = package_at(rt, names)?;
    sought_in(
        rt.alloc(),
        &mut package,
        SummaryPage::AsRead,
        name,
        is_field,
    )
}

/// Why no property of a package can have a name, by the first column of its table.
#[derive(Clone, Copy, Debug)]
pub enum NameFault {
    /// It has more characters than so many.
    TooLong(usize),
    /// It isn't of the category that the column has.
    NotOf(&'static str),
}

/// Why no property of a package, as a recovery would leave it, can have a name; nothing where one can, or where it isn't known. It is only
/// read.
pub fn name_fault<R: Files<File = File> + AllocGlobal>(
    rt: &R,
    names: &Names,
    name: &str,
) -> Option<NameFault> {
    match package_at(rt, names) {
        Ok(package) => fault_in(columns_of(&package, TABLE), name),
        Err(_) => None,
    }
}

fn fault_in(columns: &[Column], name: &str) -> Option<NameFault> {
    let column = columns.iter().find(|it| it.name() == TABLE)?;
    let most = match column.coltype() {
        ColumnType::Str(most) => most,
        _ => 0,
    };
    if 0 < most && most < name.chars().count() {
        return Some(NameFault::TooLong(most));
    }
    match column.category() {
        Some(category) if !category.validate(name) => Some(NameFault::NotOf(category.as_str())),
        _ => None,
    }
}

// Prints a value on a line. The status is 0 where it was printed, or nobody reads it.
fn print_value<O: Write, E: Write>(path: &str, text: &str, out: &mut O, err: &mut E) -> u8
    ensures { result ≤ 3 }
{
    let mut out = Output::new(out);
    match out.line(text) {
        Ok(()) => 0,
        Err(error) => status_of_error(path, error, out.broken(), 0, err),
    }
}

// Tells why there is no value.
fn tell_nothing<E: Write>(path: &str, name: &str, is_field: bool, sought: &Sought, err: &mut E) {
    let _ = match sought {
        Sought::NoTable => writeln!(err, "msidb: {path}: no table {TABLE}, and so no property"),
        Sought::NoField => {
            tell_no_field(path, name, err);
            Ok(())
        }
        _ if name.is_empty() => writeln!(err, "msidb: {path}: nothing has an empty name"),
        _ if is_field => writeln!(
            err,
            "msidb: {path}: its summary has no {name}; `msidb show {path} --summary` tells what it has"
        ),
        _ => writeln!(
            err,
            "msidb: {path}: no property {name} (case counts); `msidb show {path} {TABLE}` lists them"
        ),
    };
}

// The value of a property.
fn property_in(alloc: Global, package: &mut Package<Shown>, name: &str) -> Result<Sought, Error> {
    if table_named(package, TABLE).is_none() {
        return Ok(Sought::NoTable);
    }
    let columns = columns_of(package, TABLE);
    let (names, values) = (place_of(columns, TABLE), place_of(columns, "Value"));
    for row in rows_of(alloc, package, TABLE)? {
        if is_named(&row, names, name) {
            return Ok(Sought::Value(cell_text(alloc, &row, values)?));
        }
    }
    Ok(Sought::Nothing)
}

// The place of a column; behind the last where there is none.
fn place_of(columns: &[Column], name: &str) -> usize {
    columns
        .iter()
        .position(|column| column.name() == name)
        .unwrap_or(columns.len())
}

// Whether a row has this text at a place.
fn is_named(row: &Row, place: usize, name: &str) -> bool {
    matches!(row.value(place), Some(Value::Str(text)) if text.as_str() == name)
}

// A value of a row as a text; nothing for null.
fn cell_text(alloc: Global, row: &Row, place: usize) -> Result<String, AllocError> {
    match row.value(place) {
        Some(Value::Str(text)) => String::from_str(alloc, text),
        Some(Value::Int(number)) => format!(in alloc; "{number}"),
        _ => Ok(String::new(alloc)),
    }
}

// The number of the template, whose two parts are fields.
const TEMPLATE: u32 = 7;

// The number of the property that a field is, or of the one in which it stands.
fn number_of(field: &str) -> Option<u32> {
    Some(match field {
        "codepage" => 1,
        "title" => 2,
        "subject" => 3,
        "author" => 4,
        "keywords" => 5,
        "comments" => 6,
        "arch" | "languages" => TEMPLATE,
        "last_saved_by" => 8,
        "uuid" => 9,
        "last_printed" => 11,
        "creation_time" => 12,
        "last_saved_time" => 13,
        "page_count" => 14,
        "word_count" => 15,
        "character_count" => 16,
        "creating_application" => 18,
        "doc_security" => 19,
        _ => return None,
    })
}

// The number of the property that tells the page of the summary.
const CODEPAGE: u32 = 1;

// The value of a field of the summary, of whose page this is told.
fn field_in(
    alloc: Global,
    package: &Package<Shown>,
    page: SummaryPage,
    field: &str,
) -> Result<Sought, Error> {
    let Some(number) = number_of(field) else {
        return Ok(Sought::NoField);
    };
    match page {
        SummaryPage::Named(id) if number == CODEPAGE => {
            let value = PropertyValue::I2(id.cast_signed());
            return Ok(Sought::Value(text_of_field(alloc, field, &value)?));
        }
        SummaryPage::Missing if number == CODEPAGE => return Ok(Sought::Nothing),
        _ => {}
    }
    for (other, value) in properties_of(package) {
        if *other == number {
            return Ok(Sought::Value(text_of_field(alloc, field, value)?));
        }
    }
    Ok(Sought::Nothing)
}

// A property as a field's text: several keywords or languages with commas, a moment by ISO 8601, in UTC.
fn text_of_field(alloc: Global, field: &str, value: &PropertyValue) -> Result<String, AllocError> {
    match value {
        PropertyValue::LpStr(text) => part_of_text(alloc, field, text),
        PropertyValue::I1(number) => format!(in alloc; "{number}"),
        PropertyValue::I2(number) => format!(in alloc; "{number}"),
        PropertyValue::I4(number) => format!(in alloc; "{number}"),
        PropertyValue::FileTime(moment) => match moment_text(alloc, *moment)? {
            Some(text) => Ok(text),
            // (past the year 9999: in tenths of a microsecond)
            None => units_of(alloc, value),
        },
        PropertyValue::Empty | PropertyValue::Null => Ok(String::new(alloc)),
    }
}

fn part_of_text(alloc: Global, field: &str, text: &str) -> Result<String, AllocError> {
    match field {
        "arch" => String::from_str(alloc, text.split(';').next().unwrap_or("")),
        "languages" => String::from_str(alloc, text.split(';').nth(1).unwrap_or("")),
        "keywords" => joined(alloc, text),
        _ => String::from_str(alloc, text),
    }
}

// Keywords, which stand with semicolons between them, with commas.
fn joined(alloc: Global, text: &str) -> Result<String, AllocError> {
    let mut all = String::new(alloc);
    for word in text.split(';') {
        if !all.is_empty() {
            all.push(',')?;
        }
        all.push_str(word.trim())?;
    }
    Ok(all)
}

fn units_of(alloc: Global, value: &PropertyValue) -> Result<String, AllocError> {
    let json = value_of_property(alloc, value)?;
    match json.get("time") {
        Some(units) => text_of_json(alloc, units),
        None => text_of_json(alloc, &Json::Null),
    }
}
