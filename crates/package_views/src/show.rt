//! What a package of any maker holds, a line of JSON each.
ghost use Rattle.std.specs.Prelude.{◌≤◌};

use crate::grids::grid_lines;
use crate::json::{text_of_json, value_of_cell, value_of_property};
use crate::near::tell_no_table;
use crate::records::records_of;
use crate::tree::{tree_at, write_tree};
use cfb_medium::Error;
use command_options::Parts;
use installer::columns_value;
use msi::Package;
use msi_columns::Column;
use msi_export::{StreamFacts, moment_text, property_name};
use msi_props::PropertyValue;
use msi_tables::{Row, Rows};
use package_files::{
    Names, Output, Shown as ShownFile, check_shown, status_of_error, tell_failure, tell_part,
};
use package_reading::{
    Own, Pages, SummaryPage, Told, facts_of, is_signed, kind_of, name_of_page, own_facts,
    package_by, properties_of, rows_of, streams_of, table_named, tables_of, tell_why_refused,
};
use serde_json::{Value as Json, json};
use std::alloc::{AllocError, Global};
use std::fs::File;
use std::io::Write;
use std::rt::Files;
use text_columns::escaped;

// The number of the summary's code page.
const CODEPAGE: u32 = 1;

/// How the rows of a table stand.
#[derive(Clone, Copy, Debug, PartialEq, Eq)]
pub enum Form {
    /// A line of JSON each.
    Json,
    /// In aligned columns, for a person.
    Columns,
    /// As comma-separated values, behind the names of the columns.
    Commas,
}

// How much was shown.
#[derive(Clone, Copy, Debug, PartialEq, Eq)]
enum Shown {
    // All that was asked for.
    Whole,
    // Some of it: what couldn't be read was told.
    Partly,
    // A table was asked for that isn't there.
    NoTable,
}

/// Shows parts of a package, which is only read, as a recovery would leave it; the tree first, for which it need be no package but any
/// compound file. A table stands in the form that is asked for. The status is 0 where all was shown, 1 where
/// no table has the name, 3 where the file is no package or a part of it can't be read, or its log is malformed, which is told with the
/// file's name, and where nothing can be written; where nobody reads the answers any more it is what it was so far.
pub fn show_package<'a, R: Files<File = File> + AllocGlobal, O: Write, E: Write>(
    rt: &R,
    names: &'a Names,
    parts: Parts<'_>,
    pages: Pages,
    form: Form,
    out: &'a mut O,
    err: &'a mut E,
) -> u8
    ensures { result ≤ 3 }
{
    if let Err(failure) = check_shown(rt, names, err) {
        tell_failure(names, failure, err);
        return 3;
    }
    if parts.tree {
        let status = show_tree(rt, names, out, err);
        if status != 0 || is_tree_alone(parts) {
            return status;
        }
    }
    let (mut package, reread) = match package_by(rt, names, pages, told_of(parts), err) {
        Ok(read) => read,
        Err(error) => {
            tell_why_refused(rt, names, error, err);
            return 3;
        }
    };
    let own = own_facts(rt, names, &package, &reread);
    let mut page = Page::new(rt.alloc(), names.named(), own, form, out, err);
    match show_parts(&mut page, &mut package, parts) {
        Ok(Shown::Whole) => 0,
        Ok(Shown::NoTable) => 1,
        Ok(Shown::Partly) => 3,
        Err(error) => status_of_error(names.named(), error, page.out.broken(), 0, page.err),
    }
}

// Of which parts it is told how they were read: of those that are shown.
fn told_of(parts: Parts<'_>) -> Told {
    if parts.table.is_none() && !parts.summary && !parts.streams {
        return Told::both();
    }
    Told {
        texts: parts.table.is_some(),
        summary: parts.summary,
    }
}

// Whether nothing but the tree is asked for.
fn is_tree_alone(parts: Parts<'_>) -> bool {
    parts.table.is_none() && !parts.summary && !parts.streams
}

// Shows the tree. The status is 0 where it was shown, else 3.
fn show_tree<R: Files<File = File> + AllocGlobal, O: Write, E: Write>(
    rt: &R,
    names: &Names,
    out: &mut O,
    err: &mut E,
) -> u8
    ensures { result ≤ 3 }
{
    let entries = match tree_at(rt, names) {
        Ok(entries) => entries,
        Err(error) => {
            tell_why_refused(rt, names, error, err);
            return 3;
        }
    };
    let mut out = Output::new(out);
    match write_tree(rt.alloc(), entries, &mut out) {
        Ok(()) => 0,
        Err(error) => status_of_error(names.named(), error, out.broken(), 0, err),
    }
}

// Shows the parts that are asked for, or all but the tree.
fn show_parts<O: Write, E: Write>(
    page: &mut Page<'_, O, E>,
    package: &mut Package<ShownFile>,
    parts: Parts<'_>,
) -> Result<Shown, Error> {
    if parts.summary {
        page.show_summary(package)?;
    }
    if parts.streams && page.show_streams(package)? == Shown::Partly {
        return Ok(Shown::Partly);
    }
    match parts.table {
        Some(name) => page.show_table_asked(package, name),
        None if parts.summary || parts.streams => Ok(Shown::Whole),
        None => page.show_all(package),
    }
}

// Where the parts of a package are shown.
#[derive(Drop)]
struct Page<'a, O, E> {
    alloc: Global,
    path: &'a str,
    own: Own,
    form: Form,
    out: Output<'a, O>,
    err: &'a mut E,
}

impl<'a, O: Write, E: Write> Page<'a, O, E> {
    fn new(
        alloc: Global,
        path: &'a str,
        own: Own,
        form: Form,
        out: &'a mut O,
        err: &'a mut E,
    ) -> Self {
        Page {
            alloc,
            path,
            own,
            form,
            out: Output::new(out),
            err,
        }
    }

    fn show_all(&mut self, package: &mut Package<ShownFile>) -> Result<Shown, Error> {
        self.line(&facts_value(self.alloc, package, self.own)?)?;
        self.show_summary(package)?;
        let tables = self.show_tables(package)?;
        let streams = self.show_streams(package)?;
        Ok(if tables == Shown::Whole {
            streams
        } else {
            tables
        })
    }

    // Each property of the summary.
    fn show_summary(&mut self, package: &Package<ShownFile>) -> Result<(), Error> {
        for (number, value) in properties_of(package) {
            self.show_property(*number, value)?;
        }
        Ok(())
    }

    // A property, as the file has it.
    fn show_property(&mut self, number: u32, value: &PropertyValue) -> Result<(), Error> {
        match self.own.summary {
            SummaryPage::Missing if number == CODEPAGE => Ok(()),
            SummaryPage::Named(page) if number == CODEPAGE => {
                self.show_value(number, &PropertyValue::I2(page.cast_signed()))
            }
            _ => self.show_value(number, value),
        }
    }

    fn show_value(&mut self, number: u32, value: &PropertyValue) -> Result<(), Error> {
        let page = if self.form == Form::Columns {
            page_named(number, value)
        } else {
            None
        };
        let line = numbered_value(self.alloc, number, value, page)?;
        self.line(&line)
    }

    // Each table, by the bytes of the names.
    fn show_tables(&mut self, package: &mut Package<ShownFile>) -> Result<Shown, Error> {
        let mut shown = Shown::Whole;
        for name in tables_of(package)? {
            if self.show_one(package, &name)? == Shown::Partly {
                shown = Shown::Partly;
            }
        }
        Ok(shown)
    }

    // A table among others, for a person between its name and an empty line.
    fn show_one(&mut self, package: &mut Package<ShownFile>, name: &str) -> Result<Shown, Error> {
        if self.form != Form::Columns {
            return self.show_table(package, name);
        }
        let heading = one_line(self.alloc, name)?;
        self.text(&heading)?;
        let shown = self.show_table(package, name)?;
        self.text("")?;
        Ok(shown)
    }

    fn show_table_asked(
        &mut self,
        package: &mut Package<ShownFile>,
        name: &str,
    ) -> Result<Shown, Error> {
        if table_named(package, name).is_some() {
            return self.show_table(package, name);
        }
        tell_no_table(self.path, package, name, self.err);
        Ok(Shown::NoTable)
    }

    // The columns of a table, and its rows, or why they can't be read.
    fn show_table(&mut self, package: &mut Package<ShownFile>, name: &str) -> Result<Shown, Error> {
        if self.form == Form::Json {
            let heading = heading_value(self.alloc, package, name)?;
            self.line(&heading)?;
        }
        match self.show_rows(package, name)? {
            None => Ok(Shown::Whole),
            Some(error) => {
                tell_part(self.path, "table", name, error, self.err);
                Ok(Shown::Partly)
            }
        }
    }

    // The rows of a table, or why they can't be read.
    fn show_rows(
        &mut self,
        package: &mut Package<ShownFile>,
        name: &str,
    ) -> Result<Option<Error>, Error> {
        let rows = match rows_of(self.alloc, package, name) {
            Ok(rows) => rows,
            Err(error) => return Ok(Some(error)),
        };
        match self.form {
            Form::Json => self.show_values(rows)?,
            Form::Columns => self.show_grid(package, name, rows)?,
            Form::Commas => self.show_records(package, name, rows)?,
        }
        Ok(None)
    }

    // Rows, a line of JSON each.
    fn show_values(&mut self, rows: Rows) -> Result<(), Error> {
        for row in rows {
            let line = row_value(self.alloc, &row)?;
            self.line(&line)?;
        }
        Ok(())
    }

    // Rows in aligned columns.
    fn show_grid(
        &mut self,
        package: &Package<ShownFile>,
        name: &str,
        rows: Rows,
    ) -> Result<(), Error> {
        for line in &grid_lines(self.alloc, package, name, rows)? {
            self.text(line)?;
        }
        Ok(())
    }

    // The names of columns, and rows, as comma-separated values.
    fn show_records(
        &mut self,
        package: &Package<ShownFile>,
        name: &str,
        rows: Rows,
    ) -> Result<(), Error> {
        let records = records_of(self.alloc, package, name, rows)?;
        // (the output ends the last line itself)
        self.text(records.strip_suffix('\n').unwrap_or(&records))
    }

    // Each stream that belongs to no table, in the container's order.
    fn show_streams(&mut self, package: &mut Package<ShownFile>) -> Result<Shown, Error> {
        let mut shown = Shown::Whole;
        for name in streams_of(package)? {
            match facts_of(self.alloc, package, &name) {
                Ok(facts) => self.line(&stream_value(self.alloc, &name, &facts)?)?,
                Err(error) => {
                    tell_part(self.path, "stream", &name, error, self.err);
                    shown = Shown::Partly;
                }
            }
        }
        Ok(shown)
    }

    // Writes a value as a line. `Device` where it can't be written.
    fn line(&mut self, value: &Json) -> Result<(), Error> {
        let text = text_of_json(self.alloc, value)?;
        self.text(&text)
    }

    // Writes a text as a line. `Device` where it can't be written.
    fn text(&mut self, text: &str) -> Result<(), Error> {
        self.out.line(text)
    }
}

// What is said of the whole package.
fn facts_value(alloc: Global, package: &Package<ShownFile>, own: Own) -> Result<Json, AllocError> {
    let kind = Json::String(format!(in alloc; "{:?}", kind_of(package))?);
    let page = Json::from(own.page);
    let (signed, sound) = (is_signed(package), own.is_sound);
    json!(in alloc; {"codepage": page, "kind": kind, "signed": signed, "sound": sound})
}

// What the code page is called that a property names, where it names one that is known.
fn page_named(number: u32, value: &PropertyValue) -> Option<&'static str> {
    match value {
        PropertyValue::I2(page) if number == CODEPAGE => {
            name_of_page(u32::from(page.cast_unsigned()))
        }
        _ => None,
    }
}

// A property with its number and name, its date where it is a time, and what a code page is called, if that is given. A code page is a number
// without a sign.
fn numbered_value(
    alloc: Global,
    number: u32,
    value: &PropertyValue,
    page: Option<&str>,
) -> Result<Json, AllocError> {
    let date = date_of(alloc, value)?;
    let value = match value {
        PropertyValue::I2(page) if number == CODEPAGE => Json::from(page.cast_unsigned()),
        _ => value_of_property(alloc, value)?,
    };
    let name = match property_name(number) {
        Some(name) => text_value(alloc, name)?,
        None => Json::Null,
    };
    let number = Json::from(number);
    match (page, date) {
        (Some(page), _) => {
            let page = text_value(alloc, page)?;
            json!(in alloc; {"name": name, "number": number, "page": page, "value": value})
        }
        (None, Some(date)) => {
            json!(in alloc; {"date": date, "name": name, "number": number, "value": value})
        }
        (None, None) => json!(in alloc; {"name": name, "number": number, "value": value}),
    }
}

// The date of a time, in UTC; none of what is no time, or past the year 9999.
fn date_of(alloc: Global, value: &PropertyValue) -> Result<Option<Json>, AllocError> {
    match value {
        PropertyValue::FileTime(moment) => Ok(moment_text(alloc, *moment)?.map(Json::String)),
        _ => Ok(None),
    }
}

// The name and the columns of a table.
fn heading_value(
    alloc: Global,
    package: &Package<ShownFile>,
    name: &str,
) -> Result<Json, AllocError> {
    let columns = match table_named(package, name) {
        Some(table) => value_of_columns(alloc, table.columns())?,
        None => Json::Null,
    };
    let name = text_value(alloc, name)?;
    json!(in alloc; {"columns": columns, "table": name})
}

// The values of a row.
fn row_value(alloc: Global, row: &Row) -> Result<Json, AllocError> {
    let mut cells = Vec::new(alloc);
    for place in 0..row.len() {
        if let Some(cell) = row.value(place) {
            cells.push(value_of_cell(alloc, cell)?)?;
        }
    }
    Ok(Json::Array(cells))
}

// The length and the digest of a stream.
fn stream_value(alloc: Global, name: &str, facts: &StreamFacts) -> Result<Json, AllocError> {
    let length = Json::from(facts.len);
    let name = text_value(alloc, name)?;
    let digest = text_value(alloc, &facts.digest)?;
    json!(in alloc; {"length": length, "name": name, "sha256": digest})
}

// Functions of their own, since what is told of these calls costs time wherever it is seen.
fn one_line(alloc: Global, text: &str) -> Result<String, AllocError> {
    escaped(alloc, text)
}

fn value_of_columns(alloc: Global, columns: &[Column]) -> Result<Json, AllocError> {
    columns_value(alloc, columns)
}

fn text_value(alloc: Global, text: &str) -> Result<Json, AllocError> {
    Ok(Json::String(String::from_str(alloc, text)?))
}
