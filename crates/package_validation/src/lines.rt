//! Findings as lines: of JSON, or of words.
use crate::findings::{Found, number_at, table_meant, text_at};
use crate::rules::Rule;
use msi_listing::{Cell, Column, Kind, Row};
use serde_json::{Value as Json, json};
use std::alloc::{AllocError, Global};
use text_columns::escaped;

/// What is said of a finding.
#[derive(Drop)]
pub(crate) struct Said {
    /// What stands there in place of what is wanted.
    pub(crate) says: String,
    /// What is wanted.
    pub(crate) wants: String,
}

/// What is said of a cell that fails a rule; the row of `_Validation` is that of its column.
pub(crate) fn said_of(
    alloc: Global,
    rule: Rule,
    found: &Found<'_>,
    row: Option<&Row>,
) -> Result<Said, AllocError> {
    match rule {
        Rule::Key => said_of_key(alloc, found),
        Rule::Nullable => in_words(alloc, "a null, and its column takes none", "a value"),
        Rule::Length => said_of_length(alloc, found),
        Rule::Empty => in_words(
            alloc,
            "an empty text, which other programs take for a null",
            "a null, or a text",
        ),
        Rule::Foreign => said_of_lost(alloc, found, words_at(row, 5)),
        Rule::Refers => said_of_lost(alloc, found, table_meant(found.column.name())),
        Rule::Stream => said_of_stream(alloc, found),
        Rule::Set => said_of_value(alloc, found, "isn't one of", words_at(row, 8)),
        Rule::Category => said_of_value(alloc, found, "is no", words_at(row, 7)),
        Rule::Range => said_of_range(alloc, found, row),
        Rule::Cabinet => said_of_medium(alloc, found),
        Rule::Product => said_of_value(alloc, found, "is no", form_of(found)),
        Rule::Guid => said_of_value(alloc, found, "is no", GUID),
        Rule::Tree => said_of_parent(alloc, found),
        Rule::Action => said_of_value(
            alloc,
            found,
            "is no",
            "standard action, custom action or dialog",
        ),
        Rule::Described | Rule::Unused | Rule::Required => in_words(alloc, "", ""),
    }
}

const GUID: &str = "GUID in braces, in capital letters";

// What the property of a row must be.
fn form_of(found: &Found<'_>) -> &'static str {
    match text_at(found.row, 0) {
        "ProductVersion" => "version of numbers up to 255.255.65535",
        "ProductLanguage" => "number of a language",
        _ => GUID,
    }
}

fn words_at(row: Option<&Row>, at: usize) -> &str {
    match row {
        Some(row) => text_at(row, at),
        None => "",
    }
}

/// What is said of a code that a component before has.
pub(crate) fn said_of_code(alloc: Global) -> Result<Said, AllocError> {
    in_words(
        alloc,
        "a component before it has the same code",
        "a GUID of its own",
    )
}

// A parent from which going up doesn't end.
fn said_of_parent(alloc: Global, found: &Found<'_>) -> Result<Said, AllocError> {
    let value = value_of(alloc, found.cell)?;
    let value = line_of(alloc, &value)?;
    Ok(Said {
        says: format!(in alloc; "the way up by {value} goes in a circle")?,
        wants: String::from_str(alloc, "a way up that ends at a root")?,
    })
}

fn said_of_key(alloc: Global, found: &Found<'_>) -> Result<Said, AllocError> {
    if found.cell.is_null() {
        return in_words(alloc, "a null in a key", "a value");
    }
    in_words(
        alloc,
        "a row before it has the same key",
        "a key of its own",
    )
}

// A value, and what it is not.
fn said_of_value(
    alloc: Global,
    found: &Found<'_>,
    verb: &str,
    wants: &str,
) -> Result<Said, AllocError> {
    let value = value_of(alloc, found.cell)?;
    let value = line_of(alloc, &value)?;
    Ok(Said {
        says: format!(in alloc; "{value} {verb} {wants}")?,
        wants: String::from_str(alloc, wants)?,
    })
}

fn said_of_range(alloc: Global, found: &Found<'_>, row: Option<&Row>) -> Result<Said, AllocError> {
    let wants = range_words(alloc, row)?;
    let value = value_of(alloc, found.cell)?;
    let value = line_of(alloc, &value)?;
    Ok(Said {
        says: format!(in alloc; "{value} isn't {wants}")?,
        wants,
    })
}

// The bounds that a row of `_Validation` sets.
fn range_words(alloc: Global, row: Option<&Row>) -> Result<String, AllocError> {
    let (low, high) = match row {
        Some(row) => (number_at(row, 3), number_at(row, 4)),
        None => (None, None),
    };
    match (low, high) {
        (Some(low), Some(high)) => format!(in alloc; "from {low} to {high}"),
        (Some(low), None) => format!(in alloc; "{low} or more"),
        (None, Some(high)) => format!(in alloc; "{high} or less"),
        (None, None) => Ok(String::new(alloc)),
    }
}

// A cabinet without its stream, or a file that no medium has.
fn said_of_medium(alloc: Global, found: &Found<'_>) -> Result<Said, AllocError> {
    match found.cell {
        Cell::Text(text) => {
            let name = text.strip_prefix('#').unwrap_or(text);
            Ok(Said {
                says: format!(in alloc; "no stream {name}")?,
                wants: String::from_str(alloc, name)?,
            })
        }
        _ => in_words(
            alloc,
            "no medium has a file of this number",
            "a number from 1 to the greatest LastSequence of Media",
        ),
    }
}

fn in_words(alloc: Global, says: &str, wants: &str) -> Result<Said, AllocError> {
    Ok(Said {
        says: String::from_str(alloc, says)?,
        wants: String::from_str(alloc, wants)?,
    })
}

fn said_of_length(alloc: Global, found: &Found<'_>) -> Result<Said, AllocError> {
    let most = most_of(found.column);
    let count = count_of(found.cell);
    Ok(Said {
        says: format!(in alloc; "a text of {count} characters, and its column takes {most}")?,
        wants: format!(in alloc; "at most {most} characters")?,
    })
}

fn said_of_lost(alloc: Global, found: &Found<'_>, tables: &str) -> Result<Said, AllocError> {
    let value = value_of(alloc, found.cell)?;
    let value = line_of(alloc, &value)?;
    Ok(Said {
        says: format!(in alloc; "{value} is no key of {tables}")?,
        wants: String::from_str(alloc, tables)?,
    })
}

fn said_of_stream(alloc: Global, found: &Found<'_>) -> Result<Said, AllocError> {
    let mut name = String::from_str(alloc, found.table.name())?;
    for (at, column) in found.table.columns().iter().enumerate() {
        if column.is_key() {
            push_part(alloc, &mut name, found.row, at)?;
        }
    }
    Ok(Said {
        says: format!(in alloc; "no stream {name}")?,
        wants: name,
    })
}

// Adds a cell of a key to the name of a stream, behind a dot.
fn push_part(alloc: Global, name: &mut String, row: &Row, at: usize) -> Result<(), AllocError> {
    name.push('.')?;
    match row.cells().get(at) {
        Some(Cell::Text(text)) => name.push_str(text),
        Some(Cell::Number(number)) => {
            let digits = format!(in alloc; "{number}")?;
            name.push_str(&digits)
        }
        Some(Cell::Null | Cell::Bytes) | None => Ok(()),
    }
}

fn most_of(column: &Column) -> usize {
    match column.kind() {
        Kind::Str(most) => most,
        Kind::Int16 | Kind::Int32 | Kind::Binary => 0,
    }
}

fn count_of(cell: &Cell) -> usize {
    match cell {
        Cell::Text(text) => text.chars().count(),
        Cell::Null | Cell::Number(_) | Cell::Bytes => 0,
    }
}

/// A finding on a cell as a value of JSON.
pub(crate) fn cell_value(
    alloc: Global,
    file: Option<&str>,
    rule: Rule,
    found: &Found<'_>,
    said: &Said,
) -> Result<Json, AllocError> {
    let column = text_value(alloc, found.column.name())?;
    let key = key_value(alloc, found)?;
    let name = text_value(alloc, rule.name())?;
    let says = text_value(alloc, &said.says)?;
    let table = text_value(alloc, found.table.name())?;
    let value = value_of(alloc, found.cell)?;
    let wants = text_value(alloc, &said.wants)?;
    match file {
        None =>
            json!(in alloc; {"column": column, "key": key, "rule": name, "says": says, "table": table, "value": value, "wants": wants}),
        Some(file) => {
            let file = text_value(alloc, file)?;
            json!(in alloc; {"column": column, "file": file, "key": key, "rule": name, "says": says, "table": table, "value": value, "wants": wants})
        }
    }
}

/// A finding on the whole package as a value of JSON.
pub(crate) fn whole_value(
    alloc: Global,
    file: Option<&str>,
    rule: Rule,
    said: &Said,
) -> Result<Json, AllocError> {
    let name = text_value(alloc, rule.name())?;
    let says = text_value(alloc, &said.says)?;
    let wants = text_value(alloc, &said.wants)?;
    match file {
        None => json!(in alloc; {"rule": name, "says": says, "wants": wants}),
        Some(file) => {
            let file = text_value(alloc, file)?;
            json!(in alloc; {"file": file, "rule": name, "says": says, "wants": wants})
        }
    }
}

/// A finding on a column as a value of JSON.
pub(crate) fn column_value(
    alloc: Global,
    file: Option<&str>,
    rule: Rule,
    names: (&str, &str),
    said: &Said,
) -> Result<Json, AllocError> {
    let table = text_value(alloc, names.0)?;
    let column = text_value(alloc, names.1)?;
    let name = text_value(alloc, rule.name())?;
    let says = text_value(alloc, &said.says)?;
    let wants = text_value(alloc, &said.wants)?;
    match file {
        None =>
            json!(in alloc; {"column": column, "rule": name, "says": says, "table": table, "wants": wants}),
        Some(file) => {
            let file = text_value(alloc, file)?;
            json!(in alloc; {"column": column, "file": file, "rule": name, "says": says, "table": table, "wants": wants})
        }
    }
}

// The cells of a row's key.
fn key_value(alloc: Global, found: &Found<'_>) -> Result<Json, AllocError> {
    let mut key = Vec::new(alloc);
    for (at, column) in found.table.columns().iter().enumerate() {
        if column.is_key() {
            key.push(value_at(alloc, found.row, at)?)?;
        }
    }
    Ok(Json::Array(key))
}

fn value_at(alloc: Global, row: &Row, at: usize) -> Result<Json, AllocError> {
    match row.cells().get(at) {
        Some(cell) => value_of(alloc, cell),
        None => Ok(Json::Null),
    }
}

fn value_of(alloc: Global, cell: &Cell) -> Result<Json, AllocError> {
    match cell {
        Cell::Null => Ok(Json::Null),
        Cell::Number(number) => Ok(Json::from(*number)),
        Cell::Text(text) => text_value(alloc, text),
        Cell::Bytes => json!(in alloc; {"binary": true}),
    }
}

fn text_value(alloc: Global, text: &str) -> Result<Json, AllocError> {
    Ok(Json::String(String::from_str(alloc, text)?))
}

/// A value as a line.
pub(crate) fn line_of(alloc: Global, value: &Json) -> Result<String, AllocError> {
    value.to_string(alloc)
}

/// A finding on a cell in words: its table, its key, its column, the rule, and what is said of it.
pub(crate) fn cell_words(
    alloc: Global,
    file: Option<&str>,
    rule: Rule,
    found: &Found<'_>,
    said: &Said,
) -> Result<String, AllocError> {
    let key = key_value(alloc, found)?;
    let key = line_of(alloc, &key)?;
    let front = front_of(alloc, file)?;
    let rule = rule_words(alloc, rule)?;
    let (table, column) = (found.table.name(), found.column.name());
    let text = format!(in alloc; "{front}{table} {key} {column}: {rule}: {}", said.says)?;
    escaped(alloc, &text)
}

/// A finding on the whole package in words.
pub(crate) fn whole_words(
    alloc: Global,
    file: Option<&str>,
    rule: Rule,
    said: &Said,
) -> Result<String, AllocError> {
    let front = front_of(alloc, file)?;
    let rule = rule_words(alloc, rule)?;
    let text = format!(in alloc; "{front}{rule}: {}", said.says)?;
    escaped(alloc, &text)
}

/// A finding on a column in words.
pub(crate) fn column_words(
    alloc: Global,
    file: Option<&str>,
    rule: Rule,
    names: (&str, &str),
    said: &Said,
) -> Result<String, AllocError> {
    let front = front_of(alloc, file)?;
    let rule = rule_words(alloc, rule)?;
    let (table, column) = names;
    let text = format!(in alloc; "{front}{table} {column}: {rule}: {}", said.says)?;
    escaped(alloc, &text)
}

fn front_of(alloc: Global, file: Option<&str>) -> Result<String, AllocError> {
    match file {
        Some(file) => format!(in alloc; "{file}: "),
        None => Ok(String::new(alloc)),
    }
}

fn rule_words(alloc: Global, rule: Rule) -> Result<String, AllocError> {
    let name = rule.name();
    match rule.evaluator() {
        Some(evaluator) => format!(in alloc; "{name} ({evaluator})"),
        None => String::from_str(alloc, name),
    }
}
