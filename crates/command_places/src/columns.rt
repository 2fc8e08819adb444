//! Columns of a new table.
use crate::faults::{Fault, Step, Wanted};
use crate::names::Names;
use crate::values::wrong_text;
use json_parts::{integer_of, two_of, whole_of};
use serde_json::Value as Json;

// What is wrong within a column, and on which step.
type Found<'a> = Option<(Step, Wanted<'a>)>;

// What is wrong with columns.
pub(crate) fn columns_fault<'a>(json: &'a Json) -> Option<Fault<'a>> {
    let Some(columns) = json.as_array() else {
        return Some(Fault::of_key(
            "columns",
            Wanted::This(
                "a list of columns, as [{\"name\":\"Number\",\"type\":\"int16\",\"key\":true}],",
            ),
        ));
    };
    for (at, column) in columns.iter().enumerate() {
        if let Some((step, wanted)) = column_fault(column) {
            return Some(Fault::behind("columns", Step::Item("column", at), step, wanted));
        }
    }
    None
}

// What is wrong with a column.
fn column_fault<'a>(json: &'a Json) -> Found<'a> {
    if json.as_object().is_none() {
        return Some((
            Step::Here,
            Wanted::This("an object with \"name\" and \"type\""),
        ));
    }
    if let Some(found) = unknown_key(json) {
        return Some(found);
    }
    if let Some(found) = name_fault(json) {
        return Some(found);
    }
    if let Some(found) = type_fault(json) {
        return Some(found);
    }
    if let Some(found) = flags_fault(json) {
        return Some(found);
    }
    facts_fault(json)
}

// A key that no column has.
fn unknown_key<'a>(json: &'a Json) -> Found<'a> {
    for (key, _) in json.as_object()? {
        let key = key.as_str();
        if !Names::ColumnKeys.has(key) {
            return Some((Step::Here, Wanted::Name(Names::ColumnKeys, key)));
        }
    }
    None
}

fn name_fault(json: &Json) -> Found<'static> {
    match json.get("name") {
        None => Some((Step::Here, Wanted::Told("it has no \"name\""))),
        Some(name) if name.as_str().is_none() => Some((Step::Key("name"), TEXT)),
        Some(_) => None,
    }
}

const TEXT: Wanted<'static> = Wanted::This("a text");

// What is wrong with the type, or with the length that goes with it.
fn type_fault<'a>(json: &'a Json) -> Found<'a> {
    let Some(kind) = json.get("type") else {
        return Some((Step::Here, Wanted::Told("it has no \"type\"")));
    };
    let Some(kind) = kind.as_str() else {
        return Some((Step::Key("type"), TEXT));
    };
    match (kind, json.get("len")) {
        ("string", None) => Some((
            Step::Here,
            Wanted::Told("a \"string\" wants a \"len\", the number of characters; 0 is for any"),
        )),
        ("string", Some(len)) if whole_of(len).is_err() => Some((
            Step::Key("len"),
            Wanted::This("a whole number (0 is for any length)"),
        )),
        ("string", Some(_)) => None,
        ("int16" | "int32" | "binary", None) => None,
        ("int16" | "int32" | "binary", Some(_)) => Some((
            Step::Key("len"),
            Wanted::Told("only a \"string\" has a length"),
        )),
        _ => Some((Step::Key("type"), Wanted::Name(Names::Types, kind))),
    }
}

const FLAGS: &[&str] = &["key", "nullable", "localizable"];

// What is wrong with the keys that are true or left out.
fn flags_fault(json: &Json) -> Found<'static> {
    for &key in FLAGS {
        match json.get(key) {
            None | Some(Json::Bool(true)) => {}
            Some(_) => return Some((
                Step::Key(key),
                Wanted::Told("true is wanted; leave it out for false"),
            )),
        }
    }
    None
}

// What is wrong with the keys that say which values a column takes.
fn facts_fault<'a>(json: &'a Json) -> Found<'a> {
    match json.get("range") {
        Some(range) if !is_range(range) => {
            return Some((
                Step::Key("range"),
                Wanted::This("a list of the least and the greatest number, as [1,9],"),
            ));
        }
        _ => {}
    }
    match json.get("foreign") {
        Some(foreign) if !is_reference(foreign) => {
            return Some((
                Step::Key("foreign"),
                Wanted::This(
                    "a list of a table's name and the number of its column, as [\"File\",1],",
                ),
            ));
        }
        _ => {}
    }
    match json.get("enum") {
        Some(texts) if !are_texts(texts) => Some((
            Step::Key("enum"),
            Wanted::This("a list of texts"),
        )),
        _ => category_fault(json),
    }
}

// Whether it is a list of two numbers.
fn is_range(json: &Json) -> bool {
    match two_of(json) {
        Ok((least, greatest)) => integer_of(least).is_ok() && integer_of(greatest).is_ok(),
        Err(_) => false,
    }
}

// Whether it is a list of a text and a number.
fn is_reference(json: &Json) -> bool {
    match two_of(json) {
        Ok((table, column)) => table.as_str().is_some() && integer_of(column).is_ok(),
        Err(_) => false,
    }
}

// Whether it is a list of texts.
fn are_texts(json: &Json) -> bool {
    match json.as_array() {
        Some(texts) => wrong_text(texts.as_slice()).is_none(),
        None => false,
    }
}

fn category_fault<'a>(json: &'a Json) -> Found<'a> {
    let category = json.get("category")?;
    let Some(name) = category.as_str() else {
        return Some((Step::Key("category"), TEXT));
    };
    if Names::Categories.has(name) {
        return None;
    }
    Some((Step::Key("category"), Wanted::Name(Names::Categories, name)))
}
