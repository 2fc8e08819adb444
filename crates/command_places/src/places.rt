//! The place of a command that is wrong.
use crate::columns::columns_fault;
use crate::conditions::expression_fault;
use crate::faults::{Fault, Step, Wanted};
use crate::fields::{PAGE, field_fault, value_fault};
use crate::names::Names;
use crate::sources::source_fault;
use crate::values::{rows_fault, sets_fault, wrong_text};
use serde_json::Value as Json;

/// What is wrong with the value of this key of a command, where a command file is refused for it. None where that isn't known.
pub fn fault_at<'a>(command: &'a Json, key: &str) -> Option<Fault<'a>> {
    let value = command.get(key)?;
    match key {
        "op" => op_fault(value),
        "table" => Some(Fault::of_key("table", Wanted::This("a text, the name of a table,"))),
        "name" => Some(Fault::of_key("name", Wanted::This("a text, the name of a stream,"))),
        "rows" => rows_fault(value),
        "set" => sets_fault(value),
        "where" => Some(Fault::of_key("where", expression_fault(value)?)),
        "hex" => Some(hex_fault(value)),
        "id" => Some(Fault::of_key("id", Wanted::This(PAGE))),
        "field" => field_fault(value),
        "value" => value_fault(command),
        "from" => source_fault(value),
        "columns" if command.get("from").is_some() => texts_fault(value),
        "columns" => columns_fault(value),
        _ => None,
    }
}

// What is wrong with the name of a command.
fn op_fault<'a>(json: &'a Json) -> Option<Fault<'a>> {
    let wanted = match json.as_str() {
        None => Wanted::This("a text, the name of a command,"),
        Some(name) if Names::Ops.has(name) => return None,
        Some(name) => Wanted::Name(Names::Ops, name),
    };
    Some(Fault::of_key("op", wanted))
}

// What is wrong with the names of columns of a select.
fn texts_fault(json: &Json) -> Option<Fault<'static>> {
    let Some(names) = json.as_array() else {
        return Some(Fault::of_key(
            "columns",
            Wanted::This("a list of names, as [\"Guest\",\"Number\"],"),
        ));
    };
    let at = wrong_text(names.as_slice())?;
    Some(Fault::at("columns", Step::Item("name", at), Wanted::This("a text")))
}

// What is wrong with digits.
fn hex_fault(json: &Json) -> Fault<'static> {
    let Some(text) = json.as_str() else {
        return Fault::of_key(
            "hex",
            Wanted::This("a text of hexadecimal digits, as \"00ff\","),
        );
    };
    match wrong_digit(text) {
        Some(at) => Fault::at(
            "hex",
            Step::Item("character", at),
            Wanted::This("a hexadecimal digit"),
        ),
        None => Fault::of_key("hex", Wanted::Digits(text.len())),
    }
}

// Where the first byte stands that is no digit, counted from 0.
fn wrong_digit(text: &str) -> Option<usize> {
    text.as_bytes()
        .iter()
        .position(|byte| !byte.is_ascii_hexdigit())
}
