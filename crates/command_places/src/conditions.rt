//! Expressions of conditions.
use crate::faults::Wanted;
use crate::names::Names;
use cfb_medium::Error;
use json_parts::{are_among, find_text, integer_of, list_of, member};
use serde_json::Value as Json;

const EXPRESSION: Wanted<'static> = Wanted::This(
    "null, true, false, a whole number of 32 bits, a text, {\"col\":\"Name\"} or {\"op\":\"eq\",\"args\":[..]}",
);

// What is wrong with an expression: the first of its parts that is wrong by itself.
#[cycle(expressions)]
pub(crate) fn expression_fault<'a>(json: &'a Json) -> Option<Wanted<'a>> {
    match json {
        Json::Null | Json::Bool(_) | Json::String(_) => None,
        Json::Number(_) => {
            if integer_of(json).is_ok() {
                None
            } else {
                Some(EXPRESSION)
            }
        }
        Json::Array(_) => Some(EXPRESSION),
        Json::Object(members) => {
            if are_among(members, &["col"]) {
                return column_fault(json);
            }
            if are_among(members, &["op", "args"]) {
                return operation_fault(json);
            }
            Some(EXPRESSION)
        }
    }
}

// What is wrong with a column's name.
fn column_fault(json: &Json) -> Option<Wanted<'static>> {
    match json.get("col") {
        Some(Json::String(_)) => None,
        _ => Some(EXPRESSION),
    }
}

// What is wrong with an operator on its operands.
#[cycle(expressions)]
fn operation_fault<'a>(json: &'a Json) -> Option<Wanted<'a>> {
    let Some(op) = find_text(json, "op") else {
        return Some(EXPRESSION);
    };
    let Some(there) = count_of_operands(json) else {
        return Some(EXPRESSION);
    };
    match operator_fault(op, there) {
        Some(wanted) => Some(wanted),
        None => match operands_of(json) {
            Ok(found) => found,
            Err(_) => Some(EXPRESSION),
        },
    }
}

// How many operands stand there.
fn count_of_operands(json: &Json) -> Option<usize> {
    Some(json.get("args")?.as_array()?.len())
}

// What is wrong with the operands.
#[cycle(expressions)]
fn operands_of<'a>(json: &'a Json) -> Result<Option<Wanted<'a>>, Error> {
    let list = list_of(member(json, "args")?)?;
    Ok(operands_fault(list))
}

// What is wrong with the first of these operands that is wrong.
#[cycle(expressions)]
fn operands_fault<'a>(list: &'a [Json]) -> Option<Wanted<'a>> {
    for item in list {
        if let Some(wanted) = expression_fault(item) {
            return Some(wanted);
        }
    }
    None
}

// What is wrong with an operator on so many operands.
fn operator_fault(op: &str, there: usize) -> Option<Wanted<'_>> {
    if !Names::Operators.has(op) {
        return Some(Wanted::Name(Names::Operators, op));
    }
    let count = if matches!(op, "not" | "neg" | "bitinv") {
        1
    } else {
        2
    };
    if there == count {
        None
    } else {
        Some(Wanted::Operands(op, count, there))
    }
}
