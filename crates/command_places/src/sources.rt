//! What a select reads from.
use crate::conditions::expression_fault;
use crate::faults::{Fault, Step, Wanted};
use json_parts::{are_among, has_only};
use serde_json::Value as Json;

const SOURCE: Wanted<'static> = Wanted::This(
    "a table's name, or two selects joined ({\"join\":\"inner\",\"left\":{\"from\":..},\"right\":{\"from\":..},\"on\":..})",
);

// What is wrong with what a select reads from; none where it is wrong deeper within a join.
pub(crate) fn source_fault<'a>(json: &'a Json) -> Option<Fault<'a>> {
    match json {
        Json::String(_) => None,
        Json::Object(members) if are_among(members, &["join", "left", "right", "on"]) => {
            join_fault(json)
        }
        _ => Some(Fault::of_key("from", SOURCE)),
    }
}

// What is wrong with a join.
fn join_fault<'a>(json: &'a Json) -> Option<Fault<'a>> {
    if !is_kind_of_join(json) {
        return Some(Fault::at(
            "from",
            Step::Key("join"),
            Wanted::This("\"inner\" or \"left\""),
        ));
    }
    if !is_side(json, "left") {
        return Some(Fault::at("from", Step::Key("left"), SIDE));
    }
    if !is_side(json, "right") {
        return Some(Fault::at("from", Step::Key("right"), SIDE));
    }
    match json.get("on") {
        None => Some(Fault::at("from", Step::Key("on"), Wanted::This("a condition"))),
        Some(on) => {
            let wanted = expression_fault(on)?;
            Some(Fault::at("from", Step::Key("on"), wanted))
        }
    }
}

const SIDE: Wanted<'static> = Wanted::This(
    "an object with \"from\", and \"columns\" and \"where\" if wanted,",
);

fn is_kind_of_join(json: &Json) -> bool {
    match json.get("join") {
        Some(Json::String(kind)) => matches!(kind.as_str(), "inner" | "left"),
        _ => false,
    }
}

// Whether a side of a join is an object with what it reads from.
fn is_side(json: &Json, key: &str) -> bool {
    match json.get(key) {
        Some(side) => has_only(side, &["from", "columns", "where"]) && side.get("from").is_some(),
        None => false,
    }
}
