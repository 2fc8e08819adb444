//! Fields of the summary and their values.
use crate::faults::{Fault, Wanted};
use crate::names::Names;
use serde_json::Value as Json;

// What is wrong with the name of a field.
pub(crate) fn field_fault<'a>(json: &'a Json) -> Option<Fault<'a>> {
    let wanted = match json.as_str() {
        None => Wanted::This("a text"),
        Some(name) if Names::Fields.has(name) => return None,
        Some(name) => Wanted::Name(Names::Fields, name),
    };
    Some(Fault::of_key("field", wanted))
}

// What is wanted as the value of a field, where another stands there.
pub(crate) fn value_fault(command: &Json) -> Option<Fault<'static>> {
    let wanted = wanted_of(command.get("field")?.as_str()?)?;
    Some(Fault::of_key("value", Wanted::This(wanted)))
}

fn wanted_of(field: &str) -> Option<&'static str> {
    Some(match field {
        "title" | "subject" | "author" | "comments" | "arch" => "a text, or null,",
        "last_saved_by" | "creating_application" => "a text, or null,",
        "keywords" => "a list of texts, or null,",
        "languages" => "a list of numbers of languages, as [1033,1031], or null,",
        "uuid" =>
            "a text that is an identifier, as \"{DDCF7CCD-8AF1-4F16-9181-134A919F1CD6}\", or null,",
        "last_printed" | "creation_time" | "last_saved_time" =>
            "a number of tenths of a microsecond since 1601, or null,",
        "page_count" | "word_count" | "character_count" | "doc_security" =>
            "a whole number of 32 bits, or null,",
        "codepage" => PAGE,
        _ => return None,
    })
}

/// What is wanted as a code page.
pub(crate) const PAGE: &str = "the number of a code page, as 65001 (UTF-8) or 1252,";
