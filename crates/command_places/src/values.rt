//! Rows of values, and columns with their new values.
ghost use Rattle.command_places.specs.Firsts.{first_unread, is_unread, two_read};
ghost use Rattle.json_parts.specs.Values.{all_in, in_range, marked, pair_in, row_in, value_in};
ghost use Rattle.serde_json.specs.Find.{as_i64, as_str};
ghost use Rattle.serde_json.specs.View.{items_view, number_view, view};
ghost use Rattle.std.specs.List.{list_any};
ghost use Rattle.std.specs.Prelude.{◌≡◌, not, option_and_then, option_map};

use crate::faults::{Fault, Step, Wanted};
use json_parts::has_only;
use serde_json::{Number, Value as Json};

const VALUE: Wanted<'static> = Wanted::This(
    "a whole number of 32 bits, null, a text or {\"binary\":true}",
);

const PAIR: Wanted<'static> = Wanted::This(
    "a list of a column's name and its value (a whole number of 32 bits, null, a text or {\"binary\":true}), as [\"Guest\",\"Ada\"],",
);

/// Where among values the first stands that no row takes, counted from 0.
pub(crate) fn wrong_value(values: &[Json]) -> Option<usize>
    ensures { result ≡ first_unread value_in values.now }
{
    values.iter().position(is_no_value)
}

// Whether it is no value of a row.
fn is_no_value(json: &Json) -> bool
    ensures { result ≡ is_unread (value_in (view json.now)) }
{
    match json {
        Json::Null | Json::String(_) => false,
        Json::Number(number) => is_no_integer(number),
        Json::Object(_) => !has_only(json, &["binary"]) || !is_marked(json.get("binary")),
        _ => true,
    }
}

// Whether it is no whole number of 32 bits.
fn is_no_integer(number: &Number) -> bool
    ensures { result ≡ is_unread (option_and_then in_range (as_i64 (number_view number.now))) }
{
    match number.as_i64() {
        Some(number) => is_large(number),
        None => true,
    }
}

fn is_large(number: i64) -> bool
    ensures { result ≡ is_unread (in_range number) }
{
    i32::try_from(number).is_err()
}

// Whether it is the word true.
fn is_marked(json: Option<&Json>) -> bool
    ensures { is_unread (marked (option_map (λ one. view one.now) json.entry)) ≡ not result }
{
    match json {
        Some(Json::Bool(mark)) => *mark,
        _ => false,
    }
}

/// Where among rows the first stands that isn't one, counted from 0.
pub(crate) fn wrong_row(rows: &[Json]) -> Option<usize>
    ensures { result ≡ first_unread row_in rows.now }
{
    rows.iter().position(is_no_row)
}

// Whether it is no list of values.
fn is_no_row(json: &Json) -> bool
    ensures { result ≡ is_unread (row_in (view json.now)) }
{
    match json.as_array() {
        Some(values) => are_no_values(values.as_slice()),
        None => true,
    }
}

// Whether one of these is no value of a row.
fn are_no_values(list: &[Json]) -> bool
    ensures { result ≡ is_unread (all_in value_in (items_view list.now)) }
{
    has_no_value(list)
}

fn has_no_value(list: &[Json]) -> bool
    ensures { result ≡ list_any (λ item. is_unread (value_in (view item))) list.now }
{
    list.iter().any(is_no_value)
}

/// Where among pairs the first stands that isn't a column's name and a value, counted from 0.
pub(crate) fn wrong_pair(pairs: &[Json]) -> Option<usize>
    ensures { result ≡ first_unread (pair_in as_str value_in) pairs.now }
{
    pairs.iter().position(is_no_pair)
}

// Whether it is no list of a column's name and a value.
fn is_no_pair(json: &Json) -> bool
    ensures { result ≡ is_unread (pair_in as_str value_in (view json.now)) }
{
    match json.as_array() {
        Some(list) => is_no_two(list.as_slice()),
        None => true,
    }
}

/// Where among items the first stands that is no text, counted from 0.
pub(crate) fn wrong_text(items: &[Json]) -> Option<usize>
    ensures { result ≡ first_unread as_str items.now }
{
    items.iter().position(is_no_text)
}

fn is_no_text(json: &Json) -> bool
    ensures { result ≡ is_unread (as_str (view json.now)) }
{
    json.as_str().is_none()
}

// What is wrong with rows.
pub(crate) fn rows_fault(json: &Json) -> Option<Fault<'static>> {
    let Some(rows) = json.as_array() else {
        return Some(Fault::of_key(
            "rows",
            Wanted::This("a list of rows, as [[1,\"Ada\"],[2,null]],"),
        ));
    };
    let at = wrong_row(rows.as_slice())?;
    Some(row_fault(rows.get(at)?, at))
}

// What is wrong with the row at this place.
fn row_fault(json: &Json, at: usize) -> Fault<'static> {
    let row = Step::Item("row", at);
    match json.as_array() {
        Some(values) => match wrong_value(values.as_slice()) {
            Some(place) => Fault::behind("rows", row, Step::Item("value", place), VALUE),
            None => Fault::at("rows", row, VALUE),
        },
        None => Fault::at(
            "rows",
            row,
            Wanted::This("a list of values, one for each column,"),
        ),
    }
}

// Whether these aren't a column's name and a value.
fn is_no_two(list: &[Json]) -> bool
    ensures { result ≡ is_unread (two_read (items_view list.now)) }
{
    match list {
        [name, value] => is_no_text(name) || is_no_value(value),
        _ => true,
    }
}

// What is wrong with columns and their new values.
pub(crate) fn sets_fault(json: &Json) -> Option<Fault<'static>> {
    let Some(pairs) = json.as_array() else {
        return Some(Fault::of_key(
            "set",
            Wanted::This("a list of pairs, as [[\"Guest\",\"Ada\"],[\"Number\",7]],"),
        ));
    };
    let at = wrong_pair(pairs.as_slice())?;
    Some(Fault::at("set", Step::Item("pair", at), PAIR))
}
