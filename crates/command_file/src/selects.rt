//! Selects: tables, joins, columns and conditions.
ghost use Rattle.std.specs.Prelude.{◌≡◌, None, Some, codes, if◌then◌else◌, map, option_and_then, option_map};
ghost use Rattle.serde_json.specs.Find.{as_object};
ghost use Rattle.serde_json.specs.View.{view};
ghost use Rattle.msi_expr.specs.Formula.{Formula, formula_of};
ghost use Rattle.msi_query.specs.Query.{Query, inner_join, left_join};
ghost use Rattle.msi_query.specs.Said.{query_of};
ghost use Rattle.command_file.specs.Expressions.{columns_in, joined, select_in, side_of, source_in};
ghost use Rattle.command_file.specs.Nested.{all_of, join_in, select_at};
ghost use Rattle.json_parts.specs.Reads.{ReturnsOrInvalidInput};
ghost use Rattle.json_parts.specs.Values.{at_key, text_at};

use crate::expressions::{condition_of, expression_at};
use cfb_medium::Error;
use json_parts::{are_among, borrowed_texts, find_text, has_only, member};
use msi_expr::Expr;
use msi_query::Select;
use serde_json::Value as Json;
use std::alloc::Global;

// A select, whatever other keys stand there.
pub(crate) fn select_of(alloc: Global, json: &Json) -> Result<Select, Error>
    ensures { ReturnsOrInvalidInput query_of result
        (option_and_then select_in (as_object (view json.now))) }
{
    select_at(alloc, json)
}

#[cycle(selects)]
fn select_at(alloc: Global, json: &Json) -> Result<Select, Error>
    ensures { ReturnsOrInvalidInput query_of result (select_at (view json.now)) }
{
    let names = names_of(alloc, json)?;
    let select = source_at(alloc, json)?.columns(alloc, &names)?;
    match condition_of(alloc, json) {
        Ok(Some(condition)) => select.with(alloc, condition),
        Ok(None) => Ok(select),
        Err(error) => Err(error),
    }
}

// The columns that are asked for; none where all are.
fn names_of<'a>(alloc: Global, json: &'a Json) -> Result<Vec<&'a str>, Error>
    ensures { ReturnsOrInvalidInput (λ names. map (λ name. name.now) names.items) result
        (columns_in (view json.now)) }
{
    match json.get("columns") {
        Some(found) => borrowed_texts(alloc, found),
        None => Ok(Vec::new(alloc)),
    }
}

// All of the source.
#[cycle(selects)]
fn source_at(alloc: Global, json: &Json) -> Result<Select, Error>
    ensures { ReturnsOrInvalidInput query_of result
        (option_map all_of (at_key (codes "from") source_in (view json.now))) }
{
    let found = member(json, "from")?;
    source_of(alloc, found)
}

#[cycle(selects)]
fn source_of(alloc: Global, json: &Json) -> Result<Select, Error>
    ensures { ReturnsOrInvalidInput query_of result
        (option_map all_of (source_in (view json.now))) }
{
    match json {
        Json::String(name) => Select::table(alloc, name.as_str()),
        Json::Object(members) => {
            if are_among(members, &["join", "left", "right", "on"]) {
                return join_of(alloc, json);
            }
            Err(Error::InvalidInput)
        }
        _ => Err(Error::InvalidInput),
    }
}

// All of two selects joined.
#[cycle(selects)]
fn join_of(alloc: Global, json: &Json) -> Result<Select, Error>
    ensures { ReturnsOrInvalidInput query_of result (option_map all_of (join_in (view json.now))) }
{
    let Some(is_left) = is_left_join(json) else {
        return Err(Error::InvalidInput);
    };
    let on = expression_at(alloc, json, "on")?;
    let left = side_at(alloc, json, "left")?;
    match side_at(alloc, json, "right") {
        Ok(right) => joined_select(alloc, is_left, left, right, on),
        Err(error) => Err(error),
    }
}

// Whether the join keeps each row of its left side.
fn is_left_join(json: &Json) -> Option<bool>
    ensures { (l r : Query) (on : Formula) → joined (text_at (codes "join") (view json.now)) l r on
        ≡ option_map (λ is_left. if is_left then left_join l r on else inner_join l r on) result }
{
    match find_text(json, "join") {
        Some(kind) => is_left(kind),
        None => None,
    }
}

fn is_left(kind: &str) -> Option<bool>
    ensures { (l r : Query) (on : Formula) → joined (Some kind.now) l r on
        ≡ option_map (λ is_left. if is_left then left_join l r on else inner_join l r on) result }
{
    match kind {
        "inner" => Some(false),
        "left" => Some(true),
        _ => None,
    }
}

// A side of a join.
#[cycle(selects)]
fn side_at(alloc: Global, json: &Json, key: &str) -> Result<Select, Error>
    ensures { ReturnsOrInvalidInput query_of result (at_key key.now side_of (view json.now)) }
{
    let found = member(json, key)?;
    side_of(alloc, found)
}

#[cycle(selects)]
fn side_of(alloc: Global, json: &Json) -> Result<Select, Error>
    ensures { ReturnsOrInvalidInput query_of result (side_of (view json.now)) }
{
    if has_only(json, &["from", "columns", "where"]) {
        select_at(alloc, json)
    } else {
        Err(Error::InvalidInput)
    }
}

// Two selects joined.
fn joined_select(
    alloc: Global,
    is_left: bool,
    left: Select,
    right: Select,
    on: Expr,
) -> Result<Select, Error>
    ensures { ReturnsOrInvalidInput query_of result (Some (all_of (if is_left
        then left_join (query_of left) (query_of right) (formula_of on)
        else inner_join (query_of left) (query_of right) (formula_of on)))) }
{
    if is_left {
        left.left_join(alloc, right, on)
    } else {
        left.inner_join(alloc, right, on)
    }
}
