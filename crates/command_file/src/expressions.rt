//! Expressions, and conditions.
ghost use Rattle.std.specs.Prelude.{◌≡◌, [], ◌∷◌, codes, map, option_map};
ghost use Rattle.serde_json.specs.View.{items_view, view};
ghost use Rattle.msi_expr.specs.Conditions.{condition_of};
ghost use Rattle.msi_expr.specs.Formula.{column, formula_of};
ghost use Rattle.command_file.specs.Expressions.{applied, condition_in, formula_in};
ghost use Rattle.command_file.specs.Nested.{operation_in};
ghost use Rattle.json_parts.specs.Reads.{ReturnsOrInvalidInput};
ghost use Rattle.json_parts.specs.Values.{all_in, at_key, list_in, text_at};

use cfb_medium::Error;
use json_parts::{are_among, integer_of, list_of, member, text_at};
use msi_expr::Expr;
use serde_json::Value as Json;
use std::alloc::Global;

// An expression.
#[cycle(expressions)]
fn expression_of(alloc: Global, json: &Json) -> Result<Expr, Error>
    ensures { ReturnsOrInvalidInput formula_of result (formula_in (view json.now)) }
{
    match json {
        Json::Null => Ok(Expr::null()),
        Json::Bool(boolean) => Ok(Expr::boolean(*boolean)),
        Json::Number(_) => Ok(Expr::integer(integer_of(json)?)),
        Json::String(text) => Expr::string(alloc, text.as_str()),
        Json::Array(_) => Err(Error::InvalidInput),
        Json::Object(members) => {
            if are_among(members, &["col"]) {
                return column_of(alloc, json);
            }
            if are_among(members, &["op", "args"]) {
                return operation_of(alloc, json);
            }
            Err(Error::InvalidInput)
        }
    }
}

// The value of a column.
fn column_of(alloc: Global, json: &Json) -> Result<Expr, Error>
    ensures { ReturnsOrInvalidInput formula_of result
        (option_map column (text_at (codes "col") (view json.now))) }
{
    let name = text_at(json, "col")?;
    Expr::col(alloc, name)
}

// An operator on its operands.
#[cycle(expressions)]
fn operation_of(alloc: Global, json: &Json) -> Result<Expr, Error>
    ensures { ReturnsOrInvalidInput formula_of result (operation_in (view json.now)) }
{
    let op = text_at(json, "op")?;
    let args = operands_of(alloc, json)?;
    operator_on(alloc, op, args)
}

// The operands.
#[cycle(expressions)]
fn operands_of(alloc: Global, json: &Json) -> Result<Vec<Expr>, Error>
    ensures { ReturnsOrInvalidInput (λ args. map formula_of args.items) result
        (at_key (codes "args") (list_in formula_in) (view json.now)) }
{
    let list = list_of(member(json, "args")?)?;
    expressions_of(alloc, list)
}

// Each expression of a list.
#[cycle(expressions)]
fn expressions_of(alloc: Global, list: &[Json]) -> Result<Vec<Expr>, Error>
    ensures { ReturnsOrInvalidInput (λ args. map formula_of args.items) result
        (all_in formula_in (items_view list.now)) }
{
    let mut args = Vec::new(alloc);
    for item in list {
        args.push(expression_of(alloc, item)?)?;
    }
    Ok(args)
}

// An operator on as many expressions as it takes.
fn operator_on(alloc: Global, op: &str, args: Vec<Expr>) -> Result<Expr, Error>
    ensures { ReturnsOrInvalidInput formula_of result (applied op.now (map formula_of args.items)) }
{
    let mut args = args.into_iter();
    let Some(first) = args.next() else {
        return Err(Error::InvalidInput);
    };
    let Some(second) = args.next() else {
        return sign_applied(alloc, op, first);
    };
    match args.next() {
        Some(_) => Err(Error::InvalidInput),
        None => infix_applied(alloc, op, first, second),
    }
}

// An operator before an expression.
fn sign_applied(alloc: Global, op: &str, arg: Expr) -> Result<Expr, Error>
    ensures { ReturnsOrInvalidInput formula_of result (applied op.now (formula_of arg ∷ [])) }
{
    match op {
        "not" => arg.not(alloc),
        "neg" => arg.neg(alloc),
        "bitinv" => arg.bitinv(alloc),
        _ => Err(Error::InvalidInput),
    }
}

// An operator between two expressions.
fn infix_applied(alloc: Global, op: &str, left: Expr, right: Expr) -> Result<Expr, Error>
    ensures { ReturnsOrInvalidInput formula_of result
        (applied op.now (formula_of left ∷ formula_of right ∷ [])) }
{
    match op {
        "eq" => left.eq(alloc, right),
        "ne" => left.ne(alloc, right),
        "lt" => left.lt(alloc, right),
        "le" => left.le(alloc, right),
        "gt" => left.gt(alloc, right),
        "ge" => left.ge(alloc, right),
        "and" => left.and(alloc, right),
        "or" => left.or(alloc, right),
        "add" => left.add(alloc, right),
        "sub" => left.sub(alloc, right),
        "mul" => left.mul(alloc, right),
        "div" => left.div(alloc, right),
        "bitand" => left.bitand(alloc, right),
        "bitor" => left.bitor(alloc, right),
        "bitxor" => left.bitxor(alloc, right),
        "shl" => left.shl(alloc, right),
        "shr" => left.shr(alloc, right),
        _ => Err(Error::InvalidInput),
    }
}

// The expression of a key.
pub(crate) fn expression_at(alloc: Global, json: &Json, key: &str) -> Result<Expr, Error>
    ensures { ReturnsOrInvalidInput formula_of result (at_key key.now formula_in (view json.now)) }
{
    let found = member(json, key)?;
    expression_of(alloc, found)
}

// A condition, where there is one.
pub(crate) fn condition_of(alloc: Global, json: &Json) -> Result<Option<Expr>, Error>
    ensures { ReturnsOrInvalidInput condition_of result (condition_in (view json.now)) }
{
    match json.get("where") {
        Some(found) => Ok(Some(expression_of(alloc, found)?)),
        None => Ok(None),
    }
}
