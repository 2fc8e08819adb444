//! The inside of an expression: a tree of literals, columns and operators.
ghost use Rattle.std.specs.Prelude.{◌≡◌, Some, IsTrue, Ok, OnOk, map, bytes_eq, option_map};
ghost use Rattle.std.specs.Fmt.{DisplaysOnOk};
ghost use Rattle.std.specs.Option.{option_copied};
ghost use Rattle.std.specs.List.{list_any};
ghost use Rattle.msi_texts.specs.Results.{ReturnsOrOutOfMemory};
ghost use Rattle.msi_values.specs.Datum.{datum_of};
ghost use Rattle.msi_expr.specs.Formula.{ast_formula, bracket, column_name, equated_in, value_of_formula, has_columns, names_after, noted, shown};
ghost use Rattle.msi_expr.specs.Worths.{worth_said};

use crate::operators::{BinOp, UnOp};
use crate::record::{Record, Worth};
use cfb_medium::Error;
use msi_values::Value;
use std::alloc::{AllocError, Global};
use std::fmt;

/// The parts of an expression.
#[derive(Drop)]
pub enum Ast {
    Literal(Value),
    Column(String),
    UnOp(UnOp, Box<Ast>),
    BinOp(BinOp, Box<Ast>, Box<Ast>),
    And(Box<Ast>, Box<Ast>),
    Or(Box<Ast>, Box<Ast>),
}

impl Ast {
    // What the expression is worth on a row.
    pub(crate) fn eval<'a, R: Record>(
        &'a self,
        alloc: Global,
        row: &'a R,
    ) -> Result<Worth<'a>, Error>
        requires { IsTrue (has_columns (R.cells row.now) (ast_formula self.now)) }
        ensures { ReturnsOrOutOfMemory worth_said result
            (Ok (value_of_formula (R.cells row.now) (ast_formula self.now))) }
    {
        match self {
            Ast::Literal(value) => Ok(Worth::Borrowed(value.as_borrowed())),
            Ast::Column(name) => Ok(Worth::Borrowed(row.value(name.as_str()).unwrap())),
            Ast::UnOp(op, arg) => {
                let value = arg.eval(alloc, row)?;
                Ok(Worth::Made(op.apply(value.as_borrowed())))
            }
            Ast::BinOp(op, arg1, arg2) => {
                let value1 = arg1.eval(alloc, row)?;
                let value2 = arg2.eval(alloc, row)?;
                Ok(Worth::Made(op.apply(alloc, value1.as_borrowed(), value2.as_borrowed())?))
            }
            Ast::And(arg1, arg2) => {
                let holds = arg1.eval(alloc, row)?.to_bool() && arg2.eval(alloc, row)?.to_bool();
                Ok(Worth::Made(Value::from_bool(holds)))
            }
            Ast::Or(arg1, arg2) => {
                let holds = arg1.eval(alloc, row)?.to_bool() || arg2.eval(alloc, row)?.to_bool();
                Ok(Worth::Made(Value::from_bool(holds)))
            }
        }
    }

    // Writes the expression where a strength is asked for.
    pub(crate) fn fmt_at<W: fmt::Write>(&self, f: &mut fmt::Formatter<W>, asked: u32) -> fmt::Result
        ensures { DisplaysOnOk W.write_str_gives f.old result (shown asked (ast_formula self.now))
            f.new }
    {
        match self {
            Ast::Literal(value) => fmt::Display::fmt(value, f),
            Ast::Column(name) => f.write_str(name.as_str()),
            Ast::UnOp(op, arg) => {
                f.write_str(op.prefix())?;
                arg.fmt_at(f, 10)
            }
            Ast::BinOp(op, arg1, arg2) => {
                let own = op.strength();
                bracket(f, asked, own, "(")?;
                arg1.fmt_at(f, own)?;
                f.write_str(op.sign())?;
                arg2.fmt_at(f, own + 1)?;
                bracket(f, asked, own, ")")
            }
            Ast::And(arg1, arg2) => {
                bracket(f, asked, 2, "(")?;
                arg1.fmt_at(f, 2)?;
                f.write_str(" AND ")?;
                arg2.fmt_at(f, 3)?;
                bracket(f, asked, 2, ")")
            }
            Ast::Or(arg1, arg2) => {
                bracket(f, asked, 1, "(")?;
                arg1.fmt_at(f, 1)?;
                f.write_str(" OR ")?;
                arg2.fmt_at(f, 2)?;
                bracket(f, asked, 1, ")")
            }
        }
    }

    // The name of the column that it is.
    fn column_name(&self) -> Option<&str>
        ensures { option_copied result ≡ column_name (ast_formula self.now) }
    {
        match self {
            Ast::Column(name) => Some(name.as_str()),
            Ast::Literal(_) | Ast::UnOp(..) | Ast::BinOp(..) | Ast::And(..) | Ast::Or(..) => None,
        }
    }

    // The names of two columns, where it asks whether they are equal, and nothing else.
    pub(crate) fn equated_columns(&self) -> Option<(&str, &str)>
        ensures { option_map (λ names. (names.0.now, names.1.now)) result
            ≡ equated_in (ast_formula self.now) }
    {
        match self {
            Ast::BinOp(op, arg1, arg2) => {
                if !op.is_equality() {
                    return None;
                }
                Some((arg1.column_name()?, arg2.column_name()?))
            }
            Ast::Literal(_) | Ast::Column(_) | Ast::UnOp(..) | Ast::And(..) | Ast::Or(..) => None,
        }
    }

    // Adds the names of its columns that aren't among these yet.
    pub(crate) fn add_names<'a>(&'a self, names: &mut Vec<&'a str>) -> Result<(), AllocError>
        ensures { OnOk result (map (λ n. n.now) names.new.items
            ≡ names_after (map (λ n. n.now) names.old.items) (ast_formula self.now)) }
    {
        match self {
            Ast::Literal(_) => Ok(()),
            Ast::Column(name) => note(names, name.as_str()),
            Ast::UnOp(_, arg) => arg.add_names(names),
            Ast::BinOp(_, arg1, arg2) | Ast::And(arg1, arg2) | Ast::Or(arg1, arg2) => {
                arg1.add_names(names)?;
                arg2.add_names(names)
            }
        }
    }
}

// Writes a bracket where an operator of its own strength stands where a greater one is asked for.
fn bracket<W: fmt::Write>(
    f: &mut fmt::Formatter<W>,
    asked: u32,
    own: u32,
    sign: &str,
) -> fmt::Result
    ensures { DisplaysOnOk W.write_str_gives f.old result (Some (bracket asked own sign.now))
        f.new }
{
    f.write_str(if own < asked { sign } else { "" })
}

// Adds a name that isn't among these.
#[tactic(auto, using(crate::proofs::Names::list_any_map))]
fn note<'a>(names: &mut Vec<&'a str>, name: &'a str) -> Result<(), AllocError>
    ensures { OnOk result (map (λ n. n.now) names.new.items
        ≡ noted (map (λ n. n.now) names.old.items) name.now) }
{
    if is_known(names, name) {
        return Ok(());
    }
    names.push(name)?;
    Ok(())
}

// Whether a name is among these.
fn is_known(names: &[&str], name: &str) -> bool
    ensures { result ≡ list_any (λ n. bytes_eq name.now n.now) names.now }
{
    names.iter().any(|known| name == *known)
}
