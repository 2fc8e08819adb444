//! Expressions as they are seen from outside.
ghost use Rattle.std.specs.Prelude.{◌≡◌, Ok, IsTrue, [], map, option_map};
ghost use Rattle.msi_texts.specs.Results.{ReturnsOrOutOfMemory};
ghost use Rattle.msi_values.specs.Datum.{datum_of};
ghost use Rattle.msi_expr.specs.Formula.{equated_in, formula_of, literal_of, value_of_formula, has_columns, names_after};
ghost use Rattle.msi_tables.specs.Row.{cells_of};

use crate::ast::Ast;
use cfb_medium::Error;
use msi_tables::Row;
use msi_values::Value;
use std::alloc::Global;
use std::fmt;

/// An expression over the columns of a row.
#[derive(Drop)]
pub struct Expr {
    pub(crate) ast: Ast,
}

impl Expr {
    /// What the expression is worth on a row that has each column it names. `Memory` where there is no memory for the value.
    pub fn eval(&self, alloc: Global, row: &Row) -> Result<Value, Error>
        requires { IsTrue (has_columns (cells_of row.now) (formula_of self.now)) }
        ensures { ReturnsOrOutOfMemory datum_of result
            (Ok (value_of_formula (cells_of row.now) (formula_of self.now))) }
    {
        self.ast.eval(alloc, row)?.into_value(alloc)
    }

    /// The names of its columns, each once, in the order in which they first stand. `Memory` where there is no memory for the list.
    pub fn column_names<'a>(&'a self, alloc: Global) -> Result<Vec<&'a str>, Error>
        ensures { ReturnsOrOutOfMemory (λ names. map (λ n. n.now) names.items) result
            (Ok (names_after [] (formula_of self.now))) }
    {
        let mut names = Vec::new(alloc);
        self.ast.add_names(&mut names)?;
        Ok(names)
    }

    /// The value that it is, where it is nothing else.
    pub fn literal(&self) -> Option<&Value>
        ensures { option_map (λ value. datum_of value.now) result
            ≡ literal_of (formula_of self.now) }
    {
        match &self.ast {
            Ast::Literal(value) => Some(value),
            _ => None,
        }
    }

    /// The names of two columns, where it asks whether they are equal, and nothing else.
    pub fn equated_columns(&self) -> Option<(&str, &str)>
        ensures { option_map (λ names. (names.0.now, names.1.now)) result
            ≡ equated_in (formula_of self.now) }
    {
        self.ast.equated_columns()
    }
}

/// The text of the expression: operators with a space on each side, parentheses where one binds less than its place asks.
impl fmt::Display for Expr {
    ghost use Rattle.msi_expr.specs.Formula.{formula_of, shown};

    ghost output = { λ x. shown 0 (formula_of x) };

    fn fmt<W: fmt::Write>(&self, f: &mut fmt::Formatter<W>) -> fmt::Result {
        self.ast.fmt_at(f, 0)
    }
}
