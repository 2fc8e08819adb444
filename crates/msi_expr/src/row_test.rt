//! Conditions made ready for the rows of one table.
ghost use Rattle.cfb_medium.specs.declared.error.Error.TheVariants.{Memory};
ghost use Rattle.msi_expr.specs.Conditions.{condition_of, has_named_columns, knows_condition, matches};
ghost use Rattle.msi_expr.specs.Formula.{ast_formula, two};
ghost use Rattle.msi_expr.specs.RowTests.{IsPartOf, IsReady, IsTestOf, KnowsPart, columns_in, condition_in, part_holds};
ghost use Rattle.msi_tables.specs.Held.{heading_of};
ghost use Rattle.std.specs.Prelude.{◌≡◌, IfErr, IfOk, IfSome, IsTrue};

use crate::ast::Ast;
use crate::expr::Expr;
use crate::operators::BinOp;
use crate::record::{StoredRow, value_at};
use cfb_medium::Error;
use msi_pool::{StringPool, ValueRef};
use msi_tables::Table;
use msi_values::BorrowedValue;
use std::alloc::{AllocError, Global};

/// A condition on the rows of one table. Its columns are found once, and a comparison of a column with a literal makes no value.
#[derive(Drop)]
pub struct RowTest<'a> {
    table: &'a Table,
    condition: &'a Option<Expr>,
    part: Option<Part<'a>>,
}

// A part of a condition.
#[derive(Drop)]
pub(crate) enum Part<'a> {
    // The value at a place of the row beside another.
    Compared(BinOp, usize, BorrowedValue<'a>),
    Both(Box<Part<'a>>, Box<Part<'a>>),
    Either(Box<Part<'a>>, Box<Part<'a>>),
    Other(&'a Ast),
}

impl<'a> RowTest<'a> {
    /// The condition, ready for rows of the table. The one error is `Memory`.
    pub fn new(
        alloc: Global,
        table: &'a Table,
        condition: &'a Option<Expr>,
    ) -> Result<RowTest<'a>, Error>
        requires { IsTrue (knows_condition (heading_of table.now).columns
            (condition_of condition.now)) }
        ensures ok { IfOk result
            (IsTestOf (heading_of table.now).columns (condition_of condition.now)) }
        ensures errors { IfErr result (λ e. e ≡ Memory) }
    {
        let part = match condition {
            None => None,
            Some(expr) => Some(part_of(alloc, table, &expr.ast)?),
        };
        Ok(RowTest {
            table,
            condition,
            part,
        })
    }

    /// Whether the condition counts as true of the row. The one error is `Memory`.
    pub fn passes(&self, alloc: Global, pool: &StringPool, row: &[ValueRef]) -> Result<bool, Error>
        requires { IsReady self.now }
        ensures ok { IfOk result (λ holds. holds
            ≡ matches pool.now.pool (columns_in self.now) (condition_in self.now) row.now) }
        ensures errors { IfErr result (λ e. e ≡ Memory) }
    {
        match &self.part {
            None => Ok(true),
            Some(part) => part.holds(alloc, pool, self.table, row),
        }
    }
}

// The part that an expression is.
fn part_of<'a>(alloc: Global, table: &Table, ast: &'a Ast) -> Result<Part<'a>, AllocError>
    requires { IsTrue (has_named_columns (heading_of table.now).columns (ast_formula ast.now)) }
    ensures { IfOk result (IsPartOf (heading_of table.now).columns (ast_formula ast.now)) }
{
    match ast {
        Ast::And(arg1, arg2) => {
            let part1 = part_of(alloc, table, arg1)?;
            let part2 = part_of(alloc, table, arg2)?;
            Ok(Part::Both(Box::new(alloc, part1)?, Box::new(alloc, part2)?))
        }
        Ast::Or(arg1, arg2) => {
            let part1 = part_of(alloc, table, arg1)?;
            let part2 = part_of(alloc, table, arg2)?;
            Ok(Part::Either(Box::new(alloc, part1)?, Box::new(alloc, part2)?))
        }
        Ast::BinOp(op, arg1, arg2) => match compared(table, *op, arg1, arg2) {
            Some(part) => Ok(part),
            None => Ok(Part::Other(ast)),
        },
        Ast::Literal(_) | Ast::Column(_) | Ast::UnOp(..) => Ok(Part::Other(ast)),
    }
}

// The part that an operator between a column and a literal is.
fn compared<'a>(table: &Table, op: BinOp, arg1: &'a Ast, arg2: &'a Ast) -> Option<Part<'a>>
    ensures { IfSome result (IsPartOf (heading_of table.now).columns
        (two op (ast_formula arg1.now) (ast_formula arg2.now))) }
{
    let Ast::Column(name) = arg1 else {
        return None;
    };
    let Ast::Literal(value) = arg2 else {
        return None;
    };
    let place = table.index_for_column_name(name.as_str())?;
    Some(Part::Compared(op, place, value.as_borrowed()))
}

impl Part<'_> {
    // Whether it counts as true of a row of the table.
    #[tactic(auto, using(crate::proofs::FilledUp::all_there, crate::proofs::FilledUp::seen_whole))]
    fn holds(
        &self,
        alloc: Global,
        pool: &StringPool,
        table: &Table,
        cells: &[ValueRef],
    ) -> Result<bool, Error>
        requires { KnowsPart (heading_of table.now).columns self.now }
        ensures ok { IfOk result (λ holds. holds
            ≡ part_holds pool.now.pool (heading_of table.now).columns self.now cells.now) }
        ensures errors { IfErr result (λ e. e ≡ Memory) }
    {
        match self {
            Part::Compared(op, place, value) => {
                Ok(op.holds(alloc, value_at(pool, cells, *place), *value)?)
            }
            Part::Both(part1, part2) => Ok(
                part1.holds(alloc, pool, table, cells)? && part2.holds(alloc, pool, table, cells)?,
            ),
            Part::Either(part1, part2) => Ok(
                part1.holds(alloc, pool, table, cells)? || part2.holds(alloc, pool, table, cells)?,
            ),
            Part::Other(ast) => {
                let row = StoredRow { pool, table, cells };
                Ok(ast.eval(alloc, &row)?.to_bool())
            }
        }
    }
}
