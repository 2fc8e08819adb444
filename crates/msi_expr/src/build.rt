//! How expressions are built. An operator on literals alone is applied at once, but for `and` and `or`. `Memory` comes where there is
//! no memory; what a call was given is then gone.
ghost use Rattle.std.specs.Prelude.{◌≡◌, Ok};
ghost use Rattle.msi_texts.specs.Results.{ReturnsOrOutOfMemory};
ghost use Rattle.msi_values.specs.Datum.{null, number, text, truth};
ghost use Rattle.msi_expr.specs.Formula.{formula_of, literal, column, both, either, built, built_of_two};

use crate::ast::Ast;
use crate::expr::Expr;
use crate::operators::{BinOp, UnOp};
use cfb_medium::Error;
use msi_values::Value;
use std::alloc::Global;

impl Expr {
    /// The value of the first column of a name.
    pub fn col(alloc: Global, column_name: &str) -> Result<Expr, Error>
        ensures { ReturnsOrOutOfMemory formula_of result (Ok (column column_name.now)) }
    {
        let name = String::from_str(alloc, column_name)?;
        Ok(Expr {
            ast: Ast::Column(name),
        })
    }

    /// Null.
    pub fn null() -> Expr
        ensures { formula_of result ≡ literal null }
    {
        Expr {
            ast: Ast::Literal(Value::Null),
        }
    }

    /// 1 for true, 0 for false.
    pub fn boolean(boolean: bool) -> Expr
        ensures { formula_of result ≡ literal (truth boolean) }
    {
        Expr {
            ast: Ast::Literal(Value::from_bool(boolean)),
        }
    }

    /// A number.
    pub fn integer(integer: i32) -> Expr
        ensures { formula_of result ≡ literal (number integer) }
    {
        Expr {
            ast: Ast::Literal(Value::Int(integer)),
        }
    }

    /// A text.
    pub fn string(alloc: Global, string: &str) -> Result<Expr, Error>
        ensures { ReturnsOrOutOfMemory formula_of result (Ok (literal (text string.now))) }
    {
        let value = Value::Str(String::from_str(alloc, string)?);
        Ok(Expr {
            ast: Ast::Literal(value),
        })
    }

    /// 1 where both are equal, else 0.
    pub fn eq(self, alloc: Global, rhs: Expr) -> Result<Expr, Error>
        ensures { ReturnsOrOutOfMemory formula_of result (Ok
            (built_of_two BinOp.Eq (formula_of self) (formula_of rhs))) }
    {
        self.beside(alloc, BinOp::Eq, rhs)
    }

    /// 1 where they differ, else 0.
    pub fn ne(self, alloc: Global, rhs: Expr) -> Result<Expr, Error>
        ensures { ReturnsOrOutOfMemory formula_of result (Ok
            (built_of_two BinOp.Ne (formula_of self) (formula_of rhs))) }
    {
        self.beside(alloc, BinOp::Ne, rhs)
    }

    /// 1 where this is less, else 0.
    pub fn lt(self, alloc: Global, rhs: Expr) -> Result<Expr, Error>
        ensures { ReturnsOrOutOfMemory formula_of result (Ok
            (built_of_two BinOp.Lt (formula_of self) (formula_of rhs))) }
    {
        self.beside(alloc, BinOp::Lt, rhs)
    }

    /// 1 where this is less or equal, else 0.
    pub fn le(self, alloc: Global, rhs: Expr) -> Result<Expr, Error>
        ensures { ReturnsOrOutOfMemory formula_of result (Ok
            (built_of_two BinOp.Le (formula_of self) (formula_of rhs))) }
    {
        self.beside(alloc, BinOp::Le, rhs)
    }

    /// 1 where this is greater, else 0.
    pub fn gt(self, alloc: Global, rhs: Expr) -> Result<Expr, Error>
        ensures { ReturnsOrOutOfMemory formula_of result (Ok
            (built_of_two BinOp.Gt (formula_of self) (formula_of rhs))) }
    {
        self.beside(alloc, BinOp::Gt, rhs)
    }

    /// 1 where this is greater or equal, else 0.
    pub fn ge(self, alloc: Global, rhs: Expr) -> Result<Expr, Error>
        ensures { ReturnsOrOutOfMemory formula_of result (Ok
            (built_of_two BinOp.Ge (formula_of self) (formula_of rhs))) }
    {
        self.beside(alloc, BinOp::Ge, rhs)
    }

    /// The sum of two numbers, or two texts joined; null past 32 bits or for other values.
    pub fn add(self, alloc: Global, rhs: Expr) -> Result<Expr, Error>
        ensures { ReturnsOrOutOfMemory formula_of result (Ok
            (built_of_two BinOp.Add (formula_of self) (formula_of rhs))) }
    {
        self.beside(alloc, BinOp::Add, rhs)
    }

    /// The difference of two numbers; null past 32 bits or for other values.
    pub fn sub(self, alloc: Global, rhs: Expr) -> Result<Expr, Error>
        ensures { ReturnsOrOutOfMemory formula_of result (Ok
            (built_of_two BinOp.Sub (formula_of self) (formula_of rhs))) }
    {
        self.beside(alloc, BinOp::Sub, rhs)
    }

    /// The product of two numbers; null past 32 bits or for other values.
    pub fn mul(self, alloc: Global, rhs: Expr) -> Result<Expr, Error>
        ensures { ReturnsOrOutOfMemory formula_of result (Ok
            (built_of_two BinOp.Mul (formula_of self) (formula_of rhs))) }
    {
        self.beside(alloc, BinOp::Mul, rhs)
    }

    /// The quotient of two numbers, cut towards zero; null by zero, past 32 bits or for other values.
    pub fn div(self, alloc: Global, rhs: Expr) -> Result<Expr, Error>
        ensures { ReturnsOrOutOfMemory formula_of result (Ok
            (built_of_two BinOp.Div (formula_of self) (formula_of rhs))) }
    {
        self.beside(alloc, BinOp::Div, rhs)
    }

    /// The bits that both numbers have; null for other values.
    pub fn bitand(self, alloc: Global, rhs: Expr) -> Result<Expr, Error>
        ensures { ReturnsOrOutOfMemory formula_of result (Ok
            (built_of_two BinOp.BitAnd (formula_of self) (formula_of rhs))) }
    {
        self.beside(alloc, BinOp::BitAnd, rhs)
    }

    /// The bits that one of two numbers has; null for other values.
    pub fn bitor(self, alloc: Global, rhs: Expr) -> Result<Expr, Error>
        ensures { ReturnsOrOutOfMemory formula_of result (Ok
            (built_of_two BinOp.BitOr (formula_of self) (formula_of rhs))) }
    {
        self.beside(alloc, BinOp::BitOr, rhs)
    }

    /// The bits that just one of two numbers has; null for other values.
    pub fn bitxor(self, alloc: Global, rhs: Expr) -> Result<Expr, Error>
        ensures { ReturnsOrOutOfMemory formula_of result (Ok
            (built_of_two BinOp.BitXor (formula_of self) (formula_of rhs))) }
    {
        self.beside(alloc, BinOp::BitXor, rhs)
    }

    /// The number shifted to the left, its low 32 bits; null for a count outside 0 to 31 or for other values.
    pub fn shl(self, alloc: Global, rhs: Expr) -> Result<Expr, Error>
        ensures { ReturnsOrOutOfMemory formula_of result (Ok
            (built_of_two BinOp.Shl (formula_of self) (formula_of rhs))) }
    {
        self.beside(alloc, BinOp::Shl, rhs)
    }

    /// The number shifted to the right with its sign kept; null for a count outside 0 to 31 or for other values.
    pub fn shr(self, alloc: Global, rhs: Expr) -> Result<Expr, Error>
        ensures { ReturnsOrOutOfMemory formula_of result (Ok
            (built_of_two BinOp.Shr (formula_of self) (formula_of rhs))) }
    {
        self.beside(alloc, BinOp::Shr, rhs)
    }

    /// The number with the other sign; null past 32 bits or for another value.
    pub fn neg(self, alloc: Global) -> Result<Expr, Error>
        ensures { ReturnsOrOutOfMemory formula_of result (Ok (built UnOp.Neg (formula_of self))) }
    {
        self.under(alloc, UnOp::Neg)
    }

    /// The number with all bits turned; null for another value.
    pub fn bitinv(self, alloc: Global) -> Result<Expr, Error>
        ensures { ReturnsOrOutOfMemory formula_of result
            (Ok (built UnOp.BitNot (formula_of self))) }
    {
        self.under(alloc, UnOp::BitNot)
    }

    /// 1 where the value counts as false (null, 0, the empty text), else 0.
    pub fn not(self, alloc: Global) -> Result<Expr, Error>
        ensures { ReturnsOrOutOfMemory formula_of result
            (Ok (built UnOp.BoolNot (formula_of self))) }
    {
        self.under(alloc, UnOp::BoolNot)
    }

    /// 1 where both values count as true, else 0. Literals stay as they are.
    pub fn and(self, alloc: Global, rhs: Expr) -> Result<Expr, Error>
        ensures { ReturnsOrOutOfMemory formula_of result
            (Ok (both (formula_of self) (formula_of rhs))) }
    {
        let left = Box::new(alloc, self.ast)?;
        let right = Box::new(alloc, rhs.ast)?;
        Ok(Expr {
            ast: Ast::And(left, right),
        })
    }

    /// 1 where one of the values counts as true, else 0. Literals stay as they are.
    pub fn or(self, alloc: Global, rhs: Expr) -> Result<Expr, Error>
        ensures { ReturnsOrOutOfMemory formula_of result
            (Ok (either (formula_of self) (formula_of rhs))) }
    {
        let left = Box::new(alloc, self.ast)?;
        let right = Box::new(alloc, rhs.ast)?;
        Ok(Expr {
            ast: Ast::Or(left, right),
        })
    }

    fn under(self, alloc: Global, op: UnOp) -> Result<Expr, Error>
        ensures { ReturnsOrOutOfMemory formula_of result (Ok (built op (formula_of self))) }
    {
        match self.ast {
            Ast::Literal(value) => Ok(Expr {
                ast: Ast::Literal(op.apply(value.as_borrowed())),
            }),
            arg => Ok(Expr {
                ast: Ast::UnOp(op, Box::new(alloc, arg)?),
            }),
        }
    }

    fn beside(self, alloc: Global, op: BinOp, rhs: Expr) -> Result<Expr, Error>
        ensures { ReturnsOrOutOfMemory formula_of result (Ok
            (built_of_two op (formula_of self) (formula_of rhs))) }
    {
        match (self.ast, rhs.ast) {
            (Ast::Literal(value1), Ast::Literal(value2)) => Ok(Expr {
                ast: Ast::Literal(op.apply(alloc, value1.as_borrowed(), value2.as_borrowed())?),
            }),
            (arg1, arg2) => {
                let left = Box::new(alloc, arg1)?;
                let right = Box::new(alloc, arg2)?;
                Ok(Expr {
                    ast: Ast::BinOp(op, left, right),
                })
            }
        }
    }
}
