//! Operators: what they make of values, how they are written, how strongly they bind.
ghost use Rattle.std.specs.Prelude.{◌≡◌, ◌≤◌, IfOk, MatchOption, Some, None};
ghost use Rattle.msi_values.specs.Borrowed.{borrowed_datum};
ghost use Rattle.msi_values.specs.Datum.{counts_as_true, null, number, datum_of};
ghost use Rattle.msi_expr.specs.Formula.{one_applied, two_applied, strength, sign_of, prefix_of, count_of, is_equality, IsArithmetic};

use msi_values::{BorrowedValue, Value};
use std::alloc::{AllocError, Global};

/// An operator on one value.
#[derive(Clone, Copy)]
pub enum UnOp {
    Neg,
    BitNot,
    BoolNot,
}

/// An operator on two values.
#[derive(Clone, Copy)]
pub enum BinOp {
    Eq,
    Ne,
    Lt,
    Le,
    Gt,
    Ge,
    Add,
    Sub,
    Mul,
    Div,
    BitAnd,
    BitOr,
    BitXor,
    Shl,
    Shr,
}

impl UnOp {
    pub(crate) fn apply(self, arg: BorrowedValue<'_>) -> Value
        ensures { datum_of result ≡ one_applied self (borrowed_datum arg.entry) }
    {
        match self {
            UnOp::Neg => match arg {
                BorrowedValue::Int(number) => or_null(number.checked_neg()),
                _ => Value::Null,
            },
            UnOp::BitNot => match arg {
                BorrowedValue::Int(number) => Value::Int(!number),
                _ => Value::Null,
            },
            UnOp::BoolNot => Value::from_bool(!arg.to_bool()),
        }
    }

    pub(crate) fn prefix(self) -> &'static str
        ensures { result.now ≡ prefix_of self }
    {
        match self {
            UnOp::Neg => "-",
            UnOp::BitNot => "~",
            UnOp::BoolNot => "NOT ",
        }
    }
}

fn or_null(found: Option<i32>) -> Value
    ensures { MatchOption found (datum_of result ≡ null) (λ z. datum_of result ≡ number z) }
{
    match found {
        Some(number) => Value::Int(number),
        None => Value::Null,
    }
}

fn shift_count(distance: i32) -> Option<u32>
    ensures { result ≡ count_of distance }
{
    if 0 <= distance && distance < 32 {
        Some(distance as u32)
    } else {
        None
    }
}

impl BinOp {
    pub(crate) fn apply(
        self,
        alloc: Global,
        arg1: BorrowedValue<'_>,
        arg2: BorrowedValue<'_>,
    ) -> Result<Value, AllocError>
        ensures { IfOk result (λ v. datum_of v
            ≡ two_applied self (borrowed_datum arg1.entry) (borrowed_datum arg2.entry)) }
    {
        match self {
            BinOp::Eq => Ok(Value::from_bool(arg1.compare(arg2).is_eq())),
            BinOp::Ne => Ok(Value::from_bool(arg1.compare(arg2).is_ne())),
            BinOp::Lt => Ok(Value::from_bool(arg1.compare(arg2).is_lt())),
            BinOp::Le => Ok(Value::from_bool(arg1.compare(arg2).is_le())),
            BinOp::Gt => Ok(Value::from_bool(arg1.compare(arg2).is_gt())),
            BinOp::Ge => Ok(Value::from_bool(arg1.compare(arg2).is_ge())),
            BinOp::Add => match (arg1, arg2) {
                (BorrowedValue::Str(text1), BorrowedValue::Str(text2)) => {
                    let mut joined = String::from_str(alloc, text1)?;
                    joined.push_str(text2)?;
                    Ok(Value::Str(joined))
                }
                (BorrowedValue::Int(number1), BorrowedValue::Int(number2)) => {
                    Ok(or_null(number1.checked_add(number2)))
                }
                _ => Ok(Value::Null),
            },
            _ => match (arg1, arg2) {
                (BorrowedValue::Int(number1), BorrowedValue::Int(number2)) => {
                    Ok(self.apply_numbers(number1, number2))
                }
                _ => Ok(Value::Null),
            },
        }
    }

    // Whether what it makes of two values counts as true. A comparison makes no value.
    pub(crate) fn holds(
        self,
        alloc: Global,
        arg1: BorrowedValue<'_>,
        arg2: BorrowedValue<'_>,
    ) -> Result<bool, AllocError>
        ensures { IfOk result (λ holds. holds ≡ counts_as_true
            (two_applied self (borrowed_datum arg1.entry) (borrowed_datum arg2.entry))) }
    {
        Ok(match self {
            BinOp::Eq => arg1.compare(arg2).is_eq(),
            BinOp::Ne => arg1.compare(arg2).is_ne(),
            BinOp::Lt => arg1.compare(arg2).is_lt(),
            BinOp::Le => arg1.compare(arg2).is_le(),
            BinOp::Gt => arg1.compare(arg2).is_gt(),
            BinOp::Ge => arg1.compare(arg2).is_ge(),
            _ => self.apply(alloc, arg1, arg2)?.as_borrowed().to_bool(),
        })
    }

    fn apply_numbers(self, number1: i32, number2: i32) -> Value
        ensures { IsArithmetic self
            → datum_of result ≡ two_applied self (number number1) (number number2) }
    {
        match self {
            BinOp::Sub => or_null(number1.checked_sub(number2)),
            BinOp::Mul => or_null(number1.checked_mul(number2)),
            BinOp::Div => or_null(number1.checked_div(number2)),
            BinOp::BitAnd => Value::Int(number1 & number2),
            BinOp::BitOr => Value::Int(number1 | number2),
            BinOp::BitXor => Value::Int(number1 ^ number2),
            BinOp::Shl => match shift_count(number2) {
                Some(count) => Value::Int(number1 << count),
                None => Value::Null,
            },
            BinOp::Shr => match shift_count(number2) {
                Some(count) => Value::Int(number1 >> count),
                None => Value::Null,
            },
            _ => Value::Null,
        }
    }

    pub(crate) fn is_equality(self) -> bool
        ensures { result ≡ is_equality self }
    {
        matches!(self, BinOp::Eq)
    }

    pub(crate) fn sign(self) -> &'static str
        ensures { result.now ≡ sign_of self }
    {
        match self {
            BinOp::Eq => " = ",
            BinOp::Ne => " != ",
            BinOp::Lt => " < ",
            BinOp::Le => " <= ",
            BinOp::Gt => " > ",
            BinOp::Ge => " >= ",
            BinOp::Add => " + ",
            BinOp::Sub => " - ",
            BinOp::Mul => " * ",
            BinOp::Div => " / ",
            BinOp::BitAnd => " & ",
            BinOp::BitOr => " | ",
            BinOp::BitXor => " ^ ",
            BinOp::Shl => " << ",
            BinOp::Shr => " >> ",
        }
    }

    pub(crate) fn strength(self) -> u32
        ensures value { result ≡ strength self }
        ensures bound { result ≤ 9 }
    {
        match self {
            BinOp::Eq | BinOp::Ne | BinOp::Lt | BinOp::Le | BinOp::Gt | BinOp::Ge => 3,
            BinOp::BitOr => 4,
            BinOp::BitXor => 5,
            BinOp::BitAnd => 6,
            BinOp::Shl | BinOp::Shr => 7,
            BinOp::Add | BinOp::Sub => 8,
            BinOp::Mul | BinOp::Div => 9,
        }
    }
}
