//! Conditions on rows.
ghost use Rattle.std.specs.Prelude.{◌≡◌, Ok};
ghost use Rattle.std.specs.Fmt.{DisplaysOnOk};
ghost use Rattle.msi_texts.specs.Results.{ReturnsOrOutOfMemory};
ghost use Rattle.msi_expr.specs.Formula.{formula_of};
ghost use Rattle.msi_expr.specs.Conditions.{condition_of, narrowed};
ghost use Rattle.msi_expr.specs.Printed.{condition_text};

use crate::expr::Expr;
use cfb_medium::Error;
use std::alloc::Global;
use std::fmt;

/// The condition, which must hold together with one more; that alone, where there was none. The one error is `Memory`, which
/// spends both.
pub fn narrowed_condition(
    alloc: Global,
    condition: Option<Expr>,
    more: Expr,
) -> Result<Option<Expr>, Error>
    ensures { ReturnsOrOutOfMemory condition_of result
        (Ok (narrowed (condition_of condition) (formula_of more))) }
{
    match condition {
        None => Ok(Some(more)),
        Some(first) => Ok(Some(first.and(alloc, more)?)),
    }
}

/// Writes the condition behind its word, where there is one.
pub fn fmt_condition<W: fmt::Write>(
    condition: &Option<Expr>,
    f: &mut fmt::Formatter<W>,
) -> fmt::Result
    ensures { DisplaysOnOk W.write_str_gives f.old result
        (condition_text (condition_of condition.now)) f.new }
{
    match condition {
        None => Ok(()),
        Some(expr) => {
            f.write_str(" WHERE ")?;
            fmt::Display::fmt(expr, f)
        }
    }
}
