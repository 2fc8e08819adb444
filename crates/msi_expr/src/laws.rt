//! Laws of expressions.
ghost use Rattle.std.specs.Prelude.{◌≡◌};
ghost use Rattle.msi_expr.specs.Formula.{Formula, value_of_formula, built, built_of_two, one_applied, two_applied};
ghost use Rattle.msi_tables.specs.Row.{Cells};
ghost use Rattle.msi_expr.specs.declared.operators.UnOp.{UnOp};
ghost use Rattle.msi_expr.specs.declared.operators.BinOp.{BinOp};

/// Applying an operator on literals at once doesn't change what an expression is worth on any row.
pub fn folding_keeps_the_worth()
    ensures one { (row : Cells) (op : UnOp) (a : Formula)
        → value_of_formula row (built op a) ≡ one_applied op (value_of_formula row a) }
    ensures two { (row : Cells) (op : BinOp) (a b : Formula)
        → value_of_formula row (built_of_two op a b) ≡ two_applied op (value_of_formula row a)
        (value_of_formula row b) }
{}
