//! Changes of all rows, or of none, that a slip of the pen makes.
ghost use Rattle.command_file.specs.Guards.{is_no_answer, is_slip, slips};
ghost use Rattle.command_file.specs.RequestsOf.{request_of};
ghost use Rattle.msi_expr.specs.Formula.{formula_of};
ghost use Rattle.msi_values.specs.Datum.{datum_of};
ghost use Rattle.std.specs.Prelude.{◌≡◌, option_map, position};

use crate::Command;
use msi_expr::Expr;
use msi_values::Value;

/// Where among commands the first update or delete stands whose condition is a text, or a number other than 0 and 1: it would hold of all
/// rows, and the one who wrote it meant some. It is counted from 0.
pub fn slip_in(commands: &[Command]) -> Option<usize>
    ensures { result ≡ position (λ command. slips (request_of command)) commands.now }
{
    commands.iter().position(slips)
}

// Whether a command is such a one.
fn slips(command: &Command) -> bool
    ensures { result ≡ slips (request_of command.now) }
{
    match command {
        Command::Update(update) => is_slip(update.condition()),
        Command::Delete(delete) => is_slip(delete.condition()),
        _ => false,
    }
}

// Whether a condition is such a value.
fn is_slip(condition: Option<&Expr>) -> bool
    ensures { result ≡ is_slip (option_map (λ it. formula_of it.now) condition.entry) }
{
    match condition {
        Some(condition) => match condition.literal() {
            Some(value) => is_no_answer(value),
            None => false,
        },
        None => false,
    }
}

// Whether it is a value that no condition is worth.
fn is_no_answer(value: &Value) -> bool
    ensures { result ≡ is_no_answer (datum_of value.now) }
{
    match value {
        Value::Str(_) => true,
        Value::Int(number) => *number != 0 && *number != 1,
        Value::Null | Value::Binary => false,
    }
}
