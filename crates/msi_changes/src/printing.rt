//! Lists of values as changes are printed: one after another with ", " between.
ghost use Rattle.std.specs.Prelude.{◌≡◌, codes, map};
ghost use Rattle.std.specs.Fmt.{DisplaysOnOk};
ghost use Rattle.msi_values.specs.Datum.{data_of, datum_of, datum_text};
ghost use Rattle.msi_expr.specs.Printed.{separated};
ghost use Rattle.msi_changes.specs.Printed.{set_text, values_text};
ghost use Rattle.msi_changes.specs.Said.{sets_of};

use msi_values::Value;
use std::fmt;

// Writes a value.
fn fmt_value<W: fmt::Write>(f: &mut fmt::Formatter<W>, value: &Value) -> fmt::Result
    ensures { DisplaysOnOk W.write_str_gives f.old result (datum_text (datum_of value.now)) f.new }
{
    fmt::Display::fmt(value, f)
}

// Writes the values.
fn fmt_values<W: fmt::Write>(f: &mut fmt::Formatter<W>, values: &[Value]) -> fmt::Result
    ensures { DisplaysOnOk W.write_str_gives f.old result
        (separated (codes ", ") (map datum_text (data_of values.now))) f.new }
{
    match values {
        [] => Ok(()),
        [value] => fmt_value(f, value),
        [value, rest @ ..] => {
            fmt_value(f, value)?;
            f.write_str(", ")?;
            fmt_values(f, rest)
        }
    }
}

// Writes the values of a row in parentheses.
fn fmt_row<W: fmt::Write>(f: &mut fmt::Formatter<W>, values: &[Value]) -> fmt::Result
    ensures { DisplaysOnOk W.write_str_gives f.old result (values_text (data_of values.now)) f.new }
{
    f.write_str("(")?;
    fmt_values(f, values)?;
    f.write_str(")")
}

// Writes the rows.
pub(crate) fn fmt_rows<W: fmt::Write>(f: &mut fmt::Formatter<W>, rows: &[Vec<Value>]) -> fmt::Result
    ensures { DisplaysOnOk W.write_str_gives f.old result
        (separated (codes ", ") (map values_text (map (λ row. data_of row.items) rows.now))) f.new }
{
    match rows {
        [] => Ok(()),
        [row] => fmt_row(f, row),
        [row, rest @ ..] => {
            fmt_row(f, row)?;
            f.write_str(", ")?;
            fmt_rows(f, rest)
        }
    }
}

// Writes the columns with their new values.
pub(crate) fn fmt_sets<W: fmt::Write>(
    f: &mut fmt::Formatter<W>,
    sets: &[(String, Value)],
) -> fmt::Result
    ensures { DisplaysOnOk W.write_str_gives f.old result
        (separated (codes ", ") (map set_text (sets_of sets.now))) f.new }
{
    match sets {
        [] => Ok(()),
        [(name, value)] => fmt_set(f, name, value),
        [(name, value), rest @ ..] => {
            fmt_set(f, name, value)?;
            f.write_str(", ")?;
            fmt_sets(f, rest)
        }
    }
}

// Writes one of them.
fn fmt_set<W: fmt::Write>(f: &mut fmt::Formatter<W>, name: &str, value: &Value) -> fmt::Result
    ensures { DisplaysOnOk W.write_str_gives f.old result (set_text (name.now, datum_of value.now))
        f.new }
{
    f.write_str(name)?;
    f.write_str(" = ")?;
    fmt_value(f, value)
}
