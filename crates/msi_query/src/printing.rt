//! Names of columns as a select is printed: one after another with ", " between.
ghost use Rattle.std.specs.Prelude.{◌≡◌, codes, map, string_bytes, Some};
ghost use Rattle.std.specs.Fmt.{DisplaysOnOk};
ghost use Rattle.msi_expr.specs.Printed.{separated};
ghost use Rattle.msi_query.specs.Printed.{names_text};

use std::fmt;

// Writes names.
fn fmt_listed<W: fmt::Write>(f: &mut fmt::Formatter<W>, names: &[String]) -> fmt::Result
    ensures { DisplaysOnOk W.write_str_gives f.old result
        (separated (codes ", ") (map Some (map string_bytes names.now))) f.new }
{
    match names {
        [] => Ok(()),
        [name] => f.write_str(name),
        [name, rest @ ..] => {
            f.write_str(name)?;
            f.write_str(", ")?;
            fmt_listed(f, rest)
        }
    }
}

// Writes the names of the columns that are asked for, or a star.
pub(crate) fn fmt_names<W: fmt::Write>(f: &mut fmt::Formatter<W>, names: &[String]) -> fmt::Result
    ensures { DisplaysOnOk W.write_str_gives f.old result (names_text (map string_bytes names.now))
        f.new }
{
    if names.is_empty() {
        return f.write_str("*");
    }
    fmt_listed(f, names)
}
