//! Which values the columns of a table take.
ghost use Rattle.std.specs.List.{list_all};
ghost use Rattle.std.specs.Prelude.{◌≡◌};
ghost use Rattle.msi_values.specs.Datum.{data_of};
ghost use Rattle.msi_columns.specs.Column.{are_valid};
ghost use Rattle.msi_columns.specs.Held.{columns_of};

use msi_tables::Column;
use msi_values::Value;

// Whether the row has a value for each column, and each column takes its own.
fn is_row(columns: &[Column], values: &[Value]) -> bool
    ensures { result ≡ are_valid (columns_of columns.now) (data_of values.now) }
{
    match columns {
        [] => values.is_empty(),
        [column, columns @ ..] => match values {
            [] => false,
            [value, values @ ..] => column.is_valid_value(value) && is_row(columns, values),
        },
    }
}

// Whether all these rows are such.
pub(crate) fn are_rows(columns: &[Column], rows: &[Vec<Value>]) -> bool
    ensures { result
        ≡ list_all (λ row. are_valid (columns_of columns.now) (data_of row.items)) rows.now }
{
    rows.iter().all(|row| is_row(columns, row))
}
