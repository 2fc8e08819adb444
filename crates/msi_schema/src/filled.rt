//! Whether keys have all their values.
ghost use Rattle.std.specs.Prelude.{◌≡◌, map, take};
ghost use Rattle.std.specs.List.{list_all};
ghost use Rattle.msi_values.specs.Borrowed.{borrowed_datum};
ghost use Rattle.msi_tables.specs.Schema.{is_filled};
ghost use Rattle.msi_schema.specs.Index.{rows_said};

use msi_values::BorrowedValue;

/// Whether no null is among the first values of rows, so many of each.
pub fn are_filled(rows: &[Vec<BorrowedValue<'_>>], width: usize) -> bool
    ensures { result ≡ list_all (list_all is_filled) (map (take width) (rows_said rows.now)) }
{
    are_rows_filled(rows, width)
}

// The same, told by the values where they stand.
fn are_rows_filled(rows: &[Vec<BorrowedValue<'_>>], width: usize) -> bool
    ensures { result ≡ list_all
        (λ row. list_all (λ value. is_filled (borrowed_datum value)) (take width row.items))
        rows.now }
{
    rows.iter().all(|row| is_row_filled(row, width))
}

// The same of one row.
fn is_row_filled(row: &[BorrowedValue<'_>], width: usize) -> bool
    ensures { result ≡ list_all (λ value. is_filled (borrowed_datum value)) (take width row.now) }
{
    row.iter().take(width).all(|value| is_filled(*value))
}

// Whether the value is not null.
fn is_filled(value: BorrowedValue<'_>) -> bool
    ensures { result ≡ is_filled (borrowed_datum value.entry) }
{
    match value {
        BorrowedValue::Null => false,
        BorrowedValue::Int(_) => true,
        BorrowedValue::Str(_) => true,
        BorrowedValue::Binary => true,
    }
}
