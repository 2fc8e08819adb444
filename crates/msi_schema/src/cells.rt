//! Values of a row.
ghost use Rattle.std.specs.Prelude.{◌≡◌, option_map, slice_index_or};
ghost use Rattle.msi_values.specs.Borrowed.{borrowed_data, borrowed_datum};
ghost use Rattle.msi_values.specs.Datum.{null};
ghost use Rattle.msi_schema.specs.Columns.{number_in, text_in};

use msi_values::BorrowedValue;

// The value at a place of a row; past its end null.
pub(crate) fn value_at<'a>(row: &[BorrowedValue<'a>], place: usize) -> BorrowedValue<'a>
    ensures { borrowed_datum result ≡ slice_index_or (borrowed_data row.now) place null }
{
    row.get(place).copied().unwrap_or(BorrowedValue::Null)
}

// The text of a value.
pub(crate) fn text_of<'a>(value: BorrowedValue<'a>) -> Option<&'a str>
    ensures { option_map (λ text. text.now) result ≡ text_in (borrowed_datum value.entry) }
{
    match value {
        BorrowedValue::Str(text) => Some(text),
        BorrowedValue::Null => None,
        BorrowedValue::Int(_) => None,
        BorrowedValue::Binary => None,
    }
}

// The number of a value.
pub(crate) fn number_of(value: BorrowedValue<'_>) -> Option<i32>
    ensures { result ≡ number_in (borrowed_datum value.entry) }
{
    match value {
        BorrowedValue::Int(number) => Some(number),
        BorrowedValue::Null => None,
        BorrowedValue::Str(_) => None,
        BorrowedValue::Binary => None,
    }
}
