//! What isn't read back from an export as it was.
use crate::order::compare_keys;
use cfb_medium::Timestamp;
use idt_rows::comes_back;
use idt_summaries::{date_of, is_exported};
use msi_props::PropertyValue;
use msi_tables::Row;
use msi_values::Value;
use std::cmp::Ordering;
use std::fmt;

/// Why a value of a package isn't read back from its export as it was.
#[derive(Clone, Copy, Debug, PartialEq, Eq)]
pub enum Loss {
    /// An empty text, since an empty cell is null.
    EmptyText,
    /// A text with a character that stands for another one in exports.
    StandIn,
    /// A text with the character that is read in place of bytes that its code page lacks.
    Replaced,
    /// A null of a key whose column takes none.
    NullKey,
    /// A key that the row before has, too.
    SameKey,
    /// A moment within a second.
    Fraction,
    /// A property of the summary that no reader of exports takes.
    Unwritten,
}

impl Loss {
    fn text(self) -> &'static str {
        match self {
            Loss::EmptyText => "an empty text, which is read back as null",
            Loss::StandIn =>
                "a text with one of the characters 16, 17, 21, 24, 25 and 27, which stand for others there",
            Loss::Replaced =>
                "a text with U+FFFD, which may stand for bytes that the code page lacks",
            Loss::NullKey => "null in a key that takes none, which readers of exports refuse",
            Loss::SameKey => "a key that the row before has, too, which readers of exports refuse",
            Loss::Fraction => "a fraction of a second, which is left out",
            Loss::Unwritten => "it is left out, since readers of exports refuse it",
        }
    }
}

impl fmt::Display for Loss {
    fn fmt<W: fmt::Write>(&self, f: &mut fmt::Formatter<W>) -> fmt::Result {
        f.write_str(self.text())
    }
}

/// What of a row among its table's sorted rows isn't read back, and the place of its column; none where all is.
pub fn loss_of_row(rows: &[Row], at: usize) -> Option<(usize, Loss)> {
    let row = rows.get(at)?;
    if has_key_before(rows, at) {
        return Some((0, Loss::SameKey));
    }
    for place in 0..row.len() {
        if let Some(loss) = loss_of_value(row.value(place), is_key_without_null(row, place)) {
            return Some((place, loss));
        }
    }
    None
}

// Whether the row before has the same key.
fn has_key_before(rows: &[Row], at: usize) -> bool {
    match (rows.get(at.wrapping_sub(1)), rows.get(at)) {
        (Some(before), Some(row)) => compare_keys(before, row) == Ordering::Equal,
        _ => false,
    }
}

// Whether the value at a place belongs to the key, and its column takes no null.
fn is_key_without_null(row: &Row, place: usize) -> bool {
    match row.columns().get(place) {
        Some(column) => column.is_primary_key() && !column.is_nullable(),
        None => false,
    }
}

fn loss_of_value(value: Option<&Value>, is_key_without_null: bool) -> Option<Loss> {
    match value {
        Some(Value::Null) if is_key_without_null => Some(Loss::NullKey),
        Some(Value::Str(text)) if text.is_empty() => Some(Loss::EmptyText),
        Some(Value::Str(text)) => loss_of_text(text),
        _ => None,
    }
}

fn loss_of_text(text: &str) -> Option<Loss> {
    if !comes_back(text) {
        Some(Loss::StandIn)
    } else if text.contains('\u{fffd}') {
        Some(Loss::Replaced)
    } else {
        None
    }
}

/// What of a property of the summary isn't read back; none where all is.
pub fn loss_of_property(number: u32, value: &PropertyValue) -> Option<Loss> {
    match value {
        PropertyValue::Empty | PropertyValue::Null => None,
        _ if !is_exported(number) => Some(Loss::Unwritten),
        PropertyValue::LpStr(text) => loss_of_text(text),
        PropertyValue::FileTime(moment) => loss_of_moment(*moment),
        _ => None,
    }
}

fn loss_of_moment(moment: Timestamp) -> Option<Loss> {
    let (_, nanos) = moment.to_unix();
    if date_of(moment).is_none() {
        Some(Loss::Unwritten)
    } else if nanos != 0 {
        Some(Loss::Fraction)
    } else {
        None
    }
}
