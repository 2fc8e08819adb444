//! Values that stand elsewhere.
ghost use Rattle.std.specs.Prelude.{◌≡◌, IfErr, IfOk};
ghost use Rattle.msi_values.specs.Datum.{counts_as_true, datum_cmp, datum_of};
ghost use Rattle.msi_values.specs.Borrowed.{borrowed_datum};
ghost use Rattle.cfb_medium.specs.declared.error.Error.TheVariants.{Memory};

use crate::value::Value;
use cfb_medium::Error;
use std::alloc::Global;
use std::cmp::Ordering;

/// A value whose text stands elsewhere, as in a pool or in another value.
#[derive(Clone, Copy, Debug, PartialEq, Eq, PartialOrd, Ord)]
pub enum BorrowedValue<'a> {
    /// Nothing.
    Null,
    /// A number.
    Int(i32),
    /// A text.
    Str(&'a str),
    /// A stream of bytes, which stands outside the table.
    Binary,
}

impl Value {
    /// The value where it stands.
    pub fn as_borrowed(&self) -> BorrowedValue<'_>
        ensures { borrowed_datum result ≡ datum_of self.now }
    {
        match self {
            Value::Null => BorrowedValue::Null,
            Value::Int(number) => BorrowedValue::Int(*number),
            Value::Str(words) => BorrowedValue::Str(words.as_str()),
            Value::Binary => BorrowedValue::Binary,
        }
    }
}

impl BorrowedValue<'_> {
    /// False for null, zero and the empty text.
    pub fn to_bool(self) -> bool
        ensures { result ≡ counts_as_true (borrowed_datum self.entry) }
    {
        match self {
            BorrowedValue::Null => false,
            BorrowedValue::Int(number) => number != 0,
            BorrowedValue::Str(words) => !words.is_empty(),
            BorrowedValue::Binary => true,
        }
    }

    /// The order of values.
    pub fn compare(self, other: BorrowedValue<'_>) -> Ordering
        ensures { result ≡ datum_cmp (borrowed_datum self.entry) (borrowed_datum other.entry) }
    {
        self.cmp(&other)
    }

    /// A value of its own. The one error is Memory.
    pub fn to_value(self, alloc: Global) -> Result<Value, Error>
        ensures value { IfOk result (λ value. datum_of value ≡ borrowed_datum self.entry) }
        ensures errors { IfErr result (λ e. e ≡ Memory) }
    {
        match self {
            BorrowedValue::Null => Ok(Value::Null),
            BorrowedValue::Int(number) => Ok(Value::Int(number)),
            BorrowedValue::Str(words) => Value::text(alloc, words),
            BorrowedValue::Binary => Ok(Value::Binary),
        }
    }
}
