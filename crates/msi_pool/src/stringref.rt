//! References to the string pool, and what a stored cell holds.
ghost use Rattle.std.specs.Prelude.{◌≡◌, ◌↔◌, ◌⊎◌, ◌+◌, ◌<◌, ◌≤◌, ◌^◌, ◌++◌, ℕ, true, false, Some, None, Ok, Err, IfOk, IfErr, OnOk, OnErr, IsErrOf};
ghost use Rattle.msi_texts.specs.Numbers.{le_bytes};
ghost use Rattle.msi_values.specs.Borrowed.{borrowed_datum};
ghost use Rattle.msi_values.specs.Datum.{datum_of};
ghost use Rattle.msi_pool.specs.Refs.{ref_width, ref_of, number_of, ref_at, fits_width, cell_of, with_value, is_counted, without_value, value_at};
ghost use Rattle.cfb_medium.specs.declared.error.Error.TheVariants.{InvalidInput, InvalidData, Memory};

use crate::draft::CountsUses;
use crate::stringpool::StringPool;
use cfb_medium::Error;
use msi_texts::{read_u16, read_u24, write_u16, write_u24};
use msi_values::{BorrowedValue, Value};
use std::alloc::Global;
use std::marker::Model;

/// A place in the string pool, from 1 on.
#[derive(Clone, Copy, Debug, PartialEq, Eq, PartialOrd, Ord)]
pub struct StringRef {
    number: u32,
}

impl Model for StringRef {
    ghost use Rattle.std.specs.Prelude.{ℕ, ◌<◌, ◌^◌};

    ghost Value = { ℕ };

    ghost view = { λ r. r.number };

    ghost invariant = { λ r. (0 < r.number) × (r.number < 2 ^ 24) };

    ghost inverse = { λ n. record { number = n } };
}

impl StringRef {
    /// The reference to a place.
    pub fn new(number: u32) -> StringRef
        requires { (0 < number) × (number < 2 ^ 24) }
        ensures { result ≡ number }
    {
        StringRef { number }
    }

    // The place's index in the list.
    pub(crate) fn index(self) -> usize
        ensures { result + 1 ≡ self }
    {
        let number = self.number();
        number as usize - 1
    }

    /// The place's number.
    pub fn number(self) -> u32
        ensures value { result ≡ self }
        ensures above { 0 < result }
        ensures below { result < 2 ^ 24 }
    {
        self.number
    }
}

impl StringRef {
    /// Takes a reference of three bytes, or of two; 0 is none. UnexpectedEof where bytes are missing;
    /// then the reader is where it was.
    pub fn read(reader: &mut &[u8], long_string_refs: bool) -> Result<Option<StringRef>, Error>
        ensures ok { IfOk result (λ r. ref_at long_string_refs reader.old.now
            ≡ Ok (r, reader.new.now)) }
        ensures errors { IfErr result (λ e. ref_at long_string_refs reader.old.now ≡ Err e) }
        ensures after_error { OnErr result (reader.new.now ≡ reader.old.now) }
    {
        let number = if long_string_refs {
            read_u24(reader)?
        } else {
            u32::from(read_u16(reader)?)
        };
        Ok(ref_of(number))
    }

    /// Appends a reference in three bytes, or in two; none is 0. InvalidInput where its number takes more;
    /// then, and after Memory, nothing is appended.
    pub fn write(
        writer: &mut Vec<u8>,
        string_ref: Option<StringRef>,
        long_string_refs: bool,
    ) -> Result<(), Error>
        ensures ok { OnOk result (writer.new.items
            ≡ writer.old.items ++ le_bytes (ref_width long_string_refs) (number_of string_ref)) }
        ensures long { IsErrOf result InvalidInput
            ↔ (fits_width long_string_refs string_ref ≡ false) }
        ensures errors { IfErr result (λ e. (e ≡ Memory) ⊎ (e ≡ InvalidInput)) }
        ensures after_error { OnErr result (writer.new.items ≡ writer.old.items) }
    {
        let number = match string_ref {
            Some(string_ref) => string_ref.number(),
            None => 0,
        };
        if long_string_refs {
            write_u24(writer, number)?;
        } else if number < 65536 {
            write_u16(writer, number as u16)?;
        } else {
            return Err(Error::InvalidInput);
        }
        Ok(())
    }
}

fn ref_of(number: u32) -> Option<StringRef>
    requires { number < 2 ^ 24 }
    ensures { result ≡ ref_of number }
{
    if number == 0 {
        None
    } else {
        Some(StringRef::new(number))
    }
}

/// What a cell of a stored row holds: of a text only its place in the pool.
#[derive(Clone, Copy, Debug, PartialEq, Eq, PartialOrd, Ord)]
pub enum ValueRef {
    /// Nothing.
    Null,
    /// A number.
    Int(i32),
    /// A text, by its place.
    Str(StringRef),
    /// A stream of bytes, which stands outside the table.
    Binary,
}

impl ValueRef {
    /// The cell of a value, whose text is counted in the pool or its draft. InvalidInput where the pool is full; then,
    /// and after Memory, it is unchanged.
    pub fn create<P: CountsUses>(value: Value, string_pool: &mut P) -> Result<ValueRef, Error>
        ensures cell { IfOk result (λ cell. cell_of (P.state string_pool.old).pool (datum_of value)
            ≡ Some cell) }
        ensures counted { OnOk result (P.state string_pool.new
            ≡ with_value (P.state string_pool.old) (datum_of value)) }
        ensures full_only_if { IsErrOf result InvalidInput
            ↔ (cell_of (P.state string_pool.old).pool (datum_of value) ≡ None) }
        ensures errors { IfErr result (λ e. (e ≡ Memory) ⊎ (e ≡ InvalidInput)) }
        ensures after_error { OnErr result (P.state string_pool.new ≡ P.state string_pool.old) }
        ensures under { P.under string_pool.new ≡ P.under string_pool.old }
    {
        match value {
            Value::Null => Ok(ValueRef::Null),
            Value::Int(number) => Ok(ValueRef::Int(number)),
            Value::Str(text) => Ok(ValueRef::Str(string_pool.incref(text)?)),
            Value::Binary => Ok(ValueRef::Binary),
        }
    }

    /// Takes the use of the cell's text back. InvalidData where its place has no use; then, and after Memory,
    /// the pool or its draft is unchanged.
    pub fn remove<P: CountsUses>(self, string_pool: &mut P) -> Result<(), Error>
        ensures ok { OnOk result (P.state string_pool.new
            ≡ without_value (P.state string_pool.old) self) }
        ensures unused { IsErrOf result InvalidData
            ↔ (is_counted (P.state string_pool.old).pool self ≡ false) }
        ensures errors { IfErr result (λ e. (e ≡ Memory) ⊎ (e ≡ InvalidData)) }
        ensures after_error { OnErr result (P.state string_pool.new ≡ P.state string_pool.old) }
        ensures under { P.under string_pool.new ≡ P.under string_pool.old }
    {
        match self {
            ValueRef::Str(string_ref) => string_pool.decref(string_ref),
            ValueRef::Null | ValueRef::Int(_) | ValueRef::Binary => Ok(()),
        }
    }

    /// The value of the cell, whose text stands in the pool.
    pub fn as_borrowed(self, string_pool: &StringPool) -> BorrowedValue<'_>
        ensures { borrowed_datum result ≡ value_at string_pool.now.pool self }
    {
        match self {
            ValueRef::Null => BorrowedValue::Null,
            ValueRef::Int(number) => BorrowedValue::Int(number),
            ValueRef::Str(string_ref) => BorrowedValue::Str(string_pool.get(string_ref)),
            ValueRef::Binary => BorrowedValue::Binary,
        }
    }

    /// The value of the cell. The one error is Memory.
    pub fn to_value(self, alloc: Global, string_pool: &StringPool) -> Result<Value, Error>
        ensures value { IfOk result (λ value. datum_of value ≡ value_at string_pool.now.pool self) }
        ensures errors { IfErr result (λ e. e ≡ Memory) }
    {
        match self {
            ValueRef::Null => Ok(Value::Null),
            ValueRef::Int(number) => Ok(Value::Int(number)),
            ValueRef::Str(string_ref) => Value::text(alloc, string_pool.get(string_ref)),
            ValueRef::Binary => Ok(Value::Binary),
        }
    }
}
