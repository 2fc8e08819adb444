//! How a cell is read and written.
ghost use Rattle.std.specs.Prelude.{◌≡◌, ◌↔◌, ◌≤◌, ◌<◌, ◌^◌, ◌*◌, length, take, drop, Some, None, OnOk, OnErr, IfOk, IfErr, IsOk, IsErrOf};
ghost use Rattle.msi_texts.specs.Numbers.{le_bytes, le_number};
ghost use Rattle.msi_columns.specs.Cell.{width_of, cell_value, cell_number, above, AppendsCell, IsInvalidInputOrMemory};
ghost use Rattle.cfb_medium.specs.declared.error.Error.TheVariants.{InvalidInput, UnexpectedEof};

use crate::ColumnType;
use cfb_medium::Error;
use msi_pool::{StringRef, ValueRef};

impl ColumnType {
    /// How many bytes a cell takes: 2, or 4 for a 32-bit integer, or 3 for a string with `long_string_refs`.
    pub fn width(&self, long_string_refs: bool) -> u64
        ensures value { result ≡ width_of long_string_refs self.now }
        ensures above { 2 ≤ result }
        ensures below { result ≤ 4 }
    {
        match *self {
            ColumnType::Int16 | ColumnType::Binary => 2,
            ColumnType::Int32 => 4,
            ColumnType::Str(_) => { if long_string_refs { 3 } else { 2 } }
        }
    }

    /// The cell at the front of the bytes, which are taken off: 0 is null, a number has its top bit flipped, a string is
    /// its place in the pool. UnexpectedEof where bytes are missing; then none is taken off.
    pub fn read_value(&self, bytes: &mut &[u8], long_string_refs: bool) -> Result<ValueRef, Error>
        ensures ok { IsOk result ↔ (width_of long_string_refs self.now ≤ length bytes.old.now) }
        ensures value { IfOk result (λ v. v
            ≡ cell_value self.now (le_number (take (width_of long_string_refs self.now)
            bytes.old.now))) }
        ensures rest { OnOk result (bytes.new.now
            ≡ drop (width_of long_string_refs self.now) bytes.old.now) }
        ensures errors { IfErr result (λ e. e ≡ UnexpectedEof) }
        ensures unchanged { OnErr result (bytes.new.now ≡ bytes.old.now) }
    {
        let width = self.width(long_string_refs) as usize;
        if bytes.len() < width {
            return Err(Error::UnexpectedEof);
        }
        let (cell, rest) = bytes.split_at(width);
        *bytes = rest;
        Ok(self.value_of(number_of(cell), long_string_refs))
    }

    /// The cell that these bytes hold, as many as it takes.
    pub fn cell_of(&self, bytes: &[u8], long_string_refs: bool) -> ValueRef
        requires { length bytes.now ≡ width_of long_string_refs self.now }
        ensures { result ≡ cell_value self.now (le_number bytes.now) }
    {
        self.value_of(number_of(bytes), long_string_refs)
    }

    fn value_of(&self, number: u32, long_string_refs: bool) -> ValueRef
        requires { number < 256 ^ width_of long_string_refs self.now }
        ensures { result ≡ cell_value self.now number }
    {
        match *self {
            ColumnType::Int16 => number_above(0x8000, number),
            ColumnType::Int32 => number_above(0x8000_0000, number),
            ColumnType::Str(_) => {
                if number == 0 {
                    ValueRef::Null
                } else {
                    ValueRef::Str(StringRef::new(number))
                }
            }
            ColumnType::Binary => ValueRef::Binary,
        }
    }

    // The number that a cell is written as.
    fn number_of(&self, value: ValueRef, long_string_refs: bool) -> Option<u32>
        ensures { result ≡ cell_number long_string_refs self.now value }
    {
        match (*self, value) {
            (ColumnType::Int16 | ColumnType::Int32 | ColumnType::Str(_), ValueRef::Null) => Some(0),
            (ColumnType::Int16, ValueRef::Int(number)) => {
                if -0x8000 < number && number < 0x8000 {
                    Some((i64::from(number) + 0x8000) as u32)
                } else {
                    None
                }
            }
            (ColumnType::Int32, ValueRef::Int(number)) => {
                if number == i32::MIN {
                    None
                } else {
                    Some((i64::from(number) + 0x8000_0000) as u32)
                }
            }
            (ColumnType::Str(_), ValueRef::Str(place)) => {
                let number = place.number();
                if long_string_refs || number < 0x1_0000 {
                    Some(number)
                } else {
                    None
                }
            }
            (ColumnType::Binary, ValueRef::Binary) => Some(1),
            _ => None,
        }
    }

    /// Appends a cell. InvalidInput for a value of another kind, null in a binary column, the least number of the type,
    /// and a place past 65535 in two bytes; then, and after Memory, nothing is appended.
    pub fn write_value(
        &self,
        out: &mut Vec<u8>,
        value: ValueRef,
        long_string_refs: bool,
    ) -> Result<(), Error>
        ensures ok { OnOk result (AppendsCell out.old.items out.new.items long_string_refs self.now
            value) }
        ensures refused_only_if { IsErrOf result InvalidInput
            ↔ (cell_number long_string_refs self.now value ≡ None) }
        ensures errors { IfErr result IsInvalidInputOrMemory }
        ensures after_error { OnErr result (out.new.items ≡ out.old.items) }
    {
        let Some(number) = self.number_of(value, long_string_refs) else {
            return Err(Error::InvalidInput);
        };
        let width = self.width(long_string_refs) as usize;
        let bytes = bytes_of(number);
        out.extend_from_slice(&bytes[..width])?;
        Ok(())
    }
}

// The number that two to four bytes spell, the lowest first.
fn number_of(bytes: &[u8]) -> u32
    requires { length bytes.now ≤ 4 }
    ensures value { result ≡ le_number bytes.now }
    ensures two { length bytes.now ≡ 2 → result < 256 ^ 2 }
    ensures three { length bytes.now ≡ 3 → result < 256 ^ 3 }
    ensures four { length bytes.now ≡ 4 → result < 256 ^ 4 }
{
    match bytes {
        [] => 0,
        [a] => u32::from(*a),
        [a, b] => u32::from(*a) + 256 * u32::from(*b),
        [a, b, c] => u32::from(*a) + 256 * (u32::from(*b) + 256 * u32::from(*c)),
        [a, b, c, d, ..] => {
            u32::from(*a) + 256 * (u32::from(*b) + 256 * (u32::from(*c) + 256 * u32::from(*d)))
        }
    }
}

// The four bytes of a number, the lowest first.
fn bytes_of(number: u32) -> [u8; 4]
    ensures { result ≡ le_bytes 4 number }
{
    [
        (number % 256) as u8,
        (number / 256 % 256) as u8,
        (number / 256 / 256 % 256) as u8,
        (number / 256 / 256 / 256 % 256) as u8,
    ]
}

// What is above half of a range, or null at its lower end.
fn number_above(half: u32, number: u32) -> ValueRef
    requires half { half ≤ 2 ^ 31 }
    requires below { number < 2 * half }
    ensures { result ≡ above half number }
{
    if number == 0 {
        ValueRef::Null
    } else if number < half {
        ValueRef::Int(-((half - number) as i64) as i32)
    } else {
        ValueRef::Int((number - half) as i32)
    }
}
