//! What a cell of a table holds.
ghost use Rattle.std.specs.Prelude.{◌≡◌, ℕ, IfOk, IfErr, Some, true, IsTrue, ◌↔◌, string_bytes, pos, map, is_some, ◌++◌, ◌∷◌, OnOk, if◌then◌else◌, nat_lt, None};
ghost use Rattle.std.specs.Option.{option_copied};
ghost use Rattle.std.specs.List.{flat_map};
ghost use Rattle.std.specs.Fmt.{styled_text, decimal, styled_signed_decimal};
ghost use Rattle.msi_values.specs.Datum.{null, number, text, datum_of, datum_cmp, datum_text, datum_text_under, counts_as_true, truth, number_in, text_in, with_commas};
ghost use Rattle.uuid.specs.Text.{braced_text, upper};
ghost use Rattle.cfb_medium.specs.declared.error.Error.TheVariants.{Memory};

use cfb_medium::Error;
use msi_texts::LanguageId;
use std::alloc::{AllocError, Global};
use std::cmp::Ordering;
use std::fmt;
use uuid::Uuid;

/// What a cell of a table says.
#[derive(Debug, PartialEq, Eq, Hash, PartialOrd, Ord, Drop)]
pub enum Value {
    /// Nothing.
    Null,
    /// A number.
    Int(i32),
    /// A text.
    Str(String),
    /// A stream of bytes, which stands outside the table.
    Binary,
}

impl Value {
    /// A truth value: 1 or 0.
    pub fn from_bool(boolean: bool) -> Value
        ensures { datum_of result ≡ truth boolean }
    {
        Value::Int(if boolean { 1 } else { 0 })
    }

    /// False for null, zero and the empty text.
    pub fn to_bool(&self) -> bool
        ensures { result ≡ counts_as_true (datum_of self.now) }
    {
        match self {
            Value::Null => false,
            Value::Int(number) => *number != 0,
            Value::Str(text) => !text.is_empty(),
            Value::Binary => true,
        }
    }

    /// Whether it is null.
    pub fn is_null(&self) -> bool
        ensures { IsTrue result ↔ (datum_of self.now ≡ null) }
    {
        matches!(self, Value::Null)
    }

    /// Whether it is a number.
    pub fn is_int(&self) -> bool
        ensures { result ≡ is_some (number_in (datum_of self.now)) }
    {
        matches!(self, Value::Int(_))
    }

    /// The number, if it is one.
    pub fn as_int(&self) -> Option<i32>
        ensures { result ≡ number_in (datum_of self.now) }
    {
        match self {
            Value::Int(number) => Some(*number),
            Value::Null | Value::Str(_) | Value::Binary => None,
        }
    }

    /// Whether it is a text.
    pub fn is_str(&self) -> bool
        ensures { result ≡ is_some (text_in (datum_of self.now)) }
    {
        matches!(self, Value::Str(_))
    }

    /// The text, if it is one.
    pub fn as_str(&self) -> Option<&str>
        ensures { option_copied result ≡ text_in (datum_of self.now) }
    {
        match self {
            Value::Str(words) => Some(words.as_str()),
            Value::Null | Value::Int(_) | Value::Binary => None,
        }
    }

    /// Whether both say the same.
    pub fn is_same(&self, other: &Value) -> bool
        ensures { IsTrue result ↔ (datum_of self.now ≡ datum_of other.now) }
    {
        self == other
    }

    /// The order of values.
    pub fn compare(&self, other: &Value) -> Ordering
        ensures { result ≡ datum_cmp (datum_of self.now) (datum_of other.now) }
    {
        self.cmp(other)
    }

    /// A copy of its own. The one error is Memory.
    pub fn clone(&self, alloc: Global) -> Result<Value, Error>
        ensures value { IfOk result (λ v. datum_of v ≡ datum_of self.now) }
        ensures errors { IfErr result (λ e. e ≡ Memory) }
    {
        match self {
            Value::Null => Ok(Value::Null),
            Value::Int(n) => Ok(Value::Int(*n)),
            Value::Str(words) => Value::text(alloc, words.as_str()),
            Value::Binary => Ok(Value::Binary),
        }
    }

    /// A text. The one error is Memory.
    pub fn text(alloc: Global, words: &str) -> Result<Value, Error>
        ensures value { IfOk result (λ v. datum_of v ≡ text words.now) }
        ensures errors { IfErr result (λ e. e ≡ Memory) }
    {
        Ok(Value::Str(String::from_str(alloc, words)?))
    }

    /// A text: a language's identifier in decimal digits. The one error is Memory.
    pub fn language(alloc: Global, language: LanguageId) -> Result<Value, Error>
        ensures value { IfOk result (λ v. datum_of v ≡ text (decimal language)) }
        ensures errors { IfErr result (λ e. e ≡ Memory) }
    {
        Ok(Value::Str(language.to_string(alloc)?))
    }

    /// A text: the languages' identifiers in decimal digits, with a comma between each two. The one error
    /// is Memory.
    pub fn languages(alloc: Global, languages: &[LanguageId]) -> Result<Value, Error>
        ensures value { IfOk result (λ v. datum_of v
            ≡ text (with_commas (map decimal languages.now))) }
        ensures errors { IfErr result (λ e. e ≡ Memory) }
    {
        let Some((first, others)) = languages.split_first() else {
            return Value::text(alloc, "");
        };
        let mut words = first.to_string(alloc)?;
        push_others(&mut words, others)?;
        Ok(Value::Str(words))
    }

    /// A text: the identifier, hyphenated and in upper case, in braces. The one error is Memory.
    pub fn guid(alloc: Global, uuid: Uuid) -> Result<Value, Error>
        ensures value { IfOk result (λ v. datum_of v ≡ text (braced_text upper uuid)) }
        ensures errors { IfErr result (λ e. e ≡ Memory) }
    {
        let mut buffer = [0; 38];
        Value::text(alloc, uuid.braced().encode_upper(&mut buffer))
    }
}

// Appends each language's identifier behind a comma.
fn push_others(words: &mut String, languages: &[LanguageId]) -> Result<(), AllocError>
    ensures { OnOk result (string_bytes words.new
        ≡ string_bytes words.old ++ flat_map (λ l. 44 ∷ decimal l) languages.now) }
{
    for language in languages {
        write!(words, ",{language}")?;
    }
    Ok(())
}

impl From<bool> for Value {
    ghost from_gives = { λ boolean v. datum_of v ≡ truth boolean };

    fn from(boolean: bool) -> Value {
        Value::from_bool(boolean)
    }
}

impl From<i16> for Value {
    ghost from_gives = { λ small v. datum_of v ≡ number small };

    fn from(small: i16) -> Value {
        Value::Int(i32::from(small))
    }
}

impl From<i32> for Value {
    ghost from_gives = { λ integer v. datum_of v ≡ number integer };

    fn from(integer: i32) -> Value {
        Value::Int(integer)
    }
}

impl From<u16> for Value {
    ghost from_gives = { λ unsigned v. datum_of v ≡ number (pos unsigned) };

    fn from(unsigned: u16) -> Value {
        Value::Int(i32::from(unsigned))
    }
}

impl From<String> for Value {
    ghost from_gives = { λ string v. datum_of v ≡ text (string_bytes string) };

    fn from(string: String) -> Value {
        Value::Str(string)
    }
}

impl fmt::Display for Value {
    ghost output = { λ v. datum_text (datum_of v) };

    // a quoted text is laid out as each hole can ask: by one of three alignments, or by none
    ghost styled_output = { λ v o. datum_text_under (styled_text o) (λ quoted. if nat_lt o.align 4 then Some (styled_text o quoted) else None) (styled_signed_decimal o) (datum_of v) };

    fn fmt<W: fmt::Write>(&self, f: &mut fmt::Formatter<W>) -> fmt::Result {
        match self {
            Value::Null => f.pad("NULL"),
            Value::Int(n) => fmt::Display::fmt(n, f),
            Value::Str(words) => crate::quoted::write_quoted(words.as_str(), f),
            Value::Binary => f.pad("BINARY_STREAM"),
        }
    }
}
