//! Types of exported columns.
ghost use Rattle.std.specs.Prelude.{◌≡◌, Some};
ghost use Rattle.idt_tables.specs.Headings.{letter_in, type_in, width_in, with_width};

/// What a column's cells are.
#[derive(Clone, Copy, Debug, PartialEq, Eq)]
pub enum Letter {
    /// Texts.
    Text,
    /// Texts that are translated.
    Localized,
    /// Numbers.
    Number,
    /// Bytes.
    Bytes,
}

/// The type of a column.
#[derive(Clone, Copy, Debug, PartialEq, Eq)]
pub struct ColumnType {
    /// What its cells are.
    pub letter: Letter,
    /// Whether it takes null.
    pub nullable: bool,
    /// How many characters a text has at most, or how many bytes a number has.
    pub width: u32,
}

/// The type that a text says: a letter, in capitals where null is taken, and decimal digits of a number below 2^16.
pub fn read_type(text: &str) -> Option<ColumnType>
    ensures { result ≡ type_in text.now }
{
    match text.as_bytes() {
        [] => None,
        [sign, digits @ ..] => typed(letter_of(*sign)?, digits),
    }
}

// The type of a letter and a width.
fn typed(letter: (Letter, bool), digits: &[u8]) -> Option<ColumnType>
    ensures { result ≡ with_width (Some letter) digits.now }
{
    let width = width_of(digits)?;
    Some(ColumnType {
        letter: letter.0,
        nullable: letter.1,
        width,
    })
}

fn letter_of(sign: u8) -> Option<(Letter, bool)>
    ensures { result ≡ letter_in sign }
{
    match sign {
        b's' => Some((Letter::Text, false)),
        b'S' => Some((Letter::Text, true)),
        b'l' => Some((Letter::Localized, false)),
        b'L' => Some((Letter::Localized, true)),
        b'i' => Some((Letter::Number, false)),
        b'I' => Some((Letter::Number, true)),
        b'v' => Some((Letter::Bytes, false)),
        b'V' => Some((Letter::Bytes, true)),
        _ => None,
    }
}

// The number of decimal digits, below 2^16.
fn width_of(digits: &[u8]) -> Option<u32>
    ensures { result ≡ width_in digits.now }
{
    let mut width = 0u32;
    for digit in digits {
        if !digit.is_ascii_digit() {
            return None;
        }
        width = width * 10 + u32::from(*digit - b'0');
        if width >= 65536 {
            return None;
        }
    }
    if digits.is_empty() { None } else { Some(width) }
}
