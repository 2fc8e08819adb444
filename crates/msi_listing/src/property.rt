//! Properties of a summary.

/// The value of a property of a summary.
#[derive(Debug, PartialEq, Eq, Drop)]
pub enum Property {
    /// No value.
    Empty,
    /// A null.
    Null,
    /// A number of one byte.
    I1(i8),
    /// A number of two bytes.
    I2(i16),
    /// A number of four bytes.
    I4(i32),
    /// A text.
    Text(String),
    /// A moment: the tenths of a microsecond since 1601.
    Time(u64),
}
