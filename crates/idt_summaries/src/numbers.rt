//! Whole numbers as texts have them.
ghost use Rattle.std.specs.Prelude.{◌≡◌};
ghost use Rattle.idt_summaries.specs.Numbers.{whole_in};

/// The whole number of 32 bits that a text says.
pub fn whole_of(text: &str) -> Option<i32>
    ensures { result ≡ whole_in 31 text.now }
{
    match text.parse::<i32>() {
        Ok(number) => Some(number),
        Err(_) => None,
    }
}

/// The same of 16 bits.
pub(crate) fn short_of(text: &str) -> Option<i16>
    ensures { result ≡ whole_in 15 text.now }
{
    match text.parse::<i16>() {
        Ok(number) => Some(number),
        Err(_) => None,
    }
}

/// The same of eight bits.
pub(crate) fn tiny_of(text: &str) -> Option<i8>
    ensures { result ≡ whole_in 7 text.now }
{
    match text.parse::<i8>() {
        Ok(number) => Some(number),
        Err(_) => None,
    }
}
