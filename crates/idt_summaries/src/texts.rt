//! Texts that are cut, and texts of two digits.
ghost use Rattle.std.specs.Prelude.{◌≡◌, ◌<◌, ◌++◌, option_map, string_bytes, OnOk};
ghost use Rattle.idt_summaries.specs.Moments.{cut_at, two};

use std::alloc::AllocError;

/// What stands in front of the first such character, and what stands behind it.
pub(crate) fn cut(text: &str, mark: char) -> Option<(&str, &str)>
    requires { mark < 128 }
    ensures { option_map (λ parts. (parts.0.now, parts.1.now)) result ≡ cut_at mark text.now }
{
    text.split_once(mark)
}

/// Adds the two digits of a number below 100.
pub(crate) fn push_two(text: &mut String, number: u8) -> Result<(), AllocError>
    requires { number < 100 }
    ensures { OnOk result (string_bytes text.new ≡ string_bytes text.old ++ two number) }
{
    text.push(char::from(b'0' + number / 10))?;
    text.push(char::from(b'0' + number % 10))
}
