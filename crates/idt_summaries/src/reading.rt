//! Properties of the summary, read from a row.
ghost use Rattle.std.specs.Prelude.{◌≡◌, option_map, IfOk};
ghost use Rattle.msi_props.specs.Held.{property_in};
ghost use Rattle.idt_summaries.specs.Reading.{plain_value, value_in};

use crate::moments::moment_of;
use crate::numbers::whole_of;
use crate::pages::page_of;
use msi_props::PropertyValue;
use std::alloc::{AllocError, Global};

/// The value that a text says as the property of a number: 2 to 9 and 18 are texts, 1 is a code page that is known, 10 to 13 are moments, and
/// 14 to 16 and 19 whole numbers. None for another number, and for a text that says no such value. The one error is want of memory.
pub fn value_in(alloc: Global, number: u32, text: &str) -> Result<Option<PropertyValue>, AllocError>
    ensures { IfOk result (λ value. option_map property_in value ≡ value_in number text.now) }
{
    match number {
        2..=9 | 18 => Ok(Some(PropertyValue::LpStr(String::from_str(alloc, text)?))),
        _ => Ok(plain_value(number, text)),
    }
}

// The value of a property which is no text.
fn plain_value(number: u32, text: &str) -> Option<PropertyValue>
    ensures { option_map property_in result ≡ plain_value number text.now }
{
    match number {
        1 => Some(PropertyValue::I2(page_of(text)?)),
        10..=13 => Some(PropertyValue::FileTime(moment_of(text)?)),
        14..=16 | 19 => Some(PropertyValue::I4(whole_of(text)?)),
        _ => None,
    }
}
