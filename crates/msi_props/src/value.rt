//! Values of properties.
ghost use Rattle.cfb_medium.specs.declared.error.Error.TheVariants.{Memory};
ghost use Rattle.msi_props.specs.Held.{property_in};
ghost use Rattle.std.specs.Prelude.{◌≡◌, IfErr, IfOk};

use cfb_medium::{Error, Timestamp};
use std::alloc::Global;

/// The value of a property.
#[derive(Debug, PartialEq, Eq, Drop)]
pub enum PropertyValue {
    /// No value.
    Empty,
    /// A null.
    Null,
    /// A number of one byte.
    I1(i8),
    /// A number of two bytes.
    I2(i16),
    /// A number of four bytes.
    I4(i32),
    /// A text, which a file holds under the page of its set.
    LpStr(String),
    /// A moment.
    FileTime(Timestamp),
}

impl PropertyValue {
    /// A copy of its own. The one error is `Memory`.
    pub fn clone(&self, alloc: Global) -> Result<PropertyValue, Error>
        ensures value { IfOk result (λ v. property_in v ≡ property_in self.now) }
        ensures errors { IfErr result (λ e. e ≡ Memory) }
    {
        match self {
            PropertyValue::Empty => Ok(PropertyValue::Empty),
            PropertyValue::Null => Ok(PropertyValue::Null),
            PropertyValue::I1(number) => Ok(PropertyValue::I1(*number)),
            PropertyValue::I2(number) => Ok(PropertyValue::I2(*number)),
            PropertyValue::I4(number) => Ok(PropertyValue::I4(*number)),
            PropertyValue::LpStr(text) => {
                Ok(PropertyValue::LpStr(String::from_str(alloc, text.as_str())?))
            }
            PropertyValue::FileTime(moment) => Ok(PropertyValue::FileTime(*moment)),
        }
    }
}
