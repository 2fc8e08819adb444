//! Whether a property set is read as it is written.
ghost use Rattle.std.specs.Prelude.{◌≡◌, ◌↔◌, ◌+◌, ◌*◌, ◌<◌, ◌^◌, IsTrue, length, map, option_map};
ghost use Rattle.std.specs.List.{AllByRecursion};
ghost use Rattle.msi_props.specs.Held.{pair_in, property_in};
ghost use Rattle.msi_props.specs.Kept.{IsKeptValue, Rise, SetIsWritable, TellsPage};
ghost use Rattle.msi_props.specs.Props.{is_in_size, property_bytes};

use crate::propset::{PROPERTY_CODEPAGE, PropertySet, page_in};
use crate::value::PropertyValue;
use cfb_medium::Timestamp;
use msi_texts::CodePage;

// The most bytes that a set may take: the greatest multiple of four below 2^32 - 1.
const MOST_BYTES: u64 = 0xFFFF_FFFC;

impl PropertySet {
    /// Whether it is read as it is, once it is written: its numbers rise, each text fits the page, which property 1 tells, and it takes
    /// fewer than 2^32 - 1 bytes. It takes no memory, and time for each character.
    pub fn is_writable(&self) -> bool
        ensures { IsTrue result ↔ SetIsWritable self.now.props }
    {
        // (of a number that was read it is known that it has its size)
        let _version = self.system_version();
        is_in_size(self)
            && do_rise(self.properties())
            && are_kept(self.codepage(), self.properties())
            && tells_page(self.codepage(), self.get(PROPERTY_CODEPAGE))
    }
}

// Whether a value of property 1, or none, tells the page.
fn tells_page(codepage: CodePage, value: Option<&PropertyValue>) -> bool
    ensures { IsTrue result ↔ TellsPage codepage (option_map (λ v. property_in v.now) value.entry) }
{
    match value {
        Some(value) => page_in(value) == Some(codepage),
        None => codepage == CodePage::Utf8,
    }
}

// Whether each number is below those behind it.
fn do_rise(values: &[(u32, PropertyValue)]) -> bool
    ensures { IsTrue result
        ↔ (Rise (map pair_in values.now)
        × AllByRecursion (λ v. v.0 < 2 ^ 32) (map pair_in values.now)) }
{
    let mut least: u64 = 0;
    for value in values {
        let number = u64::from(value.0);
        if number < least {
            return false;
        }
        least = number + 1;
    }
    true
}

// Whether each value is read as it is written under the page.
fn are_kept(codepage: CodePage, values: &[(u32, PropertyValue)]) -> bool
    ensures { IsTrue result
        ↔ AllByRecursion (λ v. IsKeptValue codepage v.1) (map pair_in values.now) }
{
    for value in values {
        if !is_kept(codepage, &value.1) {
            return false;
        }
    }
    true
}

// Whether a value is. (Of a number that was read it is known that it has its size.)
fn is_kept(codepage: CodePage, value: &PropertyValue) -> bool
    ensures { IsTrue result ↔ IsKeptValue codepage (property_in value.now) }
{
    match value {
        PropertyValue::Empty | PropertyValue::Null => true,
        PropertyValue::I1(number) => {
            let _number = *number;
            true
        }
        PropertyValue::I2(number) => {
            let _number = *number;
            true
        }
        PropertyValue::I4(number) => {
            let _number = *number;
            true
        }
        PropertyValue::LpStr(text) => codepage.fits(text),
        PropertyValue::FileTime(moment) => *moment <= Timestamp::from_unix(i64::MAX, 0),
    }
}

// Whether a set takes fewer than 2^32 - 1 bytes: its head and its section's take 56, and each value a multiple of four.
fn is_in_size(set: &PropertySet) -> bool
    ensures exact { result ≡ is_in_size set.now.props }
    ensures class { length set.now.props.class ≡ 16 }
    ensures format { length set.now.props.format ≡ 16 }
{
    let front = len_of(set.class()) + len_of(set.format_identifier()) + 24;
    let codepage = set.codepage();
    let values = set.properties();
    let mut left = (MOST_BYTES - front as u64) / 4;
    for value in values {
        let words = words_of(codepage, &value.1);
        if left < words {
            return false;
        }
        left -= words;
    }
    true
}

// The number of bytes of an identifier.
fn len_of(identifier: &[u8; 16]) -> usize
    ensures value { result ≡ 16 }
    ensures length { length identifier.now ≡ 16 }
{
    identifier.len()
}

// How many words of four bytes a value takes, with its number and offset.
fn words_of(codepage: CodePage, value: &PropertyValue) -> u64
    ensures { 4 * result ≡ 8 + length (property_bytes codepage (property_in value.now)) }
{
    match value {
        PropertyValue::Empty | PropertyValue::Null => 3,
        PropertyValue::I1(_) | PropertyValue::I2(_) | PropertyValue::I4(_) => 4,
        PropertyValue::LpStr(text) => codepage.encoded_len(text) as u64 / 4 + 5,
        PropertyValue::FileTime(_) => 5,
    }
}
