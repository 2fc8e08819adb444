//! Property sets in memory.
ghost use Rattle.std.specs.Prelude.{◌++◌, IsTrue, false, ◌≡◌, ◌⊎◌, ◌<◌, ◌≤◌, ℕ, length, map, find, ◌==◌, true, IfErr, IfOk, MatchResult, Ok, Err, OnErr, OnOk, Some, None, option_map, slice_index};
ghost use Rattle.std.specs.List.{list_all};
ghost use Rattle.msi_texts.specs.Results.{ReturnsOrOutOfMemory};
ghost use Rattle.msi_props.specs.Held.{pair_in, pair_stored, property_in, stored_in};
ghost use Rattle.msi_props.specs.Props.{property_round_trips, is_in_size, new_props, props_bytes, page_at, page_in, page_stored, property_named, property_put, property_removed, props_read, texts_give_back, under, with_page, with_property, without_property};
ghost use Rattle.cfb_medium.specs.declared.error.Error.TheVariants.{InvalidInput, Memory};

use crate::head::{Head, read_head};
use crate::stored::{StoredValue, behind, read_section, read_stored, read_values};
use crate::system::OperatingSystem;
use crate::value::PropertyValue;
use crate::values::{find_value, put_value, remove_value};
use crate::writing::set_bytes;
use cfb_medium::Error;
use msi_texts::CodePage;
use std::alloc::Global;
use std::marker::Model;

// The number of the property that tells the page.
pub(crate) const PROPERTY_CODEPAGE: u32 = 1;

/// A property set: values by their numbers, under a code page for texts, with what its file says of the system that wrote it.
#[derive(Drop)]
pub struct PropertySet {
    alloc: Global,
    system: OperatingSystem,
    system_version: u16,
    class: [u8; 16],
    sections: u32,
    format: [u8; 16],
    codepage: CodePage,
    values: Vec<(u32, PropertyValue)>,
    texts_give_back: bool,
}

impl Model for PropertySet {
    ghost use Rattle.msi_props.specs.Held.{SetState, pair_in};
    ghost use Rattle.std.specs.Prelude.{map};

    ghost Value = { SetState };

    ghost view = { λ s. record {
      props = record { system = s.system; system_version = s.system_version; class = s.class; sections = s.sections; format = s.format; page = s.codepage; values = map pair_in s.values.items };
      whole = s.texts_give_back;
    } };
}

// The offset of property 1.
fn page_offset(pairs: &[(u32, u32)]) -> Option<u32>
    ensures { result ≡ option_map (λ p. p.1) (find (λ p. p.0 == 1) pairs.now) }
{
    for (number, offset) in pairs {
        if *number == PROPERTY_CODEPAGE {
            return Some(*offset);
        }
    }
    None
}

// The page that stands at the front of the bytes, as the value of property 1. InvalidData where none does.
fn read_page(bytes: &[u8]) -> Result<CodePage, Error>
    ensures { MatchResult result (λ p. page_stored bytes.now ≡ Ok p)
        (λ e. page_stored bytes.now ≡ Err e) }
{
    match read_stored(bytes)? {
        StoredValue::I2(number) => {
            let id = i32::from(number.cast_unsigned());
            CodePage::from_id(id).ok_or(Error::InvalidData)
        }
        _ => Err(Error::InvalidData),
    }
}

// The page of a section; UTF-8 where it has no property 1.
fn page_of(section: &[u8], pairs: &[(u32, u32)]) -> Result<CodePage, Error>
    ensures { MatchResult result (λ p. page_at section.now pairs.now ≡ Ok p)
        (λ e. page_at section.now pairs.now ≡ Err e) }
{
    match page_offset(pairs) {
        None => Ok(CodePage::Utf8),
        Some(offset) => read_page(behind(section, offset)),
    }
}

// A value as it reads under a page.
fn value_under(
    alloc: Global,
    codepage: CodePage,
    value: &StoredValue<'_>,
) -> Result<PropertyValue, Error>
    ensures ok { IfOk result (λ v. property_in v ≡ under codepage (stored_in value.now)) }
    ensures errors { IfErr result (λ e. e ≡ Memory) }
{
    Ok(match value {
        StoredValue::Empty => PropertyValue::Empty,
        StoredValue::Null => PropertyValue::Null,
        StoredValue::I1(number) => PropertyValue::I1(*number),
        StoredValue::I2(number) => PropertyValue::I2(*number),
        StoredValue::I4(number) => PropertyValue::I4(*number),
        StoredValue::Text(bytes) => PropertyValue::LpStr(codepage.decode(alloc, bytes)?),
        StoredValue::FileTime(moment) => PropertyValue::FileTime(*moment),
    })
}

// The values as they read under a page.
fn values_under(
    alloc: Global,
    codepage: CodePage,
    stored: &[(u32, StoredValue<'_>)],
) -> Result<Vec<(u32, PropertyValue)>, Error>
    ensures ok { IfOk result (λ values. map pair_in values.items
        ≡ map (λ v. (v.0, under codepage v.1)) (map pair_stored stored.now)) }
    ensures errors { IfErr result (λ e. e ≡ Memory) }
{
    let mut values = Vec::new(alloc);
    for (number, value) in stored {
        values.push((*number, value_under(alloc, codepage, value)?))?;
    }
    Ok(values)
}

// Whether a value that is a text is written as the bytes that it was read from.
fn gives_back(alloc: Global, codepage: CodePage, value: &StoredValue<'_>) -> Result<bool, Error>
    ensures ok { IfOk result (λ b. b ≡ property_round_trips codepage (stored_in value.now)) }
    ensures errors { IfErr result (λ e. e ≡ Memory) }
{
    match value {
        StoredValue::Text(bytes) => {
            let text = codepage.decode(alloc, bytes)?;
            let again = codepage.encode(alloc, &text)?;
            Ok(again.as_slice() == *bytes)
        }
        _ => Ok(true),
    }
}

// Whether each of the values is.
fn all_give_back(
    alloc: Global,
    codepage: CodePage,
    stored: &[(u32, StoredValue<'_>)],
) -> Result<bool, Error>
    ensures ok { IfOk result (λ b. b
        ≡ list_all (λ v. property_round_trips codepage v.1) (map pair_stored stored.now)) }
    ensures errors { IfErr result (λ e. e ≡ Memory) }
{
    for (_, value) in stored {
        if !gives_back(alloc, codepage, value)? {
            return Ok(false);
        }
    }
    Ok(true)
}

impl PropertySet {
    /// A set without values, whose page is UTF-8.
    pub fn new(
        alloc: Global,
        system: OperatingSystem,
        system_version: u16,
        format: [u8; 16],
    ) -> PropertySet
        ensures { result ≡ record { props = new_props system system_version format; whole = true } }
    {
        PropertySet {
            alloc,
            system,
            system_version,
            class: [0; 16],
            sections: 1,
            format,
            codepage: CodePage::Utf8,
            values: Vec::new(alloc),
            texts_give_back: true,
        }
    }

    /// Reads a set: the head, the pairs of number and offset of its first section, property 1, and then the values by rising
    /// number. UnexpectedEof where bytes are missing. InvalidData for another first mark, version, system, or kind of value, for
    /// no section, a number that stands twice, a text without its null, a page that isn't known or isn't a number of two bytes,
    /// and a number of one byte in a set of version 0.
    pub fn read(alloc: Global, bytes: &[u8]) -> Result<PropertySet, Error>
        ensures read { ReturnsOrOutOfMemory (λ set. set.props) result (props_read bytes.now) }
        ensures whole { IfOk result (λ set. set.whole ≡ texts_give_back bytes.now) }
    {
        let head = read_head(bytes)?;
        let section = behind(bytes, head.offset);
        let pairs = read_section(alloc, section)?;
        let codepage = page_of(section, &pairs)?;
        let stored = read_values(alloc, head.version, section, &pairs)?;
        Ok(PropertySet {
            alloc,
            system: head.system,
            system_version: head.system_version,
            class: head.class,
            sections: head.sections,
            format: head.format,
            codepage,
            values: values_under(alloc, codepage, &stored)?,
            texts_give_back: all_give_back(alloc, codepage, &stored)?,
        })
    }

    /// Appends the set, as one section, with its values by rising number. InvalidInput where it would take 2^32 - 1 bytes or more.
    /// After an error, which may also be Memory, nothing is appended.
    pub fn write(&self, writer: &mut Vec<u8>) -> Result<(), Error>
        ensures ok { OnOk result (IsTrue (is_in_size self.now.props)
            × (writer.new.items ≡ writer.old.items ++ props_bytes self.now.props)) }
        ensures after_error { IfErr result (λ e. (writer.new.items ≡ writer.old.items)
            × ((e ≡ Memory) ⊎ ((e ≡ InvalidInput) × (is_in_size self.now.props ≡ false)))) }
    {
        let bytes = set_bytes(self.alloc, self)?;
        if u64::from(u32::MAX) <= bytes.len() as u64 {
            return Err(Error::InvalidInput);
        }
        writer.extend_from_slice(&bytes)?;
        Ok(())
    }

    /// The identifier of what its properties stand for.
    pub fn format_identifier(&self) -> &[u8; 16]
        ensures { result.now ≡ self.now.props.format }
    {
        &self.format
    }

    // The number of the system's version.
    pub(crate) fn system_version(&self) -> u16
        ensures { result ≡ self.now.props.system_version }
    {
        self.system_version
    }

    // The system that wrote it.
    pub(crate) fn system(&self) -> OperatingSystem
        ensures { result ≡ self.now.props.system }
    {
        self.system
    }

    // Its class identifier, which nothing reads.
    pub(crate) fn class(&self) -> &[u8; 16]
        ensures { result.now ≡ self.now.props.class }
    {
        &self.class
    }

    /// How many sections the file has that it was read from; the first is read, and a set is written as one.
    pub fn num_sections(&self) -> u32
        ensures { result ≡ self.now.props.sections }
    {
        self.sections
    }

    /// Whether each of its texts, as it was read, is written as the bytes that it was read from. True of a new set.
    pub fn texts_give_back(&self) -> bool
        ensures { result ≡ self.now.whole }
    {
        self.texts_give_back
    }

    /// The code page of its texts.
    pub fn codepage(&self) -> CodePage
        ensures { result ≡ self.now.props.page }
    {
        self.codepage
    }

    /// The values with their numbers, which rise.
    pub fn properties(&self) -> &[(u32, PropertyValue)]
        ensures { map pair_in result.now ≡ self.now.props.values }
    {
        &self.values
    }

    /// The value of a number.
    pub fn get(&self, number: u32) -> Option<&PropertyValue>
        ensures { option_map (λ v. property_in v.now) result
            ≡ property_named number self.now.props }
    {
        find_value(&self.values, number)
    }

    /// Removes the value of a number, if there is one. Without property 1 the page is UTF-8.
    pub fn remove(&mut self, number: u32)
        ensures { self.new ≡ record self.old { props = without_property number self.old.props } }
    {
        remove_value(&mut self.values, number);
        if number == PROPERTY_CODEPAGE {
            self.codepage = CodePage::Utf8;
        }
    }

    /// Sets the value of a number. Property 1 is the page, which changes with it: InvalidInput unless the value is a number of two
    /// bytes that is a known page's. After an error, which may also be Memory, nothing changed.
    pub fn set(&mut self, number: u32, value: PropertyValue) -> Result<(), Error>
        ensures ok { OnOk result (Some self.new.props
            ≡ with_property number (property_in value) self.old.props) }
        ensures whole { self.new.whole ≡ self.old.whole }
        ensures after_error { IfErr result (λ e. self.new ≡ self.old
            × ((e ≡ Memory) ⊎ ((e ≡ InvalidInput)
            × (with_property number (property_in value) self.old.props ≡ None)))) }
    {
        if number != PROPERTY_CODEPAGE {
            return put_value(&mut self.values, number, value);
        }
        let codepage = page_in(&value).ok_or(Error::InvalidInput)?;
        put_value(&mut self.values, number, value)?;
        self.codepage = codepage;
        Ok(())
    }

    /// Sets the page, and property 1 with it. Texts stay as they are. After Memory nothing changed.
    pub fn set_codepage(&mut self, codepage: CodePage) -> Result<(), Error>
        ensures ok { OnOk result (self.new
            ≡ record self.old { props = with_page codepage self.old.props }) }
        ensures errors { IfErr result (λ e. (e ≡ Memory) × (self.new ≡ self.old)) }
    {
        let number = codepage.id() as u16;
        let told = PropertyValue::I2(number.cast_signed());
        put_value(&mut self.values, PROPERTY_CODEPAGE, told)?;
        self.codepage = codepage;
        Ok(())
    }
}

// The page that a value of property 1 tells.
pub(crate) fn page_in(value: &PropertyValue) -> Option<CodePage>
    ensures { result ≡ page_in (property_in value.now) }
{
    match value {
        PropertyValue::I2(number) => CodePage::from_id(i32::from(number.cast_unsigned())),
        _ => None,
    }
}
