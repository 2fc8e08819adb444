//! The summary as the file of a table.
ghost use Rattle.std.specs.Prelude.{◌≡◌, ◌++◌, ◌∷◌, [], List, ℕ, Option, map, option_map, string_bytes, IfErr, IfOk, OnOk};
ghost use Rattle.cfb_medium.specs.declared.error.Error.TheVariants.{Memory};
ghost use Rattle.idt_tables.specs.Lines.{text_of};
ghost use Rattle.msi_props.specs.Held.{pair_in, property_in};
ghost use Rattle.idt_summaries.specs.Writing.{IsCell, IsSummaryFile, IsWritten, is_exported, line_with, lines_with};

use crate::moments::text_of_moment;
use cfb_medium::Error;
use idt_rows::shown_text;
use msi_props::PropertyValue;
use std::alloc::{AllocError, Global};

// What stands above the rows.
const HEADING: &str = "PropertyId\tValue\r\ni2\tl255\r\n_SummaryInformation\tPropertyId\r\n";

// The number of the summary's code page.
const CODEPAGE: u32 = 1;

/// The summary as a table: a line for each property, a moment as `2024/09/05 08:53:20` (UTC). Those that read exports take properties of the
/// numbers 1 to 16, 18 and 19, so no others stand there. The one error is `Memory`.
pub fn summary_text(alloc: Global, properties: &[(u32, PropertyValue)]) -> Result<String, Error>
    ensures ok { IfOk result (λ text.
        IsSummaryFile (map pair_in properties.now) (string_bytes text)) }
    ensures errors { IfErr result (λ e. e ≡ Memory) }
{
    let mut text = String::from_str(alloc, HEADING)?;
    for (number, value) in properties {
        push_property(alloc, &mut text, *number, value)?;
    }
    Ok(text)
}

/// Whether those that read exports take a property of this number.
pub fn is_exported(number: u32) -> bool
    ensures { result ≡ is_exported number }
{
    matches!(number, 1..=16 | 18 | 19)
}

// Adds the line of a property, where it has a value.
fn push_property(
    alloc: Global,
    text: &mut String,
    number: u32,
    value: &PropertyValue,
) -> Result<(), AllocError>
    ensures { OnOk result ((cell : Option (List ℕ)) × IsWritten number (property_in value.now) cell
        × (string_bytes text.new ≡ string_bytes text.old ++ text_of (lines_with number cell))) }
{
    if !is_exported(number) {
        return Ok(());
    }
    match value_text(alloc, number, value)? {
        Some(cell) => push_line(alloc, text, number, &cell),
        None => Ok(()),
    }
}

fn push_line(alloc: Global, text: &mut String, number: u32, cell: &str) -> Result<(), AllocError>
    ensures { OnOk result (string_bytes text.new
        ≡ string_bytes text.old ++ text_of (line_with number cell.now ∷ [])) }
{
    text.push_str(&format!(in alloc; "{number}\t{cell}\r\n")?)
}

// A property's value; none where it has none, or a moment past the year 9999.
fn value_text(
    alloc: Global,
    number: u32,
    value: &PropertyValue,
) -> Result<Option<String>, AllocError>
    ensures { IfOk result (λ cell.
        IsCell number (property_in value.now) (option_map string_bytes cell)) }
{
    Ok(match value {
        PropertyValue::I2(page) if number == CODEPAGE => {
            Some(page.cast_unsigned().to_string(alloc)?)
        }
        PropertyValue::I1(it) => Some(it.to_string(alloc)?),
        PropertyValue::I2(it) => Some(it.to_string(alloc)?),
        PropertyValue::I4(it) => Some(it.to_string(alloc)?),
        PropertyValue::LpStr(words) => Some(shown_text(alloc, words)?),
        PropertyValue::FileTime(moment) => text_of_moment(alloc, *moment)?,
        PropertyValue::Empty | PropertyValue::Null => None,
    })
}
