//! Properties of a product that aren't what they must be.
ghost use Rattle.std.specs.Prelude.{◌≡◌, ◌&&◌, ◌||◌, ◌==◌, not, IfOk, bytes_eq, codes};
ghost use Rattle.std.specs.List.{list_any};
ghost use Rattle.std.specs.Option.{option_copied};
ghost use Rattle.msi_listing.specs.HeldCell.{cell_of};
ghost use Rattle.msi_listing.specs.HeldProperty.{property_of};
ghost use Rattle.package_rules.specs.Cells.{cell_at};
ghost use Rattle.package_rules.specs.Said.{words_in};
ghost use Rattle.product_rules.specs.Products.{has_misgiven, is_misgiven, is_misgiven_text, is_misgiven_property, is_template, misgiven_found, summary_found};

use crate::texts::{is_guid, is_version, languages_in, reads_u16};
use msi_listing::{Cell, Column, Listing, Property, Row, Table};
use msi_texts::Category;
use package_rules::{CellRule, Place, places_where, words_of};
use std::alloc::{AllocError, Global};

#[derive(Drop)]
struct MisgivenProperties {
    alloc: Global,
}

impl<'a> CellRule<'a> for MisgivenProperties {
    ghost speaks = { λ _ t c. bytes_eq t.name (codes "Property") && bytes_eq c.name (codes "Value") };

    ghost fails = { λ _ _ _ row d. is_misgiven (cell_at 0 row) d };

    fn speaks(&self, table: &'a Table, column: &'a Column) -> bool {
        table.name() == "Property" && column.name() == "Value"
    }

    fn fails(
        &self,
        _table: &'a Table,
        _column: &'a Column,
        row: &'a Row,
        cell: &'a Cell,
    ) -> Result<bool, AllocError> {
        match (name_in(row), words_of(Some(cell))) {
            (Some(name), Some(value)) => is_misgiven_text(self.alloc, name, value),
            _ => Ok(false),
        }
    }
}

// What a row begins with.
fn name_in(row: &Row) -> Option<&str>
    ensures { option_copied result ≡ words_in (cell_at 0 row.now) }
{
    words_of(row.cells().get(0))
}

// Whether a value isn't what the property of a name must be.
fn is_misgiven_text(alloc: Global, name: &str, value: &str) -> Result<bool, AllocError>
    ensures { IfOk result (λ is_so. is_so ≡ is_misgiven_text name.now value.now) }
{
    if name == "ProductCode" || name == "UpgradeCode" {
        return Ok(!is_guid(value));
    }
    if name == "ProductVersion" {
        return Ok(!is_version(alloc, value)?);
    }
    if name == "ProductLanguage" {
        return Ok(!reads_u16(value));
    }
    Ok(false)
}

/// The values of the properties `ProductCode` and `UpgradeCode` that are no GUIDs, of `ProductVersion` that are no versions, and of
/// `ProductLanguage` that are no numbers of 16 bits. The one error is want of memory.
pub fn misgiven_properties(alloc: Global, listing: &Listing) -> Result<Vec<Place>, AllocError>
    ensures { IfOk result (λ found. found.items ≡ misgiven_found listing.now) }
{
    let rule = MisgivenProperties { alloc };
    places_where(alloc, listing, &rule)
}

/// The numbers of the properties of a summary that aren't what they must be: the template (7) has no `;`, or no numbers of languages behind it;
/// the revision number (9) is no GUID. The one error is want of memory.
pub fn misgiven_in_summary(alloc: Global, listing: &Listing) -> Result<Vec<u32>, AllocError>
    ensures { IfOk result (λ found. found.items ≡ summary_found listing.now) }
{
    [7u32, 9]
        .iter()
        .copied()
        .filter(|number| has_misgiven(listing, *number))
        .collect(alloc)
}

// Whether the summary has a property of this number that isn't what it must be.
fn has_misgiven(listing: &Listing, number: u32) -> bool
    ensures { result ≡ has_misgiven listing.now number }
{
    has_misgiven_in(listing.properties(), number)
}

fn has_misgiven_in(properties: &[(u32, Property)], number: u32) -> bool
    ensures { result
        ≡ list_any (λ p. p.0 == number && is_misgiven_property number (property_of p.1)) properties.now }
{
    properties.iter().any(|(at, value)| *at == number && is_misgiven_property(number, value))
}

fn is_misgiven_property(number: u32, value: &Property) -> bool
    ensures { result ≡ is_misgiven_property number (property_of value.now) }
{
    match value {
        Property::Text(text) if number == 7 => !is_template(text),
        Property::Text(text) => !is_guid(text),
        _ => false,
    }
}

// Whether a text is a platform, or nothing, and numbers of languages, or nothing, with `;` between them.
fn is_template(text: &str) -> bool
    ensures { result ≡ is_template text.now }
{
    match languages_in(text) {
        Some(languages) => languages.is_empty() || Category::Language.validate(languages),
        None => false,
    }
}
