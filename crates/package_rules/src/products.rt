//! What a product must have.
ghost use Rattle.std.specs.Prelude.{◌≡◌, ◌==◌, ◌&&◌, IfOk, bytes_eq, codes};
ghost use Rattle.std.specs.List.{list_any};
ghost use Rattle.package_rules.specs.Cells.{cell_at, is_text};
ghost use Rattle.package_rules.specs.Rules.{has_property, required_found, summary_found};
ghost use Rattle.package_rules.specs.Needs.{name_of};

use msi_listing::{Cell, Listing, Property, Row, Table};
use std::alloc::{AllocError, Global};

/// A property that a product must have.
#[derive(Clone, Copy, Debug, PartialEq, Eq)]
pub enum Needed {
    /// Who made it.
    Manufacturer,
    /// Its own GUID.
    ProductCode,
    /// The number of its language.
    ProductLanguage,
    /// What it is called.
    ProductName,
    /// Its version.
    ProductVersion,
}

impl Needed {
    /// The name of the property.
    pub fn name(self) -> &'static str
        ensures { result.now ≡ name_of self }
    {
        match self {
            Needed::Manufacturer => "Manufacturer",
            Needed::ProductCode => "ProductCode",
            Needed::ProductLanguage => "ProductLanguage",
            Needed::ProductName => "ProductName",
            Needed::ProductVersion => "ProductVersion",
        }
    }
}

/// The properties that a product must have and this one lacks. The one error is want of memory.
pub fn lacking_properties(alloc: Global, listing: &Listing) -> Result<Vec<Needed>, AllocError>
    ensures { IfOk result (λ found. found.items ≡ required_found listing.now) }
{
    [
        Needed::Manufacturer,
        Needed::ProductCode,
        Needed::ProductLanguage,
        Needed::ProductName,
        Needed::ProductVersion,
    ]
    .iter()
    .copied()
    .filter(|needed| !has_needed(listing, *needed))
    .collect(alloc)
}

fn has_needed(listing: &Listing, needed: Needed) -> bool
    ensures { result ≡ has_property listing.now (name_of needed) }
{
    has_property(listing, needed.name())
}

// Whether there is a property of this name.
fn has_property(listing: &Listing, name: &str) -> bool
    ensures { result ≡ has_property listing.now name.now }
{
    listing.tables().iter().any(|table| has_it(table, name))
}

// Whether a table is that of properties, and has one of this name.
fn has_it(table: &Table, name: &str) -> bool
    ensures { result ≡ (bytes_eq table.now.name (codes "Property")
        && list_any (λ row. is_text name.now (cell_at 0 row)) table.now.rows) }
{
    table.name() == "Property" && has_row(table.rows(), name)
}

// Whether a row begins with this text.
fn has_row(rows: &[Row], name: &str) -> bool
    ensures { result ≡ list_any (λ row. is_text name.now (cell_at 0 row)) rows.now }
{
    rows.iter().any(|row| begins_with(row, name))
}

fn begins_with(row: &Row, name: &str) -> bool
    ensures { result ≡ is_text name.now (cell_at 0 row.now) }
{
    match row.cells() {
        [Cell::Text(text), ..] => text.as_str() == name,
        _ => false,
    }
}

/// The numbers of the properties that a product's summary must have and this one lacks. The one error is want of memory.
pub fn lacking_in_summary(alloc: Global, listing: &Listing) -> Result<Vec<u32>, AllocError>
    ensures { IfOk result (λ found. found.items ≡ summary_found listing.now) }
{
    [7u32, 9, 14, 15]
        .iter()
        .copied()
        .filter(|number| !has_number(listing, *number))
        .collect(alloc)
}

// Whether the summary has a property of this number.
fn has_number(listing: &Listing, number: u32) -> bool
    ensures { result ≡ list_any (λ p. p.0 == number) listing.now.properties }
{
    has_number_in(listing.properties(), number)
}

fn has_number_in(properties: &[(u32, Property)], number: u32) -> bool
    ensures { result ≡ list_any (λ p. p.0 == number) properties.now }
{
    properties.iter().any(|(at, _)| *at == number)
}
