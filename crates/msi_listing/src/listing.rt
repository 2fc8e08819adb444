//! What a package holds.
ghost use Rattle.std.specs.Prelude.{◌≡◌, ◌↔◌, IsTrue, map, string_bytes};
ghost use Rattle.msi_listing.specs.HeldProperty.{pair_of};

use crate::alike::are_alike;
use crate::property::Property;
use crate::table::Table;
use std::marker::Model;

/// What a package holds: the number of its code page, its tables, the names of its streams that belong to no table, and the properties of
/// its summary with their numbers.
#[derive(Drop)]
pub struct Listing {
    codepage: i32,
    tables: Vec<Table>,
    streams: Vec<String>,
    properties: Vec<(u32, Property)>,
}

impl Model for Listing {
    ghost use Rattle.msi_listing.specs.Content.{ListingContent};

    ghost Value = { ListingContent };

    ghost use Rattle.msi_listing.specs.HeldListing.{listing_of};

    ghost view = { listing_of };
}

impl Listing {
    /// A listing of these parts.
    pub fn new(
        codepage: i32,
        tables: Vec<Table>,
        streams: Vec<String>,
        properties: Vec<(u32, Property)>,
    ) -> Listing
        ensures { result
            ≡ record {
              codepage = codepage;
              tables = tables.items;
              streams = map string_bytes streams.items;
              properties = map pair_of properties.items;
            } }
    {
        Listing {
            codepage,
            tables,
            streams,
            properties,
        }
    }

    /// The number of its code page.
    pub fn codepage(&self) -> i32
        ensures { result ≡ self.now.codepage }
    {
        self.codepage
    }

    /// Its tables.
    pub fn tables(&self) -> &[Table]
        ensures { result.now ≡ self.now.tables }
    {
        &self.tables
    }

    /// The names of its streams that belong to no table.
    pub fn streams(&self) -> &[String]
        ensures { map string_bytes result.now ≡ self.now.streams }
    {
        &self.streams
    }

    /// The properties of its summary with their numbers.
    pub fn properties(&self) -> &[(u32, Property)]
        ensures { map pair_of result.now ≡ self.now.properties }
    {
        &self.properties
    }

    /// Whether both say the same.
    pub fn is_same(&self, other: &Listing) -> bool
        ensures { IsTrue result ↔ (self.now ≡ other.now) }
    {
        if self.codepage != other.codepage {
            return false;
        }
        if !are_alike(self.tables(), other.tables()) {
            return false;
        }
        if !are_alike(self.streams(), other.streams()) {
            return false;
        }
        are_alike(self.properties(), other.properties())
    }
}
