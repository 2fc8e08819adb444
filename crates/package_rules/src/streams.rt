//! Cells of bytes whose stream isn't there.
ghost use Rattle.std.specs.Prelude.{◌≡◌, ◌++◌, ◌∷◌, ◌&&◌, not, List, ℕ, IfOk, OnOk, map, string_bytes};
ghost use Rattle.std.specs.BTreeSet.{contains_text};
ghost use Rattle.std.specs.List.{flat_map};
ghost use Rattle.msi_listing.specs.HeldCell.{cell_of};
ghost use Rattle.package_rules.specs.Cells.{is_bytes};
ghost use Rattle.package_rules.specs.Parts.{said};
ghost use Rattle.package_rules.specs.Streams.{has_stream, is_binary, shown, stream_found, stream_name};

use crate::cells::{CellRule, places_where};
use crate::parts::{Part, key_of};
use crate::place::Place;
use msi_listing::{Cell, Column, Kind, Listing, Row, Table};
use std::alloc::{AllocError, Global};
use std::collections::BTreeSet;

#[derive(Drop)]
struct BytesInStreams {
    alloc: Global,
    names: BTreeSet<String>,
}

impl<'a> CellRule<'a> for BytesInStreams {
    ghost speaks = { λ _ _ c. is_binary c.kind };

    ghost fails = { λ s t _ row d. is_bytes d && not (contains_text s.names (stream_name t row)) };

    fn speaks(&self, _table: &'a Table, column: &'a Column) -> bool {
        matches!(column.kind(), Kind::Binary)
    }

    fn fails(
        &self,
        table: &'a Table,
        _column: &'a Column,
        row: &'a Row,
        cell: &'a Cell,
    ) -> Result<bool, AllocError> {
        if !matches!(cell, Cell::Bytes) {
            return Ok(false);
        }
        let name = name_of_stream(self.alloc, table, row)?;
        Ok(!self.names.contains(name.as_str()))
    }
}

/// The name of the stream of a row: its table and the cells of its key, with a dot before each of these. The one error is want of memory.
pub fn name_of_stream(alloc: Global, table: &Table, row: &Row) -> Result<String, AllocError>
    ensures { IfOk result (λ name. string_bytes name ≡ stream_name table.now row.now) }
{
    let mut name = String::from_str(alloc, table.name())?;
    let key = key_of(alloc, table.columns(), row.cells())?;
    push_key(&mut name, &key)?;
    Ok(name)
}

// Adds the cells of a key, behind a dot each.
fn push_key(name: &mut String, key: &[Part<'_>]) -> Result<(), AllocError>
    ensures { OnOk result (string_bytes name.new
        ≡ string_bytes name.old ++ flat_map (λ p. 46 ∷ shown (said p)) key.now) }
{
    for part in key {
        push_part(name, part)?;
    }
    Ok(())
}

fn push_part(name: &mut String, part: &Part<'_>) -> Result<(), AllocError>
    ensures { OnOk result (string_bytes name.new ≡ string_bytes name.old ++ 46 ∷ shown (said part.now)) }
{
    match part {
        Part::Null | Part::Bytes => name.push('.'),
        Part::Number(number) => write!(name, ".{number}"),
        Part::Text(text) => write!(name, ".{text}"),
    }
}

/// The names of the streams.
pub fn names_of_streams(alloc: Global, listing: &Listing) -> Result<BTreeSet<String>, AllocError>
    ensures { IfOk result (λ names. (q : List ℕ) → contains_text names q ≡ has_stream listing.now q) }
{
    let mut names = BTreeSet::new(alloc);
    let streams = listing.streams();
    for stream in streams {
        names.insert(String::from_str(alloc, stream)?)?;
    }
    Ok(names)
}

/// The cells of bytes whose stream isn't there. The one error is want of memory.
pub fn unbacked_bytes(alloc: Global, listing: &Listing) -> Result<Vec<Place>, AllocError>
    ensures { IfOk result (λ found. found.items ≡ stream_found listing.now) }
{
    let names = names_of_streams(alloc, listing)?;
    let rule = BytesInStreams { alloc, names };
    places_where(alloc, listing, &rule)
}
