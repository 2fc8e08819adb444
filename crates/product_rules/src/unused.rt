//! Streams that nothing names.
ghost use Rattle.std.specs.Prelude.{◌≡◌, ◌++◌, ◌&&◌, ◌||◌, not, List, ℕ, IfOk, OnOk, bytes_eq};
ghost use Rattle.std.specs.BTreeSet.{contains_text};
ghost use Rattle.std.specs.List.{list_any};
ghost use Rattle.std.specs.Option.{option_copied};
ghost use Rattle.msi_listing.specs.HeldCell.{cell_of};
ghost use Rattle.package_rules.specs.Cells.{is_bytes};
ghost use Rattle.product_rules.specs.Unused.{backs, is_property_set, number_if, packed_in, packs, unused_found, uses, uses_in};

use crate::media::is_media;
use crate::texts::packed_name;
use msi_listing::{Cell, Listing, Row, Table};
use package_rules::name_of_stream;
use std::alloc::{AllocError, Global};
use std::collections::BTreeSet;

/// The numbers, from 0, of the streams that no cell of bytes has and no cabinet of `Media` names. Streams whose names begin with the
/// character 5 are sets of properties and are passed over. The one error is want of memory.
pub fn unused_streams(alloc: Global, listing: &Listing) -> Result<Vec<usize>, AllocError>
    ensures { IfOk result (λ found. found.items ≡ unused_found listing.now) }
{
    let mut found = Vec::new(alloc);
    let used = used_names(alloc, listing.tables())?;
    let streams = listing.streams();
    for (at, name) in streams.iter().enumerate() {
        let is_loose = is_unused(&used, name);
        push_if(&mut found, is_loose, at)?;
    }
    Ok(found)
}

fn is_unused(used: &BTreeSet<String>, name: &str) -> bool
    ensures { result ≡ (not (contains_text used.now name.now) && not (is_property_set name.now)) }
{
    !used.contains(name) && !is_property_set(name)
}

fn is_property_set(name: &str) -> bool
    ensures { result ≡ is_property_set name.now }
{
    match name.as_bytes() {
        [5, ..] => true,
        _ => false,
    }
}

// Adds a number, if it is one.
fn push_if(found: &mut Vec<usize>, is_one: bool, at: usize) -> Result<(), AllocError>
    ensures { OnOk result (found.new.items ≡ found.old.items ++ number_if is_one at) }
{
    if !is_one {
        return Ok(());
    }
    found.push(at)?;
    Ok(())
}

// The names of the streams that tables use.
fn used_names(alloc: Global, tables: &[Table]) -> Result<BTreeSet<String>, AllocError>
    ensures { IfOk result (λ names. (q : List ℕ)
        → contains_text names q ≡ list_any (uses q) tables.now) }
{
    let mut names = BTreeSet::new(alloc);
    for table in tables {
        add_table(alloc, &mut names, table)?;
    }
    Ok(names)
}

// Adds those that a table uses.
fn add_table(alloc: Global, names: &mut BTreeSet<String>, table: &Table) -> Result<(), AllocError>
    ensures { OnOk result ((q : List ℕ)
        → contains_text names.new q ≡ (contains_text names.old q || uses q table.now)) }
{
    let rows = table.rows();
    for row in rows {
        add_backed(alloc, names, table, row)?;
        add_packed(alloc, names, table, row)?;
    }
    Ok(())
}

// Adds that of a row's bytes.
fn add_backed(
    alloc: Global,
    names: &mut BTreeSet<String>,
    table: &Table,
    row: &Row,
) -> Result<(), AllocError>
    ensures { OnOk result ((q : List ℕ)
        → contains_text names.new q ≡ (contains_text names.old q || backs q table.now row.now)) }
{
    if !has_bytes(row) {
        return Ok(());
    }
    let name = name_of_stream(alloc, table, row)?;
    names.insert(name)?;
    Ok(())
}

fn has_bytes(row: &Row) -> bool
    ensures { result ≡ list_any is_bytes row.now }
{
    are_any_bytes(row.cells())
}

fn are_any_bytes(cells: &[Cell]) -> bool
    ensures { result ≡ list_any (λ c. is_bytes (cell_of c)) cells.now }
{
    cells.iter().any(|cell| matches!(cell, Cell::Bytes))
}

// Adds that of a medium's cabinet.
fn add_packed(
    alloc: Global,
    names: &mut BTreeSet<String>,
    table: &Table,
    row: &Row,
) -> Result<(), AllocError>
    ensures { OnOk result ((q : List ℕ)
        → contains_text names.new q ≡ (contains_text names.old q || packs q table.now row.now)) }
{
    if !is_media(table) {
        return Ok(());
    }
    let Some(name) = packed_in(row) else {
        return Ok(());
    };
    names.insert(String::from_str(alloc, name)?)?;
    Ok(())
}

// The stream that the cabinet of a medium is.
fn packed_in(row: &Row) -> Option<&str>
    ensures { option_copied result ≡ packed_in row.now }
{
    match row.cells().get(3) {
        Some(Cell::Text(text)) => packed_name(text),
        _ => None,
    }
}
