//! What is found in a listing: a function for each rule, since what is told of a call costs time wherever it is seen.
use crate::rules::Rule;
use column_rules::{ColumnPlace, Constraint, broken_constraints, undescribed_columns};
use msi_listing::{Cell, Column, Listing, Row, Table};
use package_rules::{
    ColumnName, Needed, Place, broken_keys, empty_texts, lacking_in_summary, lacking_properties,
    long_texts, lost_keys, lost_references, said_in, unbacked_bytes, untaken_nulls,
};
use product_rules::{
    endless_parents, files_beyond_media, lost_cabinets, misgiven_in_summary, misgiven_properties,
    misspelled_component_codes, repeated_component_codes, unknown_actions, unused_streams,
};
use std::alloc::{AllocError, Global};
use std::collections::BTreeMap;

/// The places of the cells that fail a rule on cells.
pub(crate) fn places_of(
    alloc: Global,
    listing: &Listing,
    rule: Rule,
) -> Result<Vec<Place>, AllocError> {
    match rule {
        Rule::Nullable => untaken_nulls(alloc, listing),
        Rule::Set => broken_constraints(alloc, listing, Constraint::Set),
        Rule::Range => broken_constraints(alloc, listing, Constraint::Range),
        Rule::Category => broken_constraints(alloc, listing, Constraint::Category),
        Rule::Foreign => lost_keys(alloc, listing),
        Rule::Length => long_texts(alloc, listing),
        Rule::Key => broken_keys(alloc, listing),
        Rule::Empty => empty_texts(alloc, listing),
        Rule::Stream => unbacked_bytes(alloc, listing),
        Rule::Cabinet => lost_cabinets(alloc, listing),
        Rule::Product => misgiven_properties(alloc, listing),
        Rule::Guid => misspelled_component_codes(alloc, listing),
        Rule::Refers => lost_references(alloc, listing),
        Rule::Tree => endless_parents(alloc, listing),
        Rule::Action => unknown_actions(alloc, listing),
        Rule::Described | Rule::Unused | Rule::Required => Ok(Vec::new(alloc)),
    }
}

/// The places of files that no medium has.
pub(crate) fn files_beyond(alloc: Global, listing: &Listing) -> Result<Vec<Place>, AllocError> {
    files_beyond_media(alloc, listing)
}

/// The places of codes that a component before has.
pub(crate) fn codes_again(alloc: Global, listing: &Listing) -> Result<Vec<Place>, AllocError> {
    repeated_component_codes(alloc, listing)
}

pub(crate) fn silent_columns(
    alloc: Global,
    listing: &Listing,
) -> Result<Vec<ColumnPlace>, AllocError> {
    undescribed_columns(alloc, listing)
}

pub(crate) fn loose_streams(alloc: Global, listing: &Listing) -> Result<Vec<usize>, AllocError> {
    unused_streams(alloc, listing)
}

pub(crate) fn wrong_numbers(alloc: Global, listing: &Listing) -> Result<Vec<u32>, AllocError> {
    misgiven_in_summary(alloc, listing)
}

/// The rows of `_Validation` under the columns of which they speak.
pub(crate) fn said_of_columns<'a>(
    alloc: Global,
    listing: &'a Listing,
) -> Result<BTreeMap<ColumnName<'a>, &'a Row>, AllocError> {
    said_in(alloc, listing)
}

pub(crate) fn missing_properties(
    alloc: Global,
    listing: &Listing,
) -> Result<Vec<Needed>, AllocError> {
    lacking_properties(alloc, listing)
}

pub(crate) fn missing_numbers(alloc: Global, listing: &Listing) -> Result<Vec<u32>, AllocError> {
    lacking_in_summary(alloc, listing)
}

/// A cell that was found, with what stands around it.
#[derive(Clone, Copy)]
pub(crate) struct Found<'a> {
    pub(crate) table: &'a Table,
    pub(crate) column: &'a Column,
    pub(crate) row: &'a Row,
    pub(crate) cell: &'a Cell,
}

/// The cell at a place.
pub(crate) fn found_at(listing: &Listing, place: Place) -> Option<Found<'_>> {
    let table = listing.tables().get(place.table)?;
    let column = table.columns().get(place.column)?;
    let row = table.rows().get(place.row)?;
    let cell = row.cells().get(place.column)?;
    Some(Found {
        table,
        column,
        row,
        cell,
    })
}

/// The names of a column's table and its own.
pub(crate) fn names_at(listing: &Listing, place: ColumnPlace) -> Option<(&str, &str)> {
    let table = listing.tables().get(place.table)?;
    let column = table.columns().get(place.column)?;
    Some((table.name(), column.name()))
}

/// The table for which a column is named.
pub(crate) fn table_meant(column: &str) -> &str {
    match column.strip_suffix("_Parent") {
        Some(table) => table,
        None => column.strip_suffix('_').unwrap_or(column),
    }
}

/// The text of a row of `_Validation` in a column, or nothing.
pub(crate) fn text_at(row: &Row, at: usize) -> &str {
    match row.cells().get(at) {
        Some(Cell::Text(text)) => text.as_str(),
        _ => "",
    }
}

/// The number of a row of `_Validation` in a column.
pub(crate) fn number_at(row: &Row, at: usize) -> Option<i32> {
    match row.cells().get(at) {
        Some(Cell::Number(number)) => Some(*number),
        _ => None,
    }
}
