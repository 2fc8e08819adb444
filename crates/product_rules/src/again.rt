//! Codes of components that stand twice.
ghost use Rattle.std.specs.Prelude.{◌≡◌, ◌++◌, ◌||◌, IfOk, OnOk, List, ℕ, bytes_eq, codes, false, position};
ghost use Rattle.std.specs.BTreeSet.{contains_text};
ghost use Rattle.std.specs.Option.{option_copied, option_map_or};
ghost use Rattle.product_rules.specs.Components.{again_found, again_in, again_in_rows, code_at, has_code};

use msi_listing::{Column, Listing, Row, Table};
use package_rules::{Place, push_if, words_of};
use std::alloc::{AllocError, Global};
use std::collections::BTreeSet;

/// The codes of components that a component before them has. The one error is want of memory.
pub fn repeated_component_codes(alloc: Global, listing: &Listing) -> Result<Vec<Place>, AllocError>
    ensures { IfOk result (λ found. found.items ≡ again_found listing.now) }
{
    let mut found = Vec::new(alloc);
    let tables = listing.tables();
    for (table_at, table) in tables.iter().enumerate() {
        add_table(alloc, &mut found, table, table_at)?;
    }
    Ok(found)
}

// Adds those of a table, if it is the one of components.
fn add_table(
    alloc: Global,
    found: &mut Vec<Place>,
    table: &Table,
    table_at: usize,
) -> Result<(), AllocError>
    ensures { OnOk result (found.new.items ≡ found.old.items ++ again_in table_at table.now) }
{
    if table.name() != "Component" {
        return Ok(());
    }
    match column_of_codes(table.columns()) {
        Some(column_at) => add_rows(alloc, found, table.rows(), table_at, column_at),
        None => Ok(()),
    }
}

// The number of the column of codes.
fn column_of_codes(columns: &[Column]) -> Option<usize>
    ensures { result ≡ position (λ c. bytes_eq c.name (codes "ComponentId")) columns.now }
{
    columns
        .iter()
        .position(|column| column.name() == "ComponentId")
}

// Adds those of rows.
fn add_rows(
    alloc: Global,
    found: &mut Vec<Place>,
    rows: &[Row],
    table_at: usize,
    column_at: usize,
) -> Result<(), AllocError>
    ensures { OnOk result (found.new.items
        ≡ found.old.items ++ again_in_rows table_at column_at rows.now) }
{
    let mut seen = BTreeSet::new(alloc);
    for (row_at, row) in rows.iter().enumerate() {
        let is_seen = note(alloc, &mut seen, column_at, row)?;
        let place = Place {
            table: table_at,
            column: column_at,
            row: row_at,
        };
        push_if(found, is_seen, place)?;
    }
    Ok(())
}

// Notes the code of a row, and tells whether it was noted before.
fn note(
    alloc: Global,
    seen: &mut BTreeSet<String>,
    column_at: usize,
    row: &Row,
) -> Result<bool, AllocError>
    ensures told { IfOk result (λ is_seen. is_seen
        ≡ option_map_or (contains_text seen.old) (code_at column_at row.now) false) }
    ensures noted { OnOk result ((q : List ℕ) → contains_text seen.new q
        ≡ (contains_text seen.old q || has_code column_at q row.now)) }
{
    let Some(code) = code_of(row, column_at) else {
        return Ok(false);
    };
    let is_seen = seen.contains(code);
    seen.insert(String::from_str(alloc, code)?)?;
    Ok(is_seen)
}

// The code of a row.
fn code_of(row: &Row, column_at: usize) -> Option<&str>
    ensures { option_copied result ≡ code_at column_at row.now }
{
    words_of(row.cells().get(column_at))
}
