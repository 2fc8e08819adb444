//! Directories and features that stand below themselves.
ghost use Rattle.std.specs.Prelude.{◌≡◌, ◌++◌, ◌∷◌, [], IfOk, OnOk, List, ℕ, option_and_then, map, is_some, bytes_eq, position};
ghost use Rattle.std.specs.BTreeMap.{get_by_text};
ghost use Rattle.std.specs.Option.{option_copied, option_or};
ghost use Rattle.package_rules.specs.Cells.{cell_at};
ghost use Rattle.package_rules.specs.Places.{numbered, place_if};
ghost use Rattle.package_rules.specs.Said.{words_in};
ghost use Rattle.product_rules.specs.Trees.{above, endless_by, endless_in, endless_rows, has_name, is_endless, number_of, parent_by, tree_found};

use msi_listing::{Column, Listing, Row, Table};
use package_rules::{Place, push_if, words_of};
use std::alloc::{AllocError, Global};
use std::collections::BTreeMap;

/// The parents of directories and features from which going up doesn't end. The one error is want of memory.
pub fn endless_parents(alloc: Global, listing: &Listing) -> Result<Vec<Place>, AllocError>
    ensures { IfOk result (λ found. found.items ≡ tree_found listing.now) }
{
    let mut found = Vec::new(alloc);
    let tables = listing.tables();
    for (table_at, table) in tables.iter().enumerate() {
        add_table(alloc, &mut found, table, table_at)?;
    }
    Ok(found)
}

// Adds those of a table, if its rows are a tree.
fn add_table(
    alloc: Global,
    found: &mut Vec<Place>,
    table: &Table,
    table_at: usize,
) -> Result<(), AllocError>
    ensures { OnOk result (found.new.items ≡ found.old.items ++ endless_in table_at table.now) }
{
    if table.name() == "Directory" {
        return add_by(alloc, found, table, table_at, true, "Directory_Parent");
    }
    if table.name() == "Feature" {
        return add_by(alloc, found, table, table_at, false, "Feature_Parent");
    }
    Ok(())
}

// Adds those of a table whose rows name their parents in a column.
fn add_by(
    alloc: Global,
    found: &mut Vec<Place>,
    table: &Table,
    table_at: usize,
    own: bool,
    column: &str,
) -> Result<(), AllocError>
    ensures { OnOk result (found.new.items
        ≡ found.old.items ++ endless_by table_at own column.now table.now) }
{
    match column_named(table.columns(), column) {
        Some(column_at) => add_rows(alloc, found, table.rows(), table_at, own, column_at),
        None => Ok(()),
    }
}

fn column_named(columns: &[Column], name: &str) -> Option<usize>
    ensures { result ≡ position (λ c. bytes_eq c.name name.now) columns.now }
{
    columns.iter().position(|column| column.name() == name)
}

// Adds those of rows.
fn add_rows(
    alloc: Global,
    found: &mut Vec<Place>,
    rows: &[Row],
    table_at: usize,
    own: bool,
    column_at: usize,
) -> Result<(), AllocError>
    ensures { OnOk result (found.new.items
        ≡ found.old.items ++ endless_rows table_at own column_at rows.now) }
{
    let names = names_in(alloc, rows)?;
    let parents = parents_in(alloc, &names, rows, own, column_at)?;
    let ends = far_above(alloc, parents)?;
    add_where_some(found, rows, &ends, table_at, column_at)
}

// The first row of each name.
fn names_in(alloc: Global, rows: &[Row]) -> Result<BTreeMap<String, usize>, AllocError>
    ensures { IfOk result (λ names. (q : List ℕ)
        → get_by_text names q ≡ number_of q 0 rows.now) }
{
    let mut names = BTreeMap::new(alloc);
    for (row_at, row) in rows.iter().enumerate() {
        add_name(alloc, &mut names, row, row_at)?;
    }
    Ok(names)
}

// Adds the number of a row, if none before it has its name.
fn add_name(
    alloc: Global,
    names: &mut BTreeMap<String, usize>,
    row: &Row,
    row_at: usize,
) -> Result<(), AllocError>
    ensures { OnOk result ((q : List ℕ) → get_by_text names.new q
        ≡ option_or (get_by_text names.old q) (number_of q row_at (row.now ∷ []))) }
{
    let Some(name) = name_of(row) else {
        return Ok(());
    };
    if names.contains_key(name) {
        return Ok(());
    }
    names.insert(String::from_str(alloc, name)?, row_at)?;
    Ok(())
}

fn name_of(row: &Row) -> Option<&str>
    ensures { option_copied result ≡ words_in (cell_at 0 row.now) }
{
    words_of(row.cells().get(0))
}

// The parent of each row.
fn parents_in(
    alloc: Global,
    names: &BTreeMap<String, usize>,
    rows: &[Row],
    own: bool,
    column_at: usize,
) -> Result<Vec<Option<usize>>, AllocError>
    ensures { IfOk result (λ parents. parents.items
        ≡ map (parent_by (get_by_text names.now) own column_at) rows.now) }
{
    let mut parents = Vec::new(alloc);
    for row in rows {
        parents.push(parent_of(names, row, own, column_at))?;
    }
    Ok(parents)
}

// The parent of a row: none of a root, and none where no row has its name.
fn parent_of(
    names: &BTreeMap<String, usize>,
    row: &Row,
    own: bool,
    column_at: usize,
) -> Option<usize>
    ensures { result ≡ parent_by (get_by_text names.now) own column_at row.now }
{
    let name = words_of(row.cells().get(column_at))?;
    if own && is_named(row, name) {
        return None;
    }
    names.get(name).copied()
}

fn is_named(row: &Row, name: &str) -> bool
    ensures { result ≡ has_name name.now row.now }
{
    match name_of(row) {
        Some(own) => own == name,
        None => false,
    }
}

// Where 2 ^ 64 steps up lead from each row.
fn far_above(alloc: Global, parents: Vec<Option<usize>>) -> Result<Vec<Option<usize>>, AllocError>
    ensures { IfOk result (λ ends. (j : ℕ)
        → is_some (above ends.items j) ≡ is_endless parents.items j) }
{
    let mut ends = parents;
    for _ in 0u32..64 {
        ends = doubled(alloc, &ends)?;
    }
    Ok(ends)
}

// Where twice as many steps lead.
fn doubled(alloc: Global, steps: &[Option<usize>]) -> Result<Vec<Option<usize>>, AllocError>
    ensures { IfOk result (λ twice. twice.items
        ≡ map (option_and_then (above steps.now)) steps.now) }
{
    let mut twice = Vec::new(alloc);
    for at in steps {
        twice.push(from_there(steps, *at))?;
    }
    Ok(twice)
}

// Where steps lead from a row, if there is one.
fn from_there(steps: &[Option<usize>], at: Option<usize>) -> Option<usize>
    ensures { result ≡ option_and_then (above steps.now) at }
{
    match at {
        Some(at) => at_number(steps, at),
        None => None,
    }
}

fn at_number(steps: &[Option<usize>], at: usize) -> Option<usize>
    ensures { result ≡ above steps.now at }
{
    match steps.get(at) {
        Some(it) => *it,
        None => None,
    }
}

// Adds the places of rows from which steps lead to a row.
fn add_where_some(
    found: &mut Vec<Place>,
    rows: &[Row],
    steps: &[Option<usize>],
    table_at: usize,
    column_at: usize,
) -> Result<(), AllocError>
    ensures { OnOk result (found.new.items ≡ found.old.items
        ++ numbered (λ j row. place_if (is_some (above steps.now j)) table_at column_at j) rows.now) }
{
    for (row_at, _row) in rows.iter().enumerate() {
        let place = Place {
            table: table_at,
            column: column_at,
            row: row_at,
        };
        push_if(found, at_number(steps, row_at).is_some(), place)?;
    }
    Ok(())
}
