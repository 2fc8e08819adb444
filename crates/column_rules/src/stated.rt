//! What a row of `_Validation` states of the values of its column.
ghost use Rattle.std.specs.Prelude.{◌≡◌, ◌||◌, is_some};
ghost use Rattle.std.specs.Option.{option_copied, option_map_or};
ghost use Rattle.msi_listing.specs.Content.{null};
ghost use Rattle.msi_listing.specs.HeldCell.{cell_of};
ghost use Rattle.column_rules.specs.Stated.{category_named, high_in, judged_in, leaves_free, low_in, names_set, names_tables, set_in, sets_bounds};
ghost use Rattle.package_rules.specs.Said.{number_in};

use msi_listing::{Cell, Row};
use msi_texts::Category;
use package_rules::{is_free, words_of};

/// Whether it names tables, whose keys the values are.
pub(crate) fn names_tables(row: &Row) -> bool
    ensures { result ≡ names_tables row.now }
{
    words_of(row.cells().get(5)).is_some()
}

/// The values that it lists, with `;` between them.
pub(crate) fn set_in(row: &Row) -> Option<&str>
    ensures { option_copied result ≡ set_in row.now }
{
    words_of(row.cells().get(8))
}

/// Whether it lists values.
pub(crate) fn names_set(row: &Row) -> bool
    ensures { result ≡ names_set row.now }
{
    set_in(row).is_some()
}

// The number of a cell, if it is one.
fn number_of(cell: Option<&Cell>) -> Option<i32>
    ensures { result ≡ option_map_or (λ c. number_in (cell_of c.now)) cell.entry None }
{
    match cell {
        Some(Cell::Number(number)) => Some(*number),
        _ => None,
    }
}

/// The least value that it allows.
pub(crate) fn low_in(row: &Row) -> Option<i32>
    ensures { result ≡ low_in row.now }
{
    number_of(row.cells().get(3))
}

/// The greatest value that it allows.
pub(crate) fn high_in(row: &Row) -> Option<i32>
    ensures { result ≡ high_in row.now }
{
    number_of(row.cells().get(4))
}

/// Whether it sets bounds.
pub(crate) fn sets_bounds(row: &Row) -> bool
    ensures { result ≡ sets_bounds row.now }
{
    low_in(row).is_some() || high_in(row).is_some()
}

/// Whether its category lets other values stand for themselves.
pub(crate) fn leaves_free(row: &Row) -> bool
    ensures { result ≡ leaves_free row.now }
{
    is_free(words_of(row.cells().get(7)))
}

/// Its category, if texts are judged by it.
pub(crate) fn judged_in(row: &Row) -> Option<Category>
    ensures { result ≡ judged_in row.now }
{
    match words_of(row.cells().get(7)) {
        Some(name) => category_named(name),
        None => None,
    }
}

// The category of a name, if texts are judged by it.
fn category_named(name: &str) -> Option<Category>
    ensures { result ≡ category_named name.now }
{
    if name == "Identifier" {
        return Some(Category::Identifier);
    }
    if name == "UpperCase" {
        return Some(Category::UpperCase);
    }
    if name == "LowerCase" {
        return Some(Category::LowerCase);
    }
    if name == "Property" {
        return Some(Category::Property);
    }
    if name == "Version" {
        return Some(Category::Version);
    }
    if name == "Language" {
        return Some(Category::Language);
    }
    if name == "Guid" || name == "GUID" {
        return Some(Category::Guid);
    }
    None
}
