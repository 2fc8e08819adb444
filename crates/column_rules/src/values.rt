//! Whether a value is what a row of `_Validation` states.
ghost use Rattle.std.specs.Prelude.{◌≡◌, ◌==◌, ◌&&◌, not, IfOk, false};
ghost use Rattle.std.specs.Option.{option_map_or};
ghost use Rattle.msi_listing.specs.HeldCell.{cell_of};
ghost use Rattle.package_rules.specs.Said.{words_in};
ghost use Rattle.column_rules.specs.Values.{is_beyond, is_listed, is_misspelled, is_unlisted, is_within};

use crate::stated::{high_in, judged_in, low_in, set_in};
use msi_listing::{Cell, Row};
use package_rules::words_of;
use std::alloc::{AllocError, Global};

/// Whether a value isn't among those that a row lists. The one error is want of memory.
pub(crate) fn is_unlisted(alloc: Global, row: &Row, cell: &Cell) -> Result<bool, AllocError>
    ensures { IfOk result (λ is_so. is_so ≡ is_unlisted row.now (cell_of cell.now)) }
{
    let Some(set) = set_in(row) else {
        return Ok(false);
    };
    match cell {
        Cell::Number(number) => {
            let digits = format!(in alloc; "{number}")?;
            Ok(!is_listed(set, &digits))
        }
        Cell::Null | Cell::Text(_) | Cell::Bytes => Ok(is_other_text(set, cell)),
    }
}

// Whether a cell holds a text that isn't one of these.
fn is_other_text(set: &str, cell: &Cell) -> bool
    ensures { result
        ≡ option_map_or (λ t. not (is_listed set.now t)) (words_in (cell_of cell.now)) false }
{
    match words_of(Some(cell)) {
        Some(text) => !is_listed(set, text),
        None => false,
    }
}

// Whether a text is one of these, with `;` between them.
fn is_listed(set: &str, text: &str) -> bool
    ensures { result ≡ is_listed set.now text.now }
{
    set.split(';').any(|part| part == text)
}

/// Whether a number is beyond the bounds that a row sets.
pub(crate) fn is_beyond(row: &Row, cell: &Cell) -> bool
    ensures { result ≡ is_beyond row.now (cell_of cell.now) }
{
    match cell {
        Cell::Number(number) => !is_within(low_in(row), high_in(row), *number),
        Cell::Null | Cell::Text(_) | Cell::Bytes => false,
    }
}

fn is_within(low: Option<i32>, high: Option<i32>, number: i32) -> bool
    ensures { result ≡ is_within low high number }
{
    match (low, high) {
        (Some(low), Some(high)) => low <= number && number <= high,
        (Some(low), None) => low <= number,
        (None, Some(high)) => number <= high,
        (None, None) => true,
    }
}

/// Whether a text isn't in the category that a row names.
pub(crate) fn is_misspelled(row: &Row, cell: &Cell) -> bool
    ensures { result ≡ is_misspelled row.now (cell_of cell.now) }
{
    match (judged_in(row), words_of(Some(cell))) {
        (Some(category), Some(text)) => !category.validate(text),
        _ => false,
    }
}
