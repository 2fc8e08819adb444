//! Texts that their columns don't take.
ghost use Rattle.std.specs.Prelude.{◌≡◌, [], length, chars, IfOk};
ghost use Rattle.package_rules.specs.Cells.{is_text};
ghost use Rattle.package_rules.specs.Rules.{empty_found, has_texts, is_longer, length_found, sets_bound};

use crate::cells::{CellRule, places_where};
use crate::place::Place;
use msi_listing::{Cell, Column, Kind, Listing, Row, Table};
use std::alloc::{AllocError, Global};

struct TextLengths;

impl<'a> CellRule<'a> for TextLengths {
    ghost speaks = { λ _ _ c. sets_bound c.kind };

    ghost fails = { λ _ _ c _ d. is_longer c.kind d };

    fn speaks(&self, _table: &'a Table, column: &'a Column) -> bool {
        match column.kind() {
            Kind::Str(most) => most != 0,
            Kind::Int16 | Kind::Int32 | Kind::Binary => false,
        }
    }

    fn fails(
        &self,
        _table: &'a Table,
        column: &'a Column,
        _row: &'a Row,
        cell: &'a Cell,
    ) -> Result<bool, AllocError> {
        match (column.kind(), cell) {
            (Kind::Str(most), Cell::Text(text)) => Ok(most < char_count(text)),
            _ => Ok(false),
        }
    }
}

// How many characters a text has.
fn char_count(text: &str) -> usize
    ensures { result ≡ length (chars text.now) }
{
    text.chars().count()
}

/// The texts that have more characters than their columns take. The one error is want of memory.
pub fn long_texts(alloc: Global, listing: &Listing) -> Result<Vec<Place>, AllocError>
    ensures { IfOk result (λ found. found.items ≡ length_found listing.now) }
{
    places_where(alloc, listing, &TextLengths)
}

struct TextsWithin;

impl<'a> CellRule<'a> for TextsWithin {
    ghost speaks = { λ _ _ c. has_texts c.kind };

    ghost fails = { λ _ _ _ _ d. is_text [] d };

    fn speaks(&self, _table: &'a Table, column: &'a Column) -> bool {
        matches!(column.kind(), Kind::Str(_))
    }

    fn fails(
        &self,
        _table: &'a Table,
        _column: &'a Column,
        _row: &'a Row,
        cell: &'a Cell,
    ) -> Result<bool, AllocError> {
        match cell {
            Cell::Text(text) => Ok(text.is_empty()),
            Cell::Null | Cell::Number(_) | Cell::Bytes => Ok(false),
        }
    }
}

/// The empty texts; other programs take them for nothing. The one error is want of memory.
pub fn empty_texts(alloc: Global, listing: &Listing) -> Result<Vec<Place>, AllocError>
    ensures { IfOk result (λ found. found.items ≡ empty_found listing.now) }
{
    places_where(alloc, listing, &TextsWithin)
}
