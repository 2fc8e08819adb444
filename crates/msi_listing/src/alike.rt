//! Whether listings say the same.
ghost use Rattle.std.specs.Prelude.{◌≡◌, ◌↔◌, IsTrue, string_bytes};
ghost use Rattle.msi_listing.specs.Alike.{AreAlike};
ghost use Rattle.msi_listing.specs.HeldCell.{cell_of};
ghost use Rattle.msi_listing.specs.HeldProperty.{pair_of};

use crate::cell::Cell;
use crate::column::Column;
use crate::property::Property;
use crate::row::Row;
use crate::table::Table;

/// Values that may say the same.
pub(crate) trait Alike {
    ghost same: { Self → Self → Type 0 };

    fn is_like(&self, other: &Self) -> bool
        ensures { IsTrue result ↔ same self.now other.now };
}

/// Whether two texts are one.
pub(crate) fn is_same_text(one: &str, other: &str) -> bool
    ensures { IsTrue result ↔ (one.now ≡ other.now) }
{
    one == other
}

/// Whether two lists say the same, value by value.
pub(crate) fn are_alike<T: Alike>(one: &[T], other: &[T]) -> bool
    ensures { IsTrue result ↔ AreAlike T.same one.now other.now }
{
    if one.len() != other.len() {
        return false;
    }
    let mut at = 0;
    while at < one.len() {
        if !one[at].is_like(&other[at]) {
            return false;
        }
        at += 1;
    }
    true
}

impl Alike for Cell {
    ghost same = { λ a b. cell_of a ≡ cell_of b };

    fn is_like(&self, other: &Cell) -> bool {
        self == other
    }
}

impl Alike for Column {
    ghost same = { λ a b. a ≡ b };

    fn is_like(&self, other: &Column) -> bool {
        self.is_same(other)
    }
}

impl Alike for Row {
    ghost same = { λ a b. a ≡ b };

    fn is_like(&self, other: &Row) -> bool {
        self.is_same(other)
    }
}

impl Alike for Table {
    ghost same = { λ a b. a ≡ b };

    fn is_like(&self, other: &Table) -> bool {
        self.is_same(other)
    }
}

impl Alike for String {
    ghost same = { λ a b. string_bytes a ≡ string_bytes b };

    fn is_like(&self, other: &String) -> bool {
        self == other
    }
}

impl Alike for (u32, Property) {
    ghost same = { λ a b. pair_of a ≡ pair_of b };

    fn is_like(&self, other: &(u32, Property)) -> bool {
        self == other
    }
}
