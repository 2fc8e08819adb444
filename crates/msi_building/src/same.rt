//! Whether values are the same, one by one.
ghost use Rattle.msi_building.specs.Saying.{facts_of};
ghost use Rattle.msi_columns.specs.Held.{column_of, columns_of};
ghost use Rattle.msi_listing.specs.Alike.{AreAlike};
ghost use Rattle.msi_props.specs.Held.{pair_in};
ghost use Rattle.msi_values.specs.Datum.{data_of, datum_of};
ghost use Rattle.std.specs.Prelude.{◌≡◌, IsTrue, map, string_bytes};

use msi_columns::Column;
use msi_props::PropertyValue;
use msi_values::Value;

/// Values that may say the same.
trait Alike {
    ghost same: { Self → Self → Type 0 };

    fn is_like(&self, other: &Self) -> bool
        ensures { IsTrue result → same self.now other.now };
}

// Whether two lists say the same, value by value.
fn are_alike<T: Alike>(one: &[T], other: &[T]) -> bool
    ensures { IsTrue result → AreAlike T.same one.now other.now }
{
    if one.len() != other.len() {
        return false;
    }
    let mut at = 0;
    while at < one.len() {
        if !one[at].is_like(&other[at]) {
            return false;
        }
        at += 1;
    }
    true
}

impl Alike for String {
    ghost same = { λ a b. string_bytes a ≡ string_bytes b };

    fn is_like(&self, other: &String) -> bool {
        self == other
    }
}

impl Alike for Value {
    ghost same = { λ a b. datum_of a ≡ datum_of b };

    fn is_like(&self, other: &Value) -> bool {
        self.is_same(other)
    }
}

impl Alike for Vec<Value> {
    ghost same = { λ a b. data_of a.items ≡ data_of b.items };

    fn is_like(&self, other: &Vec<Value>) -> bool {
        are_alike(self.as_slice(), other.as_slice())
    }
}

impl Alike for (u32, PropertyValue) {
    ghost same = { λ a b. pair_in a ≡ pair_in b };

    fn is_like(&self, other: &(u32, PropertyValue)) -> bool {
        self == other
    }
}

impl Alike for Column {
    ghost same = { λ a b. facts_of (column_of a) ≡ facts_of (column_of b) };

    fn is_like(&self, other: &Column) -> bool {
        self.name() == other.name()
            && self.coltype() == other.coltype()
            && self.is_localizable() == other.is_localizable()
            && self.is_nullable() == other.is_nullable()
            && self.is_primary_key() == other.is_primary_key()
    }
}

/// Whether names are the same.
pub(crate) fn are_same_names(one: &[String], other: &[String]) -> bool
    ensures { IsTrue result → map string_bytes one.now ≡ map string_bytes other.now }
{
    are_alike(one, other)
}

/// Whether rows have the same values.
pub(crate) fn are_same_rows(one: &[Vec<Value>], other: &[Vec<Value>]) -> bool
    ensures { IsTrue result → map (λ row. data_of row.items) one.now
        ≡ map (λ row. data_of row.items) other.now }
{
    are_alike(one, other)
}

/// Whether properties have the same numbers and values.
pub(crate) fn are_same_properties(
    one: &[(u32, PropertyValue)],
    other: &[(u32, PropertyValue)],
) -> bool
    ensures { IsTrue result → map pair_in one.now ≡ map pair_in other.now }
{
    are_alike(one, other)
}

/// Whether columns are the same in what `_Columns` says.
pub(crate) fn are_same_columns(one: &[Column], other: &[Column]) -> bool
    ensures { IsTrue result → map facts_of (columns_of one.now)
        ≡ map facts_of (columns_of other.now) }
{
    are_alike(one, other)
}
