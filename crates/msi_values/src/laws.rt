//! Laws of the definitions, each the contract of a function.
ghost use Rattle.std.specs.Prelude.{◌≡◌, ◌↔◌, IsTrue, fold};
ghost use Rattle.msi_values.specs.Datum.{datum_of};
ghost use Rattle.msi_values.specs.contracts.value.ValueHash.TheImpl.{ghosts as hash_of};

use crate::value::Value;
use std::cmp::Ordering;
use std::hash::{Hash, Hasher};

/// Whether two values are equal by their order: that is where they say the same, as `==` tells.
pub fn values_compare_equal(one: &Value, other: &Value) -> bool
    ensures { IsTrue result ↔ (datum_of one.now ≡ datum_of other.now) }
{
    one.compare(other) == Ordering::Equal
}

/// Values that say the same give their hashers the same, and so leave two alike that were alike before.
pub fn equal_values_hash_alike<H: Hasher>(one: &Value, other: &Value, first: &mut H, second: &mut H)
    requires { datum_of one.now ≡ datum_of other.now }
    ensures first { first.new ≡ fold H.write first.old (hash_of.hash_input one.now) }
    ensures second { second.new ≡ fold H.write second.old (hash_of.hash_input one.now) }
    ensures alike { first.old ≡ second.old → first.new ≡ second.new }
{
    hash_both(one, other, first, second);
}

// Equal values give their hashers the same.
fn hash_both<T: Hash, H: Hasher>(one: &T, other: &T, first: &mut H, second: &mut H)
    requires { IsTrue (T.eq one.now other.now) }
    ensures first { first.new ≡ fold H.write first.old (T.hash_input one.now) }
    ensures second { second.new ≡ fold H.write second.old (T.hash_input one.now) }
{
    one.hash(first);
    other.hash(second);
}
