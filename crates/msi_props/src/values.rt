//! Values by rising number.
ghost use Rattle.std.specs.Prelude.{◌≡◌, ◌++◌, ◌≤◌, drop, length, map, option_map, slice_get, take, IfErr, OnOk, Some, ℕ, true, false};
ghost use Rattle.msi_props.specs.declared.value.PropertyValue.{PropertyValue};
ghost use Rattle.msi_props.specs.Held.{pair_in, property_in};
ghost use Rattle.msi_props.specs.Props.{Property, property_put, property_removed, value_of};
ghost use Rattle.cfb_medium.specs.declared.error.Error.TheVariants.{Memory};

use crate::value::PropertyValue;
use cfb_medium::Error;

// The value of a number.
pub(crate) fn find_value(values: &[(u32, PropertyValue)], number: u32) -> Option<&PropertyValue>
    ensures { option_map (λ v. property_in v.now) result
        ≡ value_of number (map pair_in values.now) }
{
    for value in values {
        if value.0 == number {
            return Some(&value.1);
        }
    }
    None
}

// The place of the first value whose number isn't below this one.
fn place_of(values: &[(u32, PropertyValue)], number: u32) -> usize
    ensures within { result ≤ length values.now }
    ensures split { (v : Property)
        → property_put number v (map pair_in values.now)
        ≡ take result (map pair_in values.now)
        ++ property_put number v (drop result (map pair_in values.now)) }
    ensures found { (e : ℕ × PropertyValue) → slice_get values.now result ≡ Some e → number ≤ e.0 }
{
    for (place, value) in values.iter().enumerate() {
        if number <= value.0 {
            return place;
        }
    }
    values.len()
}

// Whether the value at a place has this number.
fn stands_at(values: &[(u32, PropertyValue)], number: u32, place: usize) -> bool
    ensures there { result ≡ true
        → (e : ℕ × PropertyValue) × (slice_get values.now place ≡ Some e) × (e.0 ≡ number) }
    ensures other { result ≡ false → (e : ℕ × PropertyValue) → slice_get values.now place ≡ Some e
        → e.0 ≡ number → ⊥ }
{
    match values.get(place) {
        Some(value) => value.0 == number,
        None => false,
    }
}

// Puts a value at its place, over that of its number.
pub(crate) fn put_value(
    values: &mut Vec<(u32, PropertyValue)>,
    number: u32,
    value: PropertyValue,
) -> Result<(), Error>
    ensures ok { OnOk result (map pair_in values.new.items
        ≡ property_put number (property_in value) (map pair_in values.old.items)) }
    ensures errors { IfErr result (λ e. (e ≡ Memory) × (values.new.items ≡ values.old.items)) }
{
    let place = place_of(values, number);
    if stands_at(values, number, place) {
        values[place] = (number, value);
    } else {
        values.insert(place, (number, value))?;
    }
    Ok(())
}

// Removes the value of a number.
pub(crate) fn remove_value(values: &mut Vec<(u32, PropertyValue)>, number: u32)
    ensures { map pair_in values.new.items
        ≡ property_removed number (map pair_in values.old.items) }
{
    values.retain(|value| value.0 != number);
}
