//! Members of an object, and what they hold.
ghost use Rattle.std.specs.Prelude.{◌≡◌, ◌^◌, map, option_and_then, option_map, bytes_eq};
ghost use Rattle.std.specs.List.{list_any};
ghost use Rattle.serde_json.specs.Find.{as_array, as_str, get};
ghost use Rattle.serde_json.specs.View.{items_view, members_view, view};
ghost use Rattle.json_parts.specs.Reads.{ReturnsOrInvalidInput};
ghost use Rattle.json_parts.specs.Values.{in_range, int_in, keys_among, only_keys, text_at, two_in, whole_in};

use cfb_medium::Error;
use serde_json::{Map, Value as Json};

/// Whether it is an object, each of whose keys is among these.
pub fn has_only(json: &Json, keys: &[&str]) -> bool
    ensures { result ≡ only_keys (map (λ key. key.now) keys.now) (view json.now) }
{
    match json.as_object() {
        Some(members) => are_among(members, keys),
        None => false,
    }
}

/// Whether each key of an object is among these.
pub fn are_among(members: &Map<String, Json>, keys: &[&str]) -> bool
    ensures { result
        ≡ keys_among (map (λ key. key.now) keys.now) (members_view members.now.entries) }
{
    for (key, _) in members {
        if !is_among(key.as_str(), keys) {
            return false;
        }
    }
    true
}

#[tactic(auto, using(crate::proofs::ReadLists::list_any_map))]
fn is_among(key: &str, keys: &[&str]) -> bool
    ensures { result ≡ list_any (bytes_eq key.now) (map (λ one. one.now) keys.now) }
{
    is_one(key, keys)
}

fn is_one(key: &str, keys: &[&str]) -> bool
    ensures { result ≡ list_any (λ one. bytes_eq key.now one.now) keys.now }
{
    keys.iter().any(|one| key == *one)
}

/// What stands at a key of an object. `InvalidInput` where it is no object or has no such key.
pub fn member<'a>(json: &'a Json, key: &str) -> Result<&'a Json, Error>
    ensures { ReturnsOrInvalidInput (λ found. view found.now) result (get key.now (view json.now)) }
{
    match json.get(key) {
        Some(found) => Ok(found),
        None => Err(Error::InvalidInput),
    }
}

/// A text. `InvalidInput` for anything else.
pub fn text_of(json: &Json) -> Result<&str, Error>
    ensures { ReturnsOrInvalidInput (λ text. text.now) result (as_str (view json.now)) }
{
    match json.as_str() {
        Some(text) => Ok(text),
        None => Err(Error::InvalidInput),
    }
}

/// The text of a key of an object, where there is one.
pub fn find_text<'a>(json: &'a Json, key: &str) -> Option<&'a str>
    ensures { option_map (λ text. text.now) result ≡ text_at key.now (view json.now) }
{
    match json.get(key) {
        Some(found) => found.as_str(),
        None => None,
    }
}

/// The text of a key of an object. `InvalidInput` where there is none.
pub fn text_at<'a>(json: &'a Json, key: &str) -> Result<&'a str, Error>
    ensures { ReturnsOrInvalidInput (λ text. text.now) result (text_at key.now (view json.now)) }
{
    match find_text(json, key) {
        Some(text) => Ok(text),
        None => Err(Error::InvalidInput),
    }
}

/// A list. `InvalidInput` for anything else.
pub fn list_of(json: &Json) -> Result<&[Json], Error>
    ensures { ReturnsOrInvalidInput (λ items. items_view items.now) result
        (as_array (view json.now)) }
{
    match json.as_array() {
        Some(list) => Ok(list.as_slice()),
        None => Err(Error::InvalidInput),
    }
}

/// The two parts of a list of two. `InvalidInput` for anything else.
pub fn two_of(json: &Json) -> Result<(&Json, &Json), Error>
    ensures { ReturnsOrInvalidInput (λ two. (view two.0.now, view two.1.now)) result
        (two_in (view json.now)) }
{
    let list = list_of(json)?;
    if list.len() != 2 {
        return Err(Error::InvalidInput);
    }
    Ok((&list[0], &list[1]))
}

/// A whole number of 32 bits with its sign. `InvalidInput` for anything else.
pub fn integer_of(json: &Json) -> Result<i32, Error>
    ensures { ReturnsOrInvalidInput (λ number. number) result (int_in (view json.now)) }
{
    match json.as_i64() {
        Some(number) => integer_from(number),
        None => Err(Error::InvalidInput),
    }
}

// A number, where it has 32 bits.
fn integer_from(number: i64) -> Result<i32, Error>
    ensures { ReturnsOrInvalidInput (λ read. read) result (in_range number) }
{
    i32::try_from(number).or(Err(Error::InvalidInput))
}

/// A whole number from 0 on, of 64 bits. `InvalidInput` for anything else.
pub fn whole_of(json: &Json) -> Result<u64, Error>
    ensures { ReturnsOrInvalidInput (λ number. number) result (whole_in (2 ^ 64) (view json.now)) }
{
    json.as_u64().ok_or(Error::InvalidInput)
}

/// A whole number from 0 on, of 16 bits. `InvalidInput` for anything else.
pub fn short_of(json: &Json) -> Result<u16, Error>
    ensures { ReturnsOrInvalidInput (λ number. number) result (whole_in (2 ^ 16) (view json.now)) }
{
    let number = whole_of(json)?;
    u16::try_from(number).or(Err(Error::InvalidInput))
}
