//! A name against that of an entry, without memory.
ghost use Rattle.cfb_tree.specs.Directory.{HasName};
ghost use Rattle.cfb_tree.specs.EntryViews.{entry_in};
ghost use Rattle.cfb_tree.specs.CaseTableViews.{case_table_of};
ghost use Rattle.cfb_tree.specs.Names.{name_cmp, name_key};
ghost use Rattle.std.specs.Char.Utf16.{utf16_chars};
ghost use Rattle.std.specs.Char.{IsScalar};
ghost use Rattle.std.specs.Cmp.Lexicographic.{slice_cmp};
ghost use Rattle.std.specs.List.{AllByRecursion};
ghost use Rattle.std.specs.Ordering.{nat_cmp};
ghost use Rattle.std.specs.Prelude.{chars, drop, length, map, take, List, MatchOption, Some, ℕ, ◌<◌, ◌∷◌, ◌≡◌, ◌≤◌};

use crate::entry::DirEntry;
use crate::letters::CaseMapper;
use crate::names::{key_len, rank};
use std::cmp::Ordering;

// The most UTF-16 units that an entry's name has.
const MOST_UNITS: usize = 31;

// The first character that some units spell, and how many of them: none for a surrogate without a partner.
fn first_char(units: &[u16]) -> Option<(char, usize)>
    requires { 0 < length units.now }
    ensures { MatchOption result ((name : List ℕ) → utf16_chars units.now ≡ map Some name → ⊥)
        (λ it. (utf16_chars units.now ≡ Some it.0 ∷ utf16_chars (drop it.1 units.now))
        × (0 < it.1) × (it.1 ≤ length units.now) × IsScalar it.0) }
{
    let high = u32::from(units[0]);
    if let Some(ch) = char::from_u32(high) {
        return Some((ch, 1));
    }
    if high >= 0xDC00 {
        return None;
    }
    if units.len() < 2 {
        return None;
    }
    let low = u32::from(units[1]);
    if low < 0xDC00 {
        return None;
    }
    if low >= 0xE000 {
        return None;
    }
    match char::from_u32(0x1_0000 + (high - 0xD800) * 0x400 + (low - 0xDC00)) {
        Some(ch) => Some((ch, 2)),
        None => None,
    }
}

// The characters that some units spell, and how many they are, where the units are UTF-16.
fn decoded_units(units: &[u16]) -> Option<([char; MOST_UNITS], usize)>
    requires { length units.now ≤ 31 }
    ensures { MatchOption result ((name : List ℕ) → utf16_chars units.now ≡ map Some name → ⊥)
        (λ it. (utf16_chars units.now ≡ map Some (take it.1 it.0)) × (it.1 ≤ 31)
        × (length it.0 ≡ 31) × AllByRecursion IsScalar (take it.1 it.0)) }
{
    let mut found = ['\0'; MOST_UNITS];
    let mut len = 0;
    let mut rest = units;
    'units: while !rest.is_empty() {
        let Some((ch, used)) = first_char(rest) else {
            return None;
        };
        found[len] = ch;
        len += 1;
        rest = &rest[used..];
    }
    Some((found, len))
}

// The number of units of a key.
fn chars_key_len(letters: &CaseMapper, chars: &[char]) -> usize
    requires { length chars.now ≤ 31 }
    ensures { result ≡ length (name_key (case_table_of letters.now) chars.now) }
{
    let mut units = 0;
    for ch in chars {
        units += letters.letter(*ch).len_utf16();
    }
    units
}

// The order of a name's key and that of some characters, unit by unit.
fn compare_chars(letters: &CaseMapper, one: &str, other: &[char]) -> Ordering
    requires { AllByRecursion IsScalar other.now }
    ensures { result
        ≡ slice_cmp nat_cmp (name_key (case_table_of letters.now) (chars one.now))
        (name_key (case_table_of letters.now) other.now) }
{
    let ranks = one.chars().map(|ch| rank(letters.letter(ch)));
    ranks.cmp(other.iter().map(|ch| rank(letters.letter(*ch))))
}

impl DirEntry {
    /// The order of a name and the entry's, among a storage's children; none where the entry has no name. It takes no memory.
    pub fn compare_name(&self, letters: &CaseMapper, name: &str) -> Option<Ordering>
        ensures { MatchOption result ((own : List ℕ) → HasName (entry_in self.now) own → ⊥)
            (λ order. (own : List ℕ) × HasName (entry_in self.now) own
            × (order ≡ name_cmp (case_table_of letters.now) (chars name.now) own)) }
    {
        let Some(units) = self.units() else {
            return None;
        };
        let Some(found) = decoded_units(units) else {
            return None;
        };
        let own = &found.0[..found.1];
        match key_len(letters, name).cmp(&chars_key_len(letters, own)) {
            Ordering::Equal => Some(compare_chars(letters, name, own)),
            order => Some(order),
        }
    }
}
