//! Names: which are valid, and their order.
ghost use Rattle.cfb_medium.specs.declared.error.Error.TheVariants.{InvalidInput, Memory};
ghost use Rattle.cfb_tree.specs.CaseTableViews.{case_table_of};
ghost use Rattle.cfb_tree.specs.Names.{is_forbidden, is_name, name_cmp, name_key, rank};
ghost use Rattle.std.specs.Cmp.Lexicographic.{slice_cmp};
ghost use Rattle.std.specs.Ordering.{nat_cmp};
ghost use Rattle.std.specs.Prelude.{chars, length, IfErr, IfOk, IsOk, IsTrue, ◌≡◌, ◌↔◌};

use crate::letters::CaseMapper;
use cfb_medium::Error;
use std::alloc::Global;
use std::cmp::Ordering;

// The most UTF-16 units that a name has.
const MOST_UNITS: usize = 31;

/// The key of a name: its UTF-16 units after each character was replaced by the one that it counts as. Two names are one
/// to a storage where their keys are equal ([MS-CFB] 2.6.4). The one error is `Memory`.
#[tactic(auto, unfolding(crate::specs::Names::name_key))]
pub fn name_key(alloc: Global, letters: &CaseMapper, name: &str) -> Result<Vec<u16>, Error>
    ensures key { IfOk result (λ key. key.items
        ≡ name_key (case_table_of letters.now) (chars name.now)) }
    ensures errors { IfErr result (λ e. e ≡ Memory) }
{
    let mut key = Vec::new(alloc);
    for ch in name.chars() {
        let mut units = [0; 2];
        key.extend_from_slice(letters.letter(ch).encode_utf16(&mut units))?;
    }
    Ok(key)
}

// The number of units of a name's key.
pub(crate) fn key_len(letters: &CaseMapper, name: &str) -> usize
    ensures { result ≡ length (name_key (case_table_of letters.now) (chars name.now)) }
{
    let mut units = 0;
    for ch in name.chars() {
        units += letters.letter(ch).len_utf16();
    }
    units
}

// A character's place in the order of UTF-16 units, in which those of two units come before U+E000.
pub(crate) fn rank(ch: char) -> u32
    ensures { result ≡ rank ch }
{
    match ch as u32 {
        code @ 0..=0xDFFF => code,
        code @ 0xE000..=0xFFFF => code + 0x10_0000,
        code => code - 0x2800,
    }
}

// The order of two names' keys, unit by unit.
fn compare_units(letters: &CaseMapper, one: &str, other: &str) -> Ordering
    ensures { result
        ≡ slice_cmp nat_cmp (name_key (case_table_of letters.now) (chars one.now))
        (name_key (case_table_of letters.now) (chars other.now)) }
{
    let ranks = one.chars().map(|ch| rank(letters.letter(ch)));
    ranks.cmp(other.chars().map(|ch| rank(letters.letter(ch))))
}

/// The order of two names among a storage's children: that of their keys. A key of fewer units comes first, and keys of as
/// many are compared unit by unit ([MS-CFB] 2.6.4). It takes no memory.
pub fn compare_names(letters: &CaseMapper, one: &str, other: &str) -> Ordering
    ensures { result ≡ name_cmp (case_table_of letters.now) (chars one.now) (chars other.now) }
{
    match key_len(letters, one).cmp(&key_len(letters, other)) {
        Ordering::Equal => compare_units(letters, one, other),
        order => order,
    }
}

// Whether no new name has this character.
fn is_forbidden(ch: char) -> bool
    ensures { result ≡ is_forbidden ch }
{
    matches!(ch, '/' | '\\' | ':' | '!')
}

/// Takes what a new name may be: one to 31 UTF-16 units, and none of `/`, `\`, `:`, `!` ([MS-CFB] 2.6.1). Any other is
/// `InvalidInput`. It takes no memory.
pub fn validate_name(name: &str) -> Result<(), Error>
    ensures valid { IsOk result ↔ IsTrue (is_name (chars name.now)) }
    ensures errors { IfErr result (λ e. e ≡ InvalidInput) }
{
    let mut units = 0;
    for ch in name.chars() {
        units += ch.len_utf16();
        if MOST_UNITS < units {
            return Err(Error::InvalidInput);
        }
        if is_forbidden(ch) {
            return Err(Error::InvalidInput);
        }
    }
    if units == 0 {
        return Err(Error::InvalidInput);
    }
    Ok(())
}
