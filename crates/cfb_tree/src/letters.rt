//! The case table.
ghost use Rattle.cfb_medium.specs.declared.error.Error.TheVariants.{InvalidInput, Memory};
ghost use Rattle.cfb_tree.specs.Names.{ascii_letters, is_between, letter, touches, AreLetters};
ghost use Rattle.std.specs.Char.{IsScalar};
ghost use Rattle.std.specs.Prelude.{IfErr, IfOk, OnOk, ℕ, ◌≡◌, ◌⊎◌};

use cfb_medium::Error;
use std::alloc::Global;
use std::collections::BTreeMap;

// The letters of ASCII.
const ASCII_LETTERS: [(char, char); 26] = [
    ('a', 'A'),
    ('b', 'B'),
    ('c', 'C'),
    ('d', 'D'),
    ('e', 'E'),
    ('f', 'F'),
    ('g', 'G'),
    ('h', 'H'),
    ('i', 'I'),
    ('j', 'J'),
    ('k', 'K'),
    ('l', 'L'),
    ('m', 'M'),
    ('n', 'N'),
    ('o', 'O'),
    ('p', 'P'),
    ('q', 'Q'),
    ('r', 'R'),
    ('s', 'S'),
    ('t', 'T'),
    ('u', 'U'),
    ('v', 'V'),
    ('w', 'W'),
    ('x', 'X'),
    ('y', 'Y'),
    ('z', 'Z'),
];

/// The case table of a file: which characters count as another where names are compared ([MS-CFB] 2.6.4).
#[derive(Drop)]
pub struct CaseMapper {
    letters: BTreeMap<char, char>,
    ghost scalars: { (c : ℕ) → IsScalar c → IsScalar (letter letters.entries c) },
}

// Whether a character stands between two others, or is one of them.
fn is_between(low: char, high: char, ch: char) -> bool
    ensures { result ≡ is_between low high ch }
{
    low <= ch && ch <= high
}

impl CaseMapper {
    ghost use Rattle.cfb_tree.specs.CaseTableViews.{case_table_of, ReplaceAlike};

    /// The table of these pairs of a character and the one that it counts as. `InvalidInput` where a character stands on
    /// two left sides, or a pair joins one UTF-16 unit with two. The one other error is `Memory`.
    pub fn new(alloc: Global, pairs: &[(char, char)]) -> Result<CaseMapper, Error>
        ensures replaces { IfOk result (λ m. ReplaceAlike (case_table_of m) pairs.now) }
        ensures taken { OnOk result (AreLetters pairs.now) }
        ensures errors { IfErr result (λ e. (e ≡ Memory)
            ⊎ ((e ≡ InvalidInput) × (AreLetters pairs.now → ⊥))) }
    {
        let mut letters = BTreeMap::new(alloc);
        for (from, to) in pairs {
            if from.len_utf16() != to.len_utf16() {
                return Err(Error::InvalidInput);
            }
            if letters.contains_key(from) {
                return Err(Error::InvalidInput);
            }
            let _ = letters.insert(*from, *to)?;
        }
        Ok(CaseMapper { letters })
    }

    /// The table of ASCII: each of a to z counts as its capital. The one error is `Memory`.
    pub fn ascii(alloc: Global) -> Result<CaseMapper, Error>
        ensures replaces { IfOk result (λ m. ReplaceAlike (case_table_of m) ascii_letters) }
        ensures errors { IfErr result (λ e. e ≡ Memory) }
    {
        CaseMapper::new(alloc, &ASCII_LETTERS)
    }

    /// Whether the table names a character of a range: some pair has either side between `low` and `high`, both included. It takes
    /// no memory ([MS-CFB] 2.6.4).
    pub fn touches(&self, low: char, high: char) -> bool
        ensures { result ≡ touches (case_table_of self.now) low high }
    {
        self.letters.iter().any(|(from, to)| is_between(low, high, *from)
            || is_between(low, high, *to))
    }

    // The character that one counts as.
    pub(crate) fn letter(&self, ch: char) -> char
        ensures { result ≡ letter (case_table_of self.now) ch }
    {
        self.letters.get(&ch).copied().unwrap_or(ch)
    }
}
