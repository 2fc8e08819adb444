//! Names of streams as the container has them, without memory.
ghost use Rattle.std.specs.Prelude.{◌≡◌, ◌≤◌, ◌+◌, ◌++◌, ◌∷◌, [], ℕ, List, length, take, encode_utf8, encode_utf8_all, IsUtf8};
ghost use Rattle.std.specs.Char.{len_utf8};
ghost use Rattle.msi_texts.specs.StreamName.{spelled_after};

use crate::streamname::{TABLE_PREFIX, is_valid, lone_char, pair_char};

// The most bytes of a name of 31 units.
const MOST_BYTES: usize = 93;

// Writes a character at a place, and answers the place behind it.
fn put(bytes: &mut [u8], at: usize, ch: char) -> usize
    requires { at + len_utf8 ch ≤ length bytes.old }
    ensures end { result ≡ at + len_utf8 ch }
    ensures text { take result bytes.new ≡ take at bytes.old ++ encode_utf8 ch }
    ensures within { result ≤ length bytes.new }
{
    let mut room = [0; 4];
    let text = ch.encode_utf8(&mut room);
    let end = at + text.len();
    bytes[at..end].copy_from_slice(text.as_bytes());
    end
}

// Writes the next character of a name, where one before it may wait.
fn put_next(bytes: &mut [u8], at: usize, pending: Option<char>, ch: char) -> (usize, Option<char>)
    requires { (rest : List ℕ)
        × (at + length (encode_utf8_all (spelled_after pending (ch ∷ rest))) ≤ length bytes.old) }
    ensures text { (rest : List ℕ)
        → take result.0 bytes.new ++ encode_utf8_all (spelled_after result.1 rest)
        ≡ take at bytes.old ++ encode_utf8_all (spelled_after pending (ch ∷ rest)) }
    ensures within { result.0 ≤ length bytes.new }
{
    let Some(first) = pending else {
        return (at, Some(ch));
    };
    match pair_char(first, ch) {
        Some(pair) => (put(bytes, at, pair), None),
        None => (put(bytes, at, lone_char(first)), Some(ch)),
    }
}

// Writes what waits at the end of a name.
fn put_last(bytes: &mut [u8], at: usize, pending: Option<char>) -> usize
    requires { at + length (encode_utf8_all (spelled_after pending [])) ≤ length bytes.old }
    ensures text { take result bytes.new
        ≡ take at bytes.old ++ encode_utf8_all (spelled_after pending []) }
    ensures within { result ≤ length bytes.new }
{
    match pending {
        Some(last) => put(bytes, at, lone_char(last)),
        None => at,
    }
}

/// A stream's name as the container has it, in 31 units of UTF-16 at most. It takes no memory.
#[derive(Drop)]
pub struct EncodedName {
    bytes: [u8; MOST_BYTES],
    len: usize,
    ghost within: { len ≤ 93 },
    ghost is_text: { ∥ IsUtf8 (take len bytes) ∥₁ },
}

impl EncodedName {
    ghost use Rattle.std.specs.Prelude.{IfSome, is_some, chars};
    ghost use Rattle.msi_texts.specs.StreamName.{spelled_name, is_valid_name};
    ghost use Rattle.msi_texts.specs.EncodedName.{encoded_text};

    /// Encodes a stream name, as `encode` does: there is none exactly where the name isn't valid.
    pub fn new(name: &str, is_table: bool) -> Option<EncodedName>
        ensures valid { is_some result ≡ is_valid_name is_table (chars name.now) }
        ensures text { IfSome result (λ encoded. encoded_text encoded
            ≡ encode_utf8_all (spelled_name is_table (chars name.now))) }
    {
        if !is_valid(name, is_table) {
            return None;
        }
        let mut bytes = [0; MOST_BYTES];
        let mut at = 0;
        if is_table {
            at = put(&mut bytes, 0, TABLE_PREFIX);
        }
        let mut pending = None;
        for ch in name.chars() {
            let (end, waiting) = put_next(&mut bytes, at, pending, ch);
            at = end;
            pending = waiting;
        }
        let len = put_last(&mut bytes, at, pending);
        Some(EncodedName { bytes, len })
    }

    /// The encoded name.
    pub fn as_str(&self) -> &str
        ensures { result.now ≡ encoded_text self.now }
    {
        str::from_utf8(&self.bytes[..self.len]).unwrap()
    }
}
