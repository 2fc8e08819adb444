//! Reading the string pool from its two streams.
ghost use Rattle.std.specs.Prelude.{◌≡◌, ◌⊎◌, ◌+◌, ◌<◌, ◌≤◌, ◌^◌, ℕ, pos, [], false, length, Ok, Err, IfOk, IfErr, OnOk, OnErr, drop, take, string_bytes};
ghost use Rattle.msi_texts.specs.Results.{ReturnsOrOutOfMemory};
ghost use Rattle.msi_texts.specs.Reading.{number_at};
ghost use Rattle.msi_pool.specs.PoolReading.{head_at, heads_at, begun, text_round_trips, pool_of, page_number, places_at, stored_give_back, text_len, texts_give_back};
ghost use Rattle.msi_texts.specs.Page.{decoded};
ghost use Rattle.msi_pool.specs.Pool.{places_of};
ghost use Rattle.cfb_medium.specs.declared.error.Error.TheVariants.{UnexpectedEof, Memory};

use crate::stringpool::{LONG_STRING_REFS_BIT, StringPool};
use cfb_medium::Error;
use msi_texts::{CodePage, read_u16, read_u32};
use std::alloc::Global;
use std::marker::Model;

/// What the first of a pool's two streams tells: its page, the width of references, and the length and
/// the count of each place.
#[derive(Drop)]
pub struct StringPoolBuilder {
    codepage: CodePage,
    long_string_refs: bool,
    heads: Vec<(u32, u16)>,
}

impl Model for StringPoolBuilder {
    ghost use Rattle.msi_pool.specs.PoolReading.{Begun};
    ghost use Rattle.std.specs.Prelude.{length, ◌<◌, ◌^◌};

    ghost Value = { Begun };

    ghost view = { λ b. record { page = b.codepage; long = b.long_string_refs; heads = b.heads.items } };

    ghost invariant = { λ b. length b.heads.items < 2 ^ 32 };
}

// Takes the length and the count of the next place.
fn read_head(reader: &mut &[u8]) -> Result<(u32, u16), Error>
    ensures ok { IfOk result (λ head. head_at reader.old.now ≡ Ok (head, reader.new.now)) }
    ensures errors { IfErr result (λ e. head_at reader.old.now ≡ Err e) }
{
    let len = u32::from(read_u16(reader)?);
    let count = read_u16(reader)?;
    if len == 0 && 0 < count {
        Ok((read_u32(reader)?, count))
    } else {
        Ok((len, count))
    }
}

// The length and the count of each place. A rest of one byte is ignored.
fn read_heads(alloc: Global, bytes: &[u8]) -> Result<Vec<(u32, u16)>, Error>
    ensures { ReturnsOrOutOfMemory (λ heads. heads.items) result
        (heads_at (length bytes.now) bytes.now) }
{
    let mut rest = bytes;
    let mut heads = Vec::new(alloc);
    while 2 <= rest.len() {
        heads.push(read_head(&mut rest)?)?;
    }
    Ok(heads)
}

impl StringPoolBuilder {
    /// Reads the pool stream to its end. UnexpectedEof where bytes are missing, InvalidData for an
    /// unknown page or more than 4294967295 places; a rest of one byte is ignored. After an error the
    /// reader is where it was.
    pub fn read_from_pool(alloc: Global, reader: &mut &[u8]) -> Result<StringPoolBuilder, Error>
        ensures read { ReturnsOrOutOfMemory (λ builder. builder) result (begun reader.old.now) }
        ensures end { OnOk result (reader.new.now ≡ []) }
        ensures after_error { OnErr result (reader.new.now ≡ reader.old.now) }
    {
        let mut rest = *reader;
        let id = read_u32(&mut rest)?;
        let codepage = CodePage::from_id(page_number(id)).ok_or(Error::InvalidData)?;
        let heads = read_heads(alloc, rest)?;
        if heads.len() > u32::MAX as usize {
            return Err(Error::InvalidData);
        }
        *reader = &[];
        Ok(StringPoolBuilder {
            codepage,
            long_string_refs: LONG_STRING_REFS_BIT <= id,
            heads,
        })
    }

    /// Reads the texts from the data stream, and goes past them. UnexpectedEof where bytes are missing;
    /// after an error the reader is where it was.
    pub fn build_from_data(self, alloc: Global, reader: &mut &[u8]) -> Result<StringPool, Error>
        ensures read { ReturnsOrOutOfMemory (λ pool. pool.pool) result
            (pool_of self reader.old.now) }
        ensures unmodified { IfOk result (λ pool. pool.modified ≡ false) }
        ensures rest { OnOk result (reader.new.now ≡ drop (text_len self.heads) reader.old.now) }
        ensures after_error { OnErr result (reader.new.now ≡ reader.old.now) }
    {
        let mut rest = *reader;
        let strings = read_texts(alloc, self.codepage, self.heads.as_slice(), &mut rest)?;
        let pool = StringPool::from_strings(alloc, self.codepage, self.long_string_refs, strings)?;
        *reader = rest;
        Ok(pool)
    }

    /// Whether each text of the data stream gives its bytes back when it is written under the page.
    /// UnexpectedEof where bytes are missing.
    pub fn gives_back(&self, alloc: Global, bytes: &[u8]) -> Result<bool, Error>
        ensures { ReturnsOrOutOfMemory (λ gives. gives) result
            (texts_give_back self.now bytes.now) }
    {
        texts_give_back(alloc, self.codepage, self.heads.as_slice(), bytes)
    }
}

// Whether each text gives its bytes back when it is written under the page.
fn texts_give_back(
    alloc: Global,
    codepage: CodePage,
    heads: &[(u32, u16)],
    bytes: &[u8],
) -> Result<bool, Error>
    ensures { ReturnsOrOutOfMemory (λ gives. gives) result
        (stored_give_back codepage heads.now bytes.now) }
{
    let mut rest = bytes;
    let mut all = true;
    for (len, _) in heads {
        let (text, behind) = rest
            .split_at_checked(*len as usize)
            .ok_or(Error::UnexpectedEof)?;
        let gives = gives_back(alloc, codepage, text)?;
        all = all && gives;
        rest = behind;
    }
    Ok(all)
}

// Whether a text gives its bytes back.
fn gives_back(alloc: Global, codepage: CodePage, bytes: &[u8]) -> Result<bool, Error>
    ensures ok { IfOk result (λ gives. gives ≡ text_round_trips codepage bytes.now) }
    ensures errors { IfErr result (λ e. e ≡ Memory) }
{
    let text = codepage.decode(alloc, bytes)?;
    let again = codepage.encode(alloc, text.as_str())?;
    Ok(again.as_slice() == bytes)
}

// Takes the next text.
fn read_text(
    alloc: Global,
    codepage: CodePage,
    reader: &mut &[u8],
    len: usize,
) -> Result<String, Error>
    ensures whole { OnOk result (len ≤ length reader.old.now) }
    ensures text { IfOk result (λ text. string_bytes text
        ≡ decoded codepage (take len reader.old.now)) }
    ensures rest { OnOk result (reader.new.now ≡ drop len reader.old.now) }
    ensures errors { IfErr result (λ e. (e ≡ Memory)
        ⊎ ((e ≡ UnexpectedEof) × (length reader.old.now < len))) }
{
    let bytes = *reader;
    if bytes.len() < len {
        return Err(Error::UnexpectedEof);
    }
    *reader = &bytes[len..];
    codepage.decode(alloc, &bytes[..len])
}

// Takes the texts of these places.
fn read_texts(
    alloc: Global,
    codepage: CodePage,
    heads: &[(u32, u16)],
    reader: &mut &[u8],
) -> Result<Vec<(String, u16)>, Error>
    ensures places { ReturnsOrOutOfMemory (λ strings. places_of strings.items) result
        (places_at codepage heads.now reader.old.now) }
    ensures rest { OnOk result (reader.new.now ≡ drop (text_len heads.now) reader.old.now) }
    ensures len { IfOk result (λ strings. length strings.items ≡ length heads.now) }
{
    let mut strings = Vec::new(alloc);
    for (len, count) in heads {
        let text = read_text(alloc, codepage, reader, *len as usize)?;
        strings.push((text, *count))?;
    }
    Ok(strings)
}

// The number of a page without the bit for references of three bytes.
fn page_number(id: u32) -> i32
    ensures { result ≡ pos (page_number id) }
{
    if LONG_STRING_REFS_BIT <= id {
        (id - LONG_STRING_REFS_BIT) as i32
    } else {
        id as i32
    }
}
