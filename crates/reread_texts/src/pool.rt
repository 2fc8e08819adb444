//! The two streams of a string pool in UTF-8, of texts in a page of one's choice.
ghost use Rattle.std.specs.Prelude.{◌≡◌, ◌⊎◌, ◌+◌, ◌<◌, ◌^◌, ◌++◌, false, length, map, nat_lt, true, IfErr, IfOk, IsTrue, Ok, OnOk};
ghost use Rattle.cfb_medium.specs.declared.error.Error.TheVariants.{InvalidInput, Memory};
ghost use Rattle.msi_pool.specs.Pool.{head_bytes, width_bit};
ghost use Rattle.msi_pool.specs.PoolReading.{texts_at};
ghost use Rattle.msi_texts.specs.Numbers.{le_bytes};
ghost use Rattle.msi_texts.specs.Results.{ReturnsOrOutOfMemory};
ghost use Rattle.reread_texts.specs.Pools.{can_be_written, lacking_place, pool_reread, text_seen, written_by};
ghost use Rattle.reread_texts.specs.Texts.{text_of};

use crate::heads::{LONG_STRING_REFS_BIT, read_pool};
use crate::page::TextPage;
use cfb_medium::Error;
use msi_texts::{write_u16, write_u32};
use std::alloc::{AllocError, Global};

// The number of UTF-8.
const UTF8: u32 = 65001;

// No text may have so many bytes.
const LENGTH_LIMIT: usize = 4294967295;

/// The two streams of a pool in UTF-8.
#[derive(Debug, Drop)]
pub struct RereadPool {
    /// The page, the width of references, and the length and the count of each text.
    pub pool: Vec<u8>,
    /// The texts, one after the other.
    pub data: Vec<u8>,
    /// The places of the texts, rising, of which bytes have no character: U+FFFD stands there.
    pub lacking: Vec<u32>,
}

/// The two streams of a pool in UTF-8, of two whose texts this page reads, whatever page they name. Places and counts stay. `UnexpectedEof`
/// where bytes are missing, `InvalidData` for more than 4294967295 places. `InvalidInput` where a text gets 4294967295 bytes or more, or one
/// without a count 65536: so many can't be written. The other error is `Memory`.
pub fn reread_pool(
    alloc: Global,
    page: TextPage,
    pool: &[u8],
    data: &[u8],
) -> Result<RereadPool, Error>
    ensures { ReturnsOrOutOfMemory
        (λ it. (it.pool.items, it.data.items, it.lacking.items)) result
        (pool_reread page pool.now data.now) }
{
    let (is_long, heads) = read_pool(alloc, pool)?;
    let stored = split_texts(alloc, &heads, data)?;
    rewrite(alloc, page, is_long, &stored)
}

// The bytes and the count of each text. `UnexpectedEof` where bytes are missing.
pub(crate) fn split_texts<'a>(
    alloc: Global,
    heads: &[(u32, u16)],
    bytes: &'a [u8],
) -> Result<Vec<(&'a [u8], u16)>, Error>
    ensures texts { ReturnsOrOutOfMemory (λ texts. map text_seen texts.items) result
        (texts_at heads.now bytes.now) }
    ensures len { IfOk result (λ texts. length texts.items ≡ length heads.now) }
{
    let mut rest = bytes;
    let mut texts = Vec::new(alloc);
    for (len, count) in heads {
        let (text, behind) = rest
            .split_at_checked(*len as usize)
            .ok_or(Error::UnexpectedEof)?;
        texts.push((text, *count))?;
        rest = behind;
    }
    Ok(texts)
}

// The streams of texts. `InvalidInput` where one can't be written.
fn rewrite(
    alloc: Global,
    page: TextPage,
    is_long: bool,
    stored: &[(&[u8], u16)],
) -> Result<RereadPool, Error>
    requires { length stored.now < 2 ^ 32 }
    ensures { ReturnsOrOutOfMemory
        (λ it. (it.pool.items, it.data.items, it.lacking.items)) result
        (written_by page is_long (map text_seen stored.now)) }
{
    let mut found = RereadPool {
        pool: first_bytes(alloc, is_long)?,
        data: Vec::new(alloc),
        lacking: Vec::new(alloc),
    };
    let mut place = 0;
    for text in stored {
        place += 1;
        add_text(alloc, page, *text, place, &mut found)?;
    }
    Ok(found)
}

// The page and the width of references.
fn first_bytes(alloc: Global, is_long: bool) -> Result<Vec<u8>, AllocError>
    ensures { IfOk result (λ bytes. bytes.items ≡ le_bytes 4 (65001 + width_bit is_long)) }
{
    let mut bytes = Vec::new(alloc);
    let width_bit = if is_long { LONG_STRING_REFS_BIT } else { 0 };
    write_u32(&mut bytes, UTF8 + width_bit)?;
    Ok(bytes)
}

// Adds a text at a place. `InvalidInput` where it can't be written. The other error is `Memory`.
fn add_text(
    alloc: Global,
    page: TextPage,
    stored: (&[u8], u16),
    place: u32,
    found: &mut RereadPool,
) -> Result<(), Error>
    ensures pool { OnOk result (found.new.pool.items ≡ found.old.pool.items
        ++ head_bytes (length (text_of page stored.entry.0.now)) stored.entry.1) }
    ensures data { OnOk result (found.new.data.items ≡ found.old.data.items
        ++ text_of page stored.entry.0.now) }
    ensures lacking { OnOk result (found.new.lacking.items ≡ found.old.lacking.items
        ++ lacking_place page place (text_seen stored.entry)) }
    ensures written { OnOk result (IsTrue (can_be_written page (text_seen stored.entry))) }
    ensures errors { IfErr result (λ e. (e ≡ Memory) ⊎ ((e ≡ InvalidInput)
        × (can_be_written page (text_seen stored.entry) ≡ false))) }
{
    let (bytes, count) = stored;
    let (text, is_whole) = page.read(alloc, bytes)?;
    let limit = if count == 0 { 65536 } else { LENGTH_LIMIT };
    if limit <= text.len() {
        return Err(Error::InvalidInput);
    }
    write_head(&mut found.pool, text.len() as u32, count)?;
    found.data.extend_from_slice(text.as_bytes())?;
    if !is_whole {
        found.lacking.push(place)?;
    }
    Ok(())
}

// Appends how a length and a count are written: a length of 0 with a count stands for the one behind it.
fn write_head(bytes: &mut Vec<u8>, len: u32, count: u16) -> Result<(), AllocError>
    ensures { OnOk result (bytes.new.items ≡ bytes.old.items ++ head_bytes len count) }
{
    if len == 0 && count == 0 {
        return write_u32(bytes, 0);
    }
    if len == 0 || 65536 <= len {
        write_u16(bytes, 0)?;
        write_u16(bytes, count)?;
        write_u32(bytes, len)
    } else {
        write_u16(bytes, len as u16)?;
        write_u16(bytes, count)
    }
}
