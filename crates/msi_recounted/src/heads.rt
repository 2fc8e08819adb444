//! The first stream of a pool, with other counts.
ghost use Rattle.std.specs.Prelude.{◌≡◌, ◌==◌, ◌||◌, ◌↔◌, ◌⊎◌, ◌≤◌, ◌<◌, ◌^◌, ◌++◌, false, length, nat_lt, not, IfErr, IfOk, IsTrue, OnOk};
ghost use Rattle.std.specs.List.{list_all};
ghost use Rattle.cfb_medium.specs.declared.error.Error.TheVariants.{InvalidInput, Memory};
ghost use Rattle.msi_recounted.specs.Counts.{listed_uses, pool_with};
ghost use Rattle.msi_pool.specs.Pool.{pool_entry_at, head_bytes, head_of, last_place, pool_stream, stored_of, stored_place};
ghost use Rattle.msi_pool.specs.PoolKept.{AreFreeEmpty};
ghost use Rattle.msi_pool.specs.PoolState.{length_limit};
ghost use Rattle.msi_texts.specs.Page.{encoded};

use cfb_medium::Error;
use msi_pool::{StringPool, StringRef};
use msi_texts::{write_u16, write_u32};
use std::alloc::{AllocError, Global};

// The bit of the page's number that tells of references of three bytes.
const LONG_STRING_REFS_BIT: u32 = 0x8000_0000;

// No text may have so many bytes.
const LENGTH_LIMIT: usize = 4294967295;

/// The bytes of the pool's first stream, with these uses in place of its counts. `InvalidInput` where a text would reach 4294967295
/// bytes. The one other error is `Memory`.
pub fn recounted_stream(alloc: Global, pool: &StringPool, uses: &[u16]) -> Result<Vec<u8>, Error>
    requires size { length uses.now ≡ length pool.now.pool.places }
    requires few { length uses.now < 2 ^ 24 }
    ensures ok { IfOk result (λ bytes. bytes.items
        ≡ pool_stream (pool_with (listed_uses uses.now) pool.now.pool)) }
    ensures errors { IfErr result (λ e. (e ≡ Memory) ⊎ ((e ≡ InvalidInput)
        × (list_all (λ s. nat_lt (length s.0) length_limit) (stored_of pool.now.pool) ≡ false))) }
{
    let width_bit = if pool.long_string_refs() {
        LONG_STRING_REFS_BIT
    } else {
        0
    };
    let mut bytes = Vec::new(alloc);
    write_u32(&mut bytes, pool.codepage().id() as u32 + width_bit)?;
    for (index, count) in uses.iter().enumerate() {
        match write_place(&mut bytes, pool, StringRef::new(index as u32 + 1), *count) {
            Ok(()) => {}
            Err(error) => return Err(error),
        }
    }
    Ok(bytes)
}

// Appends the length of the text at a place, and this count. `InvalidInput` where the text would reach 4294967295 bytes.
fn write_place(
    bytes: &mut Vec<u8>,
    pool: &StringPool,
    place: StringRef,
    count: u16,
) -> Result<(), Error>
    ensures ok { OnOk result (bytes.new.items ≡ bytes.old.items
        ++ head_of (stored_place pool.now.pool.page
        (record { text = (pool_entry_at pool.now.pool.places place).text; count = count }))) }
    ensures errors { IfErr result (λ e. (e ≡ Memory) ⊎ ((e ≡ InvalidInput) × (length_limit
        ≤ length (encoded pool.now.pool.page (pool_entry_at pool.now.pool.places place).text)))) }
{
    let len = pool.codepage().encoded_len(pool.get(place));
    if LENGTH_LIMIT <= len {
        return Err(Error::InvalidInput);
    }
    write_head(bytes, len as u32, count)?;
    Ok(())
}

// Appends how a length and a count are written: a length of 0 with a count stands for the one behind it.
fn write_head(bytes: &mut Vec<u8>, len: u32, count: u16) -> Result<(), AllocError>
    ensures { OnOk result (bytes.new.items ≡ bytes.old.items ++ head_bytes len count) }
{
    if len == 0 && count == 0 {
        return write_u32(bytes, 0);
    }
    if len == 0 || 65536 <= len {
        write_u16(bytes, 0)?;
        write_u16(bytes, count)?;
        write_u32(bytes, len)
    } else {
        write_u16(bytes, len as u16)?;
        write_u16(bytes, count)
    }
}

/// Whether each text has a use.
pub fn are_texts_used(pool: &StringPool, uses: &[u16]) -> bool
    requires size { length uses.now ≡ length pool.now.pool.places }
    requires few { length uses.now < 2 ^ 24 }
    ensures { IsTrue result
        ↔ AreFreeEmpty (pool_with (listed_uses uses.now) pool.now.pool).places }
{
    for (index, count) in uses.iter().enumerate() {
        if !is_used(pool, StringRef::new(index as u32 + 1), *count) {
            return false;
        }
    }
    true
}

// Whether a place has a use, or no text.
fn is_used(pool: &StringPool, place: StringRef, count: u16) -> bool
    ensures { result
        ≡ (not (count == 0) || (length (pool_entry_at pool.now.pool.places place).text == 0)) }
{
    count != 0 || pool.get(place).is_empty()
}
