//! What the first of a pool's two streams tells of the second, whatever page it names.
ghost use Rattle.std.specs.Prelude.{◌≡◌, ◌<◌, ◌^◌, length, Err, IfErr, IfOk, Ok};
ghost use Rattle.msi_pool.specs.PoolReading.{head_at, heads_at};
ghost use Rattle.msi_texts.specs.Results.{ReturnsOrOutOfMemory};
ghost use Rattle.reread_texts.specs.Pools.{heads_stored};

use cfb_medium::Error;
use msi_texts::{read_u16, read_u32};
use std::alloc::Global;

// The bit of the page's number that says that references take three bytes.
pub(crate) const LONG_STRING_REFS_BIT: u32 = 1 << 31;

// Whether references take three bytes, and the length and the count of each place. `UnexpectedEof` where bytes are missing, `InvalidData`
// for more than 4294967295 places; a rest of one byte is ignored.
pub(crate) fn read_pool(alloc: Global, bytes: &[u8]) -> Result<(bool, Vec<(u32, u16)>), Error>
    ensures read { ReturnsOrOutOfMemory (λ pool. (pool.0, pool.1.items)) result
        (heads_stored bytes.now) }
    ensures few { IfOk result (λ pool. length pool.1.items < 2 ^ 32) }
{
    let mut rest = bytes;
    let id = read_u32(&mut rest)?;
    let heads = read_heads(alloc, rest)?;
    if heads.len() > u32::MAX as usize {
        return Err(Error::InvalidData);
    }
    Ok((LONG_STRING_REFS_BIT <= id, heads))
}

// The length and the count of each place.
fn read_heads(alloc: Global, bytes: &[u8]) -> Result<Vec<(u32, u16)>, Error>
    ensures { ReturnsOrOutOfMemory (λ heads. heads.items) result
        (heads_at (length bytes.now) bytes.now) }
{
    let mut rest = bytes;
    let mut heads = Vec::new(alloc);
    while 2 <= rest.len() {
        heads.push(read_head(&mut rest)?)?;
    }
    Ok(heads)
}

// Takes the length and the count of the next place.
fn read_head(reader: &mut &[u8]) -> Result<(u32, u16), Error>
    ensures ok { IfOk result (λ head. head_at reader.old.now ≡ Ok (head, reader.new.now)) }
    ensures errors { IfErr result (λ e. head_at reader.old.now ≡ Err e) }
{
    let len = u32::from(read_u16(reader)?);
    let count = read_u16(reader)?;
    if len == 0 && 0 < count {
        Ok((read_u32(reader)?, count))
    } else {
        Ok((len, count))
    }
}
