//! Texts with other bytes that a page reads as one.
ghost use Rattle.std.specs.Prelude.{◌≡◌, ◌<◌, ◌^◌, length, IfErr};
ghost use Rattle.cfb_medium.specs.declared.error.Error.TheVariants.{Memory};

use crate::heads::read_pool;
use crate::page::TextPage;
use crate::pool::split_texts;
use cfb_medium::Error;
use std::alloc::Global;
use std::collections::BTreeMap;

/// The places of texts of a pool that have other bytes and that the page reads as one: the first place of the text, and the later one.
/// `UnexpectedEof` and `InvalidData` as `reread_pool`. The other error is `Memory`.
pub fn joined_texts(
    alloc: Global,
    page: TextPage,
    pool: &[u8],
    data: &[u8],
) -> Result<Vec<(u32, u32)>, Error> {
    let (_is_long, heads) = read_pool(alloc, pool)?;
    let stored = split_texts(alloc, &heads, data)?;
    joined_among(alloc, page, &stored)
}

// The same of these texts. The one error is `Memory`.
fn joined_among(
    alloc: Global,
    page: TextPage,
    stored: &[(&[u8], u16)],
) -> Result<Vec<(u32, u32)>, Error>
    requires { length stored.now < 2 ^ 32 }
    ensures errors { IfErr result (λ e. e ≡ Memory) }
{
    let mut firsts: BTreeMap<String, (u32, &[u8])> = BTreeMap::new(alloc);
    let mut joined = Vec::new(alloc);
    let mut place = 0;
    for (bytes, _count) in stored {
        place += 1;
        let (text, _is_whole) = page.read(alloc, bytes)?;
        match firsts.get(&text) {
            Some((first, other)) => {
                if *other != *bytes {
                    joined.push((*first, place))?;
                }
            }
            None => {
                firsts.insert(text, (place, *bytes))?;
            }
        }
    }
    Ok(joined)
}
