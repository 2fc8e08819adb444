//! Where the bytes of a mini chain stand in the mini stream ([MS-CFB] 2.4).
ghost use Rattle.cfb_mini.specs.LinkViews.{minis_of};
ghost use Rattle.cfb_chain_io.specs.ChainEffects.{len_of};
ghost use Rattle.std.specs.Prelude.{length, slice_index, IsTrue, ◌%◌, ◌*◌, ◌+◌, ◌-◌, ◌/◌, ◌<◌, ◌≡◌, ◌≤◌, ◌↔◌, ◌^◌};

use crate::MiniLinks;
use cfb_chains::Links;
use cfb_sectors::MINI_SECTOR_LEN;

// How many bytes the sectors of a chain have.
pub(crate) fn stream_len(links: &Links) -> u64
    ensures { result ≡ len_of links.now }
{
    links.sector_ids().len() as u64 * links.version().sector_len() as u64
}

// Whether so many bytes from a place on lie in a mini chain.
pub(crate) fn lies_in(links: &MiniLinks, at: u64, count: usize) -> bool
    ensures { IsTrue result ↔ (at + count ≤ 64 * length (minis_of links.now)) }
{
    match at.checked_add(count as u64) {
        Some(end) => end <= links.len(),
        None => false,
    }
}

// Where the byte at a position of a mini chain stands in the mini stream, and how many bytes its mini sector has from it on.
pub(crate) fn spot(links: &MiniLinks, position: u64) -> (u64, usize)
    requires { position < 64 * length (minis_of links.now) }
    ensures place { result.0
        ≡ 64 * slice_index (minis_of links.now) (position / 64) + position % 64 }
    ensures left { result.1 ≡ 64 - position % 64 }
    ensures small { result.0 < 2 ^ 39 }
{
    let len = MINI_SECTOR_LEN as u64;
    let offset = position % len;
    let id = links.mini_sector_ids()[(position / len) as usize];
    (len * id as u64 + offset, (len - offset) as usize)
}
