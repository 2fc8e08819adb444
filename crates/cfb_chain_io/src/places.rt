//! Where the bytes of a chain stand ([MS-CFB] 2.3).
ghost use Rattle.cfb_chains.specs.LinkViews.{ids_of, links_version};
ghost use Rattle.cfb_chains.specs.Positions.{left_in};
ghost use Rattle.cfb_medium.specs.Versions.{sector_len};
ghost use Rattle.cfb_chain_io.specs.ChainEffects.{len_of};
ghost use Rattle.std.specs.Prelude.{length, slice_index, IsTrue, ◌%◌, ◌+◌, ◌/◌, ◌<◌, ◌≡◌, ◌≤◌, ◌↔◌};

use cfb_chains::Links;

// How many bytes the sectors of a chain have.
pub(crate) fn chain_len(links: &Links) -> u64
    ensures { result ≡ len_of links.now }
{
    links.sector_ids().len() as u64 * links.version().sector_len() as u64
}

// Whether so many bytes from a place on lie in a chain.
pub(crate) fn lies_in(links: &Links, at: u64, count: usize) -> bool
    ensures { IsTrue result ↔ (at + count ≤ len_of links.now) }
{
    match at.checked_add(count as u64) {
        Some(end) => end <= chain_len(links),
        None => false,
    }
}

// Where the byte at a position of a chain stands: its sector, its offset there, and how many bytes the sector has from it on.
pub(crate) fn spot(links: &Links, position: u64) -> (u32, usize, usize)
    requires { position < len_of links.now }
    ensures sector { result.0
        ≡ slice_index (ids_of links.now) (position / sector_len (links_version links.now)) }
    ensures offset { result.1 ≡ position % sector_len (links_version links.now) }
    ensures left { result.2 ≡ left_in (links_version links.now) position }
{
    let len = links.version().sector_len();
    let offset = (position % len as u64) as usize;
    let index = (position / len as u64) as usize;
    (links.sector_ids()[index], offset, len - offset)
}
