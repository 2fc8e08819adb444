//! Where the links of a table lead: which of its parts a chain begins at ([MS-CFB] 2.3).
ghost use Rattle.cfb_findings.specs.Links.{behind, AreEnds, HasChainFrom};
ghost use Rattle.cfb_medium.specs.declared.error.Error.TheVariants.{Memory};
ghost use Rattle.std.specs.Prelude.{map, IfErr, IfOk, IsTrue, List, ℕ, ◌≡◌, ◌↔◌};

use cfb_medium::Error;
use cfb_sectors::{END_OF_CHAIN, MAX_REGULAR_SECTOR};
use std::alloc::Global;

// The number behind a part's: the table's entry for it, where it is regular and has one, else itself.
pub(crate) fn behind(links: &[u32], part: u32) -> u32
    ensures { result ≡ behind links.now part }
{
    if part > MAX_REGULAR_SECTOR {
        return part;
    }
    match links.get(part as usize) {
        Some(next) => *next,
        None => part,
    }
}

// The numbers behind twice as many links.
pub(crate) fn double_links(alloc: Global, links: &[u32]) -> Result<Vec<u32>, Error>
    ensures twice { IfOk result (λ more. more.items ≡ map (behind links.now) links.now) }
    ensures errors { IfErr result (λ e. e ≡ Memory) }
{
    let mut more = Vec::new(alloc);
    for next in links {
        more.push(behind(links, *next))?;
    }
    Ok(more)
}

// The numbers behind so many links that each chain has ended. It takes as many turns as the length of the table has bits.
pub(crate) fn ends_of(alloc: Global, links: &[u32]) -> Result<Vec<u32>, Error>
    ensures ends { IfOk result (λ ends. AreEnds links.now ends.items) }
    ensures errors { IfErr result (λ e. e ≡ Memory) }
{
    let mut ends = Vec::from_slice(alloc, links)?;
    let mut reach: usize = 1;
    while reach < links.len() {
        ends = double_links(alloc, &ends)?;
        reach *= 2;
    }
    Ok(ends)
}

// Whether the table with these ends has a chain from a start.
pub(crate) fn has_chain(ends: &[u32], start: u32) -> bool
    ensures { (links : List ℕ) → AreEnds links ends.now → IsTrue result ↔ HasChainFrom links start }
{
    behind(ends, start) == END_OF_CHAIN
}
