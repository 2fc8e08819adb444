//! The sectors of a chain, in order.
ghost use Rattle.cfb_medium.specs.declared.error.Error.TheVariants.{Full, InvalidData, Memory};
ghost use Rattle.cfb_sectors.specs.Sectors.{greatest_regular, Chain as IsChain};
ghost use Rattle.std.specs.Prelude.{length, take, vec_len, IfErr, IfOk, IsErrOf, IsTrue, List, OnOk, ℕ, [], ◌+◌, ◌++◌, ◌<◌, ◌∷◌, ◌≡◌, ◌≤◌, ◌↔◌, ◌⊎◌};

use cfb_medium::{Error, Version};
use cfb_sectors::{END_OF_CHAIN, MAX_REGULAR_SECTOR};
use std::alloc::Global;

/// The sectors of a chain, in order. There are no more than there are numbers for them.
#[derive(Drop)]
pub struct Links {
    version: Version,
    sector_ids: Vec<u32>,
    ghost few: { vec_len sector_ids ≤ greatest_regular + 1 },
}

impl Links {
    ghost use Rattle.cfb_chains.specs.LinkViews.{ids_of, links_version, HasRoom};

    /// These sectors of a file of this version. `InvalidData` where they are more than there are numbers for them.
    pub fn new(version: Version, sector_ids: Vec<u32>) -> Result<Links, Error>
        ensures links { IfOk result (λ it. (links_version it ≡ version)
            × (ids_of it ≡ sector_ids.items)) }
        ensures few { OnOk result (length sector_ids.items ≤ greatest_regular + 1) }
        ensures many { IfErr result (λ e. (e ≡ InvalidData)
            × (length sector_ids.items ≤ greatest_regular + 1 → ⊥)) }
    {
        if sector_ids.len() > MAX_REGULAR_SECTOR as usize + 1 {
            return Err(Error::InvalidData);
        }
        Ok(Links {
            version,
            sector_ids,
        })
    }

    /// The version.
    pub fn version(&self) -> Version
        ensures { result ≡ links_version self.now }
    {
        self.version
    }

    // Takes all sectors away.
    pub(crate) fn clear(&mut self)
        ensures { (ids_of self.new ≡ []) × (links_version self.new ≡ links_version self.old) }
    {
        self.sector_ids.clear();
    }

    // Whether no number is left for one sector more.
    pub(crate) fn is_full(&self) -> bool
        ensures { IsTrue result ↔ (greatest_regular < length (ids_of self.now)) }
    {
        self.sector_ids.len() > MAX_REGULAR_SECTOR as usize
    }

    // Makes room for one sector more, for which there is a number.
    pub(crate) fn reserve_one(&mut self) -> Result<(), Error>
        requires { length (ids_of self.old) ≤ greatest_regular }
        ensures room { OnOk result (HasRoom self.new) }
        ensures same { (ids_of self.new ≡ ids_of self.old)
            × (links_version self.new ≡ links_version self.old) }
        ensures errors { IfErr result (λ e. e ≡ Memory) }
    {
        self.sector_ids.reserve(1)?;
        Ok(())
    }

    // Makes room for so many sectors more. `Full` where there are not so many numbers.
    pub(crate) fn reserve(&mut self, count: usize) -> Result<(), Error>
        ensures same { (ids_of self.new ≡ ids_of self.old)
            × (links_version self.new ≡ links_version self.old) }
        ensures errors { IfErr result (λ e. (e ≡ Memory)
            ⊎ ((e ≡ Full) × (greatest_regular + 1 < length (ids_of self.old) + count))) }
    {
        if count > MAX_REGULAR_SECTOR as usize + 1 - self.sector_ids.len() {
            return Err(Error::Full);
        }
        self.sector_ids.reserve(count)?;
        Ok(())
    }

    // Takes in a sector behind the last.
    pub(crate) fn push_reserved(&mut self, sector_id: u32)
        requires { HasRoom self.old }
        ensures { (ids_of self.new ≡ ids_of self.old ++ sector_id ∷ [])
            × (links_version self.new ≡ links_version self.old) }
    {
        self.sector_ids.push_reserved(sector_id);
    }

    // Keeps so many sectors, those at the front.
    pub(crate) fn truncate(&mut self, count: usize)
        ensures { (ids_of self.new ≡ take count (ids_of self.old))
            × (links_version self.new ≡ links_version self.old) }
    {
        self.sector_ids.truncate(count);
    }

    /// The sectors.
    pub fn sector_ids(&self) -> &[u32]
        ensures { result.now ≡ ids_of self.now }
    {
        &self.sector_ids
    }
}

/// The sectors of the chain from a start in a table. `InvalidData` where there is none.
pub fn chain_in(alloc: Global, table: &[u32], start: u32) -> Result<Vec<u32>, Error>
    ensures chain { IfOk result (λ sectors. IsChain table.now start sectors.items) }
    ensures few { IfOk result (λ sectors. vec_len sectors ≤ greatest_regular + 1) }
    ensures none { IsErrOf result InvalidData → (sectors : List ℕ)
        → IsChain table.now start sectors → ⊥ }
    ensures errors { IfErr result (λ e. (e ≡ InvalidData) ⊎ (e ≡ Memory)) }
{
    let mut sectors = Vec::new(alloc);
    let mut at = start;
    while at != END_OF_CHAIN {
        if at > MAX_REGULAR_SECTOR || at as usize >= table.len() || sectors.len() >= table.len() {
            return Err(Error::InvalidData);
        }
        sectors.push(at)?;
        at = table[at as usize];
    }
    Ok(sectors)
}
