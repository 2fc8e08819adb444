//! Chains that become shorter, and chains of a given length.
ghost use Rattle.cfb_chains.specs.ChainCalls.{chain_bytes, len_of, new_sector, ChainErrorContract, OnlyReadsChain, Cuts, FreesBehind, ChainHolds, IsCutTo, IsInvalid, IsInvalidOrFull, IsShortOfSectors, LacksUsableChain, ChainKeeps, KeepsBytes, AppendsSectors, StaysLinked, StaysWritable};
ghost use Rattle.cfb_chains.specs.Positions.{sectors_for};
ghost use Rattle.cfb_medium.specs.declared.error.Error.TheVariants.{Full, InvalidData};
ghost use Rattle.cfb_medium.specs.Versions.{sector_len};
ghost use Rattle.cfb_sectors.specs.Copies.{copies};
ghost use Rattle.cfb_sectors.specs.Initial.{padded};
ghost use Rattle.std.specs.Prelude.{false, length, min, IsErrOf, IsTrue, OnErr, OnOk, ◌*◌, ◌+◌, ◌++◌, ◌-◌, ◌<◌, ◌≡◌, ◌≤◌};

use crate::{Chain, FreesChains, GrowsChains};
use cfb_medium::{Error, Version};
use cfb_sectors::NewSector;

impl<'a, H: FreesChains> Chain<'a, H> {
    ghost use Rattle.cfb_chains.specs.ChainViews.{holder_of, position_of, sectors_of, version_of, IsSameBut};

    // Keeps so many sectors, at least one, and frees those behind them. A position behind the new end goes there.
    pub(crate) fn cut_behind(&mut self, count: usize) -> Result<(), Error>
        requires some { 0 < count }
        requires there { count ≤ length (sectors_of self.old) }
        ensures cut { OnOk result (IsCutTo count self.old self.new) }
        ensures kept { OnErr result ((sectors_of self.new ≡ sectors_of self.old)
            × (position_of self.new ≡ position_of self.old)) }
        ensures frees { FreesBehind H.FreesChains count result self.old self.new }
        ensures linked { OnOk result (StaysLinked H.fat self.old self.new) }
        ensures writable { OnOk result (StaysWritable H.may_write self.old self.new) }
        ensures bytes { OnOk result (KeepsBytes H.FreesChains self.old self.new) }
        ensures same { IsSameBut self.old self.new }
        ensures orderly { OnOk result (IsTrue (H.orderly (holder_of self.old))) }
        ensures refused_only_if { IsErrOf result InvalidData
            → LacksUsableChain H.FreesChains self.old × OnlyReadsChain H.rests self.old self.new }
        ensures error_contract { ChainErrorContract H.ChangesSectors IsInvalid result self.old
            self.new }
    {
        let last = self.links.sector_ids()[count - 1];
        match self.holder.free_chain_after(last) {
            Ok(()) => {
                let len = count as u64 * self.links.version().sector_len() as u64;
                self.position = self.position.min(len);
                self.links.truncate(count);
                Ok(())
            }
            Err(error) => Err(error),
        }
    }

    // Keeps so many sectors, and frees those behind them. A position behind the new end goes there.
    pub(crate) fn cut_to(&mut self, count: usize) -> Result<(), Error>
        requires { count ≤ length (sectors_of self.old) }
        ensures cuts { Cuts H.FreesChains count result self.old self.new }
        ensures kept { OnErr result ((sectors_of self.new ≡ sectors_of self.old)
            × (position_of self.new ≡ position_of self.old)) }
        ensures same { IsSameBut self.old self.new }
        ensures orderly { OnOk result (IsTrue (H.orderly (holder_of self.old))) }
        ensures refused_only_if { IsErrOf result InvalidData
            → LacksUsableChain H.FreesChains self.old × OnlyReadsChain H.rests self.old self.new }
        ensures error_contract { ChainErrorContract H.ChangesSectors IsInvalid result self.old
            self.new }
    {
        if count == 0 {
            return self.free();
        }
        self.cut_behind(count)
    }
}

// How many sectors so many bytes need.
fn needed_sectors(version: Version, len: u64) -> u64
    ensures { result ≡ sectors_for version len }
{
    let each = version.sector_len() as u64;
    if len % each == 0 {
        len / each
    } else {
        len / each + 1
    }
}

impl<'a, H: GrowsChains> Chain<'a, H> {
    ghost use Rattle.cfb_chains.specs.ChainViews.{holder_of, position_of, sectors_of, version_of, IsSameBut, IsSameButSectors};

    /// Gives the chain as many sectors as so many bytes need, in the FAT too. Those at its front stay, with their bytes; it
    /// takes in others behind them, which hold what its `init` says, or frees those that are too many. A position behind the
    /// new end goes there. `InvalidData` where the tables can't be changed or haven't the chain, with nothing changed, and then
    /// `Full` where fewer numbers of sectors are left. After an error nothing is changed, or the layer has failed ([MS-CFB]
    /// 2.3).
    #[tactic(auto, using(crate::proofs::ChainCutting::stays_inside))]
    pub fn set_len(&mut self, len: u64) -> Result<(), Error>
        ensures count { OnOk result (length (sectors_of self.new)
            ≡ sectors_for (version_of self.old) len) }
        ensures longer { length (sectors_of self.old) ≤ sectors_for (version_of self.old) len
            → AppendsSectors H.GrowsChains self.old (sectors_of self.new) (holder_of self.new) }
        ensures filled { length (sectors_of self.old) ≤ sectors_for (version_of self.old) len
            → OnOk result
            (ChainHolds H.GrowsChains self.old (sectors_of self.new) (holder_of self.new)
            (chain_bytes H.bytes self.old ++ copies (length (sectors_of self.new)
            - length (sectors_of self.old)) (new_sector self.old))) }
        ensures shorter { sectors_for (version_of self.old) len < length (sectors_of self.old)
            → Cuts H.FreesChains (sectors_for (version_of self.old) len) result self.old self.new }
        ensures keeps { OnOk result (ChainKeeps H.GrowsChains self.old (sectors_of self.new)
            (holder_of self.new)) }
        ensures position { OnOk result (position_of self.new
            ≡ min (position_of self.old) (len_of self.new)) }
        ensures stays { OnErr result (position_of self.new ≡ position_of self.old) }
        ensures same { IsSameBut self.old self.new }
        ensures refused_only_if { IsErrOf result InvalidData
            → LacksUsableChain H.FreesChains self.old × OnlyReadsChain H.rests self.old self.new }
        ensures full_only_if { IsErrOf result Full → IsShortOfSectors H.GrowsChains
            (sectors_for (version_of self.old) len) self.old self.new }
        ensures error_contract { ChainErrorContract H.ChangesSectors IsInvalidOrFull result self.old
            self.new }
    {
        let count = needed_sectors(self.links.version(), len) as usize;
        if count < self.num_sectors() {
            return self.cut_to(count);
        }
        self.lengthen_to(count, NewSector::Init(self.init))
    }

    /// Gives the chain as many sectors as so many bytes need, where it has no more of them. Those at its front stay, with their
    /// bytes; those that it takes in behind them hold these bytes in order, and zeros behind them. `InvalidData` where the tables
    /// can't be changed or haven't the chain, with nothing changed, and then `Full` where fewer numbers of sectors are left. After
    /// an error nothing is changed, or the layer has failed ([MS-CFB] 2.3).
    pub fn lengthen(&mut self, len: u64, bytes: &[u8]) -> Result<(), Error>
        requires { length (sectors_of self.old) ≤ sectors_for (version_of self.old) len }
        ensures count { OnOk result (length (sectors_of self.new)
            ≡ sectors_for (version_of self.old) len) }
        ensures longer { AppendsSectors H.GrowsChains self.old (sectors_of self.new)
            (holder_of self.new) }
        ensures filled { OnOk result (ChainHolds H.GrowsChains self.old (sectors_of self.new)
            (holder_of self.new)
            (chain_bytes H.bytes self.old ++ padded ((length (sectors_of self.new)
            - length (sectors_of self.old)) * sector_len (version_of self.old)) bytes.now)) }
        ensures keeps { OnOk result (ChainKeeps H.GrowsChains self.old (sectors_of self.new)
            (holder_of self.new)) }
        ensures same { IsSameButSectors self.old self.new }
        ensures refused_only_if { IsErrOf result InvalidData
            → LacksUsableChain H.FreesChains self.old × OnlyReadsChain H.rests self.old self.new }
        ensures full_only_if { IsErrOf result Full → IsShortOfSectors H.GrowsChains
            (sectors_for (version_of self.old) len) self.old self.new }
        ensures error_contract { ChainErrorContract H.ChangesSectors IsInvalidOrFull result self.old
            self.new }
    {
        let count = needed_sectors(self.links.version(), len) as usize;
        self.lengthen_to(count, NewSector::Bytes(bytes))
    }
}
