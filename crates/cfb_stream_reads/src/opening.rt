//! The sectors of a stream.
ghost use Rattle.cfb_chains.specs.LinkViews.{ids_of, links_version};
ghost use Rattle.cfb_fat.specs.Tables.{fat_of, has_failed_here, version_of};
ghost use Rattle.cfb_medium.specs.declared.error.Error.TheVariants.{Failed, InvalidData, Memory};
ghost use Rattle.cfb_mini.specs.LinkViews.{minis_of};
ghost use Rattle.cfb_mini.specs.Minis.{AreInside};
ghost use Rattle.cfb_mini.specs.Views.{allocator_of, mini_fat_of, mini_stream_len};
ghost use Rattle.cfb_medium.specs.Versions.{sector_len};
ghost use Rattle.cfb_chain_io.specs.ChainEffects.{len_of};
ghost use Rattle.cfb_sectors.specs.Sectors.{Chain};
ghost use Rattle.cfb_stream_reads.specs.Streams.{sectors_in, IsOfLevel, StreamLiesIn};
ghost use Rattle.std.specs.Prelude.{length, true, IfErr, IfOk, IsErrOf, List, ℕ, ◌*◌, ◌≡◌, ◌≤◌, ◌⊎◌, OnOk, ◌<◌, ◌^◌};

use cfb_chains::Links;
use cfb_medium::{Error, ReadMedium};
use cfb_mini::{MiniAllocator, MiniLinks};
use cfb_sectors::MINI_STREAM_CUTOFF;

/// The sectors that hold a stream, in the order of their chain ([MS-CFB] 2.4, 2.6.3).
#[derive(Drop)]
pub enum StreamLinks {
    /// Mini sectors, of a stream below 4096 bytes.
    Short(MiniLinks),
    /// Sectors of the file.
    Long(Links),
}

// How many bytes the sectors of a chain have.
fn chain_len(links: &Links) -> u64
    ensures len { result ≡ len_of links.now }
    ensures small { result < 2 ^ 63 }
{
    links.sector_ids().len() as u64 * links.version().sector_len() as u64
}

// The mini sectors of a short stream.
fn open_short<F: ReadMedium>(
    mini: &MiniAllocator<F>,
    start: u32,
    size: u64,
) -> Result<MiniLinks, Error>
    ensures chain { IfOk result (λ links. Chain (mini_fat_of mini.now) start (minis_of links)
        × AreInside (mini_stream_len mini.now) (minis_of links)
        × (size ≤ 64 * length (minis_of links))) }
    ensures none { IsErrOf result InvalidData → (sectors : List ℕ)
        → Chain (mini_fat_of mini.now) start sectors → AreInside (mini_stream_len mini.now) sectors
        → size ≤ 64 * length sectors → ⊥ }
    ensures errors { IfErr result (λ e. (e ≡ InvalidData) ⊎ (e ≡ Memory)) }
{
    let links = match mini.open_mini_chain(start) {
        Ok(links) => links,
        Err(error) => return Err(error),
    };
    if links.len() < size {
        return Err(Error::InvalidData);
    }
    Ok(links)
}

// The sectors of a long one.
fn open_long<F: ReadMedium>(mini: &MiniAllocator<F>, start: u32, size: u64) -> Result<Links, Error>
    ensures chain { IfOk result (λ links.
        Chain (fat_of (allocator_of mini.now)) start (ids_of links)
        × (links_version links ≡ version_of (allocator_of mini.now))
        × (size ≤ length (ids_of links) * sector_len (version_of (allocator_of mini.now)))) }
    ensures small { OnOk result (size < 2 ^ 63) }
    ensures none { IsErrOf result InvalidData → (sectors : List ℕ)
        → Chain (fat_of (allocator_of mini.now)) start sectors
        → size ≤ length sectors * sector_len (version_of (allocator_of mini.now)) → ⊥ }
    ensures errors { IfErr result (λ e. ((e ≡ Failed)
        × (has_failed_here (allocator_of mini.now) ≡ true)) ⊎ (e ≡ InvalidData) ⊎ (e ≡ Memory)) }
{
    let links = match mini.directory().allocator().open_chain(start) {
        Ok(links) => links,
        Err(error) => return Err(error),
    };
    if chain_len(&links) < size {
        return Err(Error::InvalidData);
    }
    Ok(links)
}

/// The sectors of a stream of so many bytes that begins there. `InvalidData` where it has none: the chain breaks off, loops, or
/// is shorter than the stream. The other errors are `Memory`, and `Failed` after an earlier fault.
pub fn open_stream<F: ReadMedium>(
    mini: &MiniAllocator<F>,
    start: u32,
    size: u64,
) -> Result<StreamLinks, Error>
    ensures sectors { IfOk result (λ links. StreamLiesIn mini.now start size (sectors_in links)) }
    ensures level { IfOk result (λ links. IsOfLevel mini.now size links) }
    ensures small { OnOk result (size < 2 ^ 63) }
    ensures none { IsErrOf result InvalidData → (sectors : List ℕ)
        → StreamLiesIn mini.now start size sectors → ⊥ }
    ensures errors { IfErr result (λ e. ((e ≡ Failed)
        × (has_failed_here (allocator_of mini.now) ≡ true)) ⊎ (e ≡ InvalidData) ⊎ (e ≡ Memory)) }
{
    if size < u64::from(MINI_STREAM_CUTOFF) {
        return match open_short(mini, start, size) {
            Ok(links) => Ok(StreamLinks::Short(links)),
            Err(error) => Err(error),
        };
    }
    match open_long(mini, start, size) {
        Ok(links) => Ok(StreamLinks::Long(links)),
        Err(error) => Err(error),
    }
}
