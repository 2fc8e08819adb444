//! Laws: of what the DIFAT lists, and of calls on an allocator one after the other.
ghost use Rattle.cfb_chains.specs.Owned.{OwnDisjointChains, KeepsOwnedSectors};
ghost use Rattle.cfb_fat.specs.Listed.{stop_behind, Lists};
ghost use Rattle.cfb_fat.specs.Seeing.{seen_of};
ghost use Rattle.cfb_fat.specs.Tables.{fat_of, has_failed_here, is_honest, tables_of, version_of};
ghost use Rattle.cfb_medium.specs.Versions.{sector_len};
ghost use Rattle.cfb_medium.specs.declared.error.Error.TheVariants.{Failed};
ghost use Rattle.cfb_medium.specs.declared.version.Version.{Version};
ghost use Rattle.cfb_sectors.specs.Header.{first_difat_sector};
ghost use Rattle.cfb_sectors.specs.Sectors.{sector};
ghost use Rattle.std.specs.Prelude.{length, true, IsErrOf, IsTrue, List, OnOk, ℕ, ◌≡◌, ◌≤◌};

use crate::Allocator;
use cfb_medium::{Error, Medium};
use cfb_sectors::{NewSector, SectorInit};

/// That the DIFAT lists these sectors is a fact, which holds where it merely holds; and so is where its chain stops.
pub fn lists_are_facts()
    ensures lists { (version : Version) (bytes difat_sectors fat_sectors : List ℕ)
        → ∥ Lists version bytes difat_sectors fat_sectors ∥₁
        → Lists version bytes difat_sectors fat_sectors }
    ensures stop { (version : Version) (bytes difat_sectors fat_sectors : List ℕ)
        → (lists : Lists version bytes difat_sectors fat_sectors)
        → lists.stop ≡ stop_behind version bytes (first_difat_sector bytes) difat_sectors }
{}

/// Begins a chain, writes over its sector, makes it longer by a sector that it writes over too, cuts that off and frees the
/// chain, as a layer above does over time. Whatever others own stays theirs, with its bytes. An allocator that had failed
/// answers `Failed`.
pub fn use_a_chain<F: Medium>(allocator: &mut Allocator<F>, bytes: &[u8]) -> Result<(), Error>
    ensures stays { OnOk result (IsTrue (is_honest allocator.old)
        → length bytes.now ≤ sector_len (version_of allocator.old) → (own : ℕ → List ℕ)
        → OwnDisjointChains (fat_of allocator.old) (tables_of allocator.old) own
        → (k : ℕ) → KeepsOwnedSectors (sector (version_of allocator.old)) (seen_of allocator.old)
        (seen_of allocator.new) (own k)) }
    ensures when_failed { has_failed_here allocator.old ≡ true → IsErrOf result Failed }
{
    let start = allocator.begin_chain(NewSector::Init(SectorInit::Zero))?;
    allocator.write_contiguous(start, 0, bytes)?;
    let next = allocator.extend_chain(start, NewSector::Init(SectorInit::Zero))?;
    allocator.write_contiguous(next, 0, bytes)?;
    allocator.free_chain_after(start)?;
    allocator.free_chain(start)
}
