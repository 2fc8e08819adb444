//! The FAT as its sectors hold it, and whether it can be changed ([MS-CFB] 2.3).
ghost use Rattle.cfb_chains.specs.Changes.{AreDistinct};
ghost use Rattle.cfb_fat.specs.Listed.{Lists};
ghost use Rattle.cfb_fat.specs.Orderly.{AreBelow, AreTablesConsistent};
ghost use Rattle.cfb_medium.specs.Bytes.{overwritten};
ghost use Rattle.cfb_medium.specs.Calls.{IsFaultOrInvalidInputIf};
ghost use Rattle.cfb_medium.specs.Versions.{sector_len};
ghost use Rattle.cfb_medium.specs.declared.error.Error.TheVariants.{InvalidData};
ghost use Rattle.cfb_fat_runs.specs.Tables.{entries_of};
ghost use Rattle.cfb_sectors.specs.Held.{bytes_of, count_of, has_failed_here, version_of, AreSectorNumbers, Changes, IsJustifiedByMedium, IsHonest, OnlyReadsSectors};
ghost use Rattle.cfb_sectors.specs.Sectors.{fat_in, joined, sector_start};
ghost use Rattle.std.specs.Int.{to_le_bytes, w32};
ghost use Rattle.std.specs.Prelude.{false, length, take, true, IfErr, IfOk, IsErrOf, IsTrue, OnErr, OnOk, ◌*◌, ◌++◌, ◌+◌, ◌/◌, ◌<◌, ◌↔◌, ◌≡◌, ◌≤◌, ◌⊎◌};

use crate::difat::{are_listed, can_name, write_word};
use cfb_fat_runs::Table;
use cfb_medium::{Error, Medium, ReadMedium, Version};
use cfb_sectors::{Sectors, numbers_in};
use std::alloc::{AllocError, Global};

// A sector of version 4 has so many bytes.
pub(crate) const LONGEST: usize = 4096;

// The bytes of an entry.
pub(crate) const ENTRY_LEN: usize = 4;

/// The bytes of some sectors, joined; what a short last sector lacks is zeros. `InvalidData` where one of them isn't there.
pub fn read_joined<F: ReadMedium>(
    alloc: Global,
    sectors: &mut Sectors<F>,
    sector_ids: &[u32],
) -> Result<Vec<u8>, Error>
    ensures read { IfOk result (λ all. IsHonest sectors.old
        → all.items ≡ joined (version_of sectors.old) (bytes_of sectors.old) sector_ids.now) }
    ensures size { IfOk result (λ all. length all.items
        ≡ length sector_ids.now * sector_len (version_of sectors.old)) }
    ensures there { IfOk result (λ _. AreSectorNumbers sectors.old sector_ids.now) }
    ensures missing { IsErrOf result InvalidData → AreSectorNumbers sectors.old sector_ids.now → ⊥ }
    ensures only_reads { OnlyReadsSectors sectors.old sectors.new }
    ensures cause { IfErr result (IsJustifiedByMedium sectors.old sectors.new) }
    ensures errors { IfErr result (λ e. IsFaultOrInvalidInputIf ⊥ e ⊎ (e ≡ InvalidData)) }
{
    let mut all = Vec::new(alloc);
    let mut sector = [0; LONGEST];
    let len = sectors.sector_len();
    for sector_id in sector_ids {
        sectors.read_contiguous(*sector_id, 0, &mut sector[..len])?;
        all.extend_from_slice(&sector[..len])?;
    }
    Ok(all)
}

/// The numbers that some sectors hold, joined, as the FAT's do. `InvalidData` where one of the sectors isn't there.
pub fn read_table<F: ReadMedium>(
    alloc: Global,
    sectors: &mut Sectors<F>,
    sector_ids: &[u32],
) -> Result<Vec<u32>, Error>
    ensures read { IfOk result (λ table. IsHonest sectors.old
        → table.items ≡ fat_in (version_of sectors.old) (bytes_of sectors.old) sector_ids.now) }
    ensures size { IfOk result (λ table. length table.items
        ≡ length sector_ids.now * (sector_len (version_of sectors.old) / 4)) }
    ensures there { IfOk result (λ _. AreSectorNumbers sectors.old sector_ids.now) }
    ensures missing { IsErrOf result InvalidData → AreSectorNumbers sectors.old sector_ids.now → ⊥ }
    ensures only_reads { OnlyReadsSectors sectors.old sectors.new }
    ensures cause { IfErr result (IsJustifiedByMedium sectors.old sectors.new) }
    ensures errors { IfErr result (λ e. IsFaultOrInvalidInputIf ⊥ e ⊎ (e ≡ InvalidData)) }
{
    let bytes = read_joined(alloc, sectors, sector_ids)?;
    Ok(numbers_in(alloc, &bytes)?)
}

// Writes a number in its place of a sector. After a fault it has failed.
pub(crate) fn write_number<F: Medium>(
    sectors: &mut Sectors<F>,
    sector_id: u32,
    index: usize,
    number: u32,
) -> Result<(), Error>
    requires there { sector_id < count_of sectors.old }
    requires inside { index < sector_len (version_of sectors.old) / 4 }
    ensures changes { Changes (λ b. overwritten b
        (sector_start (version_of sectors.old) sector_id + 4 * index)
        (to_le_bytes w32 number)) sectors.old sectors.new }
    ensures count { count_of sectors.new ≡ count_of sectors.old }
    ensures not_failed { OnOk result (has_failed_here sectors.new ≡ false) }
    ensures after_error { OnErr result (has_failed_here sectors.new ≡ true) }
    ensures cause { IfErr result (IsJustifiedByMedium sectors.old sectors.new) }
    ensures errors { IfErr result (IsFaultOrInvalidInputIf ⊥) }
{
    let place = sectors.start(sector_id) + (ENTRY_LEN * index) as u64;
    write_word(sectors, place, number)
}

// The numbers of both lists, one after the other.
pub(crate) fn both(alloc: Global, first: &[u32], second: &[u32]) -> Result<Vec<u32>, AllocError>
    ensures { IfOk result (λ all. all.items ≡ first.now ++ second.now) }
{
    let mut all = Vec::new(alloc);
    all.extend_from_slice(first)?;
    all.extend_from_slice(second)?;
    Ok(all)
}

// Whether no number stands twice among these below a limit. It sets a mark for each that it meets.
fn are_once(alloc: Global, limit: u32, ids: &[u32]) -> Result<bool, AllocError>
    requires { AreBelow limit ids.now }
    ensures { IfOk result (λ once. IsTrue once ↔ AreDistinct ids.now) }
{
    let mut marks = vec![in alloc; false; limit as usize]?;
    for id in ids {
        let index = *id as usize;
        if marks[index] {
            return Ok(false);
        }
        marks[index] = true;
    }
    Ok(true)
}

// Whether each is below a limit.
pub(crate) fn are_below(limit: u32, ids: &[u32]) -> bool
    ensures { IsTrue result ↔ AreBelow limit ids.now }
{
    for id in ids {
        if *id >= limit {
            return false;
        }
    }
    true
}

// Whether the lists are the same.
pub(crate) fn are_same(first: &[u32], second: &[u32]) -> bool
    ensures { IsTrue result ↔ (first.now ≡ second.now) }
{
    first == second
}

// Whether the tables of a file of so many sectors can be changed, if header and DIFAT list them.
fn are_orderly(
    alloc: Global,
    version: Version,
    count: u32,
    fat: &Table,
    fat_sectors: &[u32],
    difat_sectors: &[u32],
) -> Result<bool, AllocError>
    requires { AreBelow count fat_sectors.now }
    ensures { IfOk result (λ orderly. IsTrue orderly
        ↔ AreTablesConsistent version count
        (entries_of fat.now) fat_sectors.now difat_sectors.now) }
{
    if count == 0 || fat.len() != count as usize {
        return Ok(false);
    }
    if !can_name(version, difat_sectors.len(), fat_sectors.len()) {
        return Ok(false);
    }
    if !are_below(count, difat_sectors) {
        return Ok(false);
    }
    let ids = both(alloc, difat_sectors, fat_sectors)?;
    are_once(alloc, count, &ids)
}

// The FAT in some sectors, for as many sectors as the file has.
fn read_fat<F: ReadMedium>(
    alloc: Global,
    sectors: &mut Sectors<F>,
    fat_sectors: &[u32],
) -> Result<Table, Error>
    ensures read { IfOk result (λ it. IsHonest sectors.old
        → entries_of it ≡ take (count_of sectors.old)
        (fat_in (version_of sectors.old) (bytes_of sectors.old) fat_sectors.now)) }
    ensures inside { IfOk result (λ it. length (entries_of it) ≤ count_of sectors.old) }
    ensures whole { IfOk result (λ it. length (entries_of it)
        ≤ length fat_sectors.now * (sector_len (version_of sectors.old) / 4)) }
    ensures there { IfOk result (λ _. AreSectorNumbers sectors.old fat_sectors.now) }
    ensures below { IfOk result (λ _. AreBelow (count_of sectors.old) fat_sectors.now) }
    ensures missing { IsErrOf result InvalidData → AreSectorNumbers sectors.old fat_sectors.now
        → ⊥ }
    ensures only_reads { OnlyReadsSectors sectors.old sectors.new }
    ensures cause { IfErr result (IsJustifiedByMedium sectors.old sectors.new) }
    ensures errors { IfErr result (λ e. IsFaultOrInvalidInputIf ⊥ e ⊎ (e ≡ InvalidData)) }
{
    let mut fat = read_table(alloc, sectors, fat_sectors)?;
    fat.truncate(sectors.num_sectors() as usize);
    Ok(Table::from_entries(alloc, &fat)?)
}

// The FAT in some sectors, for as many sectors as the file has, and whether it can be changed.
pub(crate) fn read_parts<F: ReadMedium>(
    alloc: Global,
    sectors: &mut Sectors<F>,
    difat_sectors: &[u32],
    fat_sectors: &[u32],
) -> Result<(Table, bool), Error>
    ensures read { IfOk result (λ it. IsHonest sectors.old
        → entries_of it.0 ≡ take (count_of sectors.old)
        (fat_in (version_of sectors.old) (bytes_of sectors.old) fat_sectors.now)) }
    ensures inside { IfOk result (λ it. length (entries_of it.0) ≤ count_of sectors.old) }
    ensures whole { IfOk result (λ it. length (entries_of it.0)
        ≤ length fat_sectors.now * (sector_len (version_of sectors.old) / 4)) }
    ensures orderly { IfOk result (λ it. IsTrue it.1
        → AreTablesConsistent (version_of sectors.old) (count_of sectors.old)
        (entries_of it.0) fat_sectors.now
        difat_sectors.now) }
    ensures listed { IfOk result (λ it. has_failed_here sectors.old ≡ false → IsHonest sectors.old
        → IsTrue it.1
        ↔ (AreTablesConsistent (version_of sectors.old) (count_of sectors.old)
        (entries_of it.0) fat_sectors.now
        difat_sectors.now × Lists (version_of sectors.old)
        (bytes_of sectors.old) difat_sectors.now fat_sectors.now)) }
    ensures there { IfOk result (λ _. AreSectorNumbers sectors.old fat_sectors.now) }
    ensures below { IfOk result (λ _. AreBelow (count_of sectors.old) fat_sectors.now) }
    ensures missing { IsErrOf result InvalidData → AreSectorNumbers sectors.old fat_sectors.now
        → ⊥ }
    ensures only_reads { OnlyReadsSectors sectors.old sectors.new }
    ensures cause { IfErr result (IsJustifiedByMedium sectors.old sectors.new) }
    ensures errors { IfErr result (λ e. IsFaultOrInvalidInputIf ⊥ e ⊎ (e ≡ InvalidData)) }
{
    let count = sectors.num_sectors();
    let fat = read_fat(alloc, sectors, fat_sectors)?;
    let version = sectors.version();
    if !are_orderly(alloc, version, count, &fat, fat_sectors, difat_sectors)? {
        return Ok((fat, false));
    }
    let is_listed = are_listed(alloc, sectors, difat_sectors, fat_sectors)?;
    Ok((fat, is_listed))
}
