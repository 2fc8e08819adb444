//! What the streams of a file use, each part once ([MS-CFB] 2.6.3).
ghost use Rattle.cfb_fat.specs.Tables.{fat_of, has_failed_here};
ghost use Rattle.cfb_medium.specs.Versions.{sector_len};
ghost use Rattle.cfb_medium.specs.declared.error.Error.TheVariants.{Memory};
ghost use Rattle.cfb_mini.specs.LinkViews.{minis_of};
ghost use Rattle.cfb_mini.specs.Minis.{AreInside};
ghost use Rattle.cfb_mini.specs.Views.{allocator_of, mini_fat_of, mini_stream_ids, mini_stream_len};
ghost use Rattle.cfb_chains.specs.LinkViews.{ids_of};
ghost use Rattle.cfb_sectors.specs.Sectors.{sector_start, Chain as IsChain};
ghost use Rattle.cfb_soundness.specs.Marks.{CanTake, MarksEachOnce};
ghost use Rattle.cfb_soundness.specs.Uses.{mini_start, EntriesHave, EntryHas, HasMiniSectors, HasSectors, IsOutOfMemoryOrFailed};
ghost use Rattle.cfb_soundness.specs.Views.{marks_of, tables_in, CanTakeBoth, TakesBoth};
ghost use Rattle.cfb_tree.specs.EntryViews.{entry_in};
ghost use Rattle.std.specs.Prelude.{false, map, slice_index, IfErr, IfOk, IfSome, IfNone, IsTrue, List, ℕ, ◌%◌, ◌*◌, ◌+◌, ◌/◌, ◌≡◌, ◌⊎◌};

use crate::entries::is_stream;
use crate::marks::Marks;
use crate::places::hold_bytes;
use cfb_chains::Links;
use cfb_medium::{Error, ReadMedium, Version};
use cfb_mini::{MiniAllocator, MiniLinks};
use cfb_sectors::{MINI_SECTOR_LEN, MINI_STREAM_CUTOFF};
use cfb_tree::DirEntry;
use std::alloc::Global;

// The marks of a file's sectors and mini sectors.
#[derive(Drop)]
pub(crate) struct Taken {
    pub(crate) sectors: Marks,
    pub(crate) minis: Marks,
}

// Where sectors begin in a file.
fn sector_starts(alloc: Global, version: Version, ids: &[u32]) -> Result<Vec<u64>, Error>
    ensures starts { IfOk result (λ starts. starts.items ≡ map (sector_start version) ids.now) }
    ensures errors { IfErr result (λ e. e ≡ Memory) }
{
    let mut starts = Vec::new(alloc);
    for id in ids {
        starts.push((*id as u64 + 1) * version.sector_len() as u64)?;
    }
    Ok(starts)
}

// Where a mini sector begins in a file, by the sectors of the mini stream.
fn mini_start(version: Version, stream: &[u32], id: u32) -> u64
    ensures { result ≡ sector_start version
        (slice_index stream.now (64 * id / sector_len version)) + 64 * id % sector_len version }
{
    let len = version.sector_len() as u64;
    let place = MINI_SECTOR_LEN as u64 * id as u64;
    let sector_id = match stream.get((place / len) as usize) {
        Some(sector_id) => *sector_id,
        None => 0,
    };
    (sector_id as u64 + 1) * len + place % len
}

// Where mini sectors begin in a file.
fn mini_starts<F: ReadMedium>(
    alloc: Global,
    file: &MiniAllocator<F>,
    ids: &[u32],
) -> Result<Vec<u64>, Error>
    ensures starts { (file_len : ℕ) → IfOk result (λ starts. starts.items
        ≡ map (mini_start (tables_in file.now file_len)) ids.now) }
    ensures errors { IfErr result (λ e. e ≡ Memory) }
{
    let version = file.version();
    let stream = file.mini_stream_sectors();
    let mut starts = Vec::new(alloc);
    for id in ids {
        starts.push(mini_start(version, stream, *id))?;
    }
    Ok(starts)
}

// The chain from a start in the FAT, where there is one.
fn chain_from<F: ReadMedium>(file: &MiniAllocator<F>, start: u32) -> Result<Option<Links>, Error>
    ensures some { IfOk result (λ found. IfSome found (λ links.
        IsChain (fat_of (allocator_of file.now)) start (ids_of links))) }
    ensures none { IfOk result (λ found. IfNone found ((sectors : List ℕ)
        → IsChain (fat_of (allocator_of file.now)) start sectors → ⊥)) }
    ensures errors { IfErr result
        (IsOutOfMemoryOrFailed (has_failed_here (allocator_of file.now))) }
{
    match file.directory().allocator().open_chain(start) {
        Ok(links) => Ok(Some(links)),
        Err(Error::InvalidData) => Ok(None),
        Err(error) => Err(error),
    }
}

// The mini chain from a start in the mini FAT, where there is one that lies in the mini stream.
fn mini_chain_from<F: ReadMedium>(
    file: &MiniAllocator<F>,
    start: u32,
) -> Result<Option<MiniLinks>, Error>
    ensures some { IfOk result (λ found. IfSome found (λ links.
        IsChain (mini_fat_of file.now) start (minis_of links)
        × AreInside (mini_stream_len file.now) (minis_of links))) }
    ensures none { IfOk result (λ found. IfNone found ((minis : List ℕ)
        → IsChain (mini_fat_of file.now) start minis
        → AreInside (mini_stream_len file.now) minis → ⊥)) }
    ensures errors { IfErr result (λ e. e ≡ Memory) }
{
    match file.open_mini_chain(start) {
        Ok(links) => Ok(Some(links)),
        Err(Error::InvalidData) => Ok(None),
        Err(error) => Err(error),
    }
}

// Marks the sectors of a stream of at least 4096 bytes; `false` where it has no chain, its bytes don't stand in the file, or a
// sector is marked.
fn take_long<F: ReadMedium>(
    alloc: Global,
    file: &MiniAllocator<F>,
    file_len: u64,
    entry: &DirEntry,
    sectors: &mut Marks,
) -> Result<bool, Error>
    ensures took { IfOk result (λ ok. IsTrue ok → (ids : List ℕ)
        × HasSectors (tables_in file.now file_len) (entry_in entry.now) ids
        × MarksEachOnce ids (marks_of sectors.old) (marks_of sectors.new)) }
    ensures refused_only_if { IfOk result (λ ok. ok ≡ false → (ids : List ℕ)
        → HasSectors (tables_in file.now file_len) (entry_in entry.now) ids
        → CanTake ids (marks_of sectors.old) → ⊥) }
    ensures errors { IfErr result
        (IsOutOfMemoryOrFailed (has_failed_here (allocator_of file.now))) }
{
    let Some(links) = chain_from(file, entry.start_sector)? else {
        return Ok(false);
    };
    let version = file.version();
    let starts = sector_starts(alloc, version, links.sector_ids())?;
    if !hold_bytes(
        version.sector_len() as u64,
        &starts,
        entry.stream_len,
        file_len,
    ) {
        return Ok(false);
    }
    Ok(sectors.take_all(links.sector_ids()))
}

// Marks the mini sectors of a shorter stream; `false` where it has no chain, its bytes don't stand in the file, or a mini sector
// is marked.
fn take_short<F: ReadMedium>(
    alloc: Global,
    file: &MiniAllocator<F>,
    file_len: u64,
    entry: &DirEntry,
    minis: &mut Marks,
) -> Result<bool, Error>
    ensures took { IfOk result (λ ok. IsTrue ok → (ids : List ℕ)
        × HasMiniSectors (tables_in file.now file_len) (entry_in entry.now) ids
        × MarksEachOnce ids (marks_of minis.old) (marks_of minis.new)) }
    ensures refused_only_if { IfOk result (λ ok. ok ≡ false → (ids : List ℕ)
        → HasMiniSectors (tables_in file.now file_len) (entry_in entry.now) ids
        → CanTake ids (marks_of minis.old) → ⊥) }
    ensures errors { IfErr result (λ e. e ≡ Memory) }
{
    let Some(links) = mini_chain_from(file, entry.start_sector)? else {
        return Ok(false);
    };
    let starts = mini_starts(alloc, file, links.mini_sector_ids())?;
    if !hold_bytes(MINI_SECTOR_LEN as u64, &starts, entry.stream_len, file_len) {
        return Ok(false);
    }
    Ok(minis.take_all(links.mini_sector_ids()))
}

impl Taken {
    // Marks what an entry uses; `false` where there is no such entry, or it can't have what it uses.
    fn take_entry<F: ReadMedium>(
        &mut self,
        alloc: Global,
        file: &MiniAllocator<F>,
        file_len: u64,
        id: u32,
    ) -> Result<bool, Error>
        ensures took { IfOk result (λ ok. IsTrue ok → (own minis : List ℕ)
            × EntryHas (tables_in file.now file_len) id own minis
            × TakesBoth own minis self.old self.new) }
        ensures refused_only_if { IfOk result (λ ok. ok ≡ false → (own minis : List ℕ)
            → EntryHas (tables_in file.now file_len) id own minis
            → CanTakeBoth own minis self.old → ⊥) }
        ensures errors { IfErr result
            (IsOutOfMemoryOrFailed (has_failed_here (allocator_of file.now))) }
    {
        if !file.directory().has_dir_entry(id) {
            return Ok(false);
        }
        let entry = file.directory().dir_entry(id);
        if !is_stream(entry) {
            return Ok(true);
        }
        if entry.stream_len < MINI_STREAM_CUTOFF as u64 {
            return take_short(alloc, file, file_len, entry, &mut self.minis);
        }
        take_long(alloc, file, file_len, entry, &mut self.sectors)
    }

    // Marks what these entries use, one after the other; `false` where one can't have what it uses.
    pub(crate) fn take_entries<F: ReadMedium>(
        &mut self,
        alloc: Global,
        file: &MiniAllocator<F>,
        file_len: u64,
        ids: &[u32],
    ) -> Result<bool, Error>
        ensures took { IfOk result (λ ok. IsTrue ok → (sectors minis : List ℕ)
            × EntriesHave (tables_in file.now file_len) ids.now sectors minis
            × TakesBoth sectors minis self.old self.new) }
        ensures refused_only_if { IfOk result (λ ok. ok ≡ false → (sectors minis : List ℕ)
            → EntriesHave (tables_in file.now file_len) ids.now sectors minis
            → CanTakeBoth sectors minis self.old → ⊥) }
        ensures errors { IfErr result
            (IsOutOfMemoryOrFailed (has_failed_here (allocator_of file.now))) }
    {
        for id in ids {
            if !self.take_entry(alloc, file, file_len, *id)? {
                return Ok(false);
            }
        }
        Ok(true)
    }
}
