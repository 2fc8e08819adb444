//! Streams whose bytes aren't all there ([MS-CFB] 2.6.3).
ghost use Rattle.cfb_directory.specs.Views.{entries_held};
ghost use Rattle.cfb_fat.specs.Tables.{fat_of, has_failed_here, version_of};
ghost use Rattle.cfb_findings.specs.Seen.{tables_seen};
ghost use Rattle.cfb_findings.specs.Avail.{mini_start};
ghost use Rattle.cfb_findings.specs.Broken.{AreBroken, HasAllItUses};
ghost use Rattle.cfb_findings.specs.Findings.{HasTree};
ghost use Rattle.cfb_findings.specs.Held.{TableHasChains, TellsTables};
ghost use Rattle.cfb_findings.specs.Minis.{minis_there};
ghost use Rattle.cfb_findings.specs.Noted.{IsNoted};
ghost use Rattle.cfb_medium.specs.Versions.{sector_len};
ghost use Rattle.cfb_medium.specs.declared.error.Error.TheVariants.{Failed, Memory};
ghost use Rattle.cfb_mini.specs.Views.{allocator_of, directory_of, mini_fat_of, mini_stream_ids};
ghost use Rattle.cfb_sectors.specs.Sectors.{sector_start};
ghost use Rattle.cfb_soundness.specs.Uses.{IsOutOfMemoryOrFailed};
ghost use Rattle.std.specs.Prelude.{false, length, take, true, IfErr, IfOk, IsErrOf, IsTrue, List, OnOk, ℕ, ◌*◌, ◌++◌, ◌∷◌, ◌≡◌, ◌↔◌};

use crate::avail::{minis_bytes, sectors_bytes};
use crate::held::Held;
use crate::sharing::fat_entries;
use crate::starts::{is_long, is_short};
use cfb_medium::{Error, ReadMedium};
use cfb_mini::MiniAllocator;
use cfb_sectors::{HasSectors, MAX_REGULAR_SECTOR, MINI_SECTOR_LEN};
use cfb_soundness::tree_entries;
use std::alloc::Global;

// What is told of the FAT's chains.
fn held_in_fat<F: ReadMedium>(
    alloc: Global,
    file: &MiniAllocator<F>,
    file_len: u64,
) -> Result<Held, Error>
    requires { has_failed_here (allocator_of file.now) ≡ false }
    ensures tells { IfOk result (TableHasChains (fat_of (allocator_of file.now))
        (sector_len (version_of (allocator_of file.now)))
        (sector_start (version_of (allocator_of file.now))) file_len) }
    ensures errors { IfErr result (λ e. e ≡ Memory) }
{
    let allocator = file.directory().allocator();
    let version = file.version();
    let links = fat_entries(alloc, allocator)?;
    let avail = sectors_bytes(alloc, version, file_len, allocator.num_sectors())?;
    Held::of_table(alloc, &links, &avail, version.sector_len() as u64)
}

// How many mini sectors the mini stream has, with entries in the mini FAT.
fn minis_there<F: ReadMedium>(file: &MiniAllocator<F>) -> u32
    ensures { result ≡ minis_there (mini_fat_of file.now) (length (mini_stream_ids file.now)
        * sector_len (version_of (allocator_of file.now))) }
{
    let len = file.mini_stream_sectors().len() as u64 * file.sector_len() as u64;
    let count = (len / MINI_SECTOR_LEN as u64).min(MAX_REGULAR_SECTOR as u64 + 1);
    count.min(file.mini_fat().len() as u64) as u32
}

// What is told of the mini FAT's chains in the mini stream.
fn held_in_mini_fat<F: ReadMedium>(
    alloc: Global,
    file: &MiniAllocator<F>,
    file_len: u64,
) -> Result<Held, Error>
    ensures tells { IfOk result (TableHasChains (take (minis_there (mini_fat_of file.now)
        (length (mini_stream_ids file.now) * sector_len (version_of (allocator_of file.now))))
        (mini_fat_of file.now)) 64 (mini_start (version_of (allocator_of file.now))
        (mini_stream_ids file.now)) file_len) }
    ensures errors { IfErr result (λ e. e ≡ Memory) }
{
    let count = minis_there(file);
    let links = &file.mini_fat()[..count as usize];
    let stream = file.mini_stream_sectors();
    let avail = minis_bytes(alloc, file.version(), stream, file_len, count)?;
    Held::of_table(alloc, links, &avail, MINI_SECTOR_LEN as u64)
}

// Whether the directory has the entry, and the entry what it uses.
fn is_whole<F: ReadMedium>(file: &MiniAllocator<F>, fat: &Held, minis: &Held, id: u32) -> bool
    ensures { (file_len : ℕ) → TellsTables (tables_seen file.now file_len) fat.now minis.now
        → IsTrue result ↔ HasAllItUses (tables_seen file.now file_len) id }
{
    if !file.directory().has_dir_entry(id) {
        return false;
    }
    let entry = file.directory().dir_entry(id);
    if is_long(entry) {
        return fat.holds(entry.start_sector, entry.stream_len);
    }
    if is_short(entry) {
        return minis.holds(entry.start_sector, entry.stream_len);
    }
    true
}

// Adds an entry that hasn't what it uses.
fn note<F: ReadMedium>(
    found: &mut Vec<u32>,
    file: &MiniAllocator<F>,
    fat: &Held,
    minis: &Held,
    id: u32,
) -> Result<(), Error>
    ensures noted { (file_len : ℕ) → TellsTables (tables_seen file.now file_len) fat.now minis.now
        → OnOk result (IsNoted (HasAllItUses (tables_seen file.now file_len) id) id
        found.old.items found.new.items) }
    ensures errors { IfErr result (λ e. e ≡ Memory) }
{
    if is_whole(file, fat, minis, id) {
        return Ok(());
    }
    found.push(id)?;
    Ok(())
}

// Those of these entries that haven't what they use.
fn broken_of<F: ReadMedium>(
    alloc: Global,
    file: &MiniAllocator<F>,
    fat: &Held,
    minis: &Held,
    ids: &[u32],
) -> Result<Vec<u32>, Error>
    ensures found { (file_len : ℕ) → TellsTables (tables_seen file.now file_len) fat.now minis.now
        → IfOk result (λ found. AreBroken (tables_seen file.now file_len) ids.now found.items) }
    ensures errors { IfErr result (λ e. e ≡ Memory) }
{
    let mut found = Vec::new(alloc);
    for id in ids {
        note(&mut found, file, fat, minis, *id)?;
    }
    Ok(found)
}

/// The entries of the streams whose bytes aren't all there, in the order of the tree: there is no chain from where they start, one
/// of its mini sectors lies past the mini stream, it has fewer bytes than the stream, or some of the stream's bytes lie past the
/// file's end. `file_len` is the number of the medium's bytes. Of a directory without a tree nothing is said. It reads nothing, and
/// its time grows with the tables and the entries, however long the chains are. `Failed` where a fault before has left the file in
/// a state in which every call is refused; the one other error is `Memory` ([MS-CFB] 2.6.3).
pub fn broken_streams<F: ReadMedium>(
    alloc: Global,
    file: &MiniAllocator<F>,
    file_len: u64,
) -> Result<Vec<u32>, Error>
    ensures found { (ids : List ℕ) → HasTree (entries_held (directory_of file.now)) ids
        → IfOk result (λ found. AreBroken (tables_seen file.now file_len) ids found.items) }
    ensures when_failed { has_failed_here (allocator_of file.now) ≡ true → IsErrOf result Failed }
    ensures errors { IfErr result
        (IsOutOfMemoryOrFailed (has_failed_here (allocator_of file.now))) }
{
    if file.directory().allocator().is_failed() {
        return Err(Error::Failed);
    }
    let fat = held_in_fat(alloc, file, file_len)?;
    let minis = held_in_mini_fat(alloc, file, file_len)?;
    let ids = tree_entries(alloc, file.directory())?;
    broken_of(alloc, file, &fat, &minis, &ids)
}
