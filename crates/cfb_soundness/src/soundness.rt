//! Whether a file is sound: each of its parts serves one use at most, and none that is used is missing ([MS-CFB] 2).
ghost use Rattle.cfb_fat.specs.Tables.{bytes_of, fat_of, has_failed_here, sectors_of};
ghost use Rattle.cfb_spec.specs.Means.{Layout, BytesMeanTreeBy};
ghost use Rattle.cfb_spec.specs.Sound.{IsSoundContainer};
ghost use Rattle.cfb_medium.specs.declared.error.Error.TheVariants.{Failed, Memory};
ghost use Rattle.cfb_mini.specs.Views.{allocator_of};
ghost use Rattle.cfb_sectors.specs.Held.{count_of};
ghost use Rattle.cfb_soundness.specs.Marks.{CanTake, MarksEachOnce};
ghost use Rattle.cfb_soundness.specs.Uses.{AreInUse, IsOutOfMemoryOrFailed};
ghost use Rattle.cfb_soundness.specs.Views.{marks_of, table_sectors, LiesSo};
ghost use Rattle.cfb_tree.specs.Names.{CaseTable};
ghost use Rattle.cfb_tree.specs.Tree.{Tree};
ghost use Rattle.cfb_tree.specs.Entries.{HasSize};
ghost use Rattle.std.specs.Prelude.{[], false, length, true, IfErr, IfOk, IsErrOf, IsTrue, ◌∷◌, ◌≡◌, ◌≤◌, ◌↔◌};

use crate::entries::tree_entries;
use crate::marks::Marks;
use crate::streams::Taken;
use cfb_fat::Allocator;
use cfb_medium::{Error, ReadMedium};
use cfb_mini::MiniAllocator;
use cfb_sectors::{FREE_SECTOR, HasSectors};
use std::alloc::Global;

// Whether the FAT has an entry for each sector of the file ([MS-CFB] 2.3).
fn covers_the_file<F: ReadMedium>(allocator: &Allocator<F>) -> bool
    requires { has_failed_here allocator.now ≡ false }
    ensures { IsTrue result
        ↔ (count_of (sectors_of allocator.now) ≤ length (fat_of allocator.now)) }
{
    let count = allocator.num_sectors();
    count == 0 || allocator.next(count - 1).is_ok()
}

// Whether the FAT has an entry for a sector that isn't "free" ([MS-CFB] 2.3).
fn is_in_use<F: ReadMedium>(allocator: &Allocator<F>, sector_id: u32) -> bool
    requires { has_failed_here allocator.now ≡ false }
    ensures { IsTrue result ↔ AreInUse (fat_of allocator.now) (sector_id ∷ []) }
{
    match allocator.next(sector_id) {
        Ok(next) => next != FREE_SECTOR,
        Err(_) => false,
    }
}

// Whether the FAT has entries for these sectors of which none is "free" ([MS-CFB] 2.3).
fn are_in_use<F: ReadMedium>(allocator: &Allocator<F>, sector_ids: &[u32]) -> bool
    requires { has_failed_here allocator.now ≡ false }
    ensures { IsTrue result ↔ AreInUse (fat_of allocator.now) sector_ids.now }
{
    for sector_id in sector_ids {
        if !is_in_use(allocator, *sector_id) {
            return false;
        }
    }
    true
}

// Marks the sectors of FAT, DIFAT, directory, mini FAT and mini stream; `false` where one of them serves two uses.
fn take_tables<F: ReadMedium>(file: &MiniAllocator<F>, sectors: &mut Marks) -> bool
    ensures took { IsTrue result
        → MarksEachOnce (table_sectors file.now) (marks_of sectors.old) (marks_of sectors.new) }
    ensures refused_only_if { result ≡ false
        → CanTake (table_sectors file.now) (marks_of sectors.old) → ⊥ }
{
    let allocator = file.directory().allocator();
    if !sectors.take_all(allocator.fat_sectors()) {
        return false;
    }
    if !sectors.take_all(allocator.difat_sectors()) {
        return false;
    }
    if !sectors.take_all(file.directory().sectors()) {
        return false;
    }
    if !sectors.take_all(file.mini_fat_sectors()) {
        return false;
    }
    sectors.take_all(file.mini_stream_sectors())
}

/// Whether the file is sound: no sector and no mini sector serves two uses, none in use is free or missing, each stream's
/// bytes lie in its chain and in the file, and the FAT has an entry for each sector ([MS-CFB] 2). `file_len` is the number of the
/// medium's bytes. It reads nothing: time and memory grow with the tables and the directory, and not with the streams. `Failed`
/// where a fault before has left it in a state in which every call is refused; the one other error is `Memory`.
pub fn is_sound<F: ReadMedium>(
    alloc: Global,
    file: &MiniAllocator<F>,
    file_len: u64,
) -> Result<bool, Error>
    ensures sound { IfOk result (λ sound. (letters : CaseTable) (l : Layout) (tree : Tree)
        → LiesSo file.now l → file_len ≡ length (bytes_of (allocator_of file.now))
        → BytesMeanTreeBy l HasSize letters (bytes_of (allocator_of file.now)) tree
        → IsTrue sound ↔ IsSoundContainer letters (bytes_of (allocator_of file.now))) }
    ensures when_failed { has_failed_here (allocator_of file.now) ≡ true → IsErrOf result Failed }
    ensures errors { IfErr result
        (IsOutOfMemoryOrFailed (has_failed_here (allocator_of file.now))) }
{
    let allocator = file.directory().allocator();
    if allocator.is_failed() {
        return Err(Error::Failed);
    }
    if !covers_the_file(allocator) {
        return Ok(false);
    }
    if !are_in_use(allocator, allocator.fat_sectors()) {
        return Ok(false);
    }
    if !are_in_use(allocator, allocator.difat_sectors()) {
        return Ok(false);
    }
    let mut taken = Taken {
        sectors: Marks::new(alloc, allocator.num_sectors() as usize)?,
        minis: Marks::new(alloc, file.mini_fat().len())?,
    };
    if !take_tables(file, &mut taken.sectors) {
        return Ok(false);
    }
    let ids = tree_entries(alloc, file.directory())?;
    taken.take_entries(alloc, file, file_len, &ids)
}
