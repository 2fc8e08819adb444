//! What a copy sets right that lenient readers let pass: colours, and the root's size ([MS-CFB] 2.6.3, 2.6.4).
ghost use Rattle.cfb_copying.specs.Copied.{in_black, Paints, Repairs};
ghost use Rattle.cfb_directory.specs.Entries.{entries_in};
ghost use Rattle.cfb_fat.specs.Tables.{version_of};
ghost use Rattle.cfb_medium.specs.Versions.{sector_len, stream_len_mask};
ghost use Rattle.cfb_mini.specs.Views.{allocator_of, mini_stream_ids};
ghost use Rattle.cfb_tree.specs.Directory.{kind_unallocated};
ghost use Rattle.cfb_tree.specs.EntryViews.{entry_in};
ghost use Rattle.std.specs.Prelude.{length, IsTrue, ◌*◌, ◌≡◌, ◌≤◌, ◌↔◌};

use cfb_medium::ReadMedium;
use cfb_mini::MiniAllocator;
use cfb_tree::{Color, DirEntry, ObjType};

// The size that a copy's root gets: the bytes of the mini stream's sectors, or the most that a size of this version can be.
pub(crate) fn root_len<F: ReadMedium>(mini: &MiniAllocator<F>) -> u64
    ensures fits { result ≤ stream_len_mask (version_of (allocator_of mini.now)) }
    ensures sized { length (mini_stream_ids mini.now)
        * sector_len (version_of (allocator_of mini.now))
        ≤ stream_len_mask (version_of (allocator_of mini.now))
        → result ≡ length (mini_stream_ids mini.now)
        * sector_len (version_of (allocator_of mini.now)) }
{
    let version = mini.version();
    let count = mini.mini_stream_sectors().len() as u64;
    let len = count.saturating_mul(version.sector_len() as u64);
    len.min(version.stream_len_mask())
}

// Whether the entry is in no use.
fn is_unused(entry: &DirEntry) -> bool
    ensures { IsTrue result ↔ ((entry_in entry.now).kind ≡ kind_unallocated) }
{
    match entry.obj_type() {
        Some(kind) => kind.as_byte() == ObjType::Unallocated.as_byte(),
        None => false,
    }
}

// The entry, black where it is in use. Siblings that are all black are coloured right.
fn painted(entry: DirEntry) -> DirEntry
    ensures { entry_in result ≡ in_black (entry_in entry) }
{
    if is_unused(&entry) {
        return entry;
    }
    let mut black = entry;
    black.set_color(Color::Black);
    black
}

// Makes each entry that is in use black.
fn paint(entries: &mut [DirEntry])
    ensures { Paints (entries_in entries.old) (entries_in entries.new) }
{
    'paint: for entry in entries.iter_mut() {
        *entry = painted(*entry);
    }
}

// Makes each entry that is in use black, and gives the root this size.
pub(crate) fn repair(entries: &mut [DirEntry], root_len: u64)
    ensures { Repairs root_len (entries_in entries.old) (entries_in entries.new) }
{
    paint(entries);
    if entries.is_empty() {
        return;
    }
    let mut root = entries[0];
    root.stream_len = root_len;
    entries[0] = root;
}
