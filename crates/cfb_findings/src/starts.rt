//! Where the chains of a directory's streams start ([MS-CFB] 2.6.1).
ghost use Rattle.cfb_directory.specs.Views.{entries_held};
ghost use Rattle.cfb_findings.specs.Findings.{is_long, is_short, start_where, starts_where, HasTree};
ghost use Rattle.cfb_medium.specs.declared.error.Error.TheVariants.{Memory};
ghost use Rattle.cfb_tree.specs.Directory.{kind_stream};
ghost use Rattle.cfb_tree.specs.EntryViews.{entry_in};
ghost use Rattle.std.specs.Option.{option_to_list};
ghost use Rattle.std.specs.Prelude.{slice_get, IfErr, IfOk, IsTrue, List, OnOk, ℕ, ◌++◌, ◌≡◌, ◌↔◌};

use cfb_directory::Directory;
use cfb_medium::{Error, ReadMedium};
use cfb_sectors::MINI_STREAM_CUTOFF;
use cfb_soundness::tree_entries;
use cfb_tree::{DirEntry, ObjType};
use std::alloc::Global;

// Whether the entry is a stream.
fn is_stream(entry: &DirEntry) -> bool
    ensures { IsTrue result ↔ ((entry_in entry.now).kind ≡ kind_stream) }
{
    match entry.obj_type() {
        Some(found) => found.as_byte() == ObjType::Stream.as_byte(),
        None => false,
    }
}

// Whether the entry is a stream of at least 4096 bytes.
pub(crate) fn is_long(entry: &DirEntry) -> bool
    ensures { result ≡ is_long (entry_in entry.now) }
{
    if !is_stream(entry) {
        return false;
    }
    entry.stream_len >= MINI_STREAM_CUTOFF as u64
}

// Whether the entry is a shorter stream.
pub(crate) fn is_short(entry: &DirEntry) -> bool
    ensures { result ≡ is_short (entry_in entry.now) }
{
    if !is_stream(entry) {
        return false;
    }
    entry.stream_len < MINI_STREAM_CUTOFF as u64
}

// Where the chain of a stream of at least 4096 bytes starts.
fn long_start<F: ReadMedium>(directory: &Directory<F>, id: u32) -> Option<u32>
    ensures { option_to_list result
        ≡ start_where is_long (slice_get (entries_held directory.now) id) }
{
    if !directory.has_dir_entry(id) {
        return None;
    }
    let entry = directory.dir_entry(id);
    if !is_long(entry) {
        return None;
    }
    Some(entry.start_sector)
}

// Where the chain of a shorter stream starts.
fn short_start<F: ReadMedium>(directory: &Directory<F>, id: u32) -> Option<u32>
    ensures { option_to_list result
        ≡ start_where is_short (slice_get (entries_held directory.now) id) }
{
    if !directory.has_dir_entry(id) {
        return None;
    }
    let entry = directory.dir_entry(id);
    if !is_short(entry) {
        return None;
    }
    Some(entry.start_sector)
}

// Where the chains of the streams of at least 4096 bytes start, of these entries.
fn long_starts_of<F: ReadMedium>(
    alloc: Global,
    directory: &Directory<F>,
    ids: &[u32],
) -> Result<Vec<u32>, Error>
    ensures starts { IfOk result (λ starts. starts.items
        ≡ starts_where is_long (entries_held directory.now) ids.now) }
    ensures errors { IfErr result (λ e. e ≡ Memory) }
{
    let mut starts = Vec::new(alloc);
    for id in ids {
        add(&mut starts, long_start(directory, *id))?;
    }
    Ok(starts)
}

// Where the chains of the shorter streams start, of these entries.
fn short_starts_of<F: ReadMedium>(
    alloc: Global,
    directory: &Directory<F>,
    ids: &[u32],
) -> Result<Vec<u32>, Error>
    ensures starts { IfOk result (λ starts. starts.items
        ≡ starts_where is_short (entries_held directory.now) ids.now) }
    ensures errors { IfErr result (λ e. e ≡ Memory) }
{
    let mut starts = Vec::new(alloc);
    for id in ids {
        add(&mut starts, short_start(directory, *id))?;
    }
    Ok(starts)
}

// Adds a start, if there is one.
fn add(starts: &mut Vec<u32>, start: Option<u32>) -> Result<(), Error>
    ensures added { OnOk result (starts.new.items
        ≡ starts.old.items ++ option_to_list start) }
    ensures errors { IfErr result (λ e. e ≡ Memory) }
{
    match start {
        Some(start) => {
            starts.push(start)?;
            Ok(())
        }
        None => Ok(()),
    }
}

// Where the chains of the tree's streams of at least 4096 bytes start.
pub(crate) fn long_starts<F: ReadMedium>(
    alloc: Global,
    directory: &Directory<F>,
) -> Result<Vec<u32>, Error>
    ensures starts { (ids : List ℕ) → HasTree (entries_held directory.now) ids
        → IfOk result (λ starts. starts.items
        ≡ starts_where is_long (entries_held directory.now) ids) }
    ensures errors { IfErr result (λ e. e ≡ Memory) }
{
    let ids = tree_entries(alloc, directory)?;
    long_starts_of(alloc, directory, &ids)
}

// Where the chains of the tree's shorter streams start.
pub(crate) fn short_starts<F: ReadMedium>(
    alloc: Global,
    directory: &Directory<F>,
) -> Result<Vec<u32>, Error>
    ensures starts { (ids : List ℕ) → HasTree (entries_held directory.now) ids
        → IfOk result (λ starts. starts.items
        ≡ starts_where is_short (entries_held directory.now) ids) }
    ensures errors { IfErr result (λ e. e ≡ Memory) }
{
    let ids = tree_entries(alloc, directory)?;
    short_starts_of(alloc, directory, &ids)
}
