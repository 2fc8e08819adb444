//! The entries of a directory's tree, in order ([MS-CFB] 2.6.4).
ghost use Rattle.cfb_directory.specs.Views.{entries_held};
ghost use Rattle.cfb_medium.specs.declared.error.Error.TheVariants.{Memory};
ghost use Rattle.cfb_soundness.specs.Entries.{steps_at, AreTreeEntries};
ghost use Rattle.cfb_tree.specs.Directory.{greatest_entry, kind_stream};
ghost use Rattle.cfb_tree.specs.EntryViews.{entry_in};
ghost use Rattle.cfb_tree.specs.Entries.{children_of};
ghost use Rattle.std.specs.Prelude.{length, IfErr, IfOk, IsTrue, OnOk, ◌++◌, ◌<◌, ◌≡◌, ◌≤◌, ◌↔◌};

use cfb_directory::Directory;
use cfb_medium::{Error, ReadMedium};
use cfb_sectors::{MAX_REGULAR_STREAM_ID, NO_STREAM};
use cfb_tree::{DirEntry, ObjType};
use std::alloc::Global;

// What is still to be told.
#[derive(Clone, Copy)]
enum Step {
    // What hangs at a link.
    Hanging(u32),
    // An entry that was met on the way to those before it.
    Met(u32),
}

// Whether the entry is a stream.
pub(crate) fn is_stream(entry: &DirEntry) -> bool
    ensures { IsTrue result ↔ ((entry_in entry.now).kind ≡ kind_stream) }
{
    match entry.obj_type() {
        Some(found) => found.as_byte() == ObjType::Stream.as_byte(),
        None => false,
    }
}

// Where the children of an entry hang.
fn children_of(entry: &DirEntry) -> u32
    ensures { result ≡ children_of (entry_in entry.now) }
{
    if is_stream(entry) {
        NO_STREAM
    } else {
        entry.child
    }
}

// Adds what hangs at an entry: those before it come first, then itself, what it holds, and those behind it.
fn push_steps(pending: &mut Vec<Step>, entry: &DirEntry, id: u32) -> Result<(), Error>
    ensures added { OnOk result (pending.new.items
        ≡ pending.old.items ++ steps_at (entry_in entry.now) id) }
    ensures errors { IfErr result (λ e. e ≡ Memory) }
{
    pending.push(Step::Hanging(entry.right_sibling))?;
    pending.push(Step::Hanging(children_of(entry)))?;
    pending.push(Step::Met(id))?;
    pending.push(Step::Hanging(entry.left_sibling))?;
    Ok(())
}

// Whether there may be an entry at a link, behind so many others.
fn may_be_there<F: ReadMedium>(directory: &Directory<F>, id: u32, met: u32) -> bool
    ensures { IsTrue result ↔ (id ≤ greatest_entry) × (id < length (entries_held directory.now))
        × (met ≤ greatest_entry) × (met < length (entries_held directory.now)) }
{
    id <= MAX_REGULAR_STREAM_ID
        && directory.has_dir_entry(id)
        && met <= MAX_REGULAR_STREAM_ID
        && directory.has_dir_entry(met)
}

/// The numbers of the tree's entries but the root's, siblings in order and each before what it holds. The one error is `Memory`
/// ([MS-CFB] 2.6.4).
pub fn tree_entries<F: ReadMedium>(
    alloc: Global,
    directory: &Directory<F>,
) -> Result<Vec<u32>, Error>
    ensures all { IfOk result (λ ids. AreTreeEntries (entries_held directory.now) ids.items) }
    ensures errors { IfErr result (λ e. e ≡ Memory) }
{
    let mut ids = Vec::new(alloc);
    let mut pending = Vec::new(alloc);
    let mut met = 0;
    pending.push(Step::Hanging(directory.root_dir_entry().child))?;
    'walk: while let Some(step) = pending.pop() {
        match step {
            Step::Met(id) => ids.push(id)?,
            Step::Hanging(id) => {
                if !may_be_there(directory, id, met) {
                    continue;
                }
                met += 1;
                push_steps(&mut pending, directory.dir_entry(id), id)?;
            }
        }
    }
    Ok(ids)
}
