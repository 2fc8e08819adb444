//! What is at a path, without memory.
ghost use Rattle.cfb_entries.specs.Rules.{kind_at, names_in, EntriesHoldSizes};
ghost use Rattle.cfb_siblings.specs.Places.{path_to, LeadsTo};
ghost use Rattle.cfb_tree.specs.EntryViews.{entry_in};
ghost use Rattle.cfb_tree.specs.CaseTableViews.{case_table_of};
ghost use Rattle.cfb_tree.specs.Objects.{object_at};
ghost use Rattle.cfb_tree.specs.Paths.{Path};
ghost use Rattle.cfb_tree.specs.Tree.{Tree};
ghost use Rattle.std.specs.Prelude.{chars, map, MatchOption, None, Some, ◌≡◌};

use crate::entry::is_stream;
use crate::parts::{Parts, is_back, is_dropped};
use cfb_siblings::{Place, find_place};
use cfb_tree::{CaseMapper, DirEntry};

// The child of this name of the object to which a path leads; none where that has no such child, as where it is a stream.
fn child_of(letters: &CaseMapper, entries: &[DirEntry], parent: u32, name: &str) -> Option<u32>
    ensures { (tree : Tree)
        → EntriesHoldSizes (case_table_of letters.now) (map entry_in entries.now) tree
        → (path : Path)
        → LeadsTo (case_table_of letters.now) (map entry_in entries.now) 0 path parent
        → MatchOption result
        (object_at (case_table_of letters.now) tree (path_to path (chars name.now)) ≡ None)
        (λ id. LeadsTo (case_table_of letters.now) (map entry_in entries.now) 0
        (path_to path (chars name.now)) id) }
{
    let Some(entry) = entries.get(parent as usize) else {
        return None;
    };
    if is_stream(entry) {
        return None;
    }
    match find_place(letters, entries, parent, name) {
        Some(Place::Taken { id, .. }) => Some(id),
        Some(Place::Free { .. }) => None,
        None => None,
    }
}

// The entry to which a path leads; none where no object is there. The tree is gone down part by part. A part that a later `..`
// takes back is passed over with all in between, so that no name is looked up that isn't on the path; a `..` that is met leads
// above the root.
fn id_at(letters: &CaseMapper, entries: &[DirEntry], path: &str) -> Option<u32>
    ensures { (tree : Tree)
        → EntriesHoldSizes (case_table_of letters.now) (map entry_in entries.now) tree
        → MatchOption result
        (kind_at (case_table_of letters.now) tree (names_in path.now) ≡ None)
        (λ id. (names : Path) × (names_in path.now ≡ Some names)
        × LeadsTo (case_table_of letters.now) (map entry_in entries.now) 0 names id) }
{
    let mut id = 0;
    let mut turns = true;
    let mut parts = Parts::of(path);
    'parts: while let Some((part, later)) = parts.split_first() {
        parts = later;
        if is_dropped(part) {
            continue;
        }
        if is_back(part) {
            return None;
        }
        let (behind, more) = later.behind_back(turns);
        turns = more;
        if let Some(behind) = behind {
            parts = behind;
            continue;
        }
        let Some(child) = child_of(letters, entries, id, part) else {
            return None;
        };
        id = child;
    }
    Some(id)
}

/// Whether the object at a path is a stream; none where no object is there, as at a path above the root. It takes no memory.
/// Where `..` stands behind a name that isn't taken back, what is left of the path is read for each such name.
pub fn is_stream_at(letters: &CaseMapper, entries: &[DirEntry], path: &str) -> Option<bool>
    ensures { (tree : Tree)
        → EntriesHoldSizes (case_table_of letters.now) (map entry_in entries.now) tree
        → result ≡ kind_at (case_table_of letters.now) tree (names_in path.now) }
{
    let Some(id) = id_at(letters, entries, path) else {
        return None;
    };
    let Some(entry) = entries.get(id as usize) else {
        return None;
    };
    Some(is_stream(entry))
}
