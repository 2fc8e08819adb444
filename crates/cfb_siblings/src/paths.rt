//! An entry by the names that lead to it.
ghost use Rattle.cfb_siblings.specs.Places.{path_of, IsEntryAt, IsOwner};
ghost use Rattle.cfb_siblings.specs.Reading.{ReadBy};
ghost use Rattle.cfb_tree.specs.EntryViews.{entry_in};
ghost use Rattle.cfb_tree.specs.CaseTableViews.{case_table_of};
ghost use Rattle.cfb_tree.specs.Objects.{object_at, EntriesHoldTree};
ghost use Rattle.cfb_tree.specs.Tree.{Tree};
ghost use Rattle.std.specs.Prelude.{map, Bool, IsTrue, List, MatchOption, None, ℕ, ◌≡◌, ◌↔◌};

use crate::places::{Place, find_place};
use cfb_sectors::OBJ_TYPE_STREAM;
use cfb_tree::{CaseMapper, DirEntry};

// Whether there is such an entry, and it is no stream.
fn is_owner(entries: &[DirEntry], id: u32) -> bool
    ensures { IsTrue result ↔ IsOwner (map entry_in entries.now) id }
{
    let Some(entry) = entries.get(id as usize) else {
        return false;
    };
    match entry.obj_type() {
        Some(kind) => kind.as_byte() != OBJ_TYPE_STREAM,
        None => true,
    }
}

/// The entry to which these names lead from the root, or none where the tree has no object there. It takes no memory, and for
/// each name at most as many steps as there are entries.
pub fn find_entry(letters: &CaseMapper, entries: &[DirEntry], names: &[&str]) -> Option<u32>
    ensures { (reads : ℕ → ℕ → List ℕ → Bool) (tree : Tree)
        → EntriesHoldTree (case_table_of letters.now) (ReadBy reads) (map entry_in entries.now) tree
        → MatchOption result
        (object_at (case_table_of letters.now) tree (path_of names.now) ≡ None)
        (λ id. IsEntryAt (ReadBy reads) (case_table_of letters.now) (map entry_in entries.now) tree
        (path_of names.now) id) }
{
    let mut id = 0;
    'path: for name in names {
        if !is_owner(entries, id) {
            return None;
        }
        match find_place(letters, entries, id, name) {
            Some(Place::Taken { id: child, .. }) => id = child,
            Some(Place::Free { .. }) => return None,
            None => return None,
        }
    }
    Some(id)
}
