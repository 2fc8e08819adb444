//! Where a name hangs among a storage's children.
ghost use Rattle.cfb_siblings.specs.Places.{IsPlace, IsStorageAt};
ghost use Rattle.cfb_siblings.specs.Reading.{ReadBy};
ghost use Rattle.cfb_tree.specs.EntryViews.{entry_in};
ghost use Rattle.cfb_tree.specs.CaseTableViews.{case_table_of};
ghost use Rattle.cfb_tree.specs.Objects.{EntriesHoldTree};
ghost use Rattle.cfb_tree.specs.Paths.{Path};
ghost use Rattle.cfb_tree.specs.Tree.{Tree};
ghost use Rattle.std.specs.Prelude.{chars, map, Bool, List, MatchOption, ℕ};

use crate::links::Link;
use cfb_sectors::NO_STREAM;
use cfb_tree::{CaseMapper, DirEntry};
use std::cmp::Ordering;

/// Where a name stands among the children of a storage ([MS-CFB] 2.6.4).
#[derive(Clone, Copy, Debug, PartialEq, Eq)]
pub enum Place {
    /// The link leads to entry `id`, which has the name.
    Taken { link: Link, id: u32 },
    /// No child has the name; the link leads nowhere, and a new child of the name is to hang there.
    Free { link: Link },
}

/// Where a name stands among the children of storage `parent`. It goes down the siblings from the storage's child, in at
/// most as many steps as there are entries, and takes no memory. `None` comes only where the entries hold no tree in which
/// a path leads to this storage.
pub fn find_place(
    letters: &CaseMapper,
    entries: &[DirEntry],
    parent: u32,
    name: &str,
) -> Option<Place>
    ensures { (reads : ℕ → ℕ → List ℕ → Bool) (tree : Tree) (path : Path)
        → EntriesHoldTree (case_table_of letters.now) (ReadBy reads) (map entry_in entries.now) tree
        → IsStorageAt (case_table_of letters.now) (map entry_in entries.now) path parent
        → MatchOption result ⊥ (λ place. IsPlace (ReadBy reads) (case_table_of letters.now)
        (map entry_in entries.now) tree path parent (chars name.now) place) }
{
    let Some(storage) = entries.get(parent as usize) else {
        return None;
    };
    let mut link = Link::Child(parent);
    let mut at = storage.child;
    for _step in 0..entries.len() {
        if at == NO_STREAM {
            return Some(Place::Free { link });
        }
        let Some(entry) = entries.get(at as usize) else {
            return None;
        };
        let Some(order) = entry.compare_name(letters, name) else {
            return None;
        };
        match order {
            Ordering::Less => {
                link = Link::Left(at);
                at = entry.left_sibling;
            }
            Ordering::Equal => return Some(Place::Taken { link, id: at }),
            Ordering::Greater => {
                link = Link::Right(at);
                at = entry.right_sibling;
            }
        }
    }
    None
}
