//! What to link when an entry is taken out of its siblings.
ghost use Rattle.cfb_siblings.specs.Changes.{TakesOut};
ghost use Rattle.cfb_siblings.specs.Places.{path_to, Hangs, IsStorageAt, NameIsTaken};
ghost use Rattle.cfb_siblings.specs.Reading.{ReadBy};
ghost use Rattle.cfb_siblings.specs.declared.links.Link.TheVariants.{Right};
ghost use Rattle.cfb_tree.specs.Directory.{no_entry, Siblings};
ghost use Rattle.cfb_tree.specs.EntryViews.{entry_in};
ghost use Rattle.cfb_tree.specs.Names.{CaseTable};
ghost use Rattle.cfb_tree.specs.Objects.{EntriesHoldTree};
ghost use Rattle.cfb_tree.specs.Paths.{Path};
ghost use Rattle.cfb_tree.specs.Tree.{Tree};
ghost use Rattle.std.specs.List.{IsDistinct};
ghost use Rattle.std.specs.Prelude.{map, nat_eq, Bool, List, MatchOption, [], ℕ, ◌≢◌, ◌∷◌};

use crate::links::{Link, NewLink};
use cfb_sectors::NO_STREAM;
use cfb_tree::DirEntry;

/// The links that are to be set to take an entry out of its siblings, in this order ([MS-CFB] 2.6.4).
#[derive(Clone, Copy, Debug, PartialEq, Eq)]
pub struct Removal {
    /// Where the entry has siblings on both sides: the last of those on its left leads to those on its right.
    pub joined: Option<NewLink>,
    /// The link that led to the entry leads to those on its left, or to those on its right where it has none on the left.
    pub replaced: NewLink,
}

// The last of the siblings that hang at an entry: the way goes by the right links.
fn last_sibling(entries: &[DirEntry], first: u32) -> Option<u32>
    ensures { (ids : List ℕ) → Siblings (map entry_in entries.now) first ids
        → IsDistinct nat_eq ids → first ≢ no_entry → MatchOption result ⊥
        (λ last. Hangs (map entry_in entries.now) 0 first (Right last) no_entry ids []) }
{
    let mut last = first;
    for _step in 0..entries.len() {
        let Some(sibling) = entries.get(last as usize) else {
            return None;
        };
        if sibling.right_sibling == NO_STREAM {
            return Some(last);
        }
        last = sibling.right_sibling;
    }
    None
}

/// What to link to take entry `id` out of its siblings, where the link leads to it, as `find_place` tells. After these links
/// were set, the entries hold the tree without the entry's object and what is in it, whatever stands in its place. It takes
/// at most as many steps as there are entries, and no memory. `None` comes only where the entries hold no tree with this child.
pub fn plan_removal(entries: &[DirEntry], link: Link, id: u32) -> Option<Removal>
    ensures { (reads : ℕ → ℕ → List ℕ → Bool) (letters : CaseTable) (tree : Tree) (path : Path)
        (parent : ℕ) (name : List ℕ)
        → (h : EntriesHoldTree letters (ReadBy reads) (map entry_in entries.now) tree)
        → IsStorageAt letters (map entry_in entries.now) path parent
        → NameIsTaken letters (map entry_in entries.now) parent name link id
        → MatchOption result ⊥ (λ removal. TakesOut letters (ReadBy reads)
        (map entry_in entries.now) tree h.ids (path_to path name) id removal) }
{
    let Some(entry) = entries.get(id as usize) else {
        return None;
    };
    if entry.left_sibling == NO_STREAM {
        let target = entry.right_sibling;
        return Some(Removal {
            joined: None,
            replaced: NewLink { link, target },
        });
    }
    let replaced = NewLink {
        link,
        target: entry.left_sibling,
    };
    if entry.right_sibling == NO_STREAM {
        return Some(Removal {
            joined: None,
            replaced,
        });
    }
    let Some(last) = last_sibling(entries, entry.left_sibling) else {
        return None;
    };
    let joined = Some(NewLink {
        link: Link::Right(last),
        target: entry.right_sibling,
    });
    Some(Removal { joined, replaced })
}
