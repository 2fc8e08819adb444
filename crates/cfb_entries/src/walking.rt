//! Objects of a tree in the order of a listing, without recursion.
ghost use Rattle.cfb_entries.specs.Listed.{listed, listed_in, prefix_of_listed, prefix_text};
ghost use Rattle.cfb_entries.specs.Rules.{IsEntryError};
ghost use Rattle.cfb_entries.specs.Holding.{IsHeldAt};
ghost use Rattle.cfb_entries.specs.Walk.{pending_at};
ghost use Rattle.cfb_spec.specs.TreeRules.{all_shown, children_shown};
ghost use Rattle.cfb_medium.specs.declared.error.Error.TheVariants.{InvalidData, Memory};
ghost use Rattle.cfb_tree.specs.EntryViews.{entry_in};
ghost use Rattle.cfb_tree.specs.Paths.{Path};
ghost use Rattle.cfb_tree.specs.Tree.{Content};
ghost use Rattle.cfb_tree.specs.Entries.{children_of};
ghost use Rattle.std.specs.Prelude.{chars, map, reverse, IfErr, IfOk, List, OnOk, ℕ, ◌++◌, ◌∷◌, ◌≡◌};

use crate::entry::{Entry, is_stream};
use crate::siblings::siblings;
use cfb_medium::Error;
use cfb_sectors::NO_STREAM;
use cfb_tree::DirEntry;
use std::alloc::Global;

// An entry that is to be listed, and where the storage that holds it stands in the list.
#[derive(Clone, Copy)]
struct Pending {
    id: u32,
    parent: usize,
}

// Where the children of an entry hang: a stream has none.
pub(crate) fn children_link(entry: &DirEntry) -> u32
    ensures { result ≡ children_of (entry_in entry.now) }
{
    if is_stream(entry) {
        NO_STREAM
    } else {
        entry.child
    }
}

// Adds entries, of which the first is to be listed first.
fn push_entries(pending: &mut Vec<Pending>, mut ids: Vec<u32>, parent: usize) -> Result<(), Error>
    ensures added { OnOk result (pending.new.items
        ≡ pending.old.items ++ pending_at parent (reverse ids.items)) }
    ensures errors { IfErr result (λ e. e ≡ Memory) }
{
    'push: while let Some(id) = ids.pop() {
        pending.push(Pending { id, parent })?;
    }
    Ok(())
}

// What hangs at a link of the object that is given, behind that object: each storage before what it holds. `InvalidData` comes
// only where the entries hold no content there.
pub(crate) fn walk(
    alloc: Global,
    entries: &[DirEntry],
    top: Entry,
    link: u32,
) -> Result<Vec<Entry>, Error>
    ensures answer { (front : Path) (content : Content)
        → IsHeldAt (map entry_in entries.now) link content
        → prefix_of_listed (listed_in top) ≡ prefix_text front
        → IfOk result (λ list. map listed_in list.items
        ≡ listed_in top ∷ map listed (all_shown front content))
        × IfErr result (λ e. e ≡ Memory) }
    ensures errors { IfErr result IsEntryError }
{
    let mut list = Vec::new(alloc);
    list.push(top)?;
    let mut pending = Vec::new(alloc);
    match siblings(alloc, entries, link) {
        Ok(ids) => push_entries(&mut pending, ids, 0)?,
        Err(error) => return Err(error),
    }
    'walk: while let Some(next) = pending.pop() {
        let at = list.len();
        if at > entries.len() {
            return Err(Error::InvalidData);
        }
        let Some(parent) = list.get(next.parent) else {
            return Err(Error::InvalidData);
        };
        let Some(entry) = entries.get(next.id as usize) else {
            return Err(Error::InvalidData);
        };
        match Entry::below(alloc, entry, parent.prefix()) {
            Ok(shown) => list.push(shown)?,
            Err(error) => return Err(error),
        }
        match siblings(alloc, entries, children_link(entry)) {
            Ok(ids) => push_entries(&mut pending, ids, at)?,
            Err(error) => return Err(error),
        }
    }
    Ok(list)
}

// The children that hang at a link, in their order, with what stands in front of the slash before their names. `InvalidData`
// comes only where the entries hold no content there.
pub(crate) fn children(
    alloc: Global,
    entries: &[DirEntry],
    prefix: &str,
    link: u32,
) -> Result<Vec<Entry>, Error>
    ensures answer { (front : Path) (content : Content)
        → IsHeldAt (map entry_in entries.now) link content
        → chars prefix.now ≡ prefix_text front
        → IfOk result (λ list. map listed_in list.items
        ≡ map listed (children_shown front content))
        × IfErr result (λ e. e ≡ Memory) }
    ensures errors { IfErr result IsEntryError }
{
    let mut list = Vec::new(alloc);
    let ids = match siblings(alloc, entries, link) {
        Ok(ids) => ids,
        Err(error) => return Err(error),
    };
    for id in &ids {
        let Some(entry) = entries.get(*id as usize) else {
            return Err(Error::InvalidData);
        };
        match Entry::below(alloc, entry, prefix) {
            Ok(shown) => list.push(shown)?,
            Err(error) => return Err(error),
        }
    }
    Ok(list)
}
