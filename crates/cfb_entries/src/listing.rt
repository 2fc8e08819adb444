//! Objects by their paths, and what storages hold.
#![tactic(auto, unfolding(crate::specs::Lists::entries_left))]

ghost use Rattle.cfb_entries.specs.Listed.{listed_at, listed_in, prefix_text, root_listed};
ghost use Rattle.cfb_entries.specs.Rules.{answer_at, names_in, EntriesHoldSizes, IsEntryError, TellsEntry};
ghost use Rattle.cfb_entries.specs.Lists.{entries_left, ReturnsEntries};
ghost use Rattle.cfb_spec.specs.TreeRules.{entry, parent_of, read_storage, walk_storage};
ghost use Rattle.cfb_medium.specs.declared.error.Error.TheVariants.{Memory};
ghost use Rattle.cfb_siblings.specs.Places.{path_of};
ghost use Rattle.cfb_tree.specs.Directory.{HasName};
ghost use Rattle.cfb_tree.specs.EntryViews.{entry_in};
ghost use Rattle.cfb_tree.specs.CaseTableViews.{case_table_of};
ghost use Rattle.cfb_tree.specs.Tree.{Tree};
ghost use Rattle.std.specs.Iterator.{YieldsFirst, item_count};
ghost use Rattle.std.specs.Prelude.{chars, length, map, string_bytes, IfErr, IfOk, List, ℕ, ◌++◌, ◌<◌, ◌≡◌, ◌∷◌, ◌⊎◌};

use crate::entry::{Entry, is_stream};
use crate::finding::find_by_path;
use crate::walking::{children, children_link, walk};
use cfb_medium::Error;
use cfb_tree::{CaseMapper, DirEntry};
use std::alloc::Global;
use std::iter::ExactSizeIterator;
use std::vec::IntoIter;

/// Which objects in a storage are listed.
#[derive(Clone, Copy, Debug, PartialEq, Eq)]
pub enum EntriesOrder {
    /// Its children alone, in their order.
    Nonrecursive,
    /// The storage itself and all objects in it, each storage before what it holds.
    Preorder,
}

/// The listed objects that are still to come. They were made by the call that gave them, so that going on takes no memory.
#[derive(Drop)]
pub struct Entries {
    left: IntoIter<Entry>,
}

impl Entries {
    fn new(list: Vec<Entry>) -> Entries
        ensures { entries_left result ≡ list.items }
    {
        Entries {
            left: list.into_iter(),
        }
    }
}

impl Iterator for Entries {
    type Item = Entry;

    ghost next_gives = { YieldsFirst entries_left };

    ghost remaining = { item_count entries_left };

    fn next(&mut self) -> Option<Entry> {
        self.left.next()
    }
}

impl ExactSizeIterator for Entries {
    fn len(&self) -> usize {
        self.left.len()
    }
}

// The text of names, each behind a slash.
fn prefix_of(alloc: Global, names: &[&str]) -> Result<String, Error>
    ensures text { IfOk result
        (λ text. chars (string_bytes text) ≡ prefix_text (path_of names.now)) }
    ensures errors { IfErr result (λ e. e ≡ Memory) }
{
    let mut text = String::new(alloc);
    for name in names {
        text.push('/')?;
        text.push_str(name)?;
    }
    Ok(text)
}

// An object as the first of its listing, under its stored name.
fn top_of(alloc: Global, entry: &DirEntry, names: &[&str]) -> Result<Entry, Error>
    ensures root { IfOk result (λ it. length names.now ≡ 0
        → listed_in it ≡ root_listed (entry_in entry.now).facts) }
    ensures below { IfOk result (λ it. 0 < length names.now
        → (name : List ℕ) × HasName (entry_in entry.now) name × (listed_in it
        ≡ listed_at (entry_in entry.now) (prefix_text (parent_of (path_of names.now)) ++ 47 ∷ name)
        name)) }
    ensures errors { IfErr result (λ e. (e ≡ Memory) ⊎ ((0 < length names.now)
        × ((name : List ℕ) → HasName (entry_in entry.now) name → ⊥))) }
    ensures kind { IfErr result IsEntryError }
{
    let count = names.len();
    if count == 0 {
        return Entry::root(alloc, entry);
    }
    let prefix = prefix_of(alloc, &names[..count - 1])?;
    Entry::below(alloc, entry, &prefix)
}

/// The object at a path. `InvalidInput` where the path leads above the root, `NotFound` where no object is there. The one other
/// error is `Memory`; of entries that hold no tree also `InvalidData`.
pub fn entry_at(
    alloc: Global,
    letters: &CaseMapper,
    entries: &[DirEntry],
    path: &str,
) -> Result<Entry, Error>
    ensures answer { (tree : Tree)
        → EntriesHoldSizes (case_table_of letters.now) (map entry_in entries.now) tree
        → TellsEntry (answer_at (case_table_of letters.now) tree entry (names_in path.now)) result }
    ensures errors { IfErr result IsEntryError }
{
    let (names, entry) = match find_by_path(alloc, letters, entries, path) {
        Ok(found) => found,
        Err(error) => return Err(error),
    };
    if names.is_empty() {
        return Entry::root(alloc, entry);
    }
    let text = prefix_of(alloc, &names)?;
    Entry::at(alloc, entry, text)
}

/// The children of the storage at a path, in their order. `InvalidInput` where the path leads above the root, `NotFound` where
/// no object is there, `InvalidInput` where it is a stream. The one other error is `Memory`; of entries that hold no tree also
/// `InvalidData`.
pub fn children_at(
    alloc: Global,
    letters: &CaseMapper,
    entries: &[DirEntry],
    path: &str,
) -> Result<Entries, Error>
    ensures answer { (tree : Tree)
        → EntriesHoldSizes (case_table_of letters.now) (map entry_in entries.now) tree
        → ReturnsEntries
        (answer_at (case_table_of letters.now) tree read_storage (names_in path.now))
        result }
    ensures errors { IfErr result IsEntryError }
{
    let (names, entry) = match find_by_path(alloc, letters, entries, path) {
        Ok(found) => found,
        Err(error) => return Err(error),
    };
    if is_stream(entry) {
        return Err(Error::InvalidInput);
    }
    let prefix = prefix_of(alloc, &names)?;
    match children(alloc, entries, &prefix, children_link(entry)) {
        Ok(list) => Ok(Entries::new(list)),
        Err(error) => Err(error),
    }
}

/// The storage at a path and all objects in it, each storage before what it holds. `InvalidInput` where the path leads above
/// the root, `NotFound` where no object is there, `InvalidInput` where it is a stream. The one other error is `Memory`; of
/// entries that hold no tree also `InvalidData`.
pub fn walk_at(
    alloc: Global,
    letters: &CaseMapper,
    entries: &[DirEntry],
    path: &str,
) -> Result<Entries, Error>
    ensures answer { (tree : Tree)
        → EntriesHoldSizes (case_table_of letters.now) (map entry_in entries.now) tree
        → ReturnsEntries
        (answer_at (case_table_of letters.now) tree walk_storage (names_in path.now))
        result }
    ensures errors { IfErr result IsEntryError }
{
    let (names, entry) = match find_by_path(alloc, letters, entries, path) {
        Ok(found) => found,
        Err(error) => return Err(error),
    };
    if is_stream(entry) {
        return Err(Error::InvalidInput);
    }
    let top = match top_of(alloc, entry, &names) {
        Ok(top) => top,
        Err(error) => return Err(error),
    };
    match walk(alloc, entries, top, children_link(entry)) {
        Ok(list) => Ok(Entries::new(list)),
        Err(error) => Err(error),
    }
}
