//! Objects by the text of a path.
ghost use Rattle.cfb_entries.specs.Rules.{names_in};
ghost use Rattle.cfb_tree_edits.specs.Making.{IsFreePlace, IsRefusedPlace};
ghost use Rattle.cfb_tree_edits.specs.Removing.{IsChildAt, LacksChild};
ghost use Rattle.cfb_medium.specs.declared.error.Error.TheVariants.{AlreadyExists, InvalidInput, Memory, NotFound};
ghost use Rattle.cfb_siblings.specs.Places.{path_of, IsEntryAt};
ghost use Rattle.cfb_siblings.specs.Reading.{ReadBy};
ghost use Rattle.cfb_tree.specs.EntryViews.{entry_in};
ghost use Rattle.cfb_tree.specs.CaseTableViews.{case_table_of};
ghost use Rattle.cfb_tree.specs.Objects.{object_at, EntriesHoldTree};
ghost use Rattle.cfb_tree.specs.Paths.{Path};
ghost use Rattle.cfb_tree.specs.Tree.{Tree};
ghost use Rattle.std.specs.Prelude.{length, map, Bool, IfErr, IfOk, List, None, OnOk, Some, ℕ, ◌<◌, ◌≡◌, ◌⊎◌};

use crate::facts::is_stream;
use cfb_medium::Error;
use cfb_siblings::{Link, Place, find_entry, find_place};
use cfb_tree::{CaseMapper, DirEntry, name_chain_from_path, validate_name};
use std::alloc::Global;

/// The number of the entry to which a path leads. `InvalidInput` where it leads above the root, `NotFound` where the tree has no
/// object there. The one other error is `Memory`.
pub(crate) fn find_object(
    alloc: Global,
    letters: &CaseMapper,
    entries: &[DirEntry],
    path: &str,
) -> Result<u32, Error>
    ensures there { IfOk result (λ id. id < length (map entry_in entries.now)) }
    ensures found { (reads : ℕ → ℕ → List ℕ → Bool) (tree : Tree)
        → EntriesHoldTree (case_table_of letters.now) (ReadBy reads) (map entry_in entries.now) tree
        → IfOk result (λ id. (names : Path) × (names_in path.now ≡ Some names)
        × IsEntryAt (ReadBy reads) (case_table_of letters.now) (map entry_in entries.now) tree
        names id) }
    ensures refused_only_if { (reads : ℕ → ℕ → List ℕ → Bool) (tree : Tree)
        → EntriesHoldTree (case_table_of letters.now) (ReadBy reads) (map entry_in entries.now) tree
        → IfErr result (λ e. (e ≡ Memory) ⊎ ((e ≡ InvalidInput) × (names_in path.now ≡ None))
        ⊎ ((e ≡ NotFound) × (names : Path) × (names_in path.now ≡ Some names)
        × (object_at (case_table_of letters.now) tree names ≡ None))) }
    ensures errors { IfErr result (λ e. (e ≡ Memory) ⊎ (e ≡ InvalidInput) ⊎ (e ≡ NotFound)) }
{
    let names = match name_chain_from_path(alloc, path) {
        Ok(names) => names,
        Err(error) => return Err(error),
    };
    let Some(id) = find_entry(letters, entries, &names) else {
        return Err(Error::NotFound);
    };
    if id as usize >= entries.len() {
        return Err(Error::NotFound);
    }
    Ok(id)
}

/// The storage in which an object can be made at a path of names. `AlreadyExists` where an object is at the path, `NotFound` where
/// none is at its parent's, `InvalidInput` where that is a stream or the last name is invalid.
pub(crate) fn find_parent(
    letters: &CaseMapper,
    entries: &[DirEntry],
    names: &[&str],
) -> Result<u32, Error>
    ensures some { OnOk result (0 < length names.now) }
    ensures free { (reads : ℕ → ℕ → List ℕ → Bool) (tree : Tree)
        → EntriesHoldTree (case_table_of letters.now) (ReadBy reads) (map entry_in entries.now) tree
        → IfOk result (IsFreePlace (case_table_of letters.now) (map entry_in entries.now) tree
        (path_of names.now)) }
    ensures refused_only_if { (reads : ℕ → ℕ → List ℕ → Bool) (tree : Tree)
        → EntriesHoldTree (case_table_of letters.now) (ReadBy reads) (map entry_in entries.now) tree
        → IfErr result (IsRefusedPlace (case_table_of letters.now) tree (path_of names.now)) }
    ensures errors { IfErr result (λ e. (e ≡ AlreadyExists) ⊎ (e ≡ NotFound) ⊎ (e ≡ InvalidInput)) }
{
    if let Some(_) = find_entry(letters, entries, names) {
        return Err(Error::AlreadyExists);
    }
    let count = names.len();
    if count == 0 {
        return Err(Error::AlreadyExists);
    }
    let Some(parent) = find_entry(letters, entries, &names[..count - 1]) else {
        return Err(Error::NotFound);
    };
    let Some(entry) = entries.get(parent as usize) else {
        return Err(Error::NotFound);
    };
    if is_stream(entry) {
        return Err(Error::InvalidInput);
    }
    if let Err(error) = validate_name(names[count - 1]) {
        return Err(error);
    }
    Ok(parent)
}

/// The link that leads to the entry of the object at a path of names, and the entry's number. `InvalidInput` for the root's path,
/// `NotFound` where no object is at the path.
pub(crate) fn find_child(
    letters: &CaseMapper,
    entries: &[DirEntry],
    names: &[&str],
) -> Result<(Link, u32), Error>
    ensures there { IfOk result (λ it. it.1 < length (map entry_in entries.now)) }
    ensures some { OnOk result (0 < length names.now) }
    ensures found { (reads : ℕ → ℕ → List ℕ → Bool) (tree : Tree)
        → EntriesHoldTree (case_table_of letters.now) (ReadBy reads) (map entry_in entries.now) tree
        → IfOk result (λ it. IsChildAt (case_table_of letters.now) reads (map entry_in entries.now)
        tree (path_of names.now) it.0 it.1) }
    ensures refused_only_if { (reads : ℕ → ℕ → List ℕ → Bool) (tree : Tree)
        → EntriesHoldTree (case_table_of letters.now) (ReadBy reads) (map entry_in entries.now) tree
        → IfErr result (LacksChild (case_table_of letters.now) tree (path_of names.now)) }
    ensures errors { IfErr result (λ e. (e ≡ NotFound) ⊎ (e ≡ InvalidInput)) }
{
    let count = names.len();
    if count == 0 {
        return Err(Error::InvalidInput);
    }
    let Some(parent) = find_entry(letters, entries, &names[..count - 1]) else {
        return Err(Error::NotFound);
    };
    let Some(storage) = entries.get(parent as usize) else {
        return Err(Error::NotFound);
    };
    if is_stream(storage) {
        return Err(Error::NotFound);
    }
    let (link, id) = match find_place(letters, entries, parent, names[count - 1]) {
        Some(Place::Taken { link, id }) => (link, id),
        Some(Place::Free { link: _ }) => return Err(Error::NotFound),
        None => return Err(Error::NotFound),
    };
    if id as usize >= entries.len() {
        return Err(Error::NotFound);
    }
    Ok((link, id))
}
