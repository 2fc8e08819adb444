//! Entries by the text of a path.
ghost use Rattle.cfb_entries.specs.Rules.{names_in, EntriesHoldSizes, IsEntryError, IsFoundAt};
ghost use Rattle.cfb_medium.specs.declared.error.Error.TheVariants.{InvalidInput, Memory, NotFound};
ghost use Rattle.cfb_siblings.specs.Places.{path_of};
ghost use Rattle.cfb_tree.specs.EntryViews.{entry_in};
ghost use Rattle.cfb_tree.specs.CaseTableViews.{case_table_of};
ghost use Rattle.cfb_tree.specs.Objects.{object_at};
ghost use Rattle.cfb_tree.specs.Paths.{Path};
ghost use Rattle.cfb_tree.specs.Tree.{Tree};
ghost use Rattle.std.specs.Prelude.{map, IfErr, IfOk, None, Some, ◌≡◌, ◌⊎◌};

use cfb_medium::Error;
use cfb_siblings::find_entry;
use cfb_tree::{CaseMapper, DirEntry, name_chain_from_path};
use std::alloc::Global;

/// The entry to which a path leads, and the names of the path. `InvalidInput` where it leads above the root, `NotFound` where the
/// tree has no object there. The one other error is `Memory`.
pub fn find_by_path<'a, 'b>(
    alloc: Global,
    letters: &CaseMapper,
    entries: &'b [DirEntry],
    path: &'a str,
) -> Result<(Vec<&'a str>, &'b DirEntry), Error>
    ensures found { (tree : Tree)
        → EntriesHoldSizes (case_table_of letters.now) (map entry_in entries.now) tree
        → IfOk result
        (λ it. IsFoundAt (case_table_of letters.now) (map entry_in entries.now) path.now
        (path_of it.0.items) (entry_in it.1.now)) }
    ensures refused_only_if { (tree : Tree)
        → EntriesHoldSizes (case_table_of letters.now) (map entry_in entries.now) tree
        → IfErr result (λ e. (e ≡ Memory) ⊎ ((e ≡ InvalidInput) × (names_in path.now ≡ None))
        ⊎ ((e ≡ NotFound) × (names : Path) × (names_in path.now ≡ Some names)
        × (object_at (case_table_of letters.now) tree names ≡ None))) }
    ensures errors { IfErr result IsEntryError }
{
    let names = match name_chain_from_path(alloc, path) {
        Ok(names) => names,
        Err(error) => return Err(error),
    };
    let Some(id) = find_entry(letters, entries, &names) else {
        return Err(Error::NotFound);
    };
    let Some(entry) = entries.get(id as usize) else {
        return Err(Error::NotFound);
    };
    Ok((names, entry))
}
