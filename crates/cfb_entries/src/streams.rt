//! Streams by the text of a path.
ghost use Rattle.cfb_entries.specs.Rules.{answer_at, names_in, EntriesHoldSizes, IsEntryError, IsFoundAt};
ghost use Rattle.cfb_spec.specs.TreeRules.{has_bytes, open_read_stream, refused};
ghost use Rattle.cfb_medium.specs.declared.error.Error.TheVariants.{Memory};
ghost use Rattle.cfb_tree.specs.Directory.{kind_stream};
ghost use Rattle.cfb_tree.specs.EntryViews.{entry_in};
ghost use Rattle.cfb_tree.specs.CaseTableViews.{case_table_of};
ghost use Rattle.cfb_tree.specs.Paths.{Path};
ghost use Rattle.cfb_tree.specs.Tree.{Tree};
ghost use Rattle.std.specs.Prelude.{length, map, IfErr, IfOk, List, ℕ, ◌≡◌, ◌⊎◌};

use crate::entry::is_stream;
use crate::finding::find_by_path;
use cfb_medium::Error;
use cfb_tree::{CaseMapper, DirEntry};
use std::alloc::Global;

/// The entry of the stream at a path. `InvalidInput` where the path leads above the root, `NotFound` where no object is there,
/// `InvalidInput` where it is a storage. The one other error is `Memory`.
pub fn stream_at<'a>(
    alloc: Global,
    letters: &CaseMapper,
    entries: &'a [DirEntry],
    path: &str,
) -> Result<&'a DirEntry, Error>
    ensures found { (tree : Tree)
        → EntriesHoldSizes (case_table_of letters.now) (map entry_in entries.now) tree
        → IfOk result (λ it. (names : Path) × IsFoundAt (case_table_of letters.now)
        (map entry_in entries.now) path.now names (entry_in it.now)
        × ((entry_in it.now).kind ≡ kind_stream)) }
    ensures answer { (tree : Tree)
        → EntriesHoldSizes (case_table_of letters.now) (map entry_in entries.now) tree
        → IfOk result (λ it. (bytes : List ℕ) × (answer_at (case_table_of letters.now) tree
        open_read_stream (names_in path.now) ≡ has_bytes bytes)
        × (length bytes ≡ (entry_in it.now).size)) }
    ensures refused_only_if { (tree : Tree)
        → EntriesHoldSizes (case_table_of letters.now) (map entry_in entries.now) tree
        → IfErr result (λ e. (e ≡ Memory) ⊎ (answer_at (case_table_of letters.now) tree
        open_read_stream (names_in path.now) ≡ refused e)) }
    ensures errors { IfErr result IsEntryError }
{
    let (_names, entry) = match find_by_path(alloc, letters, entries, path) {
        Ok(found) => found,
        Err(error) => return Err(error),
    };
    if !is_stream(entry) {
        return Err(Error::InvalidInput);
    }
    Ok(entry)
}
