//! Streams that are found by their paths, to be written ([MS-CFB] 2.6.3).
ghost use Rattle.cfb_directory.specs.Views.{entries_held};
ghost use Rattle.cfb_entries.specs.Rules.{answer_at, names_in, IsEntryError};
ghost use Rattle.cfb_tree_edits.specs.Live.{LiveFileMeansTree};
ghost use Rattle.cfb_spec.specs.TreeRules.{open_stream, refused};
ghost use Rattle.cfb_medium.specs.declared.error.Error.TheVariants.{Memory};
ghost use Rattle.cfb_mini.specs.Views.{directory_of};
ghost use Rattle.cfb_tree.specs.CaseTableViews.{case_table_of};
ghost use Rattle.cfb_tree.specs.Tree.{Tree};
ghost use Rattle.cfb_stream_writes.specs.Streams.{IsStreamFound};
ghost use Rattle.std.specs.Prelude.{length, IfErr, IfOk, ◌<◌, ◌≡◌, ◌⊎◌};

use crate::creating::is_stream;
use cfb_medium::{Error, ReadMedium};
use cfb_mini::MiniAllocator;
use cfb_siblings::find_entry;
use cfb_tree::{CaseMapper, name_chain_from_path};
use std::alloc::Global;

/// The number of the entry of the stream at a path. `InvalidInput` where the path leads above the root, `NotFound` where no object is
/// there, `InvalidInput` where it is a storage; `InvalidData` of a file that means no tree alone. The one other error is `Memory`
/// ([MS-CFB] 2.6.3).
pub fn find_stream<F: ReadMedium>(
    alloc: Global,
    mini: &MiniAllocator<F>,
    letters: &CaseMapper,
    path: &str,
) -> Result<u32, Error>
    ensures inside { IfOk result (λ id. id < length (entries_held (directory_of mini.now))) }
    ensures found { (tree : Tree)
        → (m : LiveFileMeansTree (case_table_of letters.now) mini.now tree)
        → IfOk result
        (IsStreamFound (case_table_of letters.now) mini.now (names_in path.now) tree m.who) }
    ensures refused_only_if { (tree : Tree)
        → LiveFileMeansTree (case_table_of letters.now) mini.now tree
        → IfErr result (λ e. (e ≡ Memory) ⊎ (answer_at (case_table_of letters.now) tree open_stream
        (names_in path.now) ≡ refused e)) }
    ensures errors { IfErr result IsEntryError }
{
    let names = match name_chain_from_path(alloc, path) {
        Ok(names) => names,
        Err(error) => return Err(error),
    };
    let entries = mini.directory().dir_entries();
    let Some(id) = find_entry(letters, entries, &names) else {
        return Err(Error::NotFound);
    };
    let Some(entry) = entries.get(id as usize) else {
        return Err(Error::InvalidData);
    };
    if !is_stream(entry) {
        return Err(Error::InvalidInput);
    }
    Ok(id)
}
