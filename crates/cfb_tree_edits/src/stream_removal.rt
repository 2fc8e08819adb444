//! Streams that are removed ([MS-CFB] 2.6.3, 2.6.4).
ghost use Rattle.cfb_entries.specs.Rules.{names_in};
ghost use Rattle.cfb_fat.specs.Calls.{FatErrorContract};
ghost use Rattle.cfb_tree_edits.specs.LiveTreeRules.{FollowsLiveTreeRules};
ghost use Rattle.cfb_tree_edits.specs.Freeing.{FreesAt};
ghost use Rattle.cfb_tree_edits.specs.Live.{LiveFileMeansTree};
ghost use Rattle.cfb_tree_edits.specs.Removing.{IsRemoveObjectError};
ghost use Rattle.cfb_spec.specs.TreeRules.{remove_stream};
ghost use Rattle.cfb_mini.specs.Views.{allocator_of};
ghost use Rattle.cfb_chain_io.specs.ChainEffects.{KeepsFileInvariants};
ghost use Rattle.cfb_tree.specs.CaseTableViews.{case_table_of};
ghost use Rattle.cfb_tree.specs.Tree.{Tree};
ghost use Rattle.std.specs.Prelude.{OnOk};

use crate::facts::is_stream;
use crate::finding::find_child;
use crate::taking::take_out;
use cfb_medium::{Error, Medium};
use cfb_mini::MiniAllocator;
use cfb_sectors::HasSectors;
use cfb_tree::{CaseMapper, name_chain_from_path};
use std::alloc::Global;

/// Removes the stream at a path: its sectors or mini sectors are free then, and so is its entry. `InvalidInput` where the path
/// leads above the root, `NotFound` where no object is there, `InvalidInput` where that is a storage. `InvalidData` where the
/// file hasn't its directory. The other errors are `Memory`, `Device`, and `Failed` after an earlier fault. After an error
/// nothing is changed, or the file has failed ([MS-CFB] 2.6.3).
pub fn remove_stream<F: Medium>(
    alloc: Global,
    mini: &mut MiniAllocator<F>,
    letters: &CaseMapper,
    path: &str,
) -> Result<(), Error>
    ensures tree_rule { FollowsLiveTreeRules (case_table_of letters.now) (names_in path.now)
        (λ names. remove_stream names)
        result mini.old mini.new }
    ensures freed { OnOk result
        ((tree : Tree) → (m : LiveFileMeansTree (case_table_of letters.now) mini.old tree)
        → FreesAt (case_table_of letters.now) (names_in path.now) mini.old mini.new m.who) }
    ensures invariants { KeepsFileInvariants (allocator_of mini.old) (allocator_of mini.new) }
    ensures error_contract { FatErrorContract IsRemoveObjectError result (allocator_of mini.old)
        (allocator_of mini.new) }
{
    if mini.directory().allocator().is_failed() {
        return Err(Error::Failed);
    }
    let names = match name_chain_from_path(alloc, path) {
        Ok(names) => names,
        Err(error) => return Err(error),
    };
    let (link, id) = match find_child(letters, mini.directory().dir_entries(), &names) {
        Ok(child) => child,
        Err(error) => return Err(error),
    };
    if !is_stream(mini.directory().dir_entry(id)) {
        return Err(Error::InvalidInput);
    }
    if let Err(error) = take_out(mini, link, id) {
        return Err(error);
    }
    Ok(())
}
