//! Storages that are removed ([MS-CFB] 2.6.2, 2.6.4).
ghost use Rattle.cfb_entries.specs.Rules.{names_in};
ghost use Rattle.cfb_fat.specs.Calls.{FatErrorContract};
ghost use Rattle.cfb_tree_edits.specs.LiveTreeRules.{FollowsLiveTreeRules};
ghost use Rattle.cfb_tree_edits.specs.Removing.{IsRemoveObjectError};
ghost use Rattle.cfb_spec.specs.TreeRules.{remove_storage};
ghost use Rattle.cfb_mini.specs.Views.{allocator_of};
ghost use Rattle.cfb_chain_io.specs.ChainEffects.{KeepsFileInvariants};
ghost use Rattle.cfb_tree.specs.CaseTableViews.{case_table_of};

use crate::facts::is_stream;
use crate::finding::find_child;
use crate::taking::take_out;
use cfb_medium::{Error, Medium};
use cfb_mini::MiniAllocator;
use cfb_sectors::{HasSectors, NO_STREAM};
use cfb_tree::{CaseMapper, name_chain_from_path};
use std::alloc::Global;

/// Removes the storage at a path, which holds nothing; its entry is free then. `InvalidInput` where the path leads above the root,
/// `NotFound` where no object is there, `InvalidInput` where that is a stream, the root, or a storage with content. `InvalidData`
/// where the file hasn't its directory. The other errors are `Memory`, `Device`, and `Failed` after an earlier fault. After an
/// error nothing is changed, or the file has failed ([MS-CFB] 2.6.2).
pub fn remove_storage<F: Medium>(
    alloc: Global,
    mini: &mut MiniAllocator<F>,
    letters: &CaseMapper,
    path: &str,
) -> Result<(), Error>
    ensures tree_rule { FollowsLiveTreeRules (case_table_of letters.now) (names_in path.now)
        (λ names. remove_storage names) result mini.old mini.new }
    ensures invariants { KeepsFileInvariants (allocator_of mini.old) (allocator_of mini.new) }
    ensures error_contract { FatErrorContract IsRemoveObjectError result (allocator_of mini.old)
        (allocator_of mini.new) }
{
    if mini.directory().allocator().is_failed() {
        return Err(Error::Failed);
    }
    let names = match name_chain_from_path(alloc, path) {
        Ok(names) => names,
        Err(error) => return Err(error),
    };
    let (link, id) = match find_child(letters, mini.directory().dir_entries(), &names) {
        Ok(child) => child,
        Err(error) => return Err(error),
    };
    let storage = mini.directory().dir_entry(id);
    if is_stream(storage) {
        return Err(Error::InvalidInput);
    }
    if storage.child != NO_STREAM {
        return Err(Error::InvalidInput);
    }
    if let Err(error) = take_out(mini, link, id) {
        return Err(error);
    }
    Ok(())
}
