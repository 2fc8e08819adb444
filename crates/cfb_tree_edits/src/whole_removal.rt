//! Storages that are removed with all that they hold ([MS-CFB] 2.6.2 to 2.6.4).
ghost use Rattle.cfb_chains.specs.ChainCalls.{IsInvalid};
ghost use Rattle.cfb_entries.specs.Rules.{names_in};
ghost use Rattle.cfb_fat.specs.Calls.{FatErrorContract};
ghost use Rattle.cfb_fat.specs.Tables.{has_failed_here};
ghost use Rattle.cfb_tree_edits.specs.LiveTreeRules.{FollowsLiveTreeRules};
ghost use Rattle.cfb_tree_edits.specs.WholeRemoval.{Empties, HasEmptyStorage, HasStorage, IsWayTo, TakesBelow};
ghost use Rattle.cfb_tree_edits.specs.Live.{LiveFileMeansTree};
ghost use Rattle.cfb_tree_edits.specs.Orphans.{FileBecomesTree};
ghost use Rattle.cfb_tree_edits.specs.Removing.{IsRemoveObjectError};
ghost use Rattle.cfb_spec.specs.TreeRules.{remove_storage_all};
ghost use Rattle.cfb_medium.specs.declared.error.Error.TheVariants.{InvalidData};
ghost use Rattle.cfb_mini.specs.Changing.{KeepsOwnership};
ghost use Rattle.cfb_mini.specs.Views.{allocator_of, directory_of};
ghost use Rattle.cfb_directory.specs.Views.{entries_held};
ghost use Rattle.cfb_tree.specs.Names.{CaseTable};
ghost use Rattle.cfb_tree.specs.Paths.{Path};
ghost use Rattle.cfb_chain_io.specs.ChainEffects.{KeepsFileInvariants};
ghost use Rattle.cfb_siblings.specs.Places.{path_of, IsStorageAt};
ghost use Rattle.cfb_tree.specs.Changes.{removed};
ghost use Rattle.cfb_tree.specs.CaseTableViews.{case_table_of};
ghost use Rattle.cfb_tree.specs.Tree.{Tree};
ghost use Rattle.std.specs.Prelude.{true, IfOk, IsErrOf, MatchOption, OnErr, OnOk, ◌≡◌, ◌⊎◌};

use crate::facts::is_stream;
use crate::finding::find_child;
use crate::leaf_search::next_leaf;
use crate::taking::take_out;
use cfb_medium::{Error, Medium};
use cfb_mini::MiniAllocator;
use cfb_sectors::HasSectors;
use cfb_siblings::{Link, find_entry};
use cfb_tree::{CaseMapper, name_chain_from_path};
use std::alloc::Global;

// Takes an object that holds nothing out of the storage at which a way begins, or of one below it: the way leads over the storages
// above to storage `top`. Answers the storage to which it leads then; none where the first storage holds nothing. After an error
// nothing is changed, or the file has failed.
fn take_leaf<F: Medium>(
    mini: &mut MiniAllocator<F>,
    above: &mut Vec<u32>,
    top: u32,
) -> Result<Option<u32>, Error>
    ensures taken { IfOk result (λ next. (letters : CaseTable) (tree : Tree) (path : Path)
        → (m : LiveFileMeansTree letters mini.old tree)
        → IsWayTo letters (entries_held (directory_of mini.old)) path above.old.items top
        → MatchOption next (FileBecomesTree letters mini.old mini.new m.who tree
        × HasEmptyStorage letters tree path)
        (λ id. TakesBelow letters path tree mini.old mini.new m.who
        × IsWayTo letters (entries_held (directory_of mini.new)) path above.new.items id)) }
    ensures refused_only_if { IsErrOf result InvalidData
        → (letters : CaseTable) (tree : Tree) (path : Path)
        → LiveFileMeansTree letters mini.old tree
        → IsWayTo letters (entries_held (directory_of mini.old)) path above.old.items top → ⊥ }
    ensures after_error { OnErr result ((has_failed_here (allocator_of mini.new) ≡ true)
        ⊎ KeepsOwnership mini.old mini.new) }
    ensures invariants { KeepsFileInvariants (allocator_of mini.old) (allocator_of mini.new) }
    ensures error_contract { FatErrorContract IsInvalid result (allocator_of mini.old)
        (allocator_of mini.new) }
{
    if mini.directory().allocator().is_failed() {
        return Err(Error::Failed);
    }
    let leaf = match next_leaf(mini.directory().dir_entries(), above, top) {
        Ok(leaf) => leaf,
        Err(error) => return Err(error),
    };
    let Some((parent, id)) = leaf else {
        return Ok(None);
    };
    if let Err(error) = take_out(mini, Link::Child(parent), id) {
        return Err(error);
    }
    Ok(Some(parent))
}

// Takes out all that the storage holds at which a way begins. After an error the file has failed.
fn take_leaves<F: Medium>(
    mini: &mut MiniAllocator<F>,
    above: &mut Vec<u32>,
    top: u32,
) -> Result<(), Error>
    ensures emptied { OnOk result ((letters : CaseTable) (tree : Tree) (path : Path)
        → (m : LiveFileMeansTree letters mini.old tree) → HasStorage letters tree path
        → IsWayTo letters (entries_held (directory_of mini.old)) path above.old.items top
        → Empties letters path tree mini.old mini.new m.who) }
    ensures refused_only_if { IsErrOf result InvalidData
        → (letters : CaseTable) (tree : Tree) (path : Path)
        → LiveFileMeansTree letters mini.old tree → HasStorage letters tree path
        → IsWayTo letters (entries_held (directory_of mini.old)) path above.old.items top → ⊥ }
    ensures when_failed { OnErr result (has_failed_here (allocator_of mini.new) ≡ true) }
    ensures invariants { KeepsFileInvariants (allocator_of mini.old) (allocator_of mini.new) }
    ensures error_contract { FatErrorContract IsInvalid result (allocator_of mini.old)
        (allocator_of mini.new) }
{
    if mini.directory().allocator().is_failed() {
        return Err(Error::Failed);
    }
    let count = mini.directory().dir_entries().len();
    let mut at = top;
    'taking: for _step in 0..count {
        match take_leaf(mini, above, at) {
            Ok(Some(next)) => at = next,
            Ok(None) => return Ok(()),
            Err(error) => {
                mini.fail();
                return Err(error);
            }
        }
    }
    mini.fail();
    Err(Error::InvalidData)
}

// Takes out the storage at a path of names, which holds nothing; the root stays. After an error nothing is changed, or the file
// has failed.
fn take_emptied<F: Medium>(
    mini: &mut MiniAllocator<F>,
    letters: &CaseMapper,
    names: &[&str],
) -> Result<(), Error>
    ensures taken { OnOk result ((tree : Tree)
        → (m : LiveFileMeansTree (case_table_of letters.now) mini.old tree)
        → HasEmptyStorage (case_table_of letters.now) tree (path_of names.now)
        → FileBecomesTree (case_table_of letters.now) mini.old mini.new m.who
        (removed (case_table_of letters.now) (path_of names.now) tree)) }
    ensures refused_only_if { IsErrOf result InvalidData → (tree : Tree)
        → LiveFileMeansTree (case_table_of letters.now) mini.old tree
        → HasEmptyStorage (case_table_of letters.now) tree (path_of names.now) → ⊥ }
    ensures after_error { OnErr result ((has_failed_here (allocator_of mini.new) ≡ true)
        ⊎ KeepsOwnership mini.old mini.new) }
    ensures invariants { KeepsFileInvariants (allocator_of mini.old) (allocator_of mini.new) }
    ensures error_contract { FatErrorContract IsInvalid result (allocator_of mini.old)
        (allocator_of mini.new) }
{
    if mini.directory().allocator().is_failed() {
        return Err(Error::Failed);
    }
    if names.is_empty() {
        return Ok(());
    }
    let Ok((link, id)) = find_child(letters, mini.directory().dir_entries(), names) else {
        return Err(Error::InvalidData);
    };
    if let Err(error) = take_out(mini, link, id) {
        return Err(error);
    }
    Ok(())
}

// Takes out the storage at a path of names, which is entry `top`, with all that it holds; the root is only emptied. After an error
// nothing is changed, or the file has failed.
fn take_all<F: Medium>(
    alloc: Global,
    mini: &mut MiniAllocator<F>,
    letters: &CaseMapper,
    names: &[&str],
    top: u32,
) -> Result<(), Error>
    ensures taken { OnOk result ((tree : Tree)
        → (m : LiveFileMeansTree (case_table_of letters.now) mini.old tree)
        → HasStorage (case_table_of letters.now) tree (path_of names.now)
        → IsStorageAt (case_table_of letters.now) (entries_held (directory_of mini.old))
        (path_of names.now) top
        → FileBecomesTree (case_table_of letters.now) mini.old mini.new m.who
        (removed (case_table_of letters.now) (path_of names.now) tree)) }
    ensures refused_only_if { IsErrOf result InvalidData → (tree : Tree)
        → LiveFileMeansTree (case_table_of letters.now) mini.old tree
        → HasStorage (case_table_of letters.now) tree (path_of names.now)
        → IsStorageAt (case_table_of letters.now) (entries_held (directory_of mini.old))
        (path_of names.now) top → ⊥ }
    ensures after_error { OnErr result ((has_failed_here (allocator_of mini.new) ≡ true)
        ⊎ KeepsOwnership mini.old mini.new) }
    ensures invariants { KeepsFileInvariants (allocator_of mini.old) (allocator_of mini.new) }
    ensures error_contract { FatErrorContract IsInvalid result (allocator_of mini.old)
        (allocator_of mini.new) }
{
    if mini.directory().allocator().is_failed() {
        return Err(Error::Failed);
    }
    let mut above = Vec::new(alloc);
    let leaf = match next_leaf(mini.directory().dir_entries(), &mut above, top) {
        Ok(leaf) => leaf,
        Err(error) => return Err(error),
    };
    let Some((parent, id)) = leaf else {
        if let Err(error) = take_emptied(mini, letters, names) {
            return Err(error);
        }
        return Ok(());
    };
    if let Err(error) = take_out(mini, Link::Child(parent), id) {
        return Err(error);
    }
    if let Err(error) = take_leaves(mini, &mut above, parent) {
        return Err(error);
    }
    if let Err(error) = take_emptied(mini, letters, names) {
        mini.fail();
        return Err(error);
    }
    Ok(())
}

/// Removes the storage at a path with all that it holds; the root is only emptied. Its streams' sectors and all its entries are
/// free then. `InvalidInput` where the path leads above the root, `NotFound` where no object is there, `InvalidInput` where that
/// is a stream. `InvalidData` where the file hasn't its directory. The other errors are `Memory`, `Device`, and `Failed` after an
/// earlier fault. After an error nothing is changed, or the file has failed ([MS-CFB] 2.6.2 to 2.6.4).
pub fn remove_storage_all<F: Medium>(
    alloc: Global,
    mini: &mut MiniAllocator<F>,
    letters: &CaseMapper,
    path: &str,
) -> Result<(), Error>
    ensures tree_rule { FollowsLiveTreeRules (case_table_of letters.now) (names_in path.now)
        (λ names. remove_storage_all names) result mini.old mini.new }
    ensures invariants { KeepsFileInvariants (allocator_of mini.old) (allocator_of mini.new) }
    ensures error_contract { FatErrorContract IsRemoveObjectError result (allocator_of mini.old)
        (allocator_of mini.new) }
{
    if mini.directory().allocator().is_failed() {
        return Err(Error::Failed);
    }
    let names = match name_chain_from_path(alloc, path) {
        Ok(names) => names,
        Err(error) => return Err(error),
    };
    let Some(id) = find_entry(letters, mini.directory().dir_entries(), &names) else {
        return Err(Error::NotFound);
    };
    if !mini.directory().has_dir_entry(id) {
        return Err(Error::InvalidData);
    }
    if is_stream(mini.directory().dir_entry(id)) {
        return Err(Error::InvalidInput);
    }
    if let Err(error) = take_all(alloc, mini, letters, &names, id) {
        return Err(error);
    }
    Ok(())
}
