//! Storages that are made at a path and at those above it ([MS-CFB] 2.6.2).
ghost use Rattle.cfb_entries.specs.Rules.{names_in};
ghost use Rattle.cfb_directory.specs.Growth.{LacksEntries};
ghost use Rattle.cfb_fat.specs.Calls.{FatErrorContract};
ghost use Rattle.cfb_fat.specs.Tables.{has_failed_here};
ghost use Rattle.cfb_tree_edits.specs.LiveTreeRules.{FollowsLiveTreeRules, IsFaultOrFull};
ghost use Rattle.cfb_tree_edits.specs.Making.{IsMakeObjectError};
ghost use Rattle.cfb_tree_edits.specs.Parents.{AreNames, ComesAsFar, IsMadeAsFar, MeansAsFar};
ghost use Rattle.cfb_spec.specs.TreeRules.{create_storage_all, refused, tree_step};
ghost use Rattle.cfb_medium.specs.Times.{units_of};
ghost use Rattle.cfb_medium.specs.declared.error.Error.TheVariants.{AlreadyExists, Full, InvalidInput};
ghost use Rattle.cfb_mini.specs.Views.{allocator_of, directory_of};
ghost use Rattle.cfb_chain_io.specs.ChainEffects.{KeepsFileInvariants};
ghost use Rattle.cfb_siblings.specs.Places.{path_of, IsStorageAt};
ghost use Rattle.cfb_siblings.specs.Reading.{ReadBy};
ghost use Rattle.cfb_tree.specs.EntryViews.{entry_in};
ghost use Rattle.cfb_tree.specs.CaseTableViews.{case_table_of};
ghost use Rattle.cfb_tree.specs.Objects.{EntriesHoldTree};
ghost use Rattle.cfb_tree.specs.Tree.{Tree};
ghost use Rattle.std.specs.Prelude.{false, length, map, take, true, Bool, IfErr, IfOk, IsErrOf, IsTrue, List, OnErr, OnOk, ℕ, ◌≡◌, ◌≤◌, ◌↔◌, ◌⊎◌};

use crate::facts::is_stream;
use crate::making::{NewObject, make_child};
use cfb_medium::{Error, Medium, Timestamp};
use cfb_mini::MiniAllocator;
use cfb_sectors::HasSectors;
use cfb_siblings::{Place, find_place};
use cfb_tree::{CaseMapper, DirEntry, name_chain_from_path, validate_name};
use std::alloc::Global;

// Whether all these may be names.
fn are_names(names: &[&str]) -> bool
    ensures { IsTrue result ↔ AreNames (path_of names.now) }
{
    'names: for name in names {
        if let Err(_) = validate_name(name) {
            return false;
        }
    }
    true
}

// How many of the names lead to storages that are there, and the number of the last of these, where storages can be made at the
// other names: none is there, and these names are valid. `AlreadyExists` where a stream is in the way, `InvalidInput` where a name
// is invalid.
fn first_missing(
    letters: &CaseMapper,
    entries: &[DirEntry],
    names: &[&str],
) -> Result<(usize, u32), Error>
    ensures within { IfOk result (λ it. it.0 ≤ length names.now) }
    ensures found { (reads : ℕ → ℕ → List ℕ → Bool) (tree : Tree)
        → EntriesHoldTree (case_table_of letters.now) (ReadBy reads) (map entry_in entries.now) tree
        → IfOk result (λ it. (moment : ℕ)
        → IsMadeAsFar (case_table_of letters.now) moment tree (path_of names.now) it.0 tree) }
    ensures storage { (reads : ℕ → ℕ → List ℕ → Bool) (tree : Tree)
        → EntriesHoldTree (case_table_of letters.now) (ReadBy reads) (map entry_in entries.now) tree
        → IfOk result (λ it. IsStorageAt (case_table_of letters.now) (map entry_in entries.now)
        (take it.0 (path_of names.now)) it.1) }
    ensures refused_only_if { (reads : ℕ → ℕ → List ℕ → Bool) (tree : Tree)
        → EntriesHoldTree (case_table_of letters.now) (ReadBy reads) (map entry_in entries.now) tree
        → IfErr result (λ e. (moment : ℕ) → (tree_step (case_table_of letters.now) tree
        (create_storage_all (path_of names.now) moment)).1 ≡ refused e) }
    ensures errors { IfErr result (λ e. (e ≡ AlreadyExists) ⊎ (e ≡ InvalidInput)) }
{
    let mut parent = 0;
    'parts: for count in 0..names.len() {
        let id = match find_place(letters, entries, parent, names[count]) {
            Some(Place::Taken { link: _, id }) => id,
            Some(Place::Free { link: _ }) => {
                if are_names(&names[count..]) {
                    return Ok((count, parent));
                }
                return Err(Error::InvalidInput);
            }
            None => return Err(Error::AlreadyExists),
        };
        let Some(entry) = entries.get(id as usize) else {
            return Err(Error::AlreadyExists);
        };
        if is_stream(entry) {
            return Err(Error::AlreadyExists);
        }
        parent = id;
    }
    Ok((names.len(), parent))
}

// Makes storages at the names from this one on, where they are made before it, and the last of these is entry `top`. After an
// error the file has failed.
fn make_missing<F: Medium>(
    mini: &mut MiniAllocator<F>,
    letters: &CaseMapper,
    names: &[&str],
    first: usize,
    top: u32,
    moment: Timestamp,
) -> Result<(), Error>
    requires { first ≤ length names.now }
    ensures made { OnOk result ((tree : Tree) → (so : MeansAsFar (case_table_of letters.now)
        (units_of moment) tree (path_of names.now) first top mini.old)
        → ComesAsFar (case_table_of letters.now) (units_of moment) tree (path_of names.now)
        (length names.now) mini.old mini.new so.means.who) }
    ensures refused_only_if { IfErr result
        (λ e. (tree : Tree) → MeansAsFar (case_table_of letters.now)
        (units_of moment) tree (path_of names.now) first top mini.old → IsFaultOrFull e) }
    ensures when_failed { OnErr result (has_failed_here (allocator_of mini.new) ≡ true) }
    ensures invariants { KeepsFileInvariants (allocator_of mini.old) (allocator_of mini.new) }
    ensures error_contract { FatErrorContract IsMakeObjectError result (allocator_of mini.old)
        (allocator_of mini.new) }
{
    if mini.directory().allocator().is_failed() {
        return Err(Error::Failed);
    }
    let mut parent = top;
    'making: for count in first..names.len() {
        let object = NewObject::Storage(moment);
        match make_child(mini, letters, parent, names[count], object) {
            Ok(id) => parent = id,
            Err(error) => {
                mini.fail();
                return Err(error);
            }
        }
    }
    Ok(())
}

/// Makes a storage at a path, and one at each path above it where none is, created and modified at the moment; storages that are
/// there stay. All is tested first: `InvalidInput` where the path leads above the root, `AlreadyExists` where a stream is in the
/// way, `InvalidInput` where a name of a missing one is invalid. `Full` where numbers of entries or sectors are missing,
/// `InvalidData` where the file hasn't its directory. The other errors are `Memory`, `Device`, and `Failed` after an earlier
/// fault. After an error nothing is changed, or the file has failed ([MS-CFB] 2.6.2).
pub fn create_storage_all<F: Medium>(
    alloc: Global,
    mini: &mut MiniAllocator<F>,
    letters: &CaseMapper,
    path: &str,
    moment: Timestamp,
) -> Result<(), Error>
    ensures tree_rule { FollowsLiveTreeRules (case_table_of letters.now) (names_in path.now)
        (λ names. create_storage_all names (units_of moment)) result mini.old mini.new }
    ensures full_only_if { IsErrOf result Full → has_failed_here (allocator_of mini.new) ≡ false
        → LacksEntries (directory_of mini.old) }
    ensures invariants { KeepsFileInvariants (allocator_of mini.old) (allocator_of mini.new) }
    ensures error_contract { FatErrorContract IsMakeObjectError result (allocator_of mini.old)
        (allocator_of mini.new) }
{
    if mini.directory().allocator().is_failed() {
        return Err(Error::Failed);
    }
    let names = match name_chain_from_path(alloc, path) {
        Ok(names) => names,
        Err(error) => return Err(error),
    };
    let (count, parent) = match first_missing(letters, mini.directory().dir_entries(), &names) {
        Ok(found) => found,
        Err(error) => return Err(error),
    };
    if count >= names.len() {
        return Ok(());
    }
    let object = NewObject::Storage(moment);
    let top = match make_child(mini, letters, parent, names[count], object) {
        Ok(top) => top,
        Err(error) => return Err(error),
    };
    if let Err(error) = make_missing(mini, letters, &names, count + 1, top, moment) {
        return Err(error);
    }
    Ok(())
}
