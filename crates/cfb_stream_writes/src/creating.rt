//! Streams that are made, or emptied where they are ([MS-CFB] 2.6.3).
ghost use Rattle.cfb_entries.specs.Rules.{names_in};
ghost use Rattle.cfb_directory.specs.Growth.{LacksEntries};
ghost use Rattle.cfb_fat.specs.Calls.{FatErrorContract};
ghost use Rattle.cfb_fat.specs.Tables.{has_failed_here};
ghost use Rattle.cfb_tree_edits.specs.LiveTreeRules.{FollowsLiveTreeRules};
ghost use Rattle.cfb_tree_edits.specs.Making.{IsMakeObjectError};
ghost use Rattle.cfb_spec.specs.TreeRules.{create_stream};
ghost use Rattle.cfb_medium.specs.declared.error.Error.TheVariants.{Full};
ghost use Rattle.cfb_mini.specs.Views.{allocator_of, directory_of};
ghost use Rattle.cfb_chain_io.specs.ChainEffects.{KeepsFileInvariants};
ghost use Rattle.cfb_tree.specs.Directory.{kind_stream};
ghost use Rattle.cfb_tree.specs.EntryViews.{entry_in};
ghost use Rattle.cfb_tree.specs.CaseTableViews.{case_table_of};
ghost use Rattle.std.specs.Prelude.{false, IsErrOf, IsTrue, ◌≡◌, ◌↔◌};

use crate::emptying::empty_stream;
use cfb_medium::{Error, Medium};
use cfb_mini::MiniAllocator;
use cfb_sectors::HasSectors;
use cfb_siblings::find_entry;
use cfb_tree::{CaseMapper, DirEntry, ObjType, name_chain_from_path};
use cfb_tree_edits::{NewObject, make_object};
use std::alloc::Global;

/// Whether the entry is a stream.
pub fn is_stream(entry: &DirEntry) -> bool
    ensures { IsTrue result ↔ ((entry_in entry.now).kind ≡ kind_stream) }
{
    match entry.obj_type() {
        Some(kind) => kind.as_byte() == ObjType::Stream.as_byte(),
        None => false,
    }
}

/// Makes a stream at a path, without bytes; one that is there is emptied, and keeps its name and state bits. `InvalidInput` where
/// the path leads above the root, `AlreadyExists` where a storage is there; then `NotFound` where no object is at the parent's
/// path, `InvalidInput` where that is a stream or the name is invalid. `Full` where numbers of entries or sectors are missing,
/// `InvalidData` where the file hasn't its directory. The other errors are `Memory`, `Device`, and `Failed` after an earlier
/// fault. After an error nothing is changed, or the file has failed ([MS-CFB] 2.6.3).
pub fn create_stream<F: Medium>(
    alloc: Global,
    mini: &mut MiniAllocator<F>,
    letters: &CaseMapper,
    path: &str,
) -> Result<(), Error>
    ensures tree_rule { FollowsLiveTreeRules (case_table_of letters.now) (names_in path.now)
        (λ names. create_stream names)
        result mini.old mini.new }
    ensures full_only_if { IsErrOf result Full → has_failed_here (allocator_of mini.new) ≡ false
        → LacksEntries (directory_of mini.old) }
    ensures invariants { KeepsFileInvariants (allocator_of mini.old) (allocator_of mini.new) }
    ensures error_contract { FatErrorContract IsMakeObjectError result (allocator_of mini.old)
        (allocator_of mini.new) }
{
    if mini.directory().allocator().is_failed() {
        return Err(Error::Failed);
    }
    let names = match name_chain_from_path(alloc, path) {
        Ok(names) => names,
        Err(error) => return Err(error),
    };
    let Some(id) = find_entry(letters, mini.directory().dir_entries(), &names) else {
        return make_object(alloc, mini, letters, path, NewObject::Stream);
    };
    if id as usize >= mini.directory().dir_entries().len() {
        return Err(Error::InvalidData);
    }
    if !is_stream(mini.directory().dir_entry(id)) {
        return Err(Error::AlreadyExists);
    }
    if let Err(error) = empty_stream(mini, id) {
        return Err(error);
    }
    Ok(())
}
