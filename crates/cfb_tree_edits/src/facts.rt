//! Facts of objects: state bits, class identifiers and times ([MS-CFB] 2.6.1).
ghost use Rattle.cfb_entries.specs.Rules.{names_in};
ghost use Rattle.cfb_fat.specs.Calls.{FatErrorContract};
ghost use Rattle.cfb_tree_edits.specs.LiveTreeRules.{FollowsLiveTreeRules};
ghost use Rattle.cfb_tree_edits.specs.Facts.{setting, IsSetMetadataError};
ghost use Rattle.cfb_mini.specs.Views.{allocator_of};
ghost use Rattle.cfb_chain_io.specs.ChainEffects.{KeepsFileInvariants};
ghost use Rattle.cfb_medium.specs.declared.error.Error.TheVariants.{InvalidInput};
ghost use Rattle.cfb_tree.specs.Directory.{kind_stream};
ghost use Rattle.cfb_tree.specs.EntryViews.{entry_in};
ghost use Rattle.cfb_tree.specs.CaseTableViews.{case_table_of};
ghost use Rattle.std.specs.Prelude.{IfErr, IfOk, IfSome, IsTrue, None, ◌≡◌, ◌↔◌};

use crate::finding::find_object;
use cfb_directory::EntryChange;
use cfb_medium::{Error, Medium, Timestamp};
use cfb_mini::MiniAllocator;
use cfb_sectors::HasSectors;
use cfb_tree::{CaseMapper, DirEntry, ObjType};
use std::alloc::Global;
use uuid::Uuid;

/// What may be told of an object beside its name and what it holds ([MS-CFB] 2.6.1).
#[derive(Clone, Copy)]
pub enum Fact {
    /// The state bits.
    StateBits(u32),
    /// A storage's class identifier.
    ClassId(Uuid),
    /// When a storage was created.
    Created(Timestamp),
    /// When a storage was modified last.
    Modified(Timestamp),
}

impl Fact {
    ghost use Rattle.cfb_tree_edits.specs.Facts.{change_for, LacksClassId, LacksTime, MayHave};

    // The change of an entry that sets the fact, where it has such a one. `InvalidInput` where a stream would get a class
    // identifier.
    fn change_of(self, id: u32, entry: &DirEntry) -> Result<Option<EntryChange>, Error>
        ensures some { IfOk result (λ it. IfSome it (λ change. (change ≡ change_for self)
            × MayHave self id (entry_in entry.now))) }
        ensures none { IfOk result (λ it. it ≡ None → LacksTime self id (entry_in entry.now)) }
        ensures refused_only_if { IfErr result (λ e. (e ≡ InvalidInput)
            × LacksClassId self (entry_in entry.now)) }
    {
        match self {
            Fact::StateBits(state_bits) => Ok(Some(EntryChange::StateBits(state_bits))),
            Fact::ClassId(clsid) => {
                if is_stream(entry) {
                    return Err(Error::InvalidInput);
                }
                Ok(Some(EntryChange::ClassId(clsid)))
            }
            Fact::Created(moment) => {
                if !has_times(id, entry) {
                    return Ok(None);
                }
                Ok(Some(EntryChange::Created(moment)))
            }
            Fact::Modified(moment) => {
                if !has_times(id, entry) {
                    return Ok(None);
                }
                Ok(Some(EntryChange::Modified(moment)))
            }
        }
    }
}

/// Whether the entry is a stream.
pub(crate) fn is_stream(entry: &DirEntry) -> bool
    ensures { IsTrue result ↔ ((entry_in entry.now).kind ≡ kind_stream) }
{
    match entry.obj_type() {
        Some(kind) => kind.as_byte() == ObjType::Stream.as_byte(),
        None => false,
    }
}

// Whether the object has times: a storage below the root has.
fn has_times(id: u32, entry: &DirEntry) -> bool
    ensures { IsTrue result ↔ (((entry_in entry.now).kind ≡ kind_stream → ⊥) × (id ≡ 0 → ⊥)) }
{
    if id == 0 {
        return false;
    }
    !is_stream(entry)
}

/// Sets a fact of the object at a path, in its entry. `InvalidInput` where the path leads above the root, `NotFound` where no
/// object is there, `InvalidInput` where a stream would get a class identifier. Times are those of storages below the root: of
/// other objects the call changes nothing. `InvalidData` where the file hasn't its directory. The other errors are `Memory`,
/// `Device`, and `Failed` after an earlier fault. After an error nothing is changed, or the file has failed ([MS-CFB] 2.6.1).
pub fn set_fact<F: Medium>(
    alloc: Global,
    mini: &mut MiniAllocator<F>,
    letters: &CaseMapper,
    path: &str,
    fact: Fact,
) -> Result<(), Error>
    ensures tree_rule { FollowsLiveTreeRules (case_table_of letters.now) (names_in path.now)
        (setting fact) result mini.old
        mini.new }
    ensures invariants { KeepsFileInvariants (allocator_of mini.old) (allocator_of mini.new) }
    ensures error_contract { FatErrorContract IsSetMetadataError result (allocator_of mini.old)
        (allocator_of mini.new) }
{
    if mini.directory().allocator().is_failed() {
        return Err(Error::Failed);
    }
    let id = match find_object(alloc, letters, mini.directory().dir_entries(), path) {
        Ok(id) => id,
        Err(error) => return Err(error),
    };
    let change = match fact.change_of(id, mini.directory().dir_entry(id)) {
        Ok(Some(change)) => change,
        Ok(None) => return Ok(()),
        Err(error) => return Err(error),
    };
    if let Err(error) = mini.with_dir_entry_mut(id, change) {
        return Err(error);
    }
    Ok(())
}
