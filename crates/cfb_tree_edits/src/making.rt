//! New objects: storages and streams without content ([MS-CFB] 2.6.2, 2.6.3).
ghost use Rattle.cfb_entries.specs.Rules.{names_in};
ghost use Rattle.cfb_fat.specs.Calls.{FatErrorContract};
ghost use Rattle.cfb_tree_edits.specs.LiveTreeRules.{FollowsLiveTreeRules, IsFaultOrFull};
ghost use Rattle.cfb_tree_edits.specs.Live.{LiveFileMeansTree};
ghost use Rattle.cfb_tree_edits.specs.Making.{making, IsFreePlace, IsMakeObjectError};
ghost use Rattle.cfb_tree_edits.specs.Parents.{MakesAt, MakesChild};
ghost use Rattle.cfb_fat.specs.Tables.{has_failed_here};
ghost use Rattle.cfb_spec.specs.TreeRules.{refused, tree_step};
ghost use Rattle.cfb_mini.specs.Changing.{KeepsOwnership};
ghost use Rattle.cfb_siblings.specs.Places.{path_of, path_to};
ghost use Rattle.cfb_tree.specs.Paths.{Path};
ghost use Rattle.cfb_directory.specs.Growth.{LacksEntries};
ghost use Rattle.cfb_directory.specs.Views.{entries_held};
ghost use Rattle.cfb_tree.specs.Tree.{Tree};
ghost use Rattle.cfb_mini.specs.Views.{allocator_of, directory_of};
ghost use Rattle.cfb_chain_io.specs.ChainEffects.{KeepsFileInvariants};
ghost use Rattle.cfb_medium.specs.declared.error.Error.TheVariants.{Full};
ghost use Rattle.cfb_medium.specs.Times.{units_of};
ghost use Rattle.cfb_tree.specs.EntryViews.{kind_of};
ghost use Rattle.cfb_tree.specs.CaseTableViews.{case_table_of};
ghost use Rattle.std.specs.Char.{IsScalar};
ghost use Rattle.std.specs.List.{AllByRecursion};
ghost use Rattle.std.specs.Prelude.{chars, false, true, IfErr, IfOk, IsErrOf, OnErr, OnOk, ◌≡◌, ◌⊎◌};

use crate::finding::find_parent;
use cfb_medium::{Error, Medium, Timestamp};
use cfb_mini::MiniAllocator;
use cfb_sectors::HasSectors;
use cfb_tree::{CaseMapper, ObjType, name_chain_from_path};
use std::alloc::Global;

/// An object to be made.
#[derive(Clone, Copy)]
pub enum NewObject {
    /// A stream without bytes.
    Stream,
    /// A storage without children, created and modified at the moment.
    Storage(Timestamp),
}

impl NewObject {
    ghost use Rattle.cfb_tree_edits.specs.Making.{kind_made, moment_made};

    // Its kind.
    fn obj_type(self) -> ObjType
        ensures { kind_of result ≡ kind_made self }
    {
        match self {
            NewObject::Stream => ObjType::Stream,
            NewObject::Storage(_) => ObjType::Storage,
        }
    }

    // Its moment: a stream has none.
    fn moment(self) -> Timestamp
        ensures { units_of result ≡ moment_made self }
    {
        match self {
            NewObject::Stream => Timestamp::zero(),
            NewObject::Storage(moment) => moment,
        }
    }
}

// The characters of a text are scalars. It does nothing: a law.
fn spells_scalars(text: &str)
    ensures { AllByRecursion IsScalar (chars text.now) }
{}

/// Makes an object of this name in storage `parent`, where none is of it; answers the number of its entry. After an error nothing is
/// changed, or the file has failed.
pub(crate) fn make_child<F: Medium>(
    mini: &mut MiniAllocator<F>,
    letters: &CaseMapper,
    parent: u32,
    name: &str,
    object: NewObject,
) -> Result<u32, Error>
    ensures made { IfOk result (λ id. (tree : Tree) (path : Path)
        → (m : LiveFileMeansTree (case_table_of letters.now) mini.old tree)
        → IsFreePlace (case_table_of letters.now) (entries_held (directory_of mini.old)) tree
        (path_to path (chars name.now)) parent
        → MakesChild (case_table_of letters.now) (path_to path (chars name.now)) object tree
        mini.old mini.new m.who id) }
    ensures refused_only_if { IfErr result (λ e. (tree : Tree) (path : Path)
        → LiveFileMeansTree (case_table_of letters.now) mini.old tree
        → IsFreePlace (case_table_of letters.now) (entries_held (directory_of mini.old)) tree
        (path_to path (chars name.now)) parent → IsFaultOrFull e) }
    ensures after_error { OnErr result ((has_failed_here (allocator_of mini.new) ≡ true)
        ⊎ KeepsOwnership mini.old mini.new) }
    ensures full_only_if { IsErrOf result Full → has_failed_here (allocator_of mini.new) ≡ false
        → LacksEntries (directory_of mini.old) }
    ensures invariants { KeepsFileInvariants (allocator_of mini.old) (allocator_of mini.new) }
    ensures error_contract { FatErrorContract IsMakeObjectError result (allocator_of mini.old)
        (allocator_of mini.new) }
{
    if mini.directory().allocator().is_failed() {
        return Err(Error::Failed);
    }
    spells_scalars(name);
    let id = match mini.insert_dir_entry(
        letters,
        parent,
        name,
        object.obj_type(),
        object.moment(),
    ) {
        Ok(id) => id,
        Err(error) => return Err(error),
    };
    Ok(id)
}

// Makes an object at a path of names where none is, as `make_object` does. After an error nothing is changed, or the file has
// failed.
fn make_named<F: Medium>(
    mini: &mut MiniAllocator<F>,
    letters: &CaseMapper,
    names: &[&str],
    object: NewObject,
) -> Result<(), Error>
    ensures made { OnOk result ((tree : Tree)
        → (m : LiveFileMeansTree (case_table_of letters.now) mini.old tree)
        → MakesAt (case_table_of letters.now) (path_of names.now) object tree mini.old mini.new
        m.who) }
    ensures refused_only_if { IfErr result (λ e. (tree : Tree)
        → LiveFileMeansTree (case_table_of letters.now) mini.old tree → IsFaultOrFull e
        ⊎ (((tree_step (case_table_of letters.now) tree (making object (path_of names.now))).1
        ≡ refused e) × KeepsOwnership mini.old mini.new)) }
    ensures after_error { OnErr result ((has_failed_here (allocator_of mini.new) ≡ true)
        ⊎ KeepsOwnership mini.old mini.new) }
    ensures full_only_if { IsErrOf result Full → has_failed_here (allocator_of mini.new) ≡ false
        → LacksEntries (directory_of mini.old) }
    ensures invariants { KeepsFileInvariants (allocator_of mini.old) (allocator_of mini.new) }
    ensures error_contract { FatErrorContract IsMakeObjectError result (allocator_of mini.old)
        (allocator_of mini.new) }
{
    if mini.directory().allocator().is_failed() {
        return Err(Error::Failed);
    }
    let parent = match find_parent(letters, mini.directory().dir_entries(), names) {
        Ok(parent) => parent,
        Err(error) => return Err(error),
    };
    let name = names[names.len() - 1];
    if let Err(error) = make_child(mini, letters, parent, name, object) {
        return Err(error);
    }
    Ok(())
}

/// Makes an object at a path where none is. `InvalidInput` where the path leads above the root, `AlreadyExists` where an object is
/// there, `NotFound` where none is at its parent's path, `InvalidInput` where that is a stream or the name is invalid. `Full`
/// where numbers of entries or sectors are missing, `InvalidData` where the file hasn't its directory. The other errors are
/// `Memory`, `Device`, and `Failed` after an earlier fault. After an error nothing is changed, or the file has failed
/// ([MS-CFB] 2.6.4).
pub fn make_object<F: Medium>(
    alloc: Global,
    mini: &mut MiniAllocator<F>,
    letters: &CaseMapper,
    path: &str,
    object: NewObject,
) -> Result<(), Error>
    ensures tree_rule { FollowsLiveTreeRules (case_table_of letters.now) (names_in path.now)
        (making object) result mini.old
        mini.new }
    ensures full_only_if { IsErrOf result Full → has_failed_here (allocator_of mini.new) ≡ false
        → LacksEntries (directory_of mini.old) }
    ensures invariants { KeepsFileInvariants (allocator_of mini.old) (allocator_of mini.new) }
    ensures error_contract { FatErrorContract IsMakeObjectError result (allocator_of mini.old)
        (allocator_of mini.new) }
{
    if mini.directory().allocator().is_failed() {
        return Err(Error::Failed);
    }
    let names = match name_chain_from_path(alloc, path) {
        Ok(names) => names,
        Err(error) => return Err(error),
    };
    if let Err(error) = make_named(mini, letters, &names, object) {
        return Err(error);
    }
    Ok(())
}
