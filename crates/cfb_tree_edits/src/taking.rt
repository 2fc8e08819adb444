//! Objects that are taken out of their storages ([MS-CFB] 2.6.3, 2.6.4).
ghost use Rattle.cfb_chains.specs.ChainCalls.{IsInvalid};
ghost use Rattle.cfb_directory.specs.Views.{entries_held};
ghost use Rattle.cfb_fat.specs.Calls.{FatErrorContract};
ghost use Rattle.cfb_fat.specs.Tables.{has_failed_here};
ghost use Rattle.cfb_tree_edits.specs.WholeRemoval.{IsLeafAt, KeepsWay};
ghost use Rattle.cfb_tree_edits.specs.Freeing.{GivesUp};
ghost use Rattle.cfb_tree_edits.specs.Live.{LiveFileMeansTree};
ghost use Rattle.cfb_tree_edits.specs.Orphans.{FileBecomesTree};
ghost use Rattle.cfb_medium.specs.declared.error.Error.TheVariants.{InvalidData};
ghost use Rattle.cfb_mini.specs.Changing.{KeepsOwnership};
ghost use Rattle.cfb_mini.specs.Views.{allocator_of, directory_of};
ghost use Rattle.cfb_chain_io.specs.ChainEffects.{KeepsFileInvariants};
ghost use Rattle.cfb_ownership.specs.Owners.{stream_owner};
ghost use Rattle.cfb_siblings.specs.Places.{path_to};
ghost use Rattle.cfb_tree.specs.Changes.{removed};
ghost use Rattle.cfb_tree.specs.Names.{CaseTable};
ghost use Rattle.cfb_tree.specs.Paths.{Path};
ghost use Rattle.cfb_tree.specs.Tree.{Tree};
ghost use Rattle.std.specs.Prelude.{length, true, IsErrOf, List, OnErr, OnOk, ℕ, ◌<◌, ◌≡◌, ◌⊎◌};

use crate::facts::is_stream;
use crate::freeing::free_stream;
use cfb_medium::{Error, Medium};
use cfb_mini::MiniAllocator;
use cfb_sectors::HasSectors;
use cfb_siblings::Link;

/// Takes out the object of entry `id`, to which the link leads, and which holds nothing: a stream's sectors are freed, and then its
/// entry; a storage has its entry alone. `InvalidData` where the file hasn't its directory. After an error nothing is changed, or
/// the file has failed.
pub(crate) fn take_out<F: Medium>(
    mini: &mut MiniAllocator<F>,
    link: Link,
    id: u32,
) -> Result<(), Error>
    requires { id < length (entries_held (directory_of mini.old)) }
    ensures taken { OnOk result ((letters : CaseTable) (tree : Tree) (path : Path) (name : List ℕ)
        → (m : LiveFileMeansTree letters mini.old tree)
        → IsLeafAt letters (entries_held (directory_of mini.old)) path name link id
        → FileBecomesTree letters mini.old mini.new m.who
        (removed letters (path_to path name) tree)) }
    ensures ways { OnOk result ((letters : CaseTable) (tree : Tree) (path : Path) (name : List ℕ)
        → LiveFileMeansTree letters mini.old tree
        → IsLeafAt letters (entries_held (directory_of mini.old)) path name link id
        → KeepsWay letters (entries_held (directory_of mini.old))
        (entries_held (directory_of mini.new)) path id) }
    ensures freed { OnOk result ((letters : CaseTable) (tree : Tree) (path : Path) (name : List ℕ)
        → (m : LiveFileMeansTree letters mini.old tree)
        → IsLeafAt letters (entries_held (directory_of mini.old)) path name link id
        → GivesUp (m.who.sectors (stream_owner id)) (m.who.minis (stream_owner id)) mini.new) }
    ensures refused_only_if { IsErrOf result InvalidData
        → (letters : CaseTable) (tree : Tree) (path : Path) (name : List ℕ)
        → LiveFileMeansTree letters mini.old tree
        → IsLeafAt letters (entries_held (directory_of mini.old)) path name link id → ⊥ }
    ensures after_error { OnErr result ((has_failed_here (allocator_of mini.new) ≡ true)
        ⊎ KeepsOwnership mini.old mini.new) }
    ensures invariants { KeepsFileInvariants (allocator_of mini.old) (allocator_of mini.new) }
    ensures error_contract { FatErrorContract IsInvalid result (allocator_of mini.old)
        (allocator_of mini.new) }
{
    if mini.directory().allocator().is_failed() {
        return Err(Error::Failed);
    }
    if !is_stream(mini.directory().dir_entry(id)) {
        if let Err(error) = mini.unlink_dir_entry(link, id) {
            return Err(error);
        }
        return Ok(());
    }
    if let Err(error) = free_stream(mini, id) {
        return Err(error);
    }
    if let Err(error) = mini.unlink_dir_entry(link, id) {
        mini.fail();
        return Err(error);
    }
    Ok(())
}
