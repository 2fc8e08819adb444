//! Laws of the definitions, each of a function that does nothing.
ghost use Rattle.cfb_fat.specs.Tables.{bytes_of};
ghost use Rattle.cfb_tree_edits.specs.Live.{LiveFileMeansTree};
ghost use Rattle.cfb_spec.specs.Means.{BytesMeanTree as BytesMean};
ghost use Rattle.cfb_spec.specs.Sound.{IsSoundContainer};
ghost use Rattle.cfb_mini.specs.Changing.{KeepsOwnership};
ghost use Rattle.cfb_mini.specs.Views.{allocator_of};
ghost use Rattle.cfb_mini.specs.declared.mini_allocator.MiniAllocator.{MiniAllocator as Mini};
ghost use Rattle.cfb_tree.specs.Names.{CaseTable};
ghost use Rattle.cfb_tree.specs.Tree.{Tree};

use cfb_medium::ReadMedium;

/// The bytes of a live file mean the tree that it means, and are sound; and it goes on to mean it where nothing is changed.
pub fn live_files_mean_their_trees<F: ReadMedium>()
    ensures means { (letters : CaseTable) (it : Mini F F.ReadMedium) (tree : Tree)
        → LiveFileMeansTree letters it tree → BytesMean letters (bytes_of (allocator_of it)) tree }
    ensures sound { (letters : CaseTable) (it : Mini F F.ReadMedium) (tree : Tree)
        → LiveFileMeansTree letters it tree
        → IsSoundContainer letters (bytes_of (allocator_of it)) }
    ensures stays { (letters : CaseTable) (old new : Mini F F.ReadMedium) (tree : Tree)
        → KeepsOwnership old new → LiveFileMeansTree letters old tree
        → LiveFileMeansTree letters new tree }
{}
