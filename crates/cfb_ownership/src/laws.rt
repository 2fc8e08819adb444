//! Laws of the definitions, each of a function that does nothing.
ghost use Rattle.cfb_spec.specs.Means.{Layout, BytesMeanTree};
ghost use Rattle.cfb_spec.specs.Sound.{IsSoundContainer, IsSoundBy};
ghost use Rattle.cfb_fat.specs.Orderly.{AreTablesConsistent};
ghost use Rattle.cfb_tree.specs.Names.{CaseTable};
ghost use Rattle.cfb_tree.specs.Tree.{Tree};
ghost use Rattle.cfb_ownership.specs.Held.{OwnersHoldTree};
ghost use Rattle.cfb_ownership.specs.Owners.{Owners};
ghost use Rattle.cfb_ownership.specs.LiveFile.{live_file, LiveFile};
ghost use Rattle.std.specs.Prelude.{List, ℕ};

/// Where each owner has its sectors, the bytes mean the tree that the live file holds, and are sound.
pub fn held_trees_are_meant_and_sound()
    ensures means { (s : LiveFile) (who : Owners) (letters : CaseTable) (tree : Tree)
        → OwnersHoldTree s who letters tree → BytesMeanTree letters s.bytes tree }
    ensures sound { (s : LiveFile) (who : Owners) (letters : CaseTable) (tree : Tree)
        → OwnersHoldTree s who letters tree → IsSoundContainer letters s.bytes }
{}

/// In a sound file whose tables can be changed each owner has its sectors.
pub fn sound_files_are_held()
    ensures { (letters : CaseTable) (bytes : List ℕ) (l : Layout) (tree : Tree)
        → IsSoundBy l letters bytes tree
        → AreTablesConsistent l.version (live_file bytes l).count
        (live_file bytes l).fat l.fat_sectors
        l.difat_sectors → (who : Owners) × OwnersHoldTree (live_file bytes l) who letters tree }
{}
