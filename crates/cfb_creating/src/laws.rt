//! Laws of new files, each of a function that does nothing.
ghost use Rattle.cfb_creating.specs.NewFile.{empty_tree, new_file};
ghost use Rattle.cfb_spec.specs.Means.{IsStrictlyOpenable, BytesMeanTree};
ghost use Rattle.cfb_spec.specs.Sound.{IsSoundContainer};
ghost use Rattle.cfb_medium.specs.Versions.{sector_len};
ghost use Rattle.cfb_medium.specs.declared.version.Version.{Version};
ghost use Rattle.cfb_tree.specs.Names.{CaseTable};
ghost use Rattle.std.specs.Prelude.{length, List, ℕ, ◌*◌, ◌++◌, ◌≡◌};

/// The bytes of a new file mean the tree of a root that holds nothing, under each case table, also with others behind them; by
/// themselves they are sound, a strict reader takes them, and they have three sectors' length ([MS-CFB] 2).
pub fn new_files_mean_the_empty_tree()
    ensures means { (version : Version) (letters : CaseTable) (behind : List ℕ)
        → BytesMeanTree letters (new_file version ++ behind) empty_tree }
    ensures sound { (version : Version) (letters : CaseTable)
        → IsSoundContainer letters (new_file version) }
    ensures strict { (version : Version) (letters : CaseTable)
        → IsStrictlyOpenable letters (new_file version) }
    ensures length { (version : Version) → length (new_file version) ≡ 3 * sector_len version }
{}
