//! Laws of what opening tells, each of a function that does nothing.
ghost use Rattle.cfb_spec.specs.Means.{HasBytes, IsStrict, Layout, BytesMeanTreeBy};
ghost use Rattle.cfb_medium.specs.declared.version.Version.{Version};
ghost use Rattle.cfb_mini.specs.Views.{OnlyReadsMini};
ghost use Rattle.cfb_opening.specs.Opened.{CanOpen, IsOpened, OpensAt};
ghost use Rattle.cfb_sectors.specs.Sectors.{sectors_in, AreInFile, Chain};
ghost use Rattle.cfb_sectors.specs.declared.validation.Validation.TheVariants.{Strict};
ghost use Rattle.cfb_sectors.specs.declared.validation.Validation.{Validation};
ghost use Rattle.cfb_tree.specs.Names.{CaseTable};
ghost use Rattle.cfb_tree.specs.Tree.{Tree};
ghost use Rattle.cfb_tree.specs.Entries.{HasSize};
ghost use Rattle.std.specs.Prelude.{length, take, List, ℕ, ◌↔◌, ◌≡◌};

use cfb_medium::ReadMedium;
use cfb_mini::MiniAllocator;

/// The chains of a FAT that is cut to the file's sectors, as memory has it, are those of the whole FAT whose sectors the file
/// has ([MS-CFB] 2.3).
pub fn chains_in_memory_are_in_the_file()
    ensures { (version : Version) (bytes table : List ℕ) (start : ℕ) (ids : List ℕ)
        → Chain (take (sectors_in version (length bytes)) table) start ids
        ↔ (Chain table start ids × AreInFile version bytes ids) }
{}

/// Where opening answers `Ok`, the file can be opened; and a file whose streams have bytes is one whose streams have sizes.
pub fn opened_files_can_be_opened()
    ensures opened { (validation : Validation) (letters : CaseTable) (bytes : List ℕ) (l : Layout)
        (tree : Tree) → BytesMeanTreeBy l HasSize letters bytes tree
        → (validation ≡ Strict → IsStrict bytes l) → CanOpen validation letters bytes }
    ensures meant { (letters : CaseTable) (bytes : List ℕ) (l : Layout) (tree : Tree)
        → BytesMeanTreeBy l (HasBytes bytes l) letters bytes tree
        → BytesMeanTreeBy l HasSize letters bytes tree }
{}

/// What opening tells stays while the file is only read.
pub fn reads_keep_what_opening_tells<F: ReadMedium>()
    ensures opens { (medium : F) (old new : MiniAllocator F F.ReadMedium) → OnlyReadsMini old new
        → OpensAt medium old → OpensAt medium new }
    ensures opened { (validation : Validation) (letters : CaseTable) (bytes : List ℕ) (l : Layout)
        (tree : Tree) (old new : MiniAllocator F F.ReadMedium) → OnlyReadsMini old new
        → IsOpened validation letters bytes old l tree
        → IsOpened validation letters bytes new l tree }
{}
