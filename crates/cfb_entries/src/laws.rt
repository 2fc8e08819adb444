//! A law of the definitions, of a function that does nothing.
ghost use Rattle.cfb_entries.specs.Others.{HasFreePlace, KeepsOthers, NoneStandsAt, IsObjectListed};
ghost use Rattle.cfb_tree.specs.Changes.{added, changed, removed};
ghost use Rattle.cfb_tree.specs.Names.{CaseTable};
ghost use Rattle.cfb_tree.specs.Objects.{name_of, object_at, Object};
ghost use Rattle.cfb_tree.specs.Paths.{Path};
ghost use Rattle.cfb_tree.specs.Tree.{IsOrdered, Tree};
ghost use Rattle.std.specs.Prelude.{length, Some, ℕ, ◌<◌, ◌≡◌};

/// A change at a path below the root leaves all other objects. Under every case table: an object that was added stands at its
/// path with what it holds; one that was removed doesn't, nor does what it held, where siblings are in order; one that was changed,
/// and kept its name, is there as the change has it. The object at any other path is the same as before, and the storages that
/// hold the changed object keep their names and facts ([MS-CFB] 1.3, 2.6.4).
pub fn changes_leave_others()
    ensures added { (letters : CaseTable) (tree : Tree) (object : Object) (path : Path)
        → HasFreePlace letters tree object path
        → IsObjectListed letters (added letters object path tree) path object }
    ensures besides_added { (letters : CaseTable) (tree : Tree) (object : Object) (path : Path)
        → HasFreePlace letters tree object path
        → KeepsOthers letters path tree (added letters object path tree) }
    ensures removed { (letters : CaseTable) (tree : Tree) (path : Path) → 0 < length path
        → IsOrdered letters tree.content
        → NoneStandsAt letters (removed letters path tree) path }
    ensures besides_removed { (letters : CaseTable) (tree : Tree) (path : Path) → 0 < length path
        → KeepsOthers letters path tree (removed letters path tree) }
    ensures changed { (letters : CaseTable) (change : Object → Object) (tree : Tree) (path : Path)
        (object : Object) → ((o : Object) → name_of (change o) ≡ name_of o) → 0 < length path
        → object_at letters tree path ≡ Some object
        → object_at letters (changed letters change path tree) path ≡ Some (change object) }
    ensures besides_changed { (letters : CaseTable) (change : Object → Object) (tree : Tree)
        (path : Path) → ((o : Object) → name_of (change o) ≡ name_of o)
        → KeepsOthers letters path tree (changed letters change path tree) }
{}
