//! Laws of the definitions, each of a function that does nothing.
ghost use Rattle.cfb_siblings.specs.Changes.{AreColored, ObjectBecomes, HasSameLinks, HoldsOn, HoldsOneMore, IsAlone, IsApart, IsUnused, KeepBytes};
ghost use Rattle.cfb_siblings.specs.Links.{relinked};
ghost use Rattle.cfb_siblings.specs.Places.{path_to, IsFree, IsStorageAt, LeadsTo};
ghost use Rattle.cfb_siblings.specs.Reading.{ReadBy};
ghost use Rattle.cfb_siblings.specs.Rotations.{IsReached, IsRotation, Turns};
ghost use Rattle.cfb_siblings.specs.declared.links.Link.{Link as Way};
ghost use Rattle.cfb_siblings.specs.declared.rotation.Rotation.{Rotation as Turning};
ghost use Rattle.cfb_sectors.specs.Sectors.{end_of_chain};
ghost use Rattle.cfb_tree.specs.Changes.{added, changed, made_at};
ghost use Rattle.cfb_tree.specs.Directory.{kind_storage, kind_stream, Entry};
ghost use Rattle.cfb_tree.specs.Entries.{new_entry};
ghost use Rattle.cfb_tree.specs.Names.{is_name, CaseTable};
ghost use Rattle.cfb_tree.specs.Objects.{a_storage, a_stream, name_of, object_at, EntriesHoldTree, Object};
ghost use Rattle.cfb_tree.specs.Paths.{Path};
ghost use Rattle.cfb_tree.specs.Tree.{nothing, Tree};
ghost use Rattle.std.specs.Char.{IsScalar};
ghost use Rattle.std.specs.List.{AllByRecursion};
ghost use Rattle.std.specs.Prelude.{slice_get, slice_set, Bool, IsTrue, List, [], ℕ, Some, ◌++◌, ◌≡◌, ◌∷◌};

/// A new child: an entry that is not in use becomes an object without siblings, and then the free link leads to it. The
/// entries hold the tree with this object, which has the one entry more, and the object's path leads there ([MS-CFB] 2.6.4).
pub fn linked_entries_are_added()
    ensures { (reads : ℕ → ℕ → List ℕ → Bool) (letters : CaseTable) (directory : List Entry)
        (tree : Tree) (path : Path) (parent : ℕ) (link : Way) (id : ℕ) (e : Entry)
        (object : Object) → (h : EntriesHoldTree letters (ReadBy reads) directory tree)
        → IsStorageAt letters directory path parent
        → IsFree letters directory parent (name_of object) link → IsUnused directory id
        → IsAlone (ReadBy reads) e object
        → HoldsOneMore letters (ReadBy reads) directory
        (relinked link id (slice_set directory id e))
        (added letters object (path_to path (name_of object)) tree) h.ids
        (path_to path (name_of object)) id }
{}

/// An entry that is not in use is outside of the tree, and may become any other.
pub fn unused_entries_are_free()
    ensures apart { (reads : ℕ → ℕ → List ℕ → Bool) (letters : CaseTable) (directory : List Entry)
        (tree : Tree) (id : ℕ) → (h : EntriesHoldTree letters (ReadBy reads) directory tree)
        → IsUnused directory id → IsApart id (0 ∷ h.ids) }
    ensures stays { (reads : ℕ → ℕ → List ℕ → Bool) (letters : CaseTable) (directory : List Entry)
        (tree : Tree) (id : ℕ) (e : Entry)
        → (h : EntriesHoldTree letters (ReadBy reads) directory tree) → IsApart id (0 ∷ h.ids)
        → EntriesHoldTree letters (ReadBy reads) (slice_set directory id e) tree }
{}

/// Entries behind those of the tree are outside of it.
pub fn appended_entries_are_free()
    ensures { (reads : ℕ → ℕ → List ℕ → Bool) (letters : CaseTable) (directory more : List Entry)
        (tree : Tree) → EntriesHoldTree letters (ReadBy reads) directory tree
        → EntriesHoldTree letters (ReadBy reads) (directory ++ more) tree }
{}

/// What `DirEntry::new` makes is an object on its own: an empty stream, or a storage made at a moment, without children.
pub fn new_entries_are_alone()
    ensures stream { (reads : ℕ → ℕ → List ℕ → Bool) (name : List ℕ) (moment : ℕ)
        → AllByRecursion IsScalar name → IsTrue (is_name name) → IsTrue (reads end_of_chain 0 [])
        → IsAlone (ReadBy reads) (new_entry name kind_stream moment) (a_stream name 0 []) }
    ensures storage { (reads : ℕ → ℕ → List ℕ → Bool) (name : List ℕ) (moment : ℕ)
        → AllByRecursion IsScalar name → IsTrue (is_name name)
        → IsAlone (ReadBy reads) (new_entry name kind_storage moment)
        (a_storage name (made_at moment) nothing) }
{}

/// An entry of the tree gets other facts, or its stream other bytes: the entries hold the tree with the object changed so, where
/// the other streams keep their bytes. Colours stay right where its own stays.
pub fn changed_entries_change_the_tree()
    ensures tree { (reads reads' : ℕ → ℕ → List ℕ → Bool) (letters : CaseTable)
        (directory : List Entry) (tree : Tree) (path : Path) (id : ℕ) (e f : Entry)
        (change : Object → Object) (object : Object)
        → (h : EntriesHoldTree letters (ReadBy reads) directory tree)
        → LeadsTo letters directory 0 path id → object_at letters tree path ≡ Some object
        → slice_get directory id ≡ Some e → HasSameLinks e f
        → ObjectBecomes (ReadBy reads') f object (change object)
        → KeepBytes (ReadBy reads) (ReadBy reads') directory id h.ids
        → HoldsOn letters (ReadBy reads') (slice_set directory id f)
        (changed letters change path tree) h.ids }
    ensures colors { (directory : List Entry) (ids : List ℕ) (id : ℕ) (e f : Entry)
        → slice_get directory id ≡ Some e → HasSameLinks e f → f.color ≡ e.color
        → AreColored directory ids → AreColored (slice_set directory id f) ids }
{}

/// Siblings are turned, where the link led to the upper one: the entries hold the tree still, of the same entries, whatever the
/// shape of the trees of siblings is.
pub fn rotated_entries_hold_the_tree()
    ensures { (reads : ℕ → ℕ → List ℕ → Bool) (letters : CaseTable) (directory : List Entry)
        (tree : Tree) (path : Path) (parent : ℕ) (link : Way) (upper : ℕ) (it : Turning)
        → (h : EntriesHoldTree letters (ReadBy reads) directory tree)
        → IsStorageAt letters directory path parent → IsReached directory parent link upper
        → IsRotation directory link upper it
        → Turns letters (ReadBy reads) directory tree h.ids path parent upper it }
{}
