//! Laws of the definitions, each the contract of a function.
ghost use Rattle.std.specs.Prelude.{◌≡◌, ◌↔◌, ◌<◌, ◌^◌, ◌==◌, ◌∷◌, ◌++◌, [], ℕ, All, Bool, true, false, IsTrue, List, None, Ok, Option, Some, chars, encode_utf8_all, filter, find, is_none, length, map, not, option_map, slice_get, take, IsUtf8};
ghost use Rattle.std.specs.List.{list_all, list_any, remove};
ghost use Rattle.std.specs.List.Sorted.{IsStrictlySortedBy};
ghost use Rattle.std.specs.Str.{is_utf8};
ghost use Rattle.cfb_tree.specs.Changes.{with_bytes, with_changed, with_child};
ghost use Rattle.cfb_tree.specs.Names.{CaseTable, name_cmp, name_key};
ghost use Rattle.cfb_tree.specs.Objects.{a_stream, child, is_same_name, Object};
ghost use Rattle.cfb_tree.specs.Paths.{path_names};
ghost use Rattle.cfb_tree.specs.Tree.{child_names, Content, Tree};
ghost use Rattle.cfb_spec.specs.TreeRules.{has_bytes, is_stream as is_stream_there, object_at, open_read_stream, tree_step, yes};
ghost use Rattle.msi_texts.specs.Category.{is_identifier};
ghost use Rattle.msi_texts.specs.StreamName.{spelled_name};
ghost use Rattle.msi_changes.specs.Laws.{uses_in, RefcountsMatchRows};
ghost use Rattle.msi_columns.specs.Column.{Column};
ghost use Rattle.msi_columns.specs.declared.column.ColumnType.{ColumnType};
ghost use Rattle.msi_expr.specs.Formula.{Formula};
ghost use Rattle.msi_pool.specs.Pool.{Pool};
ghost use Rattle.msi_pool.specs.PoolKept.{AreFreeEmpty, IsWritable};
ghost use Rattle.msi_props.specs.Props.{Props};
ghost use Rattle.msi_tables.specs.Rows.{rows_of, IsStored, Row};
ghost use Rattle.msi_tables.specs.Schema.{are_keys, begins_with, columns_rows, is_filled, is_for, schema_of, validation_row};
ghost use Rattle.msi_tables.specs.Table.{has_key, IsStoredByKeys, Table};
ghost use Rattle.msi_spec.specs.RoundTrips.{CanBeStored, RowsRoundTrip};
ghost use Rattle.msi_values.specs.Datum.{Datum};
ghost use Rattle.msi_spec.specs.Calls.{is_kept, names_distinct, Creates, Deletes, Drops, Inserts, HasOneAnswer, Updates};
ghost use Rattle.msi_spec.specs.Writable.{is_fit_pool};
ghost use Rattle.msi_spec.specs.Known.{HaveColumns, HaveRows, package_with, Parts};
ghost use Rattle.msi_spec.specs.Opening.{is_encoded, keeps_encoded_names, opened};
ghost use Rattle.msi_spec.specs.Package.{at_name, is_stream, objects, stream_at, stream_name, PackageContent, TreePacksPackage};
ghost use Rattle.msi_spec.specs.Sound.{refcounts_of, IsSoundPackage};
ghost use Rattle.msi_spec.specs.SoundParts.{HasSoundParts};
ghost use Rattle.msi_spec.specs.Split.{HasPool, HasSummary, TreeStoresRest};
ghost use Rattle.msi_spec.specs.Streams.{may_name, plain_stream_name, special_names, stream_put, AreOneStream, IsDropped};
ghost use Rattle.msi_spec.specs.Uses.{RefcountsAreExact, CountsDown};
ghost use Rattle.msi_spec.specs.declared.kind.PackageType.{PackageType};

/// Under any case table two names that streams may have are of one stream exactly where their encoded
/// names have one key.
pub fn streams_are_told_by_keys()
    ensures { (letters : CaseTable) (one other : List ℕ) → may_name letters one ≡ Ok tt
        → may_name letters other ≡ Ok tt → AreOneStream letters one other
        ↔ (name_key letters (plain_stream_name one) ≡ name_key letters (plain_stream_name other)) }
{}

/// In a sound package each table has what the laws of changed tables ask for: its cells make the uses that the pool counts,
/// beside those of the other tables.
pub fn sound_packages_count_their_texts()
    ensures { (letters : CaseTable) (tree : Tree) (P : PackageContent)
        (packs : TreePacksPackage letters tree P)
        → IsSoundPackage letters tree P packs → (k : ℕ) (t : Table) → slice_get P.tables k ≡ Some t
        → RefcountsMatchRows t.columns (refcounts_of (remove P.tables k)) P.pool t.rows }
{}

/// A tree packs at most one package, whatever the case table.
pub fn trees_pack_one_package()
    ensures { (letters : CaseTable) (tree : Tree) (P Q : PackageContent)
        → TreePacksPackage letters tree P
        → TreePacksPackage letters tree Q → P ≡ Q }
{}

/// A tree packs a package exactly where it holds the pool and the summary in their streams, and stores all else.
pub fn packages_are_packed_in_three_parts()
    ensures { (letters : CaseTable) (tree : Tree) (P : PackageContent)
        → TreePacksPackage letters tree P
        ↔ (TreeStoresRest letters tree P × HasPool letters tree P.pool
        × HasSummary letters tree P.summary) }
{}

/// A tree that packs a package is opened, with its kind, summary and pool, where the case table leaves encoded names alone.
pub fn packed_trees_are_opened()
    ensures { (letters : CaseTable) (tree : Tree) (P : PackageContent)
        → TreePacksPackage letters tree P
        → keeps_encoded_names letters ≡ true
        → opened letters tree ≡ Ok (P.kind, (P.summary, P.pool)) }
{}

/// Of the parts that opening finds, the tables with names and columns that the system tables tell, and all their rows, the tree
/// packs a package.
pub fn read_parts_pack_their_package()
    ensures { (letters : CaseTable) (tree : Tree) (kind : PackageType) (summary : Props)
        (pool : Pool) (parts : Parts letters tree kind summary pool) (tables : List Table)
        → HaveColumns letters tree pool parts.tables parts.columns parts.validation tables
        → HaveRows letters tree pool tables
        → TreePacksPackage letters tree (package_with letters tree kind summary pool tables) }
{}

/// Each call that changes tables has one answer, and makes one package.
pub fn answers_are_one()
    ensures insert { (P : PackageContent) (name : List ℕ) (new_rows : List (List Datum))
        → HasOneAnswer (Inserts P name new_rows) }
    ensures update { (P : PackageContent) (name : List ℕ) (sets : List (List ℕ × Datum))
        (condition : Option Formula) → HasOneAnswer (Updates P name sets condition) }
    ensures delete { (P : PackageContent) (name : List ℕ) (condition : Option Formula)
        → HasOneAnswer (Deletes P name condition) }
    ensures create { (letters : CaseTable) (P : PackageContent) (name : List ℕ)
        (columns : List Column)
        → HasOneAnswer (Creates letters P name columns) }
    ensures drop { (P : PackageContent) (name : List ℕ) → HasOneAnswer (Drops P name) }
{}

/// The uses of all tables, taken from a pool's counts, leave nothing exactly where each reference has a use and the counts are
/// those of the cells, given that no cell names place 0.
pub fn counted_down_uses_are_counted()
    ensures { (pool : Pool) (tables : List Table) (result : Bool) → refcounts_of tables 0 ≡ 0
        → CountsDown pool tables result → IsTrue result ↔ RefcountsAreExact pool tables }
{}

/// A package is sound exactly where its parts say so, whichever way the tree packs it.
pub fn sound_packages_are_sound_in_parts()
    ensures { (letters : CaseTable) (tree : Tree) (P : PackageContent)
        (packs : TreePacksPackage letters tree P)
        → IsSoundPackage letters tree P packs ↔ HasSoundParts letters tree P }
{}

/// What the tree rules make of the root where a stream is put into it, as the list of the root's objects: a new one, and one
/// that is there in other bytes. It is found under its name, and a filter that drops the name sees no change.
#[tactic(auto, using(crate::proofs::Roots::put_new, crate::proofs::Roots::put_there, crate::proofs::Roots::put_found, crate::proofs::Roots::put_dropped))]
pub fn streams_are_put_among_the_objects()
    ensures new { (letters : CaseTable) (name bytes : List ℕ) (c : Content)
        → child letters c name ≡ None → objects (with_child letters (a_stream name 0 bytes) c)
        ≡ stream_put letters name bytes (objects c) }
    ensures there { (letters : CaseTable) (name bytes : List ℕ) (c : Content) (o : Object)
        → IsStrictlySortedBy (name_cmp letters) (child_names c) → child letters c name ≡ Some o
        → objects (with_changed letters name (with_bytes bytes) c)
        ≡ stream_put letters name bytes (objects c) }
    ensures found { (letters : CaseTable) (name bytes : List ℕ) (os : List Object)
        → ((o : Object) → at_name letters os name ≡ Some o → is_stream o ≡ true)
        → is_same_name letters name name ≡ true
        → stream_at letters (stream_put letters name bytes os) name ≡ Some bytes }
    ensures dropped { (letters : CaseTable) (name bytes : List ℕ) (keep : Object → Bool)
        → IsDropped letters keep name → (os : List Object)
        → filter keep (stream_put letters name bytes os) ≡ filter keep os }
{}

/// No cell of rows that were read names place 0.
pub fn read_rows_name_no_place_0()
    ensures { (long : Bool) (kinds : List ColumnType) (bytes : List ℕ) (rows : List Row)
        → rows_of long kinds bytes ≡ Some rows → uses_in rows 0 ≡ 0 }
{}

/// Rows that a table can store come back from their bytes in the order in which they are stored, after an update or a delete and
/// after an insert.
pub fn stored_rows_come_back()
    ensures stored { (long : Bool) (columns : List Column) (rows stored : List Row)
        → IsStored columns rows stored → CanBeStored long columns rows
        → RowsRoundTrip long columns stored }
    ensures by_keys { (long : Bool) (pool : Pool) (columns : List Column) (rows stored : List Row)
        → IsStoredByKeys pool columns rows stored → CanBeStored long columns rows
        → RowsRoundTrip long columns stored }
{}

/// A pool in memory that is fit has streams that are read as that pool, where no text stands at a free place.
pub fn fit_pools_can_be_written()
    ensures { (pool : Pool) → IsTrue (is_fit_pool pool)
        → All (λ p. IsTrue (is_utf8 p.text) × (p.count < 2 ^ 16)) pool.places
        → length pool.places < 2 ^ 32 → AreFreeEmpty pool.places → IsWritable pool }
{}

/// The text of an encoded name without a slash is the path of that one name under the root, and so is that of each special name.
pub fn encoded_names_are_paths()
    ensures encoded { (table : Bool) (name : List ℕ) → IsUtf8 name → 0 < length name
        → list_all (λ b. not (b == 47)) name ≡ true
        → option_map (map chars) (path_names (encode_utf8_all (spelled_name table (chars name))))
        ≡ Some (spelled_name table (chars name) ∷ []) }
    ensures special { All (λ name. option_map (map chars) (path_names name) ≡ Some (name ∷ []))
        special_names }
{}

/// What the tree rules find at a path of one name is what stands at the name among the root's objects: a stream's bytes where
/// they answer with bytes, and no stream where they say that there is none.
pub fn names_lead_to_objects()
    ensures object { (letters : CaseTable) (tree : Tree) (name : List ℕ)
        → object_at letters tree (name ∷ []) ≡ at_name letters (objects tree.content) name }
    ensures bytes { (letters : CaseTable) (tree : Tree) (name bytes : List ℕ)
        → (tree_step letters tree (open_read_stream (name ∷ []))).1 ≡ has_bytes bytes
        → stream_at letters (objects tree.content) name ≡ Some bytes }
    ensures none { (letters : CaseTable) (tree : Tree) (name : List ℕ)
        → yes false ≡ (tree_step letters tree (is_stream_there (name ∷ []))).1
        → stream_at letters (objects tree.content) name ≡ None }
{}

/// Under a case table that leaves encoded characters alone, a name of such characters is the one name of its key. The names of
/// tables' streams are such, and are told apart as the tables' names are.
pub fn encoded_names_are_told_by_their_characters()
    ensures key { (letters : CaseTable) (one other : List ℕ) → keeps_encoded_names letters ≡ true
        → list_all is_encoded one ≡ true → name_key letters one ≡ name_key letters other
        → one ≡ other }
    ensures tables { (name : List ℕ) → is_identifier name ≡ true
        → list_all is_encoded (stream_name name) ≡ true }
    ensures apart { (one other : List ℕ) → is_identifier one ≡ true → is_identifier other ≡ true
        → stream_name one ≡ stream_name other → one ≡ other }
{}

/// The rows that describe the columns of a new table, put behind others, are read as these columns: where no row of _Columns speaks
/// of the table yet, none of _Validation of its columns, their names differ and each can be stored.
pub fn new_columns_are_read()
    ensures { (columns validation : List (List Datum)) (table : List ℕ) (cs : List Column)
        → not (length cs == 0) ≡ true → list_any (begins_with table) columns ≡ false
        → list_all (λ c. is_none (find (is_for table c.name) validation)) cs ≡ true
        → list_all is_kept cs ≡ true → names_distinct cs ≡ true
        → schema_of (columns ++ columns_rows table 1 cs)
        (validation ++ map (validation_row table) cs) table ≡ Some cs }
{}

/// The rows that describe the columns of a new table speak of it, with keys of their own: those of _Columns have no null, and those
/// of _Validation are apart from rows that say nothing of these columns.
pub fn new_rows_have_keys()
    ensures columns { (table : List ℕ) (n : ℕ) (cs : List Column)
        → (are_keys (map (take 2) (columns_rows table n cs)) ≡ true)
        × (list_all (list_all is_filled) (columns_rows table n cs) ≡ true)
        × (list_all (begins_with table) (columns_rows table n cs) ≡ true) }
    ensures validation { (table : List ℕ) (cs : List Column) → names_distinct cs ≡ true
        → (are_keys (map (take 2) (map (validation_row table) cs)) ≡ true)
        × (list_all (begins_with table) (map (validation_row table) cs) ≡ true) }
    ensures apart { (table : List ℕ) (rows : List (List Datum)) (cs : List Column)
        → list_all (λ c. is_none (find (is_for table c.name) rows)) cs ≡ true
        → list_all (λ key. not (has_key (map (take 2) (map (validation_row table) cs)) key))
        (map (take 2) rows) ≡ true }
{}
