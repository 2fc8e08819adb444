//! Laws of the definitions, each the contract of a function.
ghost use Rattle.std.specs.Prelude.{◌≡◌, false, filter, slice_get, true, ℕ, All, Bool, IsTrue, List, None, not, Ok, Option, Some};
ghost use Rattle.cfb_tree.specs.Names.{CaseTable};
ghost use Rattle.cfb_tree.specs.Objects.{is_same_name, Object};
ghost use Rattle.cfb_tree.specs.Tree.{Tree};
ghost use Rattle.std.specs.List.{list_all};
ghost use Rattle.msi_changes.specs.Changes.{deleted, inserted, updated};
ghost use Rattle.msi_expr.specs.Formula.{Formula};
ghost use Rattle.msi_spec.specs.RoundTrips.{RowsRoundTrip};
ghost use Rattle.msi_spec.specs.Calls.{is_system, may_update, rows_put};
ghost use Rattle.msi_pool.specs.PoolKept.{AreFreeEmpty};
ghost use Rattle.msi_values.specs.Datum.{Datum};
ghost use Rattle.msi_spec.specs.Opening.{keeps_encoded_names};
ghost use Rattle.msi_spec.specs.Package.{at_name, is_stream, PackageContent};
ghost use Rattle.msi_spec.specs.SoundParts.{HasSoundNames};
ghost use Rattle.msi_spec.specs.Split.{HasPool, HasSummary, TreeStoresRest};
ghost use Rattle.msi_spec.specs.Streams.{stream_put};
ghost use Rattle.msi_spec.specs.Uses.{RefcountsAreExact};
ghost use Rattle.msi_pool.specs.Pool.{Pool};
ghost use Rattle.msi_props.specs.Props.{Props};
ghost use Rattle.msi_rewritten.specs.Rewriting.{rewritten, HasPut, ReplacesTableRows};
ghost use Rattle.msi_tables.specs.Rows.{has_place, kinds_of, rows_of, AreRowsWritable, IsStored, Row};
ghost use Rattle.msi_tables.specs.Table.{IsStoredByKeys, Table};

/// A stream that is put among objects leaves what stands at each other name.
pub fn other_streams_stay()
    ensures { (letters : CaseTable) (name other bytes : List ℕ) (os : List Object)
        → is_same_name letters other name ≡ false
        → at_name letters (stream_put letters name bytes os) other ≡ at_name letters os other }
{}

/// It leaves the storages, where none stands at its name.
pub fn storages_stay()
    ensures { (letters : CaseTable) (name bytes : List ℕ) (os : List Object)
        → at_name letters (filter (λ o. not (is_stream o)) os) name ≡ None
        → filter (λ o. not (is_stream o)) (stream_put letters name bytes os)
        ≡ filter (λ o. not (is_stream o)) os }
{}

/// The pool counts the uses of all cells again.
pub fn rewritten_texts_are_counted()
    ensures { (letters : CaseTable) (tree : Tree) (P : PackageContent)
        → TreeStoresRest letters tree P → (k : ℕ)
        (t : Table) (stored : List Row) (pool : Pool) → ReplacesTableRows P k t stored pool
        → RefcountsAreExact pool (rows_put t.name stored P.tables) }
{}

/// The tree in which the table's stream got the bytes of these rows stores the package that has them; its names, system tables and
/// storages are those of a sound package still; and whatever the streams of pool and summary hold they hold still.
pub fn rewritten_packages_are_stored()
    ensures stores { (letters : CaseTable) (old new : Tree) (P : PackageContent)
        → keeps_encoded_names letters ≡ true → HasSoundNames letters P
        → TreeStoresRest letters old P → (k : ℕ) (t : Table)
        (stored : List Row) (pool : Pool) → ReplacesTableRows P k t stored pool → (bytes : List ℕ)
        → HasPut letters t.name bytes old new
        → rows_of P.pool.long (kinds_of t.columns) bytes ≡ Some stored
        → TreeStoresRest letters new (rewritten P t.name stored pool) }
    ensures named { (letters : CaseTable) (old : Tree) (P : PackageContent)
        → keeps_encoded_names letters ≡ true
        → HasSoundNames letters P → TreeStoresRest letters old P
        → (k : ℕ) (t : Table) (stored : List Row)
        (pool : Pool) → ReplacesTableRows P k t stored pool
        → HasSoundNames letters (rewritten P t.name stored pool) }
    ensures pool { (letters : CaseTable) (old new : Tree) (P : PackageContent)
        → keeps_encoded_names letters ≡ true
        → HasSoundNames letters P → (k : ℕ) (t : Table) → slice_get P.tables k ≡ Some t
        → (bytes : List ℕ) → HasPut letters t.name bytes old new → (held : Pool)
        → HasPool letters old held → HasPool letters new held }
    ensures summary { (letters : CaseTable) (old new : Tree) (P : PackageContent)
        → keeps_encoded_names letters ≡ true → HasSoundNames letters P → (k : ℕ) (t : Table)
        → slice_get P.tables k ≡ Some t → (bytes : List ℕ) → HasPut letters t.name bytes old new
        → (summary : Props) → HasSummary letters old summary → HasSummary letters new summary }
{}

/// An insert that is accepted gives one table other rows, as laid down, once they are in the order in which they are stored: uses and
/// texts are kept. These rows come back from their bytes.
pub fn inserts_rewrite_their_table()
    ensures rewrites { (letters : CaseTable) (tree : Tree) (P : PackageContent)
        → TreeStoresRest letters tree P
        → (k : ℕ) (t : Table) → slice_get P.tables k ≡ Some t → RefcountsAreExact P.pool P.tables
        → AreFreeEmpty P.pool.places → is_system t.name ≡ false → (may : Bool)
        (new_rows : List (List Datum)) (after : List Row × Pool)
        → inserted may P.pool t new_rows ≡ Ok after → (stored : List Row)
        → IsStoredByKeys after.1 t.columns after.0 stored → ReplacesTableRows P k t stored after.1 }
    ensures come_back { (letters : CaseTable) (tree : Tree) (P : PackageContent)
        → TreeStoresRest letters tree P
        → (k : ℕ) (t : Table) → slice_get P.tables k ≡ Some t → (may : Bool)
        (new_rows : List (List Datum)) (after : List Row × Pool)
        → inserted may P.pool t new_rows ≡ Ok after → AreRowsWritable P.pool.long t.columns after.0
        → All (λ row. IsTrue (list_all has_place row)) after.0 → (stored : List Row)
        → IsStoredByKeys after.1 t.columns after.0 stored
        → RowsRoundTrip P.pool.long t.columns stored }
{}

/// So does an update or a delete that is accepted, an update of the descriptions in _Validation among them.
pub fn updates_and_deletes_rewrite_their_table()
    ensures updated { (letters : CaseTable) (tree : Tree) (P : PackageContent)
        → TreeStoresRest letters tree P
        → (k : ℕ) (t : Table) → slice_get P.tables k ≡ Some t → RefcountsAreExact P.pool P.tables
        → AreFreeEmpty P.pool.places → (sets : List (List ℕ × Datum)) (condition : Option Formula)
        (after : List Row × Pool)
        → updated (may_update t.name t.columns sets) P.pool t sets condition ≡ Ok after
        → (stored : List Row) → IsStored t.columns after.0 stored
        → ReplacesTableRows P k t stored after.1 }
    ensures deleted { (letters : CaseTable) (tree : Tree) (P : PackageContent)
        → TreeStoresRest letters tree P
        → (k : ℕ) (t : Table) → slice_get P.tables k ≡ Some t → RefcountsAreExact P.pool P.tables
        → AreFreeEmpty P.pool.places → is_system t.name ≡ false → (may : Bool)
        (condition : Option Formula) (after : List Row × Pool)
        → deleted may P.pool t condition ≡ Ok after → (stored : List Row)
        → IsStored t.columns after.0 stored → ReplacesTableRows P k t stored after.1 }
{}

/// The rows that they leave come back from their bytes.
pub fn updated_and_deleted_rows_come_back()
    ensures updated { (letters : CaseTable) (tree : Tree) (P : PackageContent)
        → TreeStoresRest letters tree P
        → (k : ℕ) (t : Table) → slice_get P.tables k ≡ Some t → RefcountsAreExact P.pool P.tables
        → (may : Bool) (sets : List (List ℕ × Datum)) (condition : Option Formula)
        (after : List Row × Pool) → updated may P.pool t sets condition ≡ Ok after
        → AreRowsWritable P.pool.long t.columns after.0
        → All (λ row. IsTrue (list_all has_place row)) after.0 → (stored : List Row)
        → IsStored t.columns after.0 stored → RowsRoundTrip P.pool.long t.columns stored }
    ensures deleted { (letters : CaseTable) (tree : Tree) (P : PackageContent)
        → TreeStoresRest letters tree P
        → (k : ℕ) (t : Table) → slice_get P.tables k ≡ Some t → RefcountsAreExact P.pool P.tables
        → (may : Bool) (condition : Option Formula) (after : List Row × Pool)
        → deleted may P.pool t condition ≡ Ok after → AreRowsWritable P.pool.long t.columns after.0
        → All (λ row. IsTrue (list_all has_place row)) after.0 → (stored : List Row)
        → IsStored t.columns after.0 stored → RowsRoundTrip P.pool.long t.columns stored }
{}
