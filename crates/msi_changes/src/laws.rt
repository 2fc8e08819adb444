//! Laws of changed tables, each of a function that does nothing.
ghost use Rattle.cfb_medium.specs.declared.error.Error.TheVariants.{InvalidInput};
ghost use Rattle.msi_expr.specs.Formula.{Formula};
ghost use Rattle.msi_values.specs.Datum.{Datum};
ghost use Rattle.msi_pool.specs.Pool.{Pool};
ghost use Rattle.msi_changes.specs.Laws.{AddsRows, RowsAreCounted, RefcountsMatchRows, KeepsShape, KeepsUses, LeavesRows, SetsCells, StoredAlike};
ghost use Rattle.msi_changes.specs.Changes.{deleted, inserted, updated};
ghost use Rattle.msi_columns.specs.Column.{Column};
ghost use Rattle.msi_tables.specs.Rows.{IsStored, Row};
ghost use Rattle.msi_tables.specs.Table.{IsStoredByKeys, Table};
ghost use Rattle.std.specs.Prelude.{◌≡◌, Bool, Err, IfOk, List, MatchResult, Option, true, false, ℕ};

/// An insert that is accepted adds exactly its rows, and no key stands twice after it, where each text of the stored rows has
/// its use in the pool.
#[tactic(auto, using(crate::proofs::InsertLaw::adds_rows))]
pub fn inserts_add_their_rows()
    ensures { (may : Bool) (pool : Pool) (t : Table) (new_rows : List (List Datum))
        → RowsAreCounted pool t.rows
        → IfOk (inserted may pool t new_rows) (AddsRows pool t new_rows) }
{}

/// An update that is accepted sets exactly its cells, and keys are distinct after it where they were before it or a column of the
/// key is set, where each place of the pool has the uses of the table's cells, beside others. The places have them after it too,
/// and the texts that others use stay.
#[tactic(auto, using(crate::proofs::UpdateLaw::sets_cells))]
pub fn updates_keep_keys_distinct()
    ensures { (may : Bool) (pool : Pool) (t : Table) (sets : List (List ℕ × Datum))
        (condition : Option Formula) (others : ℕ → ℕ)
        → RefcountsMatchRows t.columns others pool t.rows
        → IfOk (updated may pool t sets condition) (λ after. SetsCells pool t sets condition after
        × KeepsUses pool t.columns others after) }
{}

/// A delete that is accepted takes exactly the rows that match, and distinct keys stay distinct, likewise.
#[tactic(auto, using(crate::proofs::DeleteLaw::leaves_rows))]
pub fn deletes_leave_the_other_rows()
    ensures { (may : Bool) (pool : Pool) (t : Table) (condition : Option Formula) (others : ℕ → ℕ)
        → RefcountsMatchRows t.columns others pool t.rows
        → IfOk (deleted may pool t condition) (λ after. LeavesRows pool t condition after
        × KeepsUses pool t.columns others after) }
{}

/// After an insert that is accepted the places have the uses of the table's cells, where they had them before it, and the texts
/// that others use stay. What has its uses so is counted.
#[tactic(auto, using(crate::proofs::InsertUses::keeps_uses))]
pub fn inserts_count_their_texts()
    ensures kept { (may : Bool) (pool : Pool) (t : Table) (new_rows : List (List Datum))
        (others : ℕ → ℕ) → RefcountsMatchRows t.columns others pool t.rows
        → IfOk (inserted may pool t new_rows) (KeepsUses pool t.columns others) }
    ensures counted { (columns : List Column) (others : ℕ → ℕ) (pool : Pool) (rows : List Row)
        → RefcountsMatchRows columns others pool rows → RowsAreCounted pool rows }
{}

/// The order in which rows are stored, after an update or delete and after an insert, changes neither which keys stand twice nor
/// how often texts are used.
#[tactic(auto, using(crate::proofs::Arrangements::stored_alike, crate::proofs::Arrangements::by_keys_alike))]
pub fn stored_rows_keep_keys_distinct()
    ensures stored { (pool : Pool) (t : Table) (stored : List Row)
        → IsStored t.columns t.rows stored → StoredAlike pool t stored }
    ensures by_keys { (pool : Pool) (t : Table) (stored : List Row)
        → IsStoredByKeys pool t.columns t.rows stored → StoredAlike pool t stored }
{}

/// After an insert, an update or a delete that is accepted, rows that can be written are left where they could be written before,
/// and the pool keeps its page, the width of its references, and its free places empty.
pub fn changed_rows_can_be_written()
    ensures inserted { (may : Bool) (pool : Pool) (t : Table) (new_rows : List (List Datum))
        → IfOk (inserted may pool t new_rows) (KeepsShape pool t) }
    ensures updated { (may : Bool) (pool : Pool) (t : Table) (sets : List (List ℕ × Datum))
        (condition : Option Formula)
        → IfOk (updated may pool t sets condition) (KeepsShape pool t) }
    ensures deleted { (may : Bool) (pool : Pool) (t : Table) (condition : Option Formula)
        → IfOk (deleted may pool t condition) (KeepsShape pool t) }
{}

/// Where a table may not be changed, an insert is refused as it else would be, and as `InvalidInput` where it else would be
/// accepted. So the answer can be told from an insert into a copy.
#[tactic(auto, using(crate::proofs::Refused::refused_likewise))]
pub fn forbidden_inserts_are_refused_likewise()
    ensures { (pool : Pool) (t : Table) (new_rows : List (List Datum))
        → MatchResult (inserted true pool t new_rows)
        (λ after. inserted false pool t new_rows ≡ Err InvalidInput)
        (λ e. inserted false pool t new_rows ≡ Err e) }
{}
