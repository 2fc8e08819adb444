//! Laws of the definitions, each the contract of a function.
ghost use Rattle.std.specs.List.Sorted.{IsStrictlySortedBy};
ghost use Rattle.std.specs.Prelude.{◌≡◌, ◌+◌, ℕ, List, None, Some, bytes_eq, false, filter, map, not};
ghost use Rattle.msi_changes.specs.Laws.{uses_in};
ghost use Rattle.msi_spec.specs.Calls.{table_put};
ghost use Rattle.msi_spec.specs.Package.{table_name_cmp};
ghost use Rattle.msi_spec.specs.Sound.{refcounts_of};
ghost use Rattle.msi_tables.specs.Table.{table_named, Table};

/// A table that is put among others, of which none has its name: they rise by name still, it is found under its name, the others as
/// before, and its uses of texts stand beside theirs.
pub fn new_tables_are_among_the_others()
    ensures rising { (t : Table) (ts : List Table) → table_named ts t.name ≡ None
        → IsStrictlySortedBy table_name_cmp (map (λ u. u.name) ts)
        → IsStrictlySortedBy table_name_cmp (map (λ u. u.name) (table_put t ts)) }
    ensures found { (t : Table) (ts : List Table) → table_named ts t.name ≡ None
        → table_named (table_put t ts) t.name ≡ Some t }
    ensures beside { (t : Table) (ts : List Table) (name : List ℕ) → bytes_eq t.name name ≡ false
        → table_named (table_put t ts) name ≡ table_named ts name }
    ensures uses { (t : Table) (ts : List Table) (n : ℕ)
        → refcounts_of (table_put t ts) n ≡ uses_in t.rows n + refcounts_of ts n }
{}

/// Without the tables of a name they rise still, none is found under it, and the others are found as before.
pub fn dropped_tables_are_gone()
    ensures rising { (name : List ℕ) (ts : List Table)
        → IsStrictlySortedBy table_name_cmp (map (λ u. u.name) ts)
        → IsStrictlySortedBy table_name_cmp
        (map (λ u. u.name) (filter (λ u. not (bytes_eq u.name name)) ts)) }
    ensures gone { (name : List ℕ) (ts : List Table)
        → table_named (filter (λ u. not (bytes_eq u.name name)) ts) name ≡ None }
    ensures beside { (name : List ℕ) (ts : List Table) (other : List ℕ)
        → bytes_eq name other ≡ false
        → table_named (filter (λ u. not (bytes_eq u.name name)) ts) other ≡ table_named ts other }
{}
