//! Laws of the definitions, each the contract of a function.
ghost use Rattle.std.specs.Prelude.{◌≡◌, ◌∷◌, ◌++◌, [], ℕ, ℤ, List, None, bytes_eq, false, filter, find, is_some, map, not, take, true, IsPermutation};
ghost use Rattle.std.specs.List.{list_all, list_any};
ghost use Rattle.msi_values.specs.Datum.{number, text, Datum};
ghost use Rattle.msi_tables.specs.Schema.{are_keys, begins_with, column_read, columns_in, is_filled, is_for, is_schema, schema_of};
ghost use Rattle.msi_tables.specs.Table.{are_distinct, has_key};
ghost use Rattle.msi_schema.specs.Columns.{column_by, head_in};

/// A column is read from its row of _Columns and the row of _Validation that is for it; a row of another form describes none.
pub fn columns_are_read_by_their_rows()
    ensures whole { (validation : List (List Datum)) (table name : List ℕ) (n bits : ℤ)
        → column_read validation (text table ∷ number n ∷ text name ∷ number bits ∷ [])
        ≡ column_by (find (is_for table name) validation)
        (text table ∷ number n ∷ text name ∷ number bits ∷ []) }
    ensures none { (validation : List (List Datum)) (row : List Datum) → head_in row ≡ None
        → column_read validation row ≡ None }
{}

/// A table's columns stay as they are read where the rows of _Columns and _Validation stand in another order, where rows of other
/// tables are put behind them, and where the rows of another table are taken out.
pub fn columns_stay_beside_other_tables()
    ensures moved { (columns columns' validation validation' : List (List Datum))
        → IsPermutation columns columns' → IsPermutation validation validation'
        → are_distinct (map (take 2) columns) ≡ true
        → are_distinct (map (take 2) validation) ≡ true → (table : List ℕ)
        → columns_in columns' validation' table ≡ columns_in columns validation table }
    ensures added { (columns more validation also : List (List Datum)) (table : List ℕ)
        → list_any (begins_with table) more ≡ false → list_any (begins_with table) also ≡ false
        → columns_in (columns ++ more) (validation ++ also) table
        ≡ columns_in columns validation table }
    ensures taken { (columns validation : List (List Datum)) (table other : List ℕ)
        → bytes_eq table other ≡ false
        → columns_in (filter (λ row. not (begins_with other row)) columns)
        (filter (λ row. not (begins_with other row)) validation) table
        ≡ columns_in columns validation table }
{}

/// Rows that describe tables go on doing so in another order, and with the rows of one more table behind them: a row of _Tables
/// that names it, rows of _Columns and of _Validation that speak of it under keys of their own, and by which it is described; and without the rows of one table.
pub fn schemas_go_on()
    ensures moved { (tables tables' columns columns' validation validation' : List (List Datum))
        → IsPermutation tables tables' → IsPermutation columns columns'
        → IsPermutation validation validation' → is_schema tables columns validation ≡ true
        → is_schema tables' columns' validation' ≡ true }
    ensures grown { (tables columns validation more also : List (List Datum)) (table : List ℕ)
        → is_schema tables columns validation ≡ true
        → list_any (begins_with table) tables ≡ false
        → are_keys (map (take 2) more) ≡ true → list_all (list_all is_filled) more ≡ true
        → list_all (begins_with table) more ≡ true
        → are_keys (map (take 2) also) ≡ true → list_all (begins_with table) also ≡ true
        → list_all (λ key. not (has_key (map (take 2) also) key)) (map (take 2) validation) ≡ true
        → is_some (schema_of (columns ++ more) (validation ++ also) table) ≡ true
        → is_schema (tables ++ (text table ∷ []) ∷ []) (columns ++ more) (validation ++ also)
        ≡ true }
    ensures shrunk { (tables columns validation : List (List Datum)) (table : List ℕ)
        → is_schema tables columns validation ≡ true
        → is_schema (filter (λ row. not (begins_with table row)) tables)
        (filter (λ row. not (begins_with table row)) columns)
        (filter (λ row. not (begins_with table row)) validation) ≡ true }
{}
