//! Laws of the definitions, each the contract of a function.
ghost use Rattle.std.specs.Prelude.{◌≡◌, ◌<◌, ℕ, Bool, List, Some, slice_index};
ghost use Rattle.msi_pool.specs.Pool.{Pool};
ghost use Rattle.msi_columns.specs.Column.{Column};
ghost use Rattle.msi_tables.specs.Rows.{AreRowsWritable, Row, IsStored, ReadBack, kinds_of, rows_of, rows_bytes};
ghost use Rattle.msi_tables.specs.Table.{IsStoredByKeys};
ghost use Rattle.msi_columns.specs.declared.column.ColumnType.{ColumnType};

/// Rows have one stored order; and where they are first listed by their keys, as after an insert, too.
pub fn rows_have_one_stored_order()
    ensures stored { (columns : List Column) (rows one other : List Row) → IsStored columns rows one
        → IsStored columns rows other → one ≡ other }
    ensures by_keys { (pool : Pool) (columns : List Column) (rows one other : List Row)
        → IsStoredByKeys pool columns rows one → IsStoredByKeys pool columns rows other
        → one ≡ other }
{}

/// Rows that are written are read as they were: at most 65536 rows of a table with columns, each with a cell for each
/// column, of whose texts the places take three bytes at most.
pub fn written_rows_are_read()
    ensures { (long : Bool) (kinds : List ColumnType) (rows : List Row) (bytes : List ℕ)
        → ReadBack kinds rows → rows_bytes long kinds rows ≡ Some bytes
        → rows_of long kinds bytes ≡ Some rows }
{}

/// Rows that can be written are: they have bytes. What is read from bytes can be written, and rows that can be written can be
/// in the order in which they are stored too.
pub fn writable_rows_are_written()
    ensures written { (long : Bool) (columns : List Column) (rows : List Row)
        → AreRowsWritable long columns rows
        → (bytes : List ℕ) × (rows_bytes long (kinds_of columns) rows ≡ Some bytes) }
    ensures read { (long : Bool) (columns : List Column) (bytes : List ℕ) (rows : List Row)
        → ((i : ℕ) → slice_index bytes i < 256) → rows_of long (kinds_of columns) bytes ≡ Some rows
        → AreRowsWritable long columns rows }
    ensures stored { (long : Bool) (columns : List Column) (rows stored : List Row)
        → IsStored columns rows stored → AreRowsWritable long columns rows
        → AreRowsWritable long columns stored }
    ensures by_keys { (long : Bool) (pool : Pool) (columns : List Column) (rows stored : List Row)
        → IsStoredByKeys pool columns rows stored → AreRowsWritable long columns rows
        → AreRowsWritable long columns stored }
{}
