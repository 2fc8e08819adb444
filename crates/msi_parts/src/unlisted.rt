//! Whether _Tables lists the tables that need no listing.
ghost use Rattle.std.specs.Prelude.{◌≡◌, ◌||◌};
ghost use Rattle.std.specs.List.{list_any};
ghost use Rattle.msi_parts.specs.Judged.{list_system};
ghost use Rattle.msi_tables.specs.Held.{rows_held};
ghost use Rattle.msi_tables.specs.Schema.{begins_with, columns_name, tables_name};
ghost use Rattle.msi_tables.specs.Table.{row_data};

use msi_pool::{StringPool, ValueRef};

/// Whether a row's first value names _Tables or _Columns.
pub fn lists_system_table(rows: &[Vec<ValueRef>], pool: &StringPool) -> bool
    ensures { result ≡ list_system pool.now.pool (rows_held rows.now) }
{
    list_system_table(rows, pool)
}

// The same, told by the rows where they stand.
fn list_system_table(rows: &[Vec<ValueRef>], pool: &StringPool) -> bool
    ensures { result ≡ list_any (λ row. begins_with tables_name (row_data pool.now.pool row.items)
        || begins_with columns_name (row_data pool.now.pool row.items)) rows.now }
{
    rows.iter().any(|row| names_system_table(row, pool))
}

// The same of one row.
fn names_system_table(row: &[ValueRef], pool: &StringPool) -> bool
    ensures { result ≡ (begins_with tables_name (row_data pool.now.pool row.now)
        || begins_with columns_name (row_data pool.now.pool row.now)) }
{
    match row {
        [ValueRef::Str(place), ..] => {
            let name = pool.get(*place);
            name == "_Tables" || name == "_Columns"
        }
        _ => false,
    }
}
