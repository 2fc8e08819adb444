//! Whether a table of a name with these columns can be made.
ghost use Rattle.std.specs.Prelude.{◌≡◌, ◌==◌, ◌&&◌, ◌||◌, bytes_eq, length, nat_le, not, string_bytes};
ghost use Rattle.std.specs.List.{list_all, list_any};
ghost use Rattle.msi_columns.specs.Column.{are_valid, is_binary, length_kept};
ghost use Rattle.msi_columns.specs.Held.{column_of, columns_of};
ghost use Rattle.msi_table_edits.specs.Testing.{can_be_kept, has_limits, may_have_columns};
ghost use Rattle.msi_spec.specs.Calls.{is_kept, names_distinct};
ghost use Rattle.msi_spec.specs.Package.{data_name, pool_name};
ghost use Rattle.msi_pool.specs.Refs.{value_at};
ghost use Rattle.msi_tables.specs.Schema.{is_for, is_text};
ghost use Rattle.msi_tables.specs.Table.{is_valid_table_name, row_data};
ghost use Rattle.msi_texts.specs.Category.{is_identifier};
ghost use Rattle.msi_values.specs.Datum.{data_of};

use msi_columns::{Column, ColumnType};
use msi_pool::{StringPool, ValueRef};
use msi_tables::Table;
use msi_texts::Category;
use msi_values::{BorrowedValue, Value};

/// Whether a table can have the name and the columns: an identifier that can name a stream; at most 32 columns, one of them of the key,
/// with different identifiers as their names.
pub(crate) fn may_have_columns(name: &str, columns: &[Column]) -> bool
    ensures { result ≡ may_have_columns name.now (columns_of columns.now) }
{
    pass_all(name, columns)
}

// The tests one after the other.
fn pass_all(name: &str, columns: &[Column]) -> bool
    ensures { result ≡ (is_valid_table_name name.now && not (length columns.now == 0)
        && nat_le (length columns.now) 32 && list_any (λ c. (column_of c).key) columns.now
        && list_all (λ c. is_identifier (column_of c).name) columns.now
        && names_distinct (columns_of columns.now)) }
{
    Table::is_valid_name(name)
        && !columns.is_empty()
        && columns.len() <= 32
        && has_key(columns)
        && are_identifiers(columns)
        && are_apart(columns)
}

// Whether one of the columns belongs to the key.
fn has_key(columns: &[Column]) -> bool
    ensures { result ≡ list_any (λ c. (column_of c).key) columns.now }
{
    columns.iter().any(|column| column.is_primary_key())
}

// Whether the name of each is an identifier.
fn are_identifiers(columns: &[Column]) -> bool
    ensures { result ≡ list_all (λ c. is_identifier (column_of c).name) columns.now }
{
    columns
        .iter()
        .all(|column| Category::Identifier.validate(column.name()))
}

// Whether no two have one name.
fn are_apart(columns: &[Column]) -> bool
    ensures { result ≡ names_distinct (columns_of columns.now) }
{
    match columns {
        [] => true,
        [column, columns @ ..] => !has_name(columns, column.name()) && are_apart(columns),
    }
}

// Whether one of the columns has the name.
fn has_name(columns: &[Column], name: &str) -> bool
    ensures { result ≡ list_any (λ c. bytes_eq c.name name.now) (columns_of columns.now) }
{
    are_any_named(columns, name)
}

// The same of the columns where they stand.
fn are_any_named(columns: &[Column], name: &str) -> bool
    ensures { result ≡ list_any (λ c. bytes_eq (column_of c).name name.now) columns.now }
{
    columns.iter().any(|column| column.name() == name)
}

/// Whether a table of the name isn't one of the pool's two streams, and each column comes back as it was from the rows that describe it.
pub(crate) fn can_be_kept(name: &str, columns: &[Column]) -> bool
    ensures { result ≡ can_be_kept name.now (columns_of columns.now) }
{
    if is_of_pool(name) {
        return false;
    }
    are_kept(columns)
}

// Whether it is the name of one of the pool's two streams.
fn is_of_pool(name: &str) -> bool
    ensures { result ≡ (bytes_eq name.now pool_name || bytes_eq name.now data_name) }
{
    name == "_StringPool" || name == "_StringData"
}

// Whether each column comes back as it was.
fn are_kept(columns: &[Column]) -> bool
    ensures { result ≡ list_all (λ c. is_kept (column_of c)) columns.now }
{
    columns.iter().all(|column| comes_back(column))
}

// The same of one: its length fits a byte, none of its choices has a semicolon, and it isn't a binary column of the key or a localizable one.
fn comes_back(column: &Column) -> bool
    ensures { result ≡ is_kept (column_of column.now) }
{
    is_length_kept(column.coltype())
        && !has_semicolon(column)
        && !(is_binary(column.coltype()) && (column.is_primary_key() || column.is_localizable()))
}

// Whether the bits of a type can hold the length of its texts.
fn is_length_kept(kind: ColumnType) -> bool
    ensures { result ≡ length_kept kind }
{
    match kind {
        ColumnType::Str(length) => length <= 255,
        ColumnType::Int16 | ColumnType::Int32 | ColumnType::Binary => true,
    }
}

// Whether it is the type of binary streams.
fn is_binary(kind: ColumnType) -> bool
    ensures { result ≡ is_binary kind }
{
    match kind {
        ColumnType::Binary => true,
        ColumnType::Int16 | ColumnType::Int32 | ColumnType::Str(_) => false,
    }
}

// Whether a semicolon stands in one of the texts that it takes.
fn has_semicolon(column: &Column) -> bool
    ensures { result ≡ list_any (list_any (λ b. b == 59)) (column_of column.now).choices }
{
    match column.enum_values() {
        Some(texts) => have_semicolon(texts),
        None => false,
    }
}

// Whether one stands in one of these texts.
fn have_semicolon(texts: &[String]) -> bool
    ensures { result ≡ list_any (λ text. list_any (λ b. b == 59) (string_bytes text)) texts.now }
{
    texts.iter().any(|text| text.as_bytes().contains(&b';'))
}

/// Whether each row has a value for each column, and each column takes its own.
pub(crate) fn are_rows(columns: &[Column], rows: &[Vec<Value>]) -> bool
    ensures { result
        ≡ list_all (λ row. are_valid (columns_of columns.now) (data_of row.items)) rows.now }
{
    rows.iter().all(|row| is_row(columns, row))
}

// The same of one row.
fn is_row(columns: &[Column], values: &[Value]) -> bool
    ensures { result ≡ are_valid (columns_of columns.now) (data_of values.now) }
{
    match columns {
        [] => values.is_empty(),
        [column, columns @ ..] => match values {
            [] => false,
            [value, values @ ..] => column.is_valid_value(value) && is_row(columns, values),
        },
    }
}

/// Whether one of these rows of _Validation speaks of one of the columns of a table.
pub(crate) fn are_described(
    pool: &StringPool,
    rows: &[Vec<ValueRef>],
    name: &str,
    columns: &[Column],
) -> bool
    ensures { result ≡ list_any (λ c. has_limits pool.now.pool rows.now name.now
        (column_of c).name) columns.now }
{
    columns
        .iter()
        .any(|column| is_described(pool, rows, name, column.name()))
}

// The same of one column.
#[tactic(auto, unfolding(crate::specs::Testing::has_limits))]
fn is_described(pool: &StringPool, rows: &[Vec<ValueRef>], name: &str, column: &str) -> bool
    ensures { result ≡ has_limits pool.now.pool rows.now name.now column.now }
{
    rows.iter().any(|row| is_for(pool, row, name, column))
}

// Whether a row speaks of a column.
fn is_for(pool: &StringPool, row: &[ValueRef], name: &str, column: &str) -> bool
    ensures { result ≡ is_for name.now column.now (row_data pool.now.pool row.now) }
{
    match row {
        [] => false,
        [_] => false,
        [first, second, ..] => is_text(pool, *first, name) && is_text(pool, *second, column),
    }
}

// Whether a cell is this text.
fn is_text(pool: &StringPool, cell: ValueRef, text: &str) -> bool
    ensures { result ≡ is_text text.now (value_at pool.now.pool cell) }
{
    match cell.as_borrowed(pool) {
        BorrowedValue::Str(other) => other == text,
        BorrowedValue::Null | BorrowedValue::Int(_) | BorrowedValue::Binary => false,
    }
}
