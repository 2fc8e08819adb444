//! Whether the parts in memory are as a sound package has them.
ghost use Rattle.std.specs.Prelude.{◌≡◌, ◌↔◌, map, IfSome, IsTrue};
ghost use Rattle.std.specs.List.{list_all};
ghost use Rattle.std.specs.Rc.{rc_value};
ghost use Rattle.msi_columns.specs.Held.{columns_of};
ghost use Rattle.msi_spec.specs.Sound.{is_free_table_name};
ghost use Rattle.msi_parts.specs.Held.{AreWell};
ghost use Rattle.msi_parts.specs.Judged.{are_free_names, heading_named, IsUsual};
ghost use Rattle.msi_tables.specs.Held.{heading_of};
ghost use Rattle.msi_tables.specs.Rows.{kinds_of};
ghost use Rattle.msi_tables.specs.Schema.{validation_name};

use crate::finding::table_named;
use crate::parts::PackageParts;
use msi_columns::{Column, ColumnType};
use msi_tables::Table;
use std::rc::Rc;

// The types of the columns of _Validation.
const VALIDATION_TYPES: [ColumnType; 10] = [
    ColumnType::Str(32),
    ColumnType::Str(32),
    ColumnType::Str(4),
    ColumnType::Int32,
    ColumnType::Int32,
    ColumnType::Str(255),
    ColumnType::Int16,
    ColumnType::Str(32),
    ColumnType::Str(255),
    ColumnType::Str(255),
];

// Which columns of _Validation are keys.
const VALIDATION_KEYS: [bool; 10] = [
    true, true, false, false, false, false, false, false, false, false,
];

/// Whether what memory has is as a sound package has it: texts of pool and summary give back their bytes, and the summary has one
/// section; free places of the pool are empty; names of tables are identifiers that can name streams, and none of the pool's two; and
/// `_Validation`, where it is a table, has its ten types and two keys.
pub fn are_well(parts: &PackageParts) -> bool
    ensures { IsTrue result ↔ AreWell parts.now }
{
    if !parts.gives_back {
        return false;
    }
    if !parts.summary.texts_give_back() {
        return false;
    }
    if parts.summary.num_sections() != 1 {
        return false;
    }
    if !parts.pool.are_free_empty() {
        return false;
    }
    if !are_free_names(&parts.tables) {
        return false;
    }
    is_validation_usual(&parts.tables)
}

/// Whether each table's name is an identifier that can name a stream, and is none of the pool's two, `_StringPool` and `_StringData`.
/// It takes no memory.
pub fn are_free_names(tables: &[Rc<Table>]) -> bool
    ensures { result ≡ are_free_names (map (λ t. heading_of (rc_value t)) tables.now) }
{
    have_free_names(tables)
}

// The same, told by the tables where they stand.
fn have_free_names(tables: &[Rc<Table>]) -> bool
    ensures { result ≡ list_all (λ t. is_free_table_name (heading_of (rc_value t)).name)
        tables.now }
{
    tables.iter().all(|table| is_free_name(table.name()))
}

// The same of one name.
fn is_free_name(name: &str) -> bool
    ensures { result ≡ is_free_table_name name.now }
{
    Table::is_valid_name(name) && name != "_StringPool" && name != "_StringData"
}

/// Whether `_Validation`, where it is among the tables, has its ten types and its two keys. It takes no memory.
pub fn is_validation_usual(tables: &[Rc<Table>]) -> bool
    ensures { IsTrue result ↔ IfSome
        (heading_named (map (λ t. heading_of (rc_value t)) tables.now) validation_name) IsUsual }
{
    match table_named(tables, "_Validation") {
        Some(table) => is_usual(table),
        None => true,
    }
}

// Whether a table has the types and the keys of _Validation.
fn is_usual(table: &Table) -> bool
    ensures { IsTrue result ↔ IsUsual (heading_of table.now) }
{
    if !have_types(table.columns(), &VALIDATION_TYPES) {
        return false;
    }
    have_keys(table.columns(), &VALIDATION_KEYS)
}

// Whether columns have these types.
fn have_types(columns: &[Column], types: &[ColumnType]) -> bool
    ensures { IsTrue result ↔ (kinds_of (columns_of columns.now) ≡ types.now) }
{
    if columns.len() != types.len() {
        return false;
    }
    for place in 0..types.len() {
        if !is_type(columns[place].coltype(), types[place]) {
            return false;
        }
    }
    true
}

// Whether two types are one.
fn is_type(found: ColumnType, wanted: ColumnType) -> bool
    ensures { IsTrue result ↔ (found ≡ wanted) }
{
    found == wanted
}

// Whether these of columns are keys.
fn have_keys(columns: &[Column], keys: &[bool]) -> bool
    ensures { IsTrue result ↔ (map (λ c. c.key) (columns_of columns.now) ≡ keys.now) }
{
    if columns.len() != keys.len() {
        return false;
    }
    for place in 0..keys.len() {
        if columns[place].is_primary_key() != keys[place] {
            return false;
        }
    }
    true
}
