//! Whether a package says what it is to say.
ghost use Rattle.cfb.specs.Views.{file_case_table};
ghost use Rattle.msi.specs.Opened.{file_in, OnlyReadsPackage, PackageHasContent};
ghost use Rattle.msi_building.specs.Saying.{facts_of, said_streams, said_tables, SaysPackage, SaysTable};
ghost use Rattle.msi_columns.specs.Held.{columns_of};
ghost use Rattle.msi_props.specs.Held.{pair_in};
ghost use Rattle.msi_spec.specs.Calls.{table_names};
ghost use Rattle.msi_spec.specs.Package.{PackageContent};
ghost use Rattle.msi_spec.specs.Streams.{stream_names, stream_read};
ghost use Rattle.msi_tables.specs.RowsLeft.{rows_left};
ghost use Rattle.msi_tables.specs.Schema.{columns_name, tables_name};
ghost use Rattle.msi_tables.specs.Table.{row_data, table_named, Table};
ghost use Rattle.msi_values.specs.Datum.{data_of};
ghost use Rattle.std.specs.Prelude.{◌≡◌, ◌∷◌, All, IfOk, IsTrue, Ok, Some, map, string_bytes};
ghost use Rattle.std.specs.List.Sorted.{IsPermutation};

use crate::copies::{all_names, copies_of_rows, names_said};
use crate::said::{Said, SaidStream, SaidTable};
use crate::same::{are_same_columns, are_same_names, are_same_properties, are_same_rows};
use cfb_medium::{Error, ReadMedium};
use msi::Package;
use msi_copies::{all_values, names_of_streams, names_of_tables};
use msi_props::PropertyValue;
use msi_query::Select;
use msi_tables::Rows;
use msi_values::Value;
use std::alloc::Global;

/// Whether a package says just this: its code page, its tables with their columns and rows, its summary, its streams with their bytes.
pub(crate) fn says<F: ReadMedium>(
    alloc: Global,
    built: &mut Package<F>,
    said: &Said,
) -> Result<bool, Error>
    ensures says { (P : PackageContent) → PackageHasContent built.old P → IfOk result (λ yes.
        IsTrue yes → SaysPackage (file_case_table (file_in built.old)) P said.now) }
    ensures only_reads { OnlyReadsPackage built.old built.new }
{
    if !has_facts(built, said) {
        return Ok(false);
    }
    if !has_names(alloc, built, said)? {
        return Ok(false);
    }
    if !has_tables(alloc, built, &said.tables)? {
        return Ok(false);
    }
    has_bytes(built, &said.streams)
}

// Whether it has just this code page, and just these properties in its summary.
fn has_facts<F: ReadMedium>(built: &Package<F>, said: &Said) -> bool
    ensures { (P : PackageContent) → PackageHasContent built.now P → IsTrue result
        → (P.pool.page ≡ said.now.codepage)
        × (P.summary.values ≡ map pair_in said.now.properties.items) }
{
    built.database_codepage() == said.codepage && has_properties(built, &said.properties)
}

// Whether its tables and streams are just those of these names.
fn has_names<F: ReadMedium>(alloc: Global, built: &Package<F>, said: &Said) -> Result<bool, Error>
    ensures { (P : PackageContent) → PackageHasContent built.now P → IfOk result (λ yes.
        IsTrue yes → IsPermutation (table_names P)
        (tables_name ∷ columns_name ∷ said_tables said.now.tables.items)
        × IsPermutation (stream_names (file_case_table (file_in built.now)) P)
        (said_streams said.now.streams.items)) }
{
    if !has_table_names(alloc, built, &said.tables)? {
        return Ok(false);
    }
    has_stream_names(alloc, built, &said.streams)
}

// Whether its summary has just these properties.
fn has_properties<F: ReadMedium>(built: &Package<F>, said: &[(u32, PropertyValue)]) -> bool
    ensures { (P : PackageContent) → PackageHasContent built.now P → IsTrue result
        → P.summary.values ≡ map pair_in said.now }
{
    are_same_properties(built.summary_info().properties(), said)
}

// Whether its tables are those of these names and the two that tell of tables.
fn has_table_names<F: ReadMedium>(
    alloc: Global,
    built: &Package<F>,
    said: &[SaidTable],
) -> Result<bool, Error>
    ensures { (P : PackageContent) → PackageHasContent built.now P → IfOk result (λ yes.
        IsTrue yes → IsPermutation (table_names P)
        (tables_name ∷ columns_name ∷ said_tables said.now)) }
{
    let found = names_of_tables(alloc, built.tables()?)?;
    let wanted = all_names(alloc, said)?;
    are_names(found, wanted)
}

// Whether its streams are those of these names.
fn has_stream_names<F: ReadMedium>(
    alloc: Global,
    built: &Package<F>,
    said: &[SaidStream],
) -> Result<bool, Error>
    ensures { (P : PackageContent) → PackageHasContent built.now P → IfOk result (λ yes.
        IsTrue yes → IsPermutation (stream_names (file_case_table (file_in built.now)) P)
        (said_streams said.now)) }
{
    let found = names_of_streams(alloc, built.streams()?)?;
    let wanted = names_said(alloc, said)?;
    are_names(found, wanted)
}

// Whether names are the same in some order.
fn are_names(mut found: Vec<String>, mut wanted: Vec<String>) -> Result<bool, Error>
    ensures { IfOk result (λ yes. IsTrue yes
        → IsPermutation (map string_bytes found.items)
        (map string_bytes wanted.items)) }
{
    found.sort()?;
    wanted.sort()?;
    Ok(are_same_names(&found, &wanted))
}

fn has_tables<F: ReadMedium>(
    alloc: Global,
    built: &mut Package<F>,
    said: &[SaidTable],
) -> Result<bool, Error>
    ensures says { (P : PackageContent) → PackageHasContent built.old P
        → IfOk result (λ yes. IsTrue yes → All (SaysTable P) said.now) }
    ensures only_reads { OnlyReadsPackage built.old built.new }
{
    for table in said {
        if !has_table(alloc, built, table)? {
            return Ok(false);
        }
    }
    Ok(true)
}

fn has_table<F: ReadMedium>(
    alloc: Global,
    built: &mut Package<F>,
    said: &SaidTable,
) -> Result<bool, Error>
    ensures says { (P : PackageContent) → PackageHasContent built.old P
        → IfOk result (λ yes. IsTrue yes → SaysTable P said.now) }
    ensures only_reads { OnlyReadsPackage built.old built.new }
{
    if !has_columns(built, said) {
        return Ok(false);
    }
    has_rows(alloc, built, said)
}

// Whether a table has just these columns.
fn has_columns<F: ReadMedium>(built: &Package<F>, said: &SaidTable) -> bool
    ensures { (P : PackageContent) → PackageHasContent built.now P → IsTrue result
        → (table : Table) × (table_named P.tables (string_bytes said.now.name) ≡ Some table)
        × (map facts_of table.columns ≡ map facts_of (columns_of said.now.columns.items)) }
{
    match built.get_table(&said.name) {
        Some(table) => are_same_columns(table.columns(), &said.columns),
        None => false,
    }
}

// Whether a table has just these rows, in any order.
fn has_rows<F: ReadMedium>(
    alloc: Global,
    built: &mut Package<F>,
    said: &SaidTable,
) -> Result<bool, Error>
    ensures says { (P : PackageContent) (table : Table) → PackageHasContent built.old P
        → table_named P.tables (string_bytes said.now.name) ≡ Some table
        → IfOk result (λ yes. IsTrue yes
        → IsPermutation (map (row_data P.pool) table.rows)
        (map (λ row. data_of row.items) said.now.rows.items)) }
    ensures only_reads { OnlyReadsPackage built.old built.new }
{
    let select = Select::table(alloc, &said.name)?;
    let rows = built.select_rows(&select)?;
    are_rows(alloc, rows, &said.rows)
}

// Whether rows are the same in some order.
fn are_rows(alloc: Global, rows: Rows, said: &[Vec<Value>]) -> Result<bool, Error>
    ensures { IfOk result (λ yes. IsTrue yes
        → IsPermutation (map (λ row. row.values) (rows_left rows))
        (map (λ row. data_of row.items) said.now)) }
{
    let mut found = all_values(alloc, rows)?;
    let mut wanted = copies_of_rows(alloc, said)?;
    found.sort()?;
    wanted.sort()?;
    Ok(are_same_rows(&found, &wanted))
}

// Whether streams have these bytes.
fn has_bytes<F: ReadMedium>(built: &mut Package<F>, said: &[SaidStream]) -> Result<bool, Error>
    ensures says { (P : PackageContent) → PackageHasContent built.old P
        → IfOk result (λ yes. IsTrue yes
        → All (λ s. stream_read (file_case_table (file_in built.old)) P (string_bytes s.name)
        ≡ Ok s.bytes.items) said.now) }
    ensures only_reads { OnlyReadsPackage built.old built.new }
{
    for stream in said {
        if !has_stream(built, stream)? {
            return Ok(false);
        }
    }
    Ok(true)
}

fn has_stream<F: ReadMedium>(built: &mut Package<F>, said: &SaidStream) -> Result<bool, Error>
    ensures says { (P : PackageContent) → PackageHasContent built.old P
        → IfOk result (λ yes. IsTrue yes
        → stream_read (file_case_table (file_in built.old)) P (string_bytes said.now.name)
        ≡ Ok said.now.bytes.items) }
    ensures only_reads { OnlyReadsPackage built.old built.new }
{
    let found = built.read_stream(&said.name)?;
    Ok(found.into_bytes() == said.bytes)
}
