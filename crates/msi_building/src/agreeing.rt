//! Whether two packages say the same.
ghost use Rattle.cfb.specs.Views.{file_case_table};
ghost use Rattle.msi.specs.Opened.{file_in, OnlyReadsPackage, PackageHasContent};
ghost use Rattle.msi_building.specs.Agreeing.{Agree, TableAgrees};
ghost use Rattle.msi_building.specs.Saying.{facts_of};
ghost use Rattle.msi_spec.specs.Calls.{table_names};
ghost use Rattle.msi_spec.specs.Package.{PackageContent};
ghost use Rattle.msi_spec.specs.Streams.{stream_names, stream_read};
ghost use Rattle.msi_tables.specs.Table.{row_data, table_named, Table};
ghost use Rattle.msi_values.specs.Datum.{data_of};
ghost use Rattle.std.specs.List.Sorted.{IsPermutation};
ghost use Rattle.std.specs.Prelude.{◌≡◌, All, IfOk, IsTrue, Some, map, string_bytes};

use crate::same::{are_same_columns, are_same_names, are_same_properties, are_same_rows};
use cfb_medium::{Error, MemoryMedium};
use msi::Package;
use msi_copies::{all_values, names_of_streams, names_of_tables};
use msi_query::Select;
use msi_texts::CodePage;
use msi_values::Value;
use std::alloc::Global;

/// Whether two packages have the same code page, tables with their columns and rows, summary, and streams with their bytes.
pub(crate) fn agree(
    alloc: Global,
    one: &mut Package<MemoryMedium>,
    other: &mut Package<MemoryMedium>,
) -> Result<bool, Error>
    ensures same { (P : PackageContent) (Q : PackageContent) → PackageHasContent one.old P
        → PackageHasContent other.old Q → IfOk result (λ yes. IsTrue yes
        → Agree (file_case_table (file_in one.old)) P (file_case_table (file_in other.old)) Q) }
    ensures reads { OnlyReadsPackage one.old one.new }
    ensures reads_other { OnlyReadsPackage other.old other.new }
{
    if !have_same_facts(one, other) {
        return Ok(false);
    }
    if !have_same_tables(alloc, one, other)? {
        return Ok(false);
    }
    have_same_streams(alloc, one, other)
}

// Whether they have the same code page, and the same properties of the summary.
fn have_same_facts(one: &Package<MemoryMedium>, other: &Package<MemoryMedium>) -> bool
    ensures { (P : PackageContent) (Q : PackageContent) → PackageHasContent one.now P
        → PackageHasContent other.now Q → IsTrue result
        → (Q.pool.page ≡ P.pool.page) × (Q.summary.values ≡ P.summary.values) }
{
    has_page(other, one.database_codepage()) && have_same_properties(one, other)
}

// Whether it has this code page.
fn has_page(it: &Package<MemoryMedium>, page: CodePage) -> bool
    ensures { (P : PackageContent) → PackageHasContent it.now P → IsTrue result
        → P.pool.page ≡ page }
{
    it.database_codepage() == page
}

fn have_same_properties(one: &Package<MemoryMedium>, other: &Package<MemoryMedium>) -> bool
    ensures { (P : PackageContent) (Q : PackageContent) → PackageHasContent one.now P
        → PackageHasContent other.now Q → IsTrue result
        → Q.summary.values ≡ P.summary.values }
{
    are_same_properties(
        other.summary_info().properties(),
        one.summary_info().properties(),
    )
}

// Whether they have the same tables.
fn have_same_tables(
    alloc: Global,
    one: &mut Package<MemoryMedium>,
    other: &mut Package<MemoryMedium>,
) -> Result<bool, Error>
    ensures same { (P : PackageContent) (Q : PackageContent) → PackageHasContent one.old P
        → PackageHasContent other.old Q → IfOk result (λ yes. IsTrue yes
        → (table_names Q ≡ table_names P) × All (TableAgrees P Q) (table_names P)) }
    ensures reads { OnlyReadsPackage one.old one.new }
    ensures reads_other { OnlyReadsPackage other.old other.new }
{
    let names = names_of_tables(alloc, one.tables()?)?;
    if !has_tables_of(alloc, other, &names)? {
        return Ok(false);
    }
    are_same_tables(alloc, one, other, &names)
}

// Whether its tables are those of these names.
fn has_tables_of(alloc: Global, it: &Package<MemoryMedium>, names: &[String]) -> Result<bool, Error>
    ensures { (P : PackageContent) → PackageHasContent it.now P → IfOk result (λ yes.
        IsTrue yes → table_names P ≡ map string_bytes names.now) }
{
    let found = names_of_tables(alloc, it.tables()?)?;
    Ok(are_same_names(&found, names))
}

fn are_same_tables(
    alloc: Global,
    one: &mut Package<MemoryMedium>,
    other: &mut Package<MemoryMedium>,
    names: &[String],
) -> Result<bool, Error>
    ensures same { (P : PackageContent) (Q : PackageContent) → PackageHasContent one.old P
        → PackageHasContent other.old Q → IfOk result (λ yes. IsTrue yes
        → All (TableAgrees P Q) (map string_bytes names.now)) }
    ensures reads { OnlyReadsPackage one.old one.new }
    ensures reads_other { OnlyReadsPackage other.old other.new }
{
    for name in names {
        if !is_same_table(alloc, one, other, name)? {
            return Ok(false);
        }
    }
    Ok(true)
}

fn is_same_table(
    alloc: Global,
    one: &mut Package<MemoryMedium>,
    other: &mut Package<MemoryMedium>,
    name: &str,
) -> Result<bool, Error>
    ensures same { (P : PackageContent) (Q : PackageContent) → PackageHasContent one.old P
        → PackageHasContent other.old Q
        → IfOk result (λ yes. IsTrue yes → TableAgrees P Q name.now) }
    ensures reads { OnlyReadsPackage one.old one.new }
    ensures reads_other { OnlyReadsPackage other.old other.new }
{
    if !have_same_columns(one, other, name) {
        return Ok(false);
    }
    have_same_rows(alloc, one, other, name)
}

// Whether a table has the same columns in both.
fn have_same_columns(one: &Package<MemoryMedium>, other: &Package<MemoryMedium>, name: &str) -> bool
    ensures { (P : PackageContent) (Q : PackageContent) → PackageHasContent one.now P
        → PackageHasContent other.now Q → IsTrue result → (table : Table) × (found : Table)
        × (table_named P.tables name.now ≡ Some table)
        × (table_named Q.tables name.now ≡ Some found)
        × (map facts_of found.columns ≡ map facts_of table.columns) }
{
    let Some(table) = one.get_table(name) else {
        return false;
    };
    let Some(found) = other.get_table(name) else {
        return false;
    };
    are_same_columns(found.columns(), table.columns())
}

// Whether a table has the same rows in both, in any order.
fn have_same_rows(
    alloc: Global,
    one: &mut Package<MemoryMedium>,
    other: &mut Package<MemoryMedium>,
    name: &str,
) -> Result<bool, Error>
    ensures same { (P : PackageContent) (Q : PackageContent) (table : Table) (found : Table)
        → PackageHasContent one.old P → PackageHasContent other.old Q
        → table_named P.tables name.now ≡ Some table
        → table_named Q.tables name.now ≡ Some found → IfOk result (λ yes. IsTrue yes
        → IsPermutation (map (row_data Q.pool) found.rows)
        (map (row_data P.pool) table.rows)) }
    ensures reads { OnlyReadsPackage one.old one.new }
    ensures reads_other { OnlyReadsPackage other.old other.new }
{
    let rows = sorted_rows(alloc, one, name)?;
    let others = sorted_rows(alloc, other, name)?;
    Ok(are_same_rows(&others, &rows))
}

// The rows of a table in their order by values.
fn sorted_rows(
    alloc: Global,
    it: &mut Package<MemoryMedium>,
    name: &str,
) -> Result<Vec<Vec<Value>>, Error>
    ensures sorted { (P : PackageContent) (table : Table) → PackageHasContent it.old P
        → table_named P.tables name.now ≡ Some table → IfOk result (λ rows.
        IsPermutation (map (row_data P.pool) table.rows)
        (map (λ row. data_of row.items) rows.items)) }
    ensures reads { OnlyReadsPackage it.old it.new }
{
    let select = Select::table(alloc, name)?;
    let mut rows = all_values(alloc, it.select_rows(&select)?)?;
    rows.sort()?;
    Ok(rows)
}

// Whether they have the same streams.
fn have_same_streams(
    alloc: Global,
    one: &mut Package<MemoryMedium>,
    other: &mut Package<MemoryMedium>,
) -> Result<bool, Error>
    ensures same { (P : PackageContent) (Q : PackageContent) → PackageHasContent one.old P
        → PackageHasContent other.old Q → IfOk result (λ yes. IsTrue yes
        → (stream_names (file_case_table (file_in other.old)) Q
        ≡ stream_names (file_case_table (file_in one.old)) P)
        × All (λ name. stream_read (file_case_table (file_in other.old)) Q name
        ≡ stream_read (file_case_table (file_in one.old)) P name)
        (stream_names (file_case_table (file_in one.old)) P)) }
    ensures reads { OnlyReadsPackage one.old one.new }
    ensures reads_other { OnlyReadsPackage other.old other.new }
{
    let names = names_of_streams(alloc, one.streams()?)?;
    if !has_streams_of(alloc, other, &names)? {
        return Ok(false);
    }
    are_same_streams(one, other, &names)
}

// Whether its streams are those of these names.
fn has_streams_of(
    alloc: Global,
    it: &Package<MemoryMedium>,
    names: &[String],
) -> Result<bool, Error>
    ensures { (P : PackageContent) → PackageHasContent it.now P → IfOk result (λ yes.
        IsTrue yes → stream_names (file_case_table (file_in it.now)) P
        ≡ map string_bytes names.now) }
{
    let found = names_of_streams(alloc, it.streams()?)?;
    Ok(are_same_names(&found, names))
}

fn are_same_streams(
    one: &mut Package<MemoryMedium>,
    other: &mut Package<MemoryMedium>,
    names: &[String],
) -> Result<bool, Error>
    ensures same { (P : PackageContent) (Q : PackageContent) → PackageHasContent one.old P
        → PackageHasContent other.old Q → IfOk result (λ yes. IsTrue yes
        → All (λ name. stream_read (file_case_table (file_in other.old)) Q name
        ≡ stream_read (file_case_table (file_in one.old)) P name)
        (map string_bytes names.now)) }
    ensures reads { OnlyReadsPackage one.old one.new }
    ensures reads_other { OnlyReadsPackage other.old other.new }
{
    for name in names {
        if !is_same_stream(one, other, name)? {
            return Ok(false);
        }
    }
    Ok(true)
}

fn is_same_stream(
    one: &mut Package<MemoryMedium>,
    other: &mut Package<MemoryMedium>,
    name: &str,
) -> Result<bool, Error>
    ensures same { (P : PackageContent) (Q : PackageContent) → PackageHasContent one.old P
        → PackageHasContent other.old Q → IfOk result (λ yes. IsTrue yes
        → stream_read (file_case_table (file_in other.old)) Q name.now
        ≡ stream_read (file_case_table (file_in one.old)) P name.now) }
    ensures reads { OnlyReadsPackage one.old one.new }
    ensures reads_other { OnlyReadsPackage other.old other.new }
{
    let bytes = one.read_stream(name)?.into_bytes();
    let found = other.read_stream(name)?.into_bytes();
    Ok(found == bytes)
}
