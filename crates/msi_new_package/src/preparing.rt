//! What is written of a new package, before anything is.
ghost use Rattle.std.specs.Prelude.{◌≡◌, [], ◌∷◌, map, true, IfErr, IfOk};
ghost use Rattle.cfb_medium.specs.declared.error.Error.TheVariants.{Memory};
ghost use Rattle.msi_columns.specs.Held.{columns_of};
ghost use Rattle.msi_new_package.specs.New.{system_headings, AreNewBytes, AreTextsCounted};
ghost use Rattle.msi_spec.specs.Calls.{bare_package, title_of};
ghost use Rattle.msi_schema.specs.Headings.{headings_in};
ghost use Rattle.msi_tables.specs.Held.{rows_held};
ghost use Rattle.msi_tables.specs.Schema.{validation_columns, validation_name};
ghost use Rattle.msi_values.specs.Datum.{data_of, text};

use crate::rows::{columns_rows, validation_rows};
use cfb_medium::Error;
use msi_changes::count_rows;
use msi_pool::{StringPool, ValueRef};
use msi_row_edits::bytes_by_keys;
use msi_schema::{columns_columns, tables_columns, validation_columns};
use msi_spec::PackageType;
use msi_summary::SummaryInfo;
use msi_tables::{Column, Table};
use msi_texts::CodePage;
use msi_values::Value;
use std::alloc::Global;
use std::rc::Rc;

// The table that a new package describes.
const VALIDATION: &str = "_Validation";

// The rows of a table.
type Rows = Vec<Vec<ValueRef>>;

/// What a new package has in memory, and the bytes of its three tables' streams.
#[derive(Drop)]
pub(crate) struct NewParts {
    pub(crate) tables: Vec<Rc<Table>>,
    pub(crate) pool: StringPool,
    pub(crate) summary: SummaryInfo,
    pub(crate) columns_bytes: Vec<u8>,
    pub(crate) tables_bytes: Vec<u8>,
    pub(crate) validation_bytes: Vec<u8>,
}

/// The parts of a new package. The one error is `Memory`.
pub(crate) fn new_parts(alloc: Global, kind: PackageType) -> Result<NewParts, Error>
    ensures tables { IfOk result (λ parts. headings_in parts.tables.items ≡ system_headings) }
    ensures summary { IfOk result (λ parts. parts.summary.props ≡ (bare_package kind).summary) }
    ensures bytes { IfOk result (λ parts. AreNewBytes parts.pool.pool parts.columns_bytes.items
        parts.tables_bytes.items parts.validation_bytes.items) }
    ensures modified { IfOk result (λ parts. parts.pool.modified ≡ true) }
    ensures errors { IfErr result (λ e. e ≡ Memory) }
{
    let validation = validation_columns(alloc)?;
    let (pool, columns_rows, tables_rows, validation_rows) = counted_rows(alloc, &validation)?;
    let columns = Table::new(alloc, "_Columns", columns_columns(alloc)?, false)?;
    let tables = Table::new(alloc, "_Tables", tables_columns(alloc)?, false)?;
    let validation = Table::new(alloc, VALIDATION, validation, false)?;
    let columns_bytes = bytes_by_keys(alloc, &columns, &pool, columns_rows)?;
    let tables_bytes = bytes_by_keys(alloc, &tables, &pool, tables_rows)?;
    let validation_bytes = bytes_by_keys(alloc, &validation, &pool, validation_rows)?;
    Ok(NewParts {
        tables: vec![in alloc; columns, tables, validation]?,
        pool,
        summary: new_summary(alloc, kind)?,
        columns_bytes,
        tables_bytes,
        validation_bytes,
    })
}

// The rows that describe _Validation, as cells of _Columns, _Tables and _Validation, and the pool that counts their texts.
fn counted_rows(
    alloc: Global,
    validation: &[Column],
) -> Result<(StringPool, Rows, Rows, Rows), Error>
    requires { columns_of validation.now ≡ validation_columns }
    ensures counted { IfOk result (λ it. AreTextsCounted it.0.pool (rows_held it.1.items)
        (rows_held it.2.items) (rows_held it.3.items)) }
    ensures modified { IfOk result (λ it. it.0.modified ≡ true) }
    ensures errors { IfErr result (λ e. e ≡ Memory) }
{
    let columns = columns_rows(alloc, VALIDATION, validation)?;
    let tables = tables_rows(alloc)?;
    let limits = validation_rows(alloc, VALIDATION, validation)?;
    let mut pool = StringPool::new(alloc, CodePage::Utf8);
    let mut draft = pool.draft();
    let columns = count_rows(alloc, &mut draft, &columns)?;
    let tables = count_rows(alloc, &mut draft, &tables)?;
    let limits = count_rows(alloc, &mut draft, &limits)?;
    let changes = draft.into_changes();
    pool.adopt(changes)?;
    Ok((pool, columns, tables, limits))
}

// The row of _Tables that names _Validation.
fn tables_rows(alloc: Global) -> Result<Vec<Vec<Value>>, Error>
    ensures ok { IfOk result (λ rows. map (λ row. data_of row.items) rows.items
        ≡ (text validation_name ∷ []) ∷ []) }
    ensures errors { IfErr result (λ e. e ≡ Memory) }
{
    let name = Value::Str(String::from_str(alloc, VALIDATION)?);
    let row = vec![in alloc; name]?;
    let rows = vec![in alloc; row]?;
    Ok(rows)
}

// The summary of a new package: its title says what it is.
fn new_summary(alloc: Global, kind: PackageType) -> Result<SummaryInfo, Error>
    ensures ok { IfOk result (λ summary. summary.props ≡ (bare_package kind).summary) }
    ensures errors { IfErr result (λ e. e ≡ Memory) }
{
    let mut summary = SummaryInfo::new(alloc)?;
    summary.set_title(title_of(kind))?;
    Ok(summary)
}

// What the title says.
fn title_of(kind: PackageType) -> &'static str
    ensures { result.now ≡ title_of kind }
{
    match kind {
        PackageType::Installer => "Installation Database",
        PackageType::Patch => "Patch",
        PackageType::Transform => "Transform",
    }
}
