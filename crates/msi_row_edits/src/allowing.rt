//! Which updates may change a table that describes others.
ghost use Rattle.cfb_medium.specs.declared.error.Error.TheVariants.{Memory};
ghost use Rattle.std.specs.List.{list_all};
ghost use Rattle.std.specs.Prelude.{◌≡◌, ◌&&◌, ◌==◌, bytes_eq, cond, IfErr, IfOk};
ghost use Rattle.std.specs.Rc.{rc_value};
ghost use Rattle.msi_changes.specs.Changes.{is_valid_set};
ghost use Rattle.msi_changes.specs.Said.{update_condition, update_sets};
ghost use Rattle.msi_columns.specs.Column.{column_place};
ghost use Rattle.msi_columns.specs.Held.{column_of, columns_of};
ghost use Rattle.msi_row_edits.specs.Allowed.{closed, closed_from, IsAllowed};
ghost use Rattle.msi_expr.specs.Conditions.{knows_condition};
ghost use Rattle.msi_spec.specs.Calls.{is_column_at, is_system};
ghost use Rattle.msi_tables.specs.Held.{heading_of};
ghost use Rattle.msi_tables.specs.Schema.{validation_name};

use cfb_medium::Error;
use msi_changes::Update;
use msi_pool::StringPool;
use msi_tables::{Column, Table};
use std::alloc::Global;
use std::rc::Rc;

// Where `_Validation` has its descriptions, by which nothing is read.
const DESCRIPTIONS: usize = 9;

/// Whether an update may change this table: it describes no others, or it is `_Validation` and its descriptions alone are set. The one
/// error is `Memory`.
pub(crate) fn may_update(
    alloc: Global,
    table: &Rc<Table>,
    pool: &StringPool,
    update: &Update,
) -> Result<bool, Error>
    ensures ok { IfOk result (IsAllowed (heading_of (rc_value table.now)) (update_sets update.now)
        (update_condition update.now)) }
    ensures errors { IfErr result (λ e. e ≡ Memory) }
{
    let name = table.name();
    if !is_system(name) {
        return Ok(true);
    }
    if !is_validation(name) {
        return Ok(false);
    }
    sets_descriptions(alloc, table, pool, update)
}

/// Whether the table of this name describes others.
pub(crate) fn is_system(name: &str) -> bool
    ensures { result ≡ is_system name.now }
{
    name == "_Tables" || name == "_Columns" || name == "_Validation"
}

// Whether it is `_Validation`.
fn is_validation(name: &str) -> bool
    ensures { result ≡ bytes_eq name.now validation_name }
{
    name == "_Validation"
}

// Whether the update is one of the tenth column alone, which takes its values. An update doesn't tell its columns, so it is tried on a
// table without rows, of which the tenth column alone takes any value. The one error is `Memory`.
fn sets_descriptions(
    alloc: Global,
    table: &Table,
    pool: &StringPool,
    update: &Update,
) -> Result<bool, Error>
    ensures ok { IfOk result (λ sets. sets
        ≡ (list_all (is_valid_set (heading_of table.now).columns) (update_sets update.now)
        && knows_condition (heading_of table.now).columns (update_condition update.now)
        && list_all (λ s. is_column_at 9 (column_place (heading_of table.now).columns s.0))
        (update_sets update.now))) }
    ensures errors { IfErr result (λ e. e ≡ Memory) }
{
    let columns = closed_columns(alloc, table.columns())?;
    let closed = Table::new(alloc, table.name(), columns, table.long_string_refs())?;
    if let Err(error) = update.prepare(alloc, &closed, Vec::new(alloc), pool) {
        return match error {
            Error::Memory => Err(Error::Memory),
            _ => Ok(false),
        };
    }
    Ok(true)
}

// Columns of the same names, of which the tenth alone takes values.
fn closed_columns(alloc: Global, columns: &[Column]) -> Result<Vec<Column>, Error>
    ensures ok { IfOk result
        (λ all. columns_of all.items ≡ closed_from 0 (columns_of columns.now)) }
    ensures errors { IfErr result (λ e. e ≡ Memory) }
{
    let mut all = Vec::new(alloc);
    for column in columns {
        all.push(column_at(alloc, all.len(), column)?)?;
    }
    Ok(all)
}

// The column, which takes no value but at the tenth place.
fn column_at(alloc: Global, place: usize, column: &Column) -> Result<Column, Error>
    ensures ok { IfOk result (λ it. column_of it
        ≡ cond (place == 9) (column_of column.now) (closed (column_of column.now))) }
    ensures errors { IfErr result (λ e. e ≡ Memory) }
{
    if place == DESCRIPTIONS {
        return column.clone(alloc);
    }
    Ok(Column::build(alloc, column.name())?.range(1, 0).int16())
}
