//! A table of a source with its rows.
ghost use Rattle.cfb_medium.specs.declared.error.Error.TheVariants.{Memory, NotFound};
ghost use Rattle.msi_query.specs.Answered.{answered};
ghost use Rattle.msi_query.specs.Sources.{AnswersOf};
ghost use Rattle.msi_columns.specs.Held.{columns_of};
ghost use Rattle.msi_tables.specs.Held.{heading_of};
ghost use Rattle.msi_texts.specs.Results.{or_refused};
ghost use Rattle.std.specs.Prelude.{◌≡◌, IfErr, IfOk};

use crate::source::TableSource;
use cfb_medium::Error;
use msi_pool::{StringPool, ValueRef};
use msi_tables::{Column, Table};
use std::alloc::Global;

// The table of a name with its rows; its references are as wide as the pool's. `NotFound` where there is none; faults are those
// of the source.
pub(crate) fn stored_table<S: TableSource>(
    alloc: Global,
    source: &mut S,
    pool: &StringPool,
    name: &str,
) -> Result<(Table, Vec<Vec<ValueRef>>), Error>
    ensures answer { AnswersOf (S.has_tables source.old) (S.has_cause source.old source.new)
        answered result (λ tables. or_refused (tables name.now) NotFound) }
    ensures width { IfOk result (λ found. (heading_of found.0).long ≡ pool.now.pool.long) }
    ensures only_reads { S.rests source.old source.new }
{
    let table = match source.table(name) {
        Some(table) => copy_of_table(alloc, table, pool.long_string_refs())?,
        None => return Err(Error::NotFound),
    };
    let rows = source.rows(alloc, name)?;
    Ok((table, rows))
}

// A copy of a table under this width of references.
fn copy_of_table(alloc: Global, table: &Table, long: bool) -> Result<Table, Error>
    ensures ok { IfOk result (λ copy. heading_of copy
        ≡ record (heading_of table.now) { long = long }) }
    ensures errors { IfErr result (λ e. e ≡ Memory) }
{
    let name = String::from_str(alloc, table.name())?;
    let columns = copied_columns(alloc, table.columns())?;
    Ok(Table::from_parts(name, columns, long))
}

// Copies of columns.
fn copied_columns(alloc: Global, columns: &[Column]) -> Result<Vec<Column>, Error>
    ensures ok { IfOk result (λ copies. columns_of copies.items ≡ columns_of columns.now) }
    ensures errors { IfErr result (λ e. e ≡ Memory) }
{
    let mut copies = Vec::new(alloc);
    for column in columns {
        copies.push(column.clone(alloc)?)?;
    }
    Ok(copies)
}
