//! What stands above the rows.
ghost use Rattle.std.specs.Prelude.{◌≡◌, length, map, IfOk, IsErr};
ghost use Rattle.idt_tables.specs.HeadingsOf.{heading_of};
ghost use Rattle.idt_tables.specs.Tables.{kind_of};
ghost use Rattle.idt_imports.specs.Columns.{HasColumns, is_among};

use crate::columns::IdtColumn;
use crate::faults::{Refusal, Wanted, wrong};
use crate::texts::own;
use idt_tables::{ColumnType, Heading, Letter, parts_of, read_type};
use msi_texts::Category;
use std::alloc::Global;
use std::collections::BTreeMap;

// So many columns has a table at most.
const MOST: usize = 32;

/// The columns of a heading, its keys marked; or the first place that is wrong. The third line has so many cells.
pub(crate) fn columns_of(
    alloc: Global,
    heading: &Heading<'_>,
    cells: usize,
) -> Result<Vec<IdtColumn>, Refusal>
    ensures { IfOk result (λ columns. HasColumns columns.items (heading_of heading.now)) }
{
    let (names, types) = (heading.names.len(), heading.types.len());
    if types != names {
        return wrong(1, types.min(names), Wanted::Cells(types, names));
    }
    check_columns(alloc, heading)?;
    check_keys(heading, cells)?;
    marked_columns(alloc, heading)
}

// The same, where each name has a type.
fn marked_columns(alloc: Global, heading: &Heading<'_>) -> Result<Vec<IdtColumn>, Refusal>
    requires { length heading.now.names.items ≡ length heading.now.types.items }
    ensures { IfOk result (λ columns. HasColumns columns.items (heading_of heading.now)) }
{
    let mut columns = Vec::new(alloc);
    for (at, name) in heading.names.iter().enumerate() {
        columns.push(IdtColumn {
            name: own(alloc, name)?,
            coltype: heading.types[at],
            is_key: is_among(&heading.keys, name),
        })?;
    }
    Ok(columns)
}

// Whether a name is one of these.
fn is_among(names: &[&str], name: &str) -> bool
    ensures { result ≡ is_among (map (λ n. n.now) names.now) name.now }
{
    names.contains(&name)
}

// Whether a table or a column can have this name.
fn is_name(name: &str) -> bool {
    Category::Identifier.validate(name)
}

// Refuses names and types that no columns have.
fn check_columns(alloc: Global, heading: &Heading<'_>) -> Result<(), Refusal> {
    if heading.names.len() > MOST {
        return wrong(0, MOST, Wanted::FewerColumns);
    }
    let mut seen = BTreeMap::new(alloc);
    for (at, name) in heading.names.iter().enumerate() {
        if !is_name(name) {
            return wrong(0, at, Wanted::ColumnName);
        }
        if seen.insert(own(alloc, name)?, at)?.is_some() {
            return wrong(0, at, Wanted::OtherName);
        }
    }
    check_types(&heading.types)
}

fn check_types(types: &[ColumnType]) -> Result<(), Refusal> {
    for (at, coltype) in types.iter().enumerate() {
        if !is_known(*coltype) {
            return wrong(1, at, Wanted::Type);
        }
    }
    Ok(())
}

// Whether a table may have a column of this type.
fn is_known(coltype: ColumnType) -> bool {
    match coltype.letter {
        Letter::Number => coltype.width == 2 || coltype.width == 4,
        Letter::Text | Letter::Localized => coltype.width < 256,
        Letter::Bytes => true,
    }
}

// Refuses a table's name that none has, and keys that are no columns, hold bytes, or stand there twice or not at all.
fn check_keys(heading: &Heading<'_>, cells: usize) -> Result<(), Refusal> {
    let keys = &heading.keys;
    let first = cells.saturating_sub(keys.len());
    if !is_name(heading.table) {
        return wrong(2, first.saturating_sub(1), Wanted::TableName);
    }
    if keys.is_empty() {
        return wrong(2, cells, Wanted::Key);
    }
    if keys.len() > heading.names.len() {
        return wrong(
            2,
            first.saturating_add(heading.names.len()),
            Wanted::KeyName,
        );
    }
    for (at, key) in keys.iter().enumerate() {
        if is_among(&keys[..at], key) || !may_be_key(heading, key) {
            return wrong(2, first.saturating_add(at), Wanted::KeyName);
        }
    }
    Ok(())
}

// Whether a column has this name and holds no bytes.
fn may_be_key(heading: &Heading<'_>, key: &str) -> bool {
    for (at, name) in heading.names.iter().enumerate() {
        if **name == *key {
            return match heading.types.get(at) {
                Some(coltype) => coltype.letter != Letter::Bytes,
                None => false,
            };
        }
    }
    false
}

/// The first type that is none, of lines that are no heading.
pub(crate) fn wrong_types<T>(alloc: Global, types: &str) -> Result<T, Refusal>
    ensures { IsErr result }
{
    for (at, text) in parts_of(alloc, types)?.iter().enumerate() {
        if read_type(text).is_none() {
            return wrong(1, at, Wanted::Type);
        }
    }
    wrong(1, 0, Wanted::Heading)
}
