//! What stands above the rows of an exported table.
ghost use Rattle.std.specs.Prelude.{◌≡◌, ◌++◌, ◌∷◌, filter, map, if◌then◌else◌, IfErr, IfOk, OnOk, string_bytes};
ghost use Rattle.std.specs.List.{join_with_byte};
ghost use Rattle.cfb_medium.specs.declared.error.Error.TheVariants.{Memory};
ghost use Rattle.msi_columns.specs.Held.{column_of, columns_of};
ghost use Rattle.msi_tables.specs.Held.{heading_of};
ghost use Rattle.msi_export.specs.Exported.{exported_heading, exported_type, letter, width};

use cfb_medium::Error;
use msi_columns::{Column, ColumnType};
use msi_tables::Table;
use std::alloc::Global;

/// Three lines: names, types and keys of a table's columns, as exports have them. The one error is `Memory`.
pub fn heading_lines(alloc: Global, table: &Table) -> Result<Vec<String>, Error>
    ensures ok { IfOk result (λ lines. map string_bytes lines.items
        ≡ exported_heading (heading_of table.now)) }
    ensures errors { IfErr result (λ e. e ≡ Memory) }
{
    let names = names_line(alloc, table.columns())?;
    let types = types_line(alloc, table.columns())?;
    let keys = keys_line(alloc, table.name(), table.columns())?;
    Ok(vec![in alloc; names, types, keys]?)
}

// The names of columns, with tabs between them.
#[tactic(auto, using(crate::proofs::Joined::no_part))]
fn names_line(alloc: Global, columns: &[Column]) -> Result<String, Error>
    ensures ok { IfOk result (λ line. string_bytes line
        ≡ join_with_byte 9 (map (λ c. c.name) (columns_of columns.now))) }
    ensures errors { IfErr result (λ e. e ≡ Memory) }
{
    let mut line = String::new(alloc);
    let mut is_first = true;
    for column in columns {
        push_part(&mut line, is_first, column.name())?;
        is_first = false;
    }
    Ok(line)
}

// The types of columns, with tabs between them.
#[tactic(auto, using(crate::proofs::Joined::no_part))]
fn types_line(alloc: Global, columns: &[Column]) -> Result<String, Error>
    ensures ok { IfOk result (λ line. string_bytes line
        ≡ join_with_byte 9 (map exported_type (columns_of columns.now))) }
    ensures errors { IfErr result (λ e. e ≡ Memory) }
{
    let mut line = String::new(alloc);
    let mut is_first = true;
    for column in columns {
        push_part(&mut line, is_first, &type_text(alloc, column)?)?;
        is_first = false;
    }
    Ok(line)
}

// The name of a table and those of its keys, with tabs between them.
#[tactic(auto, using(crate::proofs::Joined::join_behind))]
fn keys_line(alloc: Global, name: &str, columns: &[Column]) -> Result<String, Error>
    ensures ok { IfOk result (λ line. string_bytes line ≡ join_with_byte 9 (name.now
        ∷ map (λ c. c.name) (filter (λ c. c.key) (columns_of columns.now)))) }
    ensures errors { IfErr result (λ e. e ≡ Memory) }
{
    let mut line = String::from_str(alloc, name)?;
    for column in columns {
        if column.is_primary_key() {
            push_part(&mut line, false, column.name())?;
        }
    }
    Ok(line)
}

// Adds a part, behind a tab where it isn't the first.
fn push_part(line: &mut String, is_first: bool, part: &str) -> Result<(), Error>
    ensures ok { OnOk result (string_bytes line.new ≡ string_bytes line.old
        ++ (if is_first then part.now else 9 ∷ part.now)) }
    ensures errors { IfErr result (λ e. e ≡ Memory) }
{
    if !is_first {
        line.push('\t')?;
    }
    line.push_str(part)?;
    Ok(())
}

// The type as exports write it: a letter, in capitals where the column may be null, and the width.
fn type_text(alloc: Global, column: &Column) -> Result<String, Error>
    ensures ok { IfOk result (λ text. string_bytes text ≡ exported_type (column_of column.now)) }
    ensures errors { IfErr result (λ e. e ≡ Memory) }
{
    let letter = letter_of(column);
    let letter = if column.is_nullable() {
        letter.to_ascii_uppercase()
    } else {
        letter
    };
    let width = match column.coltype() {
        ColumnType::Int16 => 2,
        ColumnType::Int32 => 4,
        ColumnType::Str(width) => width,
        ColumnType::Binary => 0,
    };
    Ok(format!(in alloc; "{letter}{width}")?)
}

fn letter_of(column: &Column) -> char
    ensures { result ≡ letter (column_of column.now).kind (column_of column.now).localizable }
{
    match column.coltype() {
        ColumnType::Int16 | ColumnType::Int32 => 'i',
        ColumnType::Str(_) if column.is_localizable() => 'l',
        ColumnType::Str(_) => 's',
        ColumnType::Binary => 'v',
    }
}
