//! What stands above the rows.
ghost use Rattle.std.specs.Prelude.{◌≡◌, [], ◌∷◌, map, option_map, IfOk, Some};
ghost use Rattle.std.specs.Char.{is_ascii_digit};
ghost use Rattle.std.specs.List.{list_all};
ghost use Rattle.idt_tables.specs.Headings.{heading_by, heading_in, is_page, parts_in, types_in, without_page};
ghost use Rattle.idt_tables.specs.HeadingsOf.{heading_of};

use crate::lines::parts_of;
use crate::types::{ColumnType, read_type};
use std::alloc::{AllocError, Global};

/// The three lines above the rows.
#[derive(Drop)]
pub struct Heading<'a> {
    /// The table's name.
    pub table: &'a str,
    /// The names of its columns.
    pub names: Vec<&'a str>,
    /// Their types.
    pub types: Vec<ColumnType>,
    /// The names of its keys.
    pub keys: Vec<&'a str>,
}

/// What three lines say: the names of columns, their types, and the table with its keys, behind the number of a code page if there is one.
/// None where a type is none. The one error is want of memory.
pub fn read_heading<'a>(
    alloc: Global,
    names: &'a str,
    types: &str,
    keys: &'a str,
) -> Result<Option<Heading<'a>>, AllocError>
    ensures { IfOk result (λ heading. option_map heading_of heading
        ≡ heading_in (names.now ∷ types.now ∷ keys.now ∷ [])) }
{
    let names = parts_of(alloc, names)?;
    let parts = parts_of(alloc, types)?;
    match read_types(alloc, &parts)? {
        Some(types) => with_keys(alloc, names, types, keys),
        None => Ok(None),
    }
}

// The types that parts say.
fn read_types(alloc: Global, parts: &[&str]) -> Result<Option<Vec<ColumnType>>, AllocError>
    ensures { IfOk result (λ types. option_map (λ t. t.items) types
        ≡ types_in (map (λ p. p.now) parts.now)) }
{
    let mut types = Vec::new(alloc);
    for part in parts {
        match read_type(part) {
            Some(coltype) => types.push(coltype)?,
            None => return Ok(None),
        }
    }
    Ok(Some(types))
}

fn with_keys<'a>(
    alloc: Global,
    names: Vec<&'a str>,
    types: Vec<ColumnType>,
    keys: &'a str,
) -> Result<Option<Heading<'a>>, AllocError>
    ensures { IfOk result (λ heading. option_map heading_of heading
        ≡ heading_by (map (λ p. p.now) names.entry.items) (Some types.items)
        (without_page (parts_in keys.now))) }
{
    let parts = parts_of(alloc, keys)?;
    match without_page(&parts) {
        [] => Ok(None),
        [table, keys @ ..] => Ok(Some(Heading {
            table,
            names,
            types,
            keys: Vec::from_slice(alloc, keys)?,
        })),
    }
}

// Without the number of a code page in front.
fn without_page<'a, 'b>(parts: &'b [&'a str]) -> &'b [&'a str]
    ensures { map (λ p. p.now) result.now ≡ without_page (map (λ p. p.now) parts.now) }
{
    match parts {
        [page, rest @ ..] if !rest.is_empty() && is_page(page) => rest,
        _ => parts,
    }
}

fn is_page(part: &str) -> bool
    ensures { result ≡ is_page part.now }
{
    if part.is_empty() {
        return false;
    }
    are_digits(part.as_bytes())
}

fn are_digits(part: &[u8]) -> bool
    ensures { result ≡ list_all is_ascii_digit part.now }
{
    part.iter().all(|byte| byte.is_ascii_digit())
}
