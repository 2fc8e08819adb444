//! Whether an object under the root stands where it may, by its name and those of tables.
ghost use Rattle.std.specs.Prelude.{◌≡◌, chars, map, IfErr, IfOk, List};
ghost use Rattle.std.specs.Rc.{rc_value};
ghost use Rattle.cfb_medium.specs.declared.error.Error.TheVariants.{Memory};
ghost use Rattle.cfb_tree.specs.CaseTableViews.{case_table_of};
ghost use Rattle.msi_findings.specs.Placing.{KeysMatchHeadings};
ghost use Rattle.msi_spec.specs.Package.{stream_name};
ghost use Rattle.msi_store.specs.Placing.{is_placed, HoldKeys};
ghost use Rattle.msi_tables.specs.Held.{heading_of};
ghost use Rattle.msi_tables.specs.Table.{Heading};
ghost use Rattle.msi_texts.specs.StreamName.{is_marked};

use cfb::{CaseMapper, compare_names, name_key};
use cfb_medium::Error;
use msi_tables::Table;
use msi_texts::encode;
use std::alloc::Global;
use std::cmp::Ordering;
use std::collections::BTreeSet;
use std::rc::Rc;

// The keys of the names that tables' streams have in the container, and the names of the pool's two.
#[derive(Drop)]
pub(crate) struct TableNames {
    keys: BTreeSet<Vec<u16>>,
    pool: String,
    data: String,
}

// The names of tables' streams, by their keys.
pub(crate) fn table_names(
    alloc: Global,
    letters: &CaseMapper,
    tables: &[Rc<Table>],
) -> Result<TableNames, Error>
    ensures ok { IfOk result (KeysMatchHeadings (case_table_of letters.now)
        (map (λ t. heading_of (rc_value t)) tables.now)) }
    ensures errors { IfErr result (λ e. e ≡ Memory) }
{
    let keys = table_keys(alloc, letters, tables)?;
    let pool = encode(alloc, "_StringPool", true)?;
    let data = encode(alloc, "_StringData", true)?;
    Ok(TableNames { keys, pool, data })
}

// The keys of the names of tables' streams.
fn table_keys(
    alloc: Global,
    letters: &CaseMapper,
    tables: &[Rc<Table>],
) -> Result<BTreeSet<Vec<u16>>, Error>
    ensures ok { IfOk result (HoldKeys (case_table_of letters.now)
        (map (λ h. stream_name h.name) (map (λ t. heading_of (rc_value t)) tables.now))) }
    ensures errors { IfErr result (λ e. e ≡ Memory) }
{
    let mut keys = BTreeSet::new(alloc);
    for table in tables {
        let name = encode(alloc, table.name(), true)?;
        keys.insert(name_key(alloc, letters, &name)?)?;
    }
    Ok(keys)
}

// Whether an object of this name stands where it may.
pub(crate) fn is_in_place(
    alloc: Global,
    letters: &CaseMapper,
    names: &TableNames,
    name: &str,
    is_storage: bool,
) -> Result<bool, Error>
    ensures ok { (headings : List Heading)
        → KeysMatchHeadings (case_table_of letters.now) headings names.now
        → IfOk result (λ is. is ≡ is_placed (case_table_of letters.now) headings (chars name.now)
        is_storage) }
    ensures errors { IfErr result (λ e. e ≡ Memory) }
{
    let key = name_key(alloc, letters, name)?;
    let is_table = names.keys.contains(&key);
    if is_storage {
        return Ok(!is_table);
    }
    if !is_marked(name) || is_table {
        return Ok(true);
    }
    let is_pool = compare_names(letters, &names.pool, name) == Ordering::Equal;
    let is_data = compare_names(letters, &names.data, name) == Ordering::Equal;
    Ok(is_pool || is_data)
}

// Whether a name in the container is marked as a table's.
fn is_marked(name: &str) -> bool
    ensures { result ≡ is_marked (chars name.now) }
{
    name.chars().next() == Some('\u{4840}')
}
