//! Whether the objects of the root stand where they may, by the names of tables.
ghost use Rattle.std.specs.Prelude.{◌≡◌, ◌↔◌, All, chars, map, IfErr, IfOk, IsTrue, List, MatchResult};
ghost use Rattle.std.specs.Rc.{rc_value};
ghost use Rattle.cfb.specs.Streams.{FileHoldsTree};
ghost use Rattle.cfb.specs.Views.{file_case_table, mini_of};
ghost use Rattle.cfb_entries.specs.Listed.{listed_in};
ghost use Rattle.cfb_entries.specs.Lists.{entries_left};
ghost use Rattle.std.specs.List.{list_all};
ghost use Rattle.cfb_fat.specs.Tables.{IsJustifiedBySectors};
ghost use Rattle.cfb_medium.specs.Calls.{IsFaultOrInvalidInputIf};
ghost use Rattle.cfb_medium.specs.declared.error.Error.TheVariants.{Memory};
ghost use Rattle.cfb_mini.specs.Views.{allocator_of};
ghost use Rattle.cfb_tree.specs.CaseTableViews.{case_table_of};
ghost use Rattle.cfb_tree.specs.Tree.{Tree};
ghost use Rattle.msi_spec.specs.Package.{objects, stream_name};
ghost use Rattle.msi_tables.specs.Table.{Heading};
ghost use Rattle.msi_parts.specs.Judged.{is_in_place as is_well_placed};
ghost use Rattle.msi_store.specs.Placing.{is_listed_well, is_placed, KeysMatchTables, HoldKeys};
ghost use Rattle.msi_tables.specs.Held.{heading_of};
ghost use Rattle.msi_texts.specs.StreamName.{is_marked};

use cfb::{CaseMapper, CompoundFile, Entries, compare_names, name_key};
use cfb_medium::{Error, ReadMedium};
use msi_tables::Table;
use msi_texts::{decode, encode};
use std::alloc::Global;
use std::cmp::Ordering;
use std::collections::BTreeSet;
use std::rc::Rc;

// The keys of the names that tables' streams have in the container, and the names of the pool's two.
#[derive(Drop)]
struct TableStreams {
    keys: BTreeSet<Vec<u16>>,
    pool: String,
    data: String,
}

/// Whether each stream under the root that is named as a table's is one, or one of the pool's two, and no storage stands at the name
/// of a table's. Each name is looked up once among the keys of tables. Errors are faults; the file is only looked at.
pub fn are_in_place<F: ReadMedium>(
    alloc: Global,
    file: &CompoundFile<F>,
    tables: &[Rc<Table>],
) -> Result<bool, Error>
    ensures answer { (tree : Tree) → FileHoldsTree file.now tree
        → MatchResult result (λ are. IsTrue are
        ↔ All (λ o. IsTrue (is_well_placed (file_case_table file.now)
        (map (λ t. heading_of (rc_value t)) tables.now) o)) (objects tree.content))
        (IsFaultOrInvalidInputIf ⊥) }
    ensures cause { IfErr result (IsJustifiedBySectors (allocator_of (mini_of file.now))
        (allocator_of (mini_of file.now))) }
{
    let streams = table_streams(alloc, file.letters(), tables)?;
    match file.read_root_storage() {
        Ok(entries) => are_entries_in_place(alloc, file.letters(), &streams, entries),
        Err(error) => Err(error),
    }
}

// The same of entries that were listed.
fn are_entries_in_place(
    alloc: Global,
    letters: &CaseMapper,
    streams: &TableStreams,
    entries: Entries,
) -> Result<bool, Error>
    ensures ok { (headings : List Heading)
        → KeysMatchTables (case_table_of letters.now) headings streams.now
        → IfOk result (λ are. are ≡ list_all (is_listed_well (case_table_of letters.now) headings)
        (map listed_in (entries_left entries))) }
    ensures errors { IfErr result (λ e. e ≡ Memory) }
{
    for entry in entries {
        if !is_in_place(alloc, letters, streams, entry.name(), entry.is_storage())? {
            return Ok(false);
        }
    }
    Ok(true)
}

// The names of tables' streams, by their keys.
fn table_streams(
    alloc: Global,
    letters: &CaseMapper,
    tables: &[Rc<Table>],
) -> Result<TableStreams, Error>
    ensures ok { IfOk result (KeysMatchTables (case_table_of letters.now)
        (map (λ t. heading_of (rc_value t)) tables.now)) }
    ensures errors { IfErr result (λ e. e ≡ Memory) }
{
    let keys = table_keys(alloc, letters, tables)?;
    let pool = encode(alloc, "_StringPool", true)?;
    let data = encode(alloc, "_StringData", true)?;
    Ok(TableStreams { keys, pool, data })
}

// The keys of the names of tables' streams.
fn table_keys(
    alloc: Global,
    letters: &CaseMapper,
    tables: &[Rc<Table>],
) -> Result<BTreeSet<Vec<u16>>, Error>
    ensures ok { IfOk result (HoldKeys (case_table_of letters.now)
        (map (λ h. stream_name h.name) (map (λ t. heading_of (rc_value t)) tables.now))) }
    ensures errors { IfErr result (λ e. e ≡ Memory) }
{
    let mut keys = BTreeSet::new(alloc);
    for table in tables {
        let name = encode(alloc, table.name(), true)?;
        keys.insert(name_key(alloc, letters, &name)?)?;
    }
    Ok(keys)
}

// Whether an object of this name stands where it may.
fn is_in_place(
    alloc: Global,
    letters: &CaseMapper,
    streams: &TableStreams,
    name: &str,
    is_storage: bool,
) -> Result<bool, Error>
    ensures ok { (headings : List Heading)
        → KeysMatchTables (case_table_of letters.now) headings streams.now
        → IfOk result (λ is. is ≡ is_placed (case_table_of letters.now) headings (chars name.now)
        is_storage) }
    ensures errors { IfErr result (λ e. e ≡ Memory) }
{
    let key = name_key(alloc, letters, name)?;
    let is_table = streams.keys.contains(&key);
    if is_storage {
        return Ok(!is_table);
    }
    if !is_marked(name) || is_table {
        return Ok(true);
    }
    let is_pool = compare_names(letters, &streams.pool, name) == Ordering::Equal;
    let is_data = compare_names(letters, &streams.data, name) == Ordering::Equal;
    Ok(is_pool || is_data)
}

// Whether a name in the container is marked as a table's.
fn is_marked(name: &str) -> bool
    ensures { result ≡ is_marked (chars name.now) }
{
    name.chars().next() == Some('\u{4840}')
}
