//! Objects under the root that stand where a sound package has none.
ghost use Rattle.std.specs.Prelude.{◌≡◌, ◌++◌, ◌∷◌, [], map, IfErr, IfOk, List, MatchResult, OnOk};
ghost use Rattle.cfb.specs.Streams.{FileHoldsTree};
ghost use Rattle.cfb.specs.Views.{file_case_table, mini_of};
ghost use Rattle.cfb_entries.specs.Listed.{listed_in};
ghost use Rattle.cfb_entries.specs.Lists.{entries_left};
ghost use Rattle.cfb_fat.specs.Tables.{IsJustifiedBySectors};
ghost use Rattle.cfb_medium.specs.Calls.{IsFaultOrInvalidInputIf};
ghost use Rattle.cfb_medium.specs.declared.error.Error.TheVariants.{Memory};
ghost use Rattle.cfb_mini.specs.Views.{allocator_of};
ghost use Rattle.cfb_tree.specs.CaseTableViews.{case_table_of};
ghost use Rattle.cfb_tree.specs.Tree.{Tree};
ghost use Rattle.msi_findings.specs.Misplaced.{misplaced, names_of};
ghost use Rattle.msi_findings.specs.Placing.{misplaced_in, KeysMatchHeadings};
ghost use Rattle.msi_spec.specs.Package.{objects};
ghost use Rattle.msi_schema.specs.Headings.{headings_in};
ghost use Rattle.msi_tables.specs.Table.{Heading};

use crate::placing::{TableNames, is_in_place, table_names};
use cfb::{CaseMapper, CompoundFile, Entries, Entry};
use cfb_medium::{Error, ReadMedium};
use msi_tables::Table;
use std::alloc::Global;
use std::rc::Rc;

/// The names, as the container has them, of the objects under the root that stand where they may not, in the container's order: streams
/// that are named as tables' while there is no such table, and storages at the name of a table's stream. Each error is a fault. Each name
/// is looked up once among those of tables, and the file is only looked at.
pub fn misplaced_objects<F: ReadMedium>(
    alloc: Global,
    file: &CompoundFile<F>,
    tables: &[Rc<Table>],
) -> Result<Vec<String>, Error>
    ensures answer { (tree : Tree) → FileHoldsTree file.now tree → MatchResult result
        (λ found. names_of found.items ≡ misplaced (file_case_table file.now)
        (headings_in tables.now)
        (objects tree.content)) (IsFaultOrInvalidInputIf ⊥) }
    ensures cause { IfErr result (IsJustifiedBySectors (allocator_of (mini_of file.now))
        (allocator_of (mini_of file.now))) }
{
    let names = table_names(alloc, file.letters(), tables)?;
    match file.read_root_storage() {
        Ok(entries) => among(alloc, file.letters(), &names, entries),
        Err(error) => Err(error),
    }
}

// The same of entries that were listed.
fn among(
    alloc: Global,
    letters: &CaseMapper,
    names: &TableNames,
    entries: Entries,
) -> Result<Vec<String>, Error>
    ensures ok { (headings : List Heading)
        → KeysMatchHeadings (case_table_of letters.now) headings names.now
        → IfOk result
        (λ found. names_of found.items ≡ misplaced_in (case_table_of letters.now) headings
        (map listed_in (entries_left entries))) }
    ensures errors { IfErr result (λ e. e ≡ Memory) }
{
    let mut found = Vec::new(alloc);
    for entry in entries {
        note(alloc, letters, names, &entry, &mut found)?;
    }
    Ok(found)
}

// Adds the name of an object that stands where it may not.
fn note(
    alloc: Global,
    letters: &CaseMapper,
    names: &TableNames,
    entry: &Entry,
    found: &mut Vec<String>,
) -> Result<(), Error>
    ensures ok { (headings : List Heading)
        → KeysMatchHeadings (case_table_of letters.now) headings names.now
        → OnOk result (names_of found.new.items ≡ names_of found.old.items
        ++ misplaced_in (case_table_of letters.now) headings (listed_in entry.now ∷ [])) }
    ensures errors { IfErr result (λ e. e ≡ Memory) }
{
    if is_in_place(alloc, letters, names, entry.name(), entry.is_storage())? {
        return Ok(());
    }
    found.push(String::from_str(alloc, entry.name())?)?;
    Ok(())
}
