//! Names of streams, one after the other.
#![tactic(auto, unfolding(crate::specs::Lists::streams_left))]

ghost use Rattle.std.specs.Iterator.{YieldsFirst, item_count};
ghost use Rattle.std.specs.List.{flat_map};
ghost use Rattle.std.specs.Prelude.{◌≡◌, ◌++◌, ◌⊎◌, map, string_bytes, true, IfErr, IfOk, MatchResult, OnOk};
ghost use Rattle.cfb.specs.Putting.{IsOpenStreamError};
ghost use Rattle.cfb.specs.Streams.{FileHoldsTree};
ghost use Rattle.cfb.specs.Views.{file_case_table, mini_of};
ghost use Rattle.cfb_entries.specs.Listed.{listed_in};
ghost use Rattle.cfb_entries.specs.Lists.{entries_left};
ghost use Rattle.cfb_fat.specs.Tables.{IsJustifiedBySectors};
ghost use Rattle.cfb_medium.specs.Calls.{IsFaultOrInvalidInputIf};
ghost use Rattle.cfb_medium.specs.declared.error.Error.TheVariants.{Memory};
ghost use Rattle.cfb_mini.specs.Views.{allocator_of};
ghost use Rattle.cfb_tree.specs.CaseTableViews.{case_table_of};
ghost use Rattle.cfb_tree.specs.Tree.{Tree};
ghost use Rattle.msi_spec.specs.Opening.{keeps_encoded_names};
ghost use Rattle.msi_spec.specs.Package.{PackageContent};
ghost use Rattle.msi_spec.specs.Split.{TreeStoresRest};
ghost use Rattle.msi_spec.specs.Streams.{stream_names};
ghost use Rattle.msi.specs.Lists.{name_listed, streams_left};

use cfb::{CaseMapper, CompoundFile, Entries, Entry};
use cfb_medium::{Error, ReadMedium};
use msi_streams::is_special;
use msi_texts::decode;
use std::alloc::Global;
use std::iter::ExactSizeIterator;
use std::vec::IntoIter;

/// The names of streams that are still to come. They were made by the call that gave them, so that going on takes no memory.
#[derive(Drop)]
pub struct Streams {
    left: IntoIter<String>,
}

impl Streams {
    /// The names of the streams under the root that belong to no table and have none of the special names, in the container's
    /// order. An error is a fault, where the file holds a tree. The file is only looked at.
    pub(crate) fn new<F: ReadMedium>(
        alloc: Global,
        file: &CompoundFile<F>,
    ) -> Result<Streams, Error>
        ensures answer { (tree : Tree) → FileHoldsTree file.now tree → (P : PackageContent)
            → TreeStoresRest (file_case_table file.now) tree P
            → keeps_encoded_names (file_case_table file.now) ≡ true
            → MatchResult result (λ it. map string_bytes (streams_left it)
            ≡ stream_names (file_case_table file.now) P) (IsFaultOrInvalidInputIf ⊥) }
        ensures cause { IfErr result (IsJustifiedBySectors (allocator_of (mini_of file.now))
            (allocator_of (mini_of file.now))) }
        ensures errors { IfErr result (λ e. IsFaultOrInvalidInputIf ⊥ e ⊎ IsOpenStreamError e) }
    {
        let entries = match file.read_root_storage() {
            Ok(entries) => entries,
            Err(error) => return Err(error),
        };
        let names = names_of(alloc, file.letters(), entries)?;
        Ok(Streams {
            left: names.into_iter(),
        })
    }
}

// The names of those among objects that were listed.
fn names_of(alloc: Global, letters: &CaseMapper, entries: Entries) -> Result<Vec<String>, Error>
    ensures ok { IfOk result (λ names. map string_bytes names.items
        ≡ flat_map (name_listed (case_table_of letters.now))
        (map listed_in (entries_left entries))) }
    ensures errors { IfErr result (λ e. e ≡ Memory) }
{
    let mut names = Vec::new(alloc);
    for entry in entries {
        push_name(alloc, letters, &mut names, &entry)?;
    }
    Ok(names)
}

// Appends the name of an object, where it is such a stream.
fn push_name(
    alloc: Global,
    letters: &CaseMapper,
    names: &mut Vec<String>,
    entry: &Entry,
) -> Result<(), Error>
    ensures ok { OnOk result (map string_bytes names.new.items ≡ map string_bytes names.old.items
        ++ name_listed (case_table_of letters.now) (listed_in entry.now)) }
    ensures errors { IfErr result (λ e. e ≡ Memory) }
{
    if entry.is_storage() {
        return Ok(());
    }
    if is_special(letters, entry.name()) {
        return Ok(());
    }
    let (name, is_table) = decode(alloc, entry.name())?;
    if is_table {
        return Ok(());
    }
    names.push(name)?;
    Ok(())
}

impl Iterator for Streams {
    type Item = String;

    ghost next_gives = { YieldsFirst streams_left };

    ghost remaining = { item_count streams_left };

    fn next(&mut self) -> Option<String> {
        self.left.next()
    }
}

impl ExactSizeIterator for Streams {
    fn len(&self) -> usize {
        self.left.len()
    }
}
