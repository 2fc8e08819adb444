//! Whether entries are a tree, without recursion.
ghost use Rattle.cfb_directory.specs.Entries.{entries_in};
ghost use Rattle.cfb_directory.specs.Walk.{child_at, links_at};
ghost use Rattle.cfb_directory.specs.Taken.{HasAny, IsAhead, IsBehind, IsFit, IsTakenAs, IsTakenAsRoot, IsTakenIn, Precedes};
ghost use Rattle.cfb_medium.specs.declared.error.Error.TheVariants.{Memory};
ghost use Rattle.cfb_tree.specs.Directory.{HasName};
ghost use Rattle.cfb_tree.specs.Entries.{IsBlackAt, HasSize};
ghost use Rattle.cfb_tree.specs.EntryViews.{color_of, entry_in, kind_of};
ghost use Rattle.cfb_tree.specs.CaseTableViews.{case_table_of};
ghost use Rattle.cfb_tree.specs.Tree.{Tree};
ghost use Rattle.std.specs.Prelude.{chars, false, string_bytes, IfErr, IfNone, IfOk, IfSome, IsTrue, List, OnOk, ℕ, ◌++◌, ◌≡◌, ◌↔◌};

use cfb_medium::Error;
use cfb_sectors::{MAX_REGULAR_STREAM_ID, NO_STREAM, ROOT_DIR_NAME, Validation};
use cfb_tree::{CaseMapper, Color, DirEntry, ObjType, compare_names};
use std::alloc::Global;
use std::cmp::Ordering;

// A link that is still to be followed, and the siblings between which those that hang there must stand.
#[derive(Clone, Copy)]
struct Link {
    at: u32,
    low: Option<u32>,
    high: Option<u32>,
}

// The entry's name, if it has one.
fn name_of(alloc: Global, entry: &DirEntry) -> Result<Option<String>, Error>
    ensures some { IfOk result (λ name. IfSome name (λ name. HasName (entry_in entry.now)
        (chars (string_bytes name)))) }
    ensures none { IfOk result (λ name. IfNone name ((name : List ℕ)
        → HasName (entry_in entry.now) name → ⊥)) }
    ensures errors { IfErr result (λ e. e ≡ Memory) }
{
    match entry.name(alloc) {
        Ok(name) => Ok(Some(name)),
        Err(Error::InvalidData) => Ok(None),
        Err(_) => Err(Error::Memory),
    }
}

// Whether one entry's name comes before another's.
fn precedes(
    alloc: Global,
    letters: &CaseMapper,
    entries: &[DirEntry],
    one: u32,
    other: u32,
) -> Result<bool, Error>
    ensures order { IfOk result (λ is. IsTrue is
        ↔ Precedes (case_table_of letters.now) (entries_in entries.now) one other) }
    ensures errors { IfErr result (λ e. e ≡ Memory) }
{
    let Some(first) = entries.get(one as usize) else {
        return Ok(false);
    };
    let Some(second) = entries.get(other as usize) else {
        return Ok(false);
    };
    let Some(first) = name_of(alloc, first)? else {
        return Ok(false);
    };
    let Some(second) = name_of(alloc, second)? else {
        return Ok(false);
    };
    Ok(compare_names(letters, &first, &second) == Ordering::Less)
}

// Whether the entry has the colour.
fn has_color(entry: &DirEntry, color: Color) -> bool
    ensures { IsTrue result ↔ ((entry_in entry.now).color ≡ color_of color) }
{
    match entry.color() {
        Some(found) => found.as_byte() == color.as_byte(),
        None => false,
    }
}

// Whether the entry, where there is one, is black.
fn is_black_at(entries: &[DirEntry], id: u32) -> bool
    ensures { IsTrue result ↔ IsBlackAt (entries_in entries.now) id }
{
    match entries.get(id as usize) {
        Some(entry) => has_color(entry, Color::Black),
        None => true,
    }
}

// Whether a reader takes the entry in the tree.
fn is_taken(validation: Validation, entries: &[DirEntry], entry: &DirEntry) -> bool
    ensures { IsTrue result ↔ IsTakenIn validation (entries_in entries.now) (entry_in entry.now) }
{
    if !entry.is_taken_below(validation) {
        return false;
    }
    match validation {
        Validation::Permissive => true,
        Validation::Strict if has_color(entry, Color::Red) => {
            is_black_at(entries, entry.left_sibling) && is_black_at(entries, entry.right_sibling)
        }
        Validation::Strict => true,
    }
}

// Whether the entry comes behind another, where there is one.
fn is_behind(
    alloc: Global,
    letters: &CaseMapper,
    entries: &[DirEntry],
    low: Option<u32>,
    id: u32,
) -> Result<bool, Error>
    ensures order { IfOk result (λ is. IsTrue is
        ↔ IsBehind (case_table_of letters.now) (entries_in entries.now) low id) }
    ensures errors { IfErr result (λ e. e ≡ Memory) }
{
    match low {
        Some(low) => precedes(alloc, letters, entries, low, id),
        None => Ok(true),
    }
}

// Whether the entry comes before another, where there is one.
fn is_ahead(
    alloc: Global,
    letters: &CaseMapper,
    entries: &[DirEntry],
    high: Option<u32>,
    id: u32,
) -> Result<bool, Error>
    ensures order { IfOk result (λ is. IsTrue is
        ↔ IsAhead (case_table_of letters.now) (entries_in entries.now) high id) }
    ensures errors { IfErr result (λ e. e ≡ Memory) }
{
    match high {
        Some(high) => precedes(alloc, letters, entries, id, high),
        None => Ok(true),
    }
}

// Whether a reader takes the entry of this number as a sibling between two others.
fn is_fit(
    alloc: Global,
    letters: &CaseMapper,
    validation: Validation,
    entries: &[DirEntry],
    link: Link,
) -> Result<bool, Error>
    ensures fit { IfOk result (λ is. IsTrue is
        ↔ IsFit validation (case_table_of letters.now) (entries_in entries.now) link.low link.high
        link.at) }
    ensures errors { IfErr result (λ e. e ≡ Memory) }
{
    if link.at > MAX_REGULAR_STREAM_ID {
        return Ok(false);
    }
    let Some(entry) = entries.get(link.at as usize) else {
        return Ok(false);
    };
    if !is_taken(validation, entries, entry) {
        return Ok(false);
    }
    if name_of(alloc, entry)?.is_none() {
        return Ok(false);
    }
    if !is_behind(alloc, letters, entries, link.low, link.at)? {
        return Ok(false);
    }
    is_ahead(alloc, letters, entries, link.high, link.at)
}

// Whether the entry is of the kind.
pub(crate) fn has_kind(entry: &DirEntry, kind: ObjType) -> bool
    ensures { IsTrue result ↔ ((entry_in entry.now).kind ≡ kind_of kind) }
{
    match entry.obj_type() {
        Some(found) => found.as_byte() == kind.as_byte(),
        None => false,
    }
}

// Where the children of an entry hang.
fn child_at(entry: &DirEntry) -> u32
    ensures { result ≡ child_at (entry_in entry.now) }
{
    if has_kind(entry, ObjType::Storage) {
        entry.child
    } else {
        NO_STREAM
    }
}

// Adds where siblings and children of the entry at a link hang.
fn push_links(pending: &mut Vec<Link>, entry: &DirEntry, link: Link) -> Result<(), Error>
    ensures added { OnOk result (pending.new.items
        ≡ pending.old.items ++ links_at (entry_in entry.now) link) }
    ensures errors { IfErr result (λ e. e ≡ Memory) }
{
    let at = Some(link.at);
    pending.push(Link {
        at: entry.left_sibling,
        low: link.low,
        high: at,
    })?;
    pending.push(Link {
        at: entry.right_sibling,
        low: at,
        high: link.high,
    })?;
    pending.push(Link {
        at: child_at(entry),
        low: None,
        high: None,
    })?;
    Ok(())
}

// Whether the entry has the name.
fn is_named(alloc: Global, entry: &DirEntry, name: &str) -> Result<bool, Error>
    ensures named { IfOk result (λ is. IsTrue is
        ↔ HasName (entry_in entry.now) (chars name.now)) }
    ensures errors { IfErr result (λ e. e ≡ Memory) }
{
    match name_of(alloc, entry)? {
        Some(found) => Ok(found.as_str() == name),
        None => Ok(false),
    }
}

// Whether a reader takes the entry as the root.
fn is_root(alloc: Global, validation: Validation, entry: &DirEntry) -> Result<bool, Error>
    ensures taken { IfOk result (λ is. IsTrue is ↔ IsTakenAsRoot validation (entry_in entry.now)) }
    ensures errors { IfErr result (λ e. e ≡ Memory) }
{
    if !entry.is_taken_as_root(validation) {
        return Ok(false);
    }
    match validation {
        Validation::Permissive => Ok(true),
        Validation::Strict => Ok(is_named(alloc, entry, ROOT_DIR_NAME)?),
    }
}

/// Whether a reader takes the entries as a tree under the case table. The one error is `Memory`.
pub(crate) fn is_tree(
    alloc: Global,
    letters: &CaseMapper,
    validation: Validation,
    entries: &[DirEntry],
) -> Result<bool, Error>
    ensures taken { IfOk result (λ is. IsTrue is → (tree : Tree)
        × IsTakenAs validation (case_table_of letters.now) HasSize (entries_in entries.now) tree) }
    ensures none { IfOk result (λ is. is ≡ false → (tree : Tree)
        → IsTakenAs validation (case_table_of letters.now) HasAny (entries_in entries.now) tree
        → ⊥) }
    ensures errors { IfErr result (λ e. e ≡ Memory) }
{
    let Some(root) = entries.first() else {
        return Ok(false);
    };
    if !is_root(alloc, validation, root)? {
        return Ok(false);
    }
    let mut seen = vec![in alloc; false; entries.len()]?;
    seen[0] = true;
    let mut pending = Vec::new(alloc);
    pending.push(Link {
        at: root.child,
        low: None,
        high: None,
    })?;
    'walk: while let Some(link) = pending.pop() {
        if link.at == NO_STREAM {
            continue;
        }
        if !is_fit(alloc, letters, validation, entries, link)? {
            return Ok(false);
        }
        let id = link.at as usize;
        if seen[id] {
            return Ok(false);
        }
        seen[id] = true;
        push_links(&mut pending, &entries[id], link)?;
    }
    Ok(true)
}
