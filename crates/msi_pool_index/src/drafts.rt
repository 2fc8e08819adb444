//! Drafts of places, and how their places take them over.
ghost use Rattle.cfb_medium.specs.declared.error.Error.TheVariants.{Memory};
ghost use Rattle.std.specs.Prelude.{◌≡◌, ◌≤◌, ◌<◌, ◌+◌, ◌^◌, ◌&&◌, ◌||◌, ◌++◌, ◌==◌, not, ℕ, List, true, false, length, IsSome, IfErr, OnErr, OnOk, bytes_eq, slice_set, if◌then◌else◌};
ghost use Rattle.std.specs.BTreeMap.{get_by_text};
ghost use Rattle.std.specs.Option.{option_map_or};
ghost use Rattle.msi_pool_index.specs.Places.{PoolEntry, places_of};
ghost use Rattle.msi_pool_index.specs.PoolDraft.{AreChangesOf, below, laid, place_in, taken_over, takes_place};
ghost use Rattle.msi_pool_index.specs.PoolIndex.{is_free, passes_at};
ghost use Rattle.msi_pool_index.specs.PoolParts.{has_place, has_room};

use crate::draftparts::{Changes, DraftParts};
use crate::places::Places;
use crate::steps::Steps;
use cfb_medium::Error;
use std::alloc::Global;
use std::collections::{BTreeMap, BTreeSet};

impl Places {
    /// A draft of these places, which takes no memory until it is changed.
    pub fn draft(&self) -> Places<DraftParts<'_>>
        ensures same { result.places ≡ self.now.places }
        ensures under { result.under
            ≡ record { places = self.now.places; steps = self.now.steps } }
    {
        let alloc = *self.parts.list.allocator();
        let changes = Changes {
            changed: BTreeMap::new(alloc),
            added: Vec::new(alloc),
            given: BTreeSet::new(alloc),
            passed: 0,
            room: BTreeMap::new(alloc),
            below: self.parts.steps.and(&0),
        };
        Places {
            parts: DraftParts {
                base: self,
                changes,
                steps: Steps::none(),
            },
        }
    }

    /// Takes over what a draft changed, with the count of steps that there was when the draft was made. After Memory, the one
    /// error, places and count are as they were.
    pub fn adopt(&mut self, changes: Changes) -> Result<(), Error>
        requires { AreChangesOf self.old.places changes }
        ensures ok { OnOk result (self.new.places ≡ taken_over self.old.places changes) }
        ensures steps { OnOk result (self.new.steps ≡ changes.below.count) }
        ensures few { length self.new.places < 2 ^ 32 }
        ensures after_error { OnErr result (self.new.places ≡ self.old.places) }
        ensures same_steps { OnErr result (self.new.steps ≡ self.old.steps) }
        ensures errors { IfErr result (λ e. e ≡ Memory) }
    {
        let alloc = *self.parts.list.allocator();
        let Changes {
            changed,
            added,
            given,
            passed: _,
            room,
            below,
        } = changes;
        hold_texts(alloc, &mut self.parts.room, &room)?;
        let end = self.parts.list.len();
        hold_added(&mut self.parts.list, &mut self.parts.free, &given, added)?;
        write_changes(&mut self.parts.list, &mut self.parts.free, changed, end);
        put_rooms(&mut self.parts.room, room);
        self.parts.steps = below;
        Ok(())
    }
}

impl<'a> Places<DraftParts<'a>> {
    /// What the draft changed of the places that it lies over.
    pub fn into_changes(self) -> Changes
        ensures changes { AreChangesOf self.entry.under.places result }
        ensures places { taken_over self.entry.under.places result ≡ self.entry.places }
        ensures steps { result.below.count ≡ self.entry.under.steps }
    {
        let DraftParts {
            base,
            changes,
            steps: _,
        } = self.parts;
        let mut changes = changes;
        changes.below = base.parts.steps.and(&0);
        changes
    }
}

// Puts each text of the one map into the other, without places where that lacks it. After Memory, the one error, some may be
// there, without places.
pub(crate) fn hold_texts(
    alloc: Global,
    room: &mut BTreeMap<String, BTreeSet<u32>>,
    touched: &BTreeMap<String, BTreeSet<u32>>,
) -> Result<(), Error>
    ensures ok { OnOk result ((t : List ℕ) → IsSome (get_by_text touched.now t)
        → IsSome (get_by_text room.new t)) }
    ensures same { (t : List ℕ) (i : ℕ) → has_room room.new t i ≡ has_room room.old t i }
    ensures errors { IfErr result (λ e. e ≡ Memory) }
{
    for text in touched.keys() {
        hold_one(alloc, room, text.as_str())?;
    }
    Ok(())
}

// Puts a text without places into a map that lacks it. The one error is Memory.
fn hold_one(
    alloc: Global,
    room: &mut BTreeMap<String, BTreeSet<u32>>,
    text: &str,
) -> Result<(), Error>
    ensures ok { OnOk result (IsSome (get_by_text room.new text.now)) }
    ensures kept { (t : List ℕ) → IsSome (get_by_text room.old t)
        → IsSome (get_by_text room.new t) }
    ensures same { (t : List ℕ) (i : ℕ) → has_room room.new t i ≡ has_room room.old t i }
    ensures errors { IfErr result (λ e. e ≡ Memory) }
{
    if room.contains_key(text) {
        return Ok(());
    }
    let _ = room.insert(String::from_str(alloc, text)?, BTreeSet::new(alloc))?;
    Ok(())
}

// Appends places to a list, and adds those that became free to its free ones. After Memory, the one error, both are as they
// were.
fn hold_added(
    list: &mut Vec<(String, u16)>,
    free: &mut BTreeSet<u32>,
    given: &BTreeSet<u32>,
    added: Vec<(String, u16)>,
) -> Result<(), Error>
    requires { (i : ℕ) → has_place free.old i ≡ passes_at is_free (places_of list.old.items) i }
    ensures list { OnOk result (list.new.items ≡ list.old.items ++ added.items) }
    ensures free { OnOk result ((i : ℕ) → has_place free.new i
        ≡ (has_place free.old i || has_place given.now i)) }
    ensures same_list { OnErr result (list.new.items ≡ list.old.items) }
    ensures same_free { OnErr result ((i : ℕ) → has_place free.new i ≡ has_place free.old i) }
    ensures errors { IfErr result (λ e. e ≡ Memory) }
{
    let mut added = added;
    match add_places(free, given) {
        Ok(()) => {}
        Err(error) => {
            drop_used(list.as_slice(), free, given);
            return Err(error);
        }
    }
    match list.append(&mut added) {
        Ok(()) => Ok(()),
        Err(_) => {
            drop_used(list.as_slice(), free, given);
            Err(Error::Memory)
        }
    }
}

// Adds places to a set. After Memory, the one error, some may be there.
pub(crate) fn add_places(free: &mut BTreeSet<u32>, given: &BTreeSet<u32>) -> Result<(), Error>
    ensures ok { OnOk result ((i : ℕ) → has_place free.new i
        ≡ (has_place free.old i || has_place given.now i)) }
    ensures kept { (i : ℕ) → has_place free.old i ≡ true → has_place free.new i ≡ true }
    ensures within { (i : ℕ) → has_place free.new i ≡ true
        → (has_place free.old i || has_place given.now i) ≡ true }
    ensures errors { IfErr result (λ e. e ≡ Memory) }
{
    for index in given {
        let _ = free.insert(*index)?;
    }
    Ok(())
}

// Takes those of some places that aren't free in the list out of a set.
pub(crate) fn drop_used(list: &[(String, u16)], free: &mut BTreeSet<u32>, given: &BTreeSet<u32>)
    ensures { (i : ℕ) → has_place free.new i
        ≡ (has_place free.old i && (not (has_place given.now i)
        || passes_at is_free (places_of list.now) i)) }
{
    for index in given {
        drop_if_used(list, free, *index);
    }
}

// Takes a place that isn't free in the list out of a set.
fn drop_if_used(list: &[(String, u16)], free: &mut BTreeSet<u32>, index: u32)
    ensures { (i : ℕ) → has_place free.new i
        ≡ (if i == index then has_place free.old i
        && passes_at is_free (places_of list.now) index else has_place free.old i) }
{
    if !is_free_at(list, index) {
        let _ = free.remove(&index);
    }
}

// Whether a place of the list is free.
fn is_free_at(list: &[(String, u16)], index: u32) -> bool
    ensures { result ≡ passes_at is_free (places_of list.now) index }
{
    match list.get(index as usize) {
        Some((_, count)) => *count == 0,
        None => false,
    }
}

// Writes the changed places before this one to the list, and takes those that have a use out of the free ones.
pub(crate) fn write_changes(
    list: &mut Vec<(String, u16)>,
    free: &mut BTreeSet<u32>,
    changed: BTreeMap<u32, (String, u16)>,
    end: usize,
)
    ensures list { places_of list.new.items
        ≡ laid (below end (place_in changed)) (places_of list.old.items) }
    ensures free { (i : ℕ) → has_place free.new i
        ≡ (has_place free.old i && not (takes_place (below end (place_in changed) i))) }
{
    let mut changed = changed;
    while let Some((index, entry)) = changed.pop_first() {
        if (index as usize) < end {
            write_change(list, free, index, entry);
        }
    }
}

// Writes to a place of the list, and takes it out of the free ones where it has a use.
fn write_change(
    list: &mut Vec<(String, u16)>,
    free: &mut BTreeSet<u32>,
    index: u32,
    entry: (String, u16),
)
    ensures list { list.new.items ≡ slice_set list.old.items index entry }
    ensures free { (i : ℕ) → has_place free.new i
        ≡ (if (i == index) && not (entry.1 == 0) then false else has_place free.old i) }
{
    if entry.1 != 0 {
        let _ = free.remove(&index);
    }
    write_place(list, index, entry);
}

// Writes to a place of a list, if it is there.
fn write_place(list: &mut Vec<(String, u16)>, index: u32, entry: (String, u16))
    ensures { list.new.items ≡ slice_set list.old.items index entry }
{
    if (index as usize) < list.len() {
        list[index as usize] = entry;
    }
}

// Puts the places of each text of the one map into the other, which has the texts, and takes texts without places out of it.
pub(crate) fn put_rooms(
    room: &mut BTreeMap<String, BTreeSet<u32>>,
    touched: BTreeMap<String, BTreeSet<u32>>,
)
    requires { (t : List ℕ) → IsSome (get_by_text touched t) → IsSome (get_by_text room.old t) }
    ensures { (t : List ℕ) (i : ℕ) → has_room room.new t i
        ≡ option_map_or (λ s. has_place s i) (get_by_text touched t) (has_room room.old t i) }
{
    let mut touched = touched;
    while let Some((text, places)) = touched.pop_first() {
        put_places(room, text.as_str(), places);
    }
}

// Puts the places of a text into a map that has it, and takes a text without places out of it.
fn put_places(room: &mut BTreeMap<String, BTreeSet<u32>>, text: &str, places: BTreeSet<u32>)
    requires { IsSome (get_by_text room.old text.now) }
    ensures room { (t : List ℕ) (i : ℕ) → has_room room.new t i
        ≡ (if bytes_eq t text.now then has_place places i else has_room room.old t i) }
    ensures kept { (t : List ℕ) → bytes_eq t text.now ≡ false → IsSome (get_by_text room.old t)
        → IsSome (get_by_text room.new t) }
{
    if places.is_empty() {
        let _ = room.remove(text);
        return;
    }
    if let Some(held) = room.get_mut(text) {
        *held = places;
    }
}
