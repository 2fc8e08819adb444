//! Places that borrow a list and hold only what changed of it.
ghost use Rattle.cfb_medium.specs.declared.error.Error.TheVariants.{Memory};
ghost use Rattle.std.specs.Prelude.{◌≡◌, ◌<◌, ◌≤◌, ◌+◌, ◌==◌, ◌&&◌, ◌||◌, ◌++◌, option_map, ℕ, Bool, List, true, false, length, if◌then◌else◌, bytes_eq, slice_index_or, string_bytes, IsSome, IfErr, IfNone, IfOk, IfSome, OnErr, OnOk};
ghost use Rattle.std.specs.BTreeMap.{get, get_by_text};
ghost use Rattle.std.specs.Ordering.{nat_cmp};
ghost use Rattle.msi_pool_index.specs.Places.{PoolEntry, empty_pool_entry, released_entry, place_of, places_of};
ghost use Rattle.msi_pool_index.specs.PoolIndex.{IsLeast};
ghost use Rattle.msi_pool_index.specs.PoolDraft.{laid, place_in, room_over};

use crate::parts::{PoolParts, least, take_one};
use crate::places::Places;
use crate::steps::Steps;
use cfb_medium::Error;
use std::alloc::Global;
use std::collections::{BTreeMap, BTreeSet};

/// What changed of a list of places.
#[derive(Drop)]
pub struct Changes {
    // Places of the list with another text or count.
    pub(crate) changed: BTreeMap<u32, (String, u16)>,
    // Places behind its last.
    pub(crate) added: Vec<(String, u16)>,
    // Places that became free.
    pub(crate) given: BTreeSet<u32>,
    // The free places of the list below this one are taken, but for those that became free again.
    pub(crate) passed: u32,
    // Of each text that was touched, all places with room for one more use.
    pub(crate) room: BTreeMap<String, BTreeSet<u32>>,
    // The steps that were taken on the list below this one.
    pub(crate) below: Steps,
}

/// The list, set and map of a draft: what changed, over places that it borrows. The first change of a text copies the set of
/// its places, which mostly has one.
#[derive(Drop)]
pub struct DraftParts<'a> {
    pub(crate) base: &'a Places,
    pub(crate) changes: Changes,
    pub(crate) steps: Steps,
}

impl<'a> PoolParts for DraftParts<'a> {
    ghost use Rattle.msi_pool_index.specs.PoolDraft.{DraftHoldsPlace, drafted};

    ghost seen = { λ d. drafted (record { places = d.base.now.places; steps = d.base.now.steps }) d.changes d.steps.count };

    ghost is_ready = { λ d i. DraftHoldsPlace d.base.now.places d.changes i };

    fn len(&self) -> usize {
        self.base.list().len() + self.changes.added.len()
    }

    fn count(&mut self, index: u32) -> u16 {
        self.steps = self.steps.and(&1);
        match place_at(self.base, &self.changes.changed, &self.changes.added, index) {
            Some((_, count)) => *count,
            None => 0,
        }
    }

    fn least_free(&mut self) -> Option<u32> {
        self.steps = self.steps.and(&1);
        let given = least(&self.changes.given);
        lesser(given, self.base.next_free(self.changes.passed))
    }

    fn least_with_room(&mut self, text: &str) -> Option<u32> {
        self.steps = self.steps.and(&2);
        match self.changes.room.get(text) {
            Some(places) => least(places),
            None => self.base.least_with_room(text),
        }
    }

    fn make_ready(&mut self, index: u32) -> Result<(), Error> {
        self.steps = self.steps.and(&4);
        let alloc = *self.changes.added.allocator();
        hold_place(alloc, self.base, &mut self.changes.changed, index)?;
        match place_at(self.base, &self.changes.changed, &self.changes.added, index) {
            Some((text, _)) => hold_text(alloc, self.base, &mut self.changes.room, text.as_str()),
            None => Ok(()),
        }
    }

    fn add_free(&mut self, index: u32) -> Result<(), Error> {
        self.steps = self.steps.and(&1);
        let _ = self.changes.given.insert(index)?;
        Ok(())
    }

    fn remove_free(&mut self, index: u32) {
        self.steps = self.steps.and(&1);
        let _ = self.changes.given.remove(&index);
        if self.changes.passed <= index {
            self.changes.passed = index + 1;
        }
    }

    fn add_room(&mut self, text: &str, index: u32) -> Result<(), Error> {
        self.steps = self.steps.and(&3);
        let alloc = *self.changes.added.allocator();
        put_room(alloc, self.base, &mut self.changes.room, text, index)
    }

    fn add_room_again(&mut self, index: u32) -> Result<(), Error> {
        self.steps = self.steps.and(&4);
        let alloc = *self.changes.added.allocator();
        match place_at(self.base, &self.changes.changed, &self.changes.added, index) {
            Some((text, _)) => {
                put_room(
                    alloc,
                    self.base,
                    &mut self.changes.room,
                    text.as_str(),
                    index,
                )
            }
            None => Ok(()),
        }
    }

    fn remove_room(&mut self, index: u32) {
        self.steps = self.steps.and(&4);
        match place_at(self.base, &self.changes.changed, &self.changes.added, index) {
            Some((text, _)) => drop_room(&mut self.changes.room, text.as_str(), index),
            None => {}
        }
    }

    fn write(&mut self, index: u32, text: String, count: u16) {
        self.steps = self.steps.and(&1);
        let first_added = self.base.list().len();
        if (index as usize) < first_added {
            write_changed(&mut self.changes.changed, index, text, count);
        } else {
            self.changes.added[index as usize - first_added] = (text, count);
        }
    }

    fn take_use(&mut self, index: u32) {
        self.steps = self.steps.and(&1);
        let first_added = self.base.list().len();
        if (index as usize) < first_added {
            take_changed(&mut self.changes.changed, index);
        } else {
            take_one(&mut self.changes.added[index as usize - first_added]);
        }
    }

    fn push(&mut self, text: String) -> Result<(), Error> {
        self.steps = self.steps.and(&4);
        let alloc = *self.changes.added.allocator();
        let index = self.len() as u32;
        self.changes.added.reserve(1)?;
        put_room(
            alloc,
            self.base,
            &mut self.changes.room,
            text.as_str(),
            index,
        )?;
        self.changes.added.push((text, 1))?;
        Ok(())
    }
}

// What stands at a place of the draft.
fn place_at<'b>(
    base: &'b Places,
    changed: &'b BTreeMap<u32, (String, u16)>,
    added: &'b [(String, u16)],
    index: u32,
) -> Option<&'b (String, u16)>
    ensures some { IfSome result (λ entry. place_of entry.now ≡ slice_index_or
        (laid (place_in changed.now) base.now.places ++ places_of added.now) index
        empty_pool_entry) }
    ensures none { IfNone result (length (laid (place_in changed.now) base.now.places
        ++ places_of added.now) ≤ index) }
{
    let list = base.list();
    if list.len() <= index as usize {
        return added.get(index as usize - list.len());
    }
    match changed.get(&index) {
        Some(entry) => Some(entry),
        None => list.get(index as usize),
    }
}

// The lesser of two, or the one that there is.
fn lesser(one: Option<u32>, other: Option<u32>) -> Option<u32>
    ensures { (p q : ℕ → Bool) → IsLeast p one → IsLeast q other
        → IsLeast (λ i. p i || q i) result }
{
    match (one, other) {
        (Some(one), Some(other)) => Some(one.min(other)),
        (Some(one), None) => Some(one),
        (None, other) => other,
    }
}

// Copies a place of the list to the changed ones, where they lack it. The one error is Memory.
fn hold_place(
    alloc: Global,
    base: &Places,
    changed: &mut BTreeMap<u32, (String, u16)>,
    index: u32,
) -> Result<(), Error>
    ensures ok { OnOk result (index < length base.now.places
        → IsSome (get nat_cmp changed.new index)) }
    ensures same { laid (place_in changed.new) base.now.places
        ≡ laid (place_in changed.old) base.now.places }
    ensures kept { (i : ℕ) → IsSome (get nat_cmp changed.old i)
        → IsSome (get nat_cmp changed.new i) }
    ensures errors { IfErr result (λ e. e ≡ Memory) }
{
    if changed.contains_key(&index) {
        return Ok(());
    }
    match base.list().get(index as usize) {
        Some((text, count)) => {
            let _ = changed.insert(index, (String::from_str(alloc, text)?, *count))?;
            Ok(())
        }
        None => Ok(()),
    }
}

// Copies the places of a text, where the map lacks it. The one error is Memory.
fn hold_text(
    alloc: Global,
    base: &Places,
    room: &mut BTreeMap<String, BTreeSet<u32>>,
    text: &str,
) -> Result<(), Error>
    ensures ok { OnOk result (IsSome (get_by_text room.new text.now)) }
    ensures same { (t : List ℕ) (i : ℕ) → room_over room.new base.now.places t i
        ≡ room_over room.old base.now.places t i }
    ensures kept { (t : List ℕ) → IsSome (get_by_text room.old t)
        → IsSome (get_by_text room.new t) }
    ensures errors { IfErr result (λ e. e ≡ Memory) }
{
    if room.contains_key(text) {
        return Ok(());
    }
    let places = base.places_with_room(alloc, text)?;
    let _ = room.insert(String::from_str(alloc, text)?, places)?;
    Ok(())
}

// Adds a place to those of a text. The one error is Memory.
fn put_room(
    alloc: Global,
    base: &Places,
    room: &mut BTreeMap<String, BTreeSet<u32>>,
    text: &str,
    index: u32,
) -> Result<(), Error>
    ensures ok { OnOk result ((t : List ℕ) (i : ℕ) → room_over room.new base.now.places t i
        ≡ (if bytes_eq t text.now && (i == index) then true
        else room_over room.old base.now.places t i)) }
    ensures after_error { OnErr result
        ((t : List ℕ) (i : ℕ) → room_over room.new base.now.places t i
        ≡ room_over room.old base.now.places t i) }
    ensures kept { (t : List ℕ) → IsSome (get_by_text room.old t)
        → IsSome (get_by_text room.new t) }
    ensures errors { IfErr result (λ e. e ≡ Memory) }
{
    hold_text(alloc, base, room, text)?;
    if let Some(places) = room.get_mut(text) {
        let _ = places.insert(index)?;
    }
    Ok(())
}

// Takes a place from those of a text that the map has.
fn drop_room(room: &mut BTreeMap<String, BTreeSet<u32>>, text: &str, index: u32)
    requires { IsSome (get_by_text room.old text.now) }
    ensures room { (ps : List PoolEntry) (t : List ℕ) (i : ℕ) → room_over room.new ps t i
        ≡ (if bytes_eq t text.now && (i == index) then false else room_over room.old ps t i) }
    ensures kept { (t : List ℕ) → IsSome (get_by_text room.old t)
        → IsSome (get_by_text room.new t) }
{
    if let Some(places) = room.get_mut(text) {
        let _ = places.remove(&index);
    }
}

// Takes a use from a changed place, and with the last its text.
fn take_changed(changed: &mut BTreeMap<u32, (String, u16)>, index: u32)
    requires there { IsSome (place_in changed.old index) }
    requires used { IfSome (place_in changed.old index) (λ p. 0 < p.count) }
    ensures { (i : ℕ) → place_in changed.new i
        ≡ (if i == index then option_map released_entry (place_in changed.old index)
        else place_in changed.old i) }
{
    if let Some(entry) = changed.get_mut(&index) {
        take_one(entry);
    }
}

// Writes to a changed place.
fn write_changed(changed: &mut BTreeMap<u32, (String, u16)>, index: u32, text: String, count: u16)
    requires { IsSome (place_in changed.old index) }
    ensures { (i : ℕ) → place_in changed.new i
        ≡ (if i == index then Some (record { text = string_bytes text; count = count })
        else place_in changed.old i) }
{
    if let Some(entry) = changed.get_mut(&index) {
        *entry = (text, count);
    }
}
