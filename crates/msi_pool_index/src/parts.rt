//! The list of places, the set of the free ones, and the map of those that can take one more use of their text.
ghost use Rattle.cfb_medium.specs.declared.error.Error.TheVariants.{Memory};
ghost use Rattle.std.specs.Prelude.{◌≡◌, ◌+◌, ◌<◌, ◌^◌, ◌++◌, ◌∷◌, [], ℕ, List, IfErr, OnErr, OnOk, Some, length, true, false, if◌then◌else◌, ◌&&◌, ◌==◌, bytes_eq, slice_set, slice_index_or, string_bytes, take};
ghost use Rattle.std.specs.Bool.{OnTrue};
ghost use Rattle.msi_pool_index.specs.Places.{empty_pool_entry, released_entry, place_of, places_of};
ghost use Rattle.msi_pool_index.specs.PoolIndex.{PoolIndexParts, KeepsAll, KeepsFree, KeepsRoom, SetsFree, SetsRoom, TakesAtMostSteps, IsLeast};
ghost use Rattle.msi_pool_index.specs.PoolParts.{has_room, has_place};

use crate::steps::Steps;
use cfb_medium::Error;
use std::alloc::Global;
use std::collections::{BTreeMap, BTreeSet};

/// The three parts, reached by these calls alone. A look-up, insertion or removal in the set, in the map or in the set of a
/// text is a step, and so is a place of the list that is read or written. Where the parts lie over others, what is done in
/// both is one step.
pub trait PoolParts: Drop {
    ghost use Rattle.std.specs.Prelude.{ℕ};
    ghost use Rattle.msi_pool_index.specs.PoolIndex.{PoolIndexParts, KeepsAll, KeepsFree, KeepsRoom, SetsFree, SetsRoom, TakesAtMostSteps, IsLeast};

    ghost seen: { Self → PoolIndexParts };

    /// A change of this place takes no memory.
    ghost is_ready: { Self → ℕ → Type 0 };

    /// The number of places.
    fn len(&self) -> usize
        ensures { result ≡ length (seen self.now).places };

    /// The number of uses at a place; past the last 0.
    fn count(&mut self, index: u32) -> u16
        ensures count { result ≡
            (slice_index_or (seen self.old).places index empty_pool_entry).count }
        ensures same { KeepsAll (seen self.old) (seen self.new) }
        ensures cost { TakesAtMostSteps 1 (seen self.old) (seen self.new) };

    /// The least free place.
    fn least_free(&mut self) -> Option<u32>
        ensures least { IsLeast (seen self.old).free result }
        ensures same { KeepsAll (seen self.old) (seen self.new) }
        ensures cost { TakesAtMostSteps 1 (seen self.old) (seen self.new) };

    /// The least place with room for one more use of the text.
    fn least_with_room(&mut self, text: &str) -> Option<u32>
        ensures least { IsLeast ((seen self.old).room text.now) result }
        ensures same { KeepsAll (seen self.old) (seen self.new) }
        ensures cost { TakesAtMostSteps 2 (seen self.old) (seen self.new) };

    /// Takes the memory that later changes of this place want. The one error is Memory.
    fn make_ready(&mut self, index: u32) -> Result<(), Error>
        requires { index < length (seen self.old).places }
        ensures ready { OnOk result (is_ready self.new index) }
        ensures same { KeepsAll (seen self.old) (seen self.new) }
        ensures errors { IfErr result (λ e. e ≡ Memory) }
        ensures cost { TakesAtMostSteps 4 (seen self.old) (seen self.new) };

    /// Notes that a place is free. The one error is Memory.
    fn add_free(&mut self, index: u32) -> Result<(), Error>
        ensures ok { OnOk result (SetsFree index true (seen self.old) (seen self.new)) }
        ensures after_error { OnErr result (KeepsFree (seen self.old) (seen self.new)) }
        ensures errors { IfErr result (λ e. e ≡ Memory) }
        ensures places { (seen self.new).places ≡ (seen self.old).places }
        ensures room { KeepsRoom (seen self.old) (seen self.new) }
        ensures ready { (i : ℕ) → is_ready self.old i → is_ready self.new i }
        ensures cost { TakesAtMostSteps 1 (seen self.old) (seen self.new) };

    /// Notes that the least free place is not free.
    fn remove_free(&mut self, index: u32)
        requires least { IsLeast (seen self.old).free (Some index) }
        requires few { index < 2 ^ 24 }
        ensures free { SetsFree index false (seen self.old) (seen self.new) }
        ensures places { (seen self.new).places ≡ (seen self.old).places }
        ensures room { KeepsRoom (seen self.old) (seen self.new) }
        ensures ready { (i : ℕ) → is_ready self.old i → is_ready self.new i }
        ensures cost { TakesAtMostSteps 1 (seen self.old) (seen self.new) };

    /// Notes that a place has room for one more use of the text. The one error is Memory.
    fn add_room(&mut self, text: &str, index: u32) -> Result<(), Error>
        ensures ok { OnOk result (SetsRoom text.now index true (seen self.old) (seen self.new)) }
        ensures after_error { OnErr result (KeepsRoom (seen self.old) (seen self.new)) }
        ensures errors { IfErr result (λ e. e ≡ Memory) }
        ensures places { (seen self.new).places ≡ (seen self.old).places }
        ensures free { KeepsFree (seen self.old) (seen self.new) }
        ensures ready { (i : ℕ) → is_ready self.old i → is_ready self.new i }
        ensures cost { TakesAtMostSteps 3 (seen self.old) (seen self.new) };

    /// Notes that a place has room for one more use of the text that it holds. The one error is Memory.
    fn add_room_again(&mut self, index: u32) -> Result<(), Error>
        requires { index < length (seen self.old).places }
        ensures ok { OnOk result
            (SetsRoom (slice_index_or (seen self.old).places index empty_pool_entry).text index true
            (seen self.old) (seen self.new)) }
        ensures after_error { OnErr result (KeepsRoom (seen self.old) (seen self.new)) }
        ensures errors { IfErr result (λ e. e ≡ Memory) }
        ensures places { (seen self.new).places ≡ (seen self.old).places }
        ensures free { KeepsFree (seen self.old) (seen self.new) }
        ensures ready { (i : ℕ) → is_ready self.old i → is_ready self.new i }
        ensures cost { TakesAtMostSteps 4 (seen self.old) (seen self.new) };

    /// Notes that a place has no room for one more use of the text that it holds.
    fn remove_room(&mut self, index: u32)
        requires inside { index < length (seen self.old).places }
        requires ready { is_ready self.old index }
        ensures room { SetsRoom
            (slice_index_or (seen self.old).places index empty_pool_entry).text index
            false (seen self.old) (seen self.new) }
        ensures places { (seen self.new).places ≡ (seen self.old).places }
        ensures free { KeepsFree (seen self.old) (seen self.new) }
        ensures ready { (i : ℕ) → is_ready self.old i → is_ready self.new i }
        ensures cost { TakesAtMostSteps 4 (seen self.old) (seen self.new) };

    /// Writes a text and its number of uses to a place.
    fn write(&mut self, index: u32, text: String, count: u16)
        requires inside { index < length (seen self.old).places }
        requires ready { is_ready self.old index }
        ensures places { (seen self.new).places ≡ slice_set (seen self.old).places index
            (record { text = string_bytes text; count = count }) }
        ensures free { KeepsFree (seen self.old) (seen self.new) }
        ensures room { KeepsRoom (seen self.old) (seen self.new) }
        ensures cost { TakesAtMostSteps 1 (seen self.old) (seen self.new) };

    /// Takes a use from a place, and with the last its text.
    fn take_use(&mut self, index: u32)
        requires inside { index < length (seen self.old).places }
        requires used { 0 < (slice_index_or (seen self.old).places index empty_pool_entry).count }
        requires ready { is_ready self.old index }
        ensures places { (seen self.new).places ≡ slice_set (seen self.old).places index
            (released_entry (slice_index_or (seen self.old).places index empty_pool_entry)) }
        ensures free { KeepsFree (seen self.old) (seen self.new) }
        ensures room { KeepsRoom (seen self.old) (seen self.new) }
        ensures cost { TakesAtMostSteps 1 (seen self.old) (seen self.new) };

    /// Makes a place behind the last, for a text with one use, and notes that it has room. The one error is Memory.
    fn push(&mut self, text: String) -> Result<(), Error>
        requires { length (seen self.old).places < 2 ^ 24 }
        ensures ok { OnOk result ((seen self.new).places ≡ (seen self.old).places
            ++ record { text = string_bytes text; count = 1 } ∷ []) }
        ensures room { OnOk result
            (SetsRoom (string_bytes text) (length (seen self.old).places) true
            (seen self.old) (seen self.new)) }
        ensures after_error { OnErr result ((seen self.new).places ≡ (seen self.old).places) }
        ensures same { OnErr result (KeepsRoom (seen self.old) (seen self.new)) }
        ensures errors { IfErr result (λ e. e ≡ Memory) }
        ensures free { KeepsFree (seen self.old) (seen self.new) }
        ensures cost { TakesAtMostSteps 4 (seen self.old) (seen self.new) };
}

/// The list, set and map of std. Each call counts its own steps, in a number that only proofs read.
#[derive(Drop)]
pub struct StdParts {
    pub(crate) list: Vec<(String, u16)>,
    pub(crate) free: BTreeSet<u32>,
    pub(crate) room: BTreeMap<String, BTreeSet<u32>>,
    pub(crate) steps: Steps,
}

impl PoolParts for StdParts {
    ghost use Rattle.msi_pool_index.specs.Places.{places_of};
    ghost use Rattle.msi_pool_index.specs.PoolParts.{parts_of};

    ghost seen = { λ p. parts_of (places_of p.list.items) p.free p.room p.steps.count };

    ghost is_ready = { λ p i. Unit {0} };

    fn len(&self) -> usize {
        self.list.len()
    }

    fn count(&mut self, index: u32) -> u16 {
        self.steps = self.steps.and(&1);
        match self.list.get(index as usize) {
            Some((_, count)) => *count,
            None => 0,
        }
    }

    fn least_free(&mut self) -> Option<u32> {
        self.steps = self.steps.and(&1);
        least(&self.free)
    }

    fn least_with_room(&mut self, text: &str) -> Option<u32> {
        self.steps = self.steps.and(&2);
        least_with_room(&self.room, text)
    }

    fn make_ready(&mut self, _index: u32) -> Result<(), Error> {
        Ok(())
    }

    fn add_free(&mut self, index: u32) -> Result<(), Error> {
        self.steps = self.steps.and(&1);
        let _ = self.free.insert(index)?;
        Ok(())
    }

    fn remove_free(&mut self, index: u32) {
        self.steps = self.steps.and(&1);
        let _ = self.free.remove(&index);
    }

    fn add_room(&mut self, text: &str, index: u32) -> Result<(), Error> {
        self.steps = self.steps.and(&3);
        add_room(*self.list.allocator(), &mut self.room, text, index)
    }

    fn add_room_again(&mut self, index: u32) -> Result<(), Error> {
        self.steps = self.steps.and(&4);
        let alloc = *self.list.allocator();
        let (text, _) = &self.list[index as usize];
        add_room(alloc, &mut self.room, text.as_str(), index)
    }

    fn remove_room(&mut self, index: u32) {
        self.steps = self.steps.and(&4);
        let (text, _) = &self.list[index as usize];
        remove_room(&mut self.room, text.as_str(), index);
    }

    fn write(&mut self, index: u32, text: String, count: u16) {
        self.steps = self.steps.and(&1);
        self.list[index as usize] = (text, count);
    }

    fn take_use(&mut self, index: u32) {
        self.steps = self.steps.and(&1);
        take_one(&mut self.list[index as usize]);
    }

    fn push(&mut self, text: String) -> Result<(), Error> {
        self.steps = self.steps.and(&4);
        let alloc = *self.list.allocator();
        let index = self.list.len() as u32;
        self.list.reserve(1)?;
        add_room(alloc, &mut self.room, text.as_str(), index)?;
        self.list.push((text, 1))?;
        Ok(())
    }
}

// Takes a use away, and with the last the text.
pub(crate) fn take_one(entry: &mut (String, u16))
    requires { 0 < entry.old.1 }
    ensures { place_of entry.new ≡ released_entry (place_of entry.old) }
{
    entry.1 -= 1;
    if entry.1 == 0 {
        entry.0.clear();
    }
}

// The least place of a set.
pub(crate) fn least(places: &BTreeSet<u32>) -> Option<u32>
    ensures { IsLeast (has_place places.now) result }
{
    places.first().copied()
}

// The least place of a text.
pub(crate) fn least_with_room(room: &BTreeMap<String, BTreeSet<u32>>, text: &str) -> Option<u32>
    ensures { IsLeast (has_room room.now text.now) result }
{
    match room.get(text) {
        Some(places) => least(places),
        None => None,
    }
}

// Adds a place to those of a text.
pub(crate) fn add_room(
    alloc: Global,
    room: &mut BTreeMap<String, BTreeSet<u32>>,
    text: &str,
    index: u32,
) -> Result<(), Error>
    ensures ok { OnOk result ((t : List ℕ) (i : ℕ) → has_room room.new t i
        ≡ (if bytes_eq t text.now && (i == index) then true else has_room room.old t i)) }
    ensures after_error { OnErr result ((t : List ℕ) (i : ℕ) → has_room room.new t i
        ≡ has_room room.old t i) }
    ensures errors { IfErr result (λ e. e ≡ Memory) }
{
    match room.get_mut(text) {
        Some(places) => {
            let _ = places.insert(index)?;
        }
        None => {
            let mut places = BTreeSet::new(alloc);
            let _ = places.insert(index)?;
            let _ = room.insert(String::from_str(alloc, text)?, places)?;
        }
    }
    Ok(())
}

// Takes a place from those of a text, and with the last the text.
fn remove_room(room: &mut BTreeMap<String, BTreeSet<u32>>, text: &str, index: u32)
    ensures { (t : List ℕ) (i : ℕ) → has_room room.new t i
        ≡ (if bytes_eq t text.now && (i == index) then false else has_room room.old t i) }
{
    if take_room(room, text, index) {
        let _ = room.remove(text);
    }
}

// Takes a place from those of a text, and tells whether it was the last.
fn take_room(room: &mut BTreeMap<String, BTreeSet<u32>>, text: &str, index: u32) -> bool
    ensures room { (t : List ℕ) (i : ℕ) → has_room room.new t i
        ≡ (if bytes_eq t text.now && (i == index) then false else has_room room.old t i) }
    ensures last { OnTrue result ((i : ℕ) → has_room room.new text.now i ≡ false) }
{
    match room.get_mut(text) {
        Some(places) => {
            let _ = places.remove(&index);
            places.is_empty()
        }
        None => false,
    }
}
