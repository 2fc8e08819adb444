//! The list of places with its index: what finds the place for a text without going through the list.
ghost use Rattle.cfb_medium.specs.declared.error.Error.TheVariants.{InvalidData, InvalidInput, Memory};
ghost use Rattle.std.specs.Prelude.{◌≡◌, ◌↔◌, ◌⊎◌, ◌+◌, ◌<◌, ◌≤◌, ◌^◌, ◌&&◌, nat_le, ℕ, [], IfErr, IfOk, IsErrOf, OnErr, OnOk, Some, length, slice_index_or, slice_set, string_bytes};
ghost use Rattle.msi_pool_index.specs.Places.{pool_entry_at, empty_pool_entry, place_among, places_of, with_refcount_up, with_refcount_down};
ghost use Rattle.msi_pool_index.specs.PoolParts.{has_place};
ghost use Rattle.msi_pool_index.specs.PoolIndex.{PoolIndexMatches, IsLeast, KeepsAll, TakesAtMostSteps, is_free, is_roomy, passes_at};

use crate::indexing::list_with_index;
use crate::parts::{PoolParts, StdParts, least_with_room};
use crate::steps::Steps;
use cfb_medium::Error;
use std::alloc::Global;
use std::collections::{BTreeMap, BTreeSet};
use std::marker::Model;

/// The places of a pool with their index, over whatever meets `PoolParts`, and the steps that were taken on them.
#[derive(Drop)]
pub struct Places<P: PoolParts = StdParts> {
    pub(crate) parts: P,
}

impl<P: PoolParts> Model for Places<P> {
    ghost use Rattle.msi_pool_index.specs.PoolIndex.{Counted, PoolIndexMatches, counted};

    ghost Value = { Counted };

    ghost view = { λ p. counted (P.seen p.parts) };

    ghost invariant = { λ p. PoolIndexMatches (P.seen p.parts) };
}

impl Places {
    /// No places, on which no step was taken.
    pub fn new(alloc: Global) -> Places
        ensures places { result.places ≡ [] }
        ensures steps { result.steps ≡ 0 }
    {
        Places {
            parts: StdParts {
                list: Vec::new(alloc),
                free: BTreeSet::new(alloc),
                room: BTreeMap::new(alloc),
                steps: Steps::none(),
            },
        }
    }

    /// These places, on which no step was taken. The one error is Memory.
    pub fn of(alloc: Global, list: Vec<(String, u16)>) -> Result<Places, Error>
        requires { length list.items < 2 ^ 32 }
        ensures ok { IfOk result (λ places. places.places ≡ places_of list.items) }
        ensures steps { IfOk result (λ places. places.steps ≡ 0) }
        ensures errors { IfErr result (λ e. e ≡ Memory) }
    {
        let parts = list_with_index(alloc, list)?;
        Ok(Places { parts })
    }

    /// The texts with their numbers of uses.
    pub fn list(&self) -> &[(String, u16)]
        ensures list { places_of result.now ≡ self.now.places }
        ensures few { length result.now < 2 ^ 32 }
    {
        self.parts.list.as_slice()
    }

    // The least free place from this one on.
    pub(crate) fn next_free(&self, first: u32) -> Option<u32>
        ensures { IsLeast (λ i. passes_at is_free self.now.places i && nat_le first i) result }
    {
        self.parts.free.range(first..).next().copied()
    }

    // The least place with room for one more use of the text.
    pub(crate) fn least_with_room(&self, text: &str) -> Option<u32>
        ensures { IsLeast (passes_at (is_roomy text.now) self.now.places) result }
    {
        least_with_room(&self.parts.room, text)
    }

    // A copy of the set of places with room for one more use of the text. The one error is Memory.
    pub(crate) fn places_with_room(&self, alloc: Global, text: &str) -> Result<BTreeSet<u32>, Error>
        ensures ok { IfOk result (λ places. (i : ℕ) → has_place places i
            ≡ passes_at (is_roomy text.now) self.now.places i) }
        ensures errors { IfErr result (λ e. e ≡ Memory) }
    {
        match self.parts.room.get(text) {
            Some(places) => Ok(places.clone()?),
            None => Ok(BTreeSet::new(alloc)),
        }
    }
}

impl<P: PoolParts> Places<P> {
    /// The number of places.
    pub fn len(&self) -> u32
        ensures { result ≡ length self.now.places }
    {
        self.parts.len() as u32
    }

    /// The number of uses at the place of this index, in one step; past the last 0.
    pub fn refcount(&mut self, index: u32) -> u16
        ensures count { result ≡ (pool_entry_at self.old.places (index + 1)).count }
        ensures places { self.new.places ≡ self.old.places }
        ensures under { self.new.under ≡ self.old.under }
        ensures steps { self.new.steps ≤ self.old.steps + 1 }
    {
        self.parts.count(index)
    }

    /// Counts a use of the text at the least place that takes it, else at a new place, and tells its number, in at most sixteen
    /// steps. InvalidInput where that is above the last; then, and after Memory, the places are as they were.
    pub fn incref(&mut self, text: String, last: u32) -> Result<u32, Error>
        requires { last < 2 ^ 24 }
        ensures place { IfOk result (λ n. n ≡ place_among (string_bytes text) self.old.places) }
        ensures inside { IfOk result (λ n. (0 < n) × (n ≤ last)) }
        ensures counted { OnOk result (self.new.places
            ≡ with_refcount_up (string_bytes text) self.old.places) }
        ensures full_only_if { IsErrOf result InvalidInput
            ↔ (last < place_among (string_bytes text) self.old.places) }
        ensures errors { IfErr result (λ e. (e ≡ Memory) ⊎ (e ≡ InvalidInput)) }
        ensures after_error { OnErr result (self.new.places ≡ self.old.places) }
        ensures few { length self.new.places < 2 ^ 32 }
        ensures under { self.new.under ≡ self.old.under }
        ensures steps { self.new.steps ≤ self.old.steps + 16 }
    {
        let index = first_place(&mut self.parts, text.as_str());
        if last <= index {
            return Err(Error::InvalidInput);
        }
        count_at(&mut self.parts, index, text)?;
        Ok(index + 1)
    }

    /// Takes back a use at the place of this index, in at most sixteen steps. InvalidData where it has none; then, and after
    /// Memory, the places are as they were.
    pub fn decref(&mut self, index: u32) -> Result<(), Error>
        ensures ok { OnOk result
            (self.new.places ≡ with_refcount_down (index + 1) self.old.places) }
        ensures unused { IsErrOf result InvalidData
            ↔ ((pool_entry_at self.old.places (index + 1)).count ≡ 0) }
        ensures errors { IfErr result (λ e. (e ≡ Memory) ⊎ (e ≡ InvalidData)) }
        ensures after_error { OnErr result (self.new.places ≡ self.old.places) }
        ensures few { length self.new.places < 2 ^ 32 }
        ensures under { self.new.under ≡ self.old.under }
        ensures steps { self.new.steps ≤ self.old.steps + 16 }
    {
        uncount_at(&mut self.parts, index)
    }
}

// The index of the place where the next use of the text goes.
fn first_place<P: PoolParts>(parts: &mut P, text: &str) -> u32
    requires { PoolIndexMatches (P.seen parts.old) }
    ensures place { result + 1 ≡ place_among text.now (P.seen parts.old).places }
    ensures same { KeepsAll (P.seen parts.old) (P.seen parts.new) }
    ensures cost { TakesAtMostSteps 3 (P.seen parts.old) (P.seen parts.new) }
{
    let end = parts.len() as u32;
    let free = parts.least_free().unwrap_or(end);
    let open = parts.least_with_room(text).unwrap_or(end);
    free.min(open)
}

// Counts a use of the text at the place where the next use goes. After Memory the places are as they were.
fn count_at<P: PoolParts>(parts: &mut P, index: u32, text: String) -> Result<(), Error>
    requires index { PoolIndexMatches (P.seen parts.old) }
    requires place { index + 1 ≡ place_among (string_bytes text) (P.seen parts.old).places }
    requires few { index < 2 ^ 24 }
    ensures ok { OnOk result ((P.seen parts.new).places
        ≡ with_refcount_up (string_bytes text) (P.seen parts.old).places) }
    ensures after_error { OnErr result ((P.seen parts.new).places ≡ (P.seen parts.old).places) }
    ensures errors { IfErr result (λ e. e ≡ Memory) }
    ensures index { PoolIndexMatches (P.seen parts.new) }
    ensures cost { TakesAtMostSteps 10 (P.seen parts.old) (P.seen parts.new) }
{
    if parts.len() <= index as usize {
        return parts.push(text);
    }
    let count = parts.count(index);
    if count == 0 {
        return use_free(parts, index, text);
    }
    use_again(parts, index, text, count)
}

// Gives a free place to the text. After Memory the places are as they were.
fn use_free<P: PoolParts>(parts: &mut P, index: u32, text: String) -> Result<(), Error>
    requires index { PoolIndexMatches (P.seen parts.old) }
    requires inside { index < length (P.seen parts.old).places }
    requires free { (slice_index_or (P.seen parts.old).places index empty_pool_entry).count ≡ 0 }
    requires least { IsLeast (P.seen parts.old).free (Some index) }
    requires few { index < 2 ^ 24 }
    ensures ok { OnOk result ((P.seen parts.new).places ≡ slice_set (P.seen parts.old).places index
        (record { text = string_bytes text; count = 1 })) }
    ensures after_error { OnErr result ((P.seen parts.new).places ≡ (P.seen parts.old).places) }
    ensures errors { IfErr result (λ e. e ≡ Memory) }
    ensures index { PoolIndexMatches (P.seen parts.new) }
    ensures cost { TakesAtMostSteps 9 (P.seen parts.old) (P.seen parts.new) }
{
    match parts.make_ready(index) {
        Err(error) => return Err(error),
        Ok(()) => {}
    }
    match parts.add_room(text.as_str(), index) {
        Err(error) => return Err(error),
        Ok(()) => {}
    }
    parts.remove_free(index);
    parts.write(index, text, 1);
    Ok(())
}

// Counts one more use at a place that holds the text with this count. After Memory the places are as they were.
fn use_again<P: PoolParts>(parts: &mut P, index: u32, text: String, count: u16) -> Result<(), Error>
    requires index { PoolIndexMatches (P.seen parts.old) }
    requires inside { index < length (P.seen parts.old).places }
    requires place { slice_index_or (P.seen parts.old).places index empty_pool_entry
        ≡ record { text = string_bytes text; count = count } }
    requires used { 0 < count }
    requires room { count < 65535 }
    ensures ok { OnOk result ((P.seen parts.new).places ≡ slice_set (P.seen parts.old).places index
        (record { text = string_bytes text; count = count + 1 })) }
    ensures after_error { OnErr result ((P.seen parts.new).places ≡ (P.seen parts.old).places) }
    ensures errors { IfErr result (λ e. e ≡ Memory) }
    ensures index { PoolIndexMatches (P.seen parts.new) }
    ensures cost { TakesAtMostSteps 9 (P.seen parts.old) (P.seen parts.new) }
{
    match parts.make_ready(index) {
        Err(error) => return Err(error),
        Ok(()) => {}
    }
    if count == 65534 {
        parts.remove_room(index);
        parts.write(index, text, 65535);
    } else {
        parts.write(index, text, count + 1);
    }
    Ok(())
}

// Takes back a use at a place. InvalidData where it has none; then, and after Memory, the places are as they were.
fn uncount_at<P: PoolParts>(parts: &mut P, index: u32) -> Result<(), Error>
    requires { PoolIndexMatches (P.seen parts.old) }
    ensures ok { OnOk result ((P.seen parts.new).places
        ≡ with_refcount_down (index + 1) (P.seen parts.old).places) }
    ensures unused { IsErrOf result InvalidData
        ↔ ((slice_index_or (P.seen parts.old).places index empty_pool_entry).count ≡ 0) }
    ensures errors { IfErr result (λ e. (e ≡ Memory) ⊎ (e ≡ InvalidData)) }
    ensures after_error { OnErr result ((P.seen parts.new).places ≡ (P.seen parts.old).places) }
    ensures index { PoolIndexMatches (P.seen parts.new) }
    ensures cost { TakesAtMostSteps 11 (P.seen parts.old) (P.seen parts.new) }
{
    match parts.count(index) {
        0 => Err(Error::InvalidData),
        1 => free_place(parts, index),
        65535 => leave_full(parts, index),
        _ => take_one_of_more(parts, index),
    }
}

// Takes back a use at a place that can take no further one. After Memory the places are as they were.
fn leave_full<P: PoolParts>(parts: &mut P, index: u32) -> Result<(), Error>
    requires index { PoolIndexMatches (P.seen parts.old) }
    requires full { (slice_index_or (P.seen parts.old).places index empty_pool_entry).count
        ≡ 65535 }
    ensures ok { OnOk result ((P.seen parts.new).places
        ≡ with_refcount_down (index + 1) (P.seen parts.old).places) }
    ensures after_error { OnErr result ((P.seen parts.new).places ≡ (P.seen parts.old).places) }
    ensures errors { IfErr result (λ e. e ≡ Memory) }
    ensures index { PoolIndexMatches (P.seen parts.new) }
    ensures cost { TakesAtMostSteps 10 (P.seen parts.old) (P.seen parts.new) }
{
    match parts.make_ready(index) {
        Err(error) => return Err(error),
        Ok(()) => {}
    }
    match parts.add_room_again(index) {
        Err(error) => return Err(error),
        Ok(()) => {}
    }
    parts.take_use(index);
    Ok(())
}

// Takes back the only use at a place. After Memory the places are as they were.
fn free_place<P: PoolParts>(parts: &mut P, index: u32) -> Result<(), Error>
    requires index { PoolIndexMatches (P.seen parts.old) }
    requires used { (slice_index_or (P.seen parts.old).places index empty_pool_entry).count ≡ 1 }
    ensures ok { OnOk result ((P.seen parts.new).places
        ≡ with_refcount_down (index + 1) (P.seen parts.old).places) }
    ensures after_error { OnErr result ((P.seen parts.new).places ≡ (P.seen parts.old).places) }
    ensures errors { IfErr result (λ e. e ≡ Memory) }
    ensures index { PoolIndexMatches (P.seen parts.new) }
    ensures cost { TakesAtMostSteps 10 (P.seen parts.old) (P.seen parts.new) }
{
    match parts.make_ready(index) {
        Err(error) => return Err(error),
        Ok(()) => {}
    }
    match parts.add_free(index) {
        Err(error) => return Err(error),
        Ok(()) => {}
    }
    parts.remove_room(index);
    parts.take_use(index);
    Ok(())
}

// Takes back one of several uses at a place. After Memory the places are as they were.
fn take_one_of_more<P: PoolParts>(parts: &mut P, index: u32) -> Result<(), Error>
    requires index { PoolIndexMatches (P.seen parts.old) }
    requires several { 1 < (slice_index_or (P.seen parts.old).places index empty_pool_entry).count }
    requires room { (slice_index_or (P.seen parts.old).places index empty_pool_entry).count < 65535 }
    ensures ok { OnOk result ((P.seen parts.new).places
        ≡ with_refcount_down (index + 1) (P.seen parts.old).places) }
    ensures after_error { OnErr result ((P.seen parts.new).places ≡ (P.seen parts.old).places) }
    ensures errors { IfErr result (λ e. e ≡ Memory) }
    ensures index { PoolIndexMatches (P.seen parts.new) }
    ensures cost { TakesAtMostSteps 5 (P.seen parts.old) (P.seen parts.new) }
{
    match parts.make_ready(index) {
        Err(error) => return Err(error),
        Ok(()) => {}
    }
    parts.take_use(index);
    Ok(())
}
