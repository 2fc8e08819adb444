//! Places with changes to take over, for which all memory was taken before.
ghost use Rattle.cfb_medium.specs.declared.error.Error.TheVariants.{Memory};
ghost use Rattle.std.specs.Prelude.{◌≡◌, ◌≤◌, ◌+◌, ◌||◌, ◌++◌, ℕ, IfErr, IfOk, OnErr, OnOk, vec_capacity, vec_len};
ghost use Rattle.msi_pool_index.specs.Places.{places_of};
ghost use Rattle.msi_pool_index.specs.PoolDraft.{AreChangesOf, taken_over};
ghost use Rattle.msi_pool_index.specs.PoolIndex.{is_free, passes_at};
ghost use Rattle.msi_pool_index.specs.PoolParts.{has_place};

use crate::draftparts::Changes;
use crate::drafts::{add_places, drop_used, hold_texts, put_rooms, write_changes};
use crate::parts::StdParts;
use crate::places::Places;
use cfb_medium::Error;
use std::collections::BTreeSet;
use std::marker::Model;

/// Places with what a draft changed of them, which they can take over without memory.
#[derive(Drop)]
pub struct ReadyPlaces {
    parts: StdParts,
    changes: Changes,
}

impl Model for ReadyPlaces {
    ghost use Rattle.msi_pool_index.specs.Places.{places_of};
    ghost use Rattle.msi_pool_index.specs.PoolDraft.{taken_over};
    ghost use Rattle.msi_pool_index.specs.PoolReady.{PlacesHaveRoom, Ready};

    ghost Value = { Ready };

    ghost view = { λ p. record { places = places_of p.parts.list.items; steps = p.parts.steps.count; next = taken_over (places_of p.parts.list.items) p.changes; next_steps = p.changes.below.count } };

    ghost invariant = { λ p. PlacesHaveRoom p.parts.list p.parts.free p.parts.room p.changes };
}

impl Places {
    /// Takes the memory that these changes want. After Memory, the one error, the places come back as they were.
    pub fn make_room(self, changes: Changes) -> Result<ReadyPlaces, (Places, Error)>
        requires { AreChangesOf self.places changes }
        ensures places { IfOk result (λ ready. ready.places ≡ self.places) }
        ensures steps { IfOk result (λ ready. ready.steps ≡ self.steps) }
        ensures next { IfOk result (λ ready. ready.next ≡ taken_over self.places changes) }
        ensures next_steps { IfOk result (λ ready. ready.next_steps ≡ changes.below.count) }
        ensures after_error { IfErr result (λ e. e.0.places ≡ self.places) }
        ensures same_steps { IfErr result (λ e. e.0.steps ≡ self.steps) }
        ensures errors { IfErr result (λ e. e.1 ≡ Memory) }
    {
        let StdParts {
            mut list,
            mut free,
            mut room,
            steps,
        } = self.parts;
        let alloc = *list.allocator();
        match hold_texts(alloc, &mut room, &changes.room) {
            Ok(()) => {}
            Err(error) => return Err((
                Places {
                    parts: StdParts {
                        list,
                        free,
                        room,
                        steps,
                    },
                },
                error,
            )),
        }
        match make_space(&mut list, &mut free, &changes.given, changes.added.len()) {
            Ok(()) => {
                let parts = StdParts {
                    list,
                    free,
                    room,
                    steps,
                };
                Ok(ReadyPlaces { parts, changes })
            }
            Err(error) => Err((
                Places {
                    parts: StdParts {
                        list,
                        free,
                        room,
                        steps,
                    },
                },
                error,
            )),
        }
    }
}

impl ReadyPlaces {
    /// The places with the changes, with the count of steps that there was when the draft was made.
    pub fn adopt(self) -> Places
        ensures places { result.places ≡ self.next }
        ensures steps { result.steps ≡ self.next_steps }
    {
        let StdParts {
            mut list,
            mut free,
            mut room,
            steps: _,
        } = self.parts;
        let Changes {
            changed,
            added,
            given: _,
            passed: _,
            room: touched,
            below,
        } = self.changes;
        let end = list.len();
        add_to_list(&mut list, added);
        write_changes(&mut list, &mut free, changed, end);
        put_rooms(&mut room, touched);
        Places {
            parts: StdParts {
                list,
                free,
                room,
                steps: below,
            },
        }
    }

    /// The places as they were, with their count of steps.
    pub fn give_up(self) -> Places
        ensures places { result.places ≡ self.places }
        ensures steps { result.steps ≡ self.steps }
    {
        let StdParts {
            list,
            mut free,
            room,
            steps,
        } = self.parts;
        drop_used(list.as_slice(), &mut free, &self.changes.given);
        Places {
            parts: StdParts {
                list,
                free,
                room,
                steps,
            },
        }
    }
}

// Adds places that became free to the free ones of a list, and makes room for so many places behind its last. After Memory, the
// one error, both are as they were.
fn make_space(
    list: &mut Vec<(String, u16)>,
    free: &mut BTreeSet<u32>,
    given: &BTreeSet<u32>,
    more: usize,
) -> Result<(), Error>
    requires { (i : ℕ) → has_place free.old i ≡ passes_at is_free (places_of list.old.items) i }
    ensures list { list.new.items ≡ list.old.items }
    ensures space { OnOk result (vec_len list.new + more ≤ vec_capacity list.new) }
    ensures free { OnOk result ((i : ℕ) → has_place free.new i
        ≡ (has_place free.old i || has_place given.now i)) }
    ensures same_free { OnErr result ((i : ℕ) → has_place free.new i ≡ has_place free.old i) }
    ensures errors { IfErr result (λ e. e ≡ Memory) }
{
    list.reserve(more)?;
    match add_places(free, given) {
        Ok(()) => Ok(()),
        Err(error) => {
            drop_used(list.as_slice(), free, given);
            Err(error)
        }
    }
}

// Appends places to a list that has room for them.
fn add_to_list(list: &mut Vec<(String, u16)>, added: Vec<(String, u16)>)
    requires { vec_len list.old + vec_len added ≤ vec_capacity list.old }
    ensures { list.new.items ≡ list.old.items ++ added.items }
{
    let mut added = added;
    let _ = list.append(&mut added);
}
