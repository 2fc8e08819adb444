//! Drafts of a pool, which hold only what they changed.
ghost use Rattle.std.specs.Prelude.{◌≡◌, ◌↔◌, ◌⊎◌, ◌+◌, ◌≤◌, Some, None, IfOk, OnOk, OnErr, IfErr, IsErrOf, string_bytes};
ghost use Rattle.msi_pool.specs.Pool.{pool_entry_at, place, used, with_refcount_down};
ghost use Rattle.msi_pool.specs.PoolDraft.{AreChangesOver, adopted};
ghost use Rattle.msi_pool.specs.PoolState.{changed_to};
ghost use Rattle.cfb_medium.specs.declared.error.Error.TheVariants.{InvalidInput, InvalidData, Memory};

use crate::stringpool::{StringPool, last_place};
use crate::stringref::StringRef;
use cfb_medium::Error;
use msi_pool_index::{Changes, DraftParts, Places};
use msi_texts::CodePage;
use std::marker::Model;

/// Counts uses of texts at places: a pool, or a draft of one.
pub trait CountsUses: Drop {
    ghost use Rattle.std.specs.Prelude.{ℕ, List};
    ghost use Rattle.msi_pool.specs.Pool.{PoolEntry};
    ghost use Rattle.msi_pool.specs.PoolState.{PoolState};

    /// The pool that is seen. Its count of steps stays as it is.
    ghost state: { Self → PoolState };

    /// The steps that were taken.
    ghost steps: { Self → ℕ };

    /// The places of the pool that it lies over.
    ghost under: { Self → List PoolEntry };

    /// Counts a use of the text at the least place that is free or holds it with a count below 65535,
    /// else at a new place, and tells where, in at most sixteen steps. InvalidInput where no reference could name that place;
    /// then, and after Memory, nothing changed but the count of steps.
    fn incref(&mut self, text: String) -> Result<StringRef, Error>
        ensures place { IfOk result (λ n. place (state self.old).pool (string_bytes text)
            ≡ Some n) }
        ensures counted { OnOk result (state self.new
            ≡ changed_to (state self.old).steps (used (state self.old).pool (string_bytes text))) }
        ensures full_only_if { IsErrOf result InvalidInput
            ↔ (place (state self.old).pool (string_bytes text) ≡ None) }
        ensures errors { IfErr result (λ e. (e ≡ Memory) ⊎ (e ≡ InvalidInput)) }
        ensures after_error { OnErr result (state self.new ≡ state self.old) }
        ensures under { under self.new ≡ under self.old }
        ensures steps { steps self.new ≤ steps self.old + 16 };

    /// Takes back a use at a place, in at most sixteen steps. The last takes the text with it. InvalidData where the place has
    /// no use; then, and after Memory, nothing changed but the count of steps.
    fn decref(&mut self, string_ref: StringRef) -> Result<(), Error>
        ensures ok { OnOk result (state self.new
            ≡ changed_to (state self.old).steps (record (state self.old).pool {
              places = with_refcount_down string_ref (state self.old).pool.places;
            })) }
        ensures unused { IsErrOf result InvalidData
            ↔ ((pool_entry_at (state self.old).pool.places string_ref).count ≡ 0) }
        ensures errors { IfErr result (λ e. (e ≡ Memory) ⊎ (e ≡ InvalidData)) }
        ensures after_error { OnErr result (state self.new ≡ state self.old) }
        ensures under { under self.new ≡ under self.old }
        ensures steps { steps self.new ≤ steps self.old + 16 };
}

impl CountsUses for StringPool {
    ghost use Rattle.std.specs.Prelude.{[]};
    ghost use Rattle.msi_pool.specs.PoolState.{after_steps};

    ghost state = { λ p. after_steps 0 p };

    ghost under = { λ p. [] };

    ghost steps = { λ p. p.steps };

    fn incref(&mut self, text: String) -> Result<StringRef, Error> {
        StringPool::incref(self, text)
    }

    fn decref(&mut self, string_ref: StringRef) -> Result<(), Error> {
        StringPool::decref(self, string_ref)
    }
}

/// A pool to be changed in place of another, which it borrows: it holds only what changed.
#[derive(Drop)]
pub struct Draft<'a> {
    codepage: CodePage,
    long_string_refs: bool,
    places: Places<DraftParts<'a>>,
    is_modified: bool,
}

impl<'a> Model for Draft<'a> {
    ghost use Rattle.msi_pool.specs.PoolState.{Drafted};

    ghost Value = { Drafted };

    ghost view = { λ d. record { state = record { pool = record { page = d.codepage; long = d.long_string_refs; places = d.places.places }; modified = d.is_modified; steps = d.places.under.steps }; under = d.places.under.places; steps = d.places.steps } };
}

/// What a draft changed of its pool.
#[derive(Drop)]
pub struct PoolChanges {
    pub(crate) codepage: CodePage,
    pub(crate) long_string_refs: bool,
    pub(crate) places: Changes,
    pub(crate) is_modified: bool,
}

impl<'a> Draft<'a> {
    // A draft with these places.
    pub(crate) fn new(
        codepage: CodePage,
        long_string_refs: bool,
        places: Places<DraftParts<'a>>,
        is_modified: bool,
    ) -> Draft<'a>
        ensures page { result.state.pool.page ≡ codepage }
        ensures long { result.state.pool.long ≡ long_string_refs }
        ensures places { result.state.pool.places ≡ places.entry.places }
        ensures modified { result.state.modified ≡ is_modified }
        ensures steps { result.state.steps ≡ places.entry.under.steps }
        ensures under { result.under ≡ places.entry.under.places }
    {
        Draft {
            codepage,
            long_string_refs,
            places,
            is_modified,
        }
    }

    /// What the draft changed, for its pool to take over.
    pub fn into_changes(self) -> PoolChanges
        ensures changes { AreChangesOver self.entry.under result }
        ensures state { adopted self.entry.under result ≡ self.entry.state }
    {
        PoolChanges {
            codepage: self.codepage,
            long_string_refs: self.long_string_refs,
            is_modified: self.is_modified,
            places: self.places.into_changes(),
        }
    }
}

impl<'a> CountsUses for Draft<'a> {
    ghost state = { λ d. d.state };

    ghost under = { λ d. d.under };

    ghost steps = { λ d. d.steps };

    fn incref(&mut self, text: String) -> Result<StringRef, Error> {
        let number = self.places.incref(text, last_place(self.long_string_refs))?;
        self.is_modified = true;
        Ok(StringRef::new(number))
    }

    fn decref(&mut self, string_ref: StringRef) -> Result<(), Error> {
        self.places.decref(string_ref.number() - 1)?;
        self.is_modified = true;
        Ok(())
    }
}
