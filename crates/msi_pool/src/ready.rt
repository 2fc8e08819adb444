//! Pools with changes to take over, for which all memory was taken before.
ghost use Rattle.std.specs.Prelude.{◌≡◌, IfErr, IfOk};
ghost use Rattle.msi_pool.specs.PoolDraft.{AreChangesOver, adopted};
ghost use Rattle.cfb_medium.specs.declared.error.Error.TheVariants.{Memory};

use crate::draft::PoolChanges;
use crate::stringpool::StringPool;
use cfb_medium::Error;
use msi_pool_index::ReadyPlaces;
use msi_texts::CodePage;
use std::marker::Model;

// What a pool has beside its places.
#[derive(Clone, Copy)]
struct Head {
    codepage: CodePage,
    long_string_refs: bool,
    is_modified: bool,
}

/// A pool with what a draft changed of it, which it can take over without memory.
#[derive(Drop)]
pub struct ReadyPool {
    head: Head,
    next: Head,
    places: ReadyPlaces,
}

impl Model for ReadyPool {
    ghost use Rattle.msi_pool.specs.PoolReady.{ReadyState};

    ghost Value = { ReadyState };

    ghost view = { λ p. record { state = record { pool = record { page = p.head.codepage; long = p.head.long_string_refs; places = p.places.places }; modified = p.head.is_modified; steps = p.places.steps }; next = record { pool = record { page = p.next.codepage; long = p.next.long_string_refs; places = p.places.next }; modified = p.next.is_modified; steps = p.places.next_steps } } };
}

impl StringPool {
    /// Takes the memory that these changes of the pool want, so that nothing can fail once what the pool belongs to is written.
    /// After Memory, the one error, the pool comes back as it was.
    pub fn make_room(self, changes: PoolChanges) -> Result<ReadyPool, (StringPool, Error)>
        requires { AreChangesOver self.pool.places changes }
        ensures state { IfOk result (λ ready. ready.state ≡ self) }
        ensures next { IfOk result (λ ready. ready.next ≡ adopted self.pool.places changes) }
        ensures after_error { IfErr result (λ e. e.0 ≡ self) }
        ensures errors { IfErr result (λ e. e.1 ≡ Memory) }
    {
        let head = Head {
            codepage: self.codepage,
            long_string_refs: self.long_string_refs,
            is_modified: self.is_modified,
        };
        let next = Head {
            codepage: changes.codepage,
            long_string_refs: changes.long_string_refs,
            is_modified: changes.is_modified,
        };
        match self.places.make_room(changes.places) {
            Ok(places) => Ok(ReadyPool { head, next, places }),
            Err((places, error)) => Err((
                StringPool::from_places(
                    head.codepage,
                    head.long_string_refs,
                    head.is_modified,
                    places,
                ),
                error,
            )),
        }
    }
}

impl ReadyPool {
    /// The pool with the changes.
    pub fn adopt(self) -> StringPool
        ensures { result ≡ self.next }
    {
        let places = self.places.adopt();
        StringPool::from_places(
            self.next.codepage,
            self.next.long_string_refs,
            self.next.is_modified,
            places,
        )
    }

    /// The pool as it was.
    pub fn give_up(self) -> StringPool
        ensures { result ≡ self.state }
    {
        let places = self.places.give_up();
        StringPool::from_places(
            self.head.codepage,
            self.head.long_string_refs,
            self.head.is_modified,
            places,
        )
    }
}
