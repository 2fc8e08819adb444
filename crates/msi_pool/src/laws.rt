//! Laws of the definitions, each the contract of a function.
ghost use Rattle.std.specs.Prelude.{◌≡◌, ◌↔◌, ◌<◌, ℕ, List, IsTrue, Ok, slice_index};
ghost use Rattle.std.specs.List.{list_all};
ghost use Rattle.msi_texts.specs.declared.codepage.CodePage.{CodePage};
ghost use Rattle.msi_pool.specs.Pool.{PoolEntry, Pool, Pooled, pool_stream, data_stream, with_refcount_up, with_refcount_down};
ghost use Rattle.msi_pool.specs.PoolKept.{AreFreeEmpty, AreKept, CanBeKept, IsWritable};
ghost use Rattle.msi_pool.specs.PoolReading.{Begun, begun, text_round_trips, pool_of, texts_give_back};

use crate::stringref::ValueRef;
use std::cmp::Ordering;

/// The two streams that a pool writes are read as that pool, where its texts fit.
pub fn written_pools_are_read()
    ensures { (pool : Pool) → IsWritable pool → Pooled (pool_stream pool) (data_stream pool) pool }
{}

/// The builder finds in two streams just the pool that they hold: one that they hold is read, with its
/// answer whether the texts give their bytes back, and what is read is what they hold.
pub fn pools_are_read_as_they_are_held()
    ensures found { (pool_bytes data_bytes : List ℕ) (pool : Pool)
        (pooled : Pooled pool_bytes data_bytes pool)
        → (builder : Begun) × (begun pool_bytes ≡ Ok builder)
        × (pool_of builder data_bytes ≡ Ok pool)
        × (texts_give_back builder data_bytes
        ≡ Ok (list_all (λ s. text_round_trips pool.page s.0) pooled.stored)) }
    ensures held { (pool_bytes data_bytes : List ℕ) (builder : Begun) (pool : Pool)
        → ((i : ℕ) → slice_index pool_bytes i < 256) → begun pool_bytes ≡ Ok builder
        → pool_of builder data_bytes ≡ Ok pool → Pooled pool_bytes data_bytes pool }
{}

/// Uses that are counted and taken back leave free places empty, and a pool whose places are kept stays such
/// a pool, where the texts can be kept.
pub fn uses_leave_places_kept()
    ensures used_empty { (text : List ℕ) (places : List PoolEntry) → AreFreeEmpty places
        → AreFreeEmpty (with_refcount_up text places) }
    ensures taken_empty { (n : ℕ) (places : List PoolEntry) → AreFreeEmpty places
        → AreFreeEmpty (with_refcount_down n places) }
    ensures used_kept { (page : CodePage) (text : List ℕ) (places : List PoolEntry)
        → CanBeKept page text → AreKept page places → AreKept page (with_refcount_up text places) }
    ensures taken_kept { (page : CodePage) (n : ℕ) (places : List PoolEntry) → AreKept page places
        → AreKept page (with_refcount_down n places) }
{}

/// Whether two cells are equal by their order: that is where they are one, as `==` tells.
pub fn cells_compare_equal(one: ValueRef, other: ValueRef) -> bool
    ensures { IsTrue result ↔ (one ≡ other) }
{
    one.cmp(&other) == Ordering::Equal
}
