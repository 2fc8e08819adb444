//! Texts that no cell uses.
ghost use Rattle.std.specs.Prelude.{◌≡◌, ◌++◌, ◌<◌, ◌^◌, length, IfErr, IfOk, OnOk};
ghost use Rattle.cfb_medium.specs.declared.error.Error.TheVariants.{Memory};
ghost use Rattle.msi_findings.specs.Findings.{unused, unused_places};
ghost use Rattle.msi_pool.specs.Pool.{pool_entry_at};

use cfb_medium::Error;
use msi_pool::{StringPool, StringRef};
use std::alloc::{AllocError, Global};

/// The places of the pool that have a text and that no cell uses, as the pool counts, in order. A reference can name each place of the
/// pool. The one error is `Memory`.
pub fn unused_texts(alloc: Global, pool: &StringPool) -> Result<Vec<u32>, Error>
    requires { length pool.now.pool.places < 2 ^ 24 }
    ensures found { IfOk result (λ found. found.items ≡ unused_places pool.now.pool.places) }
    ensures errors { IfErr result (λ e. e ≡ Memory) }
{
    let mut found = Vec::new(alloc);
    for index in 0..pool.num_strings() {
        note(&mut found, pool, index + 1)?;
    }
    Ok(found)
}

// Adds a place that has a text and a count of 0.
fn note(found: &mut Vec<u32>, pool: &StringPool, place: u32) -> Result<(), AllocError>
    requires { (0 < place) × (place < 2 ^ 24) }
    ensures { OnOk result (found.new.items ≡ found.old.items
        ++ unused place (pool_entry_at pool.now.pool.places place)) }
{
    if pool.refcount(StringRef::new(place)) != 0 {
        return Ok(());
    }
    if pool.get(StringRef::new(place)).is_empty() {
        return Ok(());
    }
    found.push(place)?;
    Ok(())
}
