//! The store's two functions.
ghost use Rattle.cfb_medium.specs.Crashes.{CrashLeavesOnly};
ghost use Rattle.example_store.specs.Number.{counted_up, next_in};
ghost use Rattle.std.specs.Prelude.{◌≡◌, ◌⊎◌, Some, IfOk, IsTrue, OnOk};

use cfb_medium::{Error, Medium};
use staged::{Device, Staged, recover};
use std::alloc::Global;

/// The bytes of a device that were committed last; a commit that a crash cut short is finished first. Its errors are those of `recover`.
pub fn open_store<D: Device + Drop>(alloc: Global, mut device: D) -> Result<Staged<D>, Error> {
    recover(&mut device)?;
    match Staged::new(alloc, device) {
        Ok(store) => Ok(store),
        Err((_device, error)) => Err(error),
    }
}

/// Counts up the number at the front of a store, and publishes it: whatever a crash leaves after `Ok`, the new number is there; one that
/// comes before leaves what one might have left earlier, or the new number. A store without bytes holds 0. An error is a fault of the
/// store, and the number is as it was, or it is the new one where the commit couldn't be finished.
pub fn count_up<M: Medium>(store: &mut M) -> Result<u64, Error>
    ensures number { IsTrue (M.honest store.old)
        → IfOk result (λ number. number ≡ next_in (M.bytes store.old)) }
    ensures published { IsTrue (M.honest store.old)
        → OnOk result (M.has_published store.new (counted_up (M.bytes store.old))) }
    ensures crash { IsTrue (M.honest store.old)
        → CrashLeavesOnly M.moment M.crash_left_since store.old store.new
        (λ left. M.crash_may_leave store.old left
        ⊎ (left ≡ Some (counted_up (M.bytes store.old)))) }
{
    let mut number = [0; 8];
    store.read_at(0, &mut number)?;
    let next = u64::from_le_bytes(number).wrapping_add(1);
    store.write_at(0, &next.to_le_bytes())?;
    store.commit()?;
    Ok(next)
}
