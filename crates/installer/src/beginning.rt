//! Devices that are recovered before a session begins.
ghost use Rattle.cfb_medium.specs.Calls.{Reaches};
ghost use Rattle.cfb_medium.specs.Crashes.{CrashLeavesOnly};
ghost use Rattle.cfb_medium.specs.declared.error.Error.TheVariants as error;
ghost use Rattle.staged.specs.Log.{logged, recovered, MalformedLog};
ghost use Rattle.staged.specs.Recovery.{IsMalformedOrFault};
ghost use Rattle.staged.specs.Committed.{IsLogClosed};
ghost use Rattle.staged.specs.Staged.{device_of, is_failed, staged_bytes};
ghost use Rattle.staged.specs.Steps.{RecoversAlike};
ghost use Rattle.std.specs.Prelude.{◌≡◌, ◌≤◌, false, IfErr, IfOk, IsTrue, MatchResult, Some};

use cfb_medium::Error;
use staged::{Device, Staged, recover};
use std::alloc::Global;

/// The home file of a device, once it was recovered. `InvalidData` for a malformed log, which leaves both files; the other errors are
/// faults of the device. An error hands the device back.
pub fn recovered_medium<D: Device>(alloc: Global, device: D) -> Result<Staged<D>, (D, Error)>
    ensures bytes { IsTrue (D.honest device)
        → IfOk result (λ medium. recovered (D.content device) ≡ Some (staged_bytes medium)) }
    ensures home { IsTrue (D.honest device)
        → IfOk result (λ medium. (D.content (device_of medium)).home ≡ staged_bytes medium) }
    ensures settled { IsTrue (D.honest device)
        → IfOk result (λ medium. IsLogClosed D.Device (device_of medium)) }
    ensures sound { IfOk result (λ medium. is_failed medium ≡ false) }
    ensures honest { IfOk result (λ medium. D.honest (device_of medium) ≡ D.honest device) }
    ensures failures { IfOk result (λ medium. D.failures device ≤ D.failures (device_of medium)) }
    ensures stops { IsTrue (D.honest device)
        → MatchResult result
        (λ medium. CrashLeavesOnly D.moment D.crash_left_since device (device_of medium)
        (RecoversAlike (D.crash_may_leave device)))
        (λ refusal. CrashLeavesOnly D.moment D.crash_left_since device
        refusal.0 (RecoversAlike (D.crash_may_leave device))) }
    ensures after_error { IfErr result (λ refusal. IsMalformedOrFault D.failures device refusal.0
        refusal.1) }
    ensures malformed { IsTrue (D.honest device)
        → IfErr result (λ refusal. refusal.1 ≡ error.InvalidData
        → logged (D.content device) ≡ MalformedLog) }
    ensures left { IfErr result (λ refusal. refusal.1 ≡ error.InvalidData
        → Reaches D.rests device refusal.0) }
    ensures err_honest { IfErr result (λ refusal. D.honest refusal.0 ≡ D.honest device) }
    ensures err_failures { IfErr result (λ refusal. D.failures device ≤ D.failures refusal.0) }
{
    let mut device = device;
    match recover(&mut device) {
        Ok(_) => match Staged::new(alloc, device) {
            Ok(medium) => Ok(medium),
            Err((device, error)) => Err((device, error)),
        },
        Err(error) => Err((device, error)),
    }
}
