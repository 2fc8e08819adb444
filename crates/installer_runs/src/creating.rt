//! A package made on a device.
ghost use Rattle.cfb_tree.specs.CaseTableViews.{case_table_of};
ghost use Rattle.installer.specs.Refusals.{IsSessionCreateError};
ghost use Rattle.installer.specs.CrashSurvival.{SurvivesCrash};
ghost use Rattle.installer_runs.specs.Making.{AreOfNew, CommitsLast, MakesOn};
ghost use Rattle.staged.specs.Log.{recovered};
ghost use Rattle.installer.specs.SessionStates.{BegunCommit};
ghost use Rattle.std.specs.Prelude.{◌≡◌, List, [], Some, IfErr, IsTrue, OnOk};

use cfb::CaseMapper;
use cfb_medium::Error;
use installer::{Session, SessionOver};
use staged::{Device, Staged};
use std::alloc::Global;

/// Recovers, makes a new installer package on an empty home file, whose names are compared under the case table, commits it, and gives
/// the device back. After `Ok` the home file has bytes that hold the new package, sound, and the log is closed. Whatever is answered, a
/// crash at any moment leaves what one might have left before, or the new package; and where the home file, once recovered, isn't empty,
/// nothing that a recovery gives is changed. Refused as `Session::create` is, and where the commit behind it meets a fault: `AlreadyExists`
/// where the home file isn't empty, `InvalidData` for a malformed log, `InvalidInput` for a case table that touches encoded names; else
/// `Memory`, `Full`, or `Device` and `Failed` by a fault of the device.
pub fn create_on<D: Device>(alloc: Global, device: D, letters: CaseMapper) -> (D, Result<(), Error>)
    ensures made { IsTrue (D.honest device)
        → OnOk result.1 (MakesOn (case_table_of letters) D.Device device result.0) }
    ensures survives { IsTrue (D.honest device) → (marks : List BegunCommit) × AreOfNew marks
        × SurvivesCrash (case_table_of letters) D.Device device result.0 marks }
    ensures kept { IsTrue (D.honest device) → (recovered (D.content device) ≡ Some [] → ⊥)
        → SurvivesCrash (case_table_of letters) D.Device device result.0 [] }
    ensures refused_only_if { IsTrue (D.honest device) → IfErr result.1
        (IsSessionCreateError (case_table_of letters) D.Device device result.0) }
{
    match Session::create(alloc, device, letters) {
        Ok(session) => commit_last(session),
        Err((device, error)) => (device, Err(error)),
    }
}

// Commits, and gives the device back.
pub(crate) fn commit_last<D: Device>(session: SessionOver<Staged<D>>) -> (D, Result<(), Error>)
    ensures { CommitsLast result.1 session result.0 }
{
    let mut session = session;
    let made = session.commit();
    (session.into_device(), made)
}
