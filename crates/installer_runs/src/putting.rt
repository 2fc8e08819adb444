//! A stream of a package that gets the bytes of a source on a device.
ghost use Rattle.cfb_tree.specs.CaseTableViews.{case_table_of};
ghost use Rattle.installer.specs.CrashSurvival.{SurvivesCrash};
ghost use Rattle.installer_runs.specs.Putting.{HoldsSound, PutsLast, PutsOn, PutSurvivesCrash};
ghost use Rattle.msi.specs.Opened.{IsSoundFile};
ghost use Rattle.msi_spec.specs.Package.{PackageContent};
ghost use Rattle.msi_spec.specs.Streams.{stream_written};
ghost use Rattle.cfb_medium.specs.declared.error.Error.{Error};
ghost use Rattle.staged.specs.Log.{recovered};
ghost use Rattle.std.specs.Prelude.{◌≡◌, ℕ, List, [], Err, Some, IsTrue, OnOk};

use crate::creating::commit_last;
use cfb::CaseMapper;
use cfb_medium::{Error, ReadMedium};
use installer::{Session, SessionOver};
use staged::{Device, Staged};
use std::alloc::Global;

/// Recovers, puts all bytes of a source into a stream of the package of the home file, whose names are compared under the case table,
/// commits it, and gives the device back. The bytes are read in pieces, and no memory is taken for them. After `Ok` the home file has
/// bytes that hold the package with the stream, and the log is closed. Whatever is answered, a crash at any moment leaves what one might
/// have left before, or that package; and where a rule refuses the stream, or the file holds no sound package, nothing that a recovery
/// gives is changed. Refused as `Session::open` and `Package::put_stream_from` are, and where the commit behind them meets a fault.
pub fn put_on<D: Device, S: ReadMedium>(
    alloc: Global,
    device: D,
    letters: CaseMapper,
    name: &str,
    source: &mut S,
) -> (D, Result<(), Error>)
    ensures put { IsTrue (D.honest device) → (P : PackageContent)
        → HoldsSound (case_table_of letters) D.Device device P → OnOk result.1
        (PutsOn (case_table_of letters) S.ReadMedium source.old name.now P D.Device result.0) }
    ensures survives { IsTrue (D.honest device) → (P : PackageContent)
        → HoldsSound (case_table_of letters) D.Device device P
        → PutSurvivesCrash (case_table_of letters) S.ReadMedium source.old name.now P D.Device
        device result.0 }
    ensures kept { IsTrue (D.honest device) → IsTrue (S.honest source.old) → (P : PackageContent)
        → HoldsSound (case_table_of letters) D.Device device P → (e : Error)
        → stream_written (case_table_of letters) P name.now (S.bytes source.old) ≡ Err e
        → SurvivesCrash (case_table_of letters) D.Device device result.0 [] }
    ensures unsound { IsTrue (D.honest device) → (bytes : List ℕ)
        → recovered (D.content device) ≡ Some bytes
        → (IsSoundFile (case_table_of letters) bytes → ⊥)
        → SurvivesCrash (case_table_of letters) D.Device device result.0 [] }
{
    match Session::open(alloc, device, letters) {
        Ok(session) => put_last(session, name, source),
        Err((device, error)) => (device, Err(error)),
    }
}

// Puts the stream, commits where that was done, and gives the device back.
fn put_last<D: Device, S: ReadMedium>(
    session: SessionOver<Staged<D>>,
    name: &str,
    source: &mut S,
) -> (D, Result<(), Error>)
    ensures { PutsLast S.ReadMedium source.old name.now result.1 session result.0 }
{
    let mut session = session;
    match session.put_stream_from(name, source) {
        Ok(()) => commit_last(session),
        Err(error) => (session.into_device(), Err(error)),
    }
}
