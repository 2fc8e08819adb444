//! What is done on the two files of a package: a function for each call, since what is told of a call costs time wherever it is seen.
ghost use Rattle.command_file.specs.RequestsOf.{request_of};
ghost use Rattle.installer_runs.specs.Runs.{RunsAnyhow};
ghost use Rattle.std.specs.Prelude.{IfOk, map};

use cfb::{CaseMapper, MemoryMedium};
use cfb_medium::{Error, ReadMedium};
use installer::Command;
use installer_runs::{
    Ending, Listener, Until, adopt_in_place_on, create_on, move_on, put_on, run_on,
};
use msi::Package;
use package_files::PackageDevice;
use staged::Device;
use std::alloc::Global;
use std::fs::File;
use std::rt::Files;

/// Makes a package and commits it.
pub(crate) fn create_package<R: Files<File = File>>(
    alloc: Global,
    device: PackageDevice<'_, R>,
) -> Result<(), Error> {
    let letters = CaseMapper::ascii(alloc)?;
    let (_device, made) = create_on(alloc, device, letters);
    made
}

/// Runs commands on a package that is there, to the last or to the first that is refused. The one error is `Memory`: then nothing was done.
pub(crate) fn run_commands<D: Device + Drop, L: Listener>(
    alloc: Global,
    device: D,
    commands: &[Command],
    until: Until,
    listener: &mut L,
) -> Result<Ending, Error>
    ensures { IfOk result (λ ending. (last : D) × RunsAnyhow D.Device L.Listener until
        (map request_of commands.now) ending device last listener.old listener.new) }
{
    let letters = CaseMapper::ascii(alloc)?;
    let (_device, ending) = run_on(alloc, device, letters, commands, until, listener);
    Ok(ending)
}

/// Gives a package that is there right counts, and commits it.
pub(crate) fn adopt_on_device<R: Files<File = File>>(
    alloc: Global,
    device: PackageDevice<'_, R>,
) -> Result<(), Error> {
    let letters = CaseMapper::ascii(alloc)?;
    let (_device, adopted) = adopt_in_place_on(alloc, device, letters);
    adopted
}

/// Puts all bytes of a source into a stream of a package that is there, and commits it.
pub(crate) fn put_on_device<R: Files<File = File>, S: ReadMedium>(
    alloc: Global,
    device: PackageDevice<'_, R>,
    stream: &str,
    source: &mut S,
) -> Result<(), Error> {
    let letters = CaseMapper::ascii(alloc)?;
    let (_device, put) = put_on(alloc, device, letters, stream, source);
    put
}

/// Commits a package to a device whose own is empty, once the device was recovered. `AlreadyExists` where it isn't empty.
pub(crate) fn commit_moved<R: Files<File = File>>(
    alloc: Global,
    package: Package<MemoryMedium>,
    device: PackageDevice<'_, R>,
) -> Result<(), Error> {
    let (_device, moved) = move_on(alloc, package, device);
    moved
}
