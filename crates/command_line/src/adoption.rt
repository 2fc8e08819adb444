//! A package of another maker that is put right where it lies.
ghost use Rattle.std.specs.Prelude.{◌≤◌};

use crate::commands::tell_signature;
use crate::failures::failure_of;
use crate::files;
use crate::run::{answer, status_of};
use crate::sessions::adopt_on_device;
use cfb_medium::Error;
use package_checks::{tell_twice, tell_unadopted};
use package_files::{Failure, Faults, Found, Names, Trouble, cut_log, look_at_log};
use package_reading::is_sound_at;
use std::fs::File;
use std::io::Write;
use std::rt::Files;

/// Gives a package right counts where it lies, in one commit; of a sound one nothing is written. The status is 0 where it was done, 1 where it
/// breaks further rules, which are told as `check` tells them, and nothing is changed; 3 for a fault or files that were refused.
pub(crate) fn adopt_there<R: Files<File = File> + AllocGlobal, O: Write, E: Write>(
    rt: &R,
    names: &Names,
    out: &mut O,
    err: &mut E,
) -> u8
    ensures { result ≤ 3 }
{
    let ended = match is_right_already(rt, names) {
        Ok(true) => {
            tell_twice(rt, names, err);
            answer("sound", out)
        }
        Ok(false) => match put_right(rt, names) {
            Ok(None) => {
                tell_signature(rt, names, err);
                tell_twice(rt, names, err);
                answer("adopted", out)
            }
            Ok(Some(error)) => return tell_unadopted(rt, names, error, out, err),
            Err(failure) => Err(failure),
        },
        Err(failure) => Err(failure),
    };
    status_of(ended, names, err)
}

// Whether a package that can be written is sound. Nothing is written.
fn is_right_already<R: Files<File = File> + AllocGlobal>(
    rt: &R,
    names: &Names,
) -> Result<bool, Failure> {
    files::look_to_commit(rt, names)?;
    match is_sound_at(rt, names) {
        Ok(is) => Ok(is),
        Err(error @ (Error::Memory | Error::Device | Error::Failed)) => Err(failure_of(error)),
        // (a refusal is told where the package is opened to be written)
        Err(_) => Ok(false),
    }
}

// Gives a package right counts, and commits it, or says which rule refused it.
fn put_right<R: Files<File = File> + AllocGlobal>(
    rt: &R,
    names: &Names,
) -> Result<Option<Error>, Failure> {
    let faults = Faults::new();
    let device = files::open(rt, names, &faults)?;
    match adopt_on_device(rt.alloc(), device) {
        Ok(()) => {
            cut_log(rt, names);
            Ok(None)
        }
        Err(error) => match error {
            Error::Memory | Error::Device | Error::Failed | Error::Full => {
                Err(files::why_fault(rt, names, &faults, failure_of(error)))
            }
            _ => match look_at_log(rt, names) {
                Ok(Found::Open) => Err(Failure::Log(Trouble::UnfitCommit)),
                _ => Ok(Some(error)),
            },
        },
    }
}
