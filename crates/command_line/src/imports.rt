//! Files of exported tables that give a package their rows.
ghost use Rattle.command_file.specs.RequestsOf.{request_of};
ghost use Rattle.command_line.specs.Runs.{HasRun};
ghost use Rattle.command_line.specs.declared.commands.Ending.TheVariants.{Done};
ghost use Rattle.std.specs.Prelude.{◌≡◌, ◌≤◌, map};

use crate::commands::{Ending, Manner, run};
use crate::progress::Progress;
use crate::reasons::known_tables;
use cfb_medium::Error;
use command_reasons::{KnownTables, reason_of};
use installer_runs::Until;
use package_files::{Names, tell_failure};
use package_imports::{Plan, plan_import, read_sources};
use std::alloc::Global;
use std::fs::File;
use std::io::{self, Write};
use std::rt::Files;
use std::time::Clock;

/// Gives tables of a package the rows of files, or of those in folders, in one commit; or nothing is changed. The files are read first. The
/// status is 0 where it was done, 1 where a rule refused it, 2 where a file can't be read or is wrong, 3 for a fault or files that were
/// refused; what went wrong is told.
pub(crate) fn import<R: Files<File = File> + AllocGlobal + Clock + Clone + Drop, E: Write>(
    rt: &R,
    names: &Names,
    paths: &[&str],
    err: &mut E,
) -> u8
    ensures { result ≤ 3 }
{
    let planned = match read_sources(rt, paths, err) {
        Ok(sources) => plan_import(rt, names, sources, err),
        Err(status) => Err(status),
    };
    match planned {
        Ok(plan) => run_plan(rt, names, &plan, err),
        Err(status) => status.min(3),
    }
}

// Runs commands to the first that is refused. The status is 0 only where a session ran them all.
fn run_plan<R: Files<File = File> + AllocGlobal + Clock, E: Write>(
    rt: &R,
    names: &Names,
    plan: &Plan,
    err: &mut E,
) -> u8
    ensures most { result ≤ 3 }
    ensures done { result ≡ 0 → HasRun (map request_of plan.now.commands.items) Done }
{
    let manner = Manner {
        until: Until::Refusal,
        is_quiet: false,
        is_own: true,
        commits_at_end: false,
    };
    let commands = &plan.commands;
    let mut progress = Progress::new(rt, err, false, commands.len());
    let ended = run(rt, names, commands, manner, &mut io::sink(), &mut progress);
    match ended {
        Ok(Ending::Done) => 0,
        Ok(Ending::Refused(error, place)) => {
            tell_refused(rt, names, plan, error, place, err);
            1
        }
        Err(failure) => {
            tell_failure(names, failure, err);
            3
        }
    }
}

// Tells which file a rule refused, and why.
fn tell_refused<R: Files<File = File> + AllocGlobal, E: Write>(
    rt: &R,
    names: &Names,
    plan: &Plan,
    error: Error,
    place: usize,
    err: &mut E,
) {
    // (told with what makes it so)
    if error == Error::InvalidData {
        return;
    }
    let named = names.named();
    let Some(path) = plan.origins.get(place) else {
        let _ = writeln!(
            err,
            "msidb: {named} is left as it was: its commit was refused"
        );
        return;
    };
    // (the package is what it was before the run)
    let told = match known_tables(rt, names) {
        Some(known) => tell_why(rt.alloc(), named, path, known, plan, error, place, err),
        None => false,
    };
    if !told {
        let _ = writeln!(err, "msidb: {path}: {named} is left as it was: {error}");
    }
}

// Tells why a rule refused the command behind so many, on a package with these tables; whether that is known.
fn tell_why<E: Write>(
    alloc: Global,
    named: &str,
    path: &str,
    mut known: KnownTables,
    plan: &Plan,
    error: Error,
    place: usize,
    err: &mut E,
) -> bool {
    for command in plan.commands.iter().take(place) {
        if known.follow(command).is_err() {
            return false;
        }
    }
    let Some(command) = plan.commands.get(place) else {
        return false;
    };
    match reason_of(alloc, &known, command, error) {
        Ok(Some(reason)) => {
            let _ = writeln!(err, "msidb: {path}: {named} is left as it was: {reason}");
            true
        }
        _ => false,
    }
}
