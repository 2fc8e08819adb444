//! Packages of any maker that are adopted.
ghost use Rattle.std.specs.Prelude.{◌≤◌, IfErr};

use crate::answers::Answers;
use crate::check::{tell_pages, tell_pages_to_try, write_defects};
use crate::packages::{Adopted, adopted_at, defects_at, validate, with_joined_texts};
use crate::places::Reading;
use crate::utf8::check_texts;
use cfb::MemoryMedium;
use cfb_medium::Error;
use msi::{Defect, Package};
use package_files::{Names, check_shown, status_of_error, tell_failure};
use package_reading::{Pages, tell_why_refused};
use std::fs::File;
use std::io::Write;
use std::rt::Files;

/// A copy in memory of a package, as a recovery would leave it, with right counts, which is sound, and with an empty `_Validation` where it is
/// to have one and has none; where pages are given, with its texts in UTF-8, as these pages read them. Each text stands at as few places of the
/// string pool as its uses need. Where there can be none the status is given and what was found is told: 1 where the package breaks further rules, or
/// its texts can't be put in UTF-8 without a loss, a line for each; 3 where the file is no package or can't be read, `_Validation` can't be added, or texts can't be put at one place, which is told with the file's name,
/// and where nothing can be written. The file is only read.
pub fn adopted_package<'a, R: Files<File = File> + AllocGlobal, O: Write, E: Write>(
    rt: &R,
    names: &'a Names,
    pages: Option<Pages>,
    has_validation: bool,
    out: &'a mut O,
    err: &'a mut E,
) -> Result<Package<MemoryMedium>, u8>
    ensures { IfErr result (λ status. status ≤ 3) }
{
    if let Err(failure) = check_shown(rt, names, err) {
        tell_failure(names, failure, err);
        return Err(3);
    }
    if let Some(pages) = pages {
        if let Err(status) = check_texts(rt, names, pages, out, err) {
            return Err(status);
        }
    }
    let mut adopted = match counted_package(rt, names, pages, out, err) {
        Ok(adopted) => adopted,
        Err(status) => return Err(status),
    };
    let path = names.named();
    if has_validation {
        if let Err(error) = validate(&mut adopted) {
            let _ = writeln!(err, "msidb: {path}: no _Validation can be added: {error}");
            return Err(3);
        }
    }
    match with_joined_texts(rt.alloc(), adopted) {
        Ok(package) => Ok(package),
        Err(error) => {
            let _ = writeln!(
                err,
                "msidb: {path}: its texts can't be put at one place each: {error}"
            );
            Err(3)
        }
    }
}

// The same without an empty `_Validation`, and with texts where they stand.
fn counted_package<R: Files<File = File> + AllocGlobal, O: Write, E: Write>(
    rt: &R,
    names: &Names,
    pages: Option<Pages>,
    out: &mut O,
    err: &mut E,
) -> Result<Adopted, u8>
    ensures { IfErr result (λ status. status ≤ 3) }
{
    let found = match defects_at(rt, names, pages) {
        Ok(found) => found,
        Err(error) => {
            tell_why_refused(rt, names, error, err);
            if pages.is_none() {
                tell_pages(rt, names, err);
            }
            return Err(3);
        }
    };
    match adopted_at(rt, names, pages) {
        Ok(adopted) => Ok(adopted),
        Err(Error::InvalidData) if !found.is_empty() => {
            let status = tell_defects(rt, names, pages, &found, out, err);
            if status == 1 && pages.is_none() {
                tell_pages_to_try(rt, names, &found, err);
            }
            Err(status)
        }
        Err(error) => {
            tell_why_refused(rt, names, error, err);
            Err(3)
        }
    }
}

/// Tells why a package wasn't adopted where it lies, and gives the status: 1 where it breaks further rules, a line for each; 3 where the file is
/// no package, or nothing can be written.
pub fn tell_unadopted<R: Files<File = File> + AllocGlobal, O: Write, E: Write>(
    rt: &R,
    names: &Names,
    error: Error,
    out: &mut O,
    err: &mut E,
) -> u8
    ensures { result ≤ 3 }
{
    if error == Error::InvalidData {
        if let Ok(found) = defects_at(rt, names, None) {
            let status = tell_defects(rt, names, None, &found, out, err);
            if status == 1 {
                tell_pages_to_try(rt, names, &found, err);
            }
            return status;
        }
    }
    tell_why_refused(rt, names, error, err);
    3
}

// Writes a line for each rule that a package breaks.
fn tell_defects<R: Files<File = File> + AllocGlobal, O: Write, E: Write>(
    rt: &R,
    names: &Names,
    pages: Option<Pages>,
    found: &[Defect],
    out: &mut O,
    err: &mut E,
) -> u8
    ensures { result ≤ 3 }
{
    let rest = Some("msidb check --places");
    let reading = match pages {
        Some(_) => Reading {
            judged: pages,
            told: None,
            rest,
        },
        None => Reading {
            judged: None,
            told: Some(Pages::as_named()),
            rest,
        },
    };
    let mut out = Answers::new(rt.alloc(), out);
    match write_defects(rt, names, reading, found, &mut out) {
        Ok(_) => {
            tell_rules(names.named(), err);
            1
        }
        Err(error) => status_of_error(names.named(), error, out.broken(), 1, err),
    }
}

// Tells that the rules which were told are why.
fn tell_rules<E: Write>(path: &str, err: &mut E) {
    let _ = writeln!(
        err,
        "msidb: {path}: not adopted: it breaks rules that `adopt` doesn't put right"
    );
}
