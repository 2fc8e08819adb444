//! Packages whose texts are to be put in UTF-8: what would be lost of them.
ghost use Rattle.std.specs.Prelude.{◌≤◌, IfErr};

use crate::answers::Answers;
use crate::check::text_of;
use crate::packages::{Looked, looked_at, property_text, quote, text_at};
use crate::places::{Reading, write_places};
use cfb_medium::Error;
use msi::Defect;
use msi_export::property_name;
use package_files::{Names, status_of_error};
use package_reading::{
    Pages, PartRead, Reread, is_misnamed, shown_by, tell_source, tell_utf8_line, tell_why_refused,
    told_number,
};
use std::alloc::Global;
use std::fs::File;
use std::io::Write;
use std::rt::Files;

/// Refuses a package whose texts can't be put in UTF-8 as these pages read them: bytes without a character, texts with other bytes that read
/// as one, a summary of several sections, or a compound file that isn't sound. Each is told by a line, and each place. Refused is a part in
/// UTF-8, too, that names another page, unless the words say by which of the two it is read. The status is 1 then, and 3 where the package
/// can't be read, or nothing can be written.
pub(crate) fn check_texts<R: Files<File = File> + AllocGlobal, O: Write, E: Write>(
    rt: &R,
    names: &Names,
    pages: Pages,
    out: &mut O,
    err: &mut E,
) -> Result<(), u8>
    ensures { IfErr result (λ status. status ≤ 3) }
{
    let reread = match shown_by(rt, names, pages) {
        Ok((_shown, reread)) => reread,
        Err(error) => {
            tell_why_refused(rt, names, error, err);
            return Err(3);
        }
    };
    if is_whole(&reread) {
        tell_source(names.named(), &reread, err);
        if is_misnamed(&reread.texts) || is_misnamed(&reread.summary) {
            tell_misnamed(names.named(), &reread, err);
            return Err(1);
        }
        return Ok(());
    }
    let mut out = Answers::new(rt.alloc(), out);
    match write_losses(rt, names, pages, &reread, &mut out) {
        Ok(()) => {
            tell_loss(names.named(), err);
            tell_source(names.named(), &reread, err);
            Err(1)
        }
        Err(error) => Err(status_of_error(names.named(), error, out.broken(), 1, err)),
    }
}

// Tells that the words are to say which page is meant.
fn tell_misnamed<E: Write>(path: &str, reread: &Reread, err: &mut E) {
    let _ = writeln!(
        err,
        "msidb: {path}: not adopted: say by that option which of the two pages is meant"
    );
    tell_utf8_line(path, reread, err);
}

fn tell_loss<E: Write>(path: &str, err: &mut E) {
    let _ = writeln!(
        err,
        "msidb: {path}: not adopted: its texts can't be put in UTF-8 as they are read"
    );
}

// Whether nothing is lost.
fn is_whole(reread: &Reread) -> bool {
    is_part_whole(&reread.texts) && is_part_whole(&reread.summary)
}

fn is_part_whole(part: &PartRead) -> bool {
    part.lacking.is_empty() && part.joined.is_empty() && part.sections < 2 && !part.is_kept_back
}

// Writes what would be lost, a line each.
fn write_losses<R: Files<File = File> + AllocGlobal, O: Write>(
    rt: &R,
    names: &Names,
    pages: Pages,
    reread: &Reread,
    out: &mut Answers<'_, O>,
) -> Result<(), Error> {
    if reread.texts.is_kept_back || reread.summary.is_kept_back {
        let reading = Reading {
            judged: None,
            told: None,
            rest: None,
        };
        out.line(text_of(Defect::Container))?;
        write_places(rt, names, reading, Defect::Container, out)?;
        return Ok(());
    }
    if 1 < reread.summary.sections {
        out.line(text_of(Defect::SummarySections))?;
    }
    let looked = looked_at(rt, names, Some(pages))?;
    write_lost(rt.alloc(), &looked, reread, out)
}

// Writes which texts would be lost. A function of its own, since a package that is held is dropped at each exit.
fn write_lost<O: Write>(
    alloc: Global,
    looked: &Looked,
    reread: &Reread,
    out: &mut Answers<'_, O>,
) -> Result<(), Error> {
    write_lacking_texts(alloc, looked, &reread.texts, out)?;
    write_joined(alloc, looked, &reread.texts, out)?;
    write_lacking_properties(alloc, looked, &reread.summary, out)
}

fn write_lacking_texts<O: Write>(
    alloc: Global,
    looked: &Looked,
    part: &PartRead,
    out: &mut Answers<'_, O>,
) -> Result<(), Error> {
    if part.lacking.is_empty() {
        return Ok(());
    }
    let page = told_number(part.read_by.unwrap_or(0));
    out.line(&format!(in alloc; "texts: one has bytes without a character in code page {page}")?)?;
    for place in &part.lacking {
        let text = quote(alloc, text_at(looked, *place))?;
        out.line(&format!(in alloc; "  place {place}, {text}")?)?;
    }
    Ok(())
}

fn write_joined<O: Write>(
    alloc: Global,
    looked: &Looked,
    part: &PartRead,
    out: &mut Answers<'_, O>,
) -> Result<(), Error> {
    if part.joined.is_empty() {
        return Ok(());
    }
    let page = told_number(part.read_by.unwrap_or(0));
    out.line(&format!(in alloc; "texts: two with other bytes read as one in code page {page}")?)?;
    for (first, second) in &part.joined {
        let text = quote(alloc, text_at(looked, *second))?;
        out.line(&format!(in alloc; "  places {first} and {second}, {text}")?)?;
    }
    Ok(())
}

fn write_lacking_properties<O: Write>(
    alloc: Global,
    looked: &Looked,
    part: &PartRead,
    out: &mut Answers<'_, O>,
) -> Result<(), Error> {
    if part.lacking.is_empty() {
        return Ok(());
    }
    let page = told_number(part.read_by.unwrap_or(0));
    out.line(&format!(in alloc;
        "summary: a text has bytes without a character in code page {page}"
    )?)?;
    for number in &part.lacking {
        let text = quote(alloc, property_text(looked, *number))?;
        let name = property_name(*number).unwrap_or("unknown");
        out.line(&format!(in alloc; "  property {number}, {name}: {text}")?)?;
    }
    Ok(())
}
