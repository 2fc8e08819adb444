//! Which rules of a sound package one of any maker breaks, a line each.
ghost use Rattle.std.specs.Prelude.{◌≤◌};

use crate::answers::Answers;
use crate::packages::defects_at;
use crate::places::{Reading, write_places};
use crate::twice::tell_twice_by;
use cfb_medium::Error;
use msi::Defect;
use package_files::{Names, Output, check_shown, status_of_error, tell_failure};
use package_reading::{Pages, shown_by, tell_foreign_pages, tell_way_to_utf8, tell_why_refused};
use std::fs::File;
use std::io::Write;
use std::rt::Files;

// What is said of a rule that isn't kept.
pub(crate) fn text_of(defect: Defect) -> &'static str {
    match defect {
        Defect::Container =>
            "container: the compound file isn't sound: a sector serves two uses, one that is used is free or missing, or a stream isn't whole",
        Defect::PoolTexts => "texts: one isn't given back by the code page of the database",
        Defect::SummaryTexts => "summary: a text isn't given back by the code page of the summary",
        Defect::SummarySections => "summary: it hasn't just one section",
        Defect::FreePlaces => "texts: one stands in the string pool that no cell uses",
        Defect::TableNames =>
            "tables: one has a name that is no identifier, that no stream can have, or that is the string pool's",
        Defect::Validation =>
            "tables: _Validation hasn't the ten columns and two keys that it must have",
        Defect::Objects =>
            "streams: one is named as a table's and there is no such table, or a storage has the name of a table's stream",
        Defect::ListedSystemTables =>
            "tables: _Tables names itself or _Columns, or its rows can't be read",
        Defect::Counts =>
            "counts: the string pool doesn't count just the cells that use each text, or the rows of a table can't be read",
    }
}

// Writes a line for each rule, and behind it one for each place at which it is broken, or for the first ones, where these are known. Whether
// right counts would be all that the rules ask for.
pub(crate) fn write_defects<R: Files<File = File> + AllocGlobal, O: Write>(
    rt: &R,
    names: &Names,
    reading: Reading,
    found: &[Defect],
    out: &mut Answers<'_, O>,
) -> Result<bool, Error> {
    let mut wants_counts = true;
    for defect in found {
        out.line(text_of(*defect))?;
        let wants = write_places(rt, names, reading, *defect, out)?;
        wants_counts = wants_counts && wants;
    }
    Ok(wants_counts && !found.is_empty())
}

// Tells of a package that breaks no rule but that on counts what can be done.
fn tell_counts<E: Write>(path: &str, err: &mut E) {
    let _ = writeln!(
        err,
        "msidb: {path}: wrong counts are usual for packages of wixl, msibuild and Wine, and do no harm to reading; `msidb adopt NEW {path}` makes a copy with right ones, `msidb adopt --in-place {path}` puts them right where it lies"
    );
}

// Tells which parts of a package that couldn't be opened are in code pages that the library lacks.
pub(crate) fn tell_pages<R: Files<File = File> + AllocGlobal, E: Write>(
    rt: &R,
    names: &Names,
    err: &mut E,
) {
    if let Ok((_shown, reread)) = shown_by(rt, names, Pages::as_named()) {
        tell_foreign_pages(names.named(), &reread, err);
    }
}

/// Tells which options put texts in UTF-8, where they keep a package from being changed.
pub(crate) fn tell_pages_to_try<R: Files<File = File> + AllocGlobal, E: Write>(
    rt: &R,
    names: &Names,
    found: &[Defect],
    err: &mut E,
) {
    if !is_of_texts(found) {
        return;
    }
    if let Ok((_shown, reread)) = shown_by(rt, names, Pages::as_named()) {
        tell_way_to_utf8(names.named(), &reread, err);
    }
}

/// Whether a rule on texts is broken.
pub(crate) fn is_of_texts(found: &[Defect]) -> bool {
    found.iter().any(|it| matches!(it, Defect::PoolTexts | Defect::SummaryTexts))
}

/// How a package is checked.
#[derive(Clone, Copy, Debug, PartialEq, Eq)]
pub struct Checking {
    /// The pages by which its texts are told.
    pub pages: Pages,
    /// Whether all places are told.
    pub is_whole: bool,
    /// Whether each line has the file in front.
    pub names_file: bool,
}

impl Checking {
    fn reading(self) -> Reading {
        Reading {
            judged: None,
            told: Some(self.pages),
            rest: if self.is_whole {
                None
            } else {
                Some("--places")
            },
        }
    }

    // What stands in front of each line.
    fn front<'a>(self, names: &'a Names) -> Option<&'a str> {
        if self.names_file {
            Some(names.named())
        } else {
            None
        }
    }
}

/// Tells which rules a package breaks, which is only read, as a recovery would leave it: a line for each, none where it is sound. Behind the line stand, with
/// two blanks in front, texts of pool and summary that their code page doesn't give back, texts that no cell uses, tables with a wrong name,
/// columns of `_Validation` that aren't as they must be, objects that are out of place, tables whose rows can't be read, and texts that
/// aren't counted right, where it is the rule on these: the first three of them and how many more there are, or all. Texts are told as the pages read them; by them nothing is judged. Of one that breaks no rule but that on counts it is
/// told on `err` which texts stand at more places of the pool than their uses need. The status is 0 where it is sound, 1 where it isn't, 3 where the file is no package
/// or can't be read, or its log is malformed, which is told with the file's name, and where nothing can be written; where nobody reads the
/// answers any more it is 0 or 1 all the same.
pub fn check_package<'a, R: Files<File = File> + AllocGlobal, O: Write, E: Write>(
    rt: &R,
    names: &'a Names,
    checking: Checking,
    out: &'a mut O,
    err: &'a mut E,
) -> u8
    ensures { result ≤ 3 }
{
    if let Err(failure) = check_shown(rt, names, err) {
        tell_failure(names, failure, err);
        return 3;
    }
    let found = match defects_at(rt, names, None) {
        Ok(found) => found,
        Err(error) => {
            tell_why_refused(rt, names, error, err);
            tell_pages(rt, names, err);
            return 3;
        }
    };
    let reading = checking.reading();
    let mut out = Answers {
        alloc: rt.alloc(),
        file: checking.front(names),
        out: Output::new(out),
    };
    match write_defects(rt, names, reading, &found, &mut out) {
        Ok(_) if found.is_empty() => {
            tell_twice_by(rt, names, reading, err);
            0
        }
        Ok(wants_counts) => {
            if wants_counts {
                tell_counts(names.named(), err);
                tell_twice_by(rt, names, reading, err);
            } else {
                tell_pages_to_try(rt, names, &found, err);
            }
            1
        }
        Err(error) => status_of_error(names.named(), error, out.broken(), 1, err),
    }
}
