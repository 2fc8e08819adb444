//! What is told of texts that were read by a code page: bytes without a character, and a page that would fit better.
use crate::pages::{NumberedPage, is_named_by_packages};
use crate::reread::{Letters, PartRead, Reread};
use std::io::Write;

// How many places are told at most.
const MOST: usize = 10;

// The number of UTF-8, as which 0 counts.
const UTF8: u32 = 65001;

// The number of the page of most packages that are in no UTF-8.
const WESTERN: u32 = 1252;

// What a part of a package is called, and the option that tells its page.
#[derive(Clone, Copy)]
struct Words {
    // Behind "text" or "texts".
    of_part: &'static str,
    place: &'static str,
    places: &'static str,
    // Its texts, as the subject of a sentence.
    subject: &'static str,
    option: &'static str,
}

const TEXTS: Words = Words {
    of_part: "",
    place: "place",
    places: "places",
    subject: "its texts",
    option: "--codepage",
};

const SUMMARY: Words = Words {
    of_part: " of the summary",
    place: "property",
    places: "properties",
    subject: "the texts of its summary",
    option: "--summary-codepage",
};

// The same of a package that is read to be put in UTF-8.
const FROM_TEXTS: Words = Words {
    of_part: "",
    place: "place",
    places: "places",
    subject: "its texts",
    option: "--to-utf8 --from-codepage",
};

const FROM_SUMMARY: Words = Words {
    of_part: " of the summary",
    place: "property",
    places: "properties",
    subject: "the texts of its summary",
    option: "--to-utf8 --from-summary-codepage",
};

/// Tells of a package that is put in UTF-8 which option would read a part that another page fits.
pub fn tell_source<E: Write>(path: &str, reread: &Reread, err: &mut E) {
    tell_better(path, &reread.texts, FROM_TEXTS, err);
    tell_better(path, &reread.summary, FROM_SUMMARY, err);
}

/// Of which parts of a package it is told how they were read.
#[derive(Clone, Copy, Debug)]
pub struct Told {
    /// Of the texts of its tables.
    pub texts: bool,
    /// Of its summary.
    pub summary: bool,
}

impl Told {
    /// Of both.
    pub fn both() -> Told {
        Told {
            texts: true,
            summary: true,
        }
    }
}

/// Tells which texts of a package have bytes without a character, and which option reads a part that another page fits.
pub(crate) fn tell_reread<E: Write>(path: &str, reread: &Reread, told: Told, err: &mut E) {
    if told.texts {
        tell_part_read(path, &reread.texts, TEXTS, err);
    }
    if told.summary {
        tell_part_read(path, &reread.summary, SUMMARY, err);
    }
}

/// Whether the texts of a part are UTF-8 and another page is named there, by which no words ask to read them.
pub fn is_misnamed(part: &PartRead) -> bool {
    !part.is_asked && matches!(hint_of(part), Hint::Utf8(_))
}

/// Tells of a package that isn't adopted for its texts by which code page they would be put in UTF-8, and the command line for it.
pub fn tell_way_to_utf8<E: Write>(path: &str, reread: &Reread, err: &mut E) {
    tell_way(path, &reread.texts, FROM_TEXTS, err);
    tell_way(path, &reread.summary, FROM_SUMMARY, err);
    tell_utf8_line(path, reread, err);
}

/// Tells the command line that makes a copy of a package with its texts in UTF-8.
pub fn tell_utf8_line<E: Write>(path: &str, reread: &Reread, err: &mut E) {
    let _ = write!(err, "msidb: {path}: `msidb adopt --to-utf8");
    tell_page_option(&reread.texts, "--from-codepage", err);
    tell_page_option(&reread.summary, "--from-summary-codepage", err);
    let _ = writeln!(
        err,
        " NEW {path}` may make a copy, with its texts in UTF-8, which can be changed"
    );
}

fn tell_page_option<E: Write>(part: &PartRead, option: &str, err: &mut E) {
    if let Some(page) = page_to_try(part) {
        let _ = write!(err, " {option} {page}");
    }
}

// The code page that the words give a part, or that fits it where the one that it names doesn't.
fn page_to_try(part: &PartRead) -> Option<u32> {
    if part.is_asked {
        return part.read_by;
    }
    match hint_of(part) {
        Hint::Utf8(_) => Some(UTF8),
        Hint::Other | Hint::Unknown(_) => Some(WESTERN),
        Hint::Named => None,
    }
}

fn tell_way<E: Write>(path: &str, part: &PartRead, words: Words, err: &mut E) {
    let subject = words.subject;
    match part.read_by {
        Some(page) if part.letters == Letters::Other && !is_known(page) => {
            let _ = writeln!(
                err,
                "msidb: {path}: {subject} are in code page {page}; --to-utf8 puts them in UTF-8"
            );
        }
        _ => tell_better(path, part, words, err),
    }
}

// Whether packages are changed in a code page.
fn is_known(page: u32) -> bool {
    match NumberedPage::from_id(page) {
        Some(page) => page.is_known(),
        None => false,
    }
}

/// Tells which parts of a package, which couldn't be opened, are in code pages that no package can be changed in.
pub fn tell_foreign_pages<E: Write>(path: &str, reread: &Reread, err: &mut E) {
    tell_foreign_page(path, &reread.texts, TEXTS, err);
    tell_foreign_page(path, &reread.summary, SUMMARY, err);
}

fn tell_foreign_page<E: Write>(path: &str, part: &PartRead, words: Words, err: &mut E) {
    let subject = words.subject;
    match part.named {
        Some(page) if !is_named_by_packages(page) => {
            let _ = writeln!(
                err,
                "msidb: {path}: {subject} are in code page {page}, in which no package is changed; `msidb adopt --to-utf8` makes a copy in UTF-8"
            );
        }
        _ => {}
    }
}

fn tell_part_read<E: Write>(path: &str, part: &PartRead, words: Words, err: &mut E) {
    if let Some(page) = part.read_by {
        tell_lacking(path, part, told_number(page), words, err);
    }
    if part.is_kept_back {
        tell_kept_back(path, words, err);
    }
    tell_better(path, part, words, err);
}

// Tells which page would fit a part better, where the words don't give one.
fn tell_better<E: Write>(path: &str, part: &PartRead, words: Words, err: &mut E) {
    if !part.is_asked {
        tell_hint(path, hint_of(part), words, err);
    }
}

/// The number of a code page, as it is told.
pub fn told_number(page: u32) -> u32 {
    if page == 0 { UTF8 } else { page }
}

// Tells of texts that have bytes without a character, and where the first of them stand.
fn tell_lacking<E: Write>(path: &str, part: &PartRead, page: u32, words: Words, err: &mut E) {
    let count = part.lacking.len();
    if count == 0 {
        return;
    }
    let (texts, places) = if count == 1 {
        ("text", words.place)
    } else {
        ("texts", words.places)
    };
    let verb = if count == 1 { "has" } else { "have" };
    let of_part = words.of_part;
    let _ = write!(
        err,
        "msidb: {path}: {count} {texts}{of_part} {verb} bytes without a character in code page {page}: {places} "
    );
    tell_numbers(&part.lacking, err);
    let _ = writeln!(err, "");
}

// The first numbers, with commas between them.
fn tell_numbers<E: Write>(numbers: &[u32], err: &mut E) {
    for (at, number) in numbers.iter().enumerate() {
        if at == MOST {
            let _ = write!(err, " ..");
            return;
        }
        let comma = if at == 0 { "" } else { ", " };
        let _ = write!(err, "{comma}{number}");
    }
}

// Tells of a part that isn't read by another page, since its file can't be changed in memory.
fn tell_kept_back<E: Write>(path: &str, words: Words, err: &mut E) {
    let subject = words.subject;
    let _ = writeln!(
        err,
        "msidb: {path}: the compound file isn't sound, so {subject} are read by the code page that is named there, as far as it is known"
    );
}

// Which page would fit a part that no words ask a page of.
#[derive(Clone, Copy, Debug)]
enum Hint {
    // The part names a page that isn't known.
    Unknown(u32),
    // It names UTF-8, and its texts are in another page.
    Other,
    // Its texts are UTF-8, and it names this page.
    Utf8(u32),
    // The page that it names.
    Named,
}

fn hint_of(part: &PartRead) -> Hint {
    match part.read_by {
        Some(page) => hint_of_texts(page, part.letters),
        None => hint_of_name(part.named),
    }
}

// Of texts that stand so, and are read by this page.
fn hint_of_texts(page: u32, letters: Letters) -> Hint {
    match letters {
        Letters::Other if is_utf8(page) => Hint::Other,
        Letters::Utf8 if !is_utf8(page) => Hint::Utf8(page),
        _ => Hint::Named,
    }
}

// Of a part that is read by no page.
fn hint_of_name(named: Option<u32>) -> Hint {
    match named {
        Some(page) if NumberedPage::from_id(page).is_none() => Hint::Unknown(page),
        _ => Hint::Named,
    }
}

// Tells which page would fit a part.
fn tell_hint<E: Write>(path: &str, hint: Hint, words: Words, err: &mut E) {
    let subject = words.subject;
    let option = words.option;
    let _ = match hint {
        Hint::Unknown(named) => writeln!(
            err,
            "msidb: {path}: {subject} are in code page {named}, which isn't known; {option} reads them by another"
        ),
        Hint::Other => writeln!(
            err,
            "msidb: {path}: {subject} aren't UTF-8; try {option} {WESTERN}, or the code page of their maker"
        ),
        Hint::Utf8(page) => writeln!(
            err,
            "msidb: {path}: {subject} are UTF-8, and code page {page} is named there; {option} 65001 reads them so"
        ),
        Hint::Named => Ok(()),
    };
}

fn is_utf8(page: u32) -> bool {
    told_number(page) == UTF8
}
