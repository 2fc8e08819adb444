//! Packages whose texts are read by code pages of one's choice, or by whole tables: before such a package is opened the streams that have
//! its texts are put in UTF-8, in memory.
use crate::notes::{Told, tell_reread};
use crate::packages::{container_at, package_of};
use crate::pages::{NumberedPage, Pages, is_named_by_packages};
use cfb::{CompoundFile, ReadMedium};
use cfb_medium::Error;
use msi::Package;
use msi_reread::{reread_properties, reread_texts};
use msi_texts::{CodePage, SUMMARY_INFO_STREAM_NAME, encode};
use package_files::{Names, Shown};
use reread_texts::{
    RereadPool, RereadSummary, TextPage, joined_texts, reread_pool, reread_summary, tell_utf8,
    told_page,
};
use std::alloc::{AllocError, Global};
use std::fs::File;
use std::io::Write;
use std::rt::Files;

/// How texts stand in a file.
#[derive(Clone, Copy, Debug, PartialEq, Eq)]
pub enum Letters {
    /// In ASCII, so that each code page reads them alike.
    Ascii,
    /// In UTF-8, and not in ASCII.
    Utf8,
    /// In neither.
    Other,
}

/// How a part of a package was read: its texts of tables, or its summary.
#[derive(Drop)]
pub struct PartRead {
    /// The number of the code page that the part names, where it names one.
    pub named: Option<u32>,
    /// The number of the one that it was read by; none where there is no such page, or the part can't be read.
    pub read_by: Option<u32>,
    /// Whether the words gave that number.
    pub is_asked: bool,
    /// How its texts stand there.
    pub letters: Letters,
    /// The places, or the numbers of properties, of the texts of which bytes have no character.
    pub lacking: Vec<u32>,
    /// Places of texts with other bytes that read as one, two for each; only where all is put in UTF-8.
    pub joined: Vec<(u32, u32)>,
    /// How many sections the summary has; one, of texts.
    pub sections: u32,
    /// Whether it was put in UTF-8.
    pub is_rewritten: bool,
    /// Whether it wasn't since the container isn't sound.
    pub is_kept_back: bool,
}

impl PartRead {
    // One that is left as it is.
    fn left(alloc: Global, named: Option<u32>) -> PartRead {
        PartRead {
            named,
            read_by: None,
            is_asked: false,
            letters: Letters::Ascii,
            lacking: Vec::new(alloc),
            joined: Vec::new(alloc),
            sections: 1,
            is_rewritten: false,
            is_kept_back: false,
        }
    }
}

/// How the two parts of a package that have texts were read.
#[derive(Drop)]
pub struct Reread {
    /// The texts of its tables.
    pub texts: PartRead,
    /// The summary.
    pub summary: PartRead,
}

/// A package, as a recovery would leave it, whose texts are read by these pages; and how they were read. Each part that the library reads
/// otherwise stands in UTF-8 there, and names that. Texts that have bytes without a character, and pages that would fit better, are told of
/// these parts.
pub fn package_by<R: Files<File = File> + AllocGlobal, E: Write>(
    rt: &R,
    names: &Names,
    pages: Pages,
    told: Told,
    err: &mut E,
) -> Result<(Package<Shown>, Reread), Error> {
    let (shown, reread) = shown_by(rt, names, pages)?;
    tell_reread(names.named(), &reread, told, err);
    Ok((package_of(rt.alloc(), shown)?, reread))
}

/// The same, where both parts are told of.
pub fn package_by_pages<R: Files<File = File> + AllocGlobal, E: Write>(
    rt: &R,
    names: &Names,
    pages: Pages,
    err: &mut E,
) -> Result<Package<Shown>, Error> {
    let (package, _reread) = package_by(rt, names, pages, Told::both(), err)?;
    Ok(package)
}

/// A package, as a recovery would leave it, each part of which is read by the page that it names.
pub fn package_as_named<R: Files<File = File> + AllocGlobal>(
    rt: &R,
    names: &Names,
) -> Result<Package<Shown>, Error> {
    let (shown, _reread) = shown_by(rt, names, Pages::as_named())?;
    package_of(rt.alloc(), shown)
}

/// The file of such a package.
pub fn shown_by<R: Files<File = File> + AllocGlobal>(
    rt: &R,
    names: &Names,
    pages: Pages,
) -> Result<(Shown, Reread), Error> {
    let mut file = container_at(rt, names)?;
    let reread = reread_parts(rt.alloc(), &mut file, pages)?;
    Ok((file_of(file), reread))
}

// Functions of their own, since what is told of these calls costs time wherever it is seen.
fn file_of(file: CompoundFile<Shown>) -> Shown {
    file.into_inner()
}

fn bytes_at(file: &mut CompoundFile<Shown>, path: &str) -> Result<Vec<u8>, Error> {
    file.read_stream(path)
}

fn has_sound_container(file: &CompoundFile<Shown>) -> bool {
    file.is_sound()
}

fn pool_in_utf8(
    alloc: Global,
    page: TextPage,
    pool: &[u8],
    data: &[u8],
) -> Result<RereadPool, Error> {
    reread_pool(alloc, page, pool, data)
}

fn joined_in(
    alloc: Global,
    page: TextPage,
    pool: &[u8],
    data: &[u8],
) -> Result<Vec<(u32, u32)>, Error> {
    joined_texts(alloc, page, pool, data)
}

fn summary_in_utf8(alloc: Global, page: TextPage, bytes: &[u8]) -> Result<RereadSummary, Error> {
    reread_summary(alloc, page, bytes)
}

fn put_texts(alloc: Global, file: &mut CompoundFile<Shown>, page: TextPage) -> Result<(), Error> {
    let _places = reread_texts(alloc, file, page)?;
    Ok(())
}

fn put_summary(alloc: Global, file: &mut CompoundFile<Shown>, page: TextPage) -> Result<(), Error> {
    let _numbers = reread_properties(alloc, file, page)?;
    Ok(())
}

fn reread_parts(
    alloc: Global,
    file: &mut CompoundFile<Shown>,
    pages: Pages,
) -> Result<Reread, Error> {
    let is_all = pages.is_all_utf8;
    let texts = reread_texts_in(alloc, file, pages.texts, is_all)?;
    let summary = reread_summary_in(alloc, file, pages.summary, is_all)?;
    Ok(Reread { texts, summary })
}

// The bytes of a stream; nothing where there is none that can be read.
fn readable(file: &mut CompoundFile<Shown>, path: &str) -> Result<Option<Vec<u8>>, Error> {
    match bytes_at(file, path) {
        Ok(bytes) => Ok(Some(bytes)),
        Err(error) => nothing_if_unreadable(error),
    }
}

// Nothing where an error says that there is nothing to be read; else the error.
fn nothing_if_unreadable<T: Drop>(error: Error) -> Result<Option<T>, Error> {
    match error {
        Error::Memory | Error::Device | Error::Failed => Err(error),
        _ => Ok(None),
    }
}

// ---- texts of tables

// Puts the texts of tables in UTF-8, where the library reads them otherwise than they are to be read.
fn reread_texts_in(
    alloc: Global,
    file: &mut CompoundFile<Shown>,
    asked: Option<NumberedPage>,
    is_all: bool,
) -> Result<PartRead, Error> {
    let pool_path = encode(alloc, "_StringPool", true)?;
    let data_path = encode(alloc, "_StringData", true)?;
    let (Some(pool), Some(data)) = (readable(file, &pool_path)?, readable(file, &data_path)?) else {
        return Ok(PartRead::left(alloc, None));
    };
    let named = page_in(&pool);
    let letters = letters_of(&data);
    let Some(plan) = plan_of(named, asked, is_all, letters) else {
        return Ok(PartRead::left(alloc, named));
    };
    let reread = match pool_in_utf8(alloc, plan.page.page, &pool, &data) {
        Ok(reread) => reread,
        Err(Error::Memory) => return Err(Error::Memory),
        Err(_) => return Ok(PartRead::left(alloc, named)),
    };
    let joined = if is_all {
        joined_in(alloc, plan.page.page, &pool, &data)?
    } else {
        Vec::new(alloc)
    };
    let is_sound = has_sound_container(file);
    if plan.is_rewritten && is_sound {
        put_texts(alloc, file, plan.page.page)?;
    }
    let part = PartRead {
        lacking: reread.lacking,
        joined,
        ..PartRead::left(alloc, named)
    };
    Ok(plan.done(part, asked.is_some(), letters, is_sound))
}

// The number of the page that a pool names.
fn page_in(pool: &[u8]) -> Option<u32> {
    match pool {
        [a, b, c, d, ..] => Some(u32::from_le_bytes([*a, *b, *c, *d]) & 0x7fff_ffff),
        _ => None,
    }
}

fn letters_of(bytes: &[u8]) -> Letters {
    if bytes.iter().all(|byte| *byte < 128) {
        Letters::Ascii
    } else if std::str::from_utf8(bytes).is_ok() {
        Letters::Utf8
    } else {
        Letters::Other
    }
}

// ---- the summary

// Puts the summary in UTF-8, where the library reads it otherwise than it is to be read.
fn reread_summary_in(
    alloc: Global,
    file: &mut CompoundFile<Shown>,
    asked: Option<NumberedPage>,
    is_all: bool,
) -> Result<PartRead, Error> {
    let Some(bytes) = readable(file, SUMMARY_INFO_STREAM_NAME)? else {
        return Ok(PartRead::left(alloc, None));
    };
    let named = told_page(alloc, &bytes)?.map(u32::from);
    let told = tell_utf8(alloc, &bytes)?;
    let Some(letters) = letters_in(alloc, &told)? else {
        return Ok(PartRead::left(alloc, named));
    };
    let Some(plan) = plan_of(Some(named.unwrap_or(0)), asked, is_all, letters) else {
        return Ok(PartRead::left(alloc, named));
    };
    let reread = match summary_in_utf8(alloc, plan.page.page, &told) {
        Ok(reread) => reread,
        Err(Error::Memory) => return Err(Error::Memory),
        Err(_) => return Ok(PartRead::left(alloc, named)),
    };
    let is_sound = has_sound_container(file);
    if plan.is_rewritten && is_sound {
        put_summary(alloc, file, plan.page.page)?;
    }
    let part = PartRead {
        lacking: reread.lacking,
        sections: reread.sections,
        ..PartRead::left(alloc, named)
    };
    Ok(plan.done(part, asked.is_some(), letters, is_sound))
}

// How the texts of a set stand there; nothing where it can't be read.
fn letters_in(alloc: Global, bytes: &[u8]) -> Result<Option<Letters>, Error> {
    let ascii = match summary_in_utf8(alloc, TextPage::Known(CodePage::UsAscii), bytes) {
        Ok(reread) => reread,
        Err(error) => return nothing_if_unreadable(error),
    };
    if ascii.lacking.is_empty() {
        return Ok(Some(Letters::Ascii));
    }
    let utf8 = summary_in_utf8(alloc, TextPage::Known(CodePage::Utf8), bytes)?;
    Ok(Some(if utf8.lacking.is_empty() {
        Letters::Utf8
    } else {
        Letters::Other
    }))
}

// ---- what is done about a part

// The page by which a part is read, and whether the library reads it otherwise.
#[derive(Clone, Copy)]
struct Plan {
    page: NumberedPage,
    is_rewritten: bool,
}

// Nothing where the part is left as it is: in ASCII under a page that packages name, or without any page.
fn plan_of(
    named: Option<u32>,
    asked: Option<NumberedPage>,
    is_all: bool,
    letters: Letters,
) -> Option<Plan> {
    let named = named?;
    if letters == Letters::Ascii && is_named_by_packages(named) && !is_all {
        return None;
    }
    match asked {
        Some(page) => Some(Plan {
            page,
            is_rewritten: true,
        }),
        None => {
            let page = NumberedPage::from_id(named)?;
            let is_rewritten = is_all || !page.is_known();
            Some(Plan { page, is_rewritten })
        }
    }
}

impl Plan {
    // A part, by how it was read.
    fn done(self, part: PartRead, is_asked: bool, letters: Letters, is_sound: bool) -> PartRead {
        PartRead {
            read_by: Some(self.page.id),
            is_asked,
            letters,
            is_rewritten: self.is_rewritten && is_sound,
            is_kept_back: self.is_rewritten && !is_sound,
            ..part
        }
    }
}
