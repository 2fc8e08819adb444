//! What a file says of itself, also where its texts were put in UTF-8 before the package was opened.
use crate::notes::told_number;
use crate::packages::{is_sound, is_sound_at, page_of};
use crate::reread::{PartRead, Reread};
use msi::Package;
use package_files::{Names, Shown};
use std::fs::File;
use std::rt::Files;

/// What a file says of itself.
#[derive(Clone, Copy)]
pub struct Own {
    /// The number of the code page of its texts.
    pub page: u32,
    /// Whether it is a sound package.
    pub is_sound: bool,
    /// What its summary tells of the summary's page.
    pub summary: SummaryPage,
}

/// What a summary tells of its page.
#[derive(Clone, Copy, Debug, PartialEq, Eq)]
pub enum SummaryPage {
    /// What was read of it.
    AsRead,
    /// This number, though what was read of it was put in UTF-8.
    Named(u16),
    /// Nothing, though what was read of it was put in UTF-8.
    Missing,
}

/// What the file of a package that was opened says of itself. A package whose texts were put in UTF-8 is opened once more, as it is, to be
/// judged.
pub fn own_facts<R: Files<File = File> + AllocGlobal>(
    rt: &R,
    names: &Names,
    package: &Package<Shown>,
    reread: &Reread,
) -> Own {
    let is_rewritten = reread.texts.is_rewritten || reread.summary.is_rewritten;
    Own {
        page: page_shown(package, &reread.texts),
        is_sound: if is_rewritten {
            is_sound_at(rt, names) == Ok(true)
        } else {
            is_sound(package)
        },
        summary: page_in_summary(&reread.summary),
    }
}

fn page_shown(package: &Package<Shown>, texts: &PartRead) -> u32 {
    match texts.named {
        Some(id) if texts.is_rewritten => told_number(id),
        _ => page_of(package).unsigned_abs(),
    }
}

/// What the file's summary tells of its page.
pub fn page_in_summary(summary: &PartRead) -> SummaryPage {
    if !summary.is_rewritten {
        return SummaryPage::AsRead;
    }
    match summary.named {
        Some(id) => SummaryPage::Named((id & 0xffff) as u16),
        None => SummaryPage::Missing,
    }
}
