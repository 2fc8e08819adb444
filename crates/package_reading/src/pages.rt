//! The code pages by which the texts of a package are read.
use command_options::Pages as Words;
use msi_texts::CodePage;
use reread_texts::TextPage;

/// A code page with its number.
#[derive(Clone, Copy, Debug, PartialEq, Eq)]
pub struct NumberedPage {
    /// The number; 0 stands for UTF-8.
    pub id: u32,
    /// The page.
    pub page: TextPage,
}

impl NumberedPage {
    /// The page of a number, where there is one.
    pub fn from_id(id: u32) -> Option<NumberedPage> {
        let page = page_of(id)?;
        Some(NumberedPage { id, page })
    }

    /// Whether the library knows as many characters of it as there are.
    pub fn is_known(self) -> bool {
        matches!(self.page, TextPage::Known(_))
    }
}

// A function of its own, since what is told of the call costs time wherever it is seen.
fn page_of(id: u32) -> Option<TextPage> {
    TextPage::from_id(id)
}

/// Whether packages of the library can name a code page.
pub(crate) fn is_named_by_packages(id: u32) -> bool {
    match i32::try_from(id) {
        Ok(id) => CodePage::from_id(id).is_some(),
        Err(_) => false,
    }
}

/// What the code page of a number is called.
pub fn name_of_page(id: u32) -> Option<&'static str> {
    match i32::try_from(id) {
        Ok(number) => match CodePage::from_id(number) {
            Some(page) => Some(page.name()),
            None => name_of_whole_page(id),
        },
        Err(_) => None,
    }
}

// The same of those that packages of the library can't name.
fn name_of_whole_page(id: u32) -> Option<&'static str> {
    Some(match id {
        437 => "DOS United States",
        850 => "DOS Latin 1",
        852 => "DOS Latin 2",
        866 => "DOS Cyrillic",
        874 => "Windows Thai",
        28599 => "ISO Latin 5 (Turkish)",
        28603 => "ISO Latin 7 (Baltic)",
        28605 => "ISO Latin 9",
        _ => return None,
    })
}

/// The code pages by which the texts of a package are read: those of its tables, and those of its summary. A part for which none is given
/// goes by the page that it names.
#[derive(Clone, Copy, Debug, PartialEq, Eq)]
pub struct Pages {
    /// The page of the texts of tables.
    pub texts: Option<NumberedPage>,
    /// That of the summary's.
    pub summary: Option<NumberedPage>,
    /// Whether both are put in UTF-8, also where the library reads them as they are to be read.
    pub is_all_utf8: bool,
}

impl Pages {
    /// Each part goes by the page that it names.
    pub fn as_named() -> Pages {
        Pages {
            texts: None,
            summary: None,
            is_all_utf8: false,
        }
    }

    /// The same pages, by which both parts are put in UTF-8.
    pub fn in_utf8(self) -> Pages {
        Pages {
            is_all_utf8: true,
            ..self
        }
    }
}

/// The pages that words ask for; or the word that is no number of a page.
pub fn pages_of<'a>(words: Words<'a>) -> Result<Pages, &'a str> {
    let texts = match words.texts {
        Some(word) => Some(numbered(word)?),
        None => None,
    };
    let summary = match words.summary {
        Some(word) => Some(numbered(word)?),
        None => None,
    };
    Ok(Pages {
        texts,
        summary,
        is_all_utf8: false,
    })
}

fn numbered(word: &str) -> Result<NumberedPage, &str> {
    match word.parse::<u32>() {
        Ok(id) => NumberedPage::from_id(id).ok_or(word),
        Err(_) => Err(word),
    }
}
