//! Pages by which texts are read.
ghost use Rattle.std.specs.Prelude.{◌≡◌, ◌==◌, count_by, encode_utf8_all, option_map, IfErr, IfOk, string_bytes};
ghost use Rattle.cfb_medium.specs.declared.error.Error.TheVariants.{Memory};
ghost use Rattle.msi_pool.specs.PoolReading.{text_round_trips};
ghost use Rattle.msi_texts.specs.Page.{decoded, page_id};
ghost use Rattle.whole_pages.specs.Page.{characters};
ghost use Rattle.reread_texts.specs.Texts.{all_have_characters, text_of, text_page};
ghost use Rattle.reread_texts.specs.declared.page.TextPage.TheVariants.{Known};

use cfb_medium::Error;
use msi_texts::CodePage;
use std::alloc::Global;
use whole_pages::WholePage;

/// A page by which texts are read.
#[derive(Clone, Copy, Debug, PartialEq, Eq)]
pub enum TextPage {
    /// One in which packages are changed, or of which ASCII alone is known.
    Known(CodePage),
    /// Another, by its whole table.
    Whole(WholePage),
}

impl TextPage {
    /// The page of a number: a whole table where there is one, which is that of 950 for 951, and UTF-8 for 0. There is none for other
    /// numbers.
    pub fn from_id(id: u32) -> Option<TextPage>
        ensures { result ≡ text_page id }
    {
        let whole = if id == 951 { 950 } else { id };
        match WholePage::from_id(whole) {
            Some(page) => Some(TextPage::Whole(page)),
            None => known_page(id),
        }
    }

    /// The text that bytes read as, and whether all of them have a character. U+FFFD stands for what has none. The one error is `Memory`.
    pub fn read(self, alloc: Global, bytes: &[u8]) -> Result<(String, bool), Error>
        ensures text { IfOk result (λ read. string_bytes read.0 ≡ text_of self bytes.now) }
        ensures whole { IfOk result (λ read. read.1 ≡ all_have_characters self bytes.now) }
        ensures errors { IfErr result (λ e. e ≡ Memory) }
    {
        match self {
            TextPage::Known(page) => read_known(alloc, page, bytes),
            TextPage::Whole(page) => read_whole(alloc, page, bytes),
        }
    }
}

fn known_page(id: u32) -> Option<TextPage>
    ensures { result ≡ option_map Known (page_id id) }
{
    match i32::try_from(id) {
        Ok(id) => CodePage::from_id(id).map(TextPage::Known),
        Err(_) => None,
    }
}

fn read_known(alloc: Global, page: CodePage, bytes: &[u8]) -> Result<(String, bool), Error>
    ensures text { IfOk result (λ read. string_bytes read.0 ≡ decoded page bytes.now) }
    ensures whole { IfOk result (λ read. read.1 ≡ text_round_trips page bytes.now) }
    ensures errors { IfErr result (λ e. e ≡ Memory) }
{
    let text = page.decode(alloc, bytes)?;
    let again = page.encode(alloc, text.as_str())?;
    let is_whole = again.as_slice() == bytes;
    Ok((text, is_whole))
}

fn read_whole(alloc: Global, page: WholePage, bytes: &[u8]) -> Result<(String, bool), Error>
    ensures text { IfOk result (λ read. string_bytes read.0
        ≡ encode_utf8_all (characters page bytes.now)) }
    ensures whole { IfOk result (λ read. read.1
        ≡ (count_by (λ c. c == 0xFFFD) (characters page bytes.now) == 0)) }
    ensures errors { IfErr result (λ e. e ≡ Memory) }
{
    let reading = page.read(alloc, bytes)?;
    let is_whole = reading.missing == 0;
    Ok((reading.text, is_whole))
}
