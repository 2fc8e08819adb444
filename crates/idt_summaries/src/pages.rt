//! The summary's code page.
ghost use Rattle.std.specs.Prelude.{◌≡◌};
ghost use Rattle.idt_summaries.specs.Reading.{low_page, page_from, page_in, page_of_number};

use crate::numbers::whole_of;
use msi_texts::CodePage;

/// The number of a code page that is known, as one of 16 bits with a sign. So it may stand in the text, too.
pub(crate) fn page_of(text: &str) -> Option<i16>
    ensures { result ≡ page_in text.now }
{
    page_of_number(whole_of(text)?)
}

fn page_of_number(number: i32) -> Option<i16>
    ensures { result ≡ page_of_number number }
{
    if number < 0 {
        page_from(number.saturating_add(65536))
    } else {
        page_from(number)
    }
}

fn page_from(number: i32) -> Option<i16>
    ensures { result ≡ page_from number }
{
    match u16::try_from(number) {
        Ok(low) => known_page(low),
        Err(_) => None,
    }
}

fn known_page(low: u16) -> Option<i16>
    ensures { result ≡ low_page low }
{
    match CodePage::from_id(i32::from(low)) {
        Some(_) => Some(low.cast_signed()),
        None => None,
    }
}
