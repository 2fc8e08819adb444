//! The text of a file.
ghost use Rattle.std.specs.Prelude.{◌≡◌, string_bytes, IfOk};

use crate::faults::{Refusal, Wanted, wrong};
use msi_texts::CodePage;
use std::alloc::{AllocError, Global};

// The line on which the number of a code page may stand first.
const PAGE_LINE: usize = 2;

/// The text of a file's bytes: in the code page whose number stands first in its third line, or else in UTF-8. A byte 0 at the end, which
/// some programs write, is passed over.
pub fn text_of(alloc: Global, bytes: &[u8]) -> Result<String, Refusal> {
    let bytes = match bytes {
        [front @ .., 0] => front,
        _ => bytes,
    };
    let page = match number_first(third_line(bytes)) {
        None => CodePage::Utf8,
        Some(number) => match CodePage::from_id(number) {
            Some(page) => page,
            None => return wrong(PAGE_LINE, 0, Wanted::CodePage),
        },
    };
    let text = decoded(alloc, page, bytes)?;
    if text.starts_with('\u{feff}') {
        return wrong(0, 0, Wanted::NoMark);
    }
    match bad_place(&text) {
        None => Ok(text),
        Some((line, column)) => wrong(line, column, Wanted::Text),
    }
}

fn decoded(alloc: Global, page: CodePage, bytes: &[u8]) -> Result<String, Refusal> {
    match page.decode(alloc, bytes) {
        Ok(text) => Ok(text),
        Err(_) => Err(Refusal::Memory),
    }
}

// Line and column of the first character that stands for bytes that are none.
fn bad_place(text: &str) -> Option<(usize, usize)> {
    let mut line = 0usize;
    let mut column = 0usize;
    for c in text.chars() {
        match c {
            '\u{fffd}' => return Some((line, column)),
            '\n' => {
                line = line.saturating_add(1);
                column = 0;
            }
            '\t' => column = column.saturating_add(1),
            _ => {}
        }
    }
    None
}

// The bytes of the third line.
fn third_line(bytes: &[u8]) -> &[u8] {
    match bytes.split(|byte| *byte == b'\n').nth(2) {
        Some(line) => line,
        None => &bytes[..0],
    }
}

// The number in front of a tab, where digits alone stand there. That of `_ForceCodepage.idt` is no page of its text, but names it too.
fn number_first(line: &[u8]) -> Option<i32> {
    let mut number = 0i32;
    let mut is_first = true;
    for byte in line {
        match byte {
            b'0'..=b'9' => {
                number = number
                    .saturating_mul(10)
                    .saturating_add(i32::from(byte.saturating_sub(b'0')));
                is_first = false;
            }
            b'\t' if !is_first => return Some(number),
            _ => return None,
        }
    }
    None
}

/// A copy of a text.
pub(crate) fn own(alloc: Global, text: &str) -> Result<String, AllocError>
    ensures { IfOk result (λ copy. string_bytes copy ≡ text.now) }
{
    String::from_str(alloc, text)
}
