//! Texts as cells of exported tables have them.
ghost use Rattle.std.specs.Prelude.{◌≡◌, ◌++◌, encode_utf8, map, string_bytes, IfOk, OnOk};
ghost use Rattle.idt_rows.specs.Letters.{comes_back, meant, shown, stands_in};

use std::alloc::{AllocError, Global};

/// A text as a cell: other control characters stand for those that would end a cell or a line. The one error is want of memory.
pub fn shown_text(alloc: Global, text: &str) -> Result<String, AllocError>
    ensures { IfOk result (λ cell. string_bytes cell ≡ map shown text.now) }
{
    let mut cell = String::new(alloc);
    for ch in text.chars() {
        push_shown(&mut cell, ch)?;
    }
    Ok(cell)
}

/// Whether a text has no character that stands for another: `meant_text` gives it back then (`texts_come_back`).
pub fn comes_back(text: &str) -> bool
    ensures { result ≡ comes_back text.now }
{
    text.as_bytes().iter().all(|byte| !stands_in(*byte))
}

// Whether a character stands for another.
fn stands_in(byte: u8) -> bool
    ensures { result ≡ stands_in byte }
{
    matches!(byte, 21 | 27 | 16 | 25 | 24 | 17)
}

/// The text that a cell stands for. The one error is want of memory.
pub fn meant_text(alloc: Global, cell: &str) -> Result<String, AllocError>
    ensures { IfOk result (λ text. string_bytes text ≡ map meant cell.now) }
{
    let mut text = String::new(alloc);
    for ch in cell.chars() {
        push_meant(&mut text, ch)?;
    }
    Ok(text)
}

// Adds what stands for a character.
fn push_shown(cell: &mut String, ch: char) -> Result<(), AllocError>
    ensures { OnOk result (string_bytes cell.new
        ≡ string_bytes cell.old ++ encode_utf8 (shown ch)) }
{
    cell.push(shown(ch))
}

// Adds what a character stands for.
fn push_meant(text: &mut String, ch: char) -> Result<(), AllocError>
    ensures { OnOk result (string_bytes text.new
        ≡ string_bytes text.old ++ encode_utf8 (meant ch)) }
{
    text.push(meant(ch))
}

// What stands for a character.
#[tactic(auto, unfolding(crate::specs::Letters::shown))]
fn shown(ch: char) -> char
    ensures { result ≡ shown ch }
{
    match ch {
        '\0' => '\u{15}',
        '\u{8}' => '\u{1b}',
        '\t' => '\u{10}',
        '\n' => '\u{19}',
        '\u{c}' => '\u{18}',
        '\r' => '\u{11}',
        other => other,
    }
}

// What a character stands for.
#[tactic(auto, unfolding(crate::specs::Letters::meant))]
fn meant(ch: char) -> char
    ensures { result ≡ meant ch }
{
    match ch {
        '\u{15}' => '\0',
        '\u{1b}' => '\u{8}',
        '\u{10}' => '\t',
        '\u{19}' => '\n',
        '\u{18}' => '\u{c}',
        '\u{11}' => '\r',
        other => other,
    }
}
