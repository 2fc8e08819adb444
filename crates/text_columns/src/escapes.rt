//! Texts as one line.
ghost use Rattle.std.specs.Prelude.{◌≡◌, ◌++◌, ◌∷◌, ◌<◌, [], chars, flat_map, string_bytes, IfOk, OnOk};
ghost use Rattle.std.specs.Char.{digit_char};
ghost use Rattle.text_columns.specs.Escapes.{code_escape, escape};

use std::alloc::{AllocError, Global};

/// A text as one line: its control characters (U+0000 to U+001F, U+007F to U+009F) stand as JSON has them in strings ([RFC 8259] 7),
/// the others as they are. The one error is want of memory.
pub fn escaped(alloc: Global, text: &str) -> Result<String, AllocError>
    ensures { IfOk result (λ line. string_bytes line ≡ flat_map escape (chars text.now)) }
{
    let mut line = String::new(alloc);
    for ch in text.chars() {
        push_escaped(&mut line, ch)?;
    }
    Ok(line)
}

// Adds a character, or what stands for it.
#[tactic(auto, unfolding(crate::specs::Escapes::escape))]
fn push_escaped(line: &mut String, ch: char) -> Result<(), AllocError>
    ensures { OnOk result (string_bytes line.new ≡ string_bytes line.old ++ escape ch) }
{
    match ch {
        '\u{8}' => line.push_str("\\b"),
        '\t' => line.push_str("\\t"),
        '\n' => line.push_str("\\n"),
        '\u{c}' => line.push_str("\\f"),
        '\r' => line.push_str("\\r"),
        '\0'..='\u{1f}' | '\u{7f}'..='\u{9f}' => push_code(line, ch as u32),
        _ => line.push(ch),
    }
}

// Adds a character by its number.
fn push_code(line: &mut String, code: u32) -> Result<(), AllocError>
    requires { code < 256 }
    ensures { OnOk result (string_bytes line.new ≡ string_bytes line.old ++ code_escape code) }
{
    line.push_str("\\u00")?;
    push_digit(line, code / 16)?;
    push_digit(line, code % 16)
}

// Adds a hexadecimal digit.
fn push_digit(line: &mut String, digit: u32) -> Result<(), AllocError>
    requires { digit < 16 }
    ensures { OnOk result (string_bytes line.new ≡ string_bytes line.old ++ digit_char digit ∷ []) }
{
    match char::from_digit(digit, 16) {
        Some(ch) => line.push(ch),
        None => Ok(()),
    }
}
