//! Rows printed with their answers.
use crate::row::Row;
use anyhow::Result;
use cfb_medium::Error;
use std::alloc::Global;

/// What answers rows.
pub trait Subject: Drop {
    /// What a call answers, as a text.
    fn answer(&mut self, alloc: Global, row: &Row) -> Result<String, Error>;
}

/// Prints lines, with its answer beneath each row, and beneath one that is refused the error. A line that doesn't begin with a
/// bracket is no row.
pub fn print_rows<S: Subject>(rt: &HostRuntime, text: &str, mut subject: S) -> Result<()> {
    for line in text.lines() {
        println!(rt; "{line}")?;
        if line.starts_with('[') {
            let answer = answer_to(rt.alloc(), &mut subject, line)?;
            println!(rt; "    {answer}")?;
        }
    }
    Ok(())
}

// What is answered to a row, or why it is refused.
fn answer_to<S: Subject>(alloc: Global, subject: &mut S, line: &str) -> Result<String, Error> {
    let row = Row::read(alloc, line)?;
    match subject.answer(alloc, &row) {
        Ok(text) => in_ascii(alloc, text.as_str()),
        Err(error) => Ok(format!(in alloc; "! {error:?}")?),
    }
}

// A text in ASCII: any other character as its number.
fn in_ascii(alloc: Global, text: &str) -> Result<String, Error> {
    let mut out = String::new(alloc);
    for ch in text.chars() {
        if ch.is_ascii_graphic() || ch == ' ' {
            out.push(ch)?;
        } else {
            out.push_str(format!(in alloc; "\\u{:04x}", ch as u32)?.as_str())?;
        }
    }
    Ok(out)
}
