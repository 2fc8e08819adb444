//! Commands that give a package the properties of a summary.
use crate::faults::{Refusal, Wanted, wrong};
use crate::summaries::{SummaryRows, line_at};
use crate::texts::own;
use cfb_medium::{Error, Timestamp};
use command_file::{Command, SummaryEdit};
use msi_props::PropertyValue;
use msi_texts::{CodePage, LanguageId};
use std::alloc::{AllocError, Global};
use uuid::Uuid;

/// Refuses the first property that no command makes.
pub fn check_summary(alloc: Global, summary: &SummaryRows) -> Result<(), Refusal> {
    for (at, (number, value)) in summary.properties.iter().enumerate() {
        let wanted = match value {
            PropertyValue::LpStr(text) => wanted_for(alloc, *number, text)?,
            _ => None,
        };
        if let Some(wanted) = wanted {
            return wrong(line_at(summary, at), 1, wanted);
        }
    }
    Ok(())
}

// What is wanted in place of a text that no command makes.
fn wanted_for(alloc: Global, number: u32, text: &str) -> Result<Option<Wanted>, AllocError> {
    Ok(match number {
        7 if template_of(alloc, text)?.is_none() => Some(Wanted::Template),
        9 if Uuid::parse_str(text).is_err() => Some(Wanted::Identifier),
        _ => None,
    })
}

/// Adds commands that give a package these properties. 10 says how long the package was edited, and is passed over.
pub fn set_summary(
    alloc: Global,
    summary: &SummaryRows,
    commands: &mut Vec<Command>,
) -> Result<(), Error> {
    for (number, value) in &summary.properties {
        match value {
            PropertyValue::LpStr(text) => push_text(alloc, *number, text, commands)?,
            PropertyValue::I2(page) => push_page(*page, commands)?,
            PropertyValue::I4(value) => push(edit_of_number(*number, *value), commands)?,
            PropertyValue::FileTime(moment) if *number != 10 => {
                push(edit_of_moment(*number, *moment), commands)?;
            }
            _ => {}
        }
    }
    Ok(())
}

fn push(edit: SummaryEdit, commands: &mut Vec<Command>) -> Result<(), Error> {
    commands.push(Command::SetSummary(edit))?;
    Ok(())
}

fn push_page(page: i16, commands: &mut Vec<Command>) -> Result<(), Error> {
    match CodePage::from_id(i32::from(page.cast_unsigned())) {
        Some(page) => push(SummaryEdit::Codepage(page), commands),
        None => Ok(()),
    }
}

// Adds what a text wants.
fn push_text(
    alloc: Global,
    number: u32,
    text: &str,
    commands: &mut Vec<Command>,
) -> Result<(), Error> {
    match number {
        5 => push(
            SummaryEdit::Keywords(Some(words_of(alloc, text)?)),
            commands,
        ),
        7 => push_template(alloc, text, commands),
        9 => match Uuid::parse_str(text) {
            Ok(id) => push(SummaryEdit::Uuid(Some(id)), commands),
            Err(_) => Ok(()),
        },
        _ => push(edit_of_text(number, own(alloc, text)?), commands),
    }
}

fn edit_of_text(number: u32, text: String) -> SummaryEdit {
    let text = Some(text);
    match number {
        2 => SummaryEdit::Title(text),
        3 => SummaryEdit::Subject(text),
        4 => SummaryEdit::Author(text),
        6 => SummaryEdit::Comments(text),
        8 => SummaryEdit::LastSavedBy(text),
        _ => SummaryEdit::CreatingApplication(text),
    }
}

// The keywords as one, so that what parts them stays.
fn words_of(alloc: Global, text: &str) -> Result<Vec<String>, AllocError> {
    let mut words = Vec::new(alloc);
    words.push(own(alloc, text)?)?;
    Ok(words)
}

fn edit_of_number(number: u32, value: i32) -> SummaryEdit {
    match number {
        14 => SummaryEdit::PageCount(Some(value)),
        15 => SummaryEdit::WordCount(Some(value)),
        16 => SummaryEdit::CharacterCount(Some(value)),
        _ => SummaryEdit::DocSecurity(Some(value)),
    }
}

fn edit_of_moment(number: u32, moment: Timestamp) -> SummaryEdit {
    match number {
        11 => SummaryEdit::LastPrinted(Some(moment)),
        12 => SummaryEdit::CreationTime(Some(moment)),
        _ => SummaryEdit::LastSavedTime(Some(moment)),
    }
}

// Adds the processor, and behind a semicolon the languages.
fn push_template(alloc: Global, text: &str, commands: &mut Vec<Command>) -> Result<(), Error> {
    let Some((arch, languages)) = template_of(alloc, text)? else {
        return Ok(());
    };
    push(SummaryEdit::Arch(Some(own(alloc, arch)?)), commands)?;
    push(SummaryEdit::Languages(Some(languages)), commands)
}

fn template_of(alloc: Global, text: &str) -> Result<Option<(&str, Vec<LanguageId>)>, AllocError> {
    let Some((arch, languages)) = text.split_once(';') else {
        return Ok(None);
    };
    match languages_of(alloc, languages)? {
        Some(all) => Ok(Some((arch, all))),
        None => Ok(None),
    }
}

fn languages_of(alloc: Global, text: &str) -> Result<Option<Vec<LanguageId>>, AllocError> {
    let mut all = Vec::new(alloc);
    if text.is_empty() {
        return Ok(Some(all));
    }
    for part in text.split(',') {
        match part.parse::<u16>() {
            Ok(code) => all.push(LanguageId::from_id(code))?,
            Err(_) => return Ok(None),
        }
    }
    Ok(Some(all))
}
