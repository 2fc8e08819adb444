//! Edits of a summary.
ghost use Rattle.cfb_medium.specs.Times.{units_of};
ghost use Rattle.command_file.specs.RequestsOf.{edit_said, text_said};
ghost use Rattle.msi_summary.specs.Edits.{EditsOrOutOfMemory};
ghost use Rattle.msi_summary.specs.Summary.{set_arch, set_keywords, set_languages, set_number, set_text, set_time};
ghost use Rattle.std.specs.Prelude.{map, option_map, string_bytes};
ghost use Rattle.uuid.specs.Text.{braced_text, upper};

use cfb_medium::{Error, Timestamp};
use command_file::SummaryEdit;
use msi_summary::SummaryInfo;
use msi_texts::LanguageId;
use uuid::Uuid;

/// Makes an edit of a summary. After an error, which is `Memory`, nothing is changed.
pub(crate) fn apply_edit(summary: &mut SummaryInfo, change: &SummaryEdit) -> Result<(), Error>
    ensures { EditsOrOutOfMemory (edit_said change.now) summary.old summary.new result }
{
    match change {
        SummaryEdit::Title(text) => put_title(summary, text),
        SummaryEdit::Subject(text) => put_subject(summary, text),
        SummaryEdit::Author(text) => put_author(summary, text),
        SummaryEdit::Keywords(keywords) => put_keywords(summary, keywords),
        SummaryEdit::Comments(text) => put_comments(summary, text),
        SummaryEdit::Arch(text) => put_arch(summary, text),
        SummaryEdit::Languages(languages) => put_languages(summary, languages),
        SummaryEdit::LastSavedBy(text) => put_last_saved_by(summary, text),
        SummaryEdit::Uuid(uuid) => put_uuid(summary, *uuid),
        SummaryEdit::LastPrinted(moment) => put_last_printed(summary, *moment),
        SummaryEdit::CreationTime(moment) => put_creation_time(summary, *moment),
        SummaryEdit::LastSavedTime(moment) => put_last_saved_time(summary, *moment),
        SummaryEdit::PageCount(number) => put_page_count(summary, *number),
        SummaryEdit::WordCount(number) => put_word_count(summary, *number),
        SummaryEdit::CharacterCount(number) => put_character_count(summary, *number),
        SummaryEdit::CreatingApplication(text) => put_creating_application(summary, text),
        SummaryEdit::DocSecurity(number) => put_doc_security(summary, *number),
        SummaryEdit::Codepage(page) => summary.set_codepage(*page),
    }
}

fn put_title(summary: &mut SummaryInfo, text: &Option<String>) -> Result<(), Error>
    ensures { EditsOrOutOfMemory (set_text 2 (text_said text.now)) summary.old summary.new result }
{
    match text {
        Some(text) => summary.set_title(text),
        None => {
            summary.clear_title();
            Ok(())
        }
    }
}

fn put_subject(summary: &mut SummaryInfo, text: &Option<String>) -> Result<(), Error>
    ensures { EditsOrOutOfMemory (set_text 3 (text_said text.now)) summary.old summary.new result }
{
    match text {
        Some(text) => summary.set_subject(text),
        None => {
            summary.clear_subject();
            Ok(())
        }
    }
}

fn put_author(summary: &mut SummaryInfo, text: &Option<String>) -> Result<(), Error>
    ensures { EditsOrOutOfMemory (set_text 4 (text_said text.now)) summary.old summary.new result }
{
    match text {
        Some(text) => summary.set_author(text),
        None => {
            summary.clear_author();
            Ok(())
        }
    }
}

fn put_comments(summary: &mut SummaryInfo, text: &Option<String>) -> Result<(), Error>
    ensures { EditsOrOutOfMemory (set_text 6 (text_said text.now)) summary.old summary.new result }
{
    match text {
        Some(text) => summary.set_comments(text),
        None => {
            summary.clear_comments();
            Ok(())
        }
    }
}

fn put_last_saved_by(summary: &mut SummaryInfo, text: &Option<String>) -> Result<(), Error>
    ensures { EditsOrOutOfMemory (set_text 8 (text_said text.now)) summary.old summary.new result }
{
    match text {
        Some(text) => summary.set_last_saved_by(text),
        None => {
            summary.clear_last_saved_by();
            Ok(())
        }
    }
}

fn put_creating_application(summary: &mut SummaryInfo, text: &Option<String>) -> Result<(), Error>
    ensures { EditsOrOutOfMemory (set_text 18 (text_said text.now)) summary.old summary.new result }
{
    match text {
        Some(text) => summary.set_creating_application(text),
        None => {
            summary.clear_creating_application();
            Ok(())
        }
    }
}

fn put_keywords(summary: &mut SummaryInfo, keywords: &Option<Vec<String>>) -> Result<(), Error>
    ensures { EditsOrOutOfMemory
        (set_keywords (option_map (λ texts. map string_bytes texts.items) keywords.now))
        summary.old summary.new result }
{
    match keywords {
        Some(keywords) => summary.set_keywords(keywords),
        None => summary.clear_keywords(),
    }
}

fn put_arch(summary: &mut SummaryInfo, text: &Option<String>) -> Result<(), Error>
    ensures { EditsOrOutOfMemory (set_arch (text_said text.now)) summary.old summary.new result }
{
    match text {
        Some(text) => summary.set_arch(text),
        None => summary.clear_arch(),
    }
}

fn put_languages(
    summary: &mut SummaryInfo,
    languages: &Option<Vec<LanguageId>>,
) -> Result<(), Error>
    ensures { EditsOrOutOfMemory (set_languages (option_map (λ ids. ids.items) languages.now))
        summary.old summary.new result }
{
    match languages {
        Some(languages) => summary.set_languages(languages),
        None => summary.clear_languages(),
    }
}

fn put_uuid(summary: &mut SummaryInfo, uuid: Option<Uuid>) -> Result<(), Error>
    ensures { EditsOrOutOfMemory (set_text 9 (option_map (braced_text upper) uuid))
        summary.old summary.new result }
{
    match uuid {
        Some(uuid) => summary.set_uuid(uuid),
        None => {
            summary.clear_uuid();
            Ok(())
        }
    }
}

fn put_page_count(summary: &mut SummaryInfo, number: Option<i32>) -> Result<(), Error>
    ensures { EditsOrOutOfMemory (set_number 14 number) summary.old summary.new result }
{
    match number {
        Some(number) => summary.set_page_count(number),
        None => {
            summary.clear_page_count();
            Ok(())
        }
    }
}

fn put_word_count(summary: &mut SummaryInfo, number: Option<i32>) -> Result<(), Error>
    ensures { EditsOrOutOfMemory (set_number 15 number) summary.old summary.new result }
{
    match number {
        Some(number) => summary.set_word_count(number),
        None => {
            summary.clear_word_count();
            Ok(())
        }
    }
}

fn put_character_count(summary: &mut SummaryInfo, number: Option<i32>) -> Result<(), Error>
    ensures { EditsOrOutOfMemory (set_number 16 number) summary.old summary.new result }
{
    match number {
        Some(number) => summary.set_character_count(number),
        None => {
            summary.clear_character_count();
            Ok(())
        }
    }
}

fn put_doc_security(summary: &mut SummaryInfo, number: Option<i32>) -> Result<(), Error>
    ensures { EditsOrOutOfMemory (set_number 19 number) summary.old summary.new result }
{
    match number {
        Some(number) => summary.set_doc_security(number),
        None => {
            summary.clear_doc_security();
            Ok(())
        }
    }
}

fn put_last_printed(summary: &mut SummaryInfo, moment: Option<Timestamp>) -> Result<(), Error>
    ensures { EditsOrOutOfMemory
        (set_time 11 (option_map units_of moment)) summary.old summary.new result }
{
    match moment {
        Some(moment) => summary.set_last_printed(moment),
        None => {
            summary.clear_last_printed();
            Ok(())
        }
    }
}

fn put_creation_time(summary: &mut SummaryInfo, moment: Option<Timestamp>) -> Result<(), Error>
    ensures { EditsOrOutOfMemory
        (set_time 12 (option_map units_of moment)) summary.old summary.new result }
{
    match moment {
        Some(moment) => summary.set_creation_time(moment),
        None => {
            summary.clear_creation_time();
            Ok(())
        }
    }
}

fn put_last_saved_time(summary: &mut SummaryInfo, moment: Option<Timestamp>) -> Result<(), Error>
    ensures { EditsOrOutOfMemory
        (set_time 13 (option_map units_of moment)) summary.old summary.new result }
{
    match moment {
        Some(moment) => summary.set_last_save_time(moment),
        None => {
            summary.clear_last_save_time();
            Ok(())
        }
    }
}
