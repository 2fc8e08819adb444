//! Changes of the summary.
ghost use Rattle.std.specs.Prelude.{◌≡◌, ◌^◌, codes, map, option_map, string_bytes};
ghost use Rattle.uuid.specs.Text.{braced_text, parsed, upper};
ghost use Rattle.cfb_medium.specs.Times.{units_of};
ghost use Rattle.serde_json.specs.Find.{as_str};
ghost use Rattle.serde_json.specs.View.{view};
ghost use Rattle.command_file.specs.Commands.{edit_in, page_in, uuid_in};
ghost use Rattle.json_parts.specs.Reads.{ReturnsOrInvalidInput};
ghost use Rattle.command_file.specs.RequestsOf.{edit_said, text_said};
ghost use Rattle.json_parts.specs.Values.{int_in, list_in, unless_null, whole_in};

use crate::SummaryEdit;
use cfb_medium::{Error, Timestamp};
use json_parts::{integer_of, languages_of, member, text_at, text_of, texts_of, whole_of};
use msi_texts::{CodePage, LanguageId};
use serde_json::Value as Json;
use std::alloc::Global;
use uuid::Uuid;

// A field and its value, or null that clears it.
#[tactic(auto, unfolding(crate::specs::Commands::edit_in))]
pub(crate) fn edit_of(alloc: Global, json: &Json) -> Result<SummaryEdit, Error>
    ensures { ReturnsOrInvalidInput edit_said result (edit_in (view json.now)) }
{
    let field = text_at(json, "field")?;
    let value = member(json, "value")?;
    match field {
        "title" => Ok(SummaryEdit::Title(text(alloc, value)?)),
        "subject" => Ok(SummaryEdit::Subject(text(alloc, value)?)),
        "author" => Ok(SummaryEdit::Author(text(alloc, value)?)),
        "keywords" => Ok(SummaryEdit::Keywords(texts(alloc, value)?)),
        "comments" => Ok(SummaryEdit::Comments(text(alloc, value)?)),
        "arch" => Ok(SummaryEdit::Arch(text(alloc, value)?)),
        "languages" => Ok(SummaryEdit::Languages(languages(alloc, value)?)),
        "last_saved_by" => Ok(SummaryEdit::LastSavedBy(text(alloc, value)?)),
        "uuid" => Ok(SummaryEdit::Uuid(uuid(value)?)),
        "last_printed" => Ok(SummaryEdit::LastPrinted(moment(value)?)),
        "creation_time" => Ok(SummaryEdit::CreationTime(moment(value)?)),
        "last_saved_time" => Ok(SummaryEdit::LastSavedTime(moment(value)?)),
        "page_count" => Ok(SummaryEdit::PageCount(number(value)?)),
        "word_count" => Ok(SummaryEdit::WordCount(number(value)?)),
        "character_count" => Ok(SummaryEdit::CharacterCount(number(value)?)),
        "creating_application" => Ok(SummaryEdit::CreatingApplication(text(alloc, value)?)),
        "doc_security" => Ok(SummaryEdit::DocSecurity(number(value)?)),
        "codepage" => Ok(SummaryEdit::Codepage(page_of(value)?)),
        _ => Err(Error::InvalidInput),
    }
}

// A text, or null.
fn text(alloc: Global, json: &Json) -> Result<Option<String>, Error>
    ensures { ReturnsOrInvalidInput text_said result (unless_null as_str (view json.now)) }
{
    match json {
        Json::Null => Ok(None),
        _ => Ok(Some(String::from_str(alloc, text_of(json)?)?)),
    }
}

// Texts, or null.
fn texts(alloc: Global, json: &Json) -> Result<Option<Vec<String>>, Error>
    ensures { ReturnsOrInvalidInput
        (λ all. option_map (λ texts. map string_bytes texts.items) all) result
        (unless_null (list_in as_str) (view json.now)) }
{
    match json {
        Json::Null => Ok(None),
        _ => Ok(Some(texts_of(alloc, json)?)),
    }
}

// Languages by their numbers, or null.
fn languages(alloc: Global, json: &Json) -> Result<Option<Vec<LanguageId>>, Error>
    ensures { ReturnsOrInvalidInput (λ all. option_map (λ languages. languages.items) all) result
        (unless_null (list_in (whole_in (2 ^ 16))) (view json.now)) }
{
    match json {
        Json::Null => Ok(None),
        _ => Ok(Some(languages_of(alloc, json)?)),
    }
}

// A number, or null.
fn number(json: &Json) -> Result<Option<i32>, Error>
    ensures { ReturnsOrInvalidInput (λ number. number) result (unless_null int_in (view json.now)) }
{
    match json {
        Json::Null => Ok(None),
        _ => Ok(Some(integer_of(json)?)),
    }
}

// A moment in units of 100 ns, or null.
fn moment(json: &Json) -> Result<Option<Timestamp>, Error>
    ensures { ReturnsOrInvalidInput (λ moment. option_map units_of moment) result
        (unless_null (whole_in (2 ^ 64)) (view json.now)) }
{
    match json {
        Json::Null => Ok(None),
        _ => Ok(Some(moment_of(whole_of(json)?)?)),
    }
}

// The moment of so many units.
fn moment_of(units: u64) -> Result<Timestamp, Error>
    ensures { ReturnsOrInvalidInput units_of result (Some units) }
{
    let bytes = units.to_le_bytes();
    let mut reader: &[u8] = &bytes;
    Timestamp::read_from(&mut reader)
}

// An identifier, or null.
fn uuid(json: &Json) -> Result<Option<Uuid>, Error>
    ensures { ReturnsOrInvalidInput (λ id. option_map (braced_text upper) id) result
        (unless_null uuid_in (view json.now)) }
{
    match json {
        Json::Null => Ok(None),
        _ => Ok(Some(uuid_of(json)?)),
    }
}

fn uuid_of(json: &Json) -> Result<Uuid, Error>
    ensures { ReturnsOrInvalidInput (braced_text upper) result (uuid_in (view json.now)) }
{
    let text = text_of(json)?;
    read_uuid(text).ok_or(Error::InvalidInput)
}

fn read_uuid(text: &str) -> Option<Uuid>
    ensures { result ≡ parsed text.now }
{
    match Uuid::parse_str(text) {
        Ok(id) => Some(id),
        Err(_) => None,
    }
}

// A code page by its number.
pub(crate) fn page_of(json: &Json) -> Result<CodePage, Error>
    ensures { ReturnsOrInvalidInput (λ page. page) result (page_in (view json.now)) }
{
    CodePage::from_id(integer_of(json)?).ok_or(Error::InvalidInput)
}
