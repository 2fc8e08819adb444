//! Lists of texts and of numbers.
ghost use Rattle.std.specs.Prelude.{◌≡◌, ◌^◌, map, string_bytes};
ghost use Rattle.serde_json.specs.Find.{as_str};
ghost use Rattle.serde_json.specs.View.{items_view, view};
ghost use Rattle.json_parts.specs.Reads.{ReturnsOrInvalidInput};
ghost use Rattle.json_parts.specs.Values.{all_in, list_in, whole_in};

use crate::members::{list_of, short_of, text_of};
use cfb_medium::Error;
use msi_texts::LanguageId;
use serde_json::Value as Json;
use std::alloc::Global;

/// A list of texts, as owned ones. `InvalidInput` for anything else, `Memory` where there is no room.
pub fn texts_of(alloc: Global, json: &Json) -> Result<Vec<String>, Error>
    ensures { ReturnsOrInvalidInput (λ texts. map string_bytes texts.items) result
        (list_in as_str (view json.now)) }
{
    let list = list_of(json)?;
    each_text(alloc, list)
}

fn each_text(alloc: Global, list: &[Json]) -> Result<Vec<String>, Error>
    ensures { ReturnsOrInvalidInput (λ texts. map string_bytes texts.items) result
        (all_in as_str (items_view list.now)) }
{
    let mut texts = Vec::new(alloc);
    for item in list {
        let text = text_of(item)?;
        texts.push(String::from_str(alloc, text)?)?;
    }
    Ok(texts)
}

/// A list of texts, where they stand. `InvalidInput` for anything else, `Memory` where there is no room for the list.
pub fn borrowed_texts<'a>(alloc: Global, json: &'a Json) -> Result<Vec<&'a str>, Error>
    ensures { ReturnsOrInvalidInput (λ texts. map (λ text. text.now) texts.items) result
        (list_in as_str (view json.now)) }
{
    let list = list_of(json)?;
    each_borrowed(alloc, list)
}

fn each_borrowed<'a>(alloc: Global, list: &'a [Json]) -> Result<Vec<&'a str>, Error>
    ensures { ReturnsOrInvalidInput (λ texts. map (λ text. text.now) texts.items) result
        (all_in as_str (items_view list.now)) }
{
    let mut texts = Vec::new(alloc);
    for item in list {
        texts.push(text_of(item)?)?;
    }
    Ok(texts)
}

/// A list of languages by their numbers of 16 bits. `InvalidInput` for anything else, `Memory` where there is no room.
pub fn languages_of(alloc: Global, json: &Json) -> Result<Vec<LanguageId>, Error>
    ensures { ReturnsOrInvalidInput (λ ids. ids.items) result
        (list_in (whole_in (2 ^ 16)) (view json.now)) }
{
    let list = list_of(json)?;
    each_language(alloc, list)
}

fn each_language(alloc: Global, list: &[Json]) -> Result<Vec<LanguageId>, Error>
    ensures { ReturnsOrInvalidInput (λ ids. ids.items) result
        (all_in (whole_in (2 ^ 16)) (items_view list.now)) }
{
    let mut ids = Vec::new(alloc);
    for item in list {
        ids.push(LanguageId::from_id(short_of(item)?))?;
    }
    Ok(ids)
}
