//! Values: as they are printed, and those of languages and identifiers.
use cfb_medium::Error;
use msi_texts::LanguageId;
use msi_values::Value;
use std::alloc::Global;
use test_support::{Row, Subject, copy_of, shown, value_at};
use uuid::Uuid;

/// Answers calls on values.
#[derive(Drop)]
pub struct Values;

impl Subject for Values {
    fn answer(&mut self, alloc: Global, row: &Row) -> Result<String, Error> {
        match row.call() {
            "value" => laid_out(alloc, row),
            "languages" => joined_texts(alloc, row),
            "identifier" => in_braces(alloc, row.text(1)),
            _ => Err(Error::NotFound),
        }
    }
}

// A value under a layout.
fn laid_out(alloc: Global, row: &Row) -> Result<String, Error> {
    let value = value_at(alloc, row, 2)?;
    match row.text(1) {
        ">6" => in_six(alloc, &value),
        "~>8" => behind_marks(alloc, &value),
        "^9" => in_middle(alloc, &value),
        _ => cut_value(alloc, row.text(1), &value),
    }
}

fn in_six(alloc: Global, value: &Value) -> Result<String, Error> {
    Ok(format!(in alloc; "{value:>6}")?)
}

fn behind_marks(alloc: Global, value: &Value) -> Result<String, Error> {
    Ok(format!(in alloc; "{value:~>8}")?)
}

fn in_middle(alloc: Global, value: &Value) -> Result<String, Error> {
    Ok(format!(in alloc; "{value:^9}|")?)
}

// A value under a layout that may cut it.
fn cut_value(alloc: Global, layout: &str, value: &Value) -> Result<String, Error> {
    match layout {
        ".3" => first_three(alloc, value),
        "-<6.4" => first_four(alloc, value),
        _ => shown(alloc, value),
    }
}

fn first_three(alloc: Global, value: &Value) -> Result<String, Error> {
    Ok(format!(in alloc; "{value:.3}|")?)
}

fn first_four(alloc: Global, value: &Value) -> Result<String, Error> {
    Ok(format!(in alloc; "{value:-<6.4}|")?)
}

fn joined_texts(alloc: Global, row: &Row) -> Result<String, Error> {
    let languages = languages_at(alloc, row, 1)?;
    let both = Value::languages(alloc, &languages)?;
    copy_of(alloc, both.as_str().unwrap_or(""))
}

// The languages of a list of numbers.
fn languages_at(alloc: Global, row: &Row, place: usize) -> Result<Vec<LanguageId>, Error> {
    let mut languages = Vec::new(alloc);
    for cell in row.list(place) {
        let id = cell.as_u64().unwrap_or(0);
        languages.push(LanguageId::from_id(u16::try_from(id).unwrap_or(0)))?;
    }
    Ok(languages)
}

fn in_braces(alloc: Global, text: &str) -> Result<String, Error> {
    let Ok(uuid) = Uuid::parse_str(text) else {
        return Err(Error::InvalidData);
    };
    let guid = Value::guid(alloc, uuid)?;
    copy_of(alloc, guid.as_str().unwrap_or(""))
}
