//! Names of streams, code pages, languages and categories.
use cfb_medium::Error;
use msi_texts::{Category, CodePage, LanguageId, decode, encode, is_valid};
use std::alloc::Global;
use test_support::{Row, Subject, bytes_at, copy_of, hex_of, named, shown, yes_or_no};

/// Answers calls of `msi_texts`.
#[derive(Drop)]
pub struct Texts;

impl Subject for Texts {
    fn answer(&mut self, alloc: Global, row: &Row) -> Result<String, Error> {
        match row.call() {
            "name" | "name in a file" | "is a name" => of_name(alloc, row),
            "page" | "page's name" | "read" | "write" | "fits" | "default page" => of_page(
                alloc, row,
            ),
            "language" | "tag" | "language of" | "printed" => of_language(alloc, row),
            "category" | "categories" | "takes" => of_category(alloc, row),
            _ => Err(Error::NotFound),
        }
    }
}

fn of_name(alloc: Global, row: &Row) -> Result<String, Error> {
    let (name, is_table) = (row.text(1), row.flag(2));
    match row.call() {
        "is a name" => yes_or_no(alloc, is_valid(name, is_table)),
        "name in a file" => encode(alloc, name, is_table),
        _ => decoded_name(alloc, name),
    }
}

fn decoded_name(alloc: Global, name: &str) -> Result<String, Error> {
    let (decoded, is_table) = decode(alloc, name)?;
    named(alloc, if is_table { "table" } else { "stream" }, &decoded)
}

// The page of a number.
fn page_of(number: i64) -> Option<CodePage> {
    match i32::try_from(number) {
        Ok(id) => CodePage::from_id(id),
        Err(_) => None,
    }
}

fn of_page(alloc: Global, row: &Row) -> Result<String, Error> {
    if row.call() == "default page" {
        return shown(alloc, &CodePage::default().id());
    }
    match page_of(row.number(1)) {
        Some(page) => under_page(alloc, page, row),
        None => Err(Error::NotFound),
    }
}

fn under_page(alloc: Global, page: CodePage, row: &Row) -> Result<String, Error> {
    match row.call() {
        "read" => page.decode(alloc, &bytes_at(alloc, row, 2)?),
        "write" => hex_of(alloc, &page.encode(alloc, row.text(2))?),
        "fits" => yes_or_no(alloc, page.fits(row.text(2))),
        "page's name" => copy_of(alloc, page.name()),
        _ => shown(alloc, &page.id()),
    }
}

fn language_of(row: &Row) -> LanguageId {
    let short = |place| u16::try_from(row.number(place)).unwrap_or(0);
    match row.call() {
        "tag" => LanguageId::from_tag(row.text(1)),
        "language" => LanguageId::new(short(1), short(2)),
        "printed" => LanguageId::from_lcid(u32::try_from(row.number(1)).unwrap_or(0)),
        _ => LanguageId::from_id(short(1)),
    }
}

fn of_language(alloc: Global, row: &Row) -> Result<String, Error> {
    let language = language_of(row);
    match row.call() {
        "printed" => printed(alloc, language),
        _ => id_and_tag(alloc, language),
    }
}

fn printed(alloc: Global, language: LanguageId) -> Result<String, Error> {
    Ok(format!(in alloc; "{language} {language:x} {language:#X}")?)
}

fn id_and_tag(alloc: Global, language: LanguageId) -> Result<String, Error> {
    Ok(format!(in alloc; "{} {}", language.id(), language.tag())?)
}

fn of_category(alloc: Global, row: &Row) -> Result<String, Error> {
    if row.call() == "categories" {
        return all_categories_joined(alloc);
    }
    let category = row.text(1).parse::<Category>()?;
    match row.call() {
        "takes" => yes_or_no(alloc, category.validate(row.text(2))),
        _ => copy_of(alloc, category.as_str()),
    }
}

fn all_categories_joined(alloc: Global) -> Result<String, Error> {
    let mut names = String::new(alloc);
    for category in Category::all() {
        if !names.is_empty() {
            names.push(';')?;
        }
        names.push_str(category.as_str())?;
    }
    Ok(names)
}
