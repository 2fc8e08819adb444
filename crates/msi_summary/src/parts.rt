//! Texts that hold several: cut at semicolons and commas, and joined.
ghost use Rattle.std.specs.Prelude.{◌<◌, ◌≡◌, ◌==◌, ◌++◌, ◌∷◌, map, reverse, string_bytes, IfErr, IfOk, OnOk, codes};
ghost use Rattle.std.specs.Fmt.{decimal};
ghost use Rattle.std.specs.Str.{trim};
ghost use Rattle.std.specs.List.{after_first, before_first, filter_map, flat_map, slice_split};
ghost use Rattle.cfb_medium.specs.declared.error.Error.TheVariants.{Memory};
ghost use Rattle.msi_summary.specs.Summary.{id_read, is_semicolon, join_texts, parts_of, unbraced, without_front};

use cfb_medium::Error;
use msi_texts::LanguageId;
use std::alloc::{AllocError, Global};

// What stands before the first semicolon, or all.
pub(crate) fn before_semicolon(text: &str) -> &str
    ensures { result.now ≡ before_first is_semicolon text.now }
{
    match text.split_once(';') {
        Some((front, _)) => front,
        None => text,
    }
}

// What stands behind the first semicolon, or nothing.
pub(crate) fn behind_semicolon(text: &str) -> &str
    ensures { result.now ≡ after_first is_semicolon text.now }
{
    match text.split_once(';') {
        Some((_, behind)) => behind,
        None => "",
    }
}

// The language of a number of 16 bits.
fn language_in(text: &str) -> Option<LanguageId>
    ensures { result ≡ id_read text.now }
{
    match text.parse::<u16>() {
        Ok(id) => Some(LanguageId::from_id(id)),
        Err(_) => None,
    }
}

// The parts of a text between separators.
fn cut_at(alloc: Global, text: &str, separator: char) -> Result<Vec<&str>, AllocError>
    requires { separator < 128 }
    ensures { IfOk result (λ parts. map (λ p. p.now) parts.items
        ≡ slice_split (λ b. b == separator) text.now) }
{
    text.split(separator).collect(alloc)
}

// The languages among the numbers that commas part.
pub(crate) fn languages_in(alloc: Global, text: &str) -> Result<Vec<LanguageId>, Error>
    ensures ok { IfOk result (λ languages. languages.items
        ≡ filter_map id_read (slice_split (λ b. b == 44) text.now)) }
    ensures errors { IfErr result (λ e. e ≡ Memory) }
{
    let parts = cut_at(alloc, text, ',')?;
    languages_among(alloc, &parts)
}

// The languages among texts.
fn languages_among(alloc: Global, parts: &[&str]) -> Result<Vec<LanguageId>, Error>
    ensures ok { IfOk result (λ languages. languages.items
        ≡ filter_map id_read (map (λ p. p.now) parts.now)) }
    ensures errors { IfErr result (λ e. e ≡ Memory) }
{
    let mut languages = Vec::new(alloc);
    for part in parts {
        if let Some(language) = language_in(part) {
            languages.push(language)?;
        }
    }
    Ok(languages)
}

// Appends each language's number behind a comma.
fn push_others(words: &mut String, languages: &[LanguageId]) -> Result<(), AllocError>
    ensures { OnOk result (string_bytes words.new
        ≡ string_bytes words.old ++ flat_map (λ t. codes "," ++ t) (map decimal languages.now)) }
{
    for language in languages {
        write!(words, ",{}", language.id())?;
    }
    Ok(())
}

// Appends the languages' numbers with a comma between each two.
pub(crate) fn push_languages(words: &mut String, languages: &[LanguageId]) -> Result<(), AllocError>
    ensures { OnOk result (string_bytes words.new
        ≡ string_bytes words.old ++ join_texts (codes ",") (map decimal languages.now)) }
{
    if let [first, rest @ ..] = languages {
        write!(words, "{}", first.id())?;
        push_others(words, rest)?;
    }
    Ok(())
}

// The texts that semicolons part, without the white space at their ends; none of no text.
pub(crate) fn parts_in(alloc: Global, text: &str) -> Result<Vec<String>, Error>
    ensures ok { IfOk result (λ parts. map string_bytes parts.items ≡ parts_of text.now) }
    ensures errors { IfErr result (λ e. e ≡ Memory) }
{
    if text.is_empty() {
        return Ok(Vec::new(alloc));
    }
    let cut = cut_at(alloc, text, ';')?;
    trimmed_texts(alloc, &cut)
}

// Texts without the white space at their ends.
fn trimmed_texts(alloc: Global, texts: &[&str]) -> Result<Vec<String>, Error>
    ensures ok { IfOk result (λ parts. map string_bytes parts.items
        ≡ map trim (map (λ t. t.now) texts.now)) }
    ensures errors { IfErr result (λ e. e ≡ Memory) }
{
    let mut parts = Vec::new(alloc);
    for text in texts {
        parts.push(String::from_str(alloc, text.trim())?)?;
    }
    Ok(parts)
}

// Appends each text behind a semicolon and a space.
fn push_parts(words: &mut String, parts: &[String]) -> Result<(), AllocError>
    ensures { OnOk result (string_bytes words.new
        ≡ string_bytes words.old ++ flat_map (λ t. codes "; " ++ t) (map string_bytes parts.now)) }
{
    for part in parts {
        words.push_str("; ")?;
        words.push_str(part)?;
    }
    Ok(())
}

// The texts with a semicolon and a space between each two.
pub(crate) fn joined_parts(alloc: Global, parts: &[String]) -> Result<String, Error>
    ensures ok { IfOk result (λ words. string_bytes words
        ≡ join_texts (codes "; ") (map string_bytes parts.now)) }
    ensures errors { IfErr result (λ e. e ≡ Memory) }
{
    let mut words = String::new(alloc);
    if let [first, rest @ ..] = parts {
        words.push_str(first)?;
        push_parts(&mut words, rest)?;
    }
    Ok(words)
}

// The bytes without the braces at their front.
fn without_opening(bytes: &[u8]) -> &[u8]
    ensures { result.now ≡ without_front (λ b. b == 123) bytes.now }
{
    let mut rest = bytes;
    while let [b'{', behind @ ..] = rest {
        rest = behind;
    }
    rest
}

// The bytes without the closing braces at their end.
fn without_closing(bytes: &[u8]) -> &[u8]
    ensures { result.now ≡ reverse (without_front (λ b. b == 125) (reverse bytes.now)) }
{
    let mut rest = bytes;
    while let [front @ .., b'}'] = rest {
        rest = front;
    }
    rest
}

// A text's bytes without the braces before it and behind it.
pub(crate) fn without_braces(text: &str) -> &[u8]
    ensures { result.now ≡ unbraced text.now }
{
    without_closing(without_opening(text.as_bytes()))
}
