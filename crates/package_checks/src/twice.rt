//! Texts that stand at more places of the string pool than their uses need, which other programs take for several.
use crate::packages::{Looked, looked_at, quote, text_at, twice_in};
use crate::places::{MOST, Reading};
use cfb_medium::Error;
use package_files::Names;
use std::alloc::Global;
use std::fs::File;
use std::io::Write;
use std::rt::Files;

/// Tells which texts of a package stand at more places of its pool than their uses need, the first three of them, and which word makes a copy
/// without. Nothing is told where there are none, or the package can't be read.
pub fn tell_twice<R: Files<File = File> + AllocGlobal, E: Write>(
    rt: &R,
    names: &Names,
    err: &mut E,
) {
    let reading = Reading {
        judged: None,
        told: None,
        rest: Some("msidb check --places"),
    };
    tell_twice_by(rt, names, reading, err);
}

/// The same, by how the package is read.
pub(crate) fn tell_twice_by<R: Files<File = File> + AllocGlobal, E: Write>(
    rt: &R,
    names: &Names,
    reading: Reading,
    err: &mut E,
) {
    if let Ok(Some(note)) = note_of(rt, names, reading) {
        let _ = writeln!(err, "msidb: {note}");
    }
}

// What is told; nothing where there are no such texts.
fn note_of<R: Files<File = File> + AllocGlobal>(
    rt: &R,
    names: &Names,
    reading: Reading,
) -> Result<Option<String>, Error> {
    let looked = looked_at(rt, names, reading.judged)?;
    note_on(rt, names, reading, &looked)
}

// Functions of their own, since a package that is held is dropped at each exit.
fn note_on<R: Files<File = File> + AllocGlobal>(
    rt: &R,
    names: &Names,
    reading: Reading,
    looked: &Looked,
) -> Result<Option<String>, Error> {
    let places = twice_in(rt.alloc(), looked)?;
    if places.is_empty() {
        return Ok(None);
    }
    match reading.told {
        None => note_by(rt.alloc(), names, looked, &places, reading.rest),
        Some(_) => {
            let told = looked_at(rt, names, reading.told)?;
            note_by(rt.alloc(), names, &told, &places, reading.rest)
        }
    }
}

fn note_by(
    alloc: Global,
    names: &Names,
    looked: &Looked,
    places: &[u32],
    rest: Option<&str>,
) -> Result<Option<String>, Error> {
    let texts = texts_of(alloc, looked, places, rest)?;
    let path = names.named();
    let count = places.len();
    let stand = if count == 1 {
        "text stands"
    } else {
        "texts stand"
    };
    let note = format!(in alloc;
        "{path}: {count} {stand} at more than one place of the string pool: {texts}; libmsi and Wine's msi.dll miss rows by that; `msidb adopt NEW {path}` makes a copy in which each text stands at one place"
    )?;
    Ok(Some(note))
}

// The texts at these places, or the first three and how many more there are.
fn texts_of(
    alloc: Global,
    looked: &Looked,
    places: &[u32],
    rest: Option<&str>,
) -> Result<String, Error> {
    let mut texts = String::from_str(alloc, "")?;
    for (at, place) in places.iter().enumerate() {
        if let Some(words) = rest {
            if at == MOST {
                let left = places.len().saturating_sub(MOST);
                texts.push_str(&format!(in alloc; " and {left} more ({words} tells all)")?)?;
                return Ok(texts);
            }
        }
        if at != 0 {
            texts.push_str(", ")?;
        }
        texts.push_str(&quote(alloc, text_at(looked, *place))?)?;
    }
    Ok(texts)
}
