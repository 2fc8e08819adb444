//! Packages that are looked through: a function for each call, since what is told of a call costs time wherever it is seen.
use cfb::{CaseMapper, CompoundFile, MemoryMedium};
use cfb_medium::Error;
use msi::{Defect, Package, defects};
use msi_adopting::adopt;
use msi_building::{has_texts_twice, texts_twice, with_texts_once};
use msi_columns::Column;
use msi_findings::{
    Miscount, miscounts, misnamed_tables, misplaced_objects, misshapen_validation,
    unkept_properties, unkept_texts, unread_tables, unused_texts,
};
use msi_parts::{PackageParts, table_named};
use msi_pool::StringRef;
use msi_props::PropertyValue;
use msi_schema::validation_columns;
use msi_store::read_parts;
use msi_tables::Table;
use msi_texts::decode;
use package_files::{Names, Shown, shown_at};
use package_reading::{Pages, container_of, shown_by};
use serde_json::Value as Json;
use std::alloc::{AllocError, Global};
use std::fs::File;
use std::rc::Rc;
use std::rt::Files;

/// The file of a package as it is, or with its texts in UTF-8, of these pages.
pub(crate) fn source_at<R: Files<File = File> + AllocGlobal>(
    rt: &R,
    names: &Names,
    pages: Option<Pages>,
) -> Result<Shown, Error> {
    match pages {
        Some(pages) => {
            let (shown, _reread) = shown_by(rt, names, pages)?;
            Ok(shown)
        }
        None => shown_at(rt, names),
    }
}

/// The rules of a sound package that one breaks, as it is, or with its texts in UTF-8, of these pages.
pub(crate) fn defects_at<R: Files<File = File> + AllocGlobal>(
    rt: &R,
    names: &Names,
    pages: Option<Pages>,
) -> Result<Vec<Defect>, Error> {
    let shown = source_at(rt, names, pages)?;
    defects_of(rt.alloc(), shown)
}

fn defects_of(alloc: Global, shown: Shown) -> Result<Vec<Defect>, Error> {
    let letters = CaseMapper::ascii(alloc)?;
    match defects(alloc, shown, letters) {
        Ok((_medium, found)) => Ok(found),
        Err((_medium, error)) => Err(error),
    }
}

/// The file of a package, and its parts that memory has.
#[derive(Drop)]
pub(crate) struct Looked {
    file: CompoundFile<Shown>,
    parts: PackageParts,
}

/// A package, to be looked through for the places at which it breaks rules, as it is, or with its texts in UTF-8, of these pages.
pub(crate) fn looked_at<R: Files<File = File> + AllocGlobal>(
    rt: &R,
    names: &Names,
    pages: Option<Pages>,
) -> Result<Looked, Error> {
    let shown = source_at(rt, names, pages)?;
    let mut file = container_of(rt.alloc(), shown)?;
    match parts_of(rt.alloc(), &mut file) {
        Ok(parts) => Ok(Looked { file, parts }),
        Err(error) => Err(error),
    }
}

fn parts_of(alloc: Global, file: &mut CompoundFile<Shown>) -> Result<PackageParts, Error> {
    read_parts(alloc, file)
}

// The greatest number of a place that a reference can name. A pool with more places is told as one whose cells can't be counted.
const LAST_PLACE: u32 = 16777215;

pub(crate) fn unused_of(alloc: Global, looked: &Looked) -> Result<Vec<u32>, Error> {
    if LAST_PLACE < looked.parts.pool.num_strings() {
        return Ok(Vec::new(alloc));
    }
    unused_texts(alloc, &looked.parts.pool)
}

pub(crate) fn misnamed_of(alloc: Global, looked: &Looked) -> Result<Vec<Rc<Table>>, Error> {
    misnamed_tables(alloc, &looked.parts.tables)
}

pub(crate) fn misplaced_of(alloc: Global, looked: &Looked) -> Result<Vec<String>, Error> {
    misplaced_objects(alloc, &looked.file, &looked.parts.tables)
}

/// A name in the container as packages decode it.
pub(crate) fn decode_name(alloc: Global, name: &str) -> Result<String, Error> {
    let (name, _is_table) = decode(alloc, name)?;
    Ok(name)
}

pub(crate) fn unread_of(alloc: Global, looked: &mut Looked) -> Result<Vec<Rc<Table>>, Error> {
    unread_tables(alloc, &mut looked.file, &looked.parts.tables)
}

pub(crate) fn miscounts_of(alloc: Global, looked: &mut Looked) -> Result<Vec<Miscount>, Error> {
    if LAST_PLACE < looked.parts.pool.num_strings() {
        return Err(Error::InvalidData);
    }
    miscounts(
        alloc,
        &mut looked.file,
        &looked.parts.pool,
        &looked.parts.tables,
    )
}

pub(crate) fn unkept_texts_of(alloc: Global, looked: &mut Looked) -> Result<Vec<u32>, Error> {
    unkept_texts(alloc, &mut looked.file)
}

pub(crate) fn unkept_properties_of(alloc: Global, looked: &mut Looked) -> Result<Vec<u32>, Error> {
    unkept_properties(alloc, &mut looked.file)
}

pub(crate) fn misshapen_of(alloc: Global, looked: &Looked) -> Result<Vec<usize>, Error> {
    misshapen_validation(alloc, &looked.parts.tables)
}

/// The table `_Validation`, where it is one.
pub(crate) fn validation_of(looked: &Looked) -> Option<&Table> {
    table_named(&looked.parts.tables, "_Validation")
}

/// The columns that `_Validation` must have.
pub(crate) fn columns_wanted(alloc: Global) -> Result<Vec<Column>, Error> {
    validation_columns(alloc)
}

/// The least place of each text that stands at more places of the pool than its uses need. None where texts aren't given back by their code
/// page, since two may then read as one.
pub(crate) fn twice_in(alloc: Global, looked: &Looked) -> Result<Vec<u32>, Error> {
    if !looked.parts.gives_back {
        return Ok(Vec::new(alloc));
    }
    texts_twice(alloc, &looked.parts.pool)
}

/// The text of a property of the summary; the empty one where it has none.
pub(crate) fn property_text(looked: &Looked, number: u32) -> &str {
    for (at, value) in looked.parts.summary.properties() {
        if *at == number {
            return text_of(value);
        }
    }
    ""
}

fn text_of(value: &PropertyValue) -> &str {
    match value {
        PropertyValue::LpStr(text) => text.as_str(),
        _ => "",
    }
}

/// The text at a place of the pool; the empty one where there is no such place.
pub(crate) fn text_at(looked: &Looked, place: u32) -> &str {
    if place == 0 || LAST_PLACE < place {
        return "";
    }
    looked.parts.pool.get(StringRef::new(place))
}

/// A text as JSON has it.
pub(crate) fn quote(alloc: Global, text: &str) -> Result<String, AllocError> {
    Json::String(String::from_str(alloc, text)?).to_string(alloc)
}

/// A package in memory that is adopted.
#[derive(Drop)]
pub(crate) struct Adopted {
    package: Package<MemoryMedium>,
    // Whether texts may stand at more places of the pool than their uses need.
    may_be_twice: bool,
}

/// A copy in memory of a package, as it is, or with its texts in UTF-8, of these pages, with right counts, which is sound. `InvalidData`
/// where there is none.
pub(crate) fn adopted_at<R: Files<File = File> + AllocGlobal>(
    rt: &R,
    names: &Names,
    pages: Option<Pages>,
) -> Result<Adopted, Error> {
    let shown = source_at(rt, names, pages)?;
    let target = copy_in(rt.alloc(), shown)?;
    adopted_in(rt.alloc(), target)
}

// The bytes of a copy with right counts.
fn copy_in(alloc: Global, shown: Shown) -> Result<MemoryMedium, Error> {
    let mut file = container_of(alloc, shown)?;
    copy_of(alloc, &mut file)
}

// The package of these bytes, if it is sound.
fn adopted_in(alloc: Global, target: MemoryMedium) -> Result<Adopted, Error> {
    let (target, may_be_twice) = looked_for_twice(alloc, target)?;
    let package = package_in(alloc, target)?;
    if is_sound(&package) {
        Ok(Adopted {
            package,
            may_be_twice,
        })
    } else {
        Err(Error::InvalidData)
    }
}

/// Gives a package an empty _Validation, where it has none.
pub(crate) fn validate(adopted: &mut Adopted) -> Result<(), Error> {
    if has_validation(&adopted.package) {
        return Ok(());
    }
    adopted.may_be_twice = true;
    add_validation(&mut adopted.package)
}

fn is_sound(package: &Package<MemoryMedium>) -> bool {
    package.is_sound()
}

fn has_validation(package: &Package<MemoryMedium>) -> bool {
    package.has_table("_Validation")
}

fn add_validation(package: &mut Package<MemoryMedium>) -> Result<(), Error> {
    package.add_validation()
}

/// The package, in which each text stands at as few places of the pool as its uses need.
pub(crate) fn with_joined_texts(
    alloc: Global,
    adopted: Adopted,
) -> Result<Package<MemoryMedium>, Error> {
    if !adopted.may_be_twice {
        return Ok(adopted.package);
    }
    let medium = bytes_of(adopted.package)?;
    let (medium, is_twice) = looked_for_twice(alloc, medium)?;
    let package = package_in(alloc, medium)?;
    if is_twice {
        joined_of(alloc, package)
    } else {
        Ok(package)
    }
}

// The bytes of a package.
fn bytes_of(package: Package<MemoryMedium>) -> Result<MemoryMedium, Error> {
    match package.into_inner() {
        Ok(medium) => Ok(medium),
        Err((_medium, error)) => Err(error),
    }
}

// Whether texts stand at more places than their uses need, and the bytes.
fn looked_for_twice(alloc: Global, medium: MemoryMedium) -> Result<(MemoryMedium, bool), Error> {
    has_texts_twice(alloc, medium)
}

fn joined_of(
    alloc: Global,
    mut package: Package<MemoryMedium>,
) -> Result<Package<MemoryMedium>, Error> {
    with_texts_once(alloc, &mut package)
}

fn copy_of(alloc: Global, file: &mut CompoundFile<Shown>) -> Result<MemoryMedium, Error> {
    let letters = CaseMapper::ascii(alloc)?;
    match adopt(alloc, file, MemoryMedium::new(alloc), letters) {
        Ok(target) => Ok(target),
        Err((_target, error)) => Err(error),
    }
}

// The package of these bytes.
fn package_in(alloc: Global, medium: MemoryMedium) -> Result<Package<MemoryMedium>, Error> {
    let letters = CaseMapper::ascii(alloc)?;
    match Package::open(alloc, medium, letters) {
        Ok(package) => Ok(package),
        Err((_medium, error)) => Err(error),
    }
}
