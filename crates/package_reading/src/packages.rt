//! Packages that are only read: a function for each call, since what is told of a call costs time wherever it is seen.
use cfb::{CaseMapper, CompoundFile, Entries, Entry};
use cfb_medium::Error;
use msi::{Package, ReadStream, Streams, Tables};
use msi_columns::Column;
use msi_export::{CopyError, StreamFacts, copy_stream, facts_of_stream, has_bytes, stream_of_row};
use msi_props::PropertyValue;
use msi_query::Select;
use msi_spec::PackageType;
use msi_tables::{Rows, Table};
use msi_texts::{CodePage, encode};
use package_files::{Names, Shown, shown_at};
use std::alloc::{AllocError, Global};
use std::fs::File;
use std::io::Write;
use std::rt::Files;

/// A package, to be read as a recovery would leave it.
pub fn package_at<R: Files<File = File> + AllocGlobal>(
    rt: &R,
    names: &Names,
) -> Result<Package<Shown>, Error> {
    let shown = shown_at(rt, names)?;
    package_of(rt.alloc(), shown)
}

pub(crate) fn package_of(alloc: Global, shown: Shown) -> Result<Package<Shown>, Error> {
    let letters = CaseMapper::ascii(alloc)?;
    match Package::open(alloc, shown, letters) {
        Ok(package) => Ok(package),
        Err((_shown, error)) => Err(error),
    }
}

/// A compound file, to be read as a recovery would leave it.
pub fn container_at<R: Files<File = File> + AllocGlobal>(
    rt: &R,
    names: &Names,
) -> Result<CompoundFile<Shown>, Error> {
    let shown = shown_at(rt, names)?;
    container_of(rt.alloc(), shown)
}

/// The compound file in a file.
pub fn container_of(alloc: Global, shown: Shown) -> Result<CompoundFile<Shown>, Error> {
    let letters = CaseMapper::ascii(alloc)?;
    match CompoundFile::open(alloc, shown, letters) {
        Ok(file) => Ok(file),
        Err((_shown, error)) => Err(error),
    }
}

/// The objects of a compound file, each storage before what it holds.
pub fn entries_at<R: Files<File = File> + AllocGlobal>(
    rt: &R,
    names: &Names,
) -> Result<Entries, Error> {
    let file = container_at(rt, names)?;
    entries_of(&file)
}

fn entries_of(file: &CompoundFile<Shown>) -> Result<Entries, Error> {
    file.walk()
}

/// The class of an object, as it is written with hyphens.
pub fn class_of(alloc: Global, entry: &Entry) -> Result<String, AllocError> {
    format!(in alloc; "{}", entry.clsid())
}

/// Whether a package is sound.
pub fn is_sound_at<R: Files<File = File> + AllocGlobal>(
    rt: &R,
    names: &Names,
) -> Result<bool, Error> {
    let package = package_at(rt, names)?;
    Ok(is_sound(&package))
}

/// Whether a package has a digital signature; not, where it can't be read.
pub fn is_signed_at<R: Files<File = File> + AllocGlobal>(rt: &R, names: &Names) -> bool {
    match package_at(rt, names) {
        Ok(package) => is_signed(&package),
        Err(_) => false,
    }
}

pub(crate) fn is_sound(package: &Package<Shown>) -> bool {
    package.is_sound()
}

pub fn is_signed(package: &Package<Shown>) -> bool {
    package.has_digital_signature()
}

pub fn kind_of(package: &Package<Shown>) -> PackageType {
    package.package_type()
}

/// The code page of its texts.
pub fn codepage_of(package: &Package<Shown>) -> CodePage {
    package.database_codepage()
}

/// The number of that.
pub(crate) fn page_of(package: &Package<Shown>) -> i32 {
    codepage_of(package).id()
}

/// What a file has that a package doesn't tell.
#[derive(Clone, Copy)]
pub struct Stored {
    /// The number of the code page: 0 where it names none.
    pub page: u32,
    /// Whether there is a storage beside the root.
    pub has_storages: bool,
}

pub fn stored_at<R: Files<File = File> + AllocGlobal>(
    rt: &R,
    names: &Names,
) -> Result<Stored, Error> {
    let mut file = container_at(rt, names)?;
    let page = stored_page(rt.alloc(), &mut file)?;
    let has_storages = has_storages(entries_of(&file)?);
    Ok(Stored { page, has_storages })
}

fn pool_bytes(alloc: Global, file: &mut CompoundFile<Shown>) -> Result<Vec<u8>, Error> {
    let path = encode(alloc, "_StringPool", true)?;
    file.read_stream(&path)
}

fn has_storages(entries: Entries) -> bool {
    for entry in entries {
        if !entry.is_stream() && !entry.is_root() {
            return true;
        }
    }
    false
}

// The first number of the string pool, without the bit that tells how long its places are written.
fn stored_page(alloc: Global, file: &mut CompoundFile<Shown>) -> Result<u32, Error> {
    let pool = pool_bytes(alloc, file)?;
    match pool.as_slice() {
        [a, b, c, d, ..] => Ok(u32::from_le_bytes([*a, *b, *c, *d]) & 0x7fff_ffff),
        _ => Err(Error::UnexpectedEof),
    }
}

/// The properties of its summary.
pub fn properties_of(package: &Package<Shown>) -> &[(u32, PropertyValue)] {
    package.summary_info().properties()
}

/// The names of its tables.
pub fn tables_of(package: &Package<Shown>) -> Result<Tables, Error> {
    package.tables()
}

/// The names of its streams that belong to no table.
pub fn streams_of(package: &Package<Shown>) -> Result<Streams, Error> {
    package.streams()
}

pub fn table_named<'a>(package: &'a Package<Shown>, name: &str) -> Option<&'a Table> {
    package.get_table(name)
}

/// The columns of a table; none where there is no such table.
pub fn columns_of<'a>(package: &'a Package<Shown>, name: &str) -> &'a [Column] {
    match table_named(package, name) {
        Some(table) => table.columns(),
        None => &[],
    }
}

/// The columns of a table, where there is one of this name.
pub fn table_columns<'a>(package: &'a Package<Shown>, name: &str) -> Option<&'a [Column]> {
    match table_named(package, name) {
        Some(table) => Some(table.columns()),
        None => None,
    }
}

/// The names of the streams in which the bytes of a table's rows lie.
pub fn streams_of_rows(
    alloc: Global,
    package: &mut Package<Shown>,
    name: &str,
) -> Result<Vec<String>, Error> {
    let mut streams = Vec::new(alloc);
    for row in rows_of(alloc, package, name)? {
        if has_bytes(&row) {
            let stream = stream_of_row(alloc, name, &row)?;
            if has_stream(package, &stream) {
                streams.push(stream)?;
            }
        }
    }
    Ok(streams)
}

/// All rows of a table.
pub fn rows_of(alloc: Global, package: &mut Package<Shown>, name: &str) -> Result<Rows, Error> {
    let select = Select::table(alloc, name)?;
    package.select_rows(&select)
}

/// Whether there is a stream of this name.
pub fn has_stream(package: &Package<Shown>, name: &str) -> bool {
    package.has_stream(name)
}

pub fn facts_of(
    alloc: Global,
    package: &mut Package<Shown>,
    name: &str,
) -> Result<StreamFacts, Error> {
    facts_of_stream(alloc, package, name)
}

/// A stream of a package, to be read piece by piece.
pub fn open_stream<'a>(
    package: &'a mut Package<Shown>,
    name: &str,
) -> Result<ReadStream<'a, Shown>, Error> {
    package.open_stream(name)
}

/// Writes the bytes of a stream to an output, piece by piece.
pub fn write_stream_to<W: Write>(
    stream: &mut ReadStream<'_, Shown>,
    output: &mut W,
) -> Result<(), CopyError> {
    copy_stream(stream, output)
}
