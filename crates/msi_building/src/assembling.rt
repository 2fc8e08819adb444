//! A package as bytes in memory. Nothing is claimed of it: what was made is opened, judged and compared before it is published.
ghost use Rattle.msi_tables.specs.Held.{heading_of, rows_held};
ghost use Rattle.msi_tables.specs.Rows.{HaveCells};
ghost use Rattle.std.specs.Prelude.{◌≡◌, ◌==◌, IsTrue, length};
ghost use Rattle.std.specs.List.{list_all};

use crate::said::{Said, SaidStream, SaidTable};
use crate::system::{columns_table, tables_table};
use cfb::{CaseMapper, CompoundFile};
use cfb_medium::{Error, MemoryMedium};
use msi_changes::count_rows;
use msi_columns::Column;
use msi_pool::{Draft, StringPool, StringPoolBuilder, ValueRef};
use msi_props::{OperatingSystem, PropertySet, PropertyValue};
use msi_row_edits::put_table_bytes;
use msi_streams::{write_parts, write_stream};
use msi_summary::SummaryInfo;
use msi_tables::Table;
use msi_texts::CodePage;
use std::alloc::Global;
use uuid::Uuid;

// The identifier of the root of an installer package.
const CLASS: u128 = 0x000C_1084_0000_0000_C000_0000_0000_0046;

// The identifier of a summary's one section.
const FORMAT: [u8; 16] = [
    0xe0, 0x85, 0x9f, 0xf2, 0xf9, 0x4f, 0x68, 0x10, 0xab, 0x91, 0x08, 0x00, 0x2b, 0x27, 0xb3, 0xd9,
];

// The number of the summary's code page.
const CODEPAGE: u32 = 1;

// The bit in front of a pool whose places take three bytes each.
const LONG: u32 = 0x8000_0000;

type Counted = Vec<Vec<ValueRef>>;

/// The bytes of a package. `InvalidInput` where there are too many texts, or one is too long.
pub(crate) fn assembled(alloc: Global, said: &Said) -> Result<MemoryMedium, Error> {
    match assembled_by(alloc, said, false) {
        Err(Error::InvalidInput) => assembled_by(alloc, said, true),
        made => made,
    }
}

// The same with places of two bytes, or of three.
fn assembled_by(alloc: Global, said: &Said, is_long: bool) -> Result<MemoryMedium, Error> {
    let columns = columns_table(alloc, &said.tables)?;
    let tables = tables_table(alloc, &said.tables)?;
    let mut pool = empty_pool(alloc, said.codepage, is_long)?;
    let counted = counted(alloc, &mut pool, &columns, &tables, &said.tables)?;
    let summary = summary_of(alloc, &said.properties)?;
    let mut file = new_file(alloc)?;
    put_tables(
        alloc,
        &mut file,
        &pool,
        &columns,
        &tables,
        &said.tables,
        counted,
    )?;
    write_parts(alloc, &mut file, &pool, &summary)?;
    put_streams(&mut file, &said.streams)?;
    bytes_of_file(file)
}

// Functions of their own, since what is told of these calls costs time wherever it is seen.
fn bytes_of_file(mut file: CompoundFile<MemoryMedium>) -> Result<MemoryMedium, Error> {
    file.flush()?;
    Ok(file.into_inner())
}

fn mark_as_installer(file: &mut CompoundFile<MemoryMedium>) -> Result<(), Error> {
    file.set_storage_clsid("/", Uuid::from_u128(CLASS))
}

/// A pool without texts, whose references take three bytes, or two.
pub(crate) fn empty_pool(
    alloc: Global,
    page: CodePage,
    is_long: bool,
) -> Result<StringPool, Error> {
    if !is_long {
        return Ok(StringPool::new(alloc, page));
    }
    let head = (page.id().cast_unsigned() | LONG).to_le_bytes();
    let mut left = head.as_slice();
    let builder = StringPoolBuilder::read_from_pool(alloc, &mut left)?;
    builder.build_from_data(alloc, &mut left)
}

// The rows of the tables as cells, whose texts the pool counts.
fn counted(
    alloc: Global,
    pool: &mut StringPool,
    columns: &SaidTable,
    tables: &SaidTable,
    others: &[SaidTable],
) -> Result<Vec<Counted>, Error> {
    let mut draft = pool.draft();
    let mut all = Vec::new(alloc);
    all.push(count_rows(alloc, &mut draft, &columns.rows)?)?;
    all.push(count_rows(alloc, &mut draft, &tables.rows)?)?;
    count_tables(alloc, &mut draft, others, &mut all)?;
    let changes = draft.into_changes();
    pool.adopt(changes)?;
    Ok(all)
}

// Adds the rows of these tables.
fn count_tables(
    alloc: Global,
    draft: &mut Draft<'_>,
    tables: &[SaidTable],
    all: &mut Vec<Counted>,
) -> Result<(), Error>
    ensures { draft.new.under ≡ draft.old.under }
{
    for table in tables {
        all.push(count_rows(alloc, draft, &table.rows)?)?;
    }
    Ok(())
}

fn new_file(alloc: Global) -> Result<CompoundFile<MemoryMedium>, Error> {
    let letters = CaseMapper::ascii(alloc)?;
    let made = CompoundFile::create(alloc, MemoryMedium::new(alloc), letters);
    let mut file = match made {
        Ok(file) => file,
        Err((_medium, error)) => return Err(error),
    };
    mark_as_installer(&mut file)?;
    Ok(file)
}

fn put_tables(
    alloc: Global,
    file: &mut CompoundFile<MemoryMedium>,
    pool: &StringPool,
    columns: &SaidTable,
    tables: &SaidTable,
    others: &[SaidTable],
    counted: Vec<Counted>,
) -> Result<(), Error> {
    for (at, rows) in counted.into_iter().enumerate() {
        let table = match at {
            0 => Some(columns),
            1 => Some(tables),
            _ => others.get(at.saturating_sub(2)),
        };
        if let Some(table) = table {
            put_table(alloc, file, pool, table, rows)?;
        }
    }
    Ok(())
}

// Writes the rows of a table. `InvalidData` where one hasn't a value for each column.
fn put_table(
    alloc: Global,
    file: &mut CompoundFile<MemoryMedium>,
    pool: &StringPool,
    table: &SaidTable,
    rows: Counted,
) -> Result<(), Error> {
    if rows.is_empty() {
        return Ok(());
    }
    let stored = stored_table(alloc, table, pool.long_string_refs())?;
    let bytes = bytes_of_rows(alloc, &stored, rows)?;
    put_stream_of_table(alloc, file, &table.name, &bytes)
}

// The table as packages store it.
fn stored_table(alloc: Global, table: &SaidTable, is_long: bool) -> Result<Table, Error> {
    let name = String::from_str(alloc, &table.name)?;
    let columns = columns_of(alloc, table)?;
    Ok(Table::from_parts(name, columns, is_long))
}

/// The bytes of rows. `InvalidData` where one hasn't a value for each column.
pub(crate) fn bytes_of_rows(
    alloc: Global,
    table: &Table,
    rows: Vec<Vec<ValueRef>>,
) -> Result<Vec<u8>, Error> {
    if !are_wide(&rows, table) {
        return Err(Error::InvalidData);
    }
    let mut bytes = Vec::new(alloc);
    table.write_rows(&mut bytes, rows)?;
    Ok(bytes)
}

/// Puts the bytes of a table. A function of its own, since what is told of the call costs time wherever it is seen.
pub(crate) fn put_stream_of_table(
    alloc: Global,
    file: &mut CompoundFile<MemoryMedium>,
    name: &str,
    bytes: &[u8],
) -> Result<(), Error> {
    put_table_bytes(alloc, file, name, bytes)
}

fn columns_of(alloc: Global, table: &SaidTable) -> Result<Vec<Column>, Error> {
    let mut columns = Vec::new(alloc);
    for column in &table.columns {
        columns.push(column.clone(alloc)?)?;
    }
    Ok(columns)
}

// Whether each row has a cell for each column of a table.
fn are_wide(rows: &[Vec<ValueRef>], table: &Table) -> bool
    ensures { IsTrue result
        → HaveCells (length (heading_of table.now).columns) (rows_held rows.now) }
{
    have_cells(rows, table.columns().len())
}

// Whether each row has so many cells.
fn have_cells(rows: &[Vec<ValueRef>], count: usize) -> bool
    ensures { result ≡ list_all (λ row. length row.items == count) rows.now }
{
    rows.iter().all(|row| row.len() == count)
}

// The summary of these properties.
fn summary_of(alloc: Global, said: &[(u32, PropertyValue)]) -> Result<SummaryInfo, Error> {
    let mut set = PropertySet::new(alloc, OperatingSystem::Win32, 10, FORMAT);
    for (number, value) in said {
        match value {
            PropertyValue::I2(page) if *number == CODEPAGE => set.set_codepage(page_of(*page)?)?,
            value => set.set(*number, value.clone(alloc)?)?,
        }
    }
    let mut bytes = Vec::new(alloc);
    set.write(&mut bytes)?;
    SummaryInfo::read(alloc, &bytes)
}

fn page_of(number: i16) -> Result<CodePage, Error> {
    match CodePage::from_id(i32::from(number.cast_unsigned())) {
        Some(page) => Ok(page),
        None => Err(Error::InvalidData),
    }
}

fn put_streams(file: &mut CompoundFile<MemoryMedium>, streams: &[SaidStream]) -> Result<(), Error> {
    for stream in streams {
        write_stream(file, &stream.name, &stream.bytes)?;
    }
    Ok(())
}
