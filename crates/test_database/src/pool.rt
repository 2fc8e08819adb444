//! References and the string pool.
use cfb_medium::Error;
use msi_pool::{StringPool, StringPoolBuilder, StringRef, ValueRef};
use msi_texts::CodePage;
use std::alloc::Global;
use test_support::{Row, Subject, bytes_at, copy_of, hex_of, shown, value_at, yes_or_no};

/// Answers calls on references and on one pool.
#[derive(Drop)]
pub struct Pools {
    pool: StringPool,
}

impl Pools {
    /// An empty pool.
    pub fn new(alloc: Global) -> Pools {
        Pools {
            pool: StringPool::new(alloc, CodePage::Utf8),
        }
    }

    fn empty(&mut self, alloc: Global) -> Result<String, Error> {
        self.pool = StringPool::new(alloc, CodePage::Utf8);
        Ok(String::new(alloc))
    }

    fn read(&mut self, alloc: Global, row: &Row) -> Result<String, Error> {
        self.pool = pool_read(alloc, row)?;
        sum_of_pool(alloc, &self.pool)
    }
}

impl Subject for Pools {
    fn answer(&mut self, alloc: Global, row: &Row) -> Result<String, Error> {
        match row.call() {
            "reference" => reference(alloc, row),
            "reference bytes" => reference_bytes(alloc, row),
            "new pool" => self.empty(alloc),
            "read pool" => self.read(alloc, row),
            "string" => string(alloc, &self.pool, row),
            "count" => count_use(alloc, &mut self.pool, copy_of(alloc, row.text(1))?),
            "uncount" => uncount(alloc, &mut self.pool, place_of(row.number(1))),
            "cell" => cell_made(alloc, &mut self.pool, row),
            "cell's value" => value_of_cell(alloc, &self.pool, place_of(row.number(1))),
            "remove cell" => remove_cell(alloc, &mut self.pool, place_of(row.number(1))),
            "pool stream" | "data stream" => stream(alloc, &self.pool, row),
            "unmodified" => mark_unmodified(alloc, &mut self.pool),
            "modified" => yes_or_no(alloc, self.pool.is_modified()),
            "sum" => sum_of_pool(alloc, &self.pool),
            _ => Err(Error::NotFound),
        }
    }
}

// The reference to a place, where the place can have one.
fn place_of(number: i64) -> Option<StringRef> {
    match u32::try_from(number) {
        Ok(number) if 0 < number && number < 1 << 24 => Some(StringRef::new(number)),
        _ => None,
    }
}

fn reference(alloc: Global, row: &Row) -> Result<String, Error> {
    let bytes = bytes_at(alloc, row, 1)?;
    match place_read(&bytes, row.flag(2))? {
        Some(place) => shown(alloc, &place.number()),
        None => copy_of(alloc, "none"),
    }
}

fn place_read(bytes: &[u8], is_long: bool) -> Result<Option<StringRef>, Error> {
    let mut bytes = bytes;
    StringRef::read(&mut bytes, is_long)
}

fn reference_bytes(alloc: Global, row: &Row) -> Result<String, Error> {
    let mut written = Vec::new(alloc);
    StringRef::write(&mut written, place_of(row.number(1)), row.flag(2))?;
    hex_of(alloc, &written)
}

fn pool_read(alloc: Global, row: &Row) -> Result<StringPool, Error> {
    let heads = bytes_at(alloc, row, 1)?;
    let texts = bytes_at(alloc, row, 2)?;
    pool_of(alloc, &heads, &texts)
}

fn pool_of(alloc: Global, heads: &[u8], texts: &[u8]) -> Result<StringPool, Error> {
    let (mut heads, mut texts) = (heads, texts);
    let builder = StringPoolBuilder::read_from_pool(alloc, &mut heads)?;
    builder.build_from_data(alloc, &mut texts)
}

fn mark_unmodified(alloc: Global, pool: &mut StringPool) -> Result<String, Error> {
    pool.mark_unmodified();
    yes_or_no(alloc, pool.is_modified())
}

// How many texts, under which page, and how wide references are.
fn sum_of_pool(alloc: Global, pool: &StringPool) -> Result<String, Error> {
    let (texts, page) = (pool.num_strings(), pool.codepage().id());
    let width = if pool.long_string_refs() { 3 } else { 2 };
    Ok(format!(in alloc; "{texts} texts, page {page}, references of {width} bytes")?)
}

// A text, or of a long one its length; and how often it is used.
fn string(alloc: Global, pool: &StringPool, row: &Row) -> Result<String, Error> {
    match place_of(row.number(1)) {
        Some(place) => uses_text(alloc, pool.get(place), pool.refcount(place)),
        None => Err(Error::InvalidInput),
    }
}

fn uses_text(alloc: Global, text: &str, uses: u16) -> Result<String, Error> {
    if text.len() > 100 {
        return Ok(format!(in alloc; "{} bytes, {uses} uses", text.len())?);
    }
    Ok(format!(in alloc; "{text:?}, {uses} uses")?)
}

fn count_use(alloc: Global, pool: &mut StringPool, text: String) -> Result<String, Error> {
    let place = pool.incref(text)?;
    shown(alloc, &place.number())
}

fn uncount(
    alloc: Global,
    pool: &mut StringPool,
    place: Option<StringRef>,
) -> Result<String, Error> {
    let Some(place) = place else {
        return Err(Error::InvalidInput);
    };
    pool.decref(place)?;
    copy_of(alloc, "done")
}

// A cell that is written as a value that stands in it.
fn cell_made(alloc: Global, pool: &mut StringPool, row: &Row) -> Result<String, Error> {
    let value = value_at(alloc, row, 1)?;
    cell_text(alloc, ValueRef::create(value, pool)?)
}

// A cell that is written as a place in the pool.
fn value_of_cell(
    alloc: Global,
    pool: &StringPool,
    place: Option<StringRef>,
) -> Result<String, Error> {
    let Some(place) = place else {
        return Err(Error::InvalidInput);
    };
    let value = ValueRef::Str(place).to_value(alloc, pool)?;
    shown(alloc, &value)
}

fn remove_cell(
    alloc: Global,
    pool: &mut StringPool,
    place: Option<StringRef>,
) -> Result<String, Error> {
    let Some(place) = place else {
        return Err(Error::InvalidInput);
    };
    ValueRef::Str(place).remove(pool)?;
    copy_of(alloc, "done")
}

// A cell as a text: a text by its place in the pool.
fn cell_text(alloc: Global, cell: ValueRef) -> Result<String, Error> {
    match cell {
        ValueRef::Null => copy_of(alloc, "NULL"),
        ValueRef::Int(number) => shown(alloc, &number),
        ValueRef::Str(place) => place_text(alloc, place),
        ValueRef::Binary => copy_of(alloc, "stream"),
    }
}

fn place_text(alloc: Global, place: StringRef) -> Result<String, Error> {
    let number = place.number();
    Ok(format!(in alloc; "#{number}")?)
}

fn stream(alloc: Global, pool: &StringPool, row: &Row) -> Result<String, Error> {
    let mut bytes = Vec::new(alloc);
    match row.call() {
        "pool stream" => pool.write_pool(&mut bytes)?,
        _ => pool.write_data(&mut bytes)?,
    }
    hex_of(alloc, &bytes)
}
