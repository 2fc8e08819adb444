//! The string pool: texts, each with the number of its uses.
ghost use Rattle.std.specs.Prelude.{◌≡◌, ◌↔◌, ◌⊎◌, ◌+◌, ◌<◌, ◌≤◌, ◌^◌, ◌++◌, ◌||◌, ◌==◌, not, [], true, false, IsTrue, nat_lt, map, take, length, Some, None, IfOk, OnOk, OnErr, IfErr, IsErrOf, string_bytes};
ghost use Rattle.std.specs.List.{flat_map, list_all};
ghost use Rattle.msi_texts.specs.Page.{encoded};
ghost use Rattle.msi_pool.specs.Pool.{place, last_place, with_refcount_down, pool_entry_at, places_of, used, head_bytes, head_of, stored_place, pool_stream, data_stream, width_bit};
ghost use Rattle.msi_pool.specs.PoolDraft.{AreChangesOver, adopted};
ghost use Rattle.msi_pool.specs.PoolKept.{AreFreeEmpty, AreKept, IsKeptPlace, IsWritable, is_unfit, unfit_among};
ghost use Rattle.msi_pool.specs.PoolState.{after_steps, changed_to, is_in_size, length_limit};
ghost use Rattle.cfb_medium.specs.declared.error.Error.TheVariants.{InvalidInput, InvalidData, Memory};

use crate::draft::{Draft, PoolChanges};
use crate::stringref::StringRef;
use cfb_medium::Error;
use msi_pool_index::{Places, PoolParts, StdParts};
use msi_texts::{CodePage, write_u16, write_u32};
use std::alloc::{AllocError, Global};
use std::marker::Model;

// The greatest number that a reference of two bytes names.
const LAST_SHORT_REF: u32 = 65535;

// The greatest number that a reference of three bytes names.
const LAST_LONG_REF: u32 = 16777215;

// The bit of the page's number that tells of references of three bytes.
pub(crate) const LONG_STRING_REFS_BIT: u32 = 0x8000_0000;

// No text and no pool stream may have so many bytes.
const LENGTH_LIMIT: usize = 4294967295;

/// The string pool of a package: texts at places from 1 on, each with the number of its uses. A place
/// without a use is free. Its parts are those of std, or whatever else meets `PoolParts`.
#[derive(Drop)]
pub struct StringPool<P: PoolParts = StdParts> {
    pub(crate) codepage: CodePage,
    pub(crate) long_string_refs: bool,
    pub(crate) places: Places<P>,
    pub(crate) is_modified: bool,
}

impl<P: PoolParts> Model for StringPool<P> {
    ghost use Rattle.msi_pool.specs.Pool.{Pool};
    ghost use Rattle.msi_pool.specs.PoolState.{PoolState};

    ghost Value = { PoolState };

    ghost view = { λ p. record { pool = record { page = p.codepage; long = p.long_string_refs; places = p.places.places }; modified = p.is_modified; steps = p.places.steps } };
}

impl StringPool {
    /// An empty pool, whose references take two bytes, on which no step was taken.
    pub fn new(alloc: Global, codepage: CodePage) -> StringPool
        ensures { result ≡ changed_to 0 (record { page = codepage; long = false; places = [] }) }
    {
        StringPool {
            codepage,
            long_string_refs: false,
            places: Places::new(alloc),
            is_modified: true,
        }
    }

    // The pool of these strings, as it was read. The one error is Memory.
    pub(crate) fn from_strings(
        alloc: Global,
        codepage: CodePage,
        long_string_refs: bool,
        strings: Vec<(String, u16)>,
    ) -> Result<StringPool, Error>
        requires { length strings.items < 2 ^ 32 }
        ensures ok { IfOk result (λ pool. pool
            ≡ record {
              pool = record {
                page = codepage;
                long = long_string_refs;
                places = places_of
                    strings.items;
              };
              modified = false;
              steps = 0;
            }) }
        ensures errors { IfErr result (λ e. e ≡ Memory) }
    {
        Ok(StringPool {
            codepage,
            long_string_refs,
            places: Places::of(alloc, strings)?,
            is_modified: false,
        })
    }

    // The pool of these places.
    pub(crate) fn from_places(
        codepage: CodePage,
        long_string_refs: bool,
        is_modified: bool,
        places: Places,
    ) -> StringPool
        ensures { result
            ≡ record {
              pool = record {
                page = codepage;
                long = long_string_refs;
                places = places.places;
              };
              modified = is_modified;
              steps = places.steps;
            } }
    {
        StringPool {
            codepage,
            long_string_refs,
            places,
            is_modified,
        }
    }

    /// A draft to be changed, whose changes this pool can take over. It takes no memory until it is changed, and this pool stays
    /// as it is where the draft is dropped.
    pub fn draft(&self) -> Draft<'_>
        ensures same { result.state ≡ self.now }
        ensures under { result.under ≡ self.now.pool.places }
    {
        Draft::new(
            self.codepage,
            self.long_string_refs,
            self.places.draft(),
            self.is_modified,
        )
    }

    /// Takes over what a draft changed, with the count of steps that there was when the draft was made. After Memory, the one
    /// error, the pool is as it was.
    pub fn adopt(&mut self, changes: PoolChanges) -> Result<(), Error>
        requires { AreChangesOver self.old.pool.places changes }
        ensures ok { OnOk result (self.new ≡ adopted self.old.pool.places changes) }
        ensures after_error { OnErr result (self.new ≡ self.old) }
        ensures errors { IfErr result (λ e. e ≡ Memory) }
    {
        self.places.adopt(changes.places)?;
        self.codepage = changes.codepage;
        self.long_string_refs = changes.long_string_refs;
        self.is_modified = changes.is_modified;
        Ok(())
    }

    /// The page under which the texts are written.
    pub fn codepage(&self) -> CodePage
        ensures { result ≡ self.now.pool.page }
    {
        self.codepage
    }

    /// Sets the page under which the texts are written.
    pub fn set_codepage(&mut self, codepage: CodePage)
        ensures { self.new ≡ changed_to self.old.steps (record self.old.pool { page = codepage }) }
    {
        self.mark_modified();
        self.codepage = codepage;
    }

    /// The number of places, with the free ones.
    pub fn num_strings(&self) -> u32
        ensures { result ≡ length self.now.pool.places }
    {
        self.places.list().len() as u32
    }

    /// Whether references take three bytes instead of two.
    pub fn long_string_refs(&self) -> bool
        ensures { result ≡ self.now.pool.long }
    {
        self.long_string_refs
    }

    /// Whether the pool may differ from its streams.
    pub fn is_modified(&self) -> bool
        ensures { result ≡ self.now.modified }
    {
        self.is_modified
    }

    /// Notes that the pool's streams are written.
    pub fn mark_unmodified(&mut self)
        ensures { self.new ≡ record self.old { modified = false } }
    {
        self.is_modified = false;
    }

    /// The text at a place; past the last the empty text.
    pub fn get(&self, string_ref: StringRef) -> &str
        ensures { result.now ≡ (pool_entry_at self.now.pool.places string_ref).text }
    {
        match self.places.list().get(string_ref.index()) {
            Some((text, _)) => text.as_str(),
            None => "",
        }
    }

    /// The number of uses at a place; past the last 0.
    pub fn refcount(&self, string_ref: StringRef) -> u16
        ensures { result ≡ (pool_entry_at self.now.pool.places string_ref).count }
    {
        match self.places.list().get(string_ref.index()) {
            Some((_, count)) => *count,
            None => 0,
        }
    }

    /// The number of uses of each place, in order. The one error is Memory.
    pub fn counts(&self, alloc: Global) -> Result<Vec<u16>, Error>
        ensures counts { IfOk result (λ counts. counts.items
            ≡ map (λ p. p.count) self.now.pool.places) }
        ensures errors { IfErr result (λ e. e ≡ Memory) }
    {
        counts_of(alloc, self.places.list())
    }

    /// Whether no text stands at a free place.
    pub fn are_free_empty(&self) -> bool
        ensures { IsTrue result ↔ AreFreeEmpty self.now.pool.places }
    {
        are_free_empty(self.places.list())
    }

    /// Whether its two streams, once they are written, are read as this pool: each text fits the page, with a length below 2^32, and no
    /// text stands at a free place. It takes no memory, and time for each character.
    pub fn is_writable(&self) -> bool
        ensures { IsTrue result ↔ IsWritable self.now.pool }
    {
        are_kept(self.codepage, self.places.list())
    }

    /// The texts in use that don't fit the page, in the order of their places, and of these the first `most`. The one error is Memory.
    pub fn unfit_texts(&self, alloc: Global, most: usize) -> Result<Vec<String>, Error>
        ensures texts { IfOk result (λ texts. map string_bytes texts.items
            ≡ take most (unfit_among self.now.pool.page self.now.pool.places)) }
        ensures errors { IfErr result (λ e. e ≡ Memory) }
    {
        first_unfit(alloc, self.codepage, self.places.list(), most)
    }

    /// Appends the pool stream: the page, the width of references, and the length and the count of each
    /// place. InvalidInput where the stream or a text would reach 4294967295 bytes; then, and after
    /// Memory, nothing is appended.
    pub fn write_pool(&self, writer: &mut Vec<u8>) -> Result<(), Error>
        ensures ok { OnOk result (writer.new.items
            ≡ writer.old.items ++ pool_stream self.now.pool) }
        ensures in_size { OnOk result (IsTrue (is_in_size self.now.pool)) }
        ensures errors { IfErr result (λ e. (e ≡ Memory)
            ⊎ ((e ≡ InvalidInput) × (is_in_size self.now.pool ≡ false))) }
        ensures after_error { OnErr result (writer.new.items ≡ writer.old.items) }
    {
        let width_bit = if self.long_string_refs {
            LONG_STRING_REFS_BIT
        } else {
            0
        };
        let mut bytes = Vec::new(*writer.allocator());
        write_u32(&mut bytes, self.codepage.id() as u32 + width_bit)?;
        write_heads(&mut bytes, self.codepage, self.places.list())?;
        if LENGTH_LIMIT <= bytes.len() {
            return Err(Error::InvalidInput);
        }
        writer.extend_from_slice(bytes.as_slice())?;
        Ok(())
    }

    /// Appends the bytes of the texts, one after the other. After Memory nothing is appended.
    pub fn write_data(&self, writer: &mut Vec<u8>) -> Result<(), Error>
        ensures ok { OnOk result (writer.new.items
            ≡ writer.old.items ++ data_stream self.now.pool) }
        ensures errors { IfErr result (λ e. e ≡ Memory) }
        ensures after_error { OnErr result (writer.new.items ≡ writer.old.items) }
    {
        let bytes = text_bytes(*writer.allocator(), self.codepage, self.places.list())?;
        writer.extend_from_slice(bytes.as_slice())?;
        Ok(())
    }
}

impl<P: PoolParts> StringPool<P> {
    // Notes that the pool may differ from its streams.
    fn mark_modified(&mut self)
        ensures { self.new ≡ changed_to self.old.steps self.old.pool }
    {
        self.is_modified = true;
    }

    /// Counts a use of the text at the least place that is free or holds it with a count below 65535,
    /// else at a new place, and tells where, in at most sixteen steps. InvalidInput where no reference could name that place;
    /// then, and after Memory, nothing changed but the count of steps.
    pub fn incref(&mut self, text: String) -> Result<StringRef, Error>
        ensures place { IfOk result (λ n. place self.old.pool (string_bytes text) ≡ Some n) }
        ensures counted { OnOk result (self.new
            ≡ changed_to self.new.steps (used self.old.pool (string_bytes text))) }
        ensures full_only_if { IsErrOf result InvalidInput
            ↔ (place self.old.pool (string_bytes text) ≡ None) }
        ensures errors { IfErr result (λ e. (e ≡ Memory) ⊎ (e ≡ InvalidInput)) }
        ensures after_error { OnErr result (self.new ≡ after_steps self.new.steps self.old) }
        ensures steps { self.new.steps ≤ self.old.steps + 16 }
    {
        let number = self.places.incref(text, last_place(self.long_string_refs))?;
        self.mark_modified();
        Ok(StringRef::new(number))
    }

    /// Takes back a use at a place, in at most sixteen steps. The last takes the text with it. InvalidData where the place has
    /// no use; then, and after Memory, nothing changed but the count of steps.
    pub fn decref(&mut self, string_ref: StringRef) -> Result<(), Error>
        ensures ok { OnOk result (self.new
            ≡ changed_to self.new.steps (record self.old.pool {
              places = with_refcount_down string_ref
                  self.old.pool.places;
            })) }
        ensures unused { IsErrOf result InvalidData
            ↔ ((pool_entry_at self.old.pool.places string_ref).count ≡ 0) }
        ensures errors { IfErr result (λ e. (e ≡ Memory) ⊎ (e ≡ InvalidData)) }
        ensures after_error { OnErr result (self.new ≡ after_steps self.new.steps self.old) }
        ensures steps { self.new.steps ≤ self.old.steps + 16 }
    {
        self.places.decref(string_ref.number() - 1)?;
        self.mark_modified();
        Ok(())
    }
}

// The number of uses of each place. The one error is Memory.
fn counts_of(alloc: Global, strings: &[(String, u16)]) -> Result<Vec<u16>, Error>
    ensures counts { IfOk result (λ counts. counts.items
        ≡ map (λ p. p.count) (places_of strings.now)) }
    ensures errors { IfErr result (λ e. e ≡ Memory) }
{
    let mut counts = Vec::new(alloc);
    for (_, count) in strings {
        counts.push(*count)?;
    }
    Ok(counts)
}

// Whether the two streams of a pool give these places back.
fn are_kept(codepage: CodePage, strings: &[(String, u16)]) -> bool
    ensures { IsTrue result ↔ AreKept codepage (places_of strings.now) }
{
    for entry in strings {
        if !is_kept(codepage, &entry.0, entry.1) {
            return false;
        }
    }
    true
}

// Whether they give a place of this text and count back.
fn is_kept(codepage: CodePage, text: &str, count: u16) -> bool
    ensures { IsTrue result
        ↔ IsKeptPlace codepage (record { text = text.now; count = count }) }
{
    if !codepage.fits(text) || codepage.encoded_len(text) >= 4294967296 {
        return false;
    }
    count != 0 || text.is_empty()
}

// The first texts in use that don't fit the page. The one error is Memory.
fn first_unfit(
    alloc: Global,
    codepage: CodePage,
    strings: &[(String, u16)],
    most: usize,
) -> Result<Vec<String>, Error>
    ensures texts { IfOk result (λ texts. map string_bytes texts.items
        ≡ take most (unfit_among codepage (places_of strings.now))) }
    ensures errors { IfErr result (λ e. e ≡ Memory) }
{
    let mut texts = Vec::new(alloc);
    for entry in strings {
        if texts.len() == most {
            return Ok(texts);
        }
        if is_unfit(codepage, &entry.0, entry.1) {
            texts.push(String::from_str(alloc, &entry.0)?)?;
        }
    }
    Ok(texts)
}

// Whether a text is in use and doesn't fit the page.
fn is_unfit(codepage: CodePage, text: &str, count: u16) -> bool
    ensures { result ≡ is_unfit codepage (record { text = text.now; count = count }) }
{
    count != 0 && !codepage.fits(text)
}

// Whether no text stands at a free place.
fn are_free_empty(strings: &[(String, u16)]) -> bool
    ensures { result
        ≡ list_all (λ s. not (s.1 == 0) || (length (string_bytes s.0) == 0)) strings.now }
{
    strings
        .iter()
        .all(|entry| entry.1 != 0 || entry.0.is_empty())
}

// Appends how a length and a count are written: a length of 0 with a count stands for the one behind it.
fn write_head(bytes: &mut Vec<u8>, len: u32, count: u16) -> Result<(), AllocError>
    ensures { OnOk result (bytes.new.items ≡ bytes.old.items ++ head_bytes len count) }
{
    if len == 0 && count == 0 {
        return write_u32(bytes, 0);
    }
    if len == 0 || 65536 <= len {
        write_u16(bytes, 0)?;
        write_u16(bytes, count)?;
        write_u32(bytes, len)
    } else {
        write_u16(bytes, len as u16)?;
        write_u16(bytes, count)
    }
}

// Appends the length and the count of each place.
fn write_heads(
    bytes: &mut Vec<u8>,
    codepage: CodePage,
    strings: &[(String, u16)],
) -> Result<(), Error>
    ensures ok { OnOk result (bytes.new.items
        ≡ bytes.old.items ++ flat_map head_of
        (map (stored_place codepage) (places_of strings.now))) }
    ensures in_size { OnOk result (IsTrue
        (list_all (λ s. nat_lt (length s.0) length_limit)
        (map (stored_place codepage) (places_of strings.now)))) }
    ensures errors { IfErr result (λ e. (e ≡ Memory)
        ⊎ ((e ≡ InvalidInput)
        × (list_all (λ s. nat_lt (length s.0) length_limit)
        (map (stored_place codepage) (places_of strings.now)) ≡ false))) }
{
    for (text, count) in strings {
        let len = codepage.encoded_len(text.as_str());
        if LENGTH_LIMIT <= len {
            return Err(Error::InvalidInput);
        }
        write_head(bytes, len as u32, *count)?;
    }
    Ok(())
}

// The bytes of the texts, one after the other.
fn text_bytes(
    alloc: Global,
    codepage: CodePage,
    strings: &[(String, u16)],
) -> Result<Vec<u8>, Error>
    ensures bytes { IfOk result (λ bytes. bytes.items
        ≡ flat_map (λ s. s.0) (map (stored_place codepage) (places_of strings.now))) }
    ensures errors { IfErr result (λ e. e ≡ Memory) }
{
    let mut bytes = Vec::new(alloc);
    for (text, _) in strings {
        let encoded = codepage.encode(alloc, text.as_str())?;
        bytes.extend_from_slice(encoded.as_slice())?;
    }
    Ok(bytes)
}

// The greatest number of a place.
pub(crate) fn last_place(long: bool) -> u32
    ensures last { result ≡ last_place long }
    ensures small { result < 2 ^ 24 }
{
    if long { LAST_LONG_REF } else { LAST_SHORT_REF }
}
