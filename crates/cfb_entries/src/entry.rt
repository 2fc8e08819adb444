//! An object as a listing shows it.
ghost use Rattle.cfb_entries.specs.Listed.{listed_at, listed_in, is_root_kind, is_storage_kind, prefix_of_listed, root_listed, storage_listed, stream_listed};
ghost use Rattle.cfb_medium.specs.Times.{units_of};
ghost use Rattle.cfb_medium.specs.declared.error.Error.TheVariants.{InvalidData, Memory};
ghost use Rattle.cfb_tree.specs.Directory.{kind_stream, HasName};
ghost use Rattle.cfb_tree.specs.EntryViews.{entry_in};
ghost use Rattle.std.specs.Prelude.{chars, codes, false, not, string_bytes, true, IfErr, IfOk, IsTrue, List, ℕ, ◌++◌, ◌==◌, ◌≡◌, ◌∷◌, ◌⊎◌, ◌↔◌};

use cfb_medium::{Error, Timestamp};
use cfb_sectors::ROOT_DIR_NAME;
use cfb_tree::{DirEntry, ObjType};
use std::alloc::Global;
use uuid::Uuid;

/// A storage or a stream of a compound file, as a listing shows it ([MS-CFB] 2.6.1).
#[derive(Drop)]
pub struct Entry {
    name: String,
    path: String,
    obj_type: ObjType,
    clsid: Uuid,
    state_bits: u32,
    created: Timestamp,
    modified: Timestamp,
    len: u64,
}

// Whether the entry is a stream.
pub(crate) fn is_stream(entry: &DirEntry) -> bool
    ensures { result ≡ ((entry_in entry.now).kind == kind_stream) }
{
    match entry.obj_type() {
        Some(kind) => kind.as_byte() == ObjType::Stream.as_byte(),
        None => false,
    }
}

// The path of a child: what stands in front of its slash, the slash, and its name.
fn child_path(alloc: Global, prefix: &str, name: &str) -> Result<String, Error>
    ensures path { IfOk result (λ path. chars (string_bytes path)
        ≡ chars prefix.now ++ 47 ∷ chars name.now) }
    ensures errors { IfErr result (λ e. e ≡ Memory) }
{
    let mut path = String::from_str(alloc, prefix)?;
    path.push('/')?;
    path.push_str(name)?;
    Ok(path)
}

// A storage, or the root, at a path.
fn storage(entry: &DirEntry, obj_type: ObjType, path: String, name: String) -> Entry
    ensures { listed_in result ≡ storage_listed (is_root_kind obj_type) (is_storage_kind obj_type)
        (chars (string_bytes path)) (chars (string_bytes name)) (entry_in entry.now).facts }
{
    Entry {
        name,
        path,
        obj_type,
        clsid: entry.clsid,
        state_bits: entry.state_bits,
        created: entry.creation_time,
        modified: entry.modified_time,
        len: 0,
    }
}

// A stream at a path: of its entry it has the size and the state bits alone.
fn stream(entry: &DirEntry, path: String, name: String) -> Entry
    ensures { listed_in result ≡ stream_listed (chars (string_bytes path))
        (chars (string_bytes name)) (entry_in entry.now) }
{
    Entry {
        name,
        path,
        obj_type: ObjType::Stream,
        clsid: Uuid::nil(),
        state_bits: entry.state_bits,
        created: Timestamp::zero(),
        modified: Timestamp::zero(),
        len: entry.stream_len,
    }
}

impl Entry {
    // The root, whose name isn't that of its entry. The one error is `Memory`.
    pub(crate) fn root(alloc: Global, entry: &DirEntry) -> Result<Entry, Error>
        ensures listed { IfOk result (λ it. listed_in it ≡ root_listed (entry_in entry.now).facts) }
        ensures errors { IfErr result (λ e. e ≡ Memory) }
    {
        let name = String::from_str(alloc, ROOT_DIR_NAME)?;
        let path = String::from_str(alloc, "/")?;
        Ok(storage(entry, ObjType::Root, path, name))
    }

    // An entry below the root, at a path. `InvalidData` where it has no name.
    pub(crate) fn at(alloc: Global, entry: &DirEntry, path: String) -> Result<Entry, Error>
        ensures listed { IfOk result (λ it. (name : List ℕ) × HasName (entry_in entry.now) name
            × (listed_in it ≡ listed_at (entry_in entry.now) (chars (string_bytes path)) name)) }
        ensures errors { IfErr result (λ e. (e ≡ Memory) ⊎ ((e ≡ InvalidData)
            × ((name : List ℕ) → HasName (entry_in entry.now) name → ⊥))) }
    {
        let name = entry.name(alloc)?;
        if is_stream(entry) {
            return Ok(stream(entry, path, name));
        }
        Ok(storage(entry, ObjType::Storage, path, name))
    }

    // An entry below the root, as a child: with what stands in front of the slash before its name. `InvalidData` where it has
    // no name.
    pub(crate) fn below(alloc: Global, entry: &DirEntry, prefix: &str) -> Result<Entry, Error>
        ensures listed { IfOk result (λ it. (name : List ℕ) × HasName (entry_in entry.now) name
            × (listed_in it ≡ listed_at (entry_in entry.now)
            (chars prefix.now ++ 47 ∷ name) name)) }
        ensures errors { IfErr result (λ e. (e ≡ Memory) ⊎ ((e ≡ InvalidData)
            × ((name : List ℕ) → HasName (entry_in entry.now) name → ⊥))) }
    {
        let name = entry.name(alloc)?;
        let path = child_path(alloc, prefix, &name)?;
        if is_stream(entry) {
            return Ok(stream(entry, path, name));
        }
        Ok(storage(entry, ObjType::Storage, path, name))
    }

    // What stands in front of the slash before a child's name.
    pub(crate) fn prefix(&self) -> &str
        ensures { chars result.now ≡ prefix_of_listed (listed_in self.now) }
    {
        if self.is_root() {
            return "";
        }
        &self.path
    }

    /// The name; the root's is `Root Entry`.
    pub fn name(&self) -> &str
        ensures { chars result.now ≡ (listed_in self.now).name }
    {
        &self.name
    }

    /// The path, with a slash in front of each name; the root's is a slash.
    pub fn path(&self) -> &str
        ensures { chars result.now ≡ (listed_in self.now).path }
    {
        &self.path
    }

    /// Whether it is a stream.
    pub fn is_stream(&self) -> bool
        ensures { result ≡ not (listed_in self.now).is_storage }
    {
        !self.is_storage()
    }

    /// Whether it is a storage, as the root is.
    pub fn is_storage(&self) -> bool
        ensures { result ≡ (listed_in self.now).is_storage }
    {
        matches!(self.obj_type, ObjType::Storage | ObjType::Root)
    }

    /// Whether it is the root.
    pub fn is_root(&self) -> bool
        ensures { result ≡ (listed_in self.now).is_root }
    {
        matches!(self.obj_type, ObjType::Root)
    }

    /// A stream's bytes; a storage has none.
    pub fn len(&self) -> u64
        ensures { result ≡ (listed_in self.now).len }
    {
        self.len
    }

    /// Whether it has no bytes.
    pub fn is_empty(&self) -> bool
        ensures { result ≡ ((listed_in self.now).len == 0) }
    {
        self.len == 0
    }

    /// A storage's class identifier; a stream's is nil.
    pub fn clsid(&self) -> Uuid
        ensures { result ≡ (listed_in self.now).facts.clsid }
    {
        self.clsid
    }

    /// The state bits.
    pub fn state_bits(&self) -> u32
        ensures { result ≡ (listed_in self.now).facts.state_bits }
    {
        self.state_bits
    }

    /// When a storage was made; a stream doesn't tell it.
    pub fn created(&self) -> Timestamp
        ensures { units_of result ≡ (listed_in self.now).facts.created }
    {
        self.created
    }

    /// When a storage was changed; a stream doesn't tell it.
    pub fn modified(&self) -> Timestamp
        ensures { units_of result ≡ (listed_in self.now).facts.modified }
    {
        self.modified
    }
}
