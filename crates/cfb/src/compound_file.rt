//! The file: its objects by their paths.
ghost use Rattle.cfb_directory.specs.Entries.{entries_in};
ghost use Rattle.cfb_directory.specs.Views.{entries_held};
ghost use Rattle.cfb_entries.specs.Lists.{ReturnsEntries};
ghost use Rattle.cfb_entries.specs.Rules.{answer_at, names_in, TellsEntry};
ghost use Rattle.cfb_fat.specs.Tables.{has_failed, has_failed_here, medium_of, version_of, AllFails};
ghost use Rattle.cfb_spec.specs.TreeRules.{entry, exists, is_storage, is_stream, read_root_storage, read_storage, root_entry, tree_step, walk, walk_storage, yes};
ghost use Rattle.cfb_medium.specs.declared.error.Error.TheVariants.{Failed};
ghost use Rattle.cfb_mini.specs.Views.{allocator_of, directory_of};
ghost use Rattle.cfb_tree.specs.CaseTableViews.{case_table_of};
ghost use Rattle.cfb_tree.specs.Tree.{Tree};
ghost use Rattle.std.specs.Prelude.{true, IfErr, IsErrOf, ◌≡◌, ◌⊎◌};

use cfb_entries::{Entries, Entry, children_at, entry_at, is_stream_at, walk_at};
use cfb_medium::{Error, Medium, ReadMedium, Version};
use cfb_mini::MiniAllocator;
use cfb_sectors::{HasSectors, Validation};
use cfb_stream_reads::{ReadAhead, StreamLinks};
use cfb_tree::{CaseMapper, DirEntry};
use std::alloc::Global;

/// A compound file ([MS-CFB] 1.3): a tree of storages and streams, in the bytes of a medium.
#[derive(Drop)]
pub struct CompoundFile<F: ReadMedium> {
    pub(crate) alloc: Global,
    pub(crate) mini: MiniAllocator<F>,
    pub(crate) letters: CaseMapper,
    pub(crate) validation: Validation,
    pub(crate) is_sound: bool,
    pub(crate) links: StreamLinks,
    // The entry whose stream has these links yet, where nothing else was changed since they were found.
    pub(crate) stream_id: Option<u32>,
    pub(crate) ahead: ReadAhead,
}

impl<F: ReadMedium> CompoundFile<F> {
    ghost use Rattle.cfb.specs.Putting.{IsOpenStreamError};
    ghost use Rattle.cfb.specs.Streams.{IsFileMemoryOrFailed};
    ghost use Rattle.cfb.specs.Views.{file_case_table, mini_of, said_at, sound_of, IsLive, FileShowsTree};

    /// The version.
    pub fn version(&self) -> Version
        ensures { result ≡ version_of (allocator_of (mini_of self.now)) }
    {
        self.mini.version()
    }

    /// The medium, without the file.
    pub fn into_inner(self) -> F
        ensures { result ≡ medium_of (allocator_of (mini_of self)) }
    {
        let CompoundFile {
            alloc: _,
            mini,
            letters: _,
            validation: _,
            is_sound: _,
            links: _,
            stream_id: _,
            ahead: _,
        } = self;
        mini.into_inner()
    }

    /// Whether the file is sound, as it was judged when it was opened: no sector and no mini sector serves two uses, none in use
    /// is free or missing, each stream's bytes lie in its chain and in the file, and the FAT has an entry for each sector. A
    /// file that isn't sound can be read, and is changed by no call.
    pub fn is_sound(&self) -> bool
        ensures { result ≡ sound_of self.now }
    {
        self.is_sound
    }

    /// The case table under which names are compared ([MS-CFB] 2.6.4).
    pub fn letters(&self) -> &CaseMapper
        ensures { case_table_of result.now ≡ file_case_table self.now }
    {
        &self.letters
    }

    // The entries, by number.
    pub(crate) fn entries(&self) -> &[DirEntry]
        ensures { entries_in result.now ≡ entries_held (directory_of (mini_of self.now)) }
    {
        self.mini.directory().dir_entries()
    }

    /// Whether every call that answers a `Result` answers `Failed`: so it is after a fault in a write or a commit, and after `fail`,
    /// until it is rolled back. It takes no memory, and asks the medium nothing.
    pub fn is_failed(&self) -> bool
        ensures { result ≡ has_failed_here (allocator_of (mini_of self.now)) }
    {
        self.mini.directory().allocator().is_failed()
    }

    /// The root. `Failed` after an earlier fault; the one other error is `Memory` ([MS-CFB] 2.6.2).
    pub fn root_entry(&self) -> Result<Entry, Error>
        ensures answer { IsLive self.now → (tree : Tree) → FileShowsTree self.now tree
            → TellsEntry (tree_step (file_case_table self.now) tree root_entry).1 result }
        ensures when_failed { has_failed_here (allocator_of (mini_of self.now)) ≡ true
            → IsErrOf result Failed }
        ensures cause { IfErr result (λ e. IsFileMemoryOrFailed self.now e ⊎ IsOpenStreamError e) }
    {
        if self.is_failed() {
            return Err(Error::Failed);
        }
        entry_at(self.alloc, &self.letters, self.entries(), "/")
    }

    /// The object at a path. `Failed` after an earlier fault, before all else; `InvalidInput` where the path leads above the root,
    /// `NotFound` where no object is there. The one other error is `Memory`.
    pub fn entry(&self, path: &str) -> Result<Entry, Error>
        ensures answer { IsLive self.now → (tree : Tree) → FileShowsTree self.now tree → TellsEntry
            (answer_at (file_case_table self.now) tree entry (names_in path.now)) result }
        ensures when_failed { has_failed_here (allocator_of (mini_of self.now)) ≡ true
            → IsErrOf result Failed }
        ensures cause { IfErr result (λ e. IsFileMemoryOrFailed self.now e ⊎ IsOpenStreamError e) }
    {
        if self.is_failed() {
            return Err(Error::Failed);
        }
        entry_at(self.alloc, &self.letters, self.entries(), path)
    }

    /// Whether an object is at a path; above the root none is. It takes no memory.
    pub fn exists(&self, path: &str) -> bool
        ensures { (tree : Tree) → FileShowsTree self.now tree → yes result
            ≡ said_at (file_case_table self.now) tree exists (names_in path.now) }
    {
        let kind = is_stream_at(&self.letters, self.entries(), path);
        kind.is_some()
    }

    /// Whether the object at a path is a stream; above the root none is. It takes no memory.
    pub fn is_stream(&self, path: &str) -> bool
        ensures { (tree : Tree) → FileShowsTree self.now tree → yes result
            ≡ said_at (file_case_table self.now) tree is_stream (names_in path.now) }
    {
        let kind = is_stream_at(&self.letters, self.entries(), path);
        kind.unwrap_or(false)
    }

    /// Whether the object at a path is a storage, as the root is; above the root none is. It takes no memory.
    pub fn is_storage(&self, path: &str) -> bool
        ensures { (tree : Tree) → FileShowsTree self.now tree → yes result
            ≡ said_at (file_case_table self.now) tree is_storage (names_in path.now) }
    {
        let kind = is_stream_at(&self.letters, self.entries(), path);
        !kind.unwrap_or(true)
    }

    /// The children of the root, in their order. `Failed` after an earlier fault; the one other error is `Memory`
    /// ([MS-CFB] 2.6.4).
    pub fn read_root_storage(&self) -> Result<Entries, Error>
        ensures answer { IsLive self.now → (tree : Tree) → FileShowsTree self.now tree
            → ReturnsEntries
            (tree_step (file_case_table self.now) tree read_root_storage).1 result }
        ensures when_failed { has_failed_here (allocator_of (mini_of self.now)) ≡ true
            → IsErrOf result Failed }
        ensures cause { IfErr result (λ e. IsFileMemoryOrFailed self.now e ⊎ IsOpenStreamError e) }
    {
        if self.is_failed() {
            return Err(Error::Failed);
        }
        children_at(self.alloc, &self.letters, self.entries(), "/")
    }

    /// The children of the storage at a path, in their order. `Failed` after an earlier fault, before all else; `InvalidInput`
    /// where the path leads above the root, `NotFound` where no object is there, `InvalidInput` where it is a stream. The one
    /// other error is `Memory` ([MS-CFB] 2.6.4).
    pub fn read_storage(&self, path: &str) -> Result<Entries, Error>
        ensures answer { IsLive self.now → (tree : Tree) → FileShowsTree self.now tree
            → ReturnsEntries
            (answer_at (file_case_table self.now) tree read_storage (names_in path.now)) result }
        ensures when_failed { has_failed_here (allocator_of (mini_of self.now)) ≡ true
            → IsErrOf result Failed }
        ensures cause { IfErr result (λ e. IsFileMemoryOrFailed self.now e ⊎ IsOpenStreamError e) }
    {
        if self.is_failed() {
            return Err(Error::Failed);
        }
        children_at(self.alloc, &self.letters, self.entries(), path)
    }

    /// The root and all objects in it, each storage before what it holds. `Failed` after an earlier fault; the one other error is
    /// `Memory`.
    pub fn walk(&self) -> Result<Entries, Error>
        ensures answer { IsLive self.now → (tree : Tree) → FileShowsTree self.now tree
            → ReturnsEntries (tree_step (file_case_table self.now) tree walk).1 result }
        ensures when_failed { has_failed_here (allocator_of (mini_of self.now)) ≡ true
            → IsErrOf result Failed }
        ensures cause { IfErr result (λ e. IsFileMemoryOrFailed self.now e ⊎ IsOpenStreamError e) }
    {
        if self.is_failed() {
            return Err(Error::Failed);
        }
        walk_at(self.alloc, &self.letters, self.entries(), "/")
    }

    /// The storage at a path and all objects in it, each storage before what it holds. `Failed` after an earlier fault, before all
    /// else; `InvalidInput` where the path leads above the root, `NotFound` where no object is there, `InvalidInput` where it is a
    /// stream. The one other error is `Memory`.
    pub fn walk_storage(&self, path: &str) -> Result<Entries, Error>
        ensures answer { IsLive self.now → (tree : Tree) → FileShowsTree self.now tree
            → ReturnsEntries
            (answer_at (file_case_table self.now) tree walk_storage (names_in path.now)) result }
        ensures when_failed { has_failed_here (allocator_of (mini_of self.now)) ≡ true
            → IsErrOf result Failed }
        ensures cause { IfErr result (λ e. IsFileMemoryOrFailed self.now e ⊎ IsOpenStreamError e) }
    {
        if self.is_failed() {
            return Err(Error::Failed);
        }
        walk_at(self.alloc, &self.letters, self.entries(), path)
    }
}

impl<F: Medium> CompoundFile<F> {
    ghost use Rattle.cfb.specs.Views.{file_case_table, mini_of, most_ahead_of, sound_of, validation_of};

    /// Leaves it in a state in which every call is refused, as a fault in a write does: for a layer above, where what it changes by
    /// several calls has come half way. `roll_back` leads out of it.
    pub fn fail(&mut self)
        ensures fails { AllFails (allocator_of (mini_of self.old))
            (allocator_of (mini_of self.new)) }
        ensures seen { (file_case_table self.new ≡ file_case_table self.old)
            × (sound_of self.new ≡ sound_of self.old)
            × (validation_of self.new ≡ validation_of self.old) }
        ensures most { most_ahead_of self.new ≡ most_ahead_of self.old }
    {
        self.mini.fail();
    }

    /// Whether a fault in a write or a commit has left it, or the medium, in a state in which every call is refused.
    pub fn has_failed(&self) -> bool
        ensures { result ≡ has_failed (allocator_of (mini_of self.now)) }
    {
        self.mini.has_failed()
    }

    /// Whether a fault has left the medium itself in a state in which every call is refused, and `roll_back` with them.
    pub fn has_medium_failed(&self) -> bool
        ensures { result ≡ F.failed (medium_of (allocator_of (mini_of self.now))) }
    {
        self.mini.inner().has_failed()
    }
}
