//! Entries changed in their places.
ghost use Rattle.cfb_directory.specs.Changes.{changed_entry, HasDirectory, KeepsEntries, LiesBeside, SetsEntry};
ghost use Rattle.cfb_directory.specs.Entries.{IsNoted};
ghost use Rattle.cfb_directory.specs.Views.{allocator_of, entries_held, numbers_noted, DirectoryMatchesBytes, OnlyReadsDirectory};
ghost use Rattle.cfb_chains.specs.ChainCalls.{IsInvalid};
ghost use Rattle.cfb_fat.specs.Calls.{FatErrorContract};
ghost use Rattle.cfb_fat.specs.Tables.{has_failed_here, version_of};
ghost use Rattle.cfb_medium.specs.Versions.{stream_len_mask};
ghost use Rattle.cfb_medium.specs.declared.error.Error.TheVariants.{InvalidData, InvalidInput};
ghost use Rattle.cfb_chain_io.specs.ChainEffects.{KeepsFileInvariants};
ghost use Rattle.cfb_tree.specs.Directory.{Entry};
ghost use Rattle.cfb_tree.specs.EntryViews.{entry_in};
ghost use Rattle.std.specs.Prelude.{false, length, slice_get, IsErrOf, OnErr, OnOk, Some, ◌<◌, ◌≡◌, ◌≤◌, ◌↔◌, ◌⊎◌};

use crate::Directory;
use cfb_chain_io::overwrite_chain;
use cfb_medium::{Error, Medium, Timestamp};
use cfb_sectors::{DIR_ENTRY_LEN, HasSectors};
use cfb_tree::DirEntry;
use uuid::Uuid;

/// What may be changed of an entry in its place ([MS-CFB] 2.6.1). Its name, kind, colour and links stay.
#[derive(Clone, Copy)]
pub enum EntryChange {
    /// The state bits.
    StateBits(u32),
    /// The class identifier.
    ClassId(Uuid),
    /// When it was created.
    Created(Timestamp),
    /// When it was modified last.
    Modified(Timestamp),
    /// Where its stream begins, and how many bytes it has.
    Place { start_sector: u32, stream_len: u64 },
}

impl EntryChange {
    // Changes an entry in memory.
    fn apply_to(self, entry: &mut DirEntry)
        ensures { entry_in entry.new ≡ changed_entry self (entry_in entry.old) }
    {
        match self {
            EntryChange::StateBits(state_bits) => entry.state_bits = state_bits,
            EntryChange::ClassId(clsid) => entry.clsid = clsid,
            EntryChange::Created(moment) => entry.creation_time = moment,
            EntryChange::Modified(moment) => entry.modified_time = moment,
            EntryChange::Place {
                start_sector,
                stream_len,
            } => {
                entry.start_sector = start_sector;
                entry.stream_len = stream_len;
            }
        }
    }
}

impl<F: Medium> Directory<F> {
    // Writes an entry in the place of the one of this number. `InvalidData` where the directory's sectors haven't its place, or
    // aren't there. After an error nothing is changed, or it has failed.
    pub(crate) fn write_entry(&mut self, id: u32, entry: DirEntry) -> Result<(), Error>
        requires there { id < length (entries_held self.old) }
        requires size { entry.stream_len ≤ stream_len_mask (version_of (allocator_of self.old)) }
        requires noted { IsNoted (numbers_noted self.old) id (entry_in entry) }
        ensures set { OnOk result (SetsEntry id (entry_in entry) self.old self.new) }
        ensures kept { OnErr result (KeepsEntries self.old self.new) }
        ensures memory { DirectoryMatchesBytes self.old → LiesBeside self.old
            → DirectoryMatchesBytes self.new }
        ensures refused_only_if { IsErrOf result InvalidData → HasDirectory self.old → ⊥ }
        ensures valid { IsErrOf result InvalidInput → ⊥ }
        ensures noted { numbers_noted self.new ≡ numbers_noted self.old }
        ensures invariants { KeepsFileInvariants (allocator_of self.old) (allocator_of self.new) }
        ensures error_contract { FatErrorContract IsInvalid result (allocator_of self.old)
            (allocator_of self.new) }
    {
        if self.allocator.is_failed() {
            return Err(Error::Failed);
        }
        entry.fits(self.allocator.version());
        let mut bytes = Vec::new(*self.entries.items.allocator());
        if let Err(error) = entry.write_to(&mut bytes) {
            return Err(error);
        }
        let place = DIR_ENTRY_LEN as u64 * u64::from(id);
        if let Err(error) = overwrite_chain(&mut self.allocator, &self.links, place, &bytes) {
            return match error {
                Error::InvalidInput => Err(Error::InvalidData),
                error => Err(error),
            };
        }
        self.entries.set(id as usize, entry);
        Ok(())
    }

    /// Changes an entry in its place, in the file and in memory: its name, kind, colour and links stay, and so do all other
    /// entries. `InvalidInput` where the version has no room for its size: in version 3 past 2^32 - 1 bytes. `InvalidData` where
    /// one of the directory's sectors isn't in the file or holds a table. After an error nothing is changed, or it has failed
    /// ([MS-CFB] 2.6.1).
    pub fn with_dir_entry_mut(&mut self, id: u32, change: EntryChange) -> Result<(), Error>
        requires { id < length (entries_held self.old) }
        ensures set { OnOk result ((e : Entry) → slice_get (entries_held self.old) id ≡ Some e
            → SetsEntry id (changed_entry change e) self.old self.new) }
        ensures kept { OnErr result (KeepsEntries self.old self.new) }
        ensures memory { DirectoryMatchesBytes self.old → LiesBeside self.old
            → DirectoryMatchesBytes self.new }
        ensures only_reads { IsErrOf result InvalidInput → OnlyReadsDirectory self.old self.new }
        ensures refused_only_if { IsErrOf result InvalidData → HasDirectory self.old → ⊥ }
        ensures large { (e : Entry) → slice_get (entries_held self.old) id ≡ Some e
            → IsErrOf result InvalidInput ↔ ((has_failed_here (allocator_of self.old) ≡ false)
            × (stream_len_mask (version_of (allocator_of self.old))
            < (changed_entry change e).size)) }
        ensures invariants { KeepsFileInvariants (allocator_of self.old) (allocator_of self.new) }
        ensures error_contract { FatErrorContract
            (λ e. (e ≡ InvalidData) ⊎ (e ≡ InvalidInput)) result
            (allocator_of self.old) (allocator_of self.new) }
    {
        if self.allocator.is_failed() {
            return Err(Error::Failed);
        }
        let mut entry = self.entries.items[id as usize];
        change.apply_to(&mut entry);
        if entry.stream_len > self.allocator.version().stream_len_mask() {
            return Err(Error::InvalidInput);
        }
        self.write_entry(id, entry)
    }

    /// Changes the root's entry in its place, as `with_dir_entry_mut` does.
    pub fn with_root_dir_entry_mut(&mut self, change: EntryChange) -> Result<(), Error>
        ensures set { OnOk result ((e : Entry) → slice_get (entries_held self.old) 0 ≡ Some e
            → SetsEntry 0 (changed_entry change e) self.old self.new) }
        ensures kept { OnErr result (KeepsEntries self.old self.new) }
        ensures memory { DirectoryMatchesBytes self.old → LiesBeside self.old
            → DirectoryMatchesBytes self.new }
        ensures only_reads { IsErrOf result InvalidInput → OnlyReadsDirectory self.old self.new }
        ensures refused_only_if { IsErrOf result InvalidData → HasDirectory self.old → ⊥ }
        ensures large { (e : Entry) → slice_get (entries_held self.old) 0 ≡ Some e
            → IsErrOf result InvalidInput ↔ ((has_failed_here (allocator_of self.old) ≡ false)
            × (stream_len_mask (version_of (allocator_of self.old))
            < (changed_entry change e).size)) }
        ensures invariants { KeepsFileInvariants (allocator_of self.old) (allocator_of self.new) }
        ensures error_contract { FatErrorContract
            (λ e. (e ≡ InvalidData) ⊎ (e ≡ InvalidInput)) result
            (allocator_of self.old) (allocator_of self.new) }
    {
        self.with_dir_entry_mut(0, change)
    }
}
