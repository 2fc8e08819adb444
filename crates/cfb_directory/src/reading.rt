//! The directory as its sectors hold it.
ghost use Rattle.cfb_directory.specs.Entries.{entries_in, SizesFit};
ghost use Rattle.cfb_directory.specs.Taken.{HasAny, IsTakenAs};
ghost use Rattle.cfb_chains.specs.LinkViews.{ids_of, links_version};
ghost use Rattle.cfb_fat.specs.Tables.{bytes_of, fat_of, is_honest, version_of, OnlyReadsAllocator, IsJustifiedBySectors};
ghost use Rattle.cfb_medium.specs.Calls.{IsFaultOrInvalidInputIf};
ghost use Rattle.cfb_medium.specs.Versions.{sector_len};
ghost use Rattle.cfb_medium.specs.declared.error.Error.TheVariants.{InvalidData, Memory};
ghost use Rattle.cfb_sectors.specs.Sectors.{joined, Chain as IsChain};
ghost use Rattle.cfb_chain_io.specs.ChainEffects.{content_of, HasFatChain};
ghost use Rattle.cfb_tree.specs.Directory.{entries_of, entry_of};
ghost use Rattle.cfb_tree.specs.EntryViews.{entry_in};
ghost use Rattle.cfb_tree.specs.CaseTableViews.{case_table_of};
ghost use Rattle.cfb_tree.specs.Tree.{Tree};
ghost use Rattle.cfb_tree.specs.Entries.{HasSize};
ghost use Rattle.std.specs.Prelude.{false, length, true, IfErr, IfOk, IsErrOf, IsTrue, List, ℕ, ◌*◌, ◌≡◌, ◌⊎◌};

use crate::directory::Entries;
use crate::free::unused_among;
use crate::walk::is_tree;
use cfb_chain_io::read_chain;
use cfb_chains::Links;
use cfb_fat::Allocator;
use cfb_medium::{Error, ReadMedium, Version};
use cfb_sectors::{DIR_ENTRY_LEN, Validation};
use cfb_tree::{CaseMapper, DirEntry};
use std::alloc::Global;

// The bytes of a chain.
fn read_bytes<F: ReadMedium>(
    alloc: Global,
    allocator: &mut Allocator<F>,
    links: &Links,
) -> Result<Vec<u8>, Error>
    ensures read { IfOk result (λ all. HasFatChain allocator.old links.now
        → all.items ≡ content_of allocator.old links.now) }
    ensures refused_only_if { IsErrOf result InvalidData → HasFatChain allocator.old links.now → ⊥ }
    ensures only_reads { OnlyReadsAllocator allocator.old allocator.new }
    ensures cause { IfErr result (IsJustifiedBySectors allocator.old allocator.new) }
    ensures errors { IfErr result (λ e. IsFaultOrInvalidInputIf ⊥ e ⊎ (e ≡ InvalidData)) }
{
    let mut bytes = Vec::new(alloc);
    bytes.resize(links.sector_ids().len() * links.version().sector_len(), 0)?;
    read_chain(allocator, links, 0, &mut bytes)?;
    Ok(bytes)
}

// The entry at the front of some bytes.
fn first_entry(version: Version, mut bytes: &[u8]) -> DirEntry
    requires { length bytes.now ≡ 128 }
    ensures { entry_in result ≡ entry_of version bytes.now }
{
    match DirEntry::read_from(&mut bytes, version) {
        Ok(entry) => entry,
        Err(_) => unreachable!(),
    }
}

// The entries in a directory's bytes, by number.
fn entries_from(alloc: Global, version: Version, bytes: &[u8]) -> Result<Vec<DirEntry>, Error>
    ensures read { IfOk result (λ entries. entries_in entries.items
        ≡ entries_of version bytes.now) }
    ensures sizes { IfOk result (λ entries. SizesFit version (entries_in entries.items)) }
    ensures errors { IfErr result (λ e. e ≡ Memory) }
{
    let mut entries = Vec::new(alloc);
    for i in 0..bytes.len() / DIR_ENTRY_LEN {
        entries.push(first_entry(
            version,
            &bytes[DIR_ENTRY_LEN * i..DIR_ENTRY_LEN * i + DIR_ENTRY_LEN],
        ))?;
    }
    Ok(entries)
}

/// The directory from a start in the FAT: the sectors of its chain, and its entries. `InvalidData` where there is no such chain,
/// or a reader doesn't take the entries as a tree.
pub(crate) fn read_directory<F: ReadMedium>(
    alloc: Global,
    allocator: &mut Allocator<F>,
    letters: &CaseMapper,
    validation: Validation,
    first_sector: u32,
) -> Result<(Links, Entries), Error>
    ensures chain { IfOk result (λ it. IsChain (fat_of allocator.old) first_sector (ids_of it.0)) }
    ensures version { IfOk result (λ it. links_version it.0 ≡ version_of allocator.old) }
    ensures entries { IfOk result (λ it. IsTrue (is_honest allocator.old)
        → entries_in it.1.items.items ≡ entries_of (version_of allocator.old)
        (joined (version_of allocator.old) (bytes_of allocator.old) (ids_of it.0))) }
    ensures tree { IfOk result (λ it. (tree : Tree)
        × IsTakenAs validation (case_table_of letters.now) HasSize
        (entries_in it.1.items.items) tree) }
    ensures sizes { IfOk result (λ it. SizesFit (version_of allocator.old)
        (entries_in it.1.items.items)) }
    ensures refused_only_if { IsErrOf result InvalidData → IsTrue (is_honest allocator.old)
        → (ids : List ℕ) → IsChain (fat_of allocator.old) first_sector ids
        → (tree : Tree) → IsTakenAs validation (case_table_of letters.now) HasAny
        (entries_of (version_of allocator.old) (joined (version_of allocator.old)
        (bytes_of allocator.old) ids)) tree → ⊥ }
    ensures only_reads { OnlyReadsAllocator allocator.old allocator.new }
    ensures cause { IfErr result (IsJustifiedBySectors allocator.old allocator.new) }
    ensures errors { IfErr result (λ e. IsFaultOrInvalidInputIf ⊥ e ⊎ (e ≡ InvalidData)) }
{
    let links = allocator.open_chain(first_sector)?;
    let bytes = read_bytes(alloc, allocator, &links)?;
    let items = entries_from(alloc, allocator.version(), &bytes)?;
    if !is_tree(alloc, letters, validation, &items)? {
        return Err(Error::InvalidData);
    }
    let unused = unused_among(alloc, &items)?;
    Ok((links, Entries { items, unused }))
}
