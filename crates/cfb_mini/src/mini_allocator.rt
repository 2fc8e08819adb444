//! Mini sectors over the directory.
ghost use Rattle.cfb_directory.specs.Views.{entries_held, DirectoryMatchesBytes};
ghost use Rattle.cfb_fat.specs.Tables.{bytes_of, fat_of, has_failed_here, is_honest, medium_of, version_of, IsJustifiedBySectors};
ghost use Rattle.cfb_medium.specs.Calls.{Reaches, IsJustifiedSince, IsFaultOrInvalidInputIf};
ghost use Rattle.cfb_medium.specs.Versions.{sector_len};
ghost use Rattle.cfb_medium.specs.declared.error.Error.TheVariants.{Failed, InvalidData, InvalidInput, Memory};
ghost use Rattle.cfb_chains.specs.ChainCalls.{IsInvalidPlace};
ghost use Rattle.cfb_mini.specs.LinkViews.{minis_of};
ghost use Rattle.cfb_mini.specs.Minis.{AreInside};
ghost use Rattle.cfb_sectors.specs.Sectors.{Chain as IsChain};
ghost use Rattle.cfb_tree.specs.Directory.{Entry};
ghost use Rattle.std.specs.Prelude.{drop, false, length, slice_get, take, true, IfErr, IfOk, IsErrOf, IsTrue, List, OnOk, Some, ℕ, ◌*◌, ◌+◌, ◌<◌, ◌||◌, ◌≡◌, ◌≤◌, ◌↔◌, ◌⊎◌};

use crate::MiniLinks;
use crate::mini_fat::{MiniFat, read_mini_fat};
use crate::places::stream_len;
use crate::reading::read_minis;
use cfb_directory::Directory;
use cfb_medium::{Error, Medium, ReadMedium, Version};
use std::alloc::Global;

/// The mini FAT and the mini stream of a compound file, over its directory ([MS-CFB] 2.4, 2.6.2).
#[derive(Drop)]
pub struct MiniAllocator<F: ReadMedium> {
    pub(crate) alloc: Global,
    pub(crate) directory: Directory<F>,
    pub(crate) mini_fat: MiniFat,
}

impl<F: ReadMedium> MiniAllocator<F> {
    ghost use Rattle.cfb_mini.specs.Views.{allocator_of, directory_of, mini_content_of, mini_fat_ids, mini_fat_of, mini_stream_ids, mini_stream_len, MiniMatchesBytes, OnlyReadsMini};
    ghost use Rattle.cfb_directory.specs.Views.{allocator_of as layer_of, OnlyReadsDirectory};

    /// Reads the mini FAT from the chain of its first sector, and finds the sectors of the mini stream, which the root's entry
    /// tells. `InvalidData` where there is no such chain. A refusal gives the medium back.
    pub fn new(
        alloc: Global,
        mut directory: Directory<F>,
        first_sector: u32,
    ) -> Result<MiniAllocator<F>, (F, Error)>
        ensures only_reads { IfOk result (λ it. OnlyReadsDirectory directory (directory_of it)) }
        ensures chain { IfOk result (λ it. IsChain (fat_of (layer_of directory)) first_sector
            (mini_fat_ids it)) }
        ensures stream { IfOk result (λ it. (root : Entry)
            → slice_get (entries_held directory) 0 ≡ Some root
            → IsChain (fat_of (layer_of directory)) root.start (mini_stream_ids it)) }
        ensures memory { IfOk result (λ it. DirectoryMatchesBytes directory → MiniMatchesBytes it) }
        ensures refused_only_if { IfErr result (λ e. e.1 ≡ InvalidData
            → IsTrue (is_honest (layer_of directory)) → (ids stream : List ℕ) (root : Entry)
            → IsChain (fat_of (layer_of directory)) first_sector ids
            → slice_get (entries_held directory) 0 ≡ Some root
            → IsChain (fat_of (layer_of directory)) root.start stream → ⊥) }
        ensures errors { IfErr result (λ e. IsFaultOrInvalidInputIf ⊥ e.1 ⊎ (e.1 ≡ InvalidData)) }
        ensures cause { IfErr result (λ e. IsJustifiedSince F.continues F.failures
            (λ m. has_failed_here (layer_of directory) || F.failed m)
            (medium_of (layer_of directory)) e.0 e.1) }
        ensures honest { IfErr result (λ e. F.honest e.0
            ≡ F.honest (medium_of (layer_of directory))) }
        ensures continues { IfErr result (λ e. Reaches F.continues
            (medium_of (layer_of directory)) e.0) }
        ensures bytes { IfErr result (λ e. IsTrue (is_honest (layer_of directory))
            → F.bytes e.0 ≡ bytes_of (layer_of directory)) }
    {
        let stream_start = directory.root_dir_entry().start_sector;
        match read_mini_fat(alloc, directory.allocator_mut(), first_sector, stream_start) {
            Ok(mini_fat) => Ok(MiniAllocator {
                alloc,
                directory,
                mini_fat,
            }),
            Err(error) => Err((directory.into_inner(), error)),
        }
    }

    /// The version.
    pub fn version(&self) -> Version
        ensures { result ≡ version_of (allocator_of self.now) }
    {
        self.directory.version()
    }

    /// A sector's bytes.
    pub fn sector_len(&self) -> usize
        ensures { result ≡ sector_len (version_of (allocator_of self.now)) }
    {
        self.directory.sector_len()
    }

    /// The medium.
    pub fn inner(&self) -> &F
        ensures { result.now ≡ medium_of (allocator_of self.now) }
    {
        self.directory.inner()
    }

    /// The directory: its entries, and where names lead.
    pub fn directory(&self) -> &Directory<F>
        ensures { result.now ≡ directory_of self.now }
    {
        &self.directory
    }

    /// The sectors that hold the mini FAT, in the order of their chain.
    pub fn mini_fat_sectors(&self) -> &[u32]
        ensures { result.now ≡ mini_fat_ids self.now }
    {
        self.mini_fat.links.sector_ids()
    }

    /// The sectors that hold the mini stream, in the order of their chain.
    pub fn mini_stream_sectors(&self) -> &[u32]
        ensures { result.now ≡ mini_stream_ids self.now }
    {
        self.mini_fat.stream.sector_ids()
    }

    /// The mini FAT: a number for each mini sector.
    pub fn mini_fat(&self) -> &[u32]
        ensures { result.now ≡ mini_fat_of self.now }
    {
        self.mini_fat.numbers.items()
    }

    /// The medium, without the directory and the mini FAT.
    pub fn into_inner(self) -> F
        ensures { result ≡ medium_of (allocator_of self) }
    {
        let MiniAllocator {
            alloc: _,
            directory,
            mini_fat: _,
        } = self;
        directory.into_inner()
    }
}

impl<F: ReadMedium> MiniAllocator<F> {
    ghost use Rattle.cfb_mini.specs.Views.{allocator_of, mini_content_of, mini_fat_of, mini_stream_len, MiniMatchesBytes, OnlyReadsMini};

    /// The mini sectors of the chain from a start in the mini FAT. `InvalidData` where there is none, or the mini stream
    /// hasn't one of them ([MS-CFB] 2.4).
    pub fn open_mini_chain(&self, start: u32) -> Result<MiniLinks, Error>
        ensures chain { IfOk result (λ links. IsChain (mini_fat_of self.now) start
            (minis_of links)) }
        ensures inside { IfOk result (λ links. AreInside (mini_stream_len self.now)
            (minis_of links)) }
        ensures none { IsErrOf result InvalidData → (minis : List ℕ)
            → IsChain (mini_fat_of self.now) start minis
            → AreInside (mini_stream_len self.now) minis → ⊥ }
        ensures errors { IfErr result (λ e. (e ≡ InvalidData) ⊎ (e ≡ Memory)) }
    {
        self.mini_fat
            .numbers
            .open(self.alloc, stream_len(&self.mini_fat.stream), start)
    }

    /// Fills the buffer with a mini chain's bytes from a place on. `InvalidInput` where they don't lie in the mini chain,
    /// `InvalidData` where the mini stream hasn't one of its mini sectors, or the file not one of the mini stream's sectors.
    /// Nothing is changed ([MS-CFB] 2.4).
    pub fn read_mini_chain(
        &mut self,
        links: &MiniLinks,
        at: u64,
        buffer: &mut [u8],
    ) -> Result<(), Error>
        ensures read { OnOk result
            (IsTrue (is_honest (allocator_of self.old)) → MiniMatchesBytes self.old
            → AreInside (mini_stream_len self.old) (minis_of links.now) → buffer.new
            ≡ take (length buffer.old) (drop at (mini_content_of self.old links.now))) }
        ensures there { OnOk result ((has_failed_here (allocator_of self.old) ≡ false)
            × (at + length buffer.old ≤ 64 * length (minis_of links.now))) }
        ensures past { IsErrOf result InvalidInput
            ↔ ((has_failed_here (allocator_of self.old) ≡ false)
            × (64 * length (minis_of links.now) < at + length buffer.old)) }
        ensures refused_only_if { IsErrOf result InvalidData
            → IsTrue (is_honest (allocator_of self.old))
            → MiniMatchesBytes self.old → AreInside (mini_stream_len self.old) (minis_of links.now)
            → ⊥ }
        ensures when_failed { has_failed_here (allocator_of self.old) ≡ true
            → IsErrOf result Failed }
        ensures only_reads { OnlyReadsMini self.old self.new }
        ensures cause { IfErr result (IsJustifiedBySectors (allocator_of self.old)
            (allocator_of self.new)) }
        ensures errors { IfErr result (λ e. IsFaultOrInvalidInputIf ⊥ e ⊎ IsInvalidPlace e) }
    {
        read_minis(
            self.directory.allocator_mut(),
            &self.mini_fat.stream,
            links,
            at,
            buffer,
        )
    }
}
