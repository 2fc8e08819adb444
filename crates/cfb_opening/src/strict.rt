//! What a strict reader asks of header and tables beside what all readers ask ([MS-CFB] 2.1 to 2.5).
ghost use Rattle.cfb_directory.specs.Views.{directory_ids};
ghost use Rattle.cfb_fat.specs.Tables.{difat_sectors_of, fat_sectors_of};
ghost use Rattle.cfb_medium.specs.Versions.{sector_len};
ghost use Rattle.cfb_spec.specs.Means.{directory_count};
ghost use Rattle.cfb_mini.specs.Views.{allocator_of, directory_of, mini_fat_ids};
ghost use Rattle.cfb_opening.specs.Tables.{IsExact, IsExactFor};
ghost use Rattle.cfb_sectors.specs.HeaderViews.{fields_of};
ghost use Rattle.cfb_sectors.specs.Sectors.{end_of_chain};
ghost use Rattle.std.specs.Prelude.{length, IsTrue, ◌≡◌, ◌↔◌, ◌%◌};

use cfb_medium::{ReadMedium, Version};
use cfb_mini::MiniAllocator;
use cfb_sectors::{END_OF_CHAIN, Header, Validation};

// Whether the header counts so many sectors of the directory: none in version 3.
fn counts_directory(header: &Header, directory_len: usize) -> bool
    ensures { IsTrue result ↔ (header.now.num_dir_sectors
        ≡ directory_count header.now.version directory_len) }
{
    match header.version {
        Version::V3 => header.num_dir_sectors == 0,
        Version::V4 => header.num_dir_sectors as usize == directory_len,
    }
}

// Whether the header's count is that of these sectors.
fn counts(told: u32, sector_ids: &[u32]) -> bool
    ensures { IsTrue result ↔ (told ≡ length sector_ids.now) }
{
    told as usize == sector_ids.len()
}

// Whether the DIFAT's chain ends at "end of chain".
fn ends(difat_stop: u32) -> bool
    ensures { IsTrue result ↔ (difat_stop ≡ end_of_chain) }
{
    difat_stop == END_OF_CHAIN
}

// Whether a file of so many bytes is whole sectors.
fn is_whole(version: Version, len: u64) -> bool
    ensures { IsTrue result ↔ (len % sector_len version ≡ 0) }
{
    len % version.sector_len() as u64 == 0
}

// Whether the header counts the sectors of each part as they are, the DIFAT's chain ends as it should, and the file is whole
// sectors.
fn is_exact<F: ReadMedium>(
    header: &Header,
    difat_stop: u32,
    len: u64,
    file: &MiniAllocator<F>,
) -> bool
    ensures { IsTrue result ↔ IsExact (fields_of header.now) difat_stop len
        (length (directory_ids (directory_of file.now)))
        (length (fat_sectors_of (allocator_of file.now))) (length (mini_fat_ids file.now))
        (length (difat_sectors_of (allocator_of file.now))) }
{
    let directory = file.directory();
    let allocator = directory.allocator();
    counts_directory(header, directory.sectors().len())
        && counts(header.num_fat_sectors, allocator.fat_sectors())
        && counts(header.num_minifat_sectors, file.mini_fat_sectors())
        && counts(header.num_difat_sectors, allocator.difat_sectors())
        && ends(difat_stop)
        && is_whole(header.version, len)
}

// Whether a reader of this kind takes header and tables, of which a strict one asks this.
pub(crate) fn is_taken<F: ReadMedium>(
    validation: Validation,
    header: &Header,
    difat_stop: u32,
    len: u64,
    file: &MiniAllocator<F>,
) -> bool
    ensures { IsTrue result ↔ IsExactFor validation (fields_of header.now) difat_stop len
        (length (directory_ids (directory_of file.now)))
        (length (fat_sectors_of (allocator_of file.now))) (length (mini_fat_ids file.now))
        (length (difat_sectors_of (allocator_of file.now))) }
{
    match validation {
        Validation::Permissive => true,
        Validation::Strict => is_exact(header, difat_stop, len, file),
    }
}
