//! The file in the making, as it begins: a new file in memory ([MS-CFB] 2).
ghost use Rattle.cfb_copying.specs.Steps.{IsNewFileBegun};
ghost use Rattle.cfb_medium.specs.declared.error.Error.TheVariants.{Memory};
ghost use Rattle.std.specs.Prelude.{IfErr, IfOk, ◌≡◌};

use cfb_creating::new_file;
use cfb_fat::Allocator;
use cfb_medium::{Error, MemoryMedium, Version};
use cfb_sectors::Sectors;
use std::alloc::Global;

// The sector of a new file that holds its FAT.
const FAT_AT: u32 = 0;

// A new file of a version, in memory.
pub(crate) fn begin_file(alloc: Global, version: Version) -> Result<Allocator<MemoryMedium>, Error>
    ensures begun { IfOk result (IsNewFileBegun version) }
    ensures errors { IfErr result (λ e. e ≡ Memory) }
{
    let bytes = new_file(alloc, version)?;
    let len = bytes.len() as u64;
    let sectors = Sectors::new(version, len, MemoryMedium::from_bytes(alloc, bytes));
    let mut fat_sectors = Vec::new(alloc);
    fat_sectors.push(FAT_AT)?;
    match Allocator::new(alloc, sectors, Vec::new(alloc), fat_sectors) {
        Ok(allocator) => Ok(allocator),
        Err((_, error)) => Err(error),
    }
}
