//! Words of rows for parts of files, and parts of files as texts.
use cfb_fat::{Allocator, HeaderWord};
use cfb_medium::{Error, MemoryMedium};
use cfb_sectors::SectorInit;
use plain::Parts;

/// What a new sector holds.
pub fn init_of(name: &str) -> SectorInit {
    match name {
        "directory" => SectorInit::Dir,
        "FAT" => SectorInit::Fat,
        "DIFAT" => SectorInit::Difat,
        _ => SectorInit::Zero,
    }
}

/// A number of the header.
pub fn word_of(name: &str) -> HeaderWord {
    match name {
        "directory sectors" => HeaderWord::DirectorySectors,
        "first directory sector" => HeaderWord::FirstDirectorySector,
        "first mini FAT sector" => HeaderWord::FirstMiniFatSector,
        _ => HeaderWord::MiniFatSectors,
    }
}

/// Whether the tables in memory are those of the bytes, entry by entry.
pub fn has_tables_of(file: &Allocator<MemoryMedium>, parts: &Parts) -> Result<bool, Error> {
    if file.fat_sectors() != parts.fat_sectors.as_slice() {
        return Ok(false);
    }
    if file.difat_sectors() != parts.difat_sectors.as_slice() {
        return Ok(false);
    }
    for n in 0..file.num_sectors() {
        if parts.fat.get(n as usize) != Some(&file.next(n)?) {
            return Ok(false);
        }
    }
    Ok(true)
}
