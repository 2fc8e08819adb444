//! Mini sectors of files in memory, and whether files are sound.
use crate::directory::directory_of;
use cfb_medium::{Error, MemoryMedium};
use cfb_mini::{MiniAllocator, MiniLinks};
use cfb_soundness::is_sound;
use cfb_tree::CaseMapper;
use std::alloc::Global;
use test_support::{Row, Subject, bytes_at, runs, yes_or_no};

/// Answers calls on the mini sectors of a file in memory.
#[derive(Drop)]
pub struct Minis {
    letters: CaseMapper,
    file: Option<MiniAllocator<MemoryMedium>>,
}

impl Minis {
    /// Without a file.
    pub fn new(alloc: Global) -> Result<Minis, Error> {
        Ok(Minis {
            letters: CaseMapper::ascii(alloc)?,
            file: None,
        })
    }
}

impl Subject for Minis {
    fn answer(&mut self, alloc: Global, row: &Row) -> Result<String, Error> {
        if row.call() == "strict" || row.call() == "lenient" {
            let directory = directory_of(alloc, &self.letters, row)?;
            let file = MiniAllocator::new(alloc, directory, 2).map_err(|refused| refused.1)?;
            self.file = Some(file);
        }
        match &mut self.file {
            Some(file) => of_file(alloc, file, row),
            None => Err(Error::NotFound),
        }
    }
}

fn of_file(
    alloc: Global,
    file: &mut MiniAllocator<MemoryMedium>,
    row: &Row,
) -> Result<String, Error> {
    match row.call() {
        "none" => none_told(alloc, file, row),
        "open" => links_told(alloc, &links_of(file, row)?),
        "read" => bytes_read(alloc, file, row),
        "sound" => {
            let len = file.inner().bytes().len() as u64;
            yes_or_no(alloc, is_sound(alloc, file, len)?)
        }
        "strict" | "lenient" => file_told(alloc, file),
        _ => Err(Error::NotFound),
    }
}

// A chain of no mini sectors.
fn none_told(
    alloc: Global,
    file: &mut MiniAllocator<MemoryMedium>,
    row: &Row,
) -> Result<String, Error> {
    let none = MiniLinks::new(alloc);
    let mut buffer = bytes_at(alloc, row, 1)?;
    let read = file.read_mini_chain(&none, 0, &mut buffer);
    Ok(format!(in alloc; "from {:x}: {read:?}", none.start_sector_id())?)
}

fn bytes_read(
    alloc: Global,
    file: &mut MiniAllocator<MemoryMedium>,
    row: &Row,
) -> Result<String, Error> {
    let links = links_of(file, row)?;
    let mut buffer = bytes_at(alloc, row, 3)?;
    let at = u64::try_from(row.number(2)).unwrap_or(0);
    file.read_mini_chain(&links, at, &mut buffer)?;
    runs(alloc, &buffer)
}

fn links_of(file: &MiniAllocator<MemoryMedium>, row: &Row) -> Result<MiniLinks, Error> {
    file.open_mini_chain(u32::try_from(row.number(1)).unwrap_or(0))
}

fn links_told(alloc: Global, links: &MiniLinks) -> Result<String, Error> {
    let (ids, start, len) = (
        links.mini_sector_ids(),
        links.start_sector_id(),
        links.len(),
    );
    Ok(format!(in alloc; "{ids:?} from {start:x}, {len} bytes")?)
}

fn file_told(alloc: Global, file: &MiniAllocator<MemoryMedium>) -> Result<String, Error> {
    let (fat, stream) = (file.mini_fat_sectors(), file.mini_stream_sectors());
    let (numbers, len) = (file.mini_fat().len(), file.sector_len());
    let version = file.version().sector_len();
    Ok(format!(in alloc;
        "mini FAT {fat:?} of {numbers}, mini stream {stream:?}, sectors of {len}, {version}"
    )?)
}
