//! Which bytes open as a compound file, and which as its header.
use crate::chains::header_told;
use crate::directory::validation_of;
use cfb_medium::{Error, MemoryMedium, Version};
use cfb_opening::open_file;
use cfb_sectors::{Header, Validation};
use cfb_tree::CaseMapper;
use std::alloc::Global;
use test_support::{Row, Subject, bytes_at, runs};

/// Opens bytes, with some of them changed.
#[derive(Drop)]
pub struct Openings {
    letters: CaseMapper,
    bytes: Vec<u8>,
}

impl Openings {
    /// No bytes.
    pub fn new(alloc: Global) -> Result<Openings, Error> {
        Ok(Openings {
            letters: CaseMapper::ascii(alloc)?,
            bytes: Vec::new(alloc),
        })
    }
}

impl Subject for Openings {
    fn answer(&mut self, alloc: Global, row: &Row) -> Result<String, Error> {
        match row.call() {
            "bytes" => {
                self.bytes = bytes_at(alloc, row, 1)?;
                Ok(format!(in alloc; "{} bytes", self.bytes.len())?)
            }
            "strict header" => header_told(
                alloc,
                &self.changed_bytes(alloc, row)?,
                Validation::Strict,
            ),
            "lenient header" => {
                header_told(
                    alloc,
                    &self.changed_bytes(alloc, row)?,
                    Validation::Permissive,
                )
            }
            "header again" => header_written(alloc, &self.changed_bytes(alloc, row)?),
            "version" => version_told(alloc),
            _ => {
                let medium = MemoryMedium::from_bytes(alloc, self.changed_bytes(alloc, row)?);
                counts_of_opened(alloc, medium, &self.letters, validation_of(row.call()))
            }
        }
    }
}

impl Openings {
    // The bytes, of which some have other bits, up to a length.
    fn changed_bytes(&self, alloc: Global, row: &Row) -> Result<Vec<u8>, Error> {
        let mut bytes = Vec::from_slice(alloc, &self.bytes)?;
        for change in row.list(1) {
            let place = change.get(0).and_then(|n| n.as_u64()).unwrap_or(0) as usize;
            let bits = change.get(1).and_then(|n| n.as_u64()).unwrap_or(0);
            if let Some(byte) = bytes.get_mut(place) {
                *byte ^= u8::try_from(bits).unwrap_or(0);
            }
        }
        if row.cell(2).is_some() {
            bytes.truncate(usize::try_from(row.number(2)).unwrap_or(0));
        }
        Ok(bytes)
    }
}

// How many sectors directory, mini FAT and mini stream have.
fn counts_of_opened(
    alloc: Global,
    medium: MemoryMedium,
    letters: &CaseMapper,
    validation: Validation,
) -> Result<String, Error> {
    let file = open_file(alloc, medium, letters, validation).map_err(|refused| refused.1)?;
    let (directory, fat) = (
        file.directory().sectors().len(),
        file.mini_fat_sectors().len(),
    );
    let stream = file.mini_stream_sectors().len();
    Ok(format!(in alloc; "directory {directory}, mini FAT {fat}, mini stream {stream}")?)
}

// The bytes of a header that was read from bytes, and is written again.
fn header_written(alloc: Global, bytes: &[u8]) -> Result<String, Error> {
    let mut reader = bytes;
    let header = Header::read_from(&mut reader, Validation::Permissive)?;
    let mut written = Vec::new(alloc);
    header.write_to(&mut written)?;
    runs(alloc, &written)
}

// Lengths of sectors, and how many directory entries they have.
fn version_told(alloc: Global) -> Result<String, Error> {
    let (third, fourth) = (Version::V3, Version::V4);
    let (len, entries) = (third.sector_len(), third.dir_entries_per_sector());
    let front = format!(in alloc; "{len} bytes and {entries} entries")?;
    let (len, entries) = (fourth.sector_len(), fourth.dir_entries_per_sector());
    Ok(format!(in alloc; "{front}, {len} bytes and {entries} entries")?)
}
