//! Sectors, FAT and chains of files in memory.
use crate::shapes::{has_tables_of, init_of, word_of};
use cfb_chain_io::{
    free_chain, overwrite_chain, read_chain, set_chain_len, write_chain, write_word,
};
use cfb_chains::{Chain, Links};
use cfb_fat::{Allocator, read_difat, use_a_chain};
use cfb_medium::{Error, MemoryMedium, Version};
use cfb_sectors::{
    END_OF_CHAIN, FREE_SECTOR, Header, NewSector, Sector, SectorInit, Sectors, Validation, u32_at,
};
use plain::parts_of;
use serde_json::Value;
use std::alloc::Global;
use std::io::SeekFrom;
use test_support::{Row, Subject, bytes_at, copy_of, hex_of, part_of, runs};

/// Answers calls on the sectors of a file in memory.
#[derive(Drop)]
pub struct Chains {
    file: Option<Allocator<MemoryMedium>>,
}

impl Chains {
    /// Without a file.
    pub fn new() -> Chains {
        Chains { file: None }
    }
}

impl Subject for Chains {
    fn answer(&mut self, alloc: Global, row: &Row) -> Result<String, Error> {
        match row.call() {
            "new sectors" => return new_sectors(alloc),
            "file" => self.file = Some(open_sectors(alloc, row)?),
            _ => {}
        }
        match &mut self.file {
            Some(file) => of_file(alloc, file, row),
            None => Err(Error::NotFound),
        }
    }
}

/// The version of a cell: 3 or 4.
pub fn version_at(row: &Row, place: usize) -> Version {
    if row.number(place) == 4 {
        Version::V4
    } else {
        Version::V3
    }
}

/// The sectors of a file, with the tables that its header names.
pub fn open_sectors(alloc: Global, row: &Row) -> Result<Allocator<MemoryMedium>, Error> {
    let bytes = bytes_at(alloc, row, 2)?;
    let len = bytes.len() as u64;
    let medium = MemoryMedium::from_bytes(alloc, bytes);
    let mut sectors = Sectors::new(version_at(row, 1), len, medium);
    let difat = read_difat(alloc, &mut sectors)?;
    Allocator::new(alloc, sectors, difat.sectors, difat.fat_sectors).map_err(|refused| refused.1)
}

// Two sectors of a new file: their numbers, bytes on both sides of the border, the end of the first, and the file's length.
fn new_sectors(alloc: Global) -> Result<String, Error> {
    let mut sectors = Sectors::new(Version::V3, 0, MemoryMedium::new(alloc));
    let (first, second) = (sectors.reserve_sector()?, sectors.reserve_sector()?);
    let count = sectors.num_sectors();
    sectors.init_sector(0, NewSector::Init(SectorInit::Difat))?;
    let part = sectors.seek_to_sector(1)?;
    Sector::new(&mut sectors, part).write(b"some")?;
    let mut border = [0; 4];
    sectors.read_contiguous(0, 510, &mut border)?;
    let border = hex_of(alloc, &border)?;
    let mut end = [0; 8];
    sectors.read_contiguous(0, 504, &mut end)?;
    let is_free = u32_at(&end, 0) == FREE_SECTOR;
    let is_end = u32_at(&end, 4) == END_OF_CHAIN;
    let strict = Validation::Permissive.is_strict();
    let len = sectors.into_inner().into_bytes().len();
    Ok(format!(in alloc;
        "{first} and {second} of {count}, {border}, free {is_free}, end {is_end}, strict {strict}, {len} bytes"
    )?)
}

// A number of a sector.
fn id_at(row: &Row, place: usize) -> u32 {
    u32::try_from(row.number(place)).unwrap_or(0)
}

fn of_file(alloc: Global, file: &mut Allocator<MemoryMedium>, row: &Row) -> Result<String, Error> {
    match row.call() {
        "file" | "lists" | "next" | "open" | "runs" | "run at" => of_tables(alloc, file, row),
        "bytes" => part_of(alloc, file.inner().bytes(), row),
        "chain" => of_chain(alloc, file, row),
        "owned" => of_owned(alloc, file, row),
        "plain" => against_plain(alloc, file),
        "header" => header_told(alloc, file.inner().bytes(), Validation::Strict),
        "read" | "write" | "write header" | "write part" => of_sector(alloc, file, row),
        "word" | "owned word" => {
            let (word, number) = (word_of(row.text(1)), id_at(row, 2));
            if row.call() == "word" {
                file.write_header_word(word, number)?;
            } else {
                write_word(file, word, number)?;
            }
            copy_of(alloc, "done")
        }
        _ => change_fat(alloc, file, row),
    }
}

fn of_tables(alloc: Global, file: &Allocator<MemoryMedium>, row: &Row) -> Result<String, Error> {
    match row.call() {
        "next" => Ok(format!(in alloc; "{:x}", file.next(id_at(row, 1))?)?),
        "open" => {
            let links = file.open_chain(id_at(row, 1))?;
            Ok(format!(in alloc; "{:?}", links.sector_ids())?)
        }
        "runs" => Ok(format!(in alloc; "{}", file.runs())?),
        "run at" => match file.run_at(id_at(row, 1)) {
            Some((first, count, last)) => {
                Ok(format!(in alloc; "{count} from {first}, at its end {last:x}")?)
            }
            None => copy_of(alloc, "none"),
        },
        _ => {
            let (count, orderly) = (file.num_sectors(), file.is_orderly());
            let (fat, difat) = (file.fat_sectors().len(), file.difat_sectors());
            Ok(format!(in alloc;
                "{count} sectors, orderly {orderly}, FAT of {fat}, DIFAT {difat:?}"
            )?)
        }
    }
}

// Changes of the FAT.
fn change_fat(
    alloc: Global,
    file: &mut Allocator<MemoryMedium>,
    row: &Row,
) -> Result<String, Error> {
    let id = id_at(row, 1);
    let found = match row.call() {
        "begin" => file.begin_chain(NewSector::Init(init_of(row.text(1))))?,
        "extend" => file.extend_chain(id, NewSector::Init(init_of(row.text(2))))?,
        "extend by" => {
            let count = usize::try_from(row.number(2)).unwrap_or(usize::MAX);
            file.extend_chain_by(id, count, init_of(row.text(3)))?;
            return copy_of(alloc, "done");
        }
        _ => return free_sectors(alloc, file, row),
    };
    Ok(format!(in alloc; "{found}")?)
}

fn free_sectors(
    alloc: Global,
    file: &mut Allocator<MemoryMedium>,
    row: &Row,
) -> Result<String, Error> {
    let id = id_at(row, 1);
    match row.call() {
        "free" => file.free_chain(id)?,
        "free after" => file.free_chain_after(id)?,
        "use a chain" => use_a_chain(file, &bytes_at(alloc, row, 1)?)?,
        _ => return Err(Error::NotFound),
    }
    copy_of(alloc, "done")
}

// Bytes of sectors, by their places.
fn of_sector(
    alloc: Global,
    file: &mut Allocator<MemoryMedium>,
    row: &Row,
) -> Result<String, Error> {
    let offset = usize::try_from(row.number(2)).unwrap_or(0);
    let id = id_at(row, 1);
    let bytes = bytes_at(alloc, row, 3)?;
    match row.call() {
        "read" => {
            let mut buffer = bytes;
            file.read_contiguous(id, offset, &mut buffer)?;
            hex_of(alloc, &buffer)
        }
        "write" => {
            file.write_contiguous(id, offset, &bytes)?;
            copy_of(alloc, "done")
        }
        "write header" => {
            let part = file.seek_within_header(offset)?;
            let count = Sector::new(file, part).write(&bytes)?;
            Ok(format!(in alloc; "{count}")?)
        }
        _ => {
            let part = file.seek_within_subsector(id, 3, 64, offset)?;
            let count = Sector::new(file, part).write(&bytes)?;
            Ok(format!(in alloc; "{count}")?)
        }
    }
}

// Calls in a row on one chain, which keeps its place between them.
fn of_chain(alloc: Global, file: &mut Allocator<MemoryMedium>, row: &Row) -> Result<String, Error> {
    let mut links = file.open_chain(id_at(row, 1))?;
    let mut chain = Chain::new(file, &mut links, SectorInit::Zero);
    let mut text = copy_of(alloc, "chain:")?;
    for cell in row.list(2) {
        let call = Row::of(alloc, cell)?;
        match chain_call(alloc, &mut chain, &call) {
            Ok(answer) => text.push_str(format!(in alloc; " {answer}")?.as_str())?,
            Err(error) => text.push_str(format!(in alloc; " !{error:?}")?.as_str())?,
        }
    }
    Ok(text)
}

fn chain_call(
    alloc: Global,
    chain: &mut Chain<'_, Allocator<MemoryMedium>>,
    call: &Row,
) -> Result<String, Error> {
    match call.call() {
        "read" => chain_bytes(alloc, chain, call),
        "seek" | "seek end" | "write" => {
            let number = chain_moved(alloc, chain, call)?;
            Ok(format!(in alloc; "{number}")?)
        }
        _ => {
            chain_resized(chain, call)?;
            Ok(format!(in alloc; "{} bytes in {}", chain.len(), chain.num_sectors())?)
        }
    }
}

fn chain_bytes(
    alloc: Global,
    chain: &mut Chain<'_, Allocator<MemoryMedium>>,
    call: &Row,
) -> Result<String, Error> {
    let mut buffer = bytes_at(alloc, call, 1)?;
    let count = chain.read(&mut buffer)?;
    Ok(format!(in alloc; "{count} {}", runs(alloc, &buffer)?)?)
}

// A number of a call: of the second cell, which is the greatest where it is none.
fn number_of(call: &Row) -> u64 {
    u64::try_from(call.number(1)).unwrap_or(u64::MAX)
}

fn chain_moved(
    alloc: Global,
    chain: &mut Chain<'_, Allocator<MemoryMedium>>,
    call: &Row,
) -> Result<u64, Error> {
    match call.call() {
        "seek" => chain.seek(SeekFrom::Start(number_of(call))),
        "seek end" => chain.seek(SeekFrom::End(call.number(1))),
        _ => Ok(chain.write(&bytes_at(alloc, call, 1)?)? as u64),
    }
}

fn chain_resized(chain: &mut Chain<'_, Allocator<MemoryMedium>>, call: &Row) -> Result<(), Error> {
    match call.call() {
        "set len" => chain.set_len(number_of(call)),
        "zero tail" => chain.zero_tail(number_of(call)),
        "free" => chain.free(),
        "tell" => Ok(()),
        _ => Err(Error::NotFound),
    }
}

// Calls in a row on one chain as a list of bytes.
fn of_owned(alloc: Global, file: &mut Allocator<MemoryMedium>, row: &Row) -> Result<String, Error> {
    let mut links = file.open_chain(id_at(row, 1))?;
    let mut text = copy_of(alloc, "chain:")?;
    for cell in row.list(2) {
        let call = Row::of(alloc, cell)?;
        let mut bytes = bytes_at(alloc, &call, 2)?;
        owned_call(file, &mut links, &call, &mut bytes)?;
        let told = format!(in alloc; " {} {:?}", hex_of(alloc, &bytes)?, links.sector_ids())?;
        text.push_str(told.as_str())?;
    }
    Ok(text)
}

fn owned_call(
    file: &mut Allocator<MemoryMedium>,
    links: &mut Links,
    call: &Row,
    bytes: &mut [u8],
) -> Result<(), Error> {
    let at = number_of(call);
    match call.call() {
        "write" => write_chain(file, links, at, bytes, SectorInit::Zero),
        "overwrite" => overwrite_chain(file, links, at, bytes),
        "read" => read_chain(file, links, at, bytes),
        "set len" => set_chain_len(file, links, at, SectorInit::Zero),
        "free" => free_chain(file, links),
        _ => Err(Error::NotFound),
    }
}

// What the plain reader makes of the bytes: whether its tables are those in memory, and the mini stream.
fn against_plain(alloc: Global, file: &Allocator<MemoryMedium>) -> Result<String, Error> {
    let Some(parts) = parts_of(alloc, file.inner().bytes())? else {
        return Err(Error::InvalidData);
    };
    let alike = has_tables_of(file, &parts)?;
    let (ids, bytes) = (&parts.mini_stream_sectors, runs(alloc, &parts.mini_stream)?);
    Ok(format!(in alloc; "tables alike {alike}, mini stream {ids:?}: {bytes}")?)
}

/// What a header tells, to a reader that is strict or lenient.
pub fn header_told(alloc: Global, bytes: &[u8], validation: Validation) -> Result<String, Error> {
    let mut reader = bytes;
    let header = Header::read_from(&mut reader, validation)?;
    let (count, first) = (header.num_dir_sectors, header.first_dir_sector);
    let (mini, minis) = (header.first_minifat_sector, header.num_minifat_sectors);
    Ok(format!(in alloc; "directory {count} from {first}, mini FAT {minis} from {mini}")?)
}
