//! The two files, looked at and changed.
use cfb::{CaseMapper, CompoundFile};
use cfb_medium::{Error, MemoryMedium, Timestamp};
use staged::{MemoryDevice, Which, recover};
use std::alloc::Global;
use test_support::{Row, bytes_at, part_of};

// The home file of a device, as a compound file.
fn home_of(alloc: Global, device: &MemoryDevice) -> Result<CompoundFile<MemoryMedium>, Error> {
    let bytes = Vec::from_slice(alloc, device.bytes(Which::Home))?;
    let medium = MemoryMedium::from_bytes(alloc, bytes);
    let letters = CaseMapper::ascii(alloc)?;
    CompoundFile::open(alloc, medium, letters).map_err(|refused| refused.1)
}

/// How many bytes the stream at a path has, and some of them.
pub fn stream_told(alloc: Global, device: &MemoryDevice, row: &Row) -> Result<String, Error> {
    let bytes = home_of(alloc, device)?.read_stream(row.text(3))?;
    part_of(alloc, &bytes, row)
}

/// The device with a change of the home file: a storage or a stream is made, or a stream has other bytes at a place.
pub fn changed(alloc: Global, device: &MemoryDevice, row: &Row) -> Result<MemoryDevice, Error> {
    let path = row.text(1);
    let mut file = home_of(alloc, device)?;
    match row.call() {
        "storage" => file.create_storage(path, Timestamp::zero())?,
        "stream" => put(&mut file, path, &bytes_at(alloc, row, 2)?)?,
        _ => {
            let bytes = file.read_stream(path)?;
            put(&mut file, path, &overlaid(alloc, &bytes, row)?)?;
        }
    }
    file.flush()?;
    let home = file.into_inner().into_bytes();
    Ok(MemoryDevice::new(home, Vec::new(alloc)))
}

// Puts bytes into a stream, where one can have so many.
fn put(file: &mut CompoundFile<MemoryMedium>, path: &str, bytes: &[u8]) -> Result<(), Error> {
    if file.version().stream_len_mask() < bytes.len() as u64 {
        return Err(Error::Full);
    }
    file.put_stream(path, bytes)
}

/// Bytes with others at a place, which a row counts from the beginning, or below zero from the end.
pub fn overlaid(alloc: Global, bytes: &[u8], row: &Row) -> Result<Vec<u8>, Error> {
    let place = match usize::try_from(row.number(2)) {
        Ok(place) => place.min(bytes.len()),
        Err(_) => bytes
            .len()
            .saturating_sub(row.number(2).unsigned_abs() as usize),
    };
    let mut all = Vec::from_slice(alloc, &bytes[..place])?;
    all.extend_from_slice(&bytes_at(alloc, row, 3)?)?;
    if let Some(rest) = bytes.get(all.len()..) {
        all.extend_from_slice(rest)?;
    }
    Ok(all)
}

/// The device with a log of the first form, which is open and has each page of the home file that a recovery gives.
pub fn in_first_form(alloc: Global, device: MemoryDevice) -> Result<MemoryDevice, Error> {
    let old = Vec::from_slice(alloc, device.bytes(Which::Home))?;
    let mut device = device;
    recover(&mut device)?;
    let home = device.bytes(Which::Home);
    let mut log = Vec::from_slice(alloc, b"\x01MSISTG01")?;
    log.extend_from_slice(&(home.len() as u64).to_le_bytes())?;
    log.extend_from_slice(&(home.len() as u64).div_ceil(512).to_le_bytes())?;
    for (number, page) in home.chunks(512).enumerate() {
        log.extend_from_slice(&(number as u64).to_le_bytes())?;
        log.extend_from_slice(page)?;
        for _ in page.len()..512 {
            log.push(0)?;
        }
    }
    Ok(MemoryDevice::new(old, log))
}
