//! How many bytes of each sector and each mini sector stand in a file ([MS-CFB] 2.1, 2.4).
ghost use Rattle.cfb_findings.specs.Avail.{mini_bytes, mini_start, sector_bytes};
ghost use Rattle.cfb_medium.specs.declared.error.Error.TheVariants.{Memory};
ghost use Rattle.std.specs.List.{range_with_len};
ghost use Rattle.std.specs.Prelude.{map, min, IfErr, IfOk, ◌-◌, ◌≡◌};

use cfb_medium::{Error, Version};
use cfb_sectors::MINI_SECTOR_LEN;
use std::alloc::Global;

// Of so many bytes from a place on those that stand in a file of so many.
fn bytes_from(place: u64, count: u64, file_len: u64) -> u64
    ensures { result ≡ min count (file_len - place) }
{
    count.min(file_len.saturating_sub(place))
}

// Where a mini sector begins in the file, by the sectors of the mini stream.
fn mini_start(version: Version, stream: &[u32], id: u32) -> u64
    ensures { result ≡ mini_start version stream.now id }
{
    let len = version.sector_len() as u64;
    let place = MINI_SECTOR_LEN as u64 * id as u64;
    let sector_id = match stream.get((place / len) as usize) {
        Some(sector_id) => *sector_id,
        None => 0,
    };
    (sector_id as u64 + 1) * len + place % len
}

// How many bytes of each of so many sectors stand in the file.
pub(crate) fn sectors_bytes(
    alloc: Global,
    version: Version,
    file_len: u64,
    count: u32,
) -> Result<Vec<u64>, Error>
    ensures bytes { IfOk result (λ bytes. bytes.items
        ≡ map (sector_bytes version file_len) (range_with_len 0 count)) }
    ensures errors { IfErr result (λ e. e ≡ Memory) }
{
    let len = version.sector_len() as u64;
    let mut bytes = Vec::new(alloc);
    for sector_id in 0..count {
        bytes.push(bytes_from((sector_id as u64 + 1) * len, len, file_len))?;
    }
    Ok(bytes)
}

// How many bytes of each of so many mini sectors stand in the file.
pub(crate) fn minis_bytes(
    alloc: Global,
    version: Version,
    stream: &[u32],
    file_len: u64,
    count: u32,
) -> Result<Vec<u64>, Error>
    ensures bytes { IfOk result (λ bytes. bytes.items
        ≡ map (mini_bytes version stream.now file_len) (range_with_len 0 count)) }
    ensures errors { IfErr result (λ e. e ≡ Memory) }
{
    let mut bytes = Vec::new(alloc);
    for id in 0..count {
        let place = mini_start(version, stream, id);
        bytes.push(bytes_from(place, MINI_SECTOR_LEN as u64, file_len))?;
    }
    Ok(bytes)
}
