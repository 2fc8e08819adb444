//! The DIFAT: the sectors that hold it and the FAT, listed, read and added to ([MS-CFB] 2.5).
ghost use Rattle.cfb_fat.specs.Calls.{WriteErrorContract};
ghost use Rattle.cfb_chains.specs.Changes.{AreDistinct};
ghost use Rattle.cfb_fat.specs.Growing.{Appends, IsBesideDifat};
ghost use Rattle.cfb_fat.specs.Listed.{IsStop, Lists};
ghost use Rattle.cfb_fat.specs.Orderly.{named_at_most, AreBelow};
ghost use Rattle.cfb_medium.specs.Bytes.{overwritten};
ghost use Rattle.cfb_medium.specs.Calls.{IsFaultOrInvalidInputIf};
ghost use Rattle.cfb_medium.specs.Numbers.{numbers, u32_at};
ghost use Rattle.cfb_medium.specs.Versions.{sector_len};
ghost use Rattle.cfb_medium.specs.declared.error.Error.TheVariants.{InvalidData};
ghost use Rattle.cfb_sectors.specs.Header.{difat_sector_count, fat_sector_count, first_difat_sector};
ghost use Rattle.cfb_sectors.specs.Held.{bytes_of, count_of, has_failed_here, version_of, AreSectorNumbers, Changes, EndsIn, IsJustifiedByMedium, IsHonest, OnlyReadsSectors};
ghost use Rattle.cfb_sectors.specs.Initial.{first_bytes, initial};
ghost use Rattle.cfb_sectors.specs.Sectors.{difat, end_of_chain, free, greatest_regular, sector, sector_start, DifatChain};
ghost use Rattle.cfb_sectors.specs.declared.initial.SectorInit.TheVariants.{Fat};
ghost use Rattle.std.specs.Int.{to_le_bytes, w32};
ghost use Rattle.std.specs.Prelude.{false, length, replicate, slice_index, take, true, IfErr, IfOk, IsErrOf, IsTrue, List, OnErr, OnOk, [], ℕ, ⊤, ◌%◌, ◌*◌, ◌++◌, ◌+◌, ◌-◌, ◌/◌, ◌<◌, ◌↔◌, ◌∷◌, ◌≡◌, ◌≤◌, ◌⊎◌};

use crate::fat::{LONGEST, are_same};
use cfb_medium::{Error, Medium, ReadMedium, Version};
use cfb_sectors::{
    ChangesSectors, END_OF_CHAIN, FREE_SECTOR, HasSectors, NUM_DIFAT_ENTRIES_IN_HEADER, NewSector,
    SectorInit, Sectors, numbers_in,
};
use std::alloc::Global;

// The bytes of a number of the DIFAT.
const NUMBER_LEN: usize = 4;

// Where the header counts the FAT's sectors, and where this number ends ([MS-CFB] 2.2).
pub(crate) const FAT_COUNT: u64 = 44;

pub(crate) const FAT_COUNT_END: u64 = 48;

// Where the header names the DIFAT's first sector, and where it counts the DIFAT's sectors.
pub(crate) const FIRST_DIFAT_SECTOR: u64 = 68;

const DIFAT_COUNT: u64 = 72;

// Where the header's entries of the DIFAT begin, how many bytes they are, and where they and the header end.
const HEADER_ENTRIES: u64 = 76;

const HEADER_ENTRIES_LEN: usize = 436;

pub(crate) const HEADER_END: u64 = 512;

// A number of the header.
pub(crate) fn read_word<F: ReadMedium>(sectors: &mut Sectors<F>, place: u64) -> Result<u32, Error>
    ensures read { IfOk result (λ n. IsHonest sectors.old
        → place + 4 ≤ length (bytes_of sectors.old) → n ≡ u32_at (bytes_of sectors.old) place) }
    ensures not_failed { OnOk result (has_failed_here sectors.old ≡ false) }
    ensures only_reads { OnlyReadsSectors sectors.old sectors.new }
    ensures cause { IfErr result (IsJustifiedByMedium sectors.old sectors.new) }
    ensures errors { IfErr result (IsFaultOrInvalidInputIf ⊥) }
{
    let mut word = [0; NUMBER_LEN];
    sectors.read_part(place, &mut word)?;
    Ok(u32::from_le_bytes(word))
}

// What a sector of the DIFAT names as the next.
fn read_next<F: ReadMedium>(sectors: &mut Sectors<F>, sector_id: u32) -> Result<u32, Error>
    ensures read { IfOk result (λ n. IsHonest sectors.old
        → n ≡ u32_at (sector (version_of sectors.old) (bytes_of sectors.old) sector_id)
        (sector_len (version_of sectors.old) - 4)) }
    ensures there { OnOk result ((has_failed_here sectors.old ≡ false)
        × (sector_id < count_of sectors.old)) }
    ensures missing { IsErrOf result InvalidData
        → (has_failed_here sectors.old ≡ false) × (count_of sectors.old ≤ sector_id) }
    ensures only_reads { OnlyReadsSectors sectors.old sectors.new }
    ensures cause { IfErr result (IsJustifiedByMedium sectors.old sectors.new) }
    ensures errors { IfErr result (λ e. IsFaultOrInvalidInputIf ⊥ e ⊎ (e ≡ InvalidData)) }
{
    let mut word = [0; NUMBER_LEN];
    let last = sectors.sector_len() - NUMBER_LEN;
    sectors.read_contiguous(sector_id, last, &mut word)?;
    Ok(u32::from_le_bytes(word))
}

// The sectors of the DIFAT from a start up to a stop, and the stop. `InvalidData` where there is no such chain.
fn walk<F: ReadMedium>(
    alloc: Global,
    sectors: &mut Sectors<F>,
    start: u32,
) -> Result<(Vec<u32>, u32), Error>
    ensures stops { IfOk result (λ it. IsStop it.1) }
    ensures chain { IfOk result (λ it. IsHonest sectors.old
        → DifatChain (version_of sectors.old) (bytes_of sectors.old) start it.0.items it.1) }
    ensures none { IsErrOf result InvalidData → IsHonest sectors.old → (ids : List ℕ) (stop : ℕ)
        → IsStop stop → DifatChain (version_of sectors.old) (bytes_of sectors.old) start ids stop
        → ⊥ }
    ensures there { IfOk result (λ it. AreSectorNumbers sectors.old it.0.items) }
    ensures only_reads { OnlyReadsSectors sectors.old sectors.new }
    ensures cause { IfErr result (IsJustifiedByMedium sectors.old sectors.new) }
    ensures errors { IfErr result (λ e. IsFaultOrInvalidInputIf ⊥ e ⊎ (e ≡ InvalidData)) }
{
    let mut found = Vec::new(alloc);
    let mut at = start;
    while at != END_OF_CHAIN && at != FREE_SECTOR {
        let next = read_next(sectors, at)?;
        if found.len() >= sectors.num_sectors() as usize {
            return Err(Error::InvalidData);
        }
        found.push(at)?;
        at = next;
    }
    Ok((found, at))
}

// The numbers that a sector of the DIFAT has beside that of the next, behind those found so far.
fn push_entries<F: ReadMedium>(
    alloc: Global,
    sectors: &mut Sectors<F>,
    sector_id: u32,
    found: &mut Vec<u32>,
) -> Result<(), Error>
    ensures read { OnOk result (IsHonest sectors.old
        → found.new.items ≡ found.old.items ++ numbers
        (take (sector_len (version_of sectors.old) - 4)
        (sector (version_of sectors.old) (bytes_of sectors.old) sector_id))) }
    ensures missing { IsErrOf result InvalidData → sector_id < count_of sectors.old → ⊥ }
    ensures only_reads { OnlyReadsSectors sectors.old sectors.new }
    ensures cause { IfErr result (IsJustifiedByMedium sectors.old sectors.new) }
    ensures errors { IfErr result (λ e. IsFaultOrInvalidInputIf ⊥ e ⊎ (e ≡ InvalidData)) }
{
    let mut sector = [0; LONGEST];
    let len = sectors.sector_len() - NUMBER_LEN;
    sectors.read_contiguous(sector_id, 0, &mut sector[..len])?;
    found.extend_from_slice(&numbers_in(alloc, &sector[..len])?)?;
    Ok(())
}

// The entries of the DIFAT, in the header and in its sectors. `InvalidData` where one of these isn't there.
fn read_entries<F: ReadMedium>(
    alloc: Global,
    sectors: &mut Sectors<F>,
    difat_sectors: &[u32],
) -> Result<Vec<u32>, Error>
    ensures read { IfOk result (λ all. IsHonest sectors.old → 512 ≤ length (bytes_of sectors.old)
        → all.items ≡ difat (version_of sectors.old) (bytes_of sectors.old) difat_sectors.now) }
    ensures missing { IsErrOf result InvalidData → AreSectorNumbers sectors.old difat_sectors.now
        → ⊥ }
    ensures only_reads { OnlyReadsSectors sectors.old sectors.new }
    ensures cause { IfErr result (IsJustifiedByMedium sectors.old sectors.new) }
    ensures errors { IfErr result (λ e. IsFaultOrInvalidInputIf ⊥ e ⊎ (e ≡ InvalidData)) }
{
    let mut header = [0; HEADER_ENTRIES_LEN];
    sectors.read_part(HEADER_ENTRIES, &mut header)?;
    let mut found = numbers_in(alloc, &header)?;
    for sector_id in difat_sectors {
        push_entries(alloc, sectors, *sector_id, &mut found)?;
    }
    Ok(found)
}

// Takes the "free" entries at the end away.
fn drop_free_end(entries: &mut Vec<u32>)
    ensures rest { entries.old.items ≡ entries.new.items
        ++ replicate (length entries.old.items - length entries.new.items) free }
    ensures last { (front : List ℕ) → entries.new.items ≡ front ++ free ∷ [] → ⊥ }
{
    let mut len = entries.len();
    while len > 0 && entries[len - 1] == FREE_SECTOR {
        len -= 1;
    }
    entries.truncate(len);
}

/// The sectors that hold the DIFAT and the FAT ([MS-CFB] 2.5).
#[derive(Drop)]
pub struct Difat {
    /// The sectors of the DIFAT, in the order of its chain.
    pub sectors: Vec<u32>,
    /// What its last sector, or the header where it has none, names as the next: "end of chain" or "free".
    pub stop: u32,
    /// The sectors of the FAT, in the order of the DIFAT's entries.
    pub fat_sectors: Vec<u32>,
}

/// Reads the DIFAT: its sectors, where its chain stops, and the sectors of the FAT, which its entries name; "free" entries
/// behind the last are left out ([MS-CFB] 2.5). `InvalidData` where the DIFAT's chain leads to a sector that isn't there, or
/// never ends.
pub fn read_difat<F: ReadMedium>(alloc: Global, sectors: &mut Sectors<F>) -> Result<Difat, Error>
    ensures lists { IfOk result (λ it. IsHonest sectors.old → 512 ≤ length (bytes_of sectors.old)
        → Lists (version_of sectors.old) (bytes_of sectors.old) it.sectors.items
        it.fat_sectors.items) }
    ensures stop { IfOk result (λ it. IsHonest sectors.old → 512 ≤ length (bytes_of sectors.old)
        → IsStop it.stop × DifatChain (version_of sectors.old) (bytes_of sectors.old)
        (first_difat_sector (bytes_of sectors.old)) it.sectors.items it.stop) }
    ensures last { IfOk result (λ it. (front : List ℕ) → it.fat_sectors.items ≡ front ++ free ∷ []
        → ⊥) }
    ensures not_failed { OnOk result (has_failed_here sectors.old ≡ false) }
    ensures refused_only_if { IsErrOf result InvalidData → has_failed_here sectors.old ≡ false }
    ensures none { IsErrOf result InvalidData → IsHonest sectors.old
        → 512 ≤ length (bytes_of sectors.old) → (difat_sectors fat_sectors : List ℕ)
        → Lists (version_of sectors.old) (bytes_of sectors.old) difat_sectors fat_sectors → ⊥ }
    ensures only_reads { OnlyReadsSectors sectors.old sectors.new }
    ensures cause { IfErr result (IsJustifiedByMedium sectors.old sectors.new) }
    ensures errors { IfErr result (λ e. IsFaultOrInvalidInputIf ⊥ e ⊎ (e ≡ InvalidData)) }
{
    let start = read_word(sectors, FIRST_DIFAT_SECTOR)?;
    let (difat_sectors, stop) = walk(alloc, sectors, start)?;
    let mut fat_sectors = read_entries(alloc, sectors, &difat_sectors)?;
    drop_free_end(&mut fat_sectors);
    Ok(Difat {
        sectors: difat_sectors,
        stop,
        fat_sectors,
    })
}

// Whether the DIFAT can name so many sectors if it has so many of its own.
pub(crate) fn can_name(version: Version, difat_count: usize, fat_count: usize) -> bool
    ensures { IsTrue result ↔ (fat_count ≤ named_at_most version difat_count) }
{
    let each = version.sector_len() / NUMBER_LEN - 1;
    let most = difat_count.saturating_mul(each);
    fat_count <= most.saturating_add(NUM_DIFAT_ENTRIES_IN_HEADER)
}

// Whether the DIFAT has these sectors and names those of the FAT, and no others.
pub(crate) fn are_listed<F: ReadMedium>(
    alloc: Global,
    sectors: &mut Sectors<F>,
    difat_sectors: &[u32],
    fat_sectors: &[u32],
) -> Result<bool, Error>
    requires some { 0 < count_of sectors.old }
    requires there { AreBelow (count_of sectors.old) fat_sectors.now }
    ensures listed { IfOk result (λ is_listed. IsHonest sectors.old
        → IsTrue is_listed ↔ Lists (version_of sectors.old)
        (bytes_of sectors.old) difat_sectors.now fat_sectors.now) }
    ensures only_reads { OnlyReadsSectors sectors.old sectors.new }
    ensures cause { IfErr result (IsJustifiedByMedium sectors.old sectors.new) }
    ensures errors { IfErr result (IsFaultOrInvalidInputIf ⊥) }
{
    match read_difat(alloc, sectors) {
        Ok(found) => Ok(
            are_same(&found.sectors, difat_sectors) && are_same(&found.fat_sectors, fat_sectors),
        ),
        Err(Error::InvalidData) => Ok(false),
        Err(error) => Err(error),
    }
}

// Appends a sector that holds what is said, and gives its number. After a fault it has failed.
pub(crate) fn append_sector<F: Medium>(
    sectors: &mut Sectors<F>,
    init: NewSector<'_>,
) -> Result<u32, Error>
    requires few { count_of sectors.old ≤ greatest_regular }
    ensures number { IfOk result (λ n. n ≡ count_of sectors.old) }
    ensures appends { Appends (λ _ _. ⊤) sectors.old sectors.new }
    ensures content { has_failed_here sectors.new ≡ false → IsHonest sectors.old
        → sector (version_of sectors.old) (bytes_of sectors.new) (count_of sectors.old)
        ≡ first_bytes init.entry (sector_len (version_of sectors.old)) }
    ensures whole { has_failed_here sectors.new ≡ false → IsHonest sectors.old
        → sector_start (version_of sectors.old) (count_of sectors.old)
        + sector_len (version_of sectors.old) ≤ length (bytes_of sectors.new) }
    ensures not_failed { OnOk result (has_failed_here sectors.new ≡ false) }
    ensures after_error { OnErr result (has_failed_here sectors.new ≡ true) }
    ensures cause { IfErr result (IsJustifiedByMedium sectors.old sectors.new) }
    ensures errors { IfErr result (IsFaultOrInvalidInputIf ⊥) }
{
    sectors.append_sector(init)
}

// Writes a number in its place. After a fault it has failed.
pub(crate) fn write_word<F: Medium>(
    sectors: &mut Sectors<F>,
    place: u64,
    number: u32,
) -> Result<(), Error>
    requires { EndsIn sectors.old place 4 }
    ensures changes { Changes (λ b. overwritten b place
        (to_le_bytes w32 number)) sectors.old sectors.new }
    ensures count { count_of sectors.new ≡ count_of sectors.old }
    ensures not_failed { OnOk result (has_failed_here sectors.new ≡ false) }
    ensures after_error { OnErr result (has_failed_here sectors.new ≡ true) }
    ensures cause { IfErr result (IsJustifiedByMedium sectors.old sectors.new) }
    ensures errors { IfErr result (IsFaultOrInvalidInputIf ⊥) }
{
    let bytes = number.to_le_bytes();
    sectors.write_part(place, &bytes)
}

// Writes the header's numbers of the FAT's sectors and the DIFAT's. After a fault it has failed.
fn write_counts<F: Medium>(
    sectors: &mut Sectors<F>,
    fat_count: u32,
    difat_count: u32,
) -> Result<(), Error>
    requires some { 0 < count_of sectors.old }
    ensures changes { Changes (λ b. overwritten (overwritten b 44 (to_le_bytes w32 fat_count)) 72
        (to_le_bytes w32 difat_count)) sectors.old sectors.new }
    ensures count { count_of sectors.new ≡ count_of sectors.old }
    ensures not_failed { OnOk result (has_failed_here sectors.new ≡ false) }
    ensures after_error { OnErr result (has_failed_here sectors.new ≡ true) }
    ensures cause { IfErr result (IsJustifiedByMedium sectors.old sectors.new) }
    ensures errors { IfErr result (IsFaultOrInvalidInputIf ⊥) }
{
    write_word(sectors, FAT_COUNT, fat_count)?;
    write_word(sectors, DIFAT_COUNT, difat_count)?;
    Ok(())
}

// Where an entry of the DIFAT stands.
fn entry_place(version: Version, difat_sectors: &[u32], index: usize) -> u64
    requires { index < named_at_most version (length difat_sectors.now) }
    ensures header { index < 109 → result ≡ 76 + 4 * index }
    ensures sector { 109 ≤ index → result ≡ sector_start version
        (slice_index difat_sectors.now ((index - 109) / (sector_len version / 4 - 1)))
        + 4 * ((index - 109) % (sector_len version / 4 - 1)) }
{
    if index < NUM_DIFAT_ENTRIES_IN_HEADER {
        return HEADER_ENTRIES + (NUMBER_LEN * index) as u64;
    }
    let each = version.sector_len() / 4 - 1;
    let rest = index - NUM_DIFAT_ENTRIES_IN_HEADER;
    let holder = difat_sectors[rest / each];
    (u64::from(holder) + 1) * version.sector_len() as u64 + (NUMBER_LEN * (rest % each)) as u64
}

// Where the DIFAT names the next sector of it.
fn link_place(version: Version, difat_sectors: &[u32]) -> u64
    ensures first { length difat_sectors.now ≡ 0 → result ≡ 68 }
    ensures last { 0 < length difat_sectors.now
        → result ≡ sector_start version (slice_index difat_sectors.now
        (length difat_sectors.now - 1)) + (sector_len version - 4) }
{
    match difat_sectors.last() {
        None => FIRST_DIFAT_SECTOR,
        Some(last) => (u64::from(*last) + 2) * version.sector_len() as u64 - NUMBER_LEN as u64,
    }
}

// Appends a sector of "free" entries of the FAT, and names it in the DIFAT, where there is room; the header's numbers of the
// tables' sectors are written too. After a fault it has failed.
pub(crate) fn add_fat_sector<F: Medium>(
    sectors: &mut Sectors<F>,
    difat_sectors: &[u32],
    fat_count: usize,
) -> Result<u32, Error>
    requires few { count_of sectors.old ≤ greatest_regular }
    requires some { 0 < count_of sectors.old }
    requires there { AreBelow (count_of sectors.old) difat_sectors.now }
    requires room { fat_count < named_at_most (version_of sectors.old) (length difat_sectors.now) }
    requires most { fat_count ≤ count_of sectors.old }
    requires fewer { length difat_sectors.now ≤ count_of sectors.old }
    ensures number { IfOk result (λ n. n ≡ count_of sectors.old) }
    ensures appends { Appends (IsBesideDifat sectors.old difat_sectors.now)
        sectors.old sectors.new }
    ensures content { has_failed_here sectors.new ≡ false → IsHonest sectors.old
        → sector (version_of sectors.old) (bytes_of sectors.new) (count_of sectors.old)
        ≡ initial Fat (sector_len (version_of sectors.old)) }
    ensures listed { has_failed_here sectors.new ≡ false → IsHonest sectors.old
        → AreDistinct difat_sectors.now
        → (fat_sectors : List ℕ) → length fat_sectors ≡ fat_count
        → (h : Lists (version_of sectors.old) (bytes_of sectors.old) difat_sectors.now fat_sectors)
        → (m : Lists (version_of sectors.old) (bytes_of sectors.new) difat_sectors.now
        (fat_sectors ++ count_of sectors.old ∷ [])) × (m.stop ≡ h.stop) }
    ensures answer { has_failed_here sectors.new ≡ false → IsHonest sectors.old
        → (fat_sector_count (bytes_of sectors.new) ≡ fat_count + 1)
        × (difat_sector_count (bytes_of sectors.new) ≡ length difat_sectors.now) }
    ensures error_contract { WriteErrorContract result sectors.old sectors.new }
{
    let place = entry_place(sectors.version(), difat_sectors, fat_count);
    let sector_id = append_sector(sectors, NewSector::Init(SectorInit::Fat))?;
    write_word(sectors, place, sector_id)?;
    write_counts(sectors, fat_count as u32 + 1, difat_sectors.len() as u32)?;
    Ok(sector_id)
}

// Appends a sector of the DIFAT with "free" entries, and links it behind the others. After a fault it has failed.
pub(crate) fn add_difat_sector<F: Medium>(
    sectors: &mut Sectors<F>,
    difat_sectors: &[u32],
) -> Result<u32, Error>
    requires few { count_of sectors.old ≤ greatest_regular }
    requires some { 0 < count_of sectors.old }
    requires there { AreBelow (count_of sectors.old) difat_sectors.now }
    ensures number { IfOk result (λ n. n ≡ count_of sectors.old) }
    ensures appends { Appends (IsBesideDifat sectors.old difat_sectors.now)
        sectors.old sectors.new }
    ensures listed { has_failed_here sectors.new ≡ false → IsHonest sectors.old
        → AreDistinct difat_sectors.now → (fat_sectors : List ℕ)
        → Lists (version_of sectors.old) (bytes_of sectors.old) difat_sectors.now fat_sectors
        → (m : Lists (version_of sectors.old) (bytes_of sectors.new)
        (difat_sectors.now ++ count_of sectors.old ∷ []) fat_sectors) × (m.stop ≡ end_of_chain) }
    ensures not_failed { OnOk result (has_failed_here sectors.new ≡ false) }
    ensures after_error { OnErr result (has_failed_here sectors.new ≡ true) }
    ensures cause { IfErr result (IsJustifiedByMedium sectors.old sectors.new) }
    ensures errors { IfErr result (IsFaultOrInvalidInputIf ⊥) }
{
    let place = link_place(sectors.version(), difat_sectors);
    let sector_id = append_sector(sectors, NewSector::Init(SectorInit::Difat))?;
    write_word(sectors, place, sector_id)?;
    Ok(sector_id)
}
