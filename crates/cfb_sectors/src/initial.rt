//! What sectors hold when they are taken into use.
ghost use Rattle.cfb_medium.specs.Numbers.{number_bytes};
ghost use Rattle.cfb_sectors.specs.Copies.{copies};
ghost use Rattle.std.specs.Prelude.{ℕ, length, replicate, take, ◌*◌, ◌/◌, ◌%◌, ◌+◌, ◌++◌, ◌<◌, ◌≡◌, ◌≤◌};

use crate::consts::{DIR_ENTRY_LEN, END_OF_CHAIN, FREE_SECTOR};

// The bytes of a number of the FAT.
const NUMBER_LEN: usize = 4;

// Where a directory entry's siblings and child stand, and where they end.
const LINKS: usize = 68;

const LINKS_END: usize = 80;

/// What a sector of a kind holds when it is taken into use.
#[derive(Clone, Copy, Debug, PartialEq, Eq)]
pub enum SectorInit {
    /// Zeros.
    Zero,
    /// Entries of the FAT, each "free".
    Fat,
    /// Entries of the DIFAT, each "free", and the end of its chain.
    Difat,
    /// Directory entries in no use.
    Dir,
}

/// What a sector holds when it is taken into use: what one of a kind does, or bytes that are at hand.
#[derive(Clone, Copy)]
pub enum NewSector<'a> {
    /// What a sector of this kind holds.
    Init(SectorInit),
    /// These bytes, as many as it takes, and zeros behind them.
    Bytes(&'a [u8]),
}

// Fills the bytes with a number.
fn fill_numbers(bytes: &mut [u8], number: u32)
    requires { length bytes.old % 4 ≡ 0 }
    ensures { bytes.new ≡ number_bytes (replicate (length bytes.old / 4) number) }
{
    for i in 0..bytes.len() / NUMBER_LEN {
        bytes[NUMBER_LEN * i..NUMBER_LEN * i + NUMBER_LEN].copy_from_slice(&number.to_le_bytes());
    }
}

// Fills the bytes with directory entries.
fn fill_entries(bytes: &mut [u8], entry: &[u8; DIR_ENTRY_LEN])
    requires { length bytes.old % 128 ≡ 0 }
    ensures { bytes.new ≡ copies (length bytes.old / 128) entry.now }
{
    for i in 0..bytes.len() / DIR_ENTRY_LEN {
        bytes[DIR_ENTRY_LEN * i..DIR_ENTRY_LEN * i + DIR_ENTRY_LEN].copy_from_slice(entry);
    }
}

impl SectorInit {
    ghost use Rattle.cfb_sectors.specs.Initial.{initial};

    // Fills the bytes with what they hold at first.
    #[tactic(auto, unfolding(crate::specs::Initial::initial))]
    pub(crate) fn fill(self, bytes: &mut [u8])
        requires whole { length bytes.old % 128 ≡ 0 }
        requires some { 0 < length bytes.old }
        ensures { bytes.new ≡ initial self (length bytes.old) }
    {
        match self {
            SectorInit::Zero => bytes.fill(0),
            SectorInit::Fat => fill_numbers(bytes, FREE_SECTOR),
            SectorInit::Difat => {
                let last = bytes.len() - NUMBER_LEN;
                fill_numbers(&mut bytes[..last], FREE_SECTOR);
                bytes[last..].copy_from_slice(&END_OF_CHAIN.to_le_bytes());
            }
            SectorInit::Dir => {
                let mut entry = [0; DIR_ENTRY_LEN];
                entry[LINKS..LINKS_END].fill(0xFF);
                fill_entries(bytes, &entry);
            }
        }
    }
}

impl NewSector<'_> {
    ghost use Rattle.cfb_sectors.specs.Initial.{filling, first_bytes};

    // Fills the bytes with what they hold at first.
    pub(crate) fn fill(self, bytes: &mut [u8])
        requires whole { length bytes.old % 128 ≡ 0 }
        requires some { 0 < length bytes.old }
        ensures { bytes.new ≡ first_bytes self.entry (length bytes.old) }
    {
        match self {
            NewSector::Init(init) => init.fill(bytes),
            NewSector::Bytes(front) => {
                let count = front.len().min(bytes.len());
                bytes[..count].copy_from_slice(&front[..count]);
                bytes[count..].fill(0);
            }
        }
    }

    /// What the next sector holds once so many bytes of sectors before it were taken into use.
    pub fn behind(self, done: usize) -> Self
        ensures { (count len : ℕ) → done ≡ count * len
            → filling self.entry count len ++ first_bytes result len
            ≡ filling self.entry (count + 1) len }
    {
        match self {
            NewSector::Bytes(front) => {
                let (_, rest) = front.split_at(done.min(front.len()));
                NewSector::Bytes(rest)
            }
            NewSector::Init(_) => self,
        }
    }
}
