//! Numbers of the format.

/// A header's bytes; in version 4 zeros follow them up to a sector's end.
pub const HEADER_LEN: usize = 512;

/// A directory entry's bytes.
pub const DIR_ENTRY_LEN: usize = 128;

/// The DIFAT entries in the header.
pub const NUM_DIFAT_ENTRIES_IN_HEADER: usize = 109;

/// The bytes that a compound file begins with.
pub const MAGIC_NUMBER: [u8; 8] = [0xD0, 0xCF, 0x11, 0xE0, 0xA1, 0xB1, 0x1A, 0xE1];

/// The minor version that is written.
pub const MINOR_VERSION: u16 = 0x3E;

/// The mark that numbers have their lowest byte first.
pub const BYTE_ORDER_MARK: u16 = 0xFFFE;

/// A mini sector has two to this many bytes.
pub const MINI_SECTOR_SHIFT: u16 = 6;

/// A mini sector's bytes.
pub const MINI_SECTOR_LEN: usize = 64;

/// A stream of fewer bytes lies in mini sectors.
pub const MINI_STREAM_CUTOFF: u32 = 4096;

/// The greatest number of a sector.
pub const MAX_REGULAR_SECTOR: u32 = 0xFFFF_FFFA;

/// The mark that is none.
pub const INVALID_SECTOR: u32 = 0xFFFF_FFFB;

/// The mark of a sector of the DIFAT.
pub const DIFAT_SECTOR: u32 = 0xFFFF_FFFC;

/// The mark of a sector of the FAT.
pub const FAT_SECTOR: u32 = 0xFFFF_FFFD;

/// The mark of a chain's end.
pub const END_OF_CHAIN: u32 = 0xFFFF_FFFE;

/// The mark of a sector in no use.
pub const FREE_SECTOR: u32 = 0xFFFF_FFFF;

/// The name of the root entry.
pub const ROOT_DIR_NAME: &str = "Root Entry";

/// The kind of an entry in no use.
pub const OBJ_TYPE_UNALLOCATED: u8 = 0;

/// The kind of a storage.
pub const OBJ_TYPE_STORAGE: u8 = 1;

/// The kind of a stream.
pub const OBJ_TYPE_STREAM: u8 = 2;

/// The kind of the root.
pub const OBJ_TYPE_ROOT: u8 = 5;

/// A red entry of a sibling tree.
pub const COLOR_RED: u8 = 0;

/// A black entry of a sibling tree.
pub const COLOR_BLACK: u8 = 1;

/// The number of the root entry.
pub const ROOT_STREAM_ID: u32 = 0;

/// The greatest number of an entry.
pub const MAX_REGULAR_STREAM_ID: u32 = 0xFFFF_FFFA;

/// The mark that an entry has no such sibling or child.
pub const NO_STREAM: u32 = 0xFFFF_FFFF;
