//! How a log lies: its gate, its head, and its runs of pages.

/// The number of bytes of a page.
pub const PAGE: u64 = 512;

/// What a head begins with in the first form of the log: each page stands by itself, behind its number.
pub const FIRST_MAGIC: &[u8; 8] = b"MSISTG01";

/// What a head begins with in the second form, in which logs are written: neighbouring pages are one run, behind the number of the
/// first and how many they are.
pub const MAGIC: &[u8; 8] = b"MSISTG02";

/// Where the head begins, behind the gate: the magic, the length of the home file, the number of runs.
pub const HEAD: u64 = 1;

/// The number of bytes of a head.
pub const HEAD_LEN: usize = 24;

/// Where the runs begin.
pub const RUNS: u64 = 25;

/// How many bytes stand before the pages of a run: a number in 8 bytes, and in 4 how many pages they are.
pub const RUN_HEAD: usize = 12;

/// How many pages a run has at most.
pub const MOST: u32 = u32::MAX;
