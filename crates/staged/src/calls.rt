//! Calls that were made to a device in memory.
use crate::Which;

/// A call on which it depends what a crash may leave.
#[derive(Drop)]
pub enum Call {
    /// These bytes were written at this place.
    Write(Which, u64, Vec<u8>),
    /// A file was synced.
    Sync(Which),
}
