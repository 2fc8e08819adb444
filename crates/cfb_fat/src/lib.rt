//! DIFAT and FAT of a compound file in memory, and its sectors as they are taken into use and freed.
#![tactic(auto)]

mod access;
mod allocator;
mod changes;
mod difat;
mod fat;
mod growing;
mod header;
mod laws;
mod reading;
mod taking;

pub use allocator::Allocator;
pub use difat::{Difat, read_difat};
pub use fat::{read_joined, read_table};
pub use header::HeaderWord;
pub use laws::{lists_are_facts, use_a_chain};
