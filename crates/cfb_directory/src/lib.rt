//! The directory of a compound file: its entries in memory, over the sectors that hold them.
#![tactic(auto)]

mod changes;
mod children;
mod directory;
mod free;
mod husk;
mod lending;
mod reading;
mod turning;
mod walk;

pub use changes::EntryChange;
pub use directory::Directory;
pub use husk::DirectoryHusk;
